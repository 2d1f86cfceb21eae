//! How one queue of log files is opened: read, replayed and settled, with its reserved files and
//! metadata.
#![tactic(auto)]

mod metadata;
mod opened_log;
mod pipe_builder;
pub mod prefill;
mod read;
mod replay;
mod settle;
pub mod still_laws;

pub use metadata::clear_metadata;
pub use opened_log::{OpenedLog, end_logs, open_logs, replay_logs};
pub use pipe_builder::{DEFAULT_FIRST_FILE_SEQ, settle_or_begin};
pub use prefill::SpareLimits;
pub use read::read_files;
pub use replay::{ReplayMachine, ReplayedLog};
