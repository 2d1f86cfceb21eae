//! Operations on an engine as a list, and trials of them with a crash.
#![tactic(auto)]

pub mod laws;
mod number;
mod operation;
mod runs;
mod text_entry;
mod trials;

pub use number::number_of;
pub use operation::{Act, Op, Outcome, Trial};
pub use raft_log_engine::{Config, Engine, Image, RecoveryMode, Refused};
pub use runs::{run, step};
pub use text_entry::{TextEntry, entries_between};
pub use trials::{a_folder_alone_has_no_log_path, trial, trial_twice};
