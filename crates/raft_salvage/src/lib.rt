//! Commands of raftctl that write data from elsewhere to a log: from damaged files to a new log,
//! and from lines or another log's folder to this log.
#![tactic(auto)]

mod salvaging;
mod source_log;
mod takeover;

pub use salvaging::salvage;
pub use takeover::{import_folder, import_lines};
