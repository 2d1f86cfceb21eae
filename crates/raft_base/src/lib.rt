//! What all crates share: faults, files and places in them, sizes as they are written, and earlier
//! values for clauses.
#![tactic(auto)]

mod errors;
mod history;
pub mod laws;
mod lists;
mod pipe_log;
mod readable_size;

pub use errors::{Fault, IoKind};
pub use history::History;
pub use lists::{is_any, take_back};
pub use pipe_log::{FileBlockHandle, FileId, FileSeq, LogFileContext, LogQueue, Version};
pub use readable_size::ReadableSize;
