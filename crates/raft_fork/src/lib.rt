//! Copies of the log files of an engine that isn't open, from which another can be opened.
#![tactic(auto)]

mod copying;
mod forking;
pub mod laws;
mod marking;
mod source;

pub use forking::{CopyDetails, fork};
pub use marking::FORK_MARK;
