//! The steps of a purge, and the log that they work on.
#![tactic(auto)]

mod fault;
mod log;
mod log_store;
mod steps;

pub use fault::StepFault;
pub use log::Log;
pub use log_store::LogStore;
pub use steps::{
    append_rewritten, append_synced, rotate, rotate_rewrite, sync_append, sync_rewrite,
};
