//! Checksums (SHA-256) of a log's contents, which don't depend on the layout of the files.
#![tactic(auto)]

mod group;
mod log;

pub use group::GroupSum;
pub use log::LogSum;
