//! What raftctl does with the contents of an open log: sums, entries that are removed from an index
//! on, and items of lines or of other files that are written.
#![tactic(auto)]

mod filling;
mod held;
mod held_keys;
mod import;
mod line_items;
mod line_source;
mod material;
mod replacing;
mod summing;
mod tables;
mod truncating;

pub use import::{LineImport, filter_of};
pub use material::Material;
pub use raft_log_engine::{Engine, LogBatch, Refused};
pub use summing::sum;
pub use tables::TableImport;
pub use truncating::truncate;
