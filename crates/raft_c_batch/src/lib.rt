//! Batches and results as bytes, for callers in other languages.
#![tactic(auto)]

mod batch;
mod entry;
mod laws;
mod parts;

pub use batch::{BatchFault, add_items};
pub use entry::Entry;
pub use laws::batch_round_trip;
pub use parts::{push_entries, push_numbers, push_pair};
