//! The images that a crash may leave of a log, derived only from the operations on it and their
//! outcomes.
#![tactic(auto)]

mod answers;
mod batches;
mod changes;
mod groups;
mod images;
pub mod laws;
mod left;
mod order;
mod parts;
mod walk;

pub use left::allowed;
