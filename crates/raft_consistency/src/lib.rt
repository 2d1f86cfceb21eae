//! Finds holes in the entries that a log's files hold.
#![tactic(auto)]

mod check;
mod checker;
mod in_memory;
mod replaying;

pub use check::consistency_check_with_file_system;
pub use checker::ConsistencyChecker;
pub use in_memory::consistency_check;
