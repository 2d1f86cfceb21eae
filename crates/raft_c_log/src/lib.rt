//! An open log for callers in other languages. Its calls return codes and leave their results as
//! bytes and numbers.
#![tactic(auto)]

mod answer;
mod calls;
pub mod laws;
mod numbers;
mod open_log;
mod opening;
mod scan;

pub use answer::Answer;
pub use calls::{Change, Fetch, Query, Scan};
pub use open_log::OpenLog;
pub use opening::Unopened;
pub use raft_log_engine::CacheCounts;
