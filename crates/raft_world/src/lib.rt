//! All events that may happen to a log, and what an opening finds after them.
#![tactic(auto)]

pub mod calls;
pub mod laws;
