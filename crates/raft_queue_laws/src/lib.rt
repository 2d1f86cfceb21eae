//! What a crash leaves of a queue and of its files, and when the premise on damage can be met. Only
//! laws.
#![tactic(auto)]

pub mod damage;
pub mod files;
pub mod listing;
pub mod queue;
