//! What both queues in the settings' folders hold, as contents, and what each call on one of them
//! makes of that.
#![tactic(auto)]

pub mod steps;
