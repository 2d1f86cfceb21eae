//! A node's hard state, its term and its vote: saved before the node responds, and found again.
#![tactic(auto)]

mod hard_state;
pub mod laws;
mod saving;

pub use hard_state::HardState;
pub use saving::{load, save};
