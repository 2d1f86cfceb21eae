//! The settings of an engine: defaults, contradictions, and the limits that follow from them.
#![tactic(auto)]

mod config;
mod table;

pub use config::{Config, RecoveryMode};
