//! The commands of raftctl that open no log: the settings in force, and a copy of the log files.
#![tactic(auto)]

mod copies;
mod forks;
mod settings;

pub use forks::fork_folder;
pub use settings::{print_settings, settings_of};
