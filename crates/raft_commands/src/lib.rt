//! The commands of raftctl: looks at a folder, which change nothing, and changes by an engine.
#![tactic(auto)]

mod absent;
mod changed;
mod changes;
mod dumps;
mod entries;
mod guard;
mod holes;
mod kept;
mod keys;
mod lines;
mod looks;
mod numbered;
mod opening;
mod pictures;
mod purging;
mod repair;
mod spares;
mod stat;
mod stored;
mod taken;
mod taking;
mod waiting;
mod writing;

pub use looks::look;
pub use opening::config;
pub use writing::{change, change_by};
