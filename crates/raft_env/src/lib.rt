//! The contract of storage: files, and what a crash may leave of them.
#![tactic(auto)]

mod env;
pub mod laws;
mod paths;

pub use env::{FileSystem, FsFault, IoKind, Permission};
pub use paths::{is_on_way, name_in, parent};
