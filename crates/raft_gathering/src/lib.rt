//! Reads all whole records of files into tables of their groups, and reports what could not be
//! read.
#![tactic(auto)]

mod gathering;
mod report;
mod sources;
mod tables;
mod telling;

pub use gathering::{Gathering, gather};
pub use report::{FileRead, Missing, Report, UnreadPlace};
pub use sources::{Part, Source, named_sources, sources_of};
pub use tables::{Group, Kept, Run, Tables};
pub use telling::{print_groups, print_missing};
