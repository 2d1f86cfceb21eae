//! The command line of raftctl: its commands as rows of a table, and the request of a line.
#![tactic(auto)]

mod arguments;
mod arranging;
mod building;
mod change_forms;
mod completion;
mod escaping;
mod forms;
mod look_forms;
mod modes;
mod request;

pub use arguments::parse;
pub use arranging::arrange;
pub use completion::completion_script;
pub use escaping::printable;
pub use modes::{mode_name, mode_named};
pub use request::{
    Changing, Dump, Import, Indexes, Load, Look, Options, Purge, Range, Request, Salvage, Verb,
    Watch,
};
