//! Laws of an index that represents the queues' contents: what writes, openings and rewritings make
//! of it.
#![tactic(auto)]

pub mod gathering;
pub mod groups;
pub mod known;
pub mod last_file;
pub mod laws;
pub mod new_files;
pub mod places;
pub mod rewriting_laws;
pub mod rewriting_steps;
pub mod steps;
