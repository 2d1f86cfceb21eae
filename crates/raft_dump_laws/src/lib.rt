//! Laws: an opening does with the files of a queue what `raft_dump` plans.
#![tactic(auto)]

mod laws;

pub use laws::{a_plan_is_what_an_opening_does, the_files_behind_are_kept};
