//! The plan of an opening: each step that loses something or needs a word. All commands print it
//! alike, with the command that mends each item and one table of statuses. Only values: nothing
//! here reads a folder.
#![tactic(auto)]

mod command;
mod folder_items;
mod item;
mod kind;
mod plan;
mod planner;
mod queue_items;

pub use item::Item;
pub use kind::{Change, Kind, Row};
pub use plan::Plan;
pub use planner::{Known, Planner};
pub use queue_items::may_be_stray;
