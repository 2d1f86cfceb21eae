//! The program `raftlog` over any reader and writer: its lines, their requests and their results.
#![tactic(auto)]

mod answer;
mod line;
mod program;
mod scan;
mod settings;

pub use program::{Ended, serve};
