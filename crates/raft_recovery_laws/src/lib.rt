//! The laws of recovered contents.
#![tactic(auto)]

pub mod bound_laws;
pub mod drop_append_laws;
pub mod drop_rewrite_laws;
pub mod group_laws;
pub mod laws;
pub mod rewrite_laws;
pub mod stands_laws;
pub mod takes_laws;
