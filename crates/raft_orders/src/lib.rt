//! Files whose changes are given as orders, to a caller that carries them out before it trusts a
//! result.
#![tactic(auto)]

mod orders;

pub use orders::{OrderedFile, OrderedFileSystem, Orders, ordered_files};
