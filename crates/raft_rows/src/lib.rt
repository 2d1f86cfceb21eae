//! What tests share: tables of rows, files made of parts, and folders of the operating system. Only
//! tests use it.
#![tactic(auto)]

mod files;
mod folders;
mod rows;

pub use files::{FileParts, HEADER, NOTHING, PUT, PUTS, ZEROS, fill, store, store_in};
pub use folders::temp_folder;
pub use rows::{Row, first_wrong};
