//! Files that hold no record: they are kept to be used as next log files.

use raft_files::{build_reserved_file_name, parse_reserved_file_name};
use raft_records::Fault;
use std::alloc::Global;

/// Whether a file of this name is reserved.
pub fn is_reserved(alloc: Global, name: &str) -> Result<bool, Fault> {
    match parse_reserved_file_name(name) {
        Some(seq) => Ok(build_reserved_file_name(alloc, seq)?.as_str() == name),
        None => Ok(false),
    }
}
