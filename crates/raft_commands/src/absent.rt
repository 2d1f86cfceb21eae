//! Looks that find nothing.

use raft_command_line::Look;
use std::alloc::{AllocError, Global};

/// The text of a look that found nothing.
pub(crate) fn told_absent(alloc: Global, look: Look<'_>) -> Result<String, AllocError> {
    match look {
        Look::Get(group, key) => format!(in alloc; "group {group} has no key {key}"),
        Look::Entry(group, index) => format!(in alloc; "group {group} has no entry {index}"),
        Look::Verify(_) => {
            String::from_str(alloc, "a key exists after a gap, or has another value")
        }
        _ => String::from_str(alloc, "there is no such thing"),
    }
}
