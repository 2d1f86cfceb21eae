//! Lines on standard error.

use crate::limits::{ERRORS, check_stream};
use anyhow::Result;
use raft_command_line::printable;
use raft_inspect::{Lines, Word};
use std::str;

/// Prints a text as a line on standard error. With `json` the line is an object with the text under
/// this name. Else control characters, as a file's name may have them, are printed as `\x1b`.
pub fn tell(rt: &HostRuntime, json: bool, name: &'static str, text: &str) -> Result<()> {
    if json {
        let mut lines = Lines::new(rt.alloc(), true, false);
        lines.line(&[(name, Word::Text(text))])?;
        let line = str::from_utf8(lines.as_bytes())?;
        return print_error(rt, line);
    }
    let line = printable(rt.alloc(), text)?;
    print_error(rt, format!(in rt.alloc(); "raftctl: {line}\n")?.as_str())
}

/// Prints lines on standard error.
pub fn print_error(rt: &HostRuntime, lines: &str) -> Result<()> {
    check_stream(rt, ERRORS, lines.len())?;
    Ok(eprint!(rt; "{lines}")?)
}
