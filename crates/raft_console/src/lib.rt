//! What the commands of raftctl read and print: keys and values in any bytes, lines, and progress.
#![tactic(auto)]

mod input;
mod limits;
mod line_input;
mod output;
mod progress;
mod status;
mod streams;
mod telling;

use anyhow::anyhow;
pub use input::{bytes_of, file_or_input};
pub use limits::{batch_room, check_batch, check_file_limit, check_len};
pub use line_input::{
    EntryLine, GroupValue, LineForm, Pair, Spelling, member, read_entry_lines, read_lines,
    read_object, read_values,
};
pub use output::{Output, print_bytes};
pub use progress::Progress;
use raft_base::{Fault, IoKind};
use raft_command_line::Options;
pub use status::Status;
use std::alloc::AllocError;
pub use streams::take_closed_streams;
pub use telling::{print_error, tell};

/// An error: the failed action, its cause, and a remedy. The action and the cause have room for
/// 120 bytes each.
pub fn failure(what: &str, fault: &Fault) -> anyhow::Error {
    cause_of(fault).context(what)
}

/// The call's result, or an error with the failed action, its cause and a remedy.
pub fn or_failure<T>(called: Result<T, Fault>, what: &str) -> anyhow::Result<T> {
    match called {
        Ok(value) => Ok(value),
        Err(fault) => Err(failure(what, &fault)),
    }
}

fn cause_of(fault: &Fault) -> anyhow::Error {
    match fault {
        Fault::Io(IoKind::NoSpace, path) => anyhow!(
            "{path}: no space is left: free a block or more; everything that was confirmed is kept"
        ),
        Fault::TryAgain => anyhow!(
            "no space is left, in two files: free a block or more; everything that was confirmed \
            is kept"
        ),
        Fault::Io(IoKind::NotFound, path) => anyhow!("{path}: the system finds no such file"),
        Fault::Io(IoKind::Other, path) => anyhow!("{path}: the system refused a call on it"),
        Fault::Lz4 => anyhow!("{fault}; entries that Lz4 compressed are read by raft-engine alone"),
        _ => anyhow!("{fault}"),
    }
}

/// Prints a note on standard error, unless the options ask for quiet.
pub fn note(rt: &HostRuntime, options: &Options<'_>, text: &str) -> anyhow::Result<()> {
    if options.quiet {
        return Ok(());
    }
    tell(rt, options.json, "note", text)
}

/// Prints a text that was made for this note, as `note` does.
pub fn note_made(
    rt: &HostRuntime,
    options: &Options<'_>,
    text: Result<String, AllocError>,
) -> anyhow::Result<()> {
    note(rt, options, text?.as_str())
}
