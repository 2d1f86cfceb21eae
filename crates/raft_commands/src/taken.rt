//! Bytes that an opening takes out of log files, and what happens to them if the change then
//! fails.

use anyhow::Result;
use raft_command_line::Request;
use raft_console::note_made;
use std::alloc::{AllocError, Global};
use std::{fs, io};

/// What an opening takes out of a log file.
pub(crate) struct Taken {
    pub path: String,
    /// The offset from which bytes are cut off; `None` if the whole file is moved aside.
    pub offset: Option<u64>,
    pub len: u64,
    /// Whether an earlier file of this place left the bytes.
    pub stale: bool,
    /// The path, relative to the folder, of the file that keeps the bytes; `None` if they aren't
    /// kept.
    pub kept: Option<String>,
}

// One call in a proof that drops it; derived, it would be one of each field (docs/DECISIONS.md).
impl Drop for Taken {
    fn drop(self) {
        let Taken {
            path: _path,
            offset: _,
            len: _,
            stale: _,
            kept: _kept,
        } = self;
    }
}

/// Prints on standard error what an opening took out of log files.
pub(crate) fn note_taken(rt: &HostRuntime, request: &Request<'_>, taken: &[Taken]) -> Result<()> {
    for each in taken {
        note_made(rt, &request.options, note_of(rt.alloc(), each))?;
    }
    Ok(())
}

fn note_of(alloc: Global, taken: &Taken) -> Result<String, AllocError> {
    let (path, len) = (taken.path.as_str(), taken.len);
    let offset = taken.offset.unwrap_or(0);
    match &taken.kept {
        Some(kept) => format!(in alloc;
            "{path} was broken at {offset}: the {len} bytes from there on were cut off, \
            and are kept in {kept}"
        ),
        None if taken.stale => format!(in alloc;
            "{path}: {len} bytes from {offset} on, which an earlier file left, were cut off"
        ),
        None => format!(in alloc;
            "{path} was broken at {offset}: the {len} bytes from there on were cut off"
        ),
    }
}

/// After a failed change: deletes the files that keep bytes which the log still has, and prints
/// the others.
pub(crate) fn give_back(rt: &HostRuntime, request: &Request<'_>, taken: &[Taken]) -> Result<()> {
    if request.options.changing.dry_run {
        return Ok(());
    }
    for each in taken {
        if let (Some(offset), Some(kept)) = (each.offset, &each.kept) {
            if !remove_copy(
                rt,
                request.folder,
                each.path.as_str(),
                offset,
                kept.as_str(),
            ) {
                note_made(rt, &request.options, note_of_copy(rt.alloc(), each))?;
            }
        }
    }
    Ok(())
}

fn note_of_copy(alloc: Global, taken: &Taken) -> Result<String, AllocError> {
    let (path, len) = (taken.path.as_str(), taken.len);
    let offset = taken.offset.unwrap_or(0);
    match &taken.kept {
        Some(kept) => format!(in alloc; "{kept} keeps {len} bytes of {path} from {offset} on"),
        None => String::from_str(alloc, path),
    }
}

// Deletes the file that keeps bytes of a log file from a place on, if that has them. Returns
// whether it did.
fn remove_copy(rt: &HostRuntime, folder: &str, path: &str, offset: u64, kept: &str) -> bool {
    match has_copied(rt, folder, path, offset, kept) {
        Ok(true) => remove(rt, folder, kept).is_ok(),
        Ok(false) | Err(_) => false,
    }
}

fn remove(rt: &HostRuntime, folder: &str, name: &str) -> io::Result<()> {
    fs::remove_file(rt, format!(in rt.alloc(); "{folder}/{name}")?.as_str())
}

// Whether a file has the bytes of its copy at a place.
fn has_copied(
    rt: &HostRuntime,
    folder: &str,
    path: &str,
    offset: u64,
    kept: &str,
) -> io::Result<bool> {
    let bytes = bytes_in(rt, folder, path)?;
    let copied = bytes_in(rt, folder, kept)?;
    match bytes.get(usize::try_from(offset).unwrap_or(usize::MAX)..) {
        Some(rest) => Ok(rest.starts_with(&copied)),
        None => Ok(false),
    }
}

fn bytes_in(rt: &HostRuntime, folder: &str, name: &str) -> io::Result<Vec<u8>> {
    fs::read(rt, format!(in rt.alloc(); "{folder}/{name}")?.as_str())
}

/// After a failed change: prints the files that were moved aside before.
pub(crate) fn note_moved(rt: &HostRuntime, request: &Request<'_>, taken: &[Taken]) -> Result<()> {
    if request.options.changing.dry_run {
        return Ok(());
    }
    for each in taken {
        if let (None, Some(kept)) = (each.offset, &each.kept) {
            let text = format!(in rt.alloc(); "{} was moved aside to {kept}", each.path);
            note_made(rt, &request.options, text)?;
        }
    }
    Ok(())
}
