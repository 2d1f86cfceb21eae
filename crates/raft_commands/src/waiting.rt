//! Opens a folder for a change, and waits for it if requested.

use crate::opening::config;
use anyhow::{Result, anyhow};
use raft_command_line::Request;
use raft_disk::{DiskFileSystem, FolderView, OpenFault};
use raft_looks::told;
use std::io::ErrorKind;
use std::thread;
use std::time::Duration;

/// How often it is tried again in a second.
const TRIES: u64 = 10;

/// The folder's files. It fails if another program has the folder open, or looks at it, for longer
/// than the request waits.
pub(crate) fn open_folder(rt: HostRuntime, request: &Request<'_>) -> Result<DiskFileSystem> {
    let tries = request.options.changing.wait.saturating_mul(TRIES);
    for turn in 0..=tries {
        match open_once(rt, request) {
            Ok(files) => return Ok(files),
            Err(OpenFault::InUse(_)) if turn < tries => {
                thread::sleep(&rt, Duration::from_millis(1000 / TRIES));
            }
            Err(OpenFault::InUse(_)) => return Err(in_use(rt, request.folder)),
            Err(fault) => return Err(unopened(&rt, request.folder, &fault)),
        }
    }
    Err(in_use(rt, request.folder))
}

// Why the folder cannot be opened.
fn unopened(rt: &HostRuntime, folder: &str, fault: &OpenFault) -> anyhow::Error {
    match fault {
        OpenFault::Io(_, e) if e.kind() == ErrorKind::AlreadyExists => {
            anyhow!("a file, or a link that leads nowhere, is in the folder's place").context(
                folder,
            )
        }
        _ => told(rt, fault),
    }
}

// Reserved files are read only if the settings want such files.
fn open_once(rt: HostRuntime, request: &Request<'_>) -> Result<DiskFileSystem, OpenFault> {
    let (folder, spill) = (request.folder, request.options.spill);
    if config(rt.alloc(), &request.options)?.prefill_for_recycle {
        return DiskFileSystem::open_with(rt, folder, spill);
    }
    DiskFileSystem::open_without_reserved(rt, folder, spill)
}

fn in_use(rt: HostRuntime, folder: &str) -> anyhow::Error {
    if is_looked_at(rt, folder) {
        return anyhow!("it is being looked at; `--wait SECONDS` waits for its end").context(folder);
    }
    anyhow!("it is open already; `--wait SECONDS` waits for its end").context(folder)
}

// Whether those that have it only look: they share the lock.
fn is_looked_at(rt: HostRuntime, folder: &str) -> bool {
    match FolderView::open(rt, folder) {
        Ok(view) => !view.is_in_use(),
        Err(_fault) => false,
    }
}
