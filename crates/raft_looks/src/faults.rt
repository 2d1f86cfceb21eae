//! What the system said, in full: an error of the commands has room for 120 bytes.

use anyhow::{Error, Result, anyhow};
use raft_console::tell;
use raft_disk::{DiskFileSystem, OpenFault};

/// How many bytes an error's text may have.
const ROOM: usize = 120;

/// Why a folder cannot be opened, or a file in it read. A text for which an error has no room goes
/// to standard error before.
pub fn told(rt: &HostRuntime, fault: &OpenFault) -> Error {
    match format!(in rt.alloc(); "{fault}") {
        Ok(text) if text.len() > ROOM => {
            // What can't be told hides no error.
            let _ = tell(rt, false, "error", text.as_str());
            anyhow!("the folder cannot be read")
        }
        _ => anyhow!("{fault}"),
    }
}

/// Tells on standard error what the system refused last of a change; with `json` as an object.
pub fn tell_refusal(rt: &HostRuntime, files: &DiskFileSystem, json: bool) -> Result<()> {
    match files.refusal() {
        Some(refusal) => tell(rt, json, "error", refusal),
        None => Ok(()),
    }
}
