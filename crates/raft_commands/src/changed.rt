//! The files of a log that is changed: those of a folder, or in a dry run those in memory.

use anyhow::Result;
use raft_disk::DiskFileSystem;
use raft_looks::{tell_refusal, told};
use raft_memory::MemoryFileSystem;

/// Files whose last refusal by the system can be read.
pub(crate) trait ChangedFiles {
    /// Prints on standard error which call the system refused last, and why. With `json` it is an
    /// object.
    fn tell_refusal(&self, rt: &HostRuntime, json: bool) -> Result<()>;

    /// Deletes the reserved files that weren't read, since the opening doesn't want them.
    fn delete_unread(&self, rt: &HostRuntime) -> Result<()>;
}

impl ChangedFiles for DiskFileSystem {
    fn tell_refusal(&self, rt: &HostRuntime, json: bool) -> Result<()> {
        tell_refusal(rt, self, json)
    }

    fn delete_unread(&self, rt: &HostRuntime) -> Result<()> {
        match self.delete_reserved() {
            Ok(()) => Ok(()),
            Err(fault) => Err(told(rt, &fault)),
        }
    }
}

impl ChangedFiles for MemoryFileSystem {
    fn tell_refusal(&self, _rt: &HostRuntime, _json: bool) -> Result<()> {
        Ok(())
    }

    fn delete_unread(&self, _rt: &HostRuntime) -> Result<()> {
        Ok(())
    }
}
