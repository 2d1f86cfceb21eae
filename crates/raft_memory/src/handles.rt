//! Handles, readers and writers of files in memory, and what a read copies.
ghost use Rattle.std.specs.Prelude.{◌≡◌};
ghost use Rattle.std.specs.String.{string_bytes};
ghost use Rattle.raft_env.specs.Directory.{IsReading};
ghost use Rattle.raft_env.specs.Refusal.{CountsRefusal};
ghost use Rattle.raft_memory.specs.Counted.{by_storage};

use crate::file_bytes::FileBytes;
use raft_env::{FsFault, IoKind};

pub struct MemoryHandle {
    pub(crate) path: String,
    pub(crate) may_write: bool,
}

// Proved once; derived, it would be proved in each crate that owns one (docs/DECISIONS.md).
impl Drop for MemoryHandle {
    fn drop(self) {
        let MemoryHandle {
            path: _path,
            may_write: _,
        } = self;
    }
}

pub struct MemoryReader {
    pub(crate) path: String,
    pub(crate) refused: u64,
}

impl Drop for MemoryReader {
    fn drop(self) {
        let MemoryReader {
            path: _path,
            refused: _,
        } = self;
    }
}

pub struct MemoryWriter {
    pub(crate) path: String,
}

impl Drop for MemoryWriter {
    fn drop(self) {
        let MemoryWriter { path: _path } = self;
    }
}

impl MemoryReader {
    /// Counts a failed read, and returns its fault.
    pub(crate) fn refuse(&mut self, kind: IoKind) -> FsFault
        ensures value { result ≡ FsFault.Io kind }
        ensures reader { string_bytes self.new.path ≡ string_bytes self.old.path }
        ensures counts { CountsRefusal result (by_storage self.old.refused)
            (by_storage self.new.refused) }
    {
        self.refused = self.refused.saturating_add(1);
        FsFault::Io(kind)
    }
}

/// As many bytes as there are from that place on, at most as many as fit.
pub(crate) fn copy_from(from: &FileBytes, at: usize, bytes: &mut [u8]) -> usize
    ensures { IsReading from.now at result bytes.old bytes.new }
{
    if at >= from.len() {
        return 0;
    }
    let count = bytes.len().min(from.len() - at);
    from.copy_to(at, &mut bytes[..count]);
    count
}
