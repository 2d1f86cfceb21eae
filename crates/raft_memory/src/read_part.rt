//! Reads of a part of a file in memory by its path.
ghost use Rattle.std.specs.Prelude.{◌≡◌, ◌⊎◌, drop, take, OnOk};
ghost use Rattle.raft_env.specs.Directory.{IsPartAt, file_at};
ghost use Rattle.raft_env.specs.Moments.{OnlyReads};

use crate::armed::FsCall;
use crate::file_bytes::FileBytes;
use crate::memory::MemoryFileSystem;
use raft_env::{FsFault, IoKind};
use std::alloc::AllocError;

impl MemoryFileSystem {
    ghost use Rattle.raft_memory.specs.Memory.{memory_directory, memory_moments, memory_refusals, armed_of, stop_of, CountsCall};
    ghost use Rattle.raft_memory.specs.Armed.{arms_after_block, due_in_block};
    ghost use Rattle.raft_memory.specs.Refused.{IsMissing, RefusesAs, WasArmed};

    /// As `FileSystem::read_block`. It counts as four calls: to open the file, for its size, for a
    /// reader, and for a read.
    pub(crate) fn read_part(
        &mut self,
        path: &str,
        at: usize,
        len: usize,
        bytes: &mut Vec<u8>,
    ) -> Result<(), FsFault>
        ensures ok { OnOk result (IsPartAt (file_at (memory_directory self.old) path.now) at len
            bytes.new.items) }
        ensures unchanged { OnlyReads memory_directory memory_moments memory_refusals self.old
            self.new }
        ensures counts { CountsCall result self.old self.new }
        ensures cause { RefusesAs (due_in_block (armed_of self.old))
            (λ e. WasArmed (arms_after_block (armed_of self.old)) FsCall.Read e
            ⊎ IsMissing (memory_directory self.old) path.now e) result }
        ensures stop { stop_of self.new ≡ stop_of self.old }
        ensures armed { armed_of self.new ≡ arms_after_block (armed_of self.old) }
    {
        if let Some(kind) = self.armed.fault_for_block() {
            return Err(self.refusals.count(FsFault::Io(kind)));
        }
        if let Some(kind) = self.armed.fault_for_read() {
            return Err(self.refusals.count(FsFault::Io(kind)));
        }
        let Some(file) = self.namespace.files.get(path) else {
            return Err(self.refusals.count(FsFault::Io(IoKind::NotFound)));
        };
        match copy_part(file.bytes(), at, len, bytes) {
            Ok(()) => Ok(()),
            Err(_) => Err(self.refusals.count(FsFault::Memory)),
        }
    }
}

// As many bytes as there are from that place on, at most so many, in place of the buffer's own.
fn copy_part(from: &FileBytes, at: usize, len: usize, bytes: &mut Vec<u8>) -> Result<(), AllocError>
    ensures { OnOk result (bytes.new.items ≡ take len (drop at from.now)) }
{
    bytes.clear();
    if at >= from.len() {
        return Ok(());
    }
    let count = len.min(from.len() - at);
    from.push_to(at, count, bytes)
}
