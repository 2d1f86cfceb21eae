//! A write that reached the file only with its first bytes, for example without space.
ghost use Rattle.std.specs.Prelude.{◌≡◌, ◌+◌, ◌<◌, ◌^◌, length, take, OnErr, OnOk};
ghost use Rattle.std.specs.String.{string_bytes};
ghost use Rattle.raft_env.specs.Directory.{HasFile, IsWriting, update_file};
ghost use Rattle.raft_env.specs.Moments.{MovesBy};
ghost use Rattle.raft_env.specs.Refusal.{CountsRefusalOf};

use crate::half_write::fits;
use crate::handles::MemoryWriter;
use crate::memory::MemoryFileSystem;
use raft_env::{FsFault, IoKind};

impl MemoryFileSystem {
    ghost use Rattle.raft_memory.specs.Memory.{memory_directory, memory_moments, memory_refusals, armed_of, stop_of, after_first};

    /// Writes the first `count` of the bytes. If these are not all, it notes a failed write. No
    /// fault is injected here.
    pub fn write_first(
        &mut self,
        writer: &mut MemoryWriter,
        at: usize,
        bytes: &[u8],
        count: usize,
    ) -> Result<(), FsFault>
        ensures writer { string_bytes writer.new.path ≡ string_bytes writer.old.path }
        ensures value { OnOk result (HasFile (memory_directory self.old)
            (string_bytes writer.old.path)) }
        ensures fits { OnOk result (at + length bytes.now < 2 ^ 63) }
        ensures ok { OnOk result (memory_directory self.new ≡ update_file
            (string_bytes writer.old.path) (after_first at bytes.now count)
            (memory_directory self.old)) }
        ensures err { OnErr result (memory_directory self.new ≡ memory_directory self.old) }
        ensures any_moment { MovesBy memory_directory memory_moments memory_refusals
            (IsWriting (string_bytes writer.old.path) at bytes.now) self.old self.new }
        ensures counts { CountsRefusalOf result (memory_refusals self.old)
            (memory_refusals self.new) }
        ensures others { (armed_of self.new ≡ armed_of self.old)
            × (stop_of self.new ≡ stop_of self.old) }
    {
        if !fits(at, bytes.len()) {
            return Err(self.refusals.count(FsFault::Io(IoKind::NoSpace)));
        }
        let path = writer.path.as_str();
        let first = first_of(bytes, count);
        let is_done = bytes.len() <= count;
        let past = self.past.with(&self.namespace);
        if let Err(fault) = self.namespace.write(path, at, bytes, first, is_done) {
            return Err(self.refusals.count(fault));
        }
        self.past = past;
        Ok(())
    }
}

fn first_of(bytes: &[u8], count: usize) -> &[u8]
    ensures { result.now ≡ take count bytes.now }
{
    match bytes.get(..count) {
        Some(first) => first,
        None => bytes,
    }
}
