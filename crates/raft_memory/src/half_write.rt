//! What a write leaves after an injected refusal.
ghost use Rattle.std.specs.Prelude.{◌≡◌, ◌≤◌, ◌+◌, ◌^◌, ◌↔◌, IfErr, IsTrue, OnErr, OnOk};
ghost use Rattle.raft_env.specs.Directory.{IsWriting};
ghost use Rattle.raft_env.specs.Moments.{MovesBy};

use crate::memory::MemoryFileSystem;
use raft_env::FsFault;

const MAX_LEN: usize = 1 << 62;

impl MemoryFileSystem {
    ghost use Rattle.raft_memory.specs.Memory.{memory_directory, memory_moments, memory_refusals, armed_of, stop_of, half_left};

    /// Writes the first half of the bytes, rounded down, if a file exists there and has room for
    /// all of them. It fails only for lack of memory.
    pub(crate) fn write_half(&mut self, path: &str, at: usize, bytes: &[u8]) -> Result<(), FsFault>
        ensures ok { OnOk result (memory_directory self.new
            ≡ half_left path.now at bytes.now (memory_directory self.old)) }
        ensures err { OnErr result (memory_directory self.new ≡ memory_directory self.old) }
        ensures memory { IfErr result (λ e. e ≡ FsFault.Memory) }
        ensures any_moment { MovesBy memory_directory memory_moments memory_refusals
            (IsWriting path.now at bytes.now) self.old self.new }
        ensures counts { memory_refusals self.new ≡ memory_refusals self.old }
        ensures others { (armed_of self.new ≡ armed_of self.old)
            × (stop_of self.new ≡ stop_of self.old) }
    {
        if !fits(at, bytes.len()) {
            return Ok(());
        }
        let past = self.past.with(&self.namespace);
        let half = &bytes[..bytes.len() / 2];
        match self.namespace.write(path, at, bytes, half, false) {
            Ok(()) => {
                self.past = past;
                Ok(())
            }
            // No file stands there.
            Err(FsFault::Io(_)) => Ok(()),
            Err(FsFault::Memory) => Err(FsFault::Memory),
        }
    }
}

/// Whether a file has room for so many bytes from that place on.
pub(crate) fn fits(at: usize, size: usize) -> bool
    ensures { IsTrue result ↔ (at + size ≤ MAX_LEN) }
{
    at <= MAX_LEN && size <= MAX_LEN - at
}
