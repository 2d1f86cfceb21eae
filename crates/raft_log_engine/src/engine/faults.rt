//! Refusals that a test arms in the files of an engine over memory.
ghost use Rattle.std.specs.Prelude.{◌≡◌, ◌<◌, ◌++◌, [], ◌∷◌, Some, OnOk, OnErr, IfErr};
ghost use Rattle.raft_memory.specs.Choice.{RefusesUnless};

use super::Engine;
use raft_env::IoKind;
use raft_memory::{FsCall, MemoryFileSystem};
use raft_records::Fault;

impl Engine<MemoryFileSystem> {
    ghost use Rattle.raft_log_engine.specs.Durability.{SameButArmed};
    ghost use Rattle.raft_log_engine.specs.Engine.{armed_in, stop_in};

    /// Arms one more refusal: from now on the nth call of that sort, counted from 1, fails so.
    pub fn refuse(&mut self, call: FsCall, nth: u64, kind: IoKind) -> Result<(), Fault>
        ensures ok { OnOk result (armed_in self.new ≡ armed_in self.old ++ (call, nth, kind) ∷ []) }
        ensures value { OnOk result (0 < nth) }
        ensures cause { IfErr result (RefusesUnless (0 < nth)) }
        ensures err { OnErr result (armed_in self.new ≡ armed_in self.old) }
        ensures others { stop_in self.new ≡ stop_in self.old }
        ensures unchanged { SameButArmed self.old self.new }
    {
        self.log.store.file_system.refuse(call, nth, kind)
    }

    /// From now on the nth call that may change files, counted from 1, and each later one fail as
    /// `Other`.
    pub fn stop_at(&mut self, nth: u64)
        ensures ok { stop_in self.new ≡ Some nth }
        ensures others { armed_in self.new ≡ armed_in self.old }
        ensures unchanged { SameButArmed self.old self.new }
    {
        self.log.store.file_system.stop_at(nth);
    }
}
