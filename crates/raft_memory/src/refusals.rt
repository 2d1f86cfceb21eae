//! How often calls on files failed.
ghost use Rattle.std.specs.Prelude.{◌≡◌};
ghost use Rattle.raft_env.specs.Refusal.{CountsRefusal, NoFewer, added_count, no_refusals};

use raft_base::History;
use raft_env::FsFault;

/// Counts of failed calls, by storage and for lack of memory. Only clauses see the second one.
#[derive(Drop)]
pub struct RefusalCount {
    storage: u64,
    memory: History<()>,
}

impl RefusalCount {
    ghost use Rattle.raft_memory.specs.Counted.{by_storage, refusals_in};

    pub fn new() -> RefusalCount
        ensures { refusals_in result ≡ no_refusals }
    {
        RefusalCount {
            storage: 0,
            memory: History::new(),
        }
    }

    /// Counts the refusal, and returns it.
    pub fn count(&mut self, fault: FsFault) -> FsFault
        ensures value { result ≡ fault }
        ensures counts { CountsRefusal fault (refusals_in self.old) (refusals_in self.new) }
    {
        match fault {
            FsFault::Io(_) => self.storage = self.storage.saturating_add(1),
            FsFault::Memory => self.memory = self.memory.with(&()),
        }
        fault
    }

    /// Adds refusals by storage.
    pub(crate) fn add(&mut self, count: u64)
        ensures value { refusals_in self.new
            ≡ added_count (refusals_in self.old) (by_storage count) }
        ensures counts { NoFewer (refusals_in self.old) (refusals_in self.new) }
    {
        self.storage = self.storage.saturating_add(count);
    }

    pub fn storage(&self) -> u64
        ensures { result ≡ (refusals_in self.now).storage }
    {
        self.storage
    }
}
