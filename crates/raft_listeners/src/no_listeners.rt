//! Nobody listens to what happens to log files.
ghost use Rattle.std.specs.Prelude.{◌≡◌, ◌^◌, ◌≤◌, [], ◌∷◌, OnOk, IfErr};

use crate::listener::Event;
use raft_base::{Fault, History};
use std::marker::Model;
use std::mem;

/// Nobody: only clauses know the reported events.
#[derive(Drop)]
pub struct NoListeners {
    told: History<Event>,
}

impl Model for NoListeners {
    ghost use Rattle.raft_listeners.specs.Heard.{Heard};
    ghost use Rattle.std.specs.Prelude.{◌^◌, []};

    ghost Value = { Heard };

    ghost view = { λ l. record {
      given = 0;
      told = l.told.items;
      asked = [];
      room = 2 ^ 64;
    } };
}

impl NoListeners {
    ghost use Rattle.raft_listeners.specs.Heard.{HasHeard, IsSilent};

    /// Nothing was reported yet.
    pub fn new() -> NoListeners
        ensures silent { IsSilent 0 result }
    {
        NoListeners {
            told: History::new(),
        }
    }

    // It always has room for so many files.
    pub(crate) fn make_room(&mut self, _files: usize) -> Result<(), Fault>
        ensures ok { OnOk result (_files ≤ self.new.room) }
        ensures same { HasHeard [] self.old self.new }
        ensures cause { IfErr result (λ fault. fault ≡ Fault.Memory) }
    {
        let told = mem::replace(&mut self.told, History::new());
        self.told = told;
        Ok(())
    }

    // With this event too.
    pub(crate) fn note(&mut self, event: Event)
        ensures told { HasHeard (event ∷ []) self.old self.new }
    {
        self.told = self.told.with(&event);
    }
}
