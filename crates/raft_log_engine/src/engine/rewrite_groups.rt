//! Purges of the Rewrite queue in short calls.
ghost use Rattle.std.specs.Prelude.{◌≡◌, ◌↔◌, true};

use super::Engine;
use super::purge_kind::Purge;
use raft_env::FileSystem;
use raft_listeners::{EventSink, NoListeners};
use raft_purge::RenewalPart;
use raft_purge_rules::{NextGroups, next_groups};
use raft_records::Fault;

impl<F: FileSystem> Engine<F> {
    ghost use Rattle.raft_base.specs.declared.pipe_log.LogQueue.TheVariants.{Rewrite};
    ghost use Rattle.raft_log_engine.specs.Durability.{StaysFailed};
    ghost use Rattle.raft_log_engine.specs.Engine.{has_failed};
    ghost use Rattle.raft_log_engine.specs.Purge.{HasLastId, HasOpenGroup};
    ghost use Rattle.raft_log_engine.specs.PurgeCalls.{HearsOfPurge, PurgesLog};
    ghost use Rattle.raft_log_engine.specs.RewriteGroups.{RenewsGroups};

    /// Syncs everything that was written, and writes what groups have in the Rewrite queue's files
    /// to new files of it. It takes the known groups from one on: as many as cost together at most
    /// `budget` bytes, but at least one. A group costs 64 bytes for the look at it, and its entries
    /// and values there. Returns the group with which the next call begins, and none after the last
    /// one. The first call, with group 0, switches to the next file, unless earlier calls stopped
    /// halfway: then it uses their new files. After the last group the files before the new ones
    /// are dropped, all together, if none has contents and the batches of each atomic group are
    /// together. Writes and reads may come between these calls. An opening or another purge ends
    /// the series, and an `Err` may: then begin again with group 0, which switches to the next file
    /// once more. It changes no contents, and is refused, as `must_rewrite_rewrite_queue`.
    pub fn must_rewrite_rewrite_groups(
        &mut self,
        from: u64,
        budget: u64,
    ) -> Result<Option<u64>, Fault>
        ensures log { PurgesLog Rewrite (HasOpenGroup self.new) (HasLastId self.new)
            result self.old self.new }
        ensures groups { RenewsGroups from budget result self.old self.new }
        ensures failed { (result ≡ Err Fault.Failed) ↔ (has_failed self.old ≡ true) }
        ensures unchanged { has_failed self.old ≡ true → StaysFailed self.old self.new }
    {
        self.must_rewrite_rewrite_groups_with_listeners(from, budget, &mut NoListeners::new())
    }

    /// As `must_rewrite_rewrite_groups`, and listeners hear as in the other purges.
    pub fn must_rewrite_rewrite_groups_with_listeners<L: EventSink>(
        &mut self,
        from: u64,
        budget: u64,
        listeners: &mut L,
    ) -> Result<Option<u64>, Fault>
        ensures log { PurgesLog Rewrite (HasOpenGroup self.new) (HasLastId self.new)
            result self.old self.new }
        ensures groups { RenewsGroups from budget result self.old self.new }
        ensures failed { (result ≡ Err Fault.Failed) ↔ (has_failed self.old ≡ true) }
        ensures unchanged { has_failed self.old ≡ true → StaysFailed self.old self.new }
        ensures told { HearsOfPurge 1 result self.old self.new
            (L.heard listeners.old) (L.heard listeners.new) }
    {
        if self.failed {
            return Err(Fault::Failed);
        }
        let Ok(found) = next_groups(self.alloc, &self.log.tables, from, None, budget) else {
            return Err(Fault::Memory);
        };
        let NextGroups { groups, next } = found;
        let part = RenewalPart {
            groups,
            files: self.renewal,
            is_last: next.is_none(),
        };
        self.answer_purge(Purge::RenewGroups(part), listeners)?;
        Ok(next)
    }
}
