//! The checker as what a queue's batches are given to.
ghost use Rattle.std.specs.Prelude.{◌≡◌};

use crate::checker::ConsistencyChecker;
use raft_builder::MergingMachine;
use raft_opening::ReplayMachine;
use raft_records::{Fault, FileId, Fresh, LogItem, LogQueue};
use std::alloc::Global;

impl ReplayMachine for ConsistencyChecker {
    ghost use Rattle.raft_consistency.specs.Holes.{HasTaken};
    ghost use Rattle.raft_records.specs.FileBatches.{batches_of};

    ghost stands_for = { λ queue blocks earlier checker batches.
        HasTaken (batches_of batches) checker };

    fn replay(&mut self, items: &mut Vec<LogItem>, _file: FileId) -> Result<(), Fault> {
        self.take(items)?;
        Ok(())
    }
}

impl Fresh for ConsistencyChecker {
    ghost use Rattle.std.specs.Prelude.{[]};
    ghost use Rattle.raft_consistency.specs.Holes.{HasTaken};

    ghost is_fresh = { λ checker. HasTaken [] checker };

    fn fresh(alloc: Global) -> ConsistencyChecker {
        ConsistencyChecker::new(alloc)
    }
}

impl MergingMachine for ConsistencyChecker {
    fn merge(&mut self, newer: ConsistencyChecker, _queue: LogQueue) -> Result<(), Fault> {
        self.join(newer)?;
        Ok(())
    }
}
