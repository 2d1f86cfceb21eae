//! Counts of the entries and values that were written to the Rewrite queue, and of those deleted
//! from it.

use crate::asks::Ask;
use crate::tables::apply_one;
use crate::told::assert_rows;
use raft_records::{Fault, FileId, LogQueue};
use raft_rows::Row;
use raft_tables::{GlobalStats, MemTables};
use std::alloc::Global;

enum Count {
    Add(LogQueue, u64),
    Delete(LogQueue, u64),
    Reset,
}

/// What is counted, and the counts of rewritten and deleted ones afterwards.
struct Counter(Count, u64, u64);

static COUNTS: [Counter; 6] = [
    Counter(Count::Add(LogQueue::Append, 9), 0, 0),
    Counter(Count::Add(LogQueue::Rewrite, 5), 5, 0),
    Counter(Count::Delete(LogQueue::Append, 4), 5, 0),
    Counter(Count::Delete(LogQueue::Rewrite, 2), 5, 2),
    Counter(Count::Reset, 3, 0),
    Counter(Count::Reset, 3, 0),
];

fn are_counted(stats: &GlobalStats, rewritten: u64, deleted: u64) -> bool {
    stats.rewritten_entries() == rewritten && stats.deleted_rewrite_entries() == deleted
}

impl Row for Counter {
    type State = GlobalStats;

    fn holds(&self, _: Global, stats: &mut GlobalStats) -> Result<bool, Fault> {
        match &self.0 {
            Count::Add(queue, n) => stats.add(*queue, *n),
            Count::Delete(queue, n) => stats.delete(*queue, *n),
            Count::Reset => stats.reset_rewrite_counters(),
        }
        Ok(are_counted(stats, self.1, self.2))
    }
}

#[test]
fn what_was_rewritten_is_counted(rt: HostRuntime) {
    let mut stats = GlobalStats::new();
    assert_rows(&rt, rt.alloc(), &mut stats, &COUNTS);
}

/// The queue of the file with an item of group 1, the item, and the counts of rewritten and
/// deleted entries and values afterwards.
struct Counted(LogQueue, Ask, u64, u64);

static COUNTED: [Counted; 19] = [
    Counted(LogQueue::Rewrite, Ask::Put(&[1, 2, 3]), 3, 0),
    Counted(LogQueue::Rewrite, Ask::Key(b"k", Some(b"1")), 4, 0),
    Counted(LogQueue::Rewrite, Ask::Key(b"__\x01", Some(b"\0")), 4, 0),
    Counted(LogQueue::Rewrite, Ask::Put(&[4, 6]), 4, 0),
    Counted(LogQueue::Append, Ask::Put(&[3, 4]), 4, 1),
    Counted(LogQueue::Append, Ask::Compact(2), 4, 2),
    Counted(LogQueue::Append, Ask::Key(b"k", Some(b"2")), 4, 3),
    Counted(LogQueue::Append, Ask::Key(b"k", None), 4, 3),
    Counted(LogQueue::Rewrite, Ask::Key(b"k", Some(b"3")), 5, 3),
    Counted(LogQueue::Append, Ask::Key(b"k", None), 5, 4),
    Counted(LogQueue::Append, Ask::Key(b"k", None), 5, 4),
    Counted(LogQueue::Rewrite, Ask::Key(b"k", Some(b"4")), 6, 4),
    Counted(LogQueue::Rewrite, Ask::Key(b"k", Some(b"5")), 7, 5),
    Counted(LogQueue::Append, Ask::Clean, 7, 7),
    Counted(LogQueue::Append, Ask::Clean, 7, 7),
    Counted(LogQueue::Append, Ask::Compact(9), 7, 7),
    Counted(LogQueue::Rewrite, Ask::Put(&[1, 2, 3]), 10, 7),
    Counted(LogQueue::Rewrite, Ask::Put(&[2, 3]), 12, 9),
    Counted(LogQueue::Rewrite, Ask::Put(&[9]), 13, 12),
];

impl Row for Counted {
    type State = (MemTables, GlobalStats);

    fn holds(&self, alloc: Global, state: &mut (MemTables, GlobalStats)) -> Result<bool, Fault> {
        let (tables, stats) = state;
        let Counted(queue, ask, rewritten, deleted) = self;
        apply_one(alloc, tables, FileId::new(*queue, 1), ask, stats)?;
        Ok(are_counted(stats, *rewritten, *deleted))
    }
}

#[test]
fn what_leaves_the_rewrite_queue_is_counted(rt: HostRuntime) {
    let mut state = (MemTables::new(rt.alloc()), GlobalStats::new());
    assert_rows(&rt, rt.alloc(), &mut state, &COUNTED);
}
