//! Tables of both queues, as an opening joins them.

use crate::asks::{Ask, item_of, one_item};
use crate::tables::{Entry, Held, has_entries, has_value};
use crate::told::assert_rows;
use raft_records::{Fault, FileId, LogItem, LogQueue};
use raft_rows::Row;
use raft_tables::{GlobalStats, MemTableRecoverContext, MemTables};
use std::alloc::Global;

/// The changes of group 1 in the Rewrite queue and in the Append queue.
struct Queues(&'static [Ask], &'static [Ask]);

/// The group's entries, its value at `k`, and how many of the Rewrite queue's entries and values
/// were deleted.
struct Found(&'static [Entry], Held, u64);

struct Opening(Queues, Found);

/// The files of the two queues.
const REWRITE: FileId = FileId {
    queue: LogQueue::Rewrite,
    seq: 1,
};

const APPEND: FileId = FileId {
    queue: LogQueue::Append,
    seq: 1,
};

static OPENINGS: [Opening; 14] = [
    Opening(Queues(&[], &[]), Found(&[], None, 0)),
    Opening(
        Queues(&[], &[Ask::Put(&[7]), Ask::Key(b"k", Some(b"2"))]),
        Found(&[(7, APPEND)], Some((b"2", APPEND)), 0),
    ),
    Opening(
        Queues(&[Ask::Put(&[1, 2]), Ask::Key(b"k", Some(b"1"))], &[]),
        Found(&[(1, REWRITE), (2, REWRITE)], Some((b"1", REWRITE)), 0),
    ),
    // Entries right after the rewritten ones, and entries that replace the last of them.
    Opening(
        Queues(&[Ask::Put(&[1, 2])], &[Ask::Put(&[3])]),
        Found(&[(1, REWRITE), (2, REWRITE), (3, APPEND)], None, 0),
    ),
    Opening(
        Queues(&[Ask::Put(&[1, 2, 3])], &[Ask::Put(&[2, 3])]),
        Found(&[(1, REWRITE), (2, APPEND), (3, APPEND)], None, 2),
    ),
    // The Append queue's entries aren't consecutive, and its last ones are next to the rewritten
    // ones.
    Opening(
        Queues(
            &[Ask::Put(&[1, 2, 3])],
            &[Ask::Put(&[5, 6]), Ask::Put(&[3])],
        ),
        Found(&[(1, REWRITE), (2, REWRITE), (3, APPEND)], None, 1),
    ),
    // The lowest first index counts, also if later entries replaced that entry.
    Opening(
        Queues(&[Ask::Put(&[1, 2, 3])], &[Ask::Put(&[2]), Ask::Put(&[4])]),
        Found(&[(4, APPEND)], None, 3),
    ),
    // Entries that begin far after the rewritten ones replace them.
    Opening(
        Queues(&[Ask::Put(&[1, 2, 3])], &[Ask::Put(&[7])]),
        Found(&[(7, APPEND)], None, 3),
    ),
    Opening(
        Queues(&[Ask::Put(&[1, 2, 3])], &[Ask::Compact(3)]),
        Found(&[(3, REWRITE)], None, 2),
    ),
    Opening(
        Queues(
            &[Ask::Put(&[1, 2, 3]), Ask::Key(b"k", Some(b"1"))],
            &[Ask::Clean, Ask::Put(&[9])],
        ),
        Found(&[(9, APPEND)], None, 4),
    ),
    Opening(
        Queues(&[Ask::Key(b"k", Some(b"1"))], &[Ask::Key(b"k", Some(b"2"))]),
        Found(&[], Some((b"2", APPEND)), 1),
    ),
    Opening(
        Queues(&[Ask::Key(b"k", Some(b"1"))], &[Ask::Key(b"k", None)]),
        Found(&[], None, 1),
    ),
    Opening(
        Queues(
            &[Ask::Key(b"k", Some(b"1"))],
            &[Ask::Key(b"k", Some(b"2")), Ask::Key(b"k", None)],
        ),
        Found(&[], None, 1),
    ),
    Opening(
        Queues(
            &[Ask::Key(b"k", Some(b"1"))],
            &[Ask::Key(b"j", Some(b"2")), Ask::Put(&[1])],
        ),
        Found(&[(1, APPEND)], Some((b"1", REWRITE)), 0),
    ),
];

fn push_all(alloc: Global, asks: &[Ask], items: &mut Vec<LogItem>) -> Result<(), Fault> {
    for ask in asks {
        items.push(item_of(alloc, 1, REWRITE, ask)?)?;
    }
    Ok(())
}

fn rewrite(
    alloc: Global,
    tables: &mut MemTables,
    asks: &[Ask],
    stats: &mut GlobalStats,
) -> Result<(), Fault> {
    let mut items = Vec::new(alloc);
    push_all(alloc, asks, &mut items)?;
    tables.apply_append_writes(&mut items, REWRITE, stats)
}

fn replay_one(
    alloc: Global,
    context: &mut MemTableRecoverContext,
    ask: &Ask,
    stats: &mut GlobalStats,
) -> Result<(), Fault> {
    let mut items = one_item(alloc, APPEND, ask)?;
    context.replay_append(&mut items, APPEND, stats)
}

fn replay(
    alloc: Global,
    context: &mut MemTableRecoverContext,
    asks: &[Ask],
    stats: &mut GlobalStats,
) -> Result<(), Fault> {
    for ask in asks {
        replay_one(alloc, context, ask, stats)?;
    }
    Ok(())
}

// The tables that an opening makes of both queues.
fn opened(alloc: Global, queues: &Queues, stats: &mut GlobalStats) -> Result<MemTables, Fault> {
    let mut tables = MemTables::new(alloc);
    rewrite(alloc, &mut tables, queues.0, stats)?;
    let mut context = MemTableRecoverContext::new(tables);
    replay(alloc, &mut context, queues.1, stats)?;
    let (tables, _) = context.join(stats)?;
    Ok(tables)
}

impl Row for Opening {
    type State = ();

    fn holds(&self, alloc: Global, _: &mut ()) -> Result<bool, Fault> {
        let Opening(queues, Found(entries, held, deleted)) = self;
        let mut stats = GlobalStats::new();
        let tables = opened(alloc, queues, &mut stats)?;
        Ok(
            has_entries(&tables, entries)
                && has_value(&tables, 1, b"k", held)
                && stats.deleted_rewrite_entries() == *deleted,
        )
    }
}

#[test]
fn tables_of_both_queues_are_joined(rt: HostRuntime) {
    assert_rows(&rt, rt.alloc(), &mut (), &OPENINGS);
}
