//! Plans of consecutive purges: the groups that the caller should compact, and those that are
//! rewritten.

use crate::told::assert_right;
use raft_base::{FileBlockHandle, FileId, LogQueue};
use raft_purge_rules::{Needs, Rounds, Watermarks, plan_purge};
use raft_records::{EntryIndex, Fault, LogItem, LogItemContent};
use raft_rows::{Row, first_wrong};
use raft_tables::{GlobalStats, MemTables};
use std::alloc::{AllocError, Global};
use std::mem;

/// A group with entries in a file of the Append queue: the group, the file, and the number of
/// entries, which begin at index 1.
struct Placed(u64, u64, u64);

/// The first group is old and has many entries, the second has few before the watermark, and the
/// third none.
static PLACED: [Placed; 3] = [Placed(1, 1, 40), Placed(2, 5, 31), Placed(3, 9, 50)];

/// Whether the Append queue needs a rewriting, the groups to compact, and the groups that are
/// rewritten.
struct Round(bool, &'static [u64], &'static [u64]);

static ROUNDS: [Round; 13] = [
    Round(true, &[1], &[2]),
    Round(true, &[1], &[2]),
    Round(true, &[1], &[2]),
    Round(true, &[1], &[2]),
    Round(false, &[], &[]),
    Round(true, &[1], &[2]),
    Round(true, &[1], &[2]),
    Round(true, &[1], &[2]),
    Round(true, &[1], &[2]),
    Round(true, &[1], &[2]),
    Round(true, &[1], &[1, 2]),
    Round(false, &[], &[]),
    Round(true, &[1], &[2]),
];

fn entries_of(alloc: Global, id: FileId, count: u64) -> Result<Vec<EntryIndex>, AllocError> {
    let mut entries = Vec::new(alloc);
    for index in 0..count {
        entries.push(EntryIndex {
            index: index + 1,
            entries: Some(FileBlockHandle {
                id,
                offset: 16,
                len: 9,
            }),
            entry_offset: 0,
            entry_len: 5,
            lz4: false,
        })?;
    }
    Ok(entries)
}

fn tables_of(alloc: Global, placed: &[Placed]) -> Result<MemTables, Fault> {
    let mut tables = MemTables::new(alloc);
    for Placed(group, seq, count) in placed {
        let id = FileId::new(LogQueue::Append, *seq);
        let mut items = Vec::new(alloc);
        items.push(LogItem {
            raft_group_id: *group,
            content: LogItemContent::EntryIndexes(entries_of(alloc, id, *count)?),
        })?;
        tables.apply_append_writes(&mut items, id, &mut GlobalStats::new())?;
    }
    Ok(tables)
}

fn are(groups: &[u64], wanted: &[u64]) -> bool {
    groups == wanted
}

/// Plans a purge and keeps its counts. Returns whether the plan names these groups.
fn plans(
    alloc: Global,
    tables: &MemTables,
    rounds: &mut Rounds,
    round: &Round,
) -> Result<bool, Fault> {
    let watermarks = Watermarks {
        rewrite: 8,
        compact: 3,
    };
    let needs = Needs {
        rewrite: false,
        append: if round.0 { Some(watermarks) } else { None },
    };
    let plan = plan_purge(alloc, tables, &needs, rounds)?;
    let is_wanted = are(&plan.asked, round.1) && are(&plan.rewritten, round.2);
    let before = mem::replace(rounds, Rounds::new(alloc));
    *rounds = plan.rounds.unwrap_or(before);
    Ok(is_wanted)
}

impl Row for Round {
    type State = (MemTables, Rounds);

    fn holds(&self, alloc: Global, state: &mut (MemTables, Rounds)) -> Result<bool, Fault> {
        let (tables, rounds) = state;
        plans(alloc, tables, rounds, self)
    }
}

// The index of the first round that ends otherwise.
fn wrong_round(alloc: Global) -> Result<Option<usize>, Fault> {
    let mut state = (tables_of(alloc, &PLACED)?, Rounds::new(alloc));
    first_wrong(alloc, &mut state, &ROUNDS)
}

#[test]
fn a_group_that_was_asked_for_in_vain_is_rewritten(rt: HostRuntime) {
    assert_right(&rt, wrong_round(rt.alloc()));
}
