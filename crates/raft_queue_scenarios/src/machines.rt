//! The first hole in each group's entries, found by one checker and by several that are merged.

use crate::steps::entry;
use crate::told::{assert_at, assert_row};
use raft_builder::merge_in_order;
use raft_consistency::ConsistencyChecker;
use raft_records::{Fault, LogItem, LogItemContent, LogQueue};
use std::alloc::{AllocError, Global};

/// A group, and the first and the last index of entries.
type Entries = (u64, u64, u64);

/// Entries in order, and for each group with a hole the last index before its first hole.
struct Case {
    name: &'static str,
    entries: &'static [Entries],
    wanted: &'static [(u64, u64)],
}

static CASES: [Case; 7] = [
    Case {
        name: "two holes",
        entries: &[(1, 1, 3), (1, 5, 6), (1, 9, 9)],
        wanted: &[(1, 3)],
    },
    Case {
        name: "no hole",
        entries: &[(1, 1, 3), (1, 4, 6), (1, 7, 7)],
        wanted: &[],
    },
    Case {
        name: "a hole between the halves comes before one in the newer half",
        entries: &[(1, 1, 1), (1, 3, 3), (1, 5, 5)],
        wanted: &[(1, 1)],
    },
    Case {
        name: "a hole in the older half comes before one in the newer half",
        entries: &[(1, 1, 1), (1, 3, 3), (1, 2, 2), (1, 4, 4)],
        wanted: &[(1, 1)],
    },
    Case {
        name: "entries that start again leave none",
        entries: &[(1, 1, 9), (1, 4, 5), (1, 6, 6)],
        wanted: &[],
    },
    Case {
        name: "two groups",
        entries: &[(7, 1, 3), (2, 1, 1), (7, 6, 6), (2, 4, 4)],
        wanted: &[(2, 1), (7, 3)],
    },
    Case {
        name: "the greatest index",
        entries: &[(1, u64::MAX - 1, u64::MAX - 1), (1, 0, 0)],
        wanted: &[],
    },
];

fn item(alloc: Global, entries: Entries) -> Result<LogItem, AllocError> {
    let (group, first, last) = entries;
    let mut indexes = Vec::new(alloc);
    indexes.push(entry(first))?;
    if first < last {
        indexes.push(entry(last))?;
    }
    Ok(LogItem {
        raft_group_id: group,
        content: LogItemContent::EntryIndexes(indexes),
    })
}

/// A checker that replayed these entries, each in its own batch.
fn checker(alloc: Global, entries: &[Entries]) -> Result<ConsistencyChecker, AllocError> {
    let mut checker = ConsistencyChecker::new(alloc);
    for one in entries {
        let mut items = Vec::new(alloc);
        items.push(item(alloc, *one)?)?;
        checker.take(&items)?;
    }
    Ok(checker)
}

fn are_holes(alloc: Global, checker: ConsistencyChecker, wanted: &[(u64, u64)]) -> bool {
    let Ok(holes) = checker.finish(alloc) else {
        return false;
    };
    for (group, last) in wanted {
        if holes.get(group) != Some(last) {
            return false;
        }
    }
    holes.len() == wanted.len()
}

/// A checker of the older entries merged with one of the newer ones.
fn in_halves(
    alloc: Global,
    older: &[Entries],
    newer: &[Entries],
) -> Result<ConsistencyChecker, Fault> {
    let mut whole = checker(alloc, older)?;
    whole.join(checker(alloc, newer)?)?;
    Ok(whole)
}

/// One machine for each batch of entries, merged.
fn apart(alloc: Global, entries: &[Entries]) -> Result<ConsistencyChecker, Fault> {
    let mut machines = Vec::new(alloc);
    for one in entries {
        machines.push(checker(alloc, &[*one])?)?;
    }
    machines.push(ConsistencyChecker::new(alloc))?;
    merge_in_order(machines, LogQueue::Append)
}

fn finds(alloc: Global, whole: Result<ConsistencyChecker, Fault>, wanted: &[(u64, u64)]) -> bool {
    match whole {
        Ok(whole) => are_holes(alloc, whole, wanted),
        Err(_) => false,
    }
}

#[test]
fn first_hole_of_each_group(rt: HostRuntime) {
    for case in &CASES {
        for cut in 0..case.entries.len() + 1 {
            let (older, newer) = case.entries.split_at(cut);
            let whole = in_halves(rt.alloc(), older, newer);
            assert_at(&rt, finds(rt.alloc(), whole, case.wanted), case.name, cut);
        }
        let whole = apart(rt.alloc(), case.entries);
        assert_row(&rt, finds(rt.alloc(), whole, case.wanted), case.name);
    }
}
