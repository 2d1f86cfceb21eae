//! What a newer chunk of batches removes of the entries that an older chunk left.

use crate::steps::{GROUP, Step, items_of};
use crate::told::assert_row;
use raft_replay::Reaches;
use std::alloc::{AllocError, Global};

/// Items of two chunks, whether the newer chunk replaces all older entries, and otherwise which
/// indexes from 1 to 9 it leaves.
struct Case {
    name: &'static str,
    older: &'static [Step],
    newer: &'static [Step],
    replaces: bool,
    left: &'static [u64],
}

static CASES: [Case; 4] = [
    Case {
        name: "a hole in the newer chunk, and a compaction",
        older: &[Step::Entries(1, 10)],
        newer: &[Step::Entries(5, 6), Step::Compact(8), Step::Entries(9, 10)],
        replaces: true,
        left: &[],
    },
    Case {
        name: "a hole between the chunks",
        older: &[Step::Entries(1, 2)],
        newer: &[Step::Entries(5, 6), Step::Entries(3, 4)],
        replaces: true,
        left: &[1, 2],
    },
    Case {
        name: "the least start isn't the first one",
        older: &[Step::Entries(1, 5)],
        newer: &[Step::Entries(4, 6), Step::Entries(2, 2)],
        replaces: false,
        left: &[1],
    },
    Case {
        name: "a clean leaves nothing",
        older: &[Step::Entries(1, 5)],
        newer: &[Step::Entries(6, 6), Step::Clean, Step::Put],
        replaces: false,
        left: &[],
    },
];

fn note(alloc: Global, reaches: &mut Reaches, steps: &[Step]) -> Result<(), AllocError> {
    for step in steps {
        reaches.note(&items_of(alloc, *step)?)?;
    }
    Ok(())
}

fn leaves_as_said(newer: &Reaches, left: &[u64]) -> bool {
    let reach = newer.reach(GROUP);
    let mut as_said = true;
    for index in 1..10 {
        as_said = reach.leaves(index) == left.contains(&index) && as_said;
    }
    as_said
}

fn reaches_of(alloc: Global, steps: &[Step]) -> Result<Reaches, AllocError> {
    let mut reaches = Reaches::new(alloc);
    note(alloc, &mut reaches, steps)?;
    Ok(reaches)
}

// The items of both chunks in order.
fn whole_of(alloc: Global, case: &Case) -> Result<Reaches, AllocError> {
    let mut whole = reaches_of(alloc, case.older)?;
    note(alloc, &mut whole, case.newer)?;
    Ok(whole)
}

/// Whether the newer chunk leaves what the case says, and both chunks together reach what their
/// items in order reach.
fn do_as_said(case: &Case, mut older: Reaches, newer: Reaches, whole: &Reaches) -> bool {
    newer.reach(GROUP).replaces(&older.reach(GROUP)) == case.replaces
        && leaves_as_said(&newer, case.left)
        && older.then(newer).is_ok()
        && older.reach(GROUP) == whole.reach(GROUP)
}

fn is_as_said(alloc: Global, case: &Case) -> bool {
    let Ok(older) = reaches_of(alloc, case.older) else {
        return false;
    };
    let Ok(newer) = reaches_of(alloc, case.newer) else {
        return false;
    };
    let Ok(whole) = whole_of(alloc, case) else {
        return false;
    };
    do_as_said(case, older, newer, &whole)
}

#[test]
fn newer_chunks_leave_what_they_say(rt: HostRuntime) {
    for case in &CASES {
        assert_row(&rt, is_as_said(rt.alloc(), case), case.name);
    }
}
