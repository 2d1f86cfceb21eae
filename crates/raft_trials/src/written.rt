//! Short lists of operations with their outcomes, and the images that may be left of them, written
//! by hand.

use crate::lists::numbered;
use crate::tally::Tally;
use raft_allowed::allowed;
use raft_records::{Fault, IoKind};
use raft_test_rows::{Change, Image, Op, Outcome, Plan, op_of};
use std::alloc::{AllocError, Global};

/// The result of an operation.
#[derive(Clone, Copy)]
enum Reply {
    Written,
    /// The numbers have already acted.
    Old,
    /// A write group of two batches, of which the second is refused.
    Grouped,
    Compacted,
    Failed,
    GroupFailed,
}

/// An operation, the numbers of a `write_once`, and the result.
struct Step(&'static [Plan], &'static [(u64, u64)], Reply);

/// A group's number; the first index of its entries, and their words of one byte each; its pairs.
#[derive(Clone, Copy)]
struct Row(
    u64,
    u64,
    &'static [u8],
    &'static [(&'static [u8], &'static [u8])],
);

/// The purpose of the case, operations with their results, the operation in which the engine
/// failed, and the images that may be left.
struct Case(
    &'static str,
    &'static [Step],
    Option<usize>,
    &'static [&'static [Row]],
);

const FIRST: Row = Row(1, 0, &[], &[(b"a", &[1])]);

const BOTH: Row = Row(1, 0, &[], &[(b"a", &[1]), (b"b", &[2])]);

const OTHER: Row = Row(1, 0, &[], &[(b"a", &[1]), (b"c", &[3])]);

const ALL: Row = Row(1, 0, &[], &[(b"a", &[1]), (b"b", &[2]), (b"c", &[3])]);

const ENTRIES: Row = Row(2, 1, b"ww", &[]);

/// The key under which a group's number is kept.
const NUMBER: &[u8] = b"\xffonce";

static CASES: [Case; 6] = [
    Case(
        "nothing is synced: each prefix",
        &[
            Step(
                &[Plan::Write(&[Change::Put(1, b"a", &[1])], false)],
                &[],
                Reply::Written,
            ),
            Step(
                &[Plan::Write(&[Change::Put(1, b"b", &[2])], false)],
                &[],
                Reply::Written,
            ),
        ],
        None,
        &[&[], &[FIRST], &[BOTH]],
    ),
    Case(
        "of a group any choice, but for entries that don't follow those that are there",
        &[
            Step(
                &[Plan::Write(
                    &[Change::Put(1, b"a", &[1]), Change::Entries(2, 1, 2, b"w")],
                    true,
                )],
                &[],
                Reply::Written,
            ),
            Step(
                &[Plan::WriteGroup(&[
                    (&[Change::Put(1, b"b", &[2])], false),
                    (&[Change::Entries(2, 5, 5, b"w")], false),
                    (&[Change::Put(1, b"c", &[3])], true),
                ])],
                &[],
                Reply::GroupFailed,
            ),
        ],
        Some(1),
        &[
            &[FIRST, ENTRIES],
            &[BOTH, ENTRIES],
            &[OTHER, ENTRIES],
            &[ALL, ENTRIES],
        ],
    ),
    Case(
        "entries over others, a compaction, and a clean by a write that fails",
        &[
            Step(
                &[Plan::Write(&[Change::Entries(3, 1, 4, b"w")], false)],
                &[],
                Reply::Written,
            ),
            Step(
                &[Plan::WriteGroup(&[
                    (&[Change::Entries(3, 3, 3, b"x")], true),
                    (&[Change::Entries(3, 9, 9, b"x")], false),
                ])],
                &[],
                Reply::Grouped,
            ),
            Step(&[Plan::CompactTo(3, 3)], &[], Reply::Compacted),
            Step(
                &[Plan::Write(&[Change::Clean(3)], false)],
                &[],
                Reply::Failed,
            ),
        ],
        Some(3),
        &[&[Row(3, 1, b"wwx", &[])], &[Row(3, 3, b"x", &[])], &[]],
    ),
    Case(
        "numbers act once, also the one in flight, and no image shows them",
        &[
            Step(
                &[Plan::Write(&[Change::Put(1, b"a", &[1])], true)],
                &[(1, 5)],
                Reply::Written,
            ),
            Step(
                &[Plan::Write(&[Change::Put(1, b"a", &[9])], false)],
                &[(1, 5)],
                Reply::Old,
            ),
            Step(
                &[Plan::Write(&[Change::Put(1, b"b", &[2])], false)],
                &[(1, 6), (2, 1)],
                Reply::Written,
            ),
            Step(
                &[Plan::Write(&[Change::Put(1, b"c", &[3])], true)],
                &[(1, 7)],
                Reply::Failed,
            ),
        ],
        Some(3),
        &[&[FIRST], &[BOTH], &[ALL]],
    ),
    Case(
        "a clean forgets the number: what is in flight with it may act",
        &[
            Step(
                &[Plan::Write(&[Change::Put(1, b"a", &[9])], true)],
                &[(1, 5)],
                Reply::Written,
            ),
            Step(
                &[Plan::Write(&[Change::Clean(1)], true)],
                &[],
                Reply::Written,
            ),
            Step(
                &[Plan::Write(&[Change::Put(1, b"a", &[1])], true)],
                &[(1, 5)],
                Reply::Failed,
            ),
        ],
        Some(2),
        &[&[], &[FIRST]],
    ),
    Case(
        "an ordinary write changes no number, and so nothing of it is in flight",
        &[
            Step(
                &[Plan::Write(&[Change::Put(1, b"a", &[1])], true)],
                &[(1, 5)],
                Reply::Written,
            ),
            Step(
                &[Plan::Write(
                    &[Change::Put(1, b"b", &[2]), Change::Put(1, NUMBER, &[])],
                    true,
                )],
                &[],
                Reply::Failed,
            ),
        ],
        Some(1),
        &[&[FIRST]],
    ),
];

// The table is named by its own function, since a proof has the whole table at each step.
fn all_cases() -> &'static [Case] {
    CASES.as_slice()
}

fn ops_in(alloc: Global, steps: &[Step]) -> Result<Vec<Op>, AllocError> {
    let mut ops = Vec::new(alloc);
    for step in steps {
        for plan in step.0 {
            ops.push(numbered(alloc, op_of(alloc, plan)?, step.1)?)?;
        }
    }
    Ok(ops)
}

fn failure(alloc: Global) -> Result<Fault, AllocError> {
    Ok(Fault::Io(IoKind::Other, String::from_str(alloc, "raft/1")?))
}

fn outcome_of(alloc: Global, reply: Reply) -> Result<Outcome, AllocError> {
    match reply {
        Reply::Written => Ok(Outcome::Size(Ok(28))),
        Reply::Old => Ok(Outcome::Size(Ok(0))),
        Reply::Grouped => {
            let answers = vec![in alloc; Ok(33), Err(Fault::Gap)]?;
            Ok(Outcome::Sizes(Ok(answers)))
        }
        Reply::Compacted => Ok(Outcome::Count(Ok(2))),
        Reply::Failed => Ok(Outcome::Size(Err(failure(alloc)?))),
        Reply::GroupFailed => Ok(Outcome::Sizes(Err(failure(alloc)?))),
    }
}

fn outcomes_in(alloc: Global, steps: &[Step]) -> Result<Vec<Outcome>, AllocError> {
    let mut outcomes = Vec::new(alloc);
    for step in steps {
        outcomes.push(outcome_of(alloc, step.2)?)?;
    }
    Ok(outcomes)
}

// The text of an entry is its index as one digit, a colon and the word.
fn is_entry(entry: &(u64, Vec<u8>), index: u64, word: u8) -> bool {
    match entry.1.as_slice() {
        [digit, b':', byte] => {
            entry.0 == index && u64::from(*digit) == index.saturating_add(48) && *byte == word
        }
        _ => false,
    }
}

fn are_entries(entries: &[(u64, Vec<u8>)], first: u64, words: &[u8]) -> bool {
    let mut equal = entries.len() == words.len();
    let mut index = first;
    for (entry, word) in entries.iter().zip(words) {
        equal = equal && is_entry(entry, index, *word);
        index = index.saturating_add(1);
    }
    equal
}

fn are_pairs(pairs: &[(Vec<u8>, Vec<u8>)], wanted: &[(&[u8], &[u8])]) -> bool {
    let mut equal = pairs.len() == wanted.len();
    for (pair, wanted) in pairs.iter().zip(wanted) {
        equal = equal && pair.0.as_slice() == wanted.0 && pair.1.as_slice() == wanted.1;
    }
    equal
}

fn is_image(image: &Image, rows: &[Row]) -> bool {
    let mut equal = image.groups.len() == rows.len();
    for (group, row) in image.groups.iter().zip(rows) {
        equal = equal
            && group.group == row.0
            && are_entries(&group.entries, row.1, row.2)
            && are_pairs(&group.pairs, row.3);
    }
    equal
}

fn are_images(found: &[Image], wanted: &[&[Row]]) -> bool {
    let mut equal = found.len() == wanted.len();
    for (image, rows) in found.iter().zip(wanted) {
        equal = equal && is_image(image, rows);
    }
    equal
}

// Whether exactly these images are allowed, in this order.
fn is_as_written(
    alloc: Global,
    case: &Case,
    ops: &[Op],
    outcomes: &[Outcome],
) -> Result<bool, Fault> {
    Ok(are_images(&allowed(alloc, ops, outcomes, case.2)?, case.3))
}

fn is_refused(answer: Result<Vec<Image>, Fault>) -> bool {
    match answer {
        Ok(_images) => false,
        Err(fault) => fault.code() == 1,
    }
}

// Whether a list of outcomes with another length than the operations is refused, and a place after
// them too.
fn misfits_are_refused(alloc: Global, ops: &[Op], outcomes: &[Outcome]) -> bool {
    is_refused(allowed(alloc, ops, &[], None))
        && is_refused(allowed(alloc, ops, outcomes, Some(ops.len())))
}

fn is_right(alloc: Global, case: &Case) -> Result<bool, Fault> {
    let ops = ops_in(alloc, case.1)?;
    let outcomes = outcomes_in(alloc, case.1)?;
    Ok(is_as_written(alloc, case, &ops, &outcomes)? && misfits_are_refused(alloc, &ops, &outcomes))
}

/// Checks the allowed images of each list.
pub(crate) fn each_list(alloc: Global, tally: &mut Tally) -> Result<(), Fault> {
    for case in all_cases() {
        if case.2.is_some() {
            tally.add_call();
        }
        tally.add_crash();
        if !is_right(alloc, case)? {
            tally.add_wrong(alloc, &case.0)?;
        }
    }
    Ok(())
}
