//! The possible outcomes of operations when one call on the files fails, derived from the
//! operations that succeeded before.

use raft_env::IoKind;
use raft_records::Fault;
use raft_test_rows::{
    EMPTY, Op, Outcome, State, after, are_new, count_below, fault_of, is_done, is_refusal, value_of,
};

// Whether a read, a compaction or a `write_once` returns what the state says.
fn tells(state: State, op: &Op, outcome: &Outcome) -> bool {
    match (op, outcome) {
        (Op::Get(group, key), Outcome::Value(Ok(Some(value)))) => {
            value.first() == Some(&value_of(state, *group, key))
        }
        (Op::Get(group, key), Outcome::Value(Ok(None))) => value_of(state, *group, key) == 0,
        (Op::WriteOnce(_, pairs, _), Outcome::Size(Ok(size))) => (*size > 0)
            == are_new(state, pairs),
        (Op::CompactTo(group, index), Outcome::Count(Ok(count))) => {
            *count == count_below(state, *group, *index)
        }
        (Op::Entry(3, index), Outcome::Entry(Ok(Some(entry)))) => {
            state.words.get(*index as usize) == entry.word.first()
        }
        _ => true,
    }
}

// Whether the operation may have this outcome in this state: it fails with the failed call's
// fault, or later because the engine has failed.
fn is_told(state: State, op: &Op, outcome: &Outcome, kind: IoKind, refused: bool) -> bool {
    match fault_of(outcome) {
        Some(Fault::Failed) => refused,
        Some(fault) => is_refusal(fault, kind) && !refused,
        None => tells(state, op, outcome),
    }
}

/// Whether each operation has a possible outcome. At most one fails with the failed call's fault,
/// and those after it, if at all, with `Failed`.
pub(crate) fn are_told(ops: &[Op], outcomes: &[Outcome], kind: IoKind) -> bool {
    let mut state = EMPTY;
    let mut refused = false;
    for (op, outcome) in ops.iter().zip(outcomes.iter()) {
        if !is_told(state, op, outcome, kind, refused) {
            return false;
        }
        if is_done(outcome) {
            state = after(state, op);
        } else {
            refused = true;
        }
    }
    true
}

// The result of a purge depends on the number of files that were begun.
fn is_as_wanted(outcome: &Outcome, wanted: &Outcome) -> bool {
    matches!(outcome, Outcome::Dropped(_) | Outcome::ToCompact(_)) || *outcome == *wanted
}

/// Whether the outcomes before the first failure are the expected ones, except those of purges.
pub(crate) fn begin_as_wanted(outcomes: &[Outcome], wanted: &[Outcome]) -> bool {
    for (outcome, wanted) in outcomes.iter().zip(wanted.iter()) {
        if !is_done(outcome) {
            return true;
        }
        if !is_as_wanted(outcome, wanted) {
            return false;
        }
    }
    true
}
