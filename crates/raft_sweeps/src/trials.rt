//! Trials: operations, a crash and an opening in one call.

use crate::told::tell;
use raft_memory::Choice;
use raft_records::Fault;
use raft_test_rows::{
    Answer, Change, EMPTY, Image, Left, Op, Outcome, Plan, State, Trial, are_answers, choice_of,
    ops_of, settings, state_of, trial, trial_twice,
};
use std::alloc::Global;
use std::test::Fail;

const FIRST: State = State { a: 1, ..EMPTY };

const BOTH: State = State { b: 2, ..FIRST };

/// A put with a sync, one without, and reads of both.
static PLANS: [Plan; 4] = [
    Plan::Write(&[Change::Put(1, b"a", &[1])], true),
    Plan::Write(&[Change::Put(1, b"b", &[2])], false),
    Plan::Get(1, b"a"),
    Plan::Get(1, b"b"),
];

/// The results of these operations if nothing fails.
static ANSWERS: [Answer; 4] = [
    Answer::Size(28),
    Answer::Size(28),
    Answer::Value(Some(&[1])),
    Answer::Value(Some(&[2])),
];

/// Entries, some of which don't continue the earlier ones, and reads of them.
static ENTRIES: [Plan; 9] = [
    Plan::Write(&[Change::Entries(3, 1, 3, b"w")], false),
    Plan::Write(
        &[Change::Put(1, b"a", &[1]), Change::Entries(3, 5, 5, b"w")],
        true,
    ),
    Plan::Write(&[Change::Entries(3, 4, 4, b"w")], true),
    Plan::CompactTo(3, 2),
    Plan::Write(&[Change::Entries(3, 3, 3, b"x")], false),
    Plan::Entry(3, 3),
    Plan::First(3),
    Plan::Last(3),
    Plan::Groups,
];

/// A record of three entries of three bytes has 16 + 9 + 4 + 8 + 4 bytes, one of one entry 16 + 3
/// + 4 + 6 + 4.
static ENTRY_ANSWERS: [Answer; 9] = [
    Answer::Size(41),
    Answer::Fails(5),
    Answer::Size(33),
    Answer::Count(1),
    Answer::Size(33),
    Answer::Entry(3, b"x"),
    Answer::Index(Some(2)),
    Answer::Index(Some(3)),
    Answer::Groups(&[3]),
];

/// Entries, then a write group whose second batch doesn't continue them, and whose third asks for
/// a sync.
static GROUP: [Plan; 2] = [
    Plan::Write(&[Change::Entries(3, 1, 3, b"w")], false),
    Plan::WriteGroup(&[
        (&[Change::Put(1, b"a", &[1])], false),
        (&[Change::Entries(3, 5, 5, b"w")], false),
        (&[Change::Put(1, b"b", &[2])], true),
    ]),
];

static GROUP_ANSWERS: [Answer; 2] = [Answer::Size(41), Answer::Sizes(&[Ok(28), Err(5), Ok(28)])];

/// The state with the write group's entries.
const GROUPED: State = State {
    words: [0, b'w', b'w', b'w', 0, 0, 0, 0],
    ..BOTH
};

const REPLACED: State = State {
    words: [0, 0, b'w', b'x', 0, 0, 0, 0],
    ..EMPTY
};

const SYNCED: State = State {
    words: [0, b'w', b'w', b'w', b'w', 0, 0, 0],
    ..EMPTY
};

/// The operations of a trial.
#[derive(Clone, Copy)]
enum Script {
    Keys,
    Entries,
    Group,
}

/// The expected results of the operations; none if the opening is stopped.
#[derive(Clone, Copy)]
enum Returned {
    All(Script),
    Nothing,
}

// Each table is named by its own function, since a proof has the whole table at each step.
fn plans_of(script: Script) -> &'static [Plan] {
    match script {
        Script::Keys => PLANS.as_slice(),
        Script::Entries => ENTRIES.as_slice(),
        Script::Group => GROUP.as_slice(),
    }
}

fn answers_of(script: Script) -> &'static [Answer] {
    match script {
        Script::Keys => ANSWERS.as_slice(),
        Script::Entries => ENTRY_ANSWERS.as_slice(),
        Script::Group => GROUP_ANSWERS.as_slice(),
    }
}

/// A second crash: the call at which the opening after the first crash is stopped, and what the
/// second crash leaves.
struct Again(Option<u64>, Left);

/// Operations, a stop, what a crash leaves, perhaps a second crash, the operations' results, and
/// the recovered state or the fault's code.
struct Case(
    Script,
    Option<u64>,
    Left,
    Option<Again>,
    Returned,
    Result<State, u8>,
);

static CASES: [Case; 14] = [
    Case(
        Script::Keys,
        None,
        Left::All,
        None,
        Returned::All(Script::Keys),
        Ok(BOTH),
    ),
    Case(
        Script::Keys,
        None,
        Left::Synced,
        None,
        Returned::All(Script::Keys),
        Ok(FIRST),
    ),
    Case(
        Script::Keys,
        None,
        Left::Torn(1, 0),
        None,
        Returned::All(Script::Keys),
        Ok(FIRST),
    ),
    Case(
        Script::Keys,
        None,
        Left::Torn(1, 255),
        None,
        Returned::All(Script::Keys),
        Ok(FIRST),
    ),
    Case(
        Script::Group,
        None,
        Left::Synced,
        None,
        Returned::All(Script::Group),
        Ok(GROUPED),
    ),
    // The first call that changes files is the opening's.
    Case(
        Script::Keys,
        Some(1),
        Left::All,
        None,
        Returned::Nothing,
        Ok(EMPTY),
    ),
    // The contract of storage doesn't allow these bytes.
    Case(
        Script::Keys,
        None,
        Left::Bytes(&[]),
        None,
        Returned::Nothing,
        Err(1),
    ),
    Case(
        Script::Entries,
        None,
        Left::All,
        None,
        Returned::All(Script::Entries),
        Ok(REPLACED),
    ),
    Case(
        Script::Entries,
        None,
        Left::Synced,
        None,
        Returned::All(Script::Entries),
        Ok(SYNCED),
    ),
    Case(
        Script::Keys,
        None,
        Left::Synced,
        Some(Again(None, Left::All)),
        Returned::All(Script::Keys),
        Ok(FIRST),
    ),
    Case(
        Script::Keys,
        None,
        Left::All,
        Some(Again(None, Left::Synced)),
        Returned::All(Script::Keys),
        Ok(BOTH),
    ),
    Case(
        Script::Keys,
        None,
        Left::All,
        Some(Again(Some(1), Left::All)),
        Returned::All(Script::Keys),
        Ok(BOTH),
    ),
    Case(
        Script::Keys,
        None,
        Left::Torn(1, 0),
        Some(Again(Some(1), Left::Synced)),
        Returned::All(Script::Keys),
        Ok(FIRST),
    ),
    Case(
        Script::Keys,
        None,
        Left::Torn(1, 255),
        Some(Again(Some(2), Left::All)),
        Returned::All(Script::Keys),
        Ok(FIRST),
    ),
];

fn all_cases() -> &'static [Case] {
    CASES.as_slice()
}

fn is_returned(outcomes: &[Outcome], returned: Returned) -> bool {
    match returned {
        Returned::All(script) => are_answers(outcomes, answers_of(script)),
        Returned::Nothing => outcomes.is_empty(),
    }
}

fn is_found(opened: &Result<Image, Fault>, wanted: State) -> bool {
    match opened {
        Ok(image) => state_of(image) == wanted,
        Err(_) => false,
    }
}

// Whether the opening after the second crash finds the same state, or was stopped.
fn is_second(shown: &Trial, again: &Option<Again>, wanted: State) -> bool {
    match (&shown.second, again) {
        (Some(second), Some(again)) => match again.0 {
            Some(_) => second.is_err(),
            None => is_found(second, wanted),
        },
        (None, None) => true,
        _ => false,
    }
}

fn is_shown(case: &Case, shown: &Trial, wanted: State) -> bool {
    is_returned(&shown.outcomes, case.4)
        && shown.failed_at.is_none()
        && is_found(&shown.opened, wanted)
        && is_second(shown, &case.3, wanted)
}

fn is_right(case: &Case, tried: Result<Trial, Fault>) -> bool {
    match (&tried, &case.5) {
        (Ok(shown), Ok(wanted)) => is_shown(case, shown, *wanted),
        (Err(fault), Err(code)) => fault.code() == *code,
        _ => false,
    }
}

fn is_tried(alloc: Global, case: &Case, ops: &[Op], left: &[Choice]) -> bool {
    match settings(alloc) {
        Ok(config) => is_right(case, trial(alloc, config, ops, case.1, left)),
        Err(_fault) => false,
    }
}

fn is_tried_twice(
    alloc: Global,
    case: &Case,
    ops: &[Op],
    left: &[Choice],
    stop: Option<u64>,
    more: &[Choice],
) -> bool {
    match settings(alloc) {
        Ok(config) => is_right(
            case,
            trial_twice(alloc, config, ops, case.1, left, stop, more),
        ),
        Err(_fault) => false,
    }
}

fn is_tried_again(alloc: Global, case: &Case, ops: &[Op], left: &[Choice], again: &Again) -> bool {
    match choice_of(alloc, &again.1) {
        Ok(more) => is_tried_twice(alloc, case, ops, left, again.0, &[more]),
        Err(_fault) => false,
    }
}

fn is_left(alloc: Global, case: &Case, ops: &[Op], left: &[Choice]) -> bool {
    match &case.3 {
        None => is_tried(alloc, case, ops, left),
        Some(again) => is_tried_again(alloc, case, ops, left, again),
    }
}

fn is_crashed(alloc: Global, case: &Case, ops: &[Op]) -> bool {
    match choice_of(alloc, &case.2) {
        Ok(left) => is_left(alloc, case, ops, &[left]),
        Err(_fault) => false,
    }
}

fn is_done(alloc: Global, case: &Case) -> bool {
    match ops_of(alloc, plans_of(case.0)) {
        Ok(ops) => is_crashed(alloc, case, &ops),
        Err(_fault) => false,
    }
}

fn wrong_case(alloc: Global) -> Option<(&'static str, usize)> {
    for (place, case) in all_cases().iter().enumerate() {
        if !is_done(alloc, case) {
            return Some(("row", place));
        }
    }
    None
}

#[test]
fn trial_really_crashes(rt: HostRuntime) -> Result<(), Fail> {
    tell(wrong_case(rt.alloc()))
}
