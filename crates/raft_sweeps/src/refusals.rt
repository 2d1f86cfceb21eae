//! Lists in which one call on the files fails, and crashes that leave the files in three ways.

use crate::answers::begin_as_wanted;
use crate::bench::{Bench, Work, work_at};
use crate::lists::{List, Sort, all_lists};
use raft_env::IoKind;
use raft_memory::{FsCall, MemoryFileSystem};
use raft_test_rows::{CALLS, Failing, Faulty, Left, Outcome, first_refused};
use std::alloc::Global;
use std::test::Fail;

/// A sort of calls, which of them fails, and the kind of fault.
type Refusal = (FsCall, u64, IoKind);

const MAX_CALLS: u64 = 400;

const KINDS: [IoKind; 3] = [IoKind::NoSpace, IoKind::NotFound, IoKind::Other];

/// What a crash leaves of each log file.
static LEFTS: [Left; 3] = [Left::All, Left::Synced, Left::Torn(7, 255)];

// Whether the failed call makes no operation fail: room ahead is optional, and a record that finds
// no space goes to the next file. If that file's header finds none, the operation fails.
fn is_done_without(call: FsCall, kind: IoKind, refused: bool) -> bool {
    match (call, kind) {
        (FsCall::Allocate, _) => true,
        (FsCall::Write, IoKind::NoSpace) => !refused,
        _ => false,
    }
}

// The same for lists with reused files.
fn is_never_missed(call: FsCall) -> bool {
    matches!(
        call,
        FsCall::Rename | FsCall::FreeSpace | FsCall::DeleteMetadata | FsCall::Allocate
    )
}

// Whether an operation or the opening fails exactly if a call failed that it needs.
fn is_right(work: &Work, outcomes: &[Outcome], refusal: Refusal, is_met: bool) -> bool {
    let (call, _, kind) = refusal;
    let are_all = outcomes.len() == work.wanted.len();
    let failed = !are_all || first_refused(outcomes).is_some();
    match work.sort {
        Sort::Plain => failed == (is_met && !is_done_without(call, kind, failed)),
        _ => !failed || !is_never_missed(call),
    }
}

// Lets the call fail. Returns whether it was made; `None` if an outcome is wrong.
fn refuse_one<F: Faulty>(
    alloc: Global,
    bench: &mut Bench<F>,
    work: &Work,
    refusal: Refusal,
) -> Option<bool> {
    let failing = Failing::Nth(refusal.0, refusal.1, refusal.2);
    if !bench.run(alloc, work, Some(failing)) || !bench.is_told(work, refusal.2) {
        return None;
    }
    let is_met = bench.has_failed();
    let is_wanted = begin_as_wanted(&bench.ran.outcomes, &work.wanted)
        && is_right(work, &bench.ran.outcomes, refusal, is_met);
    if is_wanted && bench.finds_allowed(alloc, work, &LEFTS) {
        Some(is_met)
    } else {
        None
    }
}

// In two folders a list has calls of each sort.
fn is_last(work: &Work, nth: u64) -> bool {
    match work.sort {
        Sort::InTwoFolders => nth > 1,
        _ => true,
    }
}

// The number of the first call of the sort with a wrong outcome, before one that isn't made.
fn wrong_call<F: Faulty>(
    alloc: Global,
    bench: &mut Bench<F>,
    work: &Work,
    call: FsCall,
    kind: IoKind,
) -> Option<u64> {
    for nth in 1..MAX_CALLS {
        match refuse_one(alloc, bench, work, (call, nth, kind)) {
            Some(true) => {}
            Some(false) if is_last(work, nth) => return None,
            _ => return Some(nth),
        }
    }
    Some(MAX_CALLS)
}

fn wrong_in<F: Faulty>(alloc: Global, bench: &mut Bench<F>, work: &Work) -> Option<Refusal> {
    for call in &CALLS {
        for kind in &KINDS {
            if let Some(nth) = wrong_call(alloc, bench, work, *call, *kind) {
                return Some((*call, nth, *kind));
            }
        }
    }
    None
}

// The first call of a list with a wrong outcome; if the list fails without a failing call, call 0.
fn wrong_of<F: Faulty>(alloc: Global, bench: &mut Bench<F>, list: &List) -> Option<Refusal> {
    let nothing = Some((FsCall::Create, 0, IoKind::Other));
    match work_at(alloc, bench, list) {
        Some(work) => {
            let are_all = work.wanted.len() == work.ops.len();
            if are_all && first_refused(&work.wanted).is_none() {
                wrong_in(alloc, bench, &work)
            } else {
                nothing
            }
        }
        None => nothing,
    }
}

fn wrong_list<F: Faulty>(alloc: Global, bench: &mut Bench<F>) -> Option<(&'static str, Refusal)> {
    for list in all_lists() {
        if let Some(refusal) = wrong_of(alloc, bench, list) {
            return Some((list.name, refusal));
        }
    }
    None
}

fn wrong_refusal<F: Faulty>(alloc: Global, files: F) -> Option<(&'static str, Refusal)> {
    let mut bench = Bench::new(alloc, files);
    let wrong = wrong_list(alloc, &mut bench);
    bench.end();
    wrong
}

#[test]
fn each_call_may_be_refused(rt: HostRuntime) -> Result<(), Fail> {
    match wrong_refusal(rt.alloc(), MemoryFileSystem::new(rt.alloc())) {
        None => Ok(()),
        Some((name, (call, nth, kind))) => Err(Fail::new(format_args!(
            "{name}: {call:?} {nth} {kind:?}"
        ))),
    }
}
