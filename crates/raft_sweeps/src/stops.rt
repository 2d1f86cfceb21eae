//! Lists that reuse dropped files, stopped at each call that changes files, and then crashed in
//! many ways.

use crate::bench::{Bench, Work, work_at};
use crate::lists::{List, all_lists};
use crate::told::tell;
use raft_memory::MemoryFileSystem;
use raft_test_rows::{Failing, Faulty, Left};
use std::alloc::{AllocError, Global};
use std::test::Fail;

const MAX_CALLS: u64 = 400;

// A crash leaves all unsynced bytes, none, or only the first of the bytes written since a sync,
// with zeros or ones in place of the others.
fn ways_of(alloc: Global, kept: usize) -> Result<Vec<Left>, AllocError> {
    let mut ways = vec![in alloc; Left::All, Left::Synced]?;
    for kept in 0..kept {
        ways.push(Left::Torn(kept, 0))?;
        ways.push(Left::Torn(kept, 255))?;
    }
    Ok(ways)
}

// Lets each change from the nth on fail. Returns whether there were so many; `None` if a state
// after a crash isn't allowed.
fn stop_at<F: Faulty>(
    alloc: Global,
    bench: &mut Bench<F>,
    work: &Work,
    nth: u64,
    ways: &[Left],
) -> Option<bool> {
    if !bench.run(alloc, work, Some(Failing::From(nth))) {
        return None;
    }
    let has_failed = bench.has_failed();
    if bench.finds_allowed(alloc, work, ways) {
        Some(has_failed)
    } else {
        None
    }
}

// The first number without a change to stop, if all outcomes before it are right.
fn first_missing<F: Faulty>(
    alloc: Global,
    bench: &mut Bench<F>,
    work: &Work,
    ways: &[Left],
) -> Option<u64> {
    for nth in 1..MAX_CALLS {
        if !stop_at(alloc, bench, work, nth, ways)? {
            return Some(nth);
        }
    }
    None
}

// Whether there are enough changes to stop at, and each outcome is right.
fn stops<F: Faulty>(alloc: Global, bench: &mut Bench<F>, list: &List, ways: &[Left]) -> bool {
    match work_at(alloc, bench, list) {
        Some(work) => match first_missing(alloc, bench, &work, ways) {
            Some(nth) => nth > list.changes,
            None => false,
        },
        None => false,
    }
}

fn stops_rightly<F: Faulty>(alloc: Global, bench: &mut Bench<F>, list: &List) -> bool {
    match ways_of(alloc, list.kept) {
        Ok(ways) => stops(alloc, bench, list, &ways),
        Err(_fault) => false,
    }
}

fn wrong_list<F: Faulty>(alloc: Global, bench: &mut Bench<F>) -> Option<(&'static str, usize)> {
    for (place, list) in all_lists().iter().enumerate() {
        if list.kept > 0 && !stops_rightly(alloc, bench, list) {
            return Some((list.name, place));
        }
    }
    None
}

fn wrong_stop<F: Faulty>(alloc: Global, files: F) -> Option<(&'static str, usize)> {
    let mut bench = Bench::new(alloc, files);
    let wrong = wrong_list(alloc, &mut bench);
    bench.end();
    wrong
}

#[test]
fn recycling_may_stop_at_each_change(rt: HostRuntime) -> Result<(), Fail> {
    tell(wrong_stop(rt.alloc(), MemoryFileSystem::new(rt.alloc())))
}
