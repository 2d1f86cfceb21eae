//! Operations that are stopped at each call that changes files, and crashed there in up to 132
//! ways.

use crate::lists::{CameTo, LEFTS, List};
use crate::tally::Tally;
use raft_memory::Choice;
use raft_records::Fault;
use raft_test_rows::{
    Left, MAX_FILES, Op, Outcome, Trial, choices_of, fault_of, first_refused, trial, trial_twice,
};
use std::alloc::{AllocError, Global};

const MAX_CALLS: u64 = 400;

/// The number of openings after a crash that have to succeed, each stopped one call later than the
/// one before.
const ANSWERED: u64 = 3;

/// After a crash that leaves one of these, the opening is stopped too.
static AGAIN: [Left; 2] = [Left::Synced, Left::Torn(7, 255)];

// A crash leaves all unsynced bytes, none, or only a number of the first bytes, with zeros or ones
// in place of the others.
fn ways(alloc: Global, most: usize) -> Result<Vec<Left>, AllocError> {
    let mut ways = vec![in alloc; Left::All, Left::Synced]?;
    for kept in 0..=most {
        ways.push(Left::Torn(kept, 0))?;
        ways.push(Left::Torn(kept, 255))?;
    }
    Ok(ways)
}

// Whether a trial found an allowed image.
fn is_left(alloc: Global, list: &List, shown: &Trial) -> Result<bool, Fault> {
    let Ok(found) = &shown.opened else {
        return Ok(false);
    };
    let ran = CameTo {
        is_opened: shown.refused.is_none(),
        outcomes: &shown.outcomes,
        failed_at: shown.failed_at,
    };
    list.allows(alloc, ran, found)
}

fn is_stopped(ops: &[Op], shown: &Trial) -> bool {
    shown.outcomes.len() != ops.len() || first_refused(&shown.outcomes).is_some()
}

// Counts a trial, as wrong unless it is right and found an allowed image.
fn judge(
    alloc: Global,
    list: &List,
    shown: &Trial,
    is_right: bool,
    tally: &mut Tally,
) -> Result<(), Fault> {
    if !is_right || !is_left(alloc, list, shown)? {
        tally.add_wrong(alloc, shown)?;
    }
    Ok(())
}

fn crash_to(
    alloc: Global,
    list: &List,
    stop: u64,
    choices: &[Choice],
    tally: &mut Tally,
) -> Result<bool, Fault> {
    let config = list.config(alloc)?;
    let shown = trial(alloc, config, &list.done, Some(stop), choices)?;
    tally.add_crash();
    judge(alloc, list, &shown, true, tally)?;
    Ok(is_stopped(&list.done, &shown))
}

// One crash. Returns whether the stop was reached.
fn crash_at(
    alloc: Global,
    list: &List,
    stop: u64,
    left: &Left,
    tally: &mut Tally,
) -> Result<bool, Fault> {
    crash_to(
        alloc,
        list,
        stop,
        &choices_of(alloc, left, MAX_FILES)?,
        tally,
    )
}

// Whether the last opening found the same as the one before, if that succeeded.
fn is_found_again(shown: &Trial) -> bool {
    match (&shown.second, &shown.opened) {
        (Some(Ok(image)), Ok(found)) => *image == *found,
        (Some(Ok(_)), Err(_)) => false,
        _ => true,
    }
}

// Stops the opening after a crash, and crashes it in the same way. Returns whether it succeeded
// nevertheless.
fn stop_opening(
    alloc: Global,
    list: &List,
    stop: u64,
    again: u64,
    choices: &[Choice],
    tally: &mut Tally,
) -> Result<bool, Fault> {
    let config = list.config(alloc)?;
    let ops = list.done.as_slice();
    let shown = trial_twice(
        alloc,
        config,
        ops,
        Some(stop),
        choices,
        Some(again),
        choices,
    )?;
    tally.add_in_opening();
    judge(alloc, list, &shown, is_found_again(&shown), tally)?;
    Ok(matches!(&shown.second, Some(Ok(_))))
}

// The same at each call that changes files.
fn stop_openings(
    alloc: Global,
    list: &List,
    stop: u64,
    left: &Left,
    tally: &mut Tally,
) -> Result<(), Fault> {
    let choices = choices_of(alloc, left, MAX_FILES)?;
    let mut answered: u64 = 0;
    for again in 1..MAX_CALLS {
        if stop_opening(alloc, list, stop, again, &choices, tally)? {
            answered = answered.saturating_add(1);
        }
        if answered == ANSWERED {
            return Ok(());
        }
    }
    Ok(())
}

// Crashes in each way at one stop, and after two of these stops the opening at each of its calls.
// Returns whether the stop was reached.
fn crash_each(
    alloc: Global,
    list: &List,
    stop: u64,
    ways: &[Left],
    tally: &mut Tally,
) -> Result<bool, Fault> {
    let mut stopped = false;
    for left in ways {
        stopped = crash_at(alloc, list, stop, left, tally)?;
    }
    for left in &AGAIN {
        stop_openings(alloc, list, stop, left, tally)?;
    }
    Ok(stopped)
}

/// Crashes at each stop, until a stop isn't reached.
pub(crate) fn each_stop(alloc: Global, list: &List, tally: &mut Tally) -> Result<(), Fault> {
    let ways = ways(alloc, list.kept)?;
    for stop in 1..MAX_CALLS {
        if !crash_each(alloc, list, stop, &ways, tally)? {
            break;
        }
        tally.add_call();
    }
    Ok(())
}

/// Crashes that leave only synced bytes, at each stop, compared with images derived as if each
/// plain write were synced. That many trials must be wrong, and the first one isn't printed.
pub(crate) fn objections(alloc: Global, list: &mut List, tally: &mut Tally) -> Result<(), Fault> {
    list.tell_as_synced();
    for stop in 1..MAX_CALLS {
        if !crash_at(alloc, list, stop, &Left::Synced, tally)? {
            break;
        }
        tally.add_call();
    }
    tally.first_wrong = None;
    Ok(())
}

// Whether there is no fault, or one that a refused request for memory explains.
fn is_without_memory(fault: Option<&Fault>) -> bool {
    match fault {
        Some(fault) => matches!(fault, Fault::Memory | Fault::Failed),
        None => true,
    }
}

fn are_so(outcomes: &[Outcome]) -> bool {
    for outcome in outcomes {
        if !is_without_memory(fault_of(outcome)) {
            return false;
        }
    }
    true
}

fn are_without_memory(shown: &Trial) -> bool {
    is_without_memory(shown.refused.as_ref())
        && is_without_memory(shown.opened.as_ref().err())
        && are_so(&shown.outcomes)
}

// Whether a trial without a stop found an allowed image, or memory ran out.
fn is_whole(alloc: Global, list: &List, shown: &Trial) -> Result<bool, Fault> {
    if !are_without_memory(shown) {
        return Ok(false);
    }
    Ok(shown.opened.is_err() || is_left(alloc, list, shown)?)
}

fn crash_whole(
    alloc: Global,
    list: &List,
    choices: &[Choice],
    tally: &mut Tally,
) -> Result<(), Fault> {
    let config = list.config(alloc)?;
    let shown = trial(alloc, config, &list.done, None, choices)?;
    tally.add_crash();
    if !is_whole(alloc, list, &shown)? {
        tally.add_wrong(alloc, &shown)?;
    }
    Ok(())
}

/// Crashes after all operations. If a request for memory is refused, as tools/refusals does, an
/// operation or an opening reports it, and the image is allowed.
pub(crate) fn without_stop(alloc: Global, list: &List, tally: &mut Tally) -> Result<(), Fault> {
    for left in &LEFTS {
        crash_whole(alloc, list, &choices_of(alloc, left, MAX_FILES)?, tally)?;
    }
    Ok(())
}
