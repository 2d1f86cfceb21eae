//! Calls of a shared engine while memory is refused. With enough memory each succeeds. If the Nth
//! request is refused (`tools/fail-alloc`, `rt try --test --fail-alloc N`), a call that fails has
//! recorded nothing, and can be made again.

use crate::asked::{Ask, fault_of};
use crate::seated::{Faulty, MEMORY, Seated};
use raft_log_engine::{Fault, MemoryFileSystem};
use raft_shared::{Receipt, Seat};
use std::alloc::Global;
use std::test::Fail;

/// The number of receipts that the calls must give.
const CALLS: usize = 3;

static ASKED: [Ask; CALLS] = [Ask::Put(1, b"k", b"v"), Ask::Get(1, b"k"), Ask::Last(1)];

/// The outcome of a call.
#[derive(Clone, Copy, PartialEq)]
enum Made {
    Done,
    /// The put was recorded, and failed out of memory.
    Refused,
    /// The call failed out of memory.
    Failed,
    /// The call had an outcome that isn't possible.
    Wrong,
}

fn made_of(answer: Result<Receipt, Fault>, number: usize) -> Made {
    match &answer {
        Ok(receipt) => {
            if receipt.number != number {
                Made::Wrong
            } else if fault_of(&receipt.reply).is_some() {
                Made::Refused
            } else {
                Made::Done
            }
        }
        Err(fault) => {
            if fault.code() == MEMORY {
                Made::Failed
            } else {
                Made::Wrong
            }
        }
    }
}

fn have_receipts(seats: &[Seat], count: usize) -> bool {
    match seats.first() {
        Some(seat) => seat.receipts().len() == count,
        None => false,
    }
}

// Makes a call, and again if it fails. It may only fail out of memory, and then leaves the seat
// unchanged.
fn made_at<F: Faulty>(alloc: Global, seated: &mut Seated<F>, number: usize, ask: &Ask) -> Made {
    let made = made_of(seated.ask(alloc, 0, ask), number);
    if made == Made::Failed && have_receipts(&seated.seats, number) {
        made_of(seated.ask(alloc, 0, ask), number)
    } else {
        made
    }
}

// The outcome of the put, unless another call had a wrong one.
fn put_made<F: Faulty>(alloc: Global, seated: &mut Seated<F>) -> Made {
    let mut put = Made::Done;
    for (number, ask) in ASKED.iter().enumerate() {
        let made = made_at(alloc, seated, number, ask);
        if made == Made::Failed || made == Made::Wrong {
            return Made::Wrong;
        }
        if number == 0 {
            put = made;
        }
    }
    put
}

// Whether the engine has the put's value, or no value if the put failed. If the engine failed out
// of memory, or has no memory for its image, everything is accepted.
fn is_left(keys: Option<usize>, put: Made) -> bool {
    match keys {
        Some(keys) => keys == if put == Made::Done { 1 } else { 0 },
        None => true,
    }
}

// Whether each call is recorded once, also if a request for memory was refused, and the engine has
// their results; or memory ran out before the calls.
fn holds_at<F: Faulty>(alloc: Global, seated: &mut Seated<F>) -> bool {
    if !seated.begin(alloc, false, CALLS, 1) {
        return seated.code == MEMORY;
    }
    let put = put_made(alloc, seated);
    seated.hand_over(alloc);
    let is_recorded = seated.refused.is_none() && seated.calls == CALLS;
    put != Made::Wrong && is_recorded && is_left(seated.keys(), put)
}

fn holds<F: Faulty>(alloc: Global, files: F) -> bool {
    let mut seated = Seated::new(alloc, files);
    let holds = holds_at(alloc, &mut seated);
    seated.end(alloc);
    holds
}

#[test]
fn a_refused_call_is_not_recorded(rt: HostRuntime) -> Result<(), Fail> {
    assert!(rt; holds(rt.alloc(), MemoryFileSystem::new(rt.alloc())));
    Ok(())
}
