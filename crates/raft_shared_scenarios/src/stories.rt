//! Stories as rows of tables: calls from seats of a shared engine over new files, their results,
//! and the state at the end.

use crate::asked::{Ask, Told, is_told};
use crate::seated::{Faulty, Seated};
use raft_log_engine::Fault;
use raft_shared::Receipt;
use std::alloc::Global;
use std::mem;

pub(crate) enum Step {
    /// The seat, its call, the number of the receipt, and the result.
    Answered(usize, Ask, usize, Told),
    /// The seat, its call, and the code with which it fails. Nothing is recorded.
    Fails(usize, Ask, u8),
}

pub(crate) struct Story {
    pub(crate) name: &'static str,
    /// Whether the first sync after the opening fails.
    pub(crate) is_sync_refused: bool,
    /// The most calls of the history.
    pub(crate) limit: usize,
    pub(crate) seats: usize,
    pub(crate) steps: &'static [Step],
    pub(crate) handed: Handed,
    pub(crate) end: End,
}

/// The seats that are handed over at the end.
pub(crate) enum Handed {
    /// The first ones, as many as this number.
    First(usize),
    /// The seats of another engine, which made these calls there; as many seats as the story has.
    OfOther(&'static [Step]),
}

/// The state at the end.
pub(crate) struct End {
    /// The code with which the seats are refused.
    pub(crate) refusal: Option<u8>,
    /// The number of calls in the history.
    pub(crate) calls: usize,
    /// The number of keys of the engine; `None` if it has failed.
    pub(crate) keys: Option<usize>,
    /// The value at the key k of group 1 after a crash that leaves only synced bytes.
    pub(crate) synced: Option<&'static [u8]>,
}

fn seat_of(step: &Step) -> usize {
    match step {
        Step::Answered(seat, _, _, _) | Step::Fails(seat, _, _) => *seat,
    }
}

fn ask_of(step: &Step) -> &Ask {
    match step {
        Step::Answered(_, ask, _, _) | Step::Fails(_, ask, _) => ask,
    }
}

fn is_so(step: &Step, answer: Result<Receipt, Fault>) -> bool {
    match (step, &answer) {
        (Step::Answered(_, _, number, told), Ok(receipt)) => {
            receipt.number == *number && is_told(told, &receipt.reply)
        }
        (Step::Fails(_, _, code), Err(fault)) => fault.code() == *code,
        _ => false,
    }
}

// The index of the first step with another result.
fn wrong_step<F: Faulty>(alloc: Global, seated: &mut Seated<F>, steps: &[Step]) -> Option<usize> {
    for (place, step) in steps.iter().enumerate() {
        let answer = seated.ask(alloc, seat_of(step), ask_of(step));
        if !is_so(step, answer) {
            return Some(place);
        }
    }
    None
}

fn begins<F: Faulty>(alloc: Global, seated: &mut Seated<F>, story: &Story) -> bool {
    seated.begin(alloc, story.is_sync_refused, story.limit, story.seats)
}

// Puts the seats that are handed over in place. Returns whether the calls on another engine had
// their results.
fn choose_seats<F: Faulty>(
    alloc: Global,
    seated: &mut Seated<F>,
    other: &mut Seated<F>,
    story: &Story,
) -> bool {
    match &story.handed {
        Handed::First(count) => {
            seated.seats.truncate(*count);
            true
        }
        Handed::OfOther(steps) => {
            let is_played = begins(alloc, other, story)
                && wrong_step(alloc, other, steps).is_none();
            mem::swap(&mut seated.seats, &mut other.seats);
            is_played
        }
    }
}

// If the history is refused, all seats that were handed over are returned.
fn is_refusal(refused: Option<(u8, usize)>, wanted: Option<u8>, handed: usize) -> bool {
    match (refused, wanted) {
        (Some((code, back)), Some(wanted)) => code == wanted && back == handed,
        (None, None) => true,
        _ => false,
    }
}

// Whether the history ends as the story says, the engine has this number of keys, and the key k of
// group 1 has this value after a crash that leaves only synced bytes.
fn ends_so<F: Faulty>(alloc: Global, seated: &mut Seated<F>, wanted: &End) -> bool {
    let handed = seated.seats.len();
    seated.hand_over(alloc);
    seated.calls == wanted.calls
        && is_refusal(seated.refused, wanted.refusal, handed)
        && seated.keys() == wanted.keys
        && seated.has_synced(alloc, wanted.synced)
}

/// The index of the first step with another result; the end counts as the step after the last.
pub(crate) fn wrong_place<F: Faulty>(
    alloc: Global,
    seated: &mut Seated<F>,
    other: &mut Seated<F>,
    story: &Story,
) -> Option<usize> {
    if !begins(alloc, seated, story) {
        return Some(0);
    }
    let wrong = wrong_step(alloc, seated, story.steps);
    let is_right = wrong.is_none()
        && choose_seats(alloc, seated, other, story)
        && ends_so(alloc, seated, &story.end);
    if is_right || wrong.is_some() {
        wrong
    } else {
        Some(story.steps.len())
    }
}
