//! Whether the receipts of seats are exactly the calls of a history.
ghost use Rattle.std.specs.Prelude.{◌≡◌, ◌↔◌, map, option_map, IsTrue};
ghost use Rattle.std.specs.Arc.{arc_value};
ghost use Rattle.raft_shared.specs.Settled.{AreSettled, seats_with};
ghost use Rattle.raft_shared.specs.Shared.{receipts_of};
ghost use Rattle.raft_shared.specs.Words.{answer_of, asked_of, calls_of, event_of, reason_of, shared_bytes};

use crate::call::{Call, Receipt, Recorded, Reply, SharedBytes};
use crate::seat::Seat;
use raft_log_engine::Fault;

/// Whether each seat has the receipts of its calls, in order, and each call belongs to exactly one
/// seat.
pub fn are_settled(seats: &[Seat], trail: &[Recorded]) -> bool
    ensures value { IsTrue result ↔ AreSettled seats.now (map event_of trail.now) }
{
    for seat in seats {
        if !has_its_calls(seat, trail) {
            return false;
        }
    }
    for recorded in trail {
        if count_with(seats, recorded.seat) != 1 {
            return false;
        }
    }
    true
}

// Whether the seat's receipts are its calls in the history, in order, each with its number.
fn has_its_calls(seat: &Seat, trail: &[Recorded]) -> bool
    ensures value { IsTrue result
        ↔ (receipts_of seat.now ≡ calls_of seat.now.number 0 (map event_of trail.now)) }
{
    let receipts = seat.receipts();
    let mut next = 0;
    for number in 0..trail.len() {
        let recorded = &trail[number];
        if recorded.seat == seat.number() {
            if next == receipts.len() || !is_of(&receipts[next], number, recorded) {
                return false;
            }
            next += 1;
        }
    }
    next == receipts.len()
}

// The number of seats with this number.
fn count_with(seats: &[Seat], number: usize) -> usize
    ensures value { result ≡ seats_with number seats.now }
{
    let mut count = 0;
    for seat in seats {
        if seat.number() == number {
            count += 1;
        }
    }
    count
}

// Whether it is the receipt of the call with this number.
fn is_of(receipt: &Receipt, number: usize, recorded: &Recorded) -> bool
    ensures value { IsTrue result ↔ ((receipt.now.number ≡ number)
        × (asked_of (arc_value receipt.now.call) ≡ asked_of (arc_value recorded.now.call))
        × (answer_of receipt.now.reply ≡ answer_of recorded.now.reply)) }
{
    receipt.number == number
        && is_same_call(&receipt.call, &recorded.call)
        && is_same_reply(&receipt.reply, &recorded.reply)
}

fn is_same_call(a: &Call, b: &Call) -> bool
    ensures value { IsTrue result ↔ (asked_of a.now ≡ asked_of b.now) }
{
    match (a, b) {
        (Call::Write(batch, sync), Call::Write(other, other_sync)) => {
            sync == other_sync && batch.has_items_of(other)
        }
        (Call::WriteOnce(batch, pairs, sync), Call::WriteOnce(other, other_pairs, other_sync)) => {
            sync == other_sync && are_same_pairs(pairs, other_pairs) && batch.has_items_of(other)
        }
        (Call::Sync, Call::Sync) => true,
        (Call::Purge(barrier), Call::Purge(other)) => barrier == other,
        (Call::Get(group, key), Call::Get(other, other_key)) => group == other && key == other_key,
        (Call::First(group), Call::First(other)) => group == other,
        (Call::Last(group), Call::Last(other)) => group == other,
        _ => false,
    }
}

fn are_same_pairs(a: &[(u64, u64)], b: &[(u64, u64)]) -> bool
    ensures value { IsTrue result ↔ (a.now ≡ b.now) }
{
    a == b
}

fn is_same_reply(a: &Reply, b: &Reply) -> bool
    ensures value { IsTrue result ↔ (answer_of a.now ≡ answer_of b.now) }
{
    match (a, b) {
        (Reply::Size(Ok(size)), Reply::Size(Ok(other))) => size == other,
        (Reply::Size(Err(fault)), Reply::Size(Err(other))) => is_same_fault(fault, other),
        (Reply::Done(Ok(())), Reply::Done(Ok(()))) => true,
        (Reply::Done(Err(fault)), Reply::Done(Err(other))) => is_same_fault(fault, other),
        (Reply::Value(Ok(value)), Reply::Value(Ok(other))) => is_same_value(value, other),
        (Reply::Value(Err(fault)), Reply::Value(Err(other))) => is_same_fault(fault, other),
        (Reply::Index(index), Reply::Index(other)) => index == other,
        _ => false,
    }
}

fn is_same_value(a: &Option<SharedBytes>, b: &Option<SharedBytes>) -> bool
    ensures value { IsTrue result ↔ (option_map shared_bytes a.now
        ≡ option_map shared_bytes b.now) }
{
    match (a, b) {
        (Some(value), Some(other)) => value.as_slice() == other.as_slice(),
        (None, None) => true,
        _ => false,
    }
}

// Whether two faults are equal, except for the text of an invalid argument.
fn is_same_fault(a: &Fault, b: &Fault) -> bool
    ensures value { IsTrue result ↔ (reason_of a.now ≡ reason_of b.now) }
{
    match (a, b) {
        (Fault::Io(kind, path), Fault::Io(other, other_path)) => kind == other
            && path == other_path,
        (Fault::Io(_, _), _) | (_, Fault::Io(_, _)) => false,
        _ => a.code() == b.code(),
    }
}
