//! Which batches were accepted, and which operations make all earlier ones durable.
ghost use Rattle.std.specs.Prelude.{◌≡◌, ◌&&◌, nat_eq};
ghost use Rattle.std.specs.List.{list_any};
ghost use Rattle.raft_script.specs.Batches.{answers_in, is_covering};
ghost use Rattle.raft_allowed.specs.Answers.{has_asked, has_dropped, is_grouped, is_ok_at, is_synced, is_written};

use raft_records::Fault;
use raft_script::{Act, Op, Outcome};

/// Whether the batch at a place, counted from 0, was accepted.
pub(crate) fn is_accepted(outcome: &Outcome, place: usize) -> bool
    ensures { result ≡ is_ok_at place (answers_in outcome.now) }
{
    match outcome {
        // A `write_once` whose numbers had acted returns `Ok` too, and has no batch.
        Outcome::Size(answer) => is_first(place, answer.is_ok()),
        Outcome::Count(answer) => is_first(place, answer.is_ok()),
        Outcome::Sizes(Ok(answers)) => is_one_of(answers, place),
        _ => false,
    }
}

fn is_first(place: usize, ok: bool) -> bool
    ensures { result ≡ (nat_eq place 0 && ok) }
{
    place == 0 && ok
}

fn is_one_of(answers: &[Result<usize, Fault>], place: usize) -> bool
    ensures { result ≡ is_ok_at place answers.now }
{
    match answers.get(place) {
        Some(answer) => answer.is_ok(),
        None => false,
    }
}

/// Whether an operation makes durable all that was accepted up to it.
pub(crate) fn is_covering(op: &Op, outcome: &Outcome) -> bool
    ensures { result ≡ is_covering op.now outcome.now }
{
    match op {
        Op::Write(_, sync) => is_written(outcome) && *sync,
        Op::WriteOnce(_, _, sync) => is_written(outcome) && *sync,
        Op::WriteGroup(parts) => is_grouped(outcome) && asks_for_sync(parts),
        Op::Sync => is_synced(outcome),
        Op::RewriteAppend(_, _) => has_dropped(outcome),
        Op::RewriteRewrite => has_dropped(outcome),
        Op::PurgeStale => has_dropped(outcome),
        Op::Purge => has_asked(outcome),
        _ => false,
    }
}

fn asks_for_sync(parts: &[(Vec<Act>, bool)]) -> bool
    ensures { result ≡ list_any (λ part. part.1) parts.now }
{
    parts.iter().any(|part| part.1)
}

fn is_written(outcome: &Outcome) -> bool
    ensures { result ≡ is_written outcome.now }
{
    match outcome {
        Outcome::Size(answer) => answer.is_ok(),
        _ => false,
    }
}

fn is_grouped(outcome: &Outcome) -> bool
    ensures { result ≡ is_grouped outcome.now }
{
    match outcome {
        Outcome::Sizes(answer) => answer.is_ok(),
        _ => false,
    }
}

fn is_synced(outcome: &Outcome) -> bool
    ensures { result ≡ is_synced outcome.now }
{
    match outcome {
        Outcome::Done(answer) => answer.is_ok(),
        _ => false,
    }
}

fn has_dropped(outcome: &Outcome) -> bool
    ensures { result ≡ has_dropped outcome.now }
{
    match outcome {
        Outcome::Dropped(answer) => answer.is_ok(),
        _ => false,
    }
}

fn has_asked(outcome: &Outcome) -> bool
    ensures { result ≡ has_asked outcome.now }
{
    match outcome {
        Outcome::ToCompact(answer) => answer.is_ok(),
        _ => false,
    }
}
