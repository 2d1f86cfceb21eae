//! The images that a sequence of operations leads to.
ghost use Rattle.std.specs.Prelude.{◌≡◌, ◌∷◌, ◌++◌, [], List, false, IfOk, OnOk, if◌then◌else◌};
ghost use Rattle.raft_records.specs.Contents.{Contents, no_contents};
ghost use Rattle.raft_crash_laws.specs.Crash.{written_batch};
ghost use Rattle.raft_log_engine.specs.Group.{accepted_in};
ghost use Rattle.raft_script.specs.Batches.{answers_in};
ghost use Rattle.raft_script.specs.Headline.{Progress, progress_after};
ghost use Rattle.raft_allowed.specs.Changes.{batch_in, batches_in};
ghost use Rattle.raft_allowed.specs.Held.{IsHeldBy, is_nil};
ghost use Rattle.raft_allowed.specs.Walk.{AreHeldBy, IsReached, contents_from, covered_if, taken_of, with_batches};

use crate::answers::{is_accepted, is_covering};
use crate::batches::batches_of;
use crate::changes::Change;
use crate::images::{Applied, after_batch};
use raft_log_engine::Image;
use raft_script::{Op, Outcome};
use std::alloc::{AllocError, Global};
use std::mem;

/// The images that a crash may leave while nothing is in flight: those of the shorter prefixes
/// with every covered batch, and that of the whole sequence.
#[derive(Drop)]
pub(crate) struct Reached {
    pub earlier: Vec<Image>,
    pub last: Image,
}

/// Adds an operation with its outcome.
pub(crate) fn go_on(
    alloc: Global,
    reached: &mut Reached,
    op: &Op,
    outcome: &Outcome,
) -> Result<(), AllocError>
    ensures { OnOk result ((p : Progress) → IsReached p reached.old
        → IsReached (progress_after no_contents p op.now outcome.now) reached.new) }
{
    let batches = batches_of(alloc, &reached.last.groups, op)?;
    accept(alloc, reached, &batches, outcome)?;
    cover(reached, op, outcome);
    Ok(())
}

// Adds the operation's accepted batches.
fn accept(
    alloc: Global,
    reached: &mut Reached,
    batches: &[Vec<Change<'_>>],
    outcome: &Outcome,
) -> Result<(), AllocError>
    ensures { OnOk result ((p : Progress) → IsReached p reached.old → IsReached
        (with_batches p (accepted_in (answers_in outcome.now) (batches_in batches.now)))
        reached.new) }
{
    for (place, batch) in batches.iter().enumerate() {
        accept_one(alloc, reached, batch, is_accepted(outcome, place))?;
    }
    Ok(())
}

fn accept_one(
    alloc: Global,
    reached: &mut Reached,
    batch: &[Change<'_>],
    accepted: bool,
) -> Result<(), AllocError>
    ensures { OnOk result ((p : Progress) → IsReached p reached.old
        → IsReached (with_batches p (if accepted then written_batch (batch_in batch.now) else []))
        reached.new) }
{
    if !accepted {
        return Ok(());
    }
    write_some(alloc, reached, batch)
}

// A batch without items changes nothing.
fn write_some(alloc: Global, reached: &mut Reached, batch: &[Change<'_>]) -> Result<(), AllocError>
    ensures { OnOk result ((p : Progress) → IsReached p reached.old
        → IsReached (with_batches p (written_batch (batch_in batch.now))) reached.new) }
{
    if batch.is_empty() {
        return Ok(());
    }
    write(alloc, reached, batch)
}

fn write(alloc: Global, reached: &mut Reached, batch: &[Change<'_>]) -> Result<(), AllocError>
    ensures { OnOk result ((p : Progress) → IsReached p reached.old
        → IsReached (with_batches p (batch_in batch.now ∷ [])) reached.new) }
{
    let applied = after_batch(alloc, &reached.last, batch)?;
    let before = put_last(reached, applied.image);
    reached.earlier.push(before)?;
    Ok(())
}

fn put_last(reached: &mut Reached, image: Image) -> Image
    ensures value { result ≡ reached.old.last }
    ensures last { reached.new.last ≡ image }
    ensures earlier { reached.new.earlier ≡ reached.old.earlier }
{
    mem::replace(&mut reached.last, image)
}

// After an operation that makes all accepted batches durable, no earlier image may be left.
fn cover(reached: &mut Reached, op: &Op, outcome: &Outcome)
    ensures { (p : Progress) → IsReached p reached.old
        → IsReached (covered_if p op.now outcome.now) reached.new }
{
    if !is_covering(op, outcome) {
        return;
    }
    forget(reached);
}

fn forget(reached: &mut Reached)
    ensures none { reached.new.earlier.items ≡ [] }
    ensures last { reached.new.last ≡ reached.old.last }
{
    reached.earlier.clear();
}

/// The images that a crash may leave if any choice of these batches, in order and without the
/// refused ones, is in flight. For n batches there are up to 2^n.
pub(crate) fn in_flight(
    alloc: Global,
    last: Image,
    batches: &[Vec<Change<'_>>],
) -> Result<Vec<Image>, AllocError>
    ensures { IfOk result (λ found. (m : Contents) → IsHeldBy m last.groups.items
        → AreHeldBy found.items (contents_from (m ∷ []) (batches_in batches.now))) }
{
    let mut found = Vec::new(alloc);
    found.push(last)?;
    for batch in batches {
        let more = with_taken(alloc, found, batch)?;
        found = more;
    }
    Ok(found)
}

// These images, and after each that accepts the batch the image with it.
fn with_taken(
    alloc: Global,
    found: Vec<Image>,
    batch: &[Change<'_>],
) -> Result<Vec<Image>, AllocError>
    ensures { IfOk result (λ new. (ms : List Contents) → AreHeldBy found.items ms
        → AreHeldBy new.items (ms ++ taken_of (batch_in batch.now) ms)) }
{
    let mut found = found;
    if batch.is_empty() {
        return Ok(found);
    }
    let mut taken = taken_from(alloc, &found, batch)?;
    found.append(&mut taken)?;
    Ok(found)
}

fn taken_from(
    alloc: Global,
    found: &[Image],
    batch: &[Change<'_>],
) -> Result<Vec<Image>, AllocError>
    requires { is_nil batch.now ≡ false }
    ensures { IfOk result (λ taken. (ms : List Contents) → AreHeldBy found.now ms
        → AreHeldBy taken.items (taken_of (batch_in batch.now) ms)) }
{
    let mut taken = Vec::new(alloc);
    for image in found {
        let applied = after_batch(alloc, image, batch)?;
        push_if_fits(&mut taken, applied)?;
    }
    Ok(taken)
}

fn push_if_fits(taken: &mut Vec<Image>, applied: Applied) -> Result<(), AllocError>
    ensures { OnOk result (taken.new.items ≡ taken.old.items
        ++ (if applied.fits then applied.image ∷ [] else [])) }
{
    let fits = applied.fits;
    if !fits {
        return Ok(());
    }
    taken.push(applied.image)?;
    Ok(())
}
