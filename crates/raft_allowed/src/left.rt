//! The images that a crash may leave.
ghost use Rattle.std.specs.Prelude.{◌≡◌, ◌⊎◌, Any, IfErr, IfOk, IsErrAnd, List, OnOk, map};
ghost use Rattle.std.specs.List.{AllByRecursion};
ghost use Rattle.raft_base.specs.Fault.{fault_code};
ghost use Rattle.raft_once.specs.Numbers.{shown};
ghost use Rattle.raft_records.specs.Contents.{Contents};
ghost use Rattle.raft_log_engine.specs.Image.{IsImageOf};
ghost use Rattle.raft_allowed.specs.Allowed.{AreFitting, IsLeftAs, MayBeLeft};
ghost use Rattle.raft_allowed.specs.Changes.{batches_in};
ghost use Rattle.raft_allowed.specs.Held.{IsHeldBy};
ghost use Rattle.raft_allowed.specs.Walk.{AreHeldBy, batches_at};

use crate::batches::batches_of;
use crate::changes::Change;
use crate::images::shown;
use crate::walk::{Reached, go_on, in_flight};
use raft_log_engine::Image;
use raft_records::Fault;
use raft_script::{Op, Outcome};
use std::alloc::{AllocError, Global};

/// The images that a crash may leave of a log that was empty before these operations.
///
/// Each is the image of a prefix of the batches that the outcomes accept. The prefix has every
/// batch that a successful sync covers. After all accepted batches some in flight may follow.
/// These are of the operation at `failed_at`, counted from 0, in which the engine failed: any
/// choice of its batches, in order, except those that the contents before them refuse. With `None`
/// nothing is in flight. No image shows the numbers that groups keep for writes that act once.
///
/// A write group of n batches in flight has up to 2^n choices, and as many images are made: keep
/// such a group small.
///
/// It fails with `InvalidArgument` if there are not as many outcomes as operations, or if
/// `failed_at` is no operation's place, and otherwise only with `Memory`.
pub fn allowed(
    alloc: Global,
    ops: &[Op],
    outcomes: &[Outcome],
    failed_at: Option<usize>,
) -> Result<Vec<Image>, Fault>
    ensures sound { IfOk result (λ images.
        AllByRecursion (IsLeftAs failed_at ops.now outcomes.now) images.items) }
    ensures complete { IfOk result (λ images. (m : Contents)
        → MayBeLeft failed_at ops.now outcomes.now m
        → ∥ Any (λ image. IsImageOf image.groups.items (shown m)) images.items ∥₁) }
    ensures fitting { OnOk result (AreFitting failed_at ops.now outcomes.now) }
    ensures refused { (AreFitting failed_at ops.now outcomes.now → ⊥)
        → IsErrAnd result (λ e. fault_code e ≡ 1) }
    ensures cause { IfErr result (λ e. (e ≡ Fault.Memory)
        ⊎ ((fault_code e ≡ 1) × (AreFitting failed_at ops.now outcomes.now → ⊥))) }
{
    if outcomes.len() != ops.len() {
        return Err(Fault::InvalidArgument("an outcome is wanted of each operation"));
    }
    if let Some(place) = failed_at {
        if place >= ops.len() {
            return Err(Fault::InvalidArgument("no operation has this place"));
        }
    }
    Ok(images_of(alloc, ops, outcomes, failed_at)?)
}

fn images_of(
    alloc: Global,
    ops: &[Op],
    outcomes: &[Outcome],
    failed_at: Option<usize>,
) -> Result<Vec<Image>, AllocError>
    requires { AreFitting failed_at ops.now outcomes.now }
    ensures sound { IfOk result (λ images.
        AllByRecursion (IsLeftAs failed_at ops.now outcomes.now) images.items) }
    ensures complete { IfOk result (λ images. (m : Contents)
        → MayBeLeft failed_at ops.now outcomes.now m
        → ∥ Any (λ image. IsImageOf image.groups.items (shown m)) images.items ∥₁) }
{
    let mut reached = Reached {
        earlier: Vec::new(alloc),
        last: Image {
            groups: Vec::new(alloc),
        },
    };
    for (place, op) in ops.iter().enumerate() {
        go_on(alloc, &mut reached, op, &outcomes[place])?;
    }
    let batches = batches_at(alloc, &reached.last, ops, failed_at)?;
    let mut found = in_flight(alloc, reached.last, &batches)?;
    let mut images = reached.earlier;
    images.append(&mut found)?;
    let shown = all_shown(alloc, &images)?;
    Ok(shown)
}

// The images as reads show them, without the numbers that groups keep.
fn all_shown(alloc: Global, images: &[Image]) -> Result<Vec<Image>, AllocError>
    ensures { IfOk result (λ new. (ms : List Contents) → AreHeldBy images.now ms
        → AreHeldBy new.items (map shown ms)) }
{
    let mut new = Vec::new(alloc);
    for image in images {
        let one = shown(alloc, image)?;
        new.push(one)?;
    }
    Ok(new)
}

// The batches of the operation at a place.
fn batches_at<'a>(
    alloc: Global,
    last: &Image,
    ops: &'a [Op],
    place: Option<usize>,
) -> Result<Vec<Vec<Change<'a>>>, AllocError>
    ensures { IfOk result (λ batches. (m : Contents) → IsHeldBy m last.now.groups.items
        → batches_in batches.items ≡ batches_at m ops.now place) }
{
    match place {
        Some(place) => match ops.get(place) {
            Some(op) => batches_of(alloc, &last.groups, op),
            None => Ok(Vec::new(alloc)),
        },
        None => Ok(Vec::new(alloc)),
    }
}
