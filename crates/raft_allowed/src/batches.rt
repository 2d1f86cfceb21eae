//! The batches of operations.
ghost use Rattle.std.specs.Prelude.{◌≡◌, ◌∷◌, ◌^◌, [], nat_lt, not, true, IfOk, if◌then◌else◌};
ghost use Rattle.raft_records.specs.Contents.{Contents};
ghost use Rattle.raft_once.specs.History.{are_numbers};
ghost use Rattle.raft_once.specs.Numbers.{are_new, numbered};
ghost use Rattle.raft_log_engine.specs.Cause.{plain_part, plain_parts};
ghost use Rattle.raft_log_engine.specs.Once.{acting_batch};
ghost use Rattle.raft_log_engine.specs.Reads.{compact_batch};
ghost use Rattle.raft_script.specs.Batches.{batch_of_acts, batches_of_op, group_batches, items_of_acts, once_batch};
ghost use Rattle.raft_allowed.specs.Changes.{batch_in, batches_in};
ghost use Rattle.raft_allowed.specs.Held.{IsHeldBy, held_at, held_of, is_nil, kept_of};

use crate::changes::{
    Change, What, changes_of, changes_of_all, has_numbers, plain_part, push_numbers,
};
use crate::groups::is_of;
use crate::parts::{are_no_entries, kept_in};
use raft_log_engine::GroupImage;
use raft_once::are_unfit;
use raft_script::{Act, Op};
use std::alloc::{AllocError, Global};

/// The batches that an operation would write if these groups exist before it.
pub(crate) fn batches_of<'a>(
    alloc: Global,
    groups: &[GroupImage],
    op: &'a Op,
) -> Result<Vec<Vec<Change<'a>>>, AllocError>
    ensures { IfOk result (λ batches. (m : Contents) → IsHeldBy m groups.now
        → batches_in batches.items ≡ batches_of_op m op.now) }
{
    match op {
        Op::Write(acts, _) => of_write(alloc, acts),
        Op::WriteOnce(acts, pairs, _) => of_once(alloc, groups, acts, pairs),
        Op::WriteGroup(parts) => batches_of_parts(alloc, parts),
        Op::CompactTo(group, index) => of_compaction(alloc, groups, *group, *index),
        _ => Ok(Vec::new(alloc)),
    }
}

fn of_write<'a>(alloc: Global, acts: &'a [Act]) -> Result<Vec<Vec<Change<'a>>>, AllocError>
    ensures { IfOk result (λ batches.
        batches_in batches.items ≡ plain_part (items_of_acts acts.now) ∷ []) }
{
    let changes = changes_of_all(alloc, acts)?;
    let plain = plain_part(changes);
    let batches = batch_alone(alloc, plain)?;
    Ok(batches)
}

fn of_once<'a>(
    alloc: Global,
    groups: &[GroupImage],
    acts: &'a [Act],
    pairs: &[(u64, u64)],
) -> Result<Vec<Vec<Change<'a>>>, AllocError>
    ensures { IfOk result (λ batches. (m : Contents) → IsHeldBy m groups.now
        → batches_in batches.items ≡ once_batch m (batch_of_acts acts.now) pairs.now ∷ []) }
{
    let changes = acting_changes(alloc, groups, acts, pairs)?;
    let batches = batch_alone(alloc, changes)?;
    Ok(batches)
}

fn of_compaction<'a>(
    alloc: Global,
    groups: &[GroupImage],
    group: u64,
    index: u64,
) -> Result<Vec<Vec<Change<'a>>>, AllocError>
    ensures { IfOk result (λ batches. batches_in batches.items
        ≡ compact_batch group index (held_at group (held_of groups.now)).entries ∷ []) }
{
    let batch = compaction(alloc, groups, group, index)?;
    let batches = batch_alone(alloc, batch)?;
    Ok(batches)
}

fn batch_alone<'a>(
    alloc: Global,
    batch: Vec<Change<'a>>,
) -> Result<Vec<Vec<Change<'a>>>, AllocError>
    ensures { IfOk result (λ batches. batches_in batches.items ≡ batch_in batch.entry.items ∷ []) }
{
    let mut batches = Vec::new(alloc);
    batches.push(batch)?;
    Ok(batches)
}

// A batch for each part; none at all if one part can't be built.
fn batches_of_parts<'a>(
    alloc: Global,
    parts: &'a [(Vec<Act>, bool)],
) -> Result<Vec<Vec<Change<'a>>>, AllocError>
    ensures { IfOk result (λ batches.
        batches_in batches.items ≡ plain_parts (group_batches parts.now)) }
{
    let mut batches = Vec::new(alloc);
    for part in parts {
        let made = changes_of(alloc, &part.0)?;
        let Some(changes) = made else {
            return Ok(Vec::new(alloc));
        };
        let plain = plain_part(changes);
        batches.push(plain)?;
    }
    Ok(batches)
}

// The changes of a `write_once`, if it acts.
fn acting_changes<'a>(
    alloc: Global,
    groups: &[GroupImage],
    acts: &'a [Act],
    pairs: &[(u64, u64)],
) -> Result<Vec<Change<'a>>, AllocError>
    ensures { IfOk result (λ batch. (m : Contents) → IsHeldBy m groups.now
        → batch_in batch.items ≡ once_batch m (batch_of_acts acts.now) pairs.now) }
{
    numbers_fit(pairs);
    let made = changes_of(alloc, acts)?;
    let Some(changes) = made else {
        return Ok(Vec::new(alloc));
    };
    if !may_act(groups, &changes, pairs) {
        return Ok(Vec::new(alloc));
    }
    let mut numbered = changes;
    push_numbers(&mut numbered, pairs)?;
    Ok(numbered)
}

// Whether a write of the changes with these numbers acts.
fn may_act(groups: &[GroupImage], changes: &[Change<'_>], pairs: &[(u64, u64)]) -> bool
    ensures { (m : Contents) → IsHeldBy m groups.now
        → acting_batch m (batch_in changes.now) pairs.now
        ≡ (if result then numbered (batch_in changes.now) pairs.now else []) }
{
    if are_unfit(pairs) {
        return false;
    }
    if has_numbers(changes) {
        return false;
    }
    are_new(groups, pairs)
}

// Each number has eight bytes, by its type. The loop reads them only to show that.
fn numbers_fit(pairs: &[(u64, u64)])
    ensures { are_numbers pairs.now ≡ true }
{
    for (_, number) in pairs {
        number_fits(*number);
    }
}

fn number_fits(number: u64)
    ensures { nat_lt number (2 ^ 64) ≡ true }
{}

// Whether each number is greater than the one that its group keeps.
fn are_new(groups: &[GroupImage], pairs: &[(u64, u64)]) -> bool
    ensures { (m : Contents) → IsHeldBy m groups.now → result ≡ are_new m pairs.now }
{
    for pair in pairs {
        if !is_below(kept_at(groups, pair.0), pair.1) {
            return false;
        }
    }
    true
}

fn is_below(kept: u64, number: u64) -> bool
    ensures { result ≡ nat_lt kept number }
{
    kept < number
}

// The number that a group keeps, 0 if it keeps none.
fn kept_at(groups: &[GroupImage], group: u64) -> u64
    ensures { result ≡ kept_of (held_at group (held_of groups.now)) }
{
    for image in groups {
        if is_of(image, group) {
            return kept_in(&image.pairs);
        }
    }
    0
}

// The command that removes entries of a group, if it has such entries.
fn compaction<'a>(
    alloc: Global,
    groups: &[GroupImage],
    group: u64,
    index: u64,
) -> Result<Vec<Change<'a>>, AllocError>
    ensures { IfOk result (λ batch. batch_in batch.items
        ≡ compact_batch group index (held_at group (held_of groups.now)).entries) }
{
    let mut batch = Vec::new(alloc);
    if has_entries(groups, group) {
        batch.push(Change {
            group,
            what: What::Compact(index),
        })?;
    }
    Ok(batch)
}

fn has_entries(groups: &[GroupImage], group: u64) -> bool
    ensures { is_nil (held_at group (held_of groups.now)).entries ≡ not result }
{
    for image in groups {
        if is_of(image, group) {
            return !are_no_entries(&image.entries);
        }
    }
    false
}
