//! The changes that acts make.
ghost use Rattle.std.specs.Prelude.{◌≡◌, ◌∷◌, ◌++◌, [], IfOk, MatchBool, None, OnOk, Some, option_map, true};
ghost use Rattle.raft_records.specs.Batch.{is_internal_key};
ghost use Rattle.raft_records.specs.Item.{Batch};
ghost use Rattle.raft_once.specs.Numbers.{changes_number, has_numbers, numbered};
ghost use Rattle.raft_log_engine.specs.Cause.{plain_part};
ghost use Rattle.raft_script.specs.Batches.{batch_of_acts, items_of_act, items_of_acts};
ghost use Rattle.raft_allowed.specs.Changes.{batch_in, content_of};

use raft_once::is_number_key;
use raft_script::Act;
use std::alloc::{AllocError, Global};

/// A change of one group.
#[derive(Clone, Copy)]
pub(crate) struct Change<'a> {
    pub group: u64,
    pub what: What<'a>,
}

#[derive(Clone, Copy)]
pub(crate) enum What<'a> {
    /// Entries with their indexes and bytes; at least one.
    Entries(&'a [(u64, Vec<u8>)]),
    /// Removes the group with its entries and keys.
    Clean,
    /// Removes the entries below an index.
    Compact(u64),
    Put(&'a [u8], &'a [u8]),
    Delete(&'a [u8]),
    /// The group keeps this number for writes that act once.
    Number(u64),
}

/// The changes of acts; none at all if one of them can't be done.
pub(crate) fn changes_of_all<'a>(
    alloc: Global,
    acts: &'a [Act],
) -> Result<Vec<Change<'a>>, AllocError>
    ensures { IfOk result (λ changes. batch_in changes.items ≡ items_of_acts acts.now) }
{
    match changes_of(alloc, acts)? {
        Some(changes) => Ok(changes),
        None => Ok(Vec::new(alloc)),
    }
}

/// The changes of acts; `None` if one of them can't be done.
pub(crate) fn changes_of<'a>(
    alloc: Global,
    acts: &'a [Act],
) -> Result<Option<Vec<Change<'a>>>, AllocError>
    ensures { IfOk result (λ changes.
        option_map (λ some. batch_in some.items) changes ≡ batch_of_acts acts.now) }
{
    let mut changes = Vec::new(alloc);
    for act in acts {
        let done = push_change(&mut changes, act)?;
        if !done {
            return Ok(None);
        }
    }
    Ok(Some(changes))
}

fn push<'a>(changes: &mut Vec<Change<'a>>, group: u64, what: What<'a>) -> Result<bool, AllocError>
    ensures { IfOk result (λ done. (done ≡ true)
        × (batch_in changes.new.items ≡ batch_in changes.old.items
        ++ record { group = group; content = content_of what.entry } ∷ [])) }
{
    changes.push(Change { group, what })?;
    Ok(true)
}

fn is_internal_key(key: &[u8]) -> bool
    ensures { result ≡ is_internal_key key.now }
{
    matches!(key, [b'_', b'_', ..])
}

// Adds the change of an act after the others, if it has one. Returns whether it can be done.
fn push_change<'a>(changes: &mut Vec<Change<'a>>, act: &'a Act) -> Result<bool, AllocError>
    ensures { IfOk result (λ done. MatchBool done
        ((items : Batch) × (items_of_act act.now ≡ Some items)
        × (batch_in changes.new.items ≡ batch_in changes.old.items ++ items))
        (items_of_act act.now ≡ None)) }
{
    match act {
        Act::Put(group, key, value) => {
            if is_internal_key(key) {
                return Ok(false);
            }
            push(changes, *group, What::Put(key, value))
        }
        Act::Delete(group, key) => push(changes, *group, What::Delete(key)),
        Act::Entries(group, entries) => {
            if entries.is_empty() {
                return Ok(true);
            }
            push(changes, *group, What::Entries(entries))
        }
        Act::Clean(group) => push(changes, *group, What::Clean),
        Act::Compact(group, index) => push(changes, *group, What::Compact(*index)),
    }
}

/// Adds the numbers of pairs after the other changes.
pub(crate) fn push_numbers<'a>(
    changes: &mut Vec<Change<'a>>,
    pairs: &[(u64, u64)],
) -> Result<(), AllocError>
    ensures { OnOk result (batch_in changes.new.items
        ≡ numbered (batch_in changes.old.items) pairs.now) }
{
    for pair in pairs {
        push(changes, pair.0, What::Number(pair.1))?;
    }
    Ok(())
}

/// The changes; none at all if one of them is of a group's number, which no caller may change.
pub(crate) fn plain_part<'a>(changes: Vec<Change<'a>>) -> Vec<Change<'a>>
    ensures { batch_in result.items ≡ plain_part (batch_in changes.entry.items) }
{
    let mut plain = changes;
    if has_numbers(&plain) {
        plain.clear();
    }
    plain
}

/// Whether one of the changes is of a group's number.
pub(crate) fn has_numbers(changes: &[Change<'_>]) -> bool
    ensures { result ≡ has_numbers (batch_in changes.now) }
{
    for change in changes {
        if changes_number(&change.what) {
            return true;
        }
    }
    false
}

fn changes_number(what: &What<'_>) -> bool
    ensures { result ≡ changes_number (content_of what.now) }
{
    match what {
        What::Put(key, _) => is_number_key(key),
        What::Delete(key) => is_number_key(key),
        What::Number(_) => true,
        What::Entries(_) => false,
        What::Clean => false,
        What::Compact(_) => false,
    }
}
