//! Images of groups, and the image after a change.
ghost use Rattle.std.specs.Prelude.{◌≡◌, ◌∷◌, ◌++◌, [], is_none, nat_eq, IfOk, OnOk, None, Some};
ghost use Rattle.std.specs.Ordering.{nat_cmp};
ghost use Rattle.raft_codec.specs.Number.{u64_bytes};
ghost use Rattle.raft_once.specs.Numbers.{number_key};
ghost use Rattle.raft_records.specs.Item.{Compact, Delete, Entries, Put};
ghost use Rattle.raft_tables.specs.Listing.{listed};
ghost use Rattle.raft_log_engine.specs.Image.{entries_of};
ghost use Rattle.raft_allowed.specs.Changes.{content_of};
ghost use Rattle.raft_allowed.specs.Held.{between, group_with_held, held_after, held_at, held_in, held_of, is_nil, is_nothing, refusal_of, with_list, with_pairs};

use crate::changes::What;
use crate::order::{is_group_between, push_entries, push_pairs};
use crate::parts::{are_no_entries, fits, is_mark, with_entries, with_number, with_pair};
use raft_log_engine::GroupImage;
use std::alloc::{AllocError, Global};

pub(crate) fn copy_of(alloc: Global, image: &GroupImage) -> Result<GroupImage, AllocError>
    ensures { IfOk result (λ copy. group_with_held copy ≡ group_with_held image.now) }
{
    let mut entries = Vec::new(alloc);
    push_entries(alloc, &mut entries, &image.entries, 0, None)?;
    let mut pairs = Vec::new(alloc);
    push_pairs(alloc, &mut pairs, &image.pairs, None, None)?;
    Ok(GroupImage {
        group: image.group,
        entries,
        pairs,
    })
}

/// Adds copies of the groups after one and before the other; `None` means no bound.
pub(crate) fn push_groups(
    alloc: Global,
    into: &mut Vec<GroupImage>,
    groups: &[GroupImage],
    after: Option<u64>,
    before: Option<u64>,
) -> Result<(), AllocError>
    ensures { OnOk result (held_of into.new.items
        ≡ held_of into.old.items ++ between nat_cmp after before (held_of groups.now)) }
{
    for image in groups {
        push_group(alloc, into, image, after, before)?;
    }
    Ok(())
}

fn push_group(
    alloc: Global,
    into: &mut Vec<GroupImage>,
    image: &GroupImage,
    after: Option<u64>,
    before: Option<u64>,
) -> Result<(), AllocError>
    ensures { OnOk result (held_of into.new.items ≡ held_of into.old.items
        ++ between nat_cmp after before (group_with_held image.now ∷ [])) }
{
    if !is_group_between(after, before, image.group) {
        return Ok(());
    }
    let copy = copy_of(alloc, image)?;
    into.push(copy)?;
    Ok(())
}

/// Whether the image is this group's.
pub(crate) fn is_of(image: &GroupImage, group: u64) -> bool
    ensures { result ≡ nat_eq group image.now.group }
{
    group == image.group
}

/// A copy of the group's image, which is empty if there is none.
pub(crate) fn group_at(
    alloc: Global,
    groups: &[GroupImage],
    group: u64,
) -> Result<GroupImage, AllocError>
    ensures { IfOk result (λ image. group_with_held image
        ≡ (group, held_at group (held_of groups.now))) }
{
    for image in groups {
        if is_of(image, group) {
            return copy_of(alloc, image);
        }
    }
    Ok(GroupImage {
        group,
        entries: Vec::new(alloc),
        pairs: Vec::new(alloc),
    })
}

/// The group after a change of it.
pub(crate) fn changed(
    alloc: Global,
    old: &GroupImage,
    what: &What<'_>,
) -> Result<GroupImage, AllocError>
    ensures { IfOk result (λ new. group_with_held new
        ≡ (old.now.group, held_after (content_of what.now) (held_in old.now))) }
{
    match what {
        What::Entries(entries) => with_new(alloc, old, entries),
        What::Clean => Ok(GroupImage {
            group: old.group,
            entries: Vec::new(alloc),
            pairs: Vec::new(alloc),
        }),
        What::Compact(index) => compacted(alloc, old, *index),
        What::Put(key, value) => with_put(alloc, old, key, value),
        What::Delete(key) => without(alloc, old, key),
        What::Number(number) => with_kept(alloc, old, *number),
    }
}

fn with_new(
    alloc: Global,
    old: &GroupImage,
    new: &[(u64, Vec<u8>)],
) -> Result<GroupImage, AllocError>
    ensures { IfOk result (λ image. group_with_held image
        ≡ (old.now.group, held_after (Entries (entries_of new.now)) (held_in old.now))) }
{
    let entries = with_entries(alloc, &old.entries, new)?;
    let image = with_list(alloc, old, entries)?;
    Ok(image)
}

fn compacted(alloc: Global, old: &GroupImage, index: u64) -> Result<GroupImage, AllocError>
    ensures { IfOk result (λ image. group_with_held image
        ≡ (old.now.group, held_after (Compact index) (held_in old.now))) }
{
    let mut entries = Vec::new(alloc);
    push_entries(alloc, &mut entries, &old.entries, index, None)?;
    let image = with_list(alloc, old, entries)?;
    Ok(image)
}

fn with_put(
    alloc: Global,
    old: &GroupImage,
    key: &[u8],
    value: &[u8],
) -> Result<GroupImage, AllocError>
    ensures { IfOk result (λ image. group_with_held image
        ≡ (old.now.group, held_after (Put key.now value.now) (held_in old.now))) }
{
    if is_mark(key) {
        let image = copy_of(alloc, old)?;
        return Ok(image);
    }
    let pairs = with_pair(alloc, &old.pairs, key, Some(value))?;
    let image = with_pairs(alloc, old, pairs)?;
    Ok(image)
}

fn without(alloc: Global, old: &GroupImage, key: &[u8]) -> Result<GroupImage, AllocError>
    ensures { IfOk result (λ image. group_with_held image
        ≡ (old.now.group, held_after (Delete key.now) (held_in old.now))) }
{
    let pairs = with_pair(alloc, &old.pairs, key, None)?;
    let image = with_pairs(alloc, old, pairs)?;
    Ok(image)
}

fn with_kept(alloc: Global, old: &GroupImage, number: u64) -> Result<GroupImage, AllocError>
    ensures { IfOk result (λ image. group_with_held image
        ≡ (old.now.group, held_after (Put number_key (u64_bytes number)) (held_in old.now))) }
{
    let pairs = with_number(alloc, &old.pairs, number)?;
    let image = with_pairs(alloc, old, pairs)?;
    Ok(image)
}

fn with_list(
    alloc: Global,
    old: &GroupImage,
    entries: Vec<(u64, Vec<u8>)>,
) -> Result<GroupImage, AllocError>
    ensures { IfOk result (λ new. group_with_held new
        ≡ (old.now.group, with_list (held_in old.now) (entries_of entries.items))) }
{
    let mut pairs = Vec::new(alloc);
    push_pairs(alloc, &mut pairs, &old.pairs, None, None)?;
    Ok(GroupImage {
        group: old.group,
        entries,
        pairs,
    })
}

fn with_pairs(
    alloc: Global,
    old: &GroupImage,
    pairs: Vec<(Vec<u8>, Vec<u8>)>,
) -> Result<GroupImage, AllocError>
    ensures { IfOk result (λ new. group_with_held new
        ≡ (old.now.group, with_pairs (held_in old.now) (listed pairs.items))) }
{
    let mut entries = Vec::new(alloc);
    push_entries(alloc, &mut entries, &old.entries, 0, None)?;
    Ok(GroupImage {
        group: old.group,
        entries,
        pairs,
    })
}

/// Whether the group accepts a change.
pub(crate) fn takes(old: &GroupImage, what: &What<'_>) -> bool
    ensures { result ≡ is_none (refusal_of (held_in old.now) (content_of what.now)) }
{
    match what {
        What::Entries(entries) => fits(&old.entries, entries),
        What::Clean => true,
        What::Compact(_) => true,
        What::Put(_, _) => true,
        What::Delete(_) => true,
        What::Number(_) => true,
    }
}

/// Whether the group has neither entries nor keys.
pub(crate) fn has_nothing(image: &GroupImage) -> bool
    ensures { result ≡ is_nothing (held_in image.now) }
{
    are_no_entries(&image.entries) && are_no_pairs(&image.pairs)
}

fn are_no_pairs(pairs: &[(Vec<u8>, Vec<u8>)]) -> bool
    ensures { result ≡ is_nil (listed pairs.now) }
{
    pairs.is_empty()
}
