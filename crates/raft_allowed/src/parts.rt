//! A group's lists after a change.
ghost use Rattle.std.specs.Prelude.{◌≡◌, ◌++◌, ◌+◌, ◌-◌, ◌^◌, ◌==◌, ◌&&◌, ◌||◌, filter, is_none, nat_le, not, IfOk, OnOk, None, Some, if◌then◌else◌};
ghost use Rattle.std.specs.Map.{lookup};
ghost use Rattle.std.specs.Option.{option_copied};
ghost use Rattle.std.specs.Str.{bytes_eq};
ghost use Rattle.raft_codec.specs.Number.{u64_bytes};
ghost use Rattle.raft_once.specs.Numbers.{number_in, number_key};
ghost use Rattle.raft_records.specs.Contents.{is_next_to, with_entries};
ghost use Rattle.raft_records.specs.Item.{group_mark_key};
ghost use Rattle.raft_records.specs.Validity.{entries_refusal};
ghost use Rattle.raft_tables.specs.Listing.{listed};
ghost use Rattle.raft_log_engine.specs.Image.{entries_of};
ghost use Rattle.raft_allowed.specs.Changes.{are_counted_from};
ghost use Rattle.raft_allowed.specs.Held.{is_nil, is_within, with_one, with_pair};

use crate::order::{push_entries, push_pairs};
use raft_codec::number::push_u64;
use raft_once::{NUMBER_KEY, is_number_key, kept_number};
use std::alloc::{AllocError, Global};

/// The pairs with this value at the key, or without the key.
pub(crate) fn with_pair(
    alloc: Global,
    pairs: &[(Vec<u8>, Vec<u8>)],
    key: &[u8],
    value: Option<&[u8]>,
) -> Result<Vec<(Vec<u8>, Vec<u8>)>, AllocError>
    ensures { IfOk result (λ new.
        listed new.items ≡ with_pair key.now (option_copied value.entry) (listed pairs.now)) }
{
    let mut new = Vec::new(alloc);
    push_pairs(alloc, &mut new, pairs, None, Some(key))?;
    push_one(alloc, &mut new, key, value)?;
    push_pairs(alloc, &mut new, pairs, Some(key), None)?;
    Ok(new)
}

fn push_one(
    alloc: Global,
    into: &mut Vec<(Vec<u8>, Vec<u8>)>,
    key: &[u8],
    value: Option<&[u8]>,
) -> Result<(), AllocError>
    ensures { OnOk result (listed into.new.items
        ≡ listed into.old.items ++ with_one key.now (option_copied value.entry)) }
{
    match value {
        Some(value) => {
            let key = key.to_vec(alloc)?;
            let value = value.to_vec(alloc)?;
            into.push((key, value))?;
            Ok(())
        }
        None => Ok(()),
    }
}

/// The pairs with this number as the one that the group keeps.
pub(crate) fn with_number(
    alloc: Global,
    pairs: &[(Vec<u8>, Vec<u8>)],
    number: u64,
) -> Result<Vec<(Vec<u8>, Vec<u8>)>, AllocError>
    ensures { IfOk result (λ new.
        listed new.items ≡ with_pair number_key (Some (u64_bytes number)) (listed pairs.now)) }
{
    let mut value = Vec::new(alloc);
    push_u64(&mut value, number)?;
    let key = NUMBER_KEY;
    let new = with_pair(alloc, pairs, &key, Some(&value))?;
    Ok(new)
}

/// The number that a group with these pairs keeps.
pub(crate) fn kept_in(pairs: &[(Vec<u8>, Vec<u8>)]) -> u64
    ensures { result ≡ number_in (lookup (bytes_eq number_key) (listed pairs.now)) }
{
    for pair in pairs {
        if is_number_key(&pair.0) {
            return kept_number(Some(&pair.1));
        }
    }
    0
}

/// Whether it is the key of an atomic group's mark, which no group has as its own key.
pub(crate) fn is_mark(key: &[u8]) -> bool
    ensures { result ≡ bytes_eq key.now group_mark_key }
{
    matches!(key, [b'_', b'_', 1])
}

/// The entries after new ones are added. New entries replace all from their first index on. If
/// that is neither inside the list nor right after it, they replace the whole list.
pub(crate) fn with_entries(
    alloc: Global,
    old: &[(u64, Vec<u8>)],
    new: &[(u64, Vec<u8>)],
) -> Result<Vec<(u64, Vec<u8>)>, AllocError>
    ensures { IfOk result (λ entries. entries_of entries.items
        ≡ with_entries (entries_of old.now) (entries_of new.now)) }
{
    let mut entries = Vec::new(alloc);
    push_entries(alloc, &mut entries, old, 0, end_of_kept(old, new))?;
    push_entries(alloc, &mut entries, new, 0, None)?;
    Ok(entries)
}

// The index below which old entries are kept; `None` means no bound.
fn end_of_kept(old: &[(u64, Vec<u8>)], new: &[(u64, Vec<u8>)]) -> Option<u64>
    ensures { with_entries (entries_of old.now) (entries_of new.now)
        ≡ filter (λ e. is_within 0 result e.0) (entries_of old.now) ++ entries_of new.now }
{
    match new.first() {
        Some(first) => end_at(is_next_to(old, first.0), first.0),
        None => None,
    }
}

fn end_at(next: bool, start: u64) -> Option<u64>
    ensures { result ≡ (if next then Some start else Some 0) }
{
    if next { Some(start) } else { Some(0) }
}

/// Whether entries that begin at `start` begin inside the list or right after it.
fn is_next_to(old: &[(u64, Vec<u8>)], start: u64) -> bool
    ensures { result ≡ is_next_to (entries_of old.now) start }
{
    match old.first() {
        Some(first) => is_in_span(first.0, old.len() as u64, start),
        None => false,
    }
}

fn is_in_span(first: u64, len: u64, start: u64) -> bool
    ensures { result ≡ (nat_le first start && nat_le start (first + len)) }
{
    first <= start && start - first <= len
}

/// Whether the list accepts the entries.
pub(crate) fn fits(old: &[(u64, Vec<u8>)], new: &[(u64, Vec<u8>)]) -> bool
    ensures { result ≡ is_none (entries_refusal (entries_of old.now) (entries_of new.now)) }
{
    match new.first() {
        Some(first) => are_counted(new, first.0) && takes_at(old, first.0),
        None => true,
    }
}

fn takes_at(old: &[(u64, Vec<u8>)], start: u64) -> bool
    ensures { result ≡ (is_nil (entries_of old.now) || is_next_to (entries_of old.now) start) }
{
    are_no_entries(old) || is_next_to(old, start)
}

pub(crate) fn are_no_entries(entries: &[(u64, Vec<u8>)]) -> bool
    ensures { result ≡ is_nil (entries_of entries.now) }
{
    entries.is_empty()
}

// Whether the indexes are consecutive from `start` on, and none is the greatest number.
fn are_counted(entries: &[(u64, Vec<u8>)], start: u64) -> bool
    ensures { result ≡ are_counted_from start (entries_of entries.now) }
{
    for (place, entry) in entries.iter().enumerate() {
        if !is_counted(entry.0, start, place as u64) {
            return false;
        }
    }
    true
}

fn is_counted(index: u64, start: u64, place: u64) -> bool
    ensures { result ≡ (not (index == 2 ^ 64 - 1) && index == start + place) }
{
    index != u64::MAX && index >= start && index - start == place
}
