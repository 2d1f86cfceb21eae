//! Copies of the elements between two bounds.
ghost use Rattle.std.specs.Prelude.{◌≡◌, ◌∷◌, ◌++◌, [], filter, OnOk, None, Some};
ghost use Rattle.std.specs.Cmp.Lexicographic.{slice_cmp};
ghost use Rattle.std.specs.Option.{option_copied};
ghost use Rattle.std.specs.Ordering.{nat_cmp};
ghost use Rattle.raft_tables.specs.Listing.{listed};
ghost use Rattle.raft_log_engine.specs.Image.{entries_of};
ghost use Rattle.raft_allowed.specs.Held.{between, is_between, is_past, is_short, is_within};

use std::alloc::{AllocError, Global};

/// Adds copies of the entries with indexes from `from` on and below `to`; `None` means no bound.
pub(crate) fn push_entries(
    alloc: Global,
    into: &mut Vec<(u64, Vec<u8>)>,
    entries: &[(u64, Vec<u8>)],
    from: u64,
    to: Option<u64>,
) -> Result<(), AllocError>
    ensures { OnOk result (entries_of into.new.items ≡ entries_of into.old.items
        ++ filter (λ e. is_within from to e.0) (entries_of entries.now)) }
{
    for entry in entries {
        push_entry(alloc, into, entry, from, to)?;
    }
    Ok(())
}

fn push_entry(
    alloc: Global,
    into: &mut Vec<(u64, Vec<u8>)>,
    entry: &(u64, Vec<u8>),
    from: u64,
    to: Option<u64>,
) -> Result<(), AllocError>
    ensures { OnOk result (entries_of into.new.items ≡ entries_of into.old.items
        ++ filter (λ e. is_within from to e.0) ((entry.now.0, entry.now.1.items) ∷ [])) }
{
    if !is_within(from, to, entry.0) {
        return Ok(());
    }
    let bytes = entry.1.to_vec(alloc)?;
    into.push((entry.0, bytes))?;
    Ok(())
}

fn is_within(from: u64, to: Option<u64>, index: u64) -> bool
    ensures { result ≡ is_within from to index }
{
    match to {
        Some(to) => from <= index && index < to,
        None => from <= index,
    }
}

/// Adds copies of the pairs with keys after one and before the other; `None` means no bound.
pub(crate) fn push_pairs(
    alloc: Global,
    into: &mut Vec<(Vec<u8>, Vec<u8>)>,
    pairs: &[(Vec<u8>, Vec<u8>)],
    after: Option<&[u8]>,
    before: Option<&[u8]>,
) -> Result<(), AllocError>
    ensures { OnOk result (listed into.new.items ≡ listed into.old.items
        ++ between (slice_cmp nat_cmp) (option_copied after.entry) (option_copied before.entry)
        (listed pairs.now)) }
{
    for pair in pairs {
        push_pair(alloc, into, pair, after, before)?;
    }
    Ok(())
}

fn push_pair(
    alloc: Global,
    into: &mut Vec<(Vec<u8>, Vec<u8>)>,
    pair: &(Vec<u8>, Vec<u8>),
    after: Option<&[u8]>,
    before: Option<&[u8]>,
) -> Result<(), AllocError>
    ensures { OnOk result (listed into.new.items ≡ listed into.old.items
        ++ between (slice_cmp nat_cmp) (option_copied after.entry) (option_copied before.entry)
        ((pair.now.0.items, pair.now.1.items) ∷ [])) }
{
    if !is_key_between(after, before, &pair.0) {
        return Ok(());
    }
    let key = pair.0.to_vec(alloc)?;
    let value = pair.1.to_vec(alloc)?;
    into.push((key, value))?;
    Ok(())
}

fn is_key_between(after: Option<&[u8]>, before: Option<&[u8]>, key: &[u8]) -> bool
    ensures { result
        ≡ is_between (slice_cmp nat_cmp) (option_copied after.entry) (option_copied before.entry)
        key.now }
{
    is_key_past(after, key) && is_key_short(before, key)
}

fn is_key_past(after: Option<&[u8]>, key: &[u8]) -> bool
    ensures { result ≡ is_past (slice_cmp nat_cmp) (option_copied after.entry) key.now }
{
    match after {
        Some(bound) => bound < key,
        None => true,
    }
}

fn is_key_short(before: Option<&[u8]>, key: &[u8]) -> bool
    ensures { result ≡ is_short (slice_cmp nat_cmp) (option_copied before.entry) key.now }
{
    match before {
        Some(bound) => key < bound,
        None => true,
    }
}

pub(crate) fn is_group_between(after: Option<u64>, before: Option<u64>, group: u64) -> bool
    ensures { result ≡ is_between nat_cmp after before group }
{
    is_group_past(after, group) && is_group_short(before, group)
}

fn is_group_past(after: Option<u64>, group: u64) -> bool
    ensures { result ≡ is_past nat_cmp after group }
{
    match after {
        Some(bound) => bound < group,
        None => true,
    }
}

fn is_group_short(before: Option<u64>, group: u64) -> bool
    ensures { result ≡ is_short nat_cmp before group }
{
    match before {
        Some(bound) => group < bound,
        None => true,
    }
}
