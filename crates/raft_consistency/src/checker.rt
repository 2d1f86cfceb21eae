//! The first hole in each group's entries.
ghost use Rattle.std.specs.Prelude.{◌≡◌, ◌==◌, ◌++◌, [], ℕ, List, None, Some, OnOk, IfOk, IfErr, nat_eq, map, if◌then◌else◌};
ghost use Rattle.std.specs.BTreeMap as tree;
ghost use Rattle.std.specs.HashMap as hash;
ghost use Rattle.std.specs.Option.{option_or};
ghost use Rattle.std.specs.Ordering.{nat_cmp};
ghost use Rattle.raft_records.specs.Item.{Batch};
ghost use Rattle.raft_records.specs.LogItem.{item_of, placed_content_of};
ghost use Rattle.raft_records.specs.Places.{placed_entry};
ghost use Rattle.raft_records.specs.PlacedItem.{EntriesAt, content_in};
ghost use Rattle.raft_consistency.specs.Holes.{hole_before, kept_of, kept_then, range_by, ranges_by, ranges_of};

use raft_records::{EntryIndex, LogItem, LogItemContent};
use std::alloc::{AllocError, Global};
use std::collections::{BTreeMap, HashMap};

/// What is known of a group's entries: the first index, the last one, and the last one before the
/// first hole.
#[derive(Clone, Copy, Debug)]
struct GroupEntries {
    first: u64,
    last: u64,
    hole: Option<u64>,
}

/// Finds of each group the last index before the first hole in its entries, in the batches that
/// it was given in order.
#[derive(Drop)]
pub struct ConsistencyChecker {
    groups: HashMap<u64, GroupEntries>,
}

impl ConsistencyChecker {
    ghost use Rattle.raft_consistency.specs.Holes.{HasTaken, hole_in, holes_in, kept_in};

    /// It was given no batch. It takes no memory.
    pub fn new(alloc: Global) -> ConsistencyChecker
        ensures value { HasTaken [] result }
    {
        ConsistencyChecker {
            groups: HashMap::new(alloc),
        }
    }

    /// Takes the items of one more batch. After an `Err` it has taken some of them.
    pub fn take(&mut self, items: &[LogItem]) -> Result<(), AllocError>
        ensures ok { OnOk result ((group : ℕ) → kept_in self.new group ≡ kept_then
            (kept_in self.old group) (kept_of (ranges_of group (map item_of items.now)))) }
    {
        for item in items {
            self.take_item(item)?;
        }
        Ok(())
    }

    fn take_item(&mut self, item: &LogItem) -> Result<(), AllocError>
        ensures ok { OnOk result ((group : ℕ) → kept_in self.new group ≡ kept_then
            (kept_in self.old group) (kept_of (ranges_by group (item_of item.now)))) }
    {
        match entries_in(&item.content) {
            Some(entries) => self.add(item.raft_group_id, entries),
            None => Ok(()),
        }
    }

    /// Adds the knowledge of later entries of a group.
    fn add(&mut self, group: u64, later: GroupEntries) -> Result<(), AllocError>
        ensures ok { OnOk result ((one : ℕ) → kept_in self.new one
            ≡ kept_then (kept_in self.old one) (if group == one then Some later else None)) }
    {
        let joined = match self.groups.get(&group) {
            Some(earlier) => joined(*earlier, later),
            None => later,
        };
        self.groups.insert(group, joined)?;
        Ok(())
    }

    /// Takes what one has taken that was given later batches. After an `Err` it has taken some of
    /// that.
    pub fn join(&mut self, newer: ConsistencyChecker) -> Result<(), AllocError>
        ensures ok { OnOk result ((group : ℕ) → kept_in self.new group
            ≡ kept_then (kept_in self.old group) (kept_in newer group)) }
    {
        for (group, entries) in newer.groups {
            self.add(group, entries)?;
        }
        Ok(())
    }

    /// For each group with a hole the last index before the first one.
    pub fn finish(self, alloc: Global) -> Result<HashMap<u64, u64>, AllocError>
        ensures value { IfOk result (λ holes. (group : ℕ)
            → hash.get nat_eq holes group ≡ hole_in self group) }
    {
        let mut holes = HashMap::new(alloc);
        for (group, entries) in self.groups {
            note_hole(&mut holes, group, entries.hole)?;
        }
        Ok(holes)
    }

    /// Sets of each group with a hole the last index before the first one.
    pub(crate) fn add_holes(self, holes: &mut BTreeMap<u64, u64>) -> Result<(), AllocError>
        ensures ok { OnOk result ((group : ℕ) → tree.get nat_cmp holes.new group
            ≡ option_or (hole_in self group) (tree.get nat_cmp holes.old group)) }
    {
        for (group, entries) in self.groups {
            set_hole(holes, group, entries.hole)?;
        }
        Ok(())
    }
}

/// Notes the hole of a group, if it has one.
fn note_hole(holes: &mut HashMap<u64, u64>, group: u64, hole: Option<u64>) -> Result<(), AllocError>
    ensures ok { OnOk result ((one : ℕ) → hash.get nat_eq holes.new one
        ≡ (if group == one then option_or hole (hash.get nat_eq holes.old one)
        else hash.get nat_eq holes.old one)) }
{
    if let Some(last) = hole {
        holes.insert(group, last)?;
    }
    Ok(())
}

/// Sets the hole of a group, if it has one.
fn set_hole(holes: &mut BTreeMap<u64, u64>, group: u64, hole: Option<u64>) -> Result<(), AllocError>
    ensures ok { OnOk result ((one : ℕ) → tree.get nat_cmp holes.new one
        ≡ (if group == one then option_or hole (tree.get nat_cmp holes.old one)
        else tree.get nat_cmp holes.old one)) }
{
    if let Some(last) = hole {
        holes.insert(group, last)?;
    }
    Ok(())
}

/// What is known of an item's entries, if it has some.
fn entries_in(content: &LogItemContent) -> Option<GroupEntries>
    ensures value { result
        ≡ kept_of (range_by (content_in (λ _. []) (placed_content_of content.now))) }
{
    match content {
        LogItemContent::EntryIndexes(entries) => ends_of(entries),
        LogItemContent::Command(_) | LogItemContent::Kv(_) => None,
    }
}

#[tactic(auto, using(crate::proofs::HoleLemmas::no_range))]
fn ends_of(entries: &[EntryIndex]) -> Option<GroupEntries>
    ensures value { result
        ≡ kept_of (range_by (content_in (λ _. []) (EntriesAt (map placed_entry entries.now)))) }
{
    let (Some(first), Some(last)) = (entries.first(), entries.last()) else {
        return None;
    };
    Some(GroupEntries {
        first: first.index,
        last: last.index,
        hole: None,
    })
}

fn joined(earlier: GroupEntries, later: GroupEntries) -> GroupEntries
    ensures value { Some result ≡ kept_then (Some earlier) (Some later) }
{
    GroupEntries {
        first: earlier.first,
        last: later.last,
        hole: earlier
            .hole
            .or(hole_before(earlier.last, later.first))
            .or(later.hole),
    }
}

/// The last index, if entries that start with this one leave a hole after it.
fn hole_before(last: u64, first: u64) -> Option<u64>
    ensures value { result ≡ hole_before last first }
{
    if last < first && first - last > 1 {
        Some(last)
    } else {
        None
    }
}
