//! The contents of the records that were read: the entries of each group with their gaps, and its
//! keys.

use raft_inspect::{Filter, ItemKind};
use raft_records::{Command, EntryIndex, Fault, KeyValue, LogItem, LogItemContent};
use raft_whole_records::{WholeRecord, is_mark_key};
use std::alloc::{AllocError, Global};
use std::collections::BTreeMap;

/// The value at a key, and whether it may be older than a lost one.
pub struct Kept {
    pub value: Vec<u8>,
    /// How many places could not be read before it was written.
    losses: u64,
    /// Whether a record that could not be read changed it.
    is_changed: bool,
}

// One call in a proof that drops it; derived, it would be one of each field (docs/DECISIONS.md).
impl Drop for Kept {
    fn drop(self) {
        let Kept {
            value: _value,
            losses: _,
            is_changed: _,
        } = self;
    }
}

/// Entries of a group that follow one another: the first index, and the bytes of each.
pub struct Run {
    pub first: u64,
    pub entries: Vec<Vec<u8>>,
    /// Whether the last of them was read from the Append queue.
    is_appended: bool,
}

// One call in a proof that drops it; derived, it would be one of each field (docs/DECISIONS.md).
impl Drop for Run {
    fn drop(self) {
        let Run {
            first: _,
            entries: _entries,
            is_appended: _,
        } = self;
    }
}

impl Run {
    /// The index after the last one.
    pub fn end(&self) -> u64 {
        self.first.saturating_add(self.entries.len() as u64)
    }
}

/// A group: its entries, with a gap between two runs, and its keys.
pub struct Group {
    pub runs: Vec<Run>,
    pub keys: BTreeMap<Vec<u8>, Kept>,
}

// One call in a proof that drops it; derived, it would be one of each field (docs/DECISIONS.md).
impl Drop for Group {
    fn drop(self) {
        let Group {
            runs: _runs,
            keys: _keys,
        } = self;
    }
}

impl Group {
    /// Whether entries are lost between others. The Append queue has each record that was written
    /// after one of its records, also a removal of entries. After entries of the Rewrite queue a
    /// removal may have been dropped with its file.
    fn has_gap(&self) -> bool {
        for pair in self.runs.windows(2) {
            if let [run, _] = pair {
                if run.is_appended {
                    return true;
                }
            }
        }
        false
    }
}

/// All groups.
pub struct Tables {
    alloc: Global,
    pub groups: BTreeMap<u64, Group>,
    /// The number of places that could not be read until now.
    pub losses: u64,
}

impl Drop for Tables {
    fn drop(self) {
        let Tables {
            alloc: _,
            groups: _groups,
            losses: _,
        } = self;
    }
}

impl Tables {
    pub fn new(alloc: Global) -> Tables {
        Tables {
            alloc,
            groups: BTreeMap::new(alloc),
            losses: 0,
        }
    }

    /// Notes that something could not be read here.
    pub fn lose(&mut self) {
        self.losses = self.losses.saturating_add(1);
    }

    /// Whether a key's value may be older than a lost one.
    pub fn is_older(&self, kept: &Kept) -> bool {
        kept.is_changed || kept.losses < self.losses
    }

    /// Whether entries are lost between others of a group, among those that the filter takes.
    pub fn has_gap(&self, filter: Filter) -> bool {
        for (number, group) in self.groups.iter() {
            if group.has_gap() && filter.takes(*number, ItemKind::Entry, None) {
                return true;
            }
        }
        false
    }

    /// Applies the items of a record, in order: one of the Append queue's files, or another one.
    pub fn apply(&mut self, record: &WholeRecord, is_appended: bool) -> Result<(), Fault> {
        for item in &record.items {
            let losses = self.losses;
            let alloc = self.alloc;
            let group = self.group(item.raft_group_id)?;
            match &item.content {
                LogItemContent::EntryIndexes(entries) => {
                    add_entries(alloc, group, record, entries, is_appended)?;
                }
                LogItemContent::Command(command) => command_group(group, *command),
                LogItemContent::Kv(pair) => put_pair(alloc, group, pair, losses)?,
            }
        }
        Ok(())
    }

    /// Applies a record whose entries can't be read: it removed entries, or changed keys.
    pub fn apply_lost(&mut self, items: &[LogItem]) -> Result<(), Fault> {
        for item in items {
            let group = self.group(item.raft_group_id)?;
            match &item.content {
                LogItemContent::EntryIndexes(entries) => {
                    if let Some(first) = entries.first() {
                        truncate(group, first.index);
                    }
                }
                LogItemContent::Command(command) => command_group(group, *command),
                LogItemContent::Kv(KeyValue::Put { key, .. } | KeyValue::Delete { key }) => {
                    if let Some(kept) = group.keys.get_mut(key) {
                        kept.is_changed = true;
                    }
                }
            }
        }
        Ok(())
    }

    fn group(&mut self, number: u64) -> Result<&mut Group, AllocError> {
        if !self.groups.contains_key(&number) {
            let group = Group {
                runs: Vec::new(self.alloc),
                keys: BTreeMap::new(self.alloc),
            };
            self.groups.insert(number, group)?;
        }
        match self.groups.get_mut(&number) {
            Some(group) => Ok(group),
            None => Err(AllocError),
        }
    }
}

fn command_group(group: &mut Group, command: Command) {
    match command {
        Command::Clean => {
            group.runs.clear();
            group.keys.clear();
        }
        Command::Compact { index } => compact(group, index),
    }
}

fn put_pair(
    alloc: Global,
    group: &mut Group,
    pair: &KeyValue,
    losses: u64,
) -> Result<(), AllocError> {
    match pair {
        KeyValue::Put { key, value } => {
            if is_mark_key(key) {
                return Ok(());
            }
            let kept = Kept {
                value: value.to_vec(alloc)?,
                losses,
                is_changed: false,
            };
            group.keys.insert(key.to_vec(alloc)?, kept)?;
        }
        KeyValue::Delete { key } => {
            group.keys.remove(key);
        }
    }
    Ok(())
}

// Entries replace those from their first index on.
fn add_entries(
    alloc: Global,
    group: &mut Group,
    record: &WholeRecord,
    entries: &[EntryIndex],
    is_appended: bool,
) -> Result<(), AllocError> {
    let Some(first) = entries.first() else {
        return Ok(());
    };
    let first = first.index;
    truncate(group, first);
    let is_next = match group.runs.last() {
        Some(run) => run.end() == first,
        None => false,
    };
    if !is_next {
        group.runs.push(Run {
            first,
            entries: Vec::new(alloc),
            is_appended,
        })?;
    }
    if let Some(run) = group.runs.last_mut() {
        run.is_appended = is_appended;
        for entry in entries {
            run.entries.push(record.entry(entry).to_vec(alloc)?)?;
        }
    }
    Ok(())
}

// Removes the entries from an index on.
fn truncate(group: &mut Group, index: u64) {
    group.runs.retain(|run| run.first < index);
    if let Some(run) = group.runs.last_mut() {
        if index < run.end() {
            let len = usize::try_from(index.saturating_sub(run.first)).unwrap_or(usize::MAX);
            run.entries.truncate(len);
        }
    }
}

// Removes the entries below an index.
fn compact(group: &mut Group, index: u64) {
    group.runs.retain(|run| index < run.end());
    if let Some(run) = group.runs.first_mut() {
        if run.first < index {
            let count = usize::try_from(index.saturating_sub(run.first)).unwrap_or(usize::MAX);
            let count = count.min(run.entries.len());
            run.entries.drain(..count);
            run.first = index;
        }
    }
}
