//! Atomic groups: batches of the Rewrite queue that count together or not at all (docs/FORMAT.md).

use raft_records::{KeyValue, LogItem, LogItemContent};
use std::alloc::{AllocError, Global};
use std::collections::BTreeMap;

/// The key of a mark.
const MARK_KEY: [u8; 3] = [b'_', b'_', 1];

/// The marks of a group's first batch and of its last one.
const FIRST: u8 = 0;

const LAST: u8 = 2;

/// A mark of a batch between the first and the last one.
const BETWEEN: u8 = 1;

/// Which atomic groups have a first batch and, after it, a last one.
pub struct Marks {
    /// Whether the atomic group with this number has both; else it has a first one.
    complete: BTreeMap<u64, bool>,
}

impl Drop for Marks {
    fn drop(self) {
        let Marks {
            complete: _complete,
        } = self;
    }
}

impl Marks {
    pub fn new(alloc: Global) -> Marks {
        Marks {
            complete: BTreeMap::new(alloc),
        }
    }

    /// Adds the mark of the next batch of an atomic group.
    pub fn add(&mut self, group: u64, mark: u8) -> Result<(), AllocError> {
        match mark {
            FIRST if !self.complete.contains_key(&group) => {
                self.complete.insert(group, false)?;
            }
            LAST => {
                if let Some(complete) = self.complete.get_mut(&group) {
                    *complete = true;
                }
            }
            _ => {}
        }
        Ok(())
    }

    /// Whether the batches with the mark of this group count.
    pub fn counts(&self, group: u64) -> bool {
        match self.complete.get(&group) {
            Some(complete) => *complete,
            None => false,
        }
    }
}

/// Whether it is the key of a mark.
pub fn is_mark_key(key: &[u8]) -> bool {
    key == MARK_KEY.as_slice()
}

/// The mark in the value at its key.
pub fn mark_in(value: &[u8]) -> u8 {
    match value {
        [mark] => *mark,
        _ => BETWEEN,
    }
}

/// The mark that a batch of these items begins with, and its atomic group.
pub fn mark_of(items: &[LogItem]) -> Option<(u64, u8)> {
    let item = items.first()?;
    match &item.content {
        LogItemContent::Kv(KeyValue::Put { key, value }) if is_mark_key(key) => {
            Some((item.raft_group_id, mark_in(value)))
        }
        _ => None,
    }
}
