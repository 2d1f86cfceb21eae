//! The changes of a log between two looks.

use raft_records::{KeyValue, LogItem, LogItemContent, LogQueue};
use raft_whole_records::{WholeRecord, is_mark_key};
use std::alloc::{AllocError, Global};
use std::collections::BTreeMap;

/// A number of records, and their bytes in log files.
#[derive(Clone, Copy)]
pub(crate) struct Volume {
    pub records: u64,
    pub bytes: u64,
}

impl Volume {
    pub const NONE: Volume = Volume {
        records: 0,
        bytes: 0,
    };

    pub fn add(&mut self, records: u64, bytes: u64) {
        self.records = self.records.saturating_add(records);
        self.bytes = self.bytes.saturating_add(bytes);
    }
}

/// What was written to a group: the numbers of entries, of puts and deletes of keys, and of
/// commands, and the bytes of entries, keys and values.
#[derive(Clone, Copy)]
pub(crate) struct GroupGrowth {
    pub group: u64,
    pub entries: u64,
    pub puts: u64,
    pub deletes: u64,
    pub commands: u64,
    pub bytes: u64,
}

/// A file that no longer exists, and its last known length in bytes.
#[derive(Drop)]
pub(crate) struct Dropped {
    pub path: String,
    pub size: u64,
}

pub(crate) struct Changes {
    alloc: Global,
    /// Records of the Append queue, which callers write.
    pub written: Volume,
    /// Records of the Rewrite queue, which purges write.
    pub rewritten: Volume,
    /// The groups of the Append queue's new records.
    pub groups: BTreeMap<u64, GroupGrowth>,
    pub dropped: Vec<Dropped>,
    /// The number of files that were made and dropped between two looks, by the numbers of the
    /// first files.
    pub unseen: u64,
}

// One call in each proof that drops it. A derived `Drop` would be one call for each field
// (docs/DECISIONS.md).
impl Drop for Changes {
    fn drop(self) {
        let Changes {
            alloc: _,
            written: _,
            rewritten: _,
            groups: _groups,
            dropped: _dropped,
            unseen: _,
        } = self;
    }
}

impl Changes {
    pub fn new(alloc: Global) -> Changes {
        Changes {
            alloc,
            written: Volume::NONE,
            rewritten: Volume::NONE,
            groups: BTreeMap::new(alloc),
            dropped: Vec::new(alloc),
            unseen: 0,
        }
    }

    /// Adds a record of a queue's file.
    pub fn add_record(&mut self, queue: LogQueue, record: &WholeRecord) -> Result<(), AllocError> {
        if queue == LogQueue::Rewrite {
            self.rewritten.add(1, record.len as u64);
            return Ok(());
        }
        self.written.add(1, record.len as u64);
        for item in &record.items {
            self.add_item(item)?;
        }
        Ok(())
    }

    fn add_item(&mut self, item: &LogItem) -> Result<(), AllocError> {
        let group = item.raft_group_id;
        let mut growth = match self.groups.get(&group) {
            Some(growth) => *growth,
            None => GroupGrowth::none(group),
        };
        growth.add(&item.content);
        self.groups.insert(group, growth)?;
        Ok(())
    }

    /// The groups that grew, at most `limit` of them, those with the most bytes first.
    pub fn grown(&self, limit: u64) -> Result<Vec<GroupGrowth>, AllocError> {
        let mut grown = Vec::new(self.alloc);
        for (_, growth) in self.groups.iter() {
            grown.push(*growth)?;
        }
        grown.sort_by_key(|growth| (u64::MAX - growth.bytes, growth.group))?;
        grown.truncate(usize::try_from(limit).unwrap_or(usize::MAX));
        Ok(grown)
    }

    /// The bytes of all files that were dropped.
    pub fn dropped_bytes(&self) -> u64 {
        let mut bytes = 0u64;
        for file in &self.dropped {
            bytes = bytes.saturating_add(file.size);
        }
        bytes
    }
}

impl GroupGrowth {
    fn none(group: u64) -> GroupGrowth {
        GroupGrowth {
            group,
            entries: 0,
            puts: 0,
            deletes: 0,
            commands: 0,
            bytes: 0,
        }
    }

    fn add(&mut self, content: &LogItemContent) {
        match content {
            LogItemContent::EntryIndexes(entries) => {
                for entry in entries {
                    self.entries = self.entries.saturating_add(1);
                    self.add_bytes(entry.entry_len as usize);
                }
            }
            LogItemContent::Command(_) => self.commands = self.commands.saturating_add(1),
            LogItemContent::Kv(KeyValue::Put { key, .. }) if is_mark_key(key) => {}
            LogItemContent::Kv(KeyValue::Put { key, value }) => {
                self.puts = self.puts.saturating_add(1);
                self.add_bytes(key.len());
                self.add_bytes(value.len());
            }
            LogItemContent::Kv(KeyValue::Delete { key }) => {
                self.deletes = self.deletes.saturating_add(1);
                self.add_bytes(key.len());
            }
        }
    }

    fn add_bytes(&mut self, bytes: usize) {
        self.bytes = self.bytes.saturating_add(bytes as u64);
    }
}
