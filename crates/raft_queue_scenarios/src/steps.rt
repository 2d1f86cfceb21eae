//! Items of one group.

use raft_records::{Command, EntryIndex, KeyValue, LogItem, LogItemContent};
use std::alloc::{AllocError, Global};

pub(crate) const GROUP: u64 = 1;

pub(crate) const KEY: &[u8] = b"k";

/// An item. Each is in a batch of its own.
#[derive(Clone, Copy)]
pub(crate) enum Step {
    /// Entries from the first index to the last.
    Entries(u64, u64),
    Compact(u64),
    Clean,
    Put,
    Delete,
}

pub(crate) fn entry(index: u64) -> EntryIndex {
    EntryIndex {
        index,
        entries: None,
        entry_offset: 0,
        entry_len: 0,
        lz4: false,
    }
}

fn content(alloc: Global, step: Step) -> Result<LogItemContent, AllocError> {
    Ok(match step {
        Step::Entries(first, last) => {
            let mut entries = Vec::new(alloc);
            for index in first..last {
                entries.push(entry(index))?;
            }
            entries.push(entry(last))?;
            LogItemContent::EntryIndexes(entries)
        }
        Step::Compact(index) => LogItemContent::Command(Command::Compact { index }),
        Step::Clean => LogItemContent::Command(Command::Clean),
        Step::Put => LogItemContent::Kv(KeyValue::Put {
            key: KEY.to_vec(alloc)?,
            value: KEY.to_vec(alloc)?,
        }),
        Step::Delete => LogItemContent::Kv(KeyValue::Delete {
            key: KEY.to_vec(alloc)?,
        }),
    })
}

/// The batch of a step.
pub(crate) fn items_of(alloc: Global, step: Step) -> Result<Vec<LogItem>, AllocError> {
    let mut items = Vec::new(alloc);
    items.push(LogItem {
        raft_group_id: GROUP,
        content: content(alloc, step)?,
    })?;
    Ok(items)
}
