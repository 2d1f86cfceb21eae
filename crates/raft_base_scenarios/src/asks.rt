//! Changes of a group as rows of a table, and their items.

use crate::changes::key_value_of;
use raft_records::{Command, EntryIndex, FileBlockHandle, FileId, LogItem, LogItemContent};
use std::alloc::{AllocError, Global};

/// A change of a group.
pub(crate) enum Ask {
    /// Entries with these indexes.
    Put(&'static [u64]),
    Compact(u64),
    Clean,
    /// A key, and its new value; `None` deletes the key.
    Key(&'static [u8], Option<&'static [u8]>),
}

fn indexes_of(alloc: Global, id: FileId, indexes: &[u64]) -> Result<Vec<EntryIndex>, AllocError> {
    let mut entries = Vec::new(alloc);
    for index in indexes {
        entries.push(EntryIndex {
            index: *index,
            entries: Some(FileBlockHandle {
                id,
                offset: 16,
                len: 9,
            }),
            entry_offset: 0,
            entry_len: 5,
            lz4: false,
        })?;
    }
    Ok(entries)
}

pub(crate) fn item_of(
    alloc: Global,
    group: u64,
    id: FileId,
    ask: &Ask,
) -> Result<LogItem, AllocError> {
    let content = match ask {
        Ask::Put(indexes) => LogItemContent::EntryIndexes(indexes_of(alloc, id, indexes)?),
        Ask::Compact(index) => LogItemContent::Command(Command::Compact { index: *index }),
        Ask::Clean => LogItemContent::Command(Command::Clean),
        Ask::Key(key, value) => LogItemContent::Kv(key_value_of(alloc, key, *value)?),
    };
    Ok(LogItem {
        raft_group_id: group,
        content,
    })
}

/// The item of group 1 that makes this change.
pub(crate) fn one_item(alloc: Global, id: FileId, ask: &Ask) -> Result<Vec<LogItem>, AllocError> {
    let mut items = Vec::new(alloc);
    items.push(item_of(alloc, 1, id, ask)?)?;
    Ok(items)
}
