//! Changes of keys as rows of a table, and the items and batches that have them.

use raft_records::{Fault, KeyValue, LogBatch, LogItem, LogItemContent};
use std::alloc::{AllocError, Global};

/// A group, its key, and the key's new value; `None` deletes the key.
pub(crate) struct Change(pub u64, pub &'static [u8], pub Option<&'static [u8]>);

pub(crate) fn key_value_of(
    alloc: Global,
    key: &[u8],
    value: Option<&[u8]>,
) -> Result<KeyValue, AllocError> {
    let key = key.to_vec(alloc)?;
    match value {
        Some(value) => Ok(KeyValue::Put {
            key,
            value: value.to_vec(alloc)?,
        }),
        None => Ok(KeyValue::Delete { key }),
    }
}

/// Adds the items of these changes.
pub(crate) fn push_items(
    alloc: Global,
    changes: &[Change],
    items: &mut Vec<LogItem>,
) -> Result<(), Fault> {
    for Change(group, key, value) in changes {
        items.push(LogItem {
            raft_group_id: *group,
            content: LogItemContent::Kv(key_value_of(alloc, key, *value)?),
        })?;
    }
    Ok(())
}

fn is_change(held: &KeyValue, key: &[u8], value: Option<&[u8]>) -> bool {
    match (held, value) {
        (
            KeyValue::Put {
                key: at,
                value: held,
            },
            Some(value),
        ) => { at.as_slice() == key && held.as_slice() == value }
        (KeyValue::Delete { key: at }, None) => at.as_slice() == key,
        _ => false,
    }
}

fn is_item(item: &LogItem, change: &Change) -> bool {
    match &item.content {
        LogItemContent::Kv(held) => {
            item.raft_group_id == change.0 && is_change(held, change.1, change.2)
        }
        _ => false,
    }
}

/// Whether the items are those of these changes.
pub(crate) fn are_items(items: &[LogItem], changes: &[Change]) -> bool {
    for (item, change) in items.iter().zip(changes) {
        if !is_item(item, change) {
            return false;
        }
    }
    items.len() == changes.len()
}

pub(crate) fn add(alloc: Global, batch: &mut LogBatch, change: &Change) -> Result<(), Fault> {
    let key = change.1.to_vec(alloc)?;
    match change.2 {
        Some(value) => batch.put(change.0, key, value.to_vec(alloc)?),
        None => batch.delete(change.0, key),
    }
}

/// Whether the bytes are these parts, one after the other.
pub(crate) fn is_joined(bytes: &[u8], parts: &[&[u8]]) -> bool {
    let mut rest = bytes;
    for part in parts {
        match rest.strip_prefix(*part) {
            Some(after) => rest = after,
            None => return false,
        }
    }
    rest.is_empty()
}
