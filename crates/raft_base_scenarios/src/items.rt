//! Items as rows of a table, and batches of them.

use raft_records::{Command, EntryIndex, Fault, LogBatch};
use std::alloc::Global;

/// An item of a batch.
pub(crate) enum Part {
    Put(u64, &'static [u8], &'static [u8]),
    Delete(u64, &'static [u8]),
    /// One entry with this index and no bytes.
    Entry(u64, u64),
    /// Entries from this index on, each with its bytes.
    Entries(u64, u64, &'static [&'static [u8]]),
    Clean(u64),
    Compact(u64, u64),
}

const NO_BYTES: &[&[u8]] = &[b""];

/// Adds an entry to an item's entries.
pub(crate) fn push_entry(
    alloc: Global,
    indexes: &mut Vec<EntryIndex>,
    bytes: &mut Vec<Vec<u8>>,
    place: EntryIndex,
    entry: &[u8],
) -> Result<(), Fault> {
    indexes.push(place)?;
    bytes.push(entry.to_vec(alloc)?)?;
    Ok(())
}

fn add_entries(
    alloc: Global,
    batch: &mut LogBatch,
    group: u64,
    first: u64,
    entries: &[&'static [u8]],
) -> Result<(), Fault> {
    let mut indexes = Vec::new(alloc);
    let mut bytes = Vec::new(alloc);
    let mut index = first;
    for entry in entries {
        let place = EntryIndex {
            index,
            entries: None,
            entry_offset: 0,
            entry_len: 0,
            lz4: false,
        };
        push_entry(alloc, &mut indexes, &mut bytes, place, entry)?;
        index = index.wrapping_add(1);
    }
    batch.add_raw_entries(group, indexes, bytes)
}

fn add(alloc: Global, batch: &mut LogBatch, part: &Part) -> Result<(), Fault> {
    match part {
        Part::Put(group, key, value) => {
            batch.put(*group, key.to_vec(alloc)?, value.to_vec(alloc)?)
        }
        Part::Delete(group, key) => batch.delete(*group, key.to_vec(alloc)?),
        Part::Entry(group, index) => add_entries(alloc, batch, *group, *index, NO_BYTES),
        Part::Entries(group, first, entries) => add_entries(alloc, batch, *group, *first, entries),
        Part::Clean(group) => batch.add_command(*group, Command::Clean),
        Part::Compact(group, index) => batch.add_command(
            *group,
            Command::Compact { index: *index },
        ),
    }
}

/// A batch of these items.
pub(crate) fn batch_of(alloc: Global, parts: &[Part]) -> Result<LogBatch, Fault> {
    let mut batch = LogBatch::new(alloc);
    for part in parts {
        add(alloc, &mut batch, part)?;
    }
    Ok(batch)
}

/// Whether two batches, neither of them empty, are encoded as the same bytes.
pub(crate) fn have_same_bytes(one: &mut LogBatch, other: &mut LogBatch) -> Result<bool, Fault> {
    one.finish_populate()?;
    other.finish_populate()?;
    Ok(one.encoded_bytes() == other.encoded_bytes())
}
