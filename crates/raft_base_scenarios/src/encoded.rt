//! Batches of all kinds of items: their records, or why encoding fails.

ghost use Rattle.std.specs.Prelude.{◌≡◌, [], ◌∷◌};

use crate::items::{have_same_bytes, push_entry};
use crate::record_rows::{DecodedRecord, WantedItem, decoded};
use crate::records::{is_decoded, items_of};
use crate::told::assert_row;
use raft_records::{Command, EntryIndex, Fault, FileBlockHandle, LogBatch, Message, MessageExt};
use std::alloc::{AllocError, Global};

fn index_at(index: u64) -> EntryIndex {
    EntryIndex {
        index,
        entries: None,
        entry_offset: 7,
        entry_len: 7,
        lz4: true,
    }
}

fn add_entries(
    alloc: Global,
    batch: &mut LogBatch,
    group: u64,
    entries: &[(u64, u32, u32)],
    block: &[u8],
) -> Result<(), Fault> {
    let mut indexes = Vec::new(alloc);
    let mut bytes = Vec::new(alloc);
    for (index, offset, len) in entries {
        let (_, rest) = block.split_at((*offset as usize).min(block.len()));
        let (entry, _) = rest.split_at((*len as usize).min(rest.len()));
        push_entry(alloc, &mut indexes, &mut bytes, index_at(*index), entry)?;
    }
    batch.add_raw_entries(group, indexes, bytes)
}

fn add(
    alloc: Global,
    batch: &mut LogBatch,
    wanted: &WantedItem,
    block: &[u8],
) -> Result<(), Fault> {
    match wanted {
        WantedItem::Entries(group, entries) => add_entries(alloc, batch, *group, entries, block),
        WantedItem::Clean(group) => batch.add_command(*group, Command::Clean),
        WantedItem::Compact(group, index) => {
            batch.add_command(*group, Command::Compact { index: *index })
        }
        WantedItem::Put(group, key, value) => {
            batch.put(*group, key.to_vec(alloc)?, value.to_vec(alloc)?)
        }
        WantedItem::Delete(group, key) => batch.delete(*group, key.to_vec(alloc)?),
    }
}

/// A caller's batch never has an item without entries, an atomic group's mark, or a compressed
/// block.
fn is_encoded(record: &DecodedRecord) -> bool {
    for item in record.items {
        let holds = match item {
            WantedItem::Entries(_, entries) => !entries.is_empty(),
            WantedItem::Put(_, key, _) => !key.starts_with(b"__"),
            _ => true,
        };
        if !holds {
            return false;
        }
    }
    let (_, _, lz4) = record.block;
    !lz4
}

fn batch_of(alloc: Global, record: &DecodedRecord) -> Result<LogBatch, Fault> {
    let (_, block) = record.bytes.split_at(record.bytes.len().min(16));
    let mut batch = LogBatch::new(alloc);
    for item in record.items {
        add(alloc, &mut batch, item, block)?;
    }
    Ok(batch)
}

// Whether the batch is encoded as this record.
fn has_bytes(batch: &mut LogBatch, record: &DecodedRecord) -> Result<bool, Fault> {
    let len = batch.finish_populate()?;
    batch.prepare_write(&record.file);
    let (wanted, _) = record.bytes.split_at(record.bytes.len().min(record.len));
    Ok(len == record.len && batch.encoded_bytes() == wanted)
}

// Whether the items that the batch gives out are the record's.
fn has_items(alloc: Global, batch: &mut LogBatch, record: &DecodedRecord) -> Result<bool, Fault> {
    batch.finish_write(FileBlockHandle {
        id: record.file.id,
        offset: record.at,
        len: record.len,
    });
    let mut items = Vec::new(alloc);
    batch.drain(&mut items);
    Ok(batch.is_empty() && items == items_of(alloc, record)?)
}

fn comes_to(alloc: Global, record: &DecodedRecord) -> Result<bool, Fault> {
    if !is_encoded(record) {
        return Ok(true);
    }
    let mut batch = batch_of(alloc, record)?;
    Ok(has_bytes(&mut batch, record)? && has_items(alloc, &mut batch, record)?)
}

#[test]
fn records_are_decoded_and_encoded(rt: HostRuntime) {
    for table in &decoded() {
        for record in *table {
            assert_row(&rt, is_decoded(rt.alloc(), record), record.name);
            assert_row(&rt, comes_to(rt.alloc(), record), record.name);
        }
    }
}

/// The indexes of each item's entries, and how encoding fails.
struct NoRecord {
    name: &'static str,
    items: &'static [&'static [u64]],
    code: u8,
}

static NO_RECORDS: [NoRecord; 6] = [
    NoRecord {
        name: "a gap",
        items: &[&[1, 2, 4]],
        code: 5,
    },
    NoRecord {
        name: "an index twice",
        items: &[&[1, 2, 2]],
        code: 5,
    },
    NoRecord {
        name: "the greatest index",
        items: &[&[u64::MAX]],
        code: 6,
    },
    NoRecord {
        name: "the greatest index after a gap",
        items: &[&[1, u64::MAX]],
        code: 6,
    },
    NoRecord {
        name: "a gap in an item before one with the greatest index",
        items: &[&[1, 2], &[1, 3], &[u64::MAX]],
        code: 5,
    },
    NoRecord {
        name: "the greatest index in an item before one with a gap",
        items: &[&[u64::MAX - 1, u64::MAX], &[1, 3]],
        code: 6,
    },
];

fn add_indexes(alloc: Global, batch: &mut LogBatch, indexes: &[u64]) -> Result<(), Fault> {
    let mut entries = Vec::new(alloc);
    let mut bytes = Vec::new(alloc);
    for index in indexes {
        push_entry(alloc, &mut entries, &mut bytes, index_at(*index), b"e")?;
    }
    batch.add_raw_entries(1, entries, bytes)
}

fn add_each(alloc: Global, batch: &mut LogBatch, items: &[&[u64]]) -> Result<(), Fault> {
    for indexes in items {
        add_indexes(alloc, batch, indexes)?;
    }
    Ok(())
}

fn is_no_record(alloc: Global, no_record: &NoRecord) -> Result<bool, Fault> {
    let mut batch = LogBatch::new(alloc);
    add_each(alloc, &mut batch, no_record.items)?;
    match batch.finish_populate() {
        Ok(_) => Ok(false),
        Err(fault) => Ok(fault.code() == no_record.code),
    }
}

#[test]
fn entries_out_of_order_are_refused(rt: HostRuntime) {
    for no_record in &NO_RECORDS {
        assert_row(&rt, is_no_record(rt.alloc(), no_record), no_record.name);
    }
}

// Whether an index without its entry is refused.
fn is_refused(alloc: Global, batch: &mut LogBatch) -> Result<bool, AllocError> {
    let mut indexes = Vec::new(alloc);
    indexes.push(index_at(1))?;
    match batch.add_raw_entries(1, indexes, Vec::new(alloc)) {
        Ok(()) => Ok(false),
        Err(fault) => Ok(fault.code() == 17),
    }
}

fn is_left_empty(alloc: Global) -> Result<bool, Fault> {
    let mut batch = LogBatch::new(alloc);
    if !is_refused(alloc, &mut batch)? {
        return Ok(false);
    }
    batch.add_raw_entries(1, Vec::new(alloc), Vec::new(alloc))?;
    Ok(batch.is_empty())
}

#[test]
fn lists_of_different_lengths_are_refused(rt: HostRuntime) {
    assert_row(&rt, is_left_empty(rt.alloc()), "an index without its entry");
}

/// An entry of one byte: its index.
#[derive(Drop)]
struct Byte(u8);

impl Message for Byte {
    ghost bytes_of = { λ message. message.0 ∷ [] };

    ghost is_parsed = { λ bytes message. bytes ≡ message.0 ∷ [] };

    fn parse(_alloc: Global, bytes: &[u8]) -> Result<Byte, Fault> {
        match bytes {
            [byte] => Ok(Byte(*byte)),
            _ => Err(Fault::Parse),
        }
    }

    fn to_bytes(&self, buffer: &mut Vec<u8>) -> Result<(), AllocError> {
        buffer.push(self.0)?;
        Ok(())
    }
}

struct Bytes;

impl MessageExt for Bytes {
    type Entry = Byte;

    ghost index_of = { λ entry. entry.0 };

    fn index(entry: &Byte) -> u64 {
        u64::from(entry.0)
    }
}

fn add_messages(alloc: Global, batch: &mut LogBatch) -> Result<(), Fault> {
    batch.add_entries::<Bytes>(7, &[Byte(5), Byte(6)])?;
    batch.add_entries::<Bytes>(7, &[])?;
    batch.put_message(7, b"k".to_vec(alloc)?, &Byte(b'v'))
}

fn add_bytes(alloc: Global, batch: &mut LogBatch) -> Result<(), Fault> {
    add_entries(alloc, batch, 7, &[(5, 0, 1), (6, 1, 1)], &[5, 6])?;
    batch.put(7, b"k".to_vec(alloc)?, b"v".to_vec(alloc)?)
}

fn are_same(alloc: Global) -> Result<bool, Fault> {
    let mut batch = LogBatch::new(alloc);
    add_messages(alloc, &mut batch)?;
    let mut raw = LogBatch::new(alloc);
    add_bytes(alloc, &mut raw)?;
    have_same_bytes(&mut batch, &mut raw)
}

fn are_parsed(alloc: Global) -> bool {
    match (Byte::parse(alloc, b"v"), Byte::parse(alloc, b"vw")) {
        (Ok(byte), Err(fault)) => byte.0 == b'v' && fault.code() == 10,
        _ => false,
    }
}

#[test]
fn messages_are_stored_as_their_bytes(rt: HostRuntime) {
    assert_row(&rt, are_same(rt.alloc()), "their bytes");
    assert!(rt; are_parsed(rt.alloc()));
}
