//! Records as bytes: how they are read and replayed.

use crate::changes::key_value_of;
use crate::record_rows::{DecodedRecord, UNSIGNED, WantedItem, decoded};
use crate::refused_rows::{RefusedRecord, refused};
use crate::told::assert_row;
use raft_records::{
    Command, EntryIndex, Fault, FileBlockHandle, LogFileContext, LogItem, LogItemBatch,
    LogItemContent, RecordHeader, decode_entries_block, decode_header, decode_record,
};
use std::alloc::{AllocError, Global};

fn entries_of(
    alloc: Global,
    entries: &[(u64, u32, u32)],
    record: &DecodedRecord,
) -> Result<Vec<EntryIndex>, AllocError> {
    let (offset, len, lz4) = record.block;
    let block = FileBlockHandle {
        id: record.file.id,
        offset,
        len,
    };
    let mut indexes = Vec::new(alloc);
    for (index, entry_offset, entry_len) in entries {
        indexes.push(EntryIndex {
            index: *index,
            entries: Some(block),
            entry_offset: *entry_offset,
            entry_len: *entry_len,
            lz4,
        })?;
    }
    Ok(indexes)
}

fn item_of(
    alloc: Global,
    wanted: &WantedItem,
    record: &DecodedRecord,
) -> Result<LogItem, AllocError> {
    let (raft_group_id, content) = match wanted {
        WantedItem::Entries(group, entries) => (
            *group,
            LogItemContent::EntryIndexes(entries_of(alloc, entries, record)?),
        ),
        WantedItem::Clean(group) => (*group, LogItemContent::Command(Command::Clean)),
        WantedItem::Compact(group, index) => {
            let command = Command::Compact { index: *index };
            (*group, LogItemContent::Command(command))
        }
        WantedItem::Put(group, key, value) => {
            let pair = key_value_of(alloc, key, Some(*value))?;
            (*group, LogItemContent::Kv(pair))
        }
        WantedItem::Delete(group, key) => {
            let pair = key_value_of(alloc, key, None)?;
            (*group, LogItemContent::Kv(pair))
        }
    };
    Ok(LogItem {
        raft_group_id,
        content,
    })
}

pub(crate) fn items_of(alloc: Global, record: &DecodedRecord) -> Result<Vec<LogItem>, AllocError> {
    let mut items = Vec::new(alloc);
    for wanted in record.items {
        items.push(item_of(alloc, wanted, record)?)?;
    }
    Ok(items)
}

fn is_batch(batch: LogItemBatch, items: &[LogItem]) -> bool {
    batch.items() == items
        && batch.iter().count() == items.len()
        && batch.into_items().as_slice() == items
}

fn read(
    alloc: Global,
    bytes: &[u8],
    at: u64,
    file: &LogFileContext,
    sound: bool,
) -> Result<(LogItemBatch, usize), Fault> {
    match at.checked_add(bytes.len() as u64) {
        Some(_) => decode_record(alloc, bytes, at, file, Vec::new(alloc), sound),
        None => Err(Fault::Range),
    }
}

fn is_record(
    decoded: Result<(LogItemBatch, usize), Fault>,
    record: &DecodedRecord,
    items: &[LogItem],
) -> bool {
    match decoded {
        Ok((batch, len)) => len == record.len && is_batch(batch, items),
        Err(_) => false,
    }
}

/// Whether reading and replaying the bytes give the record's content.
pub(crate) fn is_decoded(alloc: Global, record: &DecodedRecord) -> Result<bool, Fault> {
    let items = items_of(alloc, record)?;
    for sound in &[true, false] {
        let decoded = read(alloc, record.bytes, record.at, &record.file, *sound);
        if !is_record(decoded, record, &items) {
            return Ok(false);
        }
    }
    Ok(true)
}

fn is_refused(decoded: Result<(LogItemBatch, usize), Fault>, code: Option<u8>) -> bool {
    match decoded {
        Ok(_) => code.is_none(),
        Err(fault) => code == Some(fault.code()),
    }
}

fn is_refused_twice(alloc: Global, record: &RefusedRecord) -> bool {
    is_refused(
        read(alloc, record.bytes, 0, &record.file, true),
        Some(record.code),
    ) && is_refused(
        read(alloc, record.bytes, 0, &record.file, false),
        record.replayed,
    )
}

#[test]
fn broken_records_are_refused(rt: HostRuntime) {
    for table in &refused() {
        for record in *table {
            assert!(rt; is_refused_twice(rt.alloc(), record), "{}", record.name);
        }
    }
}

enum Part {
    /// A footer, the length of the block before it, whether that is marked as compressed, and whether
    /// the footer is decoded.
    Footer(&'static [u8], usize, bool, bool),
    /// An entries block, whether it is marked as compressed, and its entries or the fault's code.
    Block(&'static [u8], bool, Result<&'static [u8], u8>),
    /// Bytes, and the header with which they begin.
    Header(&'static [u8], Option<RecordHeader>),
}

use Part::{Block, Footer, Header};

/// The footer of a put of `v` at `k` in group 1.
const OF_PUT: &[u8] = b"\x01\x01\x03\x01\x01\x6b\x01\x76\xb1\x29\x48\xe8";

/// The footer of a record with two entries of three and two bytes in group 7.
const OF_ENTRIES: &[u8] = b"\x01\x07\x01\x02\x05\x03\x02\x4d\xf5\x9f\x72";

static PARTS: [Part; 14] = [
    Footer(OF_PUT, 0, false, true),
    Footer(OF_PUT, 9, true, true),
    Footer(OF_PUT, 9, false, false),
    Footer(OF_ENTRIES, 9, false, true),
    Footer(OF_ENTRIES, 4, true, true),
    Footer(OF_ENTRIES, 0, true, false),
    Block(b"", false, Ok(b"")),
    Block(b"", true, Ok(b"")),
    Block(b"abcde\x65\xd8\x87\x85", false, Ok(b"abcde")),
    Block(b"abcde\x65\xd8\x87\x85", true, Err(13)),
    Block(b"abcdf\x65\xd8\x87\x85", true, Err(2)),
    Block(b"abc", false, Err(2)),
    Header(
        b"\x00\x00\x00\x00\x00\x00\x16\x01\x00\x00\x00\x00\x00\x00\x00\x11\x01\x00\x8d\xef\x02\xd2",
        Some(RecordHeader {
            len: 22,
            footer: 17,
            lz4: true,
        }),
    ),
    Header(
        b"\x00\x00\x00\x00\x00\x00\x16\x01\x00\x00\x00\x00\x00\x00\x00",
        None,
    ),
];

fn is_footer(alloc: Global, footer: &[u8], len: usize, lz4: bool, wanted: bool) -> bool {
    let before = FileBlockHandle {
        id: UNSIGNED.id,
        offset: 16,
        len,
    };
    match LogItemBatch::decode(alloc, footer, before, lz4, &UNSIGNED) {
        Ok(batch) => wanted && batch.items().len() == 1,
        Err(fault) => !wanted && fault.code() == 2,
    }
}

fn is_block(block: &[u8], lz4: bool, wanted: &Result<&[u8], u8>) -> bool {
    match (decode_entries_block(block, lz4), wanted) {
        (Ok(entries), Ok(bytes)) => entries == *bytes,
        (Err(fault), Err(code)) => fault.code() == *code,
        _ => false,
    }
}

fn is_part(alloc: Global, part: &Part) -> bool {
    match part {
        Footer(bytes, len, lz4, wanted) => is_footer(alloc, bytes, *len, *lz4, *wanted),
        Block(bytes, lz4, wanted) => is_block(bytes, *lz4, wanted),
        Header(bytes, header) => decode_header(bytes) == header.ok_or(Fault::Corruption),
    }
}

#[test]
fn parts_of_records_are_decoded(rt: HostRuntime) {
    for (place, part) in PARTS.iter().enumerate() {
        assert!(rt; is_part(rt.alloc(), part), "{place}");
    }
}
