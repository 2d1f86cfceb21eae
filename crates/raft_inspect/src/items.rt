//! Lines of what the records of log files hold, item by item.
ghost use Rattle.raft_env.specs.Moments.{OnlyReads};

use crate::filter::{Filter, ItemKind};
use crate::lines::{Field, Lines, Word};
use crate::report::queue_name;
use raft_dump::RecordPlace;
use raft_env::FileSystem;
use raft_files::LogFileReader;
use raft_records::{
    Command, EntryIndex, Fault, FileBlockHandle, KeyValue, LogItem, LogItemContent,
};
use std::alloc::Global;

/// Adds a line for an item, and for each of its entries, if the filter accepts them; the entries'
/// bytes are read from the file.
pub fn add_item<F: FileSystem>(
    alloc: Global,
    file_system: &mut F,
    reader: &mut LogFileReader<F>,
    place: Option<RecordPlace>,
    item: &LogItem,
    filter: Filter,
    lines: &mut Lines,
) -> Result<(), Fault> {
    let [queue, file, offset] = place_fields(place);
    let group = item.raft_group_id;
    let front = [queue, file, offset, ("group", Word::Number(group))];
    match &item.content {
        LogItemContent::EntryIndexes(entries) => {
            for entry in entries {
                if filter.takes(group, ItemKind::Entry, Some(entry.index)) {
                    add_entry(alloc, file_system, reader, front, entry, lines)?;
                }
            }
            Ok(())
        }
        LogItemContent::Command(command) if filter.takes_command(group, *command) => {
            add_command(front, *command, lines)
        }
        LogItemContent::Kv(pair) if filter.takes(group, ItemKind::of_pair(pair), None) => {
            add_pair(front, pair, lines)
        }
        _ => Ok(()),
    }
}

/// Adds a line of why a file can't be read on.
pub fn add_fault(
    place: Option<RecordPlace>,
    fault: &Fault,
    lines: &mut Lines,
) -> Result<(), Fault> {
    let [queue, file, offset] = place_fields(place);
    let what = match fault {
        Fault::Corruption => "corruption",
        Fault::Lz4 => "compressed",
        Fault::Range => "too-long",
        _ => "unreadable",
    };
    lines.line(&[queue, file, offset, ("error", Word::Text(what))])?;
    Ok(())
}

// The place of an item.
fn place_fields(place: Option<RecordPlace>) -> [Field<'static>; 3] {
    let (queue, number, offset) = match place {
        Some(place) => (
            queue_name(place.id.queue),
            place.id.seq,
            place.offset as u64,
        ),
        None => ("", 0, 0),
    };
    [
        ("queue", Word::Text(queue)),
        ("number", Word::Number(number)),
        ("offset", Word::Number(offset)),
    ]
}

fn add_command(
    front: [Field<'static>; 4],
    command: Command,
    lines: &mut Lines,
) -> Result<(), Fault> {
    let [queue, file, offset, group] = front;
    match command {
        Command::Clean => lines.line(&[queue, file, offset, group, kind(ItemKind::Clean)])?,
        Command::Compact { index } => {
            let index = ("index", Word::Number(index));
            lines.line(&[queue, file, offset, group, kind(ItemKind::Compact), index])?;
        }
    }
    Ok(())
}

fn add_pair(front: [Field<'static>; 4], pair: &KeyValue, lines: &mut Lines) -> Result<(), Fault> {
    let [queue, file, offset, group] = front;
    match pair {
        KeyValue::Put { key, value } => lines.line(&[
            queue,
            file,
            offset,
            group,
            kind(ItemKind::Put),
            ("key", Word::Bytes(key)),
            ("length", Word::Number(value.len() as u64)),
            ("value", Word::Bytes(value)),
        ])?,
        KeyValue::Delete { key } => {
            let key = ("key", Word::Bytes(key));
            lines.line(&[queue, file, offset, group, kind(ItemKind::Delete), key])?;
        }
    }
    Ok(())
}

fn add_entry<F: FileSystem>(
    alloc: Global,
    file_system: &mut F,
    reader: &mut LogFileReader<F>,
    front: [Field<'static>; 4],
    entry: &EntryIndex,
    lines: &mut Lines,
) -> Result<(), Fault> {
    let bytes = entry_bytes(alloc, file_system, reader, entry)?;
    add_value(front, entry.index, &bytes, lines)
}

fn add_value(
    front: [Field<'static>; 4],
    index: u64,
    value: &[u8],
    lines: &mut Lines,
) -> Result<(), Fault> {
    let [queue, file, offset, group] = front;
    lines.line(&[
        queue,
        file,
        offset,
        group,
        kind(ItemKind::Entry),
        ("index", Word::Number(index)),
        ("length", Word::Number(value.len() as u64)),
        ("value", Word::Bytes(value)),
    ])?;
    Ok(())
}

// The bytes of an entry as they are in its file, whether its block is sound or not.
fn entry_bytes<F: FileSystem>(
    alloc: Global,
    file_system: &mut F,
    reader: &mut LogFileReader<F>,
    entry: &EntryIndex,
) -> Result<Vec<u8>, Fault> {
    let Some(block) = entry.entries else {
        return Ok(Vec::new(alloc));
    };
    let handle = FileBlockHandle {
        id: block.id,
        offset: block.offset.saturating_add(u64::from(entry.entry_offset)),
        len: entry.entry_len as usize,
    };
    match reader.read(file_system, alloc, handle) {
        Ok(bytes) => Ok(bytes),
        Err(fault) => Err(fault.with_path(alloc, "")),
    }
}

fn kind(kind: ItemKind) -> Field<'static> {
    ("kind", Word::Text(kind.name()))
}
