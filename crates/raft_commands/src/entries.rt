//! Commands on the entries of a group, and on groups.
use crate::changes::{Change, write};
use crate::lines::Run;
use anyhow::{Result, anyhow};
use raft_c_batch::Entry;
use raft_command_line::{Indexes, Options};
use raft_console::{Output, failure, note_made};
use raft_contents::Engine;
use raft_env::FileSystem;
use raft_inspect::Word;
use raft_records::{Fault, MessageExt};
use std::alloc::Global;

/// The bytes of entries that are held at once.
const PAGE_BYTES: usize = 1024 * 1024;

/// A batch takes so many bytes of values, or one value that has more.
const BATCH_BYTES: usize = 1024 * 1024;

/// Adds the entries of these runs, each from its index on or after the group's last one. It syncs
/// with the last batch if requested. It prints their first and last index, after the group if each
/// line has one.
pub(crate) fn append<F: FileSystem>(
    alloc: Global,
    engine: &mut Engine<F>,
    runs: &[Run],
    tells_group: bool,
    sync: bool,
    out: &mut Output,
) -> Result<()> {
    if runs.is_empty() {
        return Err(anyhow!("there is no value to append"));
    }
    for (place, run) in runs.iter().enumerate() {
        let is_last = place.saturating_add(1) == runs.len();
        append_run(alloc, engine, run, tells_group, sync && is_last, out)?;
    }
    Ok(())
}

fn append_run<F: FileSystem>(
    alloc: Global,
    engine: &mut Engine<F>,
    run: &Run,
    tells_group: bool,
    sync: bool,
    out: &mut Output,
) -> Result<()> {
    let group = run.group;
    if run.values.is_empty() {
        return Err(anyhow!("there is no value to append"));
    }
    let first = run.first.unwrap_or(behind(engine.last_index(group), 1));
    if let Err(fault) = append_from(alloc, engine, group, first, &run.values, sync) {
        return Err(unappended(engine, group, first, &fault));
    }
    let last = engine.last_index(group).unwrap_or(first);
    let (first, last) = (("first", Word::Number(first)), ("last", Word::Number(last)));
    if tells_group {
        return out.line(&[("group", Word::Number(group)), first, last]);
    }
    out.line(&[first, last])
}

// Why entries from an index on cannot be appended.
fn unappended<F: FileSystem>(
    engine: &Engine<F>,
    group: u64,
    first: u64,
    fault: &Fault,
) -> anyhow::Error {
    let what = "the entries cannot be appended";
    match (fault, engine.first_index(group), engine.last_index(group)) {
        (Fault::Gap, Some(from), Some(last)) => anyhow!(
            "index {first} leaves a gap: group {group} takes an index from {from} to {}",
            last.saturating_add(1)
        )
        .context(what),
        _ => failure(what, fault),
    }
}

// Writes batches of entries, and syncs with the last.
fn append_from<F: FileSystem>(
    alloc: Global,
    engine: &mut Engine<F>,
    group: u64,
    first: u64,
    values: &[Vec<u8>],
    sync: bool,
) -> Result<(), Fault> {
    let mut entries = Vec::new(alloc);
    let mut room = BATCH_BYTES;
    for (place, value) in values.iter().enumerate() {
        if value.len() > room && !entries.is_empty() {
            write(alloc, engine, group, Change::Append(&entries), false)?;
            entries.clear();
            room = BATCH_BYTES;
        }
        let index = first.saturating_add(place as u64);
        entries.push(Entry::new(alloc, index, value)?)?;
        room = room.saturating_sub(value.len());
    }
    write(alloc, engine, group, Change::Append(&entries), sync)
}

/// Prints the value of the entry. Returns whether there is one.
pub(crate) fn get<F: FileSystem>(
    engine: &mut Engine<F>,
    group: u64,
    index: u64,
    out: &mut Output,
) -> Result<bool> {
    match engine.get_entry::<Entry>(group, index) {
        Ok(Some(entry)) => {
            out.value(entry.value())?;
            Ok(true)
        }
        Ok(None) => Ok(false),
        Err(fault) => Err(failure("the entry cannot be read", &fault)),
    }
}

/// Prints a line for each entry from the first index to the last, so many at most.
pub(crate) fn list<F: FileSystem>(
    alloc: Global,
    engine: &mut Engine<F>,
    group: u64,
    indexes: Indexes,
    out: &mut Output,
) -> Result<bool> {
    let begin = indexes.from.or(engine.first_index(group)).unwrap_or(0);
    let end = behind(indexes.to.or(engine.last_index(group)), begin).min(begin.saturating_add(
        indexes.limit.unwrap_or(u64::MAX),
    ));
    let mut next = begin;
    for _ in 0..u64::MAX {
        if next >= end {
            break;
        }
        let count = list_page(alloc, engine, group, next, end, out)?;
        if count == 0 {
            break;
        }
        next = next.saturating_add(count as u64);
    }
    Ok(true)
}

// The index after a last one.
fn behind(last: Option<u64>, without: u64) -> u64 {
    match last {
        Some(last) => last.saturating_add(1),
        None => without,
    }
}

// Prints as many entries as one page has room for, and returns their number.
fn list_page<F: FileSystem>(
    alloc: Global,
    engine: &mut Engine<F>,
    group: u64,
    begin: u64,
    end: u64,
    out: &mut Output,
) -> Result<usize> {
    let mut entries = Vec::new(alloc);
    let fetched = engine.fetch_entries_to::<Entry>(
        group,
        begin,
        end,
        Some(PAGE_BYTES),
        &mut entries,
    );
    if let Err(fault) = fetched {
        return Err(failure("the entries cannot be read", &fault));
    }
    for entry in &entries {
        out.line(&[
            ("index", Word::Number(Entry::index(entry))),
            ("value", Word::Bytes(entry.value())),
        ])?;
    }
    Ok(entries.len())
}

/// Drops the entries below an index, and prints how many they were.
pub(crate) fn compact<F: FileSystem>(
    engine: &mut Engine<F>,
    group: u64,
    index: u64,
    sync: bool,
    out: &mut Output,
) -> Result<()> {
    match compacted(engine, group, index, sync) {
        Ok(count) => out.line(&[("dropped", Word::Number(count))]),
        Err(fault) => Err(failure("the group cannot be compacted", &fault)),
    }
}

/// Notes that the next entry may have any index, if the group has no entry left.
pub(crate) fn note_emptied<F: FileSystem>(
    rt: &HostRuntime,
    engine: &Engine<F>,
    group: u64,
    index: u64,
    options: &Options<'_>,
) -> Result<()> {
    if engine.last_index(group).is_some() {
        return Ok(());
    }
    let text = format!(in rt.alloc();
        "group {group} has no entry: `append {group} VALUE` begins with index 1, and \
        `append {group} VALUE --at {index}` with {index}"
    );
    note_made(rt, options, text)
}

fn compacted<F: FileSystem>(
    engine: &mut Engine<F>,
    group: u64,
    index: u64,
    sync: bool,
) -> Result<u64, Fault> {
    let count = engine.compact_to(group, index)?;
    if sync {
        engine.sync()?;
    }
    Ok(count)
}

/// Prints the number of each group.
pub(crate) fn groups<F: FileSystem>(engine: &Engine<F>, out: &mut Output) -> Result<bool> {
    let groups = match engine.raft_groups() {
        Ok(groups) => groups,
        Err(fault) => return Err(failure("the groups cannot be listed", &fault)),
    };
    for group in groups {
        out.line(&[("group", Word::Number(group))])?;
    }
    Ok(true)
}
