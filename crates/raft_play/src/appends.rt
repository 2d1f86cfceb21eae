//! Lines that append entries for ranges of groups and indexes, and that read such entries again.

use crate::batch::{add_raw, add_texts};
use crate::line::Line;
use crate::looks::lends;
use raft_env::FileSystem;
use raft_records::{Fault, LogBatch, LogQueue};
use raft_test_rows::{Engine, TextEntry};
use std::alloc::{AllocError, Global};

/// The key of the group's message.
const LAST_INDEX: &str = "last_index";

// The only call of a write here, since such a call takes long to prove.
fn write_batch<F: FileSystem>(
    engine: &mut Engine<F>,
    batch: &mut LogBatch,
    sync: bool,
) -> Result<(), Fault> {
    engine.write(batch, sync)?;
    Ok(())
}

fn write_raw<F: FileSystem>(
    alloc: Global,
    engine: &mut Engine<F>,
    group: u64,
    index: u64,
    bytes: &[u8],
) -> Result<(), Fault> {
    let mut batch = LogBatch::new(alloc);
    add_raw(alloc, &mut batch, group, index, bytes.to_vec(alloc)?)?;
    write_batch(engine, &mut batch, false)
}

/// Writes an entry with these bytes for each group and index, each in its own batch.
pub(crate) fn write_each<F: FileSystem>(
    alloc: Global,
    engine: &mut Engine<F>,
    groups: (u64, u64),
    indexes: (u64, u64),
    bytes: &[u8],
) -> Result<(), Fault> {
    for group in groups.0..=groups.1 {
        for index in indexes.0..=indexes.1 {
            write_raw(alloc, engine, group, index, bytes)?;
        }
    }
    Ok(())
}

/// Entries of text for ranges of groups and indexes, and a message with the last index in each
/// group, as raft-engine's tests write them.
#[derive(Clone, Copy)]
pub(crate) struct Appends {
    pub(crate) groups: (u64, u64),
    pub(crate) indexes: (u64, u64),
    /// Whether each entry is in a batch of its own.
    pub(crate) is_each: bool,
}

impl Appends {
    /// Writes a batch for each group, or for each group and index. Each write has a sync.
    pub(crate) fn write<F: FileSystem>(
        self,
        alloc: Global,
        engine: &mut Engine<F>,
        word: &[u8],
    ) -> Result<(), Fault> {
        for group in self.groups.0..=self.groups.1 {
            self.write_group(alloc, engine, group, word)?;
        }
        Ok(())
    }

    fn write_group<F: FileSystem>(
        self,
        alloc: Global,
        engine: &mut Engine<F>,
        group: u64,
        word: &[u8],
    ) -> Result<(), Fault> {
        if !self.is_each {
            return write_between(alloc, engine, group, self.indexes, word);
        }
        for index in self.indexes.0..=self.indexes.1 {
            write_between(alloc, engine, group, (index, index), word)?;
        }
        Ok(())
    }
}

fn write_between<F: FileSystem>(
    alloc: Global,
    engine: &mut Engine<F>,
    group: u64,
    indexes: (u64, u64),
    word: &[u8],
) -> Result<(), Fault> {
    let mut batch = LogBatch::new(alloc);
    add_texts(alloc, &mut batch, group, indexes, word)?;
    add_last_index(alloc, &mut batch, group, indexes.1)?;
    write_batch(engine, &mut batch, true)
}

fn add_last_index(
    alloc: Global,
    batch: &mut LogBatch,
    group: u64,
    index: u64,
) -> Result<(), Fault> {
    let key = LAST_INDEX.as_bytes().to_vec(alloc)?;
    let word = Vec::new(alloc);
    batch.put_message(group, key, &TextEntry { index, word })
}

// Whether the indexes are consecutive from `first` on, and each entry has this word.
fn are_alike(entries: &[TextEntry], first: u64, word: &[u8]) -> bool {
    for (place, entry) in entries.iter().enumerate() {
        let index = first.saturating_add(place as u64);
        if entry.index != index || entry.word.as_slice() != word {
            return false;
        }
    }
    true
}

fn is_same(copied: Option<&TextEntry>, entry: &TextEntry) -> bool {
    match copied {
        Some(copied) => {
            copied.index == entry.index && copied.word.as_slice() == entry.word.as_slice()
        }
        None => false,
    }
}

// Whether `get_entry` and `load_entry` return the fetched entry.
fn is_found<F: FileSystem>(
    alloc: Global,
    engine: &mut Engine<F>,
    group: u64,
    entry: &TextEntry,
) -> Result<bool, Fault> {
    let copied = engine.get_entry::<TextEntry>(group, entry.index)?;
    if is_same(copied.as_ref(), entry) {
        lends(alloc, engine, group, entry.index, Some(entry))
    } else {
        Ok(false)
    }
}

// The queue of an entry's file, if the entry is found.
fn queue_of<F: FileSystem>(
    engine: &mut Engine<F>,
    group: u64,
    index: u64,
) -> Result<Option<LogQueue>, Fault> {
    let Some(place) = engine.load_entry(group, index)? else {
        return Ok(None);
    };
    match place.block {
        Some(handle) => Ok(Some(handle.id.queue)),
        None => Ok(None),
    }
}

/// The queues of entries' files, and whether all entries were found.
#[derive(Clone, Copy)]
struct Queues {
    in_append: bool,
    in_rewrite: bool,
    are_found: bool,
}

impl Queues {
    fn add(&mut self, queue: Option<LogQueue>) {
        match queue {
            Some(LogQueue::Append) => self.in_append = true,
            Some(LogQueue::Rewrite) => self.in_rewrite = true,
            None => self.are_found = false,
        }
    }

    fn name(self) -> &'static str {
        match (self.in_append, self.in_rewrite) {
            (true, true) => "both",
            (true, false) => "append",
            _ => "rewrite",
        }
    }
}

fn queues_of<F: FileSystem>(
    alloc: Global,
    engine: &mut Engine<F>,
    group: u64,
    entries: &[TextEntry],
) -> Result<Queues, Fault> {
    let mut queues = Queues {
        in_append: false,
        in_rewrite: false,
        are_found: true,
    };
    for entry in entries {
        if is_found(alloc, engine, group, entry)? {
            queues.add(queue_of(engine, group, entry.index)?);
        } else {
            queues.are_found = false;
        }
        if !queues.are_found {
            break;
        }
    }
    Ok(queues)
}

// The index in a group's message.
fn last_index_of<F: FileSystem>(engine: &Engine<F>, group: u64) -> Result<Option<u64>, Fault> {
    match engine.get_message::<TextEntry>(group, LAST_INDEX.as_bytes())? {
        Some(message) => Ok(Some(message.index)),
        None => Ok(None),
    }
}

fn fetched<F: FileSystem>(
    alloc: Global,
    engine: &mut Engine<F>,
    group: u64,
    indexes: (u64, u64),
) -> Result<Vec<TextEntry>, Fault> {
    let mut entries = Vec::new(alloc);
    let end = indexes.1.saturating_add(1);
    engine.fetch_entries_to::<TextEntry>(group, indexes.0, end, None, &mut entries)?;
    Ok(entries)
}

// Prints a group's entries.
fn say(
    line: &mut Line,
    entries: &[TextEntry],
    indexes: (u64, u64),
    queues: Queues,
    named: Option<u64>,
) {
    let word = match entries.first() {
        Some(entry) => entry.word.as_slice(),
        None => return line.said.say("entries differ"),
    };
    if !queues.are_found || !are_alike(entries, indexes.0, word) {
        return line.said.say("entries differ");
    }
    line.said.pair(indexes.0, last_of(entries));
    line.said.spell(" ", word);
    line.said.say(" ");
    line.said.say(queues.name());
    match named {
        Some(index) => line.said.with(" ", index),
        None => line.said.say(" -"),
    }
}

fn last_of(entries: &[TextEntry]) -> u64 {
    match entries.last() {
        Some(entry) => entry.index,
        None => 0,
    }
}

fn look<F: FileSystem>(
    line: &mut Line,
    engine: &mut Engine<F>,
    group: u64,
    indexes: (u64, u64),
) -> Result<(), Fault> {
    let entries = fetched(line.alloc, engine, group, indexes)?;
    let queues = queues_of(line.alloc, engine, group, &entries)?;
    let named = last_index_of(engine, group)?;
    say(line, &entries, indexes, queues, named);
    Ok(())
}

/// Fetches all entries of a group, gets each one, and borrows each one. Prints the first and the
/// last index, the word, the queues of the entries' files, and the index in the group's message.
pub(crate) fn whole<F: FileSystem>(line: &mut Line, engine: &mut Engine<F>) -> Result<(), Fault> {
    let group = line.number(0);
    match (engine.first_index(group), engine.last_index(group)) {
        (Some(first), Some(last)) => look(line, engine, group, (first, last)),
        _ => {
            line.said.say("none");
            Ok(())
        }
    }
}
