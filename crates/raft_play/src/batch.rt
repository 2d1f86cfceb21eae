//! Lines that add to the batch of the next write.

use crate::asked::{BatchLine, EntriesLine, KeyLine};
use crate::line::Line;
use crate::plain::Plain;
use raft_records::{Command, EntryIndex, Fault, LogBatch};
use raft_test_rows::{Outcome, TextEntry};
use std::alloc::{AllocError, Global};
use std::mem;

/// The batch of the next write, and the batches of the next write group with a flag for each.
pub(crate) struct Writing {
    pub(crate) batch: LogBatch,
    pub(crate) batches: Vec<LogBatch>,
    pub(crate) syncs: Vec<bool>,
}

// One call in each proof that drops it. A derived `Drop` would be one call for each field
// (docs/DECISIONS.md).
impl Drop for Writing {
    fn drop(self) {
        let Writing {
            batch: _batch,
            batches: _batches,
            syncs: _syncs,
        } = self;
    }
}

/// Entries of text with the indexes from the first to the last.
fn text_entries(
    alloc: Global,
    first: u64,
    last: u64,
    word: &[u8],
) -> Result<Vec<TextEntry>, AllocError> {
    let mut entries = Vec::new(alloc);
    for index in first..=last {
        let word = word.to_vec(alloc)?;
        entries.push(TextEntry { index, word })?;
    }
    Ok(entries)
}

/// Adds entries of one word with the indexes from the first to the last.
pub(crate) fn add_texts(
    alloc: Global,
    batch: &mut LogBatch,
    group: u64,
    indexes: (u64, u64),
    word: &[u8],
) -> Result<(), Fault> {
    let entries = text_entries(alloc, indexes.0, indexes.1, word)?;
    batch.add_entries::<TextEntry>(group, &entries)
}

/// Adds one entry with these bytes.
pub(crate) fn add_raw(
    alloc: Global,
    batch: &mut LogBatch,
    group: u64,
    index: u64,
    bytes: Vec<u8>,
) -> Result<(), Fault> {
    let entry = EntryIndex {
        index,
        entries: None,
        entry_offset: 0,
        entry_len: 0,
        lz4: false,
    };
    let bytes = vec![in alloc; bytes]?;
    batch.add_raw_entries(group, vec![in alloc; entry]?, bytes)
}

// Adds an entry of any bytes, also of none, with the index 0.
fn add_plain(alloc: Global, batch: &mut LogBatch, group: u64, bytes: Vec<u8>) -> Result<(), Fault> {
    let entries = vec![in alloc; Plain { bytes }]?;
    batch.add_entries::<Plain>(group, &entries)
}

// Puts a value or a message at a key, or deletes the key.
fn put(line: &mut Line, batch: &mut LogBatch, asked: KeyLine) -> Result<(), Fault> {
    let (group, index) = line.pair(0);
    let key = line.take(0);
    let bytes = line.take(1);
    match asked {
        KeyLine::Put => batch.put(group, key, bytes),
        KeyLine::Delete => batch.delete(group, key),
        KeyLine::Message => batch.put_message(group, key, &TextEntry { index, word: bytes }),
        KeyLine::PlainMessage => batch.put_message(group, key, &Plain { bytes }),
    }
}

fn add(line: &mut Line, batch: &mut LogBatch, asked: EntriesLine) -> Result<(), Fault> {
    let (alloc, group) = (line.alloc, line.number(0));
    match asked {
        EntriesLine::Texts => add_texts(alloc, batch, group, line.pair(1), line.bytes(0)),
        EntriesLine::Raw => add_raw(alloc, batch, group, line.number(1), line.take(0)),
        EntriesLine::Plain => add_plain(alloc, batch, group, line.take(0)),
    }
}

// Whether each batch is empty after a successful write, and isn't after a failed one.
fn are_kept(batches: &[LogBatch], sizes: &[Result<usize, Fault>]) -> bool {
    for (batch, size) in batches.iter().zip(sizes.iter()) {
        if batch.is_empty() != size.is_ok() {
            return false;
        }
    }
    true
}

fn has_empty(batches: &[LogBatch]) -> bool {
    for batch in batches {
        if batch.is_empty() {
            return true;
        }
    }
    false
}

impl Writing {
    pub(crate) fn new(alloc: Global) -> Writing {
        Writing {
            batch: LogBatch::new(alloc),
            batches: Vec::new(alloc),
            syncs: Vec::new(alloc),
        }
    }

    // Makes the batch the next one of a write group, with or without a sync.
    fn next(&mut self, alloc: Global, sync: bool) -> Result<(), Fault> {
        let batch = mem::replace(&mut self.batch, LogBatch::new(alloc));
        self.batches.push(batch)?;
        self.syncs.push(sync)?;
        Ok(())
    }

    fn set_flags(&mut self, alloc: Global, count: u64) -> Result<(), Fault> {
        self.syncs = vec![in alloc; false; count as usize]?;
        Ok(())
    }

    fn change(&mut self, line: &mut Line, asked: BatchLine) -> Result<(), Fault> {
        let (group, index) = line.pair(0);
        match asked {
            BatchLine::Key(asked) => put(line, &mut self.batch, asked),
            BatchLine::Entries(asked) => add(line, &mut self.batch, asked),
            BatchLine::Clean => self.batch.add_command(group, Command::Clean),
            BatchLine::Compact => self.batch.add_command(group, Command::Compact { index }),
            BatchLine::Next(sync) => self.next(line.alloc, sync),
            BatchLine::Flags => self.set_flags(line.alloc, group),
            BatchLine::Drop => {
                *self = Writing::new(line.alloc);
                Ok(())
            }
        }
    }

    pub(crate) fn answer(&mut self, line: &mut Line, asked: BatchLine) {
        let changed = self.change(line, asked);
        line.done(changed);
    }

    /// Whether the batch is empty after a successful write, and still has its items after a failed
    /// one.
    pub(crate) fn has_kept(&self, had_items: bool, outcome: &Outcome) -> bool {
        match outcome {
            Outcome::Size(Ok(_)) => self.batch.is_empty(),
            Outcome::Size(Err(_)) => self.batch.is_empty() != had_items,
            Outcome::Sizes(Ok(sizes)) => are_kept(&self.batches, sizes),
            Outcome::Sizes(Err(_)) => !has_empty(&self.batches),
            _ => true,
        }
    }
}
