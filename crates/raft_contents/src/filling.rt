//! Items that are written to a log in batches, whatever the log already holds.

use anyhow::{Result, anyhow};
use raft_command_line::{Options, Request, Verb};
use raft_console::{batch_room, failure, or_failure, tell};
use raft_env::FileSystem;
use raft_log_engine::{Engine, LogBatch};
use raft_once::{NUMBER_KEY, kept_number};
use raft_records::{Command, EntryIndex, Fault};
use std::alloc::Global;
use std::collections::BTreeMap;
use std::mem;

/// A batch takes so many bytes before it is written, unless it has to stay whole.
const BATCH_BYTES: usize = 1024 * 1024;

/// Items that are to be written. Entries that don't touch those of their group replace them, as
/// they do when an opening reads them.
pub struct Filling {
    alloc: Global,
    /// How many bytes a batch may have, if a file may not become too long.
    room: Option<u64>,
    batch: LogBatch,
    /// How many bytes the batch has, about.
    bytes: usize,
    /// The first and the last index of groups that the batch has changed; `None` for a group
    /// without entries.
    spans: BTreeMap<u64, Option<(u64, u64)>>,
    /// Entries of one group that follow one another.
    group: u64,
    indexes: Vec<EntryIndex>,
    values: Vec<Vec<u8>>,
    /// The numbers of groups, which keep them for writes that act once.
    numbers: BTreeMap<u64, u64>,
    pub items: u64,
    /// How many of them the log has accepted.
    written: u64,
}

// One call in a proof that drops it; derived, it would be one of each field (docs/DECISIONS.md).
impl Drop for Filling {
    fn drop(self) {
        let Filling {
            alloc: _,
            room: _,
            batch: _batch,
            bytes: _,
            spans: _spans,
            group: _,
            indexes: _indexes,
            values: _values,
            numbers: _numbers,
            items: _,
            written: _,
        } = self;
    }
}

impl Filling {
    pub fn new(rt: &HostRuntime, options: &Options<'_>) -> Filling {
        let alloc = rt.alloc();
        Filling {
            alloc,
            room: batch_room(rt, options),
            batch: LogBatch::new(alloc),
            bytes: 0,
            spans: BTreeMap::new(alloc),
            group: 0,
            indexes: Vec::new(alloc),
            values: Vec::new(alloc),
            numbers: BTreeMap::new(alloc),
            items: 0,
            written: 0,
        }
    }

    /// Says how many items the log has of an import that failed.
    pub fn tell_written(&self, rt: &HostRuntime, request: &Request<'_>) -> Result<()> {
        if !matches!(&request.verb, Verb::Import(_)) {
            return Ok(());
        }
        let text = format!(in rt.alloc();
            "the import failed after {} items, which the log has: the same import with \
            `--replace` begins again",
            self.written
        )?;
        tell(rt, request.options.json, "error", text.as_str())
    }

    /// Adds a key's value. That of a group's number is kept for the end.
    pub fn put<F: FileSystem>(
        &mut self,
        engine: &Engine<F>,
        group: u64,
        key: Vec<u8>,
        value: Vec<u8>,
    ) -> Result<(), Fault> {
        self.end_entries(engine)?;
        if is_number(&key) {
            self.numbers.insert(group, kept_number(Some(&value)))?;
            return Ok(());
        }
        self.count(key.len().saturating_add(value.len()));
        self.batch.put(group, key, value)
    }

    /// Adds that a key goes.
    pub fn delete<F: FileSystem>(
        &mut self,
        engine: &Engine<F>,
        group: u64,
        key: Vec<u8>,
    ) -> Result<(), Fault> {
        self.end_entries(engine)?;
        if is_number(&key) {
            self.numbers.remove(&group);
            return Ok(());
        }
        self.count(key.len());
        self.batch.delete(group, key)
    }

    /// Adds that a group goes.
    pub fn clean<F: FileSystem>(&mut self, engine: &Engine<F>, group: u64) -> Result<(), Fault> {
        self.end_entries(engine)?;
        self.numbers.remove(&group);
        self.spans.insert(group, None)?;
        self.count(0);
        self.batch.add_command(group, Command::Clean)
    }

    /// Adds that the entries of a group below an index go.
    pub fn compact<F: FileSystem>(
        &mut self,
        engine: &Engine<F>,
        group: u64,
        index: u64,
    ) -> Result<(), Fault> {
        self.end_entries(engine)?;
        let span = match self.span(engine, group) {
            Some((first, last)) if index <= last => Some((first.max(index), last)),
            _ => None,
        };
        self.spans.insert(group, span)?;
        self.count(0);
        self.batch.add_command(group, Command::Compact { index })
    }

    /// Adds an entry.
    pub fn add_entry<F: FileSystem>(
        &mut self,
        engine: &Engine<F>,
        group: u64,
        index: u64,
        bytes: Vec<u8>,
    ) -> Result<(), Fault> {
        if !self.is_next(group, index) {
            self.end_entries(engine)?;
            self.group = group;
        }
        self.count(bytes.len());
        self.indexes.push(EntryIndex {
            index,
            entries: None,
            entry_offset: 0,
            entry_len: 0,
            lz4: false,
        })?;
        Ok(self.values.push(bytes)?)
    }

    fn is_next(&self, group: u64, index: u64) -> bool {
        match self.indexes.last() {
            Some(last) => group == self.group && last.index.checked_add(1) == Some(index),
            None => false,
        }
    }

    fn count(&mut self, bytes: usize) {
        self.items = self.items.saturating_add(1);
        self.bytes = self.bytes.saturating_add(bytes).saturating_add(16);
    }

    // The first and the last index of a group, as the batch will leave them.
    fn span<F: FileSystem>(&self, engine: &Engine<F>, group: u64) -> Option<(u64, u64)> {
        match self.spans.get(&group) {
            Some(span) => *span,
            None => Some((engine.first_index(group)?, engine.last_index(group)?)),
        }
    }

    // Moves the entries that follow one another into the batch.
    fn end_entries<F: FileSystem>(&mut self, engine: &Engine<F>) -> Result<(), Fault> {
        let (Some(first), Some(last)) = (self.indexes.first(), self.indexes.last()) else {
            return Ok(());
        };
        let (first, last, group) = (first.index, last.index, self.group);
        let begin = match self.span(engine, group) {
            Some((begin, end)) if first < begin || end.saturating_add(1) < first => {
                let index = end.saturating_add(1);
                self.batch.add_command(group, Command::Compact { index })?;
                first
            }
            Some((begin, _)) => begin,
            None => first,
        };
        self.spans.insert(group, Some((begin, last)))?;
        let indexes = mem::replace(&mut self.indexes, Vec::new(self.alloc));
        let values = mem::replace(&mut self.values, Vec::new(self.alloc));
        self.batch.add_raw_entries(group, indexes, values)
    }

    /// Writes the added items if they are many.
    pub fn write_if_full<F: FileSystem>(&mut self, engine: &mut Engine<F>) -> Result<()> {
        if self.bytes < BATCH_BYTES {
            return Ok(());
        }
        self.write(engine)
    }

    /// Writes the added items as one batch.
    pub fn write<F: FileSystem>(&mut self, engine: &mut Engine<F>) -> Result<()> {
        if self.room.is_some_and(|room| room < self.bytes as u64) {
            return Err(anyhow!("raise `ulimit -f`").context(format_args!(
                "a batch of {} bytes makes a log file longer than a file may be",
                self.bytes
            )));
        }
        or_failure(self.end_entries(engine), "the batch cannot be built")?;
        if let Err(fault) = engine.write(&mut self.batch, false) {
            return Err(failure("the batch cannot be written", &fault));
        }
        self.bytes = 0;
        self.written = self.items;
        self.spans.clear();
        Ok(())
    }

    /// Writes all remaining items, and then the groups' numbers that are greater than the log's.
    pub fn finish<F: FileSystem>(&mut self, engine: &mut Engine<F>, sync: bool) -> Result<()> {
        self.write(engine)?;
        for _ in 0..self.numbers.len() {
            let Some((group, number)) = self.numbers.pop_first() else {
                break;
            };
            let pairs = [(group, number)];
            if number > 0 {
                if let Err(fault) = engine.write_once(&mut self.batch, &pairs, false) {
                    return Err(failure("a group's number cannot be written", &fault));
                }
            }
        }
        if sync {
            return or_failure(engine.sync(), "the log cannot be synced");
        }
        Ok(())
    }
}

fn is_number(key: &[u8]) -> bool {
    key == NUMBER_KEY.as_slice()
}
