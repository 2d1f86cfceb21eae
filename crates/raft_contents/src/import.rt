//! Batches of lines that are written to a log.

use crate::filling::Filling;
use crate::line_items::{Content, LineItem, Place, add_mark};
use crate::line_source::LineSource;
use crate::replacing::{Replacing, has_groups};
use anyhow::{Result, anyhow};
use raft_command_line::{Import, Options, Request};
use raft_console::{Output, Progress, Status, note_made, or_failure};
use raft_env::FileSystem;
use raft_inspect::{Filter, ItemKind, Word};
use raft_log_engine::Engine;
use raft_records::Fault;
use raft_whole_records::Marks;

/// The number of lines after which progress is printed, if a second has passed.
const COUNTED: u64 = 1024;

/// Lines whose items are written, and which of them.
pub struct LineImport {
    lines: LineSource,
    /// How many items they have.
    count: u64,
    marks: Marks,
    filter: Filter,
}

// One call in a proof that drops it.
impl Drop for LineImport {
    fn drop(self) {
        let LineImport {
            lines: _lines,
            count: _,
            marks: _marks,
            filter: _,
        } = self;
    }
}

impl LineImport {
    /// Checks the lines of a file that `dump --json` printed, or of standard input. It fails at
    /// the first line that cannot be read, and names it. One line of a file is in memory at a
    /// time; of standard input all bytes are.
    pub fn read(rt: &HostRuntime, import: Import<'_>, options: &Options<'_>) -> Result<LineImport> {
        let path = import.file.unwrap_or("-");
        let mut read = LineImport {
            lines: LineSource::open(rt, path)?,
            count: 0,
            marks: Marks::new(rt.alloc()),
            filter: filter_of(import),
        };
        match read.check(rt, options) {
            Ok(()) => Ok(read),
            Err(error) => Err(error.context(path)),
        }
    }

    // Reads all lines, and notes the marks among them.
    fn check(&mut self, rt: &HostRuntime, options: &Options<'_>) -> Result<()> {
        let mut progress = Progress::of(*rt, options)?;
        let mut items = self.lines.items(rt)?;
        for _ in 0..u64::MAX {
            let Some(item) = items.next()? else {
                break;
            };
            add_mark(&item, &mut self.marks)?;
            self.count = self.count.saturating_add(1);
            if self.count % COUNTED == 0 {
                let text = format!(in rt.alloc(); "{} lines checked", self.count)?;
                progress.begin(text.as_str())?;
            }
        }
        Ok(())
    }

    /// Writes the batches of the lines, one for each record, in their order, and prints how many
    /// items they have. If a line says that a file could not be read further, that is printed, and
    /// the status is 4. If anything would be replaced or removed that may not be, nothing is
    /// written.
    pub fn write<F: FileSystem>(
        &mut self,
        rt: &HostRuntime,
        engine: &mut Engine<F>,
        request: &Request<'_>,
        out: &mut Output,
    ) -> Result<Status> {
        if !self.find_replaced(rt, engine)?.judge(rt, request, out)? {
            return Ok(Status::Refused);
        }
        let mut filling = Filling::new(rt, &request.options);
        match self.write_all(rt, engine, request, &mut filling) {
            Ok(unread) => {
                out.named(&[("imported", Word::Number(filling.items))])?;
                Ok(if unread > 0 {
                    Status::WouldCut
                } else {
                    Status::Done
                })
            }
            Err(error) => {
                filling.tell_written(rt, request)?;
                Err(error)
            }
        }
    }

    // What of the log the lines replace or remove. A log without groups needs no look at them.
    fn find_replaced<F: FileSystem>(
        &self,
        rt: &HostRuntime,
        engine: &Engine<F>,
    ) -> Result<Replacing> {
        let mut replacing = Replacing::new(rt.alloc());
        if !or_failure(has_groups(engine), "the log cannot be read")? {
            return Ok(replacing);
        }
        let mut state = Reading::BEGIN;
        let mut items = self.lines.items(rt)?;
        for _ in 0..self.count {
            let Some(item) = items.next()? else {
                break;
            };
            state.move_to(&item, &self.marks);
            if state.takes(&item, self.filter) {
                or_failure(replacing.add_item(engine, &item), "the log cannot be read")?;
            }
        }
        Ok(replacing)
    }

    // Returns how many lines say that a file could not be read on.
    fn write_all<F: FileSystem>(
        &self,
        rt: &HostRuntime,
        engine: &mut Engine<F>,
        request: &Request<'_>,
        filling: &mut Filling,
    ) -> Result<u64> {
        let mut progress = Progress::of(*rt, &request.options)?;
        let mut state = Reading::BEGIN;
        let mut unread = 0u64;
        let mut items = self.lines.items(rt)?;
        for place in 0..self.count {
            let Some(item) = items.next()? else {
                return Err(anyhow!("the lines changed while they were imported"));
            };
            progress.at("items imported", place, self.count)?;
            if let Content::Unread(why) = &item.content {
                unread = unread.saturating_add(1);
                note_unread(rt, request, why.as_str())?;
            }
            self.add(engine, item, &mut state, filling)?;
        }
        filling.finish(engine, request.sync)?;
        Ok(unread)
    }

    fn add<F: FileSystem>(
        &self,
        engine: &mut Engine<F>,
        item: LineItem,
        state: &mut Reading,
        filling: &mut Filling,
    ) -> Result<()> {
        if state.move_to(&item, &self.marks) {
            filling.write(engine)?;
        } else if state.place.is_none() {
            filling.write_if_full(engine)?;
        }
        if !state.takes(&item, self.filter) {
            return Ok(());
        }
        or_failure(fill(engine, item, filling), "an item cannot be imported")
    }
}

fn note_unread(rt: &HostRuntime, request: &Request<'_>, why: &str) -> Result<()> {
    let text = format!(in rt.alloc();
        "the dump ends before the end of a file: {why}; `salvage` reads on after it"
    );
    note_made(rt, &request.options, text)
}

/// Which items an import writes.
pub fn filter_of(import: Import<'_>) -> Filter {
    Filter {
        group: import.group,
        kind: import.kind.and_then(ItemKind::named),
        from: None,
        to: None,
    }
}

/// The source of the lines.
#[derive(Clone, Copy)]
struct Reading {
    /// The record of the last line.
    place: Option<Place>,
    /// Whether the batch of the last line doesn't count.
    is_left_out: bool,
}

impl Reading {
    /// Before the first line.
    const BEGIN: Reading = Reading {
        place: None,
        is_left_out: false,
    };

    // Goes on to the next item, and returns whether it is of another record.
    fn move_to(&mut self, item: &LineItem, marks: &Marks) -> bool {
        let is_another = item.place != self.place;
        if is_another {
            self.place = item.place;
            self.is_left_out = false;
        }
        if let Content::Mark(_) = &item.content {
            let is_rewrite = item.place.is_some_and(|place| place.is_rewrite);
            self.is_left_out = is_rewrite && !marks.counts(item.group);
        }
        is_another
    }

    // Whether the item it went on to is written.
    fn takes(&self, item: &LineItem, filter: Filter) -> bool {
        match &item.content {
            Content::Mark(_) | Content::Unread(_) => false,
            _ => !self.is_left_out && item.is_taken(filter),
        }
    }
}

fn fill<F: FileSystem>(
    engine: &Engine<F>,
    item: LineItem,
    filling: &mut Filling,
) -> Result<(), Fault> {
    let LineItem { group, content, .. } = item;
    match content {
        Content::Put(key, value) => filling.put(engine, group, key, value),
        Content::Delete(key) => filling.delete(engine, group, key),
        Content::Entry(index, bytes) => filling.add_entry(engine, group, index, bytes),
        Content::Clean => filling.clean(engine, group),
        Content::Compact(index) => filling.compact(engine, group, index),
        Content::Mark(_mark) => Ok(()),
        Content::Unread(_why) => Ok(()),
    }
}
