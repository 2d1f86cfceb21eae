//! A picture of a log on a terminal, drawn again at each look.

use crate::changes::{Changes, GroupGrowth, Volume};
use crate::queues::{WatchedLog, WatchedQueue};
use crate::sizes::{add_bar, size_text};
use anyhow::Result;
use raft_command_line::printable;
use std::alloc::Global;

/// The number of characters of the folder's path that are shown, at its end.
const WIDTH: usize = 79;

/// The number of looks in the row of written bytes.
const HISTORY: usize = 60;

/// The number of each queue's last files that have a bar. With ten groups the picture has 23 rows.
const FILES: usize = 2;

/// Characters for amounts, from the lowest to the highest.
const LEVELS: [char; 8] = ['.', ':', '-', '=', '+', '*', '#', '@'];

/// Moves the terminal's cursor to the first row.
const HOME: &str = "\x1b[H";

/// Clears the rest of a row, and begins the next one.
const ROW_END: &str = "\x1b[K\n";

/// Clears everything below.
const END: &str = "\x1b[J";

/// The counts of all looks until now.
pub(crate) struct Picture<'a> {
    alloc: Global,
    folder: &'a str,
    each: u64,
    /// The bytes that were written between two looks. The newest number is last.
    written: Vec<u64>,
    /// All files dropped until now.
    dropped: Volume,
}

impl Drop for Picture<'_> {
    fn drop(self) {
        let Picture {
            alloc: _,
            folder: _,
            each: _,
            written: _written,
            dropped: _,
        } = self;
    }
}

impl<'a> Picture<'a> {
    pub fn new(alloc: Global, folder: &'a str, each: u64) -> Picture<'a> {
        Picture {
            alloc,
            folder,
            each,
            written: Vec::new(alloc),
            dropped: Volume::NONE,
        }
    }

    /// Draws a look, with at most `limit` of the groups that grew.
    pub fn draw(&mut self, log: &WatchedLog, changes: &Changes, limit: u64) -> Result<String> {
        if self.written.len() >= HISTORY {
            self.written.remove(0);
        }
        self.written.push(changes.written.bytes)?;
        self.dropped
            .add(changes.dropped.len() as u64, changes.dropped_bytes());
        let mut text = String::from_str(self.alloc, HOME)?;
        self.add_title(log, &mut text)?;
        self.add_queue("append", &log.append, &mut text)?;
        self.add_queue("rewrite", &log.rewrite, &mut text)?;
        self.add_changes(log, changes, &mut text)?;
        self.add_groups(&changes.grown(limit)?, &mut text)?;
        text.push_str(END)?;
        Ok(text)
    }

    fn add_title(&self, log: &WatchedLog, text: &mut String) -> Result<()> {
        let writer = if log.is_in_use {
            "a writer has it"
        } else {
            "no writer has it"
        };
        let (look, each) = (log.looks, self.each);
        let title = format!(in self.alloc; "look {look}, every {each} s, {writer}; Ctrl-C ends")?;
        self.add_row(title.as_str(), text)?;
        let folder = printable(self.alloc, self.folder)?;
        let left_out = folder.chars().count().saturating_sub(WIDTH);
        for sign in folder.chars().skip(left_out) {
            text.push(sign)?;
        }
        Ok(text.push_str(ROW_END)?)
    }

    fn add_row(&self, row: &str, text: &mut String) -> Result<()> {
        text.push_str(row)?;
        Ok(text.push_str(ROW_END)?)
    }

    fn add_queue(&self, name: &str, queue: &WatchedQueue, text: &mut String) -> Result<()> {
        let total = queue.total();
        let (files, records) = (total.files, total.records);
        let bytes = size_text(self.alloc, total.bytes)?;
        let row = format!(in self.alloc;
            "{name:8} {files:6} files {bytes:>10} {records:10} records"
        )?;
        self.add_row(row.as_str(), text)?;
        let before = queue.files.len().saturating_sub(FILES);
        for (_, file) in queue.files.iter().skip(before) {
            let name = printable(self.alloc, file.path.as_str())?;
            let size = size_text(self.alloc, file.size)?;
            let row = format!(in self.alloc; "  {name:24} {size:>10} ")?;
            text.push_str(row.as_str())?;
            add_bar(text, file.read, file.size, 30)?;
            text.push_str(ROW_END)?;
        }
        Ok(())
    }

    fn add_changes(&self, log: &WatchedLog, changes: &Changes, text: &mut String) -> Result<()> {
        let bytes = size_text(self.alloc, log.reserved.bytes)?;
        let files = log.reserved.records;
        let row = format!(in self.alloc; "reserved {files:6} files {bytes:>10}")?;
        self.add_row(row.as_str(), text)?;
        let bytes = size_text(self.alloc, self.dropped.bytes)?;
        let files = self.dropped.records;
        let now = changes.dropped.len();
        let row = format!(in self.alloc; "dropped  {files:6} files {bytes:>10}   now {now}")?;
        self.add_row(row.as_str(), text)?;
        self.add_volume("written", changes.written, text)?;
        self.add_volume("rewritten", changes.rewritten, text)?;
        text.push_str("written  ")?;
        self.add_history(text)?;
        Ok(text.push_str(ROW_END)?)
    }

    fn add_volume(&self, name: &str, volume: Volume, text: &mut String) -> Result<()> {
        let bytes = size_text(self.alloc, volume.bytes)?;
        let records = volume.records;
        let row = format!(in self.alloc; "{name:9} {records:5} records {bytes:>8}")?;
        self.add_row(row.as_str(), text)
    }

    // Adds a character for each look, by the bytes that were written.
    fn add_history(&self, text: &mut String) -> Result<()> {
        let mut most = 1u64;
        for bytes in &self.written {
            most = most.max(*bytes);
        }
        for bytes in &self.written {
            text.push(level_of(*bytes, most))?;
        }
        Ok(())
    }

    fn add_groups(&self, grown: &[GroupGrowth], text: &mut String) -> Result<()> {
        let mut most = 1u64;
        for growth in grown {
            most = most.max(growth.bytes);
        }
        for growth in grown {
            let GroupGrowth {
                group,
                entries,
                puts,
                bytes,
                ..
            } = *growth;
            let size = size_text(self.alloc, bytes)?;
            let row = format!(in self.alloc;
                "group {group:<10} {entries:6} entries {puts:6} puts {size:>10} "
            )?;
            text.push_str(row.as_str())?;
            add_bar(text, bytes, most, 20)?;
            text.push_str(ROW_END)?;
        }
        Ok(())
    }
}

fn level_of(bytes: u64, most: u64) -> char {
    if bytes == 0 || most == 0 {
        return ' ';
    }
    let place = bytes.min(most).saturating_mul(7) / most;
    let place = usize::try_from(place).unwrap_or(0);
    match LEVELS.get(place) {
        Some(level) => *level,
        None => ' ',
    }
}
