//! The report on files that were read: the number of records, the places that could not be read,
//! and why.

use anyhow::Result;
use raft_console::Output;
use raft_inspect::{Word, queue_name};
use raft_records::{LogItem, LogItemContent, LogQueue};
use raft_whole_records::Unread;
use std::alloc::{AllocError, Global};

/// A place at which no record could be read.
pub struct UnreadPlace {
    /// The file's name.
    pub name: String,
    pub offset: u64,
    pub len: u64,
    pub why: Unread,
    /// The entries that are known to be lost there: a group, and the first and the last index.
    pub entries: Vec<(u64, u64, u64)>,
    /// Whether an opening cuts it off the end of its queue.
    pub is_tail: bool,
}

// One call in a proof that drops it; derived, it would be one of each field (docs/DECISIONS.md).
impl Drop for UnreadPlace {
    fn drop(self) {
        let UnreadPlace {
            name: _name,
            offset: _,
            len: _,
            why: _,
            entries: _entries,
            is_tail: _,
        } = self;
    }
}

/// How many records were read of a file.
pub struct FileRead {
    pub name: String,
    pub records: u64,
    /// How many bytes an earlier use of the file left.
    pub stale: u64,
    /// How many batches were left out, since they belong together with one that is missing.
    pub incomplete: u64,
}

// One call in a proof that drops it; derived, it would be one of each field (docs/DECISIONS.md).
impl Drop for FileRead {
    fn drop(self) {
        let FileRead {
            name: _name,
            records: _,
            stale: _,
            incomplete: _,
        } = self;
    }
}

impl FileRead {
    pub fn new(name: String) -> FileRead {
        FileRead {
            name,
            records: 0,
            stale: 0,
            incomplete: 0,
        }
    }
}

/// A number of a queue's file that is missing, and the next one that is there.
#[derive(Clone, Copy)]
pub struct Missing {
    pub queue: LogQueue,
    pub number: u64,
    pub before: u64,
}

pub struct Report {
    pub files: Vec<FileRead>,
    pub unread: Vec<UnreadPlace>,
    pub missing: Vec<Missing>,
}

// One call in a proof that drops it; derived, it would be one of each field (docs/DECISIONS.md).
impl Drop for Report {
    fn drop(self) {
        let Report {
            files: _files,
            unread: _unread,
            missing: _missing,
        } = self;
    }
}

impl Report {
    pub fn new(alloc: Global) -> Report {
        Report {
            files: Vec::new(alloc),
            unread: Vec::new(alloc),
            missing: Vec::new(alloc),
        }
    }

    /// Whether all could be read.
    pub fn is_whole(&self) -> bool {
        self.unread.is_empty() && self.missing.is_empty()
    }

    /// Whether an opening would cut off, or leave out, nothing but the end of a queue.
    pub fn loses_ends_alone(&self) -> bool {
        self.missing.is_empty() && self.unread.iter().all(|place| place.is_tail)
    }

    /// Prints a line for each file, for each place that could not be read, and for each missing
    /// number.
    pub fn print(&self, out: &mut Output) -> Result<()> {
        for file in &self.files {
            out.named(&[
                ("file", Word::Bytes(file.name.as_bytes())),
                ("records", Word::Number(file.records)),
                ("stale", Word::Number(file.stale)),
                ("incomplete", Word::Number(file.incomplete)),
            ])?;
        }
        for place in &self.unread {
            print_unread(place, out)?;
        }
        for missing in &self.missing {
            out.named(&[
                ("queue", Word::Text(queue_name(missing.queue))),
                ("missing", Word::Number(missing.number)),
                ("before", Word::Number(missing.before)),
            ])?;
        }
        Ok(())
    }
}

fn print_unread(place: &UnreadPlace, out: &mut Output) -> Result<()> {
    let name = ("unread", Word::Bytes(place.name.as_bytes()));
    let offset = ("offset", Word::Number(place.offset));
    let cause = ("cause", Word::Text(place.why.name()));
    out.named(&[name, offset, ("bytes", Word::Number(place.len)), cause])?;
    for (group, first, last) in &place.entries {
        out.named(&[
            name,
            offset,
            ("lost-group", Word::Number(*group)),
            ("first", Word::Number(*first)),
            ("last", Word::Number(*last)),
        ])?;
    }
    Ok(())
}

/// The entries of items: a group, and the first and the last index.
pub(crate) fn entries_of(
    alloc: Global,
    items: &[LogItem],
) -> Result<Vec<(u64, u64, u64)>, AllocError> {
    let mut found = Vec::new(alloc);
    for item in items {
        if let LogItemContent::EntryIndexes(entries) = &item.content {
            if let (Some(first), Some(last)) = (entries.first(), entries.last()) {
                found.push((item.raft_group_id, first.index, last.index))?;
            }
        }
    }
    Ok(found)
}
