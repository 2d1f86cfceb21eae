//! The files of both queues, over several looks.

use crate::changes::{Changes, Dropped, Volume};
use crate::files::WatchedFile;
use anyhow::Result;
use raft_console::Progress;
use raft_dump::LogFile;
use raft_looks::Folder;
use raft_records::LogQueue;
use std::alloc::Global;
use std::collections::BTreeMap;
use std::mem;

/// The files of a queue by their numbers.
pub(crate) struct WatchedQueue {
    alloc: Global,
    queue: LogQueue,
    pub files: BTreeMap<u64, WatchedFile>,
}

// One call in each proof that drops it. A derived `Drop` would be one call for each field
// (docs/DECISIONS.md).
impl Drop for WatchedQueue {
    fn drop(self) {
        let WatchedQueue {
            alloc: _,
            queue: _,
            files: _files,
        } = self;
    }
}

/// The number of a queue's files, their bytes and their records.
#[derive(Clone, Copy)]
pub(crate) struct QueueTotal {
    pub files: u64,
    pub bytes: u64,
    pub records: u64,
}

impl WatchedQueue {
    pub fn new(alloc: Global, queue: LogQueue) -> WatchedQueue {
        WatchedQueue {
            alloc,
            queue,
            files: BTreeMap::new(alloc),
        }
    }

    /// Looks at the queue's files in the folder, and adds the changes since the last look.
    pub fn look(
        &mut self,
        folder: &Folder,
        progress: &mut Progress,
        changes: &mut Changes,
    ) -> Result<()> {
        let listed = folder.files_of(self.queue)?;
        let first = self.first_number();
        let dropped_before = changes.dropped.len();
        let mut known = mem::replace(&mut self.files, BTreeMap::new(self.alloc));
        for (place, file) in listed.iter().enumerate() {
            let watched = match known.remove(&file.id.seq) {
                Some(watched) => watched,
                None => WatchedFile::new(file)?,
            };
            let is_last = place.saturating_add(1) == listed.len();
            self.follow(folder, file, watched, is_last, progress, changes)?;
        }
        for _ in 0..known.len() {
            let Some((_, file)) = known.pop_first() else {
                break;
            };
            drop_file(file, changes)?;
        }
        let dropped = changes.dropped.len().saturating_sub(dropped_before);
        changes.unseen = changes
            .unseen
            .saturating_add(self.gone_since(first).saturating_sub(dropped as u64));
        Ok(())
    }

    fn first_number(&self) -> Option<u64> {
        let (number, _) = self.files.iter().next()?;
        Some(*number)
    }

    // The number of files that were dropped since the first file had this number. A queue drops
    // its first files, and numbers rise by one.
    fn gone_since(&self, first: Option<u64>) -> u64 {
        match (first, self.first_number()) {
            (Some(before), Some(now)) => now.saturating_sub(before),
            _ => 0,
        }
    }

    fn follow(
        &mut self,
        folder: &Folder,
        file: &LogFile,
        mut watched: WatchedFile,
        is_last: bool,
        progress: &mut Progress,
        changes: &mut Changes,
    ) -> Result<()> {
        let exists = match folder.source_of(file, progress)? {
            Some(mut source) => watched.follow(self.alloc, &mut source, is_last, changes)?,
            None => false,
        };
        if exists {
            self.files.insert(file.id.seq, watched)?;
            return Ok(());
        }
        drop_file(watched, changes)
    }

    pub fn total(&self) -> QueueTotal {
        let mut total = QueueTotal {
            files: self.files.len() as u64,
            bytes: 0,
            records: 0,
        };
        for (_, file) in self.files.iter() {
            total.bytes = total.bytes.saturating_add(file.size);
            total.records = total.records.saturating_add(file.records);
        }
        total
    }
}

fn drop_file(file: WatchedFile, changes: &mut Changes) -> Result<()> {
    changes.dropped.push(Dropped {
        path: file.path,
        size: file.size,
    })?;
    Ok(())
}

/// A log and what all looks at it have found.
pub(crate) struct WatchedLog {
    alloc: Global,
    pub append: WatchedQueue,
    pub rewrite: WatchedQueue,
    /// The number of reserved files at the last look, and their bytes.
    pub reserved: Volume,
    /// Whether a writer had the folder open at the last look.
    pub is_in_use: bool,
    /// The number of looks.
    pub looks: u64,
}

impl Drop for WatchedLog {
    fn drop(self) {
        let WatchedLog {
            alloc: _,
            append: _append,
            rewrite: _rewrite,
            reserved: _,
            is_in_use: _,
            looks: _,
        } = self;
    }
}

impl WatchedLog {
    pub fn new(alloc: Global) -> WatchedLog {
        WatchedLog {
            alloc,
            append: WatchedQueue::new(alloc, LogQueue::Append),
            rewrite: WatchedQueue::new(alloc, LogQueue::Rewrite),
            reserved: Volume::NONE,
            is_in_use: false,
            looks: 0,
        }
    }

    /// Looks at the folder, and returns the log's changes since the last look; no changes at the
    /// first one.
    pub fn look(&mut self, folder: &Folder, progress: &mut Progress) -> Result<Changes> {
        let mut changes = Changes::new(self.alloc);
        self.rewrite.look(folder, progress, &mut changes)?;
        self.append.look(folder, progress, &mut changes)?;
        self.reserved = Volume::NONE;
        for file in &folder.reserved {
            self.reserved.add(1, file.len);
        }
        self.is_in_use = folder.is_in_use();
        if self.looks == 0 {
            changes = Changes::new(self.alloc);
        }
        self.looks = self.looks.saturating_add(1);
        Ok(changes)
    }
}
