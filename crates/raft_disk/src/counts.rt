//! What a folder has done since it was opened.
use crate::names::is_reserved_name;
use std::time::Duration;

/// How many classes of times syncs are counted in.
pub const TIMES: usize = 24;

/// Calls of the system on the log's files that were carried out. Reads use memory.
#[derive(Clone, Copy, Debug, PartialEq, Eq)]
pub struct DiskCounts {
    /// Writes that the log made, and their bytes.
    pub writes: u64,
    pub bytes: u64,
    /// Syncs of files, with the time of all and of the longest in nanoseconds; 0 without a clock.
    pub syncs: u64,
    pub sync_ns: u64,
    pub longest_sync_ns: u64,
    /// Syncs by their times: the first class has those under a microsecond, each next one those
    /// under twice the bound before, and the last one those of 4 seconds or more.
    pub sync_times: [u64; TIMES],
    /// Files that a queue has begun; of these, files that were dropped or reserved before.
    pub next_files: u64,
    pub recycled_files: u64,
    /// Files that purges and closes deleted. `delete_reserved` is not counted.
    pub deleted_files: u64,
    /// The log's files now, reserved ones too, except those that the opening passed over.
    pub files: u64,
}

impl DiskCounts {
    pub(crate) const NONE: DiskCounts = DiskCounts {
        writes: 0,
        bytes: 0,
        syncs: 0,
        sync_ns: 0,
        longest_sync_ns: 0,
        sync_times: [0; TIMES],
        next_files: 0,
        recycled_files: 0,
        deleted_files: 0,
        files: 0,
    };

    pub(crate) fn add_write(&mut self, bytes: usize) {
        self.writes = self.writes.saturating_add(1);
        self.bytes = self.bytes.saturating_add(bytes as u64);
    }

    pub(crate) fn add_sync(&mut self, time: Duration) {
        let nanoseconds = u64::try_from(time.as_nanos()).unwrap_or(u64::MAX);
        self.syncs = self.syncs.saturating_add(1);
        self.sync_ns = self.sync_ns.saturating_add(nanoseconds);
        self.longest_sync_ns = self.longest_sync_ns.max(nanoseconds);
        let mut rest = nanoseconds / 1000;
        for (class, count) in self.sync_times.iter_mut().enumerate() {
            if rest == 0 || class + 1 == TIMES {
                *count = count.saturating_add(1);
                return;
            }
            rest /= 2;
        }
    }

    /// A file was made at this path, which had none before if it is new.
    pub(crate) fn add_file(&mut self, path: &str, is_new: bool) {
        if is_new {
            self.files = self.files.saturating_add(1);
        }
        if !is_reserved_name(path) {
            self.next_files = self.next_files.saturating_add(1);
        }
    }

    /// A file was renamed to this path, which had none before if it is new.
    pub(crate) fn add_renaming(&mut self, path: &str, is_new: bool) {
        if !is_new {
            self.files = self.files.saturating_sub(1);
        }
        if !is_reserved_name(path) {
            self.next_files = self.next_files.saturating_add(1);
            self.recycled_files = self.recycled_files.saturating_add(1);
        }
    }

    pub(crate) fn add_deletion(&mut self) {
        self.files = self.files.saturating_sub(1);
        self.deleted_files = self.deleted_files.saturating_add(1);
    }
}
