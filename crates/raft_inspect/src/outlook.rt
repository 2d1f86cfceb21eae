//! What an opening would lose.

use crate::queue_files::QueueFiles;
use raft_config::RecoveryMode;
use raft_dump::{FileCheck, Planned};
use raft_records::Fault;
use std::alloc::Global;

/// What an opening in a mode would do with the files of a queue, or of both.
#[derive(Clone, Copy)]
pub struct Outlook {
    /// Whether it fails.
    pub fails: bool,
    /// How many files it cuts, and how many bytes that may have held something.
    pub files: u64,
    pub bytes: u64,
    /// How many zeros it cuts that were made ahead, and hold nothing.
    pub zeros: u64,
    /// How many bytes it cuts that an earlier use of the file left.
    pub stale: u64,
    /// How many files that hold something it passes over, and how many bytes they have.
    pub passed: u64,
    pub passed_bytes: u64,
}

impl Outlook {
    /// Of no files.
    pub fn new() -> Outlook {
        Outlook {
            fails: false,
            files: 0,
            bytes: 0,
            zeros: 0,
            stale: 0,
            passed: 0,
            passed_bytes: 0,
        }
    }

    /// Adds what an opening in a mode does with the files of a queue.
    pub fn add_queue(
        &mut self,
        alloc: Global,
        found: &QueueFiles,
        mode: RecoveryMode,
    ) -> Result<(), Fault> {
        if found.is_doubled() {
            self.fails = true;
        }
        for (planned, check) in found.plan(alloc, mode)?.iter().zip(found.kept_checks()) {
            self.add_file(*planned, check);
        }
        if let Some(passed) = found.passed() {
            self.passed = self.passed.saturating_add(passed.files);
            self.passed_bytes = self.passed_bytes.saturating_add(passed.bytes);
        }
        Ok(())
    }

    fn add_file(&mut self, planned: Planned, check: &FileCheck) {
        match planned {
            Planned::Keep => {}
            Planned::Cut(end) => self.add_cut(check.len.saturating_sub(end) as u64, check),
            Planned::Fail => self.fails = true,
        }
    }

    fn add_cut(&mut self, len: u64, check: &FileCheck) {
        if check.zeros {
            self.zeros = self.zeros.saturating_add(len);
        } else if check.stale {
            self.stale = self.stale.saturating_add(len);
        } else {
            self.files = self.files.saturating_add(1);
            self.bytes = self.bytes.saturating_add(len);
        }
    }
}
