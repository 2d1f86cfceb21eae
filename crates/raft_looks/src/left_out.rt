//! Files of a log that aren't read: in a folder below that no word names, or gone.

use crate::faults::told;
use crate::source::is_missing;
use anyhow::{Result, anyhow, bail};
use raft_disk::{FolderView, OpenFault};
use raft_dump::{LogFile, log_files};
use raft_files::LogFileFormat;
use raft_inspect::QueueFiles;
use raft_opening_plan::{Plan, Planner};
use raft_records::{FileId, LogQueue};
use std::alloc::AllocError;
use std::fs::{self, DirEntry};
use std::io::ErrorKind;

const LOCK: &str = "LOCK";

/// How many bytes of two files of one number are compared.
const COMPARED: usize = 64 * 1024;

/// A log's folder, and its files that are read.
#[derive(Drop)]
pub(crate) struct ReadFiles<'a> {
    pub rt: HostRuntime,
    pub planner: Planner<'a>,
    pub view: &'a FolderView,
    pub files: &'a [LogFile],
}

/// What a folder's files are to those that are read.
#[derive(Clone, Copy, PartialEq, Eq)]
enum Kinship {
    /// No number is in both.
    Apart,
    /// One of a number in both begins with the same bytes, or all of them hold nothing.
    Copy,
    /// This number is in both.
    Doubled(FileId),
}

impl ReadFiles<'_> {
    /// Adds the folders directly inside that are left out: an opening that read their files too
    /// would keep one of them. A copy of the log is none, nor is a folder with its own lock, which
    /// is another log. Without such folders, a queue that is gone.
    pub fn add_left_out(&self, plan: &mut Plan) -> Result<()> {
        let entries = match fs::read_dir(&self.rt, self.planner.folder) {
            Ok(entries) => entries,
            Err(e) => return Err(anyhow!("{e}").context(self.planner.folder)),
        };
        let before = plan.items.len();
        for entry in entries {
            match entry {
                Ok(entry) => self.add_entry(&entry, plan)?,
                // No word can name it.
                Err(e) if e.kind() == ErrorKind::InvalidFilename => {}
                Err(e) => return Err(anyhow!("{e}").context(self.planner.folder)),
            }
        }
        if plan.items.len() == before {
            self.add_gone(plan)?;
        }
        Ok(())
    }

    // Adds a queue without a file, if the other one has files that say that it had some.
    fn add_gone(&self, plan: &mut Plan) -> Result<(), AllocError> {
        if let Some(first) = self.first_without_rewrite() {
            let item = self.planner.gone_queue(LogQueue::Rewrite, first)?;
            plan.items.push(item)?;
        }
        if let Some(files) = self.files_without_append() {
            let item = self.planner.gone_queue(LogQueue::Append, files)?;
            plan.items.push(item)?;
        }
        Ok(())
    }

    // The number of the Append queue's first file, if files before it were dropped and the Rewrite
    // queue has none.
    fn first_without_rewrite(&self) -> Option<u64> {
        let mut first = u64::MAX;
        for file in self.files {
            match file.id.queue {
                LogQueue::Rewrite => return None,
                LogQueue::Append => first = file.id.seq.min(first),
            }
        }
        if self.files.is_empty() || first <= 1 {
            return None;
        }
        Some(first)
    }

    // How many files the Rewrite queue has, if the Append queue had files and has none.
    fn files_without_append(&self) -> Option<u64> {
        let mut is_later = false;
        for file in self.files {
            match file.id.queue {
                LogQueue::Append => return None,
                LogQueue::Rewrite => is_later = is_later || self.is_later(file),
            }
        }
        if is_later {
            return Some(self.files.len() as u64);
        }
        None
    }

    // Whether a file of the Rewrite queue is made or written only after the Append queue has files:
    // the first opening makes the Rewrite queue's first file, and a kill may leave that alone.
    fn is_later(&self, file: &LogFile) -> bool {
        let size = self.view.size(file.path.as_str()).unwrap_or(0);
        file.id.seq > 1 || size > LogFileFormat::max_encoded_len() as u64
    }

    fn add_entry(&self, entry: &DirEntry, plan: &mut Plan) -> Result<()> {
        let name = entry.file_name();
        let is_folder = match entry.metadata() {
            Ok(metadata) => metadata.is_dir(),
            // A writer deleted it.
            Err(_) => false,
        };
        if !is_folder || self.planner.spill == Some(name) {
            return Ok(());
        }
        let lock = format!(in self.rt.alloc(); "{}/{name}/{LOCK}", self.planner.folder)?;
        if fs::symlink_metadata(&self.rt, lock.as_str()).is_ok() {
            return Ok(());
        }
        match self.view.names(name) {
            Ok(names) => self.add_folder(name, &names, plan),
            Err(fault) if is_missing(&fault) || is_closed(&fault) => Ok(()),
            Err(fault) => Err(told(&self.rt, &fault)),
        }
    }

    fn add_folder(&self, folder: &str, names: &[String], plan: &mut Plan) -> Result<()> {
        let there = match log_files(self.rt.alloc(), folder, names) {
            Ok(there) => there,
            Err(fault) => bail!("{fault}"),
        };
        if !self.is_gone_on(&there)? {
            return Ok(());
        }
        let doubled = match self.kinship_of(&there)? {
            Kinship::Copy => return Ok(()),
            Kinship::Apart => None,
            Kinship::Doubled(id) => Some(id),
        };
        let mut bytes = 0u64;
        for file in &there {
            bytes = bytes.saturating_add(self.view.size(file.path.as_str()).unwrap_or(0));
        }
        let files = there.len() as u64;
        let item = self.planner.left_out_folder(folder, files, bytes, doubled)?;
        Ok(plan.items.push(item)?)
    }

    fn kinship_of(&self, there: &[LogFile]) -> Result<Kinship> {
        let mut kinship = Kinship::Apart;
        let mut is_empty = true;
        for file in there {
            let front = self.front_of(file.path.as_str())?;
            is_empty = is_empty && !holds_more_than_header(&front);
            match self.kinship_of_file(file.id, &front)? {
                Kinship::Copy => return Ok(Kinship::Copy),
                Kinship::Doubled(id) => kinship = Kinship::Doubled(id),
                Kinship::Apart => {}
            }
        }
        Ok(if is_empty { Kinship::Copy } else { kinship })
    }

    // Of a file that begins so.
    fn kinship_of_file(&self, id: FileId, front: &[u8]) -> Result<Kinship> {
        let mut kinship = Kinship::Apart;
        for own in self.files {
            if own.id != id {
                continue;
            }
            if self.begins_so(own.path.as_str(), front)? {
                return Ok(Kinship::Copy);
            }
            kinship = Kinship::Doubled(id);
        }
        Ok(kinship)
    }

    // Whether a file begins with the same bytes, and more than a header.
    fn begins_so(&self, path: &str, front: &[u8]) -> Result<bool> {
        if !holds_more_than_header(front) {
            return Ok(false);
        }
        Ok(begin_alike(&self.front_of(path)?, front))
    }

    // The first bytes of a file; none if a writer deleted it.
    fn front_of(&self, path: &str) -> Result<Vec<u8>> {
        match self.view.read_part(path, 0, COMPARED) {
            Ok(bytes) => Ok(bytes),
            Err(fault) if is_missing(&fault) => Ok(Vec::new(self.rt.alloc())),
            Err(fault) => Err(told(&self.rt, &fault)),
        }
    }

    // Whether an opening that read these files too would keep one of them.
    fn is_gone_on(&self, there: &[LogFile]) -> Result<bool, AllocError> {
        for queue in &[LogQueue::Append, LogQueue::Rewrite] {
            let mut all = Vec::new(self.rt.alloc());
            add_of(*queue, self.files, &mut all)?;
            add_of(*queue, there, &mut all)?;
            QueueFiles::sort(&mut all)?;
            let passed = QueueFiles::passed_by_number(&all);
            if has_one_of(there, all.get(passed..).unwrap_or(&[])) {
                return Ok(true);
            }
        }
        Ok(false)
    }
}

// Whether a file that begins so has a header, and something after it.
fn holds_more_than_header(front: &[u8]) -> bool {
    let mut rest = front;
    front.len() > LogFileFormat::max_encoded_len() && LogFileFormat::decode(&mut rest).is_ok()
}

// Whether two files begin with the same bytes, and more than a header.
fn begin_alike(one: &[u8], other: &[u8]) -> bool {
    holds_more_than_header(one) && (one.starts_with(other) || other.starts_with(one))
}

// Whether one of the others is among the files, by its number.
fn has_one_of(files: &[LogFile], others: &[LogFile]) -> bool {
    for other in others {
        if is_among(files, other) {
            return true;
        }
    }
    false
}

fn is_among(files: &[LogFile], file: &LogFile) -> bool {
    let id = file.id;
    for each in files {
        if each.id == id {
            return true;
        }
    }
    false
}

fn add_of(queue: LogQueue, files: &[LogFile], all: &mut Vec<LogFile>) -> Result<(), AllocError> {
    for file in files {
        if file.id.queue == queue {
            let path = file.path.clone()?;
            all.push(LogFile { id: file.id, path })?;
        }
    }
    Ok(())
}

fn is_closed(fault: &OpenFault) -> bool {
    match fault {
        OpenFault::Io(_, e) => e.kind() == ErrorKind::PermissionDenied,
        _ => false,
    }
}
