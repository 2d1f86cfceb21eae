//! Items of the log files of a queue.

use crate::item::Item;
use crate::kind::Kind;
use crate::plan::Plan;
use crate::planner::{Known, Planner};
use raft_config::RecoveryMode;
use raft_dump::{FileCheck, LogFile, Planned};
use raft_inspect::{Behind, Cut, Passed, QueueFiles, queue_name};
use raft_records::{Fault, LogQueue};
use std::alloc::AllocError;

/// Why files may be passed over.
const UNKNOWN: &str = "a purge that was killed may have left them, or a file or a second \
    folder is missing: which of these cannot be known";

impl Planner<'_> {
    /// The bytes that the opening cuts off a file, after a search for whole records in them. Bytes
    /// of an earlier use of the last file hold nothing of the log: no item.
    pub fn add_cut(&self, cut: &Cut, behind: Behind, plan: &mut Plan) -> Result<(), AllocError> {
        let (kind, cause) = match (cut.is_last, behind) {
            (true, Behind::Nothing) if cut.stale => return Ok(()),
            (true, Behind::Nothing) => (Kind::Tail, "an unsynced tail: no whole record follows"),
            (true, Behind::Record) => (Kind::Records, "whole records follow the break"),
            (true, Behind::Unsearched) => (
                Kind::Records,
                "too much looks like records to be searched for records",
            ),
            (false, _) => (Kind::Records, "it is not the last file of its queue"),
        };
        let mend = match kind {
            Kind::Tail => self.raftctl("repair")?,
            _ => self.salvage()?,
        };
        plan.items.push(Item {
            kind,
            path: cut.path.clone()?,
            files: 1,
            at: cut.offset as u64,
            bytes: cut.len as u64,
            cause: String::from_str(self.alloc, cause)?,
            mend,
        })?;
        Ok(())
    }

    /// The first file at whose bytes the opening fails, and a number that two folders have.
    pub fn add_failures(&self, found: &QueueFiles, plan: &mut Plan) -> Result<(), Fault> {
        let planned = found.plan(self.alloc, self.mode)?;
        let files = found.kept_files().iter().zip(found.kept_checks());
        for (each, (file, check)) in planned.iter().zip(files) {
            if *each == Planned::Fail {
                plan.items.push(self.broken(found, file, check)?)?;
                break;
            }
        }
        if found.is_doubled() {
            self.add_doubled(found, plan)?;
        }
        Ok(())
    }

    fn broken(&self, found: &QueueFiles, file: &LogFile, check: &FileCheck) -> Result<Item, Fault> {
        let tail = RecoveryMode::TolerateTailCorruption;
        let opens_in_tail = found.failing(self.alloc, tail)?.is_none();
        let (cause, mend) = match &check.stop {
            Some(Fault::Lz4) => (
                "entries that LZ4 compressed, which an engine does not read",
                self.import()?,
            ),
            Some(Fault::Corruption) if opens_in_tail => (
                "the mode allows no broken bytes",
                self.raftctl("repair --mode tail")?,
            ),
            Some(Fault::Corruption) => (
                "broken bytes in a file that is not the last of its queue",
                self.salvage()?,
            ),
            _ => (
                "a record that is too long for an engine",
                String::new(self.alloc),
            ),
        };
        Ok(Item {
            kind: Kind::Broken,
            path: file.path.clone()?,
            files: 1,
            at: check.end as u64,
            bytes: check.len.saturating_sub(check.end) as u64,
            cause: String::from_str(self.alloc, cause)?,
            mend,
        })
    }

    // Of two files with one number the one that can be read less far is moved.
    fn add_doubled(&self, found: &QueueFiles, plan: &mut Plan) -> Result<(), AllocError> {
        let before = found.passed.saturating_sub(1);
        let (Some(one), Some(other)) = (found.files.get(before), found.files.get(found.passed))
        else {
            return Ok(());
        };
        let (Some(read), Some(also)) = (found.checks.get(before), found.checks.get(found.passed))
        else {
            return Ok(());
        };
        let (file, less, more) = if also.end < read.end {
            (other, also, read)
        } else {
            (one, read, also)
        };
        plan.items.push(Item {
            kind: Kind::Doubled,
            path: file.path.clone()?,
            files: 2,
            at: 0,
            bytes: less.len as u64,
            cause: format!(in self.alloc;
                "both folders have number {} of queue {}: this file can be read up to {}, the \
                other one up to {}",
                less.id.seq,
                queue_name(found.queue),
                less.end,
                more.end
            )?,
            mend: self.move_aside(file.path.as_str(), "aside")?,
        })?;
        Ok(())
    }

    /// The files that the opening passes over and that hold something. If the files that it keeps
    /// hold no record (`is_stray`) or do not follow the last known one, they are named instead.
    pub fn add_passed(
        &self,
        found: &QueueFiles,
        is_stray: bool,
        known: Option<&Known>,
        plan: &mut Plan,
    ) -> Result<(), AllocError> {
        let Some(passed) = found.passed() else {
            return Ok(());
        };
        // Nothing is missing: a number is there twice.
        if found.is_doubled() {
            return Ok(());
        }
        let is_known_stray = match known {
            Some(known) => are_all_in(found.kept_files(), &known.strays),
            None => false,
        };
        if is_stray || is_known_stray {
            return self.add_strays(found, passed, is_stray, plan);
        }
        let item = self.passed(found, passed, known, plan)?;
        plan.items.push(item)?;
        Ok(())
    }

    fn add_strays(
        &self,
        found: &QueueFiles,
        passed: Passed,
        is_empty: bool,
        plan: &mut Plan,
    ) -> Result<(), AllocError> {
        let why = match is_empty {
            true => "it holds no header and no record",
            false => "it does not follow the last file of the log",
        };
        for (file, check) in found.kept_files().iter().zip(found.kept_checks()) {
            plan.items.push(Item {
                kind: Kind::Stray,
                path: file.path.clone()?,
                files: 1,
                at: 0,
                bytes: check.len as u64,
                cause: format!(in self.alloc;
                    "{why}, and hides {} files of {} bytes, numbers {} to {} of queue {}",
                    passed.files,
                    passed.bytes,
                    passed.first,
                    passed.last,
                    queue_name(passed.queue)
                )?,
                mend: self.move_aside(file.path.as_str(), "stray")?,
            })?;
        }
        Ok(())
    }

    fn passed(
        &self,
        found: &QueueFiles,
        passed: Passed,
        known: Option<&Known>,
        plan: &Plan,
    ) -> Result<Item, AllocError> {
        let (first, last) = (passed.first, passed.last);
        let (kind, why) = self.why_passed(found, passed.missing, known)?;
        let name = queue_name(passed.queue);
        Ok(Item {
            kind,
            path: String::from_str(self.alloc, path_of(found, first))?,
            files: passed.files,
            at: 0,
            bytes: passed.bytes,
            cause: format!(in self.alloc; "numbers {first} to {last} of queue {name}: {why}")?,
            mend: self.mend_of_passed(kind, plan)?,
        })
    }

    fn why_passed(
        &self,
        found: &QueueFiles,
        missing: u64,
        known: Option<&Known>,
    ) -> Result<(Kind, String), AllocError> {
        let files = found.files.get(..found.passed).unwrap_or(&[]);
        let Some(known) = known else {
            let why = format!(in self.alloc; "number {missing} is missing after them; {UNKNOWN}")?;
            return Ok((Kind::Passed, why));
        };
        let (first, last) = (known.first, known.last);
        if are_all_in(files, &known.left_over) {
            let why = format!(in self.alloc;
                "a purge dropped them or an earlier opening passed over them: the log begins with \
                number {first}"
            )?;
            return Ok((Kind::LeftOver, why));
        }
        let why = format!(in self.alloc;
            "number {missing} is missing after them, and the log had numbers {first} to {last}"
        )?;
        Ok((Kind::Passed, why))
    }

    // A folder that is left out, or that the note names, may have the missing number.
    fn mend_of_passed(&self, kind: Kind, plan: &Plan) -> Result<String, AllocError> {
        if kind == Kind::LeftOver {
            return self.raftctl("repair");
        }
        for item in &plan.items {
            if item.kind == Kind::Folder || (item.kind == Kind::Missing && item.files > 0) {
                return item.mend.clone();
            }
        }
        self.raftctl("repair --cut")
    }

    /// The numbers of a queue that are needed and that no file has. `spill` is the second folder of
    /// the log when it was last written.
    pub fn add_missing(
        &self,
        queue: LogQueue,
        known: &Known,
        spill: &str,
        plan: &mut Plan,
    ) -> Result<(), AllocError> {
        if known.has_lost {
            plan.items.push(self.lost(queue)?)?;
        }
        let name = queue_name(queue);
        let mend = self.mend_of_missing(spill, plan)?;
        for (first, last) in &known.missing {
            plan.items.push(Item {
                kind: Kind::Missing,
                path: String::from_str(self.alloc, name)?,
                files: last.saturating_sub(*first).saturating_add(1),
                at: 0,
                bytes: 0,
                cause: format!(in self.alloc;
                    "the log had numbers {} to {} of queue {name}, and {first} to {last} are gone, \
                    or in a folder that is not read: restore the files",
                    known.first, known.last
                )?,
                mend: mend.clone()?,
            })?;
        }
        Ok(())
    }

    // Files that were missing when the log was opened, so that other ones got their numbers or a
    // purge passed them.
    fn lost(&self, queue: LogQueue) -> Result<Item, AllocError> {
        let name = queue_name(queue);
        Ok(Item {
            kind: Kind::Missing,
            path: String::from_str(self.alloc, name)?,
            files: 0,
            at: 0,
            bytes: 0,
            cause: format!(in self.alloc;
                "files of queue {name} were missing at an earlier opening, and cannot be put back: \
                the loss is not accepted yet"
            )?,
            mend: self.raftctl("repair --cut")?,
        })
    }

    // A folder that is left out may have them. Without another file of the queue they are not to be
    // forgotten.
    fn mend_of_missing(&self, spill: &str, plan: &Plan) -> Result<String, AllocError> {
        for item in &plan.items {
            match item.kind {
                Kind::Folder => return item.mend.clone(),
                Kind::Queue => return Ok(String::new(self.alloc)),
                _ => {}
            }
        }
        if spill.is_empty() || self.spill.is_some() {
            return self.raftctl("repair --cut");
        }
        self.spill_option(spill)
    }
}

/// Whether the files that the opening keeps have no header and no readable record, after files that
/// it passes over. If they hold no record elsewhere, they are not the log's.
pub fn may_be_stray(found: &QueueFiles) -> bool {
    for check in found.kept_checks() {
        if check.format.is_some() || check.records > 0 {
            return false;
        }
    }
    found.passed().is_some()
}

// Whether the numbers of all files, if there are any, are among these.
fn are_all_in(files: &[LogFile], numbers: &[u64]) -> bool {
    for file in files {
        if !numbers.contains(&file.id.seq) {
            return false;
        }
    }
    !files.is_empty()
}

// The path of the file of a number.
fn path_of(found: &QueueFiles, seq: u64) -> &str {
    for file in &found.files {
        if file.id.seq == seq {
            return file.path.as_str();
        }
    }
    ""
}
