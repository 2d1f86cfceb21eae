//! The log files of a queue, and what can be read of them.
ghost use Rattle.std.specs.Prelude.{◌≡◌, ◌↔◌, ◌++◌, IfErr, IfOk, OnOk, drop, map, slice_get, true};
ghost use Rattle.std.specs.List.Sorted.{IsNonDecreasingBy, IsPermutation};
ghost use Rattle.raft_base.specs.declared.errors.Fault.TheVariants.{Memory};
ghost use Rattle.raft_env.specs.Moments.{OnlyReads};
ghost use Rattle.raft_dump.specs.Check.{AreLastToRise, numbers_of, plan_of};
ghost use Rattle.raft_dump.specs.LogFiles.{place_of};
ghost use Rattle.raft_inspect.specs.Checks.{AreChecksOf, Finds, IsReadFault};
ghost use Rattle.raft_inspect.specs.Failing.{IsFailing, is_doubled, number_before};
ghost use Rattle.raft_inspect.specs.Listed.{AreAllThere, all_there, those_there};

use crate::kept::add_folder;
use raft_config::RecoveryMode;
use raft_dump::{FileCheck, LogFile, Planned, check_file, passed_over, plan_opening};
use raft_env::FileSystem;
use raft_records::{Fault, LogQueue};
use std::alloc::{AllocError, Global};

/// The log files of one queue, by number, and what can be read of each.
pub struct QueueFiles {
    pub queue: LogQueue,
    pub files: Vec<LogFile>,
    pub checks: Vec<FileCheck>,
    /// How many of them an opening passes over, since a number is missing after them.
    pub passed: usize,
}

// One call in a proof that drops it; derived, it would be one of each field (docs/DECISIONS.md).
impl Drop for QueueFiles {
    fn drop(self) {
        let QueueFiles {
            queue: _,
            files: _files,
            checks: _checks,
            passed: _,
        } = self;
    }
}

/// Reads the log files of a queue in these folders. One that isn't there has none.
pub fn inspect<F: FileSystem>(
    alloc: Global,
    file_system: &mut F,
    folders: &[&str],
    queue: LogQueue,
) -> Result<QueueFiles, Fault>
    ensures found { IfOk result (λ found. (found.queue ≡ queue)
        × AreLastToRise (numbers_of found.checks.items) found.passed) }
    ensures value { IfOk result (λ found. AreChecksOf (F.directory file_system.old)
        found.files.items found.checks.items) }
    ensures files { IfOk result (λ found. AreAllThere queue (F.directory file_system.old)
        folders.now found.files.items) }
    ensures unchanged { OnlyReads F.directory F.moments F.refusals_of file_system.old
        file_system.new }
    ensures cause { IfErr result (IsReadFault (F.refusals_of file_system.old)
        (F.refusals_of file_system.new)) }
{
    let mut files = files_there(alloc, folders, queue, file_system)?;
    QueueFiles::sort(&mut files)?;
    let checks = checks_of(alloc, file_system, &files)?;
    Ok(QueueFiles::new(queue, files, checks))
}

// Those of these folders, where they are there.
fn files_there<F: FileSystem>(
    alloc: Global,
    folders: &[&str],
    queue: LogQueue,
    file_system: &mut F,
) -> Result<Vec<LogFile>, Fault>
    ensures { Finds F.directory F.moments F.refusals_of result (λ files. map place_of files.items
        ≡ all_there queue (F.directory file_system.old) folders.now)
        file_system.old file_system.new }
{
    let mut files = Vec::new(alloc);
    let mut place = 0;
    'folders: while let Some(folder) = folders.get(place) {
        add_there(alloc, folder, queue, &mut files, file_system)?;
        place += 1;
    }
    Ok(files)
}

pub(crate) fn checks_of<F: FileSystem>(
    alloc: Global,
    file_system: &mut F,
    files: &[LogFile],
) -> Result<Vec<FileCheck>, Fault>
    ensures { Finds F.directory F.moments F.refusals_of result
        (λ checks. AreChecksOf (F.directory file_system.old) files.now checks.items)
        file_system.old file_system.new }
{
    let mut checks = Vec::new(alloc);
    let mut left = files;
    'files: while let Some((file, rest)) = left.split_first() {
        checks.push(check_file(alloc, file, file_system)?)?;
        left = rest;
    }
    Ok(checks)
}

// Adds those in a folder, if it exists.
fn add_there<F: FileSystem>(
    alloc: Global,
    folder: &str,
    queue: LogQueue,
    files: &mut Vec<LogFile>,
    file_system: &mut F,
) -> Result<(), Fault>
    ensures { Finds F.directory F.moments F.refusals_of result
        (λ _. map place_of files.new.items ≡ map place_of files.old.items
        ++ those_there queue (F.directory file_system.old) folder.now)
        file_system.old file_system.new }
{
    if file_system.is_dir(folder) {
        add_folder(alloc, folder, queue, files, file_system)
    } else {
        Ok(())
    }
}

impl QueueFiles {
    /// Puts files of one queue in the order of their numbers.
    pub fn sort(files: &mut Vec<LogFile>) -> Result<(), AllocError>
        ensures unchanged { IsPermutation files.old.items files.new.items }
        ensures sorted { OnOk result (IsNonDecreasingBy (λ file. file.id.seq) files.new.items) }
    {
        files.sort_by_key(|file| file.id.seq)?;
        Ok(())
    }

    /// How many of files by number an opening passes over: those before the last ones whose numbers
    /// rise by one.
    pub fn passed_by_number(files: &[LogFile]) -> usize {
        let mut passed = 0;
        let mut before: Option<u64> = None;
        for (place, file) in files.iter().enumerate() {
            if let Some(before) = before {
                if before.checked_add(1) != Some(file.id.seq) {
                    passed = place;
                }
            }
            before = Some(file.id.seq);
        }
        passed
    }

    /// Of files by number, and what can be read of each.
    pub fn new(queue: LogQueue, files: Vec<LogFile>, checks: Vec<FileCheck>) -> QueueFiles
        ensures found { (result.queue ≡ queue) × (result.files ≡ files) }
        ensures read { result.checks ≡ checks }
        ensures passed { AreLastToRise (numbers_of checks.items) result.passed }
    {
        let passed = passed_over(&checks);
        QueueFiles {
            queue,
            files,
            checks,
            passed,
        }
    }

    /// The files that an opening doesn't pass over.
    pub fn kept_files(&self) -> &[LogFile]
        ensures value { result.now ≡ drop self.now.passed self.now.files.items }
    {
        self.files.get(self.passed..).unwrap_or(&[])
    }

    /// The path of the last file, if it has no header and nothing but zeros, and another one
    /// precedes it.
    pub fn empty_last(&self) -> Option<&str> {
        let last = self.kept_files().len().checked_sub(1)?;
        let check = self.kept_checks().get(last)?;
        if last == 0 || check.end > 0 || !check.zeros {
            return None;
        }
        Some(self.kept_files().get(last)?.path.as_str())
    }

    /// What can be read of each of them.
    pub fn kept_checks(&self) -> &[FileCheck]
        ensures value { result.now ≡ drop self.now.passed self.now.checks.items }
    {
        self.checks.get(self.passed..).unwrap_or(&[])
    }

    /// What an opening in a mode does with each of them.
    pub fn plan(&self, alloc: Global, mode: RecoveryMode) -> Result<Vec<Planned>, Fault>
        ensures value { IfOk result (λ plan. plan.items
            ≡ plan_of mode (drop self.now.passed self.now.checks.items)) }
        ensures memory { IfErr result (λ e. e ≡ Memory) }
    {
        plan_opening(alloc, mode, self.kept_checks())
    }

    /// The number of the file before the one at a place.
    pub fn number_before(&self, place: usize) -> Option<u64>
        ensures value { result ≡ number_before (numbers_of self.now.checks.items) place }
    {
        self.number_at(place.checked_sub(1)?)
    }

    // The number of the file at a place.
    fn number_at(&self, place: usize) -> Option<u64>
        ensures value { result ≡ slice_get (numbers_of self.now.checks.items) place }
    {
        self.checks.get(place).map(|check| check.id.seq)
    }

    /// Whether an opening finds two files of the number of the first one that it keeps, and fails.
    pub fn is_doubled(&self) -> bool
        ensures value { result ≡ is_doubled self.now }
    {
        match (self.number_before(self.passed), self.number_at(self.passed)) {
            (Some(before), Some(first)) => before == first,
            _ => false,
        }
    }

    /// Whether an opening in a mode fails for what the files hold, or for two of one number.
    pub fn fails(&self, alloc: Global, mode: RecoveryMode) -> Result<bool, Fault>
        ensures value { IfOk result (λ fails. fails ≡ true ↔ IsFailing mode self.now) }
        ensures memory { IfErr result (λ e. e ≡ Memory) }
    {
        let plan = self.plan(alloc, mode)?;
        Ok(plan.contains(&Planned::Fail) || self.is_doubled())
    }

    /// The first file at which an opening in a mode fails, and the place at which its reading ends.
    pub fn failing(
        &self,
        alloc: Global,
        mode: RecoveryMode,
    ) -> Result<Option<(&str, usize)>, Fault> {
        let plan = self.plan(alloc, mode)?;
        for (place, planned) in plan.iter().enumerate() {
            if *planned == Planned::Fail {
                return Ok(self.place_of(place));
            }
        }
        Ok(None)
    }

    // The path of a kept file, and where its reading ends.
    fn place_of(&self, place: usize) -> Option<(&str, usize)> {
        let file = self.kept_files().get(place)?;
        let check = self.kept_checks().get(place)?;
        Some((file.path.as_str(), check.end))
    }
}
