//! What an opening of both queues would lose.
ghost use Rattle.std.specs.Prelude.{◌≡◌, ◌++◌, ◌+◌, ◌-◌, ◌^◌, ◌⊎◌, ◌↔◌, ◌||◌, [], drop, false, map, max, min, suc, true, Contains, IfErr, IfOk};
ghost use Rattle.std.specs.List.{cons_option};
ghost use Rattle.std.specs.String.{string_bytes};
ghost use Rattle.raft_base.specs.declared.errors.Fault.TheVariants.{Memory};
ghost use Rattle.raft_env.specs.Moments.{OnlyReads};
ghost use Rattle.raft_dump.specs.Check.{plan_of};
ghost use Rattle.raft_dump.specs.declared.plan.Planned.TheVariants.{Fail};
ghost use Rattle.raft_inspect.specs.Checks.{Finds, IsReadFault};
ghost use Rattle.raft_inspect.specs.Cuts.{cuts_in, place_of};
ghost use Rattle.raft_inspect.specs.Kept.{IsPassedTold, holds_nothing};
ghost use Rattle.raft_inspect.specs.Losses.{AreLossesIn, AreLossesOf};

use crate::cuts::Cut;
use crate::kept::{KeptFiles, find_kept, find_passed, folders_there};
use crate::queue_files::QueueFiles;
use raft_config::{Config, RecoveryMode};
use raft_dump::{FileCheck, Planned, plan_opening};
use raft_env::FileSystem;
use raft_records::{Fault, LogQueue};
use std::alloc::{AllocError, Global};

/// Log files of a queue that hold something and that an opening passes over, since a number is
/// missing after them.
#[derive(Clone, Copy, Debug, PartialEq, Eq)]
pub struct Passed {
    pub queue: LogQueue,
    pub files: u64,
    pub bytes: u64,
    /// The numbers of the first and of the last of them, and the one that is missing.
    pub first: u64,
    pub last: u64,
    pub missing: u64,
}

/// What an opening loses of the log files of both queues.
#[derive(Drop)]
pub struct Losses {
    /// Whether it fails for what these files hold, or for a number in two folders, and so loses nothing.
    pub fails: bool,
    pub cuts: Vec<Cut>,
    pub passed: Vec<Passed>,
}

impl Losses {
    /// What an opening with these settings would lose of the log's files, found before it and
    /// without a change. These are the bytes that it would cut off, except zeros that were
    /// allocated ahead, and the files that it would pass over. A first or last file that is missing
    /// does not show in the files: `FolderLosses::find` reads the note of a folder too. It fails with
    /// `Io` if a storage call failed, or with `Memory`.
    pub fn find<F: FileSystem>(
        alloc: Global,
        config: &Config,
        file_system: &mut F,
    ) -> Result<Losses, Fault>
        ensures value { IfOk result
            (AreLossesOf config.now (F.directory file_system.old)) }
        ensures unchanged { OnlyReads F.directory F.moments F.refusals_of
            file_system.old file_system.new }
        ensures cause { IfErr result (IsReadFault (F.refusals_of file_system.old)
            (F.refusals_of file_system.new)) }
    {
        let folders = folders_there(alloc, config, file_system)?;
        Losses::find_in(alloc, config.recovery_mode, &folders, file_system)
    }

    // .. of the log's files in these folders, which are there.
    fn find_in<F: FileSystem>(
        alloc: Global,
        mode: RecoveryMode,
        folders: &[String],
        file_system: &mut F,
    ) -> Result<Losses, Fault>
        ensures { Finds F.directory F.moments F.refusals_of result
            (AreLossesIn mode (map string_bytes folders.now) (F.directory file_system.old))
            file_system.old file_system.new }
    {
        let rewrite = find_kept(alloc, folders, LogQueue::Rewrite, file_system)?;
        let append = find_kept(alloc, folders, LogQueue::Append, file_system)?;
        let rewrite_passed = find_passed(alloc, folders, &rewrite.found, file_system)?;
        let append_passed = find_passed(alloc, folders, &append.found, file_system)?;
        let rewrite_fails = rewrite.fails(alloc, mode)?;
        let append_fails = append.fails(alloc, mode)?;
        let fails = either(rewrite_fails, append_fails);
        let cuts = cuts_where(alloc, mode, fails, &rewrite.found, &append.found)?;
        Ok(Losses {
            fails,
            cuts,
            passed: those_told(alloc, rewrite_passed, append_passed)?,
        })
    }
}

impl KeptFiles {
    // Whether an opening that keeps them fails for what they hold, or for two of one number.
    fn fails(&self, alloc: Global, mode: RecoveryMode) -> Result<bool, Fault>
        ensures value { IfOk result (λ fails. fails ≡ true
            ↔ (Contains (plan_of mode self.now.found.checks.items) Fail
            ⊎ (self.now.are_single ≡ false))) }
        ensures memory { IfErr result (λ e. e ≡ Memory) }
    {
        let plan = plan_opening(alloc, mode, &self.found.checks)?;
        Ok(plan.contains(&Planned::Fail) || !self.are_single)
    }
}

// Whether one of both queues is to fail.
fn either(rewrite: bool, append: bool) -> bool
    ensures value { result ≡ (rewrite || append) }
{
    rewrite || append
}

// The cuts of both queues, or none if the opening fails.
fn cuts_where(
    alloc: Global,
    mode: RecoveryMode,
    fails: bool,
    rewrite: &QueueFiles,
    append: &QueueFiles,
) -> Result<Vec<Cut>, AllocError>
    ensures fails { IfOk result (λ cuts. fails ≡ true → map place_of cuts.items ≡ []) }
    ensures cuts { IfOk result (λ cuts. fails ≡ false → map place_of cuts.items
        ≡ cuts_in mode (drop rewrite.now.passed rewrite.now.files.items)
        (drop rewrite.now.passed rewrite.now.checks.items)
        ++ cuts_in mode (drop append.now.passed append.now.files.items)
        (drop append.now.passed append.now.checks.items)) }
{
    let mut cuts = Vec::new(alloc);
    if fails {
        return Ok(cuts);
    }
    rewrite.add_cuts(mode, &mut cuts)?;
    append.add_cuts(mode, &mut cuts)?;
    Ok(cuts)
}

// The reports on both queues.
fn those_told(
    alloc: Global,
    rewrite: Option<Passed>,
    append: Option<Passed>,
) -> Result<Vec<Passed>, AllocError>
    ensures value { IfOk result (λ told. told.items
        ≡ cons_option rewrite (cons_option append [])) }
{
    let mut told = Vec::new(alloc);
    if let Some(passed) = rewrite {
        told.push(passed)?;
    }
    if let Some(passed) = append {
        told.push(passed)?;
    }
    Ok(told)
}

impl QueueFiles {
    /// Those that hold something and that an opening passes over.
    pub fn passed(&self) -> Option<Passed> {
        Passed::of(self.queue, self.checks.get(..self.passed)?)
    }
}

impl Passed {
    /// Those that hold something of the files that an opening of a queue passes over.
    pub fn of(queue: LogQueue, checks: &[FileCheck]) -> Option<Passed>
        ensures told { IsPassedTold queue checks.now result }
    {
        let mut passed = Passed {
            queue,
            files: 0,
            bytes: 0,
            first: u64::MAX,
            last: 0,
            missing: 0,
        };
        for check in checks {
            passed.add(check);
        }
        if passed.files == 0 {
            return None;
        }
        passed.missing = passed.last.saturating_add(1);
        Some(passed)
    }

    fn add(&mut self, check: &FileCheck)
        ensures queue { self.new.queue ≡ self.old.queue }
        ensures last { self.new.last ≡ max self.old.last check.now.id.seq }
        ensures adds_none { holds_nothing check.now ≡ true → (self.new.files ≡ self.old.files)
            × (self.new.bytes ≡ self.old.bytes) × (self.new.first ≡ self.old.first) }
        ensures adds_one { holds_nothing check.now ≡ false
            → (self.new.files ≡ min (suc self.old.files) (2 ^ 64 - 1))
            × (self.new.bytes ≡ min (self.old.bytes + check.now.len) (2 ^ 64 - 1))
            × (self.new.first ≡ min self.old.first check.now.id.seq) }
    {
        self.last = self.last.max(check.id.seq);
        if holds_nothing(check) {
            return;
        }
        self.files = self.files.saturating_add(1);
        self.bytes = self.bytes.saturating_add(check.len as u64);
        self.first = self.first.min(check.id.seq);
    }
}

// Whether a header or zeros are all that a file has.
fn holds_nothing(check: &FileCheck) -> bool
    ensures value { result ≡ holds_nothing check.now }
{
    check.records == 0 && (check.stop.is_none() || check.zeros)
}
