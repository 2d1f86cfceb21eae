//! What an opening cuts off of log files.
ghost use Rattle.std.specs.Prelude.{◌≡◌, ◌++◌, [], None, Some, drop, map, take, if◌then◌else◌, IfErr, IfOk, OnOk};
ghost use Rattle.std.specs.Option.{option_map};
ghost use Rattle.std.specs.String.{string_bytes};
ghost use Rattle.raft_base.specs.declared.errors.Fault.TheVariants.{Memory};
ghost use Rattle.raft_env.specs.Moments.{OnlyReads};
ghost use Rattle.raft_env.specs.Refusal.{FailsAt, NamesFile};
ghost use Rattle.raft_files.specs.Writer.{bytes_at};
ghost use Rattle.raft_dump.specs.Check.{planned_stop};
ghost use Rattle.raft_inspect.specs.Cuts.{IsToldOf, IsToldWhy, cut_as, cuts_in, place_in, place_of};
ghost use Rattle.raft_inspect.specs.Failing.{IsFailing};

use crate::behind::{Behind, BehindSearch, search_behind};
use crate::queue_files::QueueFiles;
use raft_config::RecoveryMode;
use raft_dump::{FileCheck, LogFile, build_file_reader};
use raft_env::FileSystem;
use raft_records::{Fault, FileBlockHandle, FileId, Version};
use std::alloc::{AllocError, Global};

/// The bytes from a place on that an opening cuts off of a log file.
#[derive(Drop)]
pub struct Cut {
    pub id: FileId,
    pub path: String,
    /// The place at which the cut bytes begin, and how many there are.
    pub offset: usize,
    pub len: usize,
    /// Whether they are called stale: then they hold a record of an earlier file.
    pub stale: bool,
    /// Whether the file is the last one of its queue.
    pub is_last: bool,
    /// The version of the file's records; none if its header cannot be read.
    version: Option<Version>,
}

/// Why an unsynced tail does not explain the cut bytes.
#[derive(Clone, Copy, Debug, PartialEq, Eq)]
pub enum Unexplained {
    /// Whole records follow the break.
    Records,
    /// There are so many bytes that not all were searched for a record.
    Unsearched,
    /// The file isn't the last one of its queue.
    Earlier,
}

impl Cut {
    // What an opening cuts off a file, by whether it tolerates broken bytes. Zeros that were made
    // ahead hold nothing, and aren't reported.
    fn planned(
        file: &LogFile,
        check: &FileCheck,
        is_tolerant: bool,
        is_last: bool,
    ) -> Result<Option<Cut>, AllocError>
        ensures value { IfOk result (λ cut. option_map place_of cut ≡ cut_as
            (planned_stop is_tolerant check.now.end check.now.stop) is_last file.now check.now) }
    {
        match &check.stop {
            None => Ok(None),
            Some(Fault::Corruption) if is_tolerant => Cut::broken(file, check, is_last),
            Some(_) => Ok(None),
        }
    }

    fn broken(file: &LogFile, check: &FileCheck, is_last: bool) -> Result<Option<Cut>, AllocError>
        ensures value { IfOk result (λ cut. option_map place_of cut
            ≡ (if check.now.zeros then None else Some (place_in is_last file.now check.now))) }
    {
        if check.zeros {
            return Ok(None);
        }
        Ok(Some(Cut::new(file, check, is_last)?))
    }

    // A cut from the place where the file's reading ends.
    fn new(file: &LogFile, check: &FileCheck, is_last: bool) -> Result<Cut, AllocError>
        ensures value { IfOk result (IsToldOf is_last file.now check.now) }
    {
        Ok(Cut {
            id: file.id,
            path: file.path.clone()?,
            offset: check.end,
            len: check.len.saturating_sub(check.end),
            stale: check.stale,
            is_last,
            version: check.format.map(|format| format.version),
        })
    }

    /// The bytes that are cut off. An `Io` names the path.
    pub fn bytes<F: FileSystem>(&self, alloc: Global, file_system: &mut F) -> Result<Vec<u8>, Fault>
        ensures value { IfOk result (λ bytes. bytes.items ≡ take self.now.len (drop self.now.offset
            (bytes_at (string_bytes self.now.path) (F.directory file_system.old)))) }
        ensures unchanged { OnlyReads F.directory F.moments F.refusals_of
            file_system.old file_system.new }
        ensures cause { IfErr result (FailsAt (NamesFile (string_bytes self.now.path))
            (F.refusals_of file_system.old) (F.refusals_of file_system.new)) }
    {
        let path = self.path.as_str();
        let mut reader = build_file_reader(alloc, file_system, path)?;
        let handle = FileBlockHandle {
            id: self.id,
            offset: self.offset as u64,
            len: self.len,
        };
        let bytes = reader.read(file_system, alloc, handle);
        reader.end(file_system);
        match bytes {
            Ok(bytes) => Ok(bytes),
            Err(fault) => Err(fault.with_path(alloc, path)),
        }
    }

    /// Why more than an unsynced tail is lost with these bytes, which are those that are cut off.
    pub fn unexplained(&self, alloc: Global, bytes: &[u8]) -> Result<Option<Unexplained>, Fault>
        ensures value { IfOk result (IsToldWhy self.now bytes.now) }
        ensures memory { IfErr result (λ e. e ≡ Memory) }
    {
        if !self.is_last {
            return Ok(Some(Unexplained::Earlier));
        }
        match search_behind(alloc, self.id, self.version, bytes)? {
            Behind::Nothing => Ok(None),
            Behind::Record => Ok(Some(Unexplained::Records)),
            Behind::Unsearched => Ok(Some(Unexplained::Unsearched)),
        }
    }
}

impl Cut {
    /// Searches this number of further places of the cut bytes for a whole record of the file.
    /// Returns none if the search is to continue. `unexplained` searches all places at once.
    pub fn search(
        &self,
        alloc: Global,
        search: &mut BehindSearch,
        bytes: &[u8],
        places: usize,
    ) -> Result<Option<Behind>, Fault> {
        search.step(alloc, (self.id, self.version), bytes, places)
    }
}

impl QueueFiles {
    /// Adds what an opening in a mode cuts off the files that it keeps, if it does not fail.
    pub(crate) fn add_cuts(&self, mode: RecoveryMode, cuts: &mut Vec<Cut>) -> Result<(), AllocError>
        ensures value { OnOk result (map place_of cuts.new.items ≡ map place_of cuts.old.items
            ++ cuts_in mode (drop self.now.passed self.now.files.items)
            (drop self.now.passed self.now.checks.items)) }
    {
        let mut files = self.kept_files();
        let mut checks = self.kept_checks();
        'files: while let Some((check, checks_left)) = checks.split_first() {
            let Some((file, files_left)) = files.split_first() else {
                return Ok(());
            };
            let is_last = checks_left.is_empty();
            let is_tolerant = mode.tolerates_corruption(is_last);
            if let Some(cut) = Cut::planned(file, check, is_tolerant, is_last)? {
                cuts.push(cut)?;
            }
            files = files_left;
            checks = checks_left;
        }
        Ok(())
    }
}

/// What an opening in a mode cuts off the files of a queue; nothing if it fails. Zeros that were
/// allocated ahead hold nothing, and are not reported.
pub fn cuts_of(alloc: Global, found: &QueueFiles, mode: RecoveryMode) -> Result<Vec<Cut>, Fault>
    ensures fails { IfOk result (λ cuts. IsFailing mode found.now → map place_of cuts.items ≡ []) }
    ensures cuts { IfOk result (λ cuts. ¬ IsFailing mode found.now → map place_of cuts.items
        ≡ cuts_in mode (drop found.now.passed found.now.files.items)
        (drop found.now.passed found.now.checks.items)) }
    ensures memory { IfErr result (λ e. e ≡ Memory) }
{
    let mut cuts = Vec::new(alloc);
    if !found.fails(alloc, mode)? {
        found.add_cuts(mode, &mut cuts)?;
    }
    Ok(cuts)
}
