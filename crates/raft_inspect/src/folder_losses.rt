//! What an opening of a folder on a disk would lose, and which of its files are lost already.
ghost use Rattle.std.specs.Prelude.{IfErr, IfOk};
ghost use Rattle.raft_env.specs.Moments.{OnlyReads};
ghost use Rattle.raft_disk.specs.Mirror.{mirror_directory, mirror_moments, mirror_refusals};
ghost use Rattle.raft_inspect.specs.Checks.{IsReadFault};
ghost use Rattle.raft_inspect.specs.Losses.{AreLossesOf};

use crate::losses::Losses;
use raft_config::Config;
use raft_disk::{DiskFileSystem, SpanReports};
use raft_records::Fault;
use std::alloc::Global;

/// What an opening loses of the log in a folder, and what the folder's note reports.
#[derive(Drop)]
pub struct FolderLosses {
    pub losses: Losses,
    /// Files that are missing or too many, by the note `SPANS` when the folder was opened; none
    /// without a note.
    pub noted: Option<SpanReports>,
}

impl FolderLosses {
    /// Finds the losses of an opening as `Losses::find` does, and what the note reports. An opening
    /// of the log does not fail for the note; `DiskFileSystem::check_whole` does.
    pub fn find(
        alloc: Global,
        config: &Config,
        files: &mut DiskFileSystem,
    ) -> Result<FolderLosses, Fault>
        ensures value { IfOk result (λ found.
            AreLossesOf config.now (mirror_directory files.old) found.losses) }
        ensures unchanged { OnlyReads mirror_directory mirror_moments mirror_refusals
            files.old files.new }
        ensures cause { IfErr result (IsReadFault (mirror_refusals files.old)
            (mirror_refusals files.new)) }
    {
        let losses = Losses::find(alloc, config, files)?;
        let noted = match files.span_reports() {
            Some(reports) => Some(reports.copied(alloc)?),
            None => None,
        };
        Ok(FolderLosses { losses, noted })
    }
}
