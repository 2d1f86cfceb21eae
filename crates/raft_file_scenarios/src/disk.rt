//! The trait of a folder of the operating system, so that tests are written over any files.

use raft_config::Config;
use raft_disk::{DiskCounts, DiskFileSystem, OpenFault};
use raft_inspect::FolderLosses;
use raft_records::{Fault, Fresh};
use std::alloc::Global;

/// The files that an opening reads.
#[derive(Clone, Copy)]
pub(crate) enum Reading {
    /// A look, which is no opening.
    Look,
    All,
    /// All files. It fails if some are missing, or if there are too many.
    Whole,
    /// Those of the folder and of this second one.
    Two(&'static str),
    /// Those of both, without reserved files.
    NoReserved(&'static str),
}

/// A folder of the operating system. `FileSystem` isn't a supertrait: each use names it as a
/// second bound.
pub(crate) trait Disk {
    fn open_folder(rt: HostRuntime, folder: &str, reading: Reading) -> Result<Self, OpenFault>;

    /// Makes the files that are in the folder the expected ones.
    fn forget(rt: HostRuntime, folder: &str) -> Result<(), OpenFault>;

    /// Deletes the reserved files that the opening didn't read.
    fn delete_unread(&self) -> Result<(), OpenFault>;

    fn call_counts(&self) -> DiskCounts;

    /// What an opening loses by the default settings.
    fn losses(&mut self, alloc: Global) -> Result<FolderLosses, Fault>;

    /// The text of the last call that the system refused.
    fn last_refusal(&self) -> Option<&str>;
}

impl Disk for DiskFileSystem {
    fn open_folder(
        rt: HostRuntime,
        folder: &str,
        reading: Reading,
    ) -> Result<DiskFileSystem, OpenFault> {
        match reading {
            Reading::Look | Reading::All => DiskFileSystem::open(rt, folder),
            Reading::Whole => DiskFileSystem::open_whole(rt, folder, None),
            Reading::Two(second) => DiskFileSystem::open_with(rt, folder, Some(second)),
            Reading::NoReserved(second) => {
                DiskFileSystem::open_without_reserved(rt, folder, Some(second))
            }
        }
    }

    fn forget(rt: HostRuntime, folder: &str) -> Result<(), OpenFault> {
        DiskFileSystem::forget_spans(rt, folder)
    }

    fn call_counts(&self) -> DiskCounts {
        self.counts()
    }

    fn losses(&mut self, alloc: Global) -> Result<FolderLosses, Fault> {
        FolderLosses::find(alloc, &Config::fresh(alloc), self)
    }

    fn delete_unread(&self) -> Result<(), OpenFault> {
        self.delete_reserved()
    }

    fn last_refusal(&self) -> Option<&str> {
        self.refusal()
    }
}
