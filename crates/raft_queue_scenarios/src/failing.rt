//! The trait of files in memory, so that tests are written over any files. A function that calls
//! files in memory by name takes long to prove.

use raft_env::{FileSystem, IoKind};
use raft_memory::{Choice, FsCall, MemoryFileSystem};
use raft_records::Fault;
use std::alloc::{AllocError, Global};

/// Files whose calls fail, and that crash, on request.
pub(crate) trait Failing: FileSystem + Drop {
    fn fresh(alloc: Global) -> Self;

    /// From now on the nth call of this sort fails.
    fn fail(&mut self, call: FsCall, nth: u64, kind: IoKind) -> Result<(), Fault>;

    /// The files that a crash leaves by these choices.
    fn crashed(&self, choices: &[Choice]) -> Result<Self, Fault>;

    /// Sets a folder's free space in bytes.
    fn free_to(&mut self, folder: &str, bytes: u64) -> Result<(), AllocError>;

    /// Gives metadata to a path.
    fn note(&mut self, path: &str) -> Result<(), AllocError>;
}

impl Failing for MemoryFileSystem {
    fn fresh(alloc: Global) -> MemoryFileSystem {
        MemoryFileSystem::new(alloc)
    }

    fn fail(&mut self, call: FsCall, nth: u64, kind: IoKind) -> Result<(), Fault> {
        self.refuse(call, nth, kind)
    }

    fn crashed(&self, choices: &[Choice]) -> Result<MemoryFileSystem, Fault> {
        self.crash(choices)
    }

    fn free_to(&mut self, folder: &str, bytes: u64) -> Result<(), AllocError> {
        self.set_free(folder, bytes)
    }

    fn note(&mut self, path: &str) -> Result<(), AllocError> {
        self.set_metadata(path)
    }
}
