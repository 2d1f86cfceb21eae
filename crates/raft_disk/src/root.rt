//! A log's folder that is held open. No clause says what the system did: this file is to be read.
use crate::names::LOCK;
use crate::places::join;
use std::alloc::Global;
use std::fs::{self, File, TryLockError};
use std::io;
use std::os::fd::AsRawFd;
use std::os::unix::fs::MetadataExt;
use std::path::absolute;

/// A folder that is open, so that its files are reached after its path leads to another one.
#[derive(Drop)]
pub(crate) struct Root {
    folder: File,
    /// Its path from the root of the system, for messages.
    path: String,
    /// The path by which calls reach it.
    at: String,
}

impl Root {
    /// Opens the folder of a path. A link there is followed once, here.
    pub(crate) fn open(rt: &HostRuntime, path: &str) -> io::Result<Root> {
        let folder = File::open(rt, path)?;
        let path = absolute(rt, path)?.into_string();
        let at = path_of_open(rt, &folder, path.as_str())?;
        Ok(Root { folder, path, at })
    }

    pub(crate) fn path(&self) -> &str {
        self.path.as_str()
    }

    pub(crate) fn at(&self) -> &str {
        self.at.as_str()
    }

    /// Where calls reach the file or the folder of a path from this folder.
    pub(crate) fn place(&self, alloc: Global, path: &str) -> io::Result<String> {
        join(alloc, self.at.as_str(), path)
    }

    /// The same place by the folder's own path, for messages.
    pub(crate) fn name(&self, alloc: Global, path: &str) -> io::Result<String> {
        join(alloc, self.path.as_str(), path)
    }

    /// Locks the folder itself, if the system locks folders. False if another process has the lock.
    pub(crate) fn try_lock(&self) -> bool {
        !matches!(self.folder.try_lock(), Err(TryLockError::WouldBlock))
    }

    /// The same of a lock that looks share: false if a writer has it.
    pub(crate) fn try_lock_shared(&self) -> bool {
        !matches!(self.folder.try_lock_shared(), Err(TryLockError::WouldBlock))
    }

    /// Fails where LOCK isn't the file that is locked: another process may have the next one.
    pub(crate) fn check_lock(&self, rt: &HostRuntime, lock: &File) -> io::Result<()> {
        let place = self.place(rt.alloc(), LOCK)?;
        let held = lock.metadata()?;
        match fs::metadata(rt, place.as_str()) {
            Ok(there) if there.dev() == held.dev() && there.ino() == held.ino() => Ok(()),
            _ => Err(io::Error::other("LOCK of the folder was removed or replaced")),
        }
    }
}

// Linux has a path of each open file that leads to that file. Other systems use the folder's own.
fn path_of_open(rt: &HostRuntime, folder: &File, path: &str) -> io::Result<String> {
    let alloc = rt.alloc();
    let open = folder.metadata()?;
    let at = format!(in alloc; "/proc/self/fd/{}", folder.as_raw_fd())?;
    match fs::metadata(rt, at.as_str()) {
        Ok(there) if there.dev() == open.dev() && there.ino() == open.ino() => Ok(at),
        _ => Ok(String::from_str(alloc, path)?),
    }
}
