//! A log file of the folder, whose bytes are read part by part.
ghost use Rattle.std.specs.Prelude.{◌≡◌, ◌∷◌, IfErr, IfOk, OnErr};

use crate::faults::told;
use anyhow::{Error, Result, anyhow};
use raft_base::History;
use raft_console::Progress;
use raft_disk::{FolderView, OpenFault};
use raft_dump::{FilePart, PartSource};
use raft_env::{FsFault, IoKind};
use raft_records::Fault;
use std::io::ErrorKind;

/// A file of a folder under a look, and the parts that were read, only for clauses.
pub struct FileSource<'a> {
    rt: HostRuntime,
    view: &'a FolderView,
    path: &'a str,
    size: u64,
    progress: &'a mut Progress,
    given: History<FilePart>,
    /// The system's text when it refused a read.
    refused: Option<OpenFault>,
    /// Whether a read found fewer bytes than the file had.
    is_cut: bool,
}

// One call in a proof that drops it; derived, it would be one of each field (docs/DECISIONS.md).
impl Drop for FileSource<'_> {
    fn drop(self) {
        let FileSource {
            rt: _,
            view: _,
            path: _,
            size: _,
            progress: _,
            given: _given,
            refused: _refused,
            is_cut: _,
        } = self;
    }
}

impl<'a> FileSource<'a> {
    /// The file at a path from the folder on, which reports its progress; none if it is gone
    /// meanwhile.
    pub fn open(
        rt: HostRuntime,
        view: &'a FolderView,
        path: &'a str,
        progress: &'a mut Progress,
    ) -> Result<Option<FileSource<'a>>> {
        let size = match view.size(path) {
            Ok(size) => size,
            Err(fault) if is_missing(&fault) => return Ok(None),
            Err(fault) => return Err(told(&rt, &fault)),
        };
        Ok(Some(FileSource {
            rt,
            view,
            path,
            size,
            progress,
            given: History::new(),
            refused: None,
            is_cut: false,
        }))
    }

    /// How many bytes the file has.
    pub fn size(&self) -> Result<usize> {
        Ok(usize::try_from(self.size)?)
    }

    /// Whether a read was refused since the file no longer exists.
    pub fn is_gone(&self) -> bool {
        self.refused.as_ref().is_some_and(is_missing)
    }

    /// The same, or whether a writer cut off the room that was made ahead in the file.
    pub fn has_changed(&self) -> bool {
        self.is_cut || self.is_gone()
    }

    // Whether so many bytes from a place on are fewer than the file had there.
    fn is_short(&self, at: usize, len: usize, found: usize) -> bool {
        let rest = self.size.saturating_sub(at as u64);
        (found as u64) < rest.min(len as u64)
    }

    /// Why a reading of parts failed: what the system said, if it refused a read.
    pub fn failure(&self, fault: &Fault) -> Error {
        match &self.refused {
            Some(refused) => told(&self.rt, refused),
            None if self.is_cut => {
                anyhow!("a writer cut it while it was read: try again").context(self.path)
            }
            None => anyhow!("{fault}"),
        }
    }
}

impl PartSource for FileSource<'_> {
    ghost given = { λ s. s.given.items };

    fn read_part(&mut self, at: usize, len: usize) -> Result<FilePart, Fault> {
        // What can't be told hinders no reading.
        let _ = self.progress.within(self.path, at as u64, self.size);
        match self.view.read_part(self.path, at as u64, len) {
            Ok(bytes) => {
                self.is_cut = self.is_cut || self.is_short(at, len, bytes.len());
                let part = FilePart { at, len, bytes };
                self.given = self.given.with(&part);
                Ok(part)
            }
            Err(fault) => {
                self.refused = Some(fault);
                Err(FsFault::Io(IoKind::Other).with_path(self.rt.alloc(), self.path))
            }
        }
    }
}

/// Whether there is no such file.
pub(crate) fn is_missing(fault: &OpenFault) -> bool {
    match fault {
        OpenFault::Io(_, e) => e.kind() == ErrorKind::NotFound,
        _ => false,
    }
}
