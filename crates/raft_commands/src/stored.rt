//! The files in a log's folders: log files, and those kept for reuse.

use raft_command_line::Options;
use raft_dump::log_files;
use raft_env::{FileSystem, FsFault, Permission};
use raft_looks::is_reserved;
use raft_records::Fault;
use std::alloc::Global;

/// How many files, and how many bytes they have.
#[derive(Clone, Copy)]
pub(crate) struct Total {
    pub files: u64,
    pub bytes: u64,
}

impl Total {
    /// Of no files.
    pub fn new() -> Total {
        Total { files: 0, bytes: 0 }
    }

    pub fn add(&mut self, len: u64) {
        self.files = self.files.saturating_add(1);
        self.bytes = self.bytes.saturating_add(len);
    }
}

/// The existing log files, each with its path and its length, and the reserved ones.
pub(crate) struct Stored {
    log: Vec<(String, u64)>,
    pub reserved: Total,
}

// One call in a proof that drops it; derived, it would be one of each field (docs/DECISIONS.md).
impl Drop for Stored {
    fn drop(self) {
        let Stored {
            log: _log,
            reserved: _,
        } = self;
    }
}

impl Stored {
    /// Those in the folders of the options.
    pub fn find<F: FileSystem>(
        alloc: Global,
        files: &mut F,
        options: &Options<'_>,
    ) -> Result<Stored, Fault> {
        let mut stored = Stored {
            log: Vec::new(alloc),
            reserved: Total::new(),
        };
        for folder in options.folders(alloc)? {
            stored.add_folder(alloc, files, folder)?;
        }
        Ok(stored)
    }

    fn add_folder<F: FileSystem>(
        &mut self,
        alloc: Global,
        files: &mut F,
        folder: &str,
    ) -> Result<(), Fault> {
        // An opening makes it if it is missing.
        if !files.is_dir(folder) {
            return Ok(());
        }
        let names = match files.list(folder) {
            Ok(names) => names,
            Err(fault) => return Err(fault.with_path(alloc, folder)),
        };
        for file in log_files(alloc, folder, &names)? {
            let len = len_of(alloc, files, file.path.as_str())?;
            self.log.push((file.path, len))?;
        }
        for name in &names {
            if is_reserved(alloc, name.as_str())? {
                let path = path_in(alloc, folder, name.as_str())?;
                self.reserved.add(len_of(alloc, files, path.as_str())?);
            }
        }
        Ok(())
    }

    /// How many log files the Append queue has.
    pub fn append_files(&self) -> usize {
        let (append, _) = self.by_queue();
        append.files as usize
    }

    /// The files of the Append queue, and those of the Rewrite queue.
    pub fn by_queue(&self) -> (Total, Total) {
        let mut append = Total::new();
        let mut rewrite = Total::new();
        for (path, len) in &self.log {
            if is_append(path.as_str()) {
                append.add(*len);
            } else {
                rewrite.add(*len);
            }
        }
        (append, rewrite)
    }

    /// The length of the longest log file.
    pub fn longest(&self) -> u64 {
        let mut longest = 0;
        for (_, len) in &self.log {
            longest = longest.max(*len);
        }
        longest
    }

    /// Those of the log files that no longer exist.
    pub fn gone<F: FileSystem>(&self, files: &F) -> Total {
        let mut gone = Total::new();
        for (path, len) in &self.log {
            if !files.is_file(path.as_str()) {
                gone.add(*len);
            }
        }
        gone
    }
}

// Whether a log file's path is of the Append queue.
fn is_append(path: &str) -> bool {
    path.ends_with(".raftlog")
}

fn path_in(alloc: Global, folder: &str, name: &str) -> Result<String, Fault> {
    if folder.is_empty() {
        return Ok(String::from_str(alloc, name)?);
    }
    Ok(format!(in alloc; "{folder}/{name}")?)
}

fn len_of<F: FileSystem>(alloc: Global, files: &mut F, path: &str) -> Result<u64, Fault> {
    match file_len(files, path) {
        Ok(len) => Ok(len as u64),
        Err(fault) => Err(fault.with_path(alloc, path)),
    }
}

fn file_len<F: FileSystem>(files: &mut F, path: &str) -> Result<usize, FsFault> {
    let handle = files.open(path, Permission::ReadOnly)?;
    files.file_size(&handle)
}
