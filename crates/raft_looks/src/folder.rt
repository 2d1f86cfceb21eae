//! A folder that is looked at: its log files, one by one or all in memory.

use crate::faults::told;
use crate::reserved::is_reserved;
use crate::source::{FileSource, is_missing};
use anyhow::{Result, bail};
use raft_command_line::Options;
use raft_config::RecoveryMode;
use raft_console::Progress;
use raft_disk::{FolderView, SpanNote, image_of};
use raft_dump::{FileCheck, LogFile, check_file, check_parts, log_file};
use raft_env::FileSystem;
use raft_files::FileNameExt;
use raft_inspect::{Cut, QueueFiles, cuts_of};
use raft_memory::MemoryFileSystem;
use raft_records::{Fault, LogQueue};
use std::alloc::{AllocError, Global};

/// How many bytes of a long file are read at a time.
const PART_LEN: usize = 64 * 1024 * 1024;

/// How many bytes the name of a log file has.
const NAME_LEN: usize = 24;

/// A look at a folder, which can't change it, and the names of its files.
pub struct Folder {
    pub(crate) rt: HostRuntime,
    pub(crate) alloc: Global,
    pub(crate) path: String,
    pub(crate) view: FolderView,
    /// Whether this program itself has the log open, for a change.
    is_own: bool,
    /// The second folder, if the options name one.
    pub(crate) spill: Option<String>,
    /// The note of the numbers that the log's files have had.
    pub(crate) note: Option<SpanNote>,
    pub files: Vec<LogFile>,
    /// The files that are kept to be used as next log files, and hold no record.
    pub reserved: Vec<ReservedFile>,
    /// The names of files that are no log's.
    pub others: Vec<String>,
}

// One call in a proof that drops it; derived, it would be one of each field (docs/DECISIONS.md).
impl Drop for Folder {
    fn drop(self) {
        let Folder {
            rt: _,
            alloc: _,
            path: _path,
            view: _view,
            is_own: _,
            spill: _spill,
            note: _note,
            files: _files,
            reserved: _reserved,
            others: _others,
        } = self;
    }
}

/// A reserved file's path, and how many bytes it has.
pub struct ReservedFile {
    pub path: String,
    pub len: u64,
}

// One call in a proof that drops it; derived, it would be one of each field (docs/DECISIONS.md).
impl Drop for ReservedFile {
    fn drop(self) {
        let ReservedFile {
            path: _path,
            len: _,
        } = self;
    }
}

impl Folder {
    /// It fails if the folder does not exist.
    pub fn open(rt: HostRuntime, path: &str, options: &Options<'_>) -> Result<Folder> {
        let alloc = rt.alloc();
        let view = match FolderView::open(rt, path) {
            Ok(view) => view,
            Err(fault) => return Err(told(&rt, &fault)),
        };
        let mut folder = Folder {
            rt,
            alloc,
            path: String::from_str(alloc, path)?,
            view,
            is_own: false,
            spill: None,
            note: None,
            files: Vec::new(alloc),
            reserved: Vec::new(alloc),
            others: Vec::new(alloc),
        };
        folder.add_all(options.spill)?;
        Ok(folder)
    }

    /// The same of a log that this program has open for a change: no other program writes to it.
    pub fn open_own(rt: HostRuntime, path: &str, options: &Options<'_>) -> Result<Folder> {
        let mut folder = Folder::open(rt, path, options)?;
        folder.is_own = true;
        Ok(folder)
    }

    fn add_all(&mut self, spill: Option<&str>) -> Result<()> {
        let note = self.note_now()?;
        self.add("")?;
        if let Some(spill) = spill {
            self.add_second(spill)?;
            self.spill = Some(String::from_str(self.alloc, spill)?);
        }
        self.read_note(note)
    }

    fn add(&mut self, folder: &str) -> Result<()> {
        match self.view.names(folder) {
            Ok(names) => self.add_names(folder, names),
            Err(fault) => Err(told(&self.rt, &fault)),
        }
    }

    // An opening makes it where it isn't there.
    fn add_second(&mut self, folder: &str) -> Result<()> {
        match self.view.names(folder) {
            Ok(names) => self.add_names(folder, names),
            Err(fault) if is_missing(&fault) => Ok(()),
            Err(fault) => Err(told(&self.rt, &fault)),
        }
    }

    /// Whether another writer has the folder open, so that the files may change meanwhile.
    pub fn is_in_use(&self) -> bool {
        !self.is_own && self.view.is_in_use()
    }

    fn add_names(&mut self, folder: &str, names: Vec<String>) -> Result<()> {
        for name in names {
            self.add_name(folder, name)?;
        }
        Ok(())
    }

    fn add_name(&mut self, folder: &str, name: String) -> Result<()> {
        if or_bail(is_reserved(self.alloc, name.as_str()))? {
            return self.add_reserved(folder, name.as_str());
        }
        match or_bail(log_file_named(self.alloc, folder, name.as_str()))? {
            Some(file) => Ok(self.files.push(file)?),
            None => Ok(self.others.push(name)?),
        }
    }

    // A writer may use it meanwhile.
    fn add_reserved(&mut self, folder: &str, name: &str) -> Result<()> {
        let path = if folder.is_empty() {
            String::from_str(self.alloc, name)?
        } else {
            format!(in self.alloc; "{folder}/{name}")?
        };
        match self.view.size(path.as_str()) {
            Ok(len) => Ok(self.reserved.push(ReservedFile { path, len })?),
            Err(fault) if is_missing(&fault) => Ok(()),
            Err(fault) => Err(told(&self.rt, &fault)),
        }
    }

    // The bytes of a file; none where it is there no more. A long one is read part by part.
    fn read(&self, path: &str, progress: &mut Progress) -> Result<Option<Vec<u8>>> {
        let read = match self.view.size(path) {
            Ok(size) if size > PART_LEN as u64 => return self.read_long(path, size, progress),
            Ok(_) => self.view.read(path),
            Err(fault) => Err(fault),
        };
        match read {
            Ok(bytes) => Ok(Some(bytes)),
            Err(fault) if is_missing(&fault) => Ok(None),
            Err(fault) => Err(told(&self.rt, &fault)),
        }
    }

    fn read_long(&self, path: &str, size: u64, progress: &mut Progress) -> Result<Option<Vec<u8>>> {
        let mut bytes = Vec::with_capacity(self.alloc, usize::try_from(size)?)?;
        for _ in 0..u64::MAX {
            progress.within(path, bytes.len() as u64, size)?;
            let part = match self.view.read_part(path, bytes.len() as u64, PART_LEN) {
                Ok(part) => part,
                Err(fault) if is_missing(&fault) => return Ok(None),
                Err(fault) => return Err(told(&self.rt, &fault)),
            };
            if part.is_empty() {
                break;
            }
            bytes.extend_from_slice(&part)?;
        }
        Ok(Some(bytes))
    }

    fn folders(&self) -> Result<Vec<String>, AllocError> {
        let mut folders = Vec::new(self.alloc);
        if let Some(spill) = &self.spill {
            folders.push(spill.clone()?)?;
        }
        Ok(folders)
    }

    fn files_in_memory(&self, files: Vec<(String, Vec<u8>)>) -> Result<MemoryFileSystem> {
        match image_of(self.alloc, files, self.folders()?) {
            Ok(image) => Ok(image),
            Err(fault) => Err(told(&self.rt, &fault)),
        }
    }

    /// All log files in memory; none if one is gone meanwhile.
    pub fn image(&self, progress: &mut Progress) -> Result<Option<MemoryFileSystem>> {
        let mut files = Vec::new(self.alloc);
        for (place, file) in self.files.iter().enumerate() {
            progress.at("files read", place as u64, self.files.len() as u64)?;
            match self.read(file.path.as_str(), progress)? {
                Some(bytes) => files.push((file.path.clone()?, bytes))?,
                None => return Ok(None),
            }
        }
        Ok(Some(self.files_in_memory(files)?))
    }

    /// All log files in memory, from both folders; none if one is gone meanwhile. It fails if both
    /// folders have a file of one number.
    pub fn image_in_one_folder(&self, progress: &mut Progress) -> Result<Option<MemoryFileSystem>> {
        let mut files = Vec::new(self.alloc);
        for queue in &[LogQueue::Rewrite, LogQueue::Append] {
            let of_queue = self.files_of(*queue)?;
            check_single(&of_queue)?;
            for file in &of_queue {
                progress.at("files read", files.len() as u64, self.files.len() as u64)?;
                match self.named_bytes(file, progress)? {
                    Some(named) => files.push(named)?,
                    None => return Ok(None),
                }
            }
        }
        match image_of(self.alloc, files, Vec::new(self.alloc)) {
            Ok(image) => Ok(Some(image)),
            Err(fault) => Err(told(&self.rt, &fault)),
        }
    }

    // The bytes of a file, and its name in its folder; none if it is gone meanwhile.
    fn named_bytes(
        &self,
        file: &LogFile,
        progress: &mut Progress,
    ) -> Result<Option<(String, Vec<u8>)>> {
        match self.read(file.path.as_str(), progress)? {
            Some(bytes) => Ok(Some((file.id.build_file_name(self.alloc)?, bytes))),
            None => Ok(None),
        }
    }

    /// A file that is no log's whose name is a log file's and more, as of a copy of one.
    pub fn copy_named(&self, name: &str) -> Result<Option<LogFile>, Fault> {
        let Some((own, _)) = name.split_at_checked(NAME_LEN) else {
            return Ok(None);
        };
        if !self.has_other(name) {
            return Ok(None);
        }
        match log_file_named(self.alloc, "", own)? {
            Some(file) => Ok(Some(LogFile {
                id: file.id,
                path: String::from_str(self.alloc, name)?,
            })),
            None => Ok(None),
        }
    }

    /// Whether a file of this name that is no log file is in the folder.
    pub(crate) fn has_other(&self, name: &str) -> bool {
        for other in &self.others {
            if other.as_str() == name {
                return true;
            }
        }
        false
    }

    /// The log files of a queue, by number.
    pub fn files_of(&self, queue: LogQueue) -> Result<Vec<LogFile>, AllocError> {
        let mut files = Vec::new(self.alloc);
        for file in &self.files {
            if file.id.queue == queue {
                let path = file.path.clone()?;
                files.push(LogFile { id: file.id, path })?;
            }
        }
        QueueFiles::sort(&mut files)?;
        Ok(files)
    }

    /// The log files of a queue, and how much of each can be read; none if one is gone meanwhile.
    /// One part of one is in memory at a time.
    pub fn inspect(&self, queue: LogQueue, progress: &mut Progress) -> Result<Option<QueueFiles>> {
        let files = self.files_of(queue)?;
        match self.checks_of(&files, progress)? {
            Some(checks) => Ok(Some(QueueFiles::new(queue, files, checks))),
            None => Ok(None),
        }
    }

    fn checks_of(
        &self,
        files: &[LogFile],
        progress: &mut Progress,
    ) -> Result<Option<Vec<FileCheck>>> {
        let mut checks = Vec::new(self.alloc);
        for file in files {
            match self.check(file, progress)? {
                Some(check) => checks.push(check)?,
                None => return Ok(None),
            }
        }
        Ok(Some(checks))
    }

    fn check(&self, file: &LogFile, progress: &mut Progress) -> Result<Option<FileCheck>> {
        match self.source_of(file, progress)? {
            Some(mut source) => check_source(self.alloc, file, &mut source),
            None => Ok(None),
        }
    }

    /// A file whose bytes are read part by part; none if it is gone meanwhile.
    pub fn source_of<'a>(
        &'a self,
        file: &'a LogFile,
        progress: &'a mut Progress,
    ) -> Result<Option<FileSource<'a>>> {
        FileSource::open(self.rt, &self.view, file.path.as_str(), progress)
    }

    /// What an opening in a mode cuts off the files of a queue; it reads only those that it may
    /// cut.
    pub fn cuts<F: FileSystem>(
        &self,
        image: &mut F,
        queue: LogQueue,
        mode: RecoveryMode,
    ) -> Result<Vec<Cut>> {
        let files = self.files_that_may_be_cut(queue, mode)?;
        match cuts_in(self.alloc, image, queue, files, mode) {
            Ok(cuts) => Ok(cuts),
            Err(fault) => bail!("{fault}"),
        }
    }

    fn files_that_may_be_cut(
        &self,
        queue: LogQueue,
        mode: RecoveryMode,
    ) -> Result<Vec<LogFile>, AllocError> {
        let mut files = self.files_of(queue)?;
        match mode {
            RecoveryMode::AbsoluteConsistency => Ok(Vec::new(self.alloc)),
            RecoveryMode::TolerateTailCorruption => match files.pop() {
                Some(last) => Ok(vec![in self.alloc; last]?),
                None => Ok(files),
            },
            RecoveryMode::TolerateAnyCorruption => Ok(files),
        }
    }
}

// The files are in the order of their numbers.
fn check_single(files: &[LogFile]) -> Result<()> {
    let mut before = None;
    for file in files {
        if before == Some(file.id.seq) {
            bail!("{}: the other folder has this file too", file.path);
        }
        before = Some(file.id.seq);
    }
    Ok(())
}

// The log file of either queue with this name in a folder.
fn log_file_named(alloc: Global, folder: &str, name: &str) -> Result<Option<LogFile>, Fault> {
    for queue in &[LogQueue::Rewrite, LogQueue::Append] {
        if let Some(file) = log_file(alloc, folder, name, *queue)? {
            return Ok(Some(file));
        }
    }
    Ok(None)
}

fn or_bail<T>(called: Result<T, Fault>) -> Result<T> {
    match called {
        Ok(value) => Ok(value),
        Err(fault) => bail!("{fault}"),
    }
}

fn check_source(
    alloc: Global,
    file: &LogFile,
    source: &mut FileSource<'_>,
) -> Result<Option<FileCheck>> {
    let size = source.size()?;
    match check_parts(alloc, file, size, source) {
        Ok(check) => Ok(Some(check)),
        Err(_) if source.has_changed() => Ok(None),
        Err(fault) => Err(source.failure(&fault)),
    }
}

fn cuts_in<F: FileSystem>(
    alloc: Global,
    image: &mut F,
    queue: LogQueue,
    files: Vec<LogFile>,
    mode: RecoveryMode,
) -> Result<Vec<Cut>, Fault> {
    let mut checks = Vec::new(alloc);
    for file in &files {
        checks.push(check_file(alloc, file, image)?)?;
    }
    cuts_of(alloc, &QueueFiles::new(queue, files, checks), mode)
}
