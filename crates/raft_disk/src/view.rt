//! A look at a folder of the operating system: nothing here changes it.
ghost use Rattle.std.specs.Prelude.{◌≡◌, ◌∷◌, [], IfOk};
ghost use Rattle.raft_env.specs.Refusal.{no_refusals};
ghost use Rattle.raft_memory.specs.Memory.{memory_directory, memory_moments, memory_refusals};
ghost use Rattle.raft_memory.specs.Settled.{settled_files};

use crate::names::{LOCK, is_log_name};
use crate::opening::{OpenFault, check_lock, check_mark, check_place};
use crate::root::Root;
use crate::span_file::read_note;
use crate::spans::{SPANS, SpanNote, is_note, latest};
use raft_memory::MemoryFileSystem;
use std::alloc::Global;
use std::fs::{self, DirEntry, File, TryLockError};
use std::io::{self, ErrorKind, Read, Seek, SeekFrom};
use std::os::unix::fs::MetadataExt;

/// A folder whose files can be read. It has no call that changes one, makes a name or waits for a
/// lock. While it lasts, no process can begin to write to the folder.
#[derive(Drop)]
pub struct FolderView {
    rt: HostRuntime,
    root: Root,
    /// The lock's file, whose lock is shared with other looks; none if it is missing.
    lock: Option<File>,
    in_use: bool,
}

impl FolderView {
    /// A look at a folder. It fails if the folder does not exist, and if a fork into it has not
    /// ended.
    pub fn open(rt: HostRuntime, path: &str) -> Result<FolderView, OpenFault> {
        let alloc = rt.alloc();
        check_place(&rt, path)?;
        let root = match Root::open(&rt, path) {
            Ok(root) => root,
            Err(e) => return Err(OpenFault::at(alloc, path, e)),
        };
        check_mark(&rt, &root)?;
        check_lock(&rt, &root)?;
        let lock = match open_lock(&rt, &root) {
            Ok(lock) => lock,
            Err(e) => return Err(OpenFault::Lock(String::from_str(alloc, root.path())?, e)),
        };
        let is_held = match &lock {
            Some(file) => is_held(file),
            None => false,
        };
        let in_use = !root.try_lock_shared() || is_held;
        Ok(FolderView {
            rt,
            root,
            lock,
            in_use,
        })
    }

    /// Whether a writer has the folder open, so that the files may change meanwhile.
    pub fn is_in_use(&self) -> bool {
        self.in_use
    }

    /// The names of the files in a folder, by its path from here, in the order of their bytes,
    /// except the lock's, the note's and those that are not UTF-8. Links count as their targets.
    pub fn names(&self, folder: &str) -> Result<Vec<String>, OpenFault> {
        let place = self.place(folder)?;
        let entries = match fs::read_dir(&self.rt, place.as_str()) {
            Ok(entries) => entries,
            Err(e) => return Err(self.fault(folder, e)),
        };
        let mut names = Vec::new(self.rt.alloc());
        for entry in entries {
            match entry {
                Ok(entry) => self.add_name(folder, &entry, &mut names)?,
                // A name that is no UTF-8 is no log file's.
                Err(e) if e.kind() == ErrorKind::InvalidFilename => {}
                Err(e) => return Err(self.fault(folder, e)),
            }
        }
        names.sort()?;
        Ok(names)
    }

    fn add_name(
        &self,
        folder: &str,
        entry: &DirEntry,
        names: &mut Vec<String>,
    ) -> Result<(), OpenFault> {
        let alloc = self.rt.alloc();
        let place = entry.path();
        if entry.file_name() == LOCK || entry.file_name() == SPANS {
            return Ok(());
        }
        match fs::metadata(&self.rt, place.as_str()) {
            Ok(metadata) if metadata.is_file() => {
                Ok(names.push(String::from_str(alloc, entry.file_name())?)?)
            }
            Ok(_) => Ok(()),
            // A writer deleted it, or a link leads nowhere.
            Err(e) if e.kind() == ErrorKind::NotFound => Ok(()),
            Err(_) if !is_log_name(entry.file_name()) => Ok(()),
            Err(e) => Err(self.fault(folder, e)),
        }
    }

    /// The bytes of the file at a path from here.
    pub fn read(&self, path: &str) -> Result<Vec<u8>, OpenFault> {
        let place = self.place(path)?;
        match read_file(&self.rt, place.as_str()) {
            Ok(bytes) => Ok(bytes),
            Err(e) => Err(self.fault(path, e)),
        }
    }

    /// So many bytes of the file at a path from here, from a place on; fewer if it ends before.
    pub fn read_part(&self, path: &str, at: u64, len: usize) -> Result<Vec<u8>, OpenFault> {
        let place = self.place(path)?;
        match read_part(&self.rt, place.as_str(), at, len) {
            Ok(bytes) => Ok(bytes),
            Err(e) => Err(self.fault(path, e)),
        }
    }

    /// How many bytes the file at a path from here has.
    pub fn size(&self, path: &str) -> Result<u64, OpenFault> {
        let place = self.place(path)?;
        match fs::metadata(&self.rt, place.as_str()) {
            Ok(metadata) => Ok(metadata.len()),
            Err(e) => Err(self.fault(path, e)),
        }
    }

    /// The note of which numbers the log's files have had; none if there is none, or if both its
    /// slots are broken. While a writer has the folder, read it before and after the names.
    pub fn spans(&self) -> Result<Option<SpanNote>, OpenFault> {
        let place = self.place(SPANS)?;
        match find_note(&self.rt, place.as_str()) {
            Ok(note) => Ok(note),
            Err(e) => Err(self.fault(SPANS, e)),
        }
    }

    fn place(&self, path: &str) -> Result<String, OpenFault> {
        match self.root.place(self.rt.alloc(), path) {
            Ok(place) => Ok(place),
            Err(_) => Err(OpenFault::Memory),
        }
    }

    fn fault(&self, path: &str, error: io::Error) -> OpenFault {
        match self.root.name(self.rt.alloc(), path) {
            Ok(name) => OpenFault::Io(name, error),
            Err(_) => OpenFault::Memory,
        }
    }
}

fn open_lock(rt: &HostRuntime, root: &Root) -> io::Result<Option<File>> {
    let place = root.place(rt.alloc(), LOCK)?;
    match File::open(rt, place.as_str()) {
        Ok(file) => Ok(Some(file)),
        Err(e) if e.kind() == ErrorKind::NotFound => Ok(None),
        Err(e) => Err(e),
    }
}

fn find_note(rt: &HostRuntime, place: &str) -> io::Result<Option<SpanNote>> {
    match fs::symlink_metadata(rt, place) {
        Ok(metadata) if metadata.is_file() && metadata.nlink() == 1 => {}
        Ok(_) => return Ok(None),
        Err(e) if e.kind() == ErrorKind::NotFound => return Ok(None),
        Err(e) => return Err(e),
    }
    let bytes = read_note(rt.alloc(), &File::open(rt, place)?)?;
    if !is_note(&bytes) {
        return Ok(None);
    }
    Ok(latest(rt.alloc(), &bytes)?.map(|(_, note)| note))
}

// Takes the lock with others that look, if it can. A system without locks reports no writer.
fn is_held(lock: &File) -> bool {
    matches!(lock.try_lock_shared(), Err(TryLockError::WouldBlock))
}

// Room for one byte more than the file has lets the reading end without making more.
fn read_file(rt: &HostRuntime, place: &str) -> io::Result<Vec<u8>> {
    let mut file = File::open(rt, place)?;
    let size = file.metadata()?.len();
    let room = usize::try_from(size)
        .unwrap_or(usize::MAX)
        .saturating_add(1);
    let mut bytes = Vec::with_capacity(rt.alloc(), room)?;
    file.read_to_end(&mut bytes)?;
    Ok(bytes)
}

fn read_part(rt: &HostRuntime, place: &str, at: u64, len: usize) -> io::Result<Vec<u8>> {
    let mut file = File::open(rt, place)?;
    file.seek(SeekFrom::Start(at))?;
    let mut bytes = Vec::with_capacity(rt.alloc(), len.saturating_add(1))?;
    file.take(len as u64).read_to_end(&mut bytes)?;
    Ok(bytes)
}

/// Files in memory that are those which were read, each at its path, and these folders.
pub fn image_of(
    alloc: Global,
    files: Vec<(String, Vec<u8>)>,
    folders: Vec<String>,
) -> Result<MemoryFileSystem, OpenFault>
    ensures value { IfOk result (λ m. memory_directory m
        ≡ settled_files files.items folders.items) }
    ensures any_moment { IfOk result (λ m. memory_moments m ≡ memory_directory m ∷ []) }
    ensures counts { IfOk result (λ m. memory_refusals m ≡ no_refusals) }
{
    Ok(MemoryFileSystem::settled(alloc, files, folders)?)
}
