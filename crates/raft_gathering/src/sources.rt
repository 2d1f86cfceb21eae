//! The files that are read: log files, what a repair cut off them or moved aside, and files that
//! are named.

use anyhow::{Result, anyhow, bail};
use raft_command_line::Options;
use raft_console::note_made;
use raft_disk::{FolderView, OpenFault};
use raft_dump::log_file;
use raft_looks::told;
use raft_records::{FileId, LogQueue};
use std::alloc::Global;
use std::fs;
use std::io::ErrorKind;

/// The number of bytes from which on the use of memory is announced.
const MUCH: u64 = 64 * 1024 * 1024;

/// How many bytes the name of a log file has.
const NAME_LEN: usize = 24;

/// How a repair ends the names of files that an opening passes over, and of those among them that
/// a purge had dropped.
const PASSED: &str = ".passed";

const LEFT_OVER: &str = ".left-over";

/// The end of a file's name, after a log file's name.
#[derive(Clone, Copy, PartialEq, Eq)]
pub enum Part {
    /// Nothing: it is the log file.
    Log,
    /// It was moved aside whole, or is a copy.
    Whole,
    /// It has the bytes that a repair cut off from this place on.
    Cut(u64),
}

/// Which names, after that of a log file, files have that are read.
#[derive(Clone, Copy, PartialEq, Eq)]
enum Wanted {
    /// What a repair cut off, or passed over.
    Usual,
    /// Also what a purge had dropped.
    Stale,
    /// Each.
    Named,
}

/// A file that is read.
pub struct Source {
    pub id: FileId,
    pub part: Part,
    /// Its name, as it is printed.
    pub name: String,
    /// Its path.
    pub path: String,
}

// One call in a proof that drops it; derived, it would be one of each field (docs/DECISIONS.md).
impl Drop for Source {
    fn drop(self) {
        let Source {
            id: _,
            part: _,
            name: _name,
            path: _path,
        } = self;
    }
}

/// The files of a folder and of a second one that are read: those of the Rewrite queue first, each
/// queue's by number, and bytes that were cut off at their places. With `stale` also those that a
/// purge had dropped and a repair moved aside.
pub fn sources_of(
    rt: &HostRuntime,
    folder: &str,
    spill: Option<&str>,
    stale: bool,
) -> Result<Vec<Source>> {
    let wanted = if stale { Wanted::Stale } else { Wanted::Usual };
    let mut sources = Vec::new(rt.alloc());
    add_folder(rt, folder, "", wanted, &mut sources)?;
    if let Some(spill) = spill {
        add_folder(rt, folder, spill, wanted, &mut sources)?;
    }
    sources.sort_by_key(|source| key_of(source))?;
    Ok(sources)
}

/// The files that are named, in the same order. A name without a slash is of the folder.
pub fn named_sources(alloc: Global, folder: &str, names: &[&str]) -> Result<Vec<Source>> {
    let mut sources = Vec::new(alloc);
    for name in names {
        add_named(alloc, folder, name, &mut sources)?;
    }
    sources.sort_by_key(|source| key_of(source))?;
    Ok(sources)
}

// The order in which sources are read.
fn key_of(source: &Source) -> (u64, u64, u64, u64) {
    let queue = match source.id.queue {
        LogQueue::Rewrite => 0,
        LogQueue::Append => 1,
    };
    let (part, place) = match source.part {
        Part::Whole => (0, 0),
        Part::Log => (1, 0),
        Part::Cut(place) => (2, place),
    };
    (queue, source.id.seq, part, place)
}

fn add_folder(
    rt: &HostRuntime,
    folder: &str,
    below: &str,
    wanted: Wanted,
    sources: &mut Vec<Source>,
) -> Result<()> {
    let alloc = rt.alloc();
    let view = match FolderView::open(*rt, folder) {
        Ok(view) => view,
        Err(fault) => return Err(told(rt, &fault)),
    };
    if view.is_in_use() {
        return Err(anyhow!("it is open already").context(format_args!("{folder}")));
    }
    let names = match view.names(below) {
        Ok(names) => names,
        Err(OpenFault::Io(_, e)) if e.kind() == ErrorKind::NotFound => return Ok(()),
        Err(fault) => return Err(told(rt, &fault)),
    };
    for name in &names {
        let name = if below.is_empty() {
            name.clone()?
        } else {
            format!(in alloc; "{below}/{name}")?
        };
        let path = format!(in alloc; "{folder}/{name}")?;
        add_source(alloc, name, path, wanted, sources)?;
    }
    Ok(())
}

// A name with a slash is a path.
fn add_named(alloc: Global, folder: &str, name: &str, sources: &mut Vec<Source>) -> Result<()> {
    let path = if name.contains('/') {
        String::from_str(alloc, name)?
    } else {
        format!(in alloc; "{folder}/{name}")?
    };
    let before = sources.len();
    let told = String::from_str(alloc, name)?;
    add_source(alloc, told, path, Wanted::Named, sources)?;
    if sources.len() == before {
        bail!("{name}: its name doesn't begin with a log file's, as 0000000000000001.raftlog");
    }
    Ok(())
}

// Adds a file whose name begins with a log file's, if what follows is wanted.
fn add_source(
    alloc: Global,
    name: String,
    path: String,
    wanted: Wanted,
    sources: &mut Vec<Source>,
) -> Result<()> {
    if let Some((id, part)) = read_name(alloc, name.as_str(), wanted)? {
        sources.push(Source {
            id,
            part,
            name,
            path,
        })?;
    }
    Ok(())
}

// The log file that a name begins with, and what follows that.
fn read_name(alloc: Global, name: &str, wanted: Wanted) -> Result<Option<(FileId, Part)>> {
    let file = match name.rsplit_once('/') {
        Some((_, file)) => file,
        None => name,
    };
    let Some((own, suffix)) = file.split_at_checked(NAME_LEN) else {
        return Ok(None);
    };
    let Some(part) = part_of(suffix, wanted) else {
        return Ok(None);
    };
    for queue in &[LogQueue::Rewrite, LogQueue::Append] {
        if let Some(id) = id_of(alloc, own, *queue)? {
            return Ok(Some((id, part)));
        }
    }
    Ok(None)
}

// The queue's log file of this name.
fn id_of(alloc: Global, name: &str, queue: LogQueue) -> Result<Option<FileId>> {
    match log_file(alloc, "", name, queue) {
        Ok(Some(found)) => Ok(Some(found.id)),
        Ok(None) => Ok(None),
        Err(fault) => bail!("{fault}"),
    }
}

fn part_of(suffix: &str, wanted: Wanted) -> Option<Part> {
    if suffix.is_empty() {
        return Some(Part::Log);
    }
    if let Some(place) = suffix.strip_prefix(".cut-") {
        let digits = match place.split_once('.') {
            Some((digits, _)) => digits,
            None => place,
        };
        return Some(Part::Cut(digits.parse().ok()?));
    }
    let is_wanted = match wanted {
        Wanted::Usual => suffix.starts_with(PASSED),
        Wanted::Stale => suffix.starts_with(PASSED) || suffix.starts_with(LEFT_OVER),
        Wanted::Named => true,
    };
    is_wanted.then_some(Part::Whole)
}

/// The bytes of a source.
pub(crate) fn read(rt: &HostRuntime, source: &Source) -> Result<Vec<u8>> {
    match fs::read(rt, source.path.as_str()) {
        Ok(bytes) => Ok(bytes),
        Err(e) => Err(anyhow!("{e}").context(format_args!("{}", source.name))),
    }
}

/// Prints how many bytes the files have if they are many. As much memory may be needed for their
/// contents, and more for each entry and key.
pub(crate) fn note_need(rt: &HostRuntime, sources: &[Source], options: &Options<'_>) -> Result<()> {
    let mut bytes = 0u64;
    for source in sources {
        if let Ok(metadata) = fs::metadata(rt, source.path.as_str()) {
            bytes = bytes.saturating_add(metadata.len());
        }
    }
    if bytes < MUCH {
        return Ok(());
    }
    let files = sources.len();
    let text = format!(in rt.alloc();
        "{files} files of {bytes} bytes are read, and what they hold stays in memory until it is \
        written: at most so many bytes, and about 200 for each entry and 500 for each key"
    );
    note_made(rt, options, text)
}
