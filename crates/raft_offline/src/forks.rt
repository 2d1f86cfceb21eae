//! Copies a log into a separate folder, from which it can be opened.

use crate::copies::{Copy, planned};
use anyhow::{Result, anyhow};
use raft_command_line::Request;
use raft_commands::config;
use raft_config::Config;
use raft_console::{Output, Progress, Status, check_len, failure, or_failure};
use raft_disk::{DiskFileSystem, FolderView, OpenFault, image_of};
use raft_env::{FileSystem, FsFault};
use raft_fork::FORK_MARK;
use raft_inspect::Word;
use raft_looks::{Folder, is_inside, tell_refusal, told};
use raft_memory::MemoryFileSystem;
use std::alloc::{AllocError, Global};
use std::io::ErrorKind;

/// The place in memory for the names of the source and of the target.
pub(crate) const SOURCE: &str = "source";

pub(crate) const TARGET: &str = "target";

pub(crate) const BEFORE_NAME: &str = "target/";

/// How many bytes the target's note of its files has.
const NOTE_LEN: u64 = 1024;

/// Copies the log files that an opening of the request's folder keeps into another, which is made
/// if it is missing, syncs each and prints its name. That folder has the mark of a fork from before
/// the first copy until all are synced. So wherever this ends, the target holds no log file, or a
/// mark for which each opening and each look refuses it, or all copies. It fails if the source is
/// open, and as `raft_fork::fork` does; the copies made until then stay, with the mark. Recycling
/// is no hindrance, since no engine runs.
pub fn fork_folder(rt: HostRuntime, request: &Request<'_>, target: &str) -> Result<Status> {
    match FolderView::open(rt, request.folder) {
        Ok(source) => fork_source(rt, &source, request, target),
        Err(fault) => Err(told(&rt, &fault)),
    }
}

fn fork_source(
    rt: HostRuntime,
    source: &FolderView,
    request: &Request<'_>,
    target: &str,
) -> Result<Status> {
    if source.is_in_use() {
        return Err(anyhow!("it is open already").context(request.folder));
    }
    if is_inside(&rt, target, request.folder)? {
        return Err(anyhow!("the fork would be in the log's own folder").context(format_args!(
            "{target}"
        )));
    }
    let status = status_of_source(rt, request)?;
    let copies = copies_of(rt, source, request, target)?;
    check_lens(&rt, source, &copies)?;
    match DiskFileSystem::open_with(rt, target, None) {
        Ok(mut files) => {
            copy_or_tell(rt, source, &copies, &mut files, request)?;
            Ok(status)
        }
        Err(fault) => Err(told(&rt, &fault)),
    }
}

// Tells the plan of an opening of the source, and returns what `check` of it ends with.
fn status_of_source(rt: HostRuntime, request: &Request<'_>) -> Result<Status> {
    let folder = Folder::open(rt, request.folder, &request.options)?;
    let mut progress = Progress::of(rt, &request.options)?;
    match folder.plan(&request.options, &mut progress)? {
        Some(plan) => {
            plan.tell(&rt, &request.options)?;
            Ok(plan.status())
        }
        None => Err(anyhow!("a file of it was deleted meanwhile").context(request.folder)),
    }
}

// Copies, and tells what the system refused where that fails.
fn copy_or_tell(
    rt: HostRuntime,
    source: &FolderView,
    copies: &[Copy],
    files: &mut DiskFileSystem,
    request: &Request<'_>,
) -> Result<()> {
    let copied = copy_all(rt, source, copies, files, request);
    if copied.is_err() {
        tell_refusal(&rt, files, request.options.json)?;
    }
    copied
}

// Decides by the names of the files alone which are copied.
fn copies_of(
    rt: HostRuntime,
    source: &FolderView,
    request: &Request<'_>,
    target: &str,
) -> Result<Vec<Copy>> {
    let config = config(rt.alloc(), &request.options)?;
    let mut image = image_of_names(rt, source, target, &config)?;
    or_failure(
        planned(rt.alloc(), &config, &mut image),
        "the log cannot be copied",
    )
}

// Fails if a copy would be longer than a file may be.
fn check_lens(rt: &HostRuntime, source: &FolderView, copies: &[Copy]) -> Result<()> {
    let mut longest = NOTE_LEN;
    for copy in copies {
        match source.size(copy.from.as_str()) {
            Ok(len) => longest = longest.max(len),
            Err(fault) => return Err(told(rt, &fault)),
        }
    }
    match check_len(rt, longest) {
        Ok(()) => Ok(()),
        Err(error) => Err(error.context("the log cannot be copied")),
    }
}

// Both folders, with files without bytes.
fn image_of_names(
    rt: HostRuntime,
    source: &FolderView,
    target: &str,
    config: &Config,
) -> Result<MemoryFileSystem> {
    let mut files = Vec::new(rt.alloc());
    add_names(&rt, source, "", SOURCE, &mut files)?;
    let folders = folders_of(rt.alloc(), config)?;
    if let (Some(spill), Some(place)) = (&config.spill_dir, folders.get(1)) {
        add_names(&rt, source, spill.as_str(), place.as_str(), &mut files)?;
    }
    add_target(rt, target, &mut files)?;
    match image_of(rt.alloc(), files, folders) {
        Ok(image) => Ok(image),
        Err(fault) => Err(told(&rt, &fault)),
    }
}

// The source's folder, and the second one.
fn folders_of(alloc: Global, config: &Config) -> Result<Vec<String>, AllocError> {
    let mut folders = vec![in alloc; String::from_str(alloc, SOURCE)?]?;
    if let Some(spill) = &config.spill_dir {
        folders.push(format!(in alloc; "{SOURCE}/{spill}")?)?;
    }
    Ok(folders)
}

type Named = (String, Vec<u8>);

// Adds the names of the files in a folder, each of a file without bytes.
fn add_names(
    rt: &HostRuntime,
    view: &FolderView,
    folder: &str,
    place: &str,
    files: &mut Vec<Named>,
) -> Result<()> {
    let alloc = rt.alloc();
    for name in &names_in(rt, view, folder)? {
        let path = format!(in alloc; "{place}/{name}")?;
        files.push((path, Vec::new(alloc)))?;
    }
    Ok(())
}

// The names of the files in a folder; none if it does not exist.
fn names_in(rt: &HostRuntime, view: &FolderView, folder: &str) -> Result<Vec<String>> {
    match view.names(folder) {
        Ok(names) => Ok(names),
        Err(OpenFault::Io(_, e)) if e.kind() == ErrorKind::NotFound => Ok(Vec::new(rt.alloc())),
        Err(fault) => Err(told(rt, &fault)),
    }
}

// .. of the target, where it is there.
fn add_target(rt: HostRuntime, target: &str, files: &mut Vec<Named>) -> Result<()> {
    match FolderView::open(rt, target) {
        Ok(view) => add_names(&rt, &view, "", TARGET, files),
        Err(OpenFault::Io(_, e)) if e.kind() == ErrorKind::NotFound => Ok(()),
        Err(fault) => Err(told(&rt, &fault)),
    }
}

fn copy_all<F: FileSystem>(
    rt: HostRuntime,
    source: &FolderView,
    copies: &[Copy],
    files: &mut F,
    request: &Request<'_>,
) -> Result<()> {
    let mut progress = Progress::of(rt, &request.options)?;
    let mut out = Output::new(rt, &request.options);
    done(rt.alloc(), FORK_MARK, put_file(files, FORK_MARK, &[]))?;
    for (place, copy) in copies.iter().enumerate() {
        progress.at("files copied", place as u64, copies.len() as u64)?;
        copy_file(&rt, source, copy, files)?;
        out.line(&[("copied", Word::Text(copy.name.as_str()))])?;
    }
    let removed = files.delete(FORK_MARK);
    done(rt.alloc(), FORK_MARK, removed)?;
    out.print()
}

fn copy_file<F: FileSystem>(
    rt: &HostRuntime,
    source: &FolderView,
    copy: &Copy,
    files: &mut F,
) -> Result<()> {
    let bytes = match source.read(copy.from.as_str()) {
        Ok(bytes) => bytes,
        Err(fault) => return Err(told(rt, &fault)),
    };
    let name = copy.name.as_str();
    done(rt.alloc(), name, put_file(files, name, &bytes))
}

fn done(alloc: Global, path: &str, called: Result<(), FsFault>) -> Result<()> {
    match called {
        Ok(()) => Ok(()),
        Err(fault) => {
            let fault = fault.with_path(alloc, path);
            Err(failure("the log cannot be copied", &fault))
        }
    }
}

// Makes a file of these bytes, and syncs it.
fn put_file<F: FileSystem>(files: &mut F, path: &str, bytes: &[u8]) -> Result<(), FsFault> {
    let handle = files.create(path)?;
    let mut writer = files.new_writer(&handle)?;
    files.write(&mut writer, 0, bytes)?;
    files.sync(&mut writer)
}
