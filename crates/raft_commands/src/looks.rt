//! Looks at a folder: its log files are read into memory, and nothing of it is changed.

use crate::absent::told_absent;
use crate::dumps::print_items;
use crate::holes::print_holes;
use crate::opening::open_image;
use crate::pictures::print_picture;
use crate::stat::stat;
use crate::stored::Total;
use crate::{entries, keys, numbered};
use anyhow::{Result, anyhow};
use raft_command_line::{Look, Request};
use raft_console::{Output, Progress, Status, note_made};
use raft_contents::{Engine, sum};
use raft_env::FileSystem;
use raft_inspect::Cut;
use raft_looks::{Folder, ReservedFile, check};
use raft_memory::MemoryFileSystem;
use raft_records::LogQueue;
use std::alloc::{AllocError, Global};
use std::thread::Threads;

/// How often a look begins again because files were dropped meanwhile.
const TRIES: u64 = 20;

/// What was read of a folder, which then is let go.
#[derive(Drop)]
struct Reading {
    image: MemoryFileSystem,
    reserved: Total,
}

/// Prints what the request looks for, and changes nothing in its folder: the log files are read
/// into memory, and opened there by threads of the handle. It fails if the folder doesn't exist,
/// if a file can't be read, or if the log can't be opened. If a writer drops a file meanwhile, it
/// begins again.
pub fn look<R: Threads + Sync>(
    rt: HostRuntime,
    threads: &R,
    request: &Request<'_>,
    look: Look<'_>,
) -> Result<Status> {
    let mut progress = Progress::of(rt, &request.options)?;
    let mut out = Output::new(rt, &request.options);
    for _ in 0..TRIES {
        let looked = look_once(rt, threads, request, look, &mut progress, &mut out)?;
        if let Some(status) = looked {
            out.print()?;
            return Ok(status);
        }
    }
    Err(anyhow!(
        "{}: a writer drops files while they are read, again and again",
        request.folder
    ))
}

fn look_once<R: Threads + Sync>(
    rt: HostRuntime,
    threads: &R,
    request: &Request<'_>,
    look: Look<'_>,
    progress: &mut Progress,
    out: &mut Output,
) -> Result<Option<Status>> {
    if let Look::Dump(dump) = look {
        return Ok(Some(print_items(rt, request, dump, progress, out)?));
    }
    let folder = Folder::open(rt, request.folder, &request.options)?;
    note_use(&rt, &folder, request)?;
    match look {
        Look::Check => check(rt.alloc(), &folder, &request.options, progress, out),
        Look::Consistency => print_holes(&rt, &folder, request, progress, out),
        _ => look_at_contents(&rt, threads, folder, request, look, progress, out),
    }
}

fn look_at_contents<R: Threads + Sync>(
    rt: &HostRuntime,
    threads: &R,
    folder: Folder,
    request: &Request<'_>,
    look: Look<'_>,
    progress: &mut Progress,
    out: &mut Output,
) -> Result<Option<Status>> {
    note_unread(rt, &folder, request, progress)?;
    let Some(reading) = read_all(rt, folder, request, progress)? else {
        return Ok(None);
    };
    progress.begin("the log is being opened in memory")?;
    Ok(Some(show(rt, threads, reading, request, look, out)?))
}

/// Says that a writer has the folder open.
pub(crate) fn note_use(rt: &HostRuntime, folder: &Folder, request: &Request<'_>) -> Result<()> {
    if !folder.is_in_use() {
        return Ok(());
    }
    let path = request.folder;
    let text = format!(in rt.alloc(); "{path} is open already, and what is read of it may change");
    note_made(rt, &request.options, text)
}

// Prints the files that an opening passes over, or whose folder isn't read.
fn note_unread(
    rt: &HostRuntime,
    folder: &Folder,
    request: &Request<'_>,
    progress: &mut Progress,
) -> Result<()> {
    if request.options.quiet {
        return Ok(());
    }
    tell_unread(rt, folder, request, progress)?;
    Ok(())
}

/// The same, and returns what `check` ends with for it; with `--quiet` it prints nothing.
pub(crate) fn tell_unread(
    rt: &HostRuntime,
    folder: &Folder,
    request: &Request<'_>,
    progress: &mut Progress,
) -> Result<Status> {
    let Some(plan) = folder.unread(&request.options, progress)? else {
        return Ok(Status::Done);
    };
    if !request.options.quiet {
        plan.tell(rt, &request.options)?;
    }
    Ok(plan.status())
}

// All log files in memory; `None` if one no longer exists. From here on a writer isn't kept out.
fn read_all(
    rt: &HostRuntime,
    folder: Folder,
    request: &Request<'_>,
    progress: &mut Progress,
) -> Result<Option<Reading>> {
    let Some(mut image) = folder.image(progress)? else {
        return Ok(None);
    };
    note_cuts(rt, &folder, &mut image, request)?;
    Ok(Some(Reading {
        image,
        reserved: total_of(&folder.reserved),
    }))
}

fn total_of(files: &[ReservedFile]) -> Total {
    let mut total = Total::new();
    for file in files {
        total.add(file.len);
    }
    total
}

// Prints what an opening would leave out of the files if it succeeds, except bytes that an earlier
// file left.
fn note_cuts<F: FileSystem>(
    rt: &HostRuntime,
    folder: &Folder,
    image: &mut F,
    request: &Request<'_>,
) -> Result<()> {
    for queue in &[LogQueue::Rewrite, LogQueue::Append] {
        for cut in folder.cuts(image, *queue, request.options.mode)? {
            if !cut.stale {
                note_made(rt, &request.options, told_of(rt.alloc(), &cut))?;
            }
        }
    }
    Ok(())
}

fn told_of(alloc: Global, cut: &Cut) -> Result<String, AllocError> {
    format!(in alloc;
        "{} is broken at {}: the {} bytes from there on are left out",
        cut.path, cut.offset, cut.len
    )
}

// The result of a look at files that are all in memory.
fn show<R: Threads + Sync>(
    rt: &HostRuntime,
    threads: &R,
    reading: Reading,
    request: &Request<'_>,
    look: Look<'_>,
    out: &mut Output,
) -> Result<Status> {
    let Reading {
        mut image,
        reserved,
    } = reading;
    match look {
        Look::Stat => stat(threads, rt.alloc(), image, reserved, &request.options, out),
        Look::Picture => print_picture(rt, &mut image, request),
        _ => show_found(rt, threads, image, request, look, out),
    }
}

fn show_found<R: Threads + Sync, F: FileSystem + Drop>(
    rt: &HostRuntime,
    threads: &R,
    image: F,
    request: &Request<'_>,
    look: Look<'_>,
    out: &mut Output,
) -> Result<Status> {
    let mut engine = open_image(threads, rt.alloc(), image, &request.options)?;
    let found = find(rt, &mut engine, request, look, out);
    engine.give_up();
    if found? {
        return Ok(Status::Done);
    }
    note_made(rt, &request.options, told_absent(rt.alloc(), look))?;
    Ok(Status::Absent)
}

// Prints the result of a look at an engine. Returns whether it found the thing.
fn find<F: FileSystem>(
    rt: &HostRuntime,
    engine: &mut Engine<F>,
    request: &Request<'_>,
    look: Look<'_>,
    out: &mut Output,
) -> Result<bool> {
    match look {
        Look::Get(_, _) | Look::Scan(_, _) | Look::List(_, _) | Look::Verify(_) => {
            find_keys(rt, engine, request, look, out)
        }
        _ => find_entries(rt, engine, look, out),
    }
}

fn find_keys<F: FileSystem>(
    rt: &HostRuntime,
    engine: &Engine<F>,
    request: &Request<'_>,
    look: Look<'_>,
    out: &mut Output,
) -> Result<bool> {
    let options = &request.options;
    match look {
        Look::Get(group, key) => keys::get(rt, engine, group, key, options, out),
        Look::Scan(group, range) => keys::scan(rt, engine, group, range, options),
        Look::List(group, limit) => keys::list(rt, engine, group, limit, options),
        Look::Verify(load) => numbered::verify(rt, engine, load, options, out),
        _ => Ok(true),
    }
}

fn find_entries<F: FileSystem>(
    rt: &HostRuntime,
    engine: &mut Engine<F>,
    look: Look<'_>,
    out: &mut Output,
) -> Result<bool> {
    match look {
        Look::Entry(group, index) => entries::get(engine, group, index, out),
        Look::Entries(group, range) => entries::list(rt.alloc(), engine, group, range, out),
        Look::Groups => entries::groups(engine, out),
        Look::Sum(group, indexes) => {
            sum(rt.alloc(), engine, group, indexes, out)?;
            Ok(true)
        }
        // The other looks are carried out before.
        _ => Ok(true),
    }
}
