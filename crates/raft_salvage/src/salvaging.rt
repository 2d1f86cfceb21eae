//! Whole records of damaged files, in a new log.

use crate::source_log::SourceLog;
use anyhow::{Result, anyhow, bail};
use raft_command_line::{Request, Salvage, Verb};
use raft_commands::change_by;
use raft_console::{Output, Status};
use raft_contents::{Material, TableImport};
use raft_gathering::{Gathering, Source, gather, named_sources, print_groups, sources_of};
use raft_inspect::Filter;
use raft_looks::is_inside;
use std::fs::{self, File};
use std::io::{self, ErrorKind};
use std::thread::Threads;

/// The name of the file of a log's lock.
const LOCK: &str = "LOCK";

/// Reads every whole record of the request's folder, or of the named files, and writes their
/// contents into a new folder. It prints how many records each file has, what could not be read
/// and why, and of each group what came back. Standard error has the plan of an opening of the
/// folder. If that has losses, or entries are lost between others of a group, the status is 4.
/// Nothing is changed in the request's folder. The new log is made under the name `TARGET.part`,
/// and gets its own name once it is whole and synced.
pub fn salvage<R: Threads + Sync>(
    rt: HostRuntime,
    threads: &R,
    request: &Request<'_>,
    asked: &Salvage<'_>,
) -> Result<Status> {
    if !request.options.changing.dry_run {
        check_target(&rt, request.folder, asked)?;
    }
    let mut status = Status::Done;
    let sources = find_sources(rt, request, asked, &mut status)?;
    let gathering = gather(&rt, &sources, asked.stale, &request.options)?;
    tell(rt, request, &gathering)?;
    if !gathering.report.is_whole() || gathering.tables.has_gap(Filter::ALL) {
        status = Status::WouldCut;
    }
    if request.options.changing.dry_run {
        return Ok(status);
    }
    write(rt, threads, request, asked, &gathering, status)
}

// The files that are read. What an opening of the folder loses besides is told, and changes the
// status.
fn find_sources(
    rt: HostRuntime,
    request: &Request<'_>,
    asked: &Salvage<'_>,
    status: &mut Status,
) -> Result<Vec<Source>> {
    let options = &request.options;
    if !asked.files.is_empty() {
        return named_sources(rt.alloc(), request.folder, &asked.files);
    }
    let log = SourceLog::look_at(rt, request.folder, options)?;
    if !options.quiet {
        log.plan.tell(&rt, options)?;
    }
    if log.plan.status() != Status::Done {
        *status = Status::WouldCut;
    }
    let mut sources = sources_of(&rt, request.folder, options.spill, asked.stale)?;
    if !asked.stale {
        log.drop_left_over(&mut sources);
    }
    if sources.is_empty() {
        bail!("{}: no log file", request.folder);
    }
    Ok(sources)
}

// The name of the new log until it is whole.
fn part_of(rt: &HostRuntime, target: &str) -> Result<String> {
    Ok(format!(in rt.alloc(); "{target}.part")?)
}

fn write<R: Threads + Sync>(
    rt: HostRuntime,
    threads: &R,
    request: &Request<'_>,
    asked: &Salvage<'_>,
    gathering: &Gathering,
    status: Status,
) -> Result<Status> {
    let part = part_of(&rt, asked.target)?;
    let mut options = request.options;
    options.spill = None;
    let target = Request::new(part.as_str(), options, Verb::Settings, false);
    let mut material = Material::Tables(TableImport {
        tables: &gathering.tables,
        filter: Filter::ALL,
        status,
    });
    let status = change_by(rt, threads, &target, &mut material)?;
    match name_target(&rt, asked.target, part.as_str()) {
        Ok(()) => Ok(status),
        Err(e) => Err(anyhow!("{e}").context(format_args!(
            "{part} is whole, and cannot be renamed to {}",
            asked.target
        ))),
    }
}

fn tell(rt: HostRuntime, request: &Request<'_>, gathering: &Gathering) -> Result<()> {
    let mut out = Output::new(rt, &request.options);
    gathering.report.print(&mut out)?;
    print_groups(&gathering.tables, &mut out)?;
    out.print()
}

// The target is an empty folder or does not exist, and is not in the folder of a log that is read.
// No other salvage into it has begun.
fn check_target(rt: &HostRuntime, folder: &str, asked: &Salvage<'_>) -> Result<()> {
    let target = asked.target;
    check_outside(rt, target, folder)?;
    for file in &asked.files {
        if let Some((folder, _)) = file.rsplit_once('/') {
            check_outside_log(rt, target, folder)?;
        }
    }
    let part = part_of(rt, target)?;
    if stands(rt, part.as_str())? {
        bail!("{part}: a salvage that has not ended made it: remove it, and salvage again");
    }
    if stands(rt, target)? && !is_empty(rt, target)? {
        bail!("{target}: it isn't empty, and a salvage writes a new log: name another folder");
    }
    Ok(())
}

fn check_outside(rt: &HostRuntime, target: &str, folder: &str) -> Result<()> {
    if is_inside(rt, target, folder)? {
        bail!(
            "{target}: a salvage writes nothing into the folder of a log that it reads: name \
            another one"
        );
    }
    Ok(())
}

// A named file may be in any folder; that of a log has the file of a lock.
fn check_outside_log(rt: &HostRuntime, target: &str, folder: &str) -> Result<()> {
    let folder = if folder.is_empty() { "/" } else { folder };
    let lock = format!(in rt.alloc(); "{folder}/{LOCK}")?;
    if stands(rt, lock.as_str())? {
        check_outside(rt, target, folder)?;
    }
    Ok(())
}

fn is_empty(rt: &HostRuntime, folder: &str) -> Result<bool> {
    let entries = match fs::read_dir(rt, folder) {
        Ok(entries) => entries,
        Err(e) => return Err(anyhow!("{e}").context(format_args!("{folder}"))),
    };
    let mut count = 0u64;
    for _entry in entries {
        count = count.saturating_add(1);
    }
    Ok(count == 0)
}

fn stands(rt: &HostRuntime, path: &str) -> Result<bool> {
    match fs::symlink_metadata(rt, path) {
        Ok(_) => Ok(true),
        Err(e) if e.kind() == ErrorKind::NotFound => Ok(false),
        Err(e) => Err(anyhow!("{e}").context(format_args!("{path}"))),
    }
}

// The name stays through a crash too.
fn name_target(rt: &HostRuntime, target: &str, part: &str) -> io::Result<()> {
    File::open(rt, part)?.sync_all()?;
    fs::rename(rt, part, target)?;
    let folder = match target.trim_end_matches('/').rsplit_once('/') {
        Some(("", _)) => "/",
        Some((folder, _)) => folder,
        None => ".",
    };
    File::open(rt, folder)?.sync_all()
}
