//! Takes out of log files what an opening cuts off or passes over, and keeps it in files beside.

use crate::changed::ChangedFiles;
use crate::kept::{free_name, keep};
use crate::taken::Taken;
use anyhow::Result;
use raft_command_line::{Request, Verb};
use raft_console::{failure, or_failure};
use raft_dump::LogFile;
use raft_env::FileSystem;
use raft_inspect::{Cut, QueueFiles, cuts_of};
use raft_looks::BothQueues;
use raft_opening_plan::{Kind, Plan};
use std::alloc::{AllocError, Global};
use std::{fs, io};

/// How the names of files end that are moved aside, since an opening passes over them.
const PASSED: &str = "passed";

/// The same for files that a purge had dropped, and for strays.
const LEFT_OVER: &str = "left-over";

const STRAY: &str = "stray";

/// Keeps what the opening cuts off the files of both queues.
pub(crate) fn take_cuts<F: FileSystem>(
    rt: &HostRuntime,
    files: &mut F,
    queues: &BothQueues,
    request: &Request<'_>,
    taken: &mut Vec<Taken>,
) -> Result<()> {
    for found in [&queues.rewrite, &queues.append] {
        let cuts = cuts_of(rt.alloc(), found, request.options.mode);
        let cuts = or_failure(cuts, "the files cannot be checked")?;
        for cut in &cuts {
            taken.push(take_cut(rt, files, cut, request)?)?;
        }
    }
    Ok(())
}

// What an earlier file left is kept by a repair alone.
fn take_cut<F: FileSystem>(
    rt: &HostRuntime,
    files: &mut F,
    cut: &Cut,
    request: &Request<'_>,
) -> Result<Taken> {
    let is_repair = matches!(&request.verb, Verb::Repair);
    if request.options.changing.no_keep || (cut.stale && !is_repair) {
        return Ok(taken_of(rt.alloc(), cut, None)?);
    }
    let name = name_of(rt.alloc(), cut)?;
    let kept = keep_cut(rt, files, cut, name.as_str(), request)?;
    Ok(taken_of(rt.alloc(), cut, Some(kept))?)
}

fn name_of(alloc: Global, cut: &Cut) -> Result<String, AllocError> {
    format!(in alloc; "{}.cut-{}", cut.path, cut.offset)
}

fn taken_of(alloc: Global, cut: &Cut, kept: Option<String>) -> Result<Taken, AllocError> {
    Ok(Taken {
        path: String::from_str(alloc, cut.path.as_str())?,
        offset: Some(cut.offset as u64),
        len: cut.len as u64,
        stale: cut.stale,
        kept,
    })
}

fn keep_cut<F: FileSystem>(
    rt: &HostRuntime,
    files: &mut F,
    cut: &Cut,
    name: &str,
    request: &Request<'_>,
) -> Result<String> {
    if request.options.changing.dry_run {
        return free_name(rt, request.folder, name);
    }
    match cut.bytes(rt.alloc(), files) {
        Ok(bytes) => keep(rt, request.folder, name, &bytes),
        Err(fault) => Err(failure("what is cut off cannot be read", &fault)),
    }
}

/// Moves the strays of a plan aside.
pub(crate) fn move_strays<F: FileSystem + ChangedFiles>(
    rt: &HostRuntime,
    files: &mut F,
    plan: &Plan,
    request: &Request<'_>,
    taken: &mut Vec<Taken>,
) -> Result<()> {
    for item in &plan.items {
        if item.kind == Kind::Stray {
            taken.push(move_aside(rt, files, item.path.as_str(), STRAY, request)?)?;
        }
    }
    Ok(())
}

/// Moves aside the files of a queue that are passed over, if one of them holds something.
pub(crate) fn move_passed<F: FileSystem + ChangedFiles>(
    rt: &HostRuntime,
    files: &mut F,
    found: &QueueFiles,
    plan: &Plan,
    request: &Request<'_>,
    taken: &mut Vec<Taken>,
) -> Result<()> {
    if found.passed().is_none() {
        return Ok(());
    }
    let passed = found.files.get(..found.passed).unwrap_or(&[]);
    let ending = ending_of(plan, passed);
    for file in passed {
        taken.push(move_aside(rt, files, file.path.as_str(), ending, request)?)?;
    }
    Ok(())
}

// How the names of these files end once they are aside: `salvage` reads what was lost, and not what
// a purge had dropped.
fn ending_of(plan: &Plan, passed: &[LogFile]) -> &'static str {
    for item in &plan.items {
        if item.kind == Kind::LeftOver && has_path(passed, item.path.as_str()) {
            return LEFT_OVER;
        }
    }
    PASSED
}

fn has_path(files: &[LogFile], path: &str) -> bool {
    for file in files {
        if file.path.as_str() == path {
            return true;
        }
    }
    false
}

fn move_aside<F: FileSystem + ChangedFiles>(
    rt: &HostRuntime,
    files: &mut F,
    path: &str,
    ending: &str,
    request: &Request<'_>,
) -> Result<Taken> {
    let len = len_of(rt, request.folder, path)?;
    let kept = free_path(rt, request.folder, path, ending)?;
    rename(rt, files, path, kept.as_str(), request.options.json)?;
    Ok(Taken {
        path: String::from_str(rt.alloc(), path)?,
        offset: None,
        len,
        stale: false,
        kept: Some(kept),
    })
}

fn len_of(rt: &HostRuntime, folder: &str, path: &str) -> io::Result<u64> {
    let place = format!(in rt.alloc(); "{folder}/{path}")?;
    Ok(fs::metadata(rt, place.as_str())?.len())
}

fn free_path(rt: &HostRuntime, folder: &str, path: &str, ending: &str) -> Result<String> {
    let name = format!(in rt.alloc(); "{path}.{ending}")?;
    free_name(rt, folder, name.as_str())
}

fn rename<F: FileSystem + ChangedFiles>(
    rt: &HostRuntime,
    files: &mut F,
    path: &str,
    kept: &str,
    json: bool,
) -> Result<()> {
    let Err(fault) = files.rename(path, kept) else {
        return Ok(());
    };
    files.tell_refusal(rt, json)?;
    let fault = fault.with_path(rt.alloc(), path);
    let text = format!(in rt.alloc(); "a file cannot be moved aside to {kept}")?;
    Err(failure(text.as_str(), &fault))
}
