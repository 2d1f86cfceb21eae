//! Purges a log, and prints what happened to its files.

use crate::changed::ChangedFiles;
use crate::opening::{close, config, open};
use crate::stored::{Stored, Total};
use anyhow::Result;
use raft_command_line::{Options, Purge};
use raft_console::{Output, Progress, Status, check_batch, failure, note_made, or_failure};
use raft_contents::Engine;
use raft_env::FileSystem;
use raft_inspect::Word;
use raft_records::{Fault, FileSeq};
use std::alloc::{AllocError, Global};
use std::thread::Threads;

/// Purges the log. Prints a line for each group that should be compacted, the number of dropped
/// log files, and the number of reserved files kept for reuse.
pub(crate) fn purge<R: Threads + Sync, F: FileSystem + ChangedFiles + Drop>(
    rt: &HostRuntime,
    threads: &R,
    mut files: F,
    purge: Purge,
    options: &Options<'_>,
    out: &mut Output,
) -> Result<Status> {
    let before = find(rt.alloc(), &mut files, options)?;
    // A record that is written again is no longer than the file that has it.
    check_batch(rt, options, 0, before.longest() as usize)?;
    let left = purge_files(rt, threads, files, purge, options, out)?;
    tell_left(rt, left, purge, &before, options, out)
}

fn purge_files<R: Threads + Sync, F: FileSystem + ChangedFiles + Drop>(
    rt: &HostRuntime,
    threads: &R,
    files: F,
    purge: Purge,
    options: &Options<'_>,
    out: &mut Output,
) -> Result<F> {
    let mut progress = Progress::of(*rt, options)?;
    progress.begin("the log is being opened")?;
    let engine = open(rt, threads, files, options)?;
    purge_and_close(rt, engine, purge, options.json, &mut progress, out)
}

fn tell_left<F: FileSystem + Drop>(
    rt: &HostRuntime,
    mut left: F,
    purge: Purge,
    before: &Stored,
    options: &Options<'_>,
    out: &mut Output,
) -> Result<Status> {
    let reserved = reserved_in(rt.alloc(), &mut left, options)?;
    let gone = before.gone(&left);
    tell_gone(rt, purge, before, gone, reserved, options, out)
}

fn reserved_in<F: FileSystem>(
    alloc: Global,
    files: &mut F,
    options: &Options<'_>,
) -> Result<Total> {
    Ok(find(alloc, files, options)?.reserved)
}

fn tell_gone(
    rt: &HostRuntime,
    purge: Purge,
    before: &Stored,
    gone: Total,
    reserved: Total,
    options: &Options<'_>,
    out: &mut Output,
) -> Result<Status> {
    add_total("dropped", gone, out)?;
    add_total("reserved", reserved, out)?;
    out.print()?;
    if gone.files == 0 {
        note_made(rt, options, cause_of(rt.alloc(), purge, before, options))?;
    }
    Ok(Status::Done)
}

// Why no file was dropped.
fn cause_of(
    alloc: Global,
    purge: Purge,
    before: &Stored,
    options: &Options<'_>,
) -> Result<String, AllocError> {
    match purge {
        Purge::Expired => cause_of_expired(alloc, before, options),
        Purge::Stale => {
            let (append, _) = before.by_queue();
            format!(in alloc;
                "nothing was dropped: something counts in the first of {} files of the Append \
                queue",
                append.files
            )
        }
        Purge::Append | Purge::Rewrite => {
            let (append, rewrite) = before.by_queue();
            format!(in alloc;
                "nothing was dropped: the Append queue has {} files and the Rewrite queue {}, \
                and the last one of a queue stays",
                append.files, rewrite.files
            )
        }
    }
}

fn cause_of_expired(
    alloc: Global,
    before: &Stored,
    options: &Options<'_>,
) -> Result<String, AllocError> {
    let (append, rewrite) = before.by_queue();
    let (most, most_rewrite) = thresholds(alloc, options)?;
    format!(in alloc;
        "nothing was dropped: the Append queue has {} bytes in {} files, and \
        purge-threshold is {most}; the Rewrite queue has {} bytes in {} files, and \
        purge-rewrite-threshold is {most_rewrite}; the last file of a queue stays",
        append.bytes, append.files, rewrite.bytes, rewrite.files
    )
}

fn thresholds(alloc: Global, options: &Options<'_>) -> Result<(u64, u64), AllocError> {
    let config = config(alloc, options)?;
    Ok((config.purge_threshold.0, config.rewrite_threshold().0))
}

fn find<F: FileSystem>(alloc: Global, files: &mut F, options: &Options<'_>) -> Result<Stored> {
    let found = Stored::find(alloc, files, options);
    or_failure(found, "the log cannot be measured")
}

fn purge_and_close<F: FileSystem + ChangedFiles + Drop>(
    rt: &HostRuntime,
    mut engine: Engine<F>,
    purge: Purge,
    json: bool,
    progress: &mut Progress,
    out: &mut Output,
) -> Result<F> {
    match carry_out(rt.alloc(), &mut engine, purge, progress, out) {
        Ok(None) => close(rt, engine, json),
        Ok(Some(fault)) => {
            engine.give_up().tell_refusal(rt, json)?;
            Err(failure("the log cannot be purged", &fault))
        }
        Err(error) => {
            engine.give_up();
            Err(error)
        }
    }
}

// Prints why the engine refused the purge, if it did.
fn carry_out<F: FileSystem>(
    alloc: Global,
    engine: &mut Engine<F>,
    purge: Purge,
    progress: &mut Progress,
    out: &mut Output,
) -> Result<Option<Fault>> {
    progress.begin("the log is being purged")?;
    match asked_by(alloc, engine, purge) {
        Ok(groups) => add_groups(&groups, out)?,
        Err(fault) => return Ok(Some(fault)),
    }
    progress.begin("the log is being closed")?;
    Ok(None)
}

// Purges, and returns the groups that should be compacted.
fn asked_by<F: FileSystem>(
    alloc: Global,
    engine: &mut Engine<F>,
    purge: Purge,
) -> Result<Vec<u64>, Fault> {
    match purge {
        Purge::Append => engine.must_rewrite_append_queue(None, None)?,
        Purge::Rewrite => engine.must_rewrite_rewrite_queue()?,
        Purge::Stale => engine.must_purge_all_stale()?,
        Purge::Expired => return engine.purge_expired_files(FileSeq::MAX),
    };
    Ok(Vec::new(alloc))
}

fn add_groups(groups: &[u64], out: &mut Output) -> Result<()> {
    for group in groups {
        out.named(&[("compact", Word::Number(*group))])?;
    }
    Ok(())
}

fn add_total(name: &'static str, total: Total, out: &mut Output) -> Result<()> {
    out.named(&[
        (name, Word::Number(total.files)),
        ("bytes", Word::Number(total.bytes)),
    ])
}
