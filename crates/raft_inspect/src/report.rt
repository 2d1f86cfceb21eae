//! Lines of what can be read of each log file, and of what an opening would do with it.

use crate::lines::{Lines, Word};
use crate::queue_files::QueueFiles;
use raft_config::RecoveryMode;
use raft_dump::{FileCheck, LogFile, Planned};
use raft_records::{Fault, LogQueue, Version};
use std::alloc::Global;

/// The name of a queue.
pub fn queue_name(queue: LogQueue) -> &'static str {
    match queue {
        LogQueue::Append => "append",
        LogQueue::Rewrite => "rewrite",
    }
}

/// Adds a line for each file of a queue, and one for each number that is missing or doubled.
pub fn add_queue(alloc: Global, found: &QueueFiles, lines: &mut Lines) -> Result<(), Fault> {
    let absolute = found.plan(alloc, RecoveryMode::AbsoluteConsistency)?;
    let tail = found.plan(alloc, RecoveryMode::TolerateTailCorruption)?;
    let any = found.plan(alloc, RecoveryMode::TolerateAnyCorruption)?;
    for (place, (file, check)) in found.files.iter().zip(&found.checks).enumerate() {
        add_gap(found, place, lines)?;
        let plans = match place.checked_sub(found.passed) {
            None => PASSED_OVER,
            Some(kept) => Plans {
                absolute: planned_at(&absolute, kept),
                tail: planned_at(&tail, kept),
                any: planned_at(&any, kept),
            },
        };
        add_file(file, check, plans, lines)?;
    }
    Ok(())
}

/// What an opening in each mode does with a file.
#[derive(Clone, Copy)]
struct Plans {
    absolute: &'static str,
    tail: &'static str,
    any: &'static str,
}

const PASSED_OVER: Plans = Plans {
    absolute: "pass",
    tail: "pass",
    any: "pass",
};

fn planned_at(plan: &[Planned], place: usize) -> &'static str {
    match plan.get(place) {
        Some(Planned::Keep) | None => "keep",
        Some(Planned::Cut(_)) => "cut",
        Some(Planned::Fail) => "fail",
    }
}

// Reports what is between a file and the one before it in its queue.
fn add_gap(found: &QueueFiles, place: usize, lines: &mut Lines) -> Result<(), Fault> {
    let (Some(before), Some(check)) = (found.number_before(place), found.checks.get(place)) else {
        return Ok(());
    };
    let queue = ("queue", Word::Text(queue_name(found.queue)));
    let next = before.saturating_add(1);
    if check.id.seq < next {
        lines.named(&[queue, ("doubled", Word::Number(check.id.seq))])?;
    } else if check.id.seq > next {
        let missing = ("missing", Word::Number(next));
        lines.named(&[queue, missing, ("before", Word::Number(check.id.seq))])?;
    }
    Ok(())
}

fn add_file(
    file: &LogFile,
    check: &FileCheck,
    plans: Plans,
    lines: &mut Lines,
) -> Result<(), Fault> {
    lines.named(&[
        ("file", Word::Bytes(file.path.as_bytes())),
        ("version", Word::Number(version_number(check))),
        ("records", Word::Number(check.records as u64)),
        ("read", Word::Number(check.end as u64)),
        ("size", Word::Number(check.len as u64)),
        ("rest", Word::Text(rest_name(check))),
        ("absolute", Word::Text(plans.absolute)),
        ("tail", Word::Text(plans.tail)),
        ("any", Word::Text(plans.any)),
    ])?;
    Ok(())
}

// The version in a file's header, 0 without a header.
fn version_number(check: &FileCheck) -> u64 {
    match check.format {
        None => 0,
        Some(format) => match format.version {
            Version::V1 => 1,
            Version::V2 => 2,
        },
    }
}

// What follows the records that can be read.
fn rest_name(check: &FileCheck) -> &'static str {
    match &check.stop {
        None => "none",
        Some(Fault::Corruption) if check.zeros && check.len > 0 => "zeros",
        Some(Fault::Corruption) if check.stale => "stale",
        Some(Fault::Corruption) if check.unsearched => "unsearched",
        Some(Fault::Corruption) => "broken",
        Some(Fault::Lz4) => "compressed",
        Some(_) => "too-long",
    }
}
