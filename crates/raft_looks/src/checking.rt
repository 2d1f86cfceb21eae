//! What can be read of each log file, and what an opening would do with it. One part of one file is
//! in memory at a time.

use crate::folder::Folder;
use crate::planning::BothQueues;
use anyhow::Result;
use raft_command_line::{Options, mode_name};
use raft_config::RecoveryMode;
use raft_console::{Output, Progress, Status, failure};
use raft_inspect::{Outlook, Word, add_queue};
use raft_opening_plan::{Kind, Plan};
use raft_records::Fault;
use std::alloc::Global;

/// Prints a line for each file, the plan of an opening in the options' mode, and what an opening
/// in each mode would do. Returns `None` if a file is gone meanwhile. If a file cannot be read, it
/// prints only the plan.
pub fn check(
    alloc: Global,
    folder: &Folder,
    options: &Options<'_>,
    progress: &mut Progress,
    out: &mut Output,
) -> Result<Option<Status>> {
    let queues = match folder.inspect_both(progress) {
        Ok(Some(queues)) => queues,
        Ok(None) => return Ok(None),
        Err(error) => {
            let plan = folder.plan_of_unread(options, error)?;
            plan.add_lines(&mut out.lines)?;
            return Ok(Some(plan.status()));
        }
    };
    let Some(plan) = folder.whole_plan(&queues, options, progress)? else {
        return Ok(None);
    };
    match add_check(alloc, folder, &queues, &plan, out) {
        Ok(()) => Ok(Some(plan.status())),
        Err(fault) => Err(failure("the files cannot be checked", &fault)),
    }
}

fn add_check(
    alloc: Global,
    folder: &Folder,
    queues: &BothQueues,
    plan: &Plan,
    out: &mut Output,
) -> Result<(), Fault> {
    add_queue(alloc, &queues.append, &mut out.lines)?;
    add_queue(alloc, &queues.rewrite, &mut out.lines)?;
    add_names(folder, out)?;
    plan.add_lines(&mut out.lines)?;
    for mode in &[
        RecoveryMode::AbsoluteConsistency,
        RecoveryMode::TolerateTailCorruption,
        RecoveryMode::TolerateAnyCorruption,
    ] {
        let mut outlook = outlook_of(alloc, queues, *mode)?;
        if plan.has(Kind::Refused) {
            outlook.fails = true;
        }
        add_outlook(*mode, outlook, out)?;
    }
    Ok(())
}

// The files that are no log files.
fn add_names(folder: &Folder, out: &mut Output) -> Result<(), Fault> {
    for file in &folder.reserved {
        out.lines.named(&[
            ("reserved", Word::Bytes(file.path.as_bytes())),
            ("size", Word::Number(file.len)),
        ])?;
    }
    for name in &folder.others {
        out.lines.named(&[("other", Word::Bytes(name.as_bytes()))])?;
    }
    Ok(())
}

fn outlook_of(alloc: Global, queues: &BothQueues, mode: RecoveryMode) -> Result<Outlook, Fault> {
    let mut outlook = Outlook::new();
    outlook.add_queue(alloc, &queues.append, mode)?;
    outlook.add_queue(alloc, &queues.rewrite, mode)?;
    Ok(outlook)
}

fn add_outlook(mode: RecoveryMode, outlook: Outlook, out: &mut Output) -> Result<(), Fault> {
    let opens = if outlook.fails { "fails" } else { "opens" };
    out.lines.named(&[
        ("mode", Word::Text(mode_name(mode))),
        ("opening", Word::Text(opens)),
        ("files-cut", Word::Number(outlook.files)),
        ("bytes-lost", Word::Number(outlook.bytes)),
        ("zeros", Word::Number(outlook.zeros)),
        ("stale", Word::Number(outlook.stale)),
        ("files-passed", Word::Number(outlook.passed)),
        ("bytes-passed", Word::Number(outlook.passed_bytes)),
    ])?;
    Ok(())
}
