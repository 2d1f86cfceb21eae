//! The contents of another log's folder, written to this one with its settings.

use crate::source_log::SourceLog;
use anyhow::{Result, bail};
use raft_command_line::{Import, Options, Request};
use raft_commands::change_by;
use raft_console::{Output, Status, tell};
use raft_contents::{LineImport, Material, TableImport, filter_of};
use raft_gathering::{Gathering, Part, Source, gather, print_missing, sources_of};
use raft_looks::is_inside;
use raft_opening_plan::Plan;
use std::thread::Threads;

/// Writes the batches of lines that `dump --json` printed, in their order. Nothing is written if a
/// line can't be read.
pub fn import_lines<R: Threads + Sync>(
    rt: HostRuntime,
    threads: &R,
    request: &Request<'_>,
    import: Import<'_>,
) -> Result<Status> {
    let mut material = Material::Lines(LineImport::read(&rt, import, &request.options)?);
    change_by(rt, threads, request, &mut material)
}

/// Writes the contents of another folder's log files, whose entries may be compressed with LZ4.
/// If more of that log is lost than the end of a queue, or entries between others of a group, then
/// nothing is done without `--cut`, and the status is 7. If the end of a queue can't be read, it is
/// left out, and that is printed. Then, and with `--cut`, the status is 4.
pub fn import_folder<R: Threads + Sync>(
    rt: HostRuntime,
    threads: &R,
    request: &Request<'_>,
    import: Import<'_>,
    folder: &str,
) -> Result<Status> {
    if is_inside(&rt, request.folder, folder)? {
        bail!(
            "{}: this log would be in the folder that is read",
            request.folder
        );
    }
    let log = look_at(rt, request, import, folder)?;
    let mut sources = sources_of(&rt, folder, import.spill, false)?;
    sources.retain(|source| source.part == Part::Log);
    log.drop_left_over(&mut sources);
    if sources.is_empty() {
        log.plan.tell(&rt, &request.options)?;
        bail!("{folder}: no log file");
    }
    check_single(&sources)?;
    let gathering = gather(&rt, &sources, false, &request.options)?;
    let Some(status) = judge(rt, request, import, folder, &log.plan, &gathering)? else {
        return Ok(Status::Refused);
    };
    let mut material = Material::Tables(TableImport {
        tables: &gathering.tables,
        filter: filter_of(import),
        status,
    });
    change_by(rt, threads, request, &mut material)
}

// What an opening of the other log does not read. The import has an option of its own for the
// second folder.
fn look_at(
    rt: HostRuntime,
    request: &Request<'_>,
    import: Import<'_>,
    folder: &str,
) -> Result<SourceLog> {
    let options = Options {
        spill: import.spill,
        ..request.options
    };
    let mut log = SourceLog::look_at(rt, folder, &options)?;
    log.plan.name_source(rt.alloc())?;
    Ok(log)
}

// The sources are in the order of their numbers.
fn check_single(sources: &[Source]) -> Result<()> {
    for pair in sources.windows(2) {
        if let [one, other] = pair {
            if one.id == other.id {
                bail!(
                    "{} and {} have one number: remove one",
                    one.path,
                    other.path
                );
            }
        }
    }
    Ok(())
}

// Prints what is lost of the other log, and the gaps of its groups. Returns the status with which
// the import continues; none if it does not.
fn judge(
    rt: HostRuntime,
    request: &Request<'_>,
    import: Import<'_>,
    folder: &str,
    plan: &Plan,
    gathering: &Gathering,
) -> Result<Option<Status>> {
    let options = &request.options;
    let report = &gathering.report;
    let tables = &gathering.tables;
    let filter = filter_of(import);
    let has_gap = tables.has_gap(filter);
    let is_partial = plan.refusing().is_some() || plan.failing().is_some();
    if is_partial || !options.quiet {
        plan.tell(&rt, options)?;
    }
    let is_whole = report.is_whole() && !is_partial && !has_gap;
    let mut out = Output::new(rt, options);
    if !is_whole {
        report.print(&mut out)?;
    }
    print_missing(tables, filter, &mut out)?;
    out.print()?;
    if is_whole {
        return Ok(Some(Status::Done));
    }
    let loses_ends_alone = report.loses_ends_alone() && !is_partial && !has_gap;
    if loses_ends_alone || options.changing.cut {
        return Ok(Some(Status::WouldCut));
    }
    refuse(rt, options, folder, is_partial)?;
    Ok(None)
}

fn refuse(rt: HostRuntime, options: &Options<'_>, folder: &str, is_partial: bool) -> Result<()> {
    let text = if is_partial {
        format!(in rt.alloc();
            "{folder}: not all of that log is read, and nothing was done: the plan above says what \
            mends it, `--cut` imports the rest"
        )?
    } else {
        format!(in rt.alloc();
            "{folder}: more is lost than the end of a queue, and nothing was done: \
            `raftctl {folder} salvage TARGET` prints what can be read, `--cut` imports it"
        )?
    };
    tell(&rt, options.json, "error", text.as_str())
}
