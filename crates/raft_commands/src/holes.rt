//! The holes that the entries of a log leave.

use anyhow::Result;
use raft_command_line::Request;
use raft_consistency::consistency_check_with_file_system;
use raft_console::{Output, Progress, Status, failure, note};
use raft_inspect::Word;
use raft_looks::Folder;

/// Prints a line for each group whose entries have a hole: the group, and the last index before
/// its first hole. It returns `None` if a file no longer exists. An opening that tolerates all
/// damage reads the files so.
pub(crate) fn print_holes(
    rt: &HostRuntime,
    folder: &Folder,
    request: &Request<'_>,
    progress: &mut Progress,
    out: &mut Output,
) -> Result<Option<Status>> {
    let Some(plan) = folder.plan(&request.options, progress)? else {
        return Ok(None);
    };
    if !request.options.quiet {
        plan.tell(rt, &request.options)?;
    }
    let Some(holes) = holes_in(rt, folder, progress)? else {
        return Ok(None);
    };
    add_holes(&holes, out)?;
    if !holes.is_empty() {
        note(rt, &request.options, "the entries of a group have a hole")?;
    }
    match plan.status() {
        Status::Done if !holes.is_empty() => Ok(Some(Status::Absent)),
        status => Ok(Some(status)),
    }
}

// Each group with a hole, and the last index before it; `None` if a file no longer exists.
fn holes_in(
    rt: &HostRuntime,
    folder: &Folder,
    progress: &mut Progress,
) -> Result<Option<Vec<(u64, u64)>>> {
    let Some(image) = folder.image_in_one_folder(progress)? else {
        return Ok(None);
    };
    progress.begin("the entries are being looked through")?;
    match consistency_check_with_file_system(rt.alloc(), "", image) {
        Ok((holes, _)) => Ok(Some(holes)),
        Err((fault, _)) => Err(failure("the log cannot be looked through", &fault)),
    }
}

fn add_holes(holes: &[(u64, u64)], out: &mut Output) -> Result<()> {
    for (group, last) in holes {
        out.named(&[
            ("group", Word::Number(*group)),
            ("hole-after", Word::Number(*last)),
        ])?;
    }
    Ok(())
}
