//! Items of log files, of a folder or of one file anywhere.

use crate::looks::{note_use, tell_unread};
use anyhow::Result;
use raft_command_line::{Dump, Options, Request};
use raft_console::{Output, Progress, Status};
use raft_inspect::{Filter, ItemKind};
use raft_looks::{Folder, dump};

/// Prints a line for each requested item. A file whose name has a `/` is one of the system's.
pub(crate) fn print_items(
    rt: HostRuntime,
    request: &Request<'_>,
    asked: Dump<'_>,
    progress: &mut Progress,
    out: &mut Output,
) -> Result<Status> {
    let filter = Filter {
        group: asked.group,
        kind: asked.kind.and_then(ItemKind::named),
        from: asked.from,
        to: asked.to,
    };
    match asked.file.and_then(at_last_slash) {
        Some((place, name)) => print_file(rt, request, place, name, filter, progress, out),
        None => print_folder(rt, request, asked.file, filter, progress, out),
    }
}

// The items of a file anywhere.
fn print_file(
    rt: HostRuntime,
    request: &Request<'_>,
    place: &str,
    name: &str,
    filter: Filter,
    progress: &mut Progress,
    out: &mut Output,
) -> Result<Status> {
    let options = Options {
        spill: None,
        ..request.options
    };
    let folder = Folder::open(rt, place, &options)?;
    dump(rt.alloc(), &folder, Some(name), filter, progress, out)
}

// The items of all files of the folder, or of one. What an opening would not read besides shows in
// the status.
fn print_folder(
    rt: HostRuntime,
    request: &Request<'_>,
    file: Option<&str>,
    filter: Filter,
    progress: &mut Progress,
    out: &mut Output,
) -> Result<Status> {
    let folder = Folder::open(rt, request.folder, &request.options)?;
    note_use(&rt, &folder, request)?;
    let unread = match file {
        Some(_) => Status::Done,
        None => tell_unread(&rt, &folder, request, progress)?,
    };
    Ok(unread.or_worse(dump(rt.alloc(), &folder, file, filter, progress, out)?))
}

// The folder of a path with a `/`, and the name in it.
fn at_last_slash(path: &str) -> Option<(&str, &str)> {
    let (folder, name) = path.rsplit_once('/')?;
    Some((if folder.is_empty() { "/" } else { folder }, name))
}
