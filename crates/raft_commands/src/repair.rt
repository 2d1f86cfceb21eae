//! Cuts off what an opening cuts, and keeps it in files beside.

use crate::changed::ChangedFiles;
use crate::guard::guard;
use crate::opening::{close, open};
use crate::taken::{Taken, give_back};
use anyhow::Result;
use raft_command_line::Request;
use raft_console::{Output, Status};
use raft_contents::Engine;
use raft_env::FileSystem;
use raft_inspect::Word;
use std::thread::Threads;

/// Opens the log in the mode of the options. Prints the bytes that the opening took out of the
/// files, and the files that keep them. If the log can't be opened, nothing is cut, printed or
/// kept.
pub(crate) fn repair<R: Threads + Sync, F: FileSystem + ChangedFiles + Drop>(
    rt: &HostRuntime,
    threads: &R,
    mut files: F,
    request: &Request<'_>,
    out: &mut Output,
) -> Result<Status> {
    let Some(taken) = guard(rt, &mut files, request)? else {
        return Ok(Status::Refused);
    };
    match open(rt, threads, files, &request.options) {
        Ok(engine) => end(rt, engine, request, &taken, out),
        Err(error) => {
            give_back(rt, request, &taken)?;
            add_taken(&taken, true, out)?;
            Err(error)
        }
    }
}

fn end<F: FileSystem + ChangedFiles + Drop>(
    rt: &HostRuntime,
    engine: Engine<F>,
    request: &Request<'_>,
    taken: &[Taken],
    out: &mut Output,
) -> Result<Status> {
    if let Err(error) = add_taken(taken, false, out) {
        engine.give_up();
        return Err(error);
    }
    close(rt, engine, request.options.json)?;
    Ok(Status::Done)
}

// Prints what was taken out, or only the files that were moved aside.
fn add_taken(taken: &[Taken], moved: bool, out: &mut Output) -> Result<()> {
    for each in taken {
        if moved && each.offset.is_some() {
            continue;
        }
        add_one(each, out)?;
    }
    out.print()
}

fn add_one(taken: &Taken, out: &mut Output) -> Result<()> {
    let file = ("file", Word::Bytes(taken.path.as_bytes()));
    let bytes = ("bytes", Word::Number(taken.len));
    let kept = match &taken.kept {
        Some(kept) => kept.as_str(),
        None => "",
    };
    let kept = ("kept", Word::Bytes(kept.as_bytes()));
    match taken.offset {
        Some(offset) => out.named(&[file, ("cut", Word::Number(offset)), bytes, kept]),
        None => out.named(&[file, ("passed", Word::Number(taken.len)), kept]),
    }
}
