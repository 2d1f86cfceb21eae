//! Each command that looks, at a whole log and at one whose first file is broken, which it leaves.

use crate::files::{FileParts, OF_RAFTCTL, TORN_FRONT, end, make};
use crate::standing::{set_writable, standing};
use crate::words::words_of;
use raft_command_line::{Request, Verb, parse};
use raft_commands::look;
use std::test::Fail;
use std::thread::Threads;

/// The words after the folder, and the status for a whole log and for a broken one; `None` if the
/// command fails.
struct Command(&'static [&'static str], Option<u8>, Option<u8>);

static COMMANDS: [Command; 15] = [
    Command(&["get", "1", "a"], Some(0), None),
    Command(&["get", "1", "b"], Some(3), None),
    Command(&["list"], Some(0), None),
    Command(&["scan", "1"], Some(0), None),
    Command(&["entry", "7", "1"], Some(0), None),
    Command(&["entry", "7", "2"], Some(3), None),
    Command(&["entries", "7"], Some(0), None),
    Command(&["groups"], Some(0), None),
    Command(&["stat"], Some(0), None),
    Command(&["verify", "3", "40"], Some(0), None),
    Command(&["dump"], Some(0), Some(4)),
    Command(&["check"], Some(0), Some(5)),
    Command(&["check", "--mode", "any"], Some(0), Some(4)),
    Command(&["consistency"], Some(0), Some(5)),
    Command(&["picture"], Some(0), None),
];

// The status of a look that is asked for, or nothing where it fails.
fn status_of<R: Threads + Sync>(rt: HostRuntime, threads: &R, request: &Request<'_>) -> Option<u8> {
    match &request.verb {
        Verb::Look(what) => match look(rt, threads, request, *what) {
            Ok(status) => Some(status.code()),
            Err(_) => None,
        },
        _ => None,
    }
}

// Whether the command ends so, and leaves the folder.
fn ends_so<R: Threads + Sync>(
    rt: HostRuntime,
    threads: &R,
    folder: &str,
    words: &[String],
    wanted: Option<u8>,
) -> Result<bool, Fail> {
    let before = standing(&rt, folder)?;
    let request = parse(rt.alloc(), words)?;
    let status = status_of(rt, threads, &request);
    Ok(status == wanted && standing(&rt, folder)? == before)
}

// .. also where the folder may not be written.
fn always_ends_so<R: Threads + Sync>(
    rt: HostRuntime,
    threads: &R,
    folder: &str,
    command: &'static [&'static str],
    wanted: Option<u8>,
) -> Result<bool, Fail> {
    let words = words_of(rt.alloc(), folder, command)?;
    let first = ends_so(rt, threads, folder, &words, wanted)?;
    set_writable(&rt, folder, false)?;
    let second = ends_so(rt, threads, folder, &words, wanted)?;
    set_writable(&rt, folder, true)?;
    Ok(first && second)
}

// Fails unless the command ends so at a folder with these files, which have this name.
fn try_at<R: Threads + Sync>(
    rt: HostRuntime,
    threads: &R,
    log: (&'static str, &'static [FileParts]),
    command: &'static [&'static str],
    wanted: Option<u8>,
    place: usize,
) -> Result<(), Fail> {
    let (name, files) = log;
    let folder = make(&rt, "command", files)?;
    let ended = always_ends_so(rt, threads, folder.as_str(), command, wanted);
    end(&rt, folder.as_str(), ended, name, place)
}

#[test]
fn commands_that_look_leave_the_folder(rt: HostRuntime) -> Result<(), Fail> {
    for (place, Command(words, whole, broken)) in COMMANDS.iter().enumerate() {
        try_at(rt, &rt, ("whole", OF_RAFTCTL), words, *whole, place)?;
        try_at(rt, &rt, ("broken", TORN_FRONT), words, *broken, place)?;
    }
    Ok(())
}
