//! Looks at a log every few seconds.

use crate::drawing::Picture;
use crate::queues::WatchedLog;
use crate::report::print_look;
use anyhow::Result;
use raft_command_line::{Request, Watch};
use raft_console::{Output, Progress, Status, print_bytes};
use raft_looks::Folder;
use std::io::IsTerminal;
use std::thread;
use std::time::{Duration, Instant};

/// Clears the terminal.
const CLEAR: &str = "\x1b[2J";

/// Prints the changes of the log in the request's folder every few seconds: as a picture on a
/// terminal, otherwise as lines. Between two looks it doesn't lock the folder. It fails if the
/// folder doesn't exist, or if a file can't be read.
pub fn watch(rt: HostRuntime, request: &Request<'_>, asked: Watch) -> Result<Status> {
    let alloc = rt.alloc();
    let each = asked.each.max(1);
    let is_json = request.options.json;
    let is_drawn = !is_json && rt.stdout().is_terminal();
    let start = Instant::now(&rt)?;
    let mut progress = Progress::of(rt, &request.options)?;
    let mut out = Output::new(rt, &request.options);
    let mut picture = Picture::new(alloc, request.folder, each);
    let mut log = WatchedLog::new(alloc);
    if is_drawn {
        print_bytes(&rt, CLEAR.as_bytes())?;
    }
    for turn in 0..asked.count.unwrap_or(u64::MAX) {
        wait_until(&rt, &start, turn.saturating_mul(each))?;
        let folder = Folder::open(rt, request.folder, &request.options)?;
        let changes = log.look(&folder, &mut progress)?;
        drop(folder);
        if is_drawn {
            let text = picture.draw(&log, &changes, asked.groups)?;
            print_bytes(&rt, text.as_bytes())?;
        } else {
            print_look(alloc, &log, &changes, asked.groups, is_json, &mut out)?;
        }
        // Only the first look reads all files and takes long.
        progress = Progress::new(rt, true)?;
    }
    Ok(Status::Done)
}

// Waits until this number of seconds after the start.
fn wait_until(rt: &HostRuntime, start: &Instant, seconds: u64) -> Result<()> {
    let passed = u64::try_from(start.elapsed(rt)?.as_millis())?;
    let left = seconds.saturating_mul(1000).saturating_sub(passed);
    if left > 0 {
        thread::sleep(rt, Duration::from_millis(left));
    }
    Ok(())
}
