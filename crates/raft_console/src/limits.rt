//! The limit of file sizes, at which the system ends a program by a signal.

use anyhow::{Result, anyhow};
use raft_command_line::{Options, Request, Verb};
use std::fs;

/// The system's list of this process's limits, and the name of this one.
const LIMITS: &str = "/proc/self/limits";

const NAME: &str = "Max file size";

/// What the system knows of this process, the line of the signals that it ignores, and the bit of
/// SIGXFSZ there.
const STATUS: &str = "/proc/self/status";

const IGNORED: &str = "SigIgn:";

const SIGXFSZ: u64 = 1 << 24;

/// How many bytes more than its target size and a long batch a log file may take.
const ROOM: u64 = 4 * 1024 * 1024;

/// A record has at most so many bytes for each item, besides the item's own.
const ITEM_ROOM: u64 = 32;

/// The file that is an open stream of this process.
pub(crate) const OUTPUT: &str = "/proc/self/fd/1";

pub(crate) const ERRORS: &str = "/proc/self/fd/2";

/// Fails before a command that writes log files, if a file may not become so long as these.
pub fn check_file_limit(rt: &HostRuntime, request: &Request<'_>) -> Result<()> {
    match &request.verb {
        Verb::Look(_) | Verb::Settings | Verb::Watch(_) | Verb::Fork(_) => Ok(()),
        _ => check_batch(rt, &request.options, 0, 0),
    }
}

/// Fails if a log file may not become so long as a batch of so many items makes it; `longest` is
/// the length of the longest item.
pub fn check_batch(
    rt: &HostRuntime,
    options: &Options<'_>,
    items: usize,
    longest: usize,
) -> Result<()> {
    let batch = (items as u64)
        .saturating_mul(ITEM_ROOM)
        .saturating_add(longest as u64);
    let len = options.target_bytes().saturating_add(ROOM);
    match file_limit(rt) {
        Some(limit) if limit < len.saturating_add(batch) && !options.changing.dry_run => {
            Err(anyhow!(
                "raise `ulimit -f`, run `trap '' XFSZ` before, or use a smaller `--target`"
            ).context(format_args!("a file may have {limit} bytes, and a log file more")))
        }
        _ => Ok(()),
    }
}

/// How many bytes a batch may have, so that no log file becomes longer than a file may be; none
/// without a limit.
pub fn batch_room(rt: &HostRuntime, options: &Options<'_>) -> Option<u64> {
    if options.changing.dry_run {
        return None;
    }
    let len = options.target_bytes().saturating_add(ROOM);
    Some(file_limit(rt)?.saturating_sub(len))
}

/// Fails if a file may not become so long.
pub fn check_len(rt: &HostRuntime, len: u64) -> Result<()> {
    match file_limit(rt) {
        Some(limit) if limit < len => Err(anyhow!(
            "a file may have {limit} bytes (`ulimit -f`), and this one has {len}"
        )),
        _ => Ok(()),
    }
}

/// Fails if an open stream is a file that may not become longer by so many bytes.
pub(crate) fn check_stream(rt: &HostRuntime, stream: &str, bytes: usize) -> Result<()> {
    let Some(limit) = file_limit(rt) else {
        return Ok(());
    };
    match fs::metadata(rt, stream) {
        Ok(metadata) if metadata.is_file() => {
            let len = metadata.len().saturating_add(bytes as u64);
            if limit < len {
                return Err(anyhow!("a file may have {limit} bytes (`ulimit -f`)"));
            }
            Ok(())
        }
        _ => Ok(()),
    }
}

// How many bytes a file may have, if the system ends this process by a signal at a longer one; none
// without a limit, and if the caller has the signal ignored: then the limit is an error like a full
// disk. This program cannot have it ignored.
fn file_limit(rt: &HostRuntime) -> Option<u64> {
    let text = fs::read_to_string(rt, LIMITS).ok()?;
    let limit = word_after(text.as_str(), NAME)?.parse::<u64>().ok()?;
    (!is_signal_ignored(rt)).then_some(limit)
}

fn is_signal_ignored(rt: &HostRuntime) -> bool {
    match fs::read_to_string(rt, STATUS) {
        Ok(text) => match ignored_in(text.as_str()) {
            Some(signals) => signals & SIGXFSZ != 0,
            None => false,
        },
        Err(_) => false,
    }
}

fn ignored_in(text: &str) -> Option<u64> {
    u64::from_str_radix(word_after(text, IGNORED)?, 16).ok()
}

// The first word after a name at the begin of a line.
fn word_after<'a>(text: &'a str, name: &str) -> Option<&'a str> {
    let line = text.lines().find(|line| line.starts_with(name))?;
    line.get(name.len()..)?.split_whitespace().next()
}
