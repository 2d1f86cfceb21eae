//! What a check reports about opening the folders a and b, compared with an opening.

use crate::files::length;
use raft_dump::Planned;
use raft_env::FileSystem;
use raft_inspect::{Outlook, QueueFiles, inspect};
use raft_records::{Fault, Fresh, LogQueue};
use raft_test_rows::{Config, Engine, RecoveryMode};
use std::alloc::{AllocError, Global};

/// The log files of both queues.
struct Checked {
    append: QueueFiles,
    rewrite: QueueFiles,
}

// One call in each proof that drops it. A derived `Drop` would be one call for each field
// (docs/DECISIONS.md).
impl Drop for Checked {
    fn drop(self) {
        let Checked {
            append: _append,
            rewrite: _rewrite,
        } = self;
    }
}

fn check_both<F: FileSystem>(alloc: Global, files: &mut F) -> Result<Checked, Fault> {
    Ok(Checked {
        append: inspect(alloc, files, &["a", "b"], LogQueue::Append)?,
        rewrite: inspect(alloc, files, &["a", "b"], LogQueue::Rewrite)?,
    })
}

fn outlook_of(alloc: Global, checked: &Checked, mode: RecoveryMode) -> Result<Outlook, Fault> {
    let mut outlook = Outlook::new();
    outlook.add_queue(alloc, &checked.append, mode)?;
    outlook.add_queue(alloc, &checked.rewrite, mode)?;
    Ok(outlook)
}

fn config(alloc: Global, mode: RecoveryMode) -> Result<Config, AllocError> {
    let mut config = Config::fresh(alloc);
    config.dir = String::from_str(alloc, "a")?;
    config.spill_dir = Some(String::from_str(alloc, "b")?);
    config.recovery_mode = mode;
    Ok(config)
}

// Whether an opening succeeds, and the files afterwards.
fn opened<F: FileSystem + Drop>(alloc: Global, config: Config, files: F) -> (bool, F) {
    match Engine::open_in_order(alloc, config, files) {
        Ok(engine) => (true, engine.give_up()),
        Err(refused) => (false, refused.file_system),
    }
}

// The length of a file after the planned step. A file without a header gets one of 61 bytes.
fn planned_len(planned: Option<&Planned>, len: usize) -> usize {
    match planned {
        Some(Planned::Cut(0)) => 61,
        Some(Planned::Cut(end)) => *end,
        Some(Planned::Keep | Planned::Fail) | None => len,
    }
}

fn is_as_long<F: FileSystem>(
    alloc: Global,
    files: &mut F,
    path: &str,
    len: usize,
) -> Result<bool, Fault> {
    match length(files, path) {
        Ok(found) => Ok(found == len),
        Err(fault) => Err(fault.with_path(alloc, path)),
    }
}

// Whether each file of a queue has the planned length, or its old length if the opening failed.
fn are_left<F: FileSystem>(
    alloc: Global,
    files: &mut F,
    queue: &QueueFiles,
    plan: &[Planned],
    opens: bool,
) -> Result<bool, Fault> {
    for (place, (file, check)) in queue.files.iter().zip(&queue.checks).enumerate() {
        let planned = match place.checked_sub(queue.passed) {
            Some(kept) if opens => plan.get(kept),
            _ => None,
        };
        let len = planned_len(planned, check.len);
        if !is_as_long(alloc, files, file.path.as_str(), len)? {
            return Ok(false);
        }
    }
    Ok(true)
}

fn is_left<F: FileSystem>(
    alloc: Global,
    files: &mut F,
    queue: &QueueFiles,
    mode: RecoveryMode,
    opens: bool,
) -> Result<bool, Fault> {
    let plan = queue.plan(alloc, mode)?;
    are_left(alloc, files, queue, &plan, opens)
}

fn both_are_left<F: FileSystem>(
    alloc: Global,
    files: &mut F,
    checked: &Checked,
    mode: RecoveryMode,
    opens: bool,
) -> Result<bool, Fault> {
    Ok(
        is_left(alloc, files, &checked.append, mode, opens)?
            && is_left(alloc, files, &checked.rewrite, mode, opens)?,
    )
}

// Whether an opening fails exactly if the check reports so, and leaves the files as planned.
fn agrees<F: FileSystem + Drop>(
    alloc: Global,
    files: F,
    checked: &Checked,
    mode: RecoveryMode,
    fails: bool,
) -> Result<bool, Fault> {
    let (opens, mut left) = opened(alloc, config(alloc, mode)?, files);
    if opens == fails {
        return Ok(false);
    }
    both_are_left(alloc, &mut left, checked, mode, opens)
}

fn outlook_text(alloc: Global, outlook: &Outlook) -> Result<String, AllocError> {
    let Outlook {
        fails,
        files,
        bytes,
        zeros,
        stale,
        ..
    } = outlook;
    if *fails {
        String::from_str(alloc, "fails")
    } else {
        format!(in alloc; "opens {files} {bytes} {zeros} {stale}")
    }
}

fn text_if_done<F: FileSystem + Drop>(
    alloc: Global,
    files: F,
    checked: &Checked,
    mode: RecoveryMode,
) -> Result<String, Fault> {
    let outlook = outlook_of(alloc, checked, mode)?;
    Ok(if agrees(alloc, files, checked, mode, outlook.fails)? {
        outlook_text(alloc, &outlook)?
    } else {
        String::from_str(alloc, "otherwise")?
    })
}

/// Prints what a check reports about an opening, or `otherwise` if an opening does something else.
pub(crate) fn outlook<F: FileSystem + Drop>(
    alloc: Global,
    files: F,
    mode: RecoveryMode,
) -> Result<String, Fault> {
    let mut files = files;
    match check_both(alloc, &mut files) {
        Ok(checked) => text_if_done(alloc, files, &checked, mode),
        Err(fault) => Err(fault),
    }
}
