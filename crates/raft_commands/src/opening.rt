//! Opens the log of files. If it can't be opened, says where it is broken.

use crate::changed::ChangedFiles;
use anyhow::{Result, anyhow};
use raft_command_line::{Options, mode_name};
use raft_config::{Config, RecoveryMode};
use raft_console::{failure, note_made};
use raft_contents::{Engine, Refused};
use raft_env::FileSystem;
use raft_inspect::{QueueFiles, inspect};
use raft_records::{Fault, Fresh, IoKind, LogQueue};
use std::alloc::{AllocError, Global};
use std::thread::Threads;

/// Opens the log, whose files are read by as many workers as the settings in force have threads;
/// in a dry run as one in memory. If the disk has no space for the header of a last file without
/// records, the log is opened without that file.
pub(crate) fn open<R: Threads + Sync, F: FileSystem + ChangedFiles + Drop>(
    rt: &HostRuntime,
    threads: &R,
    files: F,
    options: &Options<'_>,
) -> Result<Engine<F>> {
    let alloc = rt.alloc();
    if options.changing.dry_run {
        return open_image(threads, alloc, files, options);
    }
    match Engine::open_with_file_system(threads, alloc, config(alloc, options)?, files) {
        Ok(engine) => Ok(engine),
        Err(refused) => open_without_empty(rt, threads, refused, options),
    }
}

fn open_without_empty<R: Threads + Sync, F: FileSystem + ChangedFiles + Drop>(
    rt: &HostRuntime,
    threads: &R,
    refused: Refused<F>,
    options: &Options<'_>,
) -> Result<Engine<F>> {
    let mut refused = refused;
    if !is_full(&refused.fault) || !delete_empty(rt, &mut refused.file_system, options)? {
        return Err(told_refusal(rt, refused, options));
    }
    let Refused {
        fault: _fault,
        file_system,
    } = refused;
    let config = config(rt.alloc(), options)?;
    match Engine::open_with_file_system(threads, rt.alloc(), config, file_system) {
        Ok(engine) => Ok(engine),
        Err(refused) => Err(told_refusal(rt, refused, options)),
    }
}

fn is_full(fault: &Fault) -> bool {
    matches!(fault, Fault::Io(IoKind::NoSpace, _))
}

// The error of an opening, after the system's refusal is printed.
fn told_refusal<F: FileSystem + ChangedFiles + Drop>(
    rt: &HostRuntime,
    refused: Refused<F>,
    options: &Options<'_>,
) -> anyhow::Error {
    // What can't be told hides no error.
    let _ = refused.file_system.tell_refusal(rt, options.json);
    refusal(rt.alloc(), refused, options)
}

// Deletes the last file of each queue if it holds nothing and an earlier one exists. Returns
// whether there was one. A rotation that finds no space leaves such a file.
fn delete_empty<F: FileSystem + ChangedFiles>(
    rt: &HostRuntime,
    files: &mut F,
    options: &Options<'_>,
) -> Result<bool> {
    let mut is_one = false;
    for queue in &[LogQueue::Append, LogQueue::Rewrite] {
        if let Some(path) = empty_last(rt.alloc(), files, *queue, options)? {
            delete_file(rt, files, path.as_str(), options)?;
            is_one = true;
        }
    }
    Ok(is_one)
}

fn delete_file<F: FileSystem + ChangedFiles>(
    rt: &HostRuntime,
    files: &mut F,
    path: &str,
    options: &Options<'_>,
) -> Result<()> {
    if let Err(fault) = files.delete(path) {
        files.tell_refusal(rt, options.json)?;
        let fault = fault.with_path(rt.alloc(), path);
        return Err(failure("an empty file cannot be deleted", &fault));
    }
    let text = format!(in rt.alloc();
        "{path} held nothing, and no space is left for its header: it was deleted"
    );
    note_made(rt, options, text)
}

fn empty_last<F: FileSystem>(
    alloc: Global,
    files: &mut F,
    queue: LogQueue,
    options: &Options<'_>,
) -> Result<Option<String>> {
    let found = match inspect(alloc, files, &options.folders(alloc)?, queue) {
        Ok(found) => found,
        Err(fault) => return Err(failure("the files cannot be checked", &fault)),
    };
    match found.empty_last() {
        Some(path) => Ok(Some(String::from_str(alloc, path)?)),
        None => Ok(None),
    }
}

/// Opens a log in memory only for a look: no file is made ahead.
pub(crate) fn open_image<R: Threads + Sync, F: FileSystem + Drop>(
    threads: &R,
    alloc: Global,
    image: F,
    options: &Options<'_>,
) -> Result<Engine<F>> {
    let mut config = config(alloc, options)?;
    config.enable_log_recycle = false;
    config.prefill_for_recycle = false;
    match Engine::open_with_file_system(threads, alloc, config, image) {
        Ok(engine) => Ok(engine),
        Err(refused) => Err(refusal(alloc, refused, options)),
    }
}

/// Returns the files. With `json` the system's refusal is printed as an object.
pub(crate) fn close<F: FileSystem + ChangedFiles + Drop>(
    rt: &HostRuntime,
    engine: Engine<F>,
    json: bool,
) -> Result<F> {
    match engine.close() {
        Ok(files) => Ok(files),
        Err(refused) => {
            refused.file_system.tell_refusal(rt, json)?;
            Err(failure("the log cannot be closed", &refused.fault))
        }
    }
}

/// The settings in force: what the options name, over those of the file.
pub fn config(alloc: Global, options: &Options<'_>) -> Result<Config, AllocError> {
    let mut config = match options.base {
        Some(base) => copy_of(base)?,
        None => Config::fresh(alloc),
    };
    config.recovery_mode = options.mode;
    if let Some(spill) = options.spill {
        config.spill_dir = Some(String::from_str(alloc, spill)?);
    }
    if let Some(target) = options.target {
        config.target_file_size = target;
    }
    if let Some(threads) = options.threads {
        config.recovery_threads = threads as usize;
    }
    Ok(config)
}

fn copy_of(config: &Config) -> Result<Config, AllocError> {
    match config.clone() {
        Ok(config) => Ok(config),
        Err(_) => Err(AllocError),
    }
}

// The error of an opening, with the place of the damage.
fn refusal<F: FileSystem + Drop>(
    alloc: Global,
    refused: Refused<F>,
    options: &Options<'_>,
) -> anyhow::Error {
    let Refused {
        fault,
        mut file_system,
    } = refused;
    if let Fault::Corruption = fault {
        if let Ok(Some(said)) = broken(alloc, &mut file_system, options) {
            return anyhow!("{said}").context("the log cannot be opened");
        }
    }
    failure("the log cannot be opened", &fault)
}

/// The first place at which an opening fails, and the first mode in which it wouldn't.
pub(crate) fn broken<F: FileSystem>(
    alloc: Global,
    files: &mut F,
    options: &Options<'_>,
) -> Result<Option<String>, Fault> {
    let folders = options.folders(alloc)?;
    for queue in &[LogQueue::Append, LogQueue::Rewrite] {
        if let Some(said) = broken_in(alloc, files, &folders, *queue, options.mode)? {
            return Ok(Some(said));
        }
    }
    Ok(None)
}

fn broken_in<F: FileSystem>(
    alloc: Global,
    files: &mut F,
    folders: &[&str],
    queue: LogQueue,
    mode: RecoveryMode,
) -> Result<Option<String>, Fault> {
    let found = inspect(alloc, files, folders, queue)?;
    broken_place(alloc, &found, mode)
}

fn broken_place(
    alloc: Global,
    found: &QueueFiles,
    mode: RecoveryMode,
) -> Result<Option<String>, Fault> {
    let Some((path, end)) = found.failing(alloc, mode)? else {
        return Ok(None);
    };
    let said = match mode_that_opens(alloc, found)? {
        Some(mode) => {
            let mode = mode_name(mode);
            format!(in alloc;
                "corruption in {path} at {end}; `--mode {mode}` would cut it off and go on"
            )?
        }
        None => format!(in alloc; "{path} at {end} can be read on in no mode")?,
    };
    Ok(Some(said))
}

fn mode_that_opens(alloc: Global, found: &QueueFiles) -> Result<Option<RecoveryMode>, Fault> {
    for mode in &[
        RecoveryMode::TolerateTailCorruption,
        RecoveryMode::TolerateAnyCorruption,
    ] {
        if found.failing(alloc, *mode)?.is_none() {
            return Ok(Some(*mode));
        }
    }
    Ok(None)
}
