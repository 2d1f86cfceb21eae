//! What is written ahead of an opening.

use crate::changed::ChangedFiles;
use crate::opening::config;
use crate::stored::Stored;
use anyhow::Result;
use raft_command_line::Options;
use raft_config::Config;
use raft_console::{Progress, failure, note_made};
use raft_env::FileSystem;
use raft_opening::SpareLimits;
use raft_opening::prefill::prefill;
use raft_pipes::{LogFolders, make_folder};
use raft_records::Fault;
use std::alloc::Global;

/// Reserved files that are wanted.
struct Spares {
    config: Config,
    append_files: usize,
    /// How many there are, and how many there are to be.
    found: usize,
    count: usize,
}

// One call in a proof that drops it; derived, it would be one of each field (docs/DECISIONS.md).
impl Drop for Spares {
    fn drop(self) {
        let Spares {
            config: _config,
            append_files: _,
            found: _,
            count: _,
        } = self;
    }
}

/// Makes the reserved files that the opening wants, one after the other. Prints their size before,
/// and the progress meanwhile. If no space is left, the opening has fewer.
pub(crate) fn make_ahead<F: FileSystem + ChangedFiles>(
    rt: &HostRuntime,
    files: &mut F,
    options: &Options<'_>,
) -> Result<()> {
    match wanted(rt.alloc(), files, options) {
        Ok(Some(wanted)) => make_all(rt, files, &wanted, options),
        Ok(None) => Ok(()),
        Err(fault) => Err(failure("the log cannot be measured", &fault)),
    }
}

fn make_all<F: FileSystem + ChangedFiles>(
    rt: &HostRuntime,
    files: &mut F,
    wanted: &Spares,
    options: &Options<'_>,
) -> Result<()> {
    let count = wanted.count.saturating_sub(wanted.found) as u64;
    let size = wanted.config.target_file_size.0;
    let bytes = count.saturating_mul(size);
    let text = format!(in rt.alloc();
        "prefill-for-recycle: {count} reserved files of {size} bytes are written ahead, \
        {bytes} bytes in all"
    );
    note_made(rt, options, text)?;
    let mut progress = Progress::of(*rt, options)?;
    make_spill(rt, files, &wanted.config, options.json)?;
    for place in wanted.found..wanted.count {
        let done = place.saturating_sub(wanted.found) as u64;
        progress.at("reserved files written ahead", done, count)?;
        match make_next(rt.alloc(), files, wanted, place) {
            Ok(true) => {}
            Ok(false) => return Ok(()),
            Err(fault) => {
                files.tell_refusal(rt, options.json)?;
                return Err(failure("files cannot be made ahead", &fault));
            }
        }
    }
    Ok(())
}

// Makes the second folder if it is missing, as an opening does.
fn make_spill<F: FileSystem + ChangedFiles>(
    rt: &HostRuntime,
    files: &mut F,
    config: &Config,
    json: bool,
) -> Result<()> {
    let Some(spill) = &config.spill_dir else {
        return Ok(());
    };
    match make_folder(
        rt.alloc(),
        spill.as_str(),
        "the second folder is a file",
        files,
    ) {
        Ok(()) => Ok(()),
        Err(fault) => {
            files.tell_refusal(rt, json)?;
            Err(failure("the second folder cannot be made", &fault))
        }
    }
}

// Makes one more file if fewer than wanted exist. Returns whether there was space for it.
fn make_next<F: FileSystem>(
    alloc: Global,
    files: &mut F,
    wanted: &Spares,
    place: usize,
) -> Result<bool, Fault> {
    let config = &wanted.config;
    let folders = LogFolders::new(config)?;
    let found = folders.find_reserved(alloc, files)?;
    let limits = SpareLimits {
        recycle: config.recycle_capacity(),
        prefill: place.saturating_add(1),
    };
    let size = config.target_file_size.0 as usize;
    let made = prefill(
        alloc,
        &folders,
        found,
        wanted.append_files,
        limits,
        size,
        files,
    )?;
    Ok(made.len() > place)
}

// `None` if no file is missing.
fn wanted<F: FileSystem>(
    alloc: Global,
    files: &mut F,
    options: &Options<'_>,
) -> Result<Option<Spares>, Fault> {
    let mut config = config(alloc, options)?;
    if options.changing.dry_run || !config.prefill_for_recycle || config.sanitize().is_err() {
        return Ok(None);
    }
    let stored = Stored::find(alloc, files, options)?;
    let append_files = stored.append_files();
    let room = config.recycle_capacity().saturating_sub(append_files);
    let count = config.prefill_capacity().min(room);
    let found = usize::try_from(stored.reserved.files).unwrap_or(usize::MAX);
    if found >= count {
        return Ok(None);
    }
    Ok(Some(Spares {
        config,
        append_files,
        found,
        count,
    }))
}
