//! Reserved files, the folder of a new file, and metadata of deleted files.

use crate::crashed_queues::recover;
use crate::failing::Failing;
use crate::folders::{HEADER, begun_in, has_zeros, have_lengths, settings, stores};
use crate::reserved_rows::{
    Answer, Cleared, FILE_7, FILE_8, FILE_9, Prefilled, RESERVED_1, RESERVED_2, RESERVED_3,
    RESERVED_4, Refused, Room,
};
use crate::two_queues::finished;
use raft_config::Config;
use raft_env::FileSystem;
use raft_opening::clear_metadata;
use raft_opening::prefill::{SpareLimits, prefill};
use raft_pipes::{LogFolders, SpareFile};
use raft_records::{Fault, LogQueue, ReadableSize};
use std::alloc::Global;

// Gives metadata to these files.
fn notes_all<F: Failing>(fs: &mut F, paths: &[&str]) -> bool {
    for path in paths {
        if fs.note(path).is_err() {
            return false;
        }
    }
    true
}

fn is_among(path: &str, paths: &[&str]) -> bool {
    for found in paths {
        if *found == path {
            return true;
        }
    }
    false
}

// Whether of the files that had metadata exactly these still have some.
fn are_left<F: FileSystem>(fs: &F, had: &[&str], left: &[&str]) -> bool {
    for path in had {
        if fs.exists_metadata(path) != is_among(path, left) {
            return false;
        }
    }
    true
}

// Removes the metadata before the first file of the Append queue, in one folder.
fn clear<F: FileSystem>(alloc: Global, fs: &mut F, first: u64) -> Result<(), Fault> {
    let folders = LogFolders::new(&settings(alloc, None)?)?;
    clear_metadata(alloc, &folders, LogQueue::Append, first, fs)
}

fn refuses<F: Failing>(fs: &mut F, refused: &Refused) -> bool {
    match refused {
        Some((call, nth, kind)) => fs.fail(*call, *nth, *kind).is_ok(),
        None => true,
    }
}

pub(crate) fn is_cleared<F: Failing>(alloc: Global, row: &Cleared) -> bool {
    let mut fs = F::fresh(alloc);
    notes_all(&mut fs, row.had)
        && refuses(&mut fs, &row.refused)
        && clear(alloc, &mut fs, row.first).is_ok()
        && are_left(&fs, row.had, row.left)
}

fn both_folders(alloc: Global) -> Result<LogFolders, Fault> {
    LogFolders::new(&settings(alloc, Some(("data", "more")))?)
}

// The index of the folder that gets a new file of 1024 bytes.
fn place<F: FileSystem>(alloc: Global, fs: &mut F) -> Option<usize> {
    match both_folders(alloc) {
        Ok(folders) => Some(folders.choose(1024, fs)),
        Err(_) => None,
    }
}

pub(crate) fn is_placed<F: Failing>(alloc: Global, row: &Room) -> bool {
    let mut fs = F::fresh(alloc);
    fs.free_to("data", row.free.0).is_ok()
        && fs.free_to("more", row.free.1).is_ok()
        && refuses(&mut fs, &row.refused)
        && place(alloc, &mut fs) == Some(row.place)
}

fn are_spare(spare: &[SpareFile], wanted: &[&str]) -> bool {
    for (file, path) in spare.iter().zip(wanted) {
        if file.path() != *path {
            return false;
        }
    }
    spare.len() == wanted.len()
}

fn is_answer(answer: Result<Vec<SpareFile>, Fault>, wanted: &Answer) -> bool {
    match (answer, wanted) {
        (Ok(spare), Answer::Spare(paths)) => are_spare(&spare, paths),
        (Err(Fault::Io(_, _)), Answer::Refused) => true,
        _ => false,
    }
}

fn makes_files<F: FileSystem>(fs: &mut F, paths: &[&str]) -> bool {
    for path in paths {
        if fs.create(path).is_err() {
            return false;
        }
    }
    true
}

// Whether no file has one of the paths.
fn are_gone<F: FileSystem>(fs: &F, paths: &[&str]) -> bool {
    for path in paths {
        if fs.is_file(path) {
            return false;
        }
    }
    true
}

// Makes spare files from the reserved ones that are found.
fn made_ahead<F: FileSystem>(
    alloc: Global,
    fs: &mut F,
    folders: &LogFolders,
    row: &Prefilled,
) -> Result<Vec<SpareFile>, Fault> {
    let found = folders.find_reserved(alloc, fs)?;
    let limits = SpareLimits {
        recycle: row.limits.0,
        prefill: row.limits.1,
    };
    let size = row.target_size;
    prefill(alloc, folders, found, row.append_files, limits, size, fs)
}

fn comes_to<F: FileSystem>(alloc: Global, fs: &mut F, row: &Prefilled) -> bool {
    match both_folders(alloc) {
        Ok(folders) => {
            is_answer(made_ahead(alloc, fs, &folders, row), &row.spare)
                && have_lengths(fs, row.after)
                && are_gone(fs, row.gone)
        }
        Err(_) => false,
    }
}

/// Whether making spare files ends as the row says.
pub(crate) fn is_prefilled<F: Failing>(alloc: Global, row: &Prefilled) -> bool {
    let mut fs = F::fresh(alloc);
    fs.make_dir("data").is_ok()
        && fs.make_dir("more").is_ok()
        && makes_files(&mut fs, row.stored)
        && refuses(&mut fs, &row.refused)
        && comes_to(alloc, &mut fs, row)
}

// The files after an opening in these settings.
fn opened<F: FileSystem + Drop>(alloc: Global, config: &Config, files: F) -> Option<F> {
    match begun_in(alloc, config, files) {
        Ok(mut builder) => {
            let is_read = recover(alloc, &mut builder).is_ok();
            let (ended, files) = finished(builder);
            if is_read && ended.is_ok() {
                Some(files)
            } else {
                None
            }
        }
        Err(_) => None,
    }
}

// Settings with four spare files of 1024 bytes, which are made at the opening or not.
fn spare_settings(alloc: Global, is_prefilling: bool) -> Result<Config, Fault> {
    let mut config = settings(alloc, None)?;
    config.enable_log_recycle = true;
    config.target_file_size = ReadableSize(1024);
    config.purge_threshold = ReadableSize(3072);
    config.prefill_for_recycle = is_prefilling;
    config.sanitize()?;
    Ok(config)
}

// The files after an opening that makes reserved files, or deletes them.
fn reopened<F: FileSystem + Drop>(alloc: Global, files: F, is_prefilling: bool) -> Option<F> {
    match spare_settings(alloc, is_prefilling) {
        Ok(config) => opened(alloc, &config, files),
        Err(_) => None,
    }
}

/// The reserved files, with their lengths.
const MADE: [(&str, usize); 4] = [
    (RESERVED_1, 1024),
    (RESERVED_2, 1024),
    (RESERVED_3, 1024),
    (RESERVED_4, 1024),
];

fn are_zeros<F: FileSystem>(alloc: Global, fs: &mut F) -> bool {
    for (path, len) in &MADE {
        if !has_zeros(alloc, fs, path, *len) {
            return false;
        }
    }
    have_lengths(fs, &MADE)
}

/// Whether an opening makes reserved files, and the next one deletes them.
pub(crate) fn are_made_and_deleted<F: Failing>(alloc: Global) -> bool {
    let made: Option<F> = reopened(alloc, F::fresh(alloc), true);
    let left = match made {
        Some(mut files) => {
            if are_zeros(alloc, &mut files) {
                reopened(alloc, files, false)
            } else {
                None
            }
        }
        None => None,
    };
    match left {
        Some(files) => are_gone(&files, &[RESERVED_1, RESERVED_2, RESERVED_3, RESERVED_4]),
        None => false,
    }
}

/// The files that have metadata before an opening.
const NOTED: [&str; 3] = [FILE_7, FILE_8, FILE_9];

/// Whether an opening whose first file has the number 200 removes the metadata of earlier numbers.
pub(crate) fn scan_clears<F: Failing>(alloc: Global) -> bool {
    let mut files = F::fresh(alloc);
    let are_stored = stores(&mut files, "data/0000000000000200.raftlog", &[HEADER])
        && notes_all(&mut files, &NOTED);
    let opened = match settings(alloc, None) {
        Ok(config) => opened(alloc, &config, files),
        Err(_) => None,
    };
    match opened {
        Some(files) => are_stored && are_left(&files, &NOTED, &[]),
        None => false,
    }
}
