//! Helpers of the tests of queues: settings of their folder, and its files before and after.

use raft_builder::DualPipesBuilder;
use raft_config::Config;
use raft_env::{FileSystem, FsFault, Permission};
use raft_records::{Fault, Fresh};
use raft_rows::{FileParts, store_in};
use std::alloc::{AllocError, Global};

/// The header of a file of version 2.
pub(crate) const HEADER: &[u8] =
    b"RAFT-LOG-FILE-HEADER-9986AB3E47F320B394C8E84916EB0ED5\0\0\0\0\0\0\0\x02\0\0\0\0\0\0\0\0";

/// The two folders of the settings; `None` is one folder, in which no file is reused.
pub(crate) type Folders = Option<(&'static str, &'static str)>;

/// Settings of these folders.
pub(crate) fn settings(alloc: Global, folders: Folders) -> Result<Config, AllocError> {
    let mut config = Config::fresh(alloc);
    match folders {
        Some((main, spill)) => {
            config.dir.push_str(main)?;
            config.spill_dir = Some(String::from_str(alloc, spill)?);
        }
        None => {
            config.dir.push_str("data")?;
            config.enable_log_recycle = false;
        }
    }
    Ok(config)
}

/// An opening of both queues in these settings, which has read nothing.
pub(crate) fn begun_in<F: FileSystem + Drop>(
    alloc: Global,
    config: &Config,
    fs: F,
) -> Result<DualPipesBuilder<F>, Fault> {
    match DualPipesBuilder::new(alloc, config, fs) {
        Ok(builder) => Ok(builder),
        Err((fault, _files)) => Err(fault),
    }
}

/// The same in the settings of these folders.
pub(crate) fn begun<F: FileSystem + Drop>(
    alloc: Global,
    folders: Folders,
    fs: F,
) -> Result<DualPipesBuilder<F>, Fault> {
    begun_in(alloc, &settings(alloc, folders)?, fs)
}

/// Makes a file of these parts, and its folder if that doesn't exist.
pub(crate) fn stores<F: FileSystem>(fs: &mut F, path: &str, parts: &[&[u8]]) -> bool {
    let folder = match path.rsplit_once('/') {
        Some((folder, _name)) => folder,
        None => "",
    };
    store_in(fs, folder, path, parts).is_ok()
}

/// Makes each of these files.
pub(crate) fn stores_all<F: FileSystem>(fs: &mut F, files: &[FileParts]) -> bool {
    for (path, parts) in files {
        if !stores(fs, path, parts) {
            return false;
        }
    }
    true
}

/// The length of a file in bytes.
fn length_of<F: FileSystem>(fs: &mut F, path: &str) -> Option<usize> {
    match fs.open(path, Permission::ReadOnly) {
        Ok(handle) => match fs.file_size(&handle) {
            Ok(len) => Some(len),
            Err(_) => None,
        },
        Err(_) => None,
    }
}

// Reads into the buffer and returns the number of bytes read.
fn read_to<F: FileSystem>(fs: &mut F, path: &str, bytes: &mut [u8]) -> Result<usize, FsFault> {
    let handle = fs.open(path, Permission::ReadOnly)?;
    let mut reader = fs.new_reader(&handle)?;
    let read = fs.read(&mut reader, 0, bytes);
    fs.end_reader(reader);
    read
}

/// Whether the file at the path begins with this number of zeros.
pub(crate) fn has_zeros<F: FileSystem>(alloc: Global, fs: &mut F, path: &str, len: usize) -> bool {
    match vec![in alloc; 7; len] {
        Ok(mut bytes) => read_to(fs, path, &mut bytes) == Ok(len) && are_all(&bytes, 0),
        Err(_) => false,
    }
}

/// Whether each byte has this value.
pub(crate) fn are_all(bytes: &[u8], wanted: u8) -> bool {
    for byte in bytes {
        if *byte != wanted {
            return false;
        }
    }
    true
}

/// Whether these files have these lengths.
pub(crate) fn have_lengths<F: FileSystem>(fs: &mut F, files: &[(&str, usize)]) -> bool {
    for (path, len) in files {
        if length_of(fs, path) != Some(*len) {
            return false;
        }
    }
    true
}

// The number of files and folders in a folder; 0 if it doesn't exist.
fn count_below<F: FileSystem>(fs: &mut F, folder: &str) -> Option<usize> {
    if !fs.is_dir(folder) {
        return Some(0);
    }
    match fs.list(folder) {
        Ok(names) => Some(names.len()),
        Err(_) => None,
    }
}

fn count_at_top(files: &[(&str, usize)]) -> usize {
    let mut counted: usize = 0;
    for (path, _) in files {
        if !path.contains("/") {
            counted = counted.saturating_add(1);
        }
    }
    counted
}

/// Whether exactly these files exist, with these lengths.
pub(crate) fn stand_alone<F: FileSystem>(
    fs: &mut F,
    folders: Folders,
    files: &[(&str, usize)],
) -> bool {
    let (main, spill) = folders.unwrap_or(("data", "data"));
    let spilled = if main == spill {
        Some(0)
    } else {
        count_below(fs, spill)
    };
    match (count_below(fs, main), spilled) {
        (Some(first), Some(second)) => {
            let below = first.saturating_add(second);
            have_lengths(fs, files) && below.saturating_add(count_at_top(files)) == files.len()
        }
        _ => false,
    }
}
