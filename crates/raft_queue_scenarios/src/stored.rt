//! The log files that the tests of workers read.

use crate::folders::{HEADER, begun_in, stores};
use raft_builder::DualPipesBuilder;
use raft_config::{Config, RecoveryMode};
use raft_env::FileSystem;
use raft_files::FileNameExt;
use raft_records::{Fault, FileId, Fresh, LogBatch, LogFileContext, LogQueue, Version};
use std::alloc::{AllocError, Global};

/// Bytes in which no record can be read.
const TORN: &[u8] = &[7; 5];

const FOLDER: &str = "data";

fn populate(alloc: Global, batch: &mut LogBatch, key: u8) -> Result<(), Fault> {
    batch.put(1, vec![in alloc; key]?, Vec::new(alloc))?;
    batch.finish_populate()?;
    Ok(())
}

// A file of one batch, which puts this key, with unreadable bytes after it.
fn stores_key<F: FileSystem>(alloc: Global, fs: &mut F, queue: LogQueue, key: u8) -> bool {
    let id = FileId::new(queue, u64::from(key));
    let mut batch = LogBatch::new(alloc);
    if populate(alloc, &mut batch, key).is_err() {
        return false;
    }
    batch.prepare_write(&LogFileContext::new(id, Version::V2));
    match id.build_file_path(alloc, FOLDER) {
        Ok(path) => stores(fs, path.as_str(), &[HEADER, batch.encoded_bytes(), TORN]),
        Err(_) => false,
    }
}

fn stores_keys<F: FileSystem>(alloc: Global, fs: &mut F, queue: LogQueue, count: u8) -> bool {
    for key in 1..count.saturating_add(1) {
        if !stores_key(alloc, fs, queue, key) {
            return false;
        }
    }
    true
}

/// Stores so many files of each queue. The nth puts the key n, and ends in unreadable bytes.
pub(crate) fn stores_both<F: FileSystem>(alloc: Global, fs: &mut F, files: (u8, u8)) -> bool {
    fs.make_dir(FOLDER).is_ok()
        && stores_keys(alloc, fs, LogQueue::Append, files.0)
        && stores_keys(alloc, fs, LogQueue::Rewrite, files.1)
}

fn settings(alloc: Global, threads: usize) -> Result<Config, AllocError> {
    let mut config = Config::fresh(alloc);
    config.dir.push_str(FOLDER)?;
    config.recovery_mode = RecoveryMode::TolerateAnyCorruption;
    config.recovery_threads = threads;
    Ok(config)
}

/// An opening of both queues that has found their files, for this number of threads, in the mode
/// that tolerates any damage.
pub(crate) fn scanned<F: FileSystem + Drop>(
    alloc: Global,
    fs: F,
    threads: usize,
) -> Result<DualPipesBuilder<F>, Fault> {
    let mut builder = begun_in(alloc, &settings(alloc, threads)?, fs)?;
    match builder.scan() {
        Ok(()) => Ok(builder),
        Err(fault) => {
            drop(builder);
            Err(fault)
        }
    }
}

/// The same over this number of files of each queue.
pub(crate) fn ready<F: FileSystem + Drop>(
    alloc: Global,
    mut fs: F,
    files: (u8, u8),
    threads: usize,
) -> Result<DualPipesBuilder<F>, Fault> {
    if stores_both(alloc, &mut fs, files) {
        scanned(alloc, fs, threads)
    } else {
        Err(Fault::Memory)
    }
}
