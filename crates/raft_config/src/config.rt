//! The settings of an engine, and the modes of recovery.
ghost use Rattle.std.specs.Prelude.{◌≡◌, IfOk, IfErr, OnOk, OnErr, None};
ghost use Rattle.std.specs.Option.{option_map};
ghost use Rattle.raft_config.specs.Sanitized.{spare_files};

use raft_records::{Fault, Fresh, ReadableSize, Version};
use serde::{Deserialize, Serialize};
use std::alloc::Global;
use std::default::MadeWith;

/// The behavior of an opening if it finds bytes that are not a valid record.
#[derive(Clone, Copy, Debug, PartialEq, Eq, Serialize, Deserialize)]
#[serde(rename_all = "kebab-case")]
pub enum RecoveryMode {
    /// The opening fails.
    AbsoluteConsistency,
    /// The opening cuts off the bytes at the end of the last file of a queue. In any other file it
    /// fails.
    #[serde(rename(serialize = "tolerate-corrupted-tail-records"), alias = "tolerate-corrupted-tail-records")]
    TolerateTailCorruption,
    /// The opening cuts off the bytes at the end of the file, and continues with the next file.
    TolerateAnyCorruption,
}

impl RecoveryMode {
    ghost use Rattle.raft_config.specs.Recovery.{tolerates_corruption};

    /// Whether an opening cuts off the invalid bytes at the end of a file. `is_last` says whether
    /// the file is the last of its queue.
    pub fn tolerates_corruption(self, is_last: bool) -> bool
        ensures value { result ≡ tolerates_corruption self is_last }
    {
        match self {
            RecoveryMode::AbsoluteConsistency => false,
            RecoveryMode::TolerateTailCorruption => is_last,
            RecoveryMode::TolerateAnyCorruption => true,
        }
    }
}

/// The least number of bytes that an opening reads at a time.
const MIN_RECOVERY_READ_BLOCK_SIZE: u64 = 512;

const MIN_RECOVERY_THREADS: usize = 1;

/// The greatest number of files that are kept for recycling.
const MAX_SPARE_FILES: u64 = u32::MAX as u64;

/// The settings of an engine. `specs/Config.antt` lists the defaults.
///
/// With `serde` a program can make them a table of its own settings. Keys are in kebab case. A
/// missing key has its default, and an unknown key is ignored. The contracts of `serde` do not say
/// which settings are read. Those of `raft_settings` do.
#[derive(Debug, PartialEq)]
pub struct Config {
    /// The folder of the log files. The empty path is the root of the file system.
    pub dir: String,
    /// A second folder of log files. A new file is made there if `dir` has no room for it.
    pub spill_dir: Option<String>,
    pub recovery_mode: RecoveryMode,
    /// The number of bytes that an opening reads at a time.
    pub recovery_read_block_size: ReadableSize,
    /// The number of threads that read log files at an opening.
    pub recovery_threads: usize,
    /// Has no effect.
    pub bytes_per_sync: Option<ReadableSize>,
    /// The version of new log files.
    pub format_version: Version,
    /// The size at which a log file is full, and a new one is made.
    pub target_file_size: ReadableSize,
    /// If the Append queue is larger than this, a purge writes again what is still in use, and
    /// drops files.
    pub purge_threshold: ReadableSize,
    /// The same size for the Rewrite queue. Without it `rewrite_threshold` gives the size.
    pub purge_rewrite_threshold: Option<ReadableSize>,
    /// A purge rewrites the Rewrite queue only if this part of its entries, in thousandths, is
    /// garbage.
    pub purge_rewrite_garbage_ratio: u64,
    /// Has no effect.
    pub memory_limit: Option<ReadableSize>,
    /// Whether the files that a purge drops are kept and used again as new files.
    pub enable_log_recycle: bool,
    /// Whether an opening makes files for this purpose in advance, filled with zeros.
    pub prefill_for_recycle: bool,
    /// The greatest total size of the files made in advance. Without it the size is
    /// `purge_threshold`.
    pub prefill_limit: Option<ReadableSize>,
}

// By hand, so that a proof has one call for a drop and not one for each field (docs/DECISIONS.md).
impl Drop for Config {
    fn drop(self) {
        let Config {
            dir: _dir,
            spill_dir: _spill_dir,
            recovery_mode: _,
            recovery_read_block_size: _,
            recovery_threads: _,
            bytes_per_sync: _,
            format_version: _,
            target_file_size: _,
            purge_threshold: _,
            purge_rewrite_threshold: _,
            purge_rewrite_garbage_ratio: _,
            memory_limit: _,
            enable_log_recycle: _,
            prefill_for_recycle: _,
            prefill_limit: _,
        } = self;
    }
}

impl Config {
    ghost use Rattle.raft_config.specs.Config.{IsCopy};
    ghost use Rattle.raft_config.specs.Sanitized.{IsContradiction, contradiction, is_recycling, prefill_capacity, prefill_limit, recycle_capacity, rewrite_threshold, sanitized, spills_into_dir};

    /// A copy of the settings. Fails with `Memory` only.
    pub fn clone(&self) -> Result<Config, Fault>
        ensures value { IfOk result (IsCopy self.now) }
        ensures cause { IfErr result (λ e. e ≡ Fault.Memory) }
    {
        let spill_dir = match &self.spill_dir {
            Some(dir) => Some(dir.clone()?),
            None => None,
        };
        Ok(Config {
            dir: self.dir.clone()?,
            spill_dir,
            recovery_mode: self.recovery_mode,
            recovery_read_block_size: self.recovery_read_block_size,
            recovery_threads: self.recovery_threads,
            bytes_per_sync: self.bytes_per_sync,
            format_version: self.format_version,
            target_file_size: self.target_file_size,
            purge_threshold: self.purge_threshold,
            purge_rewrite_threshold: self.purge_rewrite_threshold,
            purge_rewrite_garbage_ratio: self.purge_rewrite_garbage_ratio,
            memory_limit: self.memory_limit,
            enable_log_recycle: self.enable_log_recycle,
            prefill_for_recycle: self.prefill_for_recycle,
            prefill_limit: self.prefill_limit,
        })
    }

    /// Fails with `InvalidArgument` if the settings contradict one another, and then changes
    /// nothing. Otherwise sets each missing limit, and raises the read block size to at least 512
    /// bytes and the number of threads to at least 1.
    pub fn sanitize(&mut self) -> Result<(), Fault>
        ensures ok { OnOk result ((contradiction self.old ≡ None)
            × (self.new ≡ sanitized self.old)) }
        ensures stands { OnOk result ((contradiction self.new ≡ None)
            × (sanitized self.new ≡ self.new)) }
        ensures err { OnErr result (self.new ≡ self.old) }
        ensures cause { IfErr result (IsContradiction self.old) }
    {
        if let Some(reason) = self.contradiction() {
            return Err(Fault::InvalidArgument(reason));
        }
        let block_size = self
            .recovery_read_block_size
            .0
            .max(MIN_RECOVERY_READ_BLOCK_SIZE);
        self.recovery_read_block_size = ReadableSize(block_size);
        self.recovery_threads = self.recovery_threads.max(MIN_RECOVERY_THREADS);
        self.purge_rewrite_threshold = Some(self.rewrite_threshold());
        self.prefill_limit = self.used_prefill_limit();
        Ok(())
    }

    // The first contradiction, if there is one.
    fn contradiction(&self) -> Option<&'static str>
        ensures value { option_map (λ reason. reason.now) result ≡ contradiction self.now }
    {
        if self.target_file_size.0 == 0 {
            Some("target-file-size is 0")
        } else if self.purge_threshold.0 < self.target_file_size.0 {
            Some("purge-threshold is below target-file-size")
        } else if self.enable_log_recycle && !self.format_version.has_log_signing() {
            Some("enable-log-recycle needs format-version 2")
        } else if self.prefill_for_recycle && !self.enable_log_recycle {
            Some("prefill-for-recycle needs enable-log-recycle")
        } else if self.spills_into_dir() {
            Some("spill-dir is dir")
        } else {
            None
        }
    }

    fn spills_into_dir(&self) -> bool
        ensures value { result ≡ spills_into_dir self.now }
    {
        match &self.spill_dir {
            Some(spill_dir) => spill_dir == &self.dir,
            None => false,
        }
    }

    /// The size of the Rewrite queue above which it is purged. If none is set, it is a tenth of
    /// `purge_threshold`, and at least `target_file_size`.
    pub fn rewrite_threshold(&self) -> ReadableSize
        ensures value { result ≡ rewrite_threshold self.now }
    {
        match self.purge_rewrite_threshold {
            Some(threshold) => threshold,
            None => ReadableSize((self.purge_threshold.0 / 10).max(self.target_file_size.0)),
        }
    }

    fn used_prefill_limit(&self) -> Option<ReadableSize>
        ensures value { result ≡ prefill_limit self.now }
    {
        if !self.prefill_for_recycle {
            return None;
        }
        Some(self.prefill_limit.unwrap_or(self.purge_threshold))
    }

    /// The greatest number of files that are kept for use as new files: 3/2 of the number of files
    /// that have `purge_threshold` bytes. It is 0 without recycling.
    pub fn recycle_capacity(&self) -> usize
        ensures value { result ≡ recycle_capacity self.now }
    {
        if self.is_recycling() {
            spare_files(self.purge_threshold, self.target_file_size)
        } else {
            0
        }
    }

    /// The number of these files that an opening makes in advance.
    pub fn prefill_capacity(&self) -> usize
        ensures value { result ≡ prefill_capacity self.now }
    {
        if self.is_recycling() && self.prefill_for_recycle {
            let limit = self.prefill_limit.unwrap_or(ReadableSize(0));
            spare_files(limit, self.target_file_size)
        } else {
            0
        }
    }

    fn is_recycling(&self) -> bool
        ensures value { result ≡ is_recycling self.now }
    {
        self.enable_log_recycle && self.format_version.has_log_signing()
    }
}

fn spare_files(size: ReadableSize, target: ReadableSize) -> usize
    ensures value { result ≡ spare_files size.0 target.0 }
{
    if target.0 == 0 {
        return 0;
    }
    let files = (size.0 / target.0).saturating_mul(3) / 2;
    files.min(MAX_SPARE_FILES) as usize
}

// The default of the keys that a document lacks.
impl MadeWith<Global> for Config {
    ghost use Rattle.raft_config.specs.Config.{IsDefault};

    ghost is_made_with = { IsDefault };

    fn made_with(alloc: Global) -> Config {
        Config::fresh(alloc)
    }
}

impl Fresh for Config {
    ghost use Rattle.raft_config.specs.Config.{IsDefault};

    ghost is_fresh = { IsDefault };

    /// The default settings.
    fn fresh(alloc: Global) -> Config {
        Config {
            dir: String::new(alloc),
            spill_dir: None,
            recovery_mode: RecoveryMode::TolerateTailCorruption,
            recovery_read_block_size: ReadableSize::kb(16),
            recovery_threads: 4,
            bytes_per_sync: None,
            format_version: Version::V2,
            target_file_size: ReadableSize::mb(128),
            purge_threshold: ReadableSize::gb(10),
            purge_rewrite_threshold: None,
            purge_rewrite_garbage_ratio: 600,
            memory_limit: None,
            enable_log_recycle: true,
            prefill_for_recycle: false,
            prefill_limit: None,
        }
    }
}
