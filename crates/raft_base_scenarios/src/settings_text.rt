//! Texts of settings: how they are read, how settings are written, and which texts are refused.

use crate::told::assert_tables;
use raft_config::Config;
use raft_records::{Fault, Fresh, ReadableSize};
use raft_rows::Row;
use raft_settings::{read, with_text, write};
use std::alloc::Global;

const DEFAULTS: &str = "\
dir = \"\"
enable-log-recycle = true
format-version = 2
prefill-for-recycle = false
purge-rewrite-garbage-ratio = 600
purge-threshold = \"10GB\"
recovery-mode = \"tolerate-corrupted-tail-records\"
recovery-read-block-size = \"16KB\"
recovery-threads = 4
target-file-size = \"128MB\"
";

const ALL_SET: &str = "\
bytes-per-sync = \"1B\"
dir = \"a/b c\"
enable-log-recycle = false
format-version = 1
memory-limit = \"18446744073709551615B\"
prefill-for-recycle = true
prefill-limit = \"1025KB\"
purge-rewrite-garbage-ratio = 0
purge-rewrite-threshold = \"3GB\"
purge-threshold = \"1025MB\"
recovery-mode = \"tolerate-any-corruption\"
recovery-read-block-size = \"0B\"
recovery-threads = 9223372036854775807
spill-dir = \"\"
target-file-size = \"1023B\"
";

enum Case {
    /// A text, and the text that is written for the settings read from it.
    Written(&'static str, &'static str),
    /// A text that is refused, and why.
    Refused(&'static str, &'static str),
    /// A text read over the settings of another one, and the resulting read block size and number of
    /// threads.
    Laid(&'static str, &'static str, u64, usize),
    /// Settings from text, and the values that are used, or why the settings are refused.
    Sanitized(&'static str, Result<Used, &'static str>),
}

use Case::{Laid, Refused, Sanitized, Written};

/// The values used: the read block size, the number of threads, the Rewrite queue's threshold, the
/// limit of files made ahead, and the numbers of files kept for reuse and made ahead.
struct Used(u64, usize, u64, Option<u64>, usize, usize);

static TEXTS: [Case; 6] = [
    Written("", DEFAULTS),
    Written(DEFAULTS, DEFAULTS),
    Written(ALL_SET, ALL_SET),
    // Unknown keys, comments, and sizes in other units than the written ones.
    Written(
        "batch-compression-threshold = \"8KB\"\ncompression-level = 0.5\n# a comment\n[other]\ndir = 1\n",
        DEFAULTS,
    ),
    Written(
        "recovery-mode = \"tolerate-tail-corruption\"\ntarget-file-size = 134217728\npurge-threshold = \"10240MB\"\n",
        DEFAULTS,
    ),
    Written(
        "purge-threshold = \"10737418240\"\nrecovery-read-block-size = \"16384B\"\n",
        DEFAULTS,
    ),
];

static REFUSED: [Case; 14] = [
    Refused("dir", "the settings are not valid TOML"),
    Refused(
        "dir = \"a\"\ndir = \"a\"\n",
        "the settings are not valid TOML",
    ),
    Refused(
        "target-file-size = 9223372036854775808",
        "the settings are not valid TOML",
    ),
    Refused("dir = 1", "dir"),
    Refused("spill-dir = true", "spill-dir"),
    Refused("recovery-mode = \"tolerate\"", "recovery-mode"),
    Refused("recovery-threads = -1", "recovery-threads"),
    Refused("recovery-threads = \"4\"", "recovery-threads"),
    Refused("format-version = 3", "format-version"),
    Refused("target-file-size = \"1.5GB\"", "target-file-size"),
    Refused(
        "purge-threshold = \"18446744073709551616\"",
        "purge-threshold",
    ),
    Refused(
        "purge-rewrite-garbage-ratio = 0.6",
        "purge-rewrite-garbage-ratio",
    ),
    Refused("enable-log-recycle = 1", "enable-log-recycle"),
    Refused("prefill-limit = \"\"", "prefill-limit"),
];

static LAID: [Case; 4] = [
    Laid("recovery-threads = 7", "", 16_384, 7),
    Laid("recovery-threads = 7", "recovery-threads = 9", 16_384, 9),
    Laid(
        "recovery-threads = 7",
        "recovery-read-block-size = \"1MB\"",
        1_048_576,
        7,
    ),
    Laid(
        "recovery-read-block-size = 1\nrecovery-threads = 7",
        "recovery-threads = 0\nformat-version = 1",
        1,
        0,
    ),
];

static SANITIZED: [Case; 10] = [
    Sanitized("", Ok(Used(16_384, 4, 1_073_741_824, None, 120, 0))),
    Sanitized(
        "recovery-read-block-size = 1\nrecovery-threads = 0\ntarget-file-size = \"5000MB\"\n\
         format-version = 2\nenable-log-recycle = true\nprefill-for-recycle = true",
        Ok(Used(512, 1, 5_242_880_000, Some(10_737_418_240), 3, 3)),
    ),
    Sanitized(
        "target-file-size = \"1MB\"\npurge-threshold = \"10MB\"\n\
         prefill-for-recycle = true\nprefill-limit = \"4MB\"",
        Ok(Used(16_384, 4, 1_048_576, Some(4_194_304), 15, 6)),
    ),
    Sanitized(
        "target-file-size = \"5MB\"\npurge-threshold = \"3MB\"",
        Err("purge-threshold is below target-file-size"),
    ),
    Sanitized(
        "enable-log-recycle = false\nprefill-for-recycle = true",
        Err("prefill-for-recycle needs enable-log-recycle"),
    ),
    Sanitized("dir = \"a\"\nspill-dir = \"a\"", Err("spill-dir is dir")),
    Sanitized("spill-dir = \"\"", Err("spill-dir is dir")),
    Sanitized(
        "format-version = 1\nenable-log-recycle = false",
        Ok(Used(16_384, 4, 1_073_741_824, None, 0, 0)),
    ),
    Sanitized(
        "format-version = 1",
        Err("enable-log-recycle needs format-version 2"),
    ),
    Sanitized(
        "target-file-size = 0\nformat-version = 1",
        Err("target-file-size is 0"),
    ),
];

fn tables() -> [&'static [Case]; 4] {
    [&TEXTS, &REFUSED, &LAID, &SANITIZED]
}

fn is_sanitized(config: &mut Config, wanted: &Result<Used, &'static str>) -> bool {
    match (config.sanitize(), wanted) {
        (Ok(()), Ok(wanted)) => is_used(config, wanted),
        (Err(Fault::InvalidArgument(reason)), Err(wanted)) => reason == *wanted,
        _ => false,
    }
}

fn is_used(config: &Config, wanted: &Used) -> bool {
    let Used(block_size, threads, threshold, limit, spare, ahead) = wanted;
    config.recovery_read_block_size.0 == *block_size
        && config.recovery_threads == *threads
        && config.rewrite_threshold().0 == *threshold
        && is_limit(config.prefill_limit, *limit)
        && config.recycle_capacity() == *spare
        && config.prefill_capacity() == *ahead
}

fn is_limit(given: Option<ReadableSize>, wanted: Option<u64>) -> bool {
    match (given, wanted) {
        (Some(size), Some(wanted)) => size.0 == wanted,
        (None, None) => true,
        _ => false,
    }
}

// Whether the settings of a text are written as the other text, which is read as they are.
fn is_read_back(alloc: Global, text: &str, wanted: &str) -> Result<bool, Fault> {
    let config = read(alloc, text)?;
    let written = write(alloc, &config)?;
    let back = read(alloc, written.as_str())?;
    Ok(written.as_str() == wanted && back == config)
}

fn is_laid(alloc: Global, below: &str, text: &str, wanted: (u64, usize)) -> Result<bool, Fault> {
    let below = read(alloc, below)?;
    let config = with_text(alloc, &below, text)?;
    Ok((config.recovery_read_block_size.0, config.recovery_threads) == wanted)
}

impl Row for Case {
    type State = ();

    fn holds(&self, alloc: Global, _: &mut ()) -> Result<bool, Fault> {
        match self {
            Written(text, wanted) => is_read_back(alloc, text, wanted),
            Refused(text, wanted) => match read(alloc, text) {
                Err(Fault::InvalidArgument(reason)) => Ok(reason == *wanted),
                _ => Ok(false),
            },
            Laid(below, text, block_size, threads) => {
                is_laid(alloc, below, text, (*block_size, *threads))
            }
            Sanitized(text, wanted) => {
                let mut config = read(alloc, text)?;
                Ok(is_sanitized(&mut config, wanted))
            }
        }
    }
}

#[test]
fn texts_of_settings(rt: HostRuntime) {
    assert_tables(&rt, rt.alloc(), &mut (), &tables());
}

fn is_written(alloc: Global, threads: usize, ratio: u64) -> bool {
    let mut config = Config::fresh(alloc);
    config.recovery_threads = threads;
    config.purge_rewrite_garbage_ratio = ratio;
    write(alloc, &config).is_ok()
}

/// Numbers that TOML doesn't have aren't written.
#[test]
fn great_numbers_are_refused(rt: HostRuntime) {
    assert!(rt; !is_written(rt.alloc(), usize::MAX, 600));
    assert!(rt; is_written(rt.alloc(), 1, 600));
    assert!(rt; !is_written(rt.alloc(), 1, u64::MAX));
}
