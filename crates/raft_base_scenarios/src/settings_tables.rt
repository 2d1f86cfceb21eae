//! Tables of settings, and what both readings make of them.

use crate::settings_documents::{Program, by_serde, by_table, document_of};
use crate::told::assert_tables;
use raft_config::{Config, RecoveryMode};
use raft_records::{Fault, ReadableSize, Version};
use raft_rows::Row;
use raft_settings::write;
use std::alloc::Global;

enum Case {
    /// The lines of a table, and a whole line of the text that is then written for the settings.
    Accepted(&'static str, &'static str),
    /// The lines of a table that both refuse, and why `raft_settings` does.
    Refused(&'static str, &'static str),
    /// A document of which only `serde` reads settings, why `raft_settings` refuses it, and a whole
    /// line of the text that is then written for the settings.
    Different(&'static str, &'static str, &'static str),
}

use Case::{Accepted, Different, Refused};

static ACCEPTED: [Case; 29] = [
    Accepted("", "target-file-size = \"128MB\""),
    Accepted("", "recovery-mode = \"tolerate-corrupted-tail-records\""),
    Accepted("dir = \"a/b c\"", "dir = \"a/b c\""),
    Accepted("spill-dir = \"spill\"", "spill-dir = \"spill\""),
    Accepted(
        "recovery-mode = \"absolute-consistency\"",
        "recovery-mode = \"absolute-consistency\"",
    ),
    Accepted(
        "recovery-mode = \"tolerate-tail-corruption\"",
        "recovery-mode = \"tolerate-corrupted-tail-records\"",
    ),
    Accepted(
        "recovery-mode = \"tolerate-corrupted-tail-records\"",
        "recovery-mode = \"tolerate-corrupted-tail-records\"",
    ),
    Accepted(
        "recovery-mode = \"tolerate-any-corruption\"",
        "recovery-mode = \"tolerate-any-corruption\"",
    ),
    Accepted(
        "recovery-read-block-size = \"1MB\"",
        "recovery-read-block-size = \"1MB\"",
    ),
    Accepted(
        "recovery-read-block-size = 512",
        "recovery-read-block-size = \"512B\"",
    ),
    Accepted("recovery-threads = 0", "recovery-threads = 0"),
    Accepted("recovery-threads = 16", "recovery-threads = 16"),
    Accepted("bytes-per-sync = \"4MB\"", "bytes-per-sync = \"4MB\""),
    Accepted("bytes-per-sync = 4096", "bytes-per-sync = \"4KB\""),
    Accepted("format-version = 1", "format-version = 1"),
    Accepted("format-version = 2", "format-version = 2"),
    Accepted(
        "target-file-size = 134217729",
        "target-file-size = \"134217729B\"",
    ),
    Accepted("target-file-size = \"2GB\"", "target-file-size = \"2GB\""),
    Accepted("target-file-size = \"0\"", "target-file-size = \"0B\""),
    Accepted(
        "purge-threshold = \"10240KB\"",
        "purge-threshold = \"10MB\"",
    ),
    Accepted(
        "purge-threshold = \"18446744073709551615\"",
        "purge-threshold = \"18446744073709551615B\"",
    ),
    Accepted(
        "purge-rewrite-threshold = \"1GB\"",
        "purge-rewrite-threshold = \"1GB\"",
    ),
    Accepted(
        "purge-rewrite-garbage-ratio = 250",
        "purge-rewrite-garbage-ratio = 250",
    ),
    Accepted("memory-limit = 1073741824", "memory-limit = \"1GB\""),
    Accepted("enable-log-recycle = false", "enable-log-recycle = false"),
    Accepted("prefill-for-recycle = true", "prefill-for-recycle = true"),
    Accepted("prefill-limit = \"12GB\"", "prefill-limit = \"12GB\""),
    Accepted(
        "batch-compression-threshold = \"8KB\"\ndir = \"a\"\ncompression-level = 0.5",
        "dir = \"a\"",
    ),
    Accepted(
        "dir = \"a\"\nrecovery-threads = 7\n[raft-engine.other]\ndir = \"b\"",
        "recovery-threads = 7",
    ),
];

fn has_line(text: &str, line: &str) -> bool {
    for found in text.lines() {
        if found == line {
            return true;
        }
    }
    false
}

static REFUSED: [Case; 26] = [
    Refused("dir", "the settings are not valid TOML"),
    Refused(
        "dir = \"a\"\ndir = \"a\"",
        "the settings are not valid TOML",
    ),
    Refused(
        "target-file-size = 9223372036854775808",
        "the settings are not valid TOML",
    ),
    Refused("dir = 1", "dir"),
    Refused("dir = [\"a\"]", "dir"),
    Refused("dir = 1979-05-27", "dir"),
    Refused("spill-dir = 1979-05-27", "spill-dir"),
    Refused("spill-dir = true", "spill-dir"),
    Refused("recovery-mode = \"tolerate\"", "recovery-mode"),
    Refused("recovery-mode = 1", "recovery-mode"),
    Refused("recovery-threads = -1", "recovery-threads"),
    Refused("recovery-threads = \"4\"", "recovery-threads"),
    Refused("format-version = 3", "format-version"),
    Refused("format-version = \"2\"", "format-version"),
    Refused("target-file-size = \"1.5GB\"", "target-file-size"),
    Refused("target-file-size = \"1 GB\"", "target-file-size"),
    Refused("target-file-size = -1", "target-file-size"),
    Refused(
        "purge-threshold = \"18446744073709551616\"",
        "purge-threshold",
    ),
    Refused(
        "purge-rewrite-garbage-ratio = 0.6",
        "purge-rewrite-garbage-ratio",
    ),
    Refused("enable-log-recycle = 1", "enable-log-recycle"),
    Refused("prefill-limit = \"\"", "prefill-limit"),
    Refused(
        "recovery-read-block-size = \"16K\"",
        "recovery-read-block-size",
    ),
    Refused("bytes-per-sync = true", "bytes-per-sync"),
    Refused(
        "purge-rewrite-threshold = \"1TB\"",
        "purge-rewrite-threshold",
    ),
    Refused("memory-limit = -1", "memory-limit"),
    Refused("prefill-for-recycle = \"true\"", "prefill-for-recycle"),
];

static DIFFERENT: [Case; 4] = [
    // A mode as a table whose key is its name.
    Different(
        "name = \"store\"\n[raft-engine]\nrecovery-mode = { tolerate-any-corruption = {} }",
        "recovery-mode",
        "recovery-mode = \"tolerate-any-corruption\"",
    ),
    // An array of the first values of the struct; the others are the default ones.
    Different(
        "name = \"store\"\nraft-engine = []",
        "raft-engine",
        "target-file-size = \"128MB\"",
    ),
    Different(
        "name = \"store\"\nraft-engine = [\"a\", \"b\"]",
        "raft-engine",
        "spill-dir = \"b\"",
    ),
    // A date, which is a table with a key of its own.
    Different(
        "name = \"store\"\nraft-engine = 1979-05-27",
        "raft-engine",
        "target-file-size = \"128MB\"",
    ),
];

fn tables() -> [&'static [Case]; 3] {
    [&ACCEPTED, &REFUSED, &DIFFERENT]
}

fn is_accepted(alloc: Global, lines: &str, wanted: &str) -> Result<bool, Fault> {
    let document = document_of(alloc, lines)?;
    let read = by_table(alloc, document.as_str())?;
    let written = write(alloc, &read)?;
    Ok(by_serde(alloc, document.as_str()) == Some(read) && has_line(written.as_str(), wanted))
}

// Whether `raft_settings` refuses the document for this reason.
fn is_refused(alloc: Global, document: &str, wanted: &str) -> bool {
    match by_table(alloc, document) {
        Err(Fault::InvalidArgument(reason)) => reason == wanted,
        _ => false,
    }
}

fn is_refused_by_both(alloc: Global, lines: &str, wanted: &str) -> Result<bool, Fault> {
    let document = document_of(alloc, lines)?;
    let refused = is_refused(alloc, document.as_str(), wanted);
    Ok(refused && by_serde(alloc, document.as_str()).is_none())
}

// Whether `serde` reads settings that are written with this line.
fn is_written(alloc: Global, document: &str, line: &str) -> Result<bool, Fault> {
    match by_serde(alloc, document) {
        Some(config) => Ok(has_line(write(alloc, &config)?.as_str(), line)),
        None => Ok(false),
    }
}

impl Row for Case {
    type State = ();

    fn holds(&self, alloc: Global, _: &mut ()) -> Result<bool, Fault> {
        match self {
            Accepted(lines, wanted) => is_accepted(alloc, lines, wanted),
            Refused(lines, wanted) => is_refused_by_both(alloc, lines, wanted),
            Different(document, reason, line) => {
                Ok(is_refused(alloc, document, reason) && is_written(alloc, document, line)?)
            }
        }
    }
}

#[test]
fn both_read_the_same_settings(rt: HostRuntime) {
    assert_tables(&rt, rt.alloc(), &mut (), &tables());
}

fn all_set(alloc: Global) -> Result<Config, Fault> {
    Ok(Config {
        dir: String::from_str(alloc, "a")?,
        spill_dir: Some(String::from_str(alloc, "b")?),
        recovery_mode: RecoveryMode::AbsoluteConsistency,
        recovery_read_block_size: ReadableSize(513),
        recovery_threads: 3,
        bytes_per_sync: Some(ReadableSize::kb(1)),
        format_version: Version::V1,
        target_file_size: ReadableSize::mb(2),
        purge_threshold: ReadableSize::gb(3),
        purge_rewrite_threshold: Some(ReadableSize(0)),
        purge_rewrite_garbage_ratio: 1000,
        memory_limit: Some(ReadableSize(u64::MAX)),
        enable_log_recycle: false,
        prefill_for_recycle: true,
        prefill_limit: Some(ReadableSize::mb(1025)),
    })
}

// Whether what `serde` writes of all settings is read as they are, by both.
fn is_read_back(alloc: Global) -> Result<bool, Fault> {
    let program = Program {
        name: String::from_str(alloc, "store")?,
        raft_engine: all_set(alloc)?,
    };
    let Ok(text) = toml::to_string(alloc, &program) else {
        return Err(Fault::Memory);
    };
    let wanted = all_set(alloc)?;
    let read = by_table(alloc, text.as_str())?;
    Ok(read == wanted && by_serde(alloc, text.as_str()) == Some(wanted))
}

#[test]
fn written_settings_are_read_back(rt: HostRuntime) {
    assert!(rt;
        matches!(is_read_back(rt.alloc()), Ok(true)),
        "read otherwise"
    );
}
