//! raft-engine's own tests of its settings, by `serde`.

use raft_config::{Config, RecoveryMode};
use raft_records::{Fault, Fresh, ReadableSize, Version};
use std::alloc::Global;

const CUSTOM: &str = "\
dir = \"custom_dir\"
spill-dir = \"custom_spill_dir\"
recovery-mode = \"tolerate-tail-corruption\"
bytes-per-sync = \"2KB\"
target-file-size = \"1MB\"
purge-threshold = \"3MB\"
format-version = 1
enable-log-recycle = false
prefill-for-recycle = false
";

const SOFT: &str = "\
recovery-read-block-size = 1
recovery-threads = 0
target-file-size = \"5000MB\"
format-version = 2
enable-log-recycle = true
prefill-for-recycle = true
";

fn read(alloc: Global, text: &str) -> Option<Config> {
    match toml::from_str(alloc, text) {
        Ok(config) => Some(config),
        Err(_) => None,
    }
}

// The settings of a text, after `sanitize`.
fn sanitized(alloc: Global, text: &str) -> Option<Config> {
    let mut config = read(alloc, text)?;
    match config.sanitize() {
        Ok(()) => Some(config),
        Err(_) => None,
    }
}

fn is_refused(alloc: Global, text: &str) -> bool {
    read(alloc, text).is_some() && sanitized(alloc, text).is_none()
}

fn defaults_are_read_back(alloc: Global) -> Result<bool, Fault> {
    let Ok(text) = toml::to_string_pretty(alloc, &Config::fresh(alloc)) else {
        return Err(Fault::Memory);
    };
    Ok(read(alloc, text.as_str()) == Some(Config::fresh(alloc)))
}

fn is_custom(config: &Config) -> bool {
    config.dir.as_str() == "custom_dir"
        && config.spill_dir.as_deref() == Some("custom_spill_dir")
        && config.recovery_mode == RecoveryMode::TolerateTailCorruption
        && config.bytes_per_sync == Some(ReadableSize::kb(2))
        && config.target_file_size == ReadableSize::mb(1)
        && config.purge_threshold == ReadableSize::mb(3)
        && config.format_version == Version::V1
        && !config.enable_log_recycle
        && !config.prefill_for_recycle
}

// Whether these are still the values of the text, which are below the least ones.
fn is_too_low(config: &Config) -> bool {
    config.recovery_read_block_size.0 < 512 && config.recovery_threads < 1
}

fn is_raised(config: &Config) -> bool {
    config.recovery_read_block_size.0 >= 512
        && config.recovery_threads >= 1
        && config.purge_rewrite_threshold == Some(config.target_file_size)
}

#[test]
fn test_serde(rt: HostRuntime) {
    assert!(rt;
        matches!(defaults_are_read_back(rt.alloc()), Ok(true)),
        "read otherwise"
    );
}

#[test]
fn test_custom(rt: HostRuntime) {
    let config = sanitized(rt.alloc(), CUSTOM);
    assert!(rt; config.as_ref().is_some_and(is_custom), "{config:?}");
}

#[test]
fn test_invalid(rt: HostRuntime) {
    let alloc = rt.alloc();
    assert!(rt;
        is_refused(
            alloc,
            "target-file-size = \"5MB\"\npurge-threshold = \"3MB\"\n"
        )
    );
    assert!(rt; is_refused(alloc, "enable-log-recycle = true\nformat-version = 1\n"));
    assert!(rt;
        is_refused(
            alloc,
            "enable-log-recycle = false\nprefill-for-recycle = true\nformat-version = 2\n"
        )
    );
    assert!(rt; read(alloc, SOFT).is_some_and(|config| is_too_low(&config)));
    let config = sanitized(alloc, SOFT);
    assert!(rt; config.as_ref().is_some_and(is_raised), "{config:?}");
}

// Whether the old name of the mode of the tail is read, and written again.
fn keeps_old_name(alloc: Global) -> Result<bool, Fault> {
    let Some(config) = sanitized(
        alloc,
        "recovery-mode = \"tolerate-corrupted-tail-records\"\n",
    ) else {
        return Ok(false);
    };
    match toml::to_string(alloc, &config) {
        Ok(text) => Ok(text.contains("tolerate-corrupted-tail-records")),
        Err(_) => Err(Fault::Memory),
    }
}

#[test]
fn test_backward_compactibility(rt: HostRuntime) {
    assert!(rt;
        matches!(keeps_old_name(rt.alloc()), Ok(true)),
        "another name"
    );
}

#[test]
fn test_prefill_for_recycle(rt: HostRuntime) {
    let alloc = rt.alloc();
    let given = sanitized(
        alloc,
        "enable-log-recycle = true\nprefill-for-recycle = true\n",
    );
    assert!(rt; given.is_some_and(|config| config.prefill_limit == Some(config.purge_threshold)));
    let left_out = sanitized(
        alloc,
        "enable-log-recycle = true\nprefill-for-recycle = false\nprefill-limit = \"20GB\"\n",
    );
    assert!(rt; left_out.is_some_and(|config| config.prefill_limit.is_none()));
}
