//! Settings from text.
ghost use Rattle.std.specs.Prelude.{◌≡◌, Some, None, option_map, IfErr, IfOk};
ghost use Rattle.std.specs.String.{string_bytes};
ghost use Rattle.toml.specs.Data.{as_str, get_member};
ghost use Rattle.toml.specs.View.{table_view, view};
ghost use Rattle.raft_settings.specs.Reading.{Changes, IsLoneReadRefusal, IsReadRefusal, IsTableRefusal, IsValueRefusal, Reads, ReadsAlone, setting, some_of};

use crate::value::Setting;
use raft_config::Config;
use raft_records::{Fault, Fresh};
use std::alloc::Global;
use toml::{Table, Value};

/// Reads settings from a TOML document. A setting whose key is missing has its default. Other keys are passed over.
/// Fails with `InvalidArgument` if the text is not a TOML document, or, with the key, if a value is not valid for its
/// setting. Also fails with `Memory`. `Config::sanitize` checks whether the settings contradict one another.
pub fn read(alloc: Global, text: &str) -> Result<Config, Fault>
    ensures value { IfOk result (ReadsAlone text.now) }
    ensures cause { IfErr result (IsLoneReadRefusal text.now) }
{
    with_text(alloc, &Config::fresh(alloc), text)
}

/// As `read`, but a setting whose key is missing has the value that it has in `config`.
pub fn with_text(alloc: Global, config: &Config, text: &str) -> Result<Config, Fault>
    ensures value { IfOk result (Reads text.now config.now) }
    ensures cause { IfErr result (IsReadRefusal text.now config.now) }
{
    match toml::table_from_str(alloc, text) {
        Ok(table) => with_table(alloc, config, &table),
        Err(error) if error.is_memory() => Err(Fault::Memory),
        Err(_) => Err(Fault::InvalidArgument("the settings are not valid TOML")),
    }
}

/// As `with_text`, for a table. It may be a table of the program's own TOML document, such as `[raft-engine]`.
pub fn with_table(alloc: Global, config: &Config, table: &Table) -> Result<Config, Fault>
    ensures value { IfOk result (Changes (table_view table.now) config.now) }
    ensures cause { IfErr result (IsTableRefusal (table_view table.now) config.now) }
{
    Ok(Config {
        dir: text(alloc, table, "dir", &config.dir)?,
        spill_dir: optional_text(alloc, table, "spill-dir", &config.spill_dir)?,
        recovery_mode: setting(table, "recovery-mode", config.recovery_mode)?,
        recovery_read_block_size: setting(
            table,
            "recovery-read-block-size",
            config.recovery_read_block_size,
        )?,
        recovery_threads: setting(table, "recovery-threads", config.recovery_threads)?,
        bytes_per_sync: setting(table, "bytes-per-sync", config.bytes_per_sync)?,
        format_version: setting(table, "format-version", config.format_version)?,
        target_file_size: setting(table, "target-file-size", config.target_file_size)?,
        purge_threshold: setting(table, "purge-threshold", config.purge_threshold)?,
        purge_rewrite_threshold: setting(
            table,
            "purge-rewrite-threshold",
            config.purge_rewrite_threshold,
        )?,
        purge_rewrite_garbage_ratio: setting(
            table,
            "purge-rewrite-garbage-ratio",
            config.purge_rewrite_garbage_ratio,
        )?,
        memory_limit: setting(table, "memory-limit", config.memory_limit)?,
        enable_log_recycle: setting(table, "enable-log-recycle", config.enable_log_recycle)?,
        prefill_for_recycle: setting(table, "prefill-for-recycle", config.prefill_for_recycle)?,
        prefill_limit: setting(table, "prefill-limit", config.prefill_limit)?,
    })
}

fn setting<T: Setting + Drop>(table: &Table, key: &'static str, old: T) -> Result<T, Fault>
    ensures ok { IfOk result (λ new. setting (table_view table.now) key.now T.reads old
        ≡ Some new) }
    ensures cause { IfErr result
        (IsValueRefusal (setting (table_view table.now) key.now T.reads old)) }
{
    match find(table, key) {
        Some(value) => T::read(value).ok_or(Fault::InvalidArgument(key)),
        None => Ok(old),
    }
}

fn text(alloc: Global, table: &Table, key: &'static str, old: &String) -> Result<String, Fault>
    ensures ok { IfOk result (λ new. setting (table_view table.now) key.now as_str
        (string_bytes old.now) ≡ Some (string_bytes new)) }
    ensures cause { IfErr result
        (IsValueRefusal (setting (table_view table.now) key.now as_str (string_bytes old.now))) }
{
    match find(table, key) {
        Some(value) => copy_text(alloc, key, value),
        None => Ok(old.clone()?),
    }
}

fn optional_text(
    alloc: Global,
    table: &Table,
    key: &'static str,
    old: &Option<String>,
) -> Result<Option<String>, Fault>
    ensures ok { IfOk result (λ new. setting (table_view table.now) key.now (some_of as_str)
        (option_map string_bytes old.now) ≡ Some (option_map string_bytes new)) }
    ensures cause { IfErr result (IsValueRefusal (setting (table_view table.now) key.now
        (some_of as_str) (option_map string_bytes old.now))) }
{
    match (find(table, key), old) {
        (Some(value), _) => Ok(Some(copy_text(alloc, key, value)?)),
        (None, Some(old)) => Ok(Some(old.clone()?)),
        (None, None) => Ok(None),
    }
}

fn copy_text(alloc: Global, key: &'static str, value: &Value) -> Result<String, Fault>
    ensures ok { IfOk result (λ text. as_str (view value.now) ≡ Some (string_bytes text)) }
    ensures cause { IfErr result (IsValueRefusal (as_str (view value.now))) }
{
    let Some(text) = value.as_str() else {
        return Err(Fault::InvalidArgument(key));
    };
    Ok(String::from_str(alloc, text)?)
}

fn find<'a>(table: &'a Table, key: &str) -> Option<&'a Value>
    ensures { option_map (λ value. view value.now) result
        ≡ get_member key.now (table_view table.now) }
{
    table.get(key)
}
