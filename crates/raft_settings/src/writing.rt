//! Settings are written as text.
ghost use Rattle.std.specs.Prelude.{◌≡◌, Some, None, option_map, IfErr, IfOk, OnOk};
ghost use Rattle.std.specs.String.{string_bytes};
ghost use Rattle.toml.specs.Data.{Data, string};
ghost use Rattle.toml.specs.Parse.{parse_document};
ghost use Rattle.toml.specs.View.{table_view, view};
ghost use Rattle.raft_base.specs.declared.errors.Fault.TheVariants.{Memory};
ghost use Rattle.raft_settings.specs.Reading.{ReadsAlone};
ghost use Rattle.raft_settings.specs.Writing.{FilesFit, Fits, IsNumberRefusal, IsWriteRefusal, RecoveryFits, RecyclingFits, mode_name, number_data, size_data, size_text, table_of, version_number, with_files, with_recovery, with_recycling, with_setting};

use raft_config::{Config, RecoveryMode};
use raft_records::{Fault, ReadableSize, Version};
use std::alloc::Global;
use toml::{Table, Value};

const KB: u64 = 1 << 10;

const MB: u64 = 1 << 20;

const GB: u64 = 1 << 30;

/// Writes settings as a TOML document, from which `read` returns the same settings. Fails with `InvalidArgument` if a
/// number that is not a size exceeds 2^63 - 1, the greatest number of TOML. Also fails with `Memory`.
pub fn write(alloc: Global, config: &Config) -> Result<String, Fault>
    ensures ok { IfOk result (λ text. parse_document (string_bytes text)
        ≡ Some (table_of config.now)) }
    ensures value { IfOk result (λ text. ReadsAlone (string_bytes text) config.now) }
    ensures cause { IfErr result (IsWriteRefusal config.now) }
{
    let table = table_of(alloc, config)?;
    match toml::table_to_string(alloc, &table) {
        Ok(text) => Ok(text),
        Err(_) => Err(Fault::Memory),
    }
}

fn table_of(alloc: Global, config: &Config) -> Result<Table, Fault>
    ensures value { IfOk result (λ table. table_view table ≡ table_of config.now) }
    ensures fits { OnOk result (RecoveryFits config.now × FilesFit config.now
        × RecyclingFits config.now) }
    ensures cause { IfErr result (IsWriteRefusal config.now) }
{
    let mut table = Table::new(alloc);
    put_recovery(alloc, config, &mut table)?;
    put_files(alloc, config, &mut table)?;
    put_recycling(alloc, config, &mut table)?;
    Ok(table)
}

fn put_recovery(alloc: Global, config: &Config, table: &mut Table) -> Result<(), Fault>
    ensures ok { OnOk result (table_view table.new ≡ with_recovery config.now
        (table_view table.old)) }
    ensures fits { OnOk result (RecoveryFits config.now) }
    ensures cause { IfErr result (IsWriteRefusal config.now) }
{
    put(alloc, "dir", Value::string(alloc, &config.dir)?, table)?;
    if let Some(dir) = &config.spill_dir {
        put(alloc, "spill-dir", Value::string(alloc, dir)?, table)?;
    }
    let mode = Value::string(alloc, mode_name(config.recovery_mode))?;
    put(alloc, "recovery-mode", mode, table)?;
    let block_size = Some(config.recovery_read_block_size);
    put_size(alloc, "recovery-read-block-size", block_size, table)?;
    let threads = config.recovery_threads as u64;
    put_number(alloc, "recovery-threads", threads, table)
}

fn put_files(alloc: Global, config: &Config, table: &mut Table) -> Result<(), Fault>
    ensures ok { OnOk result (table_view table.new ≡ with_files config.now
        (table_view table.old)) }
    ensures fits { OnOk result (FilesFit config.now) }
    ensures cause { IfErr result (IsWriteRefusal config.now) }
{
    let version = version_number(config.format_version);
    put_number(alloc, "format-version", version, table)?;
    let target = Some(config.target_file_size);
    put_size(alloc, "target-file-size", target, table)?;
    let threshold = Some(config.purge_threshold);
    put_size(alloc, "purge-threshold", threshold, table)?;
    let threshold = config.purge_rewrite_threshold;
    put_size(alloc, "purge-rewrite-threshold", threshold, table)?;
    let ratio = config.purge_rewrite_garbage_ratio;
    put_number(alloc, "purge-rewrite-garbage-ratio", ratio, table)
}

fn put_recycling(alloc: Global, config: &Config, table: &mut Table) -> Result<(), Fault>
    ensures ok { OnOk result (table_view table.new ≡ with_recycling config.now
        (table_view table.old)) }
    ensures fits { OnOk result (RecyclingFits config.now) }
    ensures memory { IfErr result (λ e. e ≡ Memory) }
{
    put_size(alloc, "bytes-per-sync", config.bytes_per_sync, table)?;
    put_size(alloc, "memory-limit", config.memory_limit, table)?;
    put(
        alloc,
        "enable-log-recycle",
        Value::from(config.enable_log_recycle),
        table,
    )?;
    put(
        alloc,
        "prefill-for-recycle",
        Value::from(config.prefill_for_recycle),
        table,
    )?;
    put_size(alloc, "prefill-limit", config.prefill_limit, table)
}

fn put_size(
    alloc: Global,
    key: &str,
    size: Option<ReadableSize>,
    table: &mut Table,
) -> Result<(), Fault>
    ensures ok { OnOk result (table_view table.new ≡ with_setting key.now
        (option_map size_data size) (table_view table.old)) }
    ensures fits { Fits size }
    ensures memory { IfErr result (λ e. e ≡ Memory) }
{
    match size {
        Some(size) => put(alloc, key, Value::from(size_text(alloc, size)?), table),
        None => Ok(()),
    }
}

fn put_number(alloc: Global, key: &str, number: u64, table: &mut Table) -> Result<(), Fault>
    ensures ok { OnOk result (table_view table.new ≡ with_setting key.now
        (Some (number_data number)) (table_view table.old)) }
    ensures cause { IfErr result (IsNumberRefusal number) }
{
    let Ok(number) = i64::try_from(number) else {
        return Err(Fault::InvalidArgument("a number past 2^63 - 1"));
    };
    put(alloc, key, Value::from(number), table)
}

fn put(alloc: Global, key: &str, value: Value, table: &mut Table) -> Result<(), Fault>
    ensures ok { OnOk result (table_view table.new ≡ with_setting key.now
        (Some (view value)) (table_view table.old)) }
    ensures memory { IfErr result (λ e. e ≡ Memory) }
{
    table.insert(String::from_str(alloc, key)?, value)?;
    Ok(())
}

fn size_text(alloc: Global, size: ReadableSize) -> Result<String, Fault>
    ensures value { IfOk result (λ text. string_bytes text ≡ size_text size.0) }
    ensures memory { IfErr result (λ e. e ≡ Memory) }
{
    let bytes = size.0;
    let text = if bytes == 0 || bytes % KB != 0 {
        format!(in alloc; "{bytes}B")?
    } else if bytes % MB != 0 {
        format!(in alloc; "{}KB", bytes / KB)?
    } else if bytes % GB != 0 {
        format!(in alloc; "{}MB", bytes / MB)?
    } else {
        format!(in alloc; "{}GB", bytes / GB)?
    };
    Ok(text)
}

fn mode_name(mode: RecoveryMode) -> &'static str
    ensures { result.now ≡ mode_name mode }
{
    match mode {
        RecoveryMode::AbsoluteConsistency => "absolute-consistency",
        RecoveryMode::TolerateTailCorruption => "tolerate-corrupted-tail-records",
        RecoveryMode::TolerateAnyCorruption => "tolerate-any-corruption",
    }
}

fn version_number(version: Version) -> u64
    ensures { result ≡ version_number version }
{
    match version {
        Version::V1 => 1,
        Version::V2 => 2,
    }
}
