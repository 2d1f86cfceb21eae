//! Keys numbered from 0, by which a disk can be tested: pull its plug while they are loaded.

use crate::changes::{Change, write};
use anyhow::Result;
use raft_command_line::{Load, Options};
use raft_console::{Output, Progress, check_batch, failure, note, print_bytes};
use raft_contents::Engine;
use raft_env::FileSystem;
use raft_inspect::Word;
use raft_records::{Fault, FileSeq};
use std::alloc::{AllocError, Global};
use std::time::Instant;

const GROUP: u64 = 1;

/// Puts the keys, syncs after so many of them and at the end, or never for 0, and prints the last
/// key that each sync covers. It purges after so many of them too.
pub(crate) fn load<F: FileSystem>(
    rt: &HostRuntime,
    engine: &mut Engine<F>,
    load: Load,
    options: &Options<'_>,
) -> Result<()> {
    check_batch(rt, options, 1, load.size as usize)?;
    let start = Instant::now(rt)?;
    let mut progress = Progress::of(*rt, options)?;
    for number in 0..load.count {
        progress.at("keys", number, load.count)?;
        put_next(rt, engine, number, load, options.json)?;
    }
    note(rt, options, report(rt, start, load)?.as_str())
}

fn put_next<F: FileSystem>(
    rt: &HostRuntime,
    engine: &mut Engine<F>,
    number: u64,
    load: Load,
    json: bool,
) -> Result<()> {
    let nth = number.saturating_add(1);
    let sync = load.sync_each > 0 && (nth % load.sync_each == 0 || nth == load.count);
    if let Err(fault) = put(rt.alloc(), engine, number, load.size, sync) {
        return Err(failure("the keys cannot be loaded", &fault));
    }
    if sync {
        let line = if json {
            format!(in rt.alloc(); "{{\"synced\":{number}}}\n")?
        } else {
            format!(in rt.alloc(); "synced {number}\n")?
        };
        print_bytes(rt, line.as_bytes())?;
    }
    if load.purge_each > 0 && nth % load.purge_each == 0 {
        if let Err(fault) = engine.purge_expired_files(FileSeq::MAX) {
            return Err(failure("the log cannot be purged", &fault));
        }
    }
    Ok(())
}

fn put<F: FileSystem>(
    alloc: Global,
    engine: &mut Engine<F>,
    number: u64,
    size: u64,
    sync: bool,
) -> Result<(), Fault> {
    let key = key_of(alloc, number)?;
    let value = value_of(alloc, number, size)?;
    write(alloc, engine, GROUP, Change::Put(&key, &value), sync)
}

// How fast the keys were put.
fn report(rt: &HostRuntime, start: Instant, load: Load) -> Result<String> {
    let micros = u64::try_from(start.elapsed(rt)?.as_micros())?.max(1);
    let count = load.count;
    let rate = count.saturating_mul(1_000_000) / micros;
    let bytes = count.saturating_mul(load.size) / micros;
    Ok(format!(in rt.alloc();
        "{count} keys in {} ms: {rate} keys/s, {bytes} MB/s",
        micros / 1000
    )?)
}

/// Counts the consecutive keys from 0 on, and those after the first that is missing or has another
/// value. Returns whether there are none of the latter.
pub(crate) fn verify<F: FileSystem>(
    rt: &HostRuntime,
    engine: &Engine<F>,
    load: Load,
    options: &Options<'_>,
    out: &mut Output,
) -> Result<bool> {
    let mut progress = Progress::of(*rt, options)?;
    let mut standing = 0u64;
    let mut after = 0u64;
    let mut wrong = 0u64;
    for number in 0..load.count {
        progress.at("keys", number, load.count)?;
        match find(rt.alloc(), engine, number, load.size) {
            Ok(Found::Right) if standing == number => standing = standing.saturating_add(1),
            Ok(Found::Right) => after = after.saturating_add(1),
            Ok(Found::Wrong) => wrong = wrong.saturating_add(1),
            Ok(Found::Nothing) => {}
            Err(fault) => return Err(failure("the keys cannot be read", &fault)),
        }
    }
    out.named(&[
        ("present", Word::Number(standing)),
        ("after-gap", Word::Number(after)),
        ("different", Word::Number(wrong)),
    ])?;
    Ok(after == 0 && wrong == 0)
}

enum Found {
    Nothing,
    Right,
    Wrong,
}

fn find<F: FileSystem>(
    alloc: Global,
    engine: &Engine<F>,
    number: u64,
    size: u64,
) -> Result<Found, Fault> {
    let Some(value) = engine.get(GROUP, &key_of(alloc, number)?)? else {
        return Ok(Found::Nothing);
    };
    let wanted = value_of(alloc, number, size)?;
    if value == wanted {
        Ok(Found::Right)
    } else {
        Ok(Found::Wrong)
    }
}

fn key_of(alloc: Global, number: u64) -> Result<Vec<u8>, AllocError> {
    format!(in alloc; "{number}").map(String::into_bytes)
}

// The number and a space, again and again, cut to the size.
fn value_of(alloc: Global, number: u64, size: u64) -> Result<Vec<u8>, AllocError> {
    let text = format!(in alloc; "{number} ")?;
    let text = text.as_bytes();
    let period = text.len().max(1);
    let mut value = Vec::new(alloc);
    for place in 0..size as usize {
        if let Some(byte) = text.get(place % period) {
            value.push(*byte)?;
        }
    }
    Ok(value)
}
