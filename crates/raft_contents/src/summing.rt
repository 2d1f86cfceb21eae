//! Checksums of what a log holds.

use anyhow::Result;
use raft_command_line::Indexes;
use raft_console::{Output, or_failure};
use raft_env::FileSystem;
use raft_inspect::Word;
use raft_log_engine::Engine;
use raft_records::Fault;
use raft_sum::{GroupSum, LogSum};
use std::alloc::{AllocError, Global};

/// What was summed of a group.
#[derive(Clone, Copy)]
struct Summed {
    entries: u64,
    keys: u64,
    sum: [u8; 32],
}

/// Prints a line for each group that has entries or keys: how many, and their checksum; and one
/// for all groups. With a group it prints only that one, and with indexes the checksum of its
/// entries between them.
pub fn sum<F: FileSystem>(
    alloc: Global,
    engine: &mut Engine<F>,
    group: Option<u64>,
    indexes: Indexes,
    out: &mut Output,
) -> Result<()> {
    if let Some(group) = group {
        let summed = or_failure(sum_group(engine, group, indexes), "it cannot be summed")?;
        return add_line(alloc, group, summed, out);
    }
    let groups = or_failure(engine.raft_groups(), "the groups cannot be listed")?;
    let mut all = LogSum::new();
    let mut count = 0u64;
    for group in groups {
        let summed = or_failure(sum_group(engine, group, indexes), "it cannot be summed")?;
        if summed.entries > 0 || summed.keys > 0 {
            count = count.saturating_add(1);
            all.add_group(summed.sum.as_slice());
            add_line(alloc, group, summed, out)?;
        }
    }
    let sum = digits(alloc, &all.finish())?;
    out.named(&[
        ("groups", Word::Number(count)),
        ("sum", Word::Text(sum.as_str())),
    ])
}

fn add_line(alloc: Global, group: u64, summed: Summed, out: &mut Output) -> Result<()> {
    let sum = digits(alloc, &summed.sum)?;
    out.named(&[
        ("group", Word::Number(group)),
        ("entries", Word::Number(summed.entries)),
        ("keys", Word::Number(summed.keys)),
        ("sum", Word::Text(sum.as_str())),
    ])
}

fn digits(alloc: Global, bytes: &[u8]) -> Result<String, AllocError> {
    hex::encode(alloc, bytes)
}

/// A sum under way.
#[derive(Drop)]
struct Summing {
    sum: GroupSum,
    entries: u64,
    keys: u64,
}

impl Summing {
    fn add_pair(&mut self, key: &[u8], value: &[u8]) -> bool {
        self.keys = self.keys.saturating_add(1);
        self.sum.add_pair(key, value);
        true
    }
}

// Keys count if no index is named.
fn sum_group<F: FileSystem>(
    engine: &mut Engine<F>,
    group: u64,
    indexes: Indexes,
) -> Result<Summed, Fault> {
    let mut summing = Summing {
        sum: GroupSum::new(group),
        entries: 0,
        keys: 0,
    };
    add_entries(engine, group, indexes, &mut summing)?;
    if indexes.from.is_none() && indexes.to.is_none() {
        add_keys(engine, group, &mut summing)?;
    }
    let Summing { sum, entries, keys } = summing;
    Ok(Summed {
        entries,
        keys,
        sum: sum.finish(),
    })
}

fn add_keys<F: FileSystem>(
    engine: &Engine<F>,
    group: u64,
    summing: &mut Summing,
) -> Result<(), Fault> {
    engine.scan_raw_messages(
        group,
        None,
        None,
        false,
        &mut |key: &[u8], value: &[u8]| summing.add_pair(key, value),
    )
}

fn add_entries<F: FileSystem>(
    engine: &mut Engine<F>,
    group: u64,
    indexes: Indexes,
    summing: &mut Summing,
) -> Result<(), Fault> {
    let (Some(first), Some(last)) = (engine.first_index(group), engine.last_index(group)) else {
        return Ok(());
    };
    for index in indexes.from.unwrap_or(first).max(first)..=indexes.to.unwrap_or(last).min(last) {
        if let Some(place) = engine.load_entry(group, index)? {
            summing.sum.add_entry(index, engine.loaded(place));
            summing.entries = summing.entries.saturating_add(1);
        }
    }
    Ok(())
}
