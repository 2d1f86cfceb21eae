//! Removes entries from an index on, as a Raft node does when its log differs from the leader's.

use anyhow::Result;
use raft_command_line::Request;
use raft_console::{Output, check_batch, or_failure};
use raft_env::FileSystem;
use raft_inspect::Word;
use raft_log_engine::{Engine, LogBatch};
use raft_records::{EntryIndex, Fault};
use std::alloc::Global;

/// The text of a failure.
const FAILED: &str = "the group cannot be truncated";

/// Removes the entries of a group from an index on, in one batch, and prints how many they were and
/// the last index that remains. It fails before it writes if the batch would make a file too long.
pub fn truncate<F: FileSystem>(
    rt: &HostRuntime,
    engine: &mut Engine<F>,
    group: u64,
    index: u64,
    request: &Request<'_>,
    out: &mut Output,
) -> Result<()> {
    let removed = truncated(rt, engine, group, index, request)?;
    let removed = ("removed", Word::Number(removed));
    match engine.last_index(group) {
        Some(last) => out.named(&[removed, ("last", Word::Number(last))]),
        None => out.named(&[removed]),
    }
}

// A group's entries end with the ones that were written last. So the entry before the index is
// written again. If none remains, all are compacted away.
fn truncated<F: FileSystem>(
    rt: &HostRuntime,
    engine: &mut Engine<F>,
    group: u64,
    index: u64,
    request: &Request<'_>,
) -> Result<u64> {
    let (Some(first), Some(last)) = (engine.first_index(group), engine.last_index(group)) else {
        return Ok(0);
    };
    if index > last {
        return Ok(0);
    }
    if index <= first {
        let end = last.saturating_add(1);
        return or_failure(compacted(engine, group, end, request.sync), FAILED);
    }
    let kept = index - 1;
    let (mut batch, len) = or_failure(batch_of(rt.alloc(), engine, group, kept), FAILED)?;
    check_batch(rt, &request.options, 1, len)?;
    or_failure(engine.write(&mut batch, request.sync), FAILED)?;
    Ok(last.saturating_sub(kept))
}

fn compacted<F: FileSystem>(
    engine: &mut Engine<F>,
    group: u64,
    end: u64,
    sync: bool,
) -> Result<u64, Fault> {
    let count = engine.compact_to(group, end)?;
    if sync {
        engine.sync()?;
    }
    Ok(count)
}

// A batch that writes an entry again, and how many bytes the entry has.
fn batch_of<F: FileSystem>(
    alloc: Global,
    engine: &mut Engine<F>,
    group: u64,
    index: u64,
) -> Result<(LogBatch, usize), Fault> {
    let mut batch = LogBatch::new(alloc);
    let Some(place) = engine.load_entry(group, index)? else {
        return Ok((batch, 0));
    };
    let bytes = engine.loaded(place).to_vec(alloc)?;
    let len = bytes.len();
    let entry = EntryIndex {
        index,
        entries: None,
        entry_offset: 0,
        entry_len: 0,
        lz4: false,
    };
    batch.add_raw_entries(group, vec![in alloc; entry]?, vec![in alloc; bytes]?)?;
    Ok((batch, len))
}
