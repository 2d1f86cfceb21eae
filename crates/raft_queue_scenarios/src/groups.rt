//! Chunks of many groups, joined by a number of threads.

use crate::steps::{KEY, entry};
use crate::told::assert_at;
use raft_builder::MergingMachine;
use raft_opening::ReplayMachine;
use raft_records::{Fault, FileId, KeyValue, LogItem, LogItemContent, LogQueue};
use raft_replay::{Read, RecoveryMachine, SideBySide, read_of};
use std::alloc::{AllocError, Global};
use std::thread::Threads;

/// The first and the last group of each chunk. In the first chunk a group has entries 1 to 3, in
/// the others 3 and 4. The value of its key is the chunk's number.
const CHUNKS: [(u64, u64); 3] = [(1, 40), (3, 50), (5, 60)];

const THREADS: [usize; 4] = [1, 2, 3, 8];

fn items(alloc: Global, group: u64, chunk: u8) -> Result<Vec<LogItem>, AllocError> {
    let mut entries = Vec::new(alloc);
    let indexes = if chunk == 0 { 1..4 } else { 3..5 };
    for index in indexes {
        entries.push(entry(index))?;
    }
    let mut items = Vec::new(alloc);
    items.push(LogItem {
        raft_group_id: group,
        content: LogItemContent::EntryIndexes(entries),
    })?;
    items.push(LogItem {
        raft_group_id: group,
        content: LogItemContent::Kv(KeyValue::Put {
            key: KEY.to_vec(alloc)?,
            value: vec![in alloc; chunk; 1]?,
        }),
    })?;
    Ok(items)
}

fn fill(
    alloc: Global,
    machine: &mut RecoveryMachine,
    chunk: u8,
    groups: &(u64, u64),
) -> Result<(), Fault> {
    let file = FileId::new(LogQueue::Append, u64::from(chunk).saturating_add(1));
    let (first, last) = groups;
    for group in *first..last.saturating_add(1) {
        machine.replay(&mut items(alloc, group, chunk)?, file)?;
    }
    Ok(())
}

fn add_chunk(
    alloc: Global,
    all: &mut RecoveryMachine,
    chunk: u8,
    groups: &(u64, u64),
) -> Result<(), Fault> {
    let mut machine = RecoveryMachine::new(alloc);
    fill(alloc, &mut machine, chunk, groups)?;
    all.merge(machine, LogQueue::Append)
}

fn read<R: Threads + Sync>(rt: &R, alloc: Global, threads: usize) -> Result<Read, Fault> {
    let mut all = RecoveryMachine::new(alloc);
    for (chunk, groups) in (0u8..3).zip(CHUNKS.iter()) {
        add_chunk(alloc, &mut all, chunk, groups)?;
    }
    read_of(
        &SideBySide { rt, threads },
        all,
        RecoveryMachine::new(alloc),
    )
}

/// Whether the group has the items of its last chunk, and those of earlier ones that these don't
/// replace.
fn is_as_said(read: &Read, group: u64) -> bool {
    let tables = &read.tables;
    let (value, last) = match group {
        0..3 => ([0], 3),
        3..5 => ([1], 4),
        _ => ([2], 4),
    };
    let first = if group <= 40 { 1 } else { 3 };
    tables.get(group, KEY) == Some(value.as_slice())
        && tables.first_index(group) == Some(first)
        && tables.last_index(group) == Some(last)
}

fn are_as_said(read: &Read) -> bool {
    let Ok(groups) = read.tables.groups() else {
        return false;
    };
    for group in &groups {
        if !is_as_said(read, *group) {
            return false;
        }
    }
    groups.len() == 60
}

fn joins_all<R: Threads + Sync>(rt: &R, alloc: Global, threads: usize) -> bool {
    match read(rt, alloc, threads) {
        Ok(read) => are_as_said(&read),
        Err(_) => false,
    }
}

#[test]
fn each_number_of_threads_joins_all_groups(rt: HostRuntime) {
    for threads in &THREADS {
        let joined = joins_all(&rt, rt.alloc(), *threads);
        assert_at(&rt, joined, "threads", *threads);
    }
}
