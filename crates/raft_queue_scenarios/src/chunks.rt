//! Batches of both queues; the Append queue's batches are in chunks.

use crate::steps::{GROUP, KEY, Step, items_of};
use crate::told::{assert_at, assert_row};
use raft_builder::MergingMachine;
use raft_opening::ReplayMachine;
use raft_records::{Fault, FileId, LogQueue};
use raft_replay::{InOrder, Read, RecoveryMachine, SideBySide, read_of};
use std::alloc::Global;
use std::thread::Threads;

/// Batches of the Rewrite queue, two chunks of the Append queue, and the recovered group: its first
/// and last index, and whether the key exists.
struct Case {
    name: &'static str,
    rewritten: &'static [Step],
    older: &'static [Step],
    newer: &'static [Step],
    indexes: Option<(u64, u64)>,
    has_key: bool,
}

static CASES: [Case; 8] = [
    Case {
        name: "a hole in the newer chunk, and a compaction",
        rewritten: &[],
        older: &[Step::Entries(1, 10)],
        newer: &[Step::Entries(5, 6), Step::Compact(8), Step::Entries(9, 10)],
        indexes: Some((9, 10)),
        has_key: false,
    },
    Case {
        name: "a hole between the chunks",
        rewritten: &[],
        older: &[Step::Entries(1, 2)],
        newer: &[Step::Entries(5, 6), Step::Entries(3, 4)],
        indexes: Some((3, 4)),
        has_key: false,
    },
    Case {
        name: "the Rewrite queue's entries stay behind a hole that was filled",
        rewritten: &[Step::Entries(1, 3)],
        older: &[Step::Entries(4, 4)],
        newer: &[Step::Entries(6, 6), Step::Entries(4, 4)],
        indexes: Some((1, 4)),
        has_key: false,
    },
    Case {
        name: "the least start cuts both",
        rewritten: &[Step::Entries(1, 9)],
        older: &[Step::Entries(7, 8)],
        newer: &[Step::Entries(8, 8), Step::Entries(3, 3)],
        indexes: Some((1, 3)),
        has_key: false,
    },
    Case {
        name: "a key deleted in the newer chunk",
        rewritten: &[Step::Put, Step::Entries(1, 1)],
        older: &[Step::Put],
        newer: &[Step::Delete],
        indexes: Some((1, 1)),
        has_key: false,
    },
    Case {
        name: "a key deleted in the older chunk and put in the newer",
        rewritten: &[Step::Put],
        older: &[Step::Delete],
        newer: &[Step::Put],
        indexes: None,
        has_key: true,
    },
    Case {
        name: "a clean in the newer chunk",
        rewritten: &[Step::Put, Step::Entries(1, 4)],
        older: &[Step::Put, Step::Entries(5, 5)],
        newer: &[Step::Clean, Step::Entries(7, 8)],
        indexes: Some((7, 8)),
        has_key: false,
    },
    Case {
        name: "a key of the older chunk alone",
        rewritten: &[Step::Entries(1, 4)],
        older: &[Step::Put],
        newer: &[Step::Compact(3)],
        indexes: Some((3, 4)),
        has_key: true,
    },
];

fn replay(
    alloc: Global,
    machine: &mut RecoveryMachine,
    queue: LogQueue,
    steps: &[Step],
) -> Result<(), Fault> {
    for step in steps {
        let mut items = items_of(alloc, *step)?;
        machine.replay(&mut items, FileId { queue, seq: 1 })?;
    }
    Ok(())
}

fn machine_of(alloc: Global, queue: LogQueue, steps: &[Step]) -> Result<RecoveryMachine, Fault> {
    let mut machine = RecoveryMachine::new(alloc);
    replay(alloc, &mut machine, queue, steps)?;
    Ok(machine)
}

/// The machine of the Append queue. If `apart`, each chunk has its own machine and they are
/// merged; otherwise one machine replays both.
fn appended(alloc: Global, case: &Case, apart: bool) -> Result<RecoveryMachine, Fault> {
    let mut appended = machine_of(alloc, LogQueue::Append, case.older)?;
    if apart {
        let newer = machine_of(alloc, LogQueue::Append, case.newer)?;
        appended.merge(newer, LogQueue::Append)?;
    } else {
        replay(alloc, &mut appended, LogQueue::Append, case.newer)?;
    }
    Ok(appended)
}

fn is_as_said(case: &Case, read: &Read) -> bool {
    let tables = &read.tables;
    let indexes = match (tables.first_index(GROUP), tables.last_index(GROUP)) {
        (Some(first), Some(last)) => Some((first, last)),
        _ => None,
    };
    indexes == case.indexes && tables.get(GROUP, KEY).is_some() == case.has_key
}

// Whether the recovered contents are the case's.
fn comes_to(case: &Case, read: Result<Read, Fault>) -> bool {
    match read {
        Ok(read) => is_as_said(case, &read),
        Err(_) => false,
    }
}

fn is_read(alloc: Global, case: &Case, apart: bool) -> bool {
    let rewritten = machine_of(alloc, LogQueue::Rewrite, case.rewritten);
    match (appended(alloc, case, apart), rewritten) {
        (Ok(appended), Ok(rewritten)) => comes_to(case, read_of(&InOrder, appended, rewritten)),
        _ => false,
    }
}

#[test]
fn chunks_are_read_as_one(rt: HostRuntime) {
    for case in &CASES {
        assert_row(&rt, is_read(rt.alloc(), case, false), case.name);
        assert_row(&rt, is_read(rt.alloc(), case, true), case.name);
    }
}

fn is_joined<R: Threads + Sync>(rt: &R, alloc: Global, case: &Case, threads: usize) -> bool {
    let rewritten = machine_of(alloc, LogQueue::Rewrite, case.rewritten);
    match (appended(alloc, case, true), rewritten) {
        (Ok(appended), Ok(rewritten)) => {
            comes_to(
                case,
                read_of(&SideBySide { rt, threads }, appended, rewritten),
            )
        }
        _ => false,
    }
}

#[test]
fn threads_join_chunks_as_one_does(rt: HostRuntime) {
    for case in &CASES {
        for threads in &[0, 1, 4] {
            let joined = is_joined(&rt, rt.alloc(), case, *threads);
            assert_at(&rt, joined, case.name, *threads);
        }
    }
}
