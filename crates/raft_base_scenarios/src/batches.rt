//! Batches and their records, laid out by hand, with checksums by Python's zlib.

use crate::changes::{Change, add, are_items, is_joined};
use crate::told::assert_row;
use raft_records::{
    Fault, FileBlockHandle, FileId, Fresh, LogBatch, LogFileContext, LogQueue, Version,
};
use std::alloc::Global;

enum Step {
    Add(Change),
    /// A put of this key is refused as an invalid argument.
    RefusePut(&'static [u8]),
    /// Takes the items of a second batch with these changes.
    Merge(&'static [Change]),
    /// Encodes the batch. The record isn't signed yet.
    Populate(&'static [&'static [u8]]),
    /// Signs the record for the file with this number, and writes it.
    Sign(Version, u64, &'static [&'static [u8]]),
    Copy,
    /// Takes the items out of the batch.
    Drain(&'static [Change]),
}

/// Steps that begin with an empty batch.
struct Script {
    name: &'static str,
    steps: &'static [Step],
}

const PUT: &[Change] = &[Change(1, b"k", Some(b"v"))];

/// The header of a record of 28 bytes, and the bytes of one put.
const PUT_FRONT: &[u8] = &[
    0, 0, 0, 0, 0, 0, 28, 0, 0, 0, 0, 0, 0, 0, 0, 16, 1, 1, 3, 1, 1, b'k', 1, b'v',
];

const PUT_SUM: &[u8] = &[0xb1, 0x29, 0x48, 0xe8];

/// A put of 200 bytes in group 300, and a delete.
const LONG_FRONT: &[u8] = &[
    0, 0, 0, 0, 0, 0, 239, 0, 0, 0, 0, 0, 0, 0, 0, 16, 2, 0xac, 2, 3, 1, 3, b'k', b'e', b'y', 0xc8,
    1,
];

const LONG_END: &[u8] = &[0xac, 2, 3, 2, 3, b'k', b'e', b'y', 0xab, 0x20, 0x1e, 0x28];

static SCRIPTS: [Script; 4] = [
    Script {
        name: "no items",
        steps: &[Step::Populate(&[&[
            0, 0, 0, 0, 0, 0, 21, 0, 0, 0, 0, 0, 0, 0, 0, 16, 0, 0x8d, 0xef, 0x02, 0xd2,
        ]])],
    },
    Script {
        name: "a long value",
        steps: &[
            Step::Add(Change(300, b"key", Some(&[7; 200]))),
            Step::Add(Change(300, b"key", None)),
            Step::Populate(&[LONG_FRONT, &[7; 200], LONG_END]),
        ],
    },
    Script {
        name: "signed for one file after the other",
        steps: &[
            Step::Add(Change(1, b"k", Some(b"v"))),
            Step::Populate(&[PUT_FRONT, PUT_SUM]),
            Step::Sign(Version::V2, 1, &[PUT_FRONT, &[0xb0, 0x29, 0x48, 0xe8]]),
            Step::Sign(
                Version::V2,
                (1 << 32) + 7,
                &[PUT_FRONT, &[0xb6, 0x29, 0x48, 0xe8]],
            ),
            Step::Sign(Version::V1, 1, &[PUT_FRONT, PUT_SUM]),
        ],
    },
    Script {
        name: "items that are moved",
        steps: &[
            Step::RefusePut(b"__x"),
            Step::Drain(&[]),
            Step::Merge(PUT),
            Step::Populate(&[PUT_FRONT, PUT_SUM]),
            Step::Copy,
            Step::Sign(Version::V1, 1, &[PUT_FRONT, PUT_SUM]),
            Step::Drain(PUT),
        ],
    },
];

fn refuses_put(alloc: Global, batch: &mut LogBatch, key: &[u8]) -> Result<bool, Fault> {
    match batch.put(1, key.to_vec(alloc)?, Vec::new(alloc)) {
        Ok(()) => Ok(false),
        Err(fault) => Ok(fault.code() == 1),
    }
}

fn add_all(alloc: Global, batch: &mut LogBatch, changes: &[Change]) -> Result<(), Fault> {
    for change in changes {
        add(alloc, batch, change)?;
    }
    Ok(())
}

fn merges(alloc: Global, batch: &mut LogBatch, changes: &[Change]) -> Result<bool, Fault> {
    let mut other = LogBatch::fresh(alloc);
    add_all(alloc, &mut other, changes)?;
    batch.merge(&mut other)?;
    Ok(other.is_empty() && !batch.is_empty())
}

fn has_record(batch: &LogBatch, len: usize, record: &[&[u8]]) -> bool {
    let bytes = batch.encoded_bytes();
    bytes.len() == len && is_joined(bytes, record)
}

fn populates(batch: &mut LogBatch, record: &[&[u8]]) -> Result<bool, Fault> {
    let len = batch.finish_populate()?;
    Ok(has_record(batch, len, record))
}

fn signs(batch: &mut LogBatch, file: LogFileContext, record: &[&[u8]]) -> Result<bool, Fault> {
    let len = batch.finish_populate()?;
    batch.prepare_write(&file);
    let is_signed = has_record(batch, len, record);
    batch.finish_write(FileBlockHandle {
        id: file.id,
        offset: 69,
        len,
    });
    Ok(is_signed)
}

fn copies(batch: &mut LogBatch) -> Result<bool, Fault> {
    batch.finish_populate()?;
    let copy = batch.clone()?;
    Ok(copy.encoded_bytes() == batch.encoded_bytes())
}

fn drains(alloc: Global, batch: &mut LogBatch, changes: &[Change]) -> bool {
    let mut items = Vec::new(alloc);
    batch.drain(&mut items);
    batch.is_empty() && are_items(&items, changes)
}

// Whether the step ends as the script says.
fn holds(alloc: Global, batch: &mut LogBatch, step: &Step) -> Result<bool, Fault> {
    match step {
        Step::Add(change) => {
            add(alloc, batch, change)?;
            Ok(true)
        }
        Step::RefusePut(key) => refuses_put(alloc, batch, key),
        Step::Merge(changes) => merges(alloc, batch, changes),
        Step::Populate(record) => populates(batch, record),
        Step::Sign(version, seq, record) => {
            let id = FileId::new(LogQueue::Append, *seq);
            signs(batch, LogFileContext::new(id, *version), record)
        }
        Step::Copy => copies(batch),
        Step::Drain(changes) => Ok(drains(alloc, batch, changes)),
    }
}

fn all_hold(alloc: Global, batch: &mut LogBatch, steps: &[Step]) -> Result<bool, Fault> {
    for step in steps {
        if !holds(alloc, batch, step)? {
            return Ok(false);
        }
    }
    Ok(true)
}

// Whether each step ends as the script says.
fn is_played(alloc: Global, script: &Script) -> Result<bool, Fault> {
    let mut batch = LogBatch::new(alloc);
    all_hold(alloc, &mut batch, script.steps)
}

#[test]
fn batches_are_encoded_and_moved(rt: HostRuntime) {
    for script in &SCRIPTS {
        assert_row(&rt, is_played(rt.alloc(), script), script.name);
    }
}
