//! The calls that seats make, and their results.

use raft_log_engine::{Fault, LogBatch};
use raft_records::EntryIndex;
use raft_shared::Reply;
use std::alloc::Global;

pub(crate) enum Ask {
    Put(u64, &'static [u8], &'static [u8]),
    /// A synced put at the key k of group 1, with numbers of groups.
    PutOnce(&'static [u8], &'static [(u64, u64)]),
    /// Entries of group 1 with these indexes, each without bytes.
    Entries(&'static [u64]),
    Get(u64, &'static [u8]),
    First(u64),
    Last(u64),
    Sync,
}

pub(crate) enum Told {
    Size(usize),
    Done,
    Value(Option<&'static [u8]>),
    Index(Option<u64>),
    /// A fault with this code.
    Refused(u8),
}

pub(crate) fn put_of(
    alloc: Global,
    group: u64,
    key: &[u8],
    value: &[u8],
) -> Result<LogBatch, Fault> {
    let mut batch = LogBatch::new(alloc);
    batch.put(group, key.to_vec(alloc)?, value.to_vec(alloc)?)?;
    Ok(batch)
}

fn entries_of(alloc: Global, indexes: &[u64]) -> Result<LogBatch, Fault> {
    let mut entries = Vec::new(alloc);
    let mut bytes = Vec::new(alloc);
    for index in indexes {
        entries.push(EntryIndex {
            index: *index,
            entries: None,
            entry_offset: 0,
            entry_len: 0,
            lz4: false,
        })?;
        bytes.push(Vec::new(alloc))?;
    }
    let mut batch = LogBatch::new(alloc);
    batch.add_raw_entries(1, entries, bytes)?;
    Ok(batch)
}

/// The batch of a call that writes one.
pub(crate) fn batch_of(alloc: Global, ask: &Ask) -> Result<LogBatch, Fault> {
    match ask {
        Ask::Put(group, key, value) => put_of(alloc, *group, key, value),
        Ask::PutOnce(value, _) => put_of(alloc, 1, b"k", value),
        Ask::Entries(indexes) => entries_of(alloc, indexes),
        _ => Ok(LogBatch::new(alloc)),
    }
}

/// The fault in a reply.
pub(crate) fn fault_of(reply: &Reply) -> Option<&Fault> {
    match reply {
        Reply::Size(size) => size.as_ref().err(),
        Reply::Done(done) => done.as_ref().err(),
        Reply::Value(value) => value.as_ref().err(),
        Reply::Index(_) => None,
    }
}

pub(crate) fn is_told(told: &Told, reply: &Reply) -> bool {
    match (told, reply) {
        (Told::Size(wanted), Reply::Size(Ok(size))) => *size == *wanted,
        (Told::Done, Reply::Done(Ok(()))) => true,
        (Told::Value(Some(wanted)), Reply::Value(Ok(Some(value)))) => value.as_slice() == *wanted,
        (Told::Value(None), Reply::Value(Ok(None))) => true,
        (Told::Index(wanted), Reply::Index(index)) => *index == *wanted,
        (Told::Refused(code), _) => match fault_of(reply) {
            Some(fault) => fault.code() == *code,
            None => false,
        },
        _ => false,
    }
}
