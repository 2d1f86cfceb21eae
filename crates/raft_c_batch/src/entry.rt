//! Entries that begin with their index.
ghost use Rattle.std.specs.Prelude.{◌≡◌, ◌++◌, drop, option_map, IfOk, Some};
ghost use Rattle.raft_codec.specs.Number.{u64_bytes};
ghost use Rattle.raft_c_batch.specs.Batch.{index_in, stored_of};

use raft_codec::number::{push_u64, take_u64};
use raft_records::{Fault, Message, MessageExt};
use std::alloc::{AllocError, Global};

/// The bytes before an entry's value, which are its index, the greatest first.
const INDEX_LEN: usize = 8;

/// An entry as it is stored: its index in eight bytes, and its value.
#[derive(Drop)]
pub struct Entry {
    index: u64,
    bytes: Vec<u8>,
}

impl Entry {
    pub fn new(alloc: Global, index: u64, value: &[u8]) -> Result<Entry, AllocError>
        ensures value { IfOk result (λ entry.
            stored_of entry ≡ (index, u64_bytes index ++ value.now)) }
    {
        let mut bytes = Vec::with_capacity(alloc, value.len().saturating_add(INDEX_LEN))?;
        push_u64(&mut bytes, index)?;
        bytes.extend_from_slice(value)?;
        Ok(Entry { index, bytes })
    }

    /// The entry that is stored as these bytes, if they are long enough for an index.
    pub fn of(alloc: Global, bytes: &[u8]) -> Result<Option<Entry>, AllocError>
        ensures value { IfOk result (λ entry. option_map stored_of entry
            ≡ option_map (λ index. (index, bytes.now)) (index_in bytes.now)) }
    {
        let Some((index, _)) = take_u64(bytes) else {
            return Ok(None);
        };
        let bytes = bytes.to_vec(alloc)?;
        Ok(Some(Entry { index, bytes }))
    }

    /// The index and the value.
    pub fn bytes(&self) -> &[u8]
        ensures value { result.now ≡ self.now.bytes.items }
    {
        &self.bytes
    }

    pub fn value(&self) -> &[u8]
        ensures value { result.now ≡ drop 8 self.now.bytes.items }
    {
        self.bytes.get(INDEX_LEN..).unwrap_or(&[])
    }
}

impl Message for Entry {
    ghost bytes_of = { λ e. e.bytes.items };

    ghost is_parsed = { λ bytes e. (e.bytes.items ≡ bytes) × (index_in bytes ≡ Some e.index) };

    /// Bytes that are too short for an index are no entry.
    fn parse(alloc: Global, bytes: &[u8]) -> Result<Entry, Fault> {
        match Entry::of(alloc, bytes)? {
            Some(entry) => Ok(entry),
            None => Err(Fault::Parse),
        }
    }

    fn to_bytes(&self, buffer: &mut Vec<u8>) -> Result<(), AllocError> {
        buffer.extend_from_slice(&self.bytes)
    }
}

impl MessageExt for Entry {
    type Entry = Entry;

    ghost index_of = { λ e. e.index };

    fn index(entry: &Entry) -> u64 {
        entry.index
    }
}
