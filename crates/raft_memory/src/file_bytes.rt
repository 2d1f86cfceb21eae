//! The bytes of a file in memory; zeros at its end take no memory.
ghost use Rattle.std.specs.Prelude.{◌≡◌, ◌≤◌, ◌<◌, ◌+◌, ◌^◌, ◌++◌, ℕ, [], length, take, drop, slice_index, IfOk, OnOk, OnErr};
ghost use Rattle.raft_env.specs.Outcomes.{overlay, pad_to};

use std::alloc::{AllocError, Global};
use std::marker::Model;

/// A file with more bytes than this grows by this many at once.
const LARGE_FILE: usize = 4 << 20;

const LARGE_GROWTH: usize = 64 << 20;

/// The bytes of a file. Zeros at its end are not stored until something is written after them, so
/// room that is allocated ahead costs neither time nor memory.
#[derive(Drop)]
pub(crate) struct FileBytes {
    /// The first bytes; all later ones are zeros.
    stored: Vec<u8>,
    /// How many bytes there are.
    len: usize,
}

impl Model for FileBytes {
    ghost use Rattle.std.specs.Prelude.{◌≤◌, ◌<◌, ◌^◌, List, ℕ, length};
    ghost use Rattle.raft_env.specs.Outcomes.{pad_to};

    ghost Value = { List ℕ };

    ghost view = { λ b. pad_to b.stored.items b.len };

    ghost invariant = { λ b. (length b.stored.items ≤ b.len) × (b.len < 2 ^ 63) };
}

impl FileBytes {
    /// No bytes. They take no memory.
    pub(crate) fn new(alloc: Global) -> FileBytes
        ensures { result ≡ [] }
    {
        FileBytes {
            stored: Vec::new(alloc),
            len: 0,
        }
    }

    /// These bytes, which are moved.
    pub(crate) fn of(bytes: Vec<u8>) -> FileBytes
        ensures { result ≡ bytes.items }
    {
        FileBytes {
            len: bytes.len(),
            stored: bytes,
        }
    }

    pub(crate) fn len(&self) -> usize
        ensures value { result ≡ length self.now }
        ensures fits { result < 2 ^ 63 }
    {
        self.len
    }

    /// The first bytes; only zeros follow them.
    pub(crate) fn stored(&self) -> &[u8]
        ensures each { (i : ℕ) → slice_index result.now i ≡ slice_index self.now i }
        ensures padding { (i : ℕ) → length result.now ≤ i → slice_index self.now i ≡ 0 }
    {
        &self.stored
    }

    /// A copy of all bytes.
    pub(crate) fn to_vec(&self, alloc: Global) -> Result<Vec<u8>, AllocError>
        ensures ok { IfOk result (λ copy. copy.items ≡ self.now) }
    {
        let mut copy = self.stored.to_vec(alloc)?;
        copy.resize(self.len, 0)?;
        Ok(copy)
    }

    /// Copies the bytes from a place on into a slice, which is no longer than they are.
    pub(crate) fn copy_to(&self, at: usize, bytes: &mut [u8])
        requires { at + length bytes.old ≤ length self.now }
        ensures { bytes.new ≡ take (length bytes.old) (drop at self.now) }
    {
        let stored = bytes_from(&self.stored, at);
        let count = bytes.len().min(stored.len());
        bytes[..count].copy_from_slice(&stored[..count]);
        bytes[count..].fill(0);
    }

    /// Copies bytes from a place on into an empty buffer, no more than there are.
    pub(crate) fn push_to(
        &self,
        at: usize,
        count: usize,
        bytes: &mut Vec<u8>,
    ) -> Result<(), AllocError>
        requires empty { bytes.old.items ≡ [] }
        requires within { at + count ≤ length self.now }
        ensures ok { OnOk result (bytes.new.items ≡ take count (drop at self.now)) }
    {
        let stored = bytes_from(&self.stored, at);
        let first = count.min(stored.len());
        bytes.extend_from_slice(&stored[..first])?;
        if first < count {
            bytes.resize(count, 0)?;
        }
        Ok(())
    }

    /// Drops the bytes from a place on.
    pub(crate) fn truncate(&mut self, size: usize)
        ensures { self.new ≡ take size self.old }
    {
        self.stored.truncate(size);
        self.len = self.len.min(size);
    }

    /// Appends zeros to the bytes, up to this length. It takes no memory.
    pub(crate) fn lengthen(&mut self, size: usize)
        requires { size < 2 ^ 63 }
        ensures { self.new ≡ pad_to self.old size }
    {
        self.len = self.len.max(size);
    }

    /// Overwrites bytes, and writes past the end; no bytes change nothing.
    #[inline(always)]
    pub(crate) fn overlay(&mut self, at: usize, given: &[u8]) -> Result<(), AllocError>
        requires { at + length given.now < 2 ^ 63 }
        ensures ok { OnOk result (self.new ≡ overlay self.old at given.now) }
        ensures err { OnErr result (self.new ≡ self.old) }
    {
        if given.is_empty() {
            return Ok(());
        }
        write_over(&mut self.stored, at, given)?;
        self.len = self.len.max(at + given.len());
        Ok(())
    }
}

/// None if the place is past the end.
pub(crate) fn bytes_from(bytes: &[u8], at: usize) -> &[u8]
    ensures { result.now ≡ drop at bytes.now }
{
    bytes.get(at..).unwrap_or(&[])
}

// Most writes append, and write each byte once.
#[inline(always)]
fn write_over(stored: &mut Vec<u8>, at: usize, given: &[u8]) -> Result<(), AllocError>
    requires some { 0 < length given.now }
    requires fits { at + length given.now < 2 ^ 63 }
    ensures ok { OnOk result (stored.new.items ≡ overlay stored.old.items at given.now) }
    ensures err { OnErr result (stored.new.items ≡ stored.old.items) }
{
    let end = at + given.len();
    if end > stored.len() {
        make_room(stored, end)?;
        if at == stored.len() {
            return stored.extend_from_slice(given);
        }
        stored.resize(end, 0)?;
    }
    put(stored, at, given);
    Ok(())
}

// A large file grows by much at once: so large a piece of memory is moved without a copy.
fn make_room(stored: &mut Vec<u8>, end: usize) -> Result<(), AllocError>
    ensures unchanged { stored.new.items ≡ stored.old.items }
{
    if stored.len() <= LARGE_FILE || end <= stored.capacity() {
        return Ok(());
    }
    stored.reserve(LARGE_GROWTH)
}

#[inline(always)]
fn put(bytes: &mut [u8], at: usize, given: &[u8])
    requires { at + length given.now ≤ length bytes.old }
    ensures unchanged { length bytes.new ≡ length bytes.old }
    ensures ok { bytes.new
        ≡ take at bytes.old ++ given.now ++ drop (at + length given.now) bytes.old }
{
    bytes[at..at + given.len()].copy_from_slice(given);
}
