//! The bytes that a file had before its changes since the last sync.
ghost use Rattle.std.specs.Prelude.{◌≡◌, ◌<◌, ◌+◌, ◌-◌, ℕ, length, slice_index, unwrap_or, if◌then◌else◌, None, Some, OnOk, OnErr};
ghost use Rattle.std.specs.Option.{option_or};
ghost use Rattle.raft_env.specs.Outcomes.{is_within};
ghost use Rattle.raft_memory.specs.MemoryFile.{before_image_at};

use crate::file_bytes::bytes_from;
use std::alloc::{AllocError, Global};
use std::marker::Model;
use std::mem;

/// How much room for bytes, and for places, is kept.
const KEPT_BYTES: usize = 64 << 10;

const KEPT_PLACES: usize = 1 << 10;

/// How much room for bytes one file leaves to the next.
const LEFT_BYTES: usize = 16 << 20;

/// Bytes by their places in a file. A place that was saved twice has the byte of the first time.
#[derive(Drop)]
pub(crate) struct BeforeImages {
    /// First places and sizes, the oldest first.
    places: Vec<(usize, usize)>,
    /// The saved bytes, one after the other.
    bytes: Vec<u8>,
}

impl Model for BeforeImages {
    ghost use Rattle.std.specs.Prelude.{◌≡◌, length};
    ghost use Rattle.raft_memory.specs.MemoryFile.{BeforeImages, places_len};

    ghost Value = { BeforeImages };

    ghost view = { λ s. (s.places.items, s.bytes.items) };

    ghost invariant = { λ s. places_len s.places.items ≡ length s.bytes.items };
}

impl BeforeImages {
    pub(crate) fn new(alloc: Global) -> BeforeImages
        ensures { (i : ℕ) → before_image_at result i ≡ None }
    {
        BeforeImages {
            places: Vec::new(alloc),
            bytes: Vec::new(alloc),
        }
    }

    /// Saves the bytes between two places; past the end they are zeros. The first bytes go into the
    /// room that another file left, if that is larger.
    #[inline(always)]
    pub(crate) fn save(
        &mut self,
        bytes: &[u8],
        from: usize,
        end: usize,
        room: &mut Vec<u8>,
    ) -> Result<(), AllocError>
        ensures ok { OnOk result ((i : ℕ) → before_image_at self.new i
            ≡ option_or (before_image_at self.old i)
            (if is_within from (end - from) i then Some (slice_index bytes.now i) else None)) }
        ensures err { OnErr result (self.new ≡ self.old) }
    {
        if end <= from {
            return Ok(());
        }
        self.places.reserve(1)?;
        take_room(&mut self.bytes, room);
        push_part(&mut self.bytes, bytes, from, end - from)?;
        let Ok(()) = self.places.push((from, end - from)) else {
            unreachable!()
        };
        Ok(())
    }

    /// Forgets everything. A log has many files, so a large room is left to the next one.
    pub(crate) fn clear(&mut self, room: &mut Vec<u8>)
        ensures { (i : ℕ) → before_image_at self.new i ≡ None }
    {
        self.places.clear();
        self.places.shrink_to(KEPT_PLACES);
        leave_room(&mut self.bytes, room);
        self.bytes.clear();
        self.bytes.shrink_to(KEPT_BYTES);
    }

    /// Puts the saved bytes back to their places.
    pub(crate) fn restore(&self, bytes: &mut [u8])
        ensures unchanged { length bytes.new ≡ length bytes.old }
        ensures ok { (i : ℕ) → i < length bytes.old → slice_index bytes.new i
            ≡ unwrap_or (before_image_at self.now i) (slice_index bytes.old i) }
    {
        let mut end = self.bytes.len();
        let mut left = self.places.len();
        while left > 0 {
            left -= 1;
            let (from, size) = self.places[left];
            put_part(bytes, from, &self.bytes[end - size..end]);
            end -= size;
        }
    }
}

// Where nothing is saved yet the greater room is taken, which was touched before.
#[inline(always)]
fn take_room(bytes: &mut Vec<u8>, room: &mut Vec<u8>)
    ensures { bytes.new.items ≡ bytes.old.items }
{
    if bytes.is_empty() && bytes.capacity() < room.capacity() {
        room.clear();
        mem::swap(bytes, room);
    }
}

// The greater room is left. What stood in either is lost.
fn leave_room(bytes: &mut Vec<u8>, room: &mut Vec<u8>) {
    if room.capacity().max(KEPT_BYTES) < bytes.capacity() {
        mem::swap(bytes, room);
        room.clear();
        room.shrink_to(LEFT_BYTES);
    }
}

// Appends so many bytes from that place on, with zeros for those after the end.
fn push_part(saved: &mut Vec<u8>, bytes: &[u8], from: usize, size: usize) -> Result<(), AllocError>
    ensures ok { OnOk result (length saved.new.items ≡ length saved.old.items + size) }
    ensures unchanged { OnOk result ((i : ℕ) → i < length saved.old.items
        → slice_index saved.new.items i ≡ slice_index saved.old.items i) }
    ensures contents { OnOk result ((i : ℕ) → i < size
        → slice_index saved.new.items (length saved.old.items + i)
        ≡ slice_index bytes.now (from + i)) }
    ensures err { OnErr result (saved.new.items ≡ saved.old.items) }
{
    let rest = bytes_from(bytes, from);
    if rest.len() < size {
        return push_padded(saved, bytes, from, size);
    }
    saved.extend_from_slice(&rest[..size])?;
    Ok(())
}

// As `push_part`, of bytes that may end before that.
fn push_padded(
    saved: &mut Vec<u8>,
    bytes: &[u8],
    from: usize,
    size: usize,
) -> Result<(), AllocError>
    ensures ok { OnOk result (length saved.new.items ≡ length saved.old.items + size) }
    ensures unchanged { OnOk result ((i : ℕ) → i < length saved.old.items
        → slice_index saved.new.items i ≡ slice_index saved.old.items i) }
    ensures contents { OnOk result ((i : ℕ) → i < size
        → slice_index saved.new.items (length saved.old.items + i)
        ≡ slice_index bytes.now (from + i)) }
    ensures err { OnErr result (saved.new.items ≡ saved.old.items) }
{
    let start = saved.len();
    let Some(end) = start.checked_add(size) else {
        return Err(AllocError);
    };
    saved.resize(end, 0)?;
    if from < bytes.len() {
        put_part(saved, start, &bytes[from..]);
    }
    Ok(())
}

// Writes over what stands there; what goes past the end is left out.
fn put_part(bytes: &mut [u8], from: usize, given: &[u8])
    ensures unchanged { length bytes.new ≡ length bytes.old }
    ensures ok { (i : ℕ) → i < length bytes.old → slice_index bytes.new i
        ≡ (if is_within from (length given.now) i then slice_index given.now (i - from)
        else slice_index bytes.old i) }
{
    if from < bytes.len() {
        let count = given.len().min(bytes.len() - from);
        bytes[from..from + count].copy_from_slice(&given[..count]);
    }
}
