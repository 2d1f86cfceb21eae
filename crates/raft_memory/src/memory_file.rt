//! A file in memory: its bytes now, the bytes that its changes since the last sync overwrote, and
//! the ranges that they touched.
ghost use Rattle.std.specs.Prelude.{◌≡◌, ◌≤◌, ◌<◌, ◌+◌, ◌-◌, ◌==◌, ◌&&◌, ◌^◌, ◌||◌, ℕ, [], length, take, if◌then◌else◌, true, OnOk, OnErr, IfOk, IfErr, MatchBool, vec_len, vec_capacity};
ghost use Rattle.raft_env.specs.Outcomes.{File, MayLeave, synced_file, file_after_write, file_after_resize, synced_of, renamed_of, longest_of, overlay, pad_to, is_within};
ghost use Rattle.raft_memory.specs.Choice.{torn_bytes};
ghost use Rattle.raft_memory.specs.MemoryFile.{IsFileOf, IsSaved, is_covered, SameOutside};

use crate::before_images::BeforeImages;
use crate::crash::Choice;
use crate::file_bytes::FileBytes;
use crate::ghost_file::{GhostFile, Step};
use raft_base::Fault;
use std::alloc::{AllocError, Global};
use std::marker::Model;

#[derive(Drop)]
pub(crate) struct MemoryFile {
    bytes: FileBytes,
    synced_len: usize,
    /// How many bytes of the last sync were stored. Zeros followed, which are not saved.
    synced_stored: usize,
    saved: BeforeImages,
    ranges: Vec<(usize, usize)>,
    least: usize,
    greatest: usize,
    ghost_file: GhostFile,
}

impl Model for MemoryFile {
    ghost Value = { File };

    ghost view = { λ s. s.ghost_file.file };

    ghost invariant = { λ s. IsFileOf s.bytes s.ghost_file.file.synced s.ranges.items s.least
        s.greatest s.ghost_file.file
        × IsSaved s.bytes s.saved s.synced_stored s.synced_len s.ghost_file.file.synced };
}

impl MemoryFile {
    pub(crate) fn new(alloc: Global) -> MemoryFile
        ensures { result ≡ synced_file [] }
    {
        MemoryFile {
            bytes: FileBytes::new(alloc),
            synced_len: 0,
            synced_stored: 0,
            saved: BeforeImages::new(alloc),
            ranges: Vec::new(alloc),
            least: 0,
            greatest: 0,
            ghost_file: GhostFile::after(&Step::Start(&[])),
        }
    }

    pub(crate) fn bytes(&self) -> &FileBytes
        ensures value { result.now ≡ self.now.now }
    {
        let _ghost_file = &self.ghost_file;
        &self.bytes
    }

    /// A write of `given`, of which `kept` reached the file. The bytes that one file saves go into
    /// the room that another left.
    #[inline(always)]
    pub(crate) fn write(
        &mut self,
        at: usize,
        given: &[u8],
        kept: &[u8],
        is_done: bool,
        room: &mut Vec<u8>,
    ) -> Result<(), AllocError>
        requires fits { at + length given.now < 2 ^ 63 }
        requires part { length kept.now ≤ length given.now }
        ensures ok { OnOk result (self.new
            ≡ file_after_write at given.now is_done (overlay self.old.now at kept.now) self.old) }
        ensures err { OnErr result (self.new ≡ self.old) }
    {
        self.ranges.reserve(1)?;
        let end = self.synced_stored.min(at + given.len());
        self.saved.save(self.bytes.stored(), at, end, room)?;
        self.bytes.overlay(at, kept)?;
        add_range(&mut self.ranges, at, given.len());
        self.least = self.least.min(self.bytes.len());
        let longest = longest_of(is_done, at, given.len(), self.bytes.len());
        self.greatest = self.greatest.max(longest);
        self.ghost_file = GhostFile::after(&Step::Write(
            &self.ghost_file,
            at,
            given,
            is_done,
            &self.bytes,
        ));
        Ok(())
    }
}

impl MemoryFile {
    pub(crate) fn cut(&mut self, size: usize, room: &mut Vec<u8>) -> Result<(), AllocError>
        ensures ok { OnOk result (self.new ≡ file_after_resize (take size self.old.now) self.old) }
        ensures err { OnErr result (self.new ≡ self.old) }
    {
        self.ranges.reserve(1)?;
        let from = size.min(self.bytes.len());
        self.saved
            .save(self.bytes.stored(), from, self.synced_stored, room)?;
        add_range(&mut self.ranges, from, self.bytes.len() - from);
        self.bytes.truncate(from);
        self.least = self.least.min(from);
        self.greatest = self.greatest.max(from);
        self.ghost_file = GhostFile::after(&Step::Resize(&self.ghost_file, &self.bytes));
        Ok(())
    }

    pub(crate) fn lengthen(&mut self, size: usize) -> Result<(), AllocError>
        requires { size < 2 ^ 63 }
        ensures ok { OnOk result (self.new
            ≡ file_after_resize (pad_to self.old.now size) self.old) }
        ensures err { OnErr result (self.new ≡ self.old) }
    {
        self.ranges.reserve(1)?;
        let from = self.bytes.len();
        let len = size.max(from);
        self.bytes.lengthen(len);
        add_range(&mut self.ranges, from, len - from);
        self.least = self.least.min(len);
        self.greatest = self.greatest.max(len);
        self.ghost_file = GhostFile::after(&Step::Resize(&self.ghost_file, &self.bytes));
        Ok(())
    }

    /// Takes no time for the bytes.
    pub(crate) fn sync(&mut self, room: &mut Vec<u8>)
        ensures { self.new ≡ synced_of self.old }
    {
        self.saved.clear(room);
        self.synced_len = self.bytes.len();
        self.synced_stored = self.bytes.stored().len();
        self.ranges.clear();
        self.least = self.bytes.len();
        self.greatest = self.bytes.len();
        self.ghost_file = GhostFile::after(&Step::Sync(&self.ghost_file));
    }

    /// Touches no byte.
    pub(crate) fn rename(&mut self)
        ensures { self.new ≡ renamed_of self.old }
    {
        self.ghost_file = GhostFile::after(&Step::Rename(&self.ghost_file));
    }
}

impl MemoryFile {
    ghost use Rattle.raft_memory.specs.Choice.{bytes_by_choice, RefusesUnless};

    /// A file of these bytes, which a crash leaves as they are.
    pub(crate) fn restarted(alloc: Global, bytes: Vec<u8>) -> MemoryFile
        ensures { result ≡ synced_file bytes.items }
    {
        let ghost_file = GhostFile::after(&Step::Start(&bytes));
        MemoryFile {
            synced_len: bytes.len(),
            synced_stored: bytes.len(),
            saved: BeforeImages::new(alloc),
            ranges: Vec::new(alloc),
            least: bytes.len(),
            greatest: bytes.len(),
            ghost_file,
            bytes: FileBytes::of(bytes),
        }
    }

    // The bytes of the last sync.
    fn synced(&self, alloc: Global) -> Result<Vec<u8>, AllocError>
        ensures ok { IfOk result (λ synced. synced.items ≡ self.now.synced) }
    {
        let mut synced = self.bytes.stored().to_vec(alloc)?;
        synced.resize(self.synced_stored, 0)?;
        self.saved.restore(&mut synced);
        synced.resize(self.synced_len, 0)?;
        Ok(synced)
    }

    /// What the choice leaves of the file.
    pub(crate) fn left(&self, alloc: Global, choice: &Choice) -> Result<Vec<u8>, Fault>
        ensures ok { IfOk result (λ left. left.items ≡ bytes_by_choice choice.now self.now) }
        ensures crash { OnOk result (MayLeave self.now (bytes_by_choice choice.now self.now)) }
        ensures cause { IfErr result (RefusesUnless
            (MayLeave self.now (bytes_by_choice choice.now self.now))) }
    {
        match choice {
            Choice::All => Ok(self.bytes.to_vec(alloc)?),
            Choice::Synced => Ok(self.synced(alloc)?),
            Choice::Torn(kept, fill) => {
                let now = self.bytes.to_vec(alloc)?;
                Ok(torn_bytes(alloc, &now, &self.ranges, *kept, *fill)?)
            }
            Choice::Bytes(bytes) => {
                let synced = self.synced(alloc)?;
                if bytes.len() < self.least
                    || bytes.len() > self.greatest
                    || !same_outside(bytes, &synced, &self.ranges)
                {
                    return Err(Fault::InvalidArgument("no crash leaves these bytes"));
                }
                Ok(bytes.to_vec(alloc)?)
            }
        }
    }
}

// Whether the bytes are those of the last sync but in the ranges.
fn same_outside(bytes: &[u8], synced: &[u8], ranges: &[(usize, usize)]) -> bool
    ensures { MatchBool result (SameOutside ranges.now synced.now bytes.now)
        (SameOutside ranges.now synced.now bytes.now → ⊥) }
{
    for (i, byte) in bytes.iter().enumerate() {
        if i < synced.len() && *byte != synced[i] && !covers(ranges, i) {
            return false;
        }
    }
    true
}

fn covers(ranges: &[(usize, usize)], i: usize) -> bool
    ensures { result ≡ is_covered ranges.now i }
{
    ranges.iter().any(|r| r.0 <= i && i - r.0 < r.1)
}

// The bytes now, of which only the first few that the ranges cover are kept.
fn torn_bytes(
    alloc: Global,
    now: &[u8],
    ranges: &[(usize, usize)],
    kept: usize,
    fill: u8,
) -> Result<Vec<u8>, AllocError>
    ensures { IfOk result (λ bytes. bytes.items
        ≡ torn_bytes (is_covered ranges.now) kept fill now.now) }
{
    let mut bytes = Vec::new(alloc);
    let mut left = kept;
    for (i, byte) in now.iter().enumerate() {
        let is_covered = covers(ranges, i);
        bytes.push(byte_of(is_covered, left, *byte, fill))?;
        left = left_after(is_covered, left);
    }
    Ok(bytes)
}

fn byte_of(is_covered: bool, left: usize, byte: u8, fill: u8) -> u8
    ensures { result ≡ (if is_covered && left == 0 then fill else byte) }
{
    if is_covered && left == 0 { fill } else { byte }
}

fn left_after(is_covered: bool, left: usize) -> usize
    ensures { result ≡ left - (if is_covered then 1 else 0) }
{
    if is_covered {
        left.saturating_sub(1)
    } else {
        left
    }
}

// The greatest length that the file may have had inside a write that left it with this one.
fn longest_of(is_done: bool, at: usize, size: usize, left: usize) -> usize
    requires { at + size < 2 ^ 63 }
    ensures { result ≡ longest_of is_done at size left }
{
    if is_done || size == 0 {
        left
    } else {
        left.max(at + size)
    }
}

// A range that begins where the last one ends is joined to it, so appends stay one range.
#[inline(always)]
fn add_range(ranges: &mut Vec<(usize, usize)>, from: usize, size: usize)
    requires fits { from + size < 2 ^ 64 }
    requires room { vec_len ranges.old < vec_capacity ranges.old }
    ensures { (i : ℕ) → is_covered ranges.new.items i
        ≡ (is_covered ranges.old.items i || is_within from size i) }
{
    let mut start = from;
    if let Some(last) = ranges.last() {
        if last.0 < from && from - last.0 == last.1 {
            start = last.0;
        }
    }
    if start < from {
        ranges.pop();
    }
    let Ok(()) = ranges.push((start, from - start + size)) else {
        unreachable!()
    };
}
