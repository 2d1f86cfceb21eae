//! A log file that is read part by part, each after the file's header.
ghost use Rattle.std.specs.Prelude.{◌≡◌, ◌++◌, ◌+◌, ◌-◌, ◌^◌, ℕ, List, [], IfErr, IfOk, OnOk, drop, length, min, take};
ghost use Rattle.raft_memory.specs.Memory.{memory_directory};
ghost use Rattle.raft_files.specs.Header.{header_of};
ghost use Rattle.raft_files.specs.Writer.{bytes_at};
ghost use Rattle.raft_dump.specs.Parts.{AreOf, GoesOn, IsReadRefusal, begun_with};

use crate::part_image::image_of_part;
use crate::part_source::{PartSource, read_whole_part};
use crate::part_wanted::{PART_LEN, wanted_behind};
use raft_files::LogFileFormat;
use raft_memory::MemoryFileSystem;
use raft_records::Fault;
use std::alloc::Global;
use std::marker::Model;

/// A log file with one part at a time in memory. If its header cannot be read, only that is read;
/// if its records are aligned, the whole file is one part.
#[derive(Drop)]
pub struct LogFileParts {
    /// The header that precedes each part.
    header: Vec<u8>,
    size: usize,
    /// The place at which the part begins, and how many bytes it is to have.
    at: usize,
    len: usize,
    part: Vec<u8>,
}

impl Model for LogFileParts {
    ghost use Rattle.std.specs.Prelude.{◌<◌, ◌≤◌, ◌+◌, ◌^◌, length};
    ghost use Rattle.raft_dump.specs.Parts.{PartsState};

    ghost Value = { PartsState };

    ghost view = { λ p. record {
      header = p.header.items;
      size = p.size;
      at = p.at;
      len = p.len;
      part = p.part.items;
    } };

    ghost invariant = { λ p. (p.at + p.len < 2 ^ 64) × (length p.part.items ≤ p.len) };
}

impl LogFileParts {
    /// A file of this size.
    pub fn open<S: PartSource>(
        alloc: Global,
        size: usize,
        source: &mut S,
    ) -> Result<LogFileParts, Fault>
        ensures value { IfOk result (λ p. (bytes : List ℕ) → length bytes ≡ size
            → AreOf bytes (S.given source.new) → p ≡ begun_with bytes (header_of bytes)) }
        ensures cause { IfErr result IsReadRefusal }
    {
        let longest = LogFileFormat::max_encoded_len();
        let front = source.read_part(0, longest)?;
        let Ok(format) = LogFileFormat::decode(&mut front.bytes.as_slice()) else {
            return Ok(LogFileParts::whole(alloc, longest.min(size)));
        };
        if format.alignment != 0 {
            return Ok(LogFileParts::whole(alloc, size));
        }
        let end = LogFileFormat::encoded_len(format.version);
        let mut header = Vec::new(alloc);
        header.extend_from_slice(&front.bytes[..end])?;
        Ok(LogFileParts {
            header,
            size,
            at: end,
            len: PART_LEN.min(size.saturating_sub(end)),
            part: Vec::new(alloc),
        })
    }

    // The first so many bytes in one part.
    fn whole(alloc: Global, size: usize) -> LogFileParts
        ensures value { result ≡ record { header = []; size = size; at = 0; len = size; part = [] } }
    {
        LogFileParts {
            header: Vec::new(alloc),
            size,
            at: 0,
            len: size,
            part: Vec::new(alloc),
        }
    }

    /// The next part after the header, as a file of this path in memory.
    pub fn next_image<S: PartSource>(
        &mut self,
        alloc: Global,
        path: &str,
        source: &mut S,
    ) -> Result<MemoryFileSystem, Fault>
        ensures value { IfOk result (λ m. bytes_at path.now (memory_directory m)
            ≡ self.old.header ++ self.new.part) }
        ensures part { OnOk result ((bytes : List ℕ) → AreOf bytes (S.given source.new)
            → self.new.part ≡ take self.old.len (drop self.old.at bytes)) }
        ensures stands { self.new ≡ record self.old { part = self.new.part } }
        ensures cause { IfErr result IsReadRefusal }
    {
        self.part = read_whole_part(alloc, path, source, self.at, self.len)?.bytes;
        image_of_part(alloc, path, &self.header, &self.part)
    }

    /// The place in the file of a place in the image.
    pub fn place_of(&self, offset: usize) -> usize
        ensures value { result ≡ min (self.now.at + (offset - length self.now.header))
            (2 ^ 64 - 1) }
    {
        self.at
            .saturating_add(offset.saturating_sub(self.header.len()))
    }

    /// Whether a reading that ends at this place in the image continues in a next part; otherwise
    /// it ends there in the file too.
    pub fn go_on(&mut self, end: usize) -> bool
        ensures value { GoesOn end self.old result self.new }
    {
        let read = end.saturating_sub(self.header.len()).min(self.part.len());
        let at = self.at + read;
        let left = self.size.saturating_sub(at);
        match wanted_behind(&self.part[read..], left) {
            Some(wanted) => {
                self.at = at;
                self.len = wanted.max(PART_LEN).min(left);
                self.part.clear();
                true
            }
            None => false,
        }
    }
}
