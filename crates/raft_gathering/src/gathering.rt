//! Reads all whole records of files into tables, and notes what could not be read.

use crate::report::{FileRead, Missing, Report, UnreadPlace, entries_of};
use crate::sources::{Part, Source, note_need, read};
use crate::tables::Tables;
use anyhow::Result;
use raft_command_line::Options;
use raft_console::{Progress, or_failure};
use raft_files::LogFileFormat;
use raft_records::{Fault, FileId, LogQueue, Version};
use raft_whole_records::{
    FileSigns, Found, Gap, Marks, RecordScanner, Unread, WholeRecord, mark_of,
};
use std::alloc::Global;

/// Records that are read into tables.
pub struct Gathering {
    alloc: Global,
    /// Whether records are taken that an earlier use of a file left.
    stale: bool,
    marks: Marks,
    progress: Progress,
    pub tables: Tables,
    pub report: Report,
}

// One call in a proof that drops it; derived, it would be one of each field (docs/DECISIONS.md).
impl Drop for Gathering {
    fn drop(self) {
        let Gathering {
            alloc: _,
            stale: _,
            marks: _marks,
            progress: _progress,
            tables: _tables,
            report: _report,
        } = self;
    }
}

/// The bytes of a file that is read.
#[derive(Clone, Copy)]
struct Bytes<'a> {
    source: &'a Source,
    bytes: &'a [u8],
    signs: FileSigns,
    /// The header; none if it can't be read.
    format: Option<LogFileFormat>,
    /// Whether it is the last file of its queue.
    is_last: bool,
}

/// Reads these files, which are in their order. One file is in memory at a time, and what the files
/// hold stays there. If that is much, a note says how much before.
pub fn gather(
    rt: &HostRuntime,
    sources: &[Source],
    stale: bool,
    options: &Options<'_>,
) -> Result<Gathering> {
    let alloc = rt.alloc();
    note_need(rt, sources, options)?;
    let mut gathering = Gathering {
        alloc,
        stale,
        marks: Marks::new(alloc),
        progress: Progress::of(*rt, options)?,
        tables: Tables::new(alloc),
        report: Report::new(alloc),
    };
    gathering.find_marks(rt, sources)?;
    if stale {
        gathering.add_stale(rt, sources)?;
    }
    let mut before: Option<FileId> = None;
    for (place, source) in sources.iter().enumerate() {
        gathering
            .progress
            .at("files read", place as u64, sources.len() as u64)?;
        if before != Some(source.id) {
            gathering.note_missing(before, source.id)?;
            before = Some(source.id);
        }
        let behind = sources.get(place.saturating_add(1)..).unwrap_or(&[]);
        match source.part {
            // They are read with the log file, if it is there.
            Part::Cut(_) if has_log(sources, source.id) => {}
            Part::Log => gathering.read_log(rt, source, behind)?,
            _ => gathering.read_whole(rt, source, None)?,
        }
    }
    Ok(gathering)
}

fn has_log(sources: &[Source], id: FileId) -> bool {
    for source in sources {
        if source.id == id && source.part == Part::Log {
            return true;
        }
    }
    false
}

// Whether no other log file of its queue follows.
fn is_last_log(source: &Source, behind: &[Source]) -> bool {
    for next in behind {
        if next.id.queue == source.id.queue && next.part == Part::Log {
            return false;
        }
    }
    source.part == Part::Log
}

// Whether the engine itself leaves so many zeros at a place: room made ahead, or padding.
fn is_room(reading: Bytes<'_>, place: usize, len: usize) -> bool {
    let is_end = place.saturating_add(len) == reading.bytes.len();
    let is_open = reading.is_last || reading.source.part != Part::Log;
    let is_padding = match reading.format {
        Some(format) => (len as u64) < format.alignment,
        None => false,
    };
    is_end && is_open || is_padding
}

// A file's header, if it has one that can be read.
fn format_of(bytes: &[u8], part: Part) -> Option<LogFileFormat> {
    if let Part::Cut(from) = part {
        if from > 0 {
            return None;
        }
    }
    let mut front = bytes;
    match LogFileFormat::decode(&mut front) {
        Ok(format) => Some(format),
        Err(_) => None,
    }
}

// The version that a header has.
fn version_in(format: Option<LogFileFormat>) -> Option<Version> {
    match format {
        Some(format) => Some(format.version),
        None => None,
    }
}

// The version that a file's header has.
fn version_of(bytes: &[u8], part: Part) -> Option<Version> {
    version_in(format_of(bytes, part))
}

// Where the records of a source begin.
fn begin_of(bytes: &[u8], part: Part) -> usize {
    match version_of(bytes, part) {
        Some(version) => LogFileFormat::encoded_len(version),
        None => 0,
    }
}

// The record that was found, if it is one.
fn record_in(found: Found) -> Option<WholeRecord> {
    match found {
        Found::Record(record) => Some(record),
        Found::Unread(_gap) => None,
        Found::Zeros(_len) => None,
        Found::Stale(_len) => None,
        Found::Searching => None,
    }
}

impl Gathering {
    fn note_missing(&mut self, before: Option<FileId>, next: FileId) -> Result<()> {
        let Some(before) = before else {
            return Ok(());
        };
        let number = before.seq.saturating_add(1);
        if before.queue == next.queue && number < next.seq {
            self.tables.lose();
            self.report.missing.push(Missing {
                queue: next.queue,
                number,
                before: next.seq,
            })?;
        }
        Ok(())
    }

    // Which batches of the Rewrite queue belong together, and whether all of them are there.
    fn find_marks(&mut self, rt: &HostRuntime, sources: &[Source]) -> Result<()> {
        for source in sources {
            if source.id.queue == LogQueue::Rewrite {
                let bytes = read(rt, source)?;
                or_failure(self.add_marks(source, &bytes), source.name.as_str())?;
            }
        }
        Ok(())
    }

    fn add_marks(&mut self, source: &Source, bytes: &[u8]) -> Result<(), Fault> {
        let signs = FileSigns {
            id: source.id,
            version: version_of(bytes, source.part),
            stale: false,
        };
        let begin = begin_of(bytes, source.part);
        let mut scanner = RecordScanner::new(self.alloc, bytes, signs, begin);
        for _ in 0..bytes.len() {
            let Some(found) = scanner.next()? else {
                break;
            };
            if let Some(record) = record_in(found) {
                if let Some((group, mark)) = mark_of(&record.items) {
                    self.marks.add(group, mark)?;
                }
            }
        }
        Ok(())
    }

    // Records that earlier files left: those of one file together, the earliest first.
    fn add_stale(&mut self, rt: &HostRuntime, sources: &[Source]) -> Result<()> {
        let mut found = Vec::new(self.alloc);
        for source in sources {
            if source.id.queue == LogQueue::Append {
                let bytes = read(rt, source)?;
                or_failure(
                    self.find_stale(source, &bytes, &mut found),
                    source.name.as_str(),
                )?;
            }
        }
        found.sort_by_key(|record| (record.0, record.1))?;
        for (_, _, record) in &found {
            or_failure(self.tables.apply(record, false), "a record cannot be kept")?;
        }
        Ok(())
    }

    fn find_stale(
        &self,
        source: &Source,
        bytes: &[u8],
        found: &mut Vec<(u64, u64, WholeRecord)>,
    ) -> Result<(), Fault> {
        let signs = FileSigns {
            id: source.id,
            version: version_of(bytes, source.part),
            stale: true,
        };
        let begin = begin_of(bytes, source.part);
        let mut scanner = RecordScanner::new(self.alloc, bytes, signs, begin);
        for _ in 0..bytes.len() {
            let place = scanner.place() as u64;
            let Some(next) = scanner.next()? else {
                break;
            };
            if let Some(record) = record_in(next) {
                if record.seq != source.id.seq {
                    found.push((record.seq, place, record))?;
                }
            }
        }
        Ok(())
    }

    // Reads a log file, and what was cut off it where it stood: what follows there was written
    // later.
    fn read_log(&mut self, rt: &HostRuntime, source: &Source, behind: &[Source]) -> Result<()> {
        let bytes = read(rt, source)?;
        let reading = self.reading_of(source, &bytes, None, is_last_log(source, behind));
        let begin = begin_of(&bytes, source.part);
        let mut scanner = RecordScanner::new(self.alloc, &bytes, reading.signs, begin);
        let mut file = FileRead::new(source.name.clone()?);
        if bytes.is_empty() {
            or_failure(self.add_zeros(reading, 0, 0), source.name.as_str())?;
        }
        for cut in behind {
            let Part::Cut(place) = cut.part else {
                break;
            };
            if cut.id != source.id {
                break;
            }
            let end = usize::try_from(place).unwrap_or(usize::MAX);
            self.read_records(reading, &mut scanner, end, &mut file)?;
            self.read_whole(rt, cut, reading.format)?;
        }
        self.read_records(reading, &mut scanner, usize::MAX, &mut file)?;
        Ok(self.report.files.push(file)?)
    }

    // Reads a file. If it has no header, that of another file counts.
    fn read_whole(
        &mut self,
        rt: &HostRuntime,
        source: &Source,
        other: Option<LogFileFormat>,
    ) -> Result<()> {
        let bytes = read(rt, source)?;
        let reading = self.reading_of(source, &bytes, other, false);
        let begin = begin_of(&bytes, source.part);
        let mut scanner = RecordScanner::new(self.alloc, &bytes, reading.signs, begin);
        let mut file = FileRead::new(source.name.clone()?);
        self.read_records(reading, &mut scanner, usize::MAX, &mut file)?;
        Ok(self.report.files.push(file)?)
    }

    fn reading_of<'a>(
        &self,
        source: &'a Source,
        bytes: &'a [u8],
        other: Option<LogFileFormat>,
        is_last: bool,
    ) -> Bytes<'a> {
        let format = format_of(bytes, source.part).or(other);
        Bytes {
            source,
            bytes,
            signs: FileSigns {
                id: source.id,
                version: version_in(format),
                stale: self.stale,
            },
            format,
            is_last,
        }
    }

    // Reads records up to a place.
    fn read_records(
        &mut self,
        reading: Bytes<'_>,
        scanner: &mut RecordScanner<'_>,
        end: usize,
        file: &mut FileRead,
    ) -> Result<()> {
        let name = reading.source.name.as_str();
        let whole = reading.bytes.len();
        for _ in 0..=whole {
            let place = scanner.place();
            if place >= end {
                break;
            }
            let searched = scanner.searched() as u64;
            self.progress.within(name, searched, whole as u64)?;
            let found = or_failure(scanner.next(), name)?;
            let Some(found) = found else {
                break;
            };
            or_failure(self.add_found(reading, place, found, file), name)?;
        }
        Ok(())
    }

    fn add_found(
        &mut self,
        reading: Bytes<'_>,
        place: usize,
        found: Found,
        file: &mut FileRead,
    ) -> Result<(), Fault> {
        match found {
            Found::Record(record) => self.add_record(reading, &record, file),
            Found::Unread(gap) => self.add_gap(reading, place, &gap),
            Found::Stale(len) => {
                file.stale = file.stale.saturating_add(len as u64);
                Ok(())
            }
            Found::Zeros(len) => self.add_zeros(reading, place, len),
            Found::Searching => Ok(()),
        }
    }

    // Zeros are a place that can't be read, except those that the engine itself leaves.
    fn add_zeros(&mut self, reading: Bytes<'_>, place: usize, len: usize) -> Result<(), Fault> {
        if is_room(reading, place, len) {
            return Ok(());
        }
        let gap = Gap {
            len,
            why: Unread::Header,
            items: Vec::new(self.alloc),
            is_one: false,
        };
        self.add_gap(reading, place, &gap)
    }

    fn add_record(
        &mut self,
        reading: Bytes<'_>,
        record: &WholeRecord,
        file: &mut FileRead,
    ) -> Result<(), Fault> {
        let id = reading.source.id;
        if record.seq != id.seq {
            // It was added before.
            return Ok(());
        }
        if let (LogQueue::Rewrite, Some((group, _))) = (id.queue, mark_of(&record.items)) {
            if !self.marks.counts(group) {
                file.incomplete = file.incomplete.saturating_add(1);
                return Ok(());
            }
        }
        file.records = file.records.saturating_add(1);
        self.tables.apply(record, id.queue == LogQueue::Append)
    }

    fn add_gap(&mut self, reading: Bytes<'_>, place: usize, gap: &Gap) -> Result<(), Fault> {
        if !gap.is_one {
            self.tables.lose();
        }
        self.tables.apply_lost(&gap.items)?;
        let is_end = place.saturating_add(gap.len) == reading.bytes.len();
        self.report.unread.push(UnreadPlace {
            name: reading.source.name.clone()?,
            offset: place as u64,
            len: gap.len as u64,
            why: gap.why,
            entries: entries_of(self.alloc, &gap.items)?,
            is_tail: is_end && reading.is_last,
        })?;
        Ok(())
    }
}
