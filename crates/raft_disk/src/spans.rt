//! A note of the numbers that a log's files have had. By it a missing file is known.

use crate::names::is_log_name;
use raft_base::LogQueue;
use raft_codec::checksum::{CHECKSUM_LEN, checked_body, crc32};
use raft_codec::number::{push_u32, push_u64, take_u64};
use raft_env::parent;
use std::alloc::{AllocError, Global};
use std::io;

/// The name of the note's file in the log's folder. No log file has it.
pub(crate) const SPANS: &str = "SPANS";

/// The file has two slots of this length, each with a note or without.
pub(crate) const SLOT_LEN: usize = 512;

const MAGIC: &[u8] = b"RAFT-LOG-SPANS-1";

const BODY_LEN: usize = SLOT_LEN - CHECKSUM_LEN;

/// The text, the count, the four numbers, the flags and the length of the second folder's path.
const HEAD_LEN: usize = 72;

/// How long a second folder's path may be in a note.
pub(crate) const MAX_SPILL_LEN: usize = BODY_LEN - HEAD_LEN;

const NUMBER_LEN: usize = 16;

/// Which numbers the files of a queue have had.
#[derive(Clone, Copy, PartialEq)]
pub struct Span {
    /// No file of a smaller number is needed.
    pub first: u64,
    /// A file of this number existed; 0 if none did.
    pub last: u64,
    /// A purge was deleting files, the least first, so that the first ones may be missing.
    pub is_dropping: bool,
    /// A needed file was missing at an opening. After it a new file got its number, or a purge passed it.
    pub has_lost: bool,
}

/// The spans of both queues.
#[derive(Drop)]
pub struct Spans {
    pub append: Span,
    pub rewrite: Span,
    /// The second folder's path from the log's; empty if there is none.
    pub spill: String,
}

/// Spans as they were noted.
#[derive(Drop)]
pub struct SpanNote {
    /// How many notes there were with this one. While a process writes to the folder, names belong
    /// to a note if the note had the same count before and after they were read.
    pub count: u64,
    pub spans: Spans,
}

/// What a note reports of a queue's files.
#[derive(Drop)]
pub struct SpanReport {
    /// The numbers of files that are needed and do not exist, as ranges: the least and the greatest.
    pub missing: Vec<(u64, u64)>,
    /// The numbers of files that are greater than the last one and do not follow on it.
    pub strays: Vec<u64>,
    /// The numbers of files that a purge or a close left, or that an opening passed over. The log
    /// that is read doesn't need them.
    pub left_over: Vec<u64>,
    /// Files were missing at an earlier opening, and can't be put back. It holds while the note does.
    pub has_lost: bool,
    /// Another program wrote to the queue after the note. Then the lists are empty.
    pub is_stale: bool,
}

/// What a note reports of both queues' files.
#[derive(Drop)]
pub struct SpanReports {
    pub append: SpanReport,
    pub rewrite: SpanReport,
}

impl SpanReports {
    /// Whether a file is missing or was, or one does not belong to its queue.
    pub fn has_losses(&self) -> bool {
        self.append.has_losses() || self.rewrite.has_losses()
    }

    /// A copy of both reports.
    pub fn copied(&self, alloc: Global) -> Result<SpanReports, AllocError> {
        Ok(SpanReports {
            append: self.append.copied(alloc)?,
            rewrite: self.rewrite.copied(alloc)?,
        })
    }

    pub(crate) fn of(&self, queue: LogQueue) -> &SpanReport {
        match queue {
            LogQueue::Append => &self.append,
            LogQueue::Rewrite => &self.rewrite,
        }
    }
}

impl SpanReport {
    fn new(alloc: Global) -> SpanReport {
        SpanReport {
            missing: Vec::new(alloc),
            strays: Vec::new(alloc),
            left_over: Vec::new(alloc),
            has_lost: false,
            is_stale: false,
        }
    }

    /// Whether a file is missing or was, or one does not belong to its queue.
    pub fn has_losses(&self) -> bool {
        self.has_lost || !self.missing.is_empty() || !self.strays.is_empty()
    }

    fn copied(&self, alloc: Global) -> Result<SpanReport, AllocError> {
        let mut copy = SpanReport::new(alloc);
        copy.has_lost = self.has_lost;
        copy.is_stale = self.is_stale;
        copy.missing.extend_from_slice(&self.missing)?;
        copy.strays.extend_from_slice(&self.strays)?;
        copy.left_over.extend_from_slice(&self.left_over)?;
        Ok(copy)
    }

    // Whether a file that gets this number hides that one is missing.
    pub(crate) fn hides(&self, number: u64) -> bool {
        self.missing.iter().any(|range| number <= range.1)
    }

    // Whether a file with a smaller number is missing.
    pub(crate) fn is_missing_before(&self, number: u64) -> bool {
        self.missing.iter().any(|range| range.0 < number)
    }
}

impl Span {
    pub(crate) const EMPTY: Span = Span {
        first: 1,
        last: 0,
        is_dropping: false,
        has_lost: false,
    };

    /// The span of the files that an opening reads: those after the last missing number. The
    /// numbers are in ascending order.
    pub(crate) fn of(numbers: &[u64]) -> Span {
        let mut span = Span::EMPTY;
        for &number in numbers {
            if number != span.last.saturating_add(1) {
                span.first = number;
            }
            span.last = number;
        }
        span
    }

    /// Compares the note with the queue's files, whose numbers are in ascending order.
    pub fn report(&self, alloc: Global, numbers: &[u64]) -> Result<SpanReport, AllocError> {
        let mut report = SpanReport::new(alloc);
        let end = self.end(numbers);
        report.has_lost = self.has_lost;
        if self.is_stale(numbers, end) {
            report.is_stale = true;
            return Ok(report);
        }
        let mut next = self.front(numbers);
        for &number in numbers {
            if number < self.first {
                report.left_over.push(number)?;
            } else if number > end {
                report.strays.push(number)?;
            } else if number <= self.last {
                if next < number {
                    report.missing.push((next, number.saturating_sub(1)))?;
                }
                next = number.saturating_add(1);
            }
        }
        if next <= self.last {
            report.missing.push((next, self.last))?;
        }
        Ok(report)
    }

    // The greatest number up to which files follow on the last one.
    fn end(&self, numbers: &[u64]) -> u64 {
        let mut end = self.last;
        for &number in numbers {
            if number == end.saturating_add(1) {
                end = number;
            }
        }
        end
    }

    // The least number of a file that is needed.
    fn front(&self, numbers: &[u64]) -> u64 {
        if !self.is_dropping {
            return self.first;
        }
        let found = numbers.iter().find(|number| **number >= self.first);
        match found {
            Some(number) => self.first.max(self.last.min(*number)),
            None => self.first.max(self.last),
        }
    }

    // A crash leaves at most one file after the last one. More are another program's, as are files
    // after it if all of the span are gone.
    fn is_stale(&self, numbers: &[u64], end: u64) -> bool {
        if end > self.last.saturating_add(1) {
            return true;
        }
        let has_own = numbers
            .iter()
            .any(|number| self.first <= *number && *number <= self.last);
        let has_later = numbers.iter().any(|number| *number > end);
        has_later && !has_own
    }

    /// The span at an opening that found files of these numbers: the note's, if it is true. Without
    /// a note it is that of all files. If one of these is missing then, no span is known: a purge may
    /// have left the files before it, or someone else may have deleted it. If a loss is known anyway,
    /// the span of the files that are read is enough: with it the loss is remembered.
    pub(crate) fn at_opening(&self, numbers: &[u64], knows_loss: bool) -> Option<Span> {
        let end = self.end(numbers);
        if self.is_stale(numbers, end) {
            let span = Span {
                has_lost: self.has_lost,
                ..Span::of(numbers)
            };
            let has_no_gap = numbers.first() == Some(&span.first);
            return (knows_loss || has_no_gap).then_some(span);
        }
        Some(Span {
            first: self.front(numbers),
            last: end,
            is_dropping: false,
            has_lost: self.has_lost,
        })
    }

    /// Notes that a file was made; returns whether that changed the span. A later number that does
    /// not follow changes nothing, so that the files that do not follow are still reported. An
    /// earlier one comes if all files are gone and the log begins again.
    pub(crate) fn add(&mut self, number: u64) -> bool {
        if self.last == 0 {
            self.first = number;
            self.last = number;
            return true;
        }
        if number < self.first {
            self.first = number;
            return true;
        }
        if number != self.last.saturating_add(1) {
            return false;
        }
        self.last = number;
        true
    }

    /// Notes that a file will get another name or be deleted; returns whether that changed the span.
    /// A purge takes the first files; only an empty last file is taken from the end.
    pub(crate) fn leave(&mut self, number: u64) -> bool {
        if number < self.first || self.last < number {
            return false;
        }
        if self.first == self.last {
            *self = Span {
                has_lost: self.has_lost,
                ..Span::EMPTY
            };
        } else if number == self.last {
            self.last = number.saturating_sub(1);
        } else {
            self.first = number.saturating_add(1);
        }
        true
    }

    /// Notes that a file will be deleted; returns whether the note on the disk does not allow for
    /// that. If files are deleted one after the other, it allows for all after the first one.
    pub(crate) fn delete(&mut self, number: u64) -> bool {
        let first = self.first;
        let is_next = self.is_dropping && number == first;
        let is_changed = self.leave(number);
        self.is_dropping = self.is_dropping || first < self.first;
        is_changed && !is_next
    }
}

impl Spans {
    pub(crate) fn empty(alloc: Global) -> Spans {
        Spans {
            append: Span::EMPTY,
            rewrite: Span::EMPTY,
            spill: String::new(alloc),
        }
    }

    /// The span of a queue.
    pub(crate) fn span(&mut self, queue: LogQueue) -> &mut Span {
        match queue {
            LogQueue::Append => &mut self.append,
            LogQueue::Rewrite => &mut self.rewrite,
        }
    }

    /// The queue and the number of the log's file at a path; none if the file is not the log's.
    pub(crate) fn number_at(&self, path: &str) -> Option<(LogQueue, u64)> {
        let folder = parent(path);
        if !folder.is_empty() && folder != self.spill.as_str() {
            return None;
        }
        number_of(name_of(path))
    }

    /// Whether a log file's path is in a folder that is neither the log's nor its second one.
    pub(crate) fn is_elsewhere(&self, path: &str) -> bool {
        number_of(name_of(path)).is_some() && self.number_at(path).is_none()
    }

    /// A slot with these spans.
    pub(crate) fn slot(&self, alloc: Global, count: u64) -> io::Result<Vec<u8>> {
        let mut slot = Vec::with_capacity(alloc, SLOT_LEN)?;
        slot.extend_from_slice(MAGIC)?;
        let flags = u64::from(self.append.is_dropping)
            | u64::from(self.rewrite.is_dropping) << 1
            | u64::from(self.append.has_lost) << 2
            | u64::from(self.rewrite.has_lost) << 3;
        let spill = if self.spill.len() > MAX_SPILL_LEN {
            ""
        } else {
            self.spill.as_str()
        };
        for number in [
            count,
            self.append.first,
            self.append.last,
            self.rewrite.first,
            self.rewrite.last,
            flags,
            spill.len() as u64,
        ] {
            push_u64(&mut slot, number)?;
        }
        slot.extend_from_slice(spill.as_bytes())?;
        slot.resize(BODY_LEN, 0)?;
        let sum = crc32(&slot);
        push_u32(&mut slot, sum)?;
        Ok(slot)
    }
}

/// The queue and the number of a log file with this name.
fn number_of(name: &str) -> Option<(LogQueue, u64)> {
    if !is_log_name(name) {
        return None;
    }
    let (number, end) = name.split_at_checked(NUMBER_LEN)?;
    let number = number.parse().ok()?;
    match end {
        ".raftlog" => Some((LogQueue::Append, number)),
        ".rewrite" => Some((LogQueue::Rewrite, number)),
        _ => None,
    }
}

// What a path ends with, after its folder.
fn name_of(path: &str) -> &str {
    let folder = parent(path);
    let rest = path.get(folder.len()..).unwrap_or("");
    rest.strip_prefix('/').unwrap_or(rest)
}

/// Whether these bytes are those of a file of notes: one slot has a note, or each has none yet or
/// begins as one.
pub(crate) fn is_note(bytes: &[u8]) -> bool {
    if bytes.len() > 2 * SLOT_LEN {
        return false;
    }
    let has_note = bytes.chunks(SLOT_LEN).any(|slot| parts_of(slot).is_some());
    has_note
        || bytes.chunks(SLOT_LEN).all(|slot| slot.starts_with(MAGIC)
            || slot.iter().all(|byte| *byte == 0))
}

/// The latest note in a file's bytes, and its slot. There is none if both slots are broken.
pub(crate) fn latest(alloc: Global, bytes: &[u8]) -> io::Result<Option<(u64, SpanNote)>> {
    let mut latest: Option<(u64, SpanNote)> = None;
    for (place, slot) in bytes.chunks(SLOT_LEN).enumerate() {
        let Some(note) = note_in(alloc, slot)? else {
            continue;
        };
        let is_later = match &latest {
            Some((_, earlier)) => earlier.count < note.count,
            None => true,
        };
        if is_later {
            latest = Some((place as u64, note));
        }
    }
    Ok(latest)
}

fn note_in(alloc: Global, slot: &[u8]) -> io::Result<Option<SpanNote>> {
    let Some((count, append, rewrite, spill)) = parts_of(slot) else {
        return Ok(None);
    };
    let spill = String::from_str(alloc, spill)?;
    let spans = Spans {
        append,
        rewrite,
        spill,
    };
    Ok(Some(SpanNote { count, spans }))
}

// The count, the spans of both queues, and the path in a slot.
fn parts_of(slot: &[u8]) -> Option<(u64, Span, Span, &str)> {
    if slot.len() != SLOT_LEN {
        return None;
    }
    let body = checked_body(slot, None)?.strip_prefix(MAGIC)?;
    let (count, body) = take_u64(body)?;
    let (append, body) = take_span(body)?;
    let (rewrite, body) = take_span(body)?;
    let (flags, body) = take_u64(body)?;
    let (len, body) = take_u64(body)?;
    let spill = str::from_utf8(body.get(..usize::try_from(len).ok()?)?).ok()?;
    let append = Span {
        is_dropping: flags & 1 != 0,
        has_lost: flags & 4 != 0,
        ..append
    };
    let rewrite = Span {
        is_dropping: flags & 2 != 0,
        has_lost: flags & 8 != 0,
        ..rewrite
    };
    Some((count, append, rewrite, spill))
}

fn take_span(bytes: &[u8]) -> Option<(Span, &[u8])> {
    let (first, bytes) = take_u64(bytes)?;
    let (last, bytes) = take_u64(bytes)?;
    let span = Span {
        first,
        last,
        is_dropping: false,
        has_lost: false,
    };
    Some((span, bytes))
}
