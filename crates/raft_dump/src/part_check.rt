//! How much of a log file can be read, with one part of it at a time in memory.
ghost use Rattle.std.specs.Prelude.{◌≡◌, ◌++◌, ◌≤◌, ◌==◌, ◌-◌, ◌+◌, ◌^◌, ℕ, List, None, IfErr, IfOk, drop, length, min, take};
ghost use Rattle.std.specs.List.{list_all};
ghost use Rattle.raft_dump.specs.Check.{IsCheckOf, IsReadingOf};
ghost use Rattle.raft_dump.specs.Stale.{IsSearched, stale_len};
ghost use Rattle.raft_dump.specs.Parts.{AreOf, BeginsWith, IsReadRefusal, IsWanted, ReadsParts};

use crate::part_image::image_of_part;
use crate::part_source::{PartSource, read_whole_part};
use crate::part_wanted::{PART_LEN, wanted_behind};
use crate::{
    FileCheck, LogFile, STALE_LEN, StaleSearch, are_zeros, check_file, search_stale, without_header,
};
use raft_files::LogFileFormat;
use raft_records::Fault;
use std::alloc::Global;

/// Reads a log file of this size as `check_file` does, and holds one part of it at a
/// time: `PART_LEN` bytes, or a record, or the whole file if its records are aligned; `STALE_LEN`
/// bytes while it looks for stale records. The result is the check of a file of any bytes that have
/// these parts. It fails if a read does, if the file is shorter, and for lack of memory.
pub fn check_parts<S: PartSource>(
    alloc: Global,
    file: &LogFile,
    size: usize,
    source: &mut S,
) -> Result<FileCheck, Fault>
    ensures value { IfOk result (λ c. (bytes : List ℕ) → length bytes ≡ size
        → AreOf bytes (S.given source.new) → IsCheckOf file.now.id bytes c) }
    ensures cause { IfErr result IsReadRefusal }
{
    let mut check = read_parts(alloc, file, size, source)?;
    check.zeros = has_zeros(alloc, file.path.as_str(), check.end, size, source)?;
    let search = search_rest(alloc, &check, source)?;
    check.stale = search.is_stale();
    check.unsearched = search.is_ended();
    Ok(check)
}

// All but whether the rest are zeros.
fn read_parts<S: PartSource>(
    alloc: Global,
    file: &LogFile,
    size: usize,
    source: &mut S,
) -> Result<FileCheck, Fault>
    ensures value { IfOk result (λ c. (bytes : List ℕ) → length bytes ≡ size
        → AreOf bytes (S.given source.new) → IsReadingOf file.now.id bytes c) }
    ensures cause { IfErr result IsReadRefusal }
{
    let front = source.read_part(0, LogFileFormat::max_encoded_len())?;
    let Ok(format) = LogFileFormat::decode(&mut front.bytes.as_slice()) else {
        return Ok(without_header(file.id, size));
    };
    if format.alignment != 0 {
        return check_whole(alloc, file, size, source);
    }
    let len = LogFileFormat::encoded_len(format.version);
    if size < len {
        return Ok(without_header(file.id, size));
    }
    read_records(alloc, file, format, &front.bytes[..len], size, source)
}

// A file of aligned records is read whole, since their places in it count.
fn check_whole<S: PartSource>(
    alloc: Global,
    file: &LogFile,
    size: usize,
    source: &mut S,
) -> Result<FileCheck, Fault>
    ensures { ReadsParts result (λ c bytes. IsReadingOf file.now.id bytes c) size
        (S.given source.old) (S.given source.new) }
{
    let part = read_whole_part(alloc, file.path.as_str(), source, 0, size)?;
    check_part(alloc, file, &[], &part.bytes)
}

// What can be read of a part after the header.
fn check_part(alloc: Global, file: &LogFile, header: &[u8], part: &[u8]) -> Result<FileCheck, Fault>
    ensures value { IfOk result (IsCheckOf file.now.id (header.now ++ part.now)) }
    ensures cause { IfErr result IsReadRefusal }
{
    let mut image = image_of_part(alloc, file.path.as_str(), header, part)?;
    check_file(alloc, file, &mut image)
}

// The records after the header, part by part.
fn read_records<S: PartSource>(
    alloc: Global,
    file: &LogFile,
    format: LogFileFormat,
    header: &[u8],
    size: usize,
    source: &mut S,
) -> Result<FileCheck, Fault>
    requires { length header.now ≤ size }
    ensures { ReadsParts result (λ c bytes. BeginsWith header.now format bytes
        → IsReadingOf file.now.id bytes c) size (S.given source.old) (S.given source.new) }
{
    let mut check = FileCheck {
        id: file.id,
        format: Some(format),
        records: 0,
        end: header.len(),
        len: size,
        zeros: false,
        stale: false,
        unsearched: false,
        stop: None,
    };
    let mut wanted = Some(PART_LEN.min(size - header.len()));
    'parts: while let Some(len) = wanted {
        let part = read_whole_part(alloc, file.path.as_str(), source, check.end, len)?;
        let read = check_part(alloc, file, header, &part.bytes)?;
        wanted = go_on(&mut check, read, header, &part.bytes);
    }
    Ok(check)
}

// Adds what was read of a part, and says how many bytes are to be read next, if any.
fn go_on(check: &mut FileCheck, mut read: FileCheck, header: &[u8], part: &[u8]) -> Option<usize>
    requires { check.old.end + length part.now ≤ check.old.len }
    ensures added { check.new ≡ record check.old {
      records = min (check.old.records + read.records) (2 ^ 64 - 1);
      end = check.old.end + min (read.end - length header.now) (length part.now);
      stop = read.stop;
    } }
    ensures wanted { IsWanted (check.old.len - check.new.end)
        (drop (check.new.end - check.old.end) part.now) result }
{
    let size = check.len;
    let read_len = read.end.saturating_sub(header.len()).min(part.len());
    check.records = check.records.saturating_add(read.records);
    check.end += read_len;
    check.stop = read.stop.take();
    let left = size - check.end;
    let wanted = wanted_behind(&part[read_len..], left)?;
    Some(wanted.max(PART_LEN).min(left))
}

// Whether the file has only zeros from a place on.
fn has_zeros<S: PartSource>(
    alloc: Global,
    path: &str,
    from: usize,
    size: usize,
    source: &mut S,
) -> Result<bool, Fault>
    ensures { ReadsParts result
        (λ zeros bytes. zeros ≡ list_all (λ b. b == 0) (drop from bytes)) size
        (S.given source.old) (S.given source.new) }
{
    let mut at = from;
    'parts: while at < size {
        let len = PART_LEN.min(size - at);
        let part = read_whole_part(alloc, path, source, at, len)?;
        if !are_zeros(&part.bytes) {
            return Ok(false);
        }
        at += len;
    }
    Ok(true)
}

// Whether the first record after those that can be read is signed for an earlier file.
fn search_rest<S: PartSource>(
    alloc: Global,
    check: &FileCheck,
    source: &mut S,
) -> Result<StaleSearch, Fault>
    ensures value { IfOk result (λ search. (bytes : List ℕ) → AreOf bytes (S.given source.new)
        → IsSearched check.now.id (take stale_len (drop check.now.end bytes)) search) }
    ensures given { IfOk result (λ _. (bytes : List ℕ) → AreOf bytes (S.given source.new)
        → AreOf bytes (S.given source.old)) }
    ensures cause { IfErr result IsReadRefusal }
{
    if !check.may_be_stale() {
        return Ok(StaleSearch::NotStale);
    }
    let part = source.read_part(check.end, STALE_LEN)?;
    search_stale(alloc, check.id, &part.bytes)
}
