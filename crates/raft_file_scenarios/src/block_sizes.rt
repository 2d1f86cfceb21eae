//! One file, read in blocks of different sizes.

use crate::failing::Failing;
use raft_env::{FileSystem, FsFault, IoKind, Permission};
use raft_files::{LogFileReader, LogItemBatchFileReader};
use raft_memory::FsCall;
use raft_records::{Fault, FileId, LogBatch, LogQueue};
use raft_rows::store;
use std::alloc::Global;

const PATH: &str = "log";

/// The file without its last byte.
const SHORT: &str = "short";

/// A header of version 1: 61 bytes.
const HEADER: &[u8] =
    b"RAFT-LOG-FILE-HEADER-9986AB3E47F320B394C8E84916EB0ED5\x00\x00\x00\x00\x00\x00\x00\x01";

/// The number of records in the file. A record has from some 30 to over 20,000 bytes.
const RECORDS: usize = 200;

/// Sizes of blocks in bytes. The last is greater than the file.
static SIZES: [usize; 5] = [0, 1, 512, 16384, 1_048_576];

// Every twentieth record is long.
fn value_len(place: usize) -> usize {
    if place % 20 == 19 {
        20_480
    } else {
        place % 500
    }
}

fn record_of(alloc: Global, place: usize) -> Result<LogBatch, Fault> {
    let mut value = Vec::new(alloc);
    value.resize(value_len(place), b'x')?;
    let mut batch = LogBatch::new(alloc);
    batch.put(1, Vec::new(alloc), value)?;
    batch.finish_populate()?;
    Ok(batch)
}

// Adds a record, and the place where it ends.
fn adds(alloc: Global, place: usize, bytes: &mut Vec<u8>, ends: &mut Vec<usize>) -> bool {
    match record_of(alloc, place) {
        Ok(record) => {
            bytes.extend_from_slice(record.encoded_bytes()).is_ok()
                && ends.push(bytes.len()).is_ok()
        }
        Err(_) => false,
    }
}

// Makes the bytes of the whole file, and the end of each record.
fn lays_out(alloc: Global, bytes: &mut Vec<u8>, ends: &mut Vec<usize>) -> bool {
    if bytes.extend_from_slice(HEADER).is_err() {
        return false;
    }
    for place in 0..RECORDS {
        if !adds(alloc, place, bytes, ends) {
            return false;
        }
    }
    true
}

fn file_reader<F: FileSystem>(fs: &mut F, path: &str) -> Result<LogFileReader<F>, FsFault> {
    let handle = fs.open(path, Permission::ReadOnly)?;
    LogFileReader::open(fs, &handle)
}

// Opens the file for reading, after its header.
fn opens<F: FileSystem>(fs: &mut F, path: &str, records: &mut LogItemBatchFileReader<F>) -> bool {
    match file_reader(fs, path) {
        Ok(reader) => {
            records
                .open(fs, FileId::new(LogQueue::Append, 1), path, reader)
                .is_ok()
        }
        Err(_) => false,
    }
}

// The code of the fault with which reading the next record fails; 0 if the record ends at this
// place.
fn next_code<F: FileSystem>(fs: &F, records: &mut LogItemBatchFileReader<F>, end: usize) -> u8 {
    match records.next(fs, PATH) {
        Ok(Some(_)) if records.valid_offset() == end => 0,
        Ok(_) => u8::MAX,
        Err(fault) => fault.code(),
    }
}

// The number of records read before the first failure, and the code of its fault; 0 if none fails.
fn read_all<F: FileSystem>(
    fs: &F,
    records: &mut LogItemBatchFileReader<F>,
    ends: &[usize],
) -> (usize, u8) {
    for (place, end) in ends.iter().enumerate() {
        let code = next_code(fs, records, *end);
        if code != 0 {
            return (place, code);
        }
    }
    (ends.len(), 0)
}

// Whether so many records of the file at the path are read in blocks of this size before this
// fault.
fn reads<F: FileSystem>(
    fs: &mut F,
    alloc: Global,
    path: &str,
    size: usize,
    ends: &[usize],
    found: (usize, u8),
) -> bool {
    let mut records = LogItemBatchFileReader::new(alloc, size);
    let is_read = opens(fs, path, &mut records) && read_all(fs, &mut records, ends) == found;
    drop(records);
    is_read
}

// Whether so many records of a file of these bytes are read with blocks of each size.
fn each_reads<F: FileSystem>(
    fs: &mut F,
    alloc: Global,
    path: &str,
    bytes: &[u8],
    ends: &[usize],
    found: (usize, u8),
) -> bool {
    if store(fs, path, &[bytes]).is_err() {
        return false;
    }
    for size in &SIZES {
        if !reads(fs, alloc, path, *size, ends, found) {
            return false;
        }
    }
    true
}

// Whether a read that fails after the opening is reported before the last record.
fn shows<F: Failing>(fs: &mut F, alloc: Global, ends: &[usize]) -> bool {
    let mut records = LogItemBatchFileReader::new(alloc, 512);
    let is_armed = opens(fs, PATH, &mut records) && fs.fail(FsCall::Read, 1, IoKind::Other).is_ok();
    let (read, code) = read_all(fs, &mut records, ends);
    drop(records);
    is_armed && read < RECORDS && code == 3
}

/// Whether all records are read with blocks of each size. Then a read is refused. Of a file without
/// its last byte all records except the last are read.
pub(crate) fn is_read_in_blocks<F: Failing>(fs: &mut F, alloc: Global) -> bool {
    let mut bytes = Vec::new(alloc);
    let mut ends = Vec::new(alloc);
    if !lays_out(alloc, &mut bytes, &mut ends) {
        return false;
    }
    let short = bytes.get(..bytes.len().saturating_sub(1)).unwrap_or(&[]);
    each_reads(fs, alloc, PATH, &bytes, &ends, (RECORDS, 0))
        && shows(fs, alloc, &ends)
        && each_reads(fs, alloc, SHORT, short, &ends, (RECORDS - 1, 2))
}
