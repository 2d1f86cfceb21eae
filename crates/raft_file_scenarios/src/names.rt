//! The names of log files, their headers, and the zeros between records.

use crate::told::assert_tables;
use raft_files::{
    FileNameExt, LogFileFormat, build_reserved_file_name, is_zero_padded, parse_reserved_file_name,
};
use raft_records::{Fault, FileId, LogQueue, Version};
use raft_rows::Row;
use std::alloc::Global;

enum Case {
    /// A name, the queue and number of the log file that it means, and the number of the reserved file
    /// that it means.
    Parsed(&'static str, Option<(LogQueue, u64)>, Option<u64>),
    /// A file's number, its name, its path in the folder `data`, and its name as a reserved file.
    Built(u64, &'static str, &'static str, &'static str),
    /// A version and an alignment, the length of a header of this version, and the bytes after its
    /// fixed ones; none if such a header is refused as an invalid argument.
    Header(Version, u64, usize, Option<&'static [u8]>),
    /// Bytes that don't begin with a header.
    NoHeader(&'static [u8]),
    /// Bytes between records, and whether they pass for padding.
    Padding(&'static [u8], bool),
}

use Case::{Built, Header, NoHeader, Padding, Parsed};

static PARSED: [Case; 9] = [
    Parsed(
        "0000000000000123.raftlog",
        Some((LogQueue::Append, 123)),
        None,
    ),
    Parsed(
        "+000000000000123.raftlog",
        Some((LogQueue::Append, 123)),
        None,
    ),
    Parsed(
        "10000000000000000.raftlog",
        Some((LogQueue::Append, 1_000_000_000_000_000)),
        None,
    ),
    Parsed(
        "0000000000000123.rewrite",
        Some((LogQueue::Rewrite, 123)),
        None,
    ),
    Parsed("0000000000000123.log", None, None),
    Parsed("123.rewrite", None, None),
    Parsed("000000000000000é.raftlog", None, None),
    Parsed("0000000000000007.raftlog.reserved", None, Some(7)),
    Parsed("7.raftlog.reserved", None, None),
];

fn is_file(id: Option<FileId>, wanted: &Option<(LogQueue, u64)>) -> bool {
    match (id, wanted) {
        (Some(id), Some((queue, seq))) => id == FileId::new(*queue, *seq),
        (None, None) => true,
        _ => false,
    }
}

static BUILT: [Case; 3] = [
    Built(
        7,
        "0000000000000007.raftlog",
        "data/0000000000000007.raftlog",
        "0000000000000007.raftlog.reserved",
    ),
    Built(
        123,
        "0000000000000123.raftlog",
        "data/0000000000000123.raftlog",
        "0000000000000123.raftlog.reserved",
    ),
    Built(
        10_000_000_000_000_000,
        "10000000000000000.raftlog",
        "data/10000000000000000.raftlog",
        "10000000000000000.raftlog.reserved",
    ),
];

fn is_text(text: Result<String, Fault>, wanted: &str) -> Result<bool, Fault> {
    Ok(text?.as_str() == wanted)
}

const MAGIC: &[u8] = b"RAFT-LOG-FILE-HEADER-9986AB3E47F320B394C8E84916EB0ED5";

static HEADERS: [Case; 3] = [
    Header(
        Version::V2,
        4096,
        69,
        Some(&[0, 0, 0, 0, 0, 0, 0, 2, 0, 0, 0, 0, 0, 0, 16, 0]),
    ),
    Header(Version::V1, 0, 61, Some(&[0, 0, 0, 0, 0, 0, 0, 1])),
    Header(Version::V1, 4096, 61, None),
];

// Whether all of these bytes are read as this format.
fn is_read(bytes: &[u8], format: LogFileFormat) -> Result<bool, Fault> {
    let mut rest = bytes;
    Ok(LogFileFormat::decode(&mut rest)? == format && rest.is_empty())
}

// Whether the format's header ends in these bytes and is read back.
fn has_header(alloc: Global, format: LogFileFormat, numbers: &[u8]) -> Result<bool, Fault> {
    let mut bytes = Vec::new(alloc);
    format.encode(&mut bytes)?;
    Ok(bytes.strip_prefix(MAGIC) == Some(numbers) && is_read(&bytes, format)?)
}

static NO_HEADERS: [Case; 3] = [
    NoHeader(b""),
    NoHeader(
        b"RAFT-LOG-FILE-HEADER-9986AB3E47F320B394C8E84916EB0ED5\0\0\0\0\0\0\0\x04\0\0\0\0\0\0\x10\0",
    ),
    NoHeader(
        b"RAFT-LOG-FILE-HEADER-9986AB3E47F320B394C8E84916EB0ED5\0\0\0\0\0\0\0\x02\0\0\0\0\0\0\x10",
    ),
];

static PADDINGS: [Case; 5] = [
    Padding(&[0; 110], true),
    Padding(&[0; 5], true),
    Padding(&[0, 0, 0, 3], false),
    Padding(&[], true),
    Padding(&[0, 7, 0], true),
];

fn tables() -> [&'static [Case]; 5] {
    [&PARSED, &BUILT, &HEADERS, &NO_HEADERS, &PADDINGS]
}

fn are_built(
    alloc: Global,
    seq: u64,
    name: &str,
    path: &str,
    reserved: &str,
) -> Result<bool, Fault> {
    let id = FileId::new(LogQueue::Append, seq);
    Ok(
        is_text(id.build_file_name(alloc), name)?
            && is_text(id.build_file_path(alloc, "data"), path)?
            && is_text(build_reserved_file_name(alloc, seq), reserved)?,
    )
}

// Whether such a header is refused as an invalid argument.
fn is_no_format(alloc: Global, format: LogFileFormat) -> bool {
    match format.encode(&mut Vec::new(alloc)) {
        Ok(()) => false,
        Err(fault) => fault.code() == 1,
    }
}

// Whether reading a header from the bytes fails as corrupt and consumes nothing.
fn is_no_header(bytes: &[u8]) -> bool {
    let mut rest = bytes;
    match LogFileFormat::decode(&mut rest) {
        Err(Fault::Corruption) => rest.len() == bytes.len(),
        _ => false,
    }
}

fn is_header(
    alloc: Global,
    format: LogFileFormat,
    numbers: &Option<&'static [u8]>,
) -> Result<bool, Fault> {
    match numbers {
        Some(numbers) => has_header(alloc, format, numbers),
        None => Ok(is_no_format(alloc, format)),
    }
}

impl Row for Case {
    type State = ();

    fn holds(&self, alloc: Global, _: &mut ()) -> Result<bool, Fault> {
        match self {
            Parsed(name, wanted, reserved) => {
                Ok(
                    is_file(FileId::parse_file_name(name), wanted)
                        && parse_reserved_file_name(name) == *reserved,
                )
            }
            Built(seq, name, path, reserved) => are_built(alloc, *seq, name, path, reserved),
            Header(version, alignment, len, numbers) => {
                Ok(
                    LogFileFormat::encoded_len(*version) == *len
                        && is_header(alloc, LogFileFormat::new(*version, *alignment), numbers)?,
                )
            }
            NoHeader(bytes) => Ok(is_no_header(bytes)),
            Padding(bytes, wanted) => Ok(is_zero_padded(bytes) == *wanted),
        }
    }
}

#[test]
fn names_headers_and_padding(rt: HostRuntime) {
    assert!(rt; LogFileFormat::max_encoded_len() == 69);
    assert_tables(&rt, rt.alloc(), &mut (), &tables());
}
