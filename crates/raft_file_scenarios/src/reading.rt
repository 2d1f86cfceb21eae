//! Records of a log file, made by Python's struct and binascii for file 5, read one by one.

ghost use Rattle.std.specs.Prelude.{◌≡◌, IfOk, length};
ghost use Rattle.std.specs.Option.{IfSome};
ghost use Rattle.raft_files.specs.FileRecords.{ReadsIn};
ghost use Rattle.raft_files.specs.Writer.{bytes_at};

use crate::in_memory::Tried;
use raft_env::{FileSystem, FsFault};
use raft_files::{FileRecordReader, LogFileFormat, LogFileReader};
use raft_records::{
    Command, EntryIndex, Fault, FileBlockHandle, FileId, KeyValue, LogItem, LogItemBatch,
    LogItemContent, LogQueue, Version,
};
use std::alloc::Global;

const PATH: &str = "log";

const EMPTY: &[u8] =
    b"\x00\x00\x00\x00\x00\x00\x15\x00\x00\x00\x00\x00\x00\x00\x00\x10\x00\x88\xef\x02\xd2";

/// A put of `a` in group 7.
const PUT: &[u8] =
    b"\x00\x00\x00\x00\x00\x00\x1c\x00\x00\x00\x00\x00\x00\x00\x00\x10\x01\x07\x03\x01\x01\x61\x01\x78\x5f\xb4\xb7\x61";

/// The put without its last byte.
const CUT: &[u8] =
    b"\x00\x00\x00\x00\x00\x00\x1c\x00\x00\x00\x00\x00\x00\x00\x00\x10\x01\x07\x03\x01\x01\x61\x01\x78\x5f\xb4\xb7";

/// A clean of group 7.
const CLEAN: &[u8] =
    b"\x00\x00\x00\x00\x00\x00\x18\x00\x00\x00\x00\x00\x00\x00\x00\x10\x01\x07\x02\x01\xed\xfc\x86\xd9";

/// Entries of group 7, 1 with `ab` and 2 with `c`.
const ENTRIES: &[u8] =
    b"\x00\x00\x00\x00\x00\x00\x22\x00\x00\x00\x00\x00\x00\x00\x00\x17\x61\x62\x63\xc2\x41\x24\x35\x01\x07\x01\x02\x01\x02\x01\x6f\x3d\x84\xf5";

/// The entries with a wrong byte in their block.
const ENTRIES_BROKEN: &[u8] =
    b"\x00\x00\x00\x00\x00\x00\x22\x00\x00\x00\x00\x00\x00\x00\x00\x17\x61\x63\x63\xc2\x41\x24\x35\x01\x07\x01\x02\x01\x02\x01\x6f\x3d\x84\xf5";

/// Entries in a compressed block with a right checksum.
const COMPRESSED: &[u8] =
    b"\x00\x00\x00\x00\x00\x00\x22\x01\x00\x00\x00\x00\x00\x00\x00\x17\x78\x79\x7a\x67\xba\x8e\xeb\x01\x07\x01\x02\x01\x02\x01\x6f\x3d\x84\xf5";

/// That block with a wrong byte.
const COMPRESSED_BROKEN: &[u8] =
    b"\x00\x00\x00\x00\x00\x00\x22\x01\x00\x00\x00\x00\x00\x00\x00\x17\x78\x78\x7a\x67\xba\x8e\xeb\x01\x07\x01\x02\x01\x02\x01\x6f\x3d\x84\xf5";

/// What the next read finds.
enum Found {
    /// A batch without items.
    Empty,
    /// The put of `PUT`.
    Put,
    Clean,
    /// The entries of `ENTRIES`, whose block is at this offset.
    Entries(u64),
    End,
    /// A fault with this code.
    Refused(u8),
}

/// What the next read of a replay finds, or of a reading that also checks blocks, and the offset
/// up to which the file has then been read.
enum Step {
    Replay(Found, usize),
    Read(Found, usize),
}

/// A file of version 2: its number and alignment, the records after byte 128, and the result of
/// reading it.
pub(crate) struct Case {
    seq: u64,
    alignment: u64,
    records: [&'static [u8]; 2],
    steps: &'static [Step],
}

pub(crate) static CASES: [Tried; 10] = [
    // Up to the end.
    Tried::Records(&Case {
        seq: 5,
        alignment: 128,
        records: [EMPTY, PUT],
        steps: &[
            Step::Read(Found::Empty, 149),
            Step::Replay(Found::Put, 177),
            Step::Replay(Found::End, 177),
            Step::Read(Found::End, 177),
        ],
    }),
    // No alignment.
    Tried::Records(&Case {
        seq: 5,
        alignment: 0,
        records: [EMPTY, PUT],
        steps: &[
            Step::Replay(Found::Refused(2), 69),
            Step::Read(Found::Refused(2), 69),
        ],
    }),
    // A byte short.
    Tried::Records(&Case {
        seq: 5,
        alignment: 128,
        records: [EMPTY, CUT],
        steps: &[
            Step::Replay(Found::Empty, 149),
            Step::Replay(Found::Refused(2), 149),
            Step::Read(Found::Refused(2), 149),
        ],
    }),
    // Of another file.
    Tried::Records(&Case {
        seq: 6,
        alignment: 128,
        records: [EMPTY, PUT],
        steps: &[
            Step::Replay(Found::Refused(2), 69),
            Step::Read(Found::Refused(2), 69),
        ],
    }),
    // A clean.
    Tried::Records(&Case {
        seq: 5,
        alignment: 128,
        records: [CLEAN, PUT],
        steps: &[Step::Read(Found::Clean, 152), Step::Read(Found::Put, 180)],
    }),
    // Entries.
    Tried::Records(&Case {
        seq: 5,
        alignment: 128,
        records: [ENTRIES, ENTRIES],
        steps: &[
            Step::Replay(Found::Entries(144), 162),
            Step::Read(Found::Entries(178), 196),
            Step::Read(Found::End, 196),
        ],
    }),
    // A broken block.
    Tried::Records(&Case {
        seq: 5,
        alignment: 128,
        records: [PUT, ENTRIES_BROKEN],
        steps: &[
            Step::Read(Found::Put, 156),
            Step::Read(Found::Refused(2), 156),
            Step::Replay(Found::Entries(172), 190),
            Step::Replay(Found::End, 190),
        ],
    }),
    // A broken block before a put.
    Tried::Records(&Case {
        seq: 5,
        alignment: 128,
        records: [ENTRIES_BROKEN, PUT],
        steps: &[
            Step::Read(Found::Refused(2), 69),
            Step::Replay(Found::Entries(144), 162),
            Step::Read(Found::Put, 190),
        ],
    }),
    // A compressed block.
    Tried::Records(&Case {
        seq: 5,
        alignment: 128,
        records: [COMPRESSED, PUT],
        steps: &[
            Step::Replay(Found::Refused(13), 69),
            Step::Read(Found::Refused(13), 69),
        ],
    }),
    // A broken compressed block.
    Tried::Records(&Case {
        seq: 5,
        alignment: 128,
        records: [COMPRESSED_BROKEN, PUT],
        steps: &[
            Step::Replay(Found::Refused(2), 69),
            Step::Read(Found::Refused(2), 69),
        ],
    }),
];

fn lay_out(case: &Case, bytes: &mut Vec<u8>) -> Result<(), Fault> {
    LogFileFormat::new(Version::V2, case.alignment).encode(bytes)?;
    bytes.resize(128, 0)?;
    for record in &case.records {
        bytes.extend_from_slice(record)?;
    }
    Ok(())
}

fn entry(seq: u64, offset: u64, index: u64, entry_offset: u32, entry_len: u32) -> EntryIndex {
    EntryIndex {
        index,
        entries: Some(FileBlockHandle {
            id: FileId::new(LogQueue::Append, seq),
            offset,
            len: 7,
        }),
        entry_offset,
        entry_len,
        lz4: false,
    }
}

// Whether the item has the two entries of a block at this offset.
fn are_entries(content: &LogItemContent, seq: u64, offset: u64) -> bool {
    match content {
        LogItemContent::EntryIndexes(entries) => {
            let wanted = [entry(seq, offset, 1, 0, 2), entry(seq, offset, 2, 2, 1)];
            entries.as_slice() == wanted.as_slice()
        }
        _ => false,
    }
}

fn is_put(content: &LogItemContent) -> bool {
    match content {
        LogItemContent::Kv(KeyValue::Put { key, value }) => {
            key.as_slice() == b"a".as_slice() && value.as_slice() == b"x".as_slice()
        }
        _ => false,
    }
}

// Whether these are the wanted items, each of group 7.
fn has_items(items: &[LogItem], seq: u64, wanted: &Found) -> bool {
    match (wanted, items) {
        (Found::Empty, []) => true,
        (Found::Put, [item]) => item.raft_group_id == 7 && is_put(&item.content),
        (Found::Clean, [item]) => {
            item.raft_group_id == 7
                && matches!(&item.content, LogItemContent::Command(Command::Clean))
        }
        (Found::Entries(offset), [item]) => {
            item.raft_group_id == 7 && are_entries(&item.content, seq, *offset)
        }
        _ => false,
    }
}

// Whether a read found what is wanted.
fn is_found(seq: u64, answer: Result<Option<LogItemBatch>, Fault>, wanted: &Found) -> bool {
    match (&answer, wanted) {
        (Ok(None), Found::End) => true,
        (Err(fault), Found::Refused(code)) => fault.code() == *code,
        (Ok(Some(batch)), _) => has_items(batch.items(), seq, wanted),
        _ => false,
    }
}

// Whether the step ends as the case says.
fn holds<F: FileSystem>(
    fs: &F,
    alloc: Global,
    seq: u64,
    reader: &mut FileRecordReader<F>,
    step: &Step,
) -> bool
    requires { ReadsIn (F.directory fs.now) reader.old }
    ensures stands { ReadsIn (F.directory fs.now) reader.new }
{
    match step {
        Step::Replay(wanted, end) => {
            let answer = reader.next(fs, alloc, PATH, false);
            is_found(seq, answer, wanted) && reader.valid_offset() == *end
        }
        Step::Read(wanted, end) => {
            let answer = reader.next(fs, alloc, PATH, true);
            is_found(seq, answer, wanted) && reader.valid_offset() == *end
        }
    }
}

fn all_hold<F: FileSystem>(
    fs: &F,
    alloc: Global,
    reader: &mut FileRecordReader<F>,
    case: &Case,
) -> bool
    requires { ReadsIn (F.directory fs.now) reader.old }
{
    for step in case.steps {
        if !holds(fs, alloc, case.seq, reader, step) {
            return false;
        }
    }
    true
}

fn write<F: FileSystem>(fs: &mut F, bytes: &[u8]) -> Result<LogFileReader<F>, FsFault>
    ensures value { IfOk result (λ r. r.file_size
        ≡ length (bytes_at r.path (F.directory fs.new))) }
{
    let handle = fs.create(PATH)?;
    let mut writer = fs.new_writer(&handle)?;
    fs.write(&mut writer, 0, bytes)?;
    LogFileReader::open(fs, &handle)
}

// A reader of a file of this format, after its header; `None` if the file is too short for one.
fn reader_of<F: FileSystem>(
    fs: &mut F,
    alloc: Global,
    id: FileId,
    format: LogFileFormat,
    bytes: &[u8],
) -> Result<Option<FileRecordReader<F>>, FsFault>
    ensures stands { IfOk result (λ found. IfSome found (ReadsIn (F.directory fs.new))) }
{
    let reader = write(fs, bytes)?;
    if reader.file_size() < LogFileFormat::encoded_len(format.version) {
        return Ok(None);
    }
    Ok(Some(FileRecordReader::new(alloc, reader, id, format, 16)))
}

// The format in the header of a file of these bytes.
fn format_of<F: FileSystem>(fs: &mut F, bytes: &[u8]) -> Result<Option<LogFileFormat>, FsFault> {
    let mut reader = write(fs, bytes)?;
    reader.parse_format(fs)
}

/// Whether each step ends as the case says.
pub(crate) fn is_read<F: FileSystem>(fs: &mut F, alloc: Global, case: &Case) -> bool {
    let mut bytes = Vec::new(alloc);
    if lay_out(case, &mut bytes).is_err() {
        return false;
    }
    let format = LogFileFormat::new(Version::V2, case.alignment);
    if format_of(fs, &bytes) != Ok(Some(format)) {
        return false;
    }
    let id = FileId::new(LogQueue::Append, case.seq);
    match reader_of(fs, alloc, id, format, &bytes) {
        Ok(Some(mut reader)) => all_hold(fs, alloc, &mut reader, case),
        Ok(None) => false,
        Err(_) => false,
    }
}

/// Whether a record without a header before it isn't read as a header.
pub(crate) fn has_no_header<F: FileSystem>(fs: &mut F) -> bool {
    !matches!(format_of(fs, PUT), Ok(Some(_)))
}
