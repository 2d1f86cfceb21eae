//! A queue of log files: the places of appended records, reads from these places, and rotations to
//! next files.
ghost use Rattle.std.specs.Prelude.{◌≡◌, true, IfOk};
ghost use Rattle.raft_pipes.specs.Pipe.{IsPipeOf};

use crate::failing::Failing;
use crate::folders::{HEADER, are_all, settings, stand_alone, stores};
use crate::tried::Tried;
use raft_env::FileSystem;
use raft_opening::{ReplayMachine, read_files, settle_or_begin};
use raft_pipes::{LogFolders, NewPipe, RotationFault, SinglePipe};
use raft_records::{Fault, FileBlockHandle, FileId, LogItem, LogQueue};
use std::alloc::Global;

/// Bytes to write: their number and value, the size at which a file is full, and whether they are
/// synced.
#[derive(Clone, Copy)]
struct Written {
    byte: u8,
    len: usize,
    target: usize,
    sync: bool,
}

/// The number of bytes at which a file is full.
const TARGET: usize = 1024;

/// With this target a file is full once it has its header.
const ALWAYS_FULL: usize = 1;

/// 16 bytes at the place of a file's first record: their value, and the file's number.
pub(crate) enum Each {
    /// Appends and syncs the bytes.
    Put(u8, u64),
    /// Reads exactly these bytes at the handle of their append.
    Read(u8, u64),
    /// Reading at the handle of their append fails.
    Gone(u64),
}

pub(crate) enum Step {
    /// Ten of these, each with the next value and in the next file.
    Ten(Each),
    /// Appends so many bytes, in the next file if the last one is full. Then the number of the
    /// file, and the bytes' offset in it.
    Append(usize, u64, u64),
    Rotate,
    /// Beginning a next file fails with this code.
    RotateRefused(u8),
    /// The file, the offset and the length of a read, and how many bytes it returns.
    Read(u64, u64, usize, usize),
    /// Deletes the files before this number, and returns how many, or fails with this code.
    Purge(u64, Result<usize, u8>),
    /// The numbers of the first and the last file, and the bytes of all if they are full.
    Span(u64, u64, usize),
}

/// A file that exists before the queue is opened, how many files are kept for reuse, the steps,
/// and the files afterwards with their lengths.
pub(crate) struct Case {
    found: Option<&'static str>,
    capacity: usize,
    steps: &'static [Step],
    files: &'static [(&'static str, usize)],
}

pub(crate) static ROWS: [Tried; 3] = [
    // Three files.
    Tried::Queue(&Case {
        found: None,
        capacity: 0,
        steps: &[
            Step::Span(1, 1, 1024),
            Step::Append(1024, 1, 69),
            Step::Append(1024, 2, 69),
            Step::Rotate,
            Step::Span(1, 3, 3072),
            Step::Append(13, 3, 69),
            Step::Append(13, 3, 82),
            Step::Read(1, 69, 1024, 1024),
            Step::Read(2, 69, 1024, 1024),
            Step::Read(3, 82, 13, 13),
            Step::Read(12, 69, 13, 0),
        ],
        files: &[
            ("data/0000000000000001.raftlog", 1093),
            ("data/0000000000000002.raftlog", 1093),
            ("data/0000000000000003.raftlog", 95),
        ],
    }),
    // The first files are deleted.
    Tried::Queue(&Case {
        found: None,
        capacity: 0,
        steps: &[
            Step::Append(1024, 1, 69),
            Step::Append(1024, 2, 69),
            Step::Rotate,
            Step::Purge(4, Err(14)),
            Step::Purge(2, Ok(1)),
            Step::Span(2, 3, 2048),
            Step::Purge(1, Err(14)),
            Step::Purge(2, Ok(0)),
            Step::Append(13, 3, 69),
            Step::Read(1, 69, 1024, 0),
            Step::Read(2, 69, 1024, 1024),
        ],
        files: &[
            ("data/0000000000000002.raftlog", 1093),
            ("data/0000000000000003.raftlog", 82),
        ],
    }),
    // No number after the last one.
    Tried::Queue(&Case {
        found: Some("data/9999999999999999.raftlog"),
        capacity: 0,
        steps: &[
            Step::RotateRefused(6),
            Step::Append(1024, 9_999_999_999_999_999, 69),
            Step::RotateRefused(6),
            Step::Span(9_999_999_999_999_999, 9_999_999_999_999_999, 1024),
            Step::Read(9_999_999_999_999_999, 69, 1024, 1024),
        ],
        files: &[("data/9999999999999999.raftlog", 1093)],
    }),
];

/// Each file holds one record, since it is full with its header. Eleven files are dropped, and ten
/// of them are reused, in order.
pub(crate) static USED_AGAIN: [Tried; 1] = [ // Files are used again.
    Tried::Queue(&Case {
        found: None,
        capacity: 1000,
        steps: &[
            Step::Span(1, 1, 1024),
            Step::Ten(Each::Put(0, 2)),
            Step::Rotate,
            Step::Span(1, 12, 12_288),
            Step::Purge(0, Err(14)),
            Step::Purge(13, Err(14)),
            Step::Purge(12, Ok(11)),
            Step::Ten(Each::Gone(2)),
            Step::Ten(Each::Put(1, 13)),
            Step::Ten(Each::Read(1, 13)),
            Step::Span(12, 22, 11_264),
        ],
        files: &[
            ("data/0000000000000001.raftlog.reserved", 85),
            ("data/0000000000000012.raftlog", 69),
            ("data/0000000000000013.raftlog", 85),
            ("data/0000000000000014.raftlog", 85),
            ("data/0000000000000015.raftlog", 85),
            ("data/0000000000000016.raftlog", 85),
            ("data/0000000000000017.raftlog", 85),
            ("data/0000000000000018.raftlog", 85),
            ("data/0000000000000019.raftlog", 85),
            ("data/0000000000000020.raftlog", 85),
            ("data/0000000000000021.raftlog", 85),
            ("data/0000000000000022.raftlog", 85),
        ],
    }),
];

/// Takes batches and keeps none.
#[derive(Drop)]
struct NoMachine {}

impl ReplayMachine for NoMachine {
    ghost stands_for = { λ queue blocks earlier machine batches. Unit {0} };

    fn replay(&mut self, _items: &mut Vec<LogItem>, _file: FileId) -> Result<(), Fault> {
        Ok(())
    }
}

// The pipe of the Append queue over the existing files.
fn opened<F: FileSystem>(alloc: Global, fs: &mut F, capacity: usize) -> Result<SinglePipe<F>, Fault>
    ensures stands { IfOk result (λ pipe. IsPipeOf pipe (F.directory fs.new)) }
{
    let config = settings(alloc, None)?;
    let folders = LogFolders::new(&config)?;
    folders.make(alloc, fs)?;
    let queue = LogQueue::Append;
    let files = folders.find(alloc, queue, fs)?;
    let mode = config.recovery_mode;
    let replayed = read_files(alloc, queue, &files, mode, 512, fs, &mut NoMachine {})?;
    let wanted = NewPipe {
        queue,
        folders,
        version: config.format_version,
        spare: Vec::new(alloc),
        capacity,
        target_size: 0,
    };
    settle_or_begin(alloc, wanted, files, replayed, fs)
}

// Whether bytes are appended at this place, after a rotation if the last file is full.
fn appends<F: FileSystem>(
    alloc: Global,
    fs: &mut F,
    pipe: &mut SinglePipe<F>,
    written: &Written,
    wanted: FileBlockHandle,
) -> bool
    requires { IsPipeOf pipe.old (F.directory fs.old) }
    ensures stands { result ≡ true → IsPipeOf pipe.new (F.directory fs.new) }
{
    let Ok(bytes) = vec![in alloc; written.byte; written.len] else {
        return false;
    };
    match pipe.rotate_if_full(fs, written.target) {
        Ok(()) => {}
        Err(_) => return false,
    }
    match pipe.append(fs, &bytes, written.target, written.sync) {
        Ok(handle) => handle == wanted,
        Err(_) => false,
    }
}

// Whether a read of a block returns this number of bytes, all with the value that was appended.
fn reads<F: FileSystem>(
    alloc: Global,
    fs: &mut F,
    pipe: &SinglePipe<F>,
    block: FileBlockHandle,
    wanted: usize,
) -> bool
    ensures unchanged { F.directory fs.new ≡ F.directory fs.old }
{
    let mut bytes = Vec::new(alloc);
    let is_read = pipe.read_block_to(fs, Some(block), &mut bytes).is_ok();
    is_read && bytes.len() == wanted && are_all(&bytes, 7)
}

// Whether exactly 16 bytes are read, all with this value.
fn reads_all<F: FileSystem>(
    alloc: Global,
    fs: &mut F,
    pipe: &SinglePipe<F>,
    seq: u64,
    byte: u8,
) -> bool
    ensures unchanged { F.directory fs.new ≡ F.directory fs.old }
{
    let mut bytes = Vec::new(alloc);
    let is_read = pipe.read_bytes(fs, first_block(seq), &mut bytes).is_ok();
    is_read && bytes.len() == 16 && are_all(&bytes, byte)
}

fn is_gone<F: FileSystem>(alloc: Global, fs: &mut F, pipe: &SinglePipe<F>, seq: u64) -> bool
    ensures unchanged { F.directory fs.new ≡ F.directory fs.old }
{
    match pipe.read_bytes(fs, first_block(seq), &mut Vec::new(alloc)) {
        Ok(()) => false,
        Err(fault) => fault.code() == 14,
    }
}

fn block(seq: u64, offset: u64, len: usize) -> FileBlockHandle {
    FileBlockHandle {
        id: FileId::new(LogQueue::Append, seq),
        offset,
        len,
    }
}

fn first_block(seq: u64) -> FileBlockHandle {
    block(seq, 69, 16)
}

// Whether the nth of the ten ends as it says.
fn nth_holds<F: FileSystem>(
    alloc: Global,
    fs: &mut F,
    pipe: &mut SinglePipe<F>,
    each: &Each,
    nth: u8,
) -> bool
    requires { IsPipeOf pipe.old (F.directory fs.old) }
    ensures stands { result ≡ true → IsPipeOf pipe.new (F.directory fs.new) }
{
    match each {
        Each::Put(byte, seq) => {
            let written = Written {
                byte: byte.saturating_add(nth),
                len: 16,
                target: ALWAYS_FULL,
                sync: true,
            };
            let wanted = first_block(seq.saturating_add(u64::from(nth)));
            appends(alloc, fs, pipe, &written, wanted)
        }
        Each::Read(byte, seq) => {
            let (byte, seq) = (byte.saturating_add(nth), seq.saturating_add(u64::from(nth)));
            reads_all(alloc, fs, pipe, seq, byte)
        }
        Each::Gone(seq) => is_gone(alloc, fs, pipe, seq.saturating_add(u64::from(nth))),
    }
}

// Whether all ten end as they say.
fn ten_hold<F: FileSystem>(alloc: Global, fs: &mut F, pipe: &mut SinglePipe<F>, each: &Each) -> bool
    requires { IsPipeOf pipe.old (F.directory fs.old) }
    ensures stands { result ≡ true → IsPipeOf pipe.new (F.directory fs.new) }
{
    for nth in 0..10u8 {
        if !nth_holds(alloc, fs, pipe, each, nth) {
            return false;
        }
    }
    true
}

// Whether the step ends as it says.
fn holds<F: FileSystem>(alloc: Global, fs: &mut F, pipe: &mut SinglePipe<F>, step: &Step) -> bool
    requires { IsPipeOf pipe.old (F.directory fs.old) }
    ensures stands { result ≡ true → IsPipeOf pipe.new (F.directory fs.new) }
{
    match step {
        Step::Append(len, seq, offset) => {
            let written = Written {
                byte: 7,
                len: *len,
                target: TARGET,
                sync: false,
            };
            appends(alloc, fs, pipe, &written, block(*seq, *offset, *len))
        }
        Step::Ten(each) => ten_hold(alloc, fs, pipe, each),
        Step::Rotate => match pipe.rotate(fs) {
            Ok(()) => true,
            Err(_) => false,
        },
        Step::RotateRefused(code) => match pipe.rotate(fs) {
            Err(RotationFault::NotBegun(fault)) => fault.code() == *code,
            _ => false,
        },
        Step::Read(seq, offset, len, wanted) => {
            reads(alloc, fs, pipe, block(*seq, *offset, *len), *wanted)
        }
        Step::Purge(seq, wanted) => match (pipe.purge_to(fs, *seq), wanted) {
            (Ok(count), Ok(wanted)) => count == *wanted,
            (Err(fault), Err(code)) => fault.code() == *code,
            _ => false,
        },
        Step::Span(first, last, size) => {
            pipe.file_span() == (*first, *last) && pipe.total_size(TARGET) == *size
        }
    }
}

fn all_hold<F: FileSystem>(
    alloc: Global,
    fs: &mut F,
    pipe: &mut SinglePipe<F>,
    steps: &[Step],
) -> bool
    requires { IsPipeOf pipe.old (F.directory fs.old) }
    ensures stands { result ≡ true → IsPipeOf pipe.new (F.directory fs.new) }
{
    for step in steps {
        if !holds(alloc, fs, pipe, step) {
            return false;
        }
    }
    true
}

// Whether each step ends as it says, and the pipe is closed afterwards.
fn are_taken<F: FileSystem>(alloc: Global, fs: &mut F, case: &Case) -> bool {
    match opened(alloc, fs, case.capacity) {
        Ok(mut pipe) => all_hold(alloc, fs, &mut pipe, case.steps) && pipe.close(fs).is_ok(),
        Err(_) => false,
    }
}

pub(crate) fn is_as_said<F: Failing>(alloc: Global, case: &Case) -> bool {
    let mut fs = F::fresh(alloc);
    let is_stored = match case.found {
        Some(path) => stores(&mut fs, path, &[HEADER]),
        None => true,
    };
    is_stored && are_taken(alloc, &mut fs, case) && stand_alone(&mut fs, None, case.files)
}
