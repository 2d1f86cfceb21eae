//! What dumps of folders and files return.

use crate::checks::files_in;
use crate::in_memory::Tried;
use raft_dump::{LogFile, LogItemReader, RecordPlace, dump_with_file_system};
use raft_env::FileSystem;
use raft_records::{Fault, LogItem, LogQueue};
use raft_rows::{FileParts, HEADER, NOTHING, PUT, PUTS, ZEROS, fill};
use std::alloc::Global;

const APPEND: LogQueue = LogQueue::Append;

const REWRITE: LogQueue = LogQueue::Rewrite;

/// The queue, the file's number, the offset of the record, and the item's group or a fault's code.
struct Answer(LogQueue, u64, usize, Result<u64, u8>);

pub(crate) struct Case {
    files: &'static [FileParts],
    /// One path is a file or a folder. Several are folders, and all of their files are read
    /// together.
    paths: &'static [&'static str],
    answers: &'static [Answer],
}

pub(crate) static CASES: [Tried; 8] = [
    // A dump fails at an empty file, and returns nothing for a file that has only a header.
    Tried::Dump(&Case {
        files: &[
            ("a/0000000000000001.raftlog", &[]),
            ("a/0000000000000001.rewrite", &[HEADER]),
        ],
        paths: &["a"],
        answers: &[Answer(APPEND, 1, 0, Err(2))],
    }),
    // The Rewrite queue's files come first, and each queue's in order of numbers. Other files are
    // ignored.
    Tried::Dump(&Case {
        files: &[
            ("a/0000000000000002.raftlog", &[HEADER, PUT]),
            ("a/0000000000000001.raftlog", &[HEADER, NOTHING, PUTS]),
            ("a/0000000000000003.rewrite", &[HEADER, PUT, PUT]),
            ("a/LOCK", &[]),
            ("b/0000000000000004.raftlog", &[HEADER, PUT]),
        ],
        paths: &["a"],
        answers: &[
            Answer(REWRITE, 3, 61, Ok(1)),
            Answer(REWRITE, 3, 89, Ok(1)),
            Answer(APPEND, 1, 82, Ok(2)),
            Answer(APPEND, 1, 82, Ok(3)),
            Answer(APPEND, 2, 61, Ok(1)),
        ],
    }),
    // The files of two folders, also if both have a file of one number.
    Tried::Dump(&Case {
        files: &[
            ("a/0000000000000001.raftlog", &[HEADER, PUT]),
            ("b/0000000000000001.raftlog", &[HEADER, PUTS]),
            ("b/0000000000000001.rewrite", &[HEADER, PUT]),
        ],
        paths: &["a", "b"],
        answers: &[
            Answer(APPEND, 1, 61, Ok(1)),
            Answer(REWRITE, 1, 61, Ok(1)),
            Answer(APPEND, 1, 61, Ok(2)),
            Answer(APPEND, 1, 61, Ok(3)),
        ],
    }),
    // Zeros after the last record, which a killed writer leaves, are one broken record.
    Tried::Dump(&Case {
        files: &[("a/0000000000000001.raftlog", &[HEADER, PUT, ZEROS])],
        paths: &["a/0000000000000001.raftlog"],
        answers: &[Answer(APPEND, 1, 61, Ok(1)), Answer(APPEND, 1, 89, Err(2))],
    }),
    // A dump continues after a broken file.
    Tried::Dump(&Case {
        files: &[
            ("a/0000000000000001.raftlog", &[HEADER, PUT, b"torn"]),
            ("a/0000000000000002.raftlog", &[b"no header"]),
            ("a/0000000000000003.raftlog", &[HEADER, NOTHING]),
            ("a/0000000000000004.raftlog", &[HEADER, PUTS]),
        ],
        paths: &["a"],
        answers: &[
            Answer(APPEND, 1, 61, Ok(1)),
            Answer(APPEND, 1, 89, Err(2)),
            Answer(APPEND, 2, 0, Err(2)),
            Answer(APPEND, 4, 61, Ok(2)),
            Answer(APPEND, 4, 61, Ok(3)),
        ],
    }),
    // An empty folder has no items.
    Tried::Dump(&Case {
        files: &[],
        paths: &["b"],
        answers: &[],
    }),
    // A file without records has no items, nor has one with only an empty record.
    Tried::Dump(&Case {
        files: &[("b/0000000000000007.rewrite", &[HEADER, NOTHING])],
        paths: &["b/0000000000000007.rewrite"],
        answers: &[],
    }),
    Tried::Dump(&Case {
        files: &[("b/0000000000000007.rewrite", &[HEADER])],
        paths: &["b/0000000000000007.rewrite"],
        answers: &[],
    }),
];

// The log files in these folders, one folder after the other.
fn files_of<F: FileSystem>(
    alloc: Global,
    fs: &mut F,
    folders: &'static [&'static str],
) -> Result<Vec<LogFile>, Fault> {
    let mut files = Vec::new(alloc);
    for folder in folders {
        let mut more = files_in(alloc, fs, folder)?;
        files.append(&mut more)?;
    }
    Ok(files)
}

fn reader_of<F: FileSystem>(
    alloc: Global,
    fs: &mut F,
    paths: &'static [&'static str],
) -> Result<LogItemReader<F>, Fault> {
    match paths {
        [path] => dump_with_file_system(alloc, path, fs),
        folders => Ok(LogItemReader::new(alloc, files_of(alloc, fs, folders)?)),
    }
}

fn is_answer(given: Result<LogItem, Fault>, place: Option<RecordPlace>, answer: &Answer) -> bool {
    let Some(RecordPlace { id, offset }) = place else {
        return false;
    };
    let told = match given {
        Ok(item) => Ok(item.raft_group_id),
        Err(fault) => Err(fault.code()),
    };
    id.queue == answer.0 && id.seq == answer.1 && offset == answer.2 && told == answer.3
}

// Whether exactly these items are returned, and then `None`, also at a second call.
fn gives<F: FileSystem>(
    fs: &mut F,
    items: &mut LogItemReader<F>,
    answers: &'static [Answer],
) -> bool {
    for answer in answers {
        let Some(given) = items.next(fs) else {
            return false;
        };
        if !is_answer(given, items.place(), answer) {
            return false;
        }
    }
    items.next(fs).is_none() && items.next(fs).is_none()
}

/// Whether a dump returns what the case says.
pub(crate) fn is_dumped<F: FileSystem>(fs: &mut F, alloc: Global, case: &Case) -> bool {
    if fill(fs, alloc, case.files).is_err() {
        return false;
    }
    match reader_of(alloc, fs, case.paths) {
        Ok(mut items) => {
            let held = gives(fs, &mut items, case.answers);
            drop(items);
            held
        }
        Err(_) => false,
    }
}

/// Paths at which no dump can begin, in a place with two folders and a file `a/LOCK`.
pub(crate) static REFUSED: [Tried; 4] = [
    Tried::NoDump("c"),
    Tried::NoDump("a/LOCK"),
    Tried::NoDump("a/0000000000000001.raftlog"),
    Tried::NoDump("a/0000000000000001.raftlog.reserved"),
];

/// Whether a dump of the path is refused.
pub(crate) fn is_refused<F: FileSystem>(fs: &mut F, alloc: Global, path: &str) -> bool {
    if fill(fs, alloc, &[("a/LOCK", &[])]).is_err() {
        return false;
    }
    match dump_with_file_system(alloc, path, fs) {
        Ok(items) => {
            drop(items);
            false
        }
        Err(fault) => fault.code() == 1,
    }
}
