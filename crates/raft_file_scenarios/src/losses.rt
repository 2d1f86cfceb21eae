//! What `Losses` reports before an opening: what the opening would cut off and pass over.

use crate::in_memory::Tried;
use raft_config::{Config, RecoveryMode};
use raft_env::FileSystem;
use raft_inspect::{Cut, Losses, Passed, QueueFiles, Unexplained, inspect};
use raft_records::{Fault, Fresh, LogQueue};
use raft_rows::{FileParts, HEADER, PUT, PUTS, ZEROS, fill};
use std::alloc::Global;

/// A path, the offset and the number of the bytes that are cut off, and why they can't be only an
/// unsynced tail.
struct WantedCut(&'static str, usize, usize, Option<Unexplained>);

/// Files, a mode, whether the opening fails, the bytes that it cuts off, and the files that it
/// passes over.
pub(crate) struct Case(
    &'static [FileParts],
    RecoveryMode,
    bool,
    &'static [WantedCut],
    &'static [Passed],
);

const ABSOLUTE: RecoveryMode = RecoveryMode::AbsoluteConsistency;

const TAIL: RecoveryMode = RecoveryMode::TolerateTailCorruption;

const ANY: RecoveryMode = RecoveryMode::TolerateAnyCorruption;

const FIRST: &str = "a/0000000000000001.raftlog";

const SECOND: &str = "b/0000000000000002.raftlog";

const TORN: &[u8] = b"torn";

/// The last Append file has room allocated ahead, and the last Rewrite file is empty.
const WHOLE: &[FileParts] = &[
    (FIRST, &[HEADER, PUT, PUTS]),
    (SECOND, &[HEADER, PUT, ZEROS]),
    ("a/0000000000000004.rewrite", &[HEADER, PUT]),
    ("a/0000000000000005.rewrite", &[]),
    ("a/notes", &[TORN]),
];

const TORN_END: &[FileParts] = &[
    (FIRST, &[HEADER, PUT]),
    (SECOND, &[HEADER, PUT, TORN]),
    ("a/0000000000000004.rewrite", &[HEADER, PUT, PUTS, TORN]),
];

const TORN_FRONT: &[FileParts] = &[(FIRST, &[HEADER, PUT, TORN]), (SECOND, &[HEADER, PUT])];

/// A whole record after torn bytes.
const TORN_MIDDLE: &[FileParts] = &[(FIRST, &[HEADER, PUT, TORN, PUT])];

/// The file of number 2 is missing.
const GAP: &[FileParts] = &[
    (FIRST, &[HEADER, PUT]),
    ("a/0000000000000003.raftlog", &[HEADER, PUT]),
];

/// The same, and file 1 holds nothing.
const EMPTY_GAP: &[FileParts] = &[
    (FIRST, &[HEADER, ZEROS]),
    ("a/0000000000000003.raftlog", &[HEADER, PUT]),
];

/// Both folders have a file of number 1.
const DOUBLED: &[FileParts] = &[
    (FIRST, &[HEADER, PUT]),
    ("b/0000000000000001.raftlog", &[HEADER, PUT, TORN]),
];

/// Names that are no log files, or aren't spelled as a log spells them.
const STRANGE: &[FileParts] = &[
    (FIRST, &[HEADER, PUT]),
    ("a/3.raftlog", &[HEADER, PUT]),
    ("a/0000000000000004.raftlog.old", &[HEADER, PUT]),
];

const PASSED: Passed = Passed {
    queue: LogQueue::Append,
    files: 1,
    bytes: 89,
    first: 1,
    last: 1,
    missing: 2,
};

const END: WantedCut = WantedCut(SECOND, 89, 4, None);

const REWRITE_END: WantedCut = WantedCut("a/0000000000000004.rewrite", 123, 4, None);

const EARLIER: WantedCut = WantedCut(FIRST, 89, 4, Some(Unexplained::Earlier));

const RECORDS: WantedCut = WantedCut(FIRST, 89, 32, Some(Unexplained::Records));

pub(crate) static CASES: [Tried; 13] = [
    Tried::Losses(&Case(WHOLE, TAIL, false, &[], &[])),
    Tried::Losses(&Case(WHOLE, ABSOLUTE, true, &[], &[])),
    Tried::Losses(&Case(TORN_END, ABSOLUTE, true, &[], &[])),
    Tried::Losses(&Case(TORN_END, TAIL, false, &[REWRITE_END, END], &[])),
    Tried::Losses(&Case(TORN_END, ANY, false, &[REWRITE_END, END], &[])),
    Tried::Losses(&Case(TORN_FRONT, TAIL, true, &[], &[])),
    Tried::Losses(&Case(TORN_FRONT, ANY, false, &[EARLIER], &[])),
    Tried::Losses(&Case(TORN_MIDDLE, TAIL, false, &[RECORDS], &[])),
    Tried::Losses(&Case(GAP, TAIL, false, &[], &[PASSED])),
    Tried::Losses(&Case(GAP, ABSOLUTE, false, &[], &[PASSED])),
    Tried::Losses(&Case(EMPTY_GAP, TAIL, false, &[], &[])),
    Tried::Losses(&Case(DOUBLED, ANY, true, &[], &[PASSED])),
    Tried::Losses(&Case(STRANGE, ABSOLUTE, false, &[], &[])),
];

/// A last file without a header, since there was no space for it.
const NO_HEADER: &[FileParts] = &[(FIRST, &[HEADER, PUT]), (SECOND, &[ZEROS])];

/// Files, a queue, and its last file if that holds nothing and an earlier file exists.
pub(crate) struct EmptyLast(&'static [FileParts], LogQueue, Option<&'static str>);

pub(crate) static EMPTY_LASTS: [Tried; 5] = [
    Tried::EmptyLast(&EmptyLast(WHOLE, LogQueue::Rewrite, Some("a/0000000000000005.rewrite"))),
    Tried::EmptyLast(&EmptyLast(WHOLE, LogQueue::Append, None)),
    Tried::EmptyLast(&EmptyLast(NO_HEADER, LogQueue::Append, Some(SECOND))),
    Tried::EmptyLast(&EmptyLast(TORN_END, LogQueue::Append, None)),
    Tried::EmptyLast(&EmptyLast(&[(FIRST, &[ZEROS])], LogQueue::Append, None)),
];

fn settings(alloc: Global, mode: RecoveryMode) -> Result<Config, Fault> {
    let mut config = Config::fresh(alloc);
    config.dir = String::from_str(alloc, "a")?;
    config.spill_dir = Some(String::from_str(alloc, "b")?);
    config.recovery_mode = mode;
    Ok(config)
}

fn is_wanted<F: FileSystem>(fs: &mut F, alloc: Global, cut: &Cut, wanted: &WantedCut) -> bool {
    let WantedCut(path, offset, len, unexplained) = wanted;
    let Ok(bytes) = cut.bytes(alloc, fs) else {
        return false;
    };
    let Ok(why) = cut.unexplained(alloc, &bytes) else {
        return false;
    };
    cut.path.as_str() == *path
        && cut.offset == *offset
        && cut.len == *len
        && bytes.len() == *len
        && why == *unexplained
}

fn are_wanted<F: FileSystem>(
    fs: &mut F,
    alloc: Global,
    cuts: &[Cut],
    wanted: &[WantedCut],
) -> bool {
    for (cut, wanted) in cuts.iter().zip(wanted) {
        if !is_wanted(fs, alloc, cut, wanted) {
            return false;
        }
    }
    cuts.len() == wanted.len()
}

fn found<F: FileSystem>(fs: &mut F, alloc: Global, mode: RecoveryMode) -> Result<Losses, Fault> {
    Losses::find(alloc, &settings(alloc, mode)?, fs)
}

/// Whether the report is the case's.
pub(crate) fn is_told<F: FileSystem>(fs: &mut F, alloc: Global, case: &Case) -> bool {
    let Case(files, mode, fails, cuts, passed) = case;
    if fill(fs, alloc, files).is_err() {
        return false;
    }
    match found(fs, alloc, *mode) {
        Ok(losses) => {
            losses.fails == *fails
                && losses.passed.as_slice() == *passed
                && are_wanted(fs, alloc, &losses.cuts, cuts)
        }
        Err(_) => false,
    }
}

fn is_empty_last(found: &QueueFiles, wanted: Option<&'static str>) -> bool {
    match (found.empty_last(), wanted) {
        (Some(path), Some(wanted)) => path == wanted,
        (None, None) => true,
        _ => false,
    }
}

/// Whether the last file is reported if it holds nothing, and otherwise none.
pub(crate) fn is_last<F: FileSystem>(fs: &mut F, alloc: Global, row: &EmptyLast) -> bool {
    let EmptyLast(files, queue, wanted) = row;
    if fill(fs, alloc, files).is_err() {
        return false;
    }
    match inspect(alloc, fs, &["a", "b"], *queue) {
        Ok(found) => is_empty_last(&found, *wanted),
        Err(_) => false,
    }
}

/// Whether nothing is reported if no folder exists.
pub(crate) fn loses_nothing<F: FileSystem>(fs: &mut F, alloc: Global) -> bool {
    match found(fs, alloc, TAIL) {
        Ok(losses) => !losses.fails && losses.cuts.is_empty() && losses.passed.is_empty(),
        Err(_) => false,
    }
}
