//! What a check reports of a file, and what an opening would do with the files of a queue.

use crate::in_memory::Tried;
use raft_config::RecoveryMode;
use raft_dump::{FileCheck, LogFile, Planned, check_file, log_files, passed_over, plan_opening};
use raft_env::FileSystem;
use raft_records::Fault;
use raft_rows::{FileParts, HEADER, NOTHING, PUT, PUTS, ZEROS, fill};
use std::alloc::Global;

/// The number of whole records, the place where reading ends, the file's length, whether the rest
/// is zeros, and the code of the fault that ends the reading.
struct Found(usize, usize, usize, bool, Option<u8>);

pub(crate) struct Case {
    parts: &'static [FileParts],
    found: Found,
}

pub(crate) static CASES: [Tried; 7] = [
    Tried::Check(&Case {
        parts: &[("a/0000000000000001.raftlog", &[HEADER, PUT, NOTHING, PUTS])],
        found: Found(3, 144, 144, true, None),
    }),
    Tried::Check(&Case {
        parts: &[("a/0000000000000001.raftlog", &[HEADER])],
        found: Found(0, 61, 61, true, None),
    }),
    // Room allocated ahead, and damage in it.
    Tried::Check(&Case {
        parts: &[("a/0000000000000001.raftlog", &[HEADER, PUT, ZEROS])],
        found: Found(1, 89, 189, true, Some(2)),
    }),
    Tried::Check(&Case {
        parts: &[("a/0000000000000001.raftlog", &[HEADER, PUT, ZEROS, b"x"])],
        found: Found(1, 89, 190, false, Some(2)),
    }),
    // Records after a broken one aren't read.
    Tried::Check(&Case {
        parts: &[("a/0000000000000001.raftlog", &[HEADER, PUT, b"torn", PUT])],
        found: Found(1, 89, 121, false, Some(2)),
    }),
    Tried::Check(&Case {
        parts: &[("a/0000000000000001.raftlog", &[])],
        found: Found(0, 0, 0, true, Some(2)),
    }),
    Tried::Check(&Case {
        parts: &[("a/0000000000000001.raftlog", &[ZEROS, ZEROS])],
        found: Found(0, 0, 200, true, Some(2)),
    }),
];

fn is_found(check: &FileCheck, found: &Found) -> bool {
    let stop = match &check.stop {
        Some(fault) => Some(fault.code()),
        None => None,
    };
    check.records == found.0
        && check.end == found.1
        && check.len == found.2
        && check.zeros == found.3
        && stop == found.4
        && check.format.is_some() == (check.end > 0)
}

/// The log files in a folder.
pub(crate) fn files_in<F: FileSystem>(
    alloc: Global,
    fs: &mut F,
    folder: &str,
) -> Result<Vec<LogFile>, Fault> {
    match fs.list(folder) {
        Ok(names) => log_files(alloc, folder, &names),
        Err(fault) => Err(fault.with_path(alloc, folder)),
    }
}

// Checks all log files in the folder `a`.
fn checks_of<F: FileSystem>(alloc: Global, fs: &mut F) -> Result<Vec<FileCheck>, Fault> {
    let mut checks = Vec::new(alloc);
    for file in &files_in(alloc, fs, "a")? {
        checks.push(check_file(alloc, file, fs)?)?;
    }
    Ok(checks)
}

/// Whether a check of the file finds what the case says.
pub(crate) fn is_checked<F: FileSystem>(fs: &mut F, alloc: Global, case: &Case) -> bool {
    if fill(fs, alloc, case.parts).is_err() {
        return false;
    }
    match checks_of(alloc, fs) {
        Ok(checks) => is_one(&checks, &case.found),
        Err(_) => false,
    }
}

fn is_one(checks: &[FileCheck], found: &Found) -> bool {
    match checks {
        [check] => is_found(check, found),
        _ => false,
    }
}

/// Files of a queue with a missing number. Two of those after it have a broken end.
static QUEUE: [FileParts; 4] = [
    ("a/0000000000000001.raftlog", &[HEADER]),
    ("a/0000000000000003.raftlog", &[HEADER, PUT, b"torn"]),
    ("a/0000000000000004.raftlog", &[HEADER, PUTS]),
    ("a/0000000000000005.raftlog", &[HEADER, PUT, ZEROS]),
];

const FAIL: Planned = Planned::Fail;

const KEEP: Planned = Planned::Keep;

const CUT: Planned = Planned::Cut(89);

/// A mode, and what an opening in it does with the files after the missing number.
pub(crate) type Plan = (RecoveryMode, &'static [Planned]);

pub(crate) static PLANS: [Tried; 3] = [
    Tried::Plan(&(RecoveryMode::AbsoluteConsistency, &[FAIL, KEEP, FAIL])),
    Tried::Plan(&(RecoveryMode::TolerateTailCorruption, &[FAIL, KEEP, CUT])),
    Tried::Plan(&(RecoveryMode::TolerateAnyCorruption, &[CUT, KEEP, CUT])),
];

/// Whether an opening in this mode is planned so.
pub(crate) fn is_planned<F: FileSystem>(fs: &mut F, alloc: Global, plan: &Plan) -> bool {
    if fill(fs, alloc, &QUEUE).is_err() {
        return false;
    }
    match checks_of(alloc, fs) {
        Ok(checks) => is_plan(alloc, &checks, plan),
        Err(_) => false,
    }
}

// Whether one file is passed over, and the rest is planned so.
fn is_plan(alloc: Global, checks: &[FileCheck], plan: &Plan) -> bool {
    let (mode, planned) = plan;
    let passed = passed_over(checks);
    let Some(kept) = checks.get(passed..) else {
        return false;
    };
    match plan_opening(alloc, *mode, kept) {
        Ok(plan) => passed == 1 && plan.as_slice() == *planned,
        Err(_) => false,
    }
}
