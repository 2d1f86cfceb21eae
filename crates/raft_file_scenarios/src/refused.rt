//! Dumps in which one call on the files fails: the dump still returns the rest.

use crate::failing::Failing;
use crate::in_memory::Tried;
use raft_dump::{LogItemReader, dump_with_file_system};
use raft_env::{FileSystem, IoKind};
use raft_memory::{FsCall, MemoryFileSystem};
use raft_records::{Fault, LogItem};
use raft_rows::{FileParts, HEADER, PUT, PUTS, fill};
use std::alloc::{AllocError, Global};
use std::test::Fail;

const FILES: &[FileParts] = &[
    ("a/0000000000000001.raftlog", &[HEADER, PUTS]),
    ("a/0000000000000002.raftlog", &[HEADER, PUT]),
    ("a/0000000000000001.rewrite", &[HEADER, PUT]),
];

/// The groups of all items, file by file.
const WHOLE: &[u64] = &[1, 2, 3, 1];

/// In place of a group: a failed call.
const FAILED: u64 = 0;

/// The items if a call on the first, second or third file fails.
static WITHOUT: [&[u64]; 3] = [&[FAILED, 2, 3, 1], &[1, FAILED, 1], &[1, 2, 3, FAILED]];

/// A sort of calls, the least number of them in a dump of three files, and the kind of fault with
/// which one fails.
pub(crate) struct Sort(FsCall, u64, IoKind);

pub(crate) static SORTS: [Tried; 15] = [
    Tried::RefusedDump(&Sort(FsCall::List, 1, IoKind::NoSpace)),
    Tried::RefusedDump(&Sort(FsCall::List, 1, IoKind::NotFound)),
    Tried::RefusedDump(&Sort(FsCall::List, 1, IoKind::Other)),
    Tried::RefusedDump(&Sort(FsCall::Open, 3, IoKind::NoSpace)),
    Tried::RefusedDump(&Sort(FsCall::Open, 3, IoKind::NotFound)),
    Tried::RefusedDump(&Sort(FsCall::Open, 3, IoKind::Other)),
    Tried::RefusedDump(&Sort(FsCall::NewReader, 3, IoKind::NoSpace)),
    Tried::RefusedDump(&Sort(FsCall::NewReader, 3, IoKind::NotFound)),
    Tried::RefusedDump(&Sort(FsCall::NewReader, 3, IoKind::Other)),
    Tried::RefusedDump(&Sort(FsCall::FileSize, 3, IoKind::NoSpace)),
    Tried::RefusedDump(&Sort(FsCall::FileSize, 3, IoKind::NotFound)),
    Tried::RefusedDump(&Sort(FsCall::FileSize, 3, IoKind::Other)),
    Tried::RefusedDump(&Sort(FsCall::Read, 3, IoKind::NoSpace)),
    Tried::RefusedDump(&Sort(FsCall::Read, 3, IoKind::NotFound)),
    Tried::RefusedDump(&Sort(FsCall::Read, 3, IoKind::Other)),
];

/// More calls of one sort than a dump makes.
const MANY: u64 = 50;

/// Why a dump may fail: with this kind of fault, or out of memory.
#[derive(Clone, Copy)]
enum Cause {
    Call(IoKind),
    Memory,
}

fn is_by(fault: &Fault, cause: Cause) -> bool {
    match (fault, cause) {
        (Fault::Io(by, _), Cause::Call(kind)) => *by == kind,
        (Fault::Memory, Cause::Memory) => true,
        _ => false,
    }
}

fn group_of(next: Result<LogItem, Fault>, cause: Cause) -> Option<u64> {
    match next {
        Ok(item) => Some(item.raft_group_id),
        Err(fault) => {
            if is_by(&fault, cause) {
                Some(FAILED)
            } else {
                None
            }
        }
    }
}

// Whether the dump ends, and each failure in it has this reason.
fn ends<F: FileSystem>(
    fs: &mut F,
    items: &mut LogItemReader<F>,
    cause: Cause,
    given: &mut Vec<u64>,
) -> Result<bool, AllocError> {
    for _ in 0..MANY {
        let Some(next) = items.next(fs) else {
            return Ok(true);
        };
        let Some(group) = group_of(next, cause) else {
            return Ok(false);
        };
        given.push(group)?;
    }
    Ok(false)
}

// The groups that a dump of the folder returns; only its failure if it can't begin; `None` if
// something fails for another reason.
fn dumped<F: FileSystem>(
    alloc: Global,
    fs: &mut F,
    cause: Cause,
) -> Result<Option<Vec<u64>>, Fault> {
    match dump_with_file_system(alloc, "a", fs) {
        Ok(mut items) => {
            let mut given = Vec::new(alloc);
            let is_walked = ends(fs, &mut items, cause, &mut given);
            drop(items);
            Ok(if is_walked? { Some(given) } else { None })
        }
        Err(fault) if is_by(&fault, cause) => Ok(Some(vec![in alloc; FAILED]?)),
        Err(_) => Ok(None),
    }
}

fn is_whole(given: &Option<Vec<u64>>) -> bool {
    match given {
        Some(given) => given.as_slice() == WHOLE,
        None => false,
    }
}

// Whether the dump failed at its beginning, or at only one of the files.
fn has_failed_once(given: &[u64]) -> bool {
    for without in &WITHOUT {
        if given == *without {
            return true;
        }
    }
    given == [FAILED].as_slice()
}

fn is_without_one(given: &Option<Vec<u64>>) -> bool {
    match given {
        Some(given) => has_failed_once(given),
        None => false,
    }
}

fn gives_all<F: FileSystem>(alloc: Global, fs: &mut F, cause: Cause) -> bool {
    match dumped(alloc, fs, cause) {
        Ok(given) => is_whole(&given),
        Err(_) => false,
    }
}

// Whether the nth call of the sort was made and failed only for its file, and a second dump
// returns all. `None` if the outcome is another one.
fn fails_at<F: Failing>(alloc: Global, call: FsCall, nth: u64, kind: IoKind) -> Option<bool> {
    let mut fs = F::fresh(alloc);
    if fill(&mut fs, alloc, FILES).is_err() || fs.fail(call, nth, kind).is_err() {
        return None;
    }
    let Ok(given) = dumped(alloc, &mut fs, Cause::Call(kind)) else {
        return None;
    };
    let is_failed = fs.refusals() > 0;
    let is_right = if is_failed {
        is_without_one(&given) && gives_all(alloc, &mut fs, Cause::Call(kind))
    } else {
        is_whole(&given)
    };
    if is_right { Some(is_failed) } else { None }
}

/// Whether each call of the sort fails only for its file, and a dump makes at least the row's
/// number of them.
pub(crate) fn fails_each_time<F: Failing>(alloc: Global, sort: &Sort) -> bool {
    for nth in 1..MANY {
        match fails_at::<F>(alloc, sort.0, nth, sort.2) {
            Some(true) => {}
            Some(false) => return nth > sort.1,
            None => return false,
        }
    }
    false
}

// Whether a dump returns all items. If the Nth request for memory is refused (`rt try --test
// --fail-alloc N`), the dump leaves out one file, and a second dump returns all.
fn is_given<F: Failing>(alloc: Global) -> Result<bool, Fault> {
    let mut fs = F::fresh(alloc);
    fill(&mut fs, alloc, FILES)?;
    let given = dumped(alloc, &mut fs, Cause::Memory)?;
    Ok(
        is_whole(&given)
            || is_without_one(&given) && is_whole(&dumped(alloc, &mut fs, Cause::Memory)?),
    )
}

// tools/refusals reads `error: Memory` as out of memory.
#[test]
fn a_dump_without_memory_goes_on(rt: HostRuntime) -> Result<(), Fail> {
    assert!(rt; is_given::<MemoryFileSystem>(rt.alloc())?);
    Ok(())
}
