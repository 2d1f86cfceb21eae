//! Checks of a folder's entries in which one call on the files fails.

use crate::checks::{APPEND_1, APPEND_2, APPEND_3};
use crate::failing::Failing;
use crate::folders::stores_all;
use crate::tried::Tried;
use raft_consistency::consistency_check_with_file_system;
use raft_env::{FileSystem, IoKind};
use raft_memory::{FsCall, MemoryFileSystem};
use raft_records::Fault;
use raft_rows::FileParts;
use std::alloc::Global;
use std::test::Fail;

const FILES: &[FileParts] = &[APPEND_1, APPEND_2, APPEND_3];

const HOLES: &[(u64, u64)] = &[(2, 1), (7, 3)];

/// A sort of calls, the least number of them in a check of three files, and the kind of fault with
/// which one fails.
pub(crate) struct Sort(FsCall, u64, IoKind);

pub(crate) static SORTS: [Tried; 15] = [
    Tried::RefusedCheck(&Sort(FsCall::List, 1, IoKind::NoSpace)),
    Tried::RefusedCheck(&Sort(FsCall::List, 1, IoKind::NotFound)),
    Tried::RefusedCheck(&Sort(FsCall::List, 1, IoKind::Other)),
    Tried::RefusedCheck(&Sort(FsCall::Open, 3, IoKind::NoSpace)),
    Tried::RefusedCheck(&Sort(FsCall::Open, 3, IoKind::NotFound)),
    Tried::RefusedCheck(&Sort(FsCall::Open, 3, IoKind::Other)),
    Tried::RefusedCheck(&Sort(FsCall::NewReader, 3, IoKind::NoSpace)),
    Tried::RefusedCheck(&Sort(FsCall::NewReader, 3, IoKind::NotFound)),
    Tried::RefusedCheck(&Sort(FsCall::NewReader, 3, IoKind::Other)),
    Tried::RefusedCheck(&Sort(FsCall::FileSize, 3, IoKind::NoSpace)),
    Tried::RefusedCheck(&Sort(FsCall::FileSize, 3, IoKind::NotFound)),
    Tried::RefusedCheck(&Sort(FsCall::FileSize, 3, IoKind::Other)),
    Tried::RefusedCheck(&Sort(FsCall::Read, 3, IoKind::NoSpace)),
    Tried::RefusedCheck(&Sort(FsCall::Read, 3, IoKind::NotFound)),
    Tried::RefusedCheck(&Sort(FsCall::Read, 3, IoKind::Other)),
];

/// More calls of one sort than a check makes.
const MANY: u64 = 50;

// Whether all holes are found, or the check failed with the call's fault, and the files; `None` if
// the outcome is another one.
fn checked<F: FileSystem + Drop>(alloc: Global, fs: F, kind: IoKind) -> (Option<bool>, F) {
    match consistency_check_with_file_system(alloc, "data", fs) {
        Ok((holes, fs)) => (found_all(&holes), fs),
        Err((fault, fs)) => (failed_as(&fault, kind), fs),
    }
}

fn found_all(holes: &[(u64, u64)]) -> Option<bool> {
    if holes == HOLES { Some(true) } else { None }
}

fn failed_as(fault: &Fault, kind: IoKind) -> Option<bool> {
    match fault {
        Fault::Io(by, _) if *by == kind => Some(false),
        _ => None,
    }
}

// Whether the nth call of the sort was made and failed the check, and a second check finds all.
// `None` if the outcome is another one.
fn fails_at<F: Failing>(alloc: Global, call: FsCall, nth: u64, kind: IoKind) -> Option<bool> {
    let mut fs = F::fresh(alloc);
    if !stores_all(&mut fs, FILES) || fs.fail(call, nth, kind).is_err() {
        return None;
    }
    let (found, fs) = checked(alloc, fs, kind);
    let is_failed = fs.refusals() > 0;
    if found != Some(!is_failed) {
        return None;
    }
    if !is_failed {
        return Some(false);
    }
    let (again, _fs) = checked(alloc, fs, kind);
    if again == Some(true) { again } else { None }
}

/// Whether each call of the sort fails the check, a check makes at least the row's number of them,
/// and there is no other outcome.
pub(crate) fn fails_each_time<F: Failing>(alloc: Global, sort: &Sort) -> bool {
    for nth in 1..MANY {
        match fails_at::<F>(alloc, sort.0, nth, sort.2) {
            Some(true) => {}
            Some(false) => return nth > sort.1,
            None => return false,
        }
    }
    false
}

// Whether a check finds all holes. If the Nth request for memory is refused (`rt try --test
// --fail-alloc N`), the check reports that, and a second check finds them.
fn is_found<F: Failing>(alloc: Global) -> Result<bool, Fault> {
    let mut fs = F::fresh(alloc);
    if !stores_all(&mut fs, FILES) {
        return Err(Fault::Memory);
    }
    match consistency_check_with_file_system(alloc, "data", fs) {
        Ok((holes, _fs)) => Ok(holes.as_slice() == HOLES),
        Err((Fault::Memory, fs)) => Ok(checked(alloc, fs, IoKind::Other).0 == Some(true)),
        Err(_) => Ok(false),
    }
}

// tools/refusals reads `error: Memory` as out of memory.
#[test]
fn a_check_without_memory_is_made_again(rt: HostRuntime) -> Result<(), Fail> {
    assert!(rt; is_found::<MemoryFileSystem>(rt.alloc())?);
    Ok(())
}
