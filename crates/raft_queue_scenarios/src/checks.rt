//! Holes in the entries of a folder's log files.

use crate::failing::Failing;
use crate::folders::{HEADER, stores_all};
use crate::tried::Tried;
use raft_consistency::{consistency_check, consistency_check_with_file_system};
use raft_memory::MemoryFileSystem;
use raft_records::Fault;
use raft_rows::FileParts;
use std::alloc::Global;

// Records of entries without bytes, made by Python's struct and zlib.

/// Entries 1..=3 of group 7, in file 1.
const ONE_TO_THREE: &[u8] =
    b"\x00\x00\x00\x00\x00\x00\x1c\x00\x00\x00\x00\x00\x00\x00\x00\x10\x01\x07\x01\x03\x01\x00\x00\x00\x68\x2f\x6f\x58";

/// Entry 6 of group 7, in file 2.
const SIX: &[u8] =
    b"\x00\x00\x00\x00\x00\x00\x1a\x00\x00\x00\x00\x00\x00\x00\x00\x10\x01\x07\x01\x01\x06\x00\xc0\x04\x9a\x27";

/// Entries 1 and 4 of group 2, each in its own item, in file 3.
const ONE_AND_FOUR: &[u8] =
    b"\x00\x00\x00\x00\x00\x00\x1f\x00\x00\x00\x00\x00\x00\x00\x00\x10\x02\x02\x01\x01\x01\x00\x02\x01\x01\x04\x00\x4c\x5c\x6a\xed";

/// Entry 4 of group 7, in file 2.
const FOUR: &[u8] =
    b"\x00\x00\x00\x00\x00\x00\x1a\x00\x00\x00\x00\x00\x00\x00\x00\x10\x01\x07\x01\x01\x04\x00\x42\x66\xac\x15";

/// Entries 1 and 3 of group 7, each in its own item, in file 1.
const ONE_AND_THREE: &[u8] =
    b"\x00\x00\x00\x00\x00\x00\x1f\x00\x00\x00\x00\x00\x00\x00\x00\x10\x02\x07\x01\x01\x01\x00\x07\x01\x01\x03\x00\xbd\x8e\xe2\x8c";

pub(crate) const APPEND_1: FileParts = ("data/0000000000000001.raftlog", &[HEADER, ONE_TO_THREE]);

pub(crate) const APPEND_2: FileParts = ("data/0000000000000002.raftlog", &[HEADER, SIX]);

pub(crate) const APPEND_3: FileParts = ("data/0000000000000003.raftlog", &[HEADER, ONE_AND_FOUR]);

/// Log files, the folder to check, and the groups with holes in it, or the code of the fault with
/// which the check fails.
pub(crate) struct Case {
    stored: &'static [FileParts],
    path: &'static str,
    wanted: Result<&'static [(u64, u64)], u8>,
}

pub(crate) static CASES: [Tried; 7] = [
    // Two groups have a hole.
    Tried::Holes(&Case {
        stored: &[APPEND_1, APPEND_2, APPEND_3],
        path: "data",
        wanted: Ok(&[(2, 1), (7, 3)]),
    }),
    // No hole.
    Tried::Holes(&Case {
        stored: &[APPEND_1, ("data/0000000000000002.raftlog", &[HEADER, FOUR])],
        path: "data",
        wanted: Ok(&[]),
    }),
    // The Rewrite queue's hole comes before the Append queue's.
    Tried::Holes(&Case {
        stored: &[
            APPEND_1,
            APPEND_2,
            ("data/0000000000000001.rewrite", &[HEADER, ONE_AND_THREE]),
        ],
        path: "data",
        wanted: Ok(&[(7, 1)]),
    }),
    // A hole behind broken bytes.
    Tried::Holes(&Case {
        stored: &[
            (
                "data/0000000000000001.raftlog",
                &[HEADER, ONE_TO_THREE, b"\x07"],
            ),
            APPEND_2,
        ],
        path: "data",
        wanted: Ok(&[(7, 3)]),
    }),
    // A file below a missing number is no part of the log.
    Tried::Holes(&Case {
        stored: &[APPEND_1, APPEND_3],
        path: "data",
        wanted: Ok(&[(2, 1)]),
    }),
    // No log file.
    Tried::Holes(&Case {
        stored: &[("data/other", &[HEADER])],
        path: "data",
        wanted: Ok(&[]),
    }),
    // No folder.
    Tried::Holes(&Case {
        stored: &[APPEND_1],
        path: "more",
        wanted: Err(1),
    }),
];

// Whether a check has the wanted result.
fn is_wanted<F: Drop>(
    found: Result<(Vec<(u64, u64)>, F), (Fault, F)>,
    wanted: &Result<&'static [(u64, u64)], u8>,
) -> bool {
    match (found, wanted) {
        (Ok((holes, _files)), Ok(wanted)) => holes.as_slice() == *wanted,
        (Err((fault, _files)), Err(code)) => fault.code() == *code,
        _ => false,
    }
}

pub(crate) fn is_found<F: Failing>(alloc: Global, case: &Case) -> bool {
    let mut files = F::fresh(alloc);
    if !stores_all(&mut files, case.stored) {
        return false;
    }
    let found = consistency_check_with_file_system(alloc, case.path, files);
    is_wanted(found, &case.wanted)
}

/// The same with the check of files in memory.
pub(crate) fn is_found_in_memory(alloc: Global, case: &Case) -> bool {
    let mut files = MemoryFileSystem::new(alloc);
    if !stores_all(&mut files, case.stored) {
        return false;
    }
    let found = consistency_check(alloc, case.path, files);
    is_wanted(found, &case.wanted)
}
