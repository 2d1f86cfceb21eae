//! A reused file whose first bytes were written over: stale records after its own aren't reported
//! as damage.

use crate::in_memory::Tried;
use raft_config::RecoveryMode;
use raft_env::FileSystem;
use raft_inspect::{Lines, Outlook, QueueFiles, add_queue, inspect};
use raft_records::{Fault, LogQueue};
use raft_rows::store_in;
use std::alloc::Global;

const PATH: &str = "log/0000000000000007.raftlog";

/// Headers of versions 1 and 2.
const V1: &[u8] =
    b"RAFT-LOG-FILE-HEADER-9986AB3E47F320B394C8E84916EB0ED5\x00\x00\x00\x00\x00\x00\x00\x01";

const V2: &[u8] = b"RAFT-LOG-FILE-HEADER-9986AB3E47F320B394C8E84916EB0ED5\
    \x00\x00\x00\x00\x00\x00\x00\x02\x00\x00\x00\x00\x00\x00\x00\x00";

/// The record of a put, made by Python. The four constants are signed for file 7, file 3, file 9,
/// and unsigned.
const OWN: &[u8] = b"\x00\x00\x00\x00\x00\x00\x1c\x00\x00\x00\x00\x00\x00\x00\x00\x10\
    \x01\x01\x03\x01\x01\x61\x01\x78\x67\x81\x67\x02";

const OLD: &[u8] = b"\x00\x00\x00\x00\x00\x00\x1c\x00\x00\x00\x00\x00\x00\x00\x00\x10\
    \x01\x01\x03\x01\x01\x61\x01\x78\x63\x81\x67\x02";

const LATER: &[u8] = b"\x00\x00\x00\x00\x00\x00\x1c\x00\x00\x00\x00\x00\x00\x00\x00\x10\
    \x01\x01\x03\x01\x01\x61\x01\x78\x69\x81\x67\x02";

const UNSIGNED: &[u8] = b"\x00\x00\x00\x00\x00\x00\x1c\x00\x00\x00\x00\x00\x00\x00\x00\x10\
    \x01\x01\x03\x01\x01\x61\x01\x78\x60\x81\x67\x02";

/// Bytes that don't begin a record: the end of one that was partly written over.
const TORN: &[u8] = b"\x61\x01\x78\x63\x81\x67\x02";

/// The parts of file 7, and the end of its line in a check: what follows its records, and what an
/// opening in each mode does. Then how many files the default mode cuts, and the number of stale
/// bytes.
pub(crate) struct Case {
    parts: &'static [&'static [u8]],
    line: &'static str,
    cut: u64,
    stale: u64,
}

pub(crate) static CASES: [Tried; 10] = [
    Tried::Stale(&Case {
        parts: &[V2, OWN],
        line: "records 1 read 97 size 97 rest none absolute keep tail keep any keep\n",
        cut: 0,
        stale: 0,
    }),
    Tried::Stale(&Case {
        parts: &[V2, OWN, TORN, OLD],
        line: "records 1 read 97 size 132 rest stale absolute fail tail cut any cut\n",
        cut: 0,
        stale: 35,
    }),
    // Only the header was written over.
    Tried::Stale(&Case {
        parts: &[V2, OLD, OLD],
        line: "records 0 read 69 size 125 rest stale absolute fail tail cut any cut\n",
        cut: 0,
        stale: 56,
    }),
    // One of the file's own records comes after the broken one: it is lost.
    Tried::Stale(&Case {
        parts: &[V2, OWN, TORN, OWN],
        line: "records 1 read 97 size 132 rest broken absolute fail tail cut any cut\n",
        cut: 1,
        stale: 0,
    }),
    Tried::Stale(&Case {
        parts: &[V2, OWN, TORN, OWN, OLD],
        line: "records 1 read 97 size 160 rest broken absolute fail tail cut any cut\n",
        cut: 1,
        stale: 0,
    }),
    Tried::Stale(&Case {
        parts: &[V2, OWN, TORN],
        line: "records 1 read 97 size 104 rest broken absolute fail tail cut any cut\n",
        cut: 1,
        stale: 0,
    }),
    // A record of a later file can't be stale.
    Tried::Stale(&Case {
        parts: &[V2, OWN, LATER],
        line: "records 1 read 97 size 125 rest broken absolute fail tail cut any cut\n",
        cut: 1,
        stale: 0,
    }),
    Tried::Stale(&Case {
        parts: &[V2, OWN, &[0; 40], OLD],
        line: "records 1 read 97 size 165 rest stale absolute fail tail cut any cut\n",
        cut: 0,
        stale: 68,
    }),
    // Records of version 1 don't name their file.
    Tried::Stale(&Case {
        parts: &[V1, UNSIGNED, OLD],
        line: "records 1 read 89 size 117 rest broken absolute fail tail cut any cut\n",
        cut: 1,
        stale: 0,
    }),
    Tried::Stale(&Case {
        parts: &[V2, OWN, &[0; 40]],
        line: "records 1 read 97 size 137 rest zeros absolute fail tail cut any cut\n",
        cut: 0,
        stale: 0,
    }),
];

fn found_in<F: FileSystem>(fs: &mut F, alloc: Global, case: &Case) -> Result<QueueFiles, Fault> {
    if let Err(fault) = store_in(fs, "log", PATH, case.parts) {
        return Err(fault.with_path(alloc, PATH));
    }
    inspect(alloc, fs, &["log"], LogQueue::Append)
}

fn has_line(alloc: Global, found: &QueueFiles, case: &Case) -> bool {
    let mut lines = Lines::new(alloc, false, false);
    add_queue(alloc, found, &mut lines).is_ok() && lines.as_bytes().ends_with(case.line.as_bytes())
}

fn has_outlook(alloc: Global, found: &QueueFiles, case: &Case) -> bool {
    let mut outlook = Outlook::new();
    outlook
        .add_queue(alloc, found, RecoveryMode::TolerateTailCorruption)
        .is_ok()
        && outlook.files == case.cut
        && outlook.stale == case.stale
}

/// Whether the file's line and the outlook of an opening are the case's.
pub(crate) fn is_told<F: FileSystem>(fs: &mut F, alloc: Global, case: &Case) -> bool {
    match found_in(fs, alloc, case) {
        Ok(found) => has_line(alloc, &found, case) && has_outlook(alloc, &found, case),
        Err(_) => false,
    }
}
