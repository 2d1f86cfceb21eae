//! Tests over files in memory.

use crate::failing::Failing;
use crate::told::assert_place;
use crate::{
    checks, crashed_queues, crashed_rows, queues, read_bytes, refused, reserved_files,
    reserved_rows, two_folders, two_queues,
};
use raft_memory::MemoryFileSystem;
use std::alloc::Global;

/// A test over new files.
#[derive(Clone, Copy)]
pub(crate) enum Tried {
    /// By the check of any files, and by that of files in memory.
    Holes(&'static checks::Case),
    RefusedCheck(&'static refused::Sort),
    Queue(&'static queues::Case),
    Bytes(&'static read_bytes::Row),
    Stages(&'static two_queues::Case),
    Scan(&'static two_folders::Scan),
    Crash(&'static crashed_rows::Case),
    End(&'static crashed_rows::Opening),
    /// An opening makes reserved files, and the next one deletes them.
    Reserved,
    ScanClears,
    Clearing(&'static reserved_rows::Cleared),
    Placing(&'static reserved_rows::Room),
    Prefilling(&'static reserved_rows::Prefilled),
}

fn holds<F: Failing>(alloc: Global, tried: &Tried) -> bool {
    match tried {
        Tried::Holes(case) => checks::is_found::<F>(alloc, case),
        Tried::RefusedCheck(sort) => refused::fails_each_time::<F>(alloc, sort),
        Tried::Queue(case) => queues::is_as_said::<F>(alloc, case),
        Tried::Bytes(row) => read_bytes::is_read::<F>(alloc, row),
        Tried::Stages(case) => two_queues::is_as_said::<F>(alloc, case),
        Tried::Scan(row) => two_folders::is_scanned::<F>(alloc, row),
        Tried::Crash(case) => crashed_queues::is_as_said::<F>(alloc, case),
        Tried::End(opening) => crashed_queues::ends_as_said::<F>(alloc, opening),
        Tried::Reserved => reserved_files::are_made_and_deleted::<F>(alloc),
        Tried::ScanClears => reserved_files::scan_clears::<F>(alloc),
        Tried::Clearing(row) => reserved_files::is_cleared::<F>(alloc, row),
        Tried::Placing(row) => reserved_files::is_placed::<F>(alloc, row),
        Tried::Prefilling(row) => reserved_files::is_prefilled::<F>(alloc, row),
    }
}

// Whether the test passes. Only this function and `checks::is_found_in_memory` name files in memory,
// since such a function takes long to prove.
fn holds_in_memory(alloc: Global, tried: &Tried) -> bool {
    let held = match tried {
        Tried::Holes(case) => checks::is_found_in_memory(alloc, case),
        _ => true,
    };
    held && holds::<MemoryFileSystem>(alloc, tried)
}

static ALONE: [Tried; 2] = [Tried::Reserved, Tried::ScanClears];

// A function is checked with the whole of each table that it names, and the time grows with the
// square of its length.
fn tables() -> [&'static [Tried]; 20] {
    [
        &ALONE,
        &queues::ROWS,
        &queues::USED_AGAIN,
        &read_bytes::ROWS,
        &two_queues::REFUSED,
        &two_queues::THREE_FILES,
        &two_queues::EMPTY_FILE,
        &two_queues::HEADER_ALONE,
        &two_queues::BROKEN_FILE,
        &two_folders::SCANS,
        &two_folders::OPENED,
        &two_folders::REFUSED,
        &crashed_rows::IN_ONE_FILE,
        &crashed_rows::IN_MORE,
        &crashed_rows::STAGED_ROWS,
        &reserved_rows::CLEARED,
        &reserved_rows::ROOM,
        &reserved_rows::PREFILLED,
        &checks::CASES,
        &refused::SORTS,
    ]
}

#[test]
fn queues_in_memory(rt: HostRuntime) {
    for (table, rows) in tables().iter().enumerate() {
        for (row, tried) in rows.iter().enumerate() {
            assert_place(&rt, holds_in_memory(rt.alloc(), tried), table, row);
        }
    }
}
