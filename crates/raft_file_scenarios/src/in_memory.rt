//! Tests over files in memory.

use crate::failing::Failing;
use crate::told::assert_place;
use crate::{
    block_sizes, building, checks, dumps, log_files, losses, memory_files, reading, refused, stale,
};
use raft_memory::MemoryFileSystem;
use std::alloc::Global;

/// A test over new files.
#[derive(Clone, Copy)]
pub(crate) enum Tried {
    Script(&'static memory_files::Script),
    RefusedDump(&'static refused::Sort),
    LogFile,
    BlockSizes,
    Records(&'static reading::Case),
    NoHeader,
    Check(&'static checks::Case),
    Plan(&'static checks::Plan),
    Stale(&'static stale::Case),
    Losses(&'static losses::Case),
    EmptyLast(&'static losses::EmptyLast),
    NoFolders,
    Dump(&'static dumps::Case),
    NoDump(&'static str),
    Writer(&'static building::Writer),
    Begun(&'static building::Begun),
}

fn holds_over<F: Failing>(fs: &mut F, alloc: Global, tried: &Tried) -> bool {
    match tried {
        Tried::Script(script) => memory_files::is_played(fs, alloc, script),
        Tried::RefusedDump(sort) => refused::fails_each_time::<F>(alloc, sort),
        Tried::LogFile => log_files::is_read_back(fs, alloc),
        Tried::BlockSizes => block_sizes::is_read_in_blocks(fs, alloc),
        Tried::Records(case) => reading::is_read(fs, alloc, case),
        Tried::NoHeader => reading::has_no_header(fs),
        Tried::Check(case) => checks::is_checked(fs, alloc, case),
        Tried::Plan(plan) => checks::is_planned(fs, alloc, plan),
        Tried::Stale(case) => stale::is_told(fs, alloc, case),
        Tried::Losses(case) => losses::is_told(fs, alloc, case),
        Tried::EmptyLast(row) => losses::is_last(fs, alloc, row),
        Tried::NoFolders => losses::loses_nothing(fs, alloc),
        Tried::Dump(case) => dumps::is_dumped(fs, alloc, case),
        Tried::NoDump(path) => dumps::is_refused(fs, alloc, path),
        Tried::Writer(row) => building::is_built(fs, alloc, row),
        Tried::Begun(row) => building::is_written_again(fs, alloc, row),
    }
}

fn holds<F: Failing>(alloc: Global, tried: &Tried) -> bool {
    let mut fs = F::fresh(alloc);
    holds_over(&mut fs, alloc, tried)
}

// Whether the test passes. Only this function names files in memory, since such a function takes
// long to prove.
fn holds_in_memory(alloc: Global, tried: &Tried) -> bool {
    holds::<MemoryFileSystem>(alloc, tried)
}

static ALONE: [Tried; 4] = [
    Tried::LogFile,
    Tried::BlockSizes,
    Tried::NoHeader,
    Tried::NoFolders,
];

// A function is checked with the whole of each table that it names, and the time grows with the
// square of its length.
fn tables() -> [&'static [Tried]; 18] {
    [
        &ALONE,
        &memory_files::WRITTEN,
        &memory_files::COUNTED,
        &memory_files::ARMED,
        &memory_files::RENAMED,
        &memory_files::CRASHED,
        &memory_files::WRITTEN_OVER,
        &refused::SORTS,
        &reading::CASES,
        &checks::CASES,
        &checks::PLANS,
        &stale::CASES,
        &losses::CASES,
        &losses::EMPTY_LASTS,
        &dumps::CASES,
        &dumps::REFUSED,
        &building::WRITERS,
        &building::BEGUN,
    ]
}

#[test]
fn files_in_memory(rt: HostRuntime) {
    for (table, rows) in tables().iter().enumerate() {
        for (row, tried) in rows.iter().enumerate() {
            assert_place(&rt, holds_in_memory(rt.alloc(), tried), table, row);
        }
    }
}
