//! Tests of workers over files in memory.

use crate::failing::Failing;
use crate::{meeting, recovering};
use raft_builder::RecoveryConfig;
use raft_memory::{FsCall, MemoryFileSystem};
use std::alloc::Global;
use std::thread::Threads;

/// A test of workers over new files.
#[derive(Clone, Copy)]
pub(crate) enum Worked {
    /// This number of workers reads both queues.
    Both(&'static recovering::Case, usize),
    /// Workers read only one queue.
    Alone(&'static recovering::Case, RecoveryConfig),
    /// This number of workers reads both queues, and the nth call of a sort fails.
    Refused(FsCall, u64, usize),
    /// Two workers meet, in both queues or (if true) in one queue.
    Meeting(bool),
}

fn works<R: Threads + Sync, F: Failing>(rt: &R, alloc: Global, worked: &Worked) -> bool {
    match worked {
        Worked::Both(case, threads) => recovering::finds_all::<R, F>(rt, alloc, case, *threads),
        Worked::Alone(case, recovery) => {
            recovering::is_read_alone::<R, F>(rt, alloc, case, *recovery)
        }
        Worked::Refused(call, nth, threads) => {
            recovering::is_refused::<R, F>(rt, alloc, *call, *nth, *threads)
        }
        Worked::Meeting(is_alone) => meeting::meet::<R, F>(rt, alloc, *is_alone),
    }
}

/// Whether the test passes.
pub(crate) fn works_in_memory<R: Threads + Sync>(rt: &R, alloc: Global, worked: &Worked) -> bool {
    works::<R, MemoryFileSystem>(rt, alloc, worked)
}
