//! Both queues, read by a number of workers.

use crate::failing::Failing;
use crate::keys::Keys;
use crate::stored::{ready, scanned, stores_both};
use crate::told::assert_at;
use crate::two_queues::{code_of, finished, is_refused_as};
use crate::workers::{Worked, works_in_memory};
use raft_builder::{DefaultMachineFactory, DualPipesBuilder, RecoveryConfig};
use raft_config::RecoveryMode;
use raft_env::{FileSystem, IoKind};
use raft_memory::FsCall;
use raft_records::{Fault, LogQueue};
use std::alloc::Global;
use std::thread::Threads;

/// The number of files of each queue.
pub(crate) struct Case {
    name: &'static str,
    append: u8,
    rewrite: u8,
}

static CASES: [Case; 5] = [
    Case {
        name: "5 and 0 files, threads",
        append: 5,
        rewrite: 0,
    },
    Case {
        name: "0 and 3 files, threads",
        append: 0,
        rewrite: 3,
    },
    Case {
        name: "5 and 3 files, threads",
        append: 5,
        rewrite: 3,
    },
    Case {
        name: "1 and 4 files, threads",
        append: 1,
        rewrite: 4,
    },
    Case {
        name: "0 and 0 files, threads",
        append: 0,
        rewrite: 0,
    },
];

/// Five files make chunks of 5, of 3 and 2, of 2, 2 and 1, and of 1.
const THREADS: [usize; 5] = [0, 1, 2, 3, 8];

/// Whether these are the keys of this number of files, in order.
fn are_all(keys: &Keys, files: u8) -> bool {
    for (key, found) in (1..files.saturating_add(1)).zip(keys.found.iter()) {
        if *found != (u64::from(key), key) {
            return false;
        }
    }
    keys.found.len() == usize::from(files)
}

// The keys that workers read from both queues.
fn recover<R: Threads + Sync, F: FileSystem + Drop>(
    rt: &R,
    alloc: Global,
    builder: &mut DualPipesBuilder<F>,
) -> Result<(Keys, Keys), Fault> {
    builder.recover(rt, &DefaultMachineFactory::new(alloc))
}

fn has_all<R: Threads + Sync, F: FileSystem + Drop>(
    rt: &R,
    alloc: Global,
    builder: &mut DualPipesBuilder<F>,
    case: &Case,
) -> bool {
    let files = usize::from(case.append) + usize::from(case.rewrite);
    match recover(rt, alloc, builder) {
        Ok((appended, rewritten)) => {
            are_all(&appended, case.append)
                && are_all(&rewritten, case.rewrite)
                && builder.cuts().len() == files
        }
        Err(_) => false,
    }
}

/// Whether this number of workers finds all keys, and each file is to be cut.
pub(crate) fn finds_all<R: Threads + Sync, F: Failing>(
    rt: &R,
    alloc: Global,
    case: &Case,
    threads: usize,
) -> bool {
    let opened: Result<DualPipesBuilder<F>, Fault> = ready(
        alloc,
        F::fresh(alloc),
        (case.append, case.rewrite),
        threads,
    );
    match opened {
        Ok(mut builder) => {
            let found = has_all(rt, alloc, &mut builder, case);
            drop(builder);
            found
        }
        Err(_) => false,
    }
}

#[test]
fn each_number_of_workers_finds_the_same(rt: HostRuntime) {
    for case in &CASES {
        for threads in &THREADS {
            let held = works_in_memory(&rt, rt.alloc(), &Worked::Both(case, *threads));
            assert_at(&rt, held, case.name, *threads);
        }
    }
}

/// The number of files read if only one queue is read, or the code with which that fails: all
/// files if damage is tolerated, none without workers, and otherwise the fault of the damage.
fn files_read(case: &Case, recovery: &RecoveryConfig) -> Result<u8, u8> {
    let files = match recovery.queue {
        LogQueue::Append => case.append,
        LogQueue::Rewrite => case.rewrite,
    };
    let is_strict = matches!(recovery.mode, RecoveryMode::AbsoluteConsistency);
    if files == 0 || recovery.concurrency == 0 {
        Ok(0)
    } else if is_strict {
        Err(2)
    } else {
        Ok(files)
    }
}

fn reads_queue<R: Threads + Sync, F: FileSystem + Drop>(
    rt: &R,
    alloc: Global,
    builder: &mut DualPipesBuilder<F>,
    case: &Case,
    recovery: RecoveryConfig,
) -> bool {
    let read: Result<Keys, Fault> = builder.recover_queue(
        rt,
        recovery,
        &DefaultMachineFactory::new(alloc),
    );
    match (read, files_read(case, &recovery)) {
        (Ok(keys), Ok(files)) => {
            are_all(&keys, files) && builder.cuts().len() == usize::from(files)
        }
        (Err(fault), Err(code)) => fault.code() == code,
        _ => false,
    }
}

/// Whether the expected keys are found if only this queue is read, in its own mode.
pub(crate) fn is_read_alone<R: Threads + Sync, F: Failing>(
    rt: &R,
    alloc: Global,
    case: &Case,
    recovery: RecoveryConfig,
) -> bool {
    let opened: Result<DualPipesBuilder<F>, Fault> = ready(
        alloc,
        F::fresh(alloc),
        (case.append, case.rewrite),
        1,
    );
    match opened {
        Ok(mut builder) => {
            let read = reads_queue(rt, alloc, &mut builder, case, recovery);
            drop(builder);
            read
        }
        Err(_) => false,
    }
}

fn recovery(queue: LogQueue, mode: RecoveryMode, concurrency: usize) -> RecoveryConfig {
    RecoveryConfig {
        queue,
        mode,
        concurrency,
        read_block_size: 512,
    }
}

/// The modes in which only one queue is read.
const MODES: [RecoveryMode; 2] = [
    RecoveryMode::TolerateAnyCorruption,
    RecoveryMode::AbsoluteConsistency,
];

#[test]
fn each_queue_is_read_alone(rt: HostRuntime) {
    for case in &CASES {
        for queue in &[LogQueue::Append, LogQueue::Rewrite] {
            for concurrency in &THREADS {
                for mode in &MODES {
                    let alone = Worked::Alone(case, recovery(*queue, *mode, *concurrency));
                    let held = works_in_memory(&rt, rt.alloc(), &alone);
                    assert_at(&rt, held, case.name, *concurrency);
                }
            }
        }
    }
}

// Files of both queues in which the nth call of a sort will fail.
fn refusing<F: Failing>(alloc: Global, call: FsCall, nth: u64) -> Option<F> {
    let mut fs = F::fresh(alloc);
    if stores_both(alloc, &mut fs, (3, 2)) && fs.fail(call, nth, IoKind::Other).is_ok() {
        Some(fs)
    } else {
        None
    }
}

fn cuts_nothing<R: Threads + Sync, F: FileSystem + Drop>(
    rt: &R,
    alloc: Global,
    mut builder: DualPipesBuilder<F>,
) -> bool {
    let is_refused = is_refused_as(recover(rt, alloc, &mut builder), 3);
    let is_uncut = builder.cuts().is_empty();
    let (ended, _fs) = finished(builder);
    is_refused && is_uncut && code_of(ended) == Some(15)
}

/// Whether reading both queues fails with `Io` if the nth call of a sort fails, cuts nothing, and
/// leaves the opening unfinished.
pub(crate) fn is_refused<R: Threads + Sync, F: Failing>(
    rt: &R,
    alloc: Global,
    call: FsCall,
    nth: u64,
    threads: usize,
) -> bool {
    let refusing: Option<F> = refusing(alloc, call, nth);
    match refusing {
        Some(fs) => match scanned(alloc, fs, threads) {
            Ok(builder) => cuts_nothing(rt, alloc, builder),
            Err(_) => false,
        },
        None => false,
    }
}

#[test]
fn a_refused_reading_cuts_nothing(rt: HostRuntime) {
    for threads in &THREADS {
        for nth in 1..6 {
            for call in &[FsCall::Open, FsCall::NewReader, FsCall::FileSize] {
                let refused = Worked::Refused(*call, nth, *threads);
                let held = works_in_memory(&rt, rt.alloc(), &refused);
                assert_at(&rt, held, "a call, threads", *threads);
            }
        }
        let refused = Worked::Refused(FsCall::Read, 1, *threads);
        let held = works_in_memory(&rt, rt.alloc(), &refused);
        assert_at(&rt, held, "a read, threads", *threads);
    }
}
