//! Two workers that wait for each other.

use crate::failing::Failing;
use crate::stored::ready;
use crate::told::assert_row;
use crate::workers::{Worked, works_in_memory};
use raft_builder::{DualPipesBuilder, MergingMachine, RecoveryConfig};
use raft_config::RecoveryMode;
use raft_env::FileSystem;
use raft_opening::ReplayMachine;
use raft_records::{Factory, Fault, FileId, LogItem, LogQueue};
use std::alloc::{AllocError, Global};
use std::sync::Arc;
use std::sync::atomic::{AtomicU64, Ordering};
use std::thread;
use std::thread::Threads;

/// How often a machine looks for the other one.
const TURNS: u64 = 10_000_000;

/// A machine that keeps its first batch until another machine has begun.
#[derive(Drop)]
struct Meeting {
    begun: Arc<AtomicU64, Global>,
}

impl ReplayMachine for Meeting {
    ghost stands_for = { λ queue blocks earlier machine batches. Unit {0} };

    fn replay(&mut self, _items: &mut Vec<LogItem>, _file: FileId) -> Result<(), Fault> {
        self.begun.fetch_add(1, Ordering::SeqCst);
        for _ in 0..TURNS {
            if self.begun.load(Ordering::SeqCst) > 1 {
                return Ok(());
            }
            thread::yield_now();
        }
        Err(Fault::Memory)
    }
}

impl MergingMachine for Meeting {
    fn merge(&mut self, _newer: Meeting, _queue: LogQueue) -> Result<(), Fault> {
        Ok(())
    }
}

/// Makes machines that wait for each other.
#[derive(Drop)]
struct Meetings {
    begun: Arc<AtomicU64, Global>,
}

impl Factory<Meeting> for Meetings {
    ghost is_new = { λ meeting. Unit {0} };

    fn new_target(&self) -> Result<Meeting, Fault> {
        Ok(Meeting {
            begun: Arc::try_clone(&self.begun)?,
        })
    }
}

fn make_meetings(alloc: Global) -> Result<Meetings, AllocError> {
    Ok(Meetings {
        begun: Arc::new(alloc, AtomicU64::new(0))?,
    })
}

// Two workers that read only the Append queue.
const ALONE: RecoveryConfig = RecoveryConfig {
    queue: LogQueue::Append,
    mode: RecoveryMode::TolerateAnyCorruption,
    concurrency: 2,
    read_block_size: 512,
};

fn meet_in<R: Threads + Sync, F: FileSystem + Drop>(
    rt: &R,
    builder: &mut DualPipesBuilder<F>,
    meetings: &Meetings,
    is_alone: bool,
) -> bool {
    if is_alone {
        let met: Result<Meeting, Fault> = builder.recover_queue(rt, ALONE, meetings);
        met.is_ok()
    } else {
        let met: Result<(Meeting, Meeting), Fault> = builder.recover(rt, meetings);
        met.is_ok()
    }
}

fn opened<F: Failing>(alloc: Global, is_alone: bool) -> Result<DualPipesBuilder<F>, Fault> {
    let threads = if is_alone { 1 } else { 2 };
    ready(alloc, F::fresh(alloc), (2, 0), threads)
}

/// Whether the machines of two Append files meet, if both queues are read or only this one.
pub(crate) fn meet<R: Threads + Sync, F: Failing>(rt: &R, alloc: Global, is_alone: bool) -> bool {
    let Ok(meetings) = make_meetings(alloc) else {
        return false;
    };
    let opened: Result<DualPipesBuilder<F>, Fault> = opened(alloc, is_alone);
    match opened {
        Ok(mut builder) => {
            let met = meet_in(rt, &mut builder, &meetings, is_alone);
            drop(builder);
            met
        }
        Err(_) => false,
    }
}

#[test]
fn two_workers_meet(rt: HostRuntime) {
    let met = works_in_memory(&rt, rt.alloc(), &Worked::Meeting(false));
    assert_row(&rt, met, "the machines of both queues");
    let met = works_in_memory(&rt, rt.alloc(), &Worked::Meeting(true));
    assert_row(&rt, met, "the machines of one queue");
}
