//! Runs operations on an engine and keeps their outcomes.

use crate::held::{Faulty, Held};
use crate::states::first_refused;
use raft_env::{FileSystem, IoKind};
use raft_memory::FsCall;
use raft_records::Fault;
use raft_script::{Engine, Op, Outcome, run};
use std::alloc::Global;

/// Each sort of calls that may fail.
pub const CALLS: [FsCall; 16] = [
    FsCall::Create,
    FsCall::Open,
    FsCall::Delete,
    FsCall::Rename,
    FsCall::DeleteMetadata,
    FsCall::NewReader,
    FsCall::NewWriter,
    FsCall::Write,
    FsCall::Truncate,
    FsCall::Allocate,
    FsCall::Sync,
    FsCall::FileSize,
    FsCall::MakeDir,
    FsCall::List,
    FsCall::FreeSpace,
    FsCall::Read,
];

/// The outcomes of operations.
#[derive(Drop)]
pub struct Ran {
    /// Empty if the opening failed.
    pub outcomes: Vec<Outcome>,
    pub failed_at: Option<usize>,
    pub is_opened: bool,
}

impl Ran {
    pub fn new(alloc: Global) -> Ran {
        Ran {
            outcomes: Vec::new(alloc),
            failed_at: None,
            is_opened: false,
        }
    }

    fn take_outcomes(&mut self, outcomes: Vec<Outcome>, has_failed: bool) {
        self.failed_at = if has_failed {
            first_refused(&outcomes)
        } else {
            None
        };
        self.outcomes = outcomes;
    }
}

fn run_noted<F: FileSystem>(
    alloc: Global,
    engine: &mut Engine<F>,
    ops: &[Op],
    ran: &mut Ran,
) -> bool {
    match run(alloc, engine, ops) {
        Ok(outcomes) => {
            ran.take_outcomes(outcomes, engine.failed());
            true
        }
        Err(_fault) => false,
    }
}

/// Runs the operations on the engine, if there is one. Returns whether there was memory for the
/// outcomes.
pub fn run_held<F: Faulty>(alloc: Global, held: &mut Held<F>, ops: &[Op], ran: &mut Ran) -> bool {
    match held {
        Held::Engine(engine) => {
            ran.is_opened = true;
            run_noted(alloc, engine, ops, ran)
        }
        _ => {
            ran.is_opened = false;
            ran.take_outcomes(Vec::new(alloc), false);
            true
        }
    }
}

/// Whether the fault comes from the failed call. A write that finds no space twice, and a purge,
/// return `TryAgain`.
pub fn is_refusal(fault: &Fault, kind: IoKind) -> bool {
    match fault {
        Fault::Io(by, _) => *by == kind,
        Fault::TryAgain => kind == IoKind::NoSpace,
        _ => false,
    }
}
