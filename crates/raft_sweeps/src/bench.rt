//! Runs a list of operations on an engine, keeps the outcomes, and opens what crashes leave.

use crate::answers::are_told;
use crate::lists::{List, Sort, open, plans_of, renew};
use raft_env::{FileSystem, IoKind};
use raft_records::Fault;
use raft_test_rows::{
    Engine, Failing, Faulty, Held, Left, Op, Outcome, Ran, is_allowed, is_refusal, ops_of, step,
};
use std::alloc::Global;
use std::mem;

/// The operations of a list, and their outcomes if no call fails.
#[derive(Drop)]
pub(crate) struct Work {
    pub(crate) sort: Sort,
    pub(crate) ops: Vec<Op>,
    pub(crate) wanted: Vec<Outcome>,
}

/// Files or an engine over them, the outcomes of its operations, and the files after a crash.
#[derive(Drop)]
pub(crate) struct Bench<F: FileSystem> {
    held: Held<F>,
    left: Held<F>,
    pub(crate) ran: Ran,
}

// Runs an operation. Returns whether there was memory for its outcome.
fn takes<F: FileSystem>(alloc: Global, engine: &mut Engine<F>, op: &Op, ran: &mut Ran) -> bool {
    let stood = !engine.failed();
    let outcome = step(alloc, engine, op);
    if stood && engine.failed() {
        ran.failed_at = Some(ran.outcomes.len());
    }
    ran.outcomes.push(outcome).is_ok()
}

fn closing<F: Faulty>(held: &mut Held<F>) -> Result<(), Fault> {
    held.close();
    match held {
        Held::Refused(refused) => Err(mem::replace(&mut refused.fault, Fault::Failed)),
        _ => Ok(()),
    }
}

// Closes the engine. Returns whether that succeeded.
fn closes<F: Faulty>(held: &mut Held<F>, ran: &mut Ran) -> bool {
    let closed = closing(held);
    let is_closed = closed.is_ok();
    ran.outcomes.push(Outcome::Done(closed)).is_ok() && is_closed
}

// Opens the files if no engine has them. Returns whether an engine then has them.
fn is_open<F: Faulty>(alloc: Global, held: &mut Held<F>, sort: Sort) -> bool {
    match held {
        Held::Files(_) => {
            open(alloc, held, sort);
            matches!(held, Held::Engine(_))
        }
        Held::Engine(_) => true,
        _ => false,
    }
}

fn is_close(sort: Sort, op: &Op) -> bool {
    match sort {
        Sort::Plain => false,
        _ => matches!(op, Op::Sync),
    }
}

impl<F: Faulty> Bench<F> {
    pub(crate) fn new(alloc: Global, files: F) -> Bench<F> {
        Bench {
            held: Held::Files(files),
            left: Held::Nothing,
            ran: Ran::new(alloc),
        }
    }

    /// Drops it by calls.
    pub(crate) fn end(self) {
        self.held.into_files();
        self.left.into_files();
    }

    // Runs an operation. Returns whether the list continues after it.
    fn goes_on(&mut self, alloc: Global, sort: Sort, op: &Op) -> bool {
        if !is_open(alloc, &mut self.held, sort) {
            return false;
        }
        if is_close(sort, op) {
            return closes(&mut self.held, &mut self.ran);
        }
        match &mut self.held {
            Held::Engine(engine) => takes(alloc, engine, op, &mut self.ran),
            _ => false,
        }
    }

    fn take_each(&mut self, alloc: Global, work: &Work) {
        for op in &work.ops {
            if !self.goes_on(alloc, work.sort, op) {
                return;
            }
        }
    }

    /// Runs the list over new files, in which a call may fail. Returns whether these files could
    /// be made.
    pub(crate) fn run(&mut self, alloc: Global, work: &Work, failing: Option<Failing>) -> bool {
        self.ran = Ran::new(alloc);
        let is_made = renew(alloc, &mut self.held, work.sort);
        let is_armed = match failing {
            Some(failing) => self.held.fail(failing),
            None => true,
        };
        self.take_each(alloc, work);
        is_made && is_armed
    }

    /// Whether the opening failed with the failed call's fault, or each operation has a possible
    /// outcome.
    pub(crate) fn is_told(&self, work: &Work, kind: IoKind) -> bool {
        match self.held.fault() {
            Some(fault) if self.ran.outcomes.is_empty() => is_refusal(fault, kind),
            _ => are_told(&work.ops, &self.ran.outcomes, kind),
        }
    }

    /// Whether a call failed. The engine gives up its files first.
    pub(crate) fn has_failed(&mut self) -> bool {
        self.held.give_up();
        self.held.refusals() > 0
    }

    // Whether the state found after a crash is allowed.
    fn finds_after(&mut self, alloc: Global, work: &Work, left: &Left) -> bool {
        let is_left = self.left.hold_left(alloc, &mut self.held, left)
            && open(alloc, &mut self.left, work.sort);
        match self.left.state() {
            Some(found) => {
                is_left && is_allowed(&work.ops, &self.ran.outcomes, self.ran.failed_at, found)
            }
            None => false,
        }
    }

    /// Whether the state found after each of these crashes is allowed.
    pub(crate) fn finds_allowed(&mut self, alloc: Global, work: &Work, lefts: &[Left]) -> bool {
        for left in lefts {
            if !self.finds_after(alloc, work, left) {
                return false;
            }
        }
        true
    }
}

fn work_of(alloc: Global, list: &List) -> Option<Work> {
    match ops_of(alloc, plans_of(list.script)) {
        Ok(ops) => Some(Work {
            sort: list.sort,
            ops,
            wanted: Vec::new(alloc),
        }),
        Err(_fault) => None,
    }
}

/// The list's operations with their outcomes if no call fails.
pub(crate) fn work_at<F: Faulty>(alloc: Global, bench: &mut Bench<F>, list: &List) -> Option<Work> {
    let mut work = work_of(alloc, list)?;
    bench.run(alloc, &work, None);
    mem::swap(&mut work.wanted, &mut bench.ran.outcomes);
    Some(work)
}
