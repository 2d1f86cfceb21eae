//! Operations in which one call of storage fails.

use crate::lists::{CameTo, LEFTS, List};
use crate::tally::Tally;
use raft_env::{FileSystem, IoKind};
use raft_memory::{FsCall, MemoryFileSystem};
use raft_records::Fault;
use raft_test_rows::{
    CALLS, Engine, Failing, Faulty, Held, Left, Outcome, Ran, fault_of, is_done, is_refusal,
    run_held,
};
use std::alloc::Global;
use std::mem;

const MAX_CALLS: u64 = 400;

/// Files or an engine over them, the files after a crash, the outcomes of the operations, and
/// their outcomes if no call fails.
#[derive(Drop)]
struct Bench<F: FileSystem> {
    held: Held<F>,
    left: Held<F>,
    ran: Ran,
    whole: Vec<Outcome>,
}

fn opens<F: Faulty>(alloc: Global, held: &mut Held<F>, list: &List) -> bool {
    match list.config(alloc) {
        Ok(config) => {
            held.open_with(alloc, config);
            true
        }
        Err(_error) => false,
    }
}

// The result of a purge depends on the number of files that were begun.
fn is_as_before(outcome: &Outcome, before: &Outcome) -> bool {
    let of_purge = matches!(outcome, Outcome::Dropped(_) | Outcome::ToCompact(_));
    (of_purge && is_done(outcome)) || *outcome == *before
}

// Whether the operation may have this outcome, after a failed one or not.
fn may_come(outcome: &Outcome, before: &Outcome, kind: IoKind, refused: bool) -> bool {
    match fault_of(outcome) {
        Some(Fault::Failed) => refused,
        Some(fault) => is_refusal(fault, kind) && !refused,
        None => refused || is_as_before(outcome, before),
    }
}

// Whether the outcomes equal those without the failed call, up to the first operation that reports
// it. After that operation none fails, or all do because the engine failed.
fn are_answers(outcomes: &[Outcome], before: &[Outcome], kind: IoKind) -> bool {
    let mut refused = false;
    for (outcome, before) in outcomes.iter().zip(before) {
        if !may_come(outcome, before, kind, refused) {
            return false;
        }
        refused = refused || !is_done(outcome);
    }
    true
}

fn is_image_allowed<F: FileSystem>(
    alloc: Global,
    engine: &mut Engine<F>,
    list: &List,
    ran: CameTo<'_>,
) -> bool {
    match engine.image() {
        Ok(image) => matches!(list.allows(alloc, ran, &image), Ok(true)),
        Err(_fault) => false,
    }
}

fn is_held_allowed<F: Faulty>(alloc: Global, held: &mut Held<F>, list: &List, ran: &Ran) -> bool {
    let came_to = CameTo {
        is_opened: ran.is_opened,
        outcomes: &ran.outcomes,
        failed_at: ran.failed_at,
    };
    match held {
        Held::Engine(engine) => is_image_allowed(alloc, engine, list, came_to),
        _ => false,
    }
}

impl<F: Faulty> Bench<F> {
    fn new(alloc: Global, files: F) -> Bench<F> {
        Bench {
            held: Held::Files(files),
            left: Held::Nothing,
            ran: Ran::new(alloc),
            whole: Vec::new(alloc),
        }
    }

    fn end(self) {
        self.held.into_files();
        self.left.into_files();
    }

    // Runs the operations. Returns whether there was memory.
    fn runs(&mut self, alloc: Global, list: &List) -> bool {
        opens(alloc, &mut self.held, list)
            && run_held(alloc, &mut self.held, &list.done, &mut self.ran)
    }

    // The same without a failing call.
    fn runs_whole(&mut self, alloc: Global, list: &List) -> bool {
        self.held.renew(alloc);
        let is_run = self.runs(alloc, list);
        mem::swap(&mut self.whole, &mut self.ran.outcomes);
        is_run
    }

    fn is_answered(&self, kind: IoKind) -> bool {
        match self.held.fault() {
            Some(fault) => is_refusal(fault, kind),
            None => {
                self.ran.outcomes.len() == self.whole.len()
                    && are_answers(&self.ran.outcomes, &self.whole, kind)
            }
        }
    }

    // Whether the image after a crash is allowed.
    fn is_allowed(&mut self, alloc: Global, list: &List, left: &Left) -> bool {
        let is_left = self.left.hold_left(alloc, &mut self.held, left)
            && opens(alloc, &mut self.left, list);
        is_left && is_held_allowed(alloc, &mut self.left, list, &self.ran)
    }

    fn are_allowed(&mut self, alloc: Global, list: &List, tally: &mut Tally) -> bool {
        let mut right = true;
        for left in &LEFTS {
            right = self.is_allowed(alloc, list, left) && right;
            tally.add_crash();
        }
        right
    }

    // Lets the nth call of a sort fail. Returns whether the outcomes and the images are allowed.
    fn refuse(
        &mut self,
        alloc: Global,
        list: &List,
        failing: Failing,
        kind: IoKind,
        tally: &mut Tally,
    ) -> bool {
        self.held.renew(alloc);
        let is_run = self.held.fail(failing) && self.runs(alloc, list);
        let is_answered = self.is_answered(kind);
        self.held.give_up();
        self.are_allowed(alloc, list, tally) && is_run && is_answered
    }
}

// Lets each call of a sort fail with this kind of fault.
fn refuse_sort<F: Faulty>(
    alloc: Global,
    bench: &mut Bench<F>,
    list: &List,
    call: FsCall,
    kind: IoKind,
    tally: &mut Tally,
) -> Result<(), Fault> {
    for nth in 1..MAX_CALLS {
        if !bench.refuse(alloc, list, Failing::Nth(call, nth, kind), kind, tally) {
            tally.add_wrong(alloc, &(call, nth, kind))?;
        }
        if bench.held.refusals() == 0 {
            return Ok(());
        }
        tally.add_call();
    }
    Ok(())
}

fn refuse_each<F: Faulty>(
    alloc: Global,
    bench: &mut Bench<F>,
    list: &List,
    kind: IoKind,
    tally: &mut Tally,
) -> Result<(), Fault> {
    if !bench.runs_whole(alloc, list) {
        return Err(Fault::Memory);
    }
    for call in &CALLS {
        refuse_sort(alloc, bench, list, *call, kind, tally)?;
    }
    Ok(())
}

fn refuse_over<F: Faulty>(
    alloc: Global,
    files: F,
    list: &List,
    kind: IoKind,
    tally: &mut Tally,
) -> Result<(), Fault> {
    let mut bench = Bench::new(alloc, files);
    let refused = refuse_each(alloc, &mut bench, list, kind, tally);
    bench.end();
    refused
}

/// Lets each call of each sort fail with this kind of fault, and crashes the files in three ways.
pub(crate) fn each_call(
    alloc: Global,
    list: &List,
    kind: IoKind,
    tally: &mut Tally,
) -> Result<(), Fault> {
    refuse_over(alloc, MemoryFileSystem::new(alloc), list, kind, tally)
}
