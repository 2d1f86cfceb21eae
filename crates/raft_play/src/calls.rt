//! Lines that write to an engine, purge it, or run another operation on it.

use crate::appends::{Appends, write_each};
use crate::asked::{CallLine, OpLine, WriteLine};
use crate::batch::Writing;
use crate::line::Line;
use raft_env::FileSystem;
use raft_records::Fault;
use raft_test_rows::{Engine, Op, Outcome, step};
use std::alloc::{AllocError, Global};

// The groups with their numbers; `None` if a word is no number.
fn pairs_of(alloc: Global, numbers: &[Option<u64>]) -> Result<Option<Vec<(u64, u64)>>, AllocError> {
    let mut pairs = Vec::new(alloc);
    for pair in numbers.chunks(2) {
        let [Some(group), Some(least)] = pair else {
            return Ok(None);
        };
        pairs.push((*group, *least))?;
    }
    Ok(Some(pairs))
}

// The numbers of a `write_once`, and whether `sync` follows them.
fn once_of(line: &Line) -> (&[Option<u64>], bool) {
    match line.numbers() {
        [numbers @ .., None] => (numbers, true),
        numbers => (numbers, false),
    }
}

fn write_once<F: FileSystem>(
    line: &mut Line,
    writing: &mut Writing,
    engine: &mut Engine<F>,
) -> Outcome {
    let (numbers, sync) = once_of(line);
    match pairs_of(line.alloc, numbers) {
        Ok(Some(pairs)) => Outcome::Size(engine.write_once(&mut writing.batch, &pairs, sync)),
        Ok(None) => {
            line.bad();
            Outcome::Index(None)
        }
        Err(error) => Outcome::Done(Err(Fault::from(error))),
    }
}

fn write<F: FileSystem>(
    line: &mut Line,
    writing: &mut Writing,
    engine: &mut Engine<F>,
    asked: WriteLine,
) -> Outcome {
    let alloc = line.alloc;
    match asked {
        WriteLine::Batch(sync) => Outcome::Size(engine.write(&mut writing.batch, sync)),
        WriteLine::Once => write_once(line, writing, engine),
        WriteLine::Group => {
            Outcome::Sizes(engine.write_group(&mut writing.batches, &writing.syncs))
        }
        WriteLine::Each => Outcome::Done(write_each(
            alloc,
            engine,
            line.pair(0),
            line.pair(2),
            line.bytes(0),
        )),
        WriteLine::Append(is_each) => {
            let appends = Appends {
                groups: line.pair(0),
                indexes: line.pair(2),
                is_each,
            };
            Outcome::Done(appends.write(alloc, engine, line.bytes(0)))
        }
    }
}

fn op_of(line: &mut Line, asked: OpLine) -> Op {
    let (first, second) = line.pair(0);
    match asked {
        OpLine::Sync => Op::Sync,
        OpLine::Get => Op::Get(first, line.take(0)),
        OpLine::CompactTo => Op::CompactTo(first, second),
        OpLine::First => Op::First(first),
        OpLine::Last => Op::Last(first),
        OpLine::Groups => Op::Groups,
        OpLine::RewriteAppend => Op::RewriteAppend(line.bound(0), line.bound(1)),
        OpLine::RewriteRewrite => Op::RewriteRewrite,
        OpLine::PurgeStale => Op::PurgeStale,
        OpLine::Purge => Op::Purge,
    }
}

fn done<F: FileSystem>(line: &mut Line, engine: &mut Engine<F>, asked: OpLine) -> Outcome {
    let op = op_of(line, asked);
    step(line.alloc, engine, &op)
}

// The group with which the next short call of a purge continues.
fn goes_on(next: Result<Option<u64>, Fault>) -> Outcome {
    match next {
        Ok(next) => Outcome::Index(next),
        Err(fault) => Outcome::Done(Err(fault)),
    }
}

// The outcome of a call.
fn outcome_of<F: FileSystem>(
    line: &mut Line,
    writing: &mut Writing,
    engine: &mut Engine<F>,
    asked: CallLine,
) -> Outcome {
    let (from, budget) = line.pair(0);
    match asked {
        CallLine::Write(asked) => write(line, writing, engine, asked),
        CallLine::RewriteGroups => {
            let (file, (from, budget)) = (line.number(0), line.pair(1));
            goes_on(engine.must_rewrite_append_groups(file, from, budget))
        }
        CallLine::RenewGroups => goes_on(engine.must_rewrite_rewrite_groups(from, budget)),
        CallLine::Op(asked) => done(line, engine, asked),
    }
}

// Prints the outcome of a call, or `another batch` if the call left the wrong batch.
fn tell(line: &mut Line, writing: &mut Writing, had_items: bool, outcome: &Outcome) {
    if !writing.has_kept(had_items, outcome) {
        return line.said.say("another batch");
    }
    if let Outcome::Sizes(_) = outcome {
        *writing = Writing::new(line.alloc);
    }
    line.outcome(outcome);
}

/// Calls an engine and prints the outcome.
pub(crate) fn answer<F: FileSystem>(
    line: &mut Line,
    writing: &mut Writing,
    engine: &mut Engine<F>,
    asked: CallLine,
) {
    let had_items = !writing.batch.is_empty();
    let outcome = outcome_of(line, writing, engine, asked);
    tell(line, writing, had_items, &outcome);
}
