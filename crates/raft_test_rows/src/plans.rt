//! Operations, crashes and results as rows of a table.

use raft_memory::Choice;
use raft_records::Fault;
use raft_script::{Act, Op, Outcome, entries_between};
use std::alloc::{AllocError, Global};

pub enum Change {
    Put(u64, &'static [u8], &'static [u8]),
    Delete(u64, &'static [u8]),
    /// Entries of a group with the indexes from the first to the last, each with this word.
    Entries(u64, u64, u64, &'static [u8]),
    /// The same with a word of one byte, repeated so many times.
    LongEntries(u64, u64, u64, u8, usize),
    Clean(u64),
    Compact(u64, u64),
}

pub enum Plan {
    /// Writes the changes as one batch; the flag requests a sync.
    Write(&'static [Change], bool),
    /// Writes batches together; each flag requests a sync.
    WriteGroup(&'static [(&'static [Change], bool)]),
    Sync,
    Get(u64, &'static [u8]),
    CompactTo(u64, u64),
    Entry(u64, u64),
    First(u64),
    Last(u64),
    Groups,
    RewriteAppend(Option<u64>, Option<u64>),
    RewriteRewrite,
    PurgeStale,
    Purge,
}

/// What a crash leaves of a log file.
#[derive(Drop)]
pub enum Left {
    All,
    Synced,
    Torn(usize, u8),
    Bytes(&'static [u8]),
}

pub enum Answer {
    Size(usize),
    /// For each batch of a write group the length of its record, or the code with which it fails.
    Sizes(&'static [Result<usize, u8>]),
    Value(Option<&'static [u8]>),
    Count(u64),
    /// The entry with this index and word.
    Entry(u64, &'static [u8]),
    Index(Option<u64>),
    Groups(&'static [u64]),
    /// The operation fails with this code.
    Fails(u8),
}

fn act_of(alloc: Global, change: &Change) -> Result<Act, AllocError> {
    match change {
        Change::Put(group, key, value) => {
            Ok(Act::Put(*group, key.to_vec(alloc)?, value.to_vec(alloc)?))
        }
        Change::Delete(group, key) => Ok(Act::Delete(*group, key.to_vec(alloc)?)),
        Change::Entries(group, first, last, word) => {
            Ok(Act::Entries(*group, entries_between(alloc, *first, *last, word)?))
        }
        Change::LongEntries(group, first, last, byte, len) => {
            let word = vec![in alloc; *byte; *len]?;
            Ok(Act::Entries(*group, entries_between(alloc, *first, *last, &word)?))
        }
        Change::Clean(group) => Ok(Act::Clean(*group)),
        Change::Compact(group, index) => Ok(Act::Compact(*group, *index)),
    }
}

fn acts_of(alloc: Global, changes: &[Change]) -> Result<Vec<Act>, AllocError> {
    let mut acts = Vec::new(alloc);
    for change in changes {
        acts.push(act_of(alloc, change)?)?;
    }
    Ok(acts)
}

fn parts_of(
    alloc: Global,
    parts: &[(&[Change], bool)],
) -> Result<Vec<(Vec<Act>, bool)>, AllocError> {
    let mut of = Vec::new(alloc);
    for part in parts {
        of.push((acts_of(alloc, part.0)?, part.1))?;
    }
    Ok(of)
}

pub fn op_of(alloc: Global, plan: &Plan) -> Result<Op, AllocError> {
    match plan {
        Plan::Write(changes, sync) => Ok(Op::Write(acts_of(alloc, changes)?, *sync)),
        Plan::WriteGroup(parts) => Ok(Op::WriteGroup(parts_of(alloc, parts)?)),
        Plan::Sync => Ok(Op::Sync),
        Plan::Get(group, key) => Ok(Op::Get(*group, key.to_vec(alloc)?)),
        Plan::CompactTo(group, index) => Ok(Op::CompactTo(*group, *index)),
        Plan::Entry(group, index) => Ok(Op::Entry(*group, *index)),
        Plan::First(group) => Ok(Op::First(*group)),
        Plan::Last(group) => Ok(Op::Last(*group)),
        Plan::Groups => Ok(Op::Groups),
        Plan::RewriteAppend(watermark, step) => Ok(Op::RewriteAppend(*watermark, *step)),
        Plan::RewriteRewrite => Ok(Op::RewriteRewrite),
        Plan::PurgeStale => Ok(Op::PurgeStale),
        Plan::Purge => Ok(Op::Purge),
    }
}

pub fn ops_of(alloc: Global, plans: &[Plan]) -> Result<Vec<Op>, AllocError> {
    let mut ops = Vec::new(alloc);
    for plan in plans {
        ops.push(op_of(alloc, plan)?)?;
    }
    Ok(ops)
}

pub fn choice_of(alloc: Global, left: &Left) -> Result<Choice, AllocError> {
    match left {
        Left::All => Ok(Choice::All),
        Left::Synced => Ok(Choice::Synced),
        Left::Torn(kept, fill) => Ok(Choice::Torn(*kept, *fill)),
        Left::Bytes(bytes) => Ok(Choice::Bytes(bytes.to_vec(alloc)?)),
    }
}

/// The choice for a crash, once for each of so many files.
pub fn choices_of(alloc: Global, left: &Left, files: usize) -> Result<Vec<Choice>, AllocError> {
    let mut choices = Vec::new(alloc);
    for _ in 0..files {
        choices.push(choice_of(alloc, left)?)?;
    }
    Ok(choices)
}

/// The fault with which an operation failed.
pub fn fault_of(outcome: &Outcome) -> Option<&Fault> {
    match outcome {
        Outcome::Size(answer) => answer.as_ref().err(),
        Outcome::Sizes(answer) => answer.as_ref().err(),
        Outcome::Done(answer) => answer.as_ref().err(),
        Outcome::Value(answer) => answer.as_ref().err(),
        Outcome::Count(answer) => answer.as_ref().err(),
        Outcome::Entry(answer) => answer.as_ref().err(),
        Outcome::Index(_) => None,
        Outcome::Groups(answer) => answer.as_ref().err(),
        Outcome::Dropped(answer) => answer.as_ref().err(),
        Outcome::ToCompact(answer) => answer.as_ref().err(),
    }
}

fn are_sizes(sizes: &[Result<usize, Fault>], wanted: &[Result<usize, u8>]) -> bool {
    let mut equal = sizes.len() == wanted.len();
    for (size, wanted) in sizes.iter().zip(wanted.iter()) {
        equal = equal
            && match (size, wanted) {
                (Ok(size), Ok(wanted)) => *size == *wanted,
                (Err(fault), Err(code)) => fault.code() == *code,
                _ => false,
            };
    }
    equal
}

fn is_answer(outcome: &Outcome, answer: &Answer) -> bool {
    match (outcome, answer) {
        (Outcome::Size(Ok(size)), Answer::Size(wanted)) => *size == *wanted,
        (Outcome::Sizes(Ok(sizes)), Answer::Sizes(wanted)) => are_sizes(sizes, wanted),
        (Outcome::Value(Ok(Some(value))), Answer::Value(Some(wanted))) => value.as_slice()
            == *wanted,
        (Outcome::Value(Ok(None)), Answer::Value(None)) => true,
        (Outcome::Count(Ok(count)), Answer::Count(wanted)) => *count == *wanted,
        (Outcome::Entry(Ok(Some(entry))), Answer::Entry(index, word)) => {
            entry.index == *index && entry.word.as_slice() == *word
        }
        (Outcome::Index(index), Answer::Index(wanted)) => *index == *wanted,
        (Outcome::Groups(Ok(groups)), Answer::Groups(wanted)) => groups.as_slice() == *wanted,
        (_, Answer::Fails(code)) => match fault_of(outcome) {
            Some(fault) => fault.code() == *code,
            None => false,
        },
        _ => false,
    }
}

pub fn are_answers(outcomes: &[Outcome], answers: &[Answer]) -> bool {
    let mut equal = outcomes.len() == answers.len();
    for (outcome, answer) in outcomes.iter().zip(answers.iter()) {
        equal = equal && is_answer(outcome, answer);
    }
    equal
}
