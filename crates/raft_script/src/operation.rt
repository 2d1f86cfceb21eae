//! Operations on an engine, and their results.

use crate::text_entry::TextEntry;
use raft_log_engine::Image;
use raft_records::{Fault, FileSeq};

/// A change of one group.
#[derive(Debug)]
pub enum Act {
    Put(u64, Vec<u8>, Vec<u8>),
    Delete(u64, Vec<u8>),
    /// Entries with their indexes and bytes.
    Entries(u64, Vec<(u64, Vec<u8>)>),
    /// Removes the group with its entries and keys.
    Clean(u64),
    /// Removes the entries below an index.
    Compact(u64, u64),
}

// Proved once; derived, it would be proved in each crate that keeps one in a `Vec`
// (docs/DECISIONS.md). So are the others below.
impl Drop for Act {
    fn drop(self) {
        match self {
            Act::Put(_, _key, _value) => {}
            Act::Delete(_, _key) => {}
            Act::Entries(_, _entries) => {}
            Act::Clean(_) => {}
            Act::Compact(_, _) => {}
        }
    }
}

/// A call of an engine.
#[derive(Debug)]
pub enum Op {
    /// Writes the acts as one batch. The flag requests a sync.
    Write(Vec<Act>, bool),
    /// Writes the acts as one batch with pairs of a group and a number. It acts if each number is
    /// greater than the one that its group keeps. The flag requests a sync.
    WriteOnce(Vec<Act>, Vec<(u64, u64)>, bool),
    /// Writes several batches, then syncs if one of them requests it.
    WriteGroup(Vec<(Vec<Act>, bool)>),
    Sync,
    Get(u64, Vec<u8>),
    /// Removes the group's entries below the index.
    CompactTo(u64, u64),
    /// The group's entry with the index.
    Entry(u64, u64),
    /// The index of the group's first entry.
    First(u64),
    /// The index of the group's last entry.
    Last(u64),
    /// The groups that the engine knows.
    Groups,
    /// Rewrites the Append queue up to a watermark. It ends after the step that is given.
    RewriteAppend(Option<FileSeq>, Option<u64>),
    /// Rewrites the whole Rewrite queue.
    RewriteRewrite,
    /// Drops the first files of the queues if nothing refers to them.
    PurgeStale,
    /// Purges both queues by watermarks, if they need it. No listener keeps a file.
    Purge,
}

impl Drop for Op {
    fn drop(self) {
        match self {
            Op::Write(_acts, _) => {}
            Op::WriteOnce(_acts, _pairs, _) => {}
            Op::WriteGroup(_parts) => {}
            Op::Sync => {}
            Op::Get(_, _key) => {}
            Op::CompactTo(_, _) => {}
            Op::Entry(_, _) => {}
            Op::First(_) => {}
            Op::Last(_) => {}
            Op::Groups => {}
            Op::RewriteAppend(_, _) => {}
            Op::RewriteRewrite => {}
            Op::PurgeStale => {}
            Op::Purge => {}
        }
    }
}

/// The result of an operation. `Size` of a write is its record's length in bytes, 0 if its numbers
/// have already acted.
#[derive(Debug, PartialEq, Eq)]
pub enum Outcome {
    Size(Result<usize, Fault>),
    /// The result of each batch of a write group.
    Sizes(Result<Vec<Result<usize, Fault>>, Fault>),
    Done(Result<(), Fault>),
    Value(Result<Option<Vec<u8>>, Fault>),
    /// The number of removed entries.
    Count(Result<u64, Fault>),
    Entry(Result<Option<TextEntry>, Fault>),
    /// The index, if the group has one. After the engine has failed it means nothing.
    Index(Option<u64>),
    Groups(Result<Vec<u64>, Fault>),
    /// The number of dropped log files.
    Dropped(Result<usize, Fault>),
    /// The groups that should be compacted.
    ToCompact(Result<Vec<u64>, Fault>),
}

impl Drop for Outcome {
    fn drop(self) {
        match self {
            Outcome::Size(_size) => {}
            Outcome::Sizes(_sizes) => {}
            Outcome::Done(_done) => {}
            Outcome::Value(_value) => {}
            Outcome::Count(_count) => {}
            Outcome::Entry(_entry) => {}
            Outcome::Index(_) => {}
            Outcome::Groups(_groups) => {}
            Outcome::Dropped(_dropped) => {}
            Outcome::ToCompact(_groups) => {}
        }
    }
}

/// The results of a trial.
#[derive(Debug)]
pub struct Trial {
    /// Empty if the first opening failed.
    pub outcomes: Vec<Outcome>,
    /// The place, counted from 0, of the operation in which the engine failed.
    pub failed_at: Option<usize>,
    /// The fault of the first opening; `None` if that succeeded.
    pub refused: Option<Fault>,
    /// What the opening between two crashes found before it was given up; `None` with one crash.
    pub second: Option<Result<Image, Fault>>,
    /// What the opening after the last crash found, or its fault.
    pub opened: Result<Image, Fault>,
}

impl Drop for Trial {
    fn drop(self) {
        let Trial {
            outcomes: _outcomes,
            failed_at: _,
            refused: _refused,
            second: _second,
            opened: _opened,
        } = self;
    }
}
