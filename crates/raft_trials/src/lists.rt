//! Lists of operations with their settings, and the images that may be left of them.

use raft_allowed::allowed;
use raft_records::{Fault, ReadableSize};
use raft_test_rows::{
    Change, Config, Image, Left, Op, Outcome, Plan, Sequence, op_of, ops_of, plans_in, settings,
};
use std::alloc::{AllocError, Global};
use std::mem;

#[derive(Drop)]
pub(crate) struct List {
    pub(crate) done: Vec<Op>,
    /// The operations from which the allowed images are derived.
    told: Vec<Op>,
    /// The Append queue is purged above this number of KB; each log file is full at 1 KB.
    purge_threshold: u64,
    /// At most this number of the bytes written since a sync are left of a torn file.
    pub(crate) kept: usize,
}

/// 0 for a list of large entries, which would take long.
const KEPT: usize = 64;

/// What a crash leaves of each log file.
pub(crate) static LEFTS: [Left; 3] = [Left::All, Left::Synced, Left::Torn(7, 255)];

/// The outcomes of operations.
#[derive(Clone, Copy)]
pub(crate) struct CameTo<'a> {
    /// Whether the first opening succeeded. If not, there are no outcomes.
    pub(crate) is_opened: bool,
    pub(crate) outcomes: &'a [Outcome],
    pub(crate) failed_at: Option<usize>,
}

/// A synced put, entries, and operations that replace and remove some, among purges. Each file is
/// full after one or two writes.
static MIXED: [Plan; 11] = [
    Plan::Write(&[Change::Put(1, b"a", &[b'a'; 300])], true),
    Plan::Write(&[Change::Entries(2, 1, 40, &[b'x'; 57])], false),
    Plan::RewriteAppend(None, None),
    Plan::Write(&[Change::Entries(2, 31, 33, &[b'y'; 57])], false),
    Plan::CompactTo(2, 32),
    Plan::Write(&[Change::Delete(1, b"a")], false),
    Plan::RewriteAppend(None, None),
    Plan::RewriteRewrite,
    Plan::Purge,
    Plan::Write(&[Change::Clean(2)], false),
    Plan::PurgeStale,
];

/// Write groups that continue in next files.
static GROUPED: [Plan; 3] = [
    Plan::WriteGroup(&[
        (&[Change::Put(1, b"a", &[1; 500])], false),
        (&[Change::Entries(3, 1, 3, b"x")], true),
        (&[Change::Put(2, b"c", &[2; 500])], false),
    ]),
    Plan::WriteGroup(&[
        (&[Change::Entries(3, 2, 4, b"y")], false),
        (
            &[Change::Delete(1, b"a"), Change::Put(2, b"d", &[3; 500])],
            false,
        ),
    ]),
    Plan::Groups,
];

/// The end of a list: a put, or twice a put with the same number.
static LAST: [Plan; 1] = [Plan::Write(&[Change::Put(1, b"b", b"b")], false)];

/// The write; with numbers it becomes a `write_once`.
pub(crate) fn numbered(alloc: Global, op: Op, pairs: &[(u64, u64)]) -> Result<Op, AllocError> {
    if pairs.is_empty() {
        return Ok(op);
    }
    let mut op = op;
    let taken = match &mut op {
        Op::Write(acts, sync) => Some((mem::replace(acts, Vec::new(alloc)), *sync)),
        _ => None,
    };
    match taken {
        Some((acts, sync)) => Ok(Op::WriteOnce(acts, pairs.to_vec(alloc)?, sync)),
        None => Ok(op),
    }
}

/// The operations of a list.
#[derive(Clone, Copy)]
enum Script {
    Mixed,
    Grouped,
    Of(Sequence),
}

// Each table is named by its own function, since a proof has the whole table at each step.
fn plans_of(script: Script) -> &'static [Plan] {
    match script {
        Script::Mixed => MIXED.as_slice(),
        Script::Grouped => GROUPED.as_slice(),
        Script::Of(sequence) => plans_in(sequence),
    }
}

fn last_plans() -> &'static [Plan] {
    LAST.as_slice()
}

/// A name, operations, how often `LAST` follows them, its numbers, and the KB above which the
/// Append queue is purged.
struct Named(&'static str, Script, u64, &'static [(u64, u64)], u64);

static NAMED: [Named; 7] = [
    Named("put", Script::Mixed, 1, &[], 3),
    Named("once", Script::Mixed, 2, &[(1, 7)], 3),
    Named("keys", Script::Of(Sequence::Operations), 0, &[], 1),
    Named("groups", Script::Grouped, 0, &[], 1),
    Named("purges", Script::Of(Sequence::Purges), 0, &[], 1),
    Named("watermarks", Script::Of(Sequence::Expired), 0, &[], 1),
    Named("parts", Script::Of(Sequence::InParts), 0, &[], 1),
];

fn all_named() -> &'static [Named] {
    NAMED.as_slice()
}

fn row_named(name: &str) -> Option<&'static Named> {
    for row in all_named() {
        if row.0 == name {
            return Some(row);
        }
    }
    None
}

fn ops_in(alloc: Global, row: &Named) -> Result<Vec<Op>, AllocError> {
    let mut ops = ops_of(alloc, plans_of(row.1))?;
    for _ in 0..row.2 {
        for plan in last_plans() {
            ops.push(numbered(alloc, op_of(alloc, plan)?, row.3)?)?;
        }
    }
    Ok(ops)
}

impl List {
    pub(crate) fn named(alloc: Global, name: &str) -> Result<Option<List>, AllocError> {
        let Some(row) = row_named(name) else {
            return Ok(None);
        };
        Ok(Some(List {
            done: ops_in(alloc, row)?,
            told: ops_in(alloc, row)?,
            purge_threshold: row.4,
            kept: if name == "parts" { 0 } else { KEPT },
        }))
    }

    /// Derives the allowed images as if each plain write were synced.
    pub(crate) fn tell_as_synced(&mut self) {
        for op in self.told.iter_mut() {
            if let Op::Write(_, sync) = op {
                *sync = true;
            }
        }
    }

    pub(crate) fn config(&self, alloc: Global) -> Result<Config, AllocError> {
        let mut config = settings(alloc)?;
        config.purge_threshold = ReadableSize::kb(self.purge_threshold);
        Ok(config)
    }

    /// Whether the image is allowed. If no opening succeeded, only an empty one is.
    pub(crate) fn allows(
        &self,
        alloc: Global,
        ran: CameTo<'_>,
        found: &Image,
    ) -> Result<bool, Fault> {
        if !ran.is_opened {
            return Ok(found.groups.is_empty());
        }
        let images = allowed(alloc, &self.told, ran.outcomes, ran.failed_at)?;
        for image in &images {
            if *image == *found {
                return Ok(true);
            }
        }
        Ok(false)
    }
}
