//! What a purge decides about each group of the tables.
ghost use Rattle.std.specs.Prelude.{◌≡◌, IfOk, map, nat_le};
ghost use Rattle.std.specs.List.Sorted.{IsStrictlySortedBy};
ghost use Rattle.std.specs.Ordering.{nat_cmp};
ghost use Rattle.raft_tables.specs.Tables.{tables_of};
ghost use Rattle.raft_purge_rules.specs.Rounds.{rounds_of};
ghost use Rattle.raft_purge_rules.specs.Choosing.{AreDecisions, IsDecided, below_end, chosen_by, decision, groups_by, no_choice, use_of};

use crate::group_choice::{Choice, GroupUse, MAX_REWRITE_ENTRIES_PER_REGION, choose};
use crate::rounds::Rounds;
use raft_base::{FileId, FileSeq, LogQueue};
use raft_tables::{MemTable, MemTables};
use std::alloc::{AllocError, Global};

/// Which queues a purge rewrites: the Rewrite queue, and the Append queue at or before a watermark.
#[derive(Clone, Copy, Debug, PartialEq, Eq)]
pub struct Needs {
    pub rewrite: bool,
    pub append: Option<Watermarks>,
}

/// Up to which file of the Append queue a purge rewrites, and before which file a group is old.
#[derive(Clone, Copy, Debug, PartialEq, Eq)]
pub struct Watermarks {
    pub rewrite: FileSeq,
    pub compact: FileSeq,
}

/// What a purge decides about a group.
#[derive(Clone, Copy, Debug, PartialEq, Eq)]
pub struct Decision {
    pub group: u64,
    /// The Rewrite queue is rewritten, and has many of the group's entries.
    pub is_often_rewritten: bool,
    /// The decision about its data in the Append queue.
    pub choice: Choice,
}

/// The groups for which one of these holds.
#[derive(Clone, Copy, Debug, PartialEq, Eq)]
pub enum Chosen {
    /// Their compaction is requested.
    Asked,
    /// The same, because they are old and heavy.
    Heavy,
    /// They are rewritten.
    Rewritten,
}

/// The decision about each known group, in order, with these counts of requests.
pub fn decide_all(
    alloc: Global,
    tables: &MemTables,
    needs: &Needs,
    rounds: &Rounds,
) -> Result<Vec<Decision>, AllocError>
    ensures value { IfOk result (λ decisions.
        AreDecisions needs.now rounds.now (tables_of tables.now) decisions.items) }
    ensures ascending { IfOk result (λ decisions.
        IsStrictlySortedBy nat_cmp (map (λ d. d.group) decisions.items)) }
{
    let groups = tables.groups()?;
    let mut decisions = Vec::new(alloc);
    for group in &groups {
        let decided = decide(tables, *group, needs, rounds.is_due(*group));
        decisions.push(decided)?;
    }
    Ok(decisions)
}

fn decide(tables: &MemTables, group: u64, needs: &Needs, is_due: bool) -> Decision
    ensures value { IsDecided needs.now is_due (tables_of tables.now group) result }
    ensures group { result.group ≡ group }
{
    match tables.table(group) {
        Some(table) => decide_of(table, group, needs, is_due),
        None => Decision {
            group,
            is_often_rewritten: false,
            choice: no_choice(),
        },
    }
}

fn no_choice() -> Choice
    ensures value { result ≡ no_choice }
{
    Choice {
        is_asked: false,
        is_rewritten: false,
    }
}

fn decide_of(table: &MemTable, group: u64, needs: &Needs, is_due: bool) -> Decision
    ensures value { result ≡ decision group needs.now is_due table.now }
{
    let is_often_rewritten = needs.rewrite
        && table.rewrite_count() > MAX_REWRITE_ENTRIES_PER_REGION;
    let choice = match needs.append {
        Some(watermarks) => choose(
            &group_use(table, watermarks.rewrite),
            watermarks.compact,
            is_due,
        ),
        None => no_choice(),
    };
    Decision {
        group,
        is_often_rewritten,
        choice,
    }
}

/// What a group has in the log, seen from a watermark of the Append queue.
pub fn group_use(table: &MemTable, watermark: FileSeq) -> GroupUse
    ensures value { result ≡ use_of watermark table.now }
{
    let first = table.first_file(LogQueue::Append, FileSeq::MAX);
    let rewritten = table.rewrite_count();
    let id = FileId::new(LogQueue::Append, watermark);
    let many = MAX_REWRITE_ENTRIES_PER_REGION;
    GroupUse {
        first_file: below_end(first),
        rewritten,
        has_some_before: first <= watermark,
        has_many_before: table.has_at_least_some_entries_before(id, many as usize),
        has_many_appended_before: table.has_at_least_some_entries_before(
            id,
            many.saturating_add(rewritten) as usize,
        ),
    }
}

// No file has the greatest number.
fn below_end(first: FileSeq) -> Option<FileSeq>
    ensures value { result ≡ below_end first }
{
    if first < FileSeq::MAX {
        Some(first)
    } else {
        None
    }
}

impl Decision {
    /// Whether this holds for the group.
    pub fn is(&self, chosen: Chosen) -> bool
        ensures value { result ≡ chosen_by chosen self.now }
    {
        match chosen {
            Chosen::Asked => self.is_often_rewritten || self.choice.is_asked,
            Chosen::Heavy => self.choice.is_asked,
            Chosen::Rewritten => self.choice.is_rewritten,
        }
    }
}

/// The groups with this decision, in order.
pub fn groups_by(
    alloc: Global,
    decisions: &[Decision],
    chosen: Chosen,
) -> Result<Vec<u64>, AllocError>
    ensures value { IfOk result (λ groups. groups.items ≡ groups_by chosen decisions.now) }
    ensures ascending { IsStrictlySortedBy nat_cmp (map (λ d. d.group) decisions.now)
        → IfOk result (λ groups. IsStrictlySortedBy nat_cmp groups.items) }
{
    let mut groups = Vec::new(alloc);
    for decision in decisions {
        if decision.is(chosen) {
            groups.push(decision.group)?;
        }
    }
    Ok(groups)
}
