//! Which groups are rewritten next, within a budget.
ghost use Rattle.std.specs.Prelude.{◌≡◌, IfOk};
ghost use Rattle.std.specs.List.Sorted.{IsStrictlySortedBy};
ghost use Rattle.std.specs.Ordering.{nat_cmp};
ghost use Rattle.raft_tables.specs.Tables.{tables_of};
ghost use Rattle.raft_tables.specs.ToMove.{left_of};
ghost use Rattle.raft_purge_rules.specs.NextGroups.{AreNextGroups, FitBudget, cost_of_group};

use raft_base::FileSeq;
use raft_tables::MemTables;
use std::alloc::{AllocError, Global};

/// How many bytes of a budget the look at a group costs.
const LOOK_COST: u64 = 64;

/// Groups in ascending order, and the known group that follows them, if there is one.
#[derive(Debug, Drop)]
pub struct NextGroups {
    pub groups: Vec<u64>,
    pub next: Option<u64>,
}

/// The known groups from a number on: as many as cost together at most `budget` bytes, but at least
/// one. A group costs 64 bytes, and its entries and values in the Append queue's files up to a
/// watermark, or without one in the Rewrite queue. So a call looks at few groups that have nothing
/// there.
pub fn next_groups(
    alloc: Global,
    tables: &MemTables,
    from: u64,
    watermark: Option<FileSeq>,
    budget: u64,
) -> Result<NextGroups, AllocError>
    ensures value { IfOk result (AreNextGroups from (tables_of tables.now)) }
    ensures ascending { IfOk result (λ found. IsStrictlySortedBy nat_cmp found.groups.items) }
    ensures budget { IfOk result (FitBudget budget watermark tables.now) }
{
    let most = budget / LOOK_COST + 1;
    let first = tables.groups_from(from, most as usize)?;
    let mut groups = Vec::new(alloc);
    let mut left = budget;
    for group in &first.groups {
        match left_after(tables, *group, left, watermark) {
            Some(rest) => left = rest,
            None if groups.is_empty() => left = 0,
            None => {
                return Ok(NextGroups {
                    groups,
                    next: Some(*group),
                });
            }
        }
        groups.push(*group)?;
    }
    Ok(NextGroups {
        groups,
        next: first.next,
    })
}

/// What is left of a budget after a group, if it suffices.
fn left_after(
    tables: &MemTables,
    group: u64,
    budget: u64,
    watermark: Option<FileSeq>,
) -> Option<u64>
    ensures value { result ≡ left_of budget (cost_of_group watermark tables.now group) }
{
    let left = budget.checked_sub(LOOK_COST)?;
    tables.left_of(group, left, watermark)
}
