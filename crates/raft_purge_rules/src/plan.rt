//! What a purge by watermarks is to do.
ghost use Rattle.std.specs.Prelude.{◌≡◌, IfOk, None, false};
ghost use Rattle.std.specs.List.Sorted.{IsStrictlySortedBy};
ghost use Rattle.std.specs.Ordering.{nat_cmp};
ghost use Rattle.raft_tables.specs.Tables.{tables_of};
ghost use Rattle.raft_purge_rules.specs.Choosing.{AreDecisions, groups_by};
ghost use Rattle.raft_purge_rules.specs.Plan.{AreNextRounds, IsPlan};
ghost use Rattle.raft_purge_rules.specs.declared.choosing.Chosen.TheVariants.{Asked, Rewritten};

use crate::choosing::{Chosen, Decision, Needs, decide_all, groups_by};
use crate::rounds::Rounds;
use raft_tables::MemTables;
use std::alloc::{AllocError, Global};

/// The plan of a purge: which groups to request and which to rewrite, both in ascending order, and
/// the counts of requests in a row after it. They stay if the Append queue is not rewritten.
#[derive(Debug, Drop)]
pub struct PurgePlan {
    pub asked: Vec<u64>,
    pub rewritten: Vec<u64>,
    pub rounds: Option<Rounds>,
}

/// The plan of a purge that rewrites these queues, with these counts of requests. It looks at no
/// group if neither queue is rewritten. It fails only for lack of memory.
pub fn plan_purge(
    alloc: Global,
    tables: &MemTables,
    needs: &Needs,
    rounds: &Rounds,
) -> Result<PurgePlan, AllocError>
    ensures value { IfOk result (IsPlan needs.now rounds.now (tables_of tables.now)) }
    ensures ascending { IfOk result (λ plan. IsStrictlySortedBy nat_cmp plan.asked.items
        × IsStrictlySortedBy nat_cmp plan.rewritten.items) }
{
    if !needs.rewrite && needs.append.is_none() {
        return Ok(idle_plan(alloc));
    }
    let decisions = decide_all(alloc, tables, needs, rounds)?;
    let asked = groups_by(alloc, &decisions, Chosen::Asked)?;
    let rewritten = groups_by(alloc, &decisions, Chosen::Rewritten)?;
    let rounds = next_rounds(alloc, &decisions, needs, rounds)?;
    Ok(PurgePlan {
        asked,
        rewritten,
        rounds,
    })
}

/// The plan if neither queue is rewritten: nothing is done about any group.
fn idle_plan(alloc: Global) -> PurgePlan
    ensures value { (needs : Needs) (rounds : Rounds) (m : MemTables) → needs.rewrite ≡ false
        → needs.append ≡ None → IsPlan needs rounds (tables_of m) result }
    ensures ascending { IsStrictlySortedBy nat_cmp result.asked.items
        × IsStrictlySortedBy nat_cmp result.rewritten.items }
{
    PurgePlan {
        asked: Vec::new(alloc),
        rewritten: Vec::new(alloc),
        rounds: None,
    }
}

/// The counts after a purge; none if they stay.
fn next_rounds(
    alloc: Global,
    decisions: &[Decision],
    needs: &Needs,
    rounds: &Rounds,
) -> Result<Option<Rounds>, AllocError>
    ensures value { IfOk result (AreNextRounds needs.now.append decisions.now rounds.now) }
{
    if needs.append.is_none() {
        return Ok(None);
    }
    let heavy = groups_by(alloc, decisions, Chosen::Heavy)?;
    let next = rounds.after(&heavy)?;
    Ok(Some(next))
}
