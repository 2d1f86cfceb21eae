//! What an opening would do with the files of a queue.
ghost use Rattle.std.specs.Prelude.{◌≡◌, ◌==◌, suc, IfErr, IfOk};
ghost use Rattle.raft_base.specs.declared.errors.Fault.TheVariants.{Memory};
ghost use Rattle.raft_dump.specs.Check.{AreLastToRise, numbers_of, plan_of, planned_stop};
ghost use Rattle.raft_config.specs.Recovery.{tolerates_corruption};

use crate::check::FileCheck;
use raft_config::RecoveryMode;
use raft_records::Fault;
use std::alloc::Global;

/// What an opening does with a file that it keeps.
#[derive(Clone, Copy, Debug, PartialEq, Eq)]
pub enum Planned {
    /// The file is read to its end.
    Keep,
    /// The bytes from here on are cut off.
    Cut(usize),
    /// The opening fails.
    Fail,
}

/// What an opening in this mode does with each of these files, which are those of a queue that it keeps.
pub fn plan_opening(
    alloc: Global,
    mode: RecoveryMode,
    checks: &[FileCheck],
) -> Result<Vec<Planned>, Fault>
    ensures value { IfOk result (λ plan. plan.items ≡ plan_of mode checks.now) }
    ensures memory { IfErr result (λ e. e ≡ Memory) }
{
    let mut plan = Vec::new(alloc);
    let mut left = checks;
    'files: while let Some((check, rest)) = left.split_first() {
        plan.push(plan_file(mode.tolerates_corruption(rest.is_empty()), check))?;
        left = rest;
    }
    Ok(plan)
}

fn plan_file(is_tolerant: bool, check: &FileCheck) -> Planned
    ensures value { result ≡ planned_stop is_tolerant check.now.end check.now.stop }
{
    match &check.stop {
        None => Planned::Keep,
        Some(Fault::Corruption) if is_tolerant => Planned::Cut(check.end),
        Some(_) => Planned::Fail,
    }
}

/// How many of these files, which are by number, precede the last ones with consecutive numbers: an
/// opening passes them over.
pub fn passed_over(checks: &[FileCheck]) -> usize
    ensures value { AreLastToRise (numbers_of checks.now) result }
{
    let mut passed = 0;
    for place in 1..checks.len() {
        if !is_next(checks[place - 1].id.seq, checks[place].id.seq) {
            passed = place;
        }
    }
    passed
}

fn is_next(before: u64, after: u64) -> bool
    ensures value { result ≡ (after == suc before) }
{
    before < after && after - before == 1
}
