//! Groups and the numbers of a write that acts once.
ghost use Rattle.std.specs.Prelude.{◌≡◌, IfErr, IfOk, zip};
ghost use Rattle.raft_base.specs.declared.errors.Fault.TheVariants.{Memory};

use raft_log_engine::Fault;
use std::alloc::Global;

/// The groups with the numbers beside them. What only one of the two has is left out.
pub(crate) fn pairs_in(
    alloc: Global,
    groups: &[u64],
    numbers: &[u64],
) -> Result<Vec<(u64, u64)>, Fault>
    ensures ok { IfOk result (λ pairs. pairs.items ≡ zip groups.now numbers.now) }
    ensures cause { IfErr result (λ e. e ≡ Memory) }
{
    let mut pairs = Vec::new(alloc);
    for place in 0..groups.len().min(numbers.len()) {
        pairs.push((groups[place], numbers[place]))?;
    }
    Ok(pairs)
}
