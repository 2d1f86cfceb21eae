//! Laws of a saved state: what later openings find of it, and which calls leave it.
ghost use Rattle.raft_vote.specs.Stays.{NodesVoteOnce, OtherCallsLeaveIt, OtherWritesLeaveIt, SavedStatesStay};

use raft_log_engine::FileSystem;
use raft_world::laws::{calls_keep, what_calls_keep_is_found};

/// If an engine hasn't failed and all is synced, each later opening that returns `Ok` finds the
/// group's state or one that may follow it, and each later engine has it. That needs two premises:
/// each call leaves the state or moves it on, and the damage of each crash is detectable.
pub fn a_saved_state_stays<F: FileSystem>()
    ensures { SavedStatesStay F.FileSystem }
{
    what_calls_keep_is_found::<F>();
}

/// A node that responds only after `save` returned `Ok` votes once in a term. The first save gives
/// `Stays` (`stays`), and a later one returns `Ok` only if its state may follow the one found
/// (`refused`). If both states have the same term, they have the same vote. The premises are those
/// of `a_saved_state_stays`.
pub fn a_node_votes_once<F: FileSystem>()
    ensures { NodesVoteOnce F.FileSystem }
{}

/// Calls that leave a group's state: those whose batches don't put or delete its key `state` and
/// don't clean the group. `calls` says it of an effect, `write` of a caller's batch.
pub fn other_calls_leave_it<F: FileSystem>()
    ensures calls { OtherCallsLeaveIt F.FileSystem }
    ensures write { OtherWritesLeaveIt F.FileSystem }
{
    calls_keep::<F>();
}
