//! The hard state, and its bytes.
ghost use Rattle.std.specs.Prelude.{◌≡◌, ◌<◌, ◌^◌, Some};
ghost use Rattle.raft_vote.specs.HardState.{may_follow, none_saved, read_state, state_bytes};

use raft_codec::number::{push_u64, take_u64, u64_round_trip};
use raft_records::{Fault, Message};
use std::alloc::{AllocError, Global};

/// A node's term, and the node that it voted for in this term: 0 for none. The commit index, which
/// raft-rs keeps in its `HardState`, is not part of it: Raft may lose it.
#[derive(Clone, Copy, Debug, PartialEq, Eq)]
pub struct HardState {
    pub term: u64,
    pub vote: u64,
}

impl HardState {
    /// The state of a node that has saved none.
    pub const NONE: HardState = HardState { term: 0, vote: 0 };

    /// Whether a node in this state may come to the later one: in a later term, or in the same term
    /// with the same vote or its first one.
    pub fn may_come_to(self, later: HardState) -> bool
        ensures value { result ≡ may_follow self later }
    {
        self.term < later.term
            || self.term == later.term && (self.vote == 0 || self.vote == later.vote)
    }
}

impl Message for HardState {
    ghost bytes_of = { state_bytes };

    ghost is_parsed = { λ bytes state. read_state bytes ≡ Some state };

    fn parse(_alloc: Global, bytes: &[u8]) -> Result<HardState, Fault> {
        match read(bytes) {
            Some(state) => Ok(state),
            None => Err(Fault::Parse),
        }
    }

    fn to_bytes(&self, buffer: &mut Vec<u8>) -> Result<(), AllocError> {
        push_u64(buffer, self.term)?;
        push_u64(buffer, self.vote)
    }
}

// The state with these bytes: the term and the vote, the greatest byte first.
fn read(bytes: &[u8]) -> Option<HardState>
    ensures value { result ≡ read_state bytes.now }
{
    let (term, rest) = take_u64(bytes)?;
    let (vote, rest) = take_u64(rest)?;
    if !rest.is_empty() {
        return None;
    }
    Some(HardState { term, vote })
}

// What is stored of a state is read as this state.
pub(crate) fn is_read_back(state: HardState)
    ensures { read_state (state_bytes state) ≡ Some state }
{
    u64_round_trip();
    numbers_fit(state.term, state.vote);
}

// By their types.
fn numbers_fit(term: u64, vote: u64)
    ensures { (term < 2 ^ 64) × (vote < 2 ^ 64) }
{}
