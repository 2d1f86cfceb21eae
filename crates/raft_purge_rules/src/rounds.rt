//! How often in a row the compaction of groups was requested.
ghost use Rattle.std.specs.Prelude.{◌≡◌, ◌==◌, ℕ, nat_le, true, IfOk, OnOk, if◌then◌else◌};
ghost use Rattle.std.specs.List.{list_any};
ghost use Rattle.raft_purge_rules.specs.Rounds.{next_round, rounds_of};

use std::alloc::{AllocError, Global};
use std::collections::BTreeMap;

/// The number of rounds in a row in which a group is requested and not rewritten.
pub const MAX_ROUNDS: u32 = 9;

/// For each group, in how many purges in a row its compaction was requested and it was not
/// rewritten.
#[derive(Debug, Drop)]
pub struct Rounds {
    alloc: Global,
    counts: BTreeMap<u64, u32>,
}

impl Rounds {
    /// No group was requested. It takes no memory.
    pub fn new(alloc: Global) -> Rounds
        ensures value { (group : ℕ) → rounds_of result group ≡ 0 }
    {
        Rounds {
            alloc,
            counts: BTreeMap::new(alloc),
        }
    }

    fn of(&self, group: u64) -> u32
        ensures value { result ≡ rounds_of self.now group }
    {
        match self.counts.get(&group) {
            Some(count) => *count,
            None => 0,
        }
    }

    /// Whether a group is rewritten if it is requested once more.
    pub fn is_due(&self, group: u64) -> bool
        ensures value { result ≡ nat_le 9 (rounds_of self.now group) }
    {
        self.of(group) >= MAX_ROUNDS
    }

    fn next(&self, group: u64) -> u32
        ensures value { result ≡ next_round true (rounds_of self.now group) }
    {
        let rounds = self.of(group);
        if rounds >= MAX_ROUNDS { 0 } else { rounds + 1 }
    }

    fn set(&mut self, group: u64, rounds: u32) -> Result<(), AllocError>
        ensures ok { OnOk result ((one : ℕ) → rounds_of self.new one
            ≡ (if group == one then rounds else rounds_of self.old one)) }
    {
        self.counts.insert(group, rounds)?;
        Ok(())
    }

    /// The counts after one more purge, which requests these groups: each of them has one more, but
    /// those that were due begin again, and so do all others.
    pub fn after(&self, asked: &[u64]) -> Result<Rounds, AllocError>
        ensures value { IfOk result (λ rounds. (group : ℕ) → rounds_of rounds group
            ≡ next_round (list_any (λ one. one == group) asked.now) (rounds_of self.now group)) }
    {
        let mut rounds = Rounds::new(self.alloc);
        for group in asked {
            rounds.set(*group, self.next(*group))?;
        }
        Ok(rounds)
    }
}
