//! The sum of one group.
ghost use Rattle.std.specs.Prelude.{◌≡◌, ◌++◌, ◌∷◌, [], ℕ, List};
ghost use Rattle.raft_codec.specs.Number.{u64_bytes};
ghost use Rattle.raft_sum.specs.Sum.{entry_bytes, pair_bytes, part_bytes};
ghost use Rattle.sha2.specs.Hashers.{Holds256};
ghost use Rattle.sha2.specs.Sha256.{sha256};

use sha2::{Digest, Sha256};
use std::marker::Model;

/// What begins an entry, and what begins a key.
const ENTRY: u8 = 1;

const PAIR: u8 = 2;

/// Sums a group: its number, its entries in the order of their indexes, and its keys in their order.
#[derive(Drop)]
pub struct GroupSum {
    hasher: Sha256,
}

impl Model for GroupSum {
    ghost use Rattle.sha2.specs.declared.Sha256.{Sha256};

    ghost Value = { Sha256 };

    ghost view = { λ s. s.hasher };
}

impl GroupSum {
    /// The sum of a group without entries and keys.
    pub fn new(group: u64) -> GroupSum
        ensures value { Holds256 result (u64_bytes group) }
    {
        let mut hasher = Sha256::new();
        hasher.update(number(group).as_slice());
        GroupSum { hasher }
    }

    /// Adds an entry.
    pub fn add_entry(&mut self, index: u64, bytes: &[u8])
        ensures value { (m : List ℕ) → Holds256 self.old m
            → Holds256 self.new (m ++ entry_bytes index bytes.now) }
    {
        self.hasher.update([ENTRY].as_slice());
        self.hasher.update(number(index).as_slice());
        self.add_part(bytes);
    }

    /// Adds a key and its value.
    pub fn add_pair(&mut self, key: &[u8], value: &[u8])
        ensures value { (m : List ℕ) → Holds256 self.old m
            → Holds256 self.new (m ++ pair_bytes key.now value.now) }
    {
        self.hasher.update([PAIR].as_slice());
        self.add_part(key);
        self.add_part(value);
    }

    fn add_part(&mut self, bytes: &[u8])
        ensures value { (m : List ℕ) → Holds256 self.old m
            → Holds256 self.new (m ++ part_bytes bytes.now) }
    {
        self.hasher.update(number(bytes.len() as u64).as_slice());
        self.hasher.update(bytes);
    }

    /// The checksum.
    pub fn finish(self) -> [u8; 32]
        ensures value { (m : List ℕ) → Holds256 self m → result ≡ sha256 m }
    {
        self.hasher.finalize()
    }
}

// Eight bytes, the greatest first.
#[tactic(auto, unfolding(raft_codec::specs::Number::u64_bytes))]
fn number(n: u64) -> [u8; 8]
    ensures value { result ≡ u64_bytes n }
{
    n.to_be_bytes()
}
