//! The sum of groups.
ghost use Rattle.std.specs.Prelude.{◌≡◌, ◌++◌, [], ℕ, List};
ghost use Rattle.sha2.specs.Hashers.{Holds256};
ghost use Rattle.sha2.specs.Sha256.{sha256};

use sha2::{Digest, Sha256};
use std::marker::Model;

/// Sums the checksums of groups, in the order of the groups.
#[derive(Drop)]
pub struct LogSum {
    hasher: Sha256,
}

impl Model for LogSum {
    ghost use Rattle.sha2.specs.declared.Sha256.{Sha256};

    ghost Value = { Sha256 };

    ghost view = { λ s. s.hasher };
}

impl LogSum {
    /// The sum of no groups.
    pub fn new() -> LogSum
        ensures value { Holds256 result [] }
    {
        LogSum {
            hasher: Sha256::new(),
        }
    }

    /// Adds the checksum of a group.
    pub fn add_group(&mut self, sum: &[u8])
        ensures value { (m : List ℕ) → Holds256 self.old m
            → Holds256 self.new (m ++ sum.now) }
    {
        self.hasher.update(sum);
    }

    /// The checksum.
    pub fn finish(self) -> [u8; 32]
        ensures value { (m : List ℕ) → Holds256 self m → result ≡ sha256 m }
    {
        self.hasher.finalize()
    }
}
