//! The hash by which a table finds its keys.
ghost use Rattle.std.specs.Prelude.{◌≡◌};
ghost use Rattle.std.specs.List.{fold};
ghost use Rattle.raft_tables.specs.KeyHash.{first_state, hash_step, hash_write};

use std::hash::{BuildHasher, Hasher};

/// Makes the hash of each key. The library's own folds a product of 128 bits at each byte of a key.
#[derive(Clone, Copy)]
pub struct KeyHash;

/// A hash of bytes, one step a byte. A caller that picks the keys can make them collide.
#[derive(Clone, Copy)]
pub struct KeyHasher(u64);

impl BuildHasher for KeyHash {
    type Hasher = KeyHasher;

    ghost build_hasher = { λ _. first_state };

    #[inline(always)]
    fn build_hasher(&self) -> KeyHasher {
        KeyHasher(0x243f_6a88_85a3_08d3)
    }
}

impl Hasher for KeyHasher {
    ghost write = { hash_write };

    ghost finish = { λ h. h.0 };

    #[inline(always)]
    fn finish(&self) -> u64 {
        self.0
    }

    // The length, which is written before the bytes, is taken in one step.
    #[inline(always)]
    fn write(&mut self, bytes: &[u8]) {
        self.0 = match bytes.split_first_chunk::<8>() {
            Some((word, rest)) => {
                after_bytes(after_step(self.0, u64::from_le_bytes(*word)), rest)
            }
            None => after_bytes(self.0, bytes),
        };
    }
}

#[inline(always)]
fn after_bytes(first: u64, bytes: &[u8]) -> u64
    ensures value { result ≡ fold hash_step first bytes.now }
{
    let mut hash = first;
    for byte in bytes {
        hash = after_step(hash, u64::from(*byte));
    }
    hash
}

#[inline(always)]
fn after_step(hash: u64, bits: u64) -> u64
    ensures value { result ≡ hash_step hash bits }
{
    (hash ^ bits).wrapping_mul(0x9e37_79b9_7f4a_7c15)
}
