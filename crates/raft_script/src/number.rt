//! Numbers in text.
ghost use Rattle.std.specs.Prelude.{◌≡◌};
ghost use Rattle.raft_script.specs.Number.{number_in};

/// The number that a word of decimal digits spells, if it is below 2^64. An empty word spells 0.
pub fn number_of(word: &[u8]) -> Option<u64>
    ensures value { result ≡ number_in word.now }
{
    let mut number = 0u64;
    for byte in word {
        if !byte.is_ascii_digit() {
            return None;
        }
        number = number
            .checked_mul(10)?
            .checked_add(u64::from(*byte - b'0'))?;
    }
    Some(number)
}
