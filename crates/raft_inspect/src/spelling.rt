//! Reads bytes as `Lines` spells them.
ghost use Rattle.std.specs.Prelude.{◌<◌, ◌≤◌, IfSome, length};

use std::alloc::{AllocError, AllocFailed, Global};
use thiserror::Error;

/// Why a text is not read as bytes.
#[derive(Debug, Error, Drop)]
pub enum Misspelled {
    #[error("out of memory")]
    Memory,
    #[error("a hexadecimal digit is missing, or is none")]
    NoDigits,
    #[error("a `\\` that begins no spelling of a byte")]
    NoEscape,
}

impl From<AllocError> for Misspelled {
    fn from(_: AllocError) -> Misspelled {
        Misspelled::Memory
    }
}

impl<T: Drop> From<AllocFailed<T>> for Misspelled {
    fn from(_: AllocFailed<T>) -> Misspelled {
        Misspelled::Memory
    }
}

/// The bytes of hexadecimal digits, two for each.
pub fn read_digits(alloc: Global, digits: &[u8]) -> Result<Vec<u8>, Misspelled> {
    let mut bytes = Vec::new(alloc);
    for pair in digits.chunks(2) {
        let [high, low] = pair else {
            return Err(Misspelled::NoDigits);
        };
        match byte_of(*high, *low) {
            Some(byte) => bytes.push(byte)?,
            None => return Err(Misspelled::NoDigits),
        }
    }
    Ok(bytes)
}

/// The bytes of a text in which `\x00` and the like mean bytes.
pub fn read_text(alloc: Global, text: &[u8]) -> Result<Vec<u8>, Misspelled> {
    let mut bytes = Vec::new(alloc);
    let mut left = text;
    'bytes: while let Some((sign, rest)) = left.split_first() {
        let Some((byte, after)) = told(*sign, rest) else {
            return Err(Misspelled::NoEscape);
        };
        bytes.push(byte)?;
        left = after;
    }
    Ok(bytes)
}

// The byte that a sign means, or begins to spell, and the rest.
fn told(sign: u8, rest: &[u8]) -> Option<(u8, &[u8])>
    ensures within { IfSome result (λ r. length r.1.now ≤ length rest.now) }
{
    if sign == b'\\' {
        spelled(rest)
    } else {
        Some((sign, rest))
    }
}

// The byte that is spelled after `\`, and the rest.
fn spelled(text: &[u8]) -> Option<(u8, &[u8])>
    ensures within { IfSome result (λ r. length r.1.now ≤ length text.now) }
{
    let (sign, rest) = text.split_first()?;
    match *sign {
        b't' => Some((b'\t', rest)),
        b'n' => Some((b'\n', rest)),
        b'r' => Some((b'\r', rest)),
        b'"' | b'\'' | b'\\' => Some((*sign, rest)),
        b'x' => {
            let (high, rest) = rest.split_first()?;
            let (low, rest) = rest.split_first()?;
            Some((byte_of(*high, *low)?, rest))
        }
        _ => None,
    }
}

fn byte_of(high: u8, low: u8) -> Option<u8> {
    let (high, low) = (value_of(high)?, value_of(low)?);
    Some(high * 16 + low)
}

fn value_of(digit: u8) -> Option<u8>
    ensures value { IfSome result (λ value. value < 16) }
{
    match digit {
        b'0'..=b'9' => Some(digit - b'0'),
        b'a'..=b'f' => Some(digit - b'a' + 10),
        b'A'..=b'F' => Some(digit - b'A' + 10),
        _ => None,
    }
}
