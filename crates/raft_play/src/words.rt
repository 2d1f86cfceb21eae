//! Bytes as words: parts joined by `+`. A part is text, `0x` and hexadecimal digits, or `$` and a
//! name; `*N` after a part repeats it.

use hex::FromHexError;
use raft_test_rows::number_of;
use std::alloc::{AllocError, AllocFailed, Global};

/// Bytes that lines have named.
pub(crate) type Names = Vec<(String, Vec<u8>)>;

/// Why a word means no bytes.
#[derive(Clone, Copy)]
pub(crate) enum Misspelled {
    Memory,
    NoBytes,
}

impl From<AllocError> for Misspelled {
    fn from(_: AllocError) -> Misspelled {
        Misspelled::Memory
    }
}

impl<T: Drop> From<AllocFailed<T>> for Misspelled {
    fn from(_: AllocFailed<T>) -> Misspelled {
        Misspelled::Memory
    }
}

/// Whether a word is a number below 256.
pub(crate) fn is_byte(word: &str) -> bool {
    match number_of(word.as_bytes()) {
        Some(number) => number < 256,
        None => false,
    }
}

// The bytes of this name.
fn named<'a>(names: &'a Names, name: &str) -> Option<&'a [u8]> {
    for (known, bytes) in names {
        if known.as_str() == name {
            return Some(bytes.as_slice());
        }
    }
    None
}

fn add_digits(alloc: Global, digits: &str, bytes: &mut Vec<u8>) -> Result<(), Misspelled> {
    match hex::decode(alloc, digits) {
        Ok(decoded) => Ok(bytes.extend_from_slice(&decoded)?),
        Err(FromHexError::OutOfMemory) => Err(Misspelled::Memory),
        Err(_) => Err(Misspelled::NoBytes),
    }
}

fn add_part(
    alloc: Global,
    names: &Names,
    part: &str,
    bytes: &mut Vec<u8>,
) -> Result<(), Misspelled> {
    if let Some(digits) = part.strip_prefix("0x") {
        return add_digits(alloc, digits, bytes);
    }
    let added = match part.strip_prefix("$") {
        Some(name) => named(names, name),
        None => Some(part.as_bytes()),
    };
    match added {
        Some(added) => Ok(bytes.extend_from_slice(added)?),
        None => Err(Misspelled::NoBytes),
    }
}

// A part, and how often it is repeated.
fn repeated(part: &str) -> (&str, Option<u64>) {
    match part.split_once('*') {
        Some((part, times)) => (part, number_of(times.as_bytes())),
        None => (part, Some(1)),
    }
}

fn add_parts(
    alloc: Global,
    names: &Names,
    part: &str,
    bytes: &mut Vec<u8>,
) -> Result<(), Misspelled> {
    let (part, Some(times)) = repeated(part) else {
        return Err(Misspelled::NoBytes);
    };
    for _ in 0..times {
        add_part(alloc, names, part, bytes)?;
    }
    Ok(())
}

/// The bytes that a word spells.
pub(crate) fn bytes_of(alloc: Global, names: &Names, word: &str) -> Result<Vec<u8>, Misspelled> {
    let mut bytes = Vec::new(alloc);
    for part in word.split('+') {
        add_parts(alloc, names, part, &mut bytes)?;
    }
    Ok(bytes)
}

/// Whether these bytes are printed as text.
pub(crate) fn is_text(bytes: &[u8]) -> bool {
    if bytes.is_empty() || bytes.starts_with(b"0x") {
        return false;
    }
    for byte in bytes {
        if !byte.is_ascii_graphic() || matches!(byte, b'+' | b'*' | b'$') {
            return false;
        }
    }
    true
}

/// Whether all bytes equal the first one.
pub(crate) fn are_same(bytes: &[u8]) -> bool {
    for byte in bytes {
        if bytes.first() != Some(byte) {
            return false;
        }
    }
    true
}
