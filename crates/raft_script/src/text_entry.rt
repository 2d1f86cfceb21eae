//! Entries of text.
ghost use Rattle.std.specs.Prelude.{◌≡◌, ◌==◌, ◌<◌, ◌≤◌, ◌^◌, ℕ, IfOk, List, length, map, MatchOption};
ghost use Rattle.std.specs.Fmt.{decimal};
ghost use Rattle.std.specs.List.{position_or_len};
ghost use Rattle.raft_script.specs.Entry.{IsTextOf, bytes_of_entry, index_of, text_bytes, text_entries};
ghost use Rattle.raft_script.specs.Batches.{indexed_bytes};

use crate::number::number_of;
use itoa::Buffer;
use raft_records::{Fault, Message, MessageExt};
use std::alloc::{AllocError, Global};

/// An entry of text: its bytes are the index in decimal, a colon and the word.
#[derive(Debug, PartialEq, Eq, Drop)]
pub struct TextEntry {
    pub index: u64,
    pub word: Vec<u8>,
}

impl Message for TextEntry {
    ghost bytes_of = { bytes_of_entry };

    ghost is_parsed = { IsTextOf };

    fn parse(alloc: Global, bytes: &[u8]) -> Result<TextEntry, Fault> {
        let Some((index, word)) = parse_text(bytes) else {
            return Err(Fault::Parse);
        };
        let word = word.to_vec(alloc)?;
        Ok(TextEntry { index, word })
    }

    fn to_bytes(&self, buffer: &mut Vec<u8>) -> Result<(), AllocError> {
        let mut digits = Buffer::new();
        buffer.extend_from_slice(digits.format(self.index).as_bytes())?;
        buffer.push(b':')?;
        buffer.extend_from_slice(&self.word)
    }
}

impl MessageExt for TextEntry {
    type Entry = TextEntry;

    ghost index_of = { index_of };

    fn index(entry: &TextEntry) -> u64 {
        entry.index
    }
}

/// The indexes from `first` to `last`, each with the bytes of its entry of text with this word.
pub fn entries_between(
    alloc: Global,
    first: u64,
    last: u64,
    word: &[u8],
) -> Result<Vec<(u64, Vec<u8>)>, AllocError>
    ensures value { IfOk result (λ entries. map indexed_bytes entries.items
        ≡ text_entries first last word.now) }
{
    let mut entries = Vec::new(alloc);
    for index in first..=last {
        let text = text_of(alloc, index, word)?;
        entries.push((index, text))?;
    }
    Ok(entries)
}

fn text_of(alloc: Global, index: u64, word: &[u8]) -> Result<Vec<u8>, AllocError>
    ensures value { IfOk result (λ text. text.items ≡ text_bytes index word.now) }
{
    let word = word.to_vec(alloc)?;
    let entry = TextEntry { index, word };
    let mut text = Vec::new(alloc);
    entry.to_bytes(&mut text)?;
    Ok(text)
}

// The index before the first colon, and the word after it.
fn parse_text(bytes: &[u8]) -> Option<(u64, &[u8])>
    ensures value { MatchOption result
        ((index : ℕ) (word : List ℕ) → index < 2 ^ 64 → bytes.now ≡ text_bytes index word → ⊥)
        (λ found. bytes.now ≡ text_bytes found.0 found.1.now) }
{
    let (digits, rest) = bytes.split_at(index_len(bytes));
    let [_, word @ ..] = rest else {
        return None;
    };
    Some((parse_index(digits)?, word))
}

// The place of the first colon, or the end.
fn index_len(bytes: &[u8]) -> usize
    ensures value { result ≡ position_or_len (λ byte. byte == 58) bytes.now }
    ensures within { result ≤ length bytes.now }
{
    let mut len = 0;
    while len < bytes.len() && bytes[len] != b':' {
        len += 1;
    }
    len
}

// The number that is printed as these digits; `None` for digits with a leading zero.
fn parse_index(digits: &[u8]) -> Option<u64>
    ensures value { MatchOption result
        ((number : ℕ) → number < 2 ^ 64 → digits.now ≡ decimal number → ⊥)
        (λ number. digits.now ≡ decimal number) }
{
    if digits.is_empty() {
        return None;
    }
    if digits.len() > 1 && digits[0] == b'0' {
        return None;
    }
    number_of(digits)
}
