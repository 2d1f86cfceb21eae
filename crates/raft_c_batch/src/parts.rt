//! Answers as bytes, part by part.
ghost use Rattle.std.specs.Prelude.{◌≡◌, ◌++◌, [], Ok, OnOk, map};
ghost use Rattle.raft_c_batch.specs.Batch.{entries_bytes, part_bytes, stored_of};
ghost use Rattle.raft_c_batch.specs.Parts.{numbers_bytes};

use crate::entry::Entry;
use raft_codec::number::push_u64;
use std::alloc::AllocError;

// A part with its length before it.
fn push_part(bytes: &mut Vec<u8>, part: &[u8]) -> Result<(), AllocError>
    ensures ok { OnOk result (bytes.new.items ≡ bytes.old.items ++ part_bytes part.now) }
{
    push_u64(bytes, part.len() as u64)?;
    bytes.extend_from_slice(part)
}

/// A key and a value, each with its length before it.
pub fn push_pair(bytes: &mut Vec<u8>, key: &[u8], value: &[u8]) -> Result<(), AllocError>
    ensures ok { OnOk result (bytes.new.items
        ≡ bytes.old.items ++ (part_bytes key.now ++ part_bytes value.now)) }
{
    push_part(bytes, key)?;
    push_part(bytes, value)
}

/// The entries, each with its length before it. It takes no memory for none.
pub fn push_entries(bytes: &mut Vec<u8>, entries: &[Entry]) -> Result<(), AllocError>
    ensures ok { OnOk result (bytes.new.items
        ≡ bytes.old.items ++ entries_bytes (map stored_of entries.now)) }
    ensures memory { entries.now ≡ [] → result ≡ Ok tt }
{
    for entry in entries {
        push_part(bytes, entry.bytes())?;
    }
    Ok(())
}

/// The numbers, each in eight bytes, the greatest first.
pub fn push_numbers(bytes: &mut Vec<u8>, numbers: &[u64]) -> Result<(), AllocError>
    ensures ok { OnOk result (bytes.new.items ≡ bytes.old.items ++ numbers_bytes numbers.now) }
{
    for number in numbers {
        push_u64(bytes, *number)?;
    }
    Ok(())
}
