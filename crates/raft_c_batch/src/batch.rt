//! Batches read from bytes: how many items there are, and of each a byte that says what it does, its
//! group, and
//!
//! | 1 | puts a value | the key, the value |
//! | 2 | deletes a key | the key |
//! | 3 | adds entries | how many, one at least, and each entry, which begins with its index |
//! | 4 | cleans the group | |
//! | 5 | drops the entries below an index | the index |
//!
//! A key, a value and an entry have their length before them. Each number takes eight bytes, the
//! greatest first.
ghost use Rattle.std.specs.Prelude.{◌≡◌, ◌++◌, [], ◌∷◌, Some, map, option_map, IfOk, IfErr, OnOk};
ghost use Rattle.raft_base.specs.declared.errors.Fault.TheVariants.{Memory};
ghost use Rattle.raft_c_batch.specs.declared.batch.BatchFault.TheVariants.{Refused};
ghost use Rattle.raft_c_batch.specs.Batch.{read_batch, stored_of, take_compact, take_content, take_delete, take_each, take_entries, take_entry, take_item, take_part, take_put, with_item_taken, with_taken};
ghost use Rattle.raft_c_batch.specs.Refusals.{IsAddRefusal, IsBatchRefusal, IsContentRefusal, IsPartRefusal};

use crate::entry::Entry;
use raft_codec::number::take_u64;
use raft_records::{Command, Fault, LogBatch};
use std::alloc::{AllocError, Global};

const PUT: u8 = 1;

const DELETE: u8 = 2;

const ENTRIES: u8 = 3;

const CLEAN: u8 = 4;

const COMPACT: u8 = 5;

/// Why bytes can't be written as a batch.
#[derive(Debug, Drop)]
pub enum BatchFault {
    /// They are no batch.
    Malformed,
    /// A batch refuses an item, or there was no memory.
    Refused(Fault),
}

impl From<Fault> for BatchFault {
    ghost from_gives = { λ fault refused. refused ≡ Refused fault };

    fn from(fault: Fault) -> BatchFault {
        BatchFault::Refused(fault)
    }
}

impl From<AllocError> for BatchFault {
    ghost from_gives = { λ _ refused. refused ≡ Refused Memory };

    fn from(_: AllocError) -> BatchFault {
        BatchFault::Refused(Fault::Memory)
    }
}

fn take_part(bytes: &[u8]) -> Option<(&[u8], &[u8])>
    ensures value { option_map (λ taken. (taken.0.now, taken.1.now)) result ≡ take_part bytes.now }
{
    let (len, rest) = take_u64(bytes)?;
    rest.split_at_checked(len as usize)
}

fn take_entry(alloc: Global, bytes: &[u8]) -> Result<(Entry, &[u8]), BatchFault>
    ensures ok { IfOk result (λ r. take_entry bytes.now ≡ Some (stored_of r.0, r.1.now)) }
    ensures cause { IfErr result (IsPartRefusal (take_entry bytes.now)) }
{
    let (part, rest) = take_part(bytes).ok_or(BatchFault::Malformed)?;
    match Entry::of(alloc, part)? {
        Some(entry) => Ok((entry, rest)),
        None => Err(BatchFault::Malformed),
    }
}

fn add_put<'a>(
    alloc: Global,
    batch: &mut LogBatch,
    group: u64,
    bytes: &'a [u8],
) -> Result<&'a [u8], BatchFault>
    ensures ok { IfOk result (λ rest. option_map (with_taken batch.old.items group)
        (take_put bytes.now) ≡ Some (batch.new.items, rest.now)) }
    ensures cause { IfErr result
        (IsContentRefusal batch.old.items group (take_put bytes.now)) }
{
    let (key, rest) = take_part(bytes).ok_or(BatchFault::Malformed)?;
    let (value, rest) = take_part(rest).ok_or(BatchFault::Malformed)?;
    batch.put(group, key.to_vec(alloc)?, value.to_vec(alloc)?)?;
    Ok(rest)
}

fn add_delete<'a>(
    alloc: Global,
    batch: &mut LogBatch,
    group: u64,
    bytes: &'a [u8],
) -> Result<&'a [u8], BatchFault>
    ensures ok { IfOk result (λ rest. option_map (with_taken batch.old.items group)
        (take_delete bytes.now) ≡ Some (batch.new.items, rest.now)) }
    ensures cause { IfErr result
        (IsContentRefusal batch.old.items group (take_delete bytes.now)) }
{
    let (key, rest) = take_part(bytes).ok_or(BatchFault::Malformed)?;
    batch.delete(group, key.to_vec(alloc)?)?;
    Ok(rest)
}

fn add_compact<'a>(
    batch: &mut LogBatch,
    group: u64,
    bytes: &'a [u8],
) -> Result<&'a [u8], BatchFault>
    ensures ok { IfOk result (λ rest. option_map (with_taken batch.old.items group)
        (take_compact bytes.now) ≡ Some (batch.new.items, rest.now)) }
    ensures cause { IfErr result
        (IsContentRefusal batch.old.items group (take_compact bytes.now)) }
{
    let (index, rest) = take_u64(bytes).ok_or(BatchFault::Malformed)?;
    batch.add_command(group, Command::Compact { index })?;
    Ok(rest)
}

fn push_entry(entries: &mut Vec<Entry>, entry: Entry) -> Result<(), AllocError>
    ensures ok { OnOk result (entries.new.items ≡ entries.old.items ++ entry ∷ []) }
{
    Ok(entries.push(entry)?)
}

// So many entries.
fn take_each(alloc: Global, count: u64, bytes: &[u8]) -> Result<(Vec<Entry>, &[u8]), BatchFault>
    ensures ok { IfOk result (λ r. take_each count bytes.now
        ≡ Some (map stored_of r.0.items, r.1.now)) }
    ensures cause { IfErr result (IsPartRefusal (take_each count bytes.now)) }
{
    let mut entries = Vec::new(alloc);
    let mut rest = bytes;
    for _ in 0..count {
        let (entry, tail) = take_entry(alloc, rest)?;
        push_entry(&mut entries, entry)?;
        rest = tail;
    }
    Ok((entries, rest))
}

fn add_entries<'a>(
    alloc: Global,
    batch: &mut LogBatch,
    group: u64,
    bytes: &'a [u8],
) -> Result<&'a [u8], BatchFault>
    ensures ok { IfOk result (λ rest. option_map (with_taken batch.old.items group)
        (take_entries bytes.now) ≡ Some (batch.new.items, rest.now)) }
    ensures cause { IfErr result
        (IsContentRefusal batch.old.items group (take_entries bytes.now)) }
{
    let (count, rest) = take_u64(bytes).ok_or(BatchFault::Malformed)?;
    if count == 0 {
        return Err(BatchFault::Malformed);
    }
    let (entries, rest) = take_each(alloc, count, rest)?;
    batch.add_entries::<Entry>(group, &entries)?;
    Ok(rest)
}

fn add_content<'a>(
    alloc: Global,
    batch: &mut LogBatch,
    group: u64,
    kind: u8,
    bytes: &'a [u8],
) -> Result<&'a [u8], BatchFault>
    ensures ok { IfOk result (λ rest. option_map (with_taken batch.old.items group)
        (take_content kind bytes.now) ≡ Some (batch.new.items, rest.now)) }
    ensures cause { IfErr result
        (IsContentRefusal batch.old.items group (take_content kind bytes.now)) }
{
    match kind {
        PUT => add_put(alloc, batch, group, bytes),
        DELETE => add_delete(alloc, batch, group, bytes),
        ENTRIES => add_entries(alloc, batch, group, bytes),
        CLEAN => {
            batch.add_command(group, Command::Clean)?;
            Ok(bytes)
        }
        COMPACT => add_compact(batch, group, bytes),
        _ => Err(BatchFault::Malformed),
    }
}

fn add_item<'a>(
    alloc: Global,
    batch: &mut LogBatch,
    bytes: &'a [u8],
) -> Result<&'a [u8], BatchFault>
    ensures ok { IfOk result (λ rest. option_map (with_item_taken batch.old.items)
        (take_item bytes.now) ≡ Some (batch.new.items, rest.now)) }
    ensures cause { IfErr result (IsAddRefusal batch.old.items (take_item bytes.now)) }
{
    let (kind, rest) = bytes.split_first().ok_or(BatchFault::Malformed)?;
    let (group, rest) = take_u64(rest).ok_or(BatchFault::Malformed)?;
    add_content(alloc, batch, group, *kind, rest)
}

/// Adds the items of a batch's bytes to a batch. After an `Err` some of them may be there.
pub fn add_items(alloc: Global, batch: &mut LogBatch, bytes: &[u8]) -> Result<(), BatchFault>
    ensures ok { OnOk result (option_map (λ items. batch.old.items ++ items)
        (read_batch bytes.now) ≡ Some batch.new.items) }
    ensures cause { IfErr result (IsBatchRefusal batch.old.items bytes.now) }
{
    let (count, mut rest) = take_u64(bytes).ok_or(BatchFault::Malformed)?;
    for _ in 0..count {
        rest = add_item(alloc, batch, rest)?;
    }
    if rest.is_empty() {
        Ok(())
    } else {
        Err(BatchFault::Malformed)
    }
}
