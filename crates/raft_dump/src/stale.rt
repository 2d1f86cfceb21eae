//! Records of an earlier file after those of a file that is used again.
ghost use Rattle.std.specs.Prelude.{◌≡◌, true, None, IfErr, IfOk};
ghost use Rattle.raft_base.specs.declared.errors.Fault.TheVariants.{Memory};
ghost use Rattle.raft_records.specs.ItemBatch.{record_refusal};
ghost use Rattle.raft_base.specs.FileId.{signature_in};
ghost use Rattle.raft_base.specs.declared.pipe_log.Version.TheVariants.{V2};
ghost use Rattle.raft_dump.specs.Stale.{IsSearched, headed_len, says_ended, says_stale};

use raft_codec::checksum::{CHECKSUM_LEN, crc32};
use raft_codec::number::take_u32;
use raft_records::{Fault, FileId, LogFileContext, Version, decode_header, decode_record};
use std::alloc::Global;

/// How many bytes after the last record of a file are searched for a record of an earlier file.
pub const STALE_LEN: usize = 1024 * 1024;

/// How many bytes of records are summed in such a search. Bytes that are no log's can hold a header at each place.
const STALE_SUM: usize = 64 * STALE_LEN;

/// How a search for a record of an earlier file ended.
#[derive(Clone, Copy, Debug, PartialEq, Eq)]
pub enum StaleSearch {
    /// The first record is signed for an earlier file.
    Stale,
    NotStale,
    /// Before it was done: records that would have been summed are longer together than 64 MiB.
    Ended,
}

impl StaleSearch {
    pub fn is_stale(self) -> bool
        ensures value { result ≡ says_stale self }
    {
        matches!(self, StaleSearch::Stale)
    }

    pub fn is_ended(self) -> bool
        ensures value { result ≡ says_ended self }
    {
        matches!(self, StaleSearch::Ended)
    }
}

/// Whether the first record in these bytes, at any place, is signed for an earlier file of the
/// queue, as after the records of a file that is used again.
pub fn search_stale(alloc: Global, id: FileId, bytes: &[u8]) -> Result<StaleSearch, Fault>
    ensures value { IfOk result (IsSearched id bytes.now) }
    ensures memory { IfErr result (λ e. e ≡ Memory) }
{
    let own = LogFileContext::new(id, Version::V2).get_signature();
    let mut summed = 0;
    for at in 0..bytes.len() {
        let len = record_len(&bytes[at..]);
        if STALE_SUM - summed < len {
            return Ok(StaleSearch::Ended);
        }
        summed += len;
        let found = signature_of(&bytes[at..]);
        if found.is_some() && found == own {
            return Ok(StaleSearch::NotStale);
        }
        // A record without a signature is of no file that is used again.
        if let Some(signature @ 1..) = found {
            let seq = u64::from(signature);
            if seq < id.seq && is_record_of(alloc, FileId::new(id.queue, seq), &bytes[at..])? {
                return Ok(StaleSearch::Stale);
            }
        }
    }
    Ok(StaleSearch::NotStale)
}

// How long the record is that the bytes may begin with, or 0 if it doesn't end in them.
fn record_len(bytes: &[u8]) -> usize
    ensures value { result ≡ headed_len bytes.now }
{
    match decode_header(bytes) {
        Ok(header) if header.len <= bytes.len() => header.len,
        _ => 0,
    }
}

// What the footer of the record that the bytes may begin with is signed with.
fn signature_of(bytes: &[u8]) -> Option<u32> {
    let header = decode_header(bytes).ok()?;
    let footer = bytes.get(header.footer..header.len)?;
    let (body, sum) = footer.split_at_checked(footer.len().checked_sub(CHECKSUM_LEN)?)?;
    let (sum, _) = take_u32(sum)?;
    Some(sum ^ crc32(body))
}

// Whether the bytes begin with a record that can be read in this file.
fn is_record_of(alloc: Global, id: FileId, bytes: &[u8]) -> Result<bool, Fault>
    ensures value { IfOk result (λ is. is ≡ true
        → record_refusal (signature_in V2 id.seq) bytes.now ≡ None) }
    ensures memory { IfErr result (λ e. e ≡ Memory) }
{
    let context = LogFileContext::new(id, Version::V2);
    match decode_record(alloc, bytes, 0, &context, Vec::new(alloc), true) {
        Ok(_) => Ok(true),
        Err(Fault::Memory) => Err(Fault::Memory),
        Err(_) => Ok(false),
    }
}
