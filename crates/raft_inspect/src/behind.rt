//! Whole records after the place at which a log file is broken.
ghost use Rattle.std.specs.Prelude.{◌≡◌, true, false, None, length, IfErr, IfOk};
ghost use Rattle.raft_base.specs.declared.errors.Fault.TheVariants.{Memory};
ghost use Rattle.raft_base.specs.FileId.{file_signature};
ghost use Rattle.raft_records.specs.Record.{record_header};
ghost use Rattle.raft_dump.specs.Stale.{headed_len};
ghost use Rattle.raft_inspect.specs.Behind.{HoldsRecord, IsBroken, IsLongSearch, IsNoRecord, IsNoneIn};
ghost use Rattle.raft_inspect.specs.declared.behind.Behind.TheVariants.{Nothing, Record, Unsearched};

use raft_records::{Fault, FileId, LogFileContext, Version, decode_header, decode_record};
use std::alloc::Global;

/// A search ends after so many bytes of possible records; the last of these may pass the bound.
const MOST_BYTES: usize = 256 * 1024 * 1024;

/// The result of a search after a break.
#[derive(Clone, Copy, Debug, PartialEq, Eq)]
pub enum Behind {
    Nothing,
    /// A whole record of the file.
    Record,
    /// None until now; not everything was searched.
    Unsearched,
}

/// Searches bytes of a file at every place for a whole record that was written to it: of this
/// version, or of any if its header cannot be read.
pub fn search_behind(
    alloc: Global,
    id: FileId,
    version: Option<Version>,
    bytes: &[u8],
) -> Result<Behind, Fault>
    ensures found { IfOk result (λ found. found ≡ Record → HoldsRecord id.seq version bytes.now) }
    ensures none { IfOk result (λ found. found ≡ Nothing
        → IsNoneIn id.seq version bytes.now (length bytes.now)) }
    ensures full { IfOk result (λ found. found ≡ Unsearched → IsLongSearch bytes.now) }
    ensures memory { IfErr result (λ e. e ≡ Memory) }
{
    let mut left = MOST_BYTES;
    for at in 0..bytes.len() {
        if is_written(alloc, id, version, &bytes[at..])? {
            return Ok(Behind::Record);
        }
        let len = candidate_len(&bytes[at..]);
        if left <= len {
            return Ok(Behind::Unsearched);
        }
        left -= len;
    }
    Ok(Behind::Nothing)
}

/// The same search in steps, so that its caller can report how far it is.
#[derive(Clone, Copy)]
pub struct BehindSearch {
    /// How many places were searched.
    pub searched: usize,
    left: usize,
}

impl BehindSearch {
    /// Nothing was searched yet.
    pub fn new() -> BehindSearch {
        BehindSearch {
            searched: 0,
            left: MOST_BYTES,
        }
    }

    // Searches so many more places; none if the search is to go on.
    pub(crate) fn step(
        &mut self,
        alloc: Global,
        file: (FileId, Option<Version>),
        bytes: &[u8],
        places: usize,
    ) -> Result<Option<Behind>, Fault> {
        for _ in 0..places {
            let rest = bytes.get(self.searched..).unwrap_or(&[]);
            if rest.is_empty() {
                return Ok(Some(Behind::Nothing));
            }
            if is_written(alloc, file.0, file.1, rest)? {
                return Ok(Some(Behind::Record));
            }
            let len = candidate_len(rest);
            if self.left <= len {
                return Ok(Some(Behind::Unsearched));
            }
            self.left = self.left.saturating_sub(len);
            self.searched = self.searched.saturating_add(1);
        }
        Ok(None)
    }
}

// How many bytes are read where these may begin with a record.
fn candidate_len(bytes: &[u8]) -> usize
    ensures value { result ≡ headed_len bytes.now }
{
    match decode_header(bytes) {
        Ok(header) if header.len <= bytes.len() => header.len,
        _ => 0,
    }
}

fn is_written(
    alloc: Global,
    id: FileId,
    version: Option<Version>,
    bytes: &[u8],
) -> Result<bool, Fault>
    ensures no { IfOk result (λ is. is ≡ false → IsNoRecord id.seq version bytes.now) }
    ensures yes { IfOk result (λ is. is ≡ true → ¬ IsNoRecord id.seq version bytes.now) }
    ensures memory { IfErr result (λ e. e ≡ Memory) }
{
    if !has_header(bytes) {
        return Ok(false);
    }
    match version {
        Some(version) => is_record(alloc, LogFileContext::new(id, version), bytes),
        None => Ok(
            is_record(alloc, LogFileContext::new(id, Version::V2), bytes)?
                || is_record(alloc, LogFileContext::new(id, Version::V1), bytes)?,
        ),
    }
}

fn has_header(bytes: &[u8]) -> bool
    ensures no { result ≡ false → record_header bytes.now ≡ None }
{
    decode_header(bytes).is_ok()
}

// Whether a record begins here that the file's reading would take, compressed or not.
fn is_record(alloc: Global, context: LogFileContext, bytes: &[u8]) -> Result<bool, Fault>
    ensures no { IfOk result (λ is. is ≡ false → IsBroken (file_signature context) bytes.now) }
    ensures yes { IfOk result (λ is. is ≡ true → ¬ IsBroken (file_signature context) bytes.now) }
    ensures memory { IfErr result (λ e. e ≡ Memory) }
{
    match decode_record(alloc, bytes, 0, &context, Vec::new(alloc), true) {
        Ok(_) => Ok(true),
        Err(Fault::Memory) => Err(Fault::Memory),
        Err(Fault::Corruption) => Ok(false),
        Err(_) => Ok(true),
    }
}
