//! How many bytes of a log file are read at once.
ghost use Rattle.raft_dump.specs.Parts.{IsWanted};

use raft_records::{RECORD_HEADER_LEN, decode_header};

/// How many bytes of a file are read at once, unless a record needs more.
pub const PART_LEN: usize = 256 * 1024;

/// How many bytes are needed after the last record that was read from a part, `left` bytes before
/// the end of the file: none if the bytes there decide whether a record follows, else as many as
/// would decide it.
pub fn wanted_behind(rest: &[u8], left: usize) -> Option<usize>
    ensures value { IsWanted left rest.now result }
{
    if rest.len() >= left {
        return None;
    }
    match decode_header(rest) {
        Ok(header) if header.len > left => None,
        Ok(header) if header.len <= rest.len() => None,
        Ok(header) => Some(header.len),
        Err(_) if RECORD_HEADER_LEN <= rest.len() => None,
        Err(_) => Some(RECORD_HEADER_LEN.min(left)),
    }
}
