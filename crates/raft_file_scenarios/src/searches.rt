//! Searches for stale records in bytes that aren't a log's.

use crate::told::assert_place;
use raft_dump::{StaleSearch, search_stale};
use raft_records::{Fault, FileId, LogQueue};
use std::alloc::Global;

/// The header of a record of 8,192 bytes. The last 16 bytes are its footer.
const HEAD: [u8; 16] = [0, 0, 0, 0, 0, 0x20, 0, 0, 0, 0, 0, 0, 0, 0, 0x1f, 0xf0];

/// The number of headers in sequence, with zeros of one record's length after them. 8,192 such
/// records have 64 MiB together, the most that a search sums.
static SEARCHES: [(usize, StaleSearch); 4] = [
    (0, StaleSearch::NotStale),
    (1, StaleSearch::NotStale),
    (8192, StaleSearch::NotStale),
    (8193, StaleSearch::Ended),
];

fn searched(alloc: Global, heads: usize) -> Result<StaleSearch, Fault> {
    let mut bytes = Vec::new(alloc);
    for _ in 0..heads {
        bytes.extend_from_slice(&HEAD)?;
    }
    bytes.resize(bytes.len().saturating_add(8192), 0)?;
    search_stale(alloc, FileId::new(LogQueue::Append, 5), &bytes)
}

fn is_found(alloc: Global, heads: usize, wanted: &StaleSearch) -> bool {
    match searched(alloc, heads) {
        Ok(found) => found == *wanted,
        Err(_) => false,
    }
}

#[test]
fn a_search_ends(rt: HostRuntime) {
    for (place, (heads, wanted)) in SEARCHES.iter().enumerate() {
        assert_place(&rt, is_found(rt.alloc(), *heads, wanted), 0, place);
    }
}
