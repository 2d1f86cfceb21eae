//! Tables of rows, tried one after the other.

use raft_records::Fault;
use std::alloc::Global;

/// A row of a table, and what the rows of the table share.
pub trait Row {
    type State;

    /// Whether it comes to what the row says.
    fn holds(&self, alloc: Global, state: &mut Self::State) -> Result<bool, Fault>;
}

/// The place of the first row that comes to something else.
pub fn first_wrong<T: Row>(
    alloc: Global,
    state: &mut T::State,
    rows: &'static [T],
) -> Result<Option<usize>, Fault> {
    for (place, row) in rows.iter().enumerate() {
        if !row.holds(alloc, state)? {
            return Ok(Some(place));
        }
    }
    Ok(None)
}
