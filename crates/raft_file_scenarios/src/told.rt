//! Assertions over rows. The first row that fails is named.

use raft_records::Fault;
use raft_rows::{Row, first_wrong};
use std::alloc::Global;
use std::process::Abort;

/// Asserts each row of several tables, and names the first that fails by both places.
pub(crate) fn assert_tables<R: Abort, T: Row>(
    rt: &R,
    alloc: Global,
    state: &mut T::State,
    tables: &[&'static [T]],
) {
    for (table, rows) in tables.iter().enumerate() {
        let wrong = first_wrong(alloc, state, rows);
        assert!(rt; matches!(wrong, Ok(None)), "table {table}, row {wrong:?}");
    }
}

/// Asserts that no row failed; `wrong` is the place of the first that did.
pub(crate) fn assert_right<R: Abort>(rt: &R, wrong: Result<Option<usize>, Fault>) {
    assert!(rt; matches!(wrong, Ok(None)), "row {wrong:?}");
}

/// Asserts the row of this name.
pub(crate) fn assert_row<R: Abort>(rt: &R, held: bool, name: &str) {
    assert!(rt; held, "{name}");
}

/// Asserts the row at this place of a table.
pub(crate) fn assert_place<R: Abort>(rt: &R, held: bool, table: usize, row: usize) {
    assert!(rt; held, "table {table}, row {row}");
}
