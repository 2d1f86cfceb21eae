//! Assertions over rows: a failed test names its row.

use std::process::Abort;

/// Asserts the row at this place of a table.
pub(crate) fn assert_place<R: Abort>(rt: &R, held: bool, table: usize, row: usize) {
    assert!(rt; held, "table {table}, row {row}");
}

/// Asserts the row of this name.
pub(crate) fn assert_row<R: Abort>(rt: &R, held: bool, name: &str) {
    assert!(rt; held, "{name}");
}

/// Asserts the row of this name with this number of threads, or at this place.
pub(crate) fn assert_at<R: Abort>(rt: &R, held: bool, name: &str, number: usize) {
    assert!(rt; held, "{name}, {number}");
}
