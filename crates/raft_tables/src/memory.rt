//! How many bytes the lists and maps of the tables take.

/// What the index of a hash map takes for a row: its hash and place, and a ninth of a group of 64.
const INDEX_BYTES: usize = 16;

/// The bytes of a list with room for so many items of this size.
pub(crate) fn list_bytes(capacity: usize, item: usize) -> u64 {
    (capacity as u64).saturating_mul(item as u64)
}

/// The bytes of a hash map with room for so many rows of this size.
pub(crate) fn map_bytes(capacity: usize, row: usize) -> u64 {
    list_bytes(capacity, row.saturating_add(INDEX_BYTES))
}
