//! When the tables of the groups grow.

/// How many free places a table has, at least: up to an eighth of all, by the number of its group.
/// So of groups that are written in turn not all tables grow at one time.
pub(crate) fn room_of(group: u64, capacity: usize) -> usize {
    (capacity / 128).saturating_mul((group % 16) as usize)
}
