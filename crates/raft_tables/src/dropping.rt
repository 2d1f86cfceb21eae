//! How the memory of tables is freed.

use crate::memtable::MemTable;
use std::alloc::Global;
use std::collections::{HashMap, VecDeque};

/// How many rows of a table go before those of the next one.
const ROWS: usize = 16;

/// Drops a few rows of each table in turn. Groups that were written in turn have their rows side by
/// side in memory, and one table after the other would touch all of that memory once for each
/// table.
pub(crate) fn drop_in_turn(alloc: Global, tables: HashMap<u64, MemTable>) {
    let mut all = VecDeque::new(alloc);
    let mut turns: usize = 0;
    for (_, table) in tables {
        let rows = table.into_rows();
        turns = turns.saturating_add(rows.len() / ROWS + 1);
        // without memory for them they go at once
        let _ = all.push_back(rows);
    }
    for _ in 0..turns {
        let Some(mut rows) = all.pop_front() else {
            return;
        };
        for _ in 0..ROWS {
            let _ = rows.next();
        }
        if rows.len() > 0 {
            let _ = all.push_back(rows);
        }
    }
}
