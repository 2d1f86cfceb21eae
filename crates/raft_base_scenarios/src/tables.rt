//! Tables of entries, and of keys and values.

use crate::asks::{Ask, item_of, one_item};
use crate::changes::{Change, push_items};
use crate::told::{assert_rows, assert_tables};
use raft_records::{Fault, FileId, LogItem, LogQueue};
use raft_rows::Row;
use raft_tables::{GlobalStats, MemTable, MemTables};
use std::alloc::{AllocError, Global};

const FILE_1: FileId = FileId {
    queue: LogQueue::Append,
    seq: 1,
};

const FILE_2: FileId = FileId { seq: 2, ..FILE_1 };

const FILE_3: FileId = FileId { seq: 3, ..FILE_1 };

const FILE_4: FileId = FileId { seq: 4, ..FILE_1 };

const FILE_5: FileId = FileId { seq: 5, ..FILE_1 };

const FILE_7: FileId = FileId { seq: 7, ..FILE_1 };

const FILE_8: FileId = FileId { seq: 8, ..FILE_1 };

const FILE_9: FileId = FileId { seq: 9, ..FILE_1 };

const FILE_15: FileId = FileId { seq: 15, ..FILE_1 };

const FILE_17: FileId = FileId { seq: 17, ..FILE_1 };

fn file(seq: u64) -> FileId {
    FileId::new(LogQueue::Append, seq)
}

/// The index of an entry, and its file.
pub(crate) type Entry = (u64, FileId);

/// The value at a key with its file; `None` if the key has none.
pub(crate) type Held = Option<(&'static [u8], FileId)>;

/// Whether items fit, or why the first of the others doesn't.
enum Fit {
    Whole,
    Gap,
    Range,
}

/// A change of tables or a read of them, and its result.
enum Step {
    /// The tables are empty again.
    Begin,
    /// The number of the file of the changes, and the changes. Applying them leaves no item.
    Changes(u64, &'static [Change]),
    /// A group, its key, and the value with its file.
    Value(u64, &'static [u8], Held),
    /// The groups, in order.
    Groups(&'static [u64]),
    /// A group, and its keys with their values, in order.
    Pairs(u64, &'static [(&'static [u8], &'static [u8])]),
    /// The number of the file of an item of group 1, the item, and the group's entries afterwards,
    /// none with index 6. Then whether the group is known.
    Item(u64, Ask, &'static [Entry], bool),
    /// Items, each after its group, and whether they fit.
    Check(&'static [(u64, Ask)], Fit),
    /// The first file that the tables refer to; 99 if there is none.
    First(u64),
}

static APPLIED: [Step; 10] = [
    Step::Begin,
    Step::Changes(
        1,
        &[
            Change(1, b"a", Some(b"1")),
            Change(1, b"b", Some(b"2")),
            Change(2, b"a", Some(b"3")),
        ],
    ),
    Step::Changes(
        2,
        &[
            Change(1, b"a", Some(b"4")),
            Change(1, b"b", None),
            Change(1, b"__\x01", Some(b"\0")),
            Change(2, b"b", Some(b"5")),
            Change(2, b"b", None),
            Change(2, b"b", Some(b"6")),
            Change(3, b"a", None),
        ],
    ),
    Step::Value(1, b"a", Some((b"4", FILE_2))),
    Step::Value(1, b"b", None),
    Step::Value(1, b"__\x01", None),
    Step::Value(2, b"a", Some((b"3", FILE_1))),
    Step::Value(2, b"b", Some((b"6", FILE_2))),
    Step::Value(2, b"", None),
    Step::Value(3, b"a", None),
];

static LISTED: [Step; 6] = [
    Step::Begin,
    Step::Changes(
        1,
        &[
            Change(9, b"b", Some(b"1")),
            Change(9, b"ab", Some(b"2")),
            Change(9, b"a", Some(b"3")),
            Change(1, b"", Some(b"")),
        ],
    ),
    Step::Groups(&[1, 9]),
    Step::Pairs(1, &[(b"", b"")]),
    Step::Pairs(2, &[]),
    Step::Pairs(9, &[(b"a", b"3"), (b"ab", b"2"), (b"b", b"1")]),
];

static ENTRIES: [Step; 18] = [
    Step::Begin,
    Step::Item(1, Ask::Compact(3), &[], false),
    Step::Item(2, Ask::Put(&[]), &[], false),
    Step::Item(
        3,
        Ask::Put(&[1, 2, 3]),
        &[(1, FILE_3), (2, FILE_3), (3, FILE_3)],
        true,
    ),
    Step::Item(
        4,
        Ask::Put(&[4, 5]),
        &[
            (1, FILE_3),
            (2, FILE_3),
            (3, FILE_3),
            (4, FILE_4),
            (5, FILE_4),
        ],
        true,
    ),
    Step::Item(
        5,
        Ask::Put(&[3, 4]),
        &[(1, FILE_3), (2, FILE_3), (3, FILE_5), (4, FILE_5)],
        true,
    ),
    Step::Item(
        6,
        Ask::Compact(0),
        &[(1, FILE_3), (2, FILE_3), (3, FILE_5), (4, FILE_5)],
        true,
    ),
    Step::Item(
        7,
        Ask::Compact(2),
        &[(2, FILE_3), (3, FILE_5), (4, FILE_5)],
        true,
    ),
    Step::Item(8, Ask::Put(&[1]), &[(1, FILE_8)], true),
    Step::Item(9, Ask::Put(&[7, 8]), &[(7, FILE_9), (8, FILE_9)], true),
    Step::Item(10, Ask::Put(&[]), &[(7, FILE_9), (8, FILE_9)], true),
    Step::Item(11, Ask::Put(&[9, 11]), &[(7, FILE_9), (8, FILE_9)], true),
    Step::Item(12, Ask::Put(&[u64::MAX]), &[(7, FILE_9), (8, FILE_9)], true),
    Step::Item(13, Ask::Compact(8), &[(8, FILE_9)], true),
    Step::Item(14, Ask::Compact(9), &[], true),
    Step::Item(15, Ask::Put(&[5]), &[(5, FILE_15)], true),
    Step::Item(16, Ask::Clean, &[], false),
    Step::Item(
        17,
        Ask::Put(&[u64::MAX - 1]),
        &[(u64::MAX - 1, FILE_17)],
        true,
    ),
];

/// Items that are checked after group 1 has entries 1 to 3.
static CHECKS: [Step; 20] = [
    Step::Begin,
    Step::Item(
        1,
        Ask::Put(&[1, 2, 3]),
        &[(1, FILE_1), (2, FILE_1), (3, FILE_1)],
        true,
    ),
    Step::Check(&[], Fit::Whole),
    Step::Check(&[(1, Ask::Put(&[4]))], Fit::Whole),
    Step::Check(&[(1, Ask::Put(&[1]))], Fit::Whole),
    Step::Check(&[(1, Ask::Put(&[5]))], Fit::Gap),
    Step::Check(&[(1, Ask::Put(&[0]))], Fit::Gap),
    Step::Check(&[(1, Ask::Put(&[4, 6]))], Fit::Gap),
    Step::Check(&[(2, Ask::Put(&[9, 10]))], Fit::Whole),
    Step::Check(&[(2, Ask::Put(&[9, 11]))], Fit::Gap),
    Step::Check(&[(2, Ask::Put(&[9, u64::MAX]))], Fit::Range),
    Step::Check(&[(1, Ask::Put(&[4])), (1, Ask::Put(&[5]))], Fit::Whole),
    Step::Check(&[(1, Ask::Put(&[2])), (1, Ask::Put(&[4]))], Fit::Gap),
    Step::Check(&[(1, Ask::Clean), (1, Ask::Put(&[9]))], Fit::Whole),
    Step::Check(&[(1, Ask::Compact(4)), (1, Ask::Put(&[9]))], Fit::Whole),
    Step::Check(&[(1, Ask::Compact(3)), (1, Ask::Put(&[2]))], Fit::Gap),
    Step::Check(&[(1, Ask::Put(&[4])), (2, Ask::Put(&[7]))], Fit::Whole),
    Step::Check(
        &[
            (2, Ask::Put(&[7])),
            (1, Ask::Put(&[4])),
            (2, Ask::Put(&[8])),
        ],
        Fit::Whole,
    ),
    Step::Check(
        &[
            (2, Ask::Put(&[7])),
            (1, Ask::Put(&[4])),
            (2, Ask::Put(&[9])),
        ],
        Fit::Gap,
    ),
    Step::Check(
        &[
            (2, Ask::Put(&[7])),
            (1, Ask::Compact(3)),
            (1, Ask::Put(&[2])),
        ],
        Fit::Gap,
    ),
];

static FIRST_FILES: [Step; 20] = [
    Step::Begin,
    Step::First(99),
    Step::Changes(
        1,
        &[Change(1, b"a", Some(b"1")), Change(2, b"a", Some(b"2"))],
    ),
    Step::First(1),
    Step::Changes(
        2,
        &[Change(1, b"a", Some(b"3")), Change(1, b"b", Some(b"4"))],
    ),
    Step::First(1),
    Step::Changes(3, &[Change(2, b"a", Some(b"5"))]),
    Step::First(2),
    Step::Changes(4, &[Change(1, b"a", Some(b"6")), Change(1, b"b", None)]),
    Step::First(3),
    Step::Item(5, Ask::Put(&[1, 2]), &[(1, FILE_5), (2, FILE_5)], true),
    Step::First(3),
    Step::Changes(7, &[Change(2, b"a", None), Change(1, b"a", None)]),
    Step::First(5),
    Step::Item(
        8,
        Ask::Put(&[2, 3]),
        &[(1, FILE_5), (2, FILE_8), (3, FILE_8)],
        true,
    ),
    Step::First(5),
    Step::Item(9, Ask::Compact(2), &[(2, FILE_8), (3, FILE_8)], true),
    Step::First(8),
    Step::Item(9, Ask::Clean, &[], true),
    Step::First(99),
];

// Applies an item of group 1.
pub(crate) fn apply_one(
    alloc: Global,
    tables: &mut MemTables,
    id: FileId,
    ask: &Ask,
    stats: &mut GlobalStats,
) -> Result<(), Fault> {
    let mut items = one_item(alloc, id, ask)?;
    tables.apply_append_writes(&mut items, id, stats)
}

// Applies changes. Returns whether no item is left.
fn applies(
    alloc: Global,
    tables: &mut MemTables,
    id: FileId,
    changes: &[Change],
) -> Result<bool, Fault> {
    let mut items = Vec::new(alloc);
    push_items(alloc, changes, &mut items)?;
    tables.apply_append_writes(&mut items, id, &mut GlobalStats::new())?;
    Ok(items.is_empty())
}

/// Whether the group has this value at the key.
pub(crate) fn has_value(tables: &MemTables, group: u64, key: &[u8], wanted: &Held) -> bool {
    match (tables.get(group, key), tables.place_of(group, key), wanted) {
        (Some(value), Some(place), Some((wanted, id))) => value == *wanted && place == *id,
        (None, None, None) => true,
        _ => false,
    }
}

fn are_groups(tables: &MemTables, wanted: &[u64]) -> Result<bool, AllocError> {
    Ok(tables.groups()?.as_slice() == wanted)
}

fn are_pairs(pairs: &[(Vec<u8>, Vec<u8>)], wanted: &[(&[u8], &[u8])]) -> bool {
    for (pair, wanted) in pairs.iter().zip(wanted) {
        if pair.0.as_slice() != wanted.0 || pair.1.as_slice() != wanted.1 {
            return false;
        }
    }
    pairs.len() == wanted.len()
}

fn has_pairs(
    tables: &MemTables,
    group: u64,
    wanted: &[(&[u8], &[u8])],
) -> Result<bool, AllocError> {
    Ok(are_pairs(&tables.pairs(group)?, wanted))
}

// The file of the entry.
fn file_of(tables: &MemTables, index: u64) -> Option<FileId> {
    let block = tables.entry(1, index)?.block?;
    Some(block.id)
}

// Whether these are the first and the last index of group 1.
fn is_span(tables: &MemTables, first: Option<&Entry>, last: Option<&Entry>) -> bool {
    match (tables.first_index(1), tables.last_index(1), first, last) {
        (Some(from), Some(to), Some(first), Some(last)) => from == first.0 && to == last.0,
        (None, None, None, None) => true,
        _ => false,
    }
}

/// Whether group 1 has exactly these entries between its first and last index, each in its file.
pub(crate) fn has_entries(tables: &MemTables, wanted: &[Entry]) -> bool {
    for (index, id) in wanted {
        if file_of(tables, *index) != Some(*id) {
            return false;
        }
    }
    is_span(tables, wanted.first(), wanted.last())
}

// Whether applying the item leaves these entries, and no entry 6.
fn leaves(
    alloc: Global,
    tables: &mut MemTables,
    id: FileId,
    ask: &Ask,
    wanted: &[Entry],
) -> Result<bool, Fault> {
    apply_one(alloc, tables, id, ask, &mut GlobalStats::new())?;
    Ok(has_entries(tables, wanted) && file_of(tables, 6).is_none())
}

// Whether any group is known.
fn is_known(tables: &MemTables) -> Result<bool, AllocError> {
    Ok(!tables.groups()?.is_empty())
}

fn push_asked(
    alloc: Global,
    asked: &[(u64, Ask)],
    items: &mut Vec<LogItem>,
) -> Result<(), AllocError> {
    for (group, ask) in asked {
        items.push(item_of(alloc, *group, FILE_2, ask)?)?;
    }
    Ok(())
}

// Whether the check of the items has this outcome.
fn fits(
    alloc: Global,
    tables: &MemTables,
    asked: &[(u64, Ask)],
    wanted: &Fit,
) -> Result<bool, AllocError> {
    let mut items = Vec::new(alloc);
    push_asked(alloc, asked, &mut items)?;
    match (tables.check(&items), wanted) {
        (Ok(()), Fit::Whole) => Ok(true),
        (Err(Fault::Gap), Fit::Gap) => Ok(true),
        (Err(Fault::Range), Fit::Range) => Ok(true),
        _ => Ok(false),
    }
}

impl Row for Step {
    type State = MemTables;

    fn holds(&self, alloc: Global, tables: &mut MemTables) -> Result<bool, Fault> {
        match self {
            Step::Begin => {
                *tables = MemTables::new(alloc);
                Ok(true)
            }
            Step::Changes(seq, changes) => applies(alloc, tables, file(*seq), changes),
            Step::Value(group, key, held) => Ok(has_value(tables, *group, key, held)),
            Step::Groups(wanted) => Ok(are_groups(tables, wanted)?),
            Step::Pairs(group, wanted) => Ok(has_pairs(tables, *group, wanted)?),
            Step::Item(seq, ask, wanted, known) => Ok(
                leaves(alloc, tables, file(*seq), ask, wanted)? && is_known(tables)? == *known,
            ),
            Step::Check(asked, fit) => Ok(fits(alloc, tables, asked, fit)?),
            Step::First(wanted) => Ok(tables.first_file(LogQueue::Append, 99) == *wanted),
        }
    }
}

// A function is checked with the whole of each table that it names, and the time grows with the
// square of its length.
fn scripts() -> [&'static [Step]; 5] {
    [&APPLIED, &LISTED, &ENTRIES, &CHECKS, &FIRST_FILES]
}

#[test]
fn items_are_checked_applied_and_listed(rt: HostRuntime) {
    let mut tables = MemTables::new(rt.alloc());
    assert_tables(&rt, rt.alloc(), &mut tables, &scripts());
}

/// A value that the key of a table gets; `None` deletes the key.
struct Value(Option<&'static [u8]>);

/// Changes of one key, in order.
static HELD: [Value; 4] = [
    Value(Some(&[2])),
    Value(Some(&[3])),
    Value(None),
    Value(Some(&[4])),
];

// Whether the table has exactly this value, or is empty.
fn is_held(table: &MemTable, value: Option<&[u8]>) -> bool {
    match (table.get(&[1]), table.place(&[1]), value) {
        (Some(held), Some(place), Some(value)) => {
            held == value && place == FILE_7 && !table.is_empty()
        }
        (None, None, None) => table.is_empty(),
        _ => false,
    }
}

impl Row for Value {
    type State = MemTable;

    fn holds(&self, alloc: Global, table: &mut MemTable) -> Result<bool, Fault> {
        match self.0 {
            Some(value) => table.put([1].to_vec(alloc)?, value.to_vec(alloc)?, FILE_7)?,
            None => table.delete(&[1]),
        };
        Ok(is_held(table, self.0))
    }
}

#[test]
fn a_table_keeps_each_key_once(rt: HostRuntime) {
    let mut table = MemTable::new(rt.alloc());
    assert!(rt; is_held(&table, None));
    assert_rows(&rt, rt.alloc(), &mut table, &HELD);
}
