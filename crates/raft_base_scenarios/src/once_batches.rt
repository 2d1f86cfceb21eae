//! Batches with numbers: the first item that changes a number, and the batch after numbers are
//! added.

use crate::items::{Part, batch_of};
use crate::told::assert_rows;
use raft_base::Fault;
use raft_once::{add_numbers, number_item_at};
use raft_rows::Row;
use std::alloc::Global;

/// A batch, and the place of its first item that changes a number.
struct Place(&'static [Part], Option<usize>);

static PLACES: [Place; 9] = [
    Place(&[], None),
    Place(&[Part::Put(1, b"\xffonce", b"")], Some(0)),
    Place(&[Part::Delete(1, b"\xffonce")], Some(0)),
    Place(&[Part::Clean(1), Part::Delete(2, b"\xffonce")], Some(1)),
    Place(
        &[
            Part::Entry(1, 5),
            Part::Put(1, b"k", b"\xffonce"),
            Part::Put(1, b"\xffonce", b"v"),
        ],
        Some(2),
    ),
    Place(
        &[
            Part::Put(1, b"\xffonce", b"v"),
            Part::Put(2, b"\xffonce", b"v"),
        ],
        Some(0),
    ),
    Place(
        &[
            Part::Put(1, b"\xffonce1", b"v"),
            Part::Delete(1, b"\xffonc"),
        ],
        None,
    ),
    Place(
        &[Part::Clean(1), Part::Compact(2, 3), Part::Entry(3, 4)],
        None,
    ),
    Place(
        &[
            Part::Compact(2, 3),
            Part::Put(2, b"once", b"v"),
            Part::Delete(2, b""),
        ],
        None,
    ),
];

impl Row for Place {
    type State = ();

    fn holds(&self, alloc: Global, _: &mut ()) -> Result<bool, Fault> {
        let batch = batch_of(alloc, self.0)?;
        Ok(number_item_at(batch.items()) == self.1)
    }
}

#[test]
fn the_first_item_that_changes_a_number_is_found(rt: HostRuntime) {
    assert_rows(&rt, rt.alloc(), &mut (), &PLACES);
}

/// A batch, numbers of groups, and the batch with these numbers.
struct Numbered(&'static [Part], &'static [(u64, u64)], &'static [Part]);

static NUMBERED: [Numbered; 4] = [
    Numbered(&[], &[], &[]),
    Numbered(
        &[],
        &[(7, 5)],
        &[Part::Put(7, b"\xffonce", b"\0\0\0\0\0\0\0\x05")],
    ),
    Numbered(&[Part::Clean(1)], &[], &[Part::Clean(1)]),
    Numbered(
        &[Part::Put(1, b"k", b"v"), Part::Clean(2)],
        &[(2, 258), (1, u64::MAX)],
        &[
            Part::Put(1, b"k", b"v"),
            Part::Clean(2),
            Part::Put(2, b"\xffonce", b"\0\0\0\0\0\0\x01\x02"),
            Part::Put(1, b"\xffonce", b"\xff\xff\xff\xff\xff\xff\xff\xff"),
        ],
    ),
];

impl Row for Numbered {
    type State = ();

    fn holds(&self, alloc: Global, _: &mut ()) -> Result<bool, Fault> {
        let mut batch = batch_of(alloc, self.0)?;
        add_numbers(&mut batch, alloc, self.1)?;
        let wanted = batch_of(alloc, self.2)?;
        Ok(batch.has_items_of(&wanted))
    }
}

#[test]
fn numbers_stand_behind_the_items(rt: HostRuntime) {
    assert_rows(&rt, rt.alloc(), &mut (), &NUMBERED);
}
