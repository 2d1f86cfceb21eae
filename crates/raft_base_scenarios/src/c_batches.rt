//! Batches that are read from bytes, and bytes that are refused.

use crate::items::{Part as Wanted, batch_of, have_same_bytes};
use crate::told::assert_rows;
use raft_c_batch::{BatchFault, add_items};
use raft_records::{Fault, LogBatch};
use raft_rows::Row;
use std::alloc::Global;

/// Bytes, and the items read from them.
struct Read(&'static [u8], &'static [Wanted]);

static READ: [Read; 3] = [
    Read(b"\0\0\0\0\0\0\0\0", &[]),
    Read(
        b"\0\0\0\0\0\0\0\x02\
        \x01\0\0\0\0\0\0\x01\x02\0\0\0\0\0\0\0\x01k\0\0\0\0\0\0\0\x02vw\
        \x02\0\0\0\0\0\0\0\x07\0\0\0\0\0\0\0\0",
        &[Wanted::Put(258, b"k", b"vw"), Wanted::Delete(7, b"")],
    ),
    Read(
        b"\0\0\0\0\0\0\0\x03\
        \x04\0\0\0\0\0\0\0\x07\
        \x03\0\0\0\0\0\0\0\x07\0\0\0\0\0\0\0\x02\
        \0\0\0\0\0\0\0\x09\0\0\0\0\0\0\0\x05a\0\0\0\0\0\0\0\x08\0\0\0\0\0\0\0\x06\
        \x05\0\0\0\0\0\0\0\x08\0\0\0\0\0\0\0\x06",
        &[
            Wanted::Clean(7),
            Wanted::Entries(7, 5, &[b"\0\0\0\0\0\0\0\x05a", b"\0\0\0\0\0\0\0\x06"]),
            Wanted::Compact(8, 6),
        ],
    ),
];

impl Row for Read {
    type State = ();

    fn holds(&self, alloc: Global, _: &mut ()) -> Result<bool, Fault> {
        let mut batch = LogBatch::new(alloc);
        if add_items(alloc, &mut batch, self.0).is_err() {
            return Ok(false);
        }
        if self.1.is_empty() {
            return Ok(batch.is_empty());
        }
        let mut wanted = batch_of(alloc, self.1)?;
        have_same_bytes(&mut batch, &mut wanted)
    }
}

#[test]
fn batches_are_read(rt: HostRuntime) {
    assert_rows(&rt, rt.alloc(), &mut (), &READ);
}

/// Bytes that are refused, and the fault's code if a fault is returned.
struct Refused(&'static [u8], Option<u8>);

static REFUSED: [Refused; 9] = [
    Refused(b"", None),
    Refused(b"\0\0\0\0\0\0\0", None),
    Refused(b"\0\0\0\0\0\0\0\x01", None),
    // An unknown kind, a length past the end, and a byte after the items.
    Refused(b"\0\0\0\0\0\0\0\x01\x06\0\0\0\0\0\0\0\x07", None),
    Refused(
        b"\0\0\0\0\0\0\0\x01\x02\0\0\0\0\0\0\0\x07\0\0\0\0\0\0\0\x02k",
        None,
    ),
    Refused(b"\0\0\0\0\0\0\0\x01\x04\0\0\0\0\0\0\0\x07x", None),
    // No entries, and an entry that is too short for an index.
    Refused(
        b"\0\0\0\0\0\0\0\x01\x03\0\0\0\0\0\0\0\x07\0\0\0\0\0\0\0\0",
        None,
    ),
    Refused(
        b"\0\0\0\0\0\0\0\x01\x03\0\0\0\0\0\0\0\x07\0\0\0\0\0\0\0\x01\
        \0\0\0\0\0\0\0\x07\0\0\0\0\0\0\x05",
        None,
    ),
    // A key that the engine reserves for itself.
    Refused(
        b"\0\0\0\0\0\0\0\x01\x01\0\0\0\0\0\0\0\x07\0\0\0\0\0\0\0\x03__k\0\0\0\0\0\0\0\0",
        Some(1),
    ),
];

impl Row for Refused {
    type State = ();

    fn holds(&self, alloc: Global, _: &mut ()) -> Result<bool, Fault> {
        let mut batch = LogBatch::new(alloc);
        Ok(match add_items(alloc, &mut batch, self.0) {
            Ok(()) => false,
            Err(BatchFault::Malformed) => self.1.is_none(),
            Err(BatchFault::Refused(fault)) => self.1 == Some(fault.code()),
        })
    }
}

#[test]
fn bytes_are_refused(rt: HostRuntime) {
    assert_rows(&rt, rt.alloc(), &mut (), &REFUSED);
}
