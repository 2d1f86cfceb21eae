//! Results as bytes.

use crate::told::assert_rows;
use raft_c_batch::{Entry, push_entries, push_numbers, push_pair};
use raft_records::Fault;
use raft_rows::Row;
use std::alloc::Global;

/// A part of a result.
enum Part {
    Pair(&'static [u8], &'static [u8]),
    Entry(&'static [u8]),
    Number(u64),
}

/// A part, and its bytes.
struct Pushed(Part, &'static [u8]);

static PUSHED: [Pushed; 4] = [
    Pushed(
        Part::Pair(b"key", b""),
        b"\0\0\0\0\0\0\0\x03key\0\0\0\0\0\0\0\0",
    ),
    Pushed(
        Part::Entry(b"\0\0\0\0\0\0\0\x05a"),
        b"\0\0\0\0\0\0\0\x09\0\0\0\0\0\0\0\x05a",
    ),
    Pushed(Part::Entry(b"short"), b""),
    Pushed(Part::Number(258), b"\0\0\0\0\0\0\x01\x02"),
];

fn push(alloc: Global, bytes: &mut Vec<u8>, part: &Part) -> Result<(), Fault> {
    match part {
        Part::Pair(key, value) => Ok(push_pair(bytes, key, value)?),
        Part::Entry(entry) => {
            let Some(entry) = Entry::of(alloc, entry)? else {
                return Ok(());
            };
            let mut entries = Vec::new(alloc);
            entries.push(entry)?;
            Ok(push_entries(bytes, &entries)?)
        }
        Part::Number(number) => Ok(push_numbers(bytes, &[*number])?),
    }
}

impl Row for Pushed {
    type State = ();

    fn holds(&self, alloc: Global, _: &mut ()) -> Result<bool, Fault> {
        let mut bytes = Vec::new(alloc);
        push(alloc, &mut bytes, &self.0)?;
        Ok(bytes.as_slice() == self.1)
    }
}

#[test]
fn answers_are_pushed(rt: HostRuntime) {
    assert_rows(&rt, rt.alloc(), &mut (), &PUSHED);
}
