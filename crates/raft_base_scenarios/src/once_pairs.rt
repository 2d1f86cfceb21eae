//! Numbers in values, and pairs of a group and a number.

use crate::told::assert_tables;
use raft_base::Fault;
use raft_once::{are_unfit, is_number_key, kept_number};
use raft_rows::Row;
use std::alloc::Global;

enum Case {
    /// A value, and the number that it holds.
    Kept(&'static [u8], u64),
    /// Pairs, and whether they are refused.
    Pairs(&'static [(u64, u64)], bool),
    /// A key, and whether it is the one under which a group's number is kept.
    Key(&'static [u8], bool),
}

use Case::{Kept, Key, Pairs};

static KEPT: [Case; 8] = [
    Kept(b"\0\0\0\0\0\0\0\x05", 5),
    Kept(b"\0\0\0\0\0\0\x01\x00", 256),
    Kept(b"\x80\0\0\0\0\0\0\x01", 9_223_372_036_854_775_809),
    Kept(b"\xff\xff\xff\xff\xff\xff\xff\xff", u64::MAX),
    Kept(b"\0\0\0\0\0\0\0\0", 0),
    Kept(b"", 0),
    Kept(b"\0\0\0\0\0\0\x05", 0),
    Kept(b"\0\0\0\0\0\0\0\x05\0", 0),
];

static PAIRS: [Case; 8] = [
    Pairs(&[], true),
    Pairs(&[(1, 0)], false),
    Pairs(&[(1, 5), (2, 5)], false),
    Pairs(&[(1, 5), (1, 6)], true),
    Pairs(&[(2, 1), (1, 2), (3, 3)], false),
    Pairs(&[(3, 1), (1, 2), (3, 1)], true),
    Pairs(&[(1, 1), (2, 2), (3, 3), (2, 4)], true),
    Pairs(&[(0, 1), (u64::MAX, 1)], false),
];

static KEYS: [Case; 6] = [
    Key(b"\xffonce", true),
    Key(b"once", false),
    Key(b"\xffonc", false),
    Key(b"\xffonce\0", false),
    Key(b"\xfeonce", false),
    Key(b"", false),
];

fn tables() -> [&'static [Case]; 3] {
    [&KEPT, &PAIRS, &KEYS]
}

impl Row for Case {
    type State = ();

    fn holds(&self, _: Global, _: &mut ()) -> Result<bool, Fault> {
        Ok(match self {
            Kept(value, number) => kept_number(Some(value)) == *number,
            Pairs(pairs, is_refused) => are_unfit(pairs) == *is_refused,
            Key(key, is_number) => is_number_key(key) == *is_number,
        })
    }
}

#[test]
fn values_pairs_and_keys_of_numbers(rt: HostRuntime) {
    assert!(rt; kept_number(None) == 0);
    assert_tables(&rt, rt.alloc(), &mut (), &tables());
}
