//! Calls from seats of a shared engine, their results, and whether the history can be finished.

use crate::asked::{Ask, Told};
use crate::seated::{Faulty, Seated};
use crate::stories::{End, Handed, Step, Story, wrong_place};
use raft_log_engine::MemoryFileSystem;
use std::alloc::Global;
use std::test::Fail;

const PUT_K: Ask = Ask::Put(1, b"k", b"v");

const GET_K: Ask = Ask::Get(1, b"k");

const FOUND: Told = Told::Value(Some(b"v"));

/// The length of the record of a put of one byte at a key of one byte: 16 bytes of header, one
/// byte each for the number of items, the group, the kinds of the item and of the command, both
/// lengths, the key and the value, and 4 bytes of checksum.
const PUT_LEN: Told = Told::Size(28);

/// The same with a number: its item has the group, both kinds, both lengths, a key of five bytes
/// and a value of eight.
const ONCE_LEN: Told = Told::Size(46);

/// The key under which a group's number is kept.
const NUMBER_KEY: &[u8] = &[0xff, b'o', b'n', b'c', b'e'];

static STORIES: [Story; 11] = [
    Story {
        name: "puts that act once",
        is_sync_refused: false,
        limit: 20,
        seats: 2,
        steps: &[
            Step::Answered(0, Ask::PutOnce(b"a", &[(1, 5)]), 0, ONCE_LEN),
            Step::Answered(1, Ask::PutOnce(b"b", &[(1, 5)]), 1, Told::Size(0)),
            Step::Answered(0, GET_K, 2, Told::Value(Some(b"a"))),
            Step::Answered(
                0,
                Ask::PutOnce(b"c", &[(1, 6), (2, 0)]),
                3,
                Told::Refused(18),
            ),
            Step::Answered(0, Ask::PutOnce(b"c", &[]), 4, Told::Refused(1)),
            Step::Answered(
                0,
                Ask::PutOnce(b"c", &[(1, 6), (1, 7)]),
                5,
                Told::Refused(1),
            ),
            Step::Answered(0, Ask::Put(1, NUMBER_KEY, b"v"), 6, Told::Refused(1)),
            Step::Answered(1, Ask::Get(1, NUMBER_KEY), 7, Told::Value(None)),
            Step::Answered(1, GET_K, 8, Told::Value(Some(b"a"))),
        ],
        handed: Handed::First(2),
        end: End {
            refusal: None,
            calls: 9,
            keys: Some(1),
            synced: Some(b"a"),
        },
    },
    Story {
        name: "a seat of another engine with a receipt of another number",
        is_sync_refused: false,
        limit: 20,
        seats: 1,
        steps: &[Step::Answered(0, Ask::PutOnce(b"a", &[(1, 5)]), 0, ONCE_LEN)],
        handed: Handed::OfOther(&[Step::Answered(0, Ask::PutOnce(b"a", &[(1, 6)]), 0, ONCE_LEN)]),
        end: End {
            refusal: Some(1),
            calls: 1,
            keys: Some(1),
            synced: Some(b"a"),
        },
    },
    Story {
        name: "indexes",
        is_sync_refused: false,
        limit: 20,
        seats: 1,
        steps: &[
            Step::Answered(0, Ask::Entries(&[1, 2, 3]), 0, Told::Size(28)),
            Step::Answered(0, Ask::First(1), 1, Told::Index(Some(1))),
            Step::Answered(0, Ask::Last(1), 2, Told::Index(Some(3))),
            Step::Answered(0, Ask::First(2), 3, Told::Index(None)),
        ],
        handed: Handed::First(1),
        end: End {
            refusal: None,
            calls: 4,
            keys: Some(0),
            synced: None,
        },
    },
    Story {
        name: "a full history",
        is_sync_refused: false,
        limit: 2,
        seats: 1,
        steps: &[
            Step::Answered(0, PUT_K, 0, PUT_LEN),
            Step::Answered(0, Ask::Put(1, b"l", b"v"), 1, PUT_LEN),
            Step::Fails(0, Ask::Put(1, b"m", b"v"), 16),
            Step::Fails(0, GET_K, 16),
            Step::Fails(0, Ask::Sync, 16),
            Step::Fails(0, Ask::First(1), 16),
            Step::Fails(0, Ask::Last(1), 16),
        ],
        handed: Handed::First(1),
        end: End {
            refusal: None,
            calls: 2,
            keys: Some(2),
            synced: None,
        },
    },
    Story {
        name: "a write, a look-up, a sync and a crash",
        is_sync_refused: false,
        limit: 20,
        seats: 1,
        steps: &[
            Step::Answered(0, PUT_K, 0, PUT_LEN),
            Step::Answered(0, GET_K, 1, FOUND),
            Step::Answered(0, Ask::Get(1, b"l"), 2, Told::Value(None)),
            Step::Answered(0, Ask::Sync, 3, Told::Done),
        ],
        handed: Handed::First(1),
        end: End {
            refusal: None,
            calls: 4,
            keys: Some(1),
            synced: Some(b"v"),
        },
    },
    Story {
        name: "a write without a sync and a crash",
        is_sync_refused: false,
        limit: 20,
        seats: 1,
        steps: &[Step::Answered(0, PUT_K, 0, PUT_LEN)],
        handed: Handed::First(1),
        end: End {
            refusal: None,
            calls: 1,
            keys: Some(1),
            synced: None,
        },
    },
    Story {
        name: "a seat is missing",
        is_sync_refused: false,
        limit: 20,
        seats: 2,
        steps: &[
            Step::Answered(0, PUT_K, 0, PUT_LEN),
            Step::Answered(1, GET_K, 1, FOUND),
        ],
        handed: Handed::First(1),
        end: End {
            refusal: Some(1),
            calls: 2,
            keys: Some(1),
            synced: None,
        },
    },
    Story {
        name: "two seats in turn",
        is_sync_refused: false,
        limit: 4,
        seats: 2,
        steps: &[
            Step::Answered(1, Ask::Entries(&[7, 8]), 0, Told::Size(27)),
            Step::Answered(0, Ask::Entries(&[10]), 1, Told::Refused(5)),
            Step::Answered(1, Ask::Last(1), 2, Told::Index(Some(8))),
            Step::Answered(0, PUT_K, 3, PUT_LEN),
        ],
        handed: Handed::First(2),
        end: End {
            refusal: None,
            calls: 4,
            keys: Some(1),
            synced: None,
        },
    },
    Story {
        name: "a sync that fails",
        is_sync_refused: true,
        limit: 20,
        seats: 1,
        steps: &[
            Step::Answered(0, Ask::Sync, 0, Told::Refused(3)),
            Step::Answered(0, GET_K, 1, Told::Refused(11)),
            Step::Answered(0, PUT_K, 2, Told::Refused(11)),
        ],
        handed: Handed::First(1),
        end: End {
            refusal: None,
            calls: 3,
            keys: None,
            synced: None,
        },
    },
    Story {
        name: "a seat of another engine with the same receipts",
        is_sync_refused: false,
        limit: 20,
        seats: 1,
        steps: &[Step::Answered(0, PUT_K, 0, PUT_LEN)],
        handed: Handed::OfOther(&[Step::Answered(0, PUT_K, 0, PUT_LEN)]),
        end: End {
            refusal: None,
            calls: 1,
            keys: Some(1),
            synced: None,
        },
    },
    Story {
        name: "a seat of another engine with a receipt of another value",
        is_sync_refused: false,
        limit: 20,
        seats: 1,
        steps: &[Step::Answered(0, PUT_K, 0, PUT_LEN)],
        handed: Handed::OfOther(&[Step::Answered(0, Ask::Put(1, b"k", b"w"), 0, PUT_LEN)]),
        end: End {
            refusal: Some(1),
            calls: 1,
            keys: Some(1),
            synced: None,
        },
    },
];

// The table is named by its own function, since a proof has the whole table at each step.
fn all_stories() -> &'static [Story] {
    STORIES.as_slice()
}

fn wrong_in<F: Faulty>(
    alloc: Global,
    seated: &mut Seated<F>,
    other: &mut Seated<F>,
) -> Option<(&'static str, usize)> {
    for story in all_stories() {
        if let Some(place) = wrong_place(alloc, seated, other, story) {
            return Some((story.name, place));
        }
    }
    if seated.comes_back(alloc, usize::MAX) {
        None
    } else {
        Some((
            "an engine that can't be shared, since there is no memory for so many calls",
            0,
        ))
    }
}

fn wrong_story<F: Faulty>(alloc: Global, files: F, more: F) -> Option<(&'static str, usize)> {
    let mut seated = Seated::new(alloc, files);
    let mut other = Seated::new(alloc, more);
    let wrong = wrong_in(alloc, &mut seated, &mut other);
    seated.end(alloc);
    other.end(alloc);
    wrong
}

#[test]
fn histories(rt: HostRuntime) -> Result<(), Fail> {
    let files = MemoryFileSystem::new(rt.alloc());
    match wrong_story(rt.alloc(), files, MemoryFileSystem::new(rt.alloc())) {
        None => Ok(()),
        Some((name, place)) => Err(Fail::new(format_args!("{name}, step {place}"))),
    }
}
