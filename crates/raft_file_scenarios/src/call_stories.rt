//! Calls on the files of a folder: the result of each, the bytes that are then on the disk, the
//! system's text for a call that it refused, and how the folder counts calls.

use crate::calls::Call;
use crate::deeds::Deed;
use crate::disk::Reading;
use crate::folder_steps::{Asked, Step, Story};
use Step::{Asks, Calls, Does, Opens};
use raft_env::IoKind;

/// A name that no file and no folder can have, since it has 256 bytes.
const LONG: &str = "\
0123456789abcdef0123456789abcdef0123456789abcdef0123456789abcdef\
0123456789abcdef0123456789abcdef0123456789abcdef0123456789abcdef\
0123456789abcdef0123456789abcdef0123456789abcdef0123456789abcdef\
0123456789abcdef0123456789abcdef0123456789abcdef0123456789abcdef";

const A: &str = "0000000000000001.raftlog";

const B: &str = "0000000000000002.raftlog";

const C: &str = "0000000000000003.rewrite";

const D: &str = "0000000000000003.raftlog";

const E: &str = "0000000000000004.raftlog.reserved";

const Z: &str = "0000000000000005.raftlog";

const LATER: &str = "0000000000000006.raftlog";

/// A file in a folder that a step makes.
const INNER: &str = "d/0000000000000002.raftlog";

/// A file in a folder that no step makes.
const AWAY: &str = "f/0000000000000002.raftlog";

const OTHER: Option<IoKind> = Some(IoKind::Other);

const GONE: Option<IoKind> = Some(IoKind::NotFound);

const NAMES: &[Step] = &[
    Opens(Reading::All),
    Calls(Call::Create(A), None, A, Some(b"")),
    Calls(Call::Writer(A), None, A, Some(b"")),
    Calls(Call::Write(0, b"first"), None, A, Some(b"first")),
    Calls(Call::Sync, None, A, Some(b"first")),
    Calls(Call::Rename(A, B), None, B, Some(b"first")),
    Calls(Call::Write(0, b"lost"), GONE, B, Some(b"first")),
    Calls(Call::Create(A), None, A, Some(b"")),
    Calls(Call::Write(0, b"second"), None, A, Some(b"second")),
    Calls(Call::Truncate(3), None, B, Some(b"first")),
    Calls(Call::Sync, None, A, Some(b"sec")),
    Calls(Call::Rename(A, B), None, B, Some(b"sec")),
    Calls(Call::Delete(A), GONE, A, None),
    Calls(Call::Rename(A, C), GONE, C, None),
    Calls(Call::MakeDir("d"), None, INNER, None),
    Calls(Call::Rename(B, "d"), OTHER, B, Some(b"sec")),
    Calls(Call::Rename(B, INNER), None, INNER, Some(b"sec")),
    Calls(Call::Writer(INNER), None, B, None),
    Calls(Call::Delete(INNER), None, INNER, None),
    Calls(Call::Write(0, b"lost"), GONE, INNER, None),
    Calls(Call::Create(INNER), None, INNER, Some(b"")),
    Calls(Call::Write(1, b"x"), None, INNER, Some(b"\0x")),
    Calls(Call::Delete(INNER), None, INNER, None),
    Calls(Call::Create(E), None, E, Some(b"")),
];

const NAMES_AGAIN: &[Step] = &[
    Opens(Reading::All),
    Calls(Call::Create("LOCK"), OTHER, "LOCK", Some(b"")),
    Calls(Call::Create("d/../f"), OTHER, "f", None),
    Calls(Call::MakeDir("d//f"), OTHER, "d/f", None),
    Calls(Call::Create(AWAY), GONE, AWAY, None),
    Calls(Call::Writer(A), GONE, A, None),
    Calls(Call::Writer(B), GONE, B, None),
    Calls(Call::Writer(C), GONE, C, None),
    Calls(Call::Writer(INNER), GONE, INNER, None),
    Calls(Call::Writer(E), None, E, Some(b"")),
    Calls(Call::Write(0, b"kept"), None, E, Some(b"kept")),
    Calls(Call::MakeDir("d"), None, E, Some(b"kept")),
];

const NAMES_WRITTEN: &[Step] = &[
    Opens(Reading::All),
    Calls(Call::Writer(E), None, E, Some(b"kept")),
    Calls(Call::Allocate(2, 4), None, E, Some(b"kept\0\0")),
];

/// Makes the files that exist before a call that the system refuses.
const BEFORE: &[Step] = &[
    Opens(Reading::All),
    Calls(Call::Create(A), None, A, Some(b"")),
    Calls(Call::Writer(A), None, A, Some(b"")),
    Calls(Call::Write(0, b"kept"), None, A, Some(b"kept")),
    Calls(Call::Create(Z), None, Z, Some(b"")),
];

/// If the file was not changed, a new opening finds it and can create files.
const KEPT: &[Step] = &[
    Opens(Reading::All),
    Calls(Call::Writer(A), None, A, Some(b"kept")),
    Calls(Call::Create(LATER), None, LATER, Some(b"")),
];

/// If another program deleted the file, a new opening works without it.
const LOST: &[Step] = &[
    Opens(Reading::All),
    Calls(Call::Writer(A), GONE, A, None),
    Calls(Call::Create(LATER), None, LATER, Some(b"")),
];

const CREATE: &[Step] = &[
    Opens(Reading::All),
    Calls(Call::Create(LONG), OTHER, A, Some(b"kept")),
    Calls(Call::Create(LATER), OTHER, LATER, None),
];

const MAKE_DIR: &[Step] = &[
    Opens(Reading::All),
    Calls(Call::MakeDir(LONG), OTHER, A, Some(b"kept")),
    Calls(Call::Create(LATER), OTHER, LATER, None),
];

const RENAME: &[Step] = &[
    Opens(Reading::All),
    Calls(Call::Rename(A, LONG), OTHER, A, Some(b"kept")),
    Calls(Call::Create(LATER), OTHER, LATER, None),
];

const DELETE: &[Step] = &[
    Opens(Reading::All),
    Calls(Call::Writer(A), None, A, Some(b"kept")),
    Calls(Call::Delete(Z), None, Z, None),
    Does(A, Deed::Lose),
    Calls(Call::Delete(A), GONE, A, None),
    Calls(Call::Create(LATER), OTHER, LATER, None),
];

const WRITE: &[Step] = &[
    Opens(Reading::All),
    Calls(Call::Writer(A), None, A, Some(b"kept")),
    Calls(Call::Delete(Z), None, Z, None),
    Does(A, Deed::Lose),
    Calls(Call::Write(0, b"x"), GONE, A, None),
    Calls(Call::Create(LATER), OTHER, LATER, None),
];

const TRUNCATE: &[Step] = &[
    Opens(Reading::All),
    Calls(Call::Writer(A), None, A, Some(b"kept")),
    Calls(Call::Delete(Z), None, Z, None),
    Does(A, Deed::Lose),
    Calls(Call::Truncate(1), GONE, A, None),
    Calls(Call::Create(LATER), OTHER, LATER, None),
];

/// `allocate` is a hint: if it is refused, later calls still work.
const ALLOCATE: &[Step] = &[
    Opens(Reading::All),
    Calls(Call::Writer(A), None, A, Some(b"kept")),
    Calls(Call::Delete(Z), None, Z, None),
    Does(A, Deed::Lose),
    Calls(Call::Allocate(0, 9), GONE, A, None),
    Calls(Call::Create(LATER), None, LATER, Some(b"")),
];

const SYNC: &[Step] = &[
    Opens(Reading::All),
    Calls(Call::Writer(A), None, A, Some(b"kept")),
    Calls(Call::Delete(Z), None, Z, None),
    Does(A, Deed::Lose),
    Calls(Call::Sync, GONE, A, None),
    Calls(Call::Create(LATER), OTHER, LATER, None),
];

/// If a file can't be opened, later calls still work.
const OPEN: &[Step] = &[
    Opens(Reading::All),
    Does(A, Deed::Lose),
    Calls(Call::Writer(A), GONE, A, None),
    Calls(Call::Create(B), None, B, Some(b"")),
];

/// Two writes, a sync, and files that are made, recycled and deleted.
const COUNTED: &[Step] = &[
    Opens(Reading::All),
    Calls(Call::Create(A), None, A, Some(b"")),
    Calls(Call::Writer(A), None, A, Some(b"")),
    Calls(Call::Write(0, b"three"), None, A, Some(b"three")),
    Calls(Call::Write(5, b"more"), None, A, Some(b"threemore")),
    Calls(Call::Sync, None, A, Some(b"threemore")),
    Calls(Call::Create(B), None, B, Some(b"")),
    Calls(Call::Rename(A, D), None, D, Some(b"threemore")),
    Calls(Call::Delete(B), None, B, None),
    Asks(Asked::Counts((2, 9, 1), (3, 1, 1, 1))),
];

pub(crate) static NAMES_AND_COUNTS: [Story; 2] = [
    Story {
        name: "names",
        parts: &[NAMES, NAMES_AGAIN, NAMES_WRITTEN],
    },
    Story {
        name: "counts",
        parts: &[COUNTED],
    },
];

pub(crate) static REFUSED_NAMES: [Story; 5] = [
    Story {
        name: "create",
        parts: &[BEFORE, CREATE, KEPT],
    },
    Story {
        name: "make_dir",
        parts: &[BEFORE, MAKE_DIR, KEPT],
    },
    Story {
        name: "rename",
        parts: &[BEFORE, RENAME, KEPT],
    },
    Story {
        name: "delete",
        parts: &[BEFORE, DELETE, LOST],
    },
    Story {
        name: "open",
        parts: &[BEFORE, OPEN, LOST],
    },
];

pub(crate) static REFUSED_BYTES: [Story; 4] = [
    Story {
        name: "write",
        parts: &[BEFORE, WRITE, LOST],
    },
    Story {
        name: "truncate",
        parts: &[BEFORE, TRUNCATE, LOST],
    },
    Story {
        name: "allocate",
        parts: &[BEFORE, ALLOCATE, LOST],
    },
    Story {
        name: "sync",
        parts: &[BEFORE, SYNC, LOST],
    },
];

/// Another program deletes the second of two files while the folder is open.
const TWO_FILES: &[Step] = &[
    Does(A, Deed::File(b"kept")),
    Does(B, Deed::File(b"kept")),
    Opens(Reading::All),
    Does(B, Deed::Lose),
];

const CANNOT_MAKE: &str = "it cannot be made: File name too long (os error 36)";

const CANNOT_RENAME: &str = "it cannot be renamed: File name too long (os error 36)";

const CANNOT_DELETE: &str = "it cannot be deleted: No such file or directory (os error 2)";

const CANNOT_OPEN: &str = "it cannot be opened: No such file or directory (os error 2)";

/// What the folder reports of the last call that the system refused.
pub(crate) static REPORTED: [Story; 7] = [
    Story {
        name: "a refused file",
        parts: &[
            TWO_FILES,
            &[
                Calls(Call::Create(LONG), OTHER, A, Some(b"kept")),
                Asks(Asked::Refusal(Some((LONG, CANNOT_MAKE)))),
            ],
        ],
    },
    Story {
        name: "a refused folder",
        parts: &[
            TWO_FILES,
            &[
                Calls(Call::MakeDir(LONG), OTHER, A, Some(b"kept")),
                Asks(Asked::Refusal(Some((LONG, CANNOT_MAKE)))),
            ],
        ],
    },
    Story {
        name: "a refused new name",
        parts: &[
            TWO_FILES,
            &[
                Calls(Call::Rename(A, LONG), OTHER, A, Some(b"kept")),
                Asks(Asked::Refusal(Some((A, CANNOT_RENAME)))),
            ],
        ],
    },
    Story {
        name: "a refused deletion",
        parts: &[
            TWO_FILES,
            &[
                Calls(Call::Delete(B), GONE, B, None),
                Asks(Asked::Refusal(Some((B, CANNOT_DELETE)))),
            ],
        ],
    },
    Story {
        name: "a refused opening of a file",
        parts: &[
            TWO_FILES,
            &[
                Calls(Call::Writer(B), GONE, B, None),
                Asks(Asked::Refusal(Some((B, CANNOT_OPEN)))),
            ],
        ],
    },
    Story {
        name: "a path out of the folder",
        parts: &[
            TWO_FILES,
            &[
                Calls(Call::Create("../up"), OTHER, B, None),
                Asks(Asked::Refusal(None)),
            ],
        ],
    },
    Story {
        name: "a deletion of no file",
        parts: &[
            TWO_FILES,
            &[
                Calls(Call::Delete("none"), GONE, B, None),
                Asks(Asked::Refusal(None)),
            ],
        ],
    },
];
