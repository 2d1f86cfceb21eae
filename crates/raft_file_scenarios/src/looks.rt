//! Looks at a folder: what they find, how they fail, and that they leave the folder byte for byte
//! as before: without a lock's file, in a read-only folder, and while a writer has the folder.

use crate::deeds::Deed;
use crate::disk::Reading;
use crate::folder_steps::{Failure, Step, Story};
use Step::{Does, Fails, Opens, Sees, SeesNoName};

/// The bytes of each file of a log.
pub(crate) const LOG: &[u8] = b"of a log";

const MADE: &[Step] = &[Does("log", Deed::File(LOG)), Does("other", Deed::File(LOG))];

const UNCHANGED: Step = Does("", Deed::Stands("", &["log: of a log", "other: of a log"]));

/// The opening has made the lock's file.
const UNCHANGED_IN_USE: Step = Does(
    "",
    Deed::Stands("", &["LOCK: ", "log: of a log", "other: of a log"]),
);

const SEEN: &[Step] = &[
    Sees(false),
    UNCHANGED,
    Does("", Deed::Writable(false)),
    Sees(false),
    UNCHANGED,
    Does("", Deed::Writable(true)),
    Opens(Reading::All),
    UNCHANGED_IN_USE,
    Sees(true),
    UNCHANGED_IN_USE,
];

const NOT_SEEN: &[Step] = &[
    Fails(
        Reading::Look,
        Failure {
            opened: "/log",
            named: "/log",
            text: "a file stands in the folder's place",
        },
    ),
    Fails(
        Reading::Look,
        Failure {
            opened: "/missing",
            named: "/missing",
            text: "No such file or directory (os error 2)",
        },
    ),
    SeesNoName("a folder has no empty name"),
    UNCHANGED,
];

pub(crate) static STORIES: [Story; 2] = [
    Story {
        name: "looks",
        parts: &[MADE, SEEN],
    },
    Story {
        name: "looks at no folder",
        parts: &[MADE, NOT_SEEN],
    },
];
