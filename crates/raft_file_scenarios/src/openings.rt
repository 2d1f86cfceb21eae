//! Openings that fail: the text of each fault, and that nothing in the folder has changed. As root,
//! who may write anywhere, one shows nothing.

use crate::deeds::Deed;
use crate::disk::Reading;
use crate::folder_steps::{Failure, Step, Story};
use Step::{Closes, Denied, Does, Fails, Opens};

const LONG: &str = "\
/0123456789abcdef0123456789abcdef0123456789abcdef0123456789abcdef\
0123456789abcdef0123456789abcdef0123456789abcdef0123456789abcdef\
0123456789abcdef0123456789abcdef0123456789abcdef0123456789abcdef\
0123456789abcdef0123456789abcdef0123456789abcdef0123456789abcdef";

const LOG: &str = "0000000000000001.raftlog";

const LOG_IN_G: &str = "g/0000000000000001.raftlog";

const NOT_PLAIN: &str = "neither a folder nor a file of one name";

const FILE: Deed = Deed::File(b"kept");

/// Only the file. The opening may make the lock's file.
const FILE_ALONE: Step = Does("", Deed::Stands("LOCK", &["f: kept"]));

pub(crate) static STORIES: [Story; 9] = [
    Story {
        name: "a file in the folder's place",
        parts: &[&[
            Does("f", FILE),
            Fails(
                Reading::All,
                Failure {
                    opened: "/f",
                    named: "/f",
                    text: "a file stands in the folder's place",
                },
            ),
            FILE_ALONE,
        ]],
    },
    Story {
        name: "below a file",
        parts: &[&[
            Does("f", FILE),
            Fails(
                Reading::All,
                Failure {
                    opened: "/f/below",
                    named: "/f/below",
                    text: "File exists (os error 17)",
                },
            ),
            FILE_ALONE,
        ]],
    },
    Story {
        name: "a name that is too long",
        parts: &[&[
            Does("f", FILE),
            Fails(
                Reading::All,
                Failure {
                    opened: LONG,
                    named: LONG,
                    text: "File name too long (os error 36)",
                },
            ),
            FILE_ALONE,
        ]],
    },
    Story {
        name: "a folder in the lock's place",
        parts: &[&[
            Does("LOCK", Deed::Folder),
            Does("f", FILE),
            Fails(
                Reading::All,
                Failure {
                    opened: "",
                    named: "",
                    text: "its lock cannot be opened: Is a directory (os error 21)",
                },
            ),
            Does("", Deed::Stands("LOCK", &["LOCK", "f: kept"])),
        ]],
    },
    Story {
        name: "a link in a log file's place",
        parts: &[&[
            Does("f", FILE),
            Does(LOG, Deed::Link("f")),
            Fails(
                Reading::All,
                Failure {
                    opened: "",
                    named: "/0000000000000001.raftlog",
                    text: NOT_PLAIN,
                },
            ),
            Does(
                "",
                Deed::Stands("LOCK", &["0000000000000001.raftlog", "f: kept"]),
            ),
        ]],
    },
    Story {
        name: "a log file of two names",
        parts: &[&[
            Does("g", Deed::Folder),
            Does("f", FILE),
            Does(LOG_IN_G, Deed::Name("f")),
            Fails(
                Reading::All,
                Failure {
                    opened: "/g",
                    named: "/g/0000000000000001.raftlog",
                    text: NOT_PLAIN,
                },
            ),
            Does("", Deed::Stands("LOCK", &["f: kept", "g"])),
        ]],
    },
    Story {
        name: "the mark of a fork that hasn't ended",
        parts: &[&[
            Does(LOG, FILE),
            Does("FORKING", FILE),
            Fails(
                Reading::All,
                Failure {
                    opened: "",
                    named: "",
                    text: "a fork into it has not ended: empty it and fork again",
                },
            ),
            Does(
                "",
                Deed::Stands("LOCK", &["0000000000000001.raftlog: kept", "FORKING: kept"]),
            ),
        ]],
    },
    Story {
        name: "a folder is open once",
        parts: &[&[
            Opens(Reading::All),
            Fails(
                Reading::All,
                Failure {
                    opened: "",
                    named: "",
                    text: "it is open already",
                },
            ),
            Closes,
            Opens(Reading::All),
        ]],
    },
    Story {
        name: "a folder that this user may not write to",
        parts: &[&[
            Does("", Deed::Writable(false)),
            Denied(Failure {
                opened: "",
                named: "",
                text: "its lock cannot be opened: Permission denied (os error 13)",
            }),
            Does("", Deed::Writable(true)),
        ]],
    },
];
