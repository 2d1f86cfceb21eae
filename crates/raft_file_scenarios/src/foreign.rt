//! Things in a log's folder that are no log files, and reserved files that an opening doesn't read:
//! openings pass over them, no call reaches them, and they stay as they were.

use crate::calls::Call;
use crate::deeds::Deed;
use crate::disk::Reading;
use crate::folder_steps::{Asked, Failure, Step, Story};
use Step::{Asks, Calls, Closes, Does, Fails, Opens};
use raft_disk::is_log_name;
use raft_env::IoKind;

const LOG: &str = "0000000000000001.raftlog";

/// The bytes of each of the files.
const KEPT: &[u8] = b"kept";

const FILE: Deed = Deed::File(KEPT);

const IS_KEPT: Deed = Deed::Has(Some(KEPT));

const IS_NONE: Deed = Deed::Has(None);

const SPILLED: &str = "s/t/0000000000000002.raftlog";

/// A log file in a folder that the settings don't name.
const OTHER: &str = "u/0000000000000003.raftlog";

/// A path without a file, in a folder that wasn't read.
const UNREAD: &str = "u/0000000000000005.raftlog";

const LATER: &str = "0000000000000004.raftlog";

/// Names, and whether a log's file can have them.
const NAMES: [(&str, bool); 12] = [
    ("0000000000000001.raftlog", true),
    ("9999999999999999.rewrite", true),
    ("0000000000000010.raftlog.reserved", true),
    ("", false),
    ("LOCK", false),
    ("FORKING", false),
    ("raftlog.toml", false),
    ("000000000000001.raftlog", false),
    ("00000000000000001.raftlog", false),
    ("+000000000000001.raftlog", false),
    ("0000000000000001.raftlog.cut-681", false),
    ("0000000000000001.rewrite.reserved", false),
];

#[test]
fn names_of_a_log_are_told(rt: HostRuntime) {
    for (name, wanted) in &NAMES {
        assert!(rt; is_log_name(name) == *wanted, "{name}");
    }
}

/// A log in two folders, a third folder, and foreign things: files, links, and two names of one
/// file.
const MADE: &[Step] = &[
    Does("s", Deed::Folder),
    Does("s/t", Deed::Folder),
    Does("u", Deed::Folder),
    Does(LOG, FILE),
    Does(SPILLED, FILE),
    Does(OTHER, FILE),
    Does("notes", FILE),
    Does("twice", FILE),
    Does("again", Deed::Name("twice")),
    Does("link", Deed::Link("notes")),
    Does("astray", Deed::Link("nothing")),
    Does("links", Deed::Link("u")),
];

/// The files that are known after an opening of all folders.
const ALL_KNOWN: &[Step] = &[
    Opens(Reading::All),
    Asks(Asked::IsFile(LOG, true)),
    Asks(Asked::IsFile(SPILLED, true)),
    Asks(Asked::IsFile(OTHER, true)),
    Asks(Asked::IsFile("notes", false)),
    Asks(Asked::IsFile("link", false)),
    Asks(Asked::IsFile("again", false)),
];

/// .. after an opening of the second folder only. No call reaches an ignored thing, and the log can
/// still be changed.
const TWO_KNOWN: &[Step] = &[
    Opens(Reading::Two("s/t")),
    Asks(Asked::IsFile(LOG, true)),
    Asks(Asked::IsFile(SPILLED, true)),
    Asks(Asked::IsFile(OTHER, false)),
    Asks(Asked::IsFile("notes", false)),
    Asks(Asked::IsFile("link", false)),
    Asks(Asked::IsFile("again", false)),
    Calls(Call::Create("notes"), REFUSED, "notes", Some(KEPT)),
    Calls(Call::Create("astray"), REFUSED, "nothing", None),
    Calls(Call::Create(OTHER), REFUSED, OTHER, Some(KEPT)),
    Calls(Call::Create(UNREAD), GONE, UNREAD, None),
    Calls(Call::Rename(LOG, "notes"), REFUSED, LOG, Some(KEPT)),
    Calls(Call::MakeDir("u"), REFUSED, OTHER, Some(KEPT)),
    Calls(Call::MakeDir("links"), REFUSED, OTHER, Some(KEPT)),
    Calls(Call::Delete("notes"), GONE, "notes", Some(KEPT)),
    Calls(Call::Create(LATER), None, LATER, Some(b"")),
    Calls(Call::MakeDir("made"), None, "made/none", None),
    Closes,
];

const ALL_KEPT: &[Step] = &[
    Does(LOG, IS_KEPT),
    Does(SPILLED, IS_KEPT),
    Does(OTHER, IS_KEPT),
    Does("notes", IS_KEPT),
    Does("twice", IS_KEPT),
    Does("again", IS_KEPT),
    Does("nothing", IS_NONE),
];

const REFUSED: Option<IoKind> = Some(IoKind::Other);

const GONE: Option<IoKind> = Some(IoKind::NotFound);

/// Paths of a second folder.
const SECONDS: &[Step] = &[
    Opens(Reading::Two("")),
    Closes,
    Fails(
        Reading::Two(".."),
        Failure {
            opened: "",
            named: "/..",
            text: "no path of a folder below the log's",
        },
    ),
    Fails(
        Reading::Two("/tmp"),
        Failure {
            opened: "",
            named: "//tmp",
            text: "no path of a folder below the log's",
        },
    ),
    Fails(
        Reading::Two("notes"),
        Failure {
            opened: "",
            named: "/notes",
            text: "a file stands in the folder's place",
        },
    ),
    Fails(
        Reading::Two("notes/in"),
        Failure {
            opened: "",
            named: "/notes/in",
            text: "a file stands in the folder's place",
        },
    ),
    Fails(
        Reading::Two("links"),
        Failure {
            opened: "",
            named: "/links",
            text: "neither a folder nor a file of one name",
        },
    ),
    Opens(Reading::Two("later/on")),
];

const LOG_9: &str = "0000000000000009.raftlog";

const RESERVED: &str = "0000000000000001.raftlog.reserved";

/// A reserved file in the second folder.
const SPARE: &str = "s/0000000000000002.raftlog.reserved";

const RESERVED_FILES: &[Step] = &[
    Does("s", Deed::Folder),
    Does(LOG_9, FILE),
    Does(RESERVED, FILE),
    Does(SPARE, FILE),
    Opens(Reading::NoReserved("s")),
    Calls(Call::Create(RESERVED), REFUSED, RESERVED, Some(KEPT)),
    Calls(Call::Delete(SPARE), GONE, SPARE, Some(KEPT)),
    Asks(Asked::IsFile(RESERVED, false)),
    Asks(Asked::IsFile(LOG_9, true)),
];

/// The deletion removes them, and a file that is then made in their place stays.
const RESERVED_FILES_DELETED: &[Step] = &[
    Asks(Asked::DeleteUnread),
    Does(RESERVED, IS_NONE),
    Does(SPARE, IS_NONE),
    Calls(Call::Create(RESERVED), None, RESERVED, Some(b"")),
    Asks(Asked::DeleteUnread),
    Does(RESERVED, Deed::Has(Some(b""))),
];

pub(crate) static STORIES: [Story; 3] = [
    Story {
        name: "foreign things",
        parts: &[MADE, ALL_KNOWN, TWO_KNOWN, ALL_KEPT],
    },
    Story {
        name: "second folders are below",
        parts: &[MADE, SECONDS],
    },
    Story {
        name: "reserved files",
        parts: &[RESERVED_FILES, RESERVED_FILES_DELETED],
    },
];
