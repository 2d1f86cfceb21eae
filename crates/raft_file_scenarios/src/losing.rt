//! What an opening of a folder reports of files that someone took away or put there, until that is
//! accepted.

use crate::calls::Call;
use crate::deeds::Deed;
use crate::disk::Reading;
use crate::folder_steps::{Asked, Failure, Step, Story};
use Step::{Accepts, Asks, Calls, Closes, Does, Fails, Opens};

const A: &str = "0000000000000001.raftlog";

const B: &str = "0000000000000002.raftlog";

const C: &str = "0000000000000003.raftlog";

const D: &str = "0000000000000004.raftlog";

/// The next files, and those after a gap. With them another program makes the note stale.
const FIFTH: &str = "0000000000000005.raftlog";

const SIXTH: &str = "0000000000000006.raftlog";

const EIGHTH: &str = "0000000000000008.raftlog";

const AFTER: &str = "0000000000000009.raftlog";

const R: &str = "0000000000000001.rewrite";

const MAKE_A: Step = Calls(Call::Create(A), None, A, Some(b""));

const MAKE_B: Step = Calls(Call::Create(B), None, B, Some(b""));

const MAKE_C: Step = Calls(Call::Create(C), None, C, Some(b""));

const MAKE_D: Step = Calls(Call::Create(D), None, D, Some(b""));

const MAKE_R: Step = Calls(Call::Create(R), None, R, Some(b""));

const MAKE_AFTER: Step = Calls(Call::Create(AFTER), None, AFTER, Some(b""));

const DELETE_A: Step = Calls(Call::Delete(A), None, A, None);

const DELETE_B: Step = Calls(Call::Delete(B), None, B, None);

const DELETE_C: Step = Calls(Call::Delete(C), None, C, None);

const TAKE_A: Step = Does(A, Deed::Lose);

const TAKE_B: Step = Does(B, Deed::Lose);

const TAKE_C: Step = Does(C, Deed::Lose);

const TAKE_D: Step = Does(D, Deed::Lose);

const TAKE_R: Step = Does(R, Deed::Lose);

const PUT_B: Step = Does(B, Deed::File(b""));

const PUT_FIFTH: Step = Does(FIFTH, Deed::File(b""));

const PUT_SIXTH: Step = Does(SIXTH, Deed::File(b""));

const PUT_EIGHTH: Step = Does(EIGHTH, Deed::File(b""));

const PUT_AFTER: Step = Does(AFTER, Deed::File(b""));

const OPEN: Step = Opens(Reading::All);

/// The last opening finds that no file is lost.
const WHOLE: Step = Opens(Reading::Whole);

/// The log begins with five files, each made after an opening.
const BEGUN: &[Step] = &[
    OPEN, MAKE_A, OPEN, MAKE_B, OPEN, MAKE_C, OPEN, MAKE_D, OPEN, MAKE_R, Closes,
];

const B_IS_MISSING: Step = Fails(
    Reading::Whole,
    Failure {
        opened: "",
        named: "",
        text: "by its note SPANS files are lost: 0000000000000002.raftlog is missing",
    },
);

const B_AND_C_ARE_MISSING: Step = Fails(
    Reading::Whole,
    Failure {
        opened: "",
        named: "",
        text: "by its note SPANS files are lost: 0000000000000002.raftlog to \
            0000000000000003.raftlog are missing",
    },
);

const R_IS_MISSING: Step = Fails(
    Reading::Whole,
    Failure {
        opened: "",
        named: "",
        text: "by its note SPANS files are lost: 0000000000000001.rewrite is missing",
    },
);

const AFTER_IS_STRAY: Step = Fails(
    Reading::Whole,
    Failure {
        opened: "",
        named: "",
        text: "by its note SPANS files are lost: 0000000000000009.raftlog does not \
            follow on the others",
    },
);

const WAS_MISSING: Step = Fails(
    Reading::Whole,
    Failure {
        opened: "",
        named: "",
        text: "by its note SPANS files are lost: NUMBER.raftlog files were missing at \
            an earlier opening",
    },
);

const THREE_ARE_MISSING: Step = Fails(
    Reading::Whole,
    Failure {
        opened: "",
        named: "",
        text: "by its note SPANS files are lost: 0000000000000002.raftlog to \
            0000000000000004.raftlog are missing; NUMBER.raftlog files were missing at an earlier \
            opening",
    },
);

const REWRITE_WAS_MISSING: Step = Fails(
    Reading::Whole,
    Failure {
        opened: "",
        named: "",
        text: "by its note SPANS files are lost: NUMBER.rewrite files were missing at \
            an earlier opening",
    },
);

pub(crate) static LOST: [Story; 5] = [
    Story {
        name: "no file is lost",
        parts: &[BEGUN, &[WHOLE]],
    },
    Story {
        name: "files that the log deletes or renames",
        parts: &[
            BEGUN,
            &[
                OPEN,
                DELETE_A,
                DELETE_B,
                OPEN,
                Calls(Call::Rename(C, FIFTH), None, FIFTH, Some(b"")),
                WHOLE,
            ],
        ],
    },
    Story {
        name: "one is taken away",
        parts: &[BEGUN, &[OPEN, Closes, TAKE_B, B_IS_MISSING]],
    },
    Story {
        name: "two are taken away",
        parts: &[BEGUN, &[OPEN, Closes, TAKE_C, TAKE_B, B_AND_C_ARE_MISSING]],
    },
    Story {
        name: "a Rewrite file is taken away",
        parts: &[BEGUN, &[OPEN, Closes, TAKE_R, R_IS_MISSING]],
    },
];

pub(crate) static FOUND_AGAIN: [Story; 4] = [
    Story {
        name: "a file is put there",
        parts: &[BEGUN, &[OPEN, Closes, PUT_AFTER, AFTER_IS_STRAY]],
    },
    Story {
        name: "one is put back",
        parts: &[BEGUN, &[OPEN, Closes, TAKE_B, OPEN, Closes, PUT_B, WHOLE]],
    },
    Story {
        name: "a loss is accepted",
        parts: &[BEGUN, &[OPEN, Closes, TAKE_B, OPEN, Closes, Accepts, WHOLE]],
    },
    Story {
        name: "by the note the first and the last file are missing",
        parts: &[
            BEGUN,
            &[
                OPEN,
                Asks(Asked::Missing(&[])),
                Closes,
                TAKE_A,
                TAKE_D,
                OPEN,
                Asks(Asked::Missing(&[(1, 1), (4, 4)])),
            ],
        ],
    },
];

/// A loss stays known when the log makes and deletes files around it.
pub(crate) static KNOWN: [Story; 4] = [
    Story {
        name: "the log makes the missing file",
        parts: &[
            BEGUN,
            &[OPEN, Closes, TAKE_D, OPEN, MAKE_D, Closes, WAS_MISSING],
        ],
    },
    Story {
        name: "the log deletes the files around it",
        parts: &[
            BEGUN,
            &[
                OPEN,
                Closes,
                TAKE_B,
                OPEN,
                DELETE_A,
                DELETE_C,
                Closes,
                WAS_MISSING,
            ],
        ],
    },
    Story {
        name: "the log begins with a missing file",
        parts: &[
            BEGUN,
            &[
                OPEN,
                Closes,
                TAKE_A,
                TAKE_B,
                TAKE_C,
                TAKE_D,
                OPEN,
                MAKE_A,
                Closes,
                THREE_ARE_MISSING,
            ],
        ],
    },
    Story {
        name: "an earlier loss is accepted",
        parts: &[
            BEGUN,
            &[
                OPEN, Closes, TAKE_B, OPEN, DELETE_A, DELETE_C, Closes, Accepts, WHOLE,
            ],
        ],
    },
];

pub(crate) static STALE: [Story; 3] = [
    Story {
        name: "the note is stale after a loss",
        parts: &[
            BEGUN,
            &[
                OPEN,
                Closes,
                TAKE_B,
                OPEN,
                DELETE_A,
                DELETE_C,
                Closes,
                PUT_FIFTH,
                PUT_SIXTH,
                PUT_EIGHTH,
                OPEN,
                MAKE_AFTER,
                Closes,
                WAS_MISSING,
            ],
        ],
    },
    Story {
        name: "the note is stale after a loss of a Rewrite file",
        parts: &[
            BEGUN,
            &[
                OPEN,
                Closes,
                TAKE_R,
                OPEN,
                MAKE_R,
                Closes,
                PUT_FIFTH,
                PUT_SIXTH,
                PUT_EIGHTH,
                OPEN,
                MAKE_AFTER,
                Closes,
                REWRITE_WAS_MISSING,
            ],
        ],
    },
    Story {
        name: "the note is stale, and a Rewrite file is missing",
        parts: &[
            BEGUN,
            &[
                OPEN,
                Closes,
                TAKE_R,
                PUT_FIFTH,
                PUT_SIXTH,
                PUT_EIGHTH,
                OPEN,
                MAKE_AFTER,
                Closes,
                R_IS_MISSING,
            ],
        ],
    },
];
