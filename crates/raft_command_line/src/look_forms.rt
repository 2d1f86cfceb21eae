//! The commands that leave a log as it is, as rows of a table.

use crate::forms::{
    COUNT, DRY_RUN, Form, GROUP, GroupLookSort, KEY, KIND, Kind, LIMIT, LookSort, OtherSort, RAW,
    SIZE, Sort, Word,
};

pub(crate) static LOOK_FORMS: [Form; 17] = [
    Form {
        name: "get",
        sort: Sort::Look(LookSort::Group(GroupLookSort::Get)),
        about: "Prints the value at a key; with status 3 where there is none",
        words: &[GROUP, KEY, RAW],
        example: "Example: raftctl log get 1 name --raw > value",
    },
    Form {
        name: "list",
        sort: Sort::Look(LookSort::List),
        about: "Prints a line for each key: its group, itself and the bytes of its value",
        words: &[
            Word("GROUP", Kind::Optional, "The keys of this group only"),
            LIMIT,
        ],
        example: "Example: raftctl log list 1 --limit 20",
    },
    Form {
        name: "scan",
        sort: Sort::Look(LookSort::Group(GroupLookSort::Scan)),
        about: "Prints a line for each key of a group in a range: itself and its value",
        words: &[
            GROUP,
            Word(
                "from",
                Kind::NamedText,
                "The first key; else that of the group",
            ),
            Word("to", Kind::NamedText, "The key before which the range ends"),
            Word("reverse", Kind::Flag, "Begins with the last key"),
            LIMIT,
        ],
        example: "Example: raftctl log scan 1 --from a --to b --limit 20",
    },
    Form {
        name: "entry",
        sort: Sort::Look(LookSort::Group(GroupLookSort::Entry)),
        about: "Prints the value of an entry; with status 3 where there is none",
        words: &[
            GROUP,
            Word("INDEX", Kind::Number, "The index of the entry"),
            RAW,
        ],
        example: "Example: raftctl log entry 1 2",
    },
    Form {
        name: "entries",
        sort: Sort::Look(LookSort::Group(GroupLookSort::Entries)),
        about: "Prints a line for each entry of a group: its index and its value",
        words: &[
            GROUP,
            Word(
                "FROM",
                Kind::Optional,
                "The first index; else that of the group",
            ),
            Word(
                "TO",
                Kind::Optional,
                "The last index; else that of the group",
            ),
            LIMIT,
        ],
        example: "Example: raftctl log entries 1 2 9",
    },
    Form {
        name: "groups",
        sort: Sort::Look(LookSort::Groups),
        about: "Prints a line for each group: its number",
        words: &[],
        example: "Example: raftctl log groups",
    },
    Form {
        name: "stat",
        sort: Sort::Look(LookSort::Stat),
        about: "Prints what the log holds, what an opening would lose, and a line for each group \
            and file: how many bytes are live; with --json one object",
        words: &[],
        example: "Example: raftctl log stat --json",
    },
    Form {
        name: "sum",
        sort: Sort::Look(LookSort::Sum),
        about: "Prints a checksum (SHA-256) of each group's entries and keys and one of all \
            groups; equal contents have equal sums, however their files are laid out",
        words: &[
            Word("GROUP", Kind::Optional, "This group only"),
            Word(
                "FROM",
                Kind::Optional,
                "The first index; then no keys are summed",
            ),
            Word("TO", Kind::Optional, "The last index; else the group's"),
        ],
        example: "Example: raftctl log sum 1 100 200",
    },
    Form {
        name: "dump",
        sort: Sort::Dump,
        about: "Prints a line for each item of the log files; status 4 where one can't be read on",
        words: &[
            Word(
                "FILE",
                Kind::OptionalText,
                "Only the items of this file; with a `/` the path of a log file anywhere",
            ),
            Word("group", Kind::Named, "The items of this group only"),
            KIND,
            Word(
                "from",
                Kind::Named,
                "Entries and compactions from this index on only",
            ),
            Word(
                "to",
                Kind::Named,
                "Entries and compactions up to this index only",
            ),
        ],
        example: "Example: raftctl log dump --group 1 --kind entry --from 5 --to 9",
    },
    Form {
        name: "check",
        sort: Sort::Look(LookSort::Check),
        about: "Prints a line for each file: what can be read, and what an opening in each mode \
            would do; status 4 where one in --mode would cut something off, 5 where it would \
            fail, 6 where it would pass files over",
        words: &[],
        example: "Example: raftctl log check --mode absolute",
    },
    Form {
        name: "consistency",
        sort: Sort::Look(LookSort::Consistency),
        about: "Prints a line for each group whose entries have a hole, with the last index \
            before the first one; status 3 if there is one, and 4, 5 and 6 as check",
        words: &[],
        example: "Example: raftctl log consistency --json",
    },
    Form {
        name: "picture",
        sort: Sort::Look(LookSort::Picture),
        about: "Prints a picture in SVG: the files to scale, and what the index refers to of each",
        words: &[],
        example: "Example: raftctl log picture > log.svg",
    },
    Form {
        name: "watch",
        sort: Sort::Other(OtherSort::Watch),
        about: "Prints once a second what a running log does: its files, bytes and records, the \
            groups that grow and the dropped files; it leaves the writer its lock. On a terminal \
            it draws a picture, with --json each look is an object",
        words: &[
            Word(
                "each",
                Kind::Named,
                "Looks once in so many seconds; 1 if left out",
            ),
            Word(
                "count",
                Kind::Named,
                "Ends after this number of looks; otherwise runs until it is stopped",
            ),
            Word(
                "groups",
                Kind::Named,
                "Prints so many groups at most, those that grew most; 10 if left out",
            ),
        ],
        example: "Example: raftctl log watch --json --count 60 > minute.json",
    },
    Form {
        name: "verify",
        sort: Sort::Look(LookSort::Verify),
        about: "Counts the keys of `load` from 0 on; status 3 if one exists after a gap",
        words: &[COUNT, SIZE],
        example: "Example: raftctl log verify 1000000 100",
    },
    Form {
        name: "settings",
        sort: Sort::Other(OtherSort::Settings),
        about: "Prints the settings in force, in TOML",
        words: &[],
        example: "Example: raftctl log settings --target 64MB > log.toml",
    },
    Form {
        name: "fork",
        sort: Sort::Other(OtherSort::Fork),
        about: "Copies the log files that an opening keeps into a folder, and syncs them; \
            statuses 4, 5 and 6 as check, if the copy is not the whole log",
        words: &[Word(
            "TARGET",
            Kind::Text,
            "The folder of the copy, which is made where it is missing; it may hold no log file",
        )],
        example: "Example: raftctl log fork copy",
    },
    Form {
        name: "salvage",
        sort: Sort::Salvage,
        about: "Reads every whole record of the folder's files, also after broken ones and in \
            .cut-N and .passed files, into a new log; the folder stays as it is; status 4 if \
            something could not be read",
        words: &[
            Word(
                "TARGET",
                Kind::Text,
                "The folder of the new log, which may not exist or is empty, outside this log's",
            ),
            Word(
                "FILE",
                Kind::OptionalTexts,
                "Only these files: names in the folder, or paths with a `/`",
            ),
            Word(
                "stale",
                Kind::Flag,
                "Also takes records that an earlier use of a file left, and files that a purge \
                    had dropped: they may bring back what was deleted",
            ),
            DRY_RUN,
        ],
        example: "Example: raftctl log salvage ../saved",
    },
];
