//! The commands that change a log, as rows of a table.

use crate::forms::{
    COUNT, ChangeSort, DRY_RUN, Form, GROUP, GROUP_OR_EACH, KEY, KIND, Kind, NO_SYNC, OtherSort,
    SIZE, Sort, Word,
};

pub(crate) static CHANGE_FORMS: [Form; 12] = [
    Form {
        name: "put",
        sort: Sort::Change(ChangeSort::Put),
        about: "Puts a value at a key of a group, and syncs it",
        words: &[
            GROUP,
            KEY,
            Word(
                "VALUE",
                Kind::Text,
                "The value; @FILE for the bytes of a file, - for standard input",
            ),
            NO_SYNC,
        ],
        example: "Example: raftctl log put 1 name value",
    },
    Form {
        name: "lines",
        sort: Sort::Lines,
        about: "Puts the keys and values of a file of lines, each a key, a tab and a value; with \
            --entries adds its entries",
        words: &[
            GROUP_OR_EACH,
            Word("FILE", Kind::Text, "The file; - for standard input"),
            Word(
                "entries",
                Kind::Flag,
                "Each line is an index, a tab and a value, as `entries` prints them",
            ),
            NO_SYNC,
        ],
        example: "Example: raftctl log lines 1 pairs.tsv",
    },
    Form {
        name: "del",
        sort: Sort::Change(ChangeSort::Delete),
        about: "Deletes a key of a group, and syncs that",
        words: &[GROUP, KEY, NO_SYNC],
        example: "Example: raftctl log del 1 name",
    },
    Form {
        name: "append",
        sort: Sort::Append,
        about: "Adds entries to a group, syncs them, and prints the first and the last index of \
            them",
        words: &[
            GROUP_OR_EACH,
            Word(
                "VALUE",
                Kind::OptionalTexts,
                "The values of the entries; @FILE for the bytes of a file",
            ),
            Word(
                "lines",
                Kind::NamedText,
                "A file whose lines are values, after those named; - for standard input",
            ),
            Word(
                "at",
                Kind::Named,
                "The first index; entries from it on are replaced. Else the one after the last, \
                    or 1",
            ),
            NO_SYNC,
        ],
        example: "Example: raftctl log append 1 first second",
    },
    Form {
        name: "compact",
        sort: Sort::Change(ChangeSort::Compact),
        about: "Drops the entries of a group below an index, syncs that, and prints how many",
        words: &[
            GROUP,
            Word("INDEX", Kind::Number, "The first index that stays"),
            NO_SYNC,
        ],
        example: "Example: raftctl log compact 1 5",
    },
    Form {
        name: "truncate",
        sort: Sort::Change(ChangeSort::Truncate),
        about: "Removes the entries of a group from an index on, syncs that, and prints how many \
            and the last index that stays",
        words: &[
            GROUP,
            Word("INDEX", Kind::Number, "The first index that is removed"),
            NO_SYNC,
            DRY_RUN,
        ],
        example: "Example: raftctl log truncate 1 5 --dry-run",
    },
    Form {
        name: "import",
        sort: Sort::Import,
        about: "Writes the batches that `dump --json` printed, in their order; or the contents of \
            another log, whose entries may be compressed by LZ4; status 4 if not all of that log \
            could be read",
        words: &[
            Word(
                "FILE",
                Kind::OptionalText,
                "The file of lines; - or no word for standard input",
            ),
            Word(
                "from-folder",
                Kind::NamedText,
                "The folder of another log, whose contents are written with this log's settings",
            ),
            Word(
                "from-spill",
                Kind::NamedText,
                "The second folder of that log, by its path from the first one",
            ),
            Word("group", Kind::Named, "The items of this group only"),
            KIND,
            Word(
                "replace",
                Kind::Flag,
                "Replaces or removes what the log has; without it an import that would do so \
                    writes nothing",
            ),
            NO_SYNC,
            DRY_RUN,
        ],
        example: "Example: raftctl old dump --json | raftctl new import --group 1",
    },
    Form {
        name: "clean",
        sort: Sort::Change(ChangeSort::Clean),
        about: "Drops all entries and keys of a group, and syncs that",
        words: &[GROUP, NO_SYNC],
        example: "Example: raftctl log clean 1",
    },
    Form {
        name: "load",
        sort: Sort::Other(OtherSort::Load),
        about: "Puts keys numbered from 0 into group 1, and prints `synced I` after each sync",
        words: &[
            COUNT,
            SIZE,
            Word(
                "sync-each",
                Kind::Named,
                "Syncs after so many keys; 0: never; else after each",
            ),
            Word(
                "purge-each",
                Kind::Named,
                "Purges after so many keys, as `purge` does; 0, else: never",
            ),
        ],
        example: "Example: raftctl log load 1000000 100 --sync-each 1000",
    },
    Form {
        name: "rewrite",
        sort: Sort::Rewrite,
        about: "Rewrites what still counts in log files, drops these files, and prints how many, \
            and which files are kept for reuse",
        words: &[
            Word(
                "FILES",
                Kind::Text,
                "append or rewrite, the files of this queue; stale, those of which nothing counts",
            ),
            DRY_RUN,
        ],
        example: "Example: raftctl log rewrite append",
    },
    Form {
        name: "purge",
        sort: Sort::Other(OtherSort::Purge),
        about: "Drops log files as `rewrite` does, as far as the settings' thresholds ask for it; \
            prints the groups to compact before",
        words: &[DRY_RUN],
        example: "Example: raftctl log purge",
    },
    Form {
        name: "repair",
        sort: Sort::Other(OtherSort::Repair),
        about: "Opens the log in --mode, and keeps what that cuts off in files beside; with --cut \
            moves files aside that it passes over",
        words: &[DRY_RUN],
        example: "Example: raftctl log repair --mode any",
    },
];
