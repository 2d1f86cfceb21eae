//! What a row of the tables of commands is, and the words that each command takes.

/// A command with its words.
#[derive(Clone, Copy)]
pub(crate) struct Form {
    pub name: &'static str,
    pub sort: Sort,
    pub about: &'static str,
    pub words: &'static [Word],
    pub example: &'static str,
}

/// What a command does.
#[derive(Clone, Copy)]
pub(crate) enum Sort {
    Change(ChangeSort),
    Look(LookSort),
    Lines,
    Append,
    Rewrite,
    Import,
    Salvage,
    Dump,
    Other(OtherSort),
}

/// How a command changes one group.
#[derive(Clone, Copy)]
pub(crate) enum ChangeSort {
    Put,
    Delete,
    Compact,
    Truncate,
    Clean,
}

/// What a command does whose words are taken as they are.
#[derive(Clone, Copy)]
pub(crate) enum OtherSort {
    Load,
    Purge,
    Repair,
    Settings,
    Watch,
    Fork,
}

/// What a command looks at.
#[derive(Clone, Copy)]
pub(crate) enum LookSort {
    Group(GroupLookSort),
    List,
    Groups,
    Stat,
    Sum,
    Check,
    Consistency,
    Picture,
    Verify,
}

/// What a command looks at of one group.
#[derive(Clone, Copy)]
pub(crate) enum GroupLookSort {
    Get,
    Scan,
    Entry,
    Entries,
}

/// A word's name, its kind, and its help text.
#[derive(Clone, Copy)]
pub(crate) struct Word(pub &'static str, pub Kind, pub &'static str);

#[derive(Clone, Copy)]
pub(crate) enum Kind {
    Text,
    /// Texts that may be left out.
    OptionalTexts,
    /// A text that may be left out.
    OptionalText,
    Number,
    /// A number that may be left out.
    Optional,
    /// A number after the word `--` and its name.
    Named,
    /// A text after these.
    NamedText,
    Flag,
}

impl Kind {
    pub(crate) fn is_required(self) -> bool {
        matches!(self, Kind::Text | Kind::Number)
    }

    /// Whether `--` and its name precede it.
    pub(crate) fn is_named(self) -> bool {
        matches!(self, Kind::Named | Kind::NamedText | Kind::Flag)
    }
}

/// With what the program ends.
pub(crate) const STATUSES: &str = "\
Statuses:
  0  done; of check: an opening in --mode would lose nothing
  1  a call failed; standard error says which, and where
  2  the command line can't be read
  3  get, entry: no such key or entry; verify: a key after a gap, or with another value;
     consistency: a group's entries have a hole
  4  check, consistency, fork: an opening would cut something off; dump: a file can't be read on;
     import, salvage: not all of the source could be read
  5  check, consistency, fork: an opening would fail
  6  check, consistency, fork, dump: an opening would pass files over, or files are not read
  7  a change was refused, and nothing done: its opening would lose more than an unsynced tail
     explains; look with check, cut and keep with repair, or say --cut. Or an import would
     replace or remove what the log has: --replace allows it

`raftctl help COMMAND` has an example of each command.";

/// The words that each command takes.
pub(crate) static OPTIONS: [Word; 8] = [
    Word(
        "settings",
        Kind::NamedText,
        "A file of settings in TOML; otherwise FOLDER/raftlog.toml if it exists",
    ),
    Word(
        "spill",
        Kind::NamedText,
        "A second folder, by its path from FOLDER, whose log files are read too",
    ),
    Word(
        "mode",
        Kind::NamedText,
        "What an opening does about broken bytes: absolute, tail (the default) or any",
    ),
    Word(
        "target",
        Kind::NamedText,
        "The size at which a log file is full, as 128MB",
    ),
    Word(
        "threads",
        Kind::Named,
        "How many workers read the files at an opening; else recovery-threads of the settings",
    ),
    Word("json", Kind::Flag, "Prints each line as an object"),
    Word(
        "hex",
        Kind::Flag,
        "Reads and prints keys and values as hexadecimal digits",
    ),
    Word("quiet", Kind::Flag, "Prints no progress and no notes"),
];

/// The words that each command that changes a log takes.
pub(crate) static CHANGE_OPTIONS: [Word; 3] = [
    Word(
        "cut",
        Kind::Flag,
        "Goes on where the opening loses more than an unsynced tail explains",
    ),
    Word(
        "no-keep",
        Kind::Flag,
        "Keeps no file of what the opening cuts off",
    ),
    Word(
        "wait",
        Kind::Named,
        "Waits so many seconds for a log that is open already",
    ),
];

pub(crate) const GROUP: Word = Word("GROUP", Kind::Number, "The number of the group");

/// The word in a group's place if each line of a file begins with its group.
pub(crate) const EACH: &str = "each";

pub(crate) const GROUP_OR_EACH: Word = Word(
    "GROUP",
    Kind::Text,
    "The number of the group; `each` if each line begins with its group",
);

pub(crate) const KIND: Word = Word(
    "kind",
    Kind::NamedText,
    "Only items of this kind: put, delete, entry, clean or compact",
);

pub(crate) const KEY: Word = Word("KEY", Kind::Text, "The key; @FILE for the bytes of a file");

pub(crate) const NO_SYNC: Word = Word("no-sync", Kind::Flag, "Leaves the sync out");

pub(crate) const COUNT: Word = Word("COUNT", Kind::Number, "How many keys");

pub(crate) const SIZE: Word = Word("SIZE", Kind::Number, "The bytes of each value");

pub(crate) const LIMIT: Word = Word("limit", Kind::Named, "Prints so many lines at most");

pub(crate) const RAW: Word = Word("raw", Kind::Flag, "Prints only the bytes, as they are");

pub(crate) const DRY_RUN: Word = Word(
    "dry-run",
    Kind::Flag,
    "Does it only in memory, and prints what it would do",
);
