//! The request to the program.

use raft_base::ReadableSize;
use raft_config::{Config, RecoveryMode};
use std::alloc::{AllocError, Global};

#[derive(Drop)]
pub struct Request<'a> {
    pub folder: &'a str,
    pub options: Options<'a>,
    pub verb: Verb<'a>,
    /// Whether the change is synced and the log closed.
    pub sync: bool,
}

/// The words that each command takes.
#[derive(Clone, Copy)]
pub struct Options<'a> {
    /// A second folder, by its path from the first one, whose log files are read too.
    pub spill: Option<&'a str>,
    pub mode: RecoveryMode,
    /// Whether a word named the mode.
    pub mode_is_named: bool,
    /// The size at which a log file is full.
    pub target: Option<ReadableSize>,
    /// How many workers read the files at an opening.
    pub threads: Option<u64>,
    /// The file of the settings.
    pub settings: Option<&'a str>,
    /// The settings over which the other words are laid, once they were read.
    pub base: Option<&'a Config>,
    /// Each line is printed as an object.
    pub json: bool,
    /// Keys and values are read and printed as hexadecimal digits.
    pub hex: bool,
    /// No progress and no notes are printed.
    pub quiet: bool,
    /// A value is printed as its bytes only.
    pub raw: bool,
    pub changing: Changing,
}

/// How a log is opened to be changed.
#[derive(Clone, Copy)]
pub struct Changing {
    /// Whether it is opened even if that loses more than an unsynced tail.
    pub cut: bool,
    /// Whether no file is kept of what the opening cuts off.
    pub no_keep: bool,
    /// How many seconds are waited for a log that is open already.
    pub wait: u64,
    /// Whether everything is done only in memory.
    pub dry_run: bool,
}

impl Changing {
    /// The defaults.
    pub const USUAL: Changing = Changing {
        cut: false,
        no_keep: false,
        wait: 0,
        dry_run: false,
    };
}

/// What to do, with its group first, and then a key, a value or indexes.
#[derive(Drop)]
pub enum Verb<'a> {
    Put(u64, &'a str, &'a str),
    /// A file of lines, each a key, a tab and a value; if no group is named, each line begins with
    /// its group.
    Lines(Option<u64>, &'a str),
    /// A file of lines, each an index, a tab and a value, with groups as in `Lines`.
    EntryLines(Option<u64>, &'a str),
    Delete(u64, &'a str),
    /// Values of entries, a file whose lines are values, and the index of the first; groups as in
    /// `Lines`.
    Append(Option<u64>, Vec<&'a str>, Option<&'a str>, Option<u64>),
    Compact(u64, u64),
    /// The entries from an index on are removed.
    Truncate(u64, u64),
    Clean(u64),
    Load(Load),
    Purge(Purge),
    Repair,
    Import(Import<'a>),
    /// The settings in force.
    Settings,
    /// The folder of the copy.
    Fork(&'a str),
    Salvage(Salvage<'a>),
    Watch(Watch),
    Look(Look<'a>),
}

/// Which log files are to go.
#[derive(Clone, Copy)]
pub enum Purge {
    /// The Append queue's, whose records that still count are written to the Rewrite queue.
    Append,
    /// The Rewrite queue; its records that still count are written again.
    Rewrite,
    /// The Append queue's first ones, of which nothing counts any more.
    Stale,
    /// As far as the settings' thresholds ask for it.
    Expired,
}

/// The source of items, and which of them are written to the log.
#[derive(Clone, Copy)]
pub struct Import<'a> {
    /// A file of lines that `dump --json` printed; standard input if neither it nor a folder is
    /// named.
    pub file: Option<&'a str>,
    /// The folder of another log.
    pub folder: Option<&'a str>,
    /// The second folder of that log, by its path from the first.
    pub spill: Option<&'a str>,
    pub group: Option<u64>,
    pub kind: Option<&'a str>,
    /// Whether entries that the log has already may be replaced.
    pub replace: bool,
}

/// Which records of the folder go where.
#[derive(Drop)]
pub struct Salvage<'a> {
    /// The folder of the new log.
    pub target: &'a str,
    /// The files that are read; all of the folder if none is named.
    pub files: Vec<&'a str>,
    /// Whether records are taken that an earlier use of a file left, and files that a purge had
    /// dropped.
    pub stale: bool,
}

/// How a running log is looked at again and again.
#[derive(Clone, Copy)]
pub struct Watch {
    /// How many seconds lie between two looks.
    pub each: u64,
    /// How many looks there are; without an end if this is not named.
    pub count: Option<u64>,
    /// How many groups are printed at most, of those that grew.
    pub groups: u64,
}

/// What to look at, without a change.
#[derive(Clone, Copy)]
pub enum Look<'a> {
    Get(u64, &'a str),
    /// The keys of one group or of all, and how many at most.
    List(Option<u64>, Option<u64>),
    Scan(u64, Range<'a>),
    Entry(u64, u64),
    Entries(u64, Indexes),
    Groups,
    Stat,
    /// A checksum of a group or of all, and of which entries.
    Sum(Option<u64>, Indexes),
    Verify(Load),
    Dump(Dump<'a>),
    Check,
    /// The holes that entries leave.
    Consistency,
    Picture,
}

/// Which items of the log files to print: those of one file, of a group, of a kind, and of indexes.
#[derive(Clone, Copy)]
pub struct Dump<'a> {
    pub file: Option<&'a str>,
    pub group: Option<u64>,
    pub kind: Option<&'a str>,
    pub from: Option<u64>,
    pub to: Option<u64>,
}

/// The first and the last index of entries, and how many at most.
#[derive(Clone, Copy)]
pub struct Indexes {
    pub from: Option<u64>,
    pub to: Option<u64>,
    pub limit: Option<u64>,
}

/// Keys from one on, before another, how many at most, and whether from the last on.
#[derive(Clone, Copy)]
pub struct Range<'a> {
    pub from: Option<&'a str>,
    pub to: Option<&'a str>,
    pub limit: Option<u64>,
    pub reverse: bool,
}

/// The number of keys, the bytes of each, and after how many keys to sync and to purge; 0 means
/// never.
#[derive(Clone, Copy)]
pub struct Load {
    pub count: u64,
    pub size: u64,
    pub sync_each: u64,
    pub purge_each: u64,
}

impl<'a> Request<'a> {
    /// A log that isn't synced isn't closed either, since that syncs it.
    pub fn new(
        folder: &'a str,
        options: Options<'a>,
        verb: Verb<'a>,
        no_sync: bool,
    ) -> Request<'a> {
        let sync = match &verb {
            Verb::Load(load) => load.sync_each > 0,
            _ => !no_sync,
        };
        Request {
            folder,
            options,
            verb,
            sync,
        }
    }
}

impl<'a> Request<'a> {
    /// The same over these settings.
    pub fn over(self, settings: &'a Config) -> Request<'a> {
        Request {
            folder: self.folder,
            options: self.options.over(settings),
            verb: self.verb,
            sync: self.sync,
        }
    }
}

impl<'a> Options<'a> {
    // What no word names is that of the settings.
    fn over(self, settings: &'a Config) -> Options<'a> {
        let mut options = self;
        options.base = Some(settings);
        if !self.mode_is_named {
            options.mode = settings.recovery_mode;
        }
        if let (None, Some(spill)) = (self.spill, &settings.spill_dir) {
            options.spill = Some(spill.as_str());
        }
        options
    }

    /// The size at which a log file is full, of the option or the settings; 0 before these are read.
    pub fn target_bytes(&self) -> u64 {
        match (self.target, self.base) {
            (Some(target), _) => target.0,
            (None, Some(settings)) => settings.target_file_size.0,
            (None, None) => 0,
        }
    }

    /// The folders whose log files are read, by their paths from the first one.
    pub fn folders(&self, alloc: Global) -> Result<Vec<&'a str>, AllocError> {
        Ok(match self.spill {
            Some(spill) => vec![in alloc; "", spill]?,
            None => vec![in alloc; ""]?,
        })
    }
}
