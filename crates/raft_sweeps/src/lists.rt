//! Lists of operations, their settings and the files before them.

use raft_records::ReadableSize;
use raft_test_rows::{Change, Config, Faulty, Held, Plan, Sequence, plans_in, settings};
use std::alloc::{AllocError, Global};

/// Two sittings; each sync is a close. A log file is full with each value of 250 bytes. Files 1 to
/// 3 are dropped; two are kept beside a reserved file and become files 6 and 7. Then files 4 and 5
/// are dropped, and a close gives them reserved names. The second sitting makes its next files
/// from these.
static SITTINGS: [Plan; 19] = [
    Plan::Write(
        &[Change::Put(1, b"a", &[1; 250]), Change::Put(2, b"c", &[1])],
        false,
    ),
    Plan::Write(
        &[
            Change::Entries(3, 1, 3, b"x"),
            Change::Put(1, b"b", &[2; 250]),
        ],
        true,
    ),
    Plan::Write(&[Change::Put(2, b"d", &[3; 250])], false),
    Plan::RewriteAppend(None, None),
    Plan::Write(
        &[Change::Delete(1, b"a"), Change::Put(2, b"c", &[4; 250])],
        true,
    ),
    Plan::Write(&[Change::Put(1, b"b", &[5; 250])], false),
    Plan::Write(&[Change::Entries(3, 2, 4, b"y")], false),
    Plan::Write(&[Change::Put(1, b"a", &[6; 250]), Change::Clean(2)], true),
    Plan::Write(&[Change::Put(2, b"d", &[7; 9])], false),
    Plan::RewriteAppend(Some(5), None),
    Plan::Sync,
    Plan::Write(&[Change::Put(1, b"a", &[8; 250])], false),
    Plan::Write(&[Change::Put(2, b"c", &[9; 250])], true),
    Plan::CompactTo(3, 3),
    Plan::Write(&[Change::Delete(2, b"d")], false),
    Plan::RewriteAppend(None, None),
    Plan::Get(1, b"b"),
    Plan::Entry(3, 4),
    Plan::Sync,
];

/// How a list is run.
#[derive(Clone, Copy)]
pub(crate) enum Sort {
    /// With the tests' settings.
    Plain,
    /// Dropped files are reused. Each sync is a close, with an opening after it.
    Recycling,
    /// The same in two folders, of which only the second has room. The second sitting finds
    /// metadata of missing files.
    InTwoFolders,
}

/// The operations of a list.
#[derive(Clone, Copy)]
pub(crate) enum Script {
    Of(Sequence),
    Sittings,
}

/// The operations. Each table is named by its own function, since a proof has the whole table at
/// each step.
pub(crate) fn plans_of(script: Script) -> &'static [Plan] {
    match script {
        Script::Of(sequence) => plans_in(sequence),
        Script::Sittings => SITTINGS.as_slice(),
    }
}

/// Operations, and how they are run.
pub(crate) struct List {
    pub(crate) name: &'static str,
    pub(crate) script: Script,
    pub(crate) sort: Sort,
    /// The least number of calls that change files, if a crash leaves up to `kept` of the bytes
    /// written since a sync. With reused files these are: both queues' first files and four
    /// reserved ones with a write each, a write for each of seven long values, and a cut, a
    /// rename, a header and a sync for each next file.
    pub(crate) changes: u64,
    pub(crate) kept: usize,
}

/// `raft_trials` stops the plain lists.
static LISTS: [List; 5] = [
    List {
        name: "operations",
        script: Script::Of(Sequence::Operations),
        sort: Sort::Plain,
        changes: 0,
        kept: 0,
    },
    List {
        name: "purges",
        script: Script::Of(Sequence::Purges),
        sort: Sort::Plain,
        changes: 0,
        kept: 0,
    },
    List {
        name: "purges by watermarks",
        script: Script::Of(Sequence::Expired),
        sort: Sort::Plain,
        changes: 0,
        kept: 0,
    },
    List {
        name: "recycling",
        script: Script::Sittings,
        sort: Sort::Recycling,
        changes: 126,
        kept: 65,
    },
    List {
        name: "recycling in two folders",
        script: Script::Sittings,
        sort: Sort::InTwoFolders,
        changes: 50,
        kept: 1,
    },
];

pub(crate) fn all_lists() -> &'static [List] {
    LISTS.as_slice()
}

// Settings: a log file is full at 256 bytes, the Append queue is purged above three files, and
// reserved files are made at an opening.
fn recycling(alloc: Global) -> Result<Config, AllocError> {
    let mut config = settings(alloc)?;
    config.target_file_size = ReadableSize(256);
    config.purge_threshold = ReadableSize(768);
    config.prefill_for_recycle = true;
    Ok(config)
}

fn in_two_folders(alloc: Global) -> Result<Config, AllocError> {
    let spill = String::from_str(alloc, "spill")?;
    let mut config = recycling(alloc)?;
    config.spill_dir = Some(spill);
    Ok(config)
}

fn settings_of(alloc: Global, sort: Sort) -> Result<Config, AllocError> {
    match sort {
        Sort::Plain => settings(alloc),
        Sort::Recycling => recycling(alloc),
        Sort::InTwoFolders => in_two_folders(alloc),
    }
}

/// Opens the files with the list's settings. Returns whether there was memory for the settings.
pub(crate) fn open<F: Faulty>(alloc: Global, held: &mut Held<F>, sort: Sort) -> bool {
    match settings_of(alloc, sort) {
        Ok(config) => {
            held.open_with(alloc, config);
            true
        }
        Err(_fault) => false,
    }
}

fn are_two_folders<F: Faulty>(files: &mut F) -> bool {
    files.free_to("raft", 0).is_ok()
        && files.note("raft/0000000000000002.raftlog").is_ok()
        && files.note("spill/0000000000000004.raftlog").is_ok()
}

/// Makes new files without log files. Returns whether there was memory.
pub(crate) fn renew<F: Faulty>(alloc: Global, held: &mut Held<F>, sort: Sort) -> bool {
    held.renew(alloc);
    match sort {
        Sort::InTwoFolders => match held.files() {
            Some(files) => are_two_folders(files),
            None => false,
        },
        _ => true,
    }
}
