//! Queues with log files in both folders of the settings: which files a recovery keeps, and when
//! an opening fails.

use crate::failing::Failing;
use crate::folders::{HEADER, stores_all};
use crate::tried::Tried;
use crate::two_queues::{Case, PUT_1, PUT_2, Step};
use raft_env::FileSystem;
use raft_pipes::file_list::{FileKind, FoundFile, scan};
use raft_records::LogQueue;
use raft_rows::FileParts;
use std::alloc::Global;

const MAIN_1: FileParts = ("data/0000000000000001.raftlog", &[HEADER, PUT_1]);

const MAIN_2: FileParts = ("data/0000000000000002.raftlog", &[HEADER, PUT_2]);

const MAIN_3: FileParts = ("data/0000000000000003.raftlog", &[HEADER]);

const MAIN_4: FileParts = ("data/0000000000000004.raftlog", &[HEADER]);

const MAIN_5: FileParts = ("data/0000000000000005.raftlog", &[HEADER]);

const MAIN_11: FileParts = ("data/0000000000000011.raftlog", &[HEADER]);

const MAIN_12: FileParts = ("data/0000000000000012.raftlog", &[HEADER]);

const SPILL_1: FileParts = ("more/0000000000000001.raftlog", &[HEADER, PUT_1]);

const SPILL_2: FileParts = ("more/0000000000000002.raftlog", &[HEADER, PUT_2, b"\x07"]);

const SPILL_5: FileParts = ("more/0000000000000005.raftlog", &[HEADER]);

const SPILL_6: FileParts = ("more/0000000000000006.raftlog", &[HEADER]);

const SPILL_REWRITE_2: FileParts = ("more/0000000000000002.rewrite", &[HEADER]);

/// Files, and those of the Append queue that a recovery keeps. The flag says that only one folder
/// has a file of this number.
pub(crate) struct Scan {
    stored: &'static [FileParts],
    kept: &'static [(&'static str, bool)],
}

pub(crate) static SCANS: [Tried; 10] = [
    // No files.
    Tried::Scan(&Scan {
        stored: &[],
        kept: &[],
    }),
    // A number in the first folder.
    Tried::Scan(&Scan {
        stored: &[MAIN_1],
        kept: &[("data/0000000000000001.raftlog", true)],
    }),
    // A number in the second folder.
    Tried::Scan(&Scan {
        stored: &[SPILL_1],
        kept: &[("more/0000000000000001.raftlog", true)],
    }),
    // A number in both folders.
    Tried::Scan(&Scan {
        stored: &[MAIN_1, SPILL_1],
        kept: &[("more/0000000000000001.raftlog", false)],
    }),
    // A run over both folders.
    Tried::Scan(&Scan {
        stored: &[MAIN_1, SPILL_2, MAIN_3],
        kept: &[
            ("data/0000000000000001.raftlog", true),
            ("more/0000000000000002.raftlog", true),
            ("data/0000000000000003.raftlog", true),
        ],
    }),
    // A run that begins with a doubled number.
    Tried::Scan(&Scan {
        stored: &[MAIN_1, SPILL_1, MAIN_2],
        kept: &[
            ("more/0000000000000001.raftlog", false),
            ("data/0000000000000002.raftlog", true),
        ],
    }),
    // A doubled number before a hole.
    Tried::Scan(&Scan {
        stored: &[MAIN_1, SPILL_1, MAIN_3],
        kept: &[("data/0000000000000003.raftlog", true)],
    }),
    // A doubled number inside a run over both folders.
    Tried::Scan(&Scan {
        stored: &[MAIN_4, MAIN_5, SPILL_5, SPILL_6],
        kept: &[
            ("more/0000000000000005.raftlog", false),
            ("more/0000000000000006.raftlog", true),
        ],
    }),
    // Three files before a hole of seven numbers.
    Tried::Scan(&Scan {
        stored: &[MAIN_1, MAIN_2, MAIN_3, MAIN_11, MAIN_12],
        kept: &[
            ("data/0000000000000011.raftlog", true),
            ("data/0000000000000012.raftlog", true),
        ],
    }),
    // A file of the other queue.
    Tried::Scan(&Scan {
        stored: &[MAIN_1, SPILL_REWRITE_2],
        kept: &[("data/0000000000000001.raftlog", true)],
    }),
];

pub(crate) static OPENED: [Tried; 4] = [
    // No files.
    Tried::Stages(&Case {
        folders: Some(("data", "more")),
        stored: &[],
        steps: &[Step::Scan, Step::ReadBoth(0, 0), Step::Cuts(&[])],
        finished: Ok(((1, 1), (1, 1))),
        files: &[
            ("data/0000000000000001.raftlog", 69),
            ("data/0000000000000001.rewrite", 69),
        ],
    }),
    // A run over both folders, and its last file is cut.
    Tried::Stages(&Case {
        folders: Some(("data", "more")),
        stored: &[MAIN_1, SPILL_2],
        steps: &[
            Step::Scan,
            Step::ReadBoth(2, 0),
            Step::Cuts(&[(LogQueue::Append, 2, 97)]),
        ],
        finished: Ok(((1, 2), (1, 1))),
        files: &[
            ("data/0000000000000001.raftlog", 97),
            ("more/0000000000000002.raftlog", 97),
            ("data/0000000000000001.rewrite", 69),
        ],
    }),
    // A doubled number before a hole is left as it is.
    Tried::Stages(&Case {
        folders: Some(("data", "more")),
        stored: &[MAIN_1, SPILL_1, MAIN_3],
        steps: &[Step::Scan, Step::ReadBoth(0, 0), Step::Cuts(&[])],
        finished: Ok(((3, 3), (1, 1))),
        files: &[
            ("data/0000000000000001.raftlog", 97),
            ("more/0000000000000001.raftlog", 97),
            ("data/0000000000000003.raftlog", 69),
            ("data/0000000000000001.rewrite", 69),
        ],
    }),
    // One folder, named twice.
    Tried::Stages(&Case {
        folders: Some(("data", "data")),
        stored: &[MAIN_1],
        steps: &[Step::Scan, Step::ReadBoth(1, 0), Step::Cuts(&[])],
        finished: Ok(((1, 1), (1, 1))),
        files: &[
            ("data/0000000000000001.raftlog", 97),
            ("data/0000000000000001.rewrite", 69),
        ],
    }),
];

pub(crate) static REFUSED: [Tried; 5] = [
    // A kept number in both folders.
    Tried::Stages(&Case {
        folders: Some(("data", "more")),
        stored: &[MAIN_1, SPILL_1, SPILL_2],
        steps: &[Step::ScanRefused(1)],
        finished: Err(15),
        files: &[
            ("data/0000000000000001.raftlog", 97),
            ("more/0000000000000001.raftlog", 97),
            ("more/0000000000000002.raftlog", 98),
        ],
    }),
    // A file in the first folder's place.
    Tried::Stages(&Case {
        folders: Some(("data", "more")),
        stored: &[("data", &[PUT_1]), SPILL_1],
        steps: &[Step::ScanRefused(1)],
        finished: Err(15),
        files: &[("data", 28), ("more/0000000000000001.raftlog", 97)],
    }),
    // A file in the second folder's place.
    Tried::Stages(&Case {
        folders: Some(("data", "more")),
        stored: &[MAIN_1, ("more", &[PUT_1])],
        steps: &[Step::ScanRefused(1)],
        finished: Err(15),
        files: &[("data/0000000000000001.raftlog", 97), ("more", 28)],
    }),
    // The second folder has a log file's path of the first.
    Tried::Stages(&Case {
        folders: Some(("data", "data/0000000000000002.raftlog")),
        stored: &[MAIN_1],
        steps: &[Step::ScanRefused(1)],
        finished: Err(15),
        files: &[("data/0000000000000001.raftlog", 97)],
    }),
    // The first folder has a log file's path of the second.
    Tried::Stages(&Case {
        folders: Some(("more/0000000000000002.rewrite", "more")),
        stored: &[SPILL_1],
        steps: &[Step::ScanRefused(1)],
        finished: Err(15),
        files: &[("more/0000000000000001.raftlog", 97)],
    }),
];

// Makes a folder if it doesn't exist.
fn adds_folder<F: FileSystem>(
    alloc: Global,
    fs: &mut F,
    name: &str,
    folders: &mut Vec<String>,
) -> bool {
    match String::from_str(alloc, name) {
        Ok(folder) => fs.make_dir(name).is_ok() && folders.push(folder).is_ok(),
        Err(_) => false,
    }
}

fn are_kept(found: &[FoundFile], wanted: &[(&str, bool)]) -> bool {
    for (file, (path, is_only)) in found.iter().zip(wanted) {
        if file.path.as_str() != *path || file.is_only != *is_only {
            return false;
        }
    }
    found.len() == wanted.len()
}

pub(crate) fn is_scanned<F: Failing>(alloc: Global, row: &Scan) -> bool {
    let mut fs = F::fresh(alloc);
    let mut folders = Vec::new(alloc);
    let are_made = stores_all(&mut fs, row.stored)
        && adds_folder(alloc, &mut fs, "data", &mut folders)
        && adds_folder(alloc, &mut fs, "more", &mut folders);
    let found = scan(alloc, &folders, FileKind::Log(LogQueue::Append), &mut fs);
    match found {
        Ok(found) => are_made && are_kept(found.as_slice(), row.kept),
        Err(_) => false,
    }
}
