//! Both queues of a folder, opened in stages: the batches that are read of each, and the bytes that
//! are cut off their files.

use crate::failing::Failing;
use crate::folders::{Folders, HEADER, begun, stand_alone, stores_all};
use crate::keys::Keys;
use crate::tried::Tried;
use raft_builder::{Cut, DefaultMachineFactory, DualPipesBuilder};
use raft_env::FileSystem;
use raft_records::{Fault, FileId, Fresh, LogQueue};
use raft_rows::FileParts;
use std::alloc::Global;

/// A record of 28 bytes signed for file 1 of either queue, and one for file 2; made by Python's
/// struct and zlib.
pub(crate) const PUT_1: &[u8] =
    b"\x00\x00\x00\x00\x00\x00\x1c\x00\x00\x00\x00\x00\x00\x00\x00\x10\x01\x01\x03\x01\x01\x61\x01\x01\xf9\x48\xbe\x2b";

pub(crate) const PUT_2: &[u8] =
    b"\x00\x00\x00\x00\x00\x00\x1c\x00\x00\x00\x00\x00\x00\x00\x00\x10\x01\x01\x03\x01\x01\x62\x01\x02\x19\xa7\xf1\xb0";

/// A file that is cut: its queue, its number, and the length that is kept.
pub(crate) type Wanted = (LogQueue, u64, usize);

pub(crate) enum Step {
    Scan,
    /// The scan fails with this code.
    ScanRefused(u8),
    /// This number of batches is read of the queue.
    Read(LogQueue, usize),
    /// Both queues are read in order: the number of batches of the Append queue, and of the
    /// Rewrite queue.
    ReadBoth(usize, usize),
    /// Reading the queue fails with this code.
    ReadRefused(LogQueue, u8),
    /// The files that are cut.
    Cuts(&'static [Wanted]),
}

/// The folders of the settings, files with their bytes before the opening, its stages, the first and
/// the last file of each queue or the code with which finishing fails, and the files afterwards with
/// their lengths.
pub(crate) struct Case {
    pub folders: Folders,
    pub stored: &'static [FileParts],
    pub steps: &'static [Step],
    pub finished: Ended,
    pub files: &'static [(&'static str, usize)],
}

pub(crate) const APPEND_1: FileParts = ("data/0000000000000001.raftlog", &[HEADER, PUT_1]);

pub(crate) const APPEND_2: FileParts = ("data/0000000000000002.raftlog", &[HEADER, PUT_2, b"\x07"]);

pub(crate) const REWRITE_1: FileParts = ("data/0000000000000001.rewrite", &[HEADER, PUT_1, PUT_2]);

pub(crate) static REFUSED: [Tried; 3] = [
    // No files.
    Tried::Stages(&Case {
        folders: None,
        stored: &[],
        steps: &[Step::Scan, Step::Cuts(&[])],
        finished: Ok(((1, 1), (1, 1))),
        files: &[
            ("data/0000000000000001.raftlog", 69),
            ("data/0000000000000001.rewrite", 69),
        ],
    }),
    // No scan.
    Tried::Stages(&Case {
        folders: None,
        stored: &[APPEND_1],
        steps: &[Step::ReadRefused(LogQueue::Append, 15), Step::Cuts(&[])],
        finished: Err(15),
        files: &[("data/0000000000000001.raftlog", 97)],
    }),
    // A file in the folder's place.
    Tried::Stages(&Case {
        folders: None,
        stored: &[("data", &[PUT_1])],
        steps: &[
            Step::ScanRefused(1),
            Step::ReadRefused(LogQueue::Append, 15),
        ],
        finished: Err(15),
        files: &[("data", 28)],
    }),
];

pub(crate) static THREE_FILES: [Tried; 2] = [
    // One queue is unread.
    Tried::Stages(&Case {
        folders: None,
        stored: &[APPEND_1, APPEND_2, REWRITE_1],
        steps: &[Step::Scan, Step::Read(LogQueue::Append, 2), Step::Cuts(&[])],
        finished: Err(15),
        files: &[
            ("data/0000000000000001.raftlog", 97),
            ("data/0000000000000002.raftlog", 98),
            ("data/0000000000000001.rewrite", 125),
        ],
    }),
    // Broken ends of both queues.
    Tried::Stages(&Case {
        folders: None,
        stored: &[APPEND_1, APPEND_2, REWRITE_1],
        steps: &[
            Step::Scan,
            Step::ReadBoth(2, 1),
            Step::Cuts(&[(LogQueue::Rewrite, 1, 97), (LogQueue::Append, 2, 97)]),
        ],
        finished: Ok(((1, 2), (1, 1))),
        files: &[
            ("data/0000000000000001.raftlog", 97),
            ("data/0000000000000002.raftlog", 97),
            ("data/0000000000000001.rewrite", 97),
        ],
    }),
];

pub(crate) static EMPTY_FILE: [Tried; 1] = [ // A file of no bytes is begun anew.
    Tried::Stages(&Case {
        folders: None,
        stored: &[APPEND_1, ("data/0000000000000002.raftlog", &[])],
        steps: &[
            Step::Scan,
            Step::ReadBoth(1, 0),
            Step::Cuts(&[(LogQueue::Append, 2, 0)]),
        ],
        finished: Ok(((1, 2), (1, 1))),
        files: &[
            ("data/0000000000000001.raftlog", 97),
            ("data/0000000000000002.raftlog", 61),
            ("data/0000000000000001.rewrite", 69),
        ],
    }),
];

pub(crate) static HEADER_ALONE: [Tried; 1] = [ // A queue begins at its first file, also where that has no record.
    Tried::Stages(&Case {
        folders: None,
        stored: &[
            ("data/0000000000000001.raftlog", &[HEADER]),
            ("data/0000000000000002.raftlog", &[HEADER, PUT_2]),
        ],
        steps: &[Step::Scan, Step::ReadBoth(1, 0), Step::Cuts(&[])],
        finished: Ok(((1, 2), (1, 1))),
        files: &[
            ("data/0000000000000001.raftlog", 69),
            ("data/0000000000000002.raftlog", 97),
            ("data/0000000000000001.rewrite", 69),
        ],
    }),
];

pub(crate) static BROKEN_FILE: [Tried; 1] = [ // A file before the last one is broken.
    Tried::Stages(&Case {
        folders: None,
        stored: &[
            ("data/0000000000000001.raftlog", &[HEADER, PUT_1, b"\x07"]),
            APPEND_2,
            REWRITE_1,
        ],
        steps: &[
            Step::Scan,
            Step::ReadRefused(LogQueue::Append, 2),
            Step::Read(LogQueue::Rewrite, 1),
            Step::Cuts(&[]),
        ],
        finished: Err(15),
        files: &[
            ("data/0000000000000001.raftlog", 98),
            ("data/0000000000000002.raftlog", 98),
            ("data/0000000000000001.rewrite", 125),
        ],
    }),
];

// The number of batches read of the queue, or the code with which that fails. Each batch puts one
// key.
fn read<F: FileSystem>(
    alloc: Global,
    builder: &mut DualPipesBuilder<F>,
    queue: LogQueue,
) -> Result<usize, u8> {
    let mut keys = Keys::fresh(alloc);
    match builder.recover_queue_in_order(queue, &mut keys) {
        Ok(()) => Ok(keys.found.len()),
        Err(fault) => Err(fault.code()),
    }
}

// The keys of the Append queue, and those of the Rewrite queue.
pub(crate) fn read_keys<F: FileSystem>(
    alloc: Global,
    builder: &mut DualPipesBuilder<F>,
) -> Result<(Keys, Keys), Fault> {
    builder.recover_in_order(&DefaultMachineFactory::new(alloc))
}

/// Whether this number of batches is read of the Append queue, and of the Rewrite queue.
pub(crate) fn reads_both<F: FileSystem>(
    alloc: Global,
    builder: &mut DualPipesBuilder<F>,
    appended: usize,
    rewritten: usize,
) -> bool {
    match read_keys(alloc, builder) {
        Ok((append, rewrite)) => {
            append.found.len() == appended && rewrite.found.len() == rewritten
        }
        Err(_) => false,
    }
}

pub(crate) fn are_cuts(cuts: &[Cut], wanted: &[Wanted]) -> bool {
    for (cut, (queue, seq, len)) in cuts.iter().zip(wanted) {
        let is_wanted = cut.id == FileId::new(*queue, *seq) && cut.len == *len;
        if !is_wanted {
            return false;
        }
    }
    cuts.len() == wanted.len()
}

pub(crate) fn is_refused_as<T: Drop>(answer: Result<T, Fault>, code: u8) -> bool {
    match answer {
        Ok(_answer) => false,
        Err(fault) => fault.code() == code,
    }
}

// Whether the step ends as it says.
fn holds<F: FileSystem>(alloc: Global, builder: &mut DualPipesBuilder<F>, step: &Step) -> bool {
    match step {
        Step::Scan => builder.scan().is_ok(),
        Step::ScanRefused(code) => is_refused_as(builder.scan(), *code),
        Step::Read(queue, batches) => read(alloc, builder, *queue) == Ok(*batches),
        Step::ReadBoth(appended, rewritten) => reads_both(alloc, builder, *appended, *rewritten),
        Step::ReadRefused(queue, code) => read(alloc, builder, *queue) == Err(*code),
        Step::Cuts(wanted) => are_cuts(builder.cuts(), wanted),
    }
}

fn all_hold<F: FileSystem>(
    alloc: Global,
    builder: &mut DualPipesBuilder<F>,
    steps: &[Step],
) -> bool {
    for step in steps {
        if !holds(alloc, builder, step) {
            return false;
        }
    }
    true
}

/// The first and the last file of each queue, or the code with which finishing the opening fails.
pub(crate) type Ended = Result<((u64, u64), (u64, u64)), u8>;

/// The files after the opening is finished.
pub(crate) fn finished<F: FileSystem + Drop>(builder: DualPipesBuilder<F>) -> (Ended, F) {
    match builder.finish() {
        Ok((pipes, files)) => {
            let append = pipes.file_span(LogQueue::Append);
            let rewrite = pipes.file_span(LogQueue::Rewrite);
            drop(pipes);
            (Ok((append, rewrite)), files)
        }
        Err((fault, files)) => (Err(fault.code()), files),
    }
}

/// The code with which finishing an opening fails.
pub(crate) fn code_of(ended: Ended) -> Option<u8> {
    match ended {
        Ok(_spans) => None,
        Err(code) => Some(code),
    }
}

/// How an opening ends, and the files afterwards; `None` unless its steps end as they say.
pub(crate) fn staged<F: FileSystem + Drop>(
    alloc: Global,
    folders: Folders,
    fs: F,
    steps: &[Step],
) -> Option<(Ended, F)> {
    match begun(alloc, folders, fs) {
        Ok(mut builder) => {
            let held = all_hold(alloc, &mut builder, steps);
            let done = finished(builder);
            if held { Some(done) } else { None }
        }
        Err(_) => None,
    }
}

pub(crate) fn is_as_said<F: Failing>(alloc: Global, case: &Case) -> bool {
    let mut fs = F::fresh(alloc);
    if !stores_all(&mut fs, case.stored) {
        return false;
    }
    match staged(alloc, case.folders, fs, case.steps) {
        Some((ended, mut files)) => {
            ended == case.finished && stand_alone(&mut files, case.folders, case.files)
        }
        None => false,
    }
}
