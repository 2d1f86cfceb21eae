//! Both queues of a folder, crashed or opened in stages, as rows: the steps, and then the batches
//! that are read of each queue.

use crate::tried::Tried;
use crate::two_queues::Step as Stage;
use LogQueue::{Append, Rewrite};
use raft_memory::FsCall;
use raft_records::LogQueue;

/// What a crash leaves of each file.
pub(crate) enum Left {
    Now,
    Synced,
    /// Only the first of the bytes written since the last sync, as many as this number. The others
    /// have this value.
    Torn(usize, u8),
}

pub(crate) enum Step {
    /// Appends a batch of 27 bytes that puts this key. Then syncs the queue if the flag is set.
    Put(LogQueue, u8, bool),
    Sync(LogQueue),
    /// Begins the queue's next file.
    Rotate(LogQueue),
    /// Deletes the queue's files before this number.
    Purge(LogQueue, u64),
}

/// Steps that begin without files, the result of a crash, and then the batches that are read of the
/// Append queue and of the Rewrite queue, each as its file's number and its key.
pub(crate) struct Case {
    pub steps: &'static [Step],
    pub left: Left,
    pub append: &'static [(u64, u8)],
    pub rewrite: &'static [(u64, u8)],
}

pub(crate) static IN_ONE_FILE: [Tried; 3] = [
    // Nothing was written.
    Tried::Crash(&Case {
        steps: &[],
        left: Left::Synced,
        append: &[],
        rewrite: &[],
    }),
    // Both queues are synced.
    Tried::Crash(&Case {
        steps: &[
            Step::Put(Append, b'a', false),
            Step::Put(Rewrite, b'b', true),
            Step::Put(Append, b'c', true),
        ],
        left: Left::Synced,
        append: &[(1, b'a'), (1, b'c')],
        rewrite: &[(1, b'b')],
    }),
    // A sync of one queue leaves the other's batches unsynced.
    Tried::Crash(&Case {
        steps: &[
            Step::Put(Rewrite, b'a', true),
            Step::Put(Rewrite, b'b', false),
            Step::Put(Append, b'c', false),
            Step::Sync(Append),
            Step::Put(Append, b'd', false),
        ],
        left: Left::Synced,
        append: &[(1, b'c')],
        rewrite: &[(1, b'a')],
    }),
];

pub(crate) static IN_MORE: [Tried; 5] = [
    // All of both queues is left.
    Tried::Crash(&Case {
        steps: &[
            Step::Put(Rewrite, b'a', false),
            Step::Put(Append, b'b', false),
            Step::Rotate(Rewrite),
            Step::Put(Rewrite, b'c', false),
        ],
        left: Left::Now,
        append: &[(1, b'b')],
        rewrite: &[(1, b'a'), (2, b'c')],
    }),
    // A rotation of one queue leaves the other's batches unsynced.
    Tried::Crash(&Case {
        steps: &[
            Step::Put(Append, b'a', false),
            Step::Put(Rewrite, b'b', false),
            Step::Rotate(Append),
            Step::Put(Append, b'c', false),
        ],
        left: Left::Synced,
        append: &[(1, b'a')],
        rewrite: &[],
    }),
    // Both queues are rotated.
    Tried::Crash(&Case {
        steps: &[
            Step::Put(Append, b'a', false),
            Step::Put(Rewrite, b'b', false),
            Step::Rotate(Append),
            Step::Rotate(Rewrite),
            Step::Put(Rewrite, b'c', false),
            Step::Rotate(Rewrite),
            Step::Put(Append, b'd', true),
            Step::Put(Rewrite, b'e', true),
            Step::Put(Append, b'f', false),
        ],
        left: Left::Synced,
        append: &[(1, b'a'), (2, b'd')],
        rewrite: &[(1, b'b'), (2, b'c'), (3, b'e')],
    }),
    // The first files of a queue are deleted.
    Tried::Crash(&Case {
        steps: &[
            Step::Put(Append, b'a', true),
            Step::Rotate(Append),
            Step::Put(Append, b'b', false),
            Step::Put(Rewrite, b'c', true),
            Step::Rotate(Append),
            Step::Put(Append, b'd', true),
            Step::Purge(Append, 2),
            Step::Put(Append, b'e', false),
        ],
        left: Left::Synced,
        append: &[(2, b'b'), (3, b'd')],
        rewrite: &[(1, b'c')],
    }),
    // Torn records of both queues.
    Tried::Crash(&Case {
        steps: &[
            Step::Put(Append, b'a', true),
            Step::Put(Append, b'b', false),
            Step::Put(Rewrite, b'c', true),
            Step::Put(Rewrite, b'd', false),
        ],
        left: Left::Torn(26, 0xff),
        append: &[(1, b'a')],
        rewrite: &[(1, b'c')],
    }),
];

/// Steps that leave both queues with one file each.
pub(crate) const ONE_EACH: [Step; 2] = [
    Step::Put(Append, b'a', true),
    Step::Put(Rewrite, b'b', true),
];

/// An opening of two queues of one file each: the call that fails, the stages, and the code with
/// which finishing the opening fails.
pub(crate) struct Opening {
    pub refused: Option<(FsCall, u64)>,
    pub stages: &'static [Stage],
    pub finished: Option<u8>,
}

pub(crate) static STAGED_ROWS: [Tried; 10] = [
    // Nothing is read.
    Tried::End(&Opening {
        refused: None,
        stages: &[Stage::Scan],
        finished: Some(15),
    }),
    // The Append queue is unread.
    Tried::End(&Opening {
        refused: None,
        stages: &[Stage::Scan, Stage::Read(Rewrite, 1)],
        finished: Some(15),
    }),
    // The Rewrite queue is unread.
    Tried::End(&Opening {
        refused: None,
        stages: &[Stage::Scan, Stage::Read(Append, 1)],
        finished: Some(15),
    }),
    // A second scan begins anew.
    Tried::End(&Opening {
        refused: None,
        stages: &[
            Stage::Scan,
            Stage::Read(Append, 1),
            Stage::Read(Rewrite, 1),
            Stage::Scan,
        ],
        finished: Some(15),
    }),
    // A second scan fails.
    Tried::End(&Opening {
        refused: Some((FsCall::List, 4)),
        stages: &[
            Stage::Scan,
            Stage::Read(Append, 1),
            Stage::Read(Rewrite, 1),
            Stage::ScanRefused(3),
            Stage::ReadRefused(Append, 15),
        ],
        finished: Some(15),
    }),
    // A scan fails for the Rewrite queue.
    Tried::End(&Opening {
        refused: Some((FsCall::List, 2)),
        stages: &[
            Stage::ScanRefused(3),
            Stage::ReadRefused(Append, 15),
            Stage::ReadRefused(Rewrite, 15),
        ],
        finished: Some(15),
    }),
    // A scan fails for the reserved files.
    Tried::End(&Opening {
        refused: Some((FsCall::List, 3)),
        stages: &[
            Stage::ScanRefused(3),
            Stage::ReadRefused(Append, 15),
            Stage::ReadRefused(Rewrite, 15),
        ],
        finished: Some(15),
    }),
    // A scan after one that failed.
    Tried::End(&Opening {
        refused: Some((FsCall::List, 1)),
        stages: &[
            Stage::ScanRefused(3),
            Stage::Scan,
            Stage::Read(Rewrite, 1),
            Stage::Read(Append, 1),
        ],
        finished: None,
    }),
    // A queue can't be read.
    Tried::End(&Opening {
        refused: Some((FsCall::NewReader, 2)),
        stages: &[
            Stage::Scan,
            Stage::Read(Append, 1),
            Stage::ReadRefused(Rewrite, 3),
        ],
        finished: Some(15),
    }),
    // A queue is read again.
    Tried::End(&Opening {
        refused: Some((FsCall::NewReader, 1)),
        stages: &[
            Stage::Scan,
            Stage::ReadRefused(Append, 3),
            Stage::Read(Rewrite, 1),
            Stage::Read(Append, 1),
        ],
        finished: None,
    }),
];
