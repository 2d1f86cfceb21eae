//! The numbers of the log files of both queues.

use raft_records::FileSeq;

/// The numbers of the first and of the last log file of each queue.
#[derive(Clone, Copy, Debug, PartialEq, Eq)]
pub struct FileSpans {
    pub append: (FileSeq, FileSeq),
    pub rewrite: (FileSeq, FileSeq),
}
