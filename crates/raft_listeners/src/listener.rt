//! What happens to log files, and the trait of its listeners.

use raft_base::{FileBlockHandle, FileId, FileSeq, LogQueue};

/// A listener to what happens to the log files of both queues, in the order in which it happens. By
/// default each of these calls does nothing, and no file is kept from a purge.
pub trait EventListener: Drop {
    /// The file is the last one of its queue from now on. An opening reports each file that is read
    /// once, those of the Append queue first, by their numbers.
    fn post_new_log_file(&mut self, _file_id: FileId) {}

    /// A record was appended at this place, and is not applied yet. A record of the Rewrite queue
    /// is not synced either; one of the Append queue is synced if its write requested that.
    fn on_append_log_file(&mut self, _handle: FileBlockHandle) {}

    /// The tables have taken a record of this file.
    fn post_apply_memtables(&mut self, _file_id: FileId) {}

    /// The file and all before it in its queue were dropped.
    fn post_purge(&mut self, _file_id: FileId) {}

    /// The least file of the queue that a purge is to keep, with all after it.
    fn first_file_not_ready_for_purge(&self, _queue: LogQueue) -> Option<FileSeq> {
        None
    }
}

/// The events of a listener, by the calls of `EventListener`.
#[derive(Clone, Copy, Debug, PartialEq, Eq)]
pub enum Event {
    NewLogFile(FileId),
    Append(FileBlockHandle),
    Apply(FileId),
    Purge(FileId),
}
