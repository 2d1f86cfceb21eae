//! Items for files that are not read, that the system refuses, and that are deleted.

use crate::item::Item;
use crate::kind::Kind;
use crate::planner::Planner;
use raft_inspect::queue_name;
use raft_records::{FileId, LogQueue};
use std::alloc::AllocError;

impl Planner<'_> {
    /// A folder inside the log's with files of the log, which is not read. `doubled` is a file
    /// whose number the log's folder has too.
    pub fn left_out_folder(
        &self,
        folder: &str,
        files: u64,
        bytes: u64,
        doubled: Option<FileId>,
    ) -> Result<Item, AllocError> {
        let cause = match doubled {
            Some(id) => format!(in self.alloc;
                "number {} of queue {} is there too: which of both folders has the log cannot be \
                known",
                id.seq,
                queue_name(id.queue)
            )?,
            None => String::from_str(
                self.alloc,
                "its files continue the numbers of those that are read",
            )?,
        };
        Ok(Item {
            kind: Kind::Folder,
            path: String::from_str(self.alloc, folder)?,
            files,
            at: 0,
            bytes,
            cause,
            mend: self.spill_option(folder)?,
        })
    }

    /// A queue without a file, although each opening makes one. `other` is the number of the Append
    /// queue's first file, or how many files the Rewrite queue has.
    pub fn gone_queue(&self, queue: LogQueue, other: u64) -> Result<Item, AllocError> {
        let cause = match queue {
            LogQueue::Rewrite => format!(in self.alloc;
                "queue rewrite has no file, and queue append begins with number {other}: what \
                purges wrote is gone, or in a folder that is not read; restore the files"
            )?,
            LogQueue::Append => format!(in self.alloc;
                "queue append has no file, and queue rewrite has {other}: what was written last is \
                gone, or in a folder that is not read; restore the files"
            )?,
        };
        Ok(Item {
            kind: Kind::Queue,
            path: String::from_str(self.alloc, queue_name(queue))?,
            files: 0,
            at: 0,
            bytes: 0,
            cause,
            mend: String::new(self.alloc),
        })
    }

    /// A path of the system at which the opening is refused.
    pub fn refused(&self, place: &str, cause: &str, mend: String) -> Result<Item, AllocError> {
        Ok(Item {
            kind: Kind::Refused,
            path: String::from_str(self.alloc, place)?,
            files: 1,
            at: 0,
            bytes: 0,
            cause: String::from_str(self.alloc, cause)?,
            mend,
        })
    }

    /// A file in the place of the note of spans in which no note can be read.
    pub fn unread_note(&self, name: &str, why: &str, mend: String) -> Result<Item, AllocError> {
        Ok(Item {
            kind: Kind::Note,
            path: String::from_str(self.alloc, name)?,
            files: 1,
            at: 0,
            bytes: 0,
            cause: format!(in self.alloc; "{why}: without a note no missing file is known")?,
            mend,
        })
    }

    /// Reserved files, which the opening of a change deletes; `path` is the first one.
    pub fn reserved(&self, path: &str, files: u64, bytes: u64) -> Result<Item, AllocError> {
        let cause = "they hold no record, and the opening of a change deletes them";
        Ok(Item {
            kind: Kind::Reserved,
            path: String::from_str(self.alloc, path)?,
            files,
            at: 0,
            bytes,
            cause: String::from_str(self.alloc, cause)?,
            mend: String::new(self.alloc),
        })
    }
}
