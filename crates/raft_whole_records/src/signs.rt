//! Which files' records are looked for in a file.

use raft_records::{FileId, LogFileContext, Version};

/// What the records of a file are signed with.
#[derive(Clone, Copy)]
pub struct FileSigns {
    pub id: FileId,
    /// The version of the file's header; none if that can't be read.
    pub version: Option<Version>,
    /// Whether records are taken that an earlier file of the queue left in this one.
    pub stale: bool,
}

/// Whose record is signed so.
#[derive(Clone, Copy)]
pub enum Sign {
    /// The file's, or an earlier one's if these are taken.
    Taken(LogFileContext),
    /// An earlier file's.
    Stale(LogFileContext),
    /// No file's that could be meant.
    Foreign,
}

impl FileSigns {
    /// Whose a record with this signature is.
    pub fn sign_of(&self, signature: u32) -> Sign {
        let own = LogFileContext::new(self.id, Version::V2);
        let is_signed = !matches!(self.version, Some(Version::V1));
        let is_plain = !matches!(self.version, Some(Version::V2));
        if is_signed && own.get_signature() == Some(signature) {
            return Sign::Taken(own);
        }
        if signature == 0 {
            return if is_plain {
                Sign::Taken(LogFileContext::new(self.id, Version::V1))
            } else {
                Sign::Foreign
            };
        }
        let seq = u64::from(signature);
        if !is_signed || seq >= self.id.seq {
            return Sign::Foreign;
        }
        let earlier = LogFileContext::new(FileId::new(self.id.queue, seq), Version::V2);
        if self.stale {
            Sign::Taken(earlier)
        } else {
            Sign::Stale(earlier)
        }
    }
}
