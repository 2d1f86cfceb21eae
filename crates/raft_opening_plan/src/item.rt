//! An item of a plan.

use crate::kind::{Kind, Row};
use raft_inspect::{Lines, Word};
use std::alloc::AllocError;

/// What an opening does with a file or a folder, why, and what mends it.
pub struct Item {
    pub kind: Kind,
    /// The file, or the first one of several, by its path from the log's folder; or a folder.
    pub path: String,
    pub files: u64,
    /// From which place on, and how many bytes are concerned.
    pub at: u64,
    pub bytes: u64,
    /// Why, without names of files.
    pub cause: String,
    /// A command for a shell, or options to add to a command; empty if neither mends it.
    pub mend: String,
}

// One call in a proof that drops it; derived, it would be one of each field (docs/DECISIONS.md).
impl Drop for Item {
    fn drop(self) {
        let Item {
            kind: _,
            path: _path,
            files: _,
            at: _,
            bytes: _,
            cause: _cause,
            mend: _mend,
        } = self;
    }
}

impl Item {
    /// Adds its line, which has the statuses of `check` and of a change.
    pub fn add_line(&self, lines: &mut Lines) -> Result<(), AllocError> {
        let Row(name, check, change) = self.kind.row();
        let mend = match self.mend.as_str() {
            "" => "none",
            mend => mend,
        };
        lines.named(&[
            ("plan", Word::Text(name)),
            ("path", Word::Bytes(self.path.as_bytes())),
            ("files", Word::Number(self.files)),
            ("at", Word::Number(self.at)),
            ("bytes", Word::Number(self.bytes)),
            ("check", Word::Number(u64::from(check.code()))),
            ("change", Word::Number(u64::from(change.code()))),
            ("cause", Word::Text(self.cause.as_str())),
            ("mend", Word::Text(mend)),
        ])
    }
}
