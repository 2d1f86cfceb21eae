//! The groups of one call of a renewal, and the files that they are written to.
ghost use Rattle.std.specs.Prelude.{◌≡◌};
ghost use Rattle.std.proofs.Props.{props};
ghost use Rattle.std.specs.List.Sorted.{IsStrictlySortedBy};
ghost use Rattle.std.specs.Ordering.{nat_cmp};

use raft_records::FileSeq;
use raft_tables::GroupsMet;

/// A renewal in several calls: the first of its new files, and the atomic groups known before it.
#[derive(Clone, Copy, Debug)]
pub struct NewFiles {
    pub first: FileSeq,
    pub groups: GroupsMet,
}

/// One call of a renewal: its groups in ascending order, the new files if an earlier call began
/// them, and whether these are the last groups.
#[derive(Debug, Drop)]
pub struct RenewalPart {
    pub groups: Vec<u64>,
    pub files: Option<NewFiles>,
    pub is_last: bool,
    ghost ascending: { IsStrictlySortedBy nat_cmp groups.items } by { Prim.hlevel props },
}

impl RenewalPart {
    ghost use Rattle.raft_purge.specs.RenewalPart.{files_behind};

    /// The new files after this call; `next` if none were begun before. None after the last groups.
    pub fn files_behind(&self, next: NewFiles) -> Option<NewFiles>
        ensures value { result ≡ files_behind self.now next }
    {
        if self.is_last {
            return None;
        }
        Some(self.files.unwrap_or(next))
    }
}
