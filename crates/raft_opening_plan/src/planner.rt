//! What makes the items of a plan.

use raft_config::RecoveryMode;
use std::alloc::Global;

/// The log for which a plan is made.
#[derive(Clone, Copy)]
pub struct Planner<'a> {
    pub alloc: Global,
    /// Its folder, as the command line names it.
    pub folder: &'a str,
    /// The second folder, by its path from the first one.
    pub spill: Option<&'a str>,
    /// What the opening does with broken bytes.
    pub mode: RecoveryMode,
}

/// What the note of spans beside the log files says of a queue.
pub struct Known {
    /// The numbers of the first file that is needed and of the last one that was made.
    pub first: u64,
    pub last: u64,
    /// Needed numbers without a file: ranges with both ends.
    pub missing: Vec<(u64, u64)>,
    /// Numbers of files that do not follow the last one.
    pub strays: Vec<u64>,
    /// Numbers of files that a purge had dropped.
    pub left_over: Vec<u64>,
    /// Whether files were missing at an earlier opening, and cannot be put back.
    pub has_lost: bool,
}

// One call in a proof that drops it; derived, it would be one of each field (docs/DECISIONS.md).
impl Drop for Known {
    fn drop(self) {
        let Known {
            first: _,
            last: _,
            missing: _missing,
            strays: _strays,
            left_over: _left_over,
            has_lost: _,
        } = self;
    }
}
