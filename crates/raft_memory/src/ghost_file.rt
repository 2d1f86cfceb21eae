//! What only clauses read of a file. It takes no memory, and its method does nothing at run time.
ghost use Rattle.std.specs.Prelude.{◌≡◌};
ghost use Rattle.std.specs.Borrow.{ftrue};
ghost use Rattle.raft_env.specs.Outcomes.{File};

use crate::file_bytes::FileBytes;
use std::marker::Model;

#[derive(Drop)]
pub(crate) struct GhostFile {
    pub ghost file: { File },
}

impl Model for GhostFile {
    ghost also_owns = { λ _. ftrue };
}

// It owns nothing.
unsafe impl Send for GhostFile {}

unsafe impl Sync for GhostFile {}

/// A change of a file, with the clauses' knowledge of it before. The last bytes of a step are the
/// file's bytes after it.
#[derive(Clone, Copy, Drop)]
pub(crate) enum Step<'a> {
    Write(&'a GhostFile, usize, &'a [u8], bool, &'a FileBytes),
    Resize(&'a GhostFile, &'a FileBytes),
    Sync(&'a GhostFile),
    Rename(&'a GhostFile),
    /// The file is new, or a crash left these bytes.
    Start(&'a [u8]),
}

impl GhostFile {
    ghost use Rattle.raft_memory.specs.Step.{file_after_step};

    #[inline(always)]
    pub(crate) fn after(_step: &Step<'_>) -> GhostFile
        ensures { result.file ≡ file_after_step _step.now }
    {
        GhostFile {}
    }
}
