//! Earlier bytes, only for clauses.
ghost use Rattle.std.specs.Prelude.{◌≡◌};

use crate::ghost_file::{GhostFile, Step};
use std::marker::Model;

/// It takes no memory, and its method does nothing at run time.
#[derive(Drop)]
pub struct NotedBytes {
    ghost_file: GhostFile,
}

impl Model for NotedBytes {
    ghost use Rattle.std.specs.Prelude.{ℕ, List};

    ghost Value = { List ℕ };

    ghost view = { λ s. s.ghost_file.file.now };
}

impl NotedBytes {
    pub fn of(bytes: &[u8]) -> NotedBytes
        ensures { result ≡ bytes.now }
    {
        NotedBytes {
            ghost_file: GhostFile::after(&Step::Start(bytes)),
        }
    }
}
