//! What a crash leaves of bytes that no change has touched.
ghost use Rattle.std.specs.Prelude.{◌≡◌, ℕ, take};
ghost use Rattle.raft_env.specs.Directory.{CrashImage, Directory, Leaves, Path};
ghost use Rattle.raft_files.specs.Records.{bytes_after_crash};
ghost use Rattle.raft_files.specs.Writer.{bytes_at};
ghost use Rattle.raft_opening.specs.Open.{IsStillAt};

/// A crash leaves the first bytes of a file as they are, if no change has touched them since its
/// last sync.
pub fn a_crash_leaves_still_bytes()
    ensures left { (end : ℕ) (path : Path) (n : Directory) → IsStillAt end path n
        → (d : CrashImage) → Leaves n d
        → take end (bytes_after_crash path n d) ≡ take end (bytes_at path n) }
{}
