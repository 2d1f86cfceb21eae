//! The files of an engine while it runs.
ghost use Rattle.std.specs.Prelude.{◌≡◌};

use super::Engine;
use raft_env::FileSystem;

impl<F: FileSystem> Engine<F> {
    ghost use Rattle.raft_log_engine.specs.Engine.{directory_of, moments_of, refusals_of};

    /// Returns the file system, which can be read and not changed. For example, a folder on a disk
    /// has `counts`, and says by `refusal` what the system refused.
    pub fn file_system(&self) -> &F
        ensures value { (F.directory result.now ≡ directory_of self.now)
            × (F.moments result.now ≡ moments_of self.now)
            × (F.refusals_of result.now ≡ refusals_of self.now) }
    {
        &self.log.store.file_system
    }
}
