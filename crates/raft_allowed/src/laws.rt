//! Laws that join trials and the images that may be left.
ghost use Rattle.std.specs.Prelude.{◌≡◌, ℕ, IfOk, IsSomeAnd, List, None, Option};
ghost use Rattle.raft_config.specs.Folders.{folders_in};
ghost use Rattle.raft_config.specs.declared.config.Config.{Config};
ghost use Rattle.raft_memory.specs.declared.crash.Choice.{Choice};
ghost use Rattle.raft_script.specs.Trial.{AreDetectablyLeft, IsTrialOf, IsTrialTwiceOf};
ghost use Rattle.raft_script.specs.declared.operation.Op.{Op};
ghost use Rattle.raft_script.specs.declared.operation.Trial.{Trial};
ghost use Rattle.raft_allowed.specs.Allowed.{IsLeftAs};

use raft_env::FileSystem;
use raft_log_engine::laws::crash_leaves_contents;
use raft_memory::MemoryFileSystem;

/// A trial finds contents that may be left after its operations with their outcomes, so `allowed`
/// returns an image of them. The trial's first opening succeeded, and the damage of its crash is
/// detectable.
pub fn a_trial_finds_what_may_be_left()
    ensures found { (config : Config) (ops : List Op) (stop : Option ℕ) (choices : List Choice)
        (t : Trial) (is : IsTrialOf ⟦<MemoryFileSystem as FileSystem>⟧ config ops stop choices t)
        → t.refused ≡ None → AreDetectablyLeft (folders_in config) is.crash.last choices
        → IfOk t.opened (IsLeftAs t.failed_at ops t.outcomes.items) }
{
    crash_leaves_contents();
}

/// The same holds for the opening of `trial_twice` in which the second crash came (`second`). It
/// holds for the opening after that crash (`found`) if the damage of the second crash is
/// detectable too.
pub fn a_second_crash_leaves_no_more()
    ensures second { (config : Config) (ops : List Op) (stop : Option ℕ) (choices : List Choice)
        (again : Option ℕ) (more : List Choice) (t : Trial) (is : IsTrialTwiceOf
        ⟦<MemoryFileSystem as FileSystem>⟧ config ops stop choices again more t)
        → t.refused ≡ None → AreDetectablyLeft (folders_in config) is.crash.last choices
        → IsSomeAnd t.second (λ o. IfOk o (IsLeftAs t.failed_at ops t.outcomes.items)) }
    ensures found { (config : Config) (ops : List Op) (stop : Option ℕ) (choices : List Choice)
        (again : Option ℕ) (more : List Choice) (t : Trial) (is : IsTrialTwiceOf
        ⟦<MemoryFileSystem as FileSystem>⟧ config ops stop choices again more t)
        → t.refused ≡ None → AreDetectablyLeft (folders_in config) is.crash.last choices
        → AreDetectablyLeft (folders_in config) is.second.last more
        → IfOk t.opened (IsLeftAs t.failed_at ops t.outcomes.items) }
{
    crash_leaves_contents();
}
