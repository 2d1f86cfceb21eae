//! What is planned of files is what an opening does with them.
ghost use Rattle.std.specs.Prelude.{◌≡◌, ℕ, List, drop, Contains};
ghost use Rattle.raft_base.specs.declared.errors.Fault.{Fault};
ghost use Rattle.raft_base.specs.declared.pipe_log.LogQueue.{LogQueue};
ghost use Rattle.raft_env.specs.Directory.{Directory, Path};
ghost use Rattle.raft_config.specs.declared.config.RecoveryMode.{RecoveryMode};
ghost use Rattle.raft_pipes.specs.Files.{EachFile, IsOpenableFile};
ghost use Rattle.raft_opening.specs.Files.{HasDamageAmong};
ghost use Rattle.raft_pipes.specs.Numbered.{kept_files, paths_of};
ghost use Rattle.raft_dump.specs.Check.{AreLastToRise, plan_of};
ghost use Rattle.raft_dump.specs.declared.check.FileCheck.{FileCheck};
ghost use Rattle.raft_dump.specs.declared.plan.Planned.TheVariants.{Fail};
ghost use Rattle.raft_dump_laws.specs.Planned.{AreChecksIn, AreReadAs};
ghost use Rattle.raft_dump_laws.specs.Passed.{AreAllOf, IsDoubledAt, numbers_in};

/// What an opening finds in files of a queue, by the bytes at their paths and the result of a check
/// of each. If no file is planned to fail, it finds no damage in them (`opens`), and it finds them
/// as planned (`read`). If one is planned to fail, it finds damage (`fails`), and if it finds
/// damage, one is planned to fail (`refused`). What an opening finds is what `raft_opening` says of
/// `read_files`: `IsOpenableFile` for each after `Ok`, `HasDamageAmong` if it fails because of the
/// files.
pub fn a_plan_is_what_an_opening_does()
    ensures opens { (mode : RecoveryMode) (queue : LogQueue) (bytes : Path → List ℕ)
        (files : List (ℕ × Path)) (checks : List FileCheck)
        → AreChecksIn queue bytes files checks → (Contains (plan_of mode checks) Fail → ⊥)
        → EachFile (IsOpenableFile mode queue bytes) files }
    ensures read { (mode : RecoveryMode) (queue : LogQueue) (bytes : Path → List ℕ)
        (files : List (ℕ × Path)) (checks : List FileCheck)
        → AreChecksIn queue bytes files checks → EachFile (IsOpenableFile mode queue bytes) files
        → AreReadAs queue bytes files (plan_of mode checks) }
    ensures fails { (mode : RecoveryMode) (queue : LogQueue) (bytes : Path → List ℕ)
        (files : List (ℕ × Path)) (checks : List FileCheck)
        → AreChecksIn queue bytes files checks → Contains (plan_of mode checks) Fail
        → (e : Fault) × HasDamageAmong mode queue bytes files e }
    ensures refused { (mode : RecoveryMode) (queue : LogQueue) (bytes : Path → List ℕ)
        (files : List (ℕ × Path)) (checks : List FileCheck) (e : Fault)
        → AreChecksIn queue bytes files checks → HasDamageAmong mode queue bytes files e
        → Contains (plan_of mode checks) Fail }
{}

/// Of all log files of a queue in these folders, by number, an opening keeps those after the ones
/// that `passed_over` of `raft_dump` counts, unless the first of these has the number of the one
/// before it.
pub fn the_files_behind_are_kept()
    ensures { (folders : List Path) (queue : LogQueue) (n : Directory) (files : List (ℕ × Path))
        (passed : ℕ) → AreAllOf (paths_of folders queue n) files
        → AreLastToRise (numbers_in files) passed → (IsDoubledAt files passed → ⊥)
        → kept_files folders queue n ≡ drop passed files }
{}
