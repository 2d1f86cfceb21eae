//! What a crash leaves of an engine, whatever calls came before.
ghost use Rattle.std.specs.Prelude.{◌≡◌, ◌++◌, ℕ, List, [], false, true};
ghost use Rattle.raft_records.specs.Contents.{Contents, after_batches, no_contents};
ghost use Rattle.raft_records.specs.Item.{Batch};
ghost use Rattle.raft_env.specs.Directory.{Directory, IsRestarted, CrashImage, Leaves};
ghost use Rattle.raft_crash_laws.specs.Begins.{LogStandsFor};
ghost use Rattle.raft_crash_laws.specs.Crash.{IsAllowedFrom, LeavesAllowed, RecoversContents, contents_after_crash, known_after_crash, left_of_queue};
ghost use Rattle.raft_crash_laws.specs.Log.{do_groups_ascend};
ghost use Rattle.raft_base.specs.declared.pipe_log.LogQueue.{LogQueue};
ghost use Rattle.raft_base.specs.declared.pipe_log.LogQueue.TheVariants.{Rewrite};
ghost use Rattle.raft_queues.specs.Dual.{HaveForm, form_by};
ghost use Rattle.raft_files.specs.Records.{as_it_is};
ghost use Rattle.raft_crash_laws.specs.Contents.{contents_at, known_at};
ghost use Rattle.raft_log_engine.specs.Advance.{StaysWithin, state_of};
ghost use Rattle.raft_log_engine.specs.Opening.{FoundCompletedRecords};
ghost use Rattle.raft_log_engine.specs.Engine.{contents_of, directory_of, durable_of, folders_of, has_failed, has_groups_together, settings_of, unsynced_of};
ghost use Rattle.raft_queue_laws.specs.DetectableDamage.{HaveNoStaleRecordIn};
ghost use Rattle.raft_env.specs.Consistent.{AreConsistent};
ghost use Rattle.raft_memory.specs.Choice.{AreWhole, left_by};
ghost use Rattle.raft_memory.specs.declared.crash.Choice.{Choice};
ghost use Rattle.raft_pipes.specs.Folder.{AreClear, HasNoLog, readable_queue};
ghost use Rattle.raft_pipes.specs.Numbered.{AreSingle};
ghost use Rattle.raft_records.specs.Places.{Blocks};
ghost use Rattle.raft_config.specs.Folders.{Folders, all_of};
ghost use Rattle.raft_crash_laws.specs.Queues.{AreDetectableIn, AreOpenableIn, AreSingleIn, AreSoundIn, HaveFoundBlocks, HaveSimplePastIn};
ghost use Rattle.raft_config.specs.declared.config.RecoveryMode.{RecoveryMode};
ghost use Rattle.raft_config.specs.declared.config.RecoveryMode.TheVariants.{AbsoluteConsistency};

use crate::Engine;
use raft_env::FileSystem;

/// Folders that keep contents through a crash leave them then, possibly with a prefix of the
/// batches after them. These contents are read first whatever the damage, and nothing after them is
/// read if the damage is detectable. A restart after a crash finds what the crash left. If that is
/// sound, the restart keeps it, its log can be opened in each mode except the absolute one, no
/// folder's path is taken (`AreClear`), and no kept number is in both folders (`AreSingleIn`). If
/// there is no log, nothing is read and nothing is kept. Files without a crash, as an engine gave
/// them up, are a case of what a crash could leave. Their log can be opened if their damage is
/// detectable: a failed write may leave any bytes of its record.
pub fn crash_leaves_contents()
    ensures left { (folders : Folders) (m : Contents) (batches : List Batch) (n : Directory)
        → RecoversContents folders m batches n → LeavesAllowed folders m batches n }
    ensures restarted { (folders : Folders) (n m : Directory) (d : CrashImage) → IsRestarted n d m
        → AreSoundIn folders n d
        → RecoversContents folders (contents_after_crash folders n d) [] m }
    ensures found { (folders : Folders) (n m : Directory) (d : CrashImage) → IsRestarted n d m
        → contents_at folders m ≡ contents_after_crash folders n d }
    ensures known { (folders : Folders) (n m : Directory) (d : CrashImage) → IsRestarted n d m
        → (group : ℕ) → known_at folders m group ≡ known_after_crash folders n d group }
    ensures opens { (folders : Folders) (n m : Directory) (d : CrashImage) → IsRestarted n d m
        → AreSoundIn folders n d → (mode : RecoveryMode) → (mode ≡ AbsoluteConsistency → ⊥)
        → AreOpenableIn mode folders m }
    ensures as_they_are { (folders : Folders) (m : Contents) (batches : List Batch) (n : Directory)
        → RecoversContents folders m batches n → AreDetectableIn folders n (as_it_is n)
        → IsAllowedFrom 0 m batches (contents_at folders n) × ((mode : RecoveryMode)
        → (mode ≡ AbsoluteConsistency → ⊥) → AreOpenableIn mode folders n) }
    ensures none { (folders : Folders) (n : Directory) → HasNoLog folders n → AreClear folders n
        → (contents_at folders n ≡ no_contents) × RecoversContents folders no_contents [] n }
    ensures clear { (folders : Folders) (m : Contents) (batches : List Batch) (n : Directory)
        → RecoversContents folders m batches n → AreClear folders n }
    ensures single { (folders : Folders) (m : Contents) (batches : List Batch) (n : Directory)
        → RecoversContents folders m batches n → AreSingleIn folders n }
    ensures stays_clear { (folders : Folders) (n m : Directory) (d : CrashImage)
        → IsRestarted n d m → AreSoundIn folders n d → AreClear folders m }
{
    raft_queue_laws::queue::crash_leaves_a_prefix();
}

/// A crash leaves what an engine keeps: the durable batches, and a prefix of the unsynced ones.
/// This holds as long as no call changes its files, also with more batches. For an engine that
/// hasn't failed, both together are its contents, and all of them are in its files: they are read
/// there first.
pub fn an_engine_recovers_what_it_keeps<F: FileSystem>(engine: &Engine<F>)
    ensures crash { LeavesAllowed (folders_of engine.now) (durable_of engine.now)
        (unsynced_of engine.now) (directory_of engine.now) }
    ensures any_moment { (more : List Batch) → StaysWithin (LeavesAllowed (folders_of engine.now)
        (durable_of engine.now) (unsynced_of engine.now ++ more)) (state_of engine.now)
        (state_of engine.now) }
    ensures contents { has_failed engine.now ≡ false
        → contents_of engine.now ≡ after_batches (durable_of engine.now) (unsynced_of engine.now) }
    ensures written { has_failed engine.now ≡ false
        → LogStandsFor (folders_of engine.now) (durable_of engine.now) (unsynced_of engine.now)
        (directory_of engine.now) }
{}

/// The premise on damage can be met for an engine that hasn't failed, under these conditions. Its
/// opening found no record of a failed call in the log: this is so after a crash, if there was no
/// log, and after a `close` or `reopen` of an engine of which it is true. Only writes failed among
/// the log's calls, also before the opening. Nothing decodes that a last log file held when it
/// was renamed. Then the damage of a crash is detectable that leaves every file with all its bytes
/// now, or with those of its last sync (`AreConsistent`: always so in memory).
pub fn the_damage_of_an_engine_is_detectable<F: FileSystem>(engine: &Engine<F>)
    ensures crash { let folders = folders_of engine.now in let n = directory_of engine.now in
        has_failed engine.now ≡ false → FoundCompletedRecords engine.now
        → HaveSimplePastIn folders n → HaveNoStaleRecordIn folders n → AreConsistent n
        → (choices : List Choice) → AreWhole choices → ∥ AreDetectableIn folders n (left_by choices n) ∥₁ }
{
    raft_queue_laws::damage::damage_of_a_queue_is_detectable();
}

/// The next log file of a queue of an engine that hasn't failed has the settings' version and size.
/// Purges keep as many files for reuse as the settings say: none if these don't recycle, and none
/// of the Rewrite queue.
pub fn pipes_are_made_by_the_settings<F: FileSystem>(engine: &Engine<F>)
    ensures form { has_failed engine.now ≡ false
        → HaveForm (form_by (settings_of engine.now)) engine.now.log.store.pipes }
{}

/// Without a log each atomic group's batches are adjacent, and a new engine knows it. After a crash
/// between two calls whose damage is detectable, an engine that knows it leaves a log of which an
/// opening finds it. After a close its clause `together` says so.
pub fn groups_stand_together<F: FileSystem>(engine: &Engine<F>)
    ensures none { (folders : Folders) (n : Directory) → HasNoLog folders n
        → do_groups_ascend (readable_queue Rewrite folders n) ≡ true }
    ensures crash { let folders = folders_of engine.now in let n = directory_of engine.now in
        has_failed engine.now ≡ false → has_groups_together engine.now ≡ true → (d : CrashImage)
        → Leaves n d → AreDetectableIn folders n d
        → do_groups_ascend (left_of_queue Rewrite folders n d) ≡ true }
{}

/// If each log file is the only one of its number, the bytes of the files make the blocks of
/// `HasFound.read`: a log that an opening accepts (`CanBeOpenedIn`) has such files.
pub fn log_files_have_blocks()
    ensures { (folders : Folders) (n : Directory)
        → ((queue : LogQueue) → AreSingle (all_of folders) queue n)
        → (blocks : Blocks) × HaveFoundBlocks folders n blocks }
{}
