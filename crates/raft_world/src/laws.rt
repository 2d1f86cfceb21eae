//! The laws of a log: what holds after any calls, crashes, closes and openings.
ghost use Rattle.std.specs.Prelude.{ℕ, Option, Vec};
ghost use Rattle.std.specs.declared.alloc.Global.{Global};
ghost use Rattle.raft_env.specs.Consistent.{AreConsistent};
ghost use Rattle.raft_env.specs.Directory.{Directory, Leaves};
ghost use Rattle.raft_files.specs.Records.{as_it_is};
ghost use Rattle.raft_log_engine.specs.Purge.{HasLastId, HasOpenGroup};
ghost use Rattle.raft_world.specs.Completed.{LastFilesAreCompleted};
ghost use Rattle.raft_world.specs.Computed.{AcceptedMayBeFound, BatchesFollowOn, CallsAddBatches, DurableIsFound, FoundIsAFirstPart, NoneIsChosen, SyncsKeepContents};
ghost use Rattle.raft_world.specs.Effects.{ArmingHasNoEffect, CloseEnds, CompactionHasEffect, EffectStoodBefore, EffectSyncsAll, GiveUpEnds, KillEnds, NothingHasNoEffect, OpeningMakesAnew, PurgeHasEffect, ReadHasNoEffect, ReopenEnds, SyncHasEffect, WriteGroupHasEffect, WriteHasEffect, WriteOnceHasEffect};
ghost use Rattle.raft_world.specs.Happens.{OpeningsContinue, TheLogIsSafe};
ghost use Rattle.raft_world.specs.Kept.{CallsKeep, SyncedMayBegin, WhatCallsKeepHolds, WhatCallsKeepIsFound, WritesKeep};
ghost use Rattle.raft_world.specs.Once.{NumbersActOnce};
ghost use Rattle.raft_world.specs.OneCall.{CrashInCall};
ghost use Rattle.raft_world.specs.ReadFirst.{WhatIsKeptIsReadFirst};

use raft_env::FileSystem;
use raft_log_engine::laws::crash_leaves_contents;
use raft_once::laws::a_number_acts_once;
use raft_queue_laws::queue::{crash_leaves_a_prefix, queues_stand_side_by_side};

/// The headline. After any events an engine that hasn't failed holds all accepted batches. An
/// opening finds the durable batches and a first part of the others, or it fails with a cause.
pub fn the_log_is_safe<F: FileSystem>()
    ensures { TheLogIsSafe F.FileSystem }
{
    crash_leaves_contents();
    queues_stand_side_by_side();
}

/// After an opening the events continue, with a ledger of the batches that it found.
pub fn openings_continue<F: FileSystem>()
    ensures { OpeningsContinue F.FileSystem }
{
    crash_leaves_contents();
    queues_stand_side_by_side();
}

/// A property that the contents have at first, and that each call keeps, holds of everything that an
/// opening may find (`found`), and of each engine that hasn't failed and each that an opening
/// returns (`nodes`). `synced`: events may begin at an engine that is all synced.
pub fn what_calls_keep_is_found<F: FileSystem>()
    ensures found { WhatCallsKeepIsFound F.FileSystem }
    ensures nodes { WhatCallsKeepHolds F.FileSystem }
    ensures synced { SyncedMayBegin F.FileSystem }
{
    the_log_is_safe::<F>();
}

/// Which calls keep a property: those whose batches each keep it, so calls without batches too
/// (`batches`), and those that write one batch which keeps it at the contents before the call
/// (`write`).
pub fn calls_keep<F: FileSystem>()
    ensures batches { CallsKeep F.FileSystem }
    ensures write { WritesKeep F.FileSystem }
{}

/// What a ledger computes to: what may be found, written out (`found`), that all accepted batches
/// may be found, and what effects, syncs and batches do to the contents.
pub fn ledgers_compute()
    ensures found { FoundIsAFirstPart }
    ensures accepted { AcceptedMayBeFound }
    ensures durable { DurableIsFound }
    ensures sync { SyncsKeepContents }
    ensures effect { CallsAddBatches }
    ensures append { BatchesFollowOn }
    ensures none { NoneIsChosen }
{}

/// Exactly once: in a log's contents no number of a group has acted twice, unless the group was
/// cleaned between.
pub fn numbers_act_once<F: FileSystem>()
    ensures { NumbersActOnce F.FileSystem }
{
    crash_leaves_contents();
    queues_stand_side_by_side();
    a_number_acts_once();
}

/// The law for one call of an engine with an unknown past: what an opening finds after a crash
/// inside the call, or why the opening fails.
pub fn a_crash_in_a_call_leaves_a_prefix<F: FileSystem>()
    ensures { CrashInCall F.FileSystem }
{
    crash_leaves_contents();
    queues_stand_side_by_side();
}

/// After a crash with any damage, detectable or not, an opening reads the durable batches first.
/// The crash comes between two calls, or inside a call, a close or an opening.
pub fn what_is_kept_is_read_first<F: FileSystem>()
    ensures { WhatIsKeptIsReadFirst F.FileSystem }
{
    crash_leaves_contents();
    queues_stand_side_by_side();
    crash_leaves_a_prefix();
}

/// Between two calls the last log files of an engine that hasn't failed hold only records that
/// calls completed, and none from before a renaming. The premise: on these files only writes have
/// failed, and the opening found no record of a failed call.
pub fn last_files_are_completed<F: FileSystem>()
    ensures { LastFilesAreCompleted F.FileSystem }
{}

/// A kill is a crash that leaves every byte as it is, which the contract of storage allows for
/// consistent files. All files in memory and of a folder are consistent.
pub fn a_kill_is_a_crash()
    ensures { (n : Directory) → AreConsistent n → Leaves n (as_it_is n) }
{}

/// Each public call that takes `&mut self` or the engine has its effect by its own contract, one
/// clause for each. A call with listeners has the clauses of the one without. `kill` isn't a call:
/// the process ends between two calls. Nor is `nothing`: a function returns before it calls.
/// `opening` says what each opening makes, `syncs` and `stood` what any effect says of both engines.
pub fn calls_have_effects<F: FileSystem>()
    ensures write { WriteHasEffect F.FileSystem }
    ensures write_once { WriteOnceHasEffect F.FileSystem }
    ensures write_group { WriteGroupHasEffect F.FileSystem }
    ensures compact_to { CompactionHasEffect F.FileSystem }
    ensures sync { SyncHasEffect F.FileSystem }
    ensures purge_expired_files { PurgeHasEffect F.FileSystem (Vec ℕ Global) HasOpenGroup HasLastId }
    ensures must_rewrite_append_queue { PurgeHasEffect F.FileSystem ℕ (λ _. ⊥) (λ _. ⊥) }
    ensures must_rewrite_rewrite_queue { PurgeHasEffect F.FileSystem ℕ HasOpenGroup HasLastId }
    ensures must_purge_all_stale { PurgeHasEffect F.FileSystem ℕ (λ _. ⊥) (λ _. ⊥) }
    ensures must_rewrite_append_groups { PurgeHasEffect F.FileSystem (Option ℕ) (λ _. ⊥) (λ _. ⊥) }
    ensures must_rewrite_rewrite_groups { PurgeHasEffect F.FileSystem (Option ℕ) HasOpenGroup HasLastId }
    ensures get_entry { ReadHasNoEffect F.FileSystem }
    ensures fetch_entries_to { ReadHasNoEffect F.FileSystem }
    ensures load_entry { ReadHasNoEffect F.FileSystem }
    ensures image { ReadHasNoEffect F.FileSystem }
    ensures refuse { ArmingHasNoEffect F.FileSystem }
    ensures stop_at { ArmingHasNoEffect F.FileSystem }
    ensures close { CloseEnds F.FileSystem }
    ensures reopen { ReopenEnds F.FileSystem }
    ensures give_up { GiveUpEnds F.FileSystem }
    ensures kill { KillEnds F.FileSystem }
    ensures nothing { NothingHasNoEffect F.FileSystem }
    ensures opening { OpeningMakesAnew F.FileSystem }
    ensures syncs { EffectSyncsAll F.FileSystem }
    ensures stood { EffectStoodBefore F.FileSystem }
{}
