//! What calls on an open log leave, whatever they are.
ghost use Rattle.std.specs.Prelude.{◌≡◌, List, false, pos, true};
ghost use Rattle.raft_log_engine.specs.Engine.{IsAllSynced, has_failed};
ghost use Rattle.raft_c_log.specs.Joined.{AreAnswered, Asked, LeadsOn, is_covering};
ghost use Rattle.raft_c_log.specs.Outcomes.{HasEnded};
ghost use Rattle.raft_c_log.specs.declared.answer.Answer.{Answer};
ghost use Rattle.raft_c_log.specs.declared.calls.Change.{Change};

use crate::OpenLog;
use raft_env::FileSystem;

/// What a sync covers stays. A change that syncs everything, and ends with the code 0, leaves a log
/// that has not failed and is wholly synced (`covered`). Durable data stays durable, whichever
/// calls follow and however each of them ends. A crash at any moment of the next call leaves that
/// data, followed by a prefix of the batches written since and of those that the call has in flight
/// (`stays`).
pub fn what_a_sync_covers_stays<F: FileSystem>(log: &OpenLog<F>)
    ensures covered { (change : Change) (answer : Answer) (new : _) → is_covering change ≡ true
        → HasEnded change (pos 0) log.now.engine new answer
        → (has_failed new ≡ false) × IsAllSynced new }
    ensures stays { (asked : List Asked) (new : _) → AreAnswered asked log.now.engine new
        → LeadsOn log.now.engine new }
{}
