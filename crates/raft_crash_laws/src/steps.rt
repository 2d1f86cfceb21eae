//! What calls on one queue make of both, as contents.
ghost use Rattle.std.specs.Prelude.{◌++◌, ◌∷◌, ℕ, Bool, List, [], true, false, ⊤};
ghost use Rattle.raft_base.specs.declared.pipe_log.LogQueue.{LogQueue};
ghost use Rattle.raft_base.specs.declared.pipe_log.LogQueue.TheVariants.{Append, Rewrite};
ghost use Rattle.raft_env.specs.Directory.{Directory};
ghost use Rattle.raft_config.specs.Folders.{Folders};
ghost use Rattle.raft_pipes.specs.Pipe.{IsRecordOf};
ghost use Rattle.raft_pipes.specs.Purge.{dropped_batches};
ghost use Rattle.raft_queues.specs.Dual.{AppendsIn, DualState, KeepsBothAppending, KeepsBothIn, StillHasBoth, SyncsIn};
ghost use Rattle.raft_queues.specs.DualPurge.{HasDroppedUpToIn, KeepsBothRest};
ghost use Rattle.raft_records.specs.Contents.{Contents, after_batches};
ghost use Rattle.raft_records.specs.Item.{Batch};
ghost use Rattle.raft_records.specs.Validity.{IsValidBatch};
ghost use Rattle.raft_crash_laws.specs.Begins.{LogStandsFor};
ghost use Rattle.raft_crash_laws.specs.Crash.{RecoversContents};
ghost use Rattle.raft_crash_laws.specs.Contents.{known_from};
ghost use Rattle.raft_crash_laws.specs.Held.{HoldsContents, IsSyncedIn, LeaveKnown};
ghost use Rattle.raft_recovery_laws.specs.Takes.{CanDropFront, RewriteTakes};

/// Calls on the Append queue.
pub fn calls_on_the_append_queue_keep_contents()
    ensures now { (d : DualState) (folders : Folders) (m : Contents) (since : List Batch)
        (known : ℕ → Bool) (n : Directory) → HoldsContents d folders m since (LeaveKnown known) n
        → RecoversContents folders m since n × LogStandsFor folders m since n }
    ensures written { (d d' : DualState) (folders : Folders) (m : Contents) (since : List Batch)
        (known : ℕ → Bool) (old new : Directory)
        → HoldsContents d folders m since (LeaveKnown known) old
        → (given : List ℕ) (b : Batch) → AppendsIn Append false d d' given old new
        → IsRecordOf d.append given b → IsValidBatch (after_batches m since) b
        → HoldsContents d' folders m (since ++ b ∷ []) (LeaveKnown (known_from known (b ∷ []))) new }
    ensures synced { (d d' : DualState) (folders : Folders) (m : Contents) (since : List Batch)
        (known : ℕ → Bool) (old new : Directory)
        → HoldsContents d folders m since (LeaveKnown known) old → SyncsIn Append d d' old new
        → HoldsContents d' folders (after_batches m since) [] (LeaveKnown known) new }
    ensures rotated { (d d' : DualState) (folders : Folders) (m : Contents) (since : List Batch)
        (known : ℕ → Bool) (old new : Directory)
        → HoldsContents d folders m since (LeaveKnown known) old → StillHasBoth d d' old new
        → HoldsContents d' folders m since (LeaveKnown known) new }
    ensures writing { (d : DualState) (folders : Folders) (m : Contents) (since : List Batch)
        (known : ℕ → Bool) (old n : Directory)
        → HoldsContents d folders m since (LeaveKnown known) old
        → (given : List ℕ) (b : Batch) → KeepsBothAppending Append d given old n
        → IsRecordOf d.append given b → IsValidBatch (after_batches m since) b
        → RecoversContents folders m (since ++ b ∷ []) n }
    ensures other { (d : DualState) (folders : Folders) (m : Contents) (since : List Batch)
        (known : ℕ → Bool) (old n : Directory)
        → HoldsContents d folders m since (LeaveKnown known) old
        → (queue : LogQueue) → KeepsBothIn queue d old n → RecoversContents folders m since n }
{}

/// Steps of a purge.
pub fn steps_of_a_purge_keep_contents()
    ensures rewritten { (d d' : DualState) (folders : Folders) (m : Contents) (since : List Batch)
        (old new : Directory) (given : List ℕ) (b : Batch)
        → HoldsContents d folders m since (RewriteTakes b) old
        → AppendsIn Rewrite false d d' given old new
        → IsRecordOf d.rewrite given b → HoldsContents d' folders m since (λ q. ⊤) new }
    ensures rewriting { (d : DualState) (folders : Folders) (m : Contents) (since : List Batch)
        (old n : Directory) (given : List ℕ) (b : Batch)
        → HoldsContents d folders m since (RewriteTakes b) old
        → KeepsBothAppending Rewrite d given old n
        → IsRecordOf d.rewrite given b → RecoversContents folders m since n }
    ensures synced { (d d' : DualState) (folders : Folders) (m : Contents) (since : List Batch)
        (old new : Directory) → HoldsContents d folders m since (λ q. ⊤) old
        → SyncsIn Rewrite d d' old new
        → HoldsContents d' folders m since (IsSyncedIn Rewrite) new }
    ensures dropped { (d d' : DualState) (folders : Folders) (m : Contents) (old new : Directory)
        (seq most : ℕ)
        → HoldsContents d folders m [] (CanDropFront (dropped_batches most d.append old)) old
        → HasDroppedUpToIn Append seq most d d' old new → HoldsContents d' folders m [] (λ q. ⊤) new }
    ensures dropping { (d : DualState) (folders : Folders) (m : Contents) (old n : Directory)
        (most : ℕ)
        → HoldsContents d folders m [] (CanDropFront (dropped_batches most d.append old)) old
        → KeepsBothRest Append most d old n → RecoversContents folders m [] n }
{}
