//! What a crash finds of queues that give contents, and the steps that keep it so.
ghost use Rattle.std.specs.Prelude.{◌≡◌, ◌++◌, ◌∷◌, ℕ, List, [], take, drop};
ghost use Rattle.raft_records.specs.Contents.{Contents, after_batches};
ghost use Rattle.raft_records.specs.Item.{Batch};
ghost use Rattle.raft_records.specs.Validity.{IsValidBatch};
ghost use Rattle.raft_recovery_laws.specs.Consecutive.{HaveConsecutiveEntries};
ghost use Rattle.raft_recovery_laws.specs.Recovered.{effect, recovered};
ghost use Rattle.raft_recovery_laws.specs.Dropping.{HoldsLeft, ShareNoGroup};
ghost use Rattle.raft_recovery_laws.specs.Stands.{Queues, Stands, found_after_crash, left_by_crash, synced_queues};

/// Every crash finds the durable contents, with a prefix of the batches written since (`crash`),
/// whatever it leaves of the unsynced ends of both queues and of dropped files of the Append queue.
/// From queues that are wholly synced an opening gets what is recovered of them, whatever they hold
/// (`opened`). So the same holds after an opening that syncs what a crash left (`reopened`).
pub fn a_crash_finds_what_the_queues_stand_for()
    ensures crash { (q : Queues) (m : Contents) (i j k : ℕ) → Stands q m
        → found_after_crash q i j k ≡ after_batches m (take k q.appended_since) }
    ensures opened { (rewritten appended : List Batch) → HaveConsecutiveEntries rewritten
        → HaveConsecutiveEntries appended
        → Stands (synced_queues rewritten appended) (recovered rewritten appended) }
    ensures reopened { (q : Queues) (m : Contents) (i j k : ℕ) → Stands q m
        → Stands (left_by_crash q i j k) (after_batches m (take k q.appended_since)) }
{}

/// Steps of the Append queue. A valid batch may be written at any time (`written`), and batches
/// written since the last sync may be truncated (`truncated`); after a sync it is durable
/// (`synced`). A front may be dropped if the same is recovered without it, with the Rewrite queue
/// as it is synced (`dropped`), so that queue is synced first. Older batches may go, from the first
/// on (`gone`).
pub fn steps_of_the_append_queue_keep_contents()
    ensures written { (q : Queues) (m : Contents) (batch : Batch) → Stands q m
        → IsValidBatch (after_batches m q.appended_since) batch
        → Stands (record q { appended_since = q.appended_since ++ batch ∷ [] }) m }
    ensures truncated { (q : Queues) (m : Contents) (count : ℕ) → Stands q m
        → Stands (record q { appended_since = take count q.appended_since }) m }
    ensures synced { (q : Queues) (m : Contents) → Stands q m
        → Stands (record q { appended = q.appended ++ q.appended_since; appended_since = [] })
        (after_batches m q.appended_since) }
    ensures dropped { (q : Queues) (m : Contents) (front rest : List Batch) → Stands q m
        → q.rewritten_since ≡ [] → q.appended ≡ front ++ rest
        → recovered q.rewritten rest ≡ recovered q.rewritten (front ++ rest)
        → Stands (record q { older = q.older ++ front; appended = rest }) m }
    ensures gone { (q : Queues) (m : Contents) (count : ℕ) → Stands q m
        → Stands (record q { older = drop count q.older }) m }
{}

/// Steps of the Rewrite queue. A batch may be written if it changes nothing of the contents that
/// are recovered with the Append queue's synced batches (`written`). So the Append queue is synced
/// first: a batch then repeats only synced contents. A sync keeps the contents (`synced`), and so
/// does a drop of old files after which the same is recovered (`dropped`).
pub fn steps_of_the_rewrite_queue_keep_contents()
    ensures written { (q : Queues) (m : Contents) (batch : Batch) → Stands q m
        → HaveConsecutiveEntries (batch ∷ [])
        → recovered (q.rewritten ++ q.rewritten_since ++ batch ∷ []) q.appended
        ≡ recovered (q.rewritten ++ q.rewritten_since) q.appended
        → Stands (record q { rewritten_since = q.rewritten_since ++ batch ∷ [] }) m }
    ensures synced { (q : Queues) (m : Contents) → Stands q m
        → Stands (record q { rewritten = q.rewritten ++ q.rewritten_since; rewritten_since = [] })
        m }
    ensures dropped { (q : Queues) (m : Contents) (old new : List Batch) → Stands q m
        → q.rewritten_since ≡ [] → q.rewritten ≡ old ++ new
        → recovered new q.appended ≡ recovered (old ++ new) q.appended
        → Stands (record q { rewritten = new }) m }
{}

/// Files are dropped one after the other. If a front of the Append queue may be dropped, any first
/// part of it may be gone while the rest still exists (`front`). The same holds for old files of
/// the Rewrite queue, if no atomic group has batches on both sides of their end (`old`). Older
/// batches that still exist count as synced ones (`standing`).
pub fn files_may_go_one_after_the_other()
    ensures standing { (q : Queues) (m : Contents) → Stands q m
        → Stands (record q { older = []; appended = q.older ++ q.appended }) m }
    ensures front { (q : Queues) (m : Contents) (first second rest : List Batch) → Stands q m
        → q.rewritten_since ≡ [] → q.older ++ q.appended ≡ first ++ second ++ rest
        → recovered q.rewritten rest ≡ recovered q.rewritten (first ++ second ++ rest)
        → Stands (record q { older = []; appended = second ++ rest }) m }
    ensures old { (q : Queues) (m : Contents) (first second new : List Batch) → Stands q m
        → q.rewritten_since ≡ [] → q.rewritten ≡ first ++ (second ++ new)
        → ShareNoGroup first (second ++ new) → ShareNoGroup second new
        → HoldsLeft (effect new) q.appended m → Stands (record q { rewritten = second ++ new }) m }
{}
