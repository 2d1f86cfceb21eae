//! What may be written to the Rewrite queue and dropped from both, while they give contents.
ghost use Rattle.std.specs.Prelude.{◌≡◌, ◌⊎◌, ◌++◌, ◌∷◌, ℕ, List, [], false, None, IsTrue};
ghost use Rattle.std.specs.List.{list_all};
ghost use Rattle.raft_records.specs.Contents.{Contents};
ghost use Rattle.raft_records.specs.Item.{Batch};
ghost use Rattle.raft_recovery_laws.specs.Consecutive.{HaveConsecutiveEntries};
ghost use Rattle.raft_recovery_laws.specs.Dropping.{HoldsLeft, ShareNoGroup};
ghost use Rattle.raft_recovery_laws.specs.DroppingFront.{HoldsDropped};
ghost use Rattle.raft_recovery_laws.specs.Groups.{is_complete, is_of_group, mark_of, places_in};
ghost use Rattle.raft_recovery_laws.specs.Recovered.{effect};
ghost use Rattle.raft_recovery_laws.specs.Rewriting.{EachChangesNothing};
ghost use Rattle.raft_recovery_laws.specs.Stands.{Queues, Stands};
ghost use Rattle.raft_recovery_laws.specs.Takes.{CanDropFront, CanDropOld, RewriteTakes};
ghost use Rattle.raft_recovery_laws.specs.Together.{StandTogether};

/// What a purge needs of the tables, by queue.
pub fn what_a_purge_may_do()
    ensures takes { (q : Queues) (batch : Batch) → HaveConsecutiveEntries (batch ∷ [])
        → mark_of batch ≡ None
        → EachChangesNothing (effect (q.rewritten ++ q.rewritten_since)) q.appended batch
        → RewriteTakes batch q }
    ensures front { (q : Queues) (m : Contents) (front rest : List Batch) → Stands q m
        → q.rewritten_since ≡ [] → q.appended ≡ front ++ rest
        → HoldsDropped (effect q.rewritten) rest m → CanDropFront front q }
    ensures old { (q : Queues) (m : Contents) (old new : List Batch) → Stands q m
        → q.rewritten_since ≡ [] → q.rewritten ≡ old ++ new → StandTogether old
        → ShareNoGroup old new → HoldsLeft (effect new) q.appended m → CanDropOld old q }
    ensures together { (batches : List Batch) (batch : Batch) → StandTogether batches
        → mark_of batch ≡ None → StandTogether (batches ++ batch ∷ []) }
    ensures group { (id : ℕ) (old group : List Batch) → StandTogether old → places_in id old ≡ []
        → IsTrue (list_all (is_of_group id) group) → ((front tail : List Batch)
        → group ≡ front ++ tail → (front ≡ []) ⊎ (is_complete (places_in id tail) ≡ false))
        → StandTogether (old ++ group) }
{}
