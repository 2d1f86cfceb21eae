//! What atomic groups of the Rewrite queue change.
ghost use Rattle.std.specs.Prelude.{◌≡◌, ◌++◌, ◌∷◌, ℕ, List, [], true, false, None};
ghost use Rattle.std.specs.List.{list_all, list_any};
ghost use Rattle.std.specs.Str.{bytes_eq};
ghost use Rattle.raft_records.specs.Contents.{after_batch, after_batches};
ghost use Rattle.raft_records.specs.Item.{Batch};
ghost use Rattle.raft_recovery_laws.specs.Groups.{first_place, has_last, is_complete, is_of_group, mark_of, places_in};
ghost use Rattle.raft_recovery_laws.specs.Recovered.{effect};

/// Batches of an incomplete atomic group change nothing of the Rewrite queue's contents, wherever
/// they are (`incomplete`). Those of a complete group are applied in order (`complete`), and so is
/// a batch without a mark (`unmarked`).
pub fn an_atomic_group_counts_when_complete()
    ensures incomplete { (id : ℕ) (old group more : List Batch) → places_in id old ≡ []
        → places_in id more ≡ [] → list_all (is_of_group id) group ≡ true
        → is_complete (places_in id group) ≡ false
        → effect (old ++ group ++ more) ≡ effect (old ++ more) }
    ensures complete { (id : ℕ) (old group : List Batch) → places_in id old ≡ []
        → list_all (is_of_group id) group ≡ true → is_complete (places_in id group) ≡ true
        → effect (old ++ group) ≡ after_batches (effect old) group }
    ensures unmarked { (old : List Batch) (batch : Batch) → mark_of batch ≡ None
        → effect (old ++ batch ∷ []) ≡ after_batch (effect old) batch }
{}

/// A group is incomplete without its last batch, as while it is written (`no_last`), or without its
/// first one, as when the file with it was dropped (`no_first`).
pub fn a_group_without_an_end_is_incomplete()
    ensures no_last { (places : List (List ℕ)) → has_last places ≡ false
        → is_complete places ≡ false }
    ensures no_first { (places : List (List ℕ))
        → list_any (λ p. bytes_eq p first_place) places ≡ false → is_complete places ≡ false }
{}
