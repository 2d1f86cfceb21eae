//! A step before which a sync is left out, and a crash that loses what the sync would have made
//! durable. The recovered contents are then neither the durable ones nor those after some of the
//! later batches.
ghost use Rattle.std.specs.Prelude.{◌≡◌, List, [], ◌∷◌, ◌++◌};
ghost use Rattle.raft_base_scenarios.specs.Rows.{both, clean, compact, delete, entries, found, nothing, only, put, value};

/// The Append queue isn't synced before the step, and its last batches are lost. Each row has the
/// durable contents, those with each number of the last batches, and the recovered ones.
pub fn append_is_synced_before_a_purge_writes_or_drops()
    ensures compaction_mark { (found (entries (1 ∷ []) ∷ []) [] ≡ only (1 ∷ []))
        × (found (entries (1 ∷ []) ∷ []) (put 1 ∷ []) ≡ both (1 ∷ []) 1)
        × (found (entries (1 ∷ []) ∷ []) (put 1 ∷ compact 9 ∷ []) ≡ value 1)
        × (found (entries (1 ∷ []) ∷ compact 9 ∷ []) [] ≡ nothing) }
    ensures clean_mark { (found (put 1 ∷ []) (entries (3 ∷ []) ∷ []) ≡ both (3 ∷ []) 1)
        × (found (put 1 ∷ []) (entries (3 ∷ []) ∷ clean ∷ []) ≡ nothing)
        × (found (put 1 ∷ clean ∷ []) (entries (3 ∷ []) ∷ []) ≡ only (3 ∷ [])) }
    ensures rewriting_append { (found [] [] ≡ nothing)
        × (found [] ((put 1 ++ entries (5 ∷ [])) ∷ []) ≡ both (5 ∷ []) 1)
        × (found (entries (5 ∷ []) ∷ []) [] ≡ only (5 ∷ [])) }
    ensures rewriting_rewrite { (found (entries (3 ∷ 4 ∷ []) ∷ []) [] ≡ only (3 ∷ 4 ∷ []))
        × (found (entries (3 ∷ 4 ∷ []) ∷ []) (entries (4 ∷ []) ∷ []) ≡ only (3 ∷ 4 ∷ []))
        × (found (entries (3 ∷ 4 ∷ []) ∷ entries (3 ∷ []) ∷ []) [] ≡ only (3 ∷ [])) }
    ensures front { (found [] (entries (3 ∷ []) ∷ []) ≡ only (3 ∷ []))
        × (found [] (entries (3 ∷ []) ∷ entries (3 ∷ []) ∷ []) ≡ only (3 ∷ []))
        × (found [] [] ≡ nothing) }
    ensures rewrite_files { (found (entries (1 ∷ []) ∷ []) [] ≡ only (1 ∷ []))
        × (found (entries (1 ∷ []) ∷ []) (put 1 ∷ []) ≡ both (1 ∷ []) 1)
        × (found (entries (1 ∷ []) ∷ []) (put 1 ∷ compact 9 ∷ []) ≡ value 1)
        × (found [] [] ≡ nothing) }
{}

/// The Rewrite queue isn't synced before the Append queue's first files (`front`), or its own old
/// files (`rewrite_files`), are dropped, and rewritten data is lost.
pub fn rewrite_is_synced_before_a_drop()
    ensures front { (found (entries (5 ∷ []) ∷ []) (entries (5 ∷ []) ∷ []) ≡ only (5 ∷ []))
        × (found [] [] ≡ nothing) }
    ensures rewrite_files { (found (entries (4 ∷ []) ∷ entries (4 ∷ []) ∷ []) [] ≡ only (4 ∷ []))
        × (found [] [] ≡ nothing) }
{}
