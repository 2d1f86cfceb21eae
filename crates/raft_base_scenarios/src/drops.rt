//! Files that a purge must not drop, or must not keep: what changes if it does.
ghost use Rattle.std.specs.Prelude.{◌≡◌, List, [], ◌∷◌};
ghost use Rattle.raft_base_scenarios.specs.Rows.{after, compact, delete, entries, found, nothing, only, put, value};

/// The first files of the Append queue are dropped too early. A key in them is still referred to
/// (`referred`). Or the Rewrite queue lacks their entries (`missing`), has entries before
/// (`before`) or after (`later`) the recovered ones, or has a key that was removed (`key`).
pub fn dropped_fronts_change_what_is_found()
    ensures referred { (found [] (put 1 ∷ []) ≡ value 1) × (found [] [] ≡ nothing) }
    ensures missing { (found [] (entries (5 ∷ []) ∷ []) ≡ only (5 ∷ [])) × (found [] [] ≡ nothing) }
    ensures before { (found (entries (2 ∷ []) ∷ []) (compact 3 ∷ []) ≡ nothing)
        × (found (entries (2 ∷ []) ∷ []) [] ≡ only (2 ∷ [])) }
    ensures later { (found (entries (4 ∷ 5 ∷ []) ∷ []) (entries (4 ∷ []) ∷ []) ≡ only (4 ∷ []))
        × (found (entries (4 ∷ 5 ∷ []) ∷ []) [] ≡ only (4 ∷ 5 ∷ [])) }
    ensures key { (found (put 1 ∷ []) (delete ∷ []) ≡ nothing)
        × (found (put 1 ∷ []) [] ≡ value 1) }
{}

/// A file is kept though a later one was dropped. Then it sets again what the dropped one had
/// replaced (`older`), and entries that were accepted though they don't fit are found with others
/// (`invalid`).
pub fn fronts_with_a_hole_change_what_is_found()
    ensures older { (found (put 2 ∷ []) (put 1 ∷ put 2 ∷ []) ≡ value 2)
        × (found (put 2 ∷ []) (put 1 ∷ []) ≡ value 1) }
    ensures invalid { (found (entries (1 ∷ []) ∷ []) (entries (4 ∷ []) ∷ []) ≡ only (4 ∷ []))
        × (after (entries (4 ∷ []) ∷ entries (2 ∷ []) ∷ []) ≡ only (2 ∷ []))
        × (found (entries (1 ∷ []) ∷ []) (entries (4 ∷ []) ∷ entries (2 ∷ []) ∷ [])
        ≡ only (1 ∷ 2 ∷ [])) }
{}
