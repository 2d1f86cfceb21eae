//! A mark that is missing or wrong, and then a drop of the Append queue's first files.
ghost use Rattle.std.specs.Prelude.{◌≡◌, List, [], ◌∷◌};
ghost use Rattle.raft_base_scenarios.specs.Rows.{clean, compact, delete, entries, found, nothing, only, put, value};

/// If no mark of a removal was written, the removed thing is found again after a drop of the file
/// with its removal.
pub fn what_has_no_mark_comes_back()
    ensures delete { (found (put 1 ∷ []) (delete ∷ []) ≡ nothing)
        × (found (put 1 ∷ []) [] ≡ value 1) }
    ensures compact { (found (entries (2 ∷ []) ∷ []) (compact 9 ∷ []) ≡ nothing)
        × (found (entries (2 ∷ []) ∷ []) [] ≡ only (2 ∷ [])) }
    ensures clean { (found (entries (2 ∷ []) ∷ []) (clean ∷ []) ≡ nothing)
        × (found (entries (2 ∷ []) ∷ []) [] ≡ only (2 ∷ [])) }
    ensures hole { (found (entries (3 ∷ []) ∷ []) (entries (2 ∷ []) ∷ entries (4 ∷ []) ∷ [])
        ≡ only (4 ∷ []))
        × (found (entries (3 ∷ []) ∷ []) (entries (4 ∷ []) ∷ []) ≡ only (3 ∷ 4 ∷ [])) }
{}

/// Marks of the wrong thing. A compaction below an empty group's last index brings its entries
/// back. One above the first entry removes entries, and a delete of an existing key removes it.
pub fn marks_of_something_else_change_what_is_found()
    ensures below { (found (entries (6 ∷ []) ∷ compact 3 ∷ []) (compact 9 ∷ []) ≡ nothing)
        × (found (entries (6 ∷ []) ∷ compact 3 ∷ []) [] ≡ only (6 ∷ [])) }
    ensures above { (found (entries (6 ∷ []) ∷ []) (compact 3 ∷ []) ≡ only (6 ∷ []))
        × (found (entries (6 ∷ []) ∷ compact 7 ∷ []) (compact 3 ∷ []) ≡ nothing) }
    ensures delete { (found (put 1 ∷ []) (delete ∷ put 1 ∷ []) ≡ value 1)
        × (found (put 1 ∷ delete ∷ []) [] ≡ nothing) }
    ensures clean { (found (entries (1 ∷ []) ∷ clean ∷ []) (clean ∷ entries (1 ∷ []) ∷ [])
        ≡ only (1 ∷ []))
        × (found (entries (1 ∷ []) ∷ clean ∷ []) [] ≡ nothing)
        × (found (clean ∷ entries (1 ∷ []) ∷ []) [] ≡ only (1 ∷ [])) }
{}
