//! Entries that are written to the Rewrite queue again and don't fit, and parts of atomic groups.
ghost use Rattle.std.specs.Prelude.{◌≡◌, List, [], ◌∷◌};
ghost use Rattle.raft_base_scenarios.specs.Rows.{begin_group, delete, end_group, entries, found, nothing, only, put, value};

/// Entries are lost if the new ones begin after the first that the Append queue sets (`late`),
/// aren't consecutive to the Rewrite queue's entries (`apart`), or are only a part of these
/// (`part`).
pub fn entries_that_do_not_fit_replace_others()
    ensures late { (found (entries (3 ∷ 4 ∷ []) ∷ []) (entries (5 ∷ 6 ∷ []) ∷ [])
        ≡ only (3 ∷ 4 ∷ 5 ∷ 6 ∷ []))
        × (found (entries (3 ∷ 4 ∷ []) ∷ entries (6 ∷ []) ∷ []) (entries (5 ∷ 6 ∷ []) ∷ [])
        ≡ only (5 ∷ 6 ∷ [])) }
    ensures apart { (found (entries (1 ∷ 2 ∷ []) ∷ []) (entries (2 ∷ []) ∷ [])
        ≡ only (1 ∷ 2 ∷ []))
        × (found (entries (1 ∷ 2 ∷ []) ∷ entries (4 ∷ []) ∷ []) (entries (2 ∷ []) ∷ [])
        ≡ only (2 ∷ [])) }
    ensures part { (found (entries (3 ∷ 4 ∷ []) ∷ []) [] ≡ only (3 ∷ 4 ∷ []))
        × (found (entries (3 ∷ 4 ∷ []) ∷ entries (3 ∷ []) ∷ []) [] ≡ only (3 ∷ [])) }
{}

/// Entries are written again in two parts. Without an atomic group the first part would replace
/// the other entries. They are kept if both parts are one atomic group (`complete`), also after a
/// drop of the file with its first batch (`dropped`).
pub fn parts_of_an_atomic_group_replace_nothing()
    ensures complete { (found (entries (3 ∷ 4 ∷ []) ∷ []) [] ≡ only (3 ∷ 4 ∷ []))
        × (found (entries (3 ∷ 4 ∷ []) ∷ begin_group 8 (entries (3 ∷ []))
        ∷ end_group 8 (entries (4 ∷ [])) ∷ []) [] ≡ only (3 ∷ 4 ∷ [])) }
    ensures dropped { (found (begin_group 8 (entries (3 ∷ [])) ∷ end_group 8 (entries (4 ∷ []))
        ∷ entries (3 ∷ 4 ∷ []) ∷ []) [] ≡ only (3 ∷ 4 ∷ []))
        × (found (end_group 8 (entries (4 ∷ [])) ∷ entries (3 ∷ 4 ∷ []) ∷ []) []
        ≡ only (3 ∷ 4 ∷ [])) }
{}

/// An incomplete atomic group changes nothing (`unfinished`), unless its id was used before
/// (`same_id`). If other batches are between those of a group, a drop of the first file brings
/// back what the group's last batch removed (`cut_key`, `cut_entries`).
pub fn atomic_groups_need_ids_of_their_own()
    ensures unfinished { found (entries (3 ∷ 4 ∷ []) ∷ begin_group 8 (entries (3 ∷ [])) ∷ []) []
        ≡ only (3 ∷ 4 ∷ []) }
    ensures same_id { (found (begin_group 7 (entries (3 ∷ [])) ∷ end_group 7 (entries (4 ∷ []))
        ∷ []) [] ≡ only (3 ∷ 4 ∷ []))
        × (found (begin_group 7 (entries (3 ∷ [])) ∷ end_group 7 (entries (4 ∷ []))
        ∷ begin_group 7 (entries (3 ∷ [])) ∷ []) [] ≡ only (3 ∷ [])) }
    ensures cut_key { (found (begin_group 1 [] ∷ put 1 ∷ end_group 1 delete ∷ []) [] ≡ nothing)
        × (found (put 1 ∷ end_group 1 delete ∷ []) [] ≡ value 1) }
    ensures cut_entries { (found (begin_group 1 [] ∷ entries (1 ∷ 2 ∷ 3 ∷ [])
        ∷ end_group 1 (entries (9 ∷ [])) ∷ []) (entries (4 ∷ 5 ∷ []) ∷ [])
        ≡ only (4 ∷ 5 ∷ []))
        × (found (entries (1 ∷ 2 ∷ 3 ∷ []) ∷ end_group 1 (entries (9 ∷ [])) ∷ [])
        (entries (4 ∷ 5 ∷ []) ∷ []) ≡ only (1 ∷ 2 ∷ 3 ∷ 4 ∷ 5 ∷ [])) }
{}
