//! Which groups remain known after a rewriting.
ghost use Rattle.std.specs.Prelude.{◌≡◌, ◌⊎◌, ◌++◌, ◌∷◌, ℕ, List, [], Option, None, true, is_some, map};
ghost use Rattle.raft_records.specs.declared.entry_index.EntryPlace.{EntryPlace};
ghost use Rattle.raft_records.specs.Item.{Batch};
ghost use Rattle.raft_records.specs.PlacedItem.{PlacedItem, item_in};
ghost use Rattle.raft_records.specs.Places.{Blocks};
ghost use Rattle.raft_records.specs.Record.Mark.{End};
ghost use Rattle.raft_recovery_laws.specs.Groups.{mark_of, whole};
ghost use Rattle.raft_recovery_laws.specs.Ids.{EndsInGroup};
ghost use Rattle.raft_tables.specs.Known.{known_in};
ghost use Rattle.raft_tables.specs.Owed.{Owed};
ghost use Rattle.raft_tables.specs.Tables.{Tables};
ghost use Rattle.raft_index_laws.specs.AtomicGroup.{bodies_in, last_body, marked, next_mark, open_group, set_by_parts};
ghost use Rattle.raft_index_laws.specs.Gathering.{IsGathered};

/// The Rewrite queue's batches make groups known. A rewriting adds only groups that the tables know
/// too. That holds for a gathered batch (`gathered`) and for the last batch of an atomic group
/// (`ended`). An earlier batch of an atomic group adds none (`open`).
pub fn groups_that_are_written_again_are_known()
    ensures gathered { (blocks : Blocks) (watermark : Option ℕ) (owed : Owed) (t : Tables)
        (items : List PlacedItem) (batches : List Batch) (group : ℕ)
        → IsGathered watermark owed t items → mark_of (map (item_in blocks) items) ≡ None
        → known_in (whole (batches ++ map (item_in blocks) items ∷ [])) group ≡ true
        → (known_in (whole batches) group ≡ true) ⊎ (is_some (t group) ≡ true) }
    ensures open { (id : ℕ) (bodies batches : List Batch) (body : Batch) (group : ℕ)
        → EndsInGroup id (open_group id bodies) batches
        → known_in (whole (batches ++ marked id (next_mark bodies) body ∷ [])) group
        ≡ known_in (whole batches) group }
    ensures ended { (blocks : Blocks) (owed : Owed) (t : Tables) (id group : ℕ)
        (parts : List (List (ℕ × EntryPlace))) (part : List (ℕ × EntryPlace))
        (values : List PlacedItem) (batches : List Batch) (g : ℕ)
        → EndsInGroup id (open_group id (bodies_in blocks group parts)) batches
        → (parts ≡ [] → ⊥) → IsGathered None owed t (set_by_parts group parts part values)
        → known_in (whole (batches ++ marked id End (last_body blocks group part values) ∷ [])) g
        ≡ true → (known_in (whole batches) g ≡ true) ⊎ (is_some (t g) ≡ true) }
{}
