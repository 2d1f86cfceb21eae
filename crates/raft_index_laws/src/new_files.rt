//! New files of the Rewrite queue that hold everything in it, and old ones that may go.
ghost use Rattle.std.specs.Prelude.{◌≡◌, ◌≤◌, ◌+◌, ◌++◌, ◌∷◌, ℕ, List, [], None, true, map};
ghost use Rattle.std.specs.List.{list_all};
ghost use Rattle.raft_base.specs.declared.pipe_log.LogQueue.TheVariants.{Rewrite};
ghost use Rattle.raft_records.specs.declared.entry_index.EntryPlace.{EntryPlace};
ghost use Rattle.raft_records.specs.FileBatches.{FileBatch};
ghost use Rattle.raft_records.specs.Item.{Batch};
ghost use Rattle.raft_records.specs.PlacedItem.{PlacedItem, are_all_placed, is_placed_in_order, item_in};
ghost use Rattle.raft_records.specs.Places.{Blocks};
ghost use Rattle.raft_records.specs.Record.Mark.{End};
ghost use Rattle.raft_recovery_laws.specs.Ids.{EndsInGroup, HasIdsBelow};
ghost use Rattle.raft_recovery_laws.specs.Recovered.{items_of};
ghost use Rattle.raft_recovery_laws.specs.Stands.{Queues};
ghost use Rattle.raft_recovery_laws.specs.Takes.{CanDropOld};
ghost use Rattle.raft_recovery_laws.specs.Together.{StandTogether};
ghost use Rattle.raft_tables.specs.Counters.{is_rewritten};
ghost use Rattle.raft_tables.specs.Moving.{tables_moved};
ghost use Rattle.raft_tables.specs.Owed.{Owed};
ghost use Rattle.raft_tables.specs.Tables.{Tables};
ghost use Rattle.raft_index_laws.specs.ForQueues.{StandForQueues};
ghost use Rattle.raft_index_laws.specs.AtomicGroup.{bodies_in, ended_group, last_body, marked, next_mark, open_group, set_by_parts};
ghost use Rattle.raft_index_laws.specs.DroppingOld.{AreRewrittenBefore, AreRewrittenFrom};
ghost use Rattle.raft_index_laws.specs.Gathering.{IsGathered};
ghost use Rattle.raft_index_laws.specs.NewFiles.{HasNewFiles};

/// While a purge writes the whole Rewrite queue to new files of it, these hold everything that the
/// tables place in them. That is so after the rotation (`rotated`), after a gathered batch
/// (`written`), after a batch of an atomic group (`open`) and after its last batch (`ended`).
pub fn new_files_hold_what_was_written()
    ensures rotated { (blocks : Blocks) (t : Tables) (q : Queues) (first bound : ℕ)
        → AreRewrittenBefore first t → StandTogether (q.rewritten ++ q.rewritten_since)
        → HasIdsBelow bound (q.rewritten ++ q.rewritten_since)
        → HasNewFiles blocks first bound (q.rewritten ++ q.rewritten_since) [] t q }
    ensures written { (blocks : Blocks) (numbered : List FileBatch) (owed : Owed) (t : Tables)
        (q : Queues) (first bound seq : ℕ) (old new : List Batch) (items news : List PlacedItem)
        → StandForQueues blocks numbered owed t q → HasNewFiles blocks first bound old new t q
        → IsGathered None owed t items → map (item_in blocks) news ≡ map (item_in blocks) items
        → list_all (λ item. is_placed_in_order item.content) news ≡ true
        → list_all (λ item. are_all_placed is_rewritten item.content) news ≡ true
        → HasNewFiles blocks first bound old (new ++ map (item_in blocks) news ∷ [])
        (tables_moved None (record { queue = Rewrite; seq = seq }) t news)
        (record q { rewritten_since = q.rewritten_since ++ map (item_in blocks) news ∷ [] }) }
    ensures open { (blocks : Blocks) (t : Tables) (q : Queues) (first bound id : ℕ)
        (old new bodies : List Batch) (body : Batch) → HasNewFiles blocks first bound old new t q
        → bound ≤ id → EndsInGroup id (open_group id bodies) new
        → let batch = marked id (next_mark bodies) body in
        let next = record q { rewritten_since = q.rewritten_since ++ batch ∷ [] } in
        HasNewFiles blocks first bound old (new ++ batch ∷ []) t next
        × EndsInGroup id (open_group id (bodies ++ body ∷ [])) (new ++ batch ∷ []) }
    ensures ended { (blocks : Blocks) (numbered : List FileBatch) (owed : Owed) (t : Tables)
        (q : Queues) (first bound id group seq : ℕ) (old new : List Batch)
        (parts : List (List (ℕ × EntryPlace))) (part : List (ℕ × EntryPlace))
        (values news : List PlacedItem) → StandForQueues blocks numbered owed t q
        → HasNewFiles blocks first bound old new t q → bound ≤ id
        → EndsInGroup id (open_group id (bodies_in blocks group parts)) new → (parts ≡ [] → ⊥)
        → IsGathered None owed t (set_by_parts group parts part values)
        → map (item_in blocks) news
        ≡ items_of (ended_group id (bodies_in blocks group parts) (last_body blocks group part values))
        → list_all (λ item. is_placed_in_order item.content) news ≡ true
        → list_all (λ item. are_all_placed is_rewritten item.content) news ≡ true
        → HasNewFiles blocks first bound old
        (new ++ marked id End (last_body blocks group part values) ∷ [])
        (tables_moved None (record { queue = Rewrite; seq = seq }) t news)
        (record q {
          rewritten_since = q.rewritten_since
              ++ marked id End (last_body blocks group part values) ∷ [];
        }) }
{}

/// Unreferenced old files of the Rewrite queue may be dropped if everything is synced and the new
/// files hold everything that the tables place in them. Without the first old files the same is
/// found (`can`), and the tables fit (`gone`).
pub fn the_rewrite_queue_may_lose_old_files()
    ensures can { (blocks : Blocks) (numbered : List FileBatch) (owed : Owed) (t : Tables)
        (q : Queues) (first bound : ℕ) (old new : List Batch)
        → StandForQueues blocks numbered owed t q → HasNewFiles blocks first bound old new t q
        → q.appended_since ≡ [] → q.rewritten_since ≡ [] → AreRewrittenFrom first t
        → CanDropOld old q }
    ensures gone { (blocks : Blocks) (numbered : List FileBatch) (owed : Owed) (t : Tables)
        (q : Queues) (first bound : ℕ) (old new front rest : List Batch)
        → StandForQueues blocks numbered owed t q → HasNewFiles blocks first bound old new t q
        → q.appended_since ≡ [] → q.rewritten_since ≡ [] → AreRewrittenFrom first t
        → old ≡ front ++ rest
        → StandForQueues blocks numbered owed t (record q { rewritten = rest ++ new }) }
{}
