//! What an atomic group of batches changes in both queues, and which ids the Rewrite queue has.
ghost use Rattle.std.specs.Prelude.{◌≡◌, ◌+◌, ◌++◌, ◌∷◌, ℕ, List, [], None, true, flat_map, map};
ghost use Rattle.std.specs.List.{list_all};
ghost use Rattle.raft_base.specs.declared.pipe_log.LogQueue.TheVariants.{Rewrite};
ghost use Rattle.raft_records.specs.declared.entry_index.EntryPlace.{EntryPlace};
ghost use Rattle.raft_records.specs.FileBatches.{FileBatch};
ghost use Rattle.raft_records.specs.Item.{Batch};
ghost use Rattle.raft_records.specs.PlacedItem.{PlacedItem, are_all_placed, is_placed_in_order, item_in};
ghost use Rattle.raft_records.specs.Places.{Blocks, entries_in};
ghost use Rattle.raft_records.specs.Record.Mark.{End};
ghost use Rattle.raft_recovery_laws.specs.Groups.{mark_of};
ghost use Rattle.raft_recovery_laws.specs.Ids.{EndsInGroup, HasIdsBelow};
ghost use Rattle.raft_recovery_laws.specs.Recovered.{items_of};
ghost use Rattle.raft_recovery_laws.specs.Stands.{Queues};
ghost use Rattle.raft_recovery_laws.specs.Takes.{RewriteTakes};
ghost use Rattle.raft_recovery_laws.specs.Together.{StandTogether};
ghost use Rattle.raft_tables.specs.Counters.{is_rewritten};
ghost use Rattle.raft_tables.specs.GroupIds.{AreIdsBelow};
ghost use Rattle.raft_tables.specs.Moving.{tables_moved};
ghost use Rattle.raft_tables.specs.Owed.{Owed};
ghost use Rattle.raft_tables.specs.Tables.{Tables, or_empty};
ghost use Rattle.raft_index_laws.specs.ForQueues.{StandForQueues};
ghost use Rattle.raft_index_laws.specs.AtomicGroup.{bodies_in, ended_group, last_body, marked, next_mark, open_group, set_by_parts};
ghost use Rattle.raft_index_laws.specs.Gathering.{IsGathered};
ghost use Rattle.raft_index_laws.specs.Rewriting.{IsFetched, entries_item};

/// Everything that a group has in the Rewrite queue may be written in the batches of an atomic
/// group. Until its end each next batch is taken and changes nothing (`open`). Its last one is
/// taken if all parts and the values were gathered (`takes`), and if all got their new places, the
/// tables fit (`ended`).
pub fn an_atomic_group_may_be_written()
    ensures open { (blocks : Blocks) (numbered : List FileBatch) (owed : Owed) (t : Tables)
        (q : Queues) (id group : ℕ) (parts : List (List (ℕ × EntryPlace)))
        (part rest : List (ℕ × EntryPlace)) → StandForQueues blocks numbered owed t q
        → EndsInGroup id (open_group id (bodies_in blocks group parts))
        (q.rewritten ++ q.rewritten_since)
        → IsFetched None (or_empty (t group)).entries (flat_map (λ p. p) parts ++ (part ++ rest))
        → let batch = marked id (next_mark parts) (entries_item group (entries_in blocks part) ∷ []) in
        let next = record q { rewritten_since = q.rewritten_since ++ batch ∷ [] } in
        RewriteTakes batch q × StandForQueues blocks numbered owed t next
        × EndsInGroup id (open_group id (bodies_in blocks group (parts ++ part ∷ [])))
        (next.rewritten ++ next.rewritten_since) }
    ensures takes { (blocks : Blocks) (numbered : List FileBatch) (owed : Owed) (t : Tables)
        (q : Queues) (id group : ℕ) (parts : List (List (ℕ × EntryPlace)))
        (part : List (ℕ × EntryPlace)) (values : List PlacedItem)
        → StandForQueues blocks numbered owed t q → q.appended_since ≡ []
        → EndsInGroup id (open_group id (bodies_in blocks group parts))
        (q.rewritten ++ q.rewritten_since) → (parts ≡ [] → ⊥)
        → IsGathered None owed t (set_by_parts group parts part values)
        → RewriteTakes (marked id End (last_body blocks group part values)) q }
    ensures ended { (blocks : Blocks) (numbered : List FileBatch) (owed : Owed) (t : Tables)
        (q : Queues) (id group seq : ℕ) (parts : List (List (ℕ × EntryPlace)))
        (part : List (ℕ × EntryPlace)) (values news : List PlacedItem)
        → StandForQueues blocks numbered owed t q
        → EndsInGroup id (open_group id (bodies_in blocks group parts))
        (q.rewritten ++ q.rewritten_since) → (parts ≡ [] → ⊥)
        → IsGathered None owed t (set_by_parts group parts part values)
        → map (item_in blocks) news
        ≡ items_of (ended_group id (bodies_in blocks group parts) (last_body blocks group part values))
        → list_all (λ item. is_placed_in_order item.content) news ≡ true
        → list_all (λ item. are_all_placed is_rewritten item.content) news ≡ true
        → StandForQueues blocks numbered owed
        (tables_moved None (record { queue = Rewrite; seq = seq }) t news)
        (record q {
          rewritten_since = q.rewritten_since
              ++ marked id End (last_body blocks group part values) ∷ [];
        }) }
{}

/// Which ids the Rewrite queue has, and that the batches of each atomic group are together in it.
/// This holds for the batches as they were read (`read`), after a batch without a mark
/// (`unmarked`), after a whole group (`group`), and without the first batches (`fewer`). A new
/// group has an id from the bound on (`begun`).
pub fn ids_and_groups_of_the_rewrite_queue()
    ensures read { (bound : ℕ) (batches : List Batch) → AreIdsBelow bound batches
        → HasIdsBelow bound batches }
    ensures begun { (id : ℕ) (batches : List Batch) → HasIdsBelow id batches
        → EndsInGroup id [] batches }
    ensures unmarked { (bound : ℕ) (batches : List Batch) (batch : Batch)
        → mark_of batch ≡ None → HasIdsBelow bound batches
        → HasIdsBelow bound (batches ++ batch ∷ []) }
    ensures group { (id : ℕ) (batches bodies : List Batch) (last : Batch)
        → HasIdsBelow id batches → StandTogether batches
        → HasIdsBelow (id + 1) (batches ++ ended_group id bodies last)
        × StandTogether (batches ++ ended_group id bodies last) }
    ensures fewer { (bound : ℕ) (front batches : List Batch) → HasIdsBelow bound (front ++ batches)
        → StandTogether (front ++ batches)
        → HasIdsBelow bound batches × StandTogether batches }
{}
