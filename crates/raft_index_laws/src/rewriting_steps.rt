//! What holds for the tables and the marks, in terms of both queues, step by step of a purge.
ghost use Rattle.std.specs.Prelude.{◌≡◌, ◌≤◌, ◌+◌, ◌++◌, ◌∷◌, ℕ, List, [], Option, None, true, map};
ghost use Rattle.std.specs.List.{list_all};
ghost use Rattle.raft_base.specs.declared.pipe_log.LogQueue.TheVariants.{Rewrite};
ghost use Rattle.raft_records.specs.FileBatches.{FileBatch, batches_of, from_file};
ghost use Rattle.raft_records.specs.Item.{Batch, Item};
ghost use Rattle.raft_records.specs.PlacedItem.{PlacedItem, are_all_placed, is_placed_in_order, item_in};
ghost use Rattle.raft_records.specs.Places.{Blocks};
ghost use Rattle.raft_recovery_laws.specs.Groups.{mark_of};
ghost use Rattle.raft_recovery_laws.specs.Stands.{Queues};
ghost use Rattle.raft_recovery_laws.specs.Takes.{CanDropFront, RewriteTakes};
ghost use Rattle.raft_tables.specs.Counters.{is_rewritten};
ghost use Rattle.raft_tables.specs.Moving.{tables_moved};
ghost use Rattle.raft_tables.specs.Owed.{Owed, without_pending};
ghost use Rattle.raft_tables.specs.Tables.{Tables};
ghost use Rattle.raft_tables.specs.WrittenMarks.{AreOwed, owed_again, owed_left};
ghost use Rattle.raft_index_laws.specs.ForQueues.{StandForQueues};
ghost use Rattle.raft_index_laws.specs.Standing.{AreEntriesPlacedFrom, AreKeysPlacedFrom, OwesNothing};
ghost use Rattle.raft_index_laws.specs.Gathering.{IsGathered};

/// The gathered items may be written in one batch: the Rewrite queue takes it (`takes`). After it
/// is there and got its new places, the tables fit (`written`). It does not begin with the mark of
/// an atomic group (`unmarked`).
pub fn a_gathered_batch_may_be_written()
    ensures takes { (blocks : Blocks) (numbered : List FileBatch) (owed : Owed) (t : Tables)
        (q : Queues) (watermark : Option ℕ) (items : List PlacedItem)
        → StandForQueues blocks numbered owed t q → q.appended_since ≡ []
        → IsGathered watermark owed t items → RewriteTakes (map (item_in blocks) items) q }
    ensures written { (blocks : Blocks) (numbered : List FileBatch) (owed : Owed) (t : Tables)
        (q : Queues) (watermark : Option ℕ) (seq : ℕ) (items news : List PlacedItem)
        → StandForQueues blocks numbered owed t q → IsGathered watermark owed t items
        → map (item_in blocks) news ≡ map (item_in blocks) items
        → list_all (λ item. is_placed_in_order item.content) news ≡ true
        → list_all (λ item. are_all_placed is_rewritten item.content) news ≡ true
        → StandForQueues blocks numbered owed
        (tables_moved watermark (record { queue = Rewrite; seq = seq }) t news)
        (record q { rewritten_since = q.rewritten_since ++ map (item_in blocks) news ∷ [] }) }
    ensures unmarked { (blocks : Blocks) (numbered : List FileBatch) (owed : Owed) (t : Tables)
        (q : Queues) (watermark : Option ℕ) (items : List PlacedItem)
        → StandForQueues blocks numbered owed t q → IsGathered watermark owed t items
        → mark_of (map (item_in blocks) items) ≡ None }
{}

/// Owed marks may be written in one batch: the Rewrite queue takes it (`takes`), and after it is
/// there they are owed no more (`written`). A delete of a key that exists again may be forgotten
/// (`forgotten`).
pub fn owed_marks_may_be_written()
    ensures takes { (blocks : Blocks) (numbered : List FileBatch) (owed : Owed) (t : Tables)
        (q : Queues) (marks : List Item) → StandForQueues blocks numbered owed t q
        → q.appended_since ≡ [] → AreOwed t owed marks → RewriteTakes marks q }
    ensures written { (blocks : Blocks) (numbered : List FileBatch) (owed : Owed) (t : Tables)
        (q : Queues) (marks : List Item) → StandForQueues blocks numbered owed t q
        → AreOwed t owed marks → StandForQueues blocks numbered (owed_left owed marks) t
        (record q { rewritten_since = q.rewritten_since ++ marks ∷ [] }) }
    ensures forgotten { (blocks : Blocks) (numbered : List FileBatch) (owed : Owed) (t : Tables)
        (q : Queues) → StandForQueues blocks numbered (owed_again t owed) t q
        → StandForQueues blocks numbered (λ group. without_pending (owed group)) t q }
{}

/// Unreferenced files of the Append queue may be dropped if no mark is owed and everything is
/// synced. The same is found without them (`can`), and the tables fit without the first of them
/// (`gone`).
pub fn the_append_queue_may_lose_a_front()
    ensures can { (blocks : Blocks) (numbered : List FileBatch) (owed : Owed) (t : Tables)
        (q : Queues) (first : ℕ) (front : List Batch) → StandForQueues blocks numbered owed t q
        → q.appended_since ≡ [] → q.rewritten_since ≡ [] → OwesNothing owed
        → AreEntriesPlacedFrom first t → AreKeysPlacedFrom first t
        → batches_of numbered ≡ front ++ batches_of (from_file first numbered)
        → CanDropFront front q }
    ensures gone { (blocks : Blocks) (numbered : List FileBatch) (owed : Owed) (t : Tables)
        (q : Queues) (first least : ℕ) (front stay : List Batch)
        → StandForQueues blocks numbered owed t q → q.appended_since ≡ [] → OwesNothing owed
        → AreEntriesPlacedFrom first t → AreKeysPlacedFrom first t → least ≤ first
        → batches_of numbered ≡ front ++ batches_of (from_file least numbered)
        → q.appended ≡ front ++ stay
        → StandForQueues blocks (from_file least numbered) owed t
        (record q { older = q.older ++ front; appended = stay }) }
{}
