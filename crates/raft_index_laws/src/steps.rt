//! What holds for the tables and the marks, in terms of both queues: an opening, writes and syncs.
ghost use Rattle.std.specs.Prelude.{◌≡◌, ◌≤◌, ◌^◌, ◌-◌, ◌++◌, ◌∷◌, ℕ, List, [], true, map};
ghost use Rattle.std.specs.List.{list_all, AllByRecursion as Each};
ghost use Rattle.raft_base.specs.declared.pipe_log.FileId.{FileId};
ghost use Rattle.raft_base.specs.declared.pipe_log.LogQueue.TheVariants.{Append};
ghost use Rattle.raft_records.specs.FileBatches.{AreInFile, FileBatch, batches_of};
ghost use Rattle.raft_records.specs.Item.{Batch};
ghost use Rattle.raft_records.specs.PlacedItem.{PlacedItem, is_placed_in_order, item_in};
ghost use Rattle.raft_records.specs.Places.{Blocks, entry_in};
ghost use Rattle.raft_records.specs.Validity.{IsValidBatch};
ghost use Rattle.raft_recovery_laws.specs.Bounds.{AreItemsBelow};
ghost use Rattle.raft_recovery_laws.specs.Consecutive.{HaveConsecutiveEntries};
ghost use Rattle.raft_recovery_laws.specs.Recovered.{effect, items_of};
ghost use Rattle.raft_recovery_laws.specs.Stands.{Queues, synced_queues};
ghost use Rattle.raft_tables.specs.Owed.{Owed, owed_noted};
ghost use Rattle.raft_tables.specs.Rewritten.{PlacedBatch, are_placed_in_order, batches_in};
ghost use Rattle.raft_tables.specs.Tables.{Tables, contents_in, or_empty, tables_after};
ghost use Rattle.raft_index_laws.specs.ForQueues.{StandForQueues};
ghost use Rattle.raft_index_laws.specs.Standing.{TablesStandFor};

/// If tables fit what an opening read of both queues, they fit both queues after it synced them
/// (`opened`). What it read in order of the Rewrite queue has no greatest index (`below`).
pub fn an_opening_gives_tables_that_stand_for_the_queues()
    ensures opened { (blocks : Blocks) (rewritten : List Batch) (numbered : List FileBatch)
        (owed : Owed) (t : Tables) → HaveConsecutiveEntries (batches_of numbered)
        → HaveConsecutiveEntries rewritten → AreItemsBelow (2 ^ 64 - 1) (items_of rewritten)
        → TablesStandFor blocks (effect rewritten) numbered owed t
        → StandForQueues blocks numbered owed t (synced_queues rewritten (batches_of numbered)) }
    ensures below { (blocks : Blocks) (batches : List PlacedBatch)
        → are_placed_in_order batches ≡ true
        → AreItemsBelow (2 ^ 64 - 1) (items_of (batches_in blocks batches)) }
{}

/// The tables and the marks keep fitting in these changes of the queues. A valid batch is written
/// to the Append queue's last file, applied and noted (`written`). The Append queue is synced
/// (`synced`), or the Rewrite queue is (`rewritten_synced`).
pub fn writes_and_syncs_keep_tables_standing()
    ensures written { (blocks : Blocks) (numbered : List FileBatch) (owed : Owed) (t : Tables)
        (q : Queues) (seq : ℕ) (items : List PlacedItem) → Each (λ b. b.0 ≤ seq) numbered
        → list_all (λ item. is_placed_in_order item.content) items ≡ true
        → Each (λ item. AreInFile Append seq item.content) items
        → IsValidBatch (contents_in blocks t) (map (item_in blocks) items)
        → StandForQueues blocks numbered owed t q
        → StandForQueues blocks (numbered ++ (seq, map (item_in blocks) items) ∷ [])
        (owed_noted owed items) (tables_after (record { queue = Append; seq = seq }) t items)
        (record q { appended_since = q.appended_since ++ map (item_in blocks) items ∷ [] }) }
    ensures synced { (blocks : Blocks) (numbered : List FileBatch) (owed : Owed) (t : Tables)
        (q : Queues) → StandForQueues blocks numbered owed t q
        → StandForQueues blocks numbered owed t
        (record q { appended = q.appended ++ q.appended_since; appended_since = [] }) }
    ensures rewritten_synced { (blocks : Blocks) (numbered : List FileBatch) (owed : Owed)
        (t : Tables) (q : Queues) → StandForQueues blocks numbered owed t q
        → StandForQueues blocks numbered owed t
        (record q { rewritten = q.rewritten ++ q.rewritten_since; rewritten_since = [] }) }
{}

/// Blocks with the same bytes at the places of the tables' entries are as good (`other_blocks`), so
/// blocks of dropped files do not matter. If the Rewrite queue is empty no mark is needed
/// (`unowed`).
pub fn tables_stand_without_what_they_do_not_need()
    ensures other_blocks { (old new : Blocks) (numbered : List FileBatch) (owed : Owed)
        (t : Tables) (q : Queues)
        → ((group : ℕ) → Each (λ e. entry_in old e ≡ entry_in new e) (or_empty (t group)).entries)
        → StandForQueues old numbered owed t q → StandForQueues new numbered owed t q }
    ensures unowed { (blocks : Blocks) (numbered : List FileBatch) (owed owed' : Owed)
        (t : Tables) (q : Queues) → q.rewritten ++ q.rewritten_since ≡ []
        → StandForQueues blocks numbered owed t q → StandForQueues blocks numbered owed' t q }
{}
