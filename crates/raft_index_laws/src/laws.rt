//! What holds for the tables, the owed marks and both queues: at an opening, and after a write.
ghost use Rattle.std.specs.Prelude.{◌≡◌, ◌≤◌, ◌++◌, ◌∷◌, ℕ, List, [], true, None, map};
ghost use Rattle.std.specs.List.{list_all, AllByRecursion as Each};
ghost use Rattle.raft_base.specs.declared.pipe_log.FileId.{FileId};
ghost use Rattle.raft_base.specs.declared.pipe_log.LogQueue.TheVariants.{Append, Rewrite};
ghost use Rattle.raft_records.specs.Contents.{Contents};
ghost use Rattle.raft_records.specs.PlacedItem.{PlacedItem, is_placed_in_order, item_in};
ghost use Rattle.raft_records.specs.Places.{Blocks};
ghost use Rattle.raft_records.specs.Validity.{IsValidBatch};
ghost use Rattle.raft_recovery_laws.specs.Consecutive.{HasConsecutiveEntries, HaveConsecutiveEntries};
ghost use Rattle.raft_recovery_laws.specs.Recovered.{replay};
ghost use Rattle.raft_tables.specs.declared.memtables.MemTables.{MemTables};
ghost use Rattle.raft_tables.specs.Leaving.{tables_left};
ghost use Rattle.raft_tables.specs.Counters.{is_rewrite, is_rewritten};
ghost use Rattle.raft_tables.specs.Recovering.{IsJoined};
ghost use Rattle.raft_tables.specs.Rewritten.{AreWhole, PlacedBatch, are_batches_placed};
ghost use Rattle.raft_tables.specs.Tables.{Tables, contents_in, tables_after, tables_of};
ghost use Rattle.raft_index_laws.specs.Opening.{AreRewritten, ReplayStands};
ghost use Rattle.raft_tables.specs.Owed.{Owed, no_marks, owed_after, owed_noted};
ghost use Rattle.raft_records.specs.FileBatches.{AreInFile, FileBatch, batches_of};
ghost use Rattle.raft_index_laws.specs.Standing.{TablesStandFor};

/// After a valid batch is written to the last file of the Append queue, and applied to the tables
/// and the marks, these still fit.
pub fn a_write_keeps_tables_standing()
    ensures written { (blocks : Blocks) (x : Contents) (appended : List FileBatch) (owed : Owed)
        (t : Tables) (seq : ℕ) (items : List PlacedItem) → HasConsecutiveEntries x
        → HaveConsecutiveEntries (batches_of appended) → Each (λ b. b.0 ≤ seq) appended
        → list_all (λ item. is_placed_in_order item.content) items ≡ true
        → Each (λ item. AreInFile Append seq item.content) items
        → IsValidBatch (contents_in blocks t) (map (item_in blocks) items)
        → TablesStandFor blocks x appended owed t
        → TablesStandFor blocks x (appended ++ (seq, map (item_in blocks) items) ∷ [])
        (owed_after (record { queue = Append; seq = seq }) t items owed)
        (tables_after (record { queue = Append; seq = seq }) t items) }
{}

/// The marks that a valid batch leaves are those that its items note, whatever the tables hold: they
/// leave no hole.
pub fn a_valid_batch_notes_its_marks()
    ensures noted { (blocks : Blocks) (id : FileId) (t : Tables) (items : List PlacedItem)
        (owed : Owed) → list_all (λ item. is_placed_in_order item.content) items ≡ true
        → IsValidBatch (contents_in blocks t) (map (item_in blocks) items)
        → owed_after id t items owed ≡ owed_noted owed items }
{}

/// An opening returns tables that fit, whatever both queues hold. It begins with the tables of the
/// Rewrite queue and no marks (`begun`), replays the Append queue's batches over them, file by file
/// (`replayed`), and joins both (`joined`).
pub fn an_opening_gives_standing_tables()
    ensures begun { (blocks : Blocks) (x : Contents) (left : Tables) → HasConsecutiveEntries x
        → contents_in blocks left ≡ x → AreRewritten left
        → ReplayStands blocks x [] (λ _. no_marks) left (λ _. None) }
    ensures replayed { (blocks : Blocks) (x : Contents) (appended : List FileBatch) (owed : Owed)
        (left newer : Tables) (seq : ℕ) (items : List PlacedItem)
        → Each (λ b. b.0 ≤ seq) appended
        → list_all (λ item. is_placed_in_order item.content) items ≡ true
        → Each (λ item. AreInFile Append seq item.content) items
        → ReplayStands blocks x appended owed left newer
        → ReplayStands blocks x (appended ++ (seq, map (item_in blocks) items) ∷ [])
        (owed_after (record { queue = Append; seq = seq }) newer items owed)
        (tables_left left items)
        (tables_after (record { queue = Append; seq = seq }) newer items) }
    ensures joined { (blocks : Blocks) (x : Contents) (appended : List FileBatch) (owed : Owed)
        (left newer joined : Tables) → IsJoined left newer joined
        → contents_in blocks joined ≡ replay x (batches_of appended)
        → ReplayStands blocks x appended owed left newer
        → TablesStandFor blocks x appended owed joined }
{}

/// The tables of batches in files of the Rewrite queue place everything there.
pub fn rewritten_batches_place_all_there()
    ensures whole { (batches : List PlacedBatch) (m : MemTables) → AreWhole batches m
        → list_all (λ b. is_rewrite b.0.queue) batches ≡ true
        → are_batches_placed is_rewritten batches ≡ true → AreRewritten (tables_of m) }
{}
