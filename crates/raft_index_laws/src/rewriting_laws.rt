//! What holds for the tables, the owed marks and both queues, step by step of a purge.
ghost use Rattle.std.specs.Prelude.{◌≡◌, ◌≤◌, ◌++◌, ◌∷◌, ℕ, Bool, List, [], Option, true, false, None, Some, filter, flat_map, fold, is_some, map};
ghost use Rattle.std.specs.List.{list_all, AllByRecursion as Each};
ghost use Rattle.raft_base.specs.declared.pipe_log.FileId.{FileId};
ghost use Rattle.raft_base.specs.declared.pipe_log.LogQueue.TheVariants.{Append, Rewrite};
ghost use Rattle.raft_records.specs.Contents.{Contents, after_batch, after_item};
ghost use Rattle.raft_records.specs.declared.entry_index.EntryPlace.{EntryPlace};
ghost use Rattle.raft_records.specs.Item.{Batch, Entry, Clean, Compact, Delete, Entries, Put};
ghost use Rattle.raft_records.specs.PlacedItem.{EntriesAt, Plain, PlacedItem, are_all_placed, item_in};
ghost use Rattle.raft_records.specs.Places.{Blocks, entries_in};
ghost use Rattle.raft_records.specs.Validity.{are_consecutive_from};
ghost use Rattle.raft_recovery_laws.specs.Consecutive.{HasConsecutiveEntries, HaveConsecutiveEntries, are_consecutive, content_is_consecutive};
ghost use Rattle.raft_recovery_laws.specs.Dropping.{HoldsLeft, IsLaterPart};
ghost use Rattle.raft_recovery_laws.specs.Recovered.{effect, recovered, replay};
ghost use Rattle.raft_recovery_laws.specs.Rewriting.{ChangesNothing, EachChangesNothing};
ghost use Rattle.raft_tables.specs.Moving.{tables_moved, tables_moved_by};
ghost use Rattle.raft_tables.specs.MovedEntries.{may_move_from};
ghost use Rattle.raft_tables.specs.FirstFiles.{first_of_tables};
ghost use Rattle.raft_tables.specs.declared.memtables.MemTables.{MemTables};
ghost use Rattle.raft_tables.specs.Tables.{AreAllPlaced, Tables, or_empty, tables_of};
ghost use Rattle.raft_index_laws.specs.DroppingOld.{AreRewrittenFrom, HoldsFrom};
ghost use Rattle.raft_tables.specs.Owed.{Marks, Owed, with_marks, without_clean, without_compaction, without_delete};
ghost use Rattle.raft_index_laws.specs.Rewriting.{ArePart, IsMarkIndex, MayAllBeWritten, entries_item, placed_entries_item, MayMoveKey};
ghost use Rattle.raft_records.specs.FileBatches.{FileBatch, batches_of, from_file};
ghost use Rattle.raft_index_laws.specs.Standing.{AreEntriesPlacedFrom, AreInFileOrder, AreKeysPlacedFrom, EntryStands, OwesNothing, TablesStandFor};

/// These may be written to the Rewrite queue again: a part of a group's entries, after those that
/// are there (`entries`), and the value of a key (`value`). The recovered contents stay the same.
/// After the written item has its new place, the tables fit.
pub fn rewriting_keeps_tables_standing()
    ensures entries { (blocks : Blocks) (x : Contents) (appended : List FileBatch) (owed : Owed)
        (t : Tables) (watermark : Option ℕ) (id : FileId) (group : ℕ) (n : ℕ × EntryPlace)
        (ns : List (ℕ × EntryPlace)) → HasConsecutiveEntries x
        → HaveConsecutiveEntries (batches_of appended) → (owed group).cleaned ≡ false
        → ArePart watermark blocks (or_empty (t group)).entries (n ∷ ns)
        → TablesStandFor blocks x appended owed t
        → ChangesNothing x (batches_of appended)
        (record { group = group; content = Entries (entries_in blocks (n ∷ ns)) })
        × TablesStandFor blocks (after_item x
        (record { group = group; content = Entries (entries_in blocks (n ∷ ns)) })) appended owed
        (tables_moved_by watermark id t (record { group = group; content = EntriesAt (n ∷ ns) })) }
    ensures value { (blocks : Blocks) (x : Contents) (appended : List FileBatch) (owed : Owed)
        (t : Tables) (watermark : Option ℕ) (seq group : ℕ) (key value : List ℕ)
        → (owed group).cleaned ≡ false → MayMoveKey watermark t group key value
        → TablesStandFor blocks x appended owed t
        → ChangesNothing x (batches_of appended)
        (record { group = group; content = Put key value })
        × TablesStandFor blocks (after_item x (record { group = group; content = Put key value }))
        appended owed (tables_moved_by watermark (record { queue = Rewrite; seq = seq }) t
        (record { group = group; content = Plain (Put key value) })) }
{}

/// A part of a group's entries may be written in several batches, as those of an atomic group.
pub fn a_part_may_be_written_in_parts()
    ensures parts { (blocks : Blocks) (x : Contents) (appended : List FileBatch) (owed : Owed)
        (t : Tables) (watermark : Option ℕ) (id : FileId) (group : ℕ) (n : ℕ × EntryPlace)
        (ns : List (ℕ × EntryPlace)) (parts : List (List (ℕ × EntryPlace)))
        → HasConsecutiveEntries x → HaveConsecutiveEntries (batches_of appended)
        → are_consecutive (entries_in blocks ((n ∷ ns) ++ flat_map (λ p. p) parts)) ≡ true
        → (owed group).cleaned ≡ false
        → ArePart watermark blocks (or_empty (t group)).entries
        ((n ∷ ns) ++ flat_map (λ p. p) parts) → TablesStandFor blocks x appended owed t
        → (replay (fold after_item x (map (entries_item group)
        (map (entries_in blocks) ((n ∷ ns) ∷ parts)))) (batches_of appended)
        ≡ replay x (batches_of appended))
        × TablesStandFor blocks (fold after_item x (map (entries_item group)
        (map (entries_in blocks) ((n ∷ ns) ∷ parts)))) appended owed
        (tables_moved watermark id t (map (placed_entries_item group) ((n ∷ ns) ∷ parts))) }
{}

/// So may a batch of such items, each after those before it.
pub fn a_rewritten_batch_keeps_tables_standing()
    ensures batch { (blocks : Blocks) (x : Contents) (appended : List FileBatch) (owed : Owed)
        (t : Tables) (watermark : Option ℕ) (seq : ℕ) (items : List PlacedItem)
        → HasConsecutiveEntries x → HaveConsecutiveEntries (batches_of appended)
        → list_all (λ item. content_is_consecutive item.content) (map (item_in blocks) items)
        ≡ true → MayAllBeWritten watermark (record { queue = Rewrite; seq = seq }) blocks owed t items
        → TablesStandFor blocks x appended owed t
        → EachChangesNothing x (batches_of appended) (map (item_in blocks) items)
        × TablesStandFor blocks (after_batch x (map (item_in blocks) items)) appended owed
        (tables_moved watermark (record { queue = Rewrite; seq = seq }) t items) }
{}

/// Owed marks may be written, and are then no longer owed: a delete of a key that does not exist
/// (`deleted`), and a clean (`cleaned`). A compaction goes to the first existing index, or to one
/// above all if there is none (`compacted`).
pub fn marks_keep_tables_standing()
    ensures deleted { (blocks : Blocks) (x : Contents) (appended : List FileBatch) (owed : Owed)
        (t : Tables) (group : ℕ) (key : List ℕ) → (or_empty (t group)).keys key ≡ None
        → TablesStandFor blocks x appended owed t
        → ChangesNothing x (batches_of appended) (record { group = group; content = Delete key })
        × TablesStandFor blocks (after_item x (record { group = group; content = Delete key }))
        appended (with_marks group (without_delete key (owed group)) owed) t }
    ensures compacted { (blocks : Blocks) (x : Contents) (appended : List FileBatch) (owed : Owed)
        (t : Tables) (group index : ℕ) → HasConsecutiveEntries x
        → HaveConsecutiveEntries (batches_of appended)
        → IsMarkIndex (or_empty (t group)).entries (x.entries group) index
        → TablesStandFor blocks x appended owed t
        → ChangesNothing x (batches_of appended)
        (record { group = group; content = Compact index })
        × TablesStandFor blocks (after_item x (record { group = group; content = Compact index }))
        appended (with_marks group (without_compaction (owed group)) owed) t }
    ensures cleaned { (blocks : Blocks) (x : Contents) (appended : List FileBatch) (owed : Owed)
        (t : Tables) (group : ℕ) → HasConsecutiveEntries x
        → HaveConsecutiveEntries (batches_of appended) → (owed group).cleaned ≡ true
        → TablesStandFor blocks x appended owed t
        → ChangesNothing x (batches_of appended) (record { group = group; content = Clean })
        × TablesStandFor blocks (after_item x (record { group = group; content = Clean })) appended
        (with_marks group (without_clean (owed group)) owed) t }
{}

/// Files of the Append queue may be dropped if no mark is owed and the tables place nothing in
/// them. The same is recovered without them (`same`), and the tables fit (`gone`).
pub fn a_dropped_front_keeps_tables_standing()
    ensures same { (blocks : Blocks) (rewritten : List Batch) (appended : List FileBatch)
        (front : List Batch) (owed : Owed) (t : Tables) (first : ℕ)
        → HaveConsecutiveEntries rewritten → HaveConsecutiveEntries (batches_of appended)
        → batches_of appended ≡ front ++ batches_of (from_file first appended)
        → OwesNothing owed → AreEntriesPlacedFrom first t → AreKeysPlacedFrom first t
        → TablesStandFor blocks (effect rewritten) appended owed t
        → recovered rewritten (batches_of (from_file first appended))
        ≡ recovered rewritten (batches_of appended) }
    ensures gone { (blocks : Blocks) (rewritten : List Batch) (appended : List FileBatch)
        (front : List Batch) (owed : Owed) (t : Tables) (first : ℕ)
        → HaveConsecutiveEntries rewritten → HaveConsecutiveEntries (batches_of appended)
        → batches_of appended ≡ front ++ batches_of (from_file first appended)
        → OwesNothing owed → AreEntriesPlacedFrom first t → AreKeysPlacedFrom first t
        → TablesStandFor blocks (effect rewritten) appended owed t
        → TablesStandFor blocks (effect rewritten) (from_file first appended) owed t }
{}

/// While all groups are written to new files of the Rewrite queue, these hold everything that the
/// tables place in them. That is so after all entries of a group are written (`entries`), and after
/// a value (`value`).
pub fn new_files_hold_what_is_placed_there()
    ensures entries { (blocks : Blocks) (first : ℕ) (x : Contents) (t : Tables)
        (watermark : Option ℕ) (id : FileId) (group : ℕ) (n : ℕ × EntryPlace)
        (ns : List (ℕ × EntryPlace)) (k : ℕ)
        → are_consecutive_from k (or_empty (t group)).entries ≡ true
        → (part : ArePart watermark blocks (or_empty (t group)).entries (n ∷ ns)) → part.pre ≡ []
        → HoldsFrom blocks first x t → HoldsFrom blocks first
        (after_item x (entries_item group (entries_in blocks (n ∷ ns))))
        (tables_moved_by watermark id t (placed_entries_item group (n ∷ ns))) }
    ensures value { (blocks : Blocks) (first : ℕ) (x : Contents) (t : Tables)
        (watermark : Option ℕ) (seq group : ℕ) (key value : List ℕ)
        → MayMoveKey watermark t group key value → HoldsFrom blocks first x t
        → HoldsFrom blocks first (after_item x (record { group = group; content = Put key value }))
        (tables_moved_by watermark (record { queue = Rewrite; seq = seq }) t
        (record { group = group; content = Plain (Put key value) })) }
{}

/// Old files of the Rewrite queue may be dropped if the tables place nothing in them, and the new
/// files hold everything that is placed there. Then the new files hold what the Append queue leaves
/// (`held`), and the tables fit without the old files (`gone`).
pub fn dropped_old_files_keep_tables_standing()
    ensures held { (blocks : Blocks) (x new : Contents) (appended : List FileBatch) (owed : Owed)
        (t : Tables) (first : ℕ) → HoldsFrom blocks first new t → AreRewrittenFrom first t
        → TablesStandFor blocks x appended owed t
        → HoldsLeft new (batches_of appended) (replay x (batches_of appended)) }
    ensures gone { (blocks : Blocks) (x new : Contents) (appended : List FileBatch) (owed : Owed)
        (t : Tables) (first : ℕ) → HoldsFrom blocks first new t → AreRewrittenFrom first t
        → IsLaterPart new x → replay new (batches_of appended) ≡ replay x (batches_of appended)
        → TablesStandFor blocks x appended owed t → TablesStandFor blocks new appended owed t }
{}

/// Nothing is placed in the Append queue before its first referenced file, or before a given number
/// if that is less (`first`). The same holds for the Rewrite queue (`rewritten`).
pub fn nothing_stands_before_the_first_file()
    ensures first { (at_most : ℕ) (m : MemTables)
        → AreEntriesPlacedFrom (first_of_tables Append at_most m) (tables_of m)
        × AreKeysPlacedFrom (first_of_tables Append at_most m) (tables_of m)
        × (first_of_tables Append at_most m ≤ at_most) }
    ensures rewritten { (at_most : ℕ) (m : MemTables)
        → AreRewrittenFrom (first_of_tables Rewrite at_most m) (tables_of m)
        × (first_of_tables Rewrite at_most m ≤ at_most) }
{}

/// Tables in which items got their new places know the same groups (`known`). What holds for the
/// places of the items and for the old places holds for the places now (`places`).
pub fn moved_tables_know_the_same_groups()
    ensures known { (watermark : Option ℕ) (id : FileId) (t : Tables) (items : List PlacedItem)
        (group : ℕ) → is_some (tables_moved watermark id t items group) ≡ is_some (t group) }
    ensures places { (holds : EntryPlace → Bool) (watermark : Option ℕ) (id : FileId) (t : Tables)
        (items : List PlacedItem)
        → list_all (λ item. are_all_placed holds item.content) items ≡ true
        → AreAllPlaced holds t → AreAllPlaced holds (tables_moved watermark id t items) }
{}
