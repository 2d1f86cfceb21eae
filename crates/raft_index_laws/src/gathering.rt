//! What a purge gathers from the tables, group by group.
ghost use Rattle.std.specs.Prelude.{◌≡◌, ◌++◌, ◌∷◌, ℕ, List, [], Option, None, Some, true, false, filter, map};
ghost use Rattle.std.specs.List.{list_all, AllByRecursion as Each};
ghost use Rattle.raft_base.specs.declared.pipe_log.FileId.{FileId};
ghost use Rattle.raft_records.specs.Contents.{Contents};
ghost use Rattle.raft_records.specs.declared.entry_index.EntryPlace.{EntryPlace};
ghost use Rattle.raft_records.specs.FileBatches.{FileBatch, batches_of};
ghost use Rattle.raft_records.specs.PlacedItem.{PlacedItem, are_all_placed, is_placed_in_order, item_in};
ghost use Rattle.raft_records.specs.Places.{Blocks};
ghost use Rattle.raft_recovery_laws.specs.Consecutive.{HasConsecutiveEntries, HaveConsecutiveEntries};
ghost use Rattle.raft_tables.specs.Counters.{is_rewritten};
ghost use Rattle.raft_tables.specs.MovedEntries.{may_move_from};
ghost use Rattle.raft_tables.specs.Listing.{IsListing};
ghost use Rattle.raft_tables.specs.Moving.{tables_moved, value_to_move};
ghost use Rattle.raft_tables.specs.Owed.{Owed};
ghost use Rattle.raft_tables.specs.Tables.{Tables, or_empty};
ghost use Rattle.raft_index_laws.specs.Standing.{TablesStandFor};
ghost use Rattle.raft_index_laws.specs.Gathering.{IsFetchedContent, IsGathered, SetApart, key_set_by, value_items};
ghost use Rattle.raft_index_laws.specs.Rewriting.{IsFetched, placed_entries_item};

/// A purge fetches exactly those entries of a group that may move (`fetched`). A beginning of the
/// fetched entries of the Append queue may be written first (`beginning`). After it got its new
/// places, the rest is still fetched, whatever was written of other groups before (`left`). What is
/// written of other groups leaves a group's table as it is (`elsewhere`).
pub fn entries_are_fetched_to_be_written()
    ensures fetched { (blocks : Blocks) (x : Contents) (appended : List FileBatch) (owed : Owed)
        (t : Tables) (watermark : Option ℕ) (group : ℕ) → TablesStandFor blocks x appended owed t
        → IsFetched watermark (or_empty (t group)).entries
        (filter (λ e. may_move_from watermark e.1) (or_empty (t group)).entries) }
    ensures beginning { (watermark : ℕ) (es part rest : List (ℕ × EntryPlace))
        → IsFetched (Some watermark) es (part ++ rest) → IsFetched (Some watermark) es part }
    ensures left { (blocks : Blocks) (x : Contents) (appended : List FileBatch) (owed : Owed)
        (t : Tables) (watermark : ℕ) (id : FileId) (group : ℕ) (part rest : List (ℕ × EntryPlace))
        (others news : List PlacedItem) → HasConsecutiveEntries x
        → HaveConsecutiveEntries (batches_of appended) → TablesStandFor blocks x appended owed t
        → IsFetched (Some watermark) (or_empty (t group)).entries (part ++ rest)
        → Each (λ item. item.group ≡ group → ⊥) others
        → map (item_in blocks) news
        ≡ map (item_in blocks) (others ++ placed_entries_item group part ∷ [])
        → list_all (λ item. is_placed_in_order item.content) news ≡ true
        → list_all (λ item. are_all_placed is_rewritten item.content) news ≡ true
        → IsFetched (Some watermark)
        (or_empty (tables_moved (Some watermark) id t news group)).entries rest }
    ensures elsewhere { (watermark : Option ℕ) (id : FileId) (t : Tables)
        (items : List PlacedItem) (group : ℕ) → Each (λ item. item.group ≡ group → ⊥) items
        → tables_moved watermark id t items group ≡ t group }
{}

/// Items are gathered one after the other (`none`, `more`). Each sets something that those before
/// it do not set: it is of another group (`other_group`), or sets another key than those of its
/// group, or a key if those set entries (`other_key`). All fetched values of a group are gathered
/// after items that set no key of it (`values`).
pub fn items_are_gathered_one_by_one()
    ensures none { (watermark : Option ℕ) (owed : Owed) (t : Tables)
        → IsGathered watermark owed t [] }
    ensures more { (watermark : Option ℕ) (owed : Owed) (t : Tables) (items : List PlacedItem)
        (item : PlacedItem) → IsGathered watermark owed t items
        → (owed item.group).cleaned ≡ false
        → IsFetchedContent watermark t item.group item.content
        → Each (λ other. SetApart other item) items
        → IsGathered watermark owed t (items ++ item ∷ []) }
    ensures other_group { (item other : PlacedItem) → (other.group ≡ item.group → ⊥)
        → SetApart other item }
    ensures other_key { (item other : PlacedItem)
        → (key_set_by other.content ≡ key_set_by item.content → ⊥) → SetApart other item }
    ensures values { (watermark : Option ℕ) (owed : Owed) (t : Tables) (group : ℕ)
        (items : List PlacedItem) (pairs : List (List ℕ × List ℕ))
        → IsGathered watermark owed t items → (owed group).cleaned ≡ false
        → Each (λ i. i.group ≡ group → key_set_by i.content ≡ None) items
        → IsListing (value_to_move watermark (or_empty (t group))) pairs
        → IsGathered watermark owed t (items ++ value_items group pairs) }
{}
