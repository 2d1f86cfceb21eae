//! The places of the items of a record.
ghost use Rattle.std.specs.Prelude.{◌≡◌, ℕ, Some, true};
ghost use Rattle.std.specs.List.{list_all, AllByRecursion as Each};
ghost use Rattle.raft_base.specs.declared.pipe_log.FileBlockHandle.{FileBlockHandle};
ghost use Rattle.raft_base.specs.declared.pipe_log.LogQueue.TheVariants.{Rewrite};
ghost use Rattle.raft_records.specs.FileBatches.{AreInFile};
ghost use Rattle.raft_records.specs.Item.{Batch};
ghost use Rattle.raft_records.specs.Layout.{place_items};
ghost use Rattle.raft_records.specs.PlacedItem.{are_all_placed};
ghost use Rattle.raft_tables.specs.Counters.{is_rewritten};

/// The items of a record are in the file of its block (`in_file`), so in the Rewrite queue if that
/// is (`rewritten`).
pub fn items_of_a_record_stand_in_its_file()
    ensures in_file { (block : FileBlockHandle) (offset : ℕ) (batch : Batch)
        → Each (λ item. AreInFile block.id.queue block.id.seq item.content)
        (place_items (Some block) offset batch) }
    ensures rewritten { (block : FileBlockHandle) (offset : ℕ) (batch : Batch)
        → block.id.queue ≡ Rewrite → list_all (λ item. are_all_placed is_rewritten item.content)
        (place_items (Some block) offset batch) ≡ true }
{}
