//! Which files of the Rewrite queue the tables refer to.
ghost use Rattle.std.specs.Prelude.{◌≤◌, ◌<◌, ℕ, List, Option};
ghost use Rattle.std.specs.List.{AllByRecursion as Each};
ghost use Rattle.raft_base.specs.declared.pipe_log.LogQueue.TheVariants.{Append, Rewrite};
ghost use Rattle.raft_records.specs.FileBatches.{AreInFile};
ghost use Rattle.raft_records.specs.PlacedItem.{PlacedItem};
ghost use Rattle.raft_tables.specs.Leaving.{tables_left};
ghost use Rattle.raft_tables.specs.Moving.{tables_moved};
ghost use Rattle.raft_tables.specs.Recovering.{IsJoined};
ghost use Rattle.raft_tables.specs.Rewritten.{AreWhole, PlacedBatch};
ghost use Rattle.raft_tables.specs.Tables.{Tables, tables_after, tables_of};
ghost use Rattle.raft_tables.specs.declared.memtables.MemTables.{MemTables};
ghost use Rattle.raft_index_laws.specs.DroppingOld.{AreRewrittenBefore};

/// The tables refer to nothing in the Rewrite queue's files from a number on, for example after its
/// last file. That holds for the tables of batches in files before it (`whole`), and after items of
/// the Append queue (`applied`). It holds for the part that these items leave (`left`), for both
/// parts joined (`joined`), and after new places in a file before it (`moved`). So it holds for
/// each greater number (`later`).
pub fn nothing_is_placed_behind_the_last_file()
    ensures whole { (first : ℕ) (batches : List PlacedBatch) (m : MemTables) → AreWhole batches m
        → Each (λ b. (b.0.seq < first) × Each (λ item. AreInFile Rewrite b.0.seq item.content) b.1)
        batches → AreRewrittenBefore first (tables_of m) }
    ensures applied { (first seq : ℕ) (t : Tables) (items : List PlacedItem)
        → Each (λ item. AreInFile Append seq item.content) items → AreRewrittenBefore first t
        → AreRewrittenBefore first (tables_after (record { queue = Append; seq = seq }) t items) }
    ensures left { (first : ℕ) (t : Tables) (items : List PlacedItem)
        → AreRewrittenBefore first t → AreRewrittenBefore first (tables_left t items) }
    ensures joined { (first : ℕ) (left newer joined : Tables) → IsJoined left newer joined
        → AreRewrittenBefore first left → AreRewrittenBefore first newer
        → AreRewrittenBefore first joined }
    ensures moved { (first seq : ℕ) (watermark : Option ℕ) (t : Tables) (items : List PlacedItem)
        → seq < first → Each (λ item. AreInFile Rewrite seq item.content) items
        → AreRewrittenBefore first t → AreRewrittenBefore first
        (tables_moved watermark (record { queue = Rewrite; seq = seq }) t items) }
    ensures later { (first last : ℕ) (t : Tables) → first ≤ last → AreRewrittenBefore first t
        → AreRewrittenBefore last t }
{}
