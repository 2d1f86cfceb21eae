//! A renewal that later calls continue.
ghost use Rattle.std.specs.Prelude.{◌≡◌, ◌≤◌, ℕ, List};
ghost use Rattle.std.specs.List.{AllByRecursion as Each};
ghost use Rattle.raft_base.specs.declared.pipe_log.LogQueue.TheVariants.{Append, Rewrite};
ghost use Rattle.raft_env.specs.Directory.{Directory};
ghost use Rattle.raft_queues.specs.Dual.{DualState};
ghost use Rattle.raft_queues.specs.DualByFile.{batches_by_file};
ghost use Rattle.raft_records.specs.Contents.{Contents};
ghost use Rattle.raft_records.specs.FileBatches.{AreInFile};
ghost use Rattle.raft_records.specs.PlacedItem.{PlacedItem};
ghost use Rattle.raft_records.specs.Places.{Blocks};
ghost use Rattle.raft_index_laws.specs.DroppingOld.{HoldsFrom};
ghost use Rattle.raft_tables.specs.Owed.{Owed};
ghost use Rattle.raft_tables.specs.Tables.{Tables, tables_after};
ghost use Rattle.raft_crash_laws.specs.Log.{KnownGroups};
ghost use Rattle.raft_crash_laws.specs.Queues.{HasBothBlocks};
ghost use Rattle.raft_crash_laws.specs.Renewal.{Renewal};
ghost use Rattle.raft_purge_steps.specs.Renewing.{GoesOnRenewal, renewed_log};
ghost use Rattle.raft_purge_steps.specs.Steps.{IsLog, LogValue, log_of};
ghost use Rattle.raft_purge.specs.UnderWay.{IsUnderWay, renewal_at};

/// Between two calls of a renewal the log is a plain one. If pipes, tables and files say that the
/// renewal may continue, the log is one of which the rest is rewritten (`goes`, `renewed`), and the
/// next call leaves such a log again (`still`). A call that leaves the Rewrite queue as it was, and
/// places nothing there, keeps that (`beside`). A write is such a call: the Append queue takes its
/// items (`appended`).
pub fn a_rewriting_goes_on_in_later_calls()
    ensures goes { (first bound : ℕ) (d : DualState) (t : Tables) (met : KnownGroups) (n : Directory)
        → IsUnderWay first bound d t met n → GoesOnRenewal met (renewal_at first bound met) }
    ensures renewed { (first bound : ℕ) (d : DualState) (t : Tables) (owed : Owed)
        (met : KnownGroups) (n : Directory) (v : LogValue) → IsUnderWay first bound d t met n
        → IsLog (log_of d t owed met n) v
        → IsLog (renewed_log d t owed met (renewal_at first bound met) n) v }
    ensures still { (d : DualState) (t : Tables) (owed : Owed) (met : KnownGroups) (r : Renewal)
        (n : Directory) (v : LogValue) → GoesOnRenewal met r → d.rewrite.first ≤ r.first
        → IsLog (renewed_log d t owed met r n) v → IsUnderWay r.first r.bound d t met n }
    ensures beside { (first bound : ℕ) (d d' : DualState) (t t' : Tables) (met : KnownGroups)
        (old new : Directory) → d'.rewrite ≡ d.rewrite
        → batches_by_file Rewrite d' new ≡ batches_by_file Rewrite d old
        → ((blocks : Blocks) → HasBothBlocks d' new blocks → HasBothBlocks d old blocks)
        → ((blocks : Blocks) (x : Contents) → HoldsFrom blocks first x t → HoldsFrom blocks first x t')
        → IsUnderWay first bound d t met old → IsUnderWay first bound d' t' met new }
    ensures appended { (blocks : Blocks) (first seq : ℕ) (x : Contents) (t : Tables)
        (items : List PlacedItem) → Each (λ item. AreInFile Append seq item.content) items
        → HoldsFrom blocks first x t
        → HoldsFrom blocks first x (tables_after (record { queue = Append; seq = seq }) t items) }
{}
