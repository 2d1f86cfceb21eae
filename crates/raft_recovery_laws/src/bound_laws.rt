//! What batches never leave.
ghost use Rattle.std.specs.Prelude.{◌≡◌, ℕ, List, None};
ghost use Rattle.raft_records.specs.Contents.{Contents, after_batches, no_contents};
ghost use Rattle.raft_records.specs.Item.{Batch, group_mark_key};
ghost use Rattle.raft_recovery_laws.specs.Recovered.{items_of, recovered, replay};
ghost use Rattle.raft_recovery_laws.specs.Bounds.{AreItemsBelow, HasIndexesBelow};

/// Batches leave no index at or past a bound of theirs (`below`), so a compaction to 2^64 - 1
/// empties a group. They leave nothing at the key of the marks of atomic groups (`marks`), also
/// after a recovery (`recovered`), so no batch of values begins with such a mark.
pub fn batches_never_leave_these()
    ensures below { (bound : ℕ) (batches : List Batch) → AreItemsBelow bound (items_of batches)
        → HasIndexesBelow bound (after_batches no_contents batches) }
    ensures marks { (batches : List Batch) (group : ℕ)
        → (after_batches no_contents batches).value group group_mark_key ≡ None }
    ensures recovered { (x : Contents) (appended : List Batch) (group : ℕ)
        → x.value group group_mark_key ≡ None
        → (replay x appended).value group group_mark_key ≡ None }
{}
