//! What an opening finds after appends, also if older batches still precede them.
ghost use Rattle.std.specs.Prelude.{◌≡◌, ◌++◌, ◌∷◌, List, []};
ghost use Rattle.raft_records.specs.Contents.{Contents, after_batch, after_batches, no_contents};
ghost use Rattle.raft_records.specs.Item.{Batch};
ghost use Rattle.raft_records.specs.Validity.{IsValidBatch};
ghost use Rattle.raft_recovery_laws.specs.Consecutive.{HasConsecutiveEntries, HaveConsecutiveEntries};
ghost use Rattle.raft_recovery_laws.specs.Recovered.{effect, recovered, replay};
ghost use Rattle.raft_recovery_laws.specs.Valid.{AreValidBatches};

/// If the Rewrite queue is empty, the Append queue's batches are found one after the other
/// (`alone`). A batch that is valid for the found contents is found after them (`one`), and so are
/// batches that are valid one after the other (`all`), whatever the Rewrite queue holds.
pub fn valid_batches_are_found()
    ensures alone { (appended : List Batch)
        → recovered [] appended ≡ after_batches no_contents appended }
    ensures one { (rewritten appended : List Batch) (batch : Batch)
        → HaveConsecutiveEntries rewritten → HaveConsecutiveEntries appended
        → IsValidBatch (recovered rewritten appended) batch
        → recovered rewritten (appended ++ batch ∷ [])
        ≡ after_batch (recovered rewritten appended) batch }
    ensures all { (rewritten appended batches : List Batch) → HaveConsecutiveEntries rewritten
        → HaveConsecutiveEntries appended
        → AreValidBatches (recovered rewritten appended) batches
        → recovered rewritten (appended ++ batches)
        ≡ after_batches (recovered rewritten appended) batches }
{}

/// The Append queue's batches change nothing of the contents that were found with them (`again`).
/// If batches change nothing of contents, the later ones of them change nothing (`later`). If those
/// contents are found with only the later ones, they are found with all (`older`). So a dropped
/// file may still exist while the files after it do. All of this holds for any contents with
/// consecutive entries; the Rewrite queue's are such (`rewritten`).
pub fn older_batches_change_nothing()
    ensures again { (x : Contents) (appended : List Batch) → HasConsecutiveEntries x
        → HaveConsecutiveEntries appended
        → replay (replay x appended) appended ≡ replay x appended }
    ensures later { (m : Contents) (older newer : List Batch) → HasConsecutiveEntries m
        → HaveConsecutiveEntries (older ++ newer) → replay m (older ++ newer) ≡ m
        → replay m newer ≡ m }
    ensures older { (x found : Contents) (older newer : List Batch) → HasConsecutiveEntries x
        → HaveConsecutiveEntries (older ++ newer) → replay found (older ++ newer) ≡ found
        → replay x newer ≡ found → replay x (older ++ newer) ≡ found }
    ensures rewritten { (rewritten : List Batch) → HaveConsecutiveEntries rewritten
        → HasConsecutiveEntries (effect rewritten) }
{}
