//! When old files of the Rewrite queue may be dropped.
ghost use Rattle.std.specs.Prelude.{◌≡◌, ◌++◌, ℕ, List, false, IsTrue};
ghost use Rattle.std.specs.List.{list_all};
ghost use Rattle.raft_records.specs.Contents.{Contents};
ghost use Rattle.raft_records.specs.Item.{Batch};
ghost use Rattle.raft_recovery_laws.specs.Consecutive.{HaveConsecutiveEntries};
ghost use Rattle.raft_recovery_laws.specs.Dropping.{HoldsLeft, IsLaterPart, ShareNoGroup};
ghost use Rattle.raft_recovery_laws.specs.Groups.{is_complete, is_of_group, places_in};
ghost use Rattle.raft_recovery_laws.specs.Recovered.{effect, recovered};

/// The old batches of the Rewrite queue may be dropped if the new ones hold everything recovered
/// that the Append queue leaves (`dropped`). The new ones with some of the old before them hold it
/// too (`more`): so the old ones may go file by file, and dropped files may still exist. No atomic
/// group may have batches both among the old ones and among the new. The premise is exact: whatever
/// is recovered from only the new ones, they hold (`exact`). And what they leave is the later part
/// of what all leave (`later`).
pub fn dropped_rewrite_files_change_nothing()
    ensures dropped { (old new appended : List Batch) → ShareNoGroup old new
        → HaveConsecutiveEntries old → HaveConsecutiveEntries new
        → HaveConsecutiveEntries appended
        → HoldsLeft (effect new) appended (recovered (old ++ new) appended)
        → recovered new appended ≡ recovered (old ++ new) appended }
    ensures more { (old new appended : List Batch) (m : Contents) → ShareNoGroup old new
        → HaveConsecutiveEntries old → HaveConsecutiveEntries new
        → HoldsLeft (effect new) appended m → HoldsLeft (effect (old ++ new)) appended m }
    ensures exact { (new appended : List Batch) (m : Contents) → HaveConsecutiveEntries new
        → HaveConsecutiveEntries appended → recovered new appended ≡ m
        → HoldsLeft (effect new) appended m }
    ensures later { (old new : List Batch) → ShareNoGroup old new → HaveConsecutiveEntries old
        → HaveConsecutiveEntries new → IsLaterPart (effect new) (effect (old ++ new)) }
{}

/// Files may be dropped up to one that ends inside an atomic group. The rest of that group, which
/// is incomplete without its first batch, then precedes all others and changes nothing. The
/// recovered contents have to be in the batches after it (`cut`), as they are if the new ones at
/// their end hold them (`rest`).
pub fn files_that_end_inside_a_group_may_be_dropped()
    ensures cut { (id : ℕ) (front tail new appended : List Batch)
        → IsTrue (list_all (is_of_group id) tail) → is_complete (places_in id tail) ≡ false
        → ShareNoGroup (front ++ tail) new → HaveConsecutiveEntries (front ++ tail)
        → HaveConsecutiveEntries new → HaveConsecutiveEntries appended
        → HoldsLeft (effect new) appended (recovered (front ++ tail ++ new) appended)
        → recovered (tail ++ new) appended ≡ recovered (front ++ tail ++ new) appended }
    ensures rest { (id : ℕ) (front tail rest new appended : List Batch)
        → IsTrue (list_all (is_of_group id) tail) → is_complete (places_in id tail) ≡ false
        → ShareNoGroup (front ++ tail) (rest ++ new) → ShareNoGroup rest new
        → HaveConsecutiveEntries (front ++ tail) → HaveConsecutiveEntries rest
        → HaveConsecutiveEntries new → HaveConsecutiveEntries appended
        → HoldsLeft (effect new) appended (recovered (front ++ tail ++ rest ++ new) appended)
        → recovered (tail ++ rest ++ new) appended
        ≡ recovered (front ++ tail ++ rest ++ new) appended }
{}
