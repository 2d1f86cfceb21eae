//! When the first files of the Append queue may be dropped.
ghost use Rattle.std.specs.Prelude.{◌≡◌, ◌++◌, List};
ghost use Rattle.raft_records.specs.Item.{Batch};
ghost use Rattle.raft_recovery_laws.specs.Consecutive.{HaveConsecutiveEntries};
ghost use Rattle.raft_recovery_laws.specs.DroppingFront.{HoldsDropped};
ghost use Rattle.raft_recovery_laws.specs.Recovered.{effect, recovered};

/// When the first batches of the Append queue may be dropped. The Rewrite queue must hold the part
/// of the recovered contents that the other batches leave. It must have nothing of a group directly
/// before its recovered entries or after them, and no key that does not exist. If that is so, they
/// may be dropped (`dropped`); and only if it is so (`needed`).
pub fn a_dropped_front_changes_nothing()
    ensures dropped { (rewritten front rest : List Batch) → HaveConsecutiveEntries rewritten
        → HaveConsecutiveEntries (front ++ rest)
        → HoldsDropped (effect rewritten) rest (recovered rewritten (front ++ rest))
        → recovered rewritten rest ≡ recovered rewritten (front ++ rest) }
    ensures needed { (rewritten front rest : List Batch) → HaveConsecutiveEntries rewritten
        → HaveConsecutiveEntries rest
        → recovered rewritten rest ≡ recovered rewritten (front ++ rest)
        → HoldsDropped (effect rewritten) rest (recovered rewritten (front ++ rest)) }
{}
