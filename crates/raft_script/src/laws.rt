//! The law of numbers over runs, crashes and openings.
ghost use Rattle.std.specs.Prelude.{◌≡◌, ◌++◌, ℕ, List, take};
ghost use Rattle.raft_records.specs.Contents.{Contents, after_batches};
ghost use Rattle.raft_records.specs.Item.{Batch};
ghost use Rattle.raft_once.specs.History.{Act, MayAllAct, are_written};
ghost use Rattle.raft_script.specs.Batches.{MayBeInFlight};
ghost use Rattle.raft_script.specs.Numbers.{acts_in};
ghost use Rattle.raft_script.specs.declared.operation.Op.{Op};

/// No number of a group acts twice over runs with crashes between them.
///
/// The acts of the runs form one list, to which `raft_once::laws::a_number_acts_once` applies. The
/// batches that an operation has in flight are acts that may be written at that place (`flight`).
/// A crash leaves the contents after a prefix of the acts, and all acts of the prefix may be
/// written (`left`). Acts that may be written at these contents may follow them (`joined`), from
/// the same engine or from one that is opened after the crash. So a number whose act was left
/// doesn't act again, and a number whose act was lost may act.
pub fn numbers_act_once_over_crashes()
    ensures flight { (m : Contents) (op : Op) (flight : List Batch) → MayBeInFlight m op flight
        → ∥ MayAllAct m (acts_in op flight) × (are_written (acts_in op flight) ≡ flight) ∥₁ }
    ensures left { (m : Contents) (acts : List Act) (count : ℕ) → MayAllAct m acts
        → MayAllAct m (take count acts)
        × (take count (are_written acts) ≡ are_written (take count acts)) }
    ensures joined { (m : Contents) (acts later : List Act) → MayAllAct m acts
        → MayAllAct (after_batches m (are_written acts)) later → MayAllAct m (acts ++ later) }
{}
