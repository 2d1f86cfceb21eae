//! What holds for the numbers that acted.
ghost use Rattle.std.specs.Prelude.{◌≡◌, ◌≤◌, ℕ, List, [], true, false};
ghost use Rattle.raft_records.specs.Contents.{Contents, after_batch};
ghost use Rattle.raft_records.specs.Item.{Batch};
ghost use Rattle.raft_once.specs.History.{Act, ActedOnce, MayAct, MayAllAct, acted_after, are_numbers, cleans, written_of};
ghost use Rattle.raft_once.specs.Numbers.{Pair, are_old, are_unfit, number_of, numbered};

/// No number of a group acts twice while the group is not cleaned: each that acts is greater than
/// all before it (`once`). A group's number falls only by a clean (`kept`), and numbers that acted
/// are old (`old`).
pub fn a_number_acts_once()
    ensures once { (m : Contents) (group : ℕ) (acts : List Act) → MayAllAct m acts
        → ActedOnce (acted_after group [] acts) }
    ensures kept { (m : Contents) (group : ℕ) (act : Act) → MayAct m act
        → cleans group act.items ≡ false
        → number_of m group ≤ number_of (after_batch m (written_of act)) group }
    ensures old { (m : Contents) (items : Batch) (pairs : List Pair) → are_unfit pairs ≡ false
        → are_numbers pairs ≡ true
        → are_old (after_batch m (numbered items pairs)) pairs ≡ true }
{}
