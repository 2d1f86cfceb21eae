//! What chunks of batches leave that were applied separately.
ghost use Rattle.std.specs.Prelude.{◌≡◌, ◌++◌, ◌||◌, ◌&&◌, not, is_some, ℕ, List, filter, if◌then◌else◌};
ghost use Rattle.raft_records.specs.Contents.{Contents, after_batches, no_contents, with_entries};
ghost use Rattle.raft_records.specs.Item.{Batch};
ghost use Rattle.raft_replay.specs.Chunks.{Reach, deleted_in, merged_entries, no_reach, reach_in, reach_leaves, reach_then};
ghost use Rattle.raft_recovery_laws.specs.Consecutive.{HaveConsecutiveEntries};
ghost use Rattle.raft_tables.specs.Known.{known_in};
ghost use Rattle.raft_recovery_laws.specs.Recovered.{leaves, leaves_key, replay};

/// The reach of two chunks, one after the other, is that of all their batches (`reach`), and it
/// decides which older entries remain (`left`). Older keys remain that they neither deleted nor
/// hold, if they did not clean the group (`keys`).
pub fn reaches_of_chunks_join()
    ensures reach { (group : ℕ) (older newer : List Batch) → reach_in group (older ++ newer)
        ≡ reach_then (reach_in group older) (reach_in group newer) }
    ensures associative { (a b c : Reach)
        → reach_then (reach_then a b) c ≡ reach_then a (reach_then b c) }
    ensures neutral { (a : Reach) → (reach_then a no_reach ≡ a) × (reach_then no_reach a ≡ a) }
    ensures left { (group index : ℕ) (batches : List Batch)
        → leaves batches group index ≡ reach_leaves (reach_in group batches) index }
    ensures keys { (group : ℕ) (key : List ℕ) (batches : List Batch) → leaves_key batches group key
        ≡ not ((reach_in group batches).cleaned || (deleted_in group key batches
        || is_some ((after_batches no_contents batches).value group key))) }
{}

/// All batches, older and then newer ones, leave what the older ones leave, if the newer ones
/// permit it, with what these leave themselves.
pub fn chunks_apart_leave_what_they_leave_in_order()
    ensures entries { (older newer : List Batch) → HaveConsecutiveEntries (older ++ newer)
        → (group : ℕ) → (after_batches no_contents (older ++ newer)).entries group
        ≡ merged_entries (reach_in group older) (reach_in group newer)
        ((after_batches no_contents older).entries group)
        ((after_batches no_contents newer).entries group) }
    ensures values { (older newer : List Batch) (group : ℕ) (key : List ℕ)
        → (after_batches no_contents (older ++ newer)).value group key
        ≡ (if leaves_key newer group key
        then (after_batches no_contents older).value group key
        else (after_batches no_contents newer).value group key) }
    ensures joined { (x : Contents) (appended : List Batch) (group : ℕ)
        → (replay x appended).entries group
        ≡ with_entries (filter (λ e. reach_leaves (reach_in group appended) e.0) (x.entries group))
        ((after_batches no_contents appended).entries group) }
    ensures known { (older newer : List Batch) (group : ℕ) → known_in (older ++ newer) group
        ≡ (known_in newer group || (not (reach_in group newer).cleaned && known_in older group)) }
{}
