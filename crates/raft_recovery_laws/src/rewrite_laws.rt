//! What may be appended to the Rewrite queue without a change of the recovered contents.
ghost use Rattle.std.specs.Prelude.{◌≡◌, ◌≤◌, ◌++◌, ◌∷◌, ℕ, List, [], true, false, None, Some, IsTrue};
ghost use Rattle.std.specs.List.{list_all};
ghost use Rattle.std.specs.Str.{bytes_eq};
ghost use Rattle.raft_records.specs.Contents.{Contents, after_batches, after_item};
ghost use Rattle.raft_records.specs.Item.{Batch, Clean, Compact, Delete, Entries, Entry, Put, group_mark_key};
ghost use Rattle.raft_records.specs.Record.{Mark, mark_item};
ghost use Rattle.raft_recovery_laws.specs.Consecutive.{HaveConsecutiveEntries, are_consecutive};
ghost use Rattle.raft_recovery_laws.specs.Groups.{is_complete, is_of_group, mark_of, places_in};
ghost use Rattle.raft_recovery_laws.specs.Recovered.{effect, items_of, leaves_key, recovered, replay};
ghost use Rattle.raft_recovery_laws.specs.Rewriting.{ChangesNothing, EachChangesNothing, EachLeft, FitsRewrite, IsSetByAppend};

/// Marks of removals. A delete changes nothing if the key does not exist or the Append queue sets
/// it (`deleted`). A compaction changes nothing if no entry below its index remains that the Append
/// queue leaves (`compacted`). A clean changes nothing if everything that the group has is the
/// Append queue's own (`cleaned`).
pub fn marks_change_nothing()
    ensures deleted { (x : Contents) (appended : List Batch) (group : ℕ) (key : List ℕ)
        → (leaves_key appended group key ≡ true → (replay x appended).value group key ≡ None)
        → ChangesNothing x appended (record { group = group; content = Delete key }) }
    ensures compacted { (x : Contents) (appended : List Batch) (group index : ℕ)
        → HaveConsecutiveEntries appended → IsTrue (are_consecutive (x.entries group))
        → EachLeft x appended group (λ e. index ≤ e.0)
        → ChangesNothing x appended (record { group = group; content = Compact index }) }
    ensures cleaned { (x : Contents) (appended : List Batch) (group : ℕ)
        → HaveConsecutiveEntries appended → IsTrue (are_consecutive (x.entries group))
        → IsSetByAppend x appended group
        → ChangesNothing x appended (record { group = group; content = Clean }) }
{}

/// Existing data may be written again: a key with its value, or a key that the Append queue sets
/// (`key`), and entries that fit (`entries`). The mark of an atomic group counts as no key
/// (`mark`).
pub fn rewriting_changes_nothing()
    ensures key { (x : Contents) (appended : List Batch) (group : ℕ) (key value : List ℕ)
        → (leaves_key appended group key ≡ true
        → (replay x appended).value group key ≡ Some value)
        → ChangesNothing x appended (record { group = group; content = Put key value }) }
    ensures entries { (x : Contents) (appended : List Batch) (group : ℕ) (e : Entry)
        (es : List Entry) → HaveConsecutiveEntries appended
        → IsTrue (are_consecutive (x.entries group)) → IsTrue (are_consecutive (e ∷ es))
        → FitsRewrite x appended group e es
        → ChangesNothing x appended (record { group = group; content = Entries (e ∷ es) }) }
    ensures mark { (x : Contents) (appended : List Batch) (id : ℕ) (mark : Mark)
        → ChangesNothing x appended (mark_item id mark) }
{}

/// These premises are exact: if a delete, a compaction, a clean or a put of a key changes nothing,
/// it meets its own.
pub fn what_changes_nothing_meets_its_premise()
    ensures deleted { (x : Contents) (appended : List Batch) (group : ℕ) (key : List ℕ)
        → ChangesNothing x appended (record { group = group; content = Delete key })
        → leaves_key appended group key ≡ true → (replay x appended).value group key ≡ None }
    ensures compacted { (x : Contents) (appended : List Batch) (group index : ℕ)
        → HaveConsecutiveEntries appended → IsTrue (are_consecutive (x.entries group))
        → ChangesNothing x appended (record { group = group; content = Compact index })
        → EachLeft x appended group (λ e. index ≤ e.0) }
    ensures cleaned { (x : Contents) (appended : List Batch) (group : ℕ)
        → HaveConsecutiveEntries appended
        → ChangesNothing x appended (record { group = group; content = Clean })
        → IsSetByAppend x appended group }
    ensures key { (x : Contents) (appended : List Batch) (group : ℕ) (key value : List ℕ)
        → bytes_eq key group_mark_key ≡ false
        → ChangesNothing x appended (record { group = group; content = Put key value })
        → leaves_key appended group key ≡ true
        → (replay x appended).value group key ≡ Some value }
{}

/// Entries that are written in two parts, the second starting directly after the first, are the
/// same as those written at once. So the batches of an atomic group may share them.
pub fn entries_in_parts_are_the_same_as_at_once()
    ensures parts { (x : Contents) (group : ℕ) (es fs : List Entry)
        → IsTrue (are_consecutive (x.entries group)) → IsTrue (are_consecutive (es ++ fs))
        → after_item (after_item x (record { group = group; content = Entries es }))
        (record { group = group; content = Entries fs })
        ≡ after_item x (record { group = group; content = Entries (es ++ fs) }) }
{}

/// If each item changes nothing after those before it, their batch changes nothing: one without a
/// mark (`unmarked`), and a complete atomic group at its end (`items`). An item of a complete group
/// may change something by itself, for example a first part of the existing entries, if the group
/// as a whole changes nothing (`group`).
pub fn batches_of_such_items_change_nothing()
    ensures unmarked { (old appended : List Batch) (batch : Batch) → mark_of batch ≡ None
        → EachChangesNothing (effect old) appended batch
        → recovered (old ++ batch ∷ []) appended ≡ recovered old appended }
    ensures items { (id : ℕ) (old group appended : List Batch) → places_in id old ≡ []
        → IsTrue (list_all (is_of_group id) group) → IsTrue (is_complete (places_in id group))
        → EachChangesNothing (effect old) appended (items_of group)
        → recovered (old ++ group) appended ≡ recovered old appended }
    ensures group { (id : ℕ) (old group appended : List Batch) → places_in id old ≡ []
        → IsTrue (list_all (is_of_group id) group) → IsTrue (is_complete (places_in id group))
        → replay (after_batches (effect old) group) appended ≡ replay (effect old) appended
        → recovered (old ++ group) appended ≡ recovered old appended }
{}

/// A group is written batch by batch. A further batch of an incomplete group changes nothing
/// (`open`). Its last batch changes nothing if the group as a whole changes nothing (`last`). So a
/// crash inside the group finds the same as a crash before it.
pub fn a_group_may_be_written_batch_by_batch()
    ensures open { (id : ℕ) (old group appended : List Batch) (batch : Batch)
        → places_in id old ≡ [] → IsTrue (list_all (is_of_group id) group)
        → IsTrue (list_all (is_of_group id) (group ++ batch ∷ []))
        → is_complete (places_in id group) ≡ false
        → is_complete (places_in id (group ++ batch ∷ [])) ≡ false
        → recovered (old ++ group ++ batch ∷ []) appended ≡ recovered (old ++ group) appended }
    ensures last { (id : ℕ) (old group appended : List Batch) (batch : Batch)
        → places_in id old ≡ [] → IsTrue (list_all (is_of_group id) group)
        → IsTrue (list_all (is_of_group id) (group ++ batch ∷ []))
        → is_complete (places_in id group) ≡ false
        → IsTrue (is_complete (places_in id (group ++ batch ∷ [])))
        → replay (after_batches (effect old) (group ++ batch ∷ [])) appended
        ≡ replay (effect old) appended
        → recovered (old ++ group ++ batch ∷ []) appended ≡ recovered (old ++ group) appended }
{}
