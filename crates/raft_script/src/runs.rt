//! Runs of operations in order, each with its outcome.
ghost use Rattle.std.specs.Prelude.{All, ◌≡◌, ◌⊎◌, ◌≤◌, ◌^◌, ◌++◌, ℕ, List, true, false, length, map, nat_lt, Some, None, IfOk, IfErr, OnOk, OnErr};
ghost use Rattle.raft_records.specs.Contents.{Contents, after_batches};
ghost use Rattle.raft_base.specs.Fault.{fault_code};
ghost use Rattle.raft_records.specs.Batch.{raw_entries, size_refusal, with_entries_item};
ghost use Rattle.raft_records.specs.Item.{Batch};
ghost use Rattle.raft_records.specs.Layout.{entry_bytes};
ghost use Rattle.raft_config.specs.Folders.{Folders};
ghost use Rattle.raft_env.specs.Directory.{Directory};
ghost use Rattle.raft_crash_laws.specs.Crash.{LeavesAllowedFrom};
ghost use Rattle.raft_pipes.specs.PipeState.{HasLastNumber};
ghost use Rattle.raft_log_engine.specs.Group.{items_of};
ghost use Rattle.raft_once.specs.History.{are_numbers};
ghost use Rattle.raft_log_engine.specs.Engine.{begun_of, contents_of, directory_of, durable_of, folders_of, has_failed, queue_of, refusals_of, unsynced_of};
ghost use Rattle.raft_script.specs.Batches.{indexed_bytes};
ghost use Rattle.raft_script.specs.Durability.{CrashesComeBack, Does, HaveRun, IsAnswerOf, IsOutOfNumbersIn, PassesOver, Runs};
ghost use Rattle.raft_script.specs.Headline.{AreSafe};
ghost use Rattle.raft_script.specs.Once.{AreOnce};
ghost use Rattle.raft_script.specs.Numbers.{HaveActed};
ghost use Rattle.raft_script.specs.Called.{IsCalled};
ghost use Rattle.raft_script.specs.Batches.{accepted_of, batch_of_acts, batches_of_parts, items_of_act};
ghost use Rattle.raft_script.specs.Failure.{IsFailing, Refuses};
ghost use Rattle.raft_script.specs.Run.{IsUnbuilt, IsUnbuiltGroup, IsUnasked};

use crate::operation::{Act, Op, Outcome};
use crate::text_entry::TextEntry;
use raft_env::FileSystem;
use raft_log_engine::Engine;
use raft_log_engine::laws::{an_engine_recovers_what_it_keeps, crash_leaves_contents};
use raft_once::laws::a_number_acts_once;
use raft_queue_laws::queue::crash_leaves_a_prefix;
use raft_records::{Command, EntryIndex, Fault, FileSeq, LogBatch, LogQueue};
use std::alloc::{AllocError, Global};

/// Outcomes, and the place of the operation in which the engine failed.
#[derive(Drop)]
pub(crate) struct RunReport {
    pub outcomes: Vec<Outcome>,
    pub failed_at: Option<usize>,
}

/// Runs the operations in order and returns the outcome of each. It fails only with `Memory`, if
/// there is no room for the list of outcomes; then the engine wasn't called.
///
/// `crash` is the law (docs/READING.md) for such a run. The machine may crash at each moment of an
/// operation, and again inside each opening that follows. A tolerant opening that isn't
/// interrupted then finds a prefix of the batches that were accepted before, with all that a
/// successful sync covered, and perhaps some of the operation's own. Or it fails with `Io`, which
/// storage counted, or with `Memory`. The premise is that the damage of each crash is detectable;
/// with any damage these batches are read first. If the operation has returned and the engine
/// hasn't failed, engine and files hold all accepted batches. A failed engine changes no file. The
/// engine's `laws::the_damage_of_an_engine_is_detectable` says when the premise is met.
///
/// `once`: over runs, crashes and openings no number of a group acts twice until the group is
/// cleaned, and each act that a successful sync covered is found.
///
/// `ok`: each operation calls the engine that the operation before left. The clause says what the
/// operation returns, when the engine fails, and which batches are durable.
///
/// `numbers`: accepted writes are acts with numbers, which are greater than those that their
/// groups kept. So none acts twice while the group isn't cleaned.
/// `laws::numbers_act_once_over_crashes` joins the acts of runs with crashes between them.
///
/// After the run exactly the covered batches count as durable, and the others as unsynced. Storage
/// refused at least as many calls as there are results `Io`. Reads, except of entries, and writes
/// of acts without a batch leave the engine unchanged (`unchanged`). The settings' folders, and
/// the record of the files that the opening found, stay the same (`folder`, `others`). Log files
/// that the opening passed over are unchanged (`passed`).
pub fn run<F: FileSystem>(
    alloc: Global,
    engine: &mut Engine<F>,
    ops: &[Op],
) -> Result<Vec<Outcome>, Fault>
    ensures crash { IfOk result (λ outcomes. AreSafe ops.now outcomes.items engine.old engine.new) }
    ensures once { IfOk result (λ outcomes. AreOnce ops.now outcomes.items engine.old engine.new) }
    ensures ok { IfOk result (λ outcomes. HaveRun ops.now outcomes.items engine.old engine.new) }
    ensures numbers { IfOk result (λ outcomes. HaveActed (contents_of engine.old)
        (durable_of engine.old) (unsynced_of engine.old) ops.now outcomes.items) }
    ensures unchanged { All IsUnasked ops.now → engine.new ≡ engine.old }
    ensures folder { folders_of engine.new ≡ folders_of engine.old }
    ensures others { begun_of engine.new ≡ begun_of engine.old }
    ensures passed { PassesOver engine.old engine.new }
    ensures err { OnErr result (engine.new ≡ engine.old) }
    ensures cause { IfErr result (λ e. e ≡ Fault.Memory) }
{
    Ok(run_watched(alloc, engine, ops)?.outcomes)
}

/// Like `run`, and says in which operation the engine failed.
pub(crate) fn run_watched<F: FileSystem>(
    alloc: Global,
    engine: &mut Engine<F>,
    ops: &[Op],
) -> Result<RunReport, Fault>
    ensures crash { IfOk result (λ ran.
        AreSafe ops.now ran.outcomes.items engine.old engine.new) }
    ensures once { IfOk result (λ ran.
        AreOnce ops.now ran.outcomes.items engine.old engine.new) }
    ensures ok { IfOk result (λ ran.
        Runs ops.now ran.outcomes.items ran.failed_at engine.old engine.new) }
    ensures numbers { IfOk result (λ ran. HaveActed (contents_of engine.old)
        (durable_of engine.old) (unsynced_of engine.old) ops.now ran.outcomes.items) }
    ensures unchanged { All IsUnasked ops.now → engine.new ≡ engine.old }
    ensures folder { folders_of engine.new ≡ folders_of engine.old }
    ensures others { begun_of engine.new ≡ begun_of engine.old }
    ensures passed { PassesOver engine.old engine.new }
    ensures err { OnErr result (engine.new ≡ engine.old) }
    ensures cause { IfErr result (λ e. e ≡ Fault.Memory) }
{
    crashes_come_back::<F>();
    a_number_acts_once();
    an_engine_recovers_what_it_keeps(engine);
    let mut outcomes = Vec::with_capacity(alloc, ops.len())?;
    let mut failed_at = None;
    for op in ops {
        let stood = !engine.failed();
        let outcome = step(alloc, engine, op);
        an_engine_recovers_what_it_keeps(engine);
        last_number_stands(engine);
        if stood && engine.failed() {
            failed_at = Some(outcomes.len());
        }
        outcomes.push(outcome)?;
    }
    Ok(RunReport {
        outcomes,
        failed_at,
    })
}

// The contents that a crash may leave are found again, however often openings are interrupted by
// crashes.
pub(crate) fn crashes_come_back<F: FileSystem>()
    ensures { CrashesComeBack F.FileSystem }
{
    crash_leaves_contents();
    crash_leaves_a_prefix();
}

// A queue of a usable engine has the last number only if a log file has it.
fn last_number_stands<F: FileSystem>(engine: &Engine<F>)
    ensures { has_failed engine.now ≡ false → HasLastNumber (queue_of engine.now)
        → IsOutOfNumbersIn (folders_of engine.now) (directory_of engine.now) }
{
    engine.file_span(LogQueue::Append);
}

/// Runs one operation and returns its outcome. Each operation of `run` is such a step.
pub fn step<F: FileSystem>(alloc: Global, engine: &mut Engine<F>, op: &Op) -> Outcome
    ensures value { IsAnswerOf op.now result engine.old engine.new }
    ensures failed { IsFailing (has_failed engine.old) op.now result (has_failed engine.new) }
    ensures unchanged { IsUnasked op.now → engine.new ≡ engine.old }
    ensures cause { Refuses result (refusals_of engine.old) (refusals_of engine.new) }
    ensures contents { has_failed engine.new ≡ false
        → contents_of engine.new
        ≡ after_batches (contents_of engine.old)
        (accepted_of (contents_of engine.old) op.now result) }
    ensures progress { Does op.now result engine.old engine.new }
    ensures called { IsCalled op.now result engine.old engine.new }
    ensures folder { folders_of engine.new ≡ folders_of engine.old }
    ensures others { begun_of engine.new ≡ begun_of engine.old }
    ensures passed { PassesOver engine.old engine.new }
{
    match op {
        Op::Write(acts, sync) => match build(alloc, acts) {
            Ok(mut batch) => Outcome::Size(engine.write(&mut batch, *sync)),
            // A fault while the batch is built doesn't reach the engine.
            Err(fault) => Outcome::Size(Err(fault)),
        },
        Op::WriteOnce(acts, pairs, sync) => match build(alloc, acts) {
            Ok(mut batch) => {
                numbers_fit(pairs);
                Outcome::Size(engine.write_once(&mut batch, pairs, *sync))
            }
            Err(fault) => Outcome::Size(Err(fault)),
        },
        Op::WriteGroup(parts) => match build_group(alloc, parts) {
            Ok((mut batches, syncs)) => Outcome::Sizes(engine.write_group(&mut batches, &syncs)),
            Err(fault) => Outcome::Sizes(Err(fault)),
        },
        Op::Sync => Outcome::Done(engine.sync()),
        Op::Get(group, key) => Outcome::Value(engine.get(*group, key)),
        Op::CompactTo(group, index) => Outcome::Count(engine.compact_to(*group, *index)),
        Op::Entry(group, index) => Outcome::Entry(engine.get_entry::<TextEntry>(*group, *index)),
        Op::First(group) => Outcome::Index(engine.first_index(*group)),
        Op::Last(group) => Outcome::Index(engine.last_index(*group)),
        Op::Groups => Outcome::Groups(engine.raft_groups()),
        Op::RewriteAppend(watermark, step) => {
            Outcome::Dropped(engine.must_rewrite_append_queue(*watermark, *step))
        }
        Op::RewriteRewrite => Outcome::Dropped(engine.must_rewrite_rewrite_queue()),
        Op::PurgeStale => Outcome::Dropped(engine.must_purge_all_stale()),
        Op::Purge => Outcome::ToCompact(engine.purge_expired_files(FileSeq::MAX)),
    }
}

// Each number has eight bytes, by its type. The loop reads them only to show that.
fn numbers_fit(pairs: &[(u64, u64)])
    ensures { are_numbers pairs.now ≡ true }
{
    for (_, number) in pairs {
        number_fits(*number);
    }
}

fn number_fits(number: u64)
    ensures { nat_lt number (2 ^ 64) ≡ true }
{}

// The batches of a write group, and the flags that request a sync.
fn build_group(
    alloc: Global,
    parts: &[(Vec<Act>, bool)],
) -> Result<(Vec<LogBatch>, Vec<bool>), Fault>
    ensures value { IfOk result (λ built.
        batches_of_parts parts.now ≡ Some (items_of built.0.items)) }
    ensures ok { IfOk result (λ built. built.1.items ≡ map (λ part. part.1) parts.now) }
    ensures cause { IfErr result (IsUnbuiltGroup parts.now) }
{
    let mut batches = Vec::with_capacity(alloc, parts.len())?;
    let mut syncs = Vec::with_capacity(alloc, parts.len())?;
    for part in parts {
        batches.push(build(alloc, &part.0)?)?;
        syncs.push(part.1)?;
    }
    Ok((batches, syncs))
}

fn build(alloc: Global, acts: &[Act]) -> Result<LogBatch, Fault>
    ensures value { IfOk result (λ batch. batch_of_acts acts.now ≡ Some batch.items) }
    ensures cause { IfErr result (IsUnbuilt acts.now) }
{
    let mut batch = LogBatch::new(alloc);
    for act in acts {
        add(alloc, &mut batch, act)?;
    }
    Ok(batch)
}

fn add(alloc: Global, batch: &mut LogBatch, act: &Act) -> Result<(), Fault>
    ensures ok { OnOk result ((items : Batch) × (items_of_act act.now ≡ Some items)
        × (batch.new.items ≡ batch.old.items ++ items)) }
    ensures cause { IfErr result (λ e.
        (e ≡ Fault.Memory) ⊎ ((fault_code e ≡ 1) × (items_of_act act.now ≡ None))
        ⊎ ((e ≡ Fault.Range) × (items : Batch) × (items_of_act act.now ≡ Some items)
        × (2 ^ 32 ≤ length (entry_bytes (batch.old.items ++ items))))) }
{
    match act {
        Act::Put(group, key, value) => {
            batch.put(*group, key.to_vec(alloc)?, value.to_vec(alloc)?)
        }
        Act::Delete(group, key) => batch.delete(*group, key.to_vec(alloc)?),
        Act::Entries(group, entries) => add_entries(alloc, batch, *group, entries),
        Act::Clean(group) => batch.add_command(*group, Command::Clean),
        Act::Compact(group, index) => {
            batch.add_command(*group, Command::Compact { index: *index })
        }
    }
}

// Adds the entries as one item, if there are any.
fn add_entries(
    alloc: Global,
    batch: &mut LogBatch,
    group: u64,
    entries: &[(u64, Vec<u8>)],
) -> Result<(), Fault>
    ensures ok { OnOk result (batch.new
        ≡ with_entries_item batch.old group (map indexed_bytes entries.now)) }
    ensures cause { let refusal = size_refusal
        (with_entries_item batch.old group (map indexed_bytes entries.now)).items in
        IfErr result (λ e. (refusal ≡ Some e) ⊎ (e ≡ Fault.Memory)) }
{
    let (indexes, bytes) = split_entries(alloc, entries)?;
    batch.add_raw_entries(group, indexes, bytes)
}

// The indexes of entries, and copies of their bytes.
fn split_entries(
    alloc: Global,
    entries: &[(u64, Vec<u8>)],
) -> Result<(Vec<EntryIndex>, Vec<Vec<u8>>), AllocError>
    ensures len { IfOk result (λ split. length split.0.items ≡ length split.1.items) }
    ensures value { IfOk result (λ split. raw_entries split.0.items
        (map (λ bytes. bytes.items) split.1.items) ≡ map indexed_bytes entries.now) }
{
    let mut indexes = Vec::with_capacity(alloc, entries.len())?;
    let mut copies = Vec::with_capacity(alloc, entries.len())?;
    for entry in entries {
        indexes.push(EntryIndex {
            index: entry.0,
            entries: None,
            entry_offset: 0,
            entry_len: 0,
            lz4: false,
        })?;
        copies.push(entry.1.to_vec(alloc)?)?;
    }
    Ok((indexes, copies))
}
