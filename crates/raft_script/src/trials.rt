//! Trials: operations over files in memory, then a crash, then an opening.
ghost use Rattle.std.specs.Prelude.{◌≡◌, ◌⊎◌, None, List, [], ◌∷◌, ◌++◌, IfOk, IfErr};
ghost use Rattle.raft_base.specs.Fault.{fault_code};
ghost use Rattle.raft_env.specs.Directory.{Directory};
ghost use Rattle.raft_memory.specs.Choice.{NameNoBytes};
ghost use Rattle.raft_config.specs.Folders.{Folders, folders_in};
ghost use Rattle.raft_config.specs.Sanitized.{IsContradiction, contradiction};
ghost use Rattle.raft_memory.specs.Memory.{memory_directory, memory_moments, no_files};
ghost use Rattle.raft_log_engine.specs.Image.{IsImageOf};
ghost use Rattle.raft_once.specs.Numbers.{shown};
ghost use Rattle.raft_crash_laws.specs.Contents.{contents_at, known_at};
ghost use Rattle.raft_crash_laws.specs.Crash.{RecoversContents};
ghost use Rattle.raft_pipes.specs.Folder.{AreClear};
ghost use Rattle.raft_crash_laws.specs.Queues.{AreOpenableIn, AreSingleIn, ReadCompletedRecordsIn};
ghost use Rattle.raft_script.specs.Failure.{IsStorageOrMemory};
ghost use Rattle.raft_script.specs.Trial.{AreNotAllowed, AreNotAllowedAgain, FailsAtStop, HaveNoLogPath, IsCrashOf, IsLogRefusal, IsOpenedAs, IsTrialOf, IsTrialTwiceOf, LeavesDetectable, LeavesSound, Ran, Reopens, RunsOver};

use crate::operation::{Op, Trial};
use crate::runs::{RunReport, crashes_come_back, run_watched};
use raft_env::FileSystem;
use raft_log_engine::laws::{crash_leaves_contents, the_damage_of_an_engine_is_detectable};
use raft_log_engine::{Config, Engine, Image};
use raft_memory::{Choice, MemoryFileSystem};
use raft_queue_laws::damage::premise_can_be_met;
use raft_queue_laws::queue::{a_queue_recovers_its_batches, crash_leaves_a_prefix};
use raft_records::Fault;
use std::alloc::Global;

/// Opens a log in memory, runs the operations, crashes, and opens the log again.
///
/// The calls that may change files are counted from 1, from the first opening on; with `stop` that
/// call and each later one fails. The opening after the crash has no stop, and at each of its
/// moments the folders keep what they kept. If the first opening fails, no operation is run, and
/// the trial says why: settings contradict each other, a storage call failed, or memory ran out.
/// `choices` say what the crash leaves of each file.
///
/// A trial fails with `InvalidArgument` if the contract of storage doesn't allow the chosen bytes,
/// and otherwise only with `Memory`.
///
/// If the damage of the crash is detectable, a tolerant opening fails only by storage or out of
/// memory. Other openings may also fail because of the log's state or of settings that contradict
/// each other. Only a failed first opening requires that no folder has the path of a log file
/// (`HaveNoLogPath`).
///
/// The damage is detectable in two cases. In the first no engine failed, and no record decodes that
/// a last log file held when it was renamed; the choices leave each file whole, as at the crash or
/// as at its last sync. In the second there may be any failures and torn files. Then the last log
/// files were never renamed, each record was brought by its own call, and the files are read as at
/// a moment since their last sync.
pub fn trial(
    alloc: Global,
    config: Config,
    ops: &[Op],
    stop: Option<u64>,
    choices: &[Choice],
) -> Result<Trial, Fault>
    ensures value { IfOk result
        (IsTrialOf ⟦<MemoryFileSystem as FileSystem>⟧ config ops.now stop choices.now) }
    ensures cause { IfErr result (λ e. (e ≡ Fault.Memory)
        ⊎ ((fault_code e ≡ 1) × (NameNoBytes choices.now → ⊥)
        × AreNotAllowed ⟦<MemoryFileSystem as FileSystem>⟧ config ops.now stop choices.now)) }
{
    let again = config.clone()?;
    let (ran, refused, left) = crashed(alloc, config, ops, stop, choices)?;
    let (opened, _) = open_and_give_up(alloc, again, left);
    Ok(Trial {
        outcomes: ran.outcomes,
        failed_at: ran.failed_at,
        refused,
        second: None,
        opened,
    })
}

/// Like `trial`, with a second crash in the opening after the first one. From the call `again` on,
/// counted from 1, each call of that opening that may change files fails. Then the opening is
/// given up, the files crash by `more`, and the last opening, without a stop, finds what they
/// hold. If the damage of both crashes is detectable, it finds what the first crash left: a
/// recovery may be interrupted anywhere and loses nothing.
pub fn trial_twice(
    alloc: Global,
    config: Config,
    ops: &[Op],
    stop: Option<u64>,
    choices: &[Choice],
    again: Option<u64>,
    more: &[Choice],
) -> Result<Trial, Fault>
    ensures value { IfOk result
        (IsTrialTwiceOf ⟦<MemoryFileSystem as FileSystem>⟧ config ops.now stop choices.now again
        more.now) }
    ensures cause { IfErr result (λ e. (e ≡ Fault.Memory)
        ⊎ ((fault_code e ≡ 1) × (NameNoBytes choices.now → ⊥)
        × AreNotAllowed ⟦<MemoryFileSystem as FileSystem>⟧ config ops.now stop choices.now)
        ⊎ ((fault_code e ≡ 1) × (NameNoBytes more.now → ⊥)
        × AreNotAllowedAgain ⟦<MemoryFileSystem as FileSystem>⟧ config ops.now stop choices.now
        again more.now)) }
{
    crash_leaves_contents();
    premise_can_be_met();
    let second = config.clone()?;
    let last = config.clone()?;
    let (ran, refused, first) = crashed(alloc, config, ops, stop, choices)?;
    let (image, files) = open_and_give_up(alloc, second, stopped(first, again));
    let left = files.crash(more)?;
    let (opened, _) = open_and_give_up(alloc, last, left);
    Ok(Trial {
        outcomes: ran.outcomes,
        failed_at: ran.failed_at,
        refused,
        second: Some(image),
        opened,
    })
}

// Opens the log over new files, runs the operations, and crashes.
fn crashed(
    alloc: Global,
    config: Config,
    ops: &[Op],
    stop: Option<u64>,
    choices: &[Choice],
) -> Result<(RunReport, Option<Fault>, MemoryFileSystem), Fault>
    ensures value { IfOk result (λ r. let ran : Ran = record {
      outcomes = r.0.outcomes.items;
      failed_at = r.0.failed_at;
      refused = r.1;
    } in IsCrashOf ⟦<MemoryFileSystem as FileSystem>⟧ config ops.now stop choices.now ran r.2) }
    ensures cause { IfErr result (λ e. (e ≡ Fault.Memory)
        ⊎ ((fault_code e ≡ 1) × (NameNoBytes choices.now → ⊥)
        × AreNotAllowed ⟦<MemoryFileSystem as FileSystem>⟧ config ops.now stop choices.now)) }
{
    a_queue_recovers_its_batches();
    crash_leaves_a_prefix();
    crash_leaves_contents();
    premise_can_be_met();
    let (ran, refused, files) = run_over(alloc, config, new_files(alloc, stop), ops)?;
    let left = files.crash(choices)?;
    Ok((ran, refused, left))
}

/// If the settings have one folder, no folder has the path of a log file or of a reserved one. So
/// each statement on trials holds.
pub fn a_folder_alone_has_no_log_path()
    ensures one { (folders : Folders) → folders.spill ≡ None → HaveNoLogPath folders }
{}

fn new_files(alloc: Global, stop: Option<u64>) -> MemoryFileSystem
    ensures files { memory_directory result ≡ no_files }
    ensures any_moment { memory_moments result ≡ no_files ∷ [] }
    ensures stop { FailsAtStop stop result }
{
    stopped(MemoryFileSystem::new(alloc), stop)
}

// The files, which fail from the call `stop` on, if it is given.
fn stopped(mut files: MemoryFileSystem, stop: Option<u64>) -> MemoryFileSystem
    ensures unchanged { memory_directory result ≡ memory_directory files }
    ensures any_moment { memory_moments result ≡ memory_moments files }
    ensures stop { FailsAtStop None files → FailsAtStop stop result }
{
    if let Some(nth) = stop {
        files.stop_at(nth);
    }
    files
}

// Opens the log, runs the operations, and returns the files as they are then.
fn run_over<F: FileSystem + Drop>(
    alloc: Global,
    config: Config,
    files: F,
    ops: &[Op],
) -> Result<(RunReport, Option<Fault>, F), Fault>
    ensures ok { IfOk result (λ r. let dir = folders_in config in
        let n = F.directory files in
        let ran : Ran = record {
          outcomes = r.0.outcomes.items;
          failed_at = r.0.failed_at;
          refused = r.1;
        } in
        let found = contents_at dir n in
        RecoversContents dir found [] n
        → RunsOver F.FileSystem config found (known_at dir n) ops.now ran files r.2) }
    ensures clear { IfOk result (λ r. r.1 ≡ None
        → AreClear (folders_in config) (F.directory files)) }
    ensures crash { IfOk result (λ r.
        ReadCompletedRecordsIn (folders_in config) (F.directory files) → r.1 ≡ None
        → r.0.failed_at ≡ None → LeavesDetectable (folders_in config) (F.directory r.2)) }
    ensures sound { IfOk result (λ r. let dir = folders_in config in
        RecoversContents dir (contents_at dir (F.directory files)) [] (F.directory files)
        → LeavesSound dir (F.directory r.2)) }
    ensures any_moment { IfOk result (λ r.
        (added : List Directory) × (F.moments r.2 ≡ added ++ F.moments files)) }
    ensures cause { IfErr result (λ e. e ≡ Fault.Memory) }
{
    crash_leaves_contents();
    crashes_come_back::<F>();
    match Engine::open_in_order(alloc, config, files) {
        Ok(mut engine) => {
            let ran = run_watched(alloc, &mut engine, ops)?;
            the_damage_of_an_engine_is_detectable(&engine);
            Ok((ran, None, engine.give_up()))
        }
        Err(refused) => {
            let nothing = RunReport {
                outcomes: Vec::new(alloc),
                failed_at: None,
            };
            Ok((nothing, Some(refused.fault), refused.file_system))
        }
    }
}

// The image that an opening finds, without the groups' numbers, and the files afterwards.
fn open_and_give_up<F: FileSystem + Drop>(
    alloc: Global,
    config: Config,
    files: F,
) -> (Result<Image, Fault>, F)
    ensures value { IfOk result.0 (λ image.
        IsImageOf image.groups.items
        (shown (contents_at (folders_in config) (F.directory files)))) }
    ensures refused { contradiction config ≡ None → IfErr result.0 (λ e.
        AreOpenableIn config.recovery_mode (folders_in config) (F.directory files)
        → AreClear (folders_in config) (F.directory files)
        → AreSingleIn (folders_in config) (F.directory files) → IsStorageOrMemory e) }
    ensures cause { IfErr result.0 (λ e. AreClear (folders_in config) (F.directory files)
        → AreSingleIn (folders_in config) (F.directory files) → IsContradiction config e
        ⊎ IsLogRefusal config.recovery_mode (folders_in config) (F.directory files) e) }
    ensures any_moment { Reopens F.directory F.moments F.refusals_of (folders_in config) files
        result.1 result.0 }
    ensures opens { IsOpenedAs F.FileSystem config files result.0 }
{
    match Engine::open_in_order(alloc, config, files) {
        Ok(mut engine) => {
            let found = engine.image();
            (found, engine.give_up())
        }
        Err(refused) => (Err(refused.fault), refused.file_system),
    }
}
