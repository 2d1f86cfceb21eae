//! The premise on damage can be met.
ghost use Rattle.std.specs.Prelude.{◌≡◌, ◌⊎◌, ◌≤◌, ℕ, List, [], ◌∷◌, length, Option, Some, None, take};
ghost use Rattle.raft_records.specs.Item.{Batch};
ghost use Rattle.raft_base.specs.declared.pipe_log.FileId.{FileId};
ghost use Rattle.raft_base.specs.declared.pipe_log.LogQueue.{LogQueue};
ghost use Rattle.raft_base.specs.declared.pipe_log.Version.{Version};
ghost use Rattle.std.specs.FinMap as finite;
ghost use Rattle.raft_memory.specs.Choice.{AreWhole, choice_for, left_by, touched_before, NameNoBytes};
ghost use Rattle.raft_env.specs.Consistent.{AreConsistent, IsConsistent};
ghost use Rattle.raft_files.specs.Detectable.{EndsWithoutCompressed, IsDetectable};
ghost use Rattle.raft_env.specs.Directory.{Directory, Leaves, CrashImage, Path, file_at};
ghost use Rattle.raft_env.specs.Outcomes.{File, is_touched, untouched_len};
ghost use Rattle.raft_files.specs.Records.{HoldsRecords};
ghost use Rattle.raft_files.specs.Completed.{EndsInZeros, HasCompletedLog, HasCompletedRecords};
ghost use Rattle.raft_queue_laws.specs.DetectableDamage.{EachAddsOnlyItsRecord, HasNoStaleRecord, HasNoStaleRecordOf, IsBrokenFrom, IsReadAsBefore, IsTornAfter, IsTornAsReadOf};
ghost use Rattle.raft_pipes.specs.Completed.{HasSimplePastOf, PipeHasCompletedLogIfSimple};
ghost use Rattle.raft_config.specs.Folders.{Folders, all_of};
ghost use Rattle.raft_pipes.specs.Counts.{QueueCounts};
ghost use Rattle.raft_pipes.specs.Pipe.{HasQueueOf};
ghost use Rattle.raft_pipes.specs.PipeState.{PipeState};
ghost use Rattle.raft_pipes.specs.QueueFiles.{IsDetectableQueue};
ghost use Rattle.raft_memory.specs.declared.crash.Choice.{Choice};
ghost use Rattle.raft_memory.specs.declared.crash.Choice.TheVariants as choice;
ghost use Rattle.raft_files.specs.declared.format.LogFileFormat.{LogFileFormat};

/// The premise can be met. Storage may leave each consistent file in three ways (`allowed`): with
/// all its bytes now, with those of its last sync, or torn. In a torn file only the first few of
/// the places touched since the sync hold their bytes. Untouched bytes are left as they were
/// (`untouched`).
///
/// Suppose that no failed call brought the records of a file. Then a crash has detectable damage if
/// it leaves the first of them as they are now and after them none that decodes (`first_records`).
/// A torn file that keeps the first ones is such a case (`torn`). Zeros do not decode (`zeros`), so
/// all bytes, or those of the last sync, are a case too (`detectable`).
///
/// A renamed file may hold stale bytes. If nothing was written since, no record may decode in it
/// (`HasNoStaleRecord`), as in a file that was never renamed (`never_renamed`). For a file in any
/// state two conditions suffice (`own`). No call brought a record except the one that it was to
/// write. And the readable records are a prefix of those at a moment since the last sync. All bytes
/// meet the second one (`read_now`), and so do those of the last sync (`read_synced`).
pub fn premise_can_be_met()
    ensures allowed { (choices : List Choice) (n : Directory) → NameNoBytes choices
        → AreConsistent n → Leaves n (left_by choices n) }
    ensures untouched { (choices : List Choice) (n : Directory) → NameNoBytes choices
        → AreConsistent n → (path : Path) (file : File) → file_at n path ≡ Some file
        → let len = untouched_len file.synced file.changes in
        take len (left_by choices n path) ≡ take len file.synced }
    ensures first_records { (path : Path) (id : FileId) (format : LogFileFormat)
        (batches : List Batch)
        (synced at : ℕ) (n : Directory)
        (held : HasCompletedRecords path id format batches synced at n)
        → HasNoStaleRecord id held.file → AreConsistent n → (d : CrashImage) → Leaves n d
        → IsTornAfter id format held.records held.file (d path) → IsDetectable path id n d }
    ensures torn { (path : Path) (id : FileId) (format : LogFileFormat) (batches : List Batch)
        (synced at : ℕ) (n : Directory)
        (held : HasCompletedRecords path id format batches synced at n)
        → HasNoStaleRecord id held.file → AreConsistent n
        → (choices : List Choice) (kept fill count end : ℕ)
        → choice_for choices (finite.keys n.files) path ≡ choice.Torn kept fill
        → HoldsRecords id format (take count held.records) end held.file.now
        → touched_before (is_touched held.file.changes) end ≤ kept
        → IsBrokenFrom id format end (left_by choices n path)
        → IsDetectable path id n (left_by choices n) }
    ensures zeros { (id : FileId) (format : LogFileFormat) (at : ℕ) (bytes : List ℕ)
        → EndsInZeros at bytes → IsBrokenFrom id format at bytes }
    ensures detectable { (path : Path) (id : FileId) (format : LogFileFormat) (batches : List Batch)
        (synced at : ℕ) (n : Directory) (log : HasCompletedLog path id format batches synced at n)
        → HasNoStaleRecord id log.held.file
        → AreConsistent n → (choices : List Choice) → AreWhole choices
        → IsDetectable path id n (left_by choices n) }
    ensures never_renamed { (id : FileId) (file : File) → file.renamed_after ≡ None
        → HasNoStaleRecord id file }
    ensures own { (path : Path) (id : FileId) (n : Directory) (file : File)
        → file_at n path ≡ Some file → file.renamed_after ≡ None → AreConsistent n
        → EachAddsOnlyItsRecord id file
        → (choices : List Choice) → NameNoBytes choices
        → IsReadAsBefore id file (left_by choices n path)
        → IsDetectable path id n (left_by choices n) }
    ensures read_now { (id : FileId) (file : File) → IsConsistent file
        → EndsWithoutCompressed id file.now
        → IsReadAsBefore id file file.now }
    ensures read_synced { (id : FileId) (file : File) → EndsWithoutCompressed id file.synced
        → IsReadAsBefore id file file.synced }
{}

/// The damage of a crash is detectable for a queue if each file is left with all its bytes now, or
/// with those of its last sync (`detectable`). There are three conditions. Only writes failed on
/// its last file. No failed call brought a record. If that file was renamed, nothing decodes that
/// it held then. The same holds for a crash that leaves of the last file the first of its readable
/// records, and after them none that decodes (`first_records`). Openings of `raft_pipes` return
/// such queues, and the calls of pipes keep them.
pub fn damage_of_a_queue_is_detectable()
    ensures detectable { (queue : LogQueue) (p : PipeState) (folders : Folders)
        (batches : List Batch) (counts : QueueCounts) (n : Directory)
        → HasQueueOf queue p folders batches counts n
        → PipeHasCompletedLogIfSimple p n → HasSimplePastOf queue folders n
        → HasNoStaleRecordOf queue folders n → AreConsistent n
        → (choices : List Choice) → AreWhole choices
        → ∥ IsDetectableQueue (all_of folders) queue n (left_by choices n) ∥₁ }
    ensures first_records { (queue : LogQueue) (p : PipeState) (folders : Folders)
        (batches : List Batch) (counts : QueueCounts) (n : Directory)
        → HasQueueOf queue p folders batches counts n
        → PipeHasCompletedLogIfSimple p n → HasSimplePastOf queue folders n
        → HasNoStaleRecordOf queue folders n → AreConsistent n
        → (d : CrashImage) → Leaves n d → IsTornAsReadOf queue folders n d
        → ∥ IsDetectableQueue (all_of folders) queue n d ∥₁ }
{}
