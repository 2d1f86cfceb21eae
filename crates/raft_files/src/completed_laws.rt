//! Which calls bring a log file no record except the written ones.
ghost use Rattle.std.specs.Prelude.{◌≡◌, ◌+◌, ◌<◌, ◌^◌, ◌++◌, ◌∷◌, ℕ, List, [], Some, length, take};
ghost use Rattle.raft_records.specs.Item.{Batch};
ghost use Rattle.raft_records.specs.Record.{record_of};
ghost use Rattle.raft_base.specs.declared.pipe_log.FileId.{FileId};
ghost use Rattle.raft_files.specs.Detectable.{signature_by};
ghost use Rattle.raft_env.specs.Directory.{Directory, IsRestarted, CrashImage, Path};
ghost use Rattle.raft_files.specs.Header.{HasHeader, header_bytes, header_len};
ghost use Rattle.raft_files.specs.Scan.{PlacedRecord, ScanResult, readable_batches, scan_file};
ghost use Rattle.raft_files.specs.Records.{HasLog};
ghost use Rattle.raft_files.specs.Completed.{AreCompletedRecordsAt, HasCompletedLog, HasCompletedRecords, HasSimplePastAt, IsRenamedWithinAt};
ghost use Rattle.raft_files.specs.Writer.{HasChanged, IsAppended, IsAppending, IsClosed, IsCut, IsCutting, IsSynced, bytes_at};
ghost use Rattle.raft_files.specs.declared.format.LogFileFormat.{LogFileFormat};

/// A readable record that no failed call brought and that is not stale stays so in every further
/// call. So calls keep a log of such records if only writes fail. The log may be begun in a new
/// file or in a renamed one (`begun`), or found and cut at the end of its reading (`found`). It may
/// be appended to, synced and closed, and a failed append may be taken back (`undone`). The records
/// stay so at each moment of an append (`appending`) and of a cut (`cutting`), after a crash
/// (`restarted`), and after a cut of such records (`cut`).
pub fn failed_calls_add_no_record()
    ensures log { (path : Path) (id : FileId) (format : LogFileFormat) (batches : List Batch)
        (synced at : ℕ) (n : Directory) → HasCompletedLog path id format batches synced at n
        → HasLog path id format batches synced at n }
    ensures begun { (path : Path) (id : FileId) (format : LogFileFormat) (at : ℕ)
        (old new : Directory) → HasLog path id format [] 0 at new
        → IsRenamedWithinAt path old → HasSimplePastAt path old → HasChanged path IsSynced old new
        → HasCompletedLog path id format [] 0 at new }
    ensures restarted { (path : Path) (id : FileId) (format : LogFileFormat)
        (records : List PlacedRecord)
        (n m : Directory) (d : CrashImage) → IsRestarted n d m
        → AreCompletedRecordsAt path id format records m
        × HasSimplePastAt path m }
    ensures cut { (path : Path) (id : FileId) (r : ScanResult) (size : ℕ) (old cut : Directory)
        → scan_file id (bytes_at path old) ≡ Some r
        → AreCompletedRecordsAt path id r.format r.records old
        → HasSimplePastAt path old → HasChanged path (IsCut size) old cut
        → AreCompletedRecordsAt path id r.format r.records cut × HasSimplePastAt path cut }
    ensures found { (path : Path) (id : FileId) (r : ScanResult) (old cut new : Directory)
        → let found = readable_batches id (bytes_at path old) in
        scan_file id (bytes_at path old) ≡ Some r → bytes_at path cut
        ≡ take r.end (bytes_at path old)
        → AreCompletedRecordsAt path id r.format r.records cut → HasSimplePastAt path cut
        → HasChanged path IsSynced cut new
        → HasCompletedLog path id r.format found (length found) r.end new }
    ensures appended { (path : Path) (id : FileId) (format : LogFileFormat) (batches : List Batch)
        (synced at : ℕ) (old new : Directory) (capacity new_capacity : ℕ) (given : List ℕ)
        (batch : Batch)
        → HasCompletedLog path id format batches synced at old
        → record_of (signature_by id format) given ≡ Some (batch, length given)
        → HasChanged path (IsAppended capacity new_capacity at given) old new
        → HasSimplePastAt path new
        → HasCompletedLog path id format (batches ++ batch ∷ []) synced (at + length given) new }
    ensures appending { (path : Path) (id : FileId) (format : LogFileFormat) (batches : List Batch)
        (synced at : ℕ) (old n : Directory) (capacity new_capacity : ℕ) (given : List ℕ)
        (batch : Batch)
        → HasCompletedLog path id format batches synced at old
        → record_of (signature_by id format) given ≡ Some (batch, length given)
        → HasChanged path (IsAppending capacity new_capacity at given) old n
        → HasCompletedRecords path id format batches synced at n }
    ensures cutting { (path : Path) (id : FileId) (format : LogFileFormat) (batches : List Batch)
        (synced at : ℕ) (old n : Directory)
        → HasCompletedRecords path id format batches synced at old
        → HasChanged path (IsCutting at) old n
        → HasCompletedRecords path id format batches synced at n }
    ensures undone { (path : Path) (id : FileId) (format : LogFileFormat) (batches : List Batch)
        (synced at : ℕ) (old mid new : Directory) (capacity new_capacity : ℕ) (given : List ℕ)
        (batch : Batch) → HasCompletedLog path id format batches synced at old
        → record_of (signature_by id format) given ≡ Some (batch, length given)
        → HasChanged path (IsAppending capacity new_capacity at given) old mid
        → HasChanged path (IsClosed at) mid new → HasSimplePastAt path new
        → HasCompletedLog path id format batches (length batches) at new }
    ensures durable { (path : Path) (id : FileId) (format : LogFileFormat) (batches : List Batch)
        (synced at : ℕ) (old new : Directory) → HasCompletedLog path id format batches synced at old
        → HasChanged path IsSynced old new
        → HasCompletedLog path id format batches (length batches) at new }
    ensures closed { (path : Path) (id : FileId) (format : LogFileFormat) (batches : List Batch)
        (synced at : ℕ) (old new : Directory) → HasCompletedLog path id format batches synced at old
        → HasChanged path (IsClosed at) old new
        → HasCompletedLog path id format batches (length batches) at new }
{}
