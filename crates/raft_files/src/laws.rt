//! What holds for the records of files, whoever writes or reads them.
ghost use Rattle.std.specs.Prelude.{◌≡◌, ◌+◌, ◌<◌, ◌^◌, ◌++◌, ◌∷◌, ℕ, List, [], true, None, Some, length, take};
ghost use Rattle.std.specs.List.{take_while};
ghost use Rattle.raft_base.specs.FileId.{signature_in};
ghost use Rattle.raft_records.specs.Item.{Batch};
ghost use Rattle.raft_records.specs.Record.{record_bytes, record_of};
ghost use Rattle.raft_records.specs.RecordLimits.{FitsRecord};
ghost use Rattle.raft_base.specs.declared.pipe_log.FileId.{FileId};
ghost use Rattle.raft_files.specs.Detectable.{IsDetectable, signature_by};
ghost use Rattle.raft_env.specs.Directory.{Directory, IsOneOf, IsRestarted, IsTruncating, HasFile, Leaves, CrashImage, Path, after_create, file_at, after_rename};
ghost use Rattle.raft_files.specs.Header.{HasHeader, header_bytes, header_len, header_of};
ghost use Rattle.raft_files.specs.Scan.{ScanResult, end_of_scan, is_read_to_end, readable_batches, readable_records, scan_file};
ghost use Rattle.raft_files.specs.Replay.{has_sound_block_at, replayed_records};
ghost use Rattle.raft_files.specs.Records.{FirstOf, HasLog, HasTornLog, RecoversPrefixAt, batches_after_crash, bytes_after_crash};
ghost use Rattle.raft_files.specs.Sealed.{IsSealed};
ghost use Rattle.raft_files.specs.Writer.{HasChanged, IsAppended, IsAppending, IsClosed, IsClosing, IsOpening, IsSynced, IsSyncing, bytes_at};
ghost use Rattle.raft_files.specs.declared.format.LogFileFormat.{LogFileFormat};

/// A file with only a header is read to its end and has no batch. A record that is appended to a
/// file that is read to its end adds one batch, and the file is read to its end again.
pub fn appended_record_is_read()
    ensures header { (id : FileId) (format : LogFileFormat) → HasHeader format
        → format.alignment < 2 ^ 64 → (readable_batches id (header_bytes format) ≡ [])
        × (is_read_to_end id (header_bytes format) ≡ true) }
    ensures appended { (id : FileId) (format : LogFileFormat) (bytes rest : List ℕ) (items : Batch)
        → header_of bytes ≡ Some (format, rest) → is_read_to_end id bytes ≡ true → FitsRecord items
        → let more = record_bytes (signature_in format.version id.seq) items in
        (readable_batches id (bytes ++ more) ≡ readable_batches id bytes ++ items ∷ [])
        × (is_read_to_end id (bytes ++ more) ≡ true) }
{}

/// Bytes after the read ones hide none of their batches.
pub fn more_bytes_hide_no_batch()
    ensures value { (id : FileId) (bytes more : List ℕ) → (later : List Batch)
        × (readable_batches id (bytes ++ more) ≡ readable_batches id bytes ++ later) }
{}

/// A replay reads no entries block: the readable batches of a file are the longest prefix of those
/// that a replay takes in which all blocks are sound.
pub fn readable_records_are_the_replayed_with_sound_blocks()
    ensures value { (id : FileId) (bytes : List ℕ) → readable_records id bytes
        ≡ take_while (λ p. has_sound_block_at bytes p.at) (replayed_records id bytes) }
{}

/// What a crash leaves of a log file, if damage is detectable: a prefix of its batches, with all
/// synced ones (`left`). That holds between two calls and while the file is synced or closed;
/// inside an append, and after a failed one, possibly also with the batch that is written.
/// Everything that a crash left is synced. Without a file nothing is left (`none`), more batches
/// may be allowed (`more`), and a change of other files changes none of it (`beside`). The moments
/// of a writer's calls are those that `LogFileWriter` names.
pub fn crash_of_a_file_leaves_a_prefix()
    ensures left { (path : Path) (id : FileId) (batches : List Batch) (synced : ℕ) (n : Directory)
        → RecoversPrefixAt path id batches synced n → (d : CrashImage) → Leaves n d
        → IsDetectable path id n d
        → FirstOf batches synced (batches_after_crash path id n d) }
    ensures between { (path : Path) (id : FileId) (format : LogFileFormat) (batches : List Batch)
        (synced at : ℕ) (n : Directory) → HasLog path id format batches synced at n
        → RecoversPrefixAt path id batches synced n }
    ensures refused { (path : Path) (id : FileId) (format : LogFileFormat)
        (batches in_flight : List Batch) (synced at : ℕ) (n : Directory)
        → HasTornLog path id format batches in_flight synced at n
        → RecoversPrefixAt path id (batches ++ in_flight) synced n }
    ensures appending { (path : Path) (id : FileId) (format : LogFileFormat) (batches : List Batch)
        (synced at : ℕ) (old n : Directory) (capacity new_capacity : ℕ) (given : List ℕ)
        (batch : Batch)
        → HasLog path id format batches synced at old
        → record_of (signature_by id format) given ≡ Some (batch, length given)
        → HasChanged path (IsAppending capacity new_capacity at given) old n
        → RecoversPrefixAt path id (batches ++ batch ∷ []) synced n }
    ensures syncing { (path : Path) (id : FileId) (batches : List Batch) (synced : ℕ)
        (old n : Directory) → RecoversPrefixAt path id batches synced old
        → HasChanged path IsSyncing old n
        → RecoversPrefixAt path id batches synced n }
    ensures closing { (path : Path) (id : FileId) (format : LogFileFormat) (batches : List Batch)
        (synced at : ℕ) (old n : Directory) → HasLog path id format batches synced at old
        → HasChanged path (IsClosing at) old n → RecoversPrefixAt path id batches synced n }
    ensures torn_closing { (path : Path) (id : FileId) (format : LogFileFormat)
        (batches in_flight : List Batch) (synced at : ℕ) (old n : Directory)
        → HasTornLog path id format batches in_flight synced at old
        → HasChanged path (IsClosing at) old n → RecoversPrefixAt path id
        (batches ++ in_flight) synced n }
    ensures restarted { (path : Path) (id : FileId) (n m : Directory) (d : CrashImage)
        → IsRestarted n d m
        → let found = batches_after_crash path id n d in RecoversPrefixAt path id found
        (length found) m }
    ensures none { (path : Path) (id : FileId) (batches : List Batch) (n : Directory)
        → file_at n path ≡ None → RecoversPrefixAt path id batches 0 n }
    ensures more { (path : Path) (id : FileId) (batches more : List Batch) (synced : ℕ)
        (n : Directory) → RecoversPrefixAt path id batches synced n
        → RecoversPrefixAt path id (batches ++ more) synced n }
    ensures beside { (path : Path) (id : FileId) (batches : List Batch) (synced : ℕ)
        (old n : Directory) → file_at n path ≡ file_at old path
        → RecoversPrefixAt path id batches synced old → RecoversPrefixAt path id batches synced n }
{}

/// What a writer's calls make of a log file. A header that is synced is a log without batches
/// (`begun`), an append adds its batch, and after a sync all batches are synced. A failed append
/// may have left its record after the log (`torn`); the log that is then closed does not hold it
/// (`torn_closed`). A change of other files leaves the log as it is (`beside`).
pub fn a_writer_keeps_its_log()
    ensures begun { (path : Path) (id : FileId) (format : LogFileFormat) (old new : Directory)
        → HasHeader format → format.alignment < 2 ^ 64 → bytes_at path old ≡ header_bytes format
        → HasChanged path IsSynced old new
        → HasLog path id format [] 0 (header_len format.version) new }
    ensures appended { (path : Path) (id : FileId) (format : LogFileFormat) (batches : List Batch)
        (synced at : ℕ) (old new : Directory) (capacity new_capacity : ℕ) (given : List ℕ)
        (batch : Batch)
        → HasLog path id format batches synced at old
        → record_of (signature_by id format) given ≡ Some (batch, length given)
        → HasChanged path (IsAppended capacity new_capacity at given) old new
        → HasLog path id format (batches ++ batch ∷ []) synced (at + length given) new }
    ensures durable { (path : Path) (id : FileId) (format : LogFileFormat) (batches : List Batch)
        (synced at : ℕ) (old new : Directory) → HasLog path id format batches synced at old
        → HasChanged path IsSynced old new → HasLog path id format batches (length batches) at new }
    ensures closed { (path : Path) (id : FileId) (format : LogFileFormat) (batches : List Batch)
        (synced at : ℕ) (old new : Directory) → HasLog path id format batches synced at old
        → HasChanged path (IsClosed at) old new
        → HasLog path id format batches (length batches) at new }
    ensures torn { (path : Path) (id : FileId) (format : LogFileFormat) (batches : List Batch)
        (synced at : ℕ) (old n : Directory) (capacity new_capacity : ℕ) (given : List ℕ)
        (batch : Batch)
        → HasLog path id format batches synced at old
        → record_of (signature_by id format) given ≡ Some (batch, length given)
        → HasChanged path (IsAppending capacity new_capacity at given) old n
        → HasTornLog path id format batches (batch ∷ []) synced at n }
    ensures torn_closed { (path : Path) (id : FileId) (format : LogFileFormat)
        (batches in_flight : List Batch) (synced at : ℕ) (old new : Directory)
        → HasTornLog path id format batches in_flight synced at old
        → HasChanged path (IsClosed at) old new
        → HasLog path id format batches (length batches) at new }
    ensures beside { (path : Path) (id : FileId) (format : LogFileFormat) (batches : List Batch)
        (synced at : ℕ) (old n : Directory) → file_at n path ≡ file_at old path
        → HasLog path id format batches synced at old → HasLog path id format batches synced at n }
{}

/// A closed log file is sealed (`sealed`): a crash leaves all of it, with no premise on damage
/// (`left`). It stays sealed after a crash (`restarted`), while other files change (`beside`), and
/// at each moment of a further closing (`closing`).
pub fn a_sealed_file_stays()
    ensures left { (path : Path) (id : FileId) (batches : List Batch) (n : Directory)
        → IsSealed path id batches n → (d : CrashImage) → Leaves n d
        → (batches_after_crash path id n d ≡ batches) × (is_read_to_end id
        (bytes_after_crash path n d) ≡ true) }
    ensures sealed { (path : Path) (id : FileId) (format : LogFileFormat) (batches : List Batch)
        (synced at : ℕ) (old new : Directory) → HasLog path id format batches synced at old
        → HasChanged path (IsClosed at) old new → IsSealed path id batches new }
    ensures restarted { (path : Path) (id : FileId) (batches : List Batch) (n m : Directory)
        (d : CrashImage) → IsSealed path id batches n → Leaves n d → IsRestarted n d m
        → IsSealed path id batches m }
    ensures beside { (path : Path) (id : FileId) (batches : List Batch) (old n : Directory)
        → file_at n path ≡ file_at old path → IsSealed path id batches old
        → IsSealed path id batches n }
    ensures closing { (path : Path) (id : FileId) (batches : List Batch) (at : ℕ)
        (old n : Directory) → IsSealed path id batches old → at ≡ length (bytes_at path old)
        → HasChanged path (IsClosing at) old n
        → IsSealed path id batches n × (bytes_at path n ≡ bytes_at path old) }
{}

/// An opening loses nothing of a log file. A crash leaves what it could leave before the opening:
/// while the file is made, while it is cut at the end of its reading, and while a header is written
/// into an empty file. Cut and synced, the file is a log with all its readable batches. A renamed
/// log file may hold its old bytes. None of these is found under the new name (`renamed`), also
/// while a new header is written over it (`reusing`). Once that header is synced the file is a log
/// without batches (`reused`).
pub fn opening_keeps_the_log()
    ensures created { (path : Path) (id : FileId) (batches : List Batch) (synced : ℕ)
        (old n : Directory) → RecoversPrefixAt path id batches synced old → IsOneOf old
        (after_create path old) n
        → RecoversPrefixAt path id batches synced n }
    ensures truncating { (path : Path) (id : FileId) (batches : List Batch) (synced : ℕ)
        (old n : Directory) → RecoversPrefixAt path id batches synced old
        → IsTruncating path (end_of_scan id (bytes_at path old)) old n
        → RecoversPrefixAt path id batches synced n }
    ensures header { (path : Path) (id : FileId) (format : LogFileFormat) (batches : List Batch)
        (synced : ℕ) (old n : Directory) → RecoversPrefixAt path id batches synced old
        → bytes_at path old ≡ [] → IsOpening path format old n
        → RecoversPrefixAt path id batches synced n }
    ensures found { (path : Path) (id : FileId) (r : ScanResult) (old cut new : Directory)
        → let found = readable_batches id (bytes_at path old) in
        scan_file id (bytes_at path old) ≡ Some r → bytes_at path cut
        ≡ take r.end (bytes_at path old)
        → HasChanged path IsSynced cut new
        → HasLog path id r.format found (length found) r.end new }
    ensures renamed { (src path : Path) (id : FileId) (old : Directory) → HasFile old src
        → RecoversPrefixAt path id [] 0 (after_rename src path old) }
    ensures reusing { (src path : Path) (id : FileId) (format : LogFileFormat) (old n : Directory)
        (capacity new_capacity : ℕ) → HasFile old src → HasHeader format
        → format.alignment < 2 ^ 64
        → HasChanged path (IsAppending capacity new_capacity 0 (header_bytes format))
        (after_rename src path old) n → RecoversPrefixAt path id [] 0 n }
    ensures reused { (src path : Path) (id : FileId) (format : LogFileFormat)
        (old mid new : Directory) (capacity new_capacity : ℕ) → HasFile old src
        → HasHeader format → format.alignment < 2 ^ 64
        → HasChanged path (IsAppended capacity new_capacity 0 (header_bytes format))
        (after_rename src path old) mid → HasChanged path IsSynced mid new
        → HasLog path id format [] 0 (header_len format.version) new }
{}
