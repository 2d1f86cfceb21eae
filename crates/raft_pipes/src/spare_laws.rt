//! What a queue keeps when a file with a number below its own goes.
ghost use Rattle.std.specs.Prelude.{◌≡◌, ◌⊎◌, ◌<◌, ◌≤◌, ◌+◌, ◌++◌, ◌∷◌, ℕ, List, [], suc, length, take, drop, None};
ghost use Rattle.raft_records.specs.Item.{Batch};
ghost use Rattle.raft_base.specs.declared.pipe_log.LogQueue.{LogQueue};
ghost use Rattle.raft_env.specs.Directory.{CrashImage, Directory, HasFile, Path, after_rename, file_at, without_file};
ghost use Rattle.raft_files.specs.Records.{RecoversPrefixAt};
ghost use Rattle.raft_pipes.specs.Numbered.{IsPathOf, in_queue};
ghost use Rattle.raft_pipes.specs.QueueFiles.{HasFilesAfter, HasFilesBefore, IsDetectableQueue, IsKeptQueue, IsNoPathOf, LeavesSynced, QueueFile, batches_with, counts_after, queue_after_crash};
ghost use Rattle.raft_pipes.specs.Counts.{IsLeftOf, QueueCounts};

/// A queue with files of dropped batches directly before its own. Any file with a number below its
/// own may go (`gone`), and come under the number after the last one (`renamed`). Its first own
/// file may be dropped (`dropped`). At each such moment a crash leaves its batches without some of
/// the dropped and of the unsynced ones (`keeps`, `left`), which are split in that way (`split`). A
/// queue without dropped ones is one of them (`own`).
pub fn files_below_may_go()
    ensures own { (folders : List Path) (queue : LogQueue) (first : ℕ) (before : List QueueFile)
        (seq : ℕ) (path : Path) (n : Directory)
        → HasFilesBefore folders queue first before seq path n
        → HasFilesAfter folders queue first [] before seq path n }
    ensures gone { (folders : List Path) (queue : LogQueue) (own : ℕ) (dropped : List Batch)
        (before : List QueueFile) (seq : ℕ) (path : Path) (old : Directory)
        → HasFilesAfter folders queue own dropped before seq path old → (k : ℕ) (spare : Path)
        → IsPathOf folders queue k spare → k < own → (suc k < seq) ⊎ HasFile old path
        → HasFilesAfter folders queue own dropped before seq path (without_file spare old) }
    ensures renamed { (folders : List Path) (queue : LogQueue) (own : ℕ) (dropped : List Batch)
        (before : List QueueFile) (seq : ℕ) (path : Path) (old : Directory)
        → HasFilesAfter folders queue own dropped before seq path old → file_at old path ≡ None
        → (k : ℕ) (spare : Path) → IsPathOf folders queue k spare → k < own
        → 0 < length before → HasFile old spare
        → HasFilesAfter folders queue own dropped before seq path (after_rename spare path old) }
    ensures reserved { (folders : List Path) (queue : LogQueue) (own : ℕ) (dropped : List Batch)
        (before : List QueueFile) (seq : ℕ) (path : Path) (old : Directory)
        → HasFilesAfter folders queue own dropped before seq path old → file_at old path ≡ None
        → (spare : Path) → IsNoPathOf folders queue spare → HasFile old spare
        → HasFilesAfter folders queue own dropped before seq path (after_rename spare path old) }
    ensures set_aside { (folders : List Path) (queue : LogQueue) (own : ℕ) (dropped : List Batch)
        (before : List QueueFile) (seq : ℕ) (path : Path) (old : Directory)
        → HasFilesAfter folders queue own dropped before seq path old → (k : ℕ) (spare to : Path)
        → IsPathOf folders queue k spare → k < own → (suc k < seq) ⊎ HasFile old path
        → IsNoPathOf folders queue to → HasFile old spare
        → HasFilesAfter folders queue own dropped before seq path (after_rename spare to old) }
    ensures dropped { (folders : List Path) (queue : LogQueue) (own : ℕ) (dropped : List Batch)
        (f : QueueFile) (before : List QueueFile) (seq : ℕ) (path : Path) (n : Directory)
        → HasFilesAfter folders queue own dropped (f ∷ before) seq path n
        → HasFilesAfter folders queue (suc own) (dropped ++ f.batches) before seq path n }
    ensures keeps { (folders : List Path) (queue : LogQueue) (own : ℕ) (dropped : List Batch)
        (before : List QueueFile) (last : QueueFile) (more : ℕ) (n : Directory)
        → HasFilesAfter folders queue own dropped before last.seq last.path n
        → RecoversPrefixAt last.path (in_queue queue last.seq) last.batches more n
        → IsKeptQueue folders queue (dropped ++ batches_with before last)
        (counts_after dropped before more) n }
    ensures left { (folders : List Path) (queue : LogQueue) (batches : List Batch)
        (counts : QueueCounts) (n : Directory) → IsKeptQueue folders queue batches counts n
        → (d : CrashImage) → LeavesSynced n d → IsDetectableQueue folders queue n d
        → IsLeftOf batches counts (queue_after_crash folders queue n d) }
    ensures split { (older synced since found : List Batch)
        → IsLeftOf (older ++ (synced ++ since)) (record {
          dropped = length older;
          synced = length older + length synced;
        }) found → (i : ℕ) × (k : ℕ) × (k ≤ length since)
        × (found ≡ drop i older ++ (synced ++ take k since)) }
{}
