//! What a fork opens as.
ghost use Rattle.std.specs.Prelude.{◌≡◌, ◌⊎◌, [], ◌∷◌, None, ℕ};
ghost use Rattle.raft_base.specs.declared.pipe_log.LogQueue.{LogQueue};
ghost use Rattle.raft_env.specs.Directory.{Directory, HasFile, Path};
ghost use Rattle.raft_config.specs.Folders.{Folders};
ghost use Rattle.raft_crash_laws.specs.Contents.{contents_at, known_at};
ghost use Rattle.raft_pipes.specs.Folder.{AreClear, readable_queue};
ghost use Rattle.raft_pipes.specs.Numbered.{AreSingle};
ghost use Rattle.raft_fork.specs.Fork.{AreThereOrEmpty, HasNoLogIn, IsForkOf, IsForking, IsFree, mark_in};

/// A fork has, with the target as its one folder, what its source had: no folder's place is taken
/// (`clear`), no number occurs in two (`single`), and the same batches can be read from each queue
/// (`reads`). So both have the same contents (`contents`) and know the same groups (`known`), and
/// an opening finds these. Each of the source's folders exists, by `FileSystem::is_dir` before the
/// fork, or has no log file.
pub fn a_fork_reads_as_its_source()
    ensures clear { (source : Folders) (target : Path) (n m : Directory)
        → IsForkOf source target n m
        → AreClear (record { main = target; spill = None }) m }
    ensures single { (source : Folders) (target : Path) (n m : Directory)
        → IsForkOf source target n m → (queue : LogQueue) → AreSingle (target ∷ []) queue m }
    ensures reads { (source : Folders) (target : Path) (n m : Directory)
        → IsForkOf source target n m
        → AreThereOrEmpty source n
        → (queue : LogQueue) → readable_queue queue (record { main = target; spill = None }) m
        ≡ readable_queue queue source n }
    ensures contents { (source : Folders) (target : Path) (n m : Directory)
        → IsForkOf source target n m
        → AreThereOrEmpty source n
        → contents_at (record { main = target; spill = None }) m ≡ contents_at source n }
    ensures known { (source : Folders) (target : Path) (n m : Directory)
        → IsForkOf source target n m
        → AreThereOrEmpty source n
        → (group : ℕ) → known_at (record { main = target; spill = None }) m group
        ≡ known_at source n group }
{}

/// At each moment of a fork into a free target, by the clauses of `fork`: the target has no log
/// file, or it has the mark, or the fork is whole.
pub fn a_fork_under_way_is_marked()
    ensures { (source : Folders) (target : Path) (n m : Directory) → IsFree target n
        → IsForking source target n m
        → HasNoLogIn target m ⊎ HasFile m (mark_in target) ⊎ IsForkOf source target n m }
{}
