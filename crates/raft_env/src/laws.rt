//! What holds for files, whatever calls were made.
ghost use Rattle.std.specs.Prelude.{◌≡◌, ◌≢◌, ◌++◌, ◌↔◌, ℕ, List, Some, None, true};
ghost use Rattle.std.specs.List.{Contains};
ghost use Rattle.raft_env.specs.Consistent.{AreConsistent};
ghost use Rattle.raft_env.specs.Directory.{Directory, IsOneOf, IsAllocating, IsMakingFolder, IsRestarted, IsTruncating, IsWriting, CrashImage, HasFile, Path, is_name, names_in, path_in, file_at, update_file, after_create, after_rename, without_file};
ghost use Rattle.raft_env.specs.Outcomes.{File, IsStaleAfter, MayLeave, renamed_of, synced_of};

/// Each call keeps files consistent. Outside the ranges of its changes a file holds the bytes of
/// its last sync, and each change began with the bytes that the one before it left. Files after a
/// crash are consistent.
pub fn calls_keep_files_consistent()
    ensures writing { (path : Path) (at : ℕ) (given : List ℕ) (old n : Directory)
        → AreConsistent old → IsWriting path at given old n → AreConsistent n }
    ensures allocating { (path : Path) (size : ℕ) (old n : Directory) → AreConsistent old
        → IsAllocating path size old n → AreConsistent n }
    ensures truncating { (path : Path) (size : ℕ) (old n : Directory) → AreConsistent old
        → IsTruncating path size old n → AreConsistent n }
    ensures syncing { (path : Path) (old n : Directory) → AreConsistent old
        → IsOneOf old (update_file path synced_of old) n → AreConsistent n }
    ensures creating { (path : Path) (old n : Directory) → AreConsistent old
        → IsOneOf old (after_create path old) n → AreConsistent n }
    ensures deleting { (path : Path) (old n : Directory) → AreConsistent old
        → IsOneOf old (without_file path old) n → AreConsistent n }
    ensures renaming { (from to : Path) (old n : Directory) → AreConsistent old
        → IsOneOf old (after_rename from to old) n → AreConsistent n }
    ensures folders { (path : Path) (old n : Directory) → AreConsistent old
        → IsMakingFolder path old n → AreConsistent n }
    ensures restarted { (n m : Directory) (d : CrashImage) → IsRestarted n d m → AreConsistent m }
{}

/// A deletion removes one file (`deleted`). A renaming moves one (`renamed`, `moved`), which keeps
/// its bytes and what a crash may leave of them (`left`); all its places are stale (`stale`). All
/// other paths keep their files (`kept`, `others`).
pub fn other_files_stay()
    ensures deleted { (path : Path) (n : Directory) → file_at (without_file path n) path ≡ None }
    ensures kept { (path other : Path) (n : Directory) → other ≢ path
        → file_at (without_file path n) other ≡ file_at n other }
    ensures renamed { (from to : Path) (n : Directory) (file : File) → file_at n from ≡ Some file
        → file_at (after_rename from to n) to ≡ Some (renamed_of file) }
    ensures moved { (from to : Path) (n : Directory) → from ≢ to
        → file_at (after_rename from to n) from ≡ None }
    ensures others { (from to other : Path) (n : Directory) → other ≢ from → other ≢ to
        → file_at (after_rename from to n) other ≡ file_at n other }
    ensures left { (file : File) (left : List ℕ) → ((renamed_of file).now ≡ file.now)
        × (MayLeave (renamed_of file) left ↔ MayLeave file left) }
    ensures stale { (file : File) (i : ℕ) → let renamed = renamed_of file in
        IsStaleAfter renamed.renamed_after (renamed.changes ++ renamed.older) i }
{}

/// A folder lists a name exactly if a file is at its path in the folder.
pub fn a_folder_lists_its_files()
    ensures { (folder : Path) (name : List ℕ) (n : Directory) → Contains (names_in folder n) name
        ↔ ((is_name name ≡ true) × HasFile n (path_in folder name)) }
{}
