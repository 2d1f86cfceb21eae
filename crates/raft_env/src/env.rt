//! The contract of storage: files by their paths, and what a crash at each moment may leave of
//! them.
ghost use Rattle.std.specs.Prelude.{◌≡◌, ◌⊎◌, ◌↔◌, ◌<◌, ◌+◌, ◌^◌, [], ◌∷◌, List, ℕ, Bool, true, false, length, take, map, IfOk, OnOk, OnErr, Some, is_some};
ghost use Rattle.std.specs.String.{string_bytes};
ghost use Rattle.raft_env.specs.Outcomes.{File, file_after_write, file_after_resize, synced_of, overlay, pad_to};
ghost use Rattle.raft_env.specs.Directory.{Path, Directory, file_at, update_file, after_create, after_rename, without_file, folder_made, IsWriting, IsTruncating, IsAllocating, IsMakingFolder, IsOneOf, IsPartAt, ReadsAt, names_in, HasFile};
ghost use Rattle.raft_env.specs.Moments.{MovesBy, OnlyReads};
ghost use Rattle.raft_env.specs.Refusal.{CountsRefusalOf, Refusals, added_count, no_refusals};
ghost use Rattle.raft_env.specs.declared.env.FsFault.TheVariants.{Memory};

use raft_base::Fault;
pub use raft_base::IoKind;
use std::alloc::{AllocError, AllocFailed, Global};

#[derive(Clone, Copy, Debug, PartialEq, Eq)]
pub enum Permission {
    ReadOnly,
    ReadWrite,
}

/// Why a file call failed: by storage, or for lack of memory, which only clauses count.
#[derive(Clone, Copy, Debug, PartialEq, Eq)]
pub enum FsFault {
    Io(IoKind),
    Memory,
}

impl FsFault {
    ghost use Rattle.raft_env.specs.Refusal.{RefusalsRoseForFault, CountsRefusal, FailsAt, FailsCountedAt, IsFaultOf, NamesFile};

    /// The fault of a call on the file at the path. It names no file if there is no memory for
    /// that.
    pub fn with_path(self, alloc: Global, path: &str) -> Fault
        ensures value { IsFaultOf path.now self result }
        ensures cause { (old new : Refusals) → RefusalsRoseForFault self old new
            → FailsAt (NamesFile path.now) old new result }
        ensures refused { (old new : Refusals) → CountsRefusal self old new
            → FailsCountedAt (NamesFile path.now) old new result }
        ensures never_failed { result ≡ Fault.Failed → ⊥ }
    {
        match self {
            FsFault::Memory => Fault::Memory,
            FsFault::Io(kind) => Fault::Io(kind, named(alloc, path)),
        }
    }
}

// The path, or nothing where there is no memory for it.
fn named(alloc: Global, path: &str) -> String
    ensures { (string_bytes result ≡ path.now) ⊎ (string_bytes result ≡ []) }
{
    match String::from_str(alloc, path) {
        Ok(path) => path,
        Err(_) => String::new(alloc),
    }
}

impl From<AllocError> for FsFault {
    ghost from_gives = { λ _ e. e ≡ Memory };

    fn from(_: AllocError) -> FsFault {
        FsFault::Memory
    }
}

impl<T: Drop> From<AllocFailed<T>> for FsFault {
    ghost from_gives = { λ _ e. e ≡ Memory };

    fn from(_: AllocFailed<T>) -> FsFault {
        FsFault::Memory
    }
}

/// Files by their paths. A path is never normalised: its folder is the text before its last `/`,
/// and the empty path is the root. A handle, a reader or a writer means the file that is at its
/// path when it is used.
pub trait FileSystem: Send + Sync {
    type Handle: Send + Drop;

    type Reader: Send + Drop;

    type Writer: Send + Drop;

    /// The files as they are now.
    ghost directory: { Self → Directory };

    /// Each directory that there was, the newest first. A crash comes at one of these moments.
    ghost moments: { Self → List Directory };

    /// How many calls failed.
    ghost refusals_of: { Self → Refusals };

    ghost handle_path: { Self.Handle → Path };

    ghost may_write: { Self.Handle → Bool };

    ghost reader_path: { Self.Reader → Path };

    ghost reader_refusals: { Self.Reader → Refusals };

    ghost writer_path: { Self.Writer → Path };

    /// Whether a path has metadata, which are separate from the files.
    ghost metadata_of: { Self → Path → Bool };

    /// The free space of a folder, as last reported.
    ghost free_at: { Self → Path → ℕ };

    /// Makes a file without bytes. If the path has a file, that file stays.
    fn create(&mut self, path: &str) -> Result<Self::Handle, FsFault>
        ensures handle { IfOk result (λ h. (handle_path h ≡ path.now) × (may_write h ≡ true)) }
        ensures ok { OnOk result (directory self.new ≡ after_create path.now (directory self.old)) }
        ensures err { OnErr result (directory self.new ≡ directory self.old) }
        ensures any_moment { MovesBy directory moments refusals_of (λ old. IsOneOf old
            (after_create path.now old))
            self.old self.new }
        ensures counts { CountsRefusalOf result (refusals_of self.old) (refusals_of self.new) };

    fn open(&mut self, path: &str, permission: Permission) -> Result<Self::Handle, FsFault>
        ensures handle { IfOk result (λ h. (handle_path h ≡ path.now)
            × HasFile (directory self.old) path.now) }
        ensures may_write { IfOk result (λ h. may_write h ≡ true
            ↔ (permission ≡ Permission.ReadWrite)) }
        ensures unchanged { OnlyReads directory moments refusals_of self.old self.new }
        ensures counts { CountsRefusalOf result (refusals_of self.old) (refusals_of self.new) };

    /// Deletes the file. A handle of it finds no file afterwards.
    fn delete(&mut self, path: &str) -> Result<(), FsFault>
        ensures value { OnOk result (HasFile (directory self.old) path.now) }
        ensures ok { OnOk result (directory self.new ≡ without_file path.now (directory self.old)) }
        ensures err { OnErr result (directory self.new ≡ directory self.old) }
        ensures any_moment { MovesBy directory moments refusals_of (λ old. IsOneOf old
            (without_file path.now old))
            self.old self.new }
        ensures counts { CountsRefusalOf result (refusals_of self.old) (refusals_of self.new) };

    /// Renames the file. It keeps its bytes and what a crash may leave of them, and all its places
    /// are stale. A file at the other path is replaced. A handle of either path means the file that
    /// is there afterwards.
    fn rename(&mut self, from: &str, to: &str) -> Result<(), FsFault>
        ensures value { OnOk result (HasFile (directory self.old) from.now) }
        ensures ok { OnOk result (directory self.new
            ≡ after_rename from.now to.now (directory self.old)) }
        ensures err { OnErr result (directory self.new ≡ directory self.old) }
        ensures any_moment { MovesBy directory moments refusals_of (λ old. IsOneOf old
            (after_rename from.now to.now old))
            self.old self.new }
        ensures counts { CountsRefusalOf result (refusals_of self.old) (refusals_of self.new) };

    /// As `rename`, for a file whose bytes are to be overwritten.
    fn reuse(&mut self, from: &str, to: &str) -> Result<(), FsFault>
        ensures value { OnOk result (HasFile (directory self.old) from.now) }
        ensures ok { OnOk result (directory self.new
            ≡ after_rename from.now to.now (directory self.old)) }
        ensures err { OnErr result (directory self.new ≡ directory self.old) }
        ensures any_moment { MovesBy directory moments refusals_of (λ old. IsOneOf old
            (after_rename from.now to.now old))
            self.old self.new }
        ensures counts { CountsRefusalOf result (refusals_of self.old) (refusals_of self.new) }
    {
        self.rename(from, to)
    }

    /// If only the opening fails, the file stays renamed.
    fn reuse_and_open(&mut self, from: &str, to: &str) -> Result<Self::Handle, FsFault>
        ensures handle { IfOk result (λ h. (handle_path h ≡ to.now) × (may_write h ≡ true)) }
        ensures value { OnOk result (HasFile (directory self.old) from.now) }
        ensures ok { OnOk result (directory self.new
            ≡ after_rename from.now to.now (directory self.old)) }
        ensures any_moment { MovesBy directory moments refusals_of (λ old. IsOneOf old
            (after_rename from.now to.now old))
            self.old self.new }
        ensures counts { CountsRefusalOf result (refusals_of self.old) (refusals_of self.new) }
    {
        self.reuse(from, to)?;
        self.open(to, Permission::ReadWrite)
    }

    fn new_reader(&mut self, handle: &Self::Handle) -> Result<Self::Reader, FsFault>
        ensures reader { IfOk result (λ r. (reader_path r ≡ handle_path handle.now)
            × (reader_refusals r ≡ no_refusals)) }
        ensures unchanged { OnlyReads directory moments refusals_of self.old self.new }
        ensures counts { CountsRefusalOf result (refusals_of self.old) (refusals_of self.new) };

    /// Adds the reader's refusals to those of the file system.
    fn end_reader(&mut self, reader: Self::Reader)
        ensures unchanged { OnlyReads directory moments refusals_of self.old self.new }
        ensures counts { refusals_of self.new ≡ added_count (refusals_of self.old)
            (reader_refusals reader) };

    /// Fails with `Other` for a handle that was opened only for reading.
    fn new_writer(&mut self, handle: &Self::Handle) -> Result<Self::Writer, FsFault>
        ensures writer { IfOk result (λ w. (writer_path w ≡ handle_path handle.now)
            × (may_write handle.now ≡ true)) }
        ensures cause { may_write handle.now ≡ false → result ≡ Err (FsFault.Io IoKind.Other) }
        ensures unchanged { OnlyReads directory moments refusals_of self.old self.new }
        ensures counts { CountsRefusalOf result (refusals_of self.old) (refusals_of self.new) };

    /// Overwrites bytes, and writes past the end.
    fn write(&mut self, writer: &mut Self::Writer, at: usize, bytes: &[u8]) -> Result<(), FsFault>
        ensures writer { writer_path writer.new ≡ writer_path writer.old }
        ensures value { OnOk result (HasFile (directory self.old) (writer_path writer.old)) }
        ensures fits { OnOk result (at + length bytes.now < 2 ^ 63) }
        ensures ok { OnOk result (directory self.new ≡ update_file (writer_path writer.old)
            (λ f. file_after_write at bytes.now true (overlay f.now at bytes.now) f)
            (directory self.old)) }
        ensures any_moment { MovesBy directory moments refusals_of
            (IsWriting (writer_path writer.old) at bytes.now) self.old self.new }
        ensures counts { CountsRefusalOf result (refusals_of self.old) (refusals_of self.new) };

    /// Cuts the file to a length. At or past its end the file does not change.
    fn truncate(&mut self, writer: &mut Self::Writer, size: usize) -> Result<(), FsFault>
        ensures writer { writer_path writer.new ≡ writer_path writer.old }
        ensures value { OnOk result (HasFile (directory self.old) (writer_path writer.old)) }
        ensures ok { OnOk result (directory self.new ≡ update_file (writer_path writer.old)
            (λ f. file_after_resize (take size f.now) f) (directory self.old)) }
        ensures any_moment { MovesBy directory moments refusals_of (IsTruncating (writer_path writer.old) size)
            self.old self.new }
        ensures counts { CountsRefusalOf result (refusals_of self.old) (refusals_of self.new) };

    /// Lengthens the file with zeros to `at + size` bytes. A file of that length or more does not
    /// change.
    fn allocate(&mut self, writer: &mut Self::Writer, at: usize, size: usize) -> Result<(), FsFault>
        ensures writer { writer_path writer.new ≡ writer_path writer.old }
        ensures value { OnOk result (HasFile (directory self.old) (writer_path writer.old)) }
        ensures fits { OnOk result (at + size < 2 ^ 63) }
        ensures ok { OnOk result (directory self.new ≡ update_file (writer_path writer.old)
            (λ f. file_after_resize (pad_to f.now (at + size)) f) (directory self.old)) }
        ensures any_moment { MovesBy directory moments refusals_of
            (IsAllocating (writer_path writer.old) (at + size)) self.old self.new }
        ensures counts { CountsRefusalOf result (refusals_of self.old) (refusals_of self.new) };

    /// After `Ok` a crash leaves exactly the bytes now.
    fn sync(&mut self, writer: &mut Self::Writer) -> Result<(), FsFault>
        ensures writer { writer_path writer.new ≡ writer_path writer.old }
        ensures value { OnOk result (HasFile (directory self.old) (writer_path writer.old)) }
        ensures ok { OnOk result (directory self.new
            ≡ update_file (writer_path writer.old) synced_of (directory self.old)) }
        ensures err { OnErr result (directory self.new ≡ directory self.old) }
        ensures any_moment { MovesBy directory moments refusals_of
            (λ old. IsOneOf old (update_file (writer_path writer.old) synced_of old)) self.old
            self.new }
        ensures counts { CountsRefusalOf result (refusals_of self.old) (refusals_of self.new) };

    /// Returns the number of bytes read: 0 only at the end or for an empty slice.
    fn read(&self, reader: &mut Self::Reader, at: usize, bytes: &mut [u8]) -> Result<usize, FsFault>
        ensures reader { reader_path reader.new ≡ reader_path reader.old }
        ensures ok { IfOk result (λ n. ReadsAt
            (file_at (directory self.now) (reader_path reader.old)) at n bytes.old bytes.new) }
        ensures counts { CountsRefusalOf result (reader_refusals reader.old)
            (reader_refusals reader.new) };

    /// Replaces a buffer's bytes by `len` bytes of the file at a path, from a place on; by fewer if
    /// the file ends before. After an `Err` the buffer may hold anything.
    fn read_block(
        &mut self,
        path: &str,
        at: usize,
        len: usize,
        bytes: &mut Vec<u8>,
    ) -> Result<(), FsFault>
        ensures ok { OnOk result (IsPartAt (file_at (directory self.old) path.now) at len
            bytes.new.items) }
        ensures unchanged { OnlyReads directory moments refusals_of self.old self.new }
        ensures counts { CountsRefusalOf result (refusals_of self.old) (refusals_of self.new) };

    /// A hint that these parts of a file, each from a place up to another, are read next. Nothing
    /// changes, and the number that it returns says nothing: a caller keeps it, so that no compiler
    /// leaves the hint out.
    fn will_read(&self, _path: &str, _parts: &[(usize, usize)]) -> u64 {
        0
    }

    fn file_size(&mut self, handle: &Self::Handle) -> Result<usize, FsFault>
        ensures value { IfOk result (λ n. (file : File)
            × (file_at (directory self.old) (handle_path handle.now) ≡ Some file)
            × (n ≡ length file.now)) }
        ensures fits { IfOk result (λ n. n < 2 ^ 63) }
        ensures unchanged { OnlyReads directory moments refusals_of self.old self.new }
        ensures counts { CountsRefusalOf result (refusals_of self.old) (refusals_of self.new) };

    /// Makes a folder and its parents. An existing folder stays. If the call fails, some of them
    /// may exist.
    fn make_dir(&mut self, path: &str) -> Result<(), FsFault>
        ensures ok { OnOk result (directory self.new ≡ folder_made path.now (directory self.old)) }
        ensures any_moment { MovesBy directory moments refusals_of (IsMakingFolder path.now) self.old self.new }
        ensures counts { CountsRefusalOf result (refusals_of self.old) (refusals_of self.new) };

    /// The names of the files in a folder, in the order of their bytes.
    fn list(&mut self, dir: &str) -> Result<Vec<String>, FsFault>
        ensures names { IfOk result (λ names. map string_bytes names.items
            ≡ names_in dir.now (directory self.old)) }
        ensures unchanged { OnlyReads directory moments refusals_of self.old self.new }
        ensures counts { CountsRefusalOf result (refusals_of self.old) (refusals_of self.new) };

    /// The bytes that a folder has room for.
    fn free_space(&mut self, dir: &str) -> Result<u64, FsFault>
        ensures value { IfOk result (λ n. n ≡ free_at self.new dir.now) }
        ensures others { (p : Path) → (p ≡ dir.now → ⊥) → free_at self.new p ≡ free_at self.old p }
        ensures unchanged { OnlyReads directory moments refusals_of self.old self.new }
        ensures counts { CountsRefusalOf result (refusals_of self.old) (refusals_of self.new) };

    fn exists_metadata(&self, path: &str) -> bool
        ensures value { result ≡ metadata_of self.now path.now };

    /// Removes a path's metadata, if there are any.
    fn delete_metadata(&mut self, path: &str) -> Result<(), FsFault>
        ensures ok { OnOk result (metadata_of self.new path.now ≡ false) }
        ensures err { OnErr result ((p : Path) → metadata_of self.new p ≡ metadata_of self.old p) }
        ensures others { (p : Path) → (p ≡ path.now → ⊥)
            → metadata_of self.new p ≡ metadata_of self.old p }
        ensures unchanged { OnlyReads directory moments refusals_of self.old self.new }
        ensures counts { CountsRefusalOf result (refusals_of self.old) (refusals_of self.new) };

    fn is_dir(&self, path: &str) -> bool
        ensures value { result ≡ (directory self.now).is_folder path.now };

    fn is_file(&self, path: &str) -> bool
        ensures value { result ≡ is_some (file_at (directory self.now) path.now) };

    /// How many storage calls failed, without the reads, which their readers count. It stops at
    /// 2^64 - 1.
    fn refusals(&self) -> u64
        ensures value { result ≡ (refusals_of self.now).storage };

    /// The same for the calls of this reader.
    fn read_refusals(&self, reader: &Self::Reader) -> u64
        ensures value { result ≡ (reader_refusals reader.now).storage };

    /// Now is a moment.
    ghost now_counts: { (fs : Self) → (earlier : List Directory)
        × (moments fs ≡ directory fs ∷ earlier) };
}
