//! The calls of a file system on files in memory.
ghost use Rattle.std.specs.Prelude.{◌≡◌, ◌⊎◌, ◌≤◌, ◌<◌, ◌+◌, ◌^◌, ◌↔◌, [], ◌∷◌, length, map, refl, take, IfErr, IfOk, IsTrue, None, OnErr, OnOk, Some, false, true};
ghost use Rattle.std.specs.String.{string_bytes};
ghost use Rattle.raft_memory.specs.Files.{namespace_directory};
ghost use Rattle.raft_env.specs.Moments.{MovesBy, OnlyReads};
ghost use Rattle.raft_memory.specs.Counted.{by_storage};

use crate::armed::FsCall;
use crate::half_write::fits;
use crate::handles::{MemoryHandle, MemoryReader, MemoryWriter, copy_from};
use crate::memory::MemoryFileSystem;
use crate::touch::touch;
use raft_env::{FileSystem, FsFault, IoKind, Permission};

impl FileSystem for MemoryFileSystem {
    ghost use Rattle.raft_memory.specs.Memory.{memory_directory, memory_free, memory_metadata, memory_moments, memory_refusals, armed_of, stop_of, CountsCall, LeavesHalf};
    ghost use Rattle.raft_memory.specs.Armed.{arms_after, injected, stop_after};
    ghost use Rattle.raft_env.specs.Directory.{HasFile, IsAllocating, IsMakingFolder, IsOneOf, IsTruncating, IsWriting, Path, ReadsAt, after_create, after_rename, without_file, file_at, folder_made, names_in, update_file};
    ghost use Rattle.raft_env.specs.Outcomes.{File, file_after_write, overlay, pad_to, file_after_resize, synced_of};
    ghost use Rattle.raft_env.specs.Refusal.{CountsRefusalOf, added_count, no_refusals};
    ghost use Rattle.raft_memory.specs.Refused.{HasNoFolder, HasNoPlace, HasNoRoom, IsAbsent, IsBarred, IsMissing, RefusesAs, WasArmed};

    type Handle = MemoryHandle;

    type Reader = MemoryReader;

    type Writer = MemoryWriter;

    ghost directory = { memory_directory };

    ghost moments = { memory_moments };

    ghost refusals_of = { memory_refusals };

    ghost handle_path = { λ h. string_bytes h.path };

    ghost may_write = { λ h. h.may_write };

    ghost reader_path = { λ r. string_bytes r.path };

    ghost reader_refusals = { λ r. by_storage r.refused };

    ghost writer_path = { λ w. string_bytes w.path };

    ghost metadata_of = { memory_metadata };

    ghost free_at = { memory_free };

    ghost now_counts = { λ m. (map namespace_directory m.past.items, refl) };

    fn create(&mut self, path: &str) -> Result<MemoryHandle, FsFault>
        ensures handle { IfOk result (λ h. (string_bytes h.path ≡ path.now)
            × (h.may_write ≡ true)) }
        ensures ok { OnOk result (memory_directory self.new
            ≡ after_create path.now (memory_directory self.old)) }
        ensures err { OnErr result (memory_directory self.new ≡ memory_directory self.old) }
        ensures any_moment { MovesBy memory_directory memory_moments memory_refusals
            (λ old. IsOneOf old (after_create path.now old)) self.old self.new }
        ensures counts { CountsCall result self.old self.new }
        ensures cause { RefusesAs (injected FsCall.Create (armed_of self.old) (stop_of self.old))
            (HasNoPlace (memory_directory self.old) path.now) result }
        ensures stop { stop_of self.new ≡ stop_after (stop_of self.old) }
        ensures armed { armed_of self.new ≡ arms_after FsCall.Create (armed_of self.old) }
    {
        if let Some(kind) = self.armed.fault_for_change(FsCall::Create) {
            return Err(self.refusals.count(FsFault::Io(kind)));
        }
        let stored = match String::from_str(self.alloc, path) {
            Ok(stored) => stored,
            Err(_) => return Err(self.refusals.count(FsFault::Memory)),
        };
        let past = self.past.with(&self.namespace);
        if let Err(fault) = self.namespace.create(self.alloc, path) {
            return Err(self.refusals.count(fault));
        }
        self.past = past;
        Ok(MemoryHandle {
            path: stored,
            may_write: true,
        })
    }

    fn open(&mut self, path: &str, permission: Permission) -> Result<MemoryHandle, FsFault>
        ensures handle { IfOk result (λ h. (string_bytes h.path ≡ path.now)
            × HasFile (memory_directory self.old) path.now) }
        ensures may_write { IfOk result (λ h. h.may_write ≡ true
            ↔ (permission ≡ Permission.ReadWrite)) }
        ensures unchanged { OnlyReads memory_directory memory_moments memory_refusals self.old
            self.new }
        ensures counts { CountsCall result self.old self.new }
        ensures cause { RefusesAs (injected FsCall.Open (armed_of self.old) None)
            (IsMissing (memory_directory self.old) path.now) result }
        ensures stop { stop_of self.new ≡ stop_of self.old }
        ensures armed { armed_of self.new ≡ arms_after FsCall.Open (armed_of self.old) }
    {
        if let Some(kind) = self.armed.fault_for(FsCall::Open) {
            return Err(self.refusals.count(FsFault::Io(kind)));
        }
        if !self.is_file(path) {
            return Err(self.refusals.count(FsFault::Io(IoKind::NotFound)));
        }
        match String::from_str(self.alloc, path) {
            Ok(path) => Ok(MemoryHandle {
                path,
                may_write: permission == Permission::ReadWrite,
            }),
            Err(_) => Err(self.refusals.count(FsFault::Memory)),
        }
    }

    fn delete(&mut self, path: &str) -> Result<(), FsFault>
        ensures value { OnOk result (HasFile (memory_directory self.old) path.now) }
        ensures ok { OnOk result (memory_directory self.new
            ≡ without_file path.now (memory_directory self.old)) }
        ensures err { OnErr result (memory_directory self.new ≡ memory_directory self.old) }
        ensures any_moment { MovesBy memory_directory memory_moments memory_refusals
            (λ old. IsOneOf old (without_file path.now old)) self.old self.new }
        ensures counts { CountsCall result self.old self.new }
        ensures cause { RefusesAs (injected FsCall.Delete (armed_of self.old) (stop_of self.old))
            (IsAbsent (memory_directory self.old) path.now) result }
        ensures stop { stop_of self.new ≡ stop_after (stop_of self.old) }
        ensures armed { armed_of self.new ≡ arms_after FsCall.Delete (armed_of self.old) }
    {
        if let Some(kind) = self.armed.fault_for_change(FsCall::Delete) {
            return Err(self.refusals.count(FsFault::Io(kind)));
        }
        let past = self.past.with(&self.namespace);
        if let Err(fault) = self.namespace.delete(path) {
            return Err(self.refusals.count(fault));
        }
        self.past = past;
        Ok(())
    }

    fn rename(&mut self, from: &str, to: &str) -> Result<(), FsFault>
        ensures value { OnOk result (HasFile (memory_directory self.old) from.now) }
        ensures ok { OnOk result (memory_directory self.new
            ≡ after_rename from.now to.now (memory_directory self.old)) }
        ensures err { OnErr result (memory_directory self.new ≡ memory_directory self.old) }
        ensures any_moment { MovesBy memory_directory memory_moments memory_refusals
            (λ old. IsOneOf old (after_rename from.now to.now old)) self.old self.new }
        ensures counts { CountsCall result self.old self.new }
        ensures cause { RefusesAs (injected FsCall.Rename (armed_of self.old) (stop_of self.old))
            (λ e. IsMissing (memory_directory self.old) from.now e
            ⊎ HasNoPlace (memory_directory self.old) to.now e) result }
        ensures stop { stop_of self.new ≡ stop_after (stop_of self.old) }
        ensures armed { armed_of self.new ≡ arms_after FsCall.Rename (armed_of self.old) }
    {
        if let Some(kind) = self.armed.fault_for_change(FsCall::Rename) {
            return Err(self.refusals.count(FsFault::Io(kind)));
        }
        let past = self.past.with(&self.namespace);
        if let Err(fault) = self.namespace.rename(self.alloc, from, to) {
            return Err(self.refusals.count(fault));
        }
        self.past = past;
        Ok(())
    }

    fn new_reader(&mut self, handle: &MemoryHandle) -> Result<MemoryReader, FsFault>
        ensures reader { IfOk result (λ r. (string_bytes r.path ≡ string_bytes handle.now.path)
            × (by_storage r.refused ≡ no_refusals)) }
        ensures unchanged { OnlyReads memory_directory memory_moments memory_refusals self.old
            self.new }
        ensures counts { CountsCall result self.old self.new }
        ensures cause { RefusesAs (injected FsCall.NewReader (armed_of self.old) None)
            (λ e. e ≡ FsFault.Memory) result }
        ensures stop { stop_of self.new ≡ stop_of self.old }
        ensures armed { armed_of self.new ≡ arms_after FsCall.NewReader (armed_of self.old) }
    {
        if let Some(kind) = self.armed.fault_for(FsCall::NewReader) {
            return Err(self.refusals.count(FsFault::Io(kind)));
        }
        match handle.path.clone() {
            Ok(path) => Ok(MemoryReader { path, refused: 0 }),
            Err(_) => Err(self.refusals.count(FsFault::Memory)),
        }
    }

    fn end_reader(&mut self, reader: MemoryReader)
        ensures unchanged { OnlyReads memory_directory memory_moments memory_refusals self.old
            self.new }
        ensures counts { memory_refusals self.new
            ≡ added_count (memory_refusals self.old) (by_storage reader.refused) }
        ensures others { (armed_of self.new ≡ armed_of self.old)
            × (stop_of self.new ≡ stop_of self.old) }
    {
        self.refusals.add(reader.refused);
    }

    fn new_writer(&mut self, handle: &MemoryHandle) -> Result<MemoryWriter, FsFault>
        ensures writer { IfOk result (λ w. (string_bytes w.path ≡ string_bytes handle.now.path)
            × (handle.now.may_write ≡ true)) }
        ensures cause { (handle.now.may_write ≡ false → result ≡ Err (FsFault.Io IoKind.Other))
            × (handle.now.may_write ≡ true
            → RefusesAs (injected FsCall.NewWriter (armed_of self.old) None)
            (λ e. e ≡ FsFault.Memory) result) }
        ensures unchanged { OnlyReads memory_directory memory_moments memory_refusals self.old
            self.new }
        ensures counts { CountsCall result self.old self.new }
        ensures stop { stop_of self.new ≡ stop_of self.old }
        ensures armed { armed_of self.new ≡ arms_after FsCall.NewWriter (armed_of self.old) }
    {
        let due = self.armed.fault_for(FsCall::NewWriter);
        if !handle.may_write {
            return Err(self.refusals.count(FsFault::Io(IoKind::Other)));
        }
        if let Some(kind) = due {
            return Err(self.refusals.count(FsFault::Io(kind)));
        }
        match handle.path.clone() {
            Ok(path) => Ok(MemoryWriter { path }),
            Err(_) => Err(self.refusals.count(FsFault::Memory)),
        }
    }

    #[inline(always)]
    fn write(&mut self, writer: &mut MemoryWriter, at: usize, bytes: &[u8]) -> Result<(), FsFault>
        ensures writer { string_bytes writer.new.path ≡ string_bytes writer.old.path }
        ensures value { OnOk result (HasFile (memory_directory self.old)
            (string_bytes writer.old.path)) }
        ensures fits { OnOk result (at + length bytes.now < 2 ^ 63) }
        ensures ok { OnOk result (memory_directory self.new
            ≡ update_file (string_bytes writer.old.path)
            (λ f. file_after_write at bytes.now true (overlay f.now at bytes.now) f)
            (memory_directory self.old)) }
        ensures err { IfErr result (λ e. LeavesHalf
            (injected FsCall.Write (armed_of self.old) (stop_of self.old)) e
            (string_bytes writer.old.path) at bytes.now (memory_directory self.old)
            (memory_directory self.new)) }
        ensures any_moment { MovesBy memory_directory memory_moments memory_refusals
            (IsWriting (string_bytes writer.old.path) at bytes.now) self.old self.new }
        ensures counts { CountsCall result self.old self.new }
        ensures cause { (result ≡ Err FsFault.Memory)
            ⊎ RefusesAs (injected FsCall.Write (armed_of self.old) (stop_of self.old))
            (λ e. HasNoRoom at (length bytes.now) e
            ⊎ IsAbsent (memory_directory self.old) (string_bytes writer.old.path) e) result }
        ensures stop { stop_of self.new ≡ stop_after (stop_of self.old) }
        ensures armed { armed_of self.new ≡ arms_after FsCall.Write (armed_of self.old) }
    {
        if let Some(kind) = self.armed.fault_for_change(FsCall::Write) {
            let fault = match self.write_half(writer.path.as_str(), at, bytes) {
                Ok(()) => FsFault::Io(kind),
                Err(fault) => fault,
            };
            return Err(self.refusals.count(fault));
        }
        if !fits(at, bytes.len()) {
            return Err(self.refusals.count(FsFault::Io(IoKind::NoSpace)));
        }
        let past = self.past.with(&self.namespace);
        if let Err(fault) = self
            .namespace
            .write(writer.path.as_str(), at, bytes, bytes, true)
        {
            return Err(self.refusals.count(fault));
        }
        self.past = past;
        Ok(())
    }

    fn truncate(&mut self, writer: &mut MemoryWriter, size: usize) -> Result<(), FsFault>
        ensures writer { string_bytes writer.new.path ≡ string_bytes writer.old.path }
        ensures value { OnOk result (HasFile (memory_directory self.old)
            (string_bytes writer.old.path)) }
        ensures ok { OnOk result (memory_directory self.new
            ≡ update_file (string_bytes writer.old.path)
            (λ f. file_after_resize (take size f.now) f) (memory_directory self.old)) }
        ensures err { OnErr result (memory_directory self.new ≡ memory_directory self.old) }
        ensures any_moment { MovesBy memory_directory memory_moments memory_refusals
            (IsTruncating (string_bytes writer.old.path) size) self.old self.new }
        ensures counts { CountsCall result self.old self.new }
        ensures cause { RefusesAs (injected FsCall.Truncate (armed_of self.old)
            (stop_of self.old)) (IsMissing (memory_directory self.old)
            (string_bytes writer.old.path)) result }
        ensures stop { stop_of self.new ≡ stop_after (stop_of self.old) }
        ensures armed { armed_of self.new ≡ arms_after FsCall.Truncate (armed_of self.old) }
    {
        if let Some(kind) = self.armed.fault_for_change(FsCall::Truncate) {
            return Err(self.refusals.count(FsFault::Io(kind)));
        }
        let past = self.past.with(&self.namespace);
        if let Err(fault) = self.namespace.cut(writer.path.as_str(), size) {
            return Err(self.refusals.count(fault));
        }
        self.past = past;
        Ok(())
    }

    fn allocate(&mut self, writer: &mut MemoryWriter, at: usize, size: usize) -> Result<(), FsFault>
        ensures writer { string_bytes writer.new.path ≡ string_bytes writer.old.path }
        ensures value { OnOk result (HasFile (memory_directory self.old)
            (string_bytes writer.old.path)) }
        ensures fits { OnOk result (at + size < 2 ^ 63) }
        ensures ok { OnOk result (memory_directory self.new
            ≡ update_file (string_bytes writer.old.path)
            (λ f. file_after_resize (pad_to f.now (at + size)) f) (memory_directory self.old)) }
        ensures err { OnErr result (memory_directory self.new ≡ memory_directory self.old) }
        ensures any_moment { MovesBy memory_directory memory_moments memory_refusals
            (IsAllocating (string_bytes writer.old.path) (at + size)) self.old self.new }
        ensures counts { CountsCall result self.old self.new }
        ensures cause { RefusesAs (injected FsCall.Allocate (armed_of self.old)
            (stop_of self.old)) (λ e. HasNoRoom at size e
            ⊎ IsMissing (memory_directory self.old) (string_bytes writer.old.path) e) result }
        ensures stop { stop_of self.new ≡ stop_after (stop_of self.old) }
        ensures armed { armed_of self.new ≡ arms_after FsCall.Allocate (armed_of self.old) }
    {
        if let Some(kind) = self.armed.fault_for_change(FsCall::Allocate) {
            return Err(self.refusals.count(FsFault::Io(kind)));
        }
        if !fits(at, size) {
            return Err(self.refusals.count(FsFault::Io(IoKind::NoSpace)));
        }
        let past = self.past.with(&self.namespace);
        if let Err(fault) = self.namespace.lengthen(writer.path.as_str(), at + size) {
            return Err(self.refusals.count(fault));
        }
        self.past = past;
        Ok(())
    }

    fn sync(&mut self, writer: &mut MemoryWriter) -> Result<(), FsFault>
        ensures writer { string_bytes writer.new.path ≡ string_bytes writer.old.path }
        ensures value { OnOk result (HasFile (memory_directory self.old)
            (string_bytes writer.old.path)) }
        ensures ok { OnOk result (memory_directory self.new
            ≡ update_file (string_bytes writer.old.path) synced_of (memory_directory self.old)) }
        ensures err { OnErr result (memory_directory self.new ≡ memory_directory self.old) }
        ensures any_moment { MovesBy memory_directory memory_moments memory_refusals
            (λ old. IsOneOf old (update_file (string_bytes writer.old.path) synced_of old)) self.old
            self.new }
        ensures counts { CountsCall result self.old self.new }
        ensures cause { RefusesAs (injected FsCall.Sync (armed_of self.old) (stop_of self.old))
            (IsAbsent (memory_directory self.old) (string_bytes writer.old.path)) result }
        ensures stop { stop_of self.new ≡ stop_after (stop_of self.old) }
        ensures armed { armed_of self.new ≡ arms_after FsCall.Sync (armed_of self.old) }
    {
        if let Some(kind) = self.armed.fault_for_change(FsCall::Sync) {
            return Err(self.refusals.count(FsFault::Io(kind)));
        }
        let past = self.past.with(&self.namespace);
        if let Err(fault) = self.namespace.sync(writer.path.as_str()) {
            return Err(self.refusals.count(fault));
        }
        self.past = past;
        Ok(())
    }

    fn read(&self, reader: &mut MemoryReader, at: usize, bytes: &mut [u8]) -> Result<usize, FsFault>
        ensures reader { string_bytes reader.new.path ≡ string_bytes reader.old.path }
        ensures ok { IfOk result (λ n. ReadsAt
            (file_at (memory_directory self.now) (string_bytes reader.old.path)) at n bytes.old
            bytes.new) }
        ensures counts { CountsRefusalOf result (by_storage reader.old.refused)
            (by_storage reader.new.refused) }
        ensures cause { IfErr result (λ e. WasArmed (armed_of self.now) FsCall.Read e
            ⊎ IsAbsent (memory_directory self.now) (string_bytes reader.old.path) e) }
    {
        if let Some(kind) = self.armed.fault_for_read() {
            return Err(reader.refuse(kind));
        }
        match self.namespace.files.get(reader.path.as_str()) {
            Some(file) => Ok(copy_from(file.bytes(), at, bytes)),
            None => Err(reader.refuse(IoKind::NotFound)),
        }
    }

    fn read_block(
        &mut self,
        path: &str,
        at: usize,
        len: usize,
        bytes: &mut Vec<u8>,
    ) -> Result<(), FsFault> {
        self.read_part(path, at, len, bytes)
    }

    fn will_read(&self, path: &str, parts: &[(usize, usize)]) -> u64 {
        match self.namespace.files.get(path) {
            Some(file) => touch(file.bytes().stored(), parts),
            None => 0,
        }
    }

    fn file_size(&mut self, handle: &MemoryHandle) -> Result<usize, FsFault>
        ensures value { IfOk result (λ n. (file : File)
            × (file_at (memory_directory self.old) (string_bytes handle.now.path) ≡ Some file)
            × (n ≡ length file.now)) }
        ensures fits { IfOk result (λ n. n < 2 ^ 63) }
        ensures unchanged { OnlyReads memory_directory memory_moments memory_refusals self.old
            self.new }
        ensures counts { CountsCall result self.old self.new }
        ensures cause { RefusesAs (injected FsCall.FileSize (armed_of self.old) None)
            (IsAbsent (memory_directory self.old) (string_bytes handle.now.path)) result }
        ensures stop { stop_of self.new ≡ stop_of self.old }
        ensures armed { armed_of self.new ≡ arms_after FsCall.FileSize (armed_of self.old) }
    {
        if let Some(kind) = self.armed.fault_for(FsCall::FileSize) {
            return Err(self.refusals.count(FsFault::Io(kind)));
        }
        match self.namespace.files.get(handle.path.as_str()) {
            Some(file) => Ok(file.bytes().len()),
            None => Err(self.refusals.count(FsFault::Io(IoKind::NotFound))),
        }
    }

    fn make_dir(&mut self, path: &str) -> Result<(), FsFault>
        ensures ok { OnOk result (memory_directory self.new
            ≡ folder_made path.now (memory_directory self.old)) }
        ensures err { OnErr result (memory_directory self.new ≡ memory_directory self.old) }
        ensures any_moment { MovesBy memory_directory memory_moments memory_refusals
            (IsMakingFolder path.now)
            self.old self.new }
        ensures counts { CountsCall result self.old self.new }
        ensures cause { RefusesAs (injected FsCall.MakeDir (armed_of self.old) (stop_of self.old))
            (IsBarred (memory_directory self.old) path.now) result }
        ensures stop { stop_of self.new ≡ stop_after (stop_of self.old) }
        ensures armed { armed_of self.new ≡ arms_after FsCall.MakeDir (armed_of self.old) }
    {
        if let Some(kind) = self.armed.fault_for_change(FsCall::MakeDir) {
            return Err(self.refusals.count(FsFault::Io(kind)));
        }
        let past = self.past.with(&self.namespace);
        if let Err(fault) = self.namespace.make_folder(self.alloc, path) {
            return Err(self.refusals.count(fault));
        }
        self.past = past;
        Ok(())
    }

    fn list(&mut self, dir: &str) -> Result<Vec<String>, FsFault>
        ensures names { IfOk result (λ names. map string_bytes names.items
            ≡ names_in dir.now (memory_directory self.old)) }
        ensures unchanged { OnlyReads memory_directory memory_moments memory_refusals self.old
            self.new }
        ensures counts { CountsCall result self.old self.new }
        ensures cause { RefusesAs (injected FsCall.List (armed_of self.old) None)
            (HasNoFolder (memory_directory self.old) dir.now) result }
        ensures stop { stop_of self.new ≡ stop_of self.old }
        ensures armed { armed_of self.new ≡ arms_after FsCall.List (armed_of self.old) }
    {
        if let Some(kind) = self.armed.fault_for(FsCall::List) {
            return Err(self.refusals.count(FsFault::Io(kind)));
        }
        match self.namespace.names(self.alloc, dir) {
            Ok(names) => Ok(names),
            Err(fault) => Err(self.refusals.count(fault)),
        }
    }

    fn free_space(&mut self, dir: &str) -> Result<u64, FsFault>
        ensures value { IfOk result (λ n. n ≡ memory_free self.new dir.now) }
        ensures others { (p : Path) → (p ≡ dir.now → ⊥)
            → memory_free self.new p ≡ memory_free self.old p }
        ensures free { memory_free self.new ≡ memory_free self.old }
        ensures unchanged { OnlyReads memory_directory memory_moments memory_refusals self.old
            self.new }
        ensures counts { CountsCall result self.old self.new }
        ensures cause { RefusesAs (injected FsCall.FreeSpace (armed_of self.old) None)
            (λ e. ⊥) result }
        ensures stop { stop_of self.new ≡ stop_of self.old }
        ensures armed { armed_of self.new ≡ arms_after FsCall.FreeSpace (armed_of self.old) }
    {
        if let Some(kind) = self.armed.fault_for(FsCall::FreeSpace) {
            return Err(self.refusals.count(FsFault::Io(kind)));
        }
        Ok(self.free.get(dir).copied().unwrap_or(u64::MAX))
    }

    fn exists_metadata(&self, path: &str) -> bool {
        self.metadata.contains(path)
    }

    fn delete_metadata(&mut self, path: &str) -> Result<(), FsFault>
        ensures ok { OnOk result (memory_metadata self.new path.now ≡ false) }
        ensures err { OnErr result ((p : Path) → memory_metadata self.new p
            ≡ memory_metadata self.old p) }
        ensures others { (p : Path) → (p ≡ path.now → ⊥)
            → memory_metadata self.new p ≡ memory_metadata self.old p }
        ensures unchanged { OnlyReads memory_directory memory_moments memory_refusals self.old
            self.new }
        ensures counts { CountsCall result self.old self.new }
        ensures cause { RefusesAs
            (injected FsCall.DeleteMetadata (armed_of self.old) (stop_of self.old))
            (λ e. ⊥) result }
        ensures stop { stop_of self.new ≡ stop_after (stop_of self.old) }
        ensures armed { armed_of self.new ≡ arms_after FsCall.DeleteMetadata (armed_of self.old) }
    {
        if let Some(kind) = self.armed.fault_for_change(FsCall::DeleteMetadata) {
            return Err(self.refusals.count(FsFault::Io(kind)));
        }
        self.metadata.remove(path);
        Ok(())
    }

    fn is_dir(&self, path: &str) -> bool {
        self.namespace.has_folder(path)
    }

    fn is_file(&self, path: &str) -> bool {
        self.namespace.files.contains_key(path)
    }

    fn refusals(&self) -> u64 {
        self.refusals.storage()
    }

    fn read_refusals(&self, reader: &MemoryReader) -> u64 {
        reader.refused
    }
}
