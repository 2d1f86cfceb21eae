//! The mark in a fork's target until all copies are there.
ghost use Rattle.std.specs.Prelude.{◌≡◌, None, map, IfErr, IfOk, OnErr, OnOk};
ghost use Rattle.std.specs.String.{string_bytes};
ghost use Rattle.raft_base.specs.declared.errors.Fault.TheVariants.{Memory};
ghost use Rattle.raft_env.specs.Directory.{IsOneOf, after_create, file_at};
ghost use Rattle.raft_env.specs.Moments.{MovesBy};
ghost use Rattle.raft_env.specs.Refusal.{FailsAt, NamesFile};
ghost use Rattle.raft_fork.specs.Fork.{AreAllCopied, CanBeCopied, IsMarkedCopying, copies_in, mark_in, source_of};
ghost use Rattle.raft_fork.specs.Refused.{IsMarkRefusal, IsMarkedRefusal};

use crate::copying::copy_files;
use crate::source::SourceFile;
use raft_env::FileSystem;
use raft_records::Fault;
use std::alloc::Global;

/// The name of the file that a fork's target has until the fork has ended. No log file has it.
pub const FORK_MARK: &str = "FORKING";

// The path of the mark in a folder.
fn mark_path(alloc: Global, folder: &str) -> Result<String, Fault>
    ensures value { IfOk result (λ path. string_bytes path ≡ mark_in folder.now) }
    ensures memory { IfErr result (λ e. e ≡ Memory) }
{
    if folder.is_empty() {
        return Ok(String::from_str(alloc, FORK_MARK)?);
    }
    Ok(format!(in alloc; "{folder}/{FORK_MARK}")?)
}

/// Fails if the target has the mark of another fork.
pub(crate) fn refuse_mark<F: FileSystem>(
    alloc: Global,
    target: &str,
    file_system: &F,
) -> Result<(), Fault>
    ensures ok { OnOk result (file_at (F.directory file_system.now) (mark_in target.now) ≡ None) }
    ensures cause { IfErr result (IsMarkRefusal target.now (F.directory file_system.now)) }
{
    let mark = mark_path(alloc, target)?;
    if file_system.is_file(mark.as_str()) {
        return Err(Fault::InvalidArgument("a fork into the target has not ended: empty it first"));
    }
    Ok(())
}

/// Copies the files as `copy_files` does, between the making of the target's mark and its removal.
/// After a failure the mark and the copies made until then remain.
pub(crate) fn copy_marked<F: FileSystem>(
    alloc: Global,
    files: &[SourceFile],
    target: &str,
    file_system: &mut F,
) -> Result<Vec<String>, Fault>
    requires can { CanBeCopied target.now (map source_of files.now)
        (F.directory file_system.old) }
    requires unmarked { file_at (F.directory file_system.old) (mark_in target.now) ≡ None }
    ensures copies { IfOk result (λ copied. map string_bytes copied.items
        ≡ copies_in target.now (map source_of files.now)) }
    ensures ok { OnOk result (AreAllCopied target.now (map source_of files.now)
        (F.directory file_system.old) (F.directory file_system.new)) }
    ensures any_moment { MovesBy F.directory F.moments F.refusals_of
        (IsMarkedCopying target.now (map source_of files.now)) file_system.old file_system.new }
    ensures cause { IfErr result (IsMarkedRefusal target.now (map source_of files.now)
        (F.refusals_of file_system.old) (F.refusals_of file_system.new)) }
{
    let mark = mark_path(alloc, target)?;
    put_mark(alloc, mark.as_str(), file_system)?;
    let copied = copy_files(alloc, files, target, file_system)?;
    match file_system.delete(mark.as_str()) {
        Ok(()) => Ok(copied),
        Err(fault) => Err(fault.with_path(alloc, mark.as_str())),
    }
}

// Makes the mark.
fn put_mark<F: FileSystem>(alloc: Global, path: &str, file_system: &mut F) -> Result<(), Fault>
    ensures ok { OnOk result (F.directory file_system.new
        ≡ after_create path.now (F.directory file_system.old)) }
    ensures err { OnErr result (F.directory file_system.new ≡ F.directory file_system.old) }
    ensures any_moment { MovesBy F.directory F.moments F.refusals_of
        (λ old. IsOneOf old (after_create path.now old)) file_system.old file_system.new }
    ensures cause { IfErr result (FailsAt (NamesFile path.now) (F.refusals_of file_system.old)
        (F.refusals_of file_system.new)) }
{
    match file_system.create(path) {
        Ok(_) => Ok(()),
        Err(fault) => Err(fault.with_path(alloc, path)),
    }
}
