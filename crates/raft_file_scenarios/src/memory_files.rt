//! Files in memory: calls, looks, refusals and crashes in sequence.

use crate::failing::Failing;
use crate::in_memory::Tried;
use raft_env::{FileSystem, FsFault, IoKind, Permission};
use raft_memory::{Choice, FsCall};
use raft_records::Fault;
use std::alloc::{AllocError, Global};

enum Call {
    MakeDir(&'static str),
    Create(&'static str),
    /// Opens the file with this permission and makes a writer.
    Writer(&'static str, Permission),
    Write(&'static str, usize, &'static [u8]),
    Truncate(&'static str, usize),
    Allocate(&'static str, usize, usize),
    Sync(&'static str),
    Delete(&'static str),
    Rename(&'static str, &'static str),
    /// Renames the second path's file to the first path for reuse, and makes a writer.
    Reuse(&'static str, &'static str),
    Size(&'static str, usize),
    /// Reads from offset 0 into a buffer full of `?`: the number of bytes, and the buffer
    /// afterwards.
    Read(&'static str, usize, &'static [u8]),
    List(&'static str, &'static [&'static str]),
}

/// What a crash leaves of the file with the first path.
enum Left {
    Unsaid,
    All,
    Synced,
    Torn(usize, u8),
    Bytes(&'static [u8]),
}

enum Step {
    Does(Call),
    Refuses(Call, IoKind),
    IsFolder(&'static str, bool),
    IsFile(&'static str, bool),
    /// So many calls have failed.
    Refused(u64),
    /// The nth call of this sort will fail.
    Arm(FsCall, u64),
    /// Asks that the 0th call of a sort fails. No call does.
    ArmNone(FsCall),
    Stop(u64),
    /// A crash can leave so many bytes of `a`, read into a buffer full of `?`.
    Leaves(Left, usize, &'static [u8]),
    /// A crash can't leave this.
    LeavesNot(Left),
}

/// Steps that begin without files.
pub(crate) struct Script {
    steps: &'static [Step],
}

/// Written, read, cut and listed.
pub(crate) static WRITTEN: [Tried; 1] = [Tried::Script(&Script {
    steps: &[
        Step::Does(Call::MakeDir("log/old")),
        Step::Does(Call::Create("log/b")),
        Step::Does(Call::Write("log/b", 0, b"first")),
        Step::Does(Call::Sync("log/b")),
        Step::Does(Call::Create("log/a")),
        Step::Does(Call::Create("log/old/c")),
        Step::Does(Call::Write("log/b", 7, b"third")),
        Step::Does(Call::Allocate("log/b", 12, 2)),
        Step::Does(Call::Read("log/b", 14, b"first\0\0third\0\0??")),
        Step::Does(Call::Truncate("log/b", 3)),
        Step::Does(Call::Size("log/b", 3)),
        Step::Does(Call::List("log", &["a", "b"])),
        Step::IsFolder("log", true),
        Step::IsFolder("", true),
        Step::IsFolder("log/b", false),
        Step::IsFile("log/b", true),
        Step::IsFile("log", false),
        Step::Refused(0),
    ],
})];

/// Refusals are counted.
pub(crate) static COUNTED: [Tried; 1] = [Tried::Script(&Script {
    steps: &[
        Step::Does(Call::Create("a")),
        Step::Refuses(Call::Create("b/a"), IoKind::NotFound),
        Step::Refuses(Call::Create(""), IoKind::Other),
        Step::Refuses(Call::MakeDir("a/b"), IoKind::Other),
        Step::Refuses(Call::List("b", &[]), IoKind::NotFound),
        Step::Refuses(Call::Writer("b", Permission::ReadWrite), IoKind::NotFound),
        Step::Refuses(Call::Writer("a", Permission::ReadOnly), IoKind::Other),
        Step::Refuses(Call::Write("a", usize::MAX, b"x"), IoKind::NoSpace),
        Step::Refused(7),
    ],
})];

/// Armed calls are refused.
pub(crate) static ARMED: [Tried; 1] = [Tried::Script(&Script {
    steps: &[
        Step::Does(Call::Create("a")),
        Step::ArmNone(FsCall::Sync),
        Step::Arm(FsCall::Create, 1),
        Step::Refuses(Call::Create("b"), IoKind::NoSpace),
        Step::Arm(FsCall::Open, 1),
        Step::Refuses(Call::Writer("a", Permission::ReadWrite), IoKind::NoSpace),
        Step::Arm(FsCall::NewReader, 1),
        Step::Refuses(Call::Read("a", 0, b""), IoKind::NoSpace),
        Step::Arm(FsCall::NewWriter, 1),
        Step::Refuses(Call::Writer("a", Permission::ReadWrite), IoKind::NoSpace),
        Step::Arm(FsCall::Write, 1),
        Step::Arm(FsCall::Write, 3),
        Step::Refuses(Call::Write("a", 0, b"abcde"), IoKind::NoSpace),
        Step::Arm(FsCall::Truncate, 1),
        Step::Refuses(Call::Truncate("a", 0), IoKind::NoSpace),
        Step::Arm(FsCall::Allocate, 1),
        Step::Refuses(Call::Allocate("a", 0, 9), IoKind::NoSpace),
        Step::Arm(FsCall::Sync, 1),
        Step::Refuses(Call::Sync("a"), IoKind::NoSpace),
        Step::Arm(FsCall::Delete, 1),
        Step::Refuses(Call::Delete("a"), IoKind::NoSpace),
        Step::Arm(FsCall::Rename, 1),
        Step::Refuses(Call::Rename("a", "b"), IoKind::NoSpace),
        Step::Arm(FsCall::FileSize, 1),
        Step::Refuses(Call::Size("a", 2), IoKind::NoSpace),
        Step::Arm(FsCall::MakeDir, 1),
        Step::Refuses(Call::MakeDir("d"), IoKind::NoSpace),
        Step::Arm(FsCall::List, 1),
        Step::Refuses(Call::List("", &[]), IoKind::NoSpace),
        Step::Arm(FsCall::Read, 1),
        Step::Refuses(Call::Read("a", 0, b"?"), IoKind::NoSpace),
        Step::Refused(14),
        // The failed write has written the first half of its bytes.
        Step::Does(Call::Read("a", 2, b"ab?")),
        Step::Does(Call::Write("a", 2, b"cd")),
        Step::Refuses(Call::Write("a", 4, b"ef"), IoKind::NoSpace),
        Step::Stop(2),
        Step::Does(Call::Write("a", 0, b"x")),
        Step::Refuses(Call::Sync("a"), IoKind::Other),
        Step::Refuses(Call::Create("b"), IoKind::Other),
        Step::Does(Call::Read("a", 5, b"xbcde?")),
        Step::Refused(17),
    ],
})];

/// Deleted, renamed and reused.
pub(crate) static RENAMED: [Tried; 1] = [Tried::Script(&Script {
    steps: &[
        Step::Does(Call::MakeDir("log")),
        Step::Does(Call::Create("log/a")),
        Step::Does(Call::Write("log/a", 0, b"first")),
        Step::Does(Call::Sync("log/a")),
        Step::Does(Call::Write("log/a", 3, b"m!")),
        Step::Does(Call::Create("log/b")),
        Step::Does(Call::Rename("log/a", "log/c")),
        Step::Does(Call::List("log", &["b", "c"])),
        Step::Does(Call::Read("log/c", 5, b"firm!?")),
        Step::Does(Call::Rename("log/c", "log/b")),
        Step::Does(Call::Rename("log/b", "log/b")),
        Step::Does(Call::List("log", &["b"])),
        Step::Does(Call::Reuse("log/b", "a")),
        Step::Does(Call::List("log", &[])),
        Step::Leaves(Left::Synced, 5, b"first?"),
        Step::Leaves(Left::All, 5, b"firm!?"),
        Step::Refuses(Call::Rename("b", "c"), IoKind::NotFound),
        Step::Refuses(Call::Rename("a", "old/c"), IoKind::NotFound),
        Step::Refuses(Call::Rename("a", "log"), IoKind::Other),
        Step::Refuses(Call::Reuse("b", "c"), IoKind::NotFound),
        Step::Refuses(Call::Delete("b"), IoKind::NotFound),
        Step::Does(Call::Delete("a")),
        Step::IsFile("a", false),
        Step::Refused(5),
    ],
})];

/// A crash leaves what was chosen.
pub(crate) static CRASHED: [Tried; 1] = [Tried::Script(&Script {
    steps: &[
        Step::Does(Call::Create("a")),
        Step::Does(Call::Write("a", 0, b"abcd")),
        Step::Does(Call::Sync("a")),
        Step::Does(Call::Write("a", 2, b"xyz")),
        Step::Leaves(Left::All, 5, b"abxyz?"),
        Step::Leaves(Left::Synced, 4, b"abcd??"),
        Step::Leaves(Left::Unsaid, 4, b"abcd??"),
        Step::Leaves(Left::Torn(1, b'!'), 5, b"abx!!?"),
        Step::Leaves(Left::Bytes(b"abQR"), 4, b"abQR??"),
        Step::LeavesNot(Left::Bytes(b"zbcd")),
    ],
})];

/// What was written over comes back.
pub(crate) static WRITTEN_OVER: [Tried; 1] = [Tried::Script(&Script {
    steps: &[
        Step::Does(Call::Create("a")),
        Step::Does(Call::Write("a", 0, b"abcdef")),
        Step::Does(Call::Sync("a")),
        Step::Does(Call::Write("a", 3, b"12")),
        Step::Does(Call::Truncate("a", 2)),
        Step::Does(Call::Write("a", 1, b"34567890")),
        Step::Does(Call::Write("a", 4, b"x")),
        Step::Leaves(Left::Synced, 6, b"abcdef?"),
        Step::Does(Call::Sync("a")),
        Step::Does(Call::Truncate("a", 4)),
        Step::Leaves(Left::Synced, 9, b"a345x7890?"),
    ],
})];

fn writer_of<F: FileSystem>(
    fs: &mut F,
    path: &str,
    permission: Permission,
) -> Result<F::Writer, FsFault> {
    let handle = fs.open(path, permission)?;
    fs.new_writer(&handle)
}

// A failed read is counted by its reader, and by the files after the reader is given back.
fn reads<F: FileSystem>(
    alloc: Global,
    fs: &mut F,
    path: &str,
    count: usize,
    wanted: &[u8],
) -> Result<bool, FsFault> {
    let mut bytes = vec![in alloc; b'?'; wanted.len()]?;
    let handle = fs.open(path, Permission::ReadOnly)?;
    let mut reader = fs.new_reader(&handle)?;
    let answer = fs.read(&mut reader, 0, &mut bytes);
    let counted = fs.read_refusals(&reader) == u64::from(answer.is_err());
    fs.end_reader(reader);
    Ok(answer? == count && counted && bytes.as_slice() == wanted)
}

fn lists<F: FileSystem>(fs: &mut F, dir: &str, wanted: &[&str]) -> Result<bool, FsFault> {
    let names = fs.list(dir)?;
    for (name, wanted) in names.iter().zip(wanted) {
        if name.as_str() != *wanted {
            return Ok(false);
        }
    }
    Ok(names.len() == wanted.len())
}

fn change_bytes<F: FileSystem>(
    fs: &mut F,
    writer: &mut F::Writer,
    call: &Call,
) -> Result<(), FsFault> {
    match call {
        Call::Write(_, at, bytes) => fs.write(writer, *at, bytes),
        Call::Truncate(_, size) => fs.truncate(writer, *size),
        Call::Allocate(_, at, size) => fs.allocate(writer, *at, *size),
        Call::Sync(_) => fs.sync(writer),
        _ => Ok(()),
    }
}

fn change<F: FileSystem>(fs: &mut F, call: &Call) -> Result<(), FsFault> {
    match call {
        Call::MakeDir(path) => fs.make_dir(path),
        Call::Create(path) => {
            fs.create(path)?;
            Ok(())
        }
        Call::Writer(path, permission) => {
            writer_of(fs, path, *permission)?;
            Ok(())
        }
        Call::Write(path, _, _)
        | Call::Truncate(path, _)
        | Call::Allocate(path, _, _)
        | Call::Sync(path) => {
            let mut writer = writer_of(fs, path, Permission::ReadWrite)?;
            change_bytes(fs, &mut writer, call)
        }
        Call::Delete(path) => fs.delete(path),
        Call::Rename(from, to) => fs.rename(from, to),
        Call::Reuse(from, to) => {
            let handle = fs.reuse_and_open(from, to)?;
            fs.new_writer(&handle)?;
            Ok(())
        }
        _ => Ok(()),
    }
}

// Whether the call has the result that it names.
fn is_answered<F: FileSystem>(alloc: Global, fs: &mut F, call: &Call) -> Result<bool, FsFault> {
    match call {
        Call::Size(path, size) => {
            let handle = fs.open(path, Permission::ReadOnly)?;
            Ok(fs.file_size(&handle)? == *size)
        }
        Call::Read(path, count, bytes) => reads(alloc, fs, path, *count, bytes),
        Call::List(dir, names) => lists(fs, dir, names),
        _ => {
            change(fs, call)?;
            Ok(true)
        }
    }
}

fn choices(alloc: Global, left: &Left) -> Result<Vec<Choice>, AllocError> {
    let choice = match left {
        Left::Unsaid => return Ok(Vec::new(alloc)),
        Left::All => Choice::All,
        Left::Synced => Choice::Synced,
        Left::Torn(kept, fill) => Choice::Torn(*kept, *fill),
        Left::Bytes(bytes) => Choice::Bytes(bytes.to_vec(alloc)?),
    };
    Ok(vec![in alloc; choice]?)
}

fn crashed<F: Failing>(alloc: Global, fs: &F, left: &Left) -> Result<F, Fault> {
    fs.crashed(&choices(alloc, left)?)
}

fn leaves<F: Failing>(alloc: Global, fs: &F, left: &Left, count: usize, bytes: &[u8]) -> bool {
    match crashed(alloc, fs, left) {
        Ok(mut after) => reads(alloc, &mut after, "a", count, bytes) == Ok(true),
        Err(_) => false,
    }
}

fn leaves_not<F: Failing>(alloc: Global, fs: &F, left: &Left) -> bool {
    match crashed(alloc, fs, left) {
        Ok(_) => false,
        Err(fault) => fault.code() == 1,
    }
}

// Whether the step ends as the script says.
fn holds<F: Failing>(alloc: Global, fs: &mut F, step: &Step) -> bool {
    match step {
        Step::Does(wanted) => is_answered(alloc, fs, wanted) == Ok(true),
        Step::Refuses(wanted, kind) => { is_answered(alloc, fs, wanted) == Err(FsFault::Io(*kind)) }
        Step::IsFolder(path, wanted) => fs.is_dir(path) == *wanted,
        Step::IsFile(path, wanted) => fs.is_file(path) == *wanted,
        Step::Refused(count) => fs.refusals() == *count,
        Step::Arm(sort, nth) => fs.fail(*sort, *nth, IoKind::NoSpace).is_ok(),
        Step::ArmNone(sort) => fs.fail(*sort, 0, IoKind::NoSpace).is_err(),
        Step::Stop(nth) => {
            fs.stop(*nth);
            true
        }
        Step::Leaves(left, count, bytes) => leaves(alloc, fs, left, *count, bytes),
        Step::LeavesNot(left) => leaves_not(alloc, fs, left),
    }
}

/// Whether each step ends as the script says.
pub(crate) fn is_played<F: Failing>(fs: &mut F, alloc: Global, script: &Script) -> bool {
    for step in script.steps {
        if !holds(alloc, fs, step) {
            return false;
        }
    }
    true
}

fn has_kind_and_path(alloc: Global) -> bool {
    match FsFault::Io(IoKind::NotFound).with_path(alloc, "log") {
        Fault::Io(IoKind::NotFound, path) => path.as_str() == "log",
        _ => false,
    }
}

fn has_no_path(alloc: Global) -> bool {
    matches!(FsFault::Memory.with_path(alloc, "log"), Fault::Memory)
}

#[test]
fn a_fault_has_the_kind_and_the_path(rt: HostRuntime) {
    assert!(rt; has_kind_and_path(rt.alloc()));
    assert!(rt; has_no_path(rt.alloc()));
}
