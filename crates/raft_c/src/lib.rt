//! The engine for C, by a handle. `clients/c/raftlog.c` calls these functions, one at a time for a
//! handle; `raftlog.h`, beside it, says what each call does.
#![tactic(auto)]

ghost use Rattle.std.specs.Prelude.{◌≡◌, None, IsSome};
ghost use Rattle.raft_c_log.specs.Calls.{fetch_of, scan_end, scan_of};
ghost use Rattle.raft_c.specs.Logs.{AreTold, EndsAfter, HasAdded, HasBegun, HasRead, HasSettled, IsCopied, OpensAfter, WaitsAfter};

mod handle;
mod loading;
mod log;
mod raw_box;

use handle::Handle;
use loading::{Found, NO_MEMORY};
use log::Log;
use raft_c_log::{Change, Fetch, Query, Scan};
use std::alloc::Global;

/// Begins a log in which nothing is found yet: 0, or 12 for lack of memory.
#[unsafe(no_mangle)]
pub extern "C" fn raft_c_begin(alloc: Global, handle: &mut Handle) -> i32
    requires { handle.old.value ≡ None }
    ensures value { HasBegun result handle.new.value }
{
    match Box::new(alloc, Log::new(alloc)) {
        Ok(log) => {
            *handle = Handle::of_box(log);
            0
        }
        Err(_) => NO_MEMORY,
    }
}

/// Frees a log.
#[unsafe(no_mangle)]
pub extern "C" fn raft_c_free(alloc: Global, handle: &mut Handle)
    requires { IsSome handle.old.value }
    ensures { handle.new.value ≡ None }
{
    let _log = std::mem::replace(handle, Handle::none()).into_box(alloc);
}

/// Adds a file, as it was found at a path. Returns 0; 1 if the path is no text or the log was not
/// begun; or 12 if memory ran out. After 1 or 12 the files that were added before stay.
#[unsafe(no_mangle)]
pub extern "C" fn raft_c_add_file(
    alloc: Global,
    handle: &mut Handle,
    path: &[u8],
    bytes: &[u8],
) -> i32
    requires { IsSome handle.old.value }
    ensures some { IsSome handle.new.value }
    ensures value { HasAdded path.now (Found.File bytes.entry) result handle.old.value
        handle.new.value }
{
    add(alloc, handle, path, Found::File(bytes))
}

/// Adds a folder that was found at a path, as `raft_c_add_file` a file.
#[unsafe(no_mangle)]
pub extern "C" fn raft_c_add_folder(alloc: Global, handle: &mut Handle, path: &[u8]) -> i32
    requires { IsSome handle.old.value }
    ensures some { IsSome handle.new.value }
    ensures value { HasAdded path.now Found.Folder result handle.old.value handle.new.value }
{
    add(alloc, handle, path, Found::Folder)
}

fn add(alloc: Global, handle: &mut Handle, path: &[u8], found: Found<'_>) -> i32
    requires { IsSome handle.old.value }
    ensures some { IsSome handle.new.value }
    ensures value { HasAdded path.now found.entry result handle.old.value handle.new.value }
{
    let mut log = std::mem::replace(handle, Handle::none()).into_box(alloc);
    let code = log.add(path, found);
    *handle = Handle::of_box(log);
    code
}

/// Opens the log over the added files, with settings as text. From then on its orders go to a
/// descriptor; below 0 none is written.
#[unsafe(no_mangle)]
pub extern "C" fn raft_c_open(alloc: Global, handle: &mut Handle, out: i32, settings: &[u8])
    requires { IsSome handle.old.value }
    ensures some { IsSome handle.new.value }
    ensures waits { OpensAfter settings.now handle.old.value handle.new.value }
{
    let mut log = std::mem::replace(handle, Handle::none()).into_box(alloc);
    log.open(out, settings);
    *handle = Handle::of_box(log);
}

/// Closes the log.
#[unsafe(no_mangle)]
pub extern "C" fn raft_c_close(alloc: Global, handle: &mut Handle)
    requires { IsSome handle.old.value }
    ensures some { IsSome handle.new.value }
    ensures ended { EndsAfter handle.old.value handle.new.value }
{
    let mut log = std::mem::replace(handle, Handle::none()).into_box(alloc);
    log.close();
    *handle = Handle::of_box(log);
}

// Carries a change out.
fn change(alloc: Global, handle: &mut Handle, change: Change<'_>)
    requires { IsSome handle.old.value }
    ensures some { IsSome handle.new.value }
    ensures waits { WaitsAfter change.entry handle.old.value handle.new.value }
{
    let mut log = std::mem::replace(handle, Handle::none()).into_box(alloc);
    log.change(change);
    *handle = Handle::of_box(log);
}

/// Writes a batch, given by its bytes.
#[unsafe(no_mangle)]
pub extern "C" fn raft_c_write(alloc: Global, handle: &mut Handle, batch: &[u8], sync: bool)
    requires { IsSome handle.old.value }
    ensures some { IsSome handle.new.value }
    ensures waits { WaitsAfter (Change.Write batch.entry sync) handle.old.value handle.new.value }
{
    change(alloc, handle, Change::Write(batch, sync));
}

/// Writes a batch, given by its bytes, with groups and the numbers beside them, by which it acts once.
#[unsafe(no_mangle)]
pub extern "C" fn raft_c_write_once(
    alloc: Global,
    handle: &mut Handle,
    batch: &[u8],
    groups: &[u64],
    numbers: &[u64],
    sync: bool,
)
    requires { IsSome handle.old.value }
    ensures some { IsSome handle.new.value }
    ensures waits { WaitsAfter (Change.WriteOnce batch.entry groups.entry numbers.entry sync)
        handle.old.value handle.new.value }
{
    change(
        alloc,
        handle,
        Change::WriteOnce(batch, groups, numbers, sync),
    );
}

/// Syncs everything that was written.
#[unsafe(no_mangle)]
pub extern "C" fn raft_c_sync(alloc: Global, handle: &mut Handle)
    requires { IsSome handle.old.value }
    ensures some { IsSome handle.new.value }
    ensures waits { WaitsAfter Change.Sync handle.old.value handle.new.value }
{
    change(alloc, handle, Change::Sync);
}

/// Drops a group's entries below an index. The first number is how many they were.
#[unsafe(no_mangle)]
pub extern "C" fn raft_c_compact_to(alloc: Global, handle: &mut Handle, group: u64, index: u64)
    requires { IsSome handle.old.value }
    ensures some { IsSome handle.new.value }
    ensures waits { WaitsAfter (Change.CompactTo group index) handle.old.value handle.new.value }
{
    change(alloc, handle, Change::CompactTo(group, index));
}

/// Writes the live data in the log files of the Append queue to the Rewrite queue, and drops these
/// files. The first number is how many there were.
#[unsafe(no_mangle)]
pub extern "C" fn raft_c_must_rewrite_append_queue(alloc: Global, handle: &mut Handle)
    requires { IsSome handle.old.value }
    ensures some { IsSome handle.new.value }
    ensures waits { WaitsAfter Change.RewriteAppendQueue handle.old.value handle.new.value }
{
    change(alloc, handle, Change::RewriteAppendQueue);
}

/// Writes what groups have in the log files of the Append queue, up to one with this number, or its
/// last one, to the Rewrite queue, and drops none. It takes the known groups from one on, as many
/// as have `budget` bytes there together, but at least one. The first number is the group with
/// which a next call continues, 0 if none is left, and the second one that of the last of these
/// files.
#[unsafe(no_mangle)]
pub extern "C" fn raft_c_must_rewrite_append_groups(
    alloc: Global,
    handle: &mut Handle,
    watermark: u64,
    from: u64,
    budget: u64,
)
    requires { IsSome handle.old.value }
    ensures some { IsSome handle.new.value }
    ensures waits { WaitsAfter (Change.RewriteAppendGroups watermark from budget)
        handle.old.value handle.new.value }
{
    change(
        alloc,
        handle,
        Change::RewriteAppendGroups(watermark, from, budget),
    );
}

/// Writes what groups have in the log files of the Rewrite queue to new ones, in several calls. It
/// takes the known groups from one on, as many as have `budget` bytes in that queue, but at least
/// one. After the last one it drops the old files. The first number is the group with which a next
/// call continues, 0 if none is left.
#[unsafe(no_mangle)]
pub extern "C" fn raft_c_must_rewrite_rewrite_groups(
    alloc: Global,
    handle: &mut Handle,
    from: u64,
    budget: u64,
)
    requires { IsSome handle.old.value }
    ensures some { IsSome handle.new.value }
    ensures waits { WaitsAfter (Change.RewriteRewriteGroups from budget)
        handle.old.value handle.new.value }
{
    change(alloc, handle, Change::RewriteRewriteGroups(from, budget));
}

/// Writes the live data in the log files of the Rewrite queue to a new one, and drops these files.
/// The first number is how many there were.
#[unsafe(no_mangle)]
pub extern "C" fn raft_c_must_rewrite_rewrite_queue(alloc: Global, handle: &mut Handle)
    requires { IsSome handle.old.value }
    ensures some { IsSome handle.new.value }
    ensures waits { WaitsAfter Change.RewriteRewriteQueue handle.old.value handle.new.value }
{
    change(alloc, handle, Change::RewriteRewriteQueue);
}

/// Drops the log files before the first referenced one, of both queues. The first number is how
/// many of them were the Append queue's.
#[unsafe(no_mangle)]
pub extern "C" fn raft_c_must_purge_all_stale(alloc: Global, handle: &mut Handle)
    requires { IsSome handle.old.value }
    ensures some { IsSome handle.new.value }
    ensures waits { WaitsAfter Change.PurgeAllStale handle.old.value handle.new.value }
{
    change(alloc, handle, Change::PurgeAllStale);
}

/// Rewrites the queues that are above the settings' thresholds, and drops no log file of the Append
/// queue from this number on. The result has the groups that should be compacted, each in eight
/// bytes, most significant first.
#[unsafe(no_mangle)]
pub extern "C" fn raft_c_purge_expired_files(alloc: Global, handle: &mut Handle, barrier: u64)
    requires { IsSome handle.old.value }
    ensures some { IsSome handle.new.value }
    ensures waits { WaitsAfter (Change.PurgeExpired barrier) handle.old.value handle.new.value }
{
    change(alloc, handle, Change::PurgeExpired(barrier));
}

/// The code of the last call that changes something, given to a caller that says whether it carried
/// all its orders out.
#[unsafe(no_mangle)]
pub extern "C" fn raft_c_settle(alloc: Global, handle: &mut Handle, carried_out: bool) -> i32
    requires { IsSome handle.old.value }
    ensures some { IsSome handle.new.value }
    ensures value { HasSettled carried_out result handle.old.value handle.new.value }
{
    let mut log = std::mem::replace(handle, Handle::none()).into_box(alloc);
    let code = log.settle(carried_out);
    *handle = Handle::of_box(log);
    code
}

// Reads, and copies the bytes of the result, as many as fit.
fn read(alloc: Global, handle: &mut Handle, query: Query<'_>, out: &mut [u8], len: &mut u64) -> i32
    requires { IsSome handle.old.value }
    ensures some { IsSome handle.new.value }
    ensures value { HasRead query.entry result handle.old.value handle.new.value }
    ensures copied { IsCopied handle.new.value out.old out.new len.new }
{
    let mut log = std::mem::replace(handle, Handle::none()).into_box(alloc);
    let code = log.read(query);
    *len = log.copy_answer(out);
    *handle = Handle::of_box(log);
    code
}

/// A group's value at a key.
#[unsafe(no_mangle)]
pub extern "C" fn raft_c_get(
    alloc: Global,
    handle: &mut Handle,
    group: u64,
    key: &[u8],
    out: &mut [u8],
    len: &mut u64,
) -> i32
    requires { IsSome handle.old.value }
    ensures some { IsSome handle.new.value }
    ensures value { HasRead (Query.Get group key.entry) result handle.old.value handle.new.value }
    ensures copied { IsCopied handle.new.value out.old out.new len.new }
{
    read(alloc, handle, Query::Get(group, key), out, len)
}

/// The value of a group's entry with an index.
#[unsafe(no_mangle)]
pub extern "C" fn raft_c_get_entry(
    alloc: Global,
    handle: &mut Handle,
    group: u64,
    index: u64,
    out: &mut [u8],
    len: &mut u64,
) -> i32
    requires { IsSome handle.old.value }
    ensures some { IsSome handle.new.value }
    ensures value { HasRead (Query.Entry group index) result handle.old.value handle.new.value }
    ensures copied { IsCopied handle.new.value out.old out.new len.new }
{
    read(alloc, handle, Query::Entry(group, index), out, len)
}

/// A group's entries from one index up to the one before another, each with its length before it.
/// They take at most `max_size` bytes without these, but one at least; 0 is no bound.
#[unsafe(no_mangle)]
pub extern "C" fn raft_c_fetch(
    alloc: Global,
    handle: &mut Handle,
    group: u64,
    begin: u64,
    end: u64,
    max_size: u64,
    out: &mut [u8],
    len: &mut u64,
) -> i32
    requires { IsSome handle.old.value }
    ensures some { IsSome handle.new.value }
    ensures value { HasRead (Query.Fetch (fetch_of group begin end max_size)) result
        handle.old.value handle.new.value }
    ensures copied { IsCopied handle.new.value out.old out.new len.new }
{
    let fetch = Fetch {
        group,
        begin,
        end,
        max_size,
    };
    read(alloc, handle, Query::Fetch(fetch), out, len)
}

/// A group's keys and values between bounds, each with its length before it. The limit 0 is none.
#[unsafe(no_mangle)]
pub extern "C" fn raft_c_scan(
    alloc: Global,
    handle: &mut Handle,
    group: u64,
    start: &[u8],
    end: &[u8],
    has_end: bool,
    reverse: bool,
    limit: u64,
    out: &mut [u8],
    len: &mut u64,
) -> i32
    requires { IsSome handle.old.value }
    ensures some { IsSome handle.new.value }
    ensures value { HasRead (Query.Scan (scan_of group start.entry (scan_end has_end end.entry)
        reverse limit)) result handle.old.value handle.new.value }
    ensures copied { IsCopied handle.new.value out.old out.new len.new }
{
    let scan = Scan {
        group,
        start,
        end: if has_end { Some(end) } else { None },
        reverse,
        limit,
    };
    read(alloc, handle, Query::Scan(scan), out, len)
}

/// The known groups, each in eight bytes, the greatest first.
#[unsafe(no_mangle)]
pub extern "C" fn raft_c_groups(
    alloc: Global,
    handle: &mut Handle,
    out: &mut [u8],
    len: &mut u64,
) -> i32
    requires { IsSome handle.old.value }
    ensures some { IsSome handle.new.value }
    ensures value { HasRead Query.Groups result handle.old.value handle.new.value }
    ensures copied { IsCopied handle.new.value out.old out.new len.new }
{
    read(alloc, handle, Query::Groups, out, len)
}

/// A group's first and last index, which are the numbers then.
#[unsafe(no_mangle)]
pub extern "C" fn raft_c_span(alloc: Global, handle: &mut Handle, group: u64) -> i32
    requires { IsSome handle.old.value }
    ensures some { IsSome handle.new.value }
    ensures value { HasRead (Query.Span group) result handle.old.value handle.new.value }
{
    let mut log = std::mem::replace(handle, Handle::none()).into_box(alloc);
    let code = log.read(Query::Span(group));
    *handle = Handle::of_box(log);
    code
}

/// What a purge by the settings' thresholds would rewrite now. The first number is the last file of
/// the Append queue, 0 if none; the second one is 1 if the Rewrite queue is to be rewritten, else 0.
#[unsafe(no_mangle)]
pub extern "C" fn raft_c_purge_needs(alloc: Global, handle: &mut Handle) -> i32
    requires { IsSome handle.old.value }
    ensures some { IsSome handle.new.value }
    ensures value { HasRead Query.PurgeNeeds result handle.old.value handle.new.value }
{
    let mut log = std::mem::replace(handle, Handle::none()).into_box(alloc);
    let code = log.read(Query::PurgeNeeds);
    *handle = Handle::of_box(log);
    code
}

/// The bytes of the last call's result, or the text of its failure, once more.
#[unsafe(no_mangle)]
pub extern "C" fn raft_c_answer(alloc: Global, handle: &mut Handle, out: &mut [u8]) -> u64
    requires { IsSome handle.old.value }
    ensures some { handle.new.value ≡ handle.old.value }
    ensures copied { IsCopied handle.new.value out.old out.new result }
{
    let log = std::mem::replace(handle, Handle::none()).into_box(alloc);
    let len = log.copy_answer(out);
    *handle = Handle::of_box(log);
    len
}

/// The numbers of the last call's result.
#[unsafe(no_mangle)]
pub extern "C" fn raft_c_numbers(
    alloc: Global,
    handle: &mut Handle,
    first: &mut u64,
    second: &mut u64,
)
    requires { IsSome handle.old.value }
    ensures some { handle.new.value ≡ handle.old.value }
    ensures numbers { AreTold handle.new.value first.new second.new }
{
    let log = std::mem::replace(handle, Handle::none()).into_box(alloc);
    (*first, *second) = log.numbers();
    *handle = Handle::of_box(log);
}

/// How many bytes of memory the index has reserved, how many reads of an entry found its block
/// kept, and how many had to read it. All are 0 in a log that isn't open.
#[unsafe(no_mangle)]
pub extern "C" fn raft_c_counts(
    alloc: Global,
    handle: &mut Handle,
    index_bytes: &mut u64,
    hits: &mut u64,
    misses: &mut u64,
)
    requires { IsSome handle.old.value }
    ensures some { handle.new.value ≡ handle.old.value }
{
    let log = std::mem::replace(handle, Handle::none()).into_box(alloc);
    let (bytes, blocks) = log.counts();
    *index_bytes = bytes;
    *hits = blocks.hits;
    *misses = blocks.misses;
    *handle = Handle::of_box(log);
}
