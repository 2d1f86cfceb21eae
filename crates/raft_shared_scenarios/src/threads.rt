//! Threads over one engine, with a history and without.

use crate::asked::put_of;
use crate::seated::{last_keys, open, share};
use raft_log_engine::{Engine, Fault, FileSystem, MemoryFileSystem};
use raft_shared::{Call, Finished, Recorded, Reply, Seat, Shared, Unfinished};
use std::alloc::{AllocError, Global};
use std::sync::{Arc, Mutex, Wait};
use std::test::Fail;
use std::thread;
use std::thread::{JoinHandle, Threads};

type Together = Arc<Mutex<Shared<MemoryFileSystem>>, Global>;

type Alone = Arc<Mutex<Engine<MemoryFileSystem>>, Global>;

type Writer = JoinHandle<Result<Seat, Fault>>;

type Putter = JoinHandle<Result<(), Fault>>;

const WRITES: u8 = 10;

const SEATS: usize = 2;

/// The number of all writes.
const LIMIT: usize = 20;

/// The groups of four threads.
const GROUPS: [u64; 4] = [1, 2, 3, 4];

/// The capabilities of the runtime that the threads share.
trait Crew: Threads + Wait + Copy + Send + 'static {}

impl<R: Threads + Wait + Copy + Send + 'static> Crew for R {}

fn is_written(
    rt: &impl Wait,
    alloc: Global,
    shared: &Mutex<Shared<MemoryFileSystem>>,
    seat: &mut Seat,
    key: u8,
) -> bool {
    let group = seat.number() as u64;
    match put_of(alloc, group, &[key], &[key, key]) {
        Ok(mut batch) => shared.lock(rt).write(seat, &mut batch, false).is_ok(),
        Err(_fault) => false,
    }
}

fn write(
    rt: &impl Wait,
    alloc: Global,
    shared: &Mutex<Shared<MemoryFileSystem>>,
    mut seat: Seat,
) -> Result<Seat, Fault> {
    for key in 0..WRITES {
        if !is_written(rt, alloc, shared, &mut seat, key) {
            return Err(Fault::Failed);
        }
    }
    Ok(seat)
}

fn start_writers<R: Crew>(
    rt: &R,
    alloc: Global,
    together: &Together,
    seats: Vec<Seat>,
) -> Result<Vec<Writer>, AllocError> {
    let handle = *rt;
    let mut writers = Vec::new(alloc);
    for seat in seats {
        let theirs = Arc::try_clone(together)?;
        writers.push(thread::spawn(rt, move || write(&handle, alloc, &theirs, seat))?)?;
    }
    Ok(writers)
}

fn join_writers<R: Threads>(
    rt: &R,
    alloc: Global,
    writers: Vec<Writer>,
) -> Result<Vec<Seat>, Fault> {
    let mut seats = Vec::new(alloc);
    for writer in writers {
        seats.push(writer.join(rt)?)?;
    }
    Ok(seats)
}

// The seats after each has made its writes in its own thread.
fn seats_after<R: Crew>(
    rt: &R,
    alloc: Global,
    together: &Together,
    seats: Vec<Seat>,
) -> Result<Vec<Seat>, Fault> {
    join_writers(rt, alloc, start_writers(rt, alloc, together, seats)?)
}

// The history that the threads make.
fn history_of<R: Crew>(
    rt: &R,
    alloc: Global,
    together: Together,
    seats: Vec<Seat>,
) -> Result<Option<Vec<Recorded>>, Fault> {
    let seats = seats_after(rt, alloc, &together, seats)?;
    match Arc::into_inner(together) {
        Some(lock) => Ok(finish(lock.into_inner(), seats)),
        None => Ok(None),
    }
}

fn history<R: Crew>(rt: &R, alloc: Global) -> Result<Option<Vec<Recorded>>, Fault> {
    let (shared, seats) = share(alloc, MemoryFileSystem::new(alloc), LIMIT, SEATS)?;
    history_of(rt, alloc, Arc::new(alloc, Mutex::new(shared))?, seats)
}

// The history, if the seats' receipts are its calls.
fn finish<F: FileSystem + Drop>(shared: Shared<F>, seats: Vec<Seat>) -> Option<Vec<Recorded>> {
    match shared.finish(seats) {
        Ok(Finished { engine, trail }) => {
            engine.give_up();
            Some(trail)
        }
        Err(Unfinished { engine, .. }) => {
            engine.give_up();
            None
        }
    }
}

fn is_answered_write(recorded: &Recorded) -> bool {
    matches!(&*recorded.call, Call::Write(_, false))
        && matches!(&recorded.reply, Reply::Size(Ok(_)))
}

// The number of a seat's successful writes.
fn writes_of(trail: &[Recorded], seat: usize) -> usize {
    let mut count = 0usize;
    for recorded in trail {
        if recorded.seat == seat && is_answered_write(recorded) {
            count = count.saturating_add(1);
        }
    }
    count
}

fn are_of_each(trail: &[Recorded]) -> bool {
    let mut are_of_each = trail.len() == 20;
    for seat in 0..SEATS {
        are_of_each = are_of_each && writes_of(trail, seat) == 10;
    }
    are_of_each
}

fn is_history(history: Result<Option<Vec<Recorded>>, Fault>) -> bool {
    match history {
        Ok(Some(trail)) => are_of_each(&trail),
        Ok(None) => false,
        Err(_fault) => false,
    }
}

/// Two threads with a seat each make ten writes to a group of their own. The history has twenty
/// calls, ten from each seat, and each receipt is the call with its number.
#[test]
fn two_seats_one_history(rt: HostRuntime) -> Result<(), Fail> {
    assert!(rt; is_history(history(&rt, rt.alloc())));
    Ok(())
}

fn is_put(
    rt: &impl Wait,
    alloc: Global,
    engine: &Mutex<Engine<MemoryFileSystem>>,
    group: u64,
    key: u8,
) -> bool {
    match put_of(alloc, group, &[key], &[key, key]) {
        Ok(mut batch) => engine.lock(rt).write(&mut batch, false).is_ok(),
        Err(_fault) => false,
    }
}

fn put(
    rt: &impl Wait,
    alloc: Global,
    engine: &Mutex<Engine<MemoryFileSystem>>,
    group: u64,
) -> Result<(), Fault> {
    for key in 0..WRITES {
        if !is_put(rt, alloc, engine, group, key) {
            return Err(Fault::Failed);
        }
    }
    Ok(())
}

fn start_putters<R: Crew>(
    rt: &R,
    alloc: Global,
    together: &Alone,
) -> Result<Vec<Putter>, AllocError> {
    let handle = *rt;
    let mut putters = Vec::new(alloc);
    for group in &GROUPS {
        let group = *group;
        let theirs = Arc::try_clone(together)?;
        putters.push(thread::spawn(rt, move || put(&handle, alloc, &theirs, group))?)?;
    }
    Ok(putters)
}

fn join_putters<R: Threads>(rt: &R, putters: Vec<Putter>) -> Result<(), Fault> {
    for putter in putters {
        putter.join(rt)?;
    }
    Ok(())
}

// The number of keys of the engine after the threads' puts.
fn keys_after<R: Crew>(rt: &R, alloc: Global, together: Alone) -> Result<Option<usize>, Fault> {
    join_putters(rt, start_putters(rt, alloc, &together)?)?;
    match Arc::into_inner(together) {
        Some(lock) => Ok(last_keys(lock.into_inner())),
        None => Ok(None),
    }
}

fn keys_put<R: Crew>(rt: &R, alloc: Global) -> Result<Option<usize>, Fault> {
    let engine = open(alloc, MemoryFileSystem::new(alloc))?;
    keys_after(rt, alloc, Arc::new(alloc, Mutex::new(engine))?)
}

fn are_forty(keys: Result<Option<usize>, Fault>) -> bool {
    match keys {
        Ok(keys) => keys == Some(40),
        Err(_fault) => false,
    }
}

/// Four threads share an engine without a history and put ten keys each: the image has forty.
#[test]
fn four_threads_one_engine(rt: HostRuntime) -> Result<(), Fail> {
    assert!(rt; are_forty(keys_put(&rt, rt.alloc())));
    Ok(())
}
