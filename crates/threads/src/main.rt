//! Four threads share an engine and its syncs. Each has a seat, puts keys that wait for the disk,
//! and reads them. Then the program checks that each put is in the history before a successful
//! sync, and that each value that was read is found after a crash that leaves only synced bytes.
#![tactic(auto)]

ghost use Rattle.std.specs.Prelude.{◌≡◌, Some};
ghost use Rattle.raft_shared.specs.Origin.{origin_of};

use anyhow::{Result, bail};
use raft_log_engine::{Config, Engine, Fault, FileSystem, Fresh, LogBatch, MemoryFileSystem};
use raft_shared::{
    Call, Desk, Durable, Finished, Naming, Opened, Recorded, Reply, Seat, Shared, Tickets,
};
use std::alloc::Global;
use std::marker::Brand;
use std::sync::{Arc, Wait};
use std::thread;
use std::thread::{JoinHandle, Threads};

const THREADS: usize = 4;

const PUTS: u8 = 10;

/// The most calls of the history.
const LIMIT: usize = 200;

/// The most writes that a thread waits for before it syncs.
const BOUND: u64 = 16;

type Together<J> = Arc<Tickets<MemoryFileSystem, J>, Global>;

type Worker<J> = JoinHandle<Result<Worked<J>, Fault>>;

// The work of a thread: its seat with the receipts of its calls, and a witness for each put.
#[derive(Drop)]
struct Worked<J: Naming> {
    seat: Seat,
    puts: Vec<Durable<J>>,
}

fn main(rt: HostRuntime) -> Result<()> {
    let (shared, seats) = share(rt.alloc(), MemoryFileSystem::new(rt.alloc()))?;
    play::<Brand, _>(&rt, rt.alloc(), Opened::new(), shared, seats)
}

// Shares an engine over new files, and takes the seats.
fn share<F: FileSystem + Drop>(alloc: Global, files: F) -> Result<(Shared<F>, Vec<Seat>), Fault> {
    let engine = Engine::open_in_order(alloc, Config::fresh(alloc), files)?;
    let mut shared = match Shared::new(alloc, engine, LIMIT) {
        Ok(shared) => shared,
        Err(refused) => {
            refused.engine.give_up();
            return Err(refused.fault);
        }
    };
    let seats = take_seats(alloc, &mut shared)?;
    Ok((shared, seats))
}

fn take_seats<F: FileSystem>(alloc: Global, shared: &mut Shared<F>) -> Result<Vec<Seat>, Fault> {
    let mut seats = Vec::new(alloc);
    for _ in 0..THREADS {
        seats.push(shared.seat()?)?;
    }
    Ok(seats)
}

// Runs the threads and the checks, with this name for the book.
fn play<J: Naming + Send + Sync + 'static, R: Threads + Wait + Print + Copy + Send + 'static>(
    rt: &R,
    alloc: Global,
    opened: Opened,
    shared: Shared<MemoryFileSystem>,
    seats: Vec<Seat>,
) -> Result<()>
    requires book { opened.seen.book ≡ J.book }
    requires origin { J.origin ≡ Some (origin_of shared) }
{
    let tickets: Tickets<MemoryFileSystem, J> = Tickets::new(opened, shared, BOUND);
    let together = Arc::new(alloc, tickets)?;
    let (seats, puts) = work_in_threads(rt, alloc, &together, seats)?;
    match Arc::into_inner(together) {
        Some(tickets) => report(rt, alloc, tickets.into_desk(), seats, &puts),
        None => bail!("a thread still has the engine"),
    }
}

// Runs each seat in its own thread. Returns the seats and the witnesses.
fn work_in_threads<J: Naming + Send + Sync + 'static, R: Threads + Wait + Copy + Send + 'static>(
    rt: &R,
    alloc: Global,
    together: &Together<J>,
    seats: Vec<Seat>,
) -> Result<(Vec<Seat>, Vec<Vec<Durable<J>>>)> {
    let workers = start(rt, alloc, together, seats)?;
    Ok(join_each(rt, alloc, workers)?)
}

// Starts a thread for each seat.
fn start<J: Naming + Send + Sync + 'static, R: Threads + Wait + Copy + Send + 'static>(
    rt: &R,
    alloc: Global,
    together: &Together<J>,
    seats: Vec<Seat>,
) -> Result<Vec<Worker<J>>> {
    let handle = *rt;
    let mut workers = Vec::new(alloc);
    for seat in seats {
        let theirs = Arc::try_clone(together)?;
        workers.push(thread::spawn(rt, move || work(&handle, alloc, &theirs, seat))?)?;
    }
    Ok(workers)
}

fn join_each<J: Naming + Send + 'static, R: Threads>(
    rt: &R,
    alloc: Global,
    workers: Vec<Worker<J>>,
) -> Result<(Vec<Seat>, Vec<Vec<Durable<J>>>), Fault> {
    let mut seats = Vec::new(alloc);
    let mut all = Vec::new(alloc);
    for worker in workers {
        let Worked { seat, puts } = worker.join(rt)?;
        seats.push(seat)?;
        all.push(puts)?;
    }
    Ok((seats, all))
}

// Puts keys of the seat's own group, waits for each put, and reads the key. No other seat has this
// group, so the value is the one that was put.
fn work<J: Naming, R: Wait>(
    rt: &R,
    alloc: Global,
    tickets: &Tickets<MemoryFileSystem, J>,
    mut seat: Seat,
) -> Result<Worked<J>, Fault> {
    let group = seat.number() as u64;
    let mut puts = Vec::new(alloc);
    for key in 0..PUTS {
        let mut batch = put_of(alloc, group, key)?;
        puts.push(tickets.write_synced(rt, &mut seat, &mut batch)?)?;
        tickets.get(rt, &mut seat, group, &[key])?;
    }
    Ok(Worked { seat, puts })
}

fn put_of(alloc: Global, group: u64, key: u8) -> Result<LogBatch, Fault> {
    let mut batch = LogBatch::new(alloc);
    batch.put(group, vec![in alloc; key]?, vec![in alloc; key, key]?)?;
    Ok(batch)
}

// Whether the history has each put before a successful sync.
fn are_durable<F: FileSystem, J: Naming>(desk: &Desk<F, J>, all: &[Vec<Durable<J>>]) -> bool {
    for puts in all {
        for put in puts {
            if !desk.finds(put) {
                return false;
            }
        }
    }
    true
}

// The same, and the engine with its history.
fn finish<F: FileSystem + Drop, J: Naming>(
    desk: Desk<F, J>,
    seats: Vec<Seat>,
    puts: &[Vec<Durable<J>>],
) -> Result<(bool, Finished<F>), Fault> {
    let durable = are_durable(&desk, puts);
    match desk.finish(seats) {
        Ok(finished) => Ok((durable, finished)),
        Err(unfinished) => {
            unfinished.engine.give_up();
            Err(unfinished.fault)
        }
    }
}

// Prints both results.
fn report<J: Naming, R: Print>(
    rt: &R,
    alloc: Global,
    desk: Desk<MemoryFileSystem, J>,
    seats: Vec<Seat>,
    puts: &[Vec<Durable<J>>],
) -> Result<()> {
    let (durable, finished) = finish(desk, seats, puts)?;
    let Finished { engine, trail } = finished;
    let found = finds_each_read(after_crash(alloc, engine)?, &trail)?;
    println!(rt; "each put is before a successful sync: {durable}")?;
    println!(rt; "each value that was read is found after a crash: {found}")?;
    Ok(())
}

// Opens the log after a crash that leaves only synced bytes.
fn after_crash(
    alloc: Global,
    engine: Engine<MemoryFileSystem>,
) -> Result<Engine<MemoryFileSystem>, Fault> {
    let files = engine.give_up().crash(&[])?;
    Ok(Engine::open_in_order(alloc, Config::fresh(alloc), files)?)
}

// Whether each read found a value, and the engine has it. Then gives up the engine.
fn finds_each_read<F: FileSystem + Drop>(
    engine: Engine<F>,
    trail: &[Recorded],
) -> Result<bool, Fault> {
    let found = holds_each_read(&engine, trail);
    engine.give_up();
    found
}

fn holds_each_read<F: FileSystem>(engine: &Engine<F>, trail: &[Recorded]) -> Result<bool, Fault> {
    for recorded in trail {
        let Call::Get(group, key) = &*recorded.call else {
            continue;
        };
        let Reply::Value(Ok(Some(value))) = &recorded.reply else {
            return Ok(false);
        };
        let Some(held) = engine.get(*group, key)? else {
            return Ok(false);
        };
        if held.as_slice() != value.as_slice() {
            return Ok(false);
        }
    }
    Ok(true)
}
