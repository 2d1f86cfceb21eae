//! A shared engine over files in memory, and its seats.

use crate::asked::{Ask, batch_of, put_of};
use raft_log_engine::{Config, Engine, Fault, FileSystem, Fresh, FsCall, IoKind, MemoryFileSystem};
use raft_shared::{Finished, Receipt, Recorded, Reply, Seat, Shared, Unfinished};
use std::alloc::Global;
use std::mem;

/// Files whose calls fail, and that crash, on request.
pub(crate) trait Faulty: FileSystem + Drop {
    fn fresh(alloc: Global) -> Self;

    /// The next sync fails.
    fn refuse_sync(engine: &mut Engine<Self>) -> Result<(), Fault>;

    /// Crashes the files: each keeps only its synced bytes.
    fn crash_to_synced(&mut self) -> Result<(), Fault>;
}

impl Faulty for MemoryFileSystem {
    fn fresh(alloc: Global) -> MemoryFileSystem {
        MemoryFileSystem::new(alloc)
    }

    fn refuse_sync(engine: &mut Engine<MemoryFileSystem>) -> Result<(), Fault> {
        engine.refuse(FsCall::Sync, 1, IoKind::Other)
    }

    fn crash_to_synced(&mut self) -> Result<(), Fault> {
        *self = self.crash(&[])?;
        Ok(())
    }
}

/// The code of `Fault::Memory`.
pub(crate) const MEMORY: u8 = 12;

/// The files, an engine over them, or a shared engine.
#[derive(Drop)]
enum Stage<F: FileSystem> {
    Files(F),
    Alone(Engine<F>),
    Shared(Shared<F>),
    Nothing,
}

fn engine_of<F: FileSystem>(alloc: Global, shared: Shared<F>) -> Engine<F> {
    match shared.finish(Vec::new(alloc)) {
        Ok(Finished { engine, .. }) => engine,
        Err(Unfinished { engine, .. }) => engine,
    }
}

pub(crate) fn open<F: FileSystem + Drop>(alloc: Global, files: F) -> Result<Engine<F>, Fault> {
    match Engine::open_in_order(alloc, Config::fresh(alloc), files) {
        Ok(engine) => Ok(engine),
        Err(refused) => Err(refused.fault),
    }
}

fn share_engine<F: FileSystem + Drop>(
    alloc: Global,
    engine: Engine<F>,
    limit: usize,
) -> Result<Shared<F>, Fault> {
    match Shared::new(alloc, engine, limit) {
        Ok(shared) => Ok(shared),
        Err(refused) => {
            refused.engine.give_up();
            Err(refused.fault)
        }
    }
}

fn seats_of<F: FileSystem>(
    alloc: Global,
    shared: &mut Shared<F>,
    count: usize,
) -> Result<Vec<Seat>, Fault> {
    let mut seats = Vec::new(alloc);
    for _ in 0..count {
        seats.push(shared.seat()?)?;
    }
    Ok(seats)
}

/// Shares an engine over files, for this number of calls and seats.
pub(crate) fn share<F: FileSystem + Drop>(
    alloc: Global,
    files: F,
    limit: usize,
    count: usize,
) -> Result<(Shared<F>, Vec<Seat>), Fault> {
    let mut shared = share_engine(alloc, open(alloc, files)?, limit)?;
    match seats_of(alloc, &mut shared, count) {
        Ok(seats) => Ok((shared, seats)),
        Err(fault) => {
            engine_of(alloc, shared).give_up();
            Err(fault)
        }
    }
}

// An engine is dropped by calls, since the proof of a drop is long.
fn files_of<F: FileSystem>(alloc: Global, stage: Stage<F>) -> Option<F> {
    match stage {
        Stage::Files(files) => Some(files),
        Stage::Alone(engine) => Some(engine.give_up()),
        Stage::Shared(shared) => Some(engine_of(alloc, shared).give_up()),
        Stage::Nothing => None,
    }
}

/// An engine, its seats, and the results of sharing.
#[derive(Drop)]
pub(crate) struct Seated<F: FileSystem> {
    stage: Stage<F>,
    pub(crate) seats: Vec<Seat>,
    /// The number of calls in the history after the seats were handed over. If they were refused,
    /// `refused` has the fault's code and the number of seats that were returned.
    pub(crate) calls: usize,
    pub(crate) refused: Option<(u8, usize)>,
    /// The code of the fault with which opening or sharing failed.
    pub(crate) code: u8,
}

/// The number of keys of all groups; `None` if the engine has failed.
fn keys_in<F: FileSystem>(engine: &mut Engine<F>) -> Option<usize> {
    match engine.image() {
        Ok(image) => {
            let mut keys = 0usize;
            for group in &image.groups {
                keys = keys.saturating_add(group.pairs.len());
            }
            Some(keys)
        }
        Err(_fault) => None,
    }
}

/// The same, and gives up the engine.
pub(crate) fn last_keys<F: FileSystem + Drop>(mut engine: Engine<F>) -> Option<usize> {
    let keys = keys_in(&mut engine);
    engine.give_up();
    keys
}

/// Writes the call's batch without a sync.
fn write<F: FileSystem>(
    alloc: Global,
    shared: &mut Shared<F>,
    seat: &mut Seat,
    ask: &Ask,
) -> Result<Receipt, Fault> {
    let mut batch = batch_of(alloc, ask)?;
    shared.write(seat, &mut batch, false)
}

fn write_once<F: FileSystem>(
    alloc: Global,
    shared: &mut Shared<F>,
    seat: &mut Seat,
    ask: &Ask,
    pairs: &[(u64, u64)],
) -> Result<Receipt, Fault> {
    let mut batch = batch_of(alloc, ask)?;
    shared.write_once(seat, &mut batch, pairs, true)
}

// Whether a reply has the value that a look-up found. The second one may have no memory.
fn is_found(reply: &Reply, found: &Result<Option<Vec<u8>>, Fault>) -> bool {
    match (reply, found) {
        (Reply::Value(Ok(Some(value))), Ok(Some(found))) => value.as_slice() == found.as_slice(),
        (Reply::Value(Ok(None)), Ok(None)) => true,
        (Reply::Value(Err(Fault::Memory)), _) => true,
        (Reply::Value(Err(fault)), Err(other)) => fault.code() == other.code(),
        _ => false,
    }
}

// Looks a key up without a record and as a call of the history, with one result. If there is no
// memory for the first look-up, nothing was recorded.
fn get<F: FileSystem>(
    shared: &mut Shared<F>,
    seat: &mut Seat,
    group: u64,
    key: &[u8],
) -> Result<Receipt, Fault> {
    let found = shared.look_up(group, key);
    if matches!(&found, Err(Fault::Memory)) {
        return Err(Fault::Memory);
    }
    let receipt = shared.get(seat, group, key)?;
    if is_found(&receipt.reply, &found) {
        Ok(receipt)
    } else {
        Err(Fault::Layer)
    }
}

fn ask_by<F: FileSystem>(
    alloc: Global,
    shared: &mut Shared<F>,
    seat: &mut Seat,
    ask: &Ask,
) -> Result<Receipt, Fault> {
    match ask {
        Ask::Put(_, _, _) | Ask::Entries(_) => write(alloc, shared, seat, ask),
        Ask::PutOnce(_, pairs) => write_once(alloc, shared, seat, ask, pairs),
        Ask::Get(group, key) => get(shared, seat, *group, key),
        Ask::First(group) => shared.first_index(seat, *group),
        Ask::Last(group) => shared.last_index(seat, *group),
        Ask::Sync => shared.sync(seat),
    }
}

fn is_put<F: FileSystem>(alloc: Global, engine: &mut Engine<F>) -> bool {
    match put_of(alloc, 1, b"k", b"v") {
        Ok(mut batch) => engine.write(&mut batch, false).is_ok(),
        Err(_fault) => false,
    }
}

fn is_value(value: Option<Vec<u8>>, wanted: Option<&[u8]>) -> bool {
    match (&value, wanted) {
        (Some(value), Some(wanted)) => value.as_slice() == wanted,
        (None, None) => true,
        _ => false,
    }
}

fn has_value<F: FileSystem>(engine: &Engine<F>, wanted: Option<&[u8]>) -> bool {
    match engine.get(1, b"k") {
        Ok(value) => is_value(value, wanted),
        Err(_fault) => false,
    }
}

impl<F: Faulty> Seated<F> {
    pub(crate) fn new(alloc: Global, files: F) -> Seated<F> {
        Seated {
            stage: Stage::Files(files),
            seats: Vec::new(alloc),
            calls: 0,
            refused: None,
            code: 0,
        }
    }

    /// Drops it by calls.
    pub(crate) fn end(self, alloc: Global) {
        files_of(alloc, self.stage);
    }

    fn take(&mut self, alloc: Global) -> Option<F> {
        files_of(alloc, mem::replace(&mut self.stage, Stage::Nothing))
    }

    fn hold(&mut self, alloc: Global, stage: Stage<F>) {
        files_of(alloc, mem::replace(&mut self.stage, stage));
    }

    fn open(&mut self, alloc: Global) -> bool {
        let Some(files) = self.take(alloc) else {
            return false;
        };
        match Engine::open_in_order(alloc, Config::fresh(alloc), files) {
            Ok(engine) => {
                self.hold(alloc, Stage::Alone(engine));
                true
            }
            Err(refused) => {
                self.code = refused.fault.code();
                self.hold(alloc, Stage::Files(refused.file_system));
                false
            }
        }
    }

    // Lets the next sync fail if the flag is set.
    fn arm(&mut self, is_sync_refused: bool) -> bool {
        match &mut self.stage {
            Stage::Alone(engine) => !is_sync_refused || F::refuse_sync(engine).is_ok(),
            _ => false,
        }
    }

    fn share(&mut self, alloc: Global, limit: usize) -> bool {
        match mem::replace(&mut self.stage, Stage::Nothing) {
            Stage::Alone(engine) => self.share_engine(alloc, engine, limit),
            stage => {
                self.hold(alloc, stage);
                false
            }
        }
    }

    fn share_engine(&mut self, alloc: Global, engine: Engine<F>, limit: usize) -> bool {
        match Shared::new(alloc, engine, limit) {
            Ok(shared) => {
                self.hold(alloc, Stage::Shared(shared));
                true
            }
            Err(refused) => {
                self.code = refused.fault.code();
                self.hold(alloc, Stage::Alone(refused.engine));
                false
            }
        }
    }

    fn add_seat(&mut self, seat: Result<Seat, Fault>) -> bool {
        match seat {
            Ok(seat) => {
                self.code = MEMORY;
                self.seats.push(seat).is_ok()
            }
            Err(fault) => {
                self.code = fault.code();
                false
            }
        }
    }

    fn take_seat(&mut self) -> bool {
        let seat = match &mut self.stage {
            Stage::Shared(shared) => shared.seat(),
            _ => return false,
        };
        self.add_seat(seat)
    }

    fn take_seats(&mut self, count: usize) -> bool {
        self.seats.truncate(0);
        for _ in 0..count {
            if !self.take_seat() {
                return false;
            }
        }
        true
    }

    /// Shares an engine over new files, for this number of calls and seats. The first sync after
    /// the opening fails if the flag is set.
    pub(crate) fn begin(
        &mut self,
        alloc: Global,
        is_sync_refused: bool,
        limit: usize,
        count: usize,
    ) -> bool {
        self.hold(alloc, Stage::Files(F::fresh(alloc)));
        self.open(alloc)
            && self.arm(is_sync_refused)
            && self.share(alloc, limit)
            && self.take_seats(count)
    }

    /// Whether an engine with a key is returned if memory for this number of calls runs out.
    pub(crate) fn comes_back(&mut self, alloc: Global, limit: usize) -> bool {
        self.hold(alloc, Stage::Files(F::fresh(alloc)));
        self.open(alloc)
            && self.puts(alloc)
            && !self.share(alloc, limit)
            && self.code == MEMORY
            && self.keys() == Some(1)
    }

    fn puts(&mut self, alloc: Global) -> bool {
        match &mut self.stage {
            Stage::Alone(engine) => is_put(alloc, engine),
            _ => false,
        }
    }

    /// Makes a call from the seat of this number, which exists in each story. Writes without
    /// numbers have no sync.
    pub(crate) fn ask(&mut self, alloc: Global, seat: usize, ask: &Ask) -> Result<Receipt, Fault> {
        let Some(seat) = self.seats.get_mut(seat) else {
            return Err(Fault::Failed);
        };
        match &mut self.stage {
            Stage::Shared(shared) => ask_by(alloc, shared, seat, ask),
            _ => Err(Fault::Failed),
        }
    }

    fn keep(&mut self, alloc: Global, engine: Engine<F>, trail: &[Recorded]) {
        self.calls = trail.len();
        self.hold(alloc, Stage::Alone(engine));
    }

    /// Hands over the seats and finishes the history.
    pub(crate) fn hand_over(&mut self, alloc: Global) {
        match mem::replace(&mut self.stage, Stage::Nothing) {
            Stage::Shared(shared) => self.finish(alloc, shared),
            stage => self.hold(alloc, stage),
        }
    }

    fn finish(&mut self, alloc: Global, shared: Shared<F>) {
        let seats = mem::replace(&mut self.seats, Vec::new(alloc));
        match shared.finish(seats) {
            Ok(Finished { engine, trail }) => {
                self.refused = None;
                self.keep(alloc, engine, &trail);
            }
            Err(
                Unfinished {
                    fault,
                    engine,
                    trail,
                    seats,
                },
            ) => {
                self.refused = Some((fault.code(), seats.len()));
                self.keep(alloc, engine, &trail);
            }
        }
    }

    /// The number of keys of the engine; `None` if it has failed.
    pub(crate) fn keys(&mut self) -> Option<usize> {
        match &mut self.stage {
            Stage::Alone(engine) => keys_in(engine),
            _ => None,
        }
    }

    fn crash(&mut self, alloc: Global) -> bool {
        let Some(mut files) = self.take(alloc) else {
            return false;
        };
        let is_crashed = files.crash_to_synced().is_ok();
        self.hold(alloc, Stage::Files(files));
        is_crashed
    }

    /// Whether the key k of group 1 has this value after a crash that leaves only synced bytes.
    pub(crate) fn has_synced(&mut self, alloc: Global, wanted: Option<&[u8]>) -> bool {
        if !self.crash(alloc) || !self.open(alloc) {
            return false;
        }
        match &self.stage {
            Stage::Alone(engine) => has_value(engine, wanted),
            _ => false,
        }
    }
}
