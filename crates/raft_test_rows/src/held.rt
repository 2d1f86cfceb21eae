//! A log in a test: files in memory, or an engine over them.

use crate::plans::{Left, choices_of};
use crate::states::{MAX_FILES, State, state_of};
use raft_env::{FileSystem, IoKind};
use raft_memory::{FsCall, MemoryFileSystem};
use raft_records::Fault;
use raft_script::{Config, Engine, Refused};
use std::alloc::Global;
use std::mem;

/// A call that will fail: the nth of a sort with a kind of fault, or the nth that changes files
/// and each after it.
#[derive(Clone, Copy)]
pub enum Failing {
    Nth(FsCall, u64, IoKind),
    From(u64),
}

/// Files whose calls fail, and that crash, on request.
pub trait Faulty: FileSystem + Drop {
    fn fresh(alloc: Global) -> Self;

    fn fail(&mut self, failing: Failing) -> Result<(), Fault>;

    fn fail_under(engine: &mut Engine<Self>, failing: Failing) -> Result<(), Fault>;

    fn crash_to(&mut self, alloc: Global, left: &Left) -> Result<(), Fault>;

    /// Sets a folder's free space in bytes.
    fn free_to(&mut self, folder: &str, bytes: u64) -> Result<(), Fault>;

    /// Gives metadata to a path.
    fn note(&mut self, path: &str) -> Result<(), Fault>;

    /// The files after a crash.
    fn left(&self, alloc: Global, left: &Left) -> Result<Self, Fault>;

    /// The files with all of their bytes.
    fn copied(&self, alloc: Global) -> Result<Self, Fault>;
}

impl Faulty for MemoryFileSystem {
    fn fresh(alloc: Global) -> MemoryFileSystem {
        MemoryFileSystem::new(alloc)
    }

    fn fail(&mut self, failing: Failing) -> Result<(), Fault> {
        match failing {
            Failing::Nth(call, nth, kind) => self.refuse(call, nth, kind),
            Failing::From(nth) => {
                self.stop_at(nth);
                Ok(())
            }
        }
    }

    fn fail_under(engine: &mut Engine<MemoryFileSystem>, failing: Failing) -> Result<(), Fault> {
        match failing {
            Failing::Nth(call, nth, kind) => engine.refuse(call, nth, kind),
            Failing::From(nth) => {
                engine.stop_at(nth);
                Ok(())
            }
        }
    }

    fn crash_to(&mut self, alloc: Global, left: &Left) -> Result<(), Fault> {
        *self = self.left(alloc, left)?;
        Ok(())
    }

    fn free_to(&mut self, folder: &str, bytes: u64) -> Result<(), Fault> {
        Ok(self.set_free(folder, bytes)?)
    }

    fn note(&mut self, path: &str) -> Result<(), Fault> {
        Ok(self.set_metadata(path)?)
    }

    fn left(&self, alloc: Global, left: &Left) -> Result<MemoryFileSystem, Fault> {
        self.crash(&choices_of(alloc, left, MAX_FILES)?)
    }

    fn copied(&self, alloc: Global) -> Result<MemoryFileSystem, Fault> {
        self.left(alloc, &Left::All)
    }
}

/// The files, an engine over them, or neither.
#[derive(Drop)]
pub enum Held<F: FileSystem> {
    Files(F),
    Engine(Engine<F>),
    /// The files and the fault of the last opening or closing, which failed.
    Refused(Refused<F>),
    Nothing,
}

fn image_state<F: FileSystem>(engine: &mut Engine<F>) -> Option<State> {
    match engine.image() {
        Ok(image) => Some(state_of(&image)),
        Err(_fault) => None,
    }
}

impl<F: Faulty> Held<F> {
    /// Returns the files. An engine gives them up.
    pub fn into_files(self) -> Option<F> {
        match self {
            Held::Files(files) => Some(files),
            Held::Engine(engine) => Some(engine.give_up()),
            Held::Refused(refused) => Some(refused.file_system),
            Held::Nothing => None,
        }
    }

    /// Takes the files out. An engine gives them up.
    pub fn take(&mut self) -> Option<F> {
        mem::replace(self, Held::Nothing).into_files()
    }

    /// Replaces what is held. The old value is dropped by a call, since the proof of a drop is
    /// long.
    pub fn hold(&mut self, held: Held<F>) {
        mem::replace(self, held).into_files();
    }

    /// Holds the files that a crash leaves of another log. Returns whether that log has files and
    /// memory sufficed.
    pub fn hold_left(&mut self, alloc: Global, of: &mut Held<F>, left: &Left) -> bool {
        match of.files() {
            Some(files) => self.hold_made(files.left(alloc, left)),
            None => false,
        }
    }

    fn hold_made(&mut self, made: Result<F, Fault>) -> bool {
        match made {
            Ok(files) => {
                self.hold(Held::Files(files));
                true
            }
            Err(_fault) => false,
        }
    }

    /// Holds new files.
    pub fn renew(&mut self, alloc: Global) {
        self.hold(Held::Files(F::fresh(alloc)));
    }

    /// The files, unless an engine has them.
    pub fn files(&mut self) -> Option<&mut F> {
        match self {
            Held::Files(files) => Some(files),
            Held::Refused(refused) => Some(&mut refused.file_system),
            _ => None,
        }
    }

    pub fn give_up(&mut self) {
        if let Some(files) = self.take() {
            self.hold(Held::Files(files));
        }
    }

    /// Opens the files. An engine gives them up first.
    pub fn open_with(&mut self, alloc: Global, config: Config) {
        if let Some(files) = self.take() {
            match Engine::open_in_order(alloc, config, files) {
                Ok(engine) => self.hold(Held::Engine(engine)),
                Err(refused) => self.hold(Held::Refused(refused)),
            }
        }
    }

    fn close_engine(&mut self, engine: Engine<F>) {
        match engine.close() {
            Ok(files) => self.hold(Held::Files(files)),
            Err(refused) => self.hold(Held::Refused(refused)),
        }
    }

    pub fn close(&mut self) {
        match mem::replace(self, Held::Nothing) {
            Held::Engine(engine) => self.close_engine(engine),
            held => {
                held.into_files();
            }
        }
    }

    fn reopen_engine(&mut self, engine: Engine<F>) {
        match engine.reopen() {
            Ok(engine) => self.hold(Held::Engine(engine)),
            Err(refused) => self.hold(Held::Refused(refused)),
        }
    }

    pub fn reopen(&mut self) {
        match mem::replace(self, Held::Nothing) {
            Held::Engine(engine) => self.reopen_engine(engine),
            held => {
                held.into_files();
            }
        }
    }

    /// The number of failed calls on the files; 0 if an engine has them.
    pub fn refusals(&mut self) -> u64 {
        match self.files() {
            Some(files) => files.refusals(),
            None => 0,
        }
    }

    /// The state of the engine's image.
    pub fn state(&mut self) -> Option<State> {
        match self {
            Held::Engine(engine) => image_state(engine),
            _ => None,
        }
    }

    /// Why the last opening or closing failed, if it did.
    pub fn fault(&self) -> Option<&Fault> {
        match self {
            Held::Refused(refused) => Some(&refused.fault),
            _ => None,
        }
    }

    pub fn fail(&mut self, failing: Failing) -> bool {
        match self {
            Held::Engine(engine) => F::fail_under(engine, failing).is_ok(),
            Held::Files(files) => files.fail(failing).is_ok(),
            Held::Refused(refused) => refused.file_system.fail(failing).is_ok(),
            Held::Nothing => false,
        }
    }
}
