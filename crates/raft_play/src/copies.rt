//! Lines that open copies of files: in order, by workers, and with a read that fails.

use crate::asked::{CopyLine, CrashLine};
use crate::files::{bytes_at, mode_of};
use crate::line::Line;
use raft_env::{FileSystem, FsFault, IoKind};
use raft_memory::FsCall;
use raft_records::Fault;
use raft_test_rows::{Config, Engine, Failing, Faulty, Held, Left, RecoveryMode};
use std::alloc::Global;
use std::thread::Threads;

/// How a copy is opened: with these settings, but in this mode, and by so many workers.
#[derive(Clone, Copy)]
struct Way<'a> {
    config: &'a Config,
    mode: RecoveryMode,
    workers: usize,
}

impl Way<'_> {
    fn config(self) -> Result<Config, Fault> {
        let mut config = self.config.clone()?;
        config.recovery_mode = self.mode;
        config.recovery_threads = self.workers;
        Ok(config)
    }

    // Opens the files in order. Returns whether there was memory for the settings.
    fn open<F: Faulty>(self, alloc: Global, held: &mut Held<F>) -> bool {
        match self.config() {
            Ok(config) => {
                held.open_with(alloc, config);
                true
            }
            Err(_fault) => false,
        }
    }

    // The same by workers.
    fn open_by_workers<R: Threads + Sync, F: Faulty>(
        self,
        rt: &R,
        alloc: Global,
        held: &mut Held<F>,
    ) -> bool {
        match self.config() {
            Ok(config) => {
                open_by_workers(rt, alloc, held, config);
                true
            }
            Err(_fault) => false,
        }
    }
}

fn open_by_workers<R: Threads + Sync, F: Faulty>(
    rt: &R,
    alloc: Global,
    held: &mut Held<F>,
    config: Config,
) {
    if let Some(files) = held.take() {
        match Engine::open_with_file_system(rt, alloc, config, files) {
            Ok(engine) => held.hold(Held::Engine(engine)),
            Err(refused) => held.hold(Held::Refused(refused)),
        }
    }
}

// The files as a crash leaves them; nothing if there is no memory.
fn left_of<F: Faulty>(alloc: Global, files: &F, left: &Left) -> Held<F> {
    match files.left(alloc, left) {
        Ok(files) => Held::Files(files),
        Err(_fault) => Held::Nothing,
    }
}

// The code with which the last opening or closing was refused.
fn code_of<F: Faulty>(held: &Held<F>) -> Option<u8> {
    match held.fault() {
        Some(fault) => Some(fault.code()),
        None => None,
    }
}

// Opens files. If that succeeds, closes them, opens them again in the mode that tolerates nothing,
// and prints the state that both openings find.
fn try_files<F: Faulty>(line: &mut Line, held: &mut Held<F>, way: Way<'_>) {
    let alloc = line.alloc;
    if !way.open(alloc, held) {
        return line.refuse(Fault::Memory);
    }
    if let Some(code) = code_of(held) {
        return line.refused(code);
    }
    let found = held.state();
    held.close();
    let mode = RecoveryMode::AbsoluteConsistency;
    let is_found = Way { mode, ..way }.open(alloc, held) && held.state() == found;
    match found {
        Some(state) if is_found => line.said.state(&state),
        _ => line.said.say("otherwise"),
    }
}

fn is_same_file<F: FileSystem>(
    alloc: Global,
    one: &mut F,
    other: &mut F,
    name: &str,
) -> Result<bool, FsFault> {
    let path = format!(in alloc; "raft/{name}")?;
    let bytes = bytes_at(alloc, one, path.as_str())?;
    Ok(bytes == bytes_at(alloc, other, path.as_str())?)
}

// Whether both have the same files in the folder `raft`, byte for byte.
fn are_same_files<F: FileSystem>(
    alloc: Global,
    one: &mut F,
    other: &mut F,
) -> Result<bool, FsFault> {
    let names = one.list("raft")?;
    let mut are_same = names == other.list("raft")?;
    for name in &names {
        are_same = are_same && is_same_file(alloc, one, other, name.as_str())?;
    }
    Ok(are_same)
}

// The same of what is held. Engines give up their files first.
fn have_same_files<F: Faulty>(alloc: Global, one: &mut Held<F>, other: &mut Held<F>) -> bool {
    one.give_up();
    other.give_up();
    match one.files() {
        Some(one) => match other.files() {
            Some(other) => matches!(are_same_files(alloc, one, other), Ok(true)),
            None => false,
        },
        None => false,
    }
}

// Whether both openings found the same contents, or failed with the same fault.
fn have_come_to_the_same<F: Faulty>(one: &mut Held<F>, other: &mut Held<F>) -> bool {
    match one {
        Held::Engine(one) => match other {
            Held::Engine(other) => one.image() == other.image(),
            _ => false,
        },
        Held::Refused(one) => match other {
            Held::Refused(other) => one.fault == other.fault,
            _ => false,
        },
        _ => false,
    }
}

// Whether an opening in order and one by workers find, cut and refuse the same.
fn are_alike<R: Threads + Sync, F: Faulty>(
    rt: &R,
    alloc: Global,
    one: &mut Held<F>,
    other: &mut Held<F>,
    way: Way<'_>,
) -> bool {
    way.open(alloc, one)
        && way.open_by_workers(rt, alloc, other)
        && have_come_to_the_same(one, other)
        && have_same_files(alloc, one, other)
}

// Whether the opening's fault is the failed read's; `None` if it succeeded.
fn is_refused<F: Faulty>(held: &Held<F>) -> Option<bool> {
    match held.fault()? {
        Fault::Io(IoKind::Other, _) => Some(true),
        _ => Some(false),
    }
}

// Lets the nth read of an opening by workers fail. Prints whether the opening then fails with this
// fault and changes no file, or isn't refused because it reads less often.
fn refuse_read<R: Threads + Sync, F: Faulty>(
    rt: &R,
    line: &mut Line,
    one: &mut Held<F>,
    other: &mut Held<F>,
    way: Way<'_>,
) {
    let failing = Failing::Nth(FsCall::Read, line.number(1), IoKind::Other);
    if !one.fail(failing) || !way.open_by_workers(rt, line.alloc, one) {
        return line.bad();
    }
    let refused = is_refused(one);
    one.give_up();
    let is_met = one.refusals() > 0;
    let is_unread = matches!(refused, Some(true))
        && is_met
        && have_same_files(line.alloc, one, other);
    let is_read = refused.is_none() && !is_met;
    line.said.say(if is_unread {
        "unread"
    } else if is_read {
        "read"
    } else {
        "otherwise"
    });
}

// What a crash leaves of the copies; without one they have all bytes.
fn left_in(line: &Line, asked: CopyLine) -> Left {
    match asked {
        CopyLine::Alike(CrashLine::Synced) => Left::Synced,
        CopyLine::Alike(CrashLine::Torn) => Left::Torn(line.number(1) as usize, line.byte(2)),
        _ => Left::All,
    }
}

// Opens one or both of two copies. They are dropped by calls.
fn open_copies<R: Threads + Sync, F: Faulty>(
    rt: &R,
    line: &mut Line,
    files: &F,
    way: Way<'_>,
    asked: CopyLine,
) {
    let left = left_in(line, asked);
    let mut one = left_of(line.alloc, files, &left);
    let mut other = left_of(line.alloc, files, &left);
    match asked {
        CopyLine::Try => try_files(line, &mut one, way),
        CopyLine::Alike(_) => {
            let alike = are_alike(rt, line.alloc, &mut one, &mut other, way);
            line.said.whether(alike);
        }
        CopyLine::Unread => refuse_read(rt, line, &mut one, &mut other, way),
    }
    one.into_files();
    other.into_files();
}

// The mode of a line; that of a line without one tolerates any damage.
fn way_of<'a>(line: &Line, config: &'a Config) -> Option<Way<'a>> {
    let mode = match line.text(0) {
        "" => RecoveryMode::TolerateAnyCorruption,
        word => mode_of(word)?,
    };
    let workers = line.bound(0).unwrap_or(0) as usize;
    Some(Way {
        config,
        mode,
        workers,
    })
}

/// Opens copies of files, and prints what comes of it.
pub(crate) fn answer<R: Threads + Sync, F: Faulty>(
    rt: &R,
    line: &mut Line,
    config: &Config,
    files: &F,
    asked: CopyLine,
) {
    let Some(way) = way_of(line, config) else {
        return line.bad();
    };
    open_copies(rt, line, files, way, asked);
}
