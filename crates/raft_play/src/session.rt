//! A log in memory while the lines of a story are played.

use crate::asked::{Asked, CallLine, CopyLine, FilesLine, LogLine, LookLine, SettingsLine};
use crate::batch::Writing;
use crate::line::Line;
use crate::program::Program;
use crate::{calls, copies, files, looks};
use raft_env::IoKind;
use raft_memory::FsCall;
use raft_records::{Fault, Fresh};
use raft_settings::with_text;
use raft_test_rows::{Config, Failing, Faulty, Held, RecoveryMode, settings};
use std::alloc::{AllocError, Global};
use std::thread::Threads;

/// The settings of the next opening, the batch of the next write, the lines of a program, and the
/// current line. The files, or an engine over them, are beside it.
pub(crate) struct Session {
    alloc: Global,
    config: Config,
    writing: Writing,
    program: Program,
    pub(crate) line: Line,
}

// One call in each proof that drops it. A derived `Drop` would be one call for each field
// (docs/DECISIONS.md).
impl Drop for Session {
    fn drop(self) {
        let Session {
            alloc: _,
            config: _config,
            writing: _writing,
            program: _program,
            line: _line,
        } = self;
    }
}

const CALLS: [(&str, FsCall); 16] = [
    ("create", FsCall::Create),
    ("open", FsCall::Open),
    ("delete", FsCall::Delete),
    ("rename", FsCall::Rename),
    ("delete-metadata", FsCall::DeleteMetadata),
    ("reader", FsCall::NewReader),
    ("writer", FsCall::NewWriter),
    ("write", FsCall::Write),
    ("truncate", FsCall::Truncate),
    ("allocate", FsCall::Allocate),
    ("sync", FsCall::Sync),
    ("size", FsCall::FileSize),
    ("make-dir", FsCall::MakeDir),
    ("list", FsCall::List),
    ("free-space", FsCall::FreeSpace),
    ("read", FsCall::Read),
];

fn call_named(word: &str) -> Option<FsCall> {
    for (name, call) in &CALLS {
        if *name == word {
            return Some(*call);
        }
    }
    None
}

fn kind_named(word: &str) -> Option<IoKind> {
    match word {
        "no-space" => Some(IoKind::NoSpace),
        "not-found" => Some(IoKind::NotFound),
        "other" => Some(IoKind::Other),
        _ => None,
    }
}

fn fail<F: Faulty>(line: &mut Line, held: &mut Held<F>, failing: Failing) {
    if held.fail(failing) {
        line.said.say("ok");
    } else {
        line.bad();
    }
}

fn fail_nth<F: Faulty>(line: &mut Line, held: &mut Held<F>) {
    let nth = line.number(0);
    match (call_named(line.text(0)), kind_named(line.text(1))) {
        (Some(call), Some(kind)) => fail(line, held, Failing::Nth(call, nth, kind)),
        _ => line.bad(),
    }
}

// Prints how the last opening or closing ended.
fn came_to<F: Faulty>(line: &mut Line, held: &Held<F>) {
    match held.fault() {
        Some(fault) => line.refused(fault.code()),
        None => line.said.say("ok"),
    }
}

// Prints why the last opening or closing was refused: the rule, or the kind of a call's fault.
fn why<F: Faulty>(line: &mut Line, held: &Held<F>) {
    match held.fault() {
        Some(Fault::InvalidArgument(reason)) => line.said.say(reason),
        Some(Fault::Io(kind, _)) => line.said.kind(*kind),
        _ => line.bad(),
    }
}

fn open<F: Faulty>(line: &mut Line, config: &Config, held: &mut Held<F>, mode: RecoveryMode) {
    match config.clone() {
        Ok(copy) => {
            let mut config = copy;
            config.recovery_mode = mode;
            held.open_with(line.alloc, config);
            came_to(line, held);
        }
        Err(_) => line.refuse(Fault::Memory),
    }
}

fn end<F: Faulty>(line: &mut Line, held: &mut Held<F>, is_reopened: bool) {
    if !matches!(held, Held::Engine(_)) {
        return line.bad();
    }
    if is_reopened {
        held.reopen();
    } else {
        held.close();
    }
    came_to(line, held);
}

fn answer_log<F: Faulty>(line: &mut Line, config: &Config, held: &mut Held<F>, asked: LogLine) {
    let nth = line.number(0);
    match asked {
        LogLine::Open(mode) => open(line, config, held, mode),
        LogLine::Why => why(line, held),
        LogLine::Close => end(line, held, false),
        LogLine::Reopen => end(line, held, true),
        LogLine::GiveUp => {
            held.give_up();
            line.said.say("ok");
        }
        LogLine::Fail => fail_nth(line, held),
        LogLine::Stop => fail(line, held, Failing::From(nth)),
    }
}

// The settings with a new value for one key, as in TOML.
fn with_value(alloc: Global, config: &Config, key: &str, value: &str) -> Result<Config, Fault> {
    let text = format!(in alloc; "{key} = {value}")?;
    with_text(alloc, config, text.as_str())
}

fn usual(alloc: Global) -> Result<Config, Fault> {
    Ok(settings(alloc)?)
}

fn set(line: &mut Line, config: &mut Config, made: Result<Config, Fault>) {
    match made {
        Ok(changed) => {
            *config = changed;
            line.said.say("ok");
        }
        Err(fault) => line.refuse(fault),
    }
}

// Changes the settings of the next opening, or names bytes.
fn answer_settings(line: &mut Line, config: &mut Config, asked: SettingsLine) {
    let made = match asked {
        SettingsLine::Usual => usual(line.alloc),
        SettingsLine::Set => with_value(line.alloc, config, line.text(0), line.text(1)),
        SettingsLine::Name => {
            let named = line.name();
            return line.done(named);
        }
    };
    set(line, config, made);
}

impl Session {
    pub(crate) fn new(alloc: Global) -> Session {
        Session {
            alloc,
            config: Config::fresh(alloc),
            writing: Writing::new(alloc),
            program: Program::new(alloc),
            line: Line::new(alloc),
        }
    }

    /// Begins a story: new files, no batch, and the settings of the tests. Named bytes remain.
    pub(crate) fn renew<F: Faulty>(&mut self, held: &mut Held<F>) -> Result<(), AllocError> {
        held.renew(self.alloc);
        self.config = settings(self.alloc)?;
        self.writing = Writing::new(self.alloc);
        self.program = Program::new(self.alloc);
        Ok(())
    }

    fn answer_files<F: Faulty>(&mut self, held: &mut Held<F>, asked: FilesLine) {
        match held.files() {
            Some(files) => files::answer(&mut self.line, &self.config, files, asked),
            None => self.line.bad(),
        }
    }

    fn answer_copy<R: Threads + Sync, F: Faulty>(
        &mut self,
        rt: &R,
        held: &mut Held<F>,
        asked: CopyLine,
    ) {
        match held.files() {
            Some(files) => copies::answer(rt, &mut self.line, &self.config, files, asked),
            None => self.line.bad(),
        }
    }

    fn answer_call<F: Faulty>(&mut self, held: &mut Held<F>, asked: CallLine) {
        match held {
            Held::Engine(engine) => {
                calls::answer(&mut self.line, &mut self.writing, engine, asked);
            }
            _ => self.line.bad(),
        }
    }

    fn answer_look<F: Faulty>(&mut self, held: &mut Held<F>, asked: LookLine) {
        match held {
            Held::Engine(engine) => looks::answer(&mut self.line, engine, asked),
            _ => self.line.bad(),
        }
    }

    fn answer_asked<R: Threads + Sync, F: Faulty>(
        &mut self,
        rt: &R,
        held: &mut Held<F>,
        asked: Asked,
    ) {
        match asked {
            Asked::Settings(asked) => answer_settings(&mut self.line, &mut self.config, asked),
            Asked::Log(asked) => answer_log(&mut self.line, &self.config, held, asked),
            Asked::Batch(asked) => self.writing.answer(&mut self.line, asked),
            Asked::Files(asked) => self.answer_files(held, asked),
            Asked::Copy(asked) => self.answer_copy(rt, held, asked),
            Asked::Program(asked) => self.program.answer(&mut self.line, asked),
            Asked::Call(asked) => self.answer_call(held, asked),
            Asked::Look(asked) => self.answer_look(held, asked),
        }
    }

    // A line that begins with `<` or `>` is read as it is.
    fn answer_printed(&mut self, asked: &str) {
        match asked.strip_prefix("< ") {
            Some(text) => {
                let added = self.program.add(text.as_bytes(), b"\n");
                self.line.done(added);
            }
            None => self.program.next_line(&mut self.line),
        }
    }

    /// Carries out a line, which then has its result.
    pub(crate) fn answer<R: Threads + Sync, F: Faulty>(
        &mut self,
        rt: &R,
        held: &mut Held<F>,
        asked: &str,
    ) -> Result<(), AllocError> {
        self.line.begin();
        if asked == ">" || asked.starts_with("< ") {
            self.answer_printed(asked);
            return Ok(());
        }
        match self.line.read(asked)? {
            Some(asked) => self.answer_asked(rt, held, asked),
            None => self.line.bad(),
        }
        Ok(())
    }
}
