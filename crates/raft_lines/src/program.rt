//! The program `raftlog` over any reader and writer.
ghost use Rattle.std.specs.Prelude.{◌≡◌, ◌||◌, ℕ, false, is_none, List, IfErr, IfOk, IfSome, MatchResult, None, Option, Some};
ghost use Rattle.raft_env.specs.Directory.{CrashImage, IsRestarted, Leaves};
ghost use Rattle.raft_log_engine.specs.Engine.{contents_of, has_failed};
ghost use Rattle.raft_memory.specs.Choice.{NameNoBytes, NamesNoBytes};
ghost use Rattle.raft_memory.specs.Memory.{memory_directory, no_files};
ghost use Rattle.raft_crash_laws.specs.Contents.{contents_at, known_at};
ghost use Rattle.raft_config.specs.Config.{IsCopy};
ghost use Rattle.raft_config.specs.Folders.{folders_in};
ghost use Rattle.raft_script.specs.Entry.{range_of};
ghost use Rattle.raft_script.specs.Failure.{IsStorageOrMemory};
ghost use Rattle.raft_lines.specs.Line.{EndsOn, GoesOnOrEnds, IsNextLine, IsReading, IsServed, asked_in, asked_of, asked_of_call, asked_of_look, asks, is_asked, is_bad};
ghost use Rattle.raft_lines.specs.Program.{AnswersBy, AnswersFrom, AnswersLine, AnswersLook, HoldsAfterCrash, IsAnswered, IsCrashFault, IsMetBy, IsNewWith, IsOpeningFault, IsReopenFault, IsReopened, OpensTo, is_fatal};
ghost use Rattle.raft_lines.specs.Settings.{were_read};
ghost use Rattle.raft_lines.specs.declared.line.CrashChoice.{CrashChoice};

use crate::answer::{Answer, print};
use crate::line::{Call, CrashChoice, Line, Look, parse_line};
use crate::scan::pairs_of;
use crate::settings::{Settings, text_set};
use raft_env::FileSystem;
use raft_log_engine::laws::crash_leaves_contents;
use raft_log_engine::{Config, Engine, Refused};
use raft_memory::{Choice, MemoryFileSystem};
use raft_records::Fault;
use raft_script::{Outcome, step};
use std::alloc::{AllocError, Global};
use std::io;
use std::io::{BufRead, BufReader, BufWriter, Read, Write};

/// How a run of the program ended.
#[derive(Clone, Copy, Debug, PartialEq, Eq)]
pub enum Ended {
    /// The whole input was read.
    Done,
    /// The line with this number, counted from 1, is no line of the program.
    BadLine(u64),
    /// The input could not be read, or memory ran out outside the engine's calls.
    Input,
    /// The output could not be written.
    Output,
    /// Settings could not be made, the engine could not be opened or closed, or memory for a crash
    /// ran out. The fault was printed.
    Opening,
}

type MemoryEngine = Engine<MemoryFileSystem>;

type Opening = Result<MemoryEngine, Refused<MemoryFileSystem>>;

/// Reads lines, carries out each over files in memory, and writes the results.
/// crates/raftlog/README.md has the lines and their results.
pub fn serve<R: Read + Drop, W: Write + Drop>(alloc: Global, reader: R, writer: W) -> Ended
    ensures lines { IfSome (R.remaining reader) (λ text. EndsOn text result) }
{
    let Ok(mut input) = BufReader::new(alloc, reader) else {
        return Ended::Input;
    };
    let Ok(mut output) = BufWriter::new(alloc, writer) else {
        return Ended::Input;
    };
    let ended = serve_lines(alloc, &mut input, &mut output);
    if output.flush().is_err() {
        return Ended::Output;
    }
    ended
}

fn serve_lines<R: BufRead, W: Write>(alloc: Global, input: &mut R, output: &mut W) -> Ended
    ensures lines { IfSome (R.Read.remaining input.old) (λ text. EndsOn text result) }
{
    let mut settings = Settings::new(alloc);
    let mut engine = None;
    let mut text = Vec::new(alloc);
    let ended = serve_each(alloc, &mut settings, &mut engine, &mut text, input, output);
    let_go(engine);
    ended
}

// Drops an engine by a call over any files: the prover takes long over such a drop, longest if it
// names the files' type.
fn let_go<F: FileSystem + Drop>(engine: Option<Engine<F>>) {
    if let Some(engine) = engine {
        engine.give_up();
    }
}

fn serve_each<R: BufRead, W: Write>(
    alloc: Global,
    settings: &mut Settings,
    engine: &mut Option<MemoryEngine>,
    text: &mut Vec<u8>,
    input: &mut R,
    output: &mut W,
) -> Ended
    requires { were_read settings.old ≡ false }
    ensures lines { IfSome (R.Read.remaining input.old) (λ text. EndsOn text result) }
{
    for number in 1..u64::MAX {
        if let Some(ended) = serve_next(alloc, settings, engine, number, text, input, output) {
            return ended;
        }
    }
    Ended::Input
}

// Carries out the next line, which has this number, and returns how the program ended if it ends
// there. The buffer for the line is reused.
fn serve_next<R: BufRead, W: Write>(
    alloc: Global,
    settings: &mut Settings,
    engine: &mut Option<MemoryEngine>,
    number: u64,
    text: &mut Vec<u8>,
    input: &mut R,
    output: &mut W,
) -> Option<Ended>
    ensures lines { (known : Option (List ℕ)) → IsReading known (R.Read.remaining input.old) number
        (were_read settings.old) → GoesOnOrEnds known (R.Read.remaining input.new) number
        (were_read settings.new) result }
{
    match read_line(input, text) {
        Ok(true) => serve_line(alloc, settings, engine, number, text, output),
        Ok(false) => Some(Ended::Done),
        Err(_) => Some(Ended::Input),
    }
}

fn serve_line<W: Write>(
    alloc: Global,
    settings: &mut Settings,
    engine: &mut Option<MemoryEngine>,
    number: u64,
    text: &[u8],
    output: &mut W,
) -> Option<Ended>
    ensures lines { let asked = were_read settings.old in IsServed (is_bad asked text.now)
        (asked || asks text.now) number (were_read settings.new) result }
{
    match text_set(text) {
        Some(set) => serve_set(settings, number, set),
        None => serve_asked(alloc, settings, engine, number, text, output),
    }
}

// Carries out a line that sets a key.
fn serve_set(settings: &mut Settings, number: u64, set: &[u8]) -> Option<Ended>
    ensures lines { let asked = were_read settings.old in
        IsServed asked asked number (were_read settings.new) result }
{
    match settings.add(set) {
        Ok(true) => None,
        Ok(false) => Some(Ended::BadLine(number)),
        Err(_) => Some(Ended::Input),
    }
}

// Carries out any other line.
fn serve_asked<W: Write>(
    alloc: Global,
    settings: &mut Settings,
    engine: &mut Option<MemoryEngine>,
    number: u64,
    text: &[u8],
    output: &mut W,
) -> Option<Ended>
    ensures lines { let asked = asked_in text.now in IsServed (is_none asked)
        (were_read settings.old || is_asked asked) number (were_read settings.new) result }
{
    let Some(line) = parse_line(text) else {
        return Some(Ended::BadLine(number));
    };
    let Ok(answer) = answer_line(alloc, settings, engine, &line) else {
        return Some(Ended::Input);
    };
    if print(output, &answer).is_err() {
        return Some(Ended::Output);
    }
    if answer.is_fatal() {
        Some(Ended::Opening)
    } else {
        None
    }
}

// Reads the next line without its newline. Returns whether there was one.
fn read_line<R: BufRead>(input: &mut R, line: &mut Vec<u8>) -> io::Result<bool>
    ensures line { IfSome (R.Read.remaining input.old) (λ text. IfOk result (λ found.
        IsNextLine found text line.new.items (R.Read.remaining input.new))) }
{
    line.clear();
    if input.read_until(b'\n', line)? == 0 {
        return Ok(false);
    }
    if line.last() == Some(&b'\n') {
        line.pop();
    }
    Ok(true)
}

// Carries out a line. The settings are read and the engine is opened at the first request.
fn answer_line(
    alloc: Global,
    settings: &mut Settings,
    engine: &mut Option<MemoryEngine>,
    line: &Line<'_>,
) -> Result<Answer, AllocError>
    ensures value { IfOk result (λ answer. AnswersLine settings.old settings.new
        (asked_of line.now) answer engine.old engine.new) }
    ensures read { IfOk result (λ answer. is_fatal answer ≡ false → were_read settings.new
        ≡ (were_read settings.old || is_asked (Some (asked_of line.now)))) }
{
    if let Line::Nothing = line {
        return Ok(Answer::Nothing);
    }
    match settings.read(alloc) {
        Ok(()) => answer_by(alloc, settings.config(), engine, line),
        Err(Fault::Memory) => Err(AllocError),
        Err(fault) => Ok(Answer::Fatal(fault)),
    }
}

// Carries out a request with these settings.
fn answer_by(
    alloc: Global,
    config: &Config,
    engine: &mut Option<MemoryEngine>,
    line: &Line<'_>,
) -> Result<Answer, AllocError>
    requires { line.now ≡ Line.Nothing → ⊥ }
    ensures value { IfOk result (λ answer.
        AnswersBy config.now (asked_of line.now) answer engine.old engine.new) }
{
    match take_or_open(alloc, config, engine)? {
        Ok(met) => answer_asked(alloc, config, engine, met, line),
        Err(refused) => Ok(Answer::Fatal(refused.fault)),
    }
}

fn take_or_open(
    alloc: Global,
    config: &Config,
    engine: &mut Option<MemoryEngine>,
) -> Result<Opening, AllocError>
    ensures value { IfOk result (λ opening. MatchResult opening (IsMetBy config.now engine.old)
        (λ r. (engine.old ≡ None) × IsOpeningFault config.now no_files r.fault)) }
{
    match engine.take() {
        Some(met) => Ok(Ok(met)),
        None => open(alloc, config),
    }
}

// Carries out a request on this engine.
fn answer_asked(
    alloc: Global,
    config: &Config,
    engine: &mut Option<MemoryEngine>,
    met: MemoryEngine,
    line: &Line<'_>,
) -> Result<Answer, AllocError>
    requires { line.now ≡ Line.Nothing → ⊥ }
    ensures value { IfOk result (λ answer.
        AnswersFrom config.now (asked_of line.now) answer met engine.new) }
{
    if let Line::Crash(left) = line {
        return crash(alloc, config, engine, met, left);
    }
    answer_met(alloc, config, engine, met, line)
}

// Carries out any request except a crash, over any files.
fn answer_met<F: FileSystem + Drop>(
    alloc: Global,
    config: &Config,
    engine: &mut Option<Engine<F>>,
    met: Engine<F>,
    line: &Line<'_>,
) -> Result<Answer, AllocError>
    requires something { line.now ≡ Line.Nothing → ⊥ }
    requires no_crash { (left : CrashChoice) → line.now ≡ Line.Crash left → ⊥ }
    ensures value { IfOk result (λ answer.
        AnswersFrom config.now (asked_of line.now) answer met engine.new) }
{
    match line {
        Line::Reopen => Ok(reopen(engine, met)),
        Line::Call(call) => {
            let mut met = met;
            match answer_call(alloc, &mut met, call) {
                Ok(outcome) => {
                    *engine = Some(met);
                    Ok(Answer::Outcome(outcome))
                }
                Err(error) => {
                    met.give_up();
                    Err(error)
                }
            }
        }
        Line::Look(look) => {
            let answer = answer_look(alloc, &met, look);
            *engine = Some(met);
            Ok(answer)
        }
        Line::Nothing => {
            met.give_up();
            Ok(Answer::Nothing)
        }
        Line::Crash(_) => {
            met.give_up();
            Ok(Answer::Nothing)
        }
    }
}

fn answer_look<F: FileSystem>(alloc: Global, engine: &Engine<F>, look: &Look) -> Answer
    ensures value { AnswersLook (asked_of_look look.now) result engine.now }
{
    match look {
        Look::Range(group) => Answer::Range(range_of(engine, *group)),
        Look::Scan(group) => Answer::Pairs(pairs_of(alloc, engine, *group)),
        Look::Span(queue) => Answer::Span(engine.file_span(*queue)),
    }
}

// The indexes of a group's first and last entries, if it has entries.
fn range_of<F: FileSystem>(engine: &Engine<F>, group: u64) -> Option<(u64, u64)>
    ensures value { has_failed engine.now ≡ false
        → result ≡ range_of ((contents_of engine.now).entries group) }
{
    let first = engine.first_index(group)?;
    let last = engine.last_index(group)?;
    Some((first, last))
}

fn open(alloc: Global, config: &Config) -> Result<Opening, AllocError>
    ensures value { IfOk result (λ opening. MatchResult opening (IsMetBy config.now None)
        (λ r. IsOpeningFault config.now no_files r.fault)) }
{
    let copy = copied(config)?;
    Ok(Engine::open_in_order(alloc, copy, MemoryFileSystem::new(alloc)))
}

fn copied(config: &Config) -> Result<Config, AllocError>
    ensures value { IfOk result (IsCopy config.now) }
{
    match config.clone() {
        Ok(copy) => Ok(copy),
        Err(_) => Err(AllocError),
    }
}

// Drops the engine without closing it, and opens the files that the crash leaves.
fn crash(
    alloc: Global,
    config: &Config,
    engine: &mut Option<MemoryEngine>,
    met: MemoryEngine,
    left: &CrashChoice,
) -> Result<Answer, AllocError>
    ensures value { IfOk result (λ answer. OpensTo answer engine.new
        (HoldsAfterCrash (folders_in config.now) met) (IsCrashFault config.now met)) }
{
    crash_leaves_contents();
    let whole = met.give_up();
    let copy = copied(config)?;
    match crashed(alloc, config, whole, left) {
        Ok(files) => Ok(open_again(alloc, engine, copy, files)),
        Err(fault) => Ok(Answer::Fatal(fault)),
    }
}

fn open_again<F: FileSystem + Drop>(
    alloc: Global,
    engine: &mut Option<Engine<F>>,
    config: Config,
    files: F,
) -> Answer
    ensures value { let dir = folders_in config in OpensTo result engine.new (IsNewWith dir
        (contents_at dir (F.directory files)) (known_at dir (F.directory files)))
        (IsOpeningFault config (F.directory files)) }
{
    answer_opening(engine, Engine::open_in_order(alloc, config, files))
}

fn reopen<F: FileSystem + Drop>(engine: &mut Option<Engine<F>>, met: Engine<F>) -> Answer
    ensures value { OpensTo result engine.new (IsReopened met) (IsReopenFault met) }
{
    answer_opening(engine, met.reopen())
}

fn answer_opening<F: FileSystem + Drop>(
    engine: &mut Option<Engine<F>>,
    opening: Result<Engine<F>, Refused<F>>,
) -> Answer
    ensures value { MatchResult opening (λ opened. (result ≡ Answer.Done)
        × (engine.new ≡ Some opened)) (λ refused. result ≡ Answer.Fatal refused.fault) }
{
    match opening {
        Ok(opened) => {
            *engine = Some(opened);
            Answer::Done
        }
        Err(refused) => Answer::Fatal(refused.fault),
    }
}

// The files after a crash that leaves each file in the same way.
fn crashed(
    alloc: Global,
    config: &Config,
    mut files: MemoryFileSystem,
    left: &CrashChoice,
) -> Result<MemoryFileSystem, Fault>
    ensures value { IfOk result (λ again. (image : CrashImage)
        × Leaves (memory_directory files) image
        × IsRestarted (memory_directory files) image (memory_directory again)) }
    ensures cause { IfErr result IsStorageOrMemory }
{
    let count = count_files(alloc, config, &mut files)?;
    files.crash(&choices_of(alloc, count, left)?)
}

// The same choice for each of so many files.
fn choices_of(alloc: Global, count: usize, left: &CrashChoice) -> Result<Vec<Choice>, AllocError>
    ensures bytes { IfOk result (λ choices. NameNoBytes choices.items) }
{
    let mut choices = Vec::with_capacity(alloc, count)?;
    for _ in 0..count {
        choices.push(choice_of(left))?;
    }
    Ok(choices)
}

// The number of files in the settings' folders.
fn count_files<F: FileSystem>(alloc: Global, config: &Config, files: &mut F) -> Result<usize, Fault>
    ensures unchanged { F.directory files.new ≡ F.directory files.old }
    ensures cause { IfErr result IsStorageOrMemory }
{
    let count = count_in(alloc, config.dir.as_str(), files)?;
    match &config.spill_dir {
        Some(spill) => Ok(count.saturating_add(count_in(alloc, spill.as_str(), files)?)),
        None => Ok(count),
    }
}

fn count_in<F: FileSystem>(alloc: Global, folder: &str, files: &mut F) -> Result<usize, Fault>
    ensures unchanged { F.directory files.new ≡ F.directory files.old }
    ensures cause { IfErr result IsStorageOrMemory }
{
    match files.list(folder) {
        Ok(names) => Ok(names.len()),
        Err(fault) => Err(fault.with_path(alloc, folder)),
    }
}

fn choice_of(left: &CrashChoice) -> Choice
    ensures bytes { NamesNoBytes result }
{
    match left {
        CrashChoice::All => Choice::All,
        CrashChoice::Synced => Choice::Synced,
        CrashChoice::Torn(kept, fill) => Choice::Torn(*kept as usize, *fill),
    }
}

// Runs a call as a `step` of `run`, and returns its result.
fn answer_call<F: FileSystem>(
    alloc: Global,
    engine: &mut Engine<F>,
    call: &Call<'_>,
) -> Result<Outcome, AllocError>
    ensures answer { IfOk result (λ outcome.
        IsAnswered (asked_of_call call.now) outcome engine.old engine.new) }
{
    let op = call.op(alloc)?;
    Ok(step(alloc, engine, &op))
}
