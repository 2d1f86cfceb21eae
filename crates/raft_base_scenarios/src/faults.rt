//! The texts of faults, and the values of a factory.
ghost use Rattle.std.specs.Prelude.{◌≡◌, []};

use crate::told::{assert_row, assert_rows};
use raft_records::{Factory, Fault, IoKind, LogBatch};
use raft_rows::Row;
use std::alloc::Global;

/// A fault's code and text.
struct Text(u8, &'static str);

static TEXTS: [Text; 18] = [
    Text(1, "invalid argument: a reason"),
    Text(2, "corruption"),
    Text(3, "io NotFound: a/b"),
    Text(4, "no space, try again"),
    Text(5, "gap between entries"),
    Text(6, "number out of range"),
    Text(7, "entry compacted"),
    Text(8, "entry not found"),
    Text(9, "wrong entry index"),
    Text(10, "parse refused"),
    Text(11, "engine failed"),
    Text(12, "out of memory"),
    Text(13, "lz4 block"),
    Text(14, "file out of range"),
    Text(15, "not recovered"),
    Text(16, "trail full"),
    Text(17, "lists of different lengths"),
    Text(18, "stale number"),
];

fn fault_of(alloc: Global, code: u8) -> Result<Fault, Fault> {
    Ok(match code {
        1 => Fault::InvalidArgument("a reason"),
        2 => Fault::Corruption,
        3 => Fault::Io(IoKind::NotFound, "a/b".to_string(alloc)?),
        4 => Fault::TryAgain,
        5 => Fault::Gap,
        6 => Fault::Range,
        7 => Fault::EntryCompacted,
        8 => Fault::EntryNotFound,
        9 => Fault::WrongIndex,
        10 => Fault::Parse,
        11 => Fault::Failed,
        12 => Fault::Memory,
        13 => Fault::Lz4,
        14 => Fault::FileOutOfRange,
        15 => Fault::NotRecovered,
        16 => Fault::TrailFull,
        17 => Fault::Layer,
        _ => Fault::StaleNumber,
    })
}

impl Row for Text {
    type State = ();

    fn holds(&self, alloc: Global, _: &mut ()) -> Result<bool, Fault> {
        let Text(code, text) = self;
        let fault = fault_of(alloc, *code)?;
        let told = format!(in alloc; "{fault}")?;
        Ok(fault.code() == *code && told.as_str() == *text)
    }
}

#[test]
fn faults_have_texts(rt: HostRuntime) {
    assert_rows(&rt, rt.alloc(), &mut (), &TEXTS);
}

#[derive(Drop)]
struct Batches {
    alloc: Global,
}

impl Factory<LogBatch> for Batches {
    ghost is_new = { λ batch. batch.items ≡ [] };

    fn new_target(&self) -> Result<LogBatch, Fault> {
        Ok(LogBatch::new(self.alloc))
    }
}

fn made<T, F: Factory<T>>(factory: &F) -> Result<T, Fault> {
    factory.new_target()
}

fn makes_an_empty_batch(alloc: Global) -> Result<bool, Fault> {
    let batch: LogBatch = made(&Batches { alloc })?;
    Ok(batch.is_empty())
}

#[test]
fn factories_make_values(rt: HostRuntime) {
    assert_row(&rt, makes_an_empty_batch(rt.alloc()), "a batch");
}
