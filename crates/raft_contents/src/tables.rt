//! Groups that were read from files are written to a log.

use crate::filling::Filling;
use crate::replacing::Replacing;
use anyhow::Result;
use raft_command_line::Request;
use raft_console::{Output, Progress, Status, or_failure};
use raft_env::FileSystem;
use raft_gathering::{Group, Tables};
use raft_inspect::{Filter, ItemKind};
use raft_log_engine::Engine;
use raft_records::Fault;

/// Groups, which of their items are written, and the status that the program then ends with.
#[derive(Clone, Copy)]
pub struct TableImport<'a> {
    pub tables: &'a Tables,
    pub filter: Filter,
    pub status: Status,
}

impl TableImport<'_> {
    /// Writes for each group the entries after its last gap, and its keys. If anything would be
    /// replaced that may not be, nothing is written.
    pub fn write<F: FileSystem>(
        &self,
        rt: &HostRuntime,
        engine: &mut Engine<F>,
        request: &Request<'_>,
        out: &mut Output,
    ) -> Result<Status> {
        if !self.find_replaced(rt, engine)?.judge(rt, request, out)? {
            return Ok(Status::Refused);
        }
        let mut filling = Filling::new(rt, &request.options);
        match self.write_all(rt, engine, request, &mut filling) {
            Ok(()) => Ok(self.status),
            Err(error) => {
                filling.tell_written(rt, request)?;
                Err(error)
            }
        }
    }

    // What of the log the groups replace.
    fn find_replaced<F: FileSystem>(
        &self,
        rt: &HostRuntime,
        engine: &Engine<F>,
    ) -> Result<Replacing> {
        let mut replacing = Replacing::new(rt.alloc());
        for (number, group) in self.tables.groups.iter() {
            let added = self.add_replaced(engine, *number, group, &mut replacing);
            or_failure(added, "the log cannot be read")?;
        }
        Ok(replacing)
    }

    fn add_replaced<F: FileSystem>(
        &self,
        engine: &Engine<F>,
        number: u64,
        group: &Group,
        replacing: &mut Replacing,
    ) -> Result<(), Fault> {
        if let (Some(run), true) = (
            group.runs.last(),
            self.filter.takes(number, ItemKind::Entry, None),
        ) {
            let last = run.end().saturating_sub(1);
            replacing.add_entries(engine, number, run.first, last)?;
        }
        if self.filter.takes(number, ItemKind::Put, None) {
            for (key, kept) in group.keys.iter() {
                replacing.put(engine, number, key, &kept.value)?;
            }
        }
        Ok(())
    }

    fn write_all<F: FileSystem>(
        &self,
        rt: &HostRuntime,
        engine: &mut Engine<F>,
        request: &Request<'_>,
        filling: &mut Filling,
    ) -> Result<()> {
        let mut progress = Progress::of(*rt, &request.options)?;
        let whole = self.tables.groups.len() as u64;
        let mut done = 0u64;
        for (number, group) in self.tables.groups.iter() {
            progress.at("groups written", done, whole)?;
            done = done.saturating_add(1);
            write_group(rt, engine, *number, group, self.filter, filling)?;
        }
        filling.finish(engine, request.sync)
    }
}

fn write_group<F: FileSystem>(
    rt: &HostRuntime,
    engine: &mut Engine<F>,
    number: u64,
    group: &Group,
    filter: Filter,
    filling: &mut Filling,
) -> Result<()> {
    if let Some(run) = group.runs.last() {
        for (place, bytes) in run.entries.iter().enumerate() {
            let index = run.first.saturating_add(place as u64);
            if filter.takes(number, ItemKind::Entry, Some(index)) {
                let added = add_entry(rt, engine, number, index, bytes, filling);
                or_failure(added, "an entry cannot be written")?;
                filling.write_if_full(engine)?;
            }
        }
    }
    if filter.takes(number, ItemKind::Put, None) {
        for (key, kept) in group.keys.iter() {
            let added = put(rt, engine, number, key, &kept.value, filling);
            or_failure(added, "a key cannot be written")?;
            filling.write_if_full(engine)?;
        }
    }
    Ok(())
}

fn add_entry<F: FileSystem>(
    rt: &HostRuntime,
    engine: &Engine<F>,
    group: u64,
    index: u64,
    bytes: &[u8],
    filling: &mut Filling,
) -> Result<(), Fault> {
    filling.add_entry(engine, group, index, bytes.to_vec(rt.alloc())?)
}

fn put<F: FileSystem>(
    rt: &HostRuntime,
    engine: &Engine<F>,
    group: u64,
    key: &[u8],
    value: &[u8],
    filling: &mut Filling,
) -> Result<(), Fault> {
    filling.put(
        engine,
        group,
        key.to_vec(rt.alloc())?,
        value.to_vec(rt.alloc())?,
    )
}
