//! What of a log an import replaces or removes: found before it writes anything.

use crate::held::Held;
use crate::line_items::{Content, LineItem};
use anyhow::Result;
use raft_command_line::{Request, Verb};
use raft_console::{Output, tell};
use raft_env::FileSystem;
use raft_log_engine::Engine;
use raft_records::Fault;
use std::alloc::{AllocError, Global};
use std::collections::BTreeMap;

/// The groups that an import changes.
pub(crate) struct Replacing {
    alloc: Global,
    groups: BTreeMap<u64, Held>,
}

// One call in a proof that drops it.
impl Drop for Replacing {
    fn drop(self) {
        let Replacing {
            alloc: _,
            groups: _groups,
        } = self;
    }
}

impl Replacing {
    pub fn new(alloc: Global) -> Replacing {
        Replacing {
            alloc,
            groups: BTreeMap::new(alloc),
        }
    }

    // A group, at first as the log has it.
    fn held<F: FileSystem>(
        &mut self,
        engine: &Engine<F>,
        group: u64,
    ) -> Result<&mut Held, AllocError> {
        if !self.groups.contains_key(&group) {
            let held = Held::of(self.alloc, engine, group);
            self.groups.insert(group, held)?;
        }
        match self.groups.get_mut(&group) {
            Some(held) => Ok(held),
            None => Err(AllocError),
        }
    }

    /// Adds an item that is written.
    pub fn add_item<F: FileSystem>(
        &mut self,
        engine: &Engine<F>,
        item: &LineItem,
    ) -> Result<(), Fault> {
        let group = item.group;
        match &item.content {
            Content::Entry(index, _) => self.add_entries(engine, group, *index, *index)?,
            Content::Compact(index) => self.held(engine, group)?.compact(*index),
            Content::Clean => {
                let keys = count_keys(engine, group)?;
                self.held(engine, group)?.clean(keys);
            }
            Content::Put(key, value) => self.put(engine, group, key, value)?,
            Content::Delete(key) => self.delete(engine, group, key)?,
            Content::Mark(_) | Content::Unread(_) => {}
        }
        Ok(())
    }

    /// Adds entries that follow one another.
    pub fn add_entries<F: FileSystem>(
        &mut self,
        engine: &Engine<F>,
        group: u64,
        first: u64,
        last: u64,
    ) -> Result<(), AllocError> {
        self.held(engine, group)?.add(first, last);
        Ok(())
    }

    /// Adds a key and its value.
    pub fn put<F: FileSystem>(
        &mut self,
        engine: &Engine<F>,
        group: u64,
        key: &[u8],
        value: &[u8],
    ) -> Result<(), Fault> {
        let own = engine.get(group, key)?;
        let alloc = self.alloc;
        self.held(engine, group)?.keys.put(alloc, key, own, value)
    }

    fn delete<F: FileSystem>(
        &mut self,
        engine: &Engine<F>,
        group: u64,
        key: &[u8],
    ) -> Result<(), Fault> {
        if engine.get(group, key)?.is_none() {
            return Ok(());
        }
        let alloc = self.alloc;
        self.held(engine, group)?.keys.delete(alloc, key)
    }

    /// Prints the replaced and the removed parts of each group. Returns whether the import may
    /// continue.
    pub fn judge(&self, rt: &HostRuntime, request: &Request<'_>, out: &mut Output) -> Result<bool> {
        if !self.print(out)? || may_replace(request) {
            return Ok(true);
        }
        out.print()?;
        let text = format!(in rt.alloc();
            "{}: nothing was written, since what the log has would be replaced or removed: \
            `--replace` allows it",
            request.folder
        )?;
        tell(rt, request.options.json, "error", text.as_str())?;
        Ok(false)
    }

    // Whether anything is replaced or removed.
    fn print(&self, out: &mut Output) -> Result<bool> {
        let mut is_any = false;
        for (group, held) in self.groups.iter() {
            if held.print(*group, out)? {
                is_any = true;
            }
        }
        Ok(is_any)
    }
}

fn count_keys<F: FileSystem>(engine: &Engine<F>, group: u64) -> Result<u64, Fault> {
    let mut count = 0u64;
    engine.scan_raw_messages(
        group,
        None,
        None,
        false,
        &mut |_: &[u8], _: &[u8]| {
            count = count.saturating_add(1);
            true
        },
    )?;
    Ok(count)
}

fn may_replace(request: &Request<'_>) -> bool {
    match &request.verb {
        Verb::Import(import) => import.replace,
        _ => false,
    }
}

/// Whether a log has anything that an import may replace or remove.
pub(crate) fn has_groups<F: FileSystem>(engine: &Engine<F>) -> Result<bool, Fault> {
    Ok(!engine.raft_groups()?.is_empty())
}
