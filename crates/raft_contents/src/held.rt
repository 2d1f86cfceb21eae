//! What a log has of a group, and what an import replaces or removes of it.

use crate::held_keys::HeldKeys;
use anyhow::Result;
use raft_console::Output;
use raft_env::FileSystem;
use raft_inspect::Word;
use raft_log_engine::Engine;
use std::alloc::Global;

/// The first and the last index of entries.
type Span = (u64, u64);

/// A group in the middle of an import.
pub(crate) struct Held {
    /// All entries.
    all: Option<Span>,
    /// Those that the log had before and that are still there.
    own: Option<Span>,
    /// Those that the log had before and that are replaced.
    replaced: Option<Span>,
    /// .. and that are compacted or cleaned away.
    removed: Option<Span>,
    pub keys: HeldKeys,
}

// One call in a proof that drops it; derived, it would be one of each field (docs/DECISIONS.md).
impl Drop for Held {
    fn drop(self) {
        let Held {
            all: _,
            own: _,
            replaced: _,
            removed: _,
            keys: _keys,
        } = self;
    }
}

impl Held {
    /// A group as the log has it.
    pub fn of<F: FileSystem>(alloc: Global, engine: &Engine<F>, group: u64) -> Held {
        let own = span_of(engine, group);
        Held {
            all: own,
            own,
            replaced: None,
            removed: None,
            keys: HeldKeys::new(alloc),
        }
    }

    /// Adds entries that follow one another. They replace those from their first index on, or all
    /// if they do not touch them.
    pub fn add(&mut self, first: u64, last: u64) {
        match self.all {
            Some((begin, end)) if begin <= first && first <= end.saturating_add(1) => {
                self.replace_from(first);
                self.all = Some((begin, last));
            }
            _ => {
                self.replace_from(0);
                self.all = Some((first, last));
            }
        }
    }

    fn replace_from(&mut self, index: u64) {
        let Some((first, last)) = self.own else {
            return;
        };
        if last < index {
            return;
        }
        let from = first.max(index);
        let to = match self.replaced {
            Some((_, to)) => to,
            None => last,
        };
        self.replaced = Some((from, to));
        self.own = (first < from).then_some((first, from.saturating_sub(1)));
    }

    /// Removes the entries below an index.
    pub fn compact(&mut self, index: u64) {
        self.all = without_below(self.all, index);
        self.remove_below(index);
    }

    /// Removes all entries, and all keys, of which the log has so many.
    pub fn clean(&mut self, keys: u64) {
        self.all = None;
        self.remove_below(u64::MAX);
        self.keys.clean(keys);
    }

    fn remove_below(&mut self, index: u64) {
        let Some((first, last)) = self.own else {
            return;
        };
        if index <= first {
            return;
        }
        let from = match self.removed {
            Some((from, _)) => from,
            None => first,
        };
        self.removed = Some((from, last.min(index.saturating_sub(1))));
        self.own = without_below(self.own, index);
    }

    /// Prints the replaced and the removed parts of the group. Returns whether there are any.
    pub fn print(&self, group: u64, out: &mut Output) -> Result<bool> {
        let replaced = print_span("replaced", group, self.replaced, out)?;
        let removed = print_span("removed", group, self.removed, out)?;
        let keys = self.keys.print(group, out)?;
        Ok(replaced || removed || keys)
    }
}

fn print_span(
    name: &'static str,
    group: u64,
    span: Option<Span>,
    out: &mut Output,
) -> Result<bool> {
    let Some((first, last)) = span else {
        return Ok(false);
    };
    out.named(&[
        (name, Word::Number(group)),
        ("first", Word::Number(first)),
        ("last", Word::Number(last)),
    ])?;
    Ok(true)
}

fn without_below(span: Option<Span>, index: u64) -> Option<Span> {
    let (first, last) = span?;
    (index <= last).then_some((first.max(index), last))
}

fn span_of<F: FileSystem>(engine: &Engine<F>, group: u64) -> Option<Span> {
    Some((engine.first_index(group)?, engine.last_index(group)?))
}
