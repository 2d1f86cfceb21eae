//! The keys of a group of the log that an import replaces or removes.

use anyhow::Result;
use raft_console::Output;
use raft_inspect::Word;
use raft_records::Fault;
use std::alloc::Global;
use std::collections::BTreeMap;

/// What an import makes of a key that the log has.
#[derive(Clone, Copy, PartialEq, Eq)]
enum Fate {
    /// It puts the value that the log has.
    Same,
    Replaced,
    Removed,
}

/// The keys of a group in the middle of an import.
pub(crate) struct HeldKeys {
    /// Those of the log that it put or deleted since it cleaned the group.
    fates: BTreeMap<Vec<u8>, Fate>,
    /// How many the log has, if it cleaned the group.
    cleaned: Option<u64>,
}

// One call in a proof that drops it.
impl Drop for HeldKeys {
    fn drop(self) {
        let HeldKeys {
            fates: _fates,
            cleaned: _,
        } = self;
    }
}

impl HeldKeys {
    pub fn new(alloc: Global) -> HeldKeys {
        HeldKeys {
            fates: BTreeMap::new(alloc),
            cleaned: None,
        }
    }

    /// Puts a value at a key; `own` is the value that the log has there.
    pub fn put(
        &mut self,
        alloc: Global,
        key: &[u8],
        own: Option<Vec<u8>>,
        value: &[u8],
    ) -> Result<(), Fault> {
        let Some(own) = own else {
            return Ok(());
        };
        let fate = if own.as_slice() == value {
            Fate::Same
        } else {
            Fate::Replaced
        };
        let key = key.to_vec(alloc)?;
        self.fates.insert(key, fate)?;
        Ok(())
    }

    /// Deletes a key that the log has.
    pub fn delete(&mut self, alloc: Global, key: &[u8]) -> Result<(), Fault> {
        let key = key.to_vec(alloc)?;
        self.fates.insert(key, Fate::Removed)?;
        Ok(())
    }

    /// Removes all keys, of which the log has so many.
    pub fn clean(&mut self, count: u64) {
        self.fates.clear();
        self.cleaned = Some(count);
    }

    fn count(&self, fate: Fate) -> u64 {
        let mut count = 0u64;
        for (_, each) in self.fates.iter() {
            if *each == fate {
                count = count.saturating_add(1);
            }
        }
        count
    }

    // Those that were removed together are removed unless they were put since.
    fn removed(&self) -> u64 {
        let removed = self.count(Fate::Removed);
        match self.cleaned {
            Some(count) => count
                .saturating_sub(self.fates.len() as u64)
                .saturating_add(removed),
            None => removed,
        }
    }

    /// Prints how many keys are replaced and how many are removed. Returns whether there are any.
    pub fn print(&self, group: u64, out: &mut Output) -> Result<bool> {
        let (replaced, removed) = (self.count(Fate::Replaced), self.removed());
        for (name, count) in [("replaced", replaced), ("removed", removed)] {
            if count > 0 {
                out.named(&[(name, Word::Number(group)), ("keys", Word::Number(count))])?;
            }
        }
        Ok(replaced > 0 || removed > 0)
    }
}
