//! The plan of an opening.

use crate::command::{FROM_SPILL, SPILL};
use crate::item::Item;
use crate::kind::{Change, Kind, Row};
use anyhow::Result;
use raft_command_line::Options;
use raft_console::{Status, print_error};
use raft_inspect::Lines;
use std::alloc::{AllocError, Global};
use std::str;

/// The bytes that an opening cuts, the files that it passes over, leaves out and deletes, and the
/// places at which it fails.
pub struct Plan {
    pub items: Vec<Item>,
}

// One call in a proof that drops it; derived, it would be one of each field (docs/DECISIONS.md).
impl Drop for Plan {
    fn drop(self) {
        let Plan { items: _items } = self;
    }
}

impl Plan {
    /// A plan without items: the opening loses nothing.
    pub fn new(alloc: Global) -> Plan {
        Plan {
            items: Vec::new(alloc),
        }
    }

    /// Whether an item has this kind.
    pub fn has(&self, kind: Kind) -> bool {
        for item in &self.items {
            if item.kind == kind {
                return true;
            }
        }
        false
    }

    /// The status of `check`: for a failure, otherwise for files that are passed over or left out,
    /// otherwise for a cut.
    pub fn status(&self) -> Status {
        let mut status = Status::Done;
        for item in &self.items {
            let Row(_, each, _) = item.kind.row();
            status = status.or_worse(each);
        }
        status
    }

    /// The first item for which a change is refused.
    pub fn refusing(&self) -> Option<&Item> {
        self.first(Change::Refused)
    }

    /// The first item for which the opening fails.
    pub fn failing(&self) -> Option<&Item> {
        self.first(Change::Fails)
    }

    fn first(&self, wanted: Change) -> Option<&Item> {
        for item in &self.items {
            let Row(_, _, change) = item.kind.row();
            if change == wanted {
                return Some(item);
            }
        }
        None
    }

    /// Leaves out the findings on files' bytes if the opening is refused before it reads them.
    pub fn drop_unreached(&mut self, alloc: Global) -> Result<(), AllocError> {
        let mut places = Vec::new(alloc);
        for item in &self.items {
            if item.kind == Kind::Refused {
                places.push(item.path.clone()?)?;
            }
        }
        self.items.retain(|item| !is_unreached(item, &places));
        Ok(())
    }

    /// Names the second folder by the option of an import, which reads this log for another one.
    pub fn name_source(&mut self, alloc: Global) -> Result<(), AllocError> {
        for item in &mut self.items {
            if let Some(folder) = item.mend.strip_prefix(SPILL) {
                item.mend = format!(in alloc; "{FROM_SPILL}{folder}")?;
            }
        }
        Ok(())
    }

    /// Adds a line for each item.
    pub fn add_lines(&self, lines: &mut Lines) -> Result<(), AllocError> {
        for item in &self.items {
            item.add_line(lines)?;
        }
        Ok(())
    }

    /// Prints on standard error the lines that `check` prints, except those of reserved files.
    pub fn tell(&self, rt: &HostRuntime, options: &Options<'_>) -> Result<()> {
        let mut lines = Lines::new(rt.alloc(), options.json, false);
        for item in &self.items {
            if item.kind != Kind::Reserved {
                item.add_line(&mut lines)?;
            }
        }
        print_error(rt, str::from_utf8(lines.as_bytes())?)
    }
}

// Whether an item is of bytes of a file at one of these places.
fn is_unreached(item: &Item, places: &[String]) -> bool {
    match item.kind {
        Kind::Tail | Kind::Records | Kind::Broken | Kind::Note => {}
        _ => return false,
    }
    for place in places {
        if place.ends_with(item.path.as_str()) {
            return true;
        }
    }
    false
}
