//! Which items of log files are reported.

use raft_records::{Command, KeyValue};

/// What an item of a record does.
#[derive(Clone, Copy, Debug, PartialEq, Eq)]
pub enum ItemKind {
    Put,
    Delete,
    Entry,
    Clean,
    Compact,
}

impl ItemKind {
    /// The kind of this name.
    pub fn named(word: &str) -> Option<ItemKind> {
        match word {
            "put" => Some(ItemKind::Put),
            "delete" => Some(ItemKind::Delete),
            "entry" => Some(ItemKind::Entry),
            "clean" => Some(ItemKind::Clean),
            "compact" => Some(ItemKind::Compact),
            _ => None,
        }
    }

    pub fn name(self) -> &'static str {
        match self {
            ItemKind::Put => "put",
            ItemKind::Delete => "delete",
            ItemKind::Entry => "entry",
            ItemKind::Clean => "clean",
            ItemKind::Compact => "compact",
        }
    }

    pub(crate) fn of_pair(pair: &KeyValue) -> ItemKind {
        match pair {
            KeyValue::Put { .. } => ItemKind::Put,
            KeyValue::Delete { .. } => ItemKind::Delete,
        }
    }
}

/// A group, a kind, and the first and the last index of entries and compactions. A part that is not
/// named accepts anything; but if an index is named, items without an index are left out.
#[derive(Clone, Copy)]
pub struct Filter {
    pub group: Option<u64>,
    pub kind: Option<ItemKind>,
    pub from: Option<u64>,
    pub to: Option<u64>,
}

impl Filter {
    /// Takes every item.
    pub const ALL: Filter = Filter {
        group: None,
        kind: None,
        from: None,
        to: None,
    };

    /// Whether an item of a group is reported.
    pub fn takes(self, group: u64, kind: ItemKind, index: Option<u64>) -> bool {
        let is_group = match self.group {
            Some(wanted) => wanted == group,
            None => true,
        };
        let is_kind = match self.kind {
            Some(wanted) => wanted == kind,
            None => true,
        };
        is_group && is_kind && self.takes_index(index)
    }

    fn takes_index(self, index: Option<u64>) -> bool {
        match index {
            Some(index) => self.from.unwrap_or(0) <= index && index <= self.to.unwrap_or(u64::MAX),
            None => self.from.is_none() && self.to.is_none(),
        }
    }

    pub(crate) fn takes_command(self, group: u64, command: Command) -> bool {
        match command {
            Command::Clean => self.takes(group, ItemKind::Clean, None),
            Command::Compact { index } => self.takes(group, ItemKind::Compact, Some(index)),
        }
    }
}
