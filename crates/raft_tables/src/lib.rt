//! The index in memory: what each group holds, and in which files.
#![tactic(auto)]

mod bounds;
mod dropping;
pub mod entries;
mod file_counts;
pub mod group_ids;
mod groups_from;
mod growing;
mod joining;
pub mod key_hash;
mod leaving;
mod memory;
pub mod memtable;
pub mod memtables;
mod moving;
pub mod owed;
mod packed_place;
mod pairs;
pub mod recovering;
pub mod rewritten;
mod span;
pub mod stats;
mod validity;

pub use entries::EntryTable;
pub use group_ids::GroupIds;
pub use groups_from::FirstGroups;
pub use joining::{InOrder, Joining, SideBySide};
pub use memtable::{KeyAndValue, MemTable};
pub use memtables::MemTables;
pub use owed::OwedMarks;
pub use recovering::MemTableRecoverContext;
pub use rewritten::{GroupsMet, RewrittenBatches};
pub use stats::GlobalStats;
