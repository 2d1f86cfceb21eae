//! Looks at a folder's log files, which are read and never changed: how much of each can be read,
//! its items, and all files in memory.
#![tactic(auto)]

mod checking;
mod dumping;
mod faults;
mod folder;
mod hindrances;
mod inside;
mod left_out;
mod note;
mod planning;
mod reserved;
mod source;
mod unread_note;

pub use checking::check;
pub use dumping::dump;
pub use faults::{tell_refusal, told};
pub use folder::{Folder, ReservedFile};
pub use inside::is_inside;
pub use planning::BothQueues;
pub use reserved::is_reserved;
pub use source::FileSource;
