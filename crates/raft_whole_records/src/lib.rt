//! Finds the whole records in the bytes of a log file, also after broken ones, and decompresses
//! their entries.
#![tactic(auto)]

mod block;
mod marks;
mod record;
mod scan;
mod signs;

pub use block::{keeps_entries, unpack_block};
pub use marks::{Marks, is_mark_key, mark_in, mark_of};
pub use record::{Broken, Unread, WholeRecord, read_record};
pub use scan::{Found, Gap, RecordScanner};
pub use signs::{FileSigns, Sign};
