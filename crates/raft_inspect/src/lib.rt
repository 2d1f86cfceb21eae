//! What the files of a log say about it: what an opening would do with them, lines of their
//! contents, and a picture. Over values and file systems, without the engine.
#![tactic(auto)]

mod behind;
mod cuts;
mod filter;
mod folder_losses;
mod items;
mod kept;
mod lines;
mod losses;
mod outlook;
mod picture;
mod queue_files;
mod report;
mod spelling;
mod svg;
mod usage;

pub use behind::{Behind, BehindSearch, search_behind};
pub use cuts::{Cut, Unexplained, cuts_of};
pub use filter::{Filter, ItemKind};
pub use folder_losses::FolderLosses;
pub use items::{add_fault, add_item};
pub use lines::{Field, Lines, Word};
pub use losses::{Losses, Passed};
pub use outlook::Outlook;
pub use picture::draw;
pub use queue_files::{QueueFiles, inspect};
pub use report::{add_queue, queue_name};
pub use spelling::{Misspelled, read_digits, read_text};
pub use usage::{FileUsage, GroupUsage, LogUsage, QueueUsage, measure};
