//! What log files hold, item by item, and what can be read of a file: for tools that look at a log.
#![tactic(auto)]

mod build;
mod check;
mod dumping;
mod files;
mod in_memory;
mod item_reader;
mod part_check;
mod part_image;
pub mod part_laws;
mod part_source;
mod part_wanted;
mod parts;
mod plan;
mod stale;

pub use build::{build_file_reader, build_file_writer};
pub use check::{FileCheck, are_zeros, check_file, without_header};
pub use dumping::dump_with_file_system;
pub use files::{LogFile, log_file, log_files};
pub use in_memory::dump;
pub use item_reader::{LogItemReader, RecordPlace};
pub use part_check::check_parts;
pub use part_image::image_of_part;
pub use part_source::{FilePart, PartSource, read_whole_part};
pub use part_wanted::{PART_LEN, wanted_behind};
pub use parts::LogFileParts;
pub use plan::{Planned, passed_over, plan_opening};
pub use stale::{STALE_LEN, StaleSearch, search_stale};
