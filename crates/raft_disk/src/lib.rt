//! Files in a folder of the operating system, with an image of them in memory for reads.
#![tactic(auto)]

mod changes;
mod counts;
mod disk;
mod folder;
mod image;
pub mod laws;
mod lost;
mod mirror;
mod names;
mod opening;
mod places;
mod root;
mod span_file;
mod spans;
mod told;
mod view;

pub use counts::{DiskCounts, TIMES};
pub use disk::Disk;
pub use folder::{Folder, FolderFile};
pub use image::Image;
pub use mirror::{DiskHandle, DiskReader, DiskWriter, Mirror};
pub use names::{is_log_name, is_plain};
pub use opening::{DiskFileSystem, OpenFault};
pub use spans::{Span, SpanNote, SpanReport, SpanReports, Spans};
pub use told::Call;
pub use view::{FolderView, image_of};
