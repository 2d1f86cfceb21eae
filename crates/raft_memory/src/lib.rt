//! A file system in memory, with crashes and injected refusals.
#![tactic(auto)]

mod armed;
mod before_images;
mod calls;
mod crash;
mod file_bytes;
mod ghost_file;
mod half_write;
mod handles;
mod memory;
mod memory_file;
mod namespace;
mod noted;
mod read_part;
mod refusals;
mod settled;
mod touch;
mod write_first;

pub use armed::FsCall;
pub use crash::Choice;
pub use handles::{MemoryHandle, MemoryReader, MemoryWriter};
pub use memory::MemoryFileSystem;
pub use noted::NotedBytes;
pub use refusals::RefusalCount;
