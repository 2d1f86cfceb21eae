//! Log files: their names and headers, and how they are written and read.
#![tactic(auto)]

pub mod completed_laws;
mod file_block;
mod file_reader;
mod file_records;
mod format;
pub mod laws;
mod log_file;
mod padding;

pub use file_reader::LogItemBatchFileReader;
pub use file_records::FileRecordReader;
pub use format::{
    FileNameExt, LogFileFormat, build_reserved_file_name, is_zero_padded, parse_reserved_file_name,
};
pub use log_file::{LogFileReader, LogFileWriter};
