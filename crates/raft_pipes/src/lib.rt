//! A queue of log files in the settings' folders: appends, reads, rotations and purges.
#![tactic(auto)]

pub mod file_list;
mod log_folders;
mod pipe;
pub mod rotation;
mod spare;
pub mod spare_laws;

pub use log_folders::{LogFolders, make_folder};
pub use pipe::{AppendFault, END_OF_NUMBERS, NewPipe, RotationFault, SinglePipe};
pub use spare::{SealedFile, SpareFile};
