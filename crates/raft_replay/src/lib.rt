//! What an opening replays: the batches of a queue in chunks, each into its own tables, and the
//! contents of both queues.
#![tactic(auto)]

pub mod chunk_list;
pub mod chunk_reach;
pub mod group_reaches;
pub mod laws;
mod leaving;
pub mod machine;
pub mod own_tables;
pub mod reading;
mod room;

pub use chunk_list::AppendedChunks;
pub use chunk_reach::{Reach, Starts};
pub use group_reaches::Reaches;
pub use machine::RecoveryMachine;
pub use own_tables::AppendedBatches;
pub use raft_tables::{InOrder, Joining, SideBySide};
pub use reading::{Read, read_of};
