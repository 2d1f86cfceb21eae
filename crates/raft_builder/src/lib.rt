//! Opens both queues of log files in stages: find, read in order or by workers, settle.
#![tactic(auto)]

pub mod chunks;
mod dealing;
mod dual_builder;
mod factory;
mod finding;
mod found_queue;
mod gathering;
pub mod merging;
mod part;
mod reading;
mod settling;
mod side_by_side;

pub use chunks::{Workers, chunk_len, workers_for};
pub use dual_builder::DualPipesBuilder;
pub use factory::DefaultMachineFactory;
pub use found_queue::{Cut, RecoveryConfig};
pub use merging::{MergingMachine, merge_in_order};
pub use raft_opening::DEFAULT_FIRST_FILE_SEQ;
pub use reading::{QueueRead, ReadSettings, read_both, read_queue};

/// Opens it.
pub type FilePipeLogBuilder<F> = DualPipesBuilder<F>;
