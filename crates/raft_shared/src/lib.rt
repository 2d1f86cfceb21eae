//! One engine for many threads: its calls, made from seats, the history of these calls, and syncs
//! that threads share.
#![tactic(auto)]

mod book;
mod call;
mod desk;
mod engine_calls;
mod gate;
mod seat;
mod settled;
mod shared;
mod ticket;
mod tickets;

pub use book::{Front, Naming, Opened};
pub use call::{Call, Purged, Receipt, Recorded, Reply, SharedBytes, SharedCall};
pub use desk::{Desk, Noted};
pub use raft_log_engine::{Engine, Fault, FileSystem, LogBatch};
pub use seat::Seat;
pub use shared::{Finished, Refused, Shared, Unfinished};
pub use ticket::{Durable, Ticket};
pub use tickets::Tickets;
