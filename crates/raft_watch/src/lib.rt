//! Watches a running log from outside: every few seconds it lists the log's files and reads their
//! new records. It changes nothing, and the writer keeps its lock.
#![tactic(auto)]

mod changes;
mod drawing;
mod files;
mod queues;
mod report;
mod sizes;
mod watching;

pub use watching::watch;
