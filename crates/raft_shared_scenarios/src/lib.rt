//! Tests of a shared engine: its history, with and without threads.
#![tactic(auto)]

#[cfg(test)]
mod asked;
#[cfg(test)]
mod histories;
#[cfg(test)]
mod memory;
#[cfg(test)]
mod seated;
#[cfg(test)]
mod stories;
#[cfg(test)]
mod threads;
