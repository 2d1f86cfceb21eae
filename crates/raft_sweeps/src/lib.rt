//! Tests that cross crates: trials, failing calls in lists of operations, logs that reuse files,
//! forks and listeners.
#![tactic(auto)]

#[cfg(test)]
mod answers;
#[cfg(test)]
mod bench;
#[cfg(test)]
mod fork_refusals;
#[cfg(test)]
mod heard;
#[cfg(test)]
mod lists;
#[cfg(test)]
mod refusals;
#[cfg(test)]
mod stops;
#[cfg(test)]
mod told;
#[cfg(test)]
mod trials;
