//! Tests of queues of log files over files in memory, of workers that read them, and of the
//! checker of consistency, and a call of each law below the engine. Each is one loop over a table
//! of cases.
#![tactic(auto)]

#[cfg(test)]
mod checks;
#[cfg(test)]
mod chunks;
#[cfg(test)]
mod crashed_queues;
#[cfg(test)]
mod crashed_rows;
#[cfg(test)]
mod failing;
#[cfg(test)]
mod folders;
#[cfg(test)]
mod groups;
#[cfg(test)]
mod keys;
#[cfg(test)]
mod laws;
#[cfg(test)]
mod machines;
#[cfg(test)]
mod meeting;
#[cfg(test)]
mod queues;
#[cfg(test)]
mod reaches;
#[cfg(test)]
mod read_bytes;
#[cfg(test)]
mod recovering;
#[cfg(test)]
mod refused;
#[cfg(test)]
mod reserved_files;
#[cfg(test)]
mod reserved_rows;
#[cfg(test)]
mod shares;
#[cfg(test)]
mod steps;
#[cfg(test)]
mod stored;
#[cfg(test)]
mod told;
#[cfg(test)]
mod tried;
#[cfg(test)]
mod two_folders;
#[cfg(test)]
mod two_queues;
#[cfg(test)]
mod workers;
