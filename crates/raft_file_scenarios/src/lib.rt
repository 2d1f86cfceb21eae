//! Tests of log files, files in memory and in a folder of the operating system, and dumps and checks
//! of log files. Each is one loop over a table of cases.
#![tactic(auto)]

#[cfg(test)]
mod block_sizes;
#[cfg(test)]
mod building;
#[cfg(test)]
mod call_stories;
#[cfg(test)]
mod calls;
#[cfg(test)]
mod checks;
#[cfg(test)]
mod deeds;
#[cfg(test)]
mod disk;
#[cfg(test)]
mod dumps;
#[cfg(test)]
mod failing;
#[cfg(test)]
mod folder_steps;
#[cfg(test)]
mod foreign;
#[cfg(test)]
mod in_folder;
#[cfg(test)]
mod in_memory;
#[cfg(test)]
mod log_files;
#[cfg(test)]
mod looks;
#[cfg(test)]
mod losing;
#[cfg(test)]
mod losses;
#[cfg(test)]
mod memory_files;
#[cfg(test)]
mod names;
#[cfg(test)]
mod openings;
#[cfg(test)]
mod parts;
#[cfg(test)]
mod reading;
#[cfg(test)]
mod refused;
#[cfg(test)]
mod searches;
#[cfg(test)]
mod spellings;
#[cfg(test)]
mod stale;
#[cfg(test)]
mod told;
