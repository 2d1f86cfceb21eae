//! Tests of numbers, batches, records, tables, rules of purges and settings, each one loop over a
//! table of cases. The smallest cases in which the recovered contents change, each without one premise
//! of a law.
#![tactic(auto)]

#[cfg(test)]
mod asks;
#[cfg(test)]
mod batches;
#[cfg(test)]
mod c_batches;
#[cfg(test)]
mod c_parts;
#[cfg(test)]
mod changes;
#[cfg(test)]
mod counts;
pub mod drops;
#[cfg(test)]
mod encoded;
#[cfg(test)]
mod faults;
#[cfg(test)]
mod items;
#[cfg(test)]
mod laws;
#[cfg(test)]
mod listeners;
pub mod marks;
#[cfg(test)]
mod numbers;
#[cfg(test)]
mod once_batches;
#[cfg(test)]
mod once_pairs;
#[cfg(test)]
mod openings;
#[cfg(test)]
mod purge_hook;
#[cfg(test)]
mod purge_plans;
#[cfg(test)]
mod purge_rules;
#[cfg(test)]
mod record_rows;
#[cfg(test)]
mod records;
#[cfg(test)]
mod refused_rows;
pub mod rewriting;
#[cfg(test)]
mod settings_documents;
#[cfg(test)]
mod settings_original;
#[cfg(test)]
mod settings_tables;
#[cfg(test)]
mod settings_text;
#[cfg(test)]
mod sizes;
pub mod syncs;
#[cfg(test)]
mod tables;
#[cfg(test)]
mod told;
