//! Tests of openings: of a real folder after crashes, and of no files.
#![tactic(auto)]

#[cfg(test)]
mod crashes;
#[cfg(test)]
mod no_files;
