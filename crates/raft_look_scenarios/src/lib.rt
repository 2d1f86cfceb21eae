//! Tests of looks at a real folder: what they print, and that the folder is as before.
#![tactic(auto)]

#[cfg(test)]
mod changes;
#[cfg(test)]
mod commands;
#[cfg(test)]
mod files;
#[cfg(test)]
mod looks;
#[cfg(test)]
mod standing;
#[cfg(test)]
mod words;
