//! Writes that act once: the number that each group keeps, and the batches that raise it.
#![tactic(auto)]

pub mod laws;
mod numbers;

pub use numbers::{NUMBER_KEY, add_numbers, are_unfit, is_number_key, kept_number, number_item_at};
