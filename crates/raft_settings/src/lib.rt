//! Settings are read from TOML and written as TOML.
#![tactic(auto)]

mod laws;
mod reading;
mod value;
mod writing;

pub use laws::a_text_decides_its_settings;
pub use reading::{read, with_table, with_text};
pub use writing::write;
