//! What a command that changes a log has read elsewhere before the log is opened.

use crate::import::LineImport;
use crate::tables::TableImport;

/// What is written to the log.
pub enum Material<'a> {
    /// What the command line says.
    Request,
    /// Items of lines.
    Lines(LineImport),
    /// Groups that were read from files.
    Tables(TableImport<'a>),
}

impl Drop for Material<'_> {
    fn drop(self) {
        match self {
            Material::Request => {}
            Material::Lines(_lines) => {}
            Material::Tables(_tables) => {}
        }
    }
}
