//! What a test reports.

use std::test::Fail;

/// Fails the test with the row and the place in it that are wrong, if there are any.
pub(crate) fn tell(wrong: Option<(&'static str, usize)>) -> Result<(), Fail> {
    match wrong {
        None => Ok(()),
        Some((name, place)) => Err(Fail::new(format_args!("{name}, {place}"))),
    }
}
