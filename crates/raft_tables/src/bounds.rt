//! Which keys are between two bounds. None is no bound.
ghost use Rattle.std.specs.Prelude.{◌≡◌};
ghost use Rattle.std.specs.Option.{option_copied};
ghost use Rattle.raft_tables.specs.Listing.{is_before, is_between, is_from};

pub(crate) fn is_between(key: &[u8], start: Option<&[u8]>, end: Option<&[u8]>) -> bool
    ensures value { result ≡ is_between (option_copied start.entry) (option_copied end.entry)
        key.now }
{
    is_from(start, key) && is_before(end, key)
}

fn is_from(start: Option<&[u8]>, key: &[u8]) -> bool
    ensures value { result ≡ is_from (option_copied start.entry) key.now }
{
    match start {
        Some(start) => start <= key,
        None => true,
    }
}

fn is_before(end: Option<&[u8]>, key: &[u8]) -> bool
    ensures value { result ≡ is_before (option_copied end.entry) key.now }
{
    match end {
        Some(end) => key < end,
        None => true,
    }
}
