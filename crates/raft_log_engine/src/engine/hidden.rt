//! The groups' numbers are left out of what reads list.
ghost use Rattle.std.specs.Prelude.{◌≡◌};
ghost use Rattle.raft_tables.specs.Listing.{lent_pairs, listed};
ghost use Rattle.raft_log_engine.specs.Hidden.{without_number};

use raft_once::is_number_key;
use raft_tables::KeyAndValue;

/// Takes the pair of a group's number out of a list.
pub(crate) fn hide_number(pairs: &mut Vec<(&[u8], &[u8])>)
    ensures value { lent_pairs pairs.new.items ≡ without_number (lent_pairs pairs.old.items) }
{
    pairs.retain(|pair| !is_number_key(pair.0));
}

/// The same, of a list of copies.
pub(crate) fn hide_copied_number(pairs: &mut Vec<KeyAndValue>)
    ensures value { listed pairs.new.items ≡ without_number (listed pairs.old.items) }
{
    pairs.retain(|pair| !is_number_key(pair.0.as_slice()));
}
