//! Lists: whether any flag is set, and the removal of added items.
ghost use Rattle.std.specs.List.{list_any};
ghost use Rattle.std.specs.Prelude.{◌≡◌, take};

/// Whether any of the flags is `true`.
pub fn is_any(flags: &[bool]) -> bool
    ensures value { result ≡ list_any (λ flag. flag) flags.now }
{
    flags.iter().any(|flag| *flag)
}

/// Drops the items after the first `held` items.
pub fn take_back<T: Drop>(items: &mut Vec<T>, held: usize)
    ensures value { items.new.items ≡ take held items.old.items }
{
    items.truncate(held);
}
