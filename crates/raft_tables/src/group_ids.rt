//! Numbers of atomic groups.
ghost use Rattle.std.specs.Prelude.{◌≡◌, ◌+◌, ◌^◌, IfSome, None, max, nat_le};

/// Gives numbers for atomic groups, each greater than every one that occurred or was given before.
#[derive(Clone, Copy, Debug)]
pub struct GroupIds {
    /// The next number. There is none after the greatest has occurred or was given.
    next: Option<u64>,
}

impl GroupIds {
    ghost use Rattle.raft_tables.specs.GroupIds.{ids_bound};

    /// No number has occurred.
    pub fn new() -> GroupIds
        ensures value { ids_bound result ≡ 0 }
    {
        GroupIds { next: Some(0) }
    }

    /// Notes a number that is used already.
    pub fn meet(&mut self, id: u64)
        ensures value { ids_bound self.new ≡ max (ids_bound self.old) (id + 1) }
    {
        if self.is_new(id) {
            self.next = id.checked_add(1);
        }
    }

    /// Whether a number is above every one that occurred or was given.
    pub(crate) fn is_new(&self, id: u64) -> bool
        ensures value { result ≡ nat_le (ids_bound self.now) id }
    {
        match self.next {
            Some(next) => next <= id,
            None => false,
        }
    }

    /// A number above every one that occurred or was given; none after the greatest.
    pub fn give(&mut self) -> Option<u64>
        ensures some { IfSome result
            (λ id. (id ≡ ids_bound self.old) × (ids_bound self.new ≡ id + 1)) }
        ensures none { result ≡ None → (ids_bound self.old ≡ 2 ^ 64) × (self.new ≡ self.old) }
    {
        let id = self.next?;
        self.next = id.checked_add(1);
        Some(id)
    }
}
