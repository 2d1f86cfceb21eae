//! The first known groups from a number on.
ghost use Rattle.std.specs.Prelude.{◌≡◌, ◌≤◌, ◌⊎◌, ◌&&◌, ℕ, IfOk, Some, length, nat_eq, is_some, true};
ghost use Rattle.std.specs.List.{IsDistinct, list_any};
ghost use Rattle.std.specs.List.Sorted.{IsStrictlySortedBy};
ghost use Rattle.std.specs.Option.{IfSome};
ghost use Rattle.std.specs.Ordering.{nat_cmp};
ghost use Rattle.raft_tables.specs.GroupsFrom.{IsFront, is_between};
ghost use Rattle.raft_tables.specs.Tables.{tables_of};

use crate::memtables::MemTables;
use std::alloc::AllocError;

/// Known groups in ascending order, and the known group that follows them, if there is one.
#[derive(Debug, Drop)]
pub struct FirstGroups {
    pub groups: Vec<u64>,
    pub next: Option<u64>,
}

impl MemTables {
    /// The known groups from a number on: all of them, or the first ones, but at least `limit`. It
    /// looks at the number of each known group, and keeps at most `2 * limit + 1` at a time.
    pub fn groups_from(&self, from: u64, limit: usize) -> Result<FirstGroups, AllocError>
        ensures sorted { IfOk result (λ found. IsStrictlySortedBy nat_cmp found.groups.items) }
        ensures value { IfOk result (λ found. (g : ℕ) → list_any (nat_eq g) found.groups.items
            ≡ (is_some (tables_of self.now g) && is_between from found.next g)) }
        ensures next { IfOk result (λ found. IfSome found.next (λ g. limit
            ≤ length found.groups.items × (is_some (tables_of self.now g) ≡ true))) }
    {
        let mut found = FirstGroups {
            groups: Vec::new(self.alloc),
            next: None,
        };
        for group in self.tables.keys() {
            if found.takes(from, *group) {
                found.groups.push(*group)?;
                found.cut(limit);
            }
        }
        found.groups.sort_unstable();
        Ok(found)
    }
}

impl FirstGroups {
    /// Whether the group comes before the one that follows, and not before this number.
    fn takes(&self, from: u64, group: u64) -> bool
        ensures value { result ≡ is_between from self.now.next group }
    {
        from <= group
            && match self.next {
                None => true,
                Some(next) => group < next,
            }
    }

    /// Keeps the first `limit` groups if there are more than twice as many, in any order.
    fn cut(&mut self, limit: usize)
        requires { IsDistinct nat_eq self.old.groups.items }
        ensures full { (self.new ≡ self.old) ⊎ ((next : ℕ) × (self.new.next ≡ Some next)
            × (limit ≤ length self.new.groups.items)
            × IsFront self.old.groups.items self.new.groups.items next) }
    {
        if self.groups.len() <= limit.saturating_mul(2) {
            return;
        }
        self.groups.sort_unstable();
        self.next = Some(self.groups[limit]);
        self.groups.truncate(limit);
    }
}
