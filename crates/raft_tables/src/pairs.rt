//! Tables of one group in pairs, the older to be put below the newer.
ghost use Rattle.std.specs.Prelude.{◌≡◌, ◌+◌, OnOk, IfOk};
ghost use Rattle.std.specs.List.{AllZip};
ghost use Rattle.raft_tables.specs.Pairs.{ArePaired, ArePut, IsPairJoined, IsPaired, paired_total};
ghost use Rattle.raft_tables.specs.Recovering.{rewritten_total};
ghost use Rattle.raft_tables.specs.Table.{rewritten_in, table_of};
ghost use Rattle.raft_tables.specs.Tables.{tables_of, with_table};

use crate::memtable::MemTable;
use crate::memtables::MemTables;
use std::alloc::{AllocError, Global};
use std::thread::Threads;
use std::{mem, thread};

/// Two tables of a group.
#[derive(Drop)]
pub(crate) struct Pair {
    group: u64,
    older: MemTable,
    newer: MemTable,
    /// How many entries and values left the Rewrite queue when the older was put below.
    left: Result<u64, AllocError>,
}

impl Pair {
    /// Puts the older table below the newer, and an empty one in its place.
    fn join(&mut self, empty: MemTable)
        ensures { IsPairJoined self.old self.new }
    {
        let older = mem::replace(&mut self.older, empty);
        self.left = self.newer.put_below(older);
    }
}

/// Joins each pair, in so many threads at most.
pub(crate) fn join_all<R: Threads + Sync>(rt: &R, alloc: Global, threads: usize, pairs: &mut [Pair])
    ensures { AllZip IsPairJoined pairs.old pairs.new }
{
    let join = |_at: usize, pair: &mut Pair|
        ensures { IsPairJoined pair.entry.now pair.exit.now }
    { pair.join(MemTable::new(alloc)) };
    thread::for_each_mut(rt, pairs, threads.max(1), &join);
}

impl MemTables {
    /// Takes the tables of groups that older tables have too, in pairs. Other older tables are
    /// moved here as they are.
    pub(crate) fn pair_up(&mut self, older: MemTables) -> Result<Vec<Pair>, AllocError>
        ensures ok { IfOk result (λ pairs. ArePaired (tables_of older) (tables_of self.old)
            pairs.items (tables_of self.new)) }
        ensures total { IfOk result (λ pairs. paired_total pairs.items + rewritten_total self.new
            ≡ rewritten_total older + rewritten_total self.old) }
    {
        let mut pairs = Vec::new(self.alloc);
        for (group, table) in older.into_tables() {
            if let Some(pair) = self.pair_or_set(group, table)? {
                pairs.push(pair)?;
            }
        }
        Ok(pairs)
    }

    // Where the group has no table the older one becomes its own.
    fn pair_or_set(&mut self, group: u64, older: MemTable) -> Result<Option<Pair>, AllocError>
        ensures { IfOk result (IsPaired group older self.old self.new) }
    {
        let empty = MemTable::new(self.alloc);
        match self.tables.get_mut(&group) {
            Some(table) => Ok(Some(Pair {
                group,
                older,
                newer: mem::replace(table, empty),
                left: Ok(0),
            })),
            None => {
                self.tables.insert(group, older)?;
                Ok(None)
            }
        }
    }

    /// Puts the newer tables of joined pairs in their places. Returns how many entries and values
    /// left the Rewrite queue, up to the greatest `u64`. It fails if one could not be joined.
    pub(crate) fn put_pairs(&mut self, mut pairs: Vec<Pair>) -> Result<u64, AllocError>
        ensures { IfOk result (ArePut pairs.items self.old self.new) }
    {
        let mut left: u64 = 0;
        while let Some(pair) = pairs.pop() {
            let Pair {
                group,
                older: _,
                newer,
                left: more,
            } = pair;
            let more = more?;
            let replaced = self.set_table(group, newer)?;
            left = left.saturating_add(more).saturating_add(replaced);
        }
        Ok(left)
    }

    // Answers how many entries and values of the one before stood in the Rewrite queue.
    fn set_table(&mut self, group: u64, table: MemTable) -> Result<u64, AllocError>
        ensures ok { OnOk result (tables_of self.new
            ≡ with_table group (Some (table_of table)) (tables_of self.old)) }
        ensures total { IfOk result (λ left. left + rewritten_total self.new
            ≡ rewritten_in (table_of table) + rewritten_total self.old) }
    {
        match self.tables.insert(group, table)? {
            Some(before) => Ok(before.rewritten()),
            None => Ok(0),
        }
    }
}
