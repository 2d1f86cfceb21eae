//! An engine whose calls are values.
ghost use Rattle.std.specs.Prelude.{◌≡◌, ◌⊎◌, ◌↔◌, [], drop, Err, false, true, option_map, IfErr, IfOk, IsSomeAnd, MatchResult, OnOk, pos, zip};
ghost use Rattle.std.proofs.Props.{props};
ghost use Rattle.raft_base.specs.declared.errors.Fault.TheVariants.{Failed, Memory};
ghost use Rattle.raft_c_batch.specs.Batch.{read_batch};

use crate::answer::Answer;
use crate::calls::{Change, Fetch, Query, Scan, size_bound};
use crate::numbers::pairs_in;
use crate::opening::{Unopened, engine_over};
use crate::scan::pairs_of;
use raft_c_batch::{BatchFault, Entry, add_items, push_entries, push_numbers};
use raft_log_engine::{CacheCounts, Engine, Fault, FileSystem, LogBatch, LogQueue};
use std::alloc::Global;

/// The code for a requested item that does not exist.
const ABSENT: i32 = 20;

/// An open log over some files.
#[derive(Drop)]
pub struct OpenLog<F: FileSystem> {
    alloc: Global,
    engine: Engine<F>,
    /// The room for the items of a batch.
    batch: LogBatch,
    ghost emptied: { batch.items ≡ [] } by { Prim.hlevel props },
}

impl<F: FileSystem + Drop> OpenLog<F> {
    ghost use Rattle.raft_log_engine.specs.Engine.{directory_of, moments_of};
    ghost use Rattle.raft_c_log.specs.Closing.{IsClosedAs};
    ghost use Rattle.raft_c_log.specs.Opening.{IsOpenedBy, IsUnopened, KeepsNamed};

    /// The log in these files, with settings that are given as text.
    pub fn open(
        alloc: Global,
        settings: &[u8],
        files: F,
        answer: &mut Answer,
    ) -> Result<OpenLog<F>, Unopened<F>>
        ensures ok { IfOk result (λ log.
            IsOpenedBy settings.now (F.directory files) log.engine) }
        ensures cause { IfErr result (λ r. IsUnopened settings.now r.code (F.directory files)
            (F.refusals_of files) (F.refusals_of r.files)) }
        ensures any_moment { MatchResult result
            (λ log. KeepsNamed settings.now (F.directory files) (F.moments files)
            (moments_of log.engine) (directory_of log.engine))
            (λ r. KeepsNamed settings.now (F.directory files) (F.moments files)
            (F.moments r.files) (F.directory r.files)) }
    {
        match engine_over(alloc, settings, files) {
            Ok(engine) => Ok(OpenLog {
                alloc,
                engine,
                batch: LogBatch::new(alloc),
            }),
            Err(refused) => Err(Unopened {
                code: answer.keep(&refused.fault),
                files: refused.file_system,
            }),
        }
    }

    /// Closes the log, and returns a code: 0 if that was done. The files are then as they are.
    #[tactic(auto, using(crate::proofs::CodeLemmas::fault_codes))]
    pub fn close(self, answer: &mut Answer) -> (i32, F)
        ensures closed { IsClosedAs result.0 self.engine result.1 }
    {
        match self.engine.close() {
            Ok(files) => (0, files),
            Err(refused) => (answer.keep(&refused.fault), refused.file_system),
        }
    }
}

impl<F: FileSystem> OpenLog<F> {
    ghost use Rattle.raft_log_engine.specs.Calls.{IsCallersWrite};
    ghost use Rattle.raft_log_engine.specs.Durability.{HasOnlyRead};
    ghost use Rattle.raft_log_engine.specs.Engine.{contents_of, has_failed};
    ghost use Rattle.raft_log_engine.specs.Once.{IsWriteOnce};
    ghost use Rattle.raft_log_engine.specs.Reads.{entry_of};
    ghost use Rattle.raft_once.specs.Numbers.{shown};
    ghost use Rattle.raft_c_log.specs.Calls.{HasAnswered, IsBatchCall, IsCalled, IsFetchAnswer, IsGroupsAnswer, IsKeptOff, IsScanAnswer, IsSpanAnswer, answered, needs_told};
    ghost use Rattle.raft_c_log.specs.Outcomes.{HasEnded, IsReply};
    ghost use Rattle.raft_c_log.specs.Refusals.{IsBytesRefusal, IsQueryFault, IsRefusalFor};
    ghost use Rattle.raft_c_log.specs.declared.calls.Change.TheVariants.{CompactTo, PurgeAllStale, PurgeExpired, RewriteAppendGroups, RewriteAppendQueue, RewriteRewriteGroups, RewriteRewriteQueue};
    ghost use Rattle.raft_c_log.specs.declared.calls.Query.TheVariants as query;

    /// Carries a change out, and returns a code: 0 if that was done.
    pub fn change(&mut self, change: Change<'_>, answer: &mut Answer) -> i32
        ensures ended { HasEnded change.entry result self.old.engine self.new.engine answer.new }
    {
        match self.changed(change, answer) {
            Ok(()) => 0,
            Err(fault) => answer.keep(&fault),
        }
    }

    /// Reads, and returns a code: 0 if the requested item exists, 20 if it does not.
    pub fn read(&mut self, query: Query<'_>, answer: &mut Answer) -> i32
        ensures reply { IsReply query.entry result self.old.engine self.new.engine answer.new }
    {
        match self.answered(query, answer) {
            Ok(true) => 0,
            Ok(false) => ABSENT,
            Err(fault) => answer.keep(&fault),
        }
    }

    /// How many bytes of memory the engine's index has reserved. Takes one step for each group.
    pub fn index_memory(&self) -> u64 {
        self.engine.index_memory()
    }

    /// How many reads of an entry found its block kept, and how many had to read it.
    pub fn cache_counts(&self) -> CacheCounts {
        self.engine.cache_counts()
    }

    // Carries a change out.
    fn changed(&mut self, change: Change<'_>, answer: &mut Answer) -> Result<(), Fault>
        ensures called { IsCalled change.entry result self.old.engine self.new.engine answer.new }
    {
        match change {
            Change::Write(batch, sync) => self.write(batch, sync),
            Change::WriteOnce(batch, groups, numbers, sync) => {
                self.write_once(batch, groups, numbers, sync)
            }
            Change::Sync => self.engine.sync(),
            Change::CompactTo(group, index) => self.compact_to(group, index, answer),
            Change::RewriteAppendQueue => self.rewrite_append_queue(answer),
            Change::RewriteAppendGroups(watermark, from, budget) => {
                self.rewrite_append_groups(watermark, from, budget, answer)
            }
            Change::RewriteRewriteQueue => self.rewrite_rewrite_queue(answer),
            Change::RewriteRewriteGroups(from, budget) => {
                self.rewrite_rewrite_groups(from, budget, answer)
            }
            Change::PurgeAllStale => self.purge_all_stale(answer),
            Change::PurgeExpired(barrier) => self.purge_expired(barrier, answer),
        }
    }

    // Writes the batch of these bytes.
    fn write(&mut self, bytes: &[u8], sync: bool) -> Result<(), Fault>
        ensures called { let taken = read_batch bytes.now in
            IsKeptOff (IsBytesRefusal bytes.now) result self.old.engine self.new.engine
            ⊎ IsSomeAnd taken (IsBatchCall (λ items rest.
            IsCallersWrite items rest sync self.old.engine self.new.engine) result) }
    {
        let done = match add_items(self.alloc, &mut self.batch, bytes) {
            Ok(()) => self.engine.write(&mut self.batch, sync),
            Err(BatchFault::Malformed) => Err(Fault::InvalidArgument("the bytes are no batch")),
            Err(BatchFault::Refused(fault)) => Err(fault),
        };
        match done {
            Ok(_) => Ok(()),
            Err(fault) => {
                self.batch = LogBatch::new(self.alloc);
                Err(fault)
            }
        }
    }

    // .. with numbers, so that it acts once.
    fn write_once(
        &mut self,
        bytes: &[u8],
        groups: &[u64],
        numbers: &[u64],
        sync: bool,
    ) -> Result<(), Fault>
        ensures called { let taken = read_batch bytes.now in
            IsKeptOff (IsBytesRefusal bytes.now) result self.old.engine self.new.engine
            ⊎ IsSomeAnd taken (IsBatchCall (λ items rest. IsWriteOnce items rest
            (zip groups.now numbers.now) sync self.old.engine self.new.engine) result) }
    {
        match pairs_in(self.alloc, groups, numbers) {
            Ok(pairs) => self.write_numbered(bytes, &pairs, sync),
            Err(fault) => Err(fault),
        }
    }

    fn write_numbered(
        &mut self,
        bytes: &[u8],
        pairs: &[(u64, u64)],
        sync: bool,
    ) -> Result<(), Fault>
        ensures called { let taken = read_batch bytes.now in
            IsKeptOff (IsBytesRefusal bytes.now) result self.old.engine self.new.engine
            ⊎ IsSomeAnd taken (IsBatchCall (λ items rest.
            IsWriteOnce items rest pairs.now sync self.old.engine self.new.engine) result) }
    {
        let done = match add_items(self.alloc, &mut self.batch, bytes) {
            Ok(()) => self.engine.write_once(&mut self.batch, pairs, sync),
            Err(BatchFault::Malformed) => Err(Fault::InvalidArgument("the bytes are no batch")),
            Err(BatchFault::Refused(fault)) => Err(fault),
        };
        match done {
            Ok(_) => Ok(()),
            Err(fault) => {
                self.batch = LogBatch::new(self.alloc);
                Err(fault)
            }
        }
    }

    fn compact_to(&mut self, group: u64, index: u64, answer: &mut Answer) -> Result<(), Fault>
        ensures called { IsCalled (CompactTo group index) result self.old.engine self.new.engine
            answer.new }
    {
        match self.engine.compact_to(group, index) {
            Ok(count) => {
                answer.numbers = (count, 0);
                Ok(())
            }
            Err(fault) => Err(fault),
        }
    }

    fn rewrite_append_queue(&mut self, answer: &mut Answer) -> Result<(), Fault>
        ensures called { IsCalled RewriteAppendQueue result self.old.engine self.new.engine
            answer.new }
    {
        match self.engine.must_rewrite_append_queue(None, None) {
            Ok(count) => {
                answer.numbers = (count as u64, 0);
                Ok(())
            }
            Err(fault) => Err(fault),
        }
    }

    fn rewrite_append_groups(
        &mut self,
        watermark: u64,
        from: u64,
        budget: u64,
        answer: &mut Answer,
    ) -> Result<(), Fault>
        ensures called { IsCalled (RewriteAppendGroups watermark from budget) result
            self.old.engine self.new.engine answer.new }
    {
        let (_, last) = self.engine.file_spans().append;
        match self
            .engine
            .must_rewrite_append_groups(watermark, from, budget)
        {
            Ok(next) => {
                answer.numbers = (next.unwrap_or(0), watermark.min(last));
                Ok(())
            }
            Err(fault) => Err(fault),
        }
    }

    fn rewrite_rewrite_groups(
        &mut self,
        from: u64,
        budget: u64,
        answer: &mut Answer,
    ) -> Result<(), Fault>
        ensures called { IsCalled (RewriteRewriteGroups from budget) result
            self.old.engine self.new.engine answer.new }
    {
        match self.engine.must_rewrite_rewrite_groups(from, budget) {
            Ok(next) => {
                answer.numbers = (next.unwrap_or(0), 0);
                Ok(())
            }
            Err(fault) => Err(fault),
        }
    }

    fn rewrite_rewrite_queue(&mut self, answer: &mut Answer) -> Result<(), Fault>
        ensures called { IsCalled RewriteRewriteQueue result self.old.engine self.new.engine
            answer.new }
    {
        match self.engine.must_rewrite_rewrite_queue() {
            Ok(count) => {
                answer.numbers = (count as u64, 0);
                Ok(())
            }
            Err(fault) => Err(fault),
        }
    }

    fn purge_all_stale(&mut self, answer: &mut Answer) -> Result<(), Fault>
        ensures called { IsCalled PurgeAllStale result self.old.engine self.new.engine answer.new }
    {
        match self.engine.must_purge_all_stale() {
            Ok(count) => {
                answer.numbers = (count as u64, 0);
                Ok(())
            }
            Err(fault) => Err(fault),
        }
    }

    fn purge_expired(&mut self, barrier: u64, answer: &mut Answer) -> Result<(), Fault>
        ensures called { IsCalled (PurgeExpired barrier) result self.old.engine self.new.engine
            answer.new }
    {
        match self.engine.purge_expired_files(barrier) {
            Ok(asked) => {
                answer.bytes.clear();
                match push_numbers(&mut answer.bytes, &asked) {
                    Ok(()) => Ok(()),
                    Err(_) => Err(Fault::Memory),
                }
            }
            Err(fault) => Err(fault),
        }
    }

    // Reads. Answers whether what was asked for is there.
    fn answered(&mut self, query: Query<'_>, answer: &mut Answer) -> Result<bool, Fault>
        ensures value { IfOk result (HasAnswered query.entry self.old.engine answer.new) }
        ensures unchanged { HasOnlyRead self.old.engine self.new.engine }
        ensures contents { contents_of self.new.engine ≡ contents_of self.old.engine }
        ensures failed { (result ≡ Err Failed) ↔ (has_failed self.old.engine ≡ true) }
        ensures cause { IfErr result (IsRefusalFor (has_failed self.old.engine)
            (IsQueryFault query.entry self.old.engine self.new.engine)) }
    {
        match query {
            Query::Get(group, key) => self.get(group, key, answer),
            Query::Entry(group, index) => self.entry(group, index, answer),
            Query::Fetch(fetch) => self.fetch(fetch, answer),
            Query::Scan(scan) => self.scan(scan, answer),
            Query::Groups => self.groups(answer),
            Query::Span(group) => self.span(group, answer),
            Query::PurgeNeeds => self.purge_needs(answer),
        }
    }

    #[tactic(auto, using(crate::proofs::RefusalLemmas::for_memory))]
    fn get(&self, group: u64, key: &[u8], answer: &mut Answer) -> Result<bool, Fault>
        ensures value { IfOk result (λ found. answered found answer.new.bytes.items
            ≡ (shown (contents_of self.now.engine)).value group key.now) }
        ensures failed { (result ≡ Err Failed) ↔ (has_failed self.now.engine ≡ true) }
        ensures cause { IfErr result (IsRefusalFor (has_failed self.now.engine)
            (IsQueryFault (query.Get group key.entry) self.now.engine self.now.engine)) }
    {
        match self.engine.get(group, key)? {
            Some(value) => {
                answer.bytes = value;
                Ok(true)
            }
            None => Ok(false),
        }
    }

    fn entry(&mut self, group: u64, index: u64, answer: &mut Answer) -> Result<bool, Fault>
        ensures value { IfOk result (λ found. answered found answer.new.bytes.items
            ≡ option_map (drop 8) (entry_of (contents_of self.old.engine) group index)) }
        ensures unchanged { HasOnlyRead self.old.engine self.new.engine }
        ensures failed { (result ≡ Err Failed) ↔ (has_failed self.old.engine ≡ true) }
        ensures cause { IfErr result (IsRefusalFor (has_failed self.old.engine)
            (IsQueryFault (query.Entry group index) self.old.engine self.new.engine)) }
    {
        match self.engine.get_entry::<Entry>(group, index)? {
            Some(entry) => {
                answer.bytes.clear();
                answer.bytes.extend_from_slice(entry.value())?;
                Ok(true)
            }
            None => Ok(false),
        }
    }

    fn fetch(&mut self, fetch: Fetch, answer: &mut Answer) -> Result<bool, Fault>
        ensures value { OnOk result (IsFetchAnswer fetch (contents_of self.old.engine)
            answer.new.bytes.items) }
        ensures ok { IfOk result (λ found. found ≡ true) }
        ensures unchanged { HasOnlyRead self.old.engine self.new.engine }
        ensures failed { (result ≡ Err Failed) ↔ (has_failed self.old.engine ≡ true) }
        ensures cause { IfErr result (IsRefusalFor (has_failed self.old.engine)
            (IsQueryFault (query.Fetch fetch) self.old.engine self.new.engine)) }
    {
        let mut entries = Vec::new(self.alloc);
        self.engine.fetch_entries_to::<Entry>(
            fetch.group,
            fetch.begin,
            fetch.end,
            size_bound(fetch.max_size),
            &mut entries,
        )?;
        answer.bytes.clear();
        push_entries(&mut answer.bytes, &entries)?;
        Ok(true)
    }

    fn scan(&self, scan: Scan<'_>, answer: &mut Answer) -> Result<bool, Fault>
        ensures value { OnOk result (IsScanAnswer scan.entry (shown (contents_of self.now.engine))
            answer.new.bytes.items) }
        ensures ok { IfOk result (λ found. found ≡ true) }
        ensures failed { (result ≡ Err Failed) ↔ (has_failed self.now.engine ≡ true) }
        ensures cause { IfErr result (IsRefusalFor (has_failed self.now.engine)
            (IsQueryFault (query.Scan scan.entry) self.now.engine self.now.engine)) }
    {
        answer.bytes = pairs_of(self.alloc, &self.engine, scan)?;
        Ok(true)
    }

    #[tactic(auto, using(crate::proofs::RefusalLemmas::for_memory))]
    fn groups(&self, answer: &mut Answer) -> Result<bool, Fault>
        ensures value { OnOk result (IsGroupsAnswer self.now.engine answer.new.bytes.items) }
        ensures ok { IfOk result (λ found. found ≡ true) }
        ensures failed { (result ≡ Err Failed) ↔ (has_failed self.now.engine ≡ true) }
        ensures cause { IfErr result (IsRefusalFor (has_failed self.now.engine)
            (λ e. e ≡ Memory)) }
    {
        let groups = self.engine.raft_groups()?;
        answer.bytes.clear();
        push_numbers(&mut answer.bytes, &groups)?;
        Ok(true)
    }

    #[tactic(auto, using(crate::proofs::CallLemmas::no_last))]
    fn span(&self, group: u64, answer: &mut Answer) -> Result<bool, Fault>
        ensures value { IfOk result (IsSpanAnswer
            ((contents_of self.now.engine).entries group) answer.new.numbers) }
        ensures failed { (result ≡ Err Failed) ↔ (has_failed self.now.engine ≡ true) }
        ensures cause { IfErr result (IsRefusalFor (has_failed self.now.engine) (λ e. ⊥)) }
    {
        if self.engine.failed() {
            return Err(Fault::Failed);
        }
        let Some(first) = self.engine.first_index(group) else {
            return Ok(false);
        };
        let Some(last) = self.engine.last_index(group) else {
            return Ok(false);
        };
        answer.numbers = (first, last);
        Ok(true)
    }

    fn purge_needs(&self, answer: &mut Answer) -> Result<bool, Fault>
        ensures value { IfOk result (λ found. (found ≡ true)
            × (answer.new.numbers ≡ needs_told self.now.engine)) }
        ensures failed { (result ≡ Err Failed) ↔ (has_failed self.now.engine ≡ true) }
        ensures cause { IfErr result (IsRefusalFor (has_failed self.now.engine) (λ e. ⊥)) }
    {
        let has_failed = self.engine.failed();
        if has_failed {
            return Err(Fault::Failed);
        }
        let watermark = self.engine.append_rewrite_watermark().unwrap_or(0);
        let is_due = self.engine.needs_rewrite_log_files(LogQueue::Rewrite);
        answer.numbers = (watermark, if is_due { 1 } else { 0 });
        Ok(true)
    }
}
