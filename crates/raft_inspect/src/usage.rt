//! How many bytes of each log file the index of an opening still refers to, by group.
ghost use Rattle.raft_env.specs.Moments.{OnlyReads};

use crate::queue_files::QueueFiles;
use raft_dump::{LogFile, LogItemReader, RecordPlace};
use raft_env::FileSystem;
use raft_records::{Fault, FileId, LogItem, LogQueue};
use raft_tables::{GlobalStats, MemTable, MemTableRecoverContext, MemTables, RewrittenBatches};
use std::alloc::{AllocError, Global};

/// A log file, and the bytes that are referred to of it by group, in the groups' order.
#[derive(Drop)]
pub struct FileUsage {
    pub id: FileId,
    pub path: String,
    pub len: u64,
    pub groups: Vec<(u64, u64)>,
}

/// The files of a queue that an opening keeps, by number.
#[derive(Drop)]
pub struct QueueUsage {
    pub queue: LogQueue,
    pub files: Vec<FileUsage>,
}

/// A group: how many bytes are referred to of it, its keys, and the first and the last index of its entries.
#[derive(Clone, Copy)]
pub struct GroupUsage {
    pub group: u64,
    pub bytes: u64,
    pub keys: u64,
    pub span: Option<(u64, u64)>,
}

/// What is referred to of both queues, and of each group, in the groups' order.
pub struct LogUsage {
    pub rewrite: QueueUsage,
    pub append: QueueUsage,
    pub groups: Vec<GroupUsage>,
}

// One call in a proof that drops it; derived, it would be one of each field (docs/DECISIONS.md).
impl Drop for LogUsage {
    fn drop(self) {
        let LogUsage {
            rewrite: _rewrite,
            append: _append,
            groups: _groups,
        } = self;
    }
}

/// What an opening that tolerates broken bytes refers to of the files of both queues.
pub fn measure<F: FileSystem>(
    alloc: Global,
    file_system: &mut F,
    rewrite: &QueueFiles,
    append: &QueueFiles,
) -> Result<LogUsage, Fault>
    ensures unchanged { OnlyReads F.directory F.moments F.refusals_of file_system.old
        file_system.new }
{
    let tables = tables_of(alloc, file_system, rewrite, append)?;
    let mut usage = LogUsage {
        rewrite: QueueUsage::new(alloc, rewrite)?,
        append: QueueUsage::new(alloc, append)?,
        groups: Vec::new(alloc),
    };
    for group in tables.groups()? {
        if let Some(table) = tables.table(group) {
            usage.add_table(alloc, group, table)?;
        }
    }
    Ok(usage)
}

// The tables as an opening makes them.
fn tables_of<F: FileSystem>(
    alloc: Global,
    file_system: &mut F,
    rewrite: &QueueFiles,
    append: &QueueFiles,
) -> Result<MemTables, Fault>
    ensures unchanged { OnlyReads F.directory F.moments F.refusals_of file_system.old
        file_system.new }
{
    let mut stats = GlobalStats::new();
    let batches = rewritten_of(alloc, file_system, rewrite)?;
    let mut context = MemTableRecoverContext::new(batches.into_tables(&mut stats)?);
    replay_all(alloc, file_system, append, &mut context, &mut stats)?;
    let (tables, _) = context.join(&mut stats)?;
    Ok(tables)
}

// The batches of the Rewrite queue.
fn rewritten_of<F: FileSystem>(
    alloc: Global,
    file_system: &mut F,
    found: &QueueFiles,
) -> Result<RewrittenBatches, Fault>
    ensures unchanged { OnlyReads F.directory F.moments F.refusals_of file_system.old
        file_system.new }
{
    let mut batches = RewrittenBatches::new(alloc);
    let mut reader = BatchReader::new(alloc, found.kept_files())?;
    'rewritten: for _ in 0..u64::MAX {
        match reader.next(file_system)? {
            Some((items, id)) => batches.push(items, id)?,
            None => break,
        }
    }
    Ok(batches)
}

// Adds those of the Append queue.
fn replay_all<F: FileSystem>(
    alloc: Global,
    file_system: &mut F,
    found: &QueueFiles,
    context: &mut MemTableRecoverContext,
    stats: &mut GlobalStats,
) -> Result<(), Fault>
    ensures unchanged { OnlyReads F.directory F.moments F.refusals_of file_system.old
        file_system.new }
{
    let mut reader = BatchReader::new(alloc, found.kept_files())?;
    'appended: for _ in 0..u64::MAX {
        match reader.next(file_system)? {
            Some((mut items, id)) => context.replay_append(&mut items, id, stats)?,
            None => break,
        }
    }
    Ok(())
}

/// An item and its record.
#[derive(Drop)]
struct Placed {
    item: LogItem,
    place: RecordPlace,
}

/// Reads files batch by batch, each up to its first broken place.
struct BatchReader<F: FileSystem> {
    alloc: Global,
    items: LogItemReader<F>,
    /// The first item of the next batch.
    ahead: Option<Placed>,
}

// One call in a proof that drops it; derived, it would be one of each field (docs/DECISIONS.md).
impl<F: FileSystem> Drop for BatchReader<F> {
    fn drop(self) {
        let BatchReader {
            alloc: _,
            items: _items,
            ahead: _ahead,
        } = self;
    }
}

impl<F: FileSystem> BatchReader<F> {
    fn new(alloc: Global, files: &[LogFile]) -> Result<BatchReader<F>, Fault> {
        let mut named = Vec::new(alloc);
        for file in files {
            let path = file.path.clone()?;
            named.push(LogFile { id: file.id, path })?;
        }
        Ok(BatchReader {
            alloc,
            items: LogItemReader::new(alloc, named),
            ahead: None,
        })
    }

    // The items of the next record, and its file.
    fn next(&mut self, file_system: &mut F) -> Result<Option<(Vec<LogItem>, FileId)>, Fault>
        ensures unchanged { OnlyReads F.directory F.moments F.refusals_of
            file_system.old file_system.new }
    {
        let first = match self.ahead.take() {
            Some(first) => Some(first),
            None => self.next_item(file_system)?,
        };
        match first {
            Some(first) => Ok(Some(self.batch_from(first, file_system)?)),
            None => Ok(None),
        }
    }

    // The items of the record of this first one.
    fn batch_from(
        &mut self,
        first: Placed,
        file_system: &mut F,
    ) -> Result<(Vec<LogItem>, FileId), Fault>
        ensures unchanged { OnlyReads F.directory F.moments F.refusals_of
            file_system.old file_system.new }
    {
        let Placed { item, place } = first;
        let mut items = Vec::new(self.alloc);
        items.push(item)?;
        'items: for _ in 0..u64::MAX {
            let Some(next) = self.next_item(file_system)? else {
                break;
            };
            if next.place != place {
                self.ahead = Some(next);
                break;
            }
            items.push(next.item)?;
        }
        Ok((items, place.id))
    }

    // The next item of a file that can be read.
    fn next_item(&mut self, file_system: &mut F) -> Result<Option<Placed>, Fault>
        ensures unchanged { OnlyReads F.directory F.moments F.refusals_of
            file_system.old file_system.new }
    {
        'items: for _ in 0..u64::MAX {
            let Some(next) = self.items.next(file_system) else {
                break;
            };
            match next {
                Ok(item) => {
                    if let Some(place) = self.items.place() {
                        return Ok(Some(Placed { item, place }));
                    }
                }
                Err(Fault::Corruption) => {}
                Err(fault) => return Err(fault),
            }
        }
        Ok(None)
    }
}

impl QueueUsage {
    // The files that an opening keeps, before anything refers to them.
    fn new(alloc: Global, found: &QueueFiles) -> Result<QueueUsage, AllocError> {
        let mut files = Vec::new(alloc);
        for (file, check) in found.kept_files().iter().zip(found.kept_checks()) {
            files.push(FileUsage {
                id: file.id,
                path: file.path.clone()?,
                len: check.len as u64,
                groups: Vec::new(alloc),
            })?;
        }
        Ok(QueueUsage {
            queue: found.queue,
            files,
        })
    }

    // Adds bytes of a file, if it is one of these. Groups come in their order.
    fn add(&mut self, id: FileId, group: u64, len: u64) -> Result<(), AllocError> {
        let first = match self.files.first() {
            Some(file) => file.id.seq,
            None => return Ok(()),
        };
        let Ok(place) = usize::try_from(id.seq.saturating_sub(first)) else {
            return Ok(());
        };
        match self.files.get_mut(place) {
            Some(file) => file.add(group, len),
            None => Ok(()),
        }
    }
}

impl LogUsage {
    // Adds what the table of a group refers to.
    fn add_table(&mut self, alloc: Global, group: u64, table: &MemTable) -> Result<(), AllocError> {
        let mut held = GroupUsage {
            group,
            bytes: 0,
            keys: 0,
            span: span_of(table),
        };
        if let Some((first, last)) = held.span {
            for index in first..=last {
                self.add_entry(table, index, &mut held)?;
            }
        }
        for (key, value) in table.pairs_between(alloc, None, None)? {
            held.keys = held.keys.saturating_add(1);
            if let Some(id) = table.place(key) {
                let len = key.len().saturating_add(value.len());
                self.add(id, len as u64, &mut held)?;
            }
        }
        self.groups.push(held)?;
        Ok(())
    }

    fn add_entry(
        &mut self,
        table: &MemTable,
        index: u64,
        held: &mut GroupUsage,
    ) -> Result<(), AllocError> {
        let Some(place) = table.entry(index) else {
            return Ok(());
        };
        match place.block {
            Some(block) => self.add(block.id, u64::from(place.len), held),
            None => Ok(()),
        }
    }

    fn add(&mut self, id: FileId, len: u64, held: &mut GroupUsage) -> Result<(), AllocError> {
        held.bytes = held.bytes.saturating_add(len);
        match id.queue {
            LogQueue::Rewrite => self.rewrite.add(id, held.group, len),
            LogQueue::Append => self.append.add(id, held.group, len),
        }
    }
}

fn span_of(table: &MemTable) -> Option<(u64, u64)> {
    Some((table.first_index()?, table.last_index()?))
}

impl FileUsage {
    fn add(&mut self, group: u64, len: u64) -> Result<(), AllocError> {
        let is_last = match self.groups.last() {
            Some((last, _)) => *last == group,
            None => false,
        };
        if !is_last {
            self.groups.push((group, 0))?;
        }
        if let Some((_, bytes)) = self.groups.last_mut() {
            *bytes = bytes.saturating_add(len);
        }
        Ok(())
    }

    /// How many bytes are referred to.
    pub fn referred(&self) -> u64 {
        let mut sum = 0u64;
        for (_, bytes) in &self.groups {
            sum = sum.saturating_add(*bytes);
        }
        sum
    }
}
