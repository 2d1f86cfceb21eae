//! The items of log files as text.

use crate::asked::ItemsLine;
use crate::line::Line;
use crate::said::Said;
use raft_dump::{LogItemReader, dump_with_file_system};
use raft_env::FileSystem;
use raft_records::{Command, EntryIndex, Fault, KeyValue, LogItem, LogItemContent};
use std::alloc::Global;

impl Said {
    // Prints an item with its group. An entry is printed as its index and length, or as its index
    // and place.
    fn item(&mut self, item: &LogItem, has_places: bool) {
        let group = item.raft_group_id;
        match &item.content {
            LogItemContent::EntryIndexes(entries) => {
                self.with(" ent ", group);
                self.entries(entries, has_places);
            }
            LogItemContent::Command(command) => self.command(group, command),
            LogItemContent::Kv(pair) => self.key_value(group, pair),
        }
    }

    fn command(&mut self, group: u64, command: &Command) {
        match command {
            Command::Clean => self.with(" clean ", group),
            Command::Compact { index } => {
                self.with(" compact ", group);
                self.with(" ", *index);
            }
        }
    }

    fn key_value(&mut self, group: u64, pair: &KeyValue) {
        match pair {
            KeyValue::Put { key, value } => {
                self.with(" put ", group);
                self.spell(" ", key);
                self.spell(" ", value);
            }
            KeyValue::Delete { key } => {
                self.with(" del ", group);
                self.spell(" ", key);
            }
        }
    }

    fn entries(&mut self, entries: &[EntryIndex], has_places: bool) {
        for entry in entries {
            self.with(" ", entry.index);
            if has_places {
                self.place(entry);
            } else {
                self.with(":", u64::from(entry.entry_len));
            }
        }
    }

    // Prints the offset of the entry's block in the file, the offset in the block, and the length.
    fn place(&mut self, entry: &EntryIndex) {
        match entry.entries {
            Some(block) => {
                self.with(":", block.offset);
                self.with("+", u64::from(entry.entry_offset));
                self.with("+", u64::from(entry.entry_len));
            }
            None => self.say(":nowhere"),
        }
    }

    fn next_item(&mut self, next: Result<LogItem, Fault>, has_places: bool) -> Result<(), Fault> {
        match next {
            Ok(item) => {
                self.item(&item, has_places);
                Ok(())
            }
            Err(fault) => Err(fault),
        }
    }
}

fn reader_at<F: FileSystem>(
    alloc: Global,
    files: &mut F,
    path: &str,
    asked: ItemsLine,
) -> Result<LogItemReader<F>, Fault> {
    match asked {
        ItemsLine::File => LogItemReader::new_file_reader(alloc, files, path),
        ItemsLine::Folder => LogItemReader::new_directory_reader(alloc, files, path),
        _ => dump_with_file_system(alloc, path, files),
    }
}

fn add_items<F: FileSystem>(
    said: &mut Said,
    files: &mut F,
    items: &mut LogItemReader<F>,
    has_places: bool,
) -> Result<(), Fault> {
    for _ in 0..u64::MAX {
        match items.next(files) {
            Some(next) => said.next_item(next, has_places)?,
            None => break,
        }
    }
    Ok(())
}

fn items_at<F: FileSystem>(line: &mut Line, files: &mut F, asked: ItemsLine) -> Result<(), Fault> {
    let mut items = reader_at(line.alloc, files, line.text(0), asked)?;
    let has_places = matches!(asked, ItemsLine::Places);
    add_items(&mut line.said, files, &mut items, has_places)
}

/// Prints all items of a log file, or of the log files in a folder.
pub(crate) fn say_items<F: FileSystem>(line: &mut Line, files: &mut F, asked: ItemsLine) {
    line.said.say("items");
    if let Err(fault) = items_at(line, files, asked) {
        line.refuse(fault);
    }
}
