//! The items of lines that `dump --json` printed.

use anyhow::{Result, anyhow};
use raft_console::{member, read_object};
use raft_inspect::{Filter, ItemKind};
use raft_whole_records::{Marks, is_mark_key, mark_in};
use serde_json::Value;
use std::alloc::{AllocError, Global};

/// The place of an item's record: the queue, the file and the offset.
#[derive(Clone, Copy, PartialEq, Eq)]
pub(crate) struct Place {
    pub is_rewrite: bool,
    pub file: u64,
    pub offset: u64,
}

/// What an item does.
#[derive(Drop)]
pub(crate) enum Content {
    Put(Vec<u8>, Vec<u8>),
    Delete(Vec<u8>),
    Entry(u64, Vec<u8>),
    Clean,
    Compact(u64),
    /// The mark of a batch of an atomic group.
    Mark(u8),
    /// Why the file could not be read on from here.
    Unread(String),
}

/// The item of one line.
#[derive(Drop)]
pub(crate) struct LineItem {
    /// `None` for a line that names no record.
    pub place: Option<Place>,
    pub group: u64,
    pub content: Content,
}

impl LineItem {
    /// Whether a filter takes it.
    pub fn is_taken(&self, filter: Filter) -> bool {
        let group = self.group;
        match &self.content {
            Content::Put(_, _) => filter.takes(group, ItemKind::Put, None),
            Content::Delete(_) => filter.takes(group, ItemKind::Delete, None),
            Content::Entry(index, _) => filter.takes(group, ItemKind::Entry, Some(*index)),
            Content::Clean => filter.takes(group, ItemKind::Clean, None),
            Content::Compact(index) => filter.takes(group, ItemKind::Compact, Some(*index)),
            Content::Mark(_) | Content::Unread(_) => true,
        }
    }
}

/// The item of a line.
pub(crate) fn read_item(alloc: Global, line: &[u8]) -> Result<LineItem> {
    let object = read_object(alloc, line)?;
    let place = place_in(&object);
    if let Some(error) = object.get("error").and_then(Value::as_str) {
        return Ok(LineItem {
            place,
            group: 0,
            content: Content::Unread(String::from_str(alloc, error)?),
        });
    }
    let content = read_content(alloc, &object)?;
    Ok(LineItem {
        place,
        group: number(&object, "group")?,
        content,
    })
}

fn read_content(alloc: Global, object: &Value) -> Result<Content> {
    let Some(kind) = object.get("kind").and_then(Value::as_str) else {
        return Err(anyhow!("no text `kind`"));
    };
    match ItemKind::named(kind) {
        Some(ItemKind::Put) => put(
            member(alloc, object, "key")?,
            member(alloc, object, "value")?,
        ),
        Some(ItemKind::Delete) => Ok(Content::Delete(member(alloc, object, "key")?)),
        Some(ItemKind::Entry) => Ok(Content::Entry(
            number(object, "index")?,
            member(alloc, object, "value")?,
        )),
        Some(ItemKind::Clean) => Ok(Content::Clean),
        Some(ItemKind::Compact) => Ok(Content::Compact(number(object, "index")?)),
        None => Err(anyhow!("`kind` is put, delete, entry, clean or compact")),
    }
}

fn put(key: Vec<u8>, value: Vec<u8>) -> Result<Content> {
    if is_mark_key(&key) {
        return Ok(Content::Mark(mark_in(&value)));
    }
    Ok(Content::Put(key, value))
}

fn number(object: &Value, name: &str) -> Result<u64> {
    match object.get(name).and_then(Value::as_u64) {
        Some(number) => Ok(number),
        None => Err(anyhow!("no number `{name}`")),
    }
}

fn place_in(object: &Value) -> Option<Place> {
    let is_rewrite = match object.get("queue").and_then(Value::as_str)? {
        "rewrite" => true,
        "append" => false,
        _ => return None,
    };
    // Version 0.2 wrote the number as `file`.
    let file = object.get("number").or(object.get("file"))?;
    Some(Place {
        is_rewrite,
        file: file.as_u64()?,
        offset: object.get("offset").and_then(Value::as_u64)?,
    })
}

/// Adds the mark of an item, if it has one and its record is of the Rewrite queue.
pub(crate) fn add_mark(item: &LineItem, marks: &mut Marks) -> Result<(), AllocError> {
    if let (Content::Mark(mark), Some(place)) = (&item.content, item.place) {
        if place.is_rewrite {
            marks.add(item.group, *mark)?;
        }
    }
    Ok(())
}
