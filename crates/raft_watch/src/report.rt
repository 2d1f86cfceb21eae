//! Prints the changes of a log as lines.

use crate::changes::{Changes, GroupGrowth};
use crate::queues::WatchedLog;
use anyhow::Result;
use raft_console::Output;
use raft_inspect::{Field, Lines, Word};
use std::alloc::Global;

/// Prints a line for the look, one for each group that grew, at most as many as requested, and one
/// for each dropped file. As JSON all of them are one object.
pub(crate) fn print_look(
    alloc: Global,
    log: &WatchedLog,
    changes: &Changes,
    limit: u64,
    is_json: bool,
    out: &mut Output,
) -> Result<()> {
    let grown = changes.grown(limit)?;
    let fields = fields_of(log, changes);
    if !is_json {
        out.named(&fields)?;
        add_groups(&grown, &mut out.lines)?;
        add_dropped(changes, &mut out.lines)?;
        return out.print();
    }
    let mut groups = Lines::new(alloc, true, false);
    add_groups(&grown, &mut groups)?;
    let mut dropped = Lines::new(alloc, true, false);
    add_dropped(changes, &mut dropped)?;
    out.lines
        .document(&fields, &[("groups", &groups), ("dropped", &dropped)])?;
    out.print()
}

fn fields_of(log: &WatchedLog, changes: &Changes) -> [Field<'static>; 17] {
    let append = log.append.total();
    let rewrite = log.rewrite.total();
    let writer = if log.is_in_use { "open" } else { "none" };
    [
        ("look", Word::Number(log.looks)),
        ("writer", Word::Text(writer)),
        ("append-files", Word::Number(append.files)),
        ("append-bytes", Word::Number(append.bytes)),
        ("append-records", Word::Number(append.records)),
        ("rewrite-files", Word::Number(rewrite.files)),
        ("rewrite-bytes", Word::Number(rewrite.bytes)),
        ("rewrite-records", Word::Number(rewrite.records)),
        ("reserved-files", Word::Number(log.reserved.records)),
        ("reserved-bytes", Word::Number(log.reserved.bytes)),
        ("written-records", Word::Number(changes.written.records)),
        ("written-bytes", Word::Number(changes.written.bytes)),
        ("rewritten-records", Word::Number(changes.rewritten.records)),
        ("rewritten-bytes", Word::Number(changes.rewritten.bytes)),
        ("dropped-files", Word::Number(changes.dropped.len() as u64)),
        ("dropped-bytes", Word::Number(changes.dropped_bytes())),
        ("unseen-files", Word::Number(changes.unseen)),
    ]
}

fn add_groups(grown: &[GroupGrowth], lines: &mut Lines) -> Result<()> {
    for growth in grown {
        lines.named(&[
            ("group", Word::Number(growth.group)),
            ("entries", Word::Number(growth.entries)),
            ("puts", Word::Number(growth.puts)),
            ("deletes", Word::Number(growth.deletes)),
            ("commands", Word::Number(growth.commands)),
            ("bytes", Word::Number(growth.bytes)),
        ])?;
    }
    Ok(())
}

fn add_dropped(changes: &Changes, lines: &mut Lines) -> Result<()> {
    for file in &changes.dropped {
        lines.named(&[
            ("dropped", Word::Bytes(file.path.as_bytes())),
            ("size", Word::Number(file.size)),
        ])?;
    }
    Ok(())
}
