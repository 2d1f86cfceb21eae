//! The report on the groups that were read.

use crate::tables::{Group, Run, Tables};
use anyhow::Result;
use raft_console::Output;
use raft_inspect::{Filter, ItemKind, Word};

/// Prints a line for each group: the entries that a Raft node can use, which are those after the
/// last gap, and its keys. Lines after it name the missing indexes, those that are left out, and
/// the keys whose values may be older than the lost ones.
pub fn print_groups(tables: &Tables, out: &mut Output) -> Result<()> {
    for (number, group) in tables.groups.iter() {
        if group.runs.is_empty() && group.keys.is_empty() {
            continue;
        }
        print_group(*number, group, out)?;
        print_gaps(*number, &group.runs, out)?;
        print_older(*number, group, tables, out)?;
    }
    Ok(())
}

/// Prints only the lines on missing indexes and those that are left out, of the groups that the
/// filter takes.
pub fn print_missing(tables: &Tables, filter: Filter, out: &mut Output) -> Result<()> {
    for (number, group) in tables.groups.iter() {
        if filter.takes(*number, ItemKind::Entry, None) {
            print_gaps(*number, &group.runs, out)?;
        }
    }
    Ok(())
}

fn print_group(number: u64, group: &Group, out: &mut Output) -> Result<()> {
    let name = ("group", Word::Number(number));
    let keys = ("keys", Word::Number(group.keys.len() as u64));
    match group.runs.last() {
        Some(run) => out.named(&[
            name,
            ("first", Word::Number(run.first)),
            ("last", Word::Number(run.end().saturating_sub(1))),
            keys,
        ]),
        None => out.named(&[name, keys]),
    }
}

fn print_gaps(number: u64, runs: &[Run], out: &mut Output) -> Result<()> {
    let name = ("group", Word::Number(number));
    let mut end = None;
    for (place, run) in runs.iter().enumerate() {
        if let Some(end) = end {
            out.named(&[
                name,
                ("missing-from", Word::Number(end)),
                ("to", Word::Number(run.first.saturating_sub(1))),
            ])?;
        }
        if place.saturating_add(1) < runs.len() {
            out.named(&[
                name,
                ("left-out-from", Word::Number(run.first)),
                ("to", Word::Number(run.end().saturating_sub(1))),
            ])?;
        }
        end = Some(run.end());
    }
    Ok(())
}

fn print_older(number: u64, group: &Group, tables: &Tables, out: &mut Output) -> Result<()> {
    for (key, kept) in group.keys.iter() {
        if tables.is_older(kept) {
            out.named(&[
                ("group", Word::Number(number)),
                ("older-key", Word::Bytes(key)),
            ])?;
        }
    }
    Ok(())
}
