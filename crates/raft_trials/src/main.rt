//! Trials of lists of operations, each compared with the allowed images. Prints the number of
//! trials. README.md has the words.
#![tactic(auto)]

mod lists;
mod refusals;
mod stops;
mod tally;
mod written;

use lists::List;
use raft_env::IoKind;
use raft_records::Fault;
use std::alloc::Global;
use std::env;
use std::process::ExitCode;
use tally::Tally;

// Runs the trials of this name for a list, if the name is known.
fn try_list(
    alloc: Global,
    list: &mut List,
    trials: &str,
    tally: &mut Tally,
) -> Result<bool, Fault> {
    match trials {
        "stops" => stops::each_stop(alloc, list, tally)?,
        "as-synced" => stops::objections(alloc, list, tally)?,
        "no-space" => refusals::each_call(alloc, list, IoKind::NoSpace, tally)?,
        "not-found" => refusals::each_call(alloc, list, IoKind::NotFound, tally)?,
        "other" => refusals::each_call(alloc, list, IoKind::Other, tally)?,
        "whole" => stops::without_stop(alloc, list, tally)?,
        _ => return Ok(false),
    }
    Ok(true)
}

// Runs the trials that a word names. Returns whether it names any.
fn try_word(alloc: Global, word: &str, tally: &mut Tally) -> Result<bool, Fault> {
    if word == "by-hand" {
        written::each_list(alloc, tally)?;
        return Ok(true);
    }
    let Some((name, trials)) = word.split_once('/') else {
        return Ok(false);
    };
    match List::named(alloc, name)? {
        Some(mut list) => try_list(alloc, &mut list, trials, tally),
        None => Ok(false),
    }
}

// Prints the counts of a word's trials, and the first wrong one.
fn tell(rt: HostRuntime, word: &str, tally: &Tally) -> Result<(), anyhow::Error> {
    println!(rt; "{word}: {tally}")?;
    if let Some(first) = &tally.first_wrong {
        println!(rt; "{first}")?;
    }
    Ok(())
}

// Whether all trials that a word names are right; `None` if it names none.
fn are_right(rt: HostRuntime, word: &str) -> Result<Option<bool>, anyhow::Error> {
    let mut tally = Tally::new();
    if !try_word(rt.alloc(), word, &mut tally)? {
        println!(rt; "{word}: no trials")?;
        return Ok(None);
    }
    tell(rt, word, &tally)?;
    Ok(Some(tally.first_wrong.is_none()))
}

fn main(rt: HostRuntime) -> Result<ExitCode, anyhow::Error> {
    let mut all_right = true;
    for word in env::args(&rt)?.skip(1) {
        match are_right(rt, word.as_str())? {
            Some(right) => all_right = right && all_right,
            None => return Ok(ExitCode::from(2)),
        }
    }
    Ok(if all_right {
        ExitCode::SUCCESS
    } else {
        ExitCode::from(1)
    })
}
