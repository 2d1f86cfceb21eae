//! Plays files of lines, each a request to a log in memory, perhaps with its expected result.
//! Prints the number of lines and of wrong results. README.md has the lines.
#![tactic(auto)]

mod appends;
mod asked;
mod batch;
mod calls;
mod check;
mod copies;
mod dump;
mod files;
mod forms;
mod line;
mod looks;
mod outcome;
mod plain;
mod program;
mod said;
mod session;
mod table;
mod words;

use raft_memory::MemoryFileSystem;
use std::process::ExitCode;
use std::thread::Threads;
use std::{env, fs};
use table::{Tally, play};

fn main(rt: HostRuntime) -> Result<ExitCode, anyhow::Error> {
    let mut all_right = true;
    for path in env::args(&rt)?.skip(1) {
        all_right = play_file(rt, &rt, path.as_str())? && all_right;
    }
    Ok(if all_right {
        ExitCode::SUCCESS
    } else {
        ExitCode::from(1)
    })
}

// Whether each line of a file has the expected result.
fn play_file<R: Threads + Sync>(
    rt: HostRuntime,
    threads: &R,
    path: &str,
) -> Result<bool, anyhow::Error> {
    let text = fs::read_to_string(&rt, path)?;
    let tally = play::<R, MemoryFileSystem>(threads, rt.alloc(), text.as_str())?;
    tell(rt, path, &tally)
}

fn tell(rt: HostRuntime, path: &str, tally: &Tally) -> Result<bool, anyhow::Error> {
    let Tally {
        stories,
        lines,
        answers,
        wrong,
        first_wrong,
    } = tally;
    println!(rt; "{path}: {stories} stories, {lines} lines, {answers} answers, {wrong} wrong")?;
    if let Some(first) = first_wrong {
        println!(rt; "{first}")?;
    }
    Ok(first_wrong.is_none())
}
