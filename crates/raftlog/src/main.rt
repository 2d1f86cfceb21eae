//! Reads lines on standard input, carries out each over a log in memory, and prints the results.
#![tactic(auto)]

use raft_lines::{Ended, serve};
use std::io;
use std::process::ExitCode;

fn main(rt: HostRuntime) -> ExitCode {
    match serve(rt.alloc(), rt.reader(), io::writer(&rt)) {
        Ended::Done => ExitCode::SUCCESS,
        Ended::BadLine(number) => {
            let _ = eprintln!(rt; "raftlog: line {number}: bad line");
            ExitCode::from(2)
        }
        Ended::Input => {
            let _ = eprintln!(rt; "raftlog: input");
            ExitCode::from(1)
        }
        Ended::Output | Ended::Opening => ExitCode::from(1),
    }
}
