//! Does one command on a log in a folder. `raftctl --help` lists the commands.
#![tactic(auto)]

use anyhow::{Result, bail};
use clap::Error;
use raft_command_line::{Request, Verb, arrange, completion_script, parse, printable};
use raft_commands::{change, look};
use raft_console::{Status, check_file_limit, print_bytes, print_error, take_closed_streams, tell};
use raft_offline::{fork_folder, print_settings, settings_of};
use raft_salvage::{import_folder, import_lines, salvage};
use raft_watch::watch;
use std::env;
use std::process::ExitCode;
use std::thread::Threads;

fn main(rt: HostRuntime) -> ExitCode {
    match take_closed_streams(&rt) {
        Ok(()) => begin(rt, &rt),
        Err(error) => failed(&rt, false, &error),
    }
}

fn begin<R: Threads + Sync>(rt: HostRuntime, threads: &R) -> ExitCode {
    match words(&rt) {
        Ok(words) => do_words(rt, threads, &words),
        Err(error) => failed(&rt, false, &error),
    }
}

fn do_words<R: Threads + Sync>(rt: HostRuntime, threads: &R, words: &[String]) -> ExitCode {
    if asks_completion(words) {
        return completed(&rt);
    }
    let json = words.iter().any(|word| word.as_str() == "--json");
    match parse(rt.alloc(), words) {
        Ok(request) => ended(&rt, json, run(rt, threads, request)),
        Err(error) => misused(&rt, json, &error),
    }
}

fn asks_completion(words: &[String]) -> bool {
    match words {
        [_, option] => option.as_str() == "--completion",
        _ => false,
    }
}

fn ended(rt: &HostRuntime, json: bool, done: Result<Status>) -> ExitCode {
    match done {
        Ok(status) => ExitCode::from(status.code()),
        Err(error) => failed(rt, json, &error),
    }
}

fn words(rt: &HostRuntime) -> Result<Vec<String>> {
    let mut words = Vec::new(rt.alloc());
    let args = match env::args(rt) {
        Ok(args) => args,
        Err(e) => bail!("a word isn't UTF-8 ({e}); bytes are said by --hex, or by @FILE"),
    };
    for word in args {
        words.push(word)?;
    }
    arrange(rt.alloc(), &mut words)?;
    Ok(words)
}

fn completed(rt: &HostRuntime) -> ExitCode {
    match print_completion(rt) {
        Ok(()) => ExitCode::SUCCESS,
        Err(error) => failed(rt, false, &error),
    }
}

fn print_completion(rt: &HostRuntime) -> Result<()> {
    let script = completion_script(rt.alloc())?;
    print_bytes(rt, script.as_bytes())
}

fn failed(rt: &HostRuntime, json: bool, error: &anyhow::Error) -> ExitCode {
    let _ = match format!(in rt.alloc(); "{error:#}") {
        Ok(text) => tell(rt, json, "error", text.as_str()),
        Err(_) => Err(anyhow::anyhow!("out of memory")),
    };
    ExitCode::FAILURE
}

// Help is asked for in the same way, and prints with status 0.
fn misused(rt: &HostRuntime, json: bool, error: &Error) -> ExitCode {
    match print_misuse(rt, json, error) {
        Ok(()) => ExitCode::from(error.exit_code() as u8),
        Err(unprinted) => failed(rt, json, &unprinted),
    }
}

fn print_misuse(rt: &HostRuntime, json: bool, error: &Error) -> Result<()> {
    let text = format!(in rt.alloc(); "{error}")?;
    if !error.use_stderr() {
        return print_bytes(rt, text.as_bytes());
    }
    if json {
        return tell(rt, json, "error", text.trim_end());
    }
    for line in text.lines() {
        let line = printable(rt.alloc(), line)?;
        print_error(rt, format!(in rt.alloc(); "{line}\n")?.as_str())?;
    }
    Ok(())
}

fn run<R: Threads + Sync>(rt: HostRuntime, threads: &R, request: Request<'_>) -> Result<Status> {
    let settings = settings_of(&rt, &request)?;
    let request = request.over(&settings);
    do_request(rt, threads, &request)
}

fn do_request<R: Threads + Sync>(
    rt: HostRuntime,
    threads: &R,
    request: &Request<'_>,
) -> Result<Status> {
    check_file_limit(&rt, request)?;
    match &request.verb {
        Verb::Look(what) => look(rt, threads, request, *what),
        Verb::Settings => print_settings(&rt, &request.options),
        Verb::Fork(target) => fork_folder(rt, request, target),
        Verb::Watch(asked) => watch(rt, request, *asked),
        _ => change_log(rt, threads, request),
    }
}

fn change_log<R: Threads + Sync>(
    rt: HostRuntime,
    threads: &R,
    request: &Request<'_>,
) -> Result<Status> {
    match &request.verb {
        Verb::Import(import) => match import.folder {
            Some(folder) => import_folder(rt, threads, request, *import, folder),
            None => import_lines(rt, threads, request, *import),
        },
        Verb::Salvage(asked) => salvage(rt, threads, request, asked),
        _ => change(rt, threads, request),
    }
}
