//! A picture of the files, and of what the index still refers to.

use crate::guard::both_queues;
use crate::opening::broken;
use anyhow::{Result, anyhow};
use raft_command_line::{Options, Request};
use raft_console::{Status, failure, print_bytes};
use raft_env::FileSystem;
use raft_inspect::{draw, measure};
use raft_records::Fault;
use std::alloc::Global;

pub(crate) fn print_picture<F: FileSystem>(
    rt: &HostRuntime,
    image: &mut F,
    request: &Request<'_>,
) -> Result<Status> {
    let alloc = rt.alloc();
    match broken(alloc, image, &request.options) {
        Ok(None) => {}
        Ok(Some(said)) => return Err(anyhow!("{said}").context("the log cannot be drawn")),
        Err(fault) => return Err(failure("the log cannot be drawn", &fault)),
    }
    match drawn(alloc, image, request.folder, &request.options) {
        Ok(text) => {
            print_bytes(rt, text.as_bytes())?;
            Ok(Status::Done)
        }
        Err(fault) => Err(failure("the log cannot be drawn", &fault)),
    }
}

fn drawn<F: FileSystem>(
    alloc: Global,
    image: &mut F,
    title: &str,
    options: &Options<'_>,
) -> Result<String, Fault> {
    let folders = options.folders(alloc)?;
    let queues = both_queues(alloc, image, &folders)?;
    let usage = measure(alloc, image, &queues.rewrite, &queues.append)?;
    Ok(draw(alloc, title, &usage)?)
}
