//! The standard streams, if the program began without some of them.

use anyhow::{Result, bail};
use std::fs::OpenOptions;
use std::os::fd::{AsFd, IntoRawFd};

/// A file in place of a closed stream.
const NULL: &str = "/dev/null";

/// Takes the descriptors 0, 1 and 2 if they are closed, before a file of the log gets one of them
/// and is used as that stream. Then reading from the first fails, as printing does, and text for
/// the third is lost.
pub fn take_closed_streams(rt: &HostRuntime) -> Result<()> {
    let mut reading = OpenOptions::new();
    reading.read(true);
    let mut writing = OpenOptions::new();
    writing.write(true);
    // In this order: the least number that is free is given out.
    take_if_closed(rt, &rt.stdin(), &writing)?;
    take_if_closed(rt, &rt.stdout(), &reading)?;
    take_if_closed(rt, &rt.stderr(), &writing)
}

fn take_if_closed<S: AsFd>(rt: &HostRuntime, stream: &S, options: &OpenOptions) -> Result<()> {
    if stream.as_fd().try_clone_to_owned().is_ok() {
        return Ok(());
    }
    match options.open(rt, NULL) {
        Ok(file) => {
            // It stays open until the program ends.
            file.into_raw_fd();
            Ok(())
        }
        Err(e) => bail!("a stream is closed, and {NULL} can't stand for it: {e}"),
    }
}
