//! A queue's files, divided among workers.
ghost use Rattle.std.specs.Prelude.{◌≡◌, ◌<◌, IfErr, IfOk};
ghost use Rattle.std.specs.List.{AllByRecursion, flat_map};
ghost use Rattle.raft_base.specs.declared.errors.Fault.TheVariants.{Memory};

use crate::part::PartJob;
use raft_env::FileSystem;
use raft_opening::OpenedLog;
use raft_records::{Factory, Fault};
use std::alloc::Global;

/// Parts of `part_len` files each, in order, with a fresh machine for each part. The last part may
/// have fewer.
pub(crate) fn deal<F: FileSystem, M: Drop, FA: Factory<M>>(
    alloc: Global,
    logs: Vec<OpenedLog<F>>,
    part_len: usize,
    factory: &FA,
) -> Result<Vec<PartJob<F, M>>, Fault>
    requires { 0 < part_len }
    ensures parts { IfOk result (λ jobs.
        flat_map (λ job. job.logs.items) jobs.items ≡ logs.items) }
    ensures machines { IfOk result (λ jobs.
        AllByRecursion (λ job. FA.is_new job.machine) jobs.items) }
    ensures memory { IfErr result (λ e. e ≡ Memory) }
{
    let mut jobs = Vec::new(alloc);
    let mut part = logs;
    while !part.is_empty() {
        let rest = part.split_off(part_len.min(part.len()))?;
        let machine = factory.new_target()?;
        jobs.push(PartJob {
            logs: part,
            machine,
        })?;
        part = rest;
    }
    Ok(jobs)
}
