//! The hook: the first file that a purge may not drop yet.

use crate::told::assert_rows;
use raft_base::Fault;
use raft_listeners::PurgeHook;
use raft_rows::Row;
use std::alloc::Global;

/// A call of the hook with a file's number.
enum Step {
    New(u64),
    Append(u64),
    Applied(u64),
    Purged(u64),
}

/// A call, whether it succeeds, and the first file that isn't ready afterwards.
struct Call(Step, bool, Option<u64>);

static CALLS: [Call; 15] = [
    Call(Step::Append(1), false, None),
    Call(Step::New(1), true, None),
    Call(Step::New(2), true, None),
    Call(Step::Append(1), true, Some(1)),
    Call(Step::Append(2), true, Some(1)),
    Call(Step::Append(3), false, Some(1)),
    Call(Step::Applied(1), true, Some(2)),
    Call(Step::Applied(1), false, Some(2)),
    Call(Step::Applied(2), true, None),
    Call(Step::New(4), false, None),
    Call(Step::Purged(3), false, None),
    Call(Step::Purged(1), true, None),
    Call(Step::Append(1), false, None),
    Call(Step::New(3), true, None),
    Call(Step::Append(3), true, Some(3)),
];

impl Row for Call {
    type State = PurgeHook;

    fn holds(&self, _: Global, hook: &mut PurgeHook) -> Result<bool, Fault> {
        let answer = match self.0 {
            Step::New(seq) => hook.new_log_file(seq),
            Step::Append(seq) => hook.append_log_file(seq),
            Step::Applied(seq) => hook.applied(seq),
            Step::Purged(seq) => hook.purged(seq),
        };
        let wanted = if self.1 { Ok(()) } else { Err(Fault::Range) };
        Ok(answer == wanted && hook.first_waiting() == self.2)
    }
}

#[test]
fn the_hook_keeps_files_whose_records_wait(rt: HostRuntime) {
    let mut hook = PurgeHook::new(rt.alloc());
    assert_rows(&rt, rt.alloc(), &mut hook, &CALLS);
}
