//! Before a change: if its opening would lose something, the change is refused, or the lost bytes
//! are kept.

use crate::changed::ChangedFiles;
use crate::opening::broken;
use crate::taken::{Taken, give_back, note_moved};
use crate::taking::{move_passed, move_strays, take_cuts};
use anyhow::{Result, anyhow};
use raft_command_line::{Request, Verb};
use raft_console::{Progress, or_failure, tell};
use raft_env::FileSystem;
use raft_inspect::inspect;
use raft_looks::{BothQueues, Folder};
use raft_opening_plan::{Change, Item, Kind, Plan, Row};
use raft_records::{Fault, LogQueue};
use std::alloc::Global;

/// The text of a refused change.
const REFUSED: &str = "nothing was done: the plan above says what mends it, `check` prints more, \
    and `--cut` continues and loses what the plan says";

/// The same for a repair, which is refused for files that it doesn't cut.
const UNREPAIRED: &str =
    "nothing was done: the plan above says what mends it, `check` prints more, \
    and `repair --cut` moves aside what is passed over, or a stray in its place, and forgets what \
    is missing";

/// How often strays are moved aside.
const MOST_STRAYS: u64 = 1000;

/// The log files before an opening, and its plan for them.
struct Survey {
    queues: BothQueues,
    plan: Plan,
}

// One call in a proof that drops it; derived, it would be one of each field (docs/DECISIONS.md).
impl Drop for Survey {
    fn drop(self) {
        let Survey {
            queues: _queues,
            plan: _plan,
        } = self;
    }
}

/// Finds what an opening of the request's folder loses, and keeps it in files beside; none if more
/// is lost than an unsynced tail explains and no word allows that. Standard error has the plan. It
/// fails, and has changed nothing, if the opening would fail.
pub(crate) fn guard<F: FileSystem + ChangedFiles>(
    rt: &HostRuntime,
    files: &mut F,
    request: &Request<'_>,
) -> Result<Option<Vec<Taken>>> {
    let survey = survey_files(rt, files, request)?;
    if !goes_on(rt, files, &survey.plan, request)? {
        return Ok(None);
    }
    let mut taken = Vec::new(rt.alloc());
    match take(rt, files, survey, request, &mut taken) {
        Ok(()) => Ok(Some(taken)),
        Err(error) => Err(given_back(rt, request, &taken, error)),
    }
}

// The error, after the files that keep something are deleted or printed.
fn given_back(
    rt: &HostRuntime,
    request: &Request<'_>,
    taken: &[Taken],
    error: anyhow::Error,
) -> anyhow::Error {
    if let Err(error) = give_back(rt, request, taken) {
        return error;
    }
    match note_moved(rt, request, taken) {
        Ok(()) => error,
        Err(error) => error,
    }
}

// Prints the plan. Returns whether the change continues. It fails if the opening would.
fn goes_on<F: FileSystem>(
    rt: &HostRuntime,
    files: &mut F,
    plan: &Plan,
    request: &Request<'_>,
) -> Result<bool> {
    let options = &request.options;
    if !moves_strays(plan, request) {
        check_opens(rt, files, plan, request)?;
        if is_refused(plan, request) {
            plan.tell(rt, options)?;
            refuse(rt, request)?;
            return Ok(false);
        }
    }
    if !options.quiet {
        plan.tell(rt, options)?;
    }
    Ok(true)
}

// Fails if the opening would, and prints the plan.
fn check_opens<F: FileSystem>(
    rt: &HostRuntime,
    files: &mut F,
    plan: &Plan,
    request: &Request<'_>,
) -> Result<()> {
    let Some(item) = plan.failing() else {
        return Ok(());
    };
    plan.tell(rt, &request.options)?;
    Err(failing(rt.alloc(), files, item, request))
}

// Why the opening fails.
fn failing<F: FileSystem>(
    alloc: Global,
    files: &mut F,
    item: &Item,
    request: &Request<'_>,
) -> anyhow::Error {
    if let (Kind::Broken, Ok(Some(said))) = (item.kind, broken(alloc, files, &request.options)) {
        return anyhow!("{said}").context("the log cannot be opened");
    }
    anyhow!("{}", item.cause).context("the log cannot be opened")
}

// A repair may cut whole records off, since it keeps them.
fn is_refused(plan: &Plan, request: &Request<'_>) -> bool {
    if request.options.changing.cut {
        return false;
    }
    let is_repair = matches!(&request.verb, Verb::Repair);
    for item in &plan.items {
        let Row(_, _, change) = item.kind.row();
        if change == Change::Refused && !(is_repair && item.kind == Kind::Records) {
            return true;
        }
    }
    false
}

fn refuse(rt: &HostRuntime, request: &Request<'_>) -> Result<()> {
    let remedy = match &request.verb {
        Verb::Repair => UNREPAIRED,
        _ => REFUSED,
    };
    let text = format!(in rt.alloc(); "{}: {remedy}", request.folder)?;
    tell(rt, request.options.json, "error", text.as_str())
}

// Whether strays are to be moved aside, after which the opening may do something else.
fn moves_strays(plan: &Plan, request: &Request<'_>) -> bool {
    let is_repair = matches!(&request.verb, Verb::Repair);
    is_repair && request.options.changing.cut && plan.has(Kind::Stray)
}

fn survey_files<F: FileSystem>(
    rt: &HostRuntime,
    files: &mut F,
    request: &Request<'_>,
) -> Result<Survey> {
    let folders = request.options.folders(rt.alloc())?;
    let queues = both_queues(rt.alloc(), files, &folders);
    let queues = or_failure(queues, "the files cannot be checked")?;
    let plan = plan_of(rt, &queues, request)?;
    Ok(Survey { queues, plan })
}

/// The log files in these folders, and what can be read of each.
pub(crate) fn both_queues<F: FileSystem>(
    alloc: Global,
    files: &mut F,
    folders: &[&str],
) -> Result<BothQueues, Fault> {
    Ok(BothQueues {
        append: inspect(alloc, files, folders, LogQueue::Append)?,
        rewrite: inspect(alloc, files, folders, LogQueue::Rewrite)?,
    })
}

fn plan_of(rt: &HostRuntime, queues: &BothQueues, request: &Request<'_>) -> Result<Plan> {
    let folder = look_at(rt, request)?;
    match plan_in(rt, &folder, queues, request)? {
        Some(plan) => Ok(plan),
        None => Err(anyhow!("a file of it was deleted meanwhile").context(request.folder)),
    }
}

// The folder of the change. A dry run has no lock: another program may have the log open.
fn look_at(rt: &HostRuntime, request: &Request<'_>) -> Result<Folder> {
    if request.options.changing.dry_run {
        return Folder::open(*rt, request.folder, &request.options);
    }
    Folder::open_own(*rt, request.folder, &request.options)
}

// The files of a folder that is opened are known to be allowed.
fn plan_in(
    rt: &HostRuntime,
    folder: &Folder,
    queues: &BothQueues,
    request: &Request<'_>,
) -> Result<Option<Plan>> {
    let options = &request.options;
    let mut progress = Progress::of(*rt, options)?;
    if options.changing.dry_run {
        folder.whole_plan(queues, options, &mut progress)
    } else {
        folder.plan_of(queues, options, &mut progress)
    }
}

// Keeps what is cut off. A repair moves strays aside first, and then what is still passed over.
fn take<F: FileSystem + ChangedFiles>(
    rt: &HostRuntime,
    files: &mut F,
    survey: Survey,
    request: &Request<'_>,
    taken: &mut Vec<Taken>,
) -> Result<()> {
    let survey = without_strays(rt, files, survey, request, taken)?;
    check_opens(rt, files, &survey.plan, request)?;
    files.delete_unread(rt)?;
    take_cuts(rt, files, &survey.queues, request, taken)?;
    if let Verb::Repair = &request.verb {
        move_all_passed(rt, files, &survey, request, taken)?;
    }
    Ok(())
}

// What is found once no stray is left that is to be moved aside.
fn without_strays<F: FileSystem + ChangedFiles>(
    rt: &HostRuntime,
    files: &mut F,
    survey: Survey,
    request: &Request<'_>,
    taken: &mut Vec<Taken>,
) -> Result<Survey> {
    let mut survey = survey;
    for _ in 0..MOST_STRAYS {
        if !moves_strays(&survey.plan, request) {
            break;
        }
        move_strays(rt, files, &survey.plan, request, taken)?;
        survey = survey_files(rt, files, request)?;
    }
    Ok(survey)
}

fn move_all_passed<F: FileSystem + ChangedFiles>(
    rt: &HostRuntime,
    files: &mut F,
    survey: &Survey,
    request: &Request<'_>,
    taken: &mut Vec<Taken>,
) -> Result<()> {
    let plan = &survey.plan;
    move_passed(rt, files, &survey.queues.rewrite, plan, request, taken)?;
    move_passed(rt, files, &survey.queues.append, plan, request, taken)
}
