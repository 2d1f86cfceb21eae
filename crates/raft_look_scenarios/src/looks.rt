//! Each look at a folder, with its output and status, also at a read-only folder.

use crate::files::{FileParts, GAP, LEFT_OUT, TORN_END, TORN_FRONT, WHOLE, end, make};
use crate::standing::{set_writable, standing};
use anyhow::anyhow;
use raft_command_line::{Changing, Options};
use raft_config::RecoveryMode;
use raft_console::{Output, Progress, Status};
use raft_inspect::{Filter, ItemKind};
use raft_looks::{Folder, check, dump};
use std::alloc::Global;
use std::test::Fail;

#[derive(Clone, Copy)]
enum Look {
    Check,
    Dump(Option<&'static str>, Filter),
    /// All log files are read into memory.
    Image,
}

struct Case {
    name: &'static str,
    files: &'static [FileParts],
    look: Look,
    /// The status and the output, with `@` for the folder; `None` if the look fails.
    told: Option<(u8, &'static str)>,
}

const CHECK: &str = "\
    file 0000000000000001.raftlog version 1 records 2 read 120 size 120 rest none absolute keep tail keep any keep\n\
    file 0000000000000002.raftlog version 1 records 1 read 89 size 89 rest none absolute keep tail keep any keep\n\
    file 0000000000000004.rewrite version 1 records 2 read 117 size 117 rest none absolute keep tail keep any keep\n\
    other notes\n\
    mode absolute opening opens files-cut 0 bytes-lost 0 zeros 0 stale 0 files-passed 0 bytes-passed 0\n\
    mode tail opening opens files-cut 0 bytes-lost 0 zeros 0 stale 0 files-passed 0 bytes-passed 0\n\
    mode any opening opens files-cut 0 bytes-lost 0 zeros 0 stale 0 files-passed 0 bytes-passed 0\n";

const CHECK_TORN_END: &str = "\
    file 0000000000000001.raftlog version 1 records 2 read 120 size 120 rest none absolute keep tail keep any keep\n\
    file 0000000000000002.raftlog version 1 records 1 read 89 size 93 rest broken absolute fail tail cut any cut\n\
    plan tail path 0000000000000002.raftlog files 1 at 89 bytes 4 check 4 change 0 \
    cause an unsynced tail: no whole record follows mend raftctl @ repair\n\
    mode absolute opening fails files-cut 0 bytes-lost 0 zeros 0 stale 0 files-passed 0 bytes-passed 0\n\
    mode tail opening opens files-cut 1 bytes-lost 4 zeros 0 stale 0 files-passed 0 bytes-passed 0\n\
    mode any opening opens files-cut 1 bytes-lost 4 zeros 0 stale 0 files-passed 0 bytes-passed 0\n";

const CHECK_TORN_FRONT: &str = "\
    file 0000000000000001.raftlog version 1 records 1 read 89 size 93 rest broken absolute fail tail fail any cut\n\
    file 0000000000000002.raftlog version 1 records 1 read 89 size 89 rest none absolute keep tail keep any keep\n\
    plan broken path 0000000000000001.raftlog files 1 at 89 bytes 4 check 5 change 1 \
    cause broken bytes in a file that is not the last of its queue mend raftctl @ salvage @.saved\n\
    mode absolute opening fails files-cut 0 bytes-lost 0 zeros 0 stale 0 files-passed 0 bytes-passed 0\n\
    mode tail opening fails files-cut 0 bytes-lost 0 zeros 0 stale 0 files-passed 0 bytes-passed 0\n\
    mode any opening opens files-cut 1 bytes-lost 4 zeros 0 stale 0 files-passed 0 bytes-passed 0\n";

const CHECK_GAP: &str = "\
    file 0000000000000001.raftlog version 1 records 2 read 120 size 120 rest none absolute pass tail pass any pass\n\
    queue append missing 2 before 3\n\
    file 0000000000000003.raftlog version 1 records 1 read 89 size 89 rest none absolute keep tail keep any keep\n\
    plan passed path 0000000000000001.raftlog files 1 at 0 bytes 120 check 6 change 7 \
    cause numbers 1 to 1 of queue append: number 2 is missing after them; \
    a purge that was killed may have left them, or a file or a second folder is missing: \
    which of these cannot be known mend raftctl @ repair --cut\n\
    mode absolute opening opens files-cut 0 bytes-lost 0 zeros 0 stale 0 files-passed 1 bytes-passed 120\n\
    mode tail opening opens files-cut 0 bytes-lost 0 zeros 0 stale 0 files-passed 1 bytes-passed 120\n\
    mode any opening opens files-cut 0 bytes-lost 0 zeros 0 stale 0 files-passed 1 bytes-passed 120\n";

const CHECK_LEFT_OUT: &str = "\
    file 0000000000000001.raftlog version 1 records 2 read 120 size 120 rest none absolute keep tail keep any keep\n\
    plan left-out path second files 1 at 0 bytes 89 check 6 change 7 \
    cause its files continue the numbers of those that are read mend --spill second\n\
    mode absolute opening opens files-cut 0 bytes-lost 0 zeros 0 stale 0 files-passed 0 bytes-passed 0\n\
    mode tail opening opens files-cut 0 bytes-lost 0 zeros 0 stale 0 files-passed 0 bytes-passed 0\n\
    mode any opening opens files-cut 0 bytes-lost 0 zeros 0 stale 0 files-passed 0 bytes-passed 0\n";

const DUMP: &str = "\
    rewrite\t4\t61\t1\tput\ta\t1\tx\n\
    rewrite\t4\t89\t1\tput\ta\t1\tx\n\
    append\t1\t61\t1\tput\ta\t1\tx\n\
    append\t1\t89\t7\tentry\t1\t1\te\n\
    append\t2\t61\t1\tput\ta\t1\tx\n";

const DUMP_TORN_END: &str = "\
    append\t1\t61\t1\tput\ta\t1\tx\n\
    append\t1\t89\t7\tentry\t1\t1\te\n\
    append\t2\t61\t1\tput\ta\t1\tx\n\
    append\t2\t89\tcorruption\n";

const DUMP_TORN_FRONT: &str = "\
    append\t1\t61\t1\tput\ta\t1\tx\n\
    append\t1\t89\tcorruption\n\
    append\t2\t61\t1\tput\ta\t1\tx\n";

const DUMP_ONE: &str = "\
    append\t2\t61\t1\tput\ta\t1\tx\n";

const DUMP_ENTRY: &str = "\
    append\t1\t89\t7\tentry\t1\t1\te\n";

const ENTRIES_OF_7: Filter = Filter {
    group: Some(7),
    kind: Some(ItemKind::Entry),
    from: Some(1),
    to: Some(1),
};

const BEHIND_1: Filter = Filter {
    group: None,
    kind: None,
    from: Some(2),
    to: None,
};

static CASES: [Case; 13] = [
    Case {
        name: "check",
        files: WHOLE,
        look: Look::Check,
        told: Some((0, CHECK)),
    },
    Case {
        name: "check-torn-end",
        files: TORN_END,
        look: Look::Check,
        told: Some((4, CHECK_TORN_END)),
    },
    Case {
        name: "check-torn-front",
        files: TORN_FRONT,
        look: Look::Check,
        told: Some((5, CHECK_TORN_FRONT)),
    },
    Case {
        name: "dump",
        files: WHOLE,
        look: Look::Dump(None, Filter::ALL),
        told: Some((0, DUMP)),
    },
    Case {
        name: "dump-torn-end",
        files: TORN_END,
        look: Look::Dump(None, Filter::ALL),
        told: Some((4, DUMP_TORN_END)),
    },
    Case {
        name: "dump-torn-front",
        files: TORN_FRONT,
        look: Look::Dump(None, Filter::ALL),
        told: Some((4, DUMP_TORN_FRONT)),
    },
    Case {
        name: "dump-one",
        files: WHOLE,
        look: Look::Dump(Some("0000000000000002.raftlog"), Filter::ALL),
        told: Some((0, DUMP_ONE)),
    },
    Case {
        name: "check-gap",
        files: GAP,
        look: Look::Check,
        told: Some((6, CHECK_GAP)),
    },
    Case {
        name: "check-left-out",
        files: LEFT_OUT,
        look: Look::Check,
        told: Some((6, CHECK_LEFT_OUT)),
    },
    Case {
        name: "dump-group",
        files: WHOLE,
        look: Look::Dump(None, ENTRIES_OF_7),
        told: Some((0, DUMP_ENTRY)),
    },
    Case {
        name: "dump-behind",
        files: WHOLE,
        look: Look::Dump(None, BEHIND_1),
        told: Some((0, "")),
    },
    Case {
        name: "dump-none",
        files: WHOLE,
        look: Look::Dump(Some("notes"), Filter::ALL),
        told: None,
    },
    Case {
        name: "image",
        files: TORN_FRONT,
        look: Look::Image,
        told: Some((0, "")),
    },
];

const OPTIONS: Options<'static> = Options {
    spill: None,
    mode: RecoveryMode::TolerateTailCorruption,
    mode_is_named: false,
    target: None,
    threads: None,
    settings: None,
    base: None,
    json: false,
    hex: false,
    quiet: true,
    raw: false,
    changing: Changing::USUAL,
};

// How a look ends; none where a file is gone.
fn status_of(
    alloc: Global,
    folder: &Folder,
    look: Look,
    progress: &mut Progress,
    out: &mut Output,
) -> anyhow::Result<Option<Status>> {
    match look {
        Look::Check => check(alloc, folder, &OPTIONS, progress, out),
        Look::Dump(name, filter) => Ok(Some(dump(alloc, folder, name, filter, progress, out)?)),
        Look::Image => match folder.image(progress)? {
            Some(_) => Ok(Some(Status::Done)),
            None => Ok(None),
        },
    }
}

// The status of a look.
fn looked(rt: HostRuntime, folder: &str, look: Look, out: &mut Output) -> anyhow::Result<u8> {
    let mut progress = Progress::new(rt, true)?;
    let folder = Folder::open(rt, folder, &OPTIONS)?;
    match status_of(rt.alloc(), &folder, look, &mut progress, out)? {
        Some(status) => Ok(status.code()),
        None => Err(anyhow!("a file is gone")),
    }
}

// Whether bytes are a text with the folder in place of each `@`.
fn is_text_of(bytes: &[u8], text: &str, folder: &str) -> bool {
    let mut rest = bytes;
    for (place, part) in text.split('@').enumerate() {
        if place > 0 {
            match rest.strip_prefix(folder.as_bytes()) {
                Some(behind) => rest = behind,
                None => return false,
            }
        }
        match rest.strip_prefix(part.as_bytes()) {
            Some(behind) => rest = behind,
            None => return false,
        }
    }
    rest.is_empty()
}

// Whether the look tells what the case says.
fn tells(rt: HostRuntime, folder: &str, case: &Case) -> bool {
    let mut out = Output::new(rt, &OPTIONS);
    match (looked(rt, folder, case.look, &mut out), case.told) {
        (Ok(status), Some((wanted, text))) => {
            status == wanted && is_text_of(out.lines.as_bytes(), text, folder)
        }
        (Err(_), None) => true,
        _ => false,
    }
}

// Whether it does so at the folder and at one that may not be written, and leaves both.
fn holds(rt: HostRuntime, folder: &str, case: &Case) -> Result<bool, Fail> {
    let before = standing(&rt, folder)?;
    let first = tells(rt, folder, case) && standing(&rt, folder)? == before;
    set_writable(&rt, folder, false)?;
    let second = tells(rt, folder, case) && standing(&rt, folder)? == before;
    set_writable(&rt, folder, true)?;
    Ok(first && second)
}

#[test]
fn looks_tell_what_stands_there_and_leave_it(rt: HostRuntime) -> Result<(), Fail> {
    for (place, case) in CASES.iter().enumerate() {
        let folder = make(&rt, case.name, case.files)?;
        let held = holds(rt, folder.as_str(), case);
        end(&rt, folder.as_str(), held, case.name, place)?;
    }
    Ok(())
}
