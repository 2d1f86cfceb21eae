//! Which paths a folder's files can have, and which names those of a log have.
ghost use Rattle.std.specs.Prelude.{◌≡◌};
ghost use Rattle.std.specs.Char.{is_ascii_digit};
ghost use Rattle.std.specs.List.{list_all};
ghost use Rattle.raft_disk.specs.Names.{is_log_end, is_log_name};

/// The name of the file whose lock says that a folder is open.
pub(crate) const LOCK: &str = "LOCK";

/// The name of the file in a folder while a fork into it has not ended, as `raft_fork` has it.
pub(crate) const FORK_MARK: &str = "FORKING";

/// How many digits a log file's name begins with.
const NUMBER_LEN: usize = 16;

/// Whether a file of a log can have this name: a number of sixteen digits, and then `.raftlog`,
/// `.rewrite`, or `.raftlog.reserved` if it waits to be used again.
pub fn is_log_name(name: &str) -> bool
    ensures value { result ≡ is_log_name name.now }
{
    let Some((number, end)) = name.as_bytes().split_at_checked(NUMBER_LEN) else {
        return false;
    };
    are_digits(number) && is_log_end(end)
}

/// Whether a log file of this name waits to be used again.
pub(crate) fn is_reserved_name(name: &str) -> bool {
    name.ends_with(".reserved")
}

fn are_digits(number: &[u8]) -> bool
    ensures value { result ≡ list_all is_ascii_digit number.now }
{
    number.iter().all(|c| c.is_ascii_digit())
}

fn is_log_end(end: &[u8]) -> bool
    ensures value { result ≡ is_log_end end.now }
{
    end == b".raftlog".as_slice()
        || end == b".rewrite".as_slice()
        || end == b".raftlog.reserved".as_slice()
}

/// Whether the path's parts are names that lead to one place each, and it isn't the lock's.
pub fn is_plain(path: &str) -> bool {
    for part in path.split('/') {
        if part.is_empty() || part == "." || part == ".." || part.as_bytes().contains(&0) {
            return false;
        }
    }
    path != LOCK && !path.starts_with("LOCK/")
}
