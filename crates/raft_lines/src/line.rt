//! The lines of the program's input.
ghost use Rattle.std.specs.Prelude.{◌≡◌, ◌==◌, ◌≤◌, List, ℕ, length, None, Some, [], ◌∷◌, IfOk, MatchOption, option_map, option_and_then};
ghost use Rattle.std.specs.List.{position_or_len};
ghost use Rattle.raft_script.specs.Number.{number_in};
ghost use Rattle.raft_lines.specs.Line.{Crash, BeginsWith, HasNoWord, if_last, parsed_words, asked_in, asked_of, asked_of_call, asked_of_group, asked_of_log, asked_to_look, clean_by, compact_by, delete_by, entries_by, entry_by, get_by, is_word, left_by, number_by, numbered_by, numbers_by, once_by, put_by, queue_by, rewrite_by, sync_by, torn_by, words_by, words_in};

use raft_records::LogQueue;
use raft_script::{Act, Op, entries_between, number_of};
use std::alloc::{AllocError, Global};

/// The request of a line.
#[derive(Clone, Copy)]
pub(crate) enum Line<'a> {
    /// An empty line or a comment.
    Nothing,
    Call(Call<'a>),
    Look(Look),
    Reopen,
    Crash(CrashChoice),
}

/// A read.
#[derive(Clone, Copy)]
pub(crate) enum Look {
    /// The indexes of a group's first and last entries.
    Range(u64),
    /// A group's keys and values.
    Scan(u64),
    /// The numbers of the first and of the last log file of a queue.
    Span(LogQueue),
}

/// A call of the engine, as the line spells it.
#[derive(Clone, Copy)]
pub(crate) enum Call<'a> {
    Put {
        group: u64,
        key: &'a [u8],
        value: &'a [u8],
        sync: bool,
    },
    Delete {
        group: u64,
        key: &'a [u8],
        sync: bool,
    },
    /// A put with a number of its group, which acts at most once.
    Once {
        group: u64,
        number: u64,
        key: &'a [u8],
        value: &'a [u8],
        sync: bool,
    },
    Get {
        group: u64,
        key: &'a [u8],
    },
    Entries {
        group: u64,
        first: u64,
        last: u64,
        word: &'a [u8],
        sync: bool,
    },
    Clean {
        group: u64,
        sync: bool,
    },
    Compact {
        group: u64,
        index: u64,
    },
    Entry {
        group: u64,
        index: u64,
    },
    Groups,
    Sync,
    /// Rewrites the whole Append queue.
    RewriteAppend,
    /// Rewrites the whole Rewrite queue.
    RewriteRewrite,
    /// Drops the first files of the queues if nothing refers to them.
    PurgeStale,
    /// Purges both queues by watermarks, if they need it.
    Purge,
}

impl Call<'_> {
    ghost use Rattle.raft_lines.specs.Line.{asked_by_op, asked_of_call};

    /// The call as an operation.
    pub(crate) fn op(&self, alloc: Global) -> Result<Op, AllocError>
        ensures value { IfOk result (λ op. asked_by_op op ≡ Some (asked_of_call self.now)) }
    {
        match self {
            Call::Put {
                group,
                key,
                value,
                sync,
            } => {
                let act = Act::Put(*group, key.to_vec(alloc)?, value.to_vec(alloc)?);
                Ok(Op::Write(vec![in alloc; act]?, *sync))
            }
            Call::Delete { group, key, sync } => {
                let act = Act::Delete(*group, key.to_vec(alloc)?);
                Ok(Op::Write(vec![in alloc; act]?, *sync))
            }
            Call::Once {
                group,
                number,
                key,
                value,
                sync,
            } => {
                let act = Act::Put(*group, key.to_vec(alloc)?, value.to_vec(alloc)?);
                let pairs = vec![in alloc; (*group, *number)]?;
                Ok(Op::WriteOnce(vec![in alloc; act]?, pairs, *sync))
            }
            Call::Get { group, key } => Ok(Op::Get(*group, key.to_vec(alloc)?)),
            Call::Entries {
                group,
                first,
                last,
                word,
                sync,
            } => {
                let act = Act::Entries(*group, entries_between(alloc, *first, *last, word)?);
                Ok(Op::Write(vec![in alloc; act]?, *sync))
            }
            Call::Clean { group, sync } => {
                Ok(Op::Write(vec![in alloc; Act::Clean(*group)]?, *sync))
            }
            Call::Compact { group, index } => Ok(Op::CompactTo(*group, *index)),
            Call::Entry { group, index } => Ok(Op::Entry(*group, *index)),
            Call::Groups => Ok(Op::Groups),
            Call::Sync => Ok(Op::Sync),
            Call::RewriteAppend => Ok(Op::RewriteAppend(None, None)),
            Call::RewriteRewrite => Ok(Op::RewriteRewrite),
            Call::PurgeStale => Ok(Op::PurgeStale),
            Call::Purge => Ok(Op::Purge),
        }
    }
}

/// What a crash leaves of each file.
#[derive(Clone, Copy)]
pub(crate) enum CrashChoice {
    All,
    Synced,
    /// The bytes at the crash, except those written since the last sync: only the first ones, as
    /// many as this number, are kept, and the others have this value.
    Torn(u64, u8),
}

/// The request of a line; `None` if it is no line of the program.
pub(crate) fn parse_line(text: &[u8]) -> Option<Line<'_>>
    ensures value { option_map asked_of result ≡ asked_in text.now }
{
    if text.is_empty() || text[0] == b'#' {
        return Some(Line::Nothing);
    }
    let (verb, rest) = split_word(text)?;
    parse_asked(verb, rest)
}

fn parse_asked<'a>(verb: &[u8], rest: &'a [u8]) -> Option<Line<'a>>
    ensures value { option_map asked_of result
        ≡ option_and_then (λ words. parsed_words (verb.now ∷ words)) (words_in rest.now) }
{
    if verb == b"put".as_slice() {
        Some(Line::Call(parse_put(rest)?))
    } else if verb == b"del".as_slice() {
        Some(Line::Call(parse_delete(rest)?))
    } else if verb == b"once".as_slice() {
        Some(Line::Call(parse_once(rest)?))
    } else if verb == b"get".as_slice() {
        Some(Line::Call(parse_get(rest)?))
    } else if verb == b"sync".as_slice() {
        ends(rest)?;
        Some(Line::Call(Call::Sync))
    } else {
        parse_of_group(verb, rest)
    }
}

fn parse_of_group<'a>(verb: &[u8], rest: &'a [u8]) -> Option<Line<'a>>
    ensures value { option_map asked_of result
        ≡ option_and_then (λ words. asked_of_group verb.now words) (words_in rest.now) }
{
    if verb == b"ent".as_slice() {
        Some(Line::Call(parse_entries(rest)?))
    } else if verb == b"clean".as_slice() {
        Some(Line::Call(parse_clean(rest)?))
    } else if verb == b"compact".as_slice() {
        Some(Line::Call(parse_compact(rest)?))
    } else if verb == b"entry".as_slice() {
        Some(Line::Call(parse_entry(rest)?))
    } else if verb == b"groups".as_slice() {
        ends(rest)?;
        Some(Line::Call(Call::Groups))
    } else {
        parse_look(verb, rest)
    }
}

fn parse_look<'a>(verb: &[u8], rest: &[u8]) -> Option<Line<'a>>
    ensures value { option_map asked_of result
        ≡ option_and_then (λ words. asked_to_look verb.now words) (words_in rest.now) }
{
    if verb == b"range".as_slice() {
        Some(Line::Look(Look::Range(parse_last_number(rest)?)))
    } else if verb == b"scan".as_slice() {
        Some(Line::Look(Look::Scan(parse_last_number(rest)?)))
    } else if verb == b"span".as_slice() {
        Some(Line::Look(Look::Span(parse_queue(rest)?)))
    } else {
        parse_of_log(verb, rest)
    }
}

fn parse_of_log<'a>(verb: &[u8], rest: &[u8]) -> Option<Line<'a>>
    ensures value { option_map asked_of result
        ≡ option_and_then (λ words. asked_of_log verb.now words) (words_in rest.now) }
{
    if verb == b"rewrite".as_slice() {
        Some(Line::Call(parse_rewrite(rest)?))
    } else if verb == b"purge".as_slice() {
        ends(rest)?;
        Some(Line::Call(Call::Purge))
    } else if verb == b"reopen".as_slice() {
        ends(rest)?;
        Some(Line::Reopen)
    } else if verb == b"crash".as_slice() {
        Some(Line::Crash(parse_left(rest)?))
    } else {
        None
    }
}

fn parse_queue(rest: &[u8]) -> Option<LogQueue>
    ensures value { result ≡ option_and_then queue_by (words_in rest.now) }
{
    let (word, rest) = split_word(rest)?;
    if word == b"append".as_slice() {
        ends(rest)?;
        Some(LogQueue::Append)
    } else if word == b"rewrite".as_slice() {
        ends(rest)?;
        Some(LogQueue::Rewrite)
    } else {
        None
    }
}

fn parse_rewrite<'a>(rest: &[u8]) -> Option<Call<'a>>
    ensures value { result ≡ option_and_then rewrite_by (words_in rest.now) }
{
    let (word, rest) = split_word(rest)?;
    if word == b"append".as_slice() {
        ends(rest)?;
        Some(Call::RewriteAppend)
    } else if word == b"rewrite".as_slice() {
        ends(rest)?;
        Some(Call::RewriteRewrite)
    } else if word == b"stale".as_slice() {
        ends(rest)?;
        Some(Call::PurgeStale)
    } else {
        None
    }
}

fn parse_left(rest: &[u8]) -> Option<CrashChoice>
    ensures value { result ≡ option_and_then left_by (words_in rest.now) }
{
    let (word, rest) = split_word(rest)?;
    if word == b"all".as_slice() {
        ends(rest)?;
        Some(CrashChoice::All)
    } else if word == b"synced".as_slice() {
        ends(rest)?;
        Some(CrashChoice::Synced)
    } else if word == b"torn".as_slice() {
        parse_torn(rest)
    } else {
        None
    }
}

fn parse_torn(rest: &[u8]) -> Option<CrashChoice>
    ensures value { result ≡ option_and_then torn_by (words_in rest.now) }
{
    let (kept, rest) = parse_number(rest)?;
    let (fill, rest) = parse_number(rest)?;
    ends(rest)?;
    Some(CrashChoice::Torn(kept, u8::try_from(fill).ok()?))
}

fn parse_get(rest: &[u8]) -> Option<Call<'_>>
    ensures value { option_map asked_of_call result ≡ option_and_then get_by (words_in rest.now) }
{
    let (group, rest) = parse_number(rest)?;
    let (key, rest) = split_word(rest)?;
    ends(rest)?;
    Some(Call::Get { group, key })
}

fn parse_put(rest: &[u8]) -> Option<Call<'_>>
    ensures value { option_map asked_of_call result ≡ option_and_then put_by (words_in rest.now) }
{
    let (group, rest) = parse_number(rest)?;
    let (key, rest) = split_word(rest)?;
    let (value, rest) = split_word(rest)?;
    let sync = parse_sync(rest)?;
    Some(Call::Put {
        group,
        key,
        value,
        sync,
    })
}

fn parse_delete(rest: &[u8]) -> Option<Call<'_>>
    ensures value { option_map asked_of_call result ≡ option_and_then delete_by
        (words_in rest.now) }
{
    let (group, rest) = parse_number(rest)?;
    let (key, rest) = split_word(rest)?;
    let sync = parse_sync(rest)?;
    Some(Call::Delete { group, key, sync })
}

fn parse_once(rest: &[u8]) -> Option<Call<'_>>
    ensures value { option_map asked_of_call result ≡ option_and_then once_by (words_in rest.now) }
{
    let (group, rest) = parse_number(rest)?;
    let (number, rest) = parse_number(rest)?;
    parse_numbered(group, number, rest)
}

fn parse_numbered(group: u64, number: u64, rest: &[u8]) -> Option<Call<'_>>
    ensures value { option_map asked_of_call result
        ≡ option_and_then (numbered_by group number) (words_in rest.now) }
{
    let (verb, rest) = split_word(rest)?;
    if verb != b"put".as_slice() {
        return None;
    }
    let (key, rest) = split_word(rest)?;
    let (value, rest) = split_word(rest)?;
    let sync = parse_sync(rest)?;
    Some(Call::Once {
        group,
        number,
        key,
        value,
        sync,
    })
}

fn parse_entries(rest: &[u8]) -> Option<Call<'_>>
    ensures value { option_map asked_of_call result ≡ option_and_then entries_by
        (words_in rest.now) }
{
    let (group, rest) = parse_number(rest)?;
    let (first, rest) = parse_number(rest)?;
    let (last, rest) = parse_number(rest)?;
    parse_words(group, first, last, rest)
}

fn parse_words(group: u64, first: u64, last: u64, rest: &[u8]) -> Option<Call<'_>>
    ensures value { option_map asked_of_call result
        ≡ option_and_then (words_by group first last) (words_in rest.now) }
{
    let (word, rest) = split_word(rest)?;
    if first > last {
        return None;
    }
    let sync = parse_sync(rest)?;
    Some(Call::Entries {
        group,
        first,
        last,
        word,
        sync,
    })
}

fn parse_clean<'a>(rest: &[u8]) -> Option<Call<'a>>
    ensures value { option_map asked_of_call result ≡ option_and_then clean_by (words_in rest.now) }
{
    let (group, rest) = parse_number(rest)?;
    let sync = parse_sync(rest)?;
    Some(Call::Clean { group, sync })
}

fn parse_compact<'a>(rest: &[u8]) -> Option<Call<'a>>
    ensures value { option_map asked_of_call result ≡ option_and_then compact_by
        (words_in rest.now) }
{
    let (group, index) = parse_two_numbers(rest)?;
    Some(Call::Compact { group, index })
}

fn parse_entry<'a>(rest: &[u8]) -> Option<Call<'a>>
    ensures value { option_map asked_of_call result ≡ option_and_then entry_by (words_in rest.now) }
{
    let (group, index) = parse_two_numbers(rest)?;
    Some(Call::Entry { group, index })
}

fn parse_two_numbers(rest: &[u8]) -> Option<(u64, u64)>
    ensures value { result ≡ option_and_then numbers_by (words_in rest.now) }
{
    let (first, rest) = parse_number(rest)?;
    let second = parse_last_number(rest)?;
    Some((first, second))
}

// A number at the end of the line.
fn parse_last_number(rest: &[u8]) -> Option<u64>
    ensures value { result ≡ option_and_then number_by (words_in rest.now) }
{
    let (number, rest) = parse_number(rest)?;
    ends(rest)?;
    Some(number)
}

// The first word, and the text after the space that follows it. Words have only printable
// characters, and exactly one space is between two words. After the last word the text is empty.
fn split_word(text: &[u8]) -> Option<(&[u8], &[u8])>
    ensures value { MatchOption result (HasNoWord text.now)
        (λ found. BeginsWith text.now found.0.now found.1.now) }
{
    let (word, rest) = text.split_at(word_len(text));
    if !is_word(word) {
        return None;
    }
    match rest {
        [] => Some((word, rest)),
        // A space at the end of the line would begin an empty word.
        [_] => None,
        [_, rest @ ..] => Some((word, rest)),
    }
}

// The place of the first space, or the end.
fn word_len(text: &[u8]) -> usize
    ensures value { result ≡ position_or_len (λ byte. byte == 32) text.now }
    ensures within { result ≤ length text.now }
{
    let mut len = 0;
    while len < text.len() && text[len] != b' ' {
        len += 1;
    }
    len
}

fn is_word(text: &[u8]) -> bool
    ensures value { result ≡ is_word text.now }
{
    for byte in text {
        if !byte.is_ascii_graphic() {
            return false;
        }
    }
    !text.is_empty()
}

fn parse_number(text: &[u8]) -> Option<(u64, &[u8])>
    ensures value { MatchOption result ((word : List ℕ) (words : List (List ℕ)) → words_in text.now
        ≡ Some (word ∷ words) → number_in word ≡ None)
        (λ found. (word : List ℕ) × (number_in word ≡ Some found.0)
        × BeginsWith text.now word found.1.now) }
{
    let (word, rest) = split_word(text)?;
    Some((number_of(word)?, rest))
}

fn parse_sync(rest: &[u8]) -> Option<bool>
    ensures value { result ≡ option_and_then sync_by (words_in rest.now) }
{
    if rest.is_empty() {
        return Some(false);
    }
    match split_word(rest)? {
        (b"sync", []) => Some(true),
        _ => None,
    }
}

fn ends(rest: &[u8]) -> Option<()>
    ensures value { result ≡ option_and_then (if_last tt) (words_in rest.now) }
{
    if rest.is_empty() { Some(()) } else { None }
}
