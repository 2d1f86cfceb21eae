//! The command line.

use crate::building::command;
use crate::change_forms::CHANGE_FORMS;
use crate::escaping::printable;
use crate::forms::{ChangeSort, EACH, Form, GroupLookSort, LookSort, OtherSort, Sort};
use crate::look_forms::LOOK_FORMS;
use crate::modes::mode_named;
use crate::request::{
    Changing, Dump, Import, Indexes, Load, Look, Options, Purge, Range, Request, Salvage, Verb,
    Watch,
};
use clap::error::ErrorKind;
use clap::{ArgMatches, Error};
use raft_base::ReadableSize;
use raft_config::RecoveryMode;
use std::alloc::{AllocError, Global};

/// What a line's kind may be, as `dump` prints it.
const KINDS: [&str; 5] = ["put", "delete", "entry", "clean", "compact"];

/// Reads the words of a command line, the program's name first.
pub fn parse<'a>(alloc: Global, words: &'a [String]) -> Result<Request<'a>, Error> {
    if let Some(word) = words.get(2) {
        if !is_known(word.as_str()) {
            return Err(unknown(alloc, word.as_str()));
        }
    }
    let matches = command(alloc)?.try_get_matches_from(words)?;
    read_request(alloc, &matches)
}

// Whether a word after the folder is a command, or none is needed there.
fn is_known(word: &str) -> bool {
    word.starts_with('-') || word == "help" || sort_named(word).is_some()
}

// Whether a word is the name of a command.
pub(crate) fn is_command(word: &str) -> bool {
    sort_named(word).is_some()
}

// What the command of a name does.
fn sort_named(name: &str) -> Option<Sort> {
    sort_among(&LOOK_FORMS, name).or(sort_among(&CHANGE_FORMS, name))
}

fn sort_among(forms: &[Form], name: &str) -> Option<Sort> {
    for form in forms {
        if form.name == name {
            return Some(form.sort);
        }
    }
    None
}

fn read_request<'a>(alloc: Global, matches: &ArgMatches<'a>) -> Result<Request<'a>, Error> {
    // None is missing of a command line that `command` takes.
    let (Some(folder), Some((name, words))) = (matches.get_str("FOLDER"), matches.subcommand())
    else {
        return Err(Error::from(AllocError));
    };
    match sort_named(name) {
        Some(sort) => read_command(alloc, folder, name, sort, words),
        None => Err(Error::from(AllocError)),
    }
}

fn read_command<'a>(
    alloc: Global,
    folder: &'a str,
    name: &str,
    sort: Sort,
    words: &ArgMatches<'a>,
) -> Result<Request<'a>, Error> {
    let options = read_options(alloc, words)?;
    check_json(alloc, name, sort, &options)?;
    let no_sync = words.get_flag("no-sync");
    let mut whole = true;
    let verb = read_verb(alloc, sort, words, &mut whole)?;
    request_if(whole, Request::new(folder, options, verb, no_sync))
}

// Where a word is missing there is no request, as where memory is.
fn request_if(whole: bool, request: Request<'_>) -> Result<Request<'_>, Error> {
    if whole {
        Ok(request)
    } else {
        Err(Error::from(AllocError))
    }
}

// With `--json` each line is an object; plain bytes and a picture are none.
fn check_json(alloc: Global, name: &str, sort: Sort, options: &Options<'_>) -> Result<(), Error> {
    if !options.json {
        return Ok(());
    }
    if options.raw {
        return Err(wrong(alloc, "--json", "--raw", "left out beside --raw"));
    }
    if let Sort::Look(LookSort::Picture) = sort {
        return Err(wrong(alloc, "--json", name, "no option of picture: it prints SVG"));
    }
    Ok(())
}

// The mode that is named, or the usual one.
fn read_mode(alloc: Global, matches: &ArgMatches<'_>) -> Result<RecoveryMode, Error> {
    let Some(word) = matches.get_str("mode") else {
        return Ok(RecoveryMode::TolerateTailCorruption);
    };
    match mode_named(word) {
        Some(mode) => Ok(mode),
        None => Err(wrong(alloc, "--mode", word, "absolute, tail or any")),
    }
}

fn read_target(alloc: Global, matches: &ArgMatches<'_>) -> Result<Option<ReadableSize>, Error> {
    let Some(word) = matches.get_str("target") else {
        return Ok(None);
    };
    match ReadableSize::parse(word) {
        Ok(size) => Ok(Some(size)),
        Err(_) => Err(wrong(alloc, "--target", word, "a size, as 128MB")),
    }
}

fn read_options<'a>(alloc: Global, matches: &ArgMatches<'a>) -> Result<Options<'a>, Error> {
    let mode = read_mode(alloc, matches)?;
    let target = read_target(alloc, matches)?;
    Ok(options_of(mode, target, matches))
}

fn options_of<'a>(
    mode: RecoveryMode,
    target: Option<ReadableSize>,
    matches: &ArgMatches<'a>,
) -> Options<'a> {
    Options {
        spill: matches.get_str("spill"),
        mode,
        mode_is_named: matches.get_str("mode").is_some(),
        settings: matches.get_str("settings"),
        base: None,
        target,
        threads: matches.get_one("threads"),
        json: matches.get_flag("json"),
        hex: matches.get_flag("hex"),
        quiet: matches.get_flag("quiet"),
        raw: matches.get_flag("raw"),
        changing: read_changing(matches),
    }
}

fn read_changing(matches: &ArgMatches<'_>) -> Changing {
    Changing {
        cut: matches.get_flag("cut"),
        no_keep: matches.get_flag("no-keep"),
        wait: matches.get_one("wait").unwrap_or(0),
        dry_run: matches.get_flag("dry-run"),
    }
}

// The kind of items that is named, if one is.
fn read_kind<'a>(alloc: Global, matches: &ArgMatches<'a>) -> Result<Option<&'a str>, Error> {
    let kind = matches.get_str("kind");
    if let Some(word) = kind {
        if !KINDS.contains(&word) {
            let wanted = "put, delete, entry, clean or compact";
            return Err(wrong(alloc, "--kind", word, wanted));
        }
    }
    Ok(kind)
}

fn read_dump<'a>(alloc: Global, matches: &ArgMatches<'a>) -> Result<Verb<'a>, Error> {
    let kind = read_kind(alloc, matches)?;
    Ok(Verb::Look(Look::Dump(Dump {
        file: matches.get_str("FILE"),
        group: matches.get_one("group"),
        kind,
        from: matches.get_one("from"),
        to: matches.get_one("to"),
    })))
}

fn read_import<'a>(alloc: Global, matches: &ArgMatches<'a>) -> Result<Verb<'a>, Error> {
    let kind = read_kind(alloc, matches)?;
    let file = matches.get_str("FILE");
    let folder = matches.get_str("from-folder");
    if let (Some(word), Some(_)) = (file, folder) {
        return Err(wrong(alloc, "FILE", word, "left out beside --from-folder"));
    }
    Ok(Verb::Import(Import {
        file,
        folder,
        spill: matches.get_str("from-spill"),
        group: matches.get_one("group"),
        kind,
        replace: matches.get_flag("replace"),
    }))
}

// The words of this name, which may be none.
fn texts<'a>(
    alloc: Global,
    matches: &ArgMatches<'a>,
    name: &str,
) -> Result<Vec<&'a str>, AllocError> {
    match matches.get_strs(name) {
        Some(words) => words.to_vec(alloc),
        None => Ok(Vec::new(alloc)),
    }
}

fn read_salvage<'a>(
    alloc: Global,
    matches: &ArgMatches<'a>,
    whole: &mut bool,
) -> Result<Verb<'a>, Error> {
    let target = text(matches, "TARGET", whole);
    let stale = matches.get_flag("stale");
    let files = texts(alloc, matches, "FILE")?;
    Ok(Verb::Salvage(Salvage {
        target,
        files,
        stale,
    }))
}

fn read_purge<'a>(alloc: Global, matches: &ArgMatches<'_>) -> Result<Verb<'a>, Error> {
    let word = matches.get_str("FILES").unwrap_or("");
    match word {
        "append" => Ok(Verb::Purge(Purge::Append)),
        "rewrite" => Ok(Verb::Purge(Purge::Rewrite)),
        "stale" => Ok(Verb::Purge(Purge::Stale)),
        _ => Err(wrong(alloc, "FILES", word, "append, rewrite or stale")),
    }
}

// A word that isn't what is wanted at its place.
fn wrong(alloc: Global, name: &str, word: &str, wanted: &str) -> Error {
    match text_of_wrong(alloc, name, word, wanted) {
        Ok(said) => refused(alloc, ErrorKind::InvalidValue, said.as_str()),
        Err(error) => Error::from(error),
    }
}

fn text_of_wrong(
    alloc: Global,
    name: &str,
    word: &str,
    wanted: &str,
) -> Result<String, AllocError> {
    let word = printable(alloc, word)?;
    format!(in alloc; "{name} is {wanted}, and not `{word}`")
}

// A word that is no command.
fn unknown(alloc: Global, word: &str) -> Error {
    match text_of_unknown(alloc, word) {
        Ok(said) => refused(alloc, ErrorKind::InvalidSubcommand, said.as_str()),
        Err(error) => Error::from(error),
    }
}

fn text_of_unknown(alloc: Global, word: &str) -> Result<String, AllocError> {
    let word = printable(alloc, word)?;
    format!(in alloc; "no command `{word}`; `raftctl --help` lists them")
}

fn refused(alloc: Global, kind: ErrorKind, said: &str) -> Error {
    let made = match command(alloc) {
        Ok(mut all) => all.error(kind, said),
        Err(error) => Err(error),
    };
    match made {
        Ok(error) => error,
        Err(error) => Error::from(error),
    }
}

// A number that is wanted. A line without it isn't whole.
fn number(matches: &ArgMatches<'_>, name: &str, whole: &mut bool) -> u64 {
    match matches.get_one::<u64>(name) {
        Some(found) => found,
        None => {
            *whole = false;
            0
        }
    }
}

// A text that is wanted.
fn text<'a>(matches: &ArgMatches<'a>, name: &str, whole: &mut bool) -> &'a str {
    match matches.get_str(name) {
        Some(found) => found,
        None => {
            *whole = false;
            ""
        }
    }
}

// The number of a group; none if each line of a file begins with its group.
fn read_group(
    alloc: Global,
    matches: &ArgMatches<'_>,
    whole: &mut bool,
) -> Result<Option<u64>, Error> {
    let word = text(matches, "GROUP", whole);
    if word == EACH {
        return Ok(None);
    }
    match word.parse() {
        Ok(group) => Ok(Some(group)),
        Err(_) => Err(wrong(alloc, "GROUP", word, "a number or `each`")),
    }
}

fn read_lines<'a>(
    alloc: Global,
    matches: &ArgMatches<'a>,
    whole: &mut bool,
) -> Result<Verb<'a>, Error> {
    let group = read_group(alloc, matches, whole)?;
    let file = text(matches, "FILE", whole);
    if matches.get_flag("entries") {
        Ok(Verb::EntryLines(group, file))
    } else {
        Ok(Verb::Lines(group, file))
    }
}

fn read_append<'a>(
    alloc: Global,
    matches: &ArgMatches<'a>,
    whole: &mut bool,
) -> Result<Verb<'a>, Error> {
    let group = read_group(alloc, matches, whole)?;
    let lines = matches.get_str("lines");
    let at = matches.get_one("at");
    let has_values = matches.get_strs("VALUE").is_some();
    if !has_values && lines.is_none() {
        return Err(wrong(alloc, "VALUE", "", "wanted, or --lines FILE"));
    }
    if group.is_none() && (at.is_some() || has_values) {
        return Err(wrong(alloc, "GROUP", EACH, "a number beside VALUE or --at"));
    }
    let values = texts(alloc, matches, "VALUE")?;
    Ok(Verb::Append(group, values, lines, at))
}

fn read_verb<'a>(
    alloc: Global,
    sort: Sort,
    matches: &ArgMatches<'a>,
    whole: &mut bool,
) -> Result<Verb<'a>, Error> {
    match sort {
        Sort::Change(change) => Ok(read_change(change, matches, whole)),
        Sort::Look(look) => Ok(Verb::Look(read_look(look, matches, whole))),
        Sort::Lines => read_lines(alloc, matches, whole),
        Sort::Append => read_append(alloc, matches, whole),
        Sort::Rewrite => read_purge(alloc, matches),
        Sort::Import => read_import(alloc, matches),
        Sort::Salvage => read_salvage(alloc, matches, whole),
        Sort::Dump => read_dump(alloc, matches),
        Sort::Other(other) => Ok(read_other(other, matches, whole)),
    }
}

// A change of one group.
fn read_change<'a>(sort: ChangeSort, matches: &ArgMatches<'a>, whole: &mut bool) -> Verb<'a> {
    let group = number(matches, "GROUP", whole);
    match sort {
        ChangeSort::Put => Verb::Put(
            group,
            text(matches, "KEY", whole),
            text(matches, "VALUE", whole),
        ),
        ChangeSort::Delete => Verb::Delete(group, text(matches, "KEY", whole)),
        ChangeSort::Compact => Verb::Compact(group, number(matches, "INDEX", whole)),
        ChangeSort::Truncate => Verb::Truncate(group, number(matches, "INDEX", whole)),
        ChangeSort::Clean => Verb::Clean(group),
    }
}

fn read_other<'a>(sort: OtherSort, matches: &ArgMatches<'a>, whole: &mut bool) -> Verb<'a> {
    match sort {
        OtherSort::Load => Verb::Load(read_load(matches, whole)),
        OtherSort::Purge => Verb::Purge(Purge::Expired),
        OtherSort::Repair => Verb::Repair,
        OtherSort::Settings => Verb::Settings,
        OtherSort::Watch => Verb::Watch(read_watch(matches)),
        OtherSort::Fork => Verb::Fork(text(matches, "TARGET", whole)),
    }
}

fn read_look<'a>(sort: LookSort, matches: &ArgMatches<'a>, whole: &mut bool) -> Look<'a> {
    match sort {
        LookSort::Group(look) => read_group_look(look, matches, whole),
        LookSort::List => Look::List(matches.get_one("GROUP"), matches.get_one("limit")),
        LookSort::Groups => Look::Groups,
        LookSort::Stat => Look::Stat,
        LookSort::Sum => Look::Sum(matches.get_one("GROUP"), read_indexes(matches)),
        LookSort::Check => Look::Check,
        LookSort::Consistency => Look::Consistency,
        LookSort::Picture => Look::Picture,
        LookSort::Verify => Look::Verify(read_load(matches, whole)),
    }
}

// A look at one group.
fn read_group_look<'a>(
    sort: GroupLookSort,
    matches: &ArgMatches<'a>,
    whole: &mut bool,
) -> Look<'a> {
    let group = number(matches, "GROUP", whole);
    match sort {
        GroupLookSort::Get => Look::Get(group, text(matches, "KEY", whole)),
        GroupLookSort::Scan => Look::Scan(group, read_range(matches)),
        GroupLookSort::Entry => Look::Entry(group, number(matches, "INDEX", whole)),
        GroupLookSort::Entries => Look::Entries(group, read_indexes(matches)),
    }
}

fn read_indexes(matches: &ArgMatches<'_>) -> Indexes {
    Indexes {
        from: matches.get_one("FROM"),
        to: matches.get_one("TO"),
        limit: matches.get_one("limit"),
    }
}

fn read_range<'a>(matches: &ArgMatches<'a>) -> Range<'a> {
    Range {
        from: matches.get_str("from"),
        to: matches.get_str("to"),
        limit: matches.get_one("limit"),
        reverse: matches.get_flag("reverse"),
    }
}

fn read_watch(matches: &ArgMatches<'_>) -> Watch {
    Watch {
        each: matches.get_one("each").unwrap_or(1),
        count: matches.get_one("count"),
        groups: matches.get_one("groups").unwrap_or(10),
    }
}

fn read_load(matches: &ArgMatches<'_>, whole: &mut bool) -> Load {
    Load {
        count: number(matches, "COUNT", whole),
        size: number(matches, "SIZE", whole),
        sync_each: matches.get_one("sync-each").unwrap_or(1),
        purge_each: matches.get_one("purge-each").unwrap_or(0),
    }
}
