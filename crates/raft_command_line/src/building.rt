//! The commands as the parser of command lines takes them, made of the tables.

use crate::change_forms::CHANGE_FORMS;
use crate::forms::{CHANGE_OPTIONS, Form, Kind, OPTIONS, STATUSES, Word};
use crate::look_forms::LOOK_FORMS;
use clap::{Arg, ArgAction, Command, value_parser};
use std::alloc::{AllocError, Global};

/// The project's version, that of the crate whose files it reads and writes, and room for a commit,
/// which `tools/stamp` writes into a copy of the program.
const VERSION: &str = "0.2.0 (the files of raft-engine 0.4.2), \
    commit unknown                                 ";

/// The program's command, with all others.
pub(crate) fn command<'a>(alloc: Global) -> Result<Command<'a>, AllocError> {
    let mut subcommands = Vec::new(alloc);
    add_subcommands(alloc, &LOOK_FORMS, &[], &mut subcommands)?;
    add_subcommands(alloc, &CHANGE_FORMS, &CHANGE_OPTIONS, &mut subcommands)?;
    command_with(alloc, subcommands)
}

fn command_with<'a>(
    alloc: Global,
    subcommands: Vec<Command<'a>>,
) -> Result<Command<'a>, AllocError> {
    let folder = Word(
        "FOLDER",
        Kind::Text,
        "The folder of the log; a command that changes it makes it where it is missing",
    );
    Command::new(alloc, "raftctl")
        .version(VERSION.trim_end())
        .about("Does one command on a log in a folder")
        .after_help(STATUSES)
        .subcommand_required(true)
        .subcommands(subcommands)?
        .arg(argument(alloc, folder))
}

fn add_subcommands<'a>(
    alloc: Global,
    forms: &[Form],
    options: &[Word],
    subcommands: &mut Vec<Command<'a>>,
) -> Result<(), AllocError> {
    for form in forms {
        subcommands.push(subcommand(alloc, form, options)?)?;
    }
    Ok(())
}

fn subcommand<'a>(alloc: Global, form: &Form, options: &[Word]) -> Result<Command<'a>, AllocError> {
    let mut arguments = Vec::new(alloc);
    for word in form.words.iter().chain(options).chain(&OPTIONS) {
        arguments.push(argument(alloc, *word))?;
    }
    Command::new(alloc, form.name)
        .about(form.about)
        .after_help(form.example)
        .args(arguments)
}

fn argument<'a>(alloc: Global, word: Word) -> Arg<'a> {
    let Word(name, kind, help) = word;
    let argument = Arg::new(alloc, name)
        .help(help)
        .required(kind.is_required());
    if kind.is_named() {
        valued(argument.long(name), kind)
    } else {
        valued(argument, kind)
    }
}

// With the values that a word of this kind has.
fn valued<'a>(argument: Arg<'a>, kind: Kind) -> Arg<'a> {
    match kind {
        Kind::Text | Kind::OptionalText | Kind::NamedText => argument,
        Kind::OptionalTexts => argument.num_args(1..),
        Kind::Number | Kind::Optional | Kind::Named => argument.value_parser(value_parser!(u64)),
        Kind::Flag => argument.action(ArgAction::SetTrue),
    }
}
