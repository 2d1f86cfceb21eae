//! A script by which a shell completes the words of a line.

use crate::change_forms::CHANGE_FORMS;
use crate::forms::{CHANGE_OPTIONS, Form, Kind, OPTIONS, Word};
use crate::look_forms::LOOK_FORMS;
use std::alloc::{AllocError, Global};

/// What precedes the names of the commands, and what follows them.
const FRONT: &str = "\
# Completion of raftctl for bash and zsh: eval \"$(raftctl --completion)\"
if [ -n \"${ZSH_VERSION-}\" ]; then
    autoload -U +X compinit && compinit
    autoload -U +X bashcompinit && bashcompinit
fi
_raftctl_names() {
    local name
    while IFS= read -r name; do COMPREPLY+=(\"$name\"); done < <(compgen \"$1\" -- \"$2\")
    compopt -o filenames 2>/dev/null
}
_raftctl() {
    local word=${COMP_WORDS[COMP_CWORD]} before=${COMP_WORDS[COMP_CWORD-1]} offered= place=2
    COMPREPLY=()
    if [ \"$COMP_CWORD\" -eq 1 ]; then
        case $word in
        -*) COMPREPLY=($(compgen -W \"--help --version --completion\" -- \"$word\")) ;;
        *) _raftctl_names -d \"$word\" ;;
        esac
        return
    fi
    while [ \"$place\" -lt \"$COMP_CWORD\" ]; do
        case ${COMP_WORDS[place]} in
        --json | --hex | --quiet) place=$((place + 1)) ;;
        *) break ;;
        esac
    done
    if [ \"$COMP_CWORD\" -eq \"$place\" ]; then
        case $word in
        -*) offered=\"--json --hex --quiet --help\" ;;
        *) offered=\"";

const MIDDLE: &str = "\" ;;
        esac
        COMPREPLY=($(compgen -W \"$offered\" -- \"$word\"))
        return
    fi
    case $before in
    --mode) offered=\"absolute tail any\" ;;
    --kind) offered=\"put delete entry clean compact\" ;;
    --each | --count | --groups | --group | --from | --to | --at | --limit) return ;;
    --target | --threads | --wait | --sync-each | --purge-each) return ;;
    --spill | --from-spill)
        _raftctl_names -d \"$word\"
        return
        ;;
    rewrite) [ \"$COMP_CWORD\" -eq $((place + 1)) ] && offered=\"append rewrite stale\" ;;
    esac
    if [ -n \"$offered\" ]; then
        COMPREPLY=($(compgen -W \"$offered\" -- \"$word\"))
        return
    fi
    case ${COMP_WORDS[place]} in
";

const END: &str = "\
    esac
    case $word in
    -*) COMPREPLY=($(compgen -W \"$offered\" -- \"$word\")) ;;
    *) _raftctl_names -f \"$word\" ;;
    esac
}
complete -F _raftctl raftctl
";

/// A script for bash and zsh, of all commands and their words.
pub fn completion_script(alloc: Global) -> Result<String, AllocError> {
    let mut script = String::from_str(alloc, FRONT)?;
    add_all(&mut script)?;
    Ok(script)
}

fn add_all(script: &mut String) -> Result<(), AllocError> {
    add_names(&LOOK_FORMS, script)?;
    add_names(&CHANGE_FORMS, script)?;
    script.push_str(MIDDLE)?;
    add_forms(&LOOK_FORMS, &[], script)?;
    add_forms(&CHANGE_FORMS, &CHANGE_OPTIONS, script)?;
    script.push_str(END)
}

fn add_parts(parts: &[&str], script: &mut String) -> Result<(), AllocError> {
    for part in parts {
        script.push_str(part)?;
    }
    Ok(())
}

fn add_names(forms: &[Form], script: &mut String) -> Result<(), AllocError> {
    for form in forms {
        add_parts(&[form.name, " "], script)?;
    }
    Ok(())
}

fn add_forms(forms: &[Form], options: &[Word], script: &mut String) -> Result<(), AllocError> {
    for form in forms {
        add_form(form, options, script)?;
    }
    Ok(())
}

// A line of the words that begin with `--` of a command.
fn add_form(form: &Form, options: &[Word], script: &mut String) -> Result<(), AllocError> {
    add_parts(&["    ", form.name, ") offered=\""], script)?;
    add_words(form.words, script)?;
    add_words(options, script)?;
    add_words(&OPTIONS, script)?;
    script.push_str("\" ;;\n")
}

fn add_words(words: &[Word], script: &mut String) -> Result<(), AllocError> {
    for word in words {
        add_word(*word, script)?;
    }
    Ok(())
}

fn add_word(word: Word, script: &mut String) -> Result<(), AllocError> {
    let Word(name, kind, _) = word;
    if kind.is_named() {
        add_parts(&["--", name, " "], script)
    } else {
        Ok(())
    }
}
