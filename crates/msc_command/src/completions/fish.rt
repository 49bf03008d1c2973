//! Completions for fish.

use crate::alternatives::Choices;
use crate::completions::{ENDINGS, HELP, HELP_COMMAND, write_joined, write_quoted};
use crate::words::{ArgName, CommandName, ValueKind};
use std::io;
use std::io::Write;

/// What precedes the endings of files.
const HEAD: &str = "\
# Completes the words of msc in fish, as `msc completions fish` prints it.
function __msc_is
    set -l words (commandline -opc)
    contains -- \"$words[2]\" $argv
end
function __msc_file
    complete -C \"'' \"(commandline -ct) | string match -r '.*(?:/|\\.(?:";

/// What follows them, up to the commands.
const AFTER_ENDINGS: &str = "\
))(?:\\t.*)?$'
end
complete -c msc -f
complete -c msc -n '__msc_is \"\"' -s h -l help -d 'Print help'
complete -c msc -n '__msc_is \"\"' -s V -l version -d 'Print version'
";

/// An apostrophe of a text between apostrophes.
const APOSTROPHE: &str = "\\'";

/// Writes what the help says of a command or of an option, and ends the line.
fn write_description<W: Write>(out: &mut W, text: &str) -> io::Result<()> {
    out.write_all(b" -d '")?;
    write_quoted(out, text, APOSTROPHE)?;
    out.write_all(b"'\n")
}

/// Writes a command as a word that follows these.
fn write_name<W: Write>(out: &mut W, before: &str, name: &str, about: &str) -> io::Result<()> {
    write!(out, "complete -c msc -n '__msc_is {before}' -a {name}")?;
    write_description(out, about)
}

/// Writes the commands as words that follow these.
fn write_names<W: Write>(out: &mut W, before: &str) -> io::Result<()> {
    for command_name in CommandName::ALL {
        write_name(out, before, command_name.name(), command_name.about())?;
    }
    Ok(())
}

/// Writes words between apostrophes, one of which follows.
fn write_words<W: Write>(out: &mut W, words: &[&str]) -> io::Result<()> {
    out.write_all(b" -a '")?;
    write_joined(out, words, " ")?;
    out.write_all(b"'")
}

/// Writes the value of an option, if it has one.
fn write_value<W: Write>(out: &mut W, kind: ValueKind, lent: Choices<'_>) -> io::Result<()> {
    if !kind.has_value() {
        return Ok(());
    }
    out.write_all(b" -x")?;
    match lent.of(kind) {
        Some(words) => write_words(out, words),
        None => Ok(()),
    }
}

/// Writes an option of the command of this name.
fn write_option<W: Write>(
    out: &mut W,
    command: &str,
    word: ArgName,
    lent: Choices<'_>,
) -> io::Result<()> {
    let (name, kind) = (word.name(), word.value_kind());
    write!(out, "complete -c msc -n '__msc_is {command}'")?;
    if let Some(letter) = kind.letter() {
        write!(out, " -s {letter}")?;
    }
    write!(out, " -l {name}")?;
    write_value(out, kind, lent)?;
    write_description(out, word.help())
}

/// Writes an argument of the command of this name, if something is known of it.
fn write_argument<W: Write>(
    out: &mut W,
    command: &str,
    word: ArgName,
    lent: Choices<'_>,
) -> io::Result<()> {
    match (word.value_kind(), lent.of(word.value_kind())) {
        (ValueKind::File | ValueKind::Paths, _) => {
            writeln!(
                out,
                "complete -c msc -n '__msc_is {command}' -a '(__msc_file)'"
            )
        }
        (_, Some(words)) => {
            write!(out, "complete -c msc -n '__msc_is {command}'")?;
            write_words(out, words)?;
            out.write_all(b"\n")
        }
        (_, None) => Ok(()),
    }
}

/// Writes the options of a command.
fn write_options<W: Write>(
    out: &mut W,
    command_name: CommandName,
    lent: Choices<'_>,
) -> io::Result<()> {
    let name = command_name.name();
    for word in command_name.words() {
        if !word.value_kind().is_argument() {
            write_option(out, name, *word, lent)?;
        }
    }
    write!(out, "complete -c msc -n '__msc_is {name}' -s h -l help")?;
    write_description(out, HELP)
}

/// Writes the arguments of a command.
fn write_arguments<W: Write>(
    out: &mut W,
    command_name: CommandName,
    lent: Choices<'_>,
) -> io::Result<()> {
    for word in command_name.words() {
        if word.value_kind().is_argument() {
            write_argument(out, command_name.name(), *word, lent)?;
        }
    }
    Ok(())
}

/// Writes the options and arguments of all commands.
fn write_commands<W: Write>(out: &mut W, lent: Choices<'_>) -> io::Result<()> {
    for command_name in CommandName::ALL {
        write_options(out, command_name, lent)?;
        write_arguments(out, command_name, lent)?;
    }
    Ok(())
}

/// Writes the completions for fish.
pub(crate) fn write_fish<W: Write>(out: &mut W, lent: Choices<'_>) -> io::Result<()> {
    out.write_all(HEAD.as_bytes())?;
    write_joined(out, ENDINGS, "|")?;
    out.write_all(AFTER_ENDINGS.as_bytes())?;
    write_names(out, "\"\"")?;
    write_name(out, "\"\"", "help", HELP_COMMAND)?;
    write_commands(out, lent)?;
    write_names(out, "help")
}
