//! Completions for zsh.

use crate::alternatives::Choices;
use crate::completions::{ENDINGS, HELP, HELP_COMMAND, write_joined, write_quoted};
use crate::words::{ArgName, CommandName, ValueKind};
use std::io;
use std::io::Write;

/// What precedes the endings of files.
const HEAD: &str = "\
#compdef msc
# Completes the words of msc in zsh, as `msc completions zsh` prints it.
_msc_file() {
  _files -g '*.(";

/// What follows them, up to the commands.
const AFTER_ENDINGS: &str = "\
)(-.)'
}
_msc_command() {
  local -a commands=(
";

/// What follows the commands, up to the parts of the commands.
const AFTER_COMMANDS: &str = "  )
  _describe -t commands command commands
}
_msc() {
  if (( CURRENT == 2 )); then
    _arguments '(-)'{-h,--help}'[Print help]' '(-)'{-V,--version}'[Print version]' ':command:_msc_command'
    return
  fi
  shift words
  (( CURRENT-- ))
  case $words[1] in
";

/// What follows these parts.
const TAIL: &str = "  help)
    _arguments ':command:_msc_command'
    ;;
  esac
}
if [ \"$funcstack[1]\" = _msc ]; then _msc \"$@\"; else compdef _msc msc; fi
";

/// An apostrophe of a text between apostrophes.
const APOSTROPHE: &str = "'\\''";

/// Writes a command with what the help says of it.
fn write_described<W: Write>(out: &mut W, name: &str, about: &str) -> io::Result<()> {
    write!(out, "    '{name}:")?;
    write_quoted(out, about, APOSTROPHE)?;
    out.write_all(b"'\n")
}

/// Writes the commands with what the help says of them.
fn write_names<W: Write>(out: &mut W) -> io::Result<()> {
    for command_name in CommandName::ALL {
        write_described(out, command_name.name(), command_name.about())?;
    }
    write_described(out, "help", HELP_COMMAND)
}

/// Writes the words that a value is one of, if there are such; else nothing is known of the value.
fn write_words<W: Write>(out: &mut W, words: Option<&[&str]>) -> io::Result<()> {
    let Some(words) = words else {
        return out.write_all(b" ");
    };
    out.write_all(b"(")?;
    write_joined(out, words, " ")?;
    out.write_all(b")")
}

/// Writes what follows the name of an option: what the help says of it, and its value.
fn write_text<W: Write>(out: &mut W, word: ArgName, lent: Choices<'_>) -> io::Result<()> {
    let kind = word.value_kind();
    out.write_all(b"[")?;
    write_quoted(out, word.help(), APOSTROPHE)?;
    out.write_all(b"]")?;
    if kind.has_value() {
        let name = word.name();
        write!(out, ":{name}:")?;
        write_words(out, lent.of(kind))?;
    }
    out.write_all(b"' \\\n")
}

/// Writes an option that has a letter, too: each excludes the other.
fn write_lettered<W: Write>(
    out: &mut W,
    letter: char,
    word: ArgName,
    lent: Choices<'_>,
) -> io::Result<()> {
    let name = word.name();
    write!(out, "      '(--{name})-{letter}")?;
    write_text(out, word, lent)?;
    write!(out, "      '(-{letter})--{name}")?;
    write_text(out, word, lent)
}

/// Writes an option.
fn write_option<W: Write>(out: &mut W, word: ArgName, lent: Choices<'_>) -> io::Result<()> {
    let (name, kind) = (word.name(), word.value_kind());
    if let Some(letter) = kind.letter() {
        return write_lettered(out, letter, word, lent);
    }
    let often = if kind.may_be_repeated() { "*" } else { "" };
    let sign = if kind.has_value() { "=" } else { "" };
    write!(out, "      '{often}--{name}{sign}")?;
    write_text(out, word, lent)
}

/// Writes an argument.
fn write_argument<W: Write>(out: &mut W, word: ArgName, lent: Choices<'_>) -> io::Result<()> {
    let (name, kind) = (word.name(), word.value_kind());
    let often = if kind.may_be_repeated() { "*" } else { "" };
    write!(out, "      '{often}:{name}:")?;
    match kind {
        ValueKind::File | ValueKind::Paths => out.write_all(b"_msc_file")?,
        kind => write_words(out, lent.of(kind))?,
    }
    out.write_all(b"' \\\n")
}

/// Writes the options of a command.
fn write_options<W: Write>(
    out: &mut W,
    command_name: CommandName,
    lent: Choices<'_>,
) -> io::Result<()> {
    for word in command_name.words() {
        if !word.value_kind().is_argument() {
            write_option(out, *word, lent)?;
        }
    }
    write!(
        out,
        "      '(--help)-h[{HELP}]' \\\n      '(-h)--help[{HELP}]' \\\n"
    )
}

/// Writes the arguments of a command.
fn write_arguments<W: Write>(
    out: &mut W,
    command_name: CommandName,
    lent: Choices<'_>,
) -> io::Result<()> {
    for word in command_name.words() {
        if word.value_kind().is_argument() {
            write_argument(out, *word, lent)?;
        }
    }
    Ok(())
}

/// Writes the part of a command.
fn write_command<W: Write>(
    out: &mut W,
    command_name: CommandName,
    lent: Choices<'_>,
) -> io::Result<()> {
    let name = command_name.name();
    write!(out, "  {name})\n    _arguments -S \\\n")?;
    write_options(out, command_name, lent)?;
    write_arguments(out, command_name, lent)?;
    out.write_all(b"      && return\n    ;;\n")
}

/// Writes the parts of all commands.
fn write_commands<W: Write>(out: &mut W, lent: Choices<'_>) -> io::Result<()> {
    for command_name in CommandName::ALL {
        write_command(out, command_name, lent)?;
    }
    Ok(())
}

/// Writes the completions for zsh.
pub(crate) fn write_zsh<W: Write>(out: &mut W, lent: Choices<'_>) -> io::Result<()> {
    out.write_all(HEAD.as_bytes())?;
    write_joined(out, ENDINGS, "|")?;
    out.write_all(AFTER_ENDINGS.as_bytes())?;
    write_names(out)?;
    out.write_all(AFTER_COMMANDS.as_bytes())?;
    write_commands(out, lent)?;
    out.write_all(TAIL.as_bytes())
}
