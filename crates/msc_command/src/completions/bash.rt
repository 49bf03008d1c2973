//! Completions for bash.

use crate::alternatives::Choices;
use crate::completions::{ENDINGS, write_joined};
use crate::words::{ArgName, CommandName};
use std::io;
use std::io::Write;

/// What precedes the names of the commands.
const HEAD: &str = "\
# Completes the words of msc in bash, as `msc completions bash` prints it.
_msc() {
  local word=${COMP_WORDS[COMP_CWORD]} before=${COMP_WORDS[COMP_CWORD - 1]}
  local options='' values='' wants=file ending
  local commands='";

/// What follows them.
const AFTER_COMMANDS: &str = "\
help'
  if [ \"$word\" = = ]; then
    word=
  elif [ \"$before\" = = ]; then
    before=${COMP_WORDS[COMP_CWORD - 2]}
  elif [[ $word == *[\\<\\>] ]]; then
    before=$word word=
  fi
  case \" ${COMP_WORDS[*]:1:COMP_CWORD - 1} \" in
  *' -- '*) before=-- ;;
  esac
  case $COMP_CWORD:${COMP_WORDS[1]} in
  1:*)
    options='--help --version' values=$commands wants=word
    ;;
";

/// What follows the parts of the commands, up to the endings of files.
const TAIL: &str = "  *:help)
    values=$commands wants=word
    ;;
  esac
  if [ \"$before\" = -- ]; then options=; fi
  if [[ $word == -* && $wants != value ]]; then values=$options wants=word; fi
  if [[ $before == *[\\<\\>] ]]; then
    compopt -o filenames
    mapfile -t COMPREPLY < <(compgen -f -- \"$word\")
  elif [ \"$wants\" != file ]; then
    mapfile -t COMPREPLY < <(compgen -W \"$values\" -- \"$word\")
  else
    compopt -o filenames
    mapfile -t COMPREPLY < <(
      compgen -d -- \"$word\"
      for ending in ";

/// What follows the endings.
const END: &str = "; do compgen -f -X \"!*.$ending\" -- \"$word\"; done
    )
  fi
}
complete -F _msc msc
";

/// Writes the names of the commands.
fn write_names<W: Write>(out: &mut W) -> io::Result<()> {
    for command_name in CommandName::ALL {
        let name = command_name.name();
        write!(out, "{name} ")?;
    }
    Ok(())
}

/// Writes an option by its letter, if it has one, and its name.
fn write_option<W: Write>(out: &mut W, word: ArgName) -> io::Result<()> {
    if word.value_kind().is_argument() {
        return Ok(());
    }
    if let Some(letter) = word.value_kind().letter() {
        write!(out, "-{letter} ")?;
    }
    let name = word.name();
    write!(out, "--{name} ")
}

/// Writes the options of a command.
fn write_options<W: Write>(out: &mut W, command_name: CommandName) -> io::Result<()> {
    for word in command_name.words() {
        write_option(out, *word)?;
    }
    Ok(())
}

/// Writes the words that an argument is one of, if there are such.
fn write_argument<W: Write>(out: &mut W, word: ArgName, lent: Choices<'_>) -> io::Result<()> {
    if !word.value_kind().is_argument() {
        return Ok(());
    }
    let Some(words) = lent.of(word.value_kind()) else {
        return Ok(());
    };
    out.write_all(b"    values='")?;
    write_joined(out, words, " ")?;
    out.write_all(b"' wants=word\n")
}

/// Writes the words that the arguments of a command are one of.
fn write_arguments<W: Write>(
    out: &mut W,
    command_name: CommandName,
    lent: Choices<'_>,
) -> io::Result<()> {
    for word in command_name.words() {
        write_argument(out, *word, lent)?;
    }
    Ok(())
}

/// Writes what follows an option with a value: one of these words, or any text.
fn write_value<W: Write>(out: &mut W, word: ArgName, lent: Choices<'_>) -> io::Result<()> {
    let (name, kind) = (word.name(), word.value_kind());
    if kind.is_argument() || !kind.has_value() {
        return Ok(());
    }
    write!(out, "    --{name}) ")?;
    if let Some(words) = lent.of(kind) {
        out.write_all(b"values='")?;
        write_joined(out, words, " ")?;
        out.write_all(b"' ")?;
    }
    out.write_all(b"wants=value ;;\n")
}

/// Writes what follows the options of a command.
fn write_values<W: Write>(
    out: &mut W,
    command_name: CommandName,
    lent: Choices<'_>,
) -> io::Result<()> {
    for word in command_name.words() {
        write_value(out, *word, lent)?;
    }
    Ok(())
}

/// Writes the part of a command.
fn write_command<W: Write>(
    out: &mut W,
    command_name: CommandName,
    lent: Choices<'_>,
) -> io::Result<()> {
    let name = command_name.name();
    write!(out, "  *:{name})\n    options='")?;
    write_options(out, command_name)?;
    out.write_all(b"--help'\n")?;
    write_arguments(out, command_name, lent)?;
    out.write_all(b"    case $before in\n")?;
    write_values(out, command_name, lent)?;
    out.write_all(b"    esac\n    ;;\n")
}

/// Writes the parts of all commands.
fn write_commands<W: Write>(out: &mut W, lent: Choices<'_>) -> io::Result<()> {
    for command_name in CommandName::ALL {
        write_command(out, command_name, lent)?;
    }
    Ok(())
}

/// Writes the completions for bash.
pub(crate) fn write_bash<W: Write>(out: &mut W, lent: Choices<'_>) -> io::Result<()> {
    out.write_all(HEAD.as_bytes())?;
    write_names(out)?;
    out.write_all(AFTER_COMMANDS.as_bytes())?;
    write_commands(out, lent)?;
    out.write_all(TAIL.as_bytes())?;
    write_joined(out, ENDINGS, " ")?;
    out.write_all(END.as_bytes())
}
