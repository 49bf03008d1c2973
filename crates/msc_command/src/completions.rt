//! Completions of the words of the program for shells, made of its tables.
//!
//! No clause is about their text. `tools/completions.py` makes the same text of the help, compares
//! both, and tries the completions in the shells.

mod bash;
mod fish;
mod zsh;

ghost use Rattle.std.specs.Prelude.{OnOk};
ghost use Rattle.std.specs.Io.KnownBytes.{Appends};
ghost use Rattle.msc_command.specs.Program.{IsCompleted};

use crate::alternatives::{Choices, Lists};
use crate::completions::bash::write_bash;
use crate::completions::fish::write_fish;
use crate::completions::zsh::write_zsh;
use crate::words::Shell;
use msc_answer::{Status, end_with};
use msc_report::Fault;
use std::alloc::Global;
use std::io;
use std::io::Write;

/// The endings of the names of files that the program reads.
const ENDINGS: &[&str] = &["msc", "mmd", "mermaid", "md", "markdown"];

/// What the help says of the option `--help`, which `clap` adds.
const HELP: &str = "Print help";

/// What the help says of the command `help`, which `clap` adds.
const HELP_COMMAND: &str = "Print this message or the help of the given subcommand(s)";

/// Writes words with this between them.
fn write_joined<W: Write>(out: &mut W, words: &[&str], between: &str) -> io::Result<()> {
    let mut lead = "";
    for word in words {
        write!(out, "{lead}{word}")?;
        lead = between;
    }
    Ok(())
}

/// Writes a text that is between apostrophes, with this in place of each of its own. It has no
/// backslash.
fn write_quoted<W: Write>(out: &mut W, text: &str, apostrophe: &str) -> io::Result<()> {
    let mut lead = "";
    for part in text.split('\'') {
        write!(out, "{lead}{part}")?;
        lead = apostrophe;
    }
    Ok(())
}

/// Writes the completions for a shell.
fn write_completions<W: Write>(out: &mut W, shell: Shell, lent: Choices<'_>) -> io::Result<()> {
    match shell {
        Shell::Bash => write_bash(out, lent),
        Shell::Zsh => write_zsh(out, lent),
        Shell::Fish => write_fish(out, lent),
    }
}

/// The completions for a shell. An error is a growth of memory that was refused.
fn completions(alloc: Global, shell: Shell) -> io::Result<Vec<u8>> {
    let lists = Lists::of(alloc)?;
    let mut text = Vec::new(alloc);
    write_completions(&mut text, shell, lists.choices())?;
    Ok(text)
}

/// Writes bytes, and flushes the writer.
fn write_flushed<O: Write>(output: &mut O, bytes: &[u8]) -> io::Result<()>
    ensures { OnOk result (Appends (O.contents output.old) (O.contents output.new) bytes.now) }
{
    output.write_all(bytes)?;
    output.flush()
}

/// Prints the completions for a shell, and returns the status.
pub(crate) fn print_completions<O: Write, E: Write>(
    alloc: Global,
    shell: Shell,
    output: &mut O,
    faults: &mut E,
) -> Status
    ensures { IsCompleted O.contents result output.old output.new }
{
    let Ok(text) = completions(alloc, shell) else {
        return end_with(faults, Fault::Memory).0;
    };
    match write_flushed(output, text.as_slice()) {
        Ok(()) => Status::Done,
        Err(_) => end_with(faults, Fault::Device).0,
    }
}
