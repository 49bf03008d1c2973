//! Words that `clap` takes and that are no command: they exclude each other, lack what the command
//! needs, name no event, or have a number that is out of its range. The program refuses them in the
//! form in which `clap` refuses words. No clause says what it prints; transcripts compare that.

use crate::scanning::GREATEST_JOBS;
use crate::words::ArgName;
use msc_answer::GREATEST_LIMIT;
use std::io;
use std::io::Write;

/// The text after a line of wrong usage.
const HELP: &str = "\n\nFor more information, try '--help'.";

/// Why words that `clap` took are no command.
#[derive(Clone, Copy)]
pub(crate) enum Misuse<'w> {
    /// These options exclude each other.
    Excluded(ArgName, ArgName),
    /// The option `--queues` is missing.
    NoQueues,
    /// This argument is missing.
    Lacks(ArgName),
    /// This argument, with this text, names no event.
    NoEvent(ArgName, &'w str),
    /// The word of `--choose` has no choices.
    NoChoices(&'w str),
    /// Options of diagrams are given without `--from`.
    NoDiagram,
    /// A word cannot be given with `--from`.
    NotOfDiagrams(ArgName),
    /// The word of `--rounds` has no numbers of rounds.
    NoRounds(&'w str),
    /// `--limit` is out of its range.
    NoLimit(u32),
    /// `--jobs` is out of its range.
    NoJobs(u32),
}

/// Writes that a text is no number from `first` on.
fn write_no_number<E: Write>(faults: &mut E, text: &str, first: u32) -> io::Result<()> {
    match text.parse::<i64>() {
        Ok(number) => write!(faults, "{number} is not in {first}..=4294967295"),
        Err(error) => write!(faults, "{error}"),
    }
}

/// Writes why a word with this text names no event.
fn write_no_event<E: Write>(faults: &mut E, word: ArgName, text: &str) -> io::Result<()> {
    let name = word.name();
    write!(faults, "error: invalid value '{text}' for '<{name}>': ")?;
    match text.strip_prefix(':') {
        Some(line) => write_no_number(faults, line, 1)?,
        None => write_no_number(faults, text, 0)?,
    }
    writeln!(faults, "{HELP}")
}

/// Writes that an option is missing.
fn write_missing<E: Write>(faults: &mut E, option: &str) -> io::Result<()> {
    writeln!(
        faults,
        "error: the following required arguments were not provided:\n  {option}{HELP}"
    )
}

/// Writes that an argument is missing.
fn write_lacking<E: Write>(faults: &mut E, word: ArgName) -> io::Result<()> {
    let name = word.name();
    writeln!(
        faults,
        "error: the following required arguments were not provided:\n  <{name}>{HELP}"
    )
}

/// Writes that two options exclude each other.
fn write_excluded<E: Write>(faults: &mut E, option: &str, other: &str) -> io::Result<()> {
    writeln!(
        faults,
        "error: the argument '--{option}' cannot be used with '--{other}'{HELP}"
    )
}

/// Writes that an option cannot be given with `--from`.
fn write_not_of_diagrams<E: Write>(faults: &mut E, option: &str) -> io::Result<()> {
    writeln!(
        faults,
        "error: the argument '--from <mermaid|any>' cannot be used with '--{option}'{HELP}"
    )
}

/// Writes that the text of an option is not what it expects.
fn write_unexpected<E: Write>(
    faults: &mut E,
    text: &str,
    option: &str,
    expected: &str,
) -> io::Result<()> {
    writeln!(
        faults,
        "error: invalid value '{text}' for '{option}': expected {expected}{HELP}"
    )
}

/// Writes that the number of an option is out of its range, which begins at 1.
fn write_out_of_range<E: Write>(
    faults: &mut E,
    number: u32,
    option: &str,
    greatest: u32,
) -> io::Result<()> {
    writeln!(
        faults,
        "error: invalid value '{number}' for '--{option} <N>': {number} is not in 1..={greatest}{HELP}"
    )
}

/// Writes why words are no command.
pub(crate) fn write_misuse<E: Write>(faults: &mut E, misuse: Misuse<'_>) -> io::Result<()> {
    match misuse {
        Misuse::Excluded(word, other) => write_excluded(faults, word.name(), other.name()),
        Misuse::NoQueues => write_missing(faults, "--queues <QUEUES>"),
        Misuse::Lacks(word) => write_lacking(faults, word),
        Misuse::NoEvent(word, text) => write_no_event(faults, word, text),
        Misuse::NoChoices(text) => {
            let expected = "main, or numbers with commas";
            write_unexpected(faults, text, "--choose <C>", expected)
        }
        Misuse::NoDiagram => write_missing(faults, "--from <mermaid|any>"),
        Misuse::NotOfDiagrams(word) => write_not_of_diagrams(faults, word.name()),
        Misuse::NoRounds(text) => {
            let expected = "numbers up to 1024 with commas";
            write_unexpected(faults, text, "--rounds <R,R..>", expected)
        }
        Misuse::NoLimit(limit) => write_out_of_range(faults, limit, "limit", GREATEST_LIMIT),
        Misuse::NoJobs(jobs) => write_out_of_range(faults, jobs, "jobs", GREATEST_JOBS),
    }
}
