//! Writes canonical texts and fault lines.
//!
//! Each call writes exactly its bytes or answers an `io::Error`. No contract says how much was
//! written before an error.

ghost use Rattle.std.specs.Prelude.{◌≡◌, IfNone, IfSome, OnOk};
ghost use Rattle.std.specs.Io.KnownBytes.{Appends};
ghost use Rattle.msc_report.specs.Texts.{chart_fault_line, fault_line, grammar_line, lexical_line};
ghost use Rattle.msc_report.specs.Texts.{text_line, numbered, placed};

use crate::fault::Fault;
use msc_chart::ChartFault;
use msc_lexer::{LexFault, Word};
use msc_parser::{ParseFault, What};
use std::io;
use std::io::Write;

/// Writes the bytes given, a canonical text.
pub fn write_draft<W: Write>(writer: &mut W, text: &[u8]) -> io::Result<()>
    ensures { OnOk result (Appends (W.contents writer.old) (W.contents writer.new) text.now) }
{
    writer.write_all(text)
}

/// Writes one line of words.
fn write_line<W: Write>(writer: &mut W, words: &str) -> io::Result<()>
    ensures { OnOk result (Appends (W.contents writer.old) (W.contents writer.new)
        (text_line words.now)) }
{
    writeln!(writer, "{words}")
}

/// Writes one line with a place in it.
fn write_placed<W: Write>(writer: &mut W, before: &str, at: usize, after: &str) -> io::Result<()>
    ensures { OnOk result (Appends (W.contents writer.old) (W.contents writer.new)
        (placed before.now at after.now)) }
{
    writeln!(writer, "{before}{at}{after}")
}

/// Writes the line of a lexical fault.
fn write_lexical<W: Write>(writer: &mut W, fault: LexFault) -> io::Result<()>
    ensures { OnOk result (Appends (W.contents writer.old) (W.contents writer.new)
        (lexical_line fault)) }
{
    match fault {
        LexFault::TooLong => {
            write_line(writer, "lexical fault 1: text longer than 1048576 bytes")
        }
        LexFault::BadByte(at) => {
            write_placed(
                writer,
                "lexical fault 2 at ",
                at,
                ": byte that begins no token",
            )
        }
        LexFault::OpenNote(at) => {
            write_placed(writer, "lexical fault 3 at ", at, ": note without end")
        }
        LexFault::OpenText(at) => {
            write_placed(writer, "lexical fault 4 at ", at, ": text without end")
        }
        LexFault::LongName(at) => {
            write_placed(
                writer,
                "lexical fault 5 at ",
                at,
                ": name longer than 64 bytes",
            )
        }
        LexFault::Memory => write_line(writer, "memory fault"),
    }
}

/// Writes the line for a word that is not supported.
fn write_unsupported<W: Write>(writer: &mut W, at: usize, word: Word) -> io::Result<()>
    ensures { OnOk result (Appends (W.contents writer.old) (W.contents writer.new)
        (grammar_line (ParseFault.Unsupported at word))) }
{
    writeln!(writer, "grammar fault 2 at {at}: {word} is not supported")
}

/// Writes the line for what was expected at a place.
fn write_expected<W: Write>(writer: &mut W, at: usize, what: What) -> io::Result<()>
    ensures { OnOk result (Appends (W.contents writer.old) (W.contents writer.new)
        (grammar_line (ParseFault.Expected at what))) }
{
    writeln!(writer, "grammar fault 3 at {at}: expected {what}")
}

/// A chart's fault in words: its number, the words before its place, its place if it has one, and
/// the words after it. Want of memory has no number.
fn chart_words(fault: ChartFault) -> Option<(u32, &'static str, Option<u32>, &'static str)>
    ensures words { IfSome result
        (λ w. chart_fault_line fault ≡ numbered w.0 w.1.now w.2 w.3.now) }
    ensures memory { IfNone result (fault ≡ ChartFault.Memory) }
{
    match fault {
        ChartFault::TooManyInstances => Some((1, "more than 32 instances", None, "")),
        ChartFault::TwiceInstance(i) => {
            Some((2, "section ", Some(i), " repeats an instance name"))
        }
        ChartFault::HeaderWithoutBody(k) => Some((3, "header name ", Some(k), " has no section")),
        ChartFault::UnknownAddress(e) => Some((4, "event ", Some(e), " has an unknown address")),
        ChartFault::TooManyMessages => Some((5, "more than 1024 messages", None, "")),
        ChartFault::TooManyActions => Some((11, "more than 1024 actions", None, "")),
        ChartFault::TwiceEvent(e) => Some((6, "event ", Some(e), " repeats a message")),
        ChartFault::UnmatchedOut(e) => Some((7, "output ", Some(e), " has no input")),
        ChartFault::UnmatchedIn(e) => Some((8, "input ", Some(e), " has no output")),
        ChartFault::Cyclic(e) => Some((9, "event ", Some(e), " precedes itself")),
        ChartFault::Memory => None,
    }
}

/// Writes the line of a chart's fault by its number and its words.
fn write_numbered<W: Write>(
    writer: &mut W,
    number: u32,
    before: &str,
    at: Option<u32>,
    after: &str,
) -> io::Result<()>
    ensures { OnOk result (Appends (W.contents writer.old) (W.contents writer.new)
        (numbered number before.now at after.now)) }
{
    match at {
        Some(at) => writeln!(writer, "chart fault {number}: {before}{at}{after}"),
        None => writeln!(writer, "chart fault {number}: {before}{after}"),
    }
}

/// Writes the line of a chart's fault.
fn write_chart_fault<W: Write>(writer: &mut W, fault: ChartFault) -> io::Result<()>
    ensures { OnOk result (Appends (W.contents writer.old) (W.contents writer.new)
        (chart_fault_line fault)) }
{
    match chart_words(fault) {
        Some((number, before, at, after)) => write_numbered(writer, number, before, at, after),
        None => write_line(writer, "memory fault"),
    }
}

/// Writes the line of an instance that could not be started.
fn write_not_started<W: Write>(writer: &mut W, i: u32) -> io::Result<()>
    ensures { OnOk result (Appends (W.contents writer.old) (W.contents writer.new)
        (fault_line (Fault.NotStarted i))) }
{
    writeln!(writer, "run fault 1: instance {i} could not be started")
}

/// Writes the line of a fault. Only this call, [`crate::write_pair_fault`],
/// [`crate::write_mark_fault`], [`crate::write_instance_fault`] and [`crate::write_unroll_fault`]
/// word faults of charts.
pub fn write_fault<W: Write>(writer: &mut W, fault: &Fault) -> io::Result<()>
    ensures { OnOk result (Appends (W.contents writer.old) (W.contents writer.new)
        (fault_line fault.now)) }
{
    match *fault {
        Fault::Parse(ParseFault::Lex(fault)) => write_lexical(writer, fault),
        Fault::Parse(ParseFault::Unsupported(at, word)) => write_unsupported(writer, at, word),
        Fault::Parse(ParseFault::Expected(at, what)) => write_expected(writer, at, what),
        Fault::Parse(ParseFault::Memory) => write_line(writer, "memory fault"),
        Fault::Chart(fault) => write_chart_fault(writer, fault),
        Fault::NotStarted(i) => write_not_started(writer, i),
        Fault::Memory => write_line(writer, "memory fault"),
        Fault::Device => write_line(writer, "device fault"),
    }
}
