//! The faults of rules for links, and of comments that are to name queues.

ghost use Rattle.std.specs.Prelude.{◌≡◌, ◌++◌, ◌∷◌, [], OnOk};
ghost use Rattle.std.specs.Io.KnownBytes.{Appends};
ghost use Rattle.msc_place.specs.Excerpts.{row_of, shown};
ghost use Rattle.msc_report.specs.Texts.{each_shown, link_fault_line, queues_fault_line, shown_in};

use msc_links::LinkFault;
use msc_place::writing::write_file;
use std::io;
use std::io::Write;

/// Whose rules for links are faulty.
#[derive(Clone, Copy, Debug, PartialEq, Eq)]
pub enum RulesOf {
    /// Those of a command line: their bytes are shown as those of a file's name.
    CommandLine,
    /// Those of a text: their bytes are shown as an excerpt of the text shows them.
    Text,
}

/// The byte that an excerpt shows for a byte: itself, a blank for a tab, and `?` for a byte that
/// can't be printed.
fn shown(byte: u8) -> u8
    ensures { result ≡ shown byte }
{
    match byte {
        b'\t' => b' ',
        b' '..=b'~' => byte,
        _ => b'?',
    }
}

/// Writes what an excerpt shows for a byte: nothing for a continuation byte of UTF-8.
fn write_shown<W: Write>(writer: &mut W, byte: u8) -> io::Result<()>
    ensures { OnOk result (Appends (W.contents writer.old) (W.contents writer.new)
        (row_of (byte ∷ []))) }
{
    if byte < 128 || byte > 191 {
        return writer.write_all(&[shown(byte)]);
    }
    Ok(())
}

/// Writes bytes of a text as an excerpt shows them.
fn write_row<W: Write>(writer: &mut W, row: &[u8]) -> io::Result<()>
    ensures { OnOk result (Appends (W.contents writer.old) (W.contents writer.new)
        (each_shown row.now)) }
{
    for byte in row {
        write_shown(writer, *byte)?;
    }
    Ok(())
}

/// Writes bytes of a rule.
fn write_rule<W: Write>(writer: &mut W, rules: RulesOf, bytes: &[u8]) -> io::Result<()>
    ensures { OnOk result (Appends (W.contents writer.old) (W.contents writer.new)
        (shown_in rules bytes.now)) }
{
    match rules {
        RulesOf::CommandLine => write_file(writer, bytes),
        RulesOf::Text => write_row(writer, bytes),
    }
}

/// Writes bytes of a rule between others.
fn write_between<W: Write>(
    writer: &mut W,
    rules: RulesOf,
    before: &[u8],
    bytes: &[u8],
    after: &[u8],
) -> io::Result<()>
    ensures { OnOk result (Appends (W.contents writer.old) (W.contents writer.new)
        (before.now ++ (shown_in rules bytes.now ++ after.now))) }
{
    writer.write_all(before)?;
    write_rule(writer, rules, bytes)?;
    writer.write_all(after)
}

/// Writes the line of the fault of a rule for links. A byte that can't be printed is written as a
/// question mark.
pub fn write_link_fault<W: Write>(
    writer: &mut W,
    rules: RulesOf,
    fault: LinkFault<'_>,
) -> io::Result<()>
    ensures { OnOk result (Appends (W.contents writer.old) (W.contents writer.new)
        (link_fault_line rules fault.entry)) }
{
    match fault {
        LinkFault::NoLink(link) => {
            write_between(writer, rules, b"link fault 1: ", link, b" is no link\n")
        }
        LinkFault::NoInstance(name) => {
            write_between(writer, rules, b"link fault 2: no instance ", name, b"\n")
        }
        LinkFault::TwoKinds(link) => {
            write_between(writer, rules, b"link fault 3: ", link, b" has two kinds\n")
        }
    }
}

/// Writes that the comment with this number cannot be read, in which a text is to name its queues.
pub fn write_queues_fault<W: Write>(writer: &mut W, number: usize) -> io::Result<()>
    ensures { OnOk result (Appends (W.contents writer.old) (W.contents writer.new)
        (queues_fault_line number)) }
{
    writeln!(writer, "link fault 4 at {number}: queues expected")
}
