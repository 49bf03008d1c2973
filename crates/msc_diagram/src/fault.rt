//! The lines of faults of imports, and of marks.

ghost use Rattle.std.specs.Prelude.{[], ◌++◌, codes, OnOk};
ghost use Rattle.std.specs.Io.KnownBytes.{Appends};
ghost use Rattle.msc_import.specs.Importing.{seen};
ghost use Rattle.msc_diagram.specs.Faults.{accept_fault_line, import_fault_line, import_line};
ghost use Rattle.msc_diagram.specs.Faults.{import_refusal_line};
ghost use Rattle.msc_diagram.specs.Faults.{several_line};
ghost use Rattle.msc_report.specs.Texts.{text_line};

use msc_arrow_marks::Slip;
use msc_import::Refused;
use msc_mermaid::{Closer, Expectation, Head, ImportFault};
use msc_place::Position;
use msc_scenarios::SCENARIO_LIMIT;
use std::io;
use std::io::Write;

/// Writes the line of a fault with this number, at a place of the text.
fn write_at<W: Write>(writer: &mut W, number: u32, here: Position, words: &str) -> io::Result<()>
    ensures { OnOk result (Appends (W.contents writer.old) (W.contents writer.new)
        (import_line number here.line words.now)) }
{
    writeln!(writer, "import fault {number} at {}: {words}", here.line)
}

/// Writes the line for what was expected at a place of the text.
fn write_wanted<W: Write>(writer: &mut W, here: Position, what: Expectation) -> io::Result<()>
    ensures { OnOk result (Appends (W.contents writer.old) (W.contents writer.new)
        (import_fault_line (ImportFault.Expected here what) [])) }
{
    writeln!(writer, "import fault 2 at {}: expected {what}", here.line)
}

/// Writes the line of an arrow that is not supported.
fn write_untaken<W: Write>(writer: &mut W, here: Position, head: Head) -> io::Result<()>
    ensures { OnOk result (Appends (W.contents writer.old) (W.contents writer.new)
        (import_fault_line (ImportFault.Unsupported here head) [])) }
{
    writeln!(
        writer,
        "import fault 3 at {}: {head} is not supported",
        here.line
    )
}

/// Writes the line of a word outside its block.
fn write_outside<W: Write>(writer: &mut W, here: Position, word: Closer) -> io::Result<()>
    ensures { OnOk result (Appends (W.contents writer.old) (W.contents writer.new)
        (import_fault_line (ImportFault.Outside here word) [])) }
{
    writeln!(
        writer,
        "import fault 5 at {}: {word} outside of its block",
        here.line
    )
}

/// Writes the line of a diagram that has several scenarios: `count` of them, or more than are
/// counted.
fn write_several<W: Write>(writer: &mut W, count: usize) -> io::Result<()>
    ensures { OnOk result (Appends (W.contents writer.old) (W.contents writer.new)
        (several_line count)) }
{
    if count <= SCENARIO_LIMIT {
        return writeln!(writer, "import fault 12: {count} scenarios, say --choose");
    }
    writer.write_all(b"import fault 12: more than 4096 scenarios, say --choose\n")
}

/// Writes the line of a choice of a block at a place of the text that is greater than its last one.
fn write_choice<W: Write>(
    writer: &mut W,
    here: Position,
    choice: usize,
    most: usize,
) -> io::Result<()>
    ensures { OnOk result (Appends (W.contents writer.old) (W.contents writer.new)
        (import_fault_line (ImportFault.Choice here choice most) [])) }
{
    writeln!(
        writer,
        "import fault 13 at {}: choice {choice} is more than {most}",
        here.line
    )
}

/// Writes a name and the end of the line.
fn write_name<W: Write>(writer: &mut W, name: &[u8]) -> io::Result<()>
    ensures { OnOk result (Appends (W.contents writer.old) (W.contents writer.new)
        (text_line name.now)) }
{
    writer.write_all(name)?;
    writer.write_all(b"\n")
}

/// Writes the line of parallel branches at a place of the text that share a line of the diagram.
fn write_shared<W: Write>(writer: &mut W, here: Position, at: usize, name: &[u8]) -> io::Result<()>
    ensures { OnOk result (Appends (W.contents writer.old) (W.contents writer.new)
        (import_fault_line (ImportFault.Shared here at) name.now)) }
{
    writer.write_all(b"import fault 16 at ")?;
    write!(writer, "{}", here.line)?;
    writer.write_all(b": parallel branches share ")?;
    write_name(writer, name)
}

/// Writes what is not supported, and the end of the line.
fn write_unsupported<W: Write>(writer: &mut W, name: &[u8]) -> io::Result<()>
    ensures { OnOk result (Appends (W.contents writer.old) (W.contents writer.new)
        (name.now ++ text_line (codes " is not supported"))) }
{
    writer.write_all(name)?;
    writer.write_all(b" is not supported\n")
}

/// Writes the line of an entity of HTML.
fn write_entity<W: Write>(writer: &mut W, here: Position, name: &[u8]) -> io::Result<()>
    ensures { OnOk result (Appends (W.contents writer.old) (W.contents writer.new)
        (import_fault_line (ImportFault.Entity here) name.now)) }
{
    writer.write_all(b"import fault 3 at ")?;
    write!(writer, "{}", here.line)?;
    writer.write_all(b": ")?;
    write_unsupported(writer, name)
}

/// Writes the line of a fault of an import, and the name in it.
fn write_named<W: Write>(writer: &mut W, fault: ImportFault, name: &[u8]) -> io::Result<()>
    ensures { OnOk result (Appends (W.contents writer.old) (W.contents writer.new)
        (import_fault_line fault name.now)) }
{
    match fault {
        ImportFault::TooLong => {
            writer.write_all(b"import fault 1: text longer than 1048576 bytes\n")
        }
        ImportFault::Expected(here, what) => write_wanted(writer, here, what),
        ImportFault::Unsupported(here, head) => write_untaken(writer, here, head),
        ImportFault::Entity(here) => write_entity(writer, here, name),
        ImportFault::Unended(here) => write_at(writer, 4, here, "block without end"),
        ImportFault::Outside(here, word) => write_outside(writer, here, word),
        ImportFault::Stray(here) => {
            write_at(writer, 5, here, "sequenceDiagram outside of its block")
        }
        ImportFault::TooDeep(here) => {
            write_at(writer, 6, here, "more than 10 blocks inside each other")
        }
        ImportFault::TooManyLines(here) => { write_at(writer, 7, here, "more than 32 instances") }
        ImportFault::TooManyScenarios(limit) => {
            writeln!(writer, "import fault 11: more than {limit} scenarios")
        }
        ImportFault::Several(count) => write_several(writer, count),
        ImportFault::Choice(here, choice, most) => write_choice(writer, here, choice, most),
        ImportFault::TooManyChoices(given, met) => {
            writeln!(writer, "import fault 14: {given} choices for {met} blocks")
        }
        ImportFault::TooManyArrows(here) => { write_at(writer, 15, here, "more than 1024 arrows") }
        ImportFault::Shared(here, at) => write_shared(writer, here, at, name),
        ImportFault::NoDiagram(number) => {
            writeln!(writer, "import fault 17: no diagram {number}")
        }
        ImportFault::SeveralDiagrams(count) => {
            writeln!(writer, "import fault 20: {count} diagrams, say --fence")
        }
        ImportFault::Memory => writer.write_all(b"memory fault\n"),
    }
}

/// Writes the line of the fault for which a text is not imported.
pub fn write_import_fault<W: Write>(writer: &mut W, refused: &Refused) -> io::Result<()>
    ensures { OnOk result (Appends (W.contents writer.old) (W.contents writer.new)
        (import_refusal_line (seen refused.now))) }
{
    write_named(writer, refused.fault, refused.name.as_slice())
}

/// Writes the line of a faulty mark, on a line of the text.
pub fn write_accept_fault<W: Write>(writer: &mut W, slip: Slip, line: usize) -> io::Result<()>
    ensures { OnOk result (Appends (W.contents writer.old) (W.contents writer.new)
        (accept_fault_line slip line)) }
{
    match slip {
        Slip::Part => {
            writeln!(
                writer,
                "accept fault 1 at {line}: expected in, with or a reason"
            )
        }
        Slip::Reason => writeln!(writer, "accept fault 2 at {line}: no reason"),
        Slip::Label => {
            writeln!(
                writer,
                "accept fault 3 at {line}: a mark stands in a line of its own"
            )
        }
        Slip::Second => {
            writeln!(
                writer,
                "accept fault 4 at {line}: a second mark for one arrow"
            )
        }
    }
}
