//! What people call the lines and arrows of a diagram, and where the statements of arrows stand.

ghost use Rattle.std.specs.Prelude.{◌≡◌, ◌<◌, IfOk, length, map};
ghost use Rattle.std.specs.Option.{option_copied};
ghost use Rattle.std.specs.String.{string_bytes};
ghost use Rattle.msc_scenarios.specs.Steps.{is_loss, line_at};
ghost use Rattle.msc_shown_chart.specs.Words.{plain_words};
ghost use Rattle.msc_shown_diagram.specs.Words.{arrow_words, event_words, is_step, line_pair};
ghost use Rattle.msc_shown_diagram.specs.Words.{line_pairs, loses};
ghost use Rattle.msc_shown_diagram.specs.Words.{plain_arrow, plain_line, shown_name, to_of};
ghost use Rattle.msc_shown_diagram.specs.Words.{AreNamesSaid, AreWordsOf};

use crate::loops::loops_of;
use crate::span::bytes_at;
use listed::Listed;
use msc_mermaid::{Diagram, Fate, Placed, Span, Statement};
use msc_place::Position;
use msc_shown_chart::{EventWords, file_said, position_said};
use msc_speech::{LineName, label_said, line_names};
use std::alloc::{AllocError, Global};

/// The words of an arrow.
#[derive(Drop)]
pub struct ArrowWords {
    /// What its label is called, and where its statement stands.
    pub event: EventWords,
    /// The number of the line that it leads to.
    pub to: usize,
    /// Whether an action that stands for it is a lost message, and not a step.
    pub loses: bool,
}

/// The words of a diagram.
#[derive(Drop)]
pub struct DiagramWords {
    /// The name of the file, as people read it.
    pub file: String,
    /// What its lines are called.
    pub names: Vec<String>,
    /// The words of each statement, as if it were an arrow.
    pub arrows: Vec<ArrowWords>,
    /// The loops around each statement, outermost first, by the numbers of the statements that
    /// begin them.
    pub loops: Vec<Listed<usize>>,
}

/// Whether a statement is an arrow to the line that it comes from.
fn is_step(statement: &Statement) -> bool
    ensures { result ≡ is_step statement.now }
{
    match statement {
        Statement::Says(arrow) => arrow.from.as_slice() == arrow.to.as_slice(),
        Statement::Declares(_, _) | Statement::Begins(_) | Statement::Closes(_) => false,
    }
}

/// Whether an arrow of this fate is lost.
fn is_loss(fate: Fate) -> bool
    ensures { result ≡ is_loss fate }
{
    matches!(fate, Fate::Lost)
}

/// Whether an action that stands for this statement is a lost message.
fn loses(statement: &Statement) -> bool
    ensures { result ≡ loses statement.now }
{
    match statement {
        Statement::Says(arrow) => {
            is_loss(arrow.fate) || arrow.from.as_slice() != arrow.to.as_slice()
        }
        Statement::Declares(_, _) | Statement::Begins(_) | Statement::Closes(_) => false,
    }
}

/// The number of the line with this identifier.
fn line_at(lines: &[Listed<u8>], ident: &[u8]) -> usize
    ensures { result ≡ line_at lines.now ident.now }
{
    lines
        .iter()
        .take_while(|line| line.as_slice() != ident)
        .count()
}

/// The number of the line that a statement leads to, if it is an arrow.
fn to_of(lines: &[Listed<u8>], statement: &Statement) -> usize
    ensures { result ≡ to_of lines.now statement.now }
{
    match statement {
        Statement::Says(arrow) => line_at(lines, arrow.to.as_slice()),
        Statement::Declares(_, _) | Statement::Begins(_) | Statement::Closes(_) => 0,
    }
}

/// What the label of a statement is called, and where it stands; `file` is the name of its file as
/// people read it.
fn event_words(
    alloc: Global,
    file: &str,
    text: &[u8],
    placed: &Placed,
) -> Result<EventWords, AllocError>
    ensures { IfOk result (λ words. plain_words words
        ≡ event_words file.now text.now placed.now) }
{
    let label = bytes_at(text, placed.shown);
    let step = is_step(&placed.statement);
    let message = label_said(alloc, label, step, placed.line)?;
    let position = Position {
        line: placed.line,
        column: placed.column,
    };
    let place = position_said(alloc, file, position)?;
    Ok(EventWords {
        message,
        place,
        first: placed.whole.first,
        past: placed.whole.past,
        line: placed.line,
    })
}

/// The words of a statement of a diagram with these lines.
fn arrow_words(
    alloc: Global,
    file: &str,
    text: &[u8],
    lines: &[Listed<u8>],
    placed: &Placed,
) -> Result<ArrowWords, AllocError>
    ensures { IfOk result (λ words. plain_arrow words
        ≡ arrow_words file.now text.now lines.now placed.now) }
{
    let event = event_words(alloc, file, text, placed)?;
    Ok(ArrowWords {
        event,
        to: to_of(lines, &placed.statement),
        loses: loses(&placed.statement),
    })
}

/// The words of these statements of a diagram with these lines.
fn all_words(
    alloc: Global,
    file: &str,
    text: &[u8],
    lines: &[Listed<u8>],
    statements: &[Placed],
) -> Result<Vec<ArrowWords>, AllocError>
    ensures { IfOk result (λ words. map plain_arrow words.items
        ≡ map (arrow_words file.now text.now lines.now) statements.now) }
{
    let mut all = Vec::new(alloc);
    for placed in statements {
        all.push(arrow_words(alloc, file, text, lines, placed)?)?;
    }
    Ok(all)
}

/// The shown name of a line, if it has one at these places of a text.
fn shown_name<'t>(text: &'t [u8], shown: &[Option<Span>], line: usize) -> Option<&'t [u8]>
    ensures { option_copied result ≡ shown_name text.entry.now shown.now line }
{
    match shown.get(line) {
        Some(Some(span)) => Some(bytes_at(text, *span)),
        Some(None) | None => None,
    }
}

/// Line `i` of a diagram, as it stands in the text.
fn line_name<'t>(
    text: &'t [u8],
    lines: &'t [Listed<u8>],
    shown: &[Option<Span>],
    i: usize,
) -> LineName<'t>
    requires { i < length lines.now }
    ensures { plain_line result ≡ line_pair text.entry.now shown.now lines.entry.now i }
{
    LineName {
        ident: lines[i].as_slice(),
        shown: shown_name(text, shown, i),
    }
}

/// The lines of a diagram, as they stand in the text.
fn lines_in<'t>(
    alloc: Global,
    text: &'t [u8],
    lines: &'t [Listed<u8>],
    shown: &[Option<Span>],
) -> Result<Vec<LineName<'t>>, AllocError>
    ensures { IfOk result (λ names. map plain_line names.items
        ≡ line_pairs text.entry.now shown.now lines.entry.now) }
{
    let mut names = Vec::new(alloc);
    for i in 0..lines.len() {
        names.push(line_name(text, lines, shown, i))?;
    }
    Ok(names)
}

/// What the lines of a diagram are called.
fn names_said(
    alloc: Global,
    text: &[u8],
    lines: &[Listed<u8>],
    shown: &[Option<Span>],
) -> Result<Vec<String>, AllocError>
    ensures { IfOk result (λ names.
        AreNamesSaid text.now shown.now lines.now (map string_bytes names.items)) }
{
    let found = lines_in(alloc, text, lines, shown)?;
    let names = line_names(alloc, found.as_slice())?;
    Ok(names)
}

impl DiagramWords {
    /// The words of a diagram in this text, which stands in the file of this name. `shown` are the
    /// places of the first shown names of its lines, if they have some. The only error is want of
    /// memory.
    pub fn of(
        alloc: Global,
        diagram: &Diagram,
        shown: &[Option<Span>],
        file: &[u8],
        text: &[u8],
    ) -> Result<DiagramWords, AllocError>
        ensures { IfOk result (AreWordsOf diagram.now shown.now file.now text.now) }
    {
        let file = file_said(alloc, file)?;
        let lines = diagram.lines.as_slice();
        let names = names_said(alloc, text, lines, shown)?;
        let statements = diagram.statements.as_slice();
        let arrows = all_words(alloc, file.as_str(), text, lines, statements)?;
        let loops = loops_of(alloc, statements)?;
        Ok(DiagramWords {
            file,
            names,
            arrows,
            loops,
        })
    }
}
