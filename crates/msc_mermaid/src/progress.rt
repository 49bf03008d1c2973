//! How far a Mermaid text was read, and the pieces of its lines.

ghost use Rattle.std.specs.Prelude.{◌≡◌, ◌≤◌, ◌+◌, drop, length, map, take, IfOk};
ghost use Rattle.msc_mermaid.specs.Cutting.{room};
ghost use Rattle.msc_mermaid.specs.Mermaid.{commented, goes_on, left_out, read_piece, read_pieces};
ghost use Rattle.msc_mermaid.specs.Mermaid.{is_last, piece_said, put_off, said_on, statement};
ghost use Rattle.msc_mermaid.specs.Mermaid.{stated, titled};
ghost use Rattle.msc_mermaid.specs.Reading.{Leaves};

use crate::cutting::{cut, leaves_open};
use crate::fault::{Expectation, ImportFault};
use crate::key::Mark;
use crate::line_kind::{closed, is_commented, undirected};
use crate::lines::{Row, counted, further};
use crate::outline::span_of;
use crate::pattern::{Pattern, first_fit};
use crate::reading::{Reader, StatementStart};
use crate::seeking::Sought;
use crate::statement::Cross;
use crate::waiting::{Waiting, is_unended};
use crate::white::{behind_white, trimmed, white_in_front};
use msc_place::Position;
use std::alloc::{AllocError, Global};

/// The part of a text that a line, or the next piece of one, continues.
#[derive(Clone, Copy)]
pub(crate) enum Inside {
    /// Nothing: all lines so far are empty.
    Start,
    /// Nothing that is left out.
    Nothing,
    /// The front matter before the diagram.
    Front,
    /// A directive.
    Directive,
    /// A description.
    Description,
    /// A configuration over several lines.
    Configuration,
    /// The rest of a line, which is left out.
    Rest,
}

impl Inside {
    /// Whether the line continues.
    fn goes_on(self) -> bool
        ensures { result ≡ goes_on self }
    {
        matches!(self, Inside::Nothing)
    }
}

/// How far a text was read, and the number of bytes of the text before the line that is read.
#[derive(Drop)]
pub(crate) struct Progress {
    pub start: usize,
    pub inside: Inside,
    pub begun: bool,
    pub reader: Reader,
    pub waiting: Waiting,
}

/// The first `count` bytes.
pub(crate) fn first(bytes: &[u8], count: usize) -> &[u8]
    ensures { result.now ≡ take count bytes.now }
{
    if count < bytes.len() {
        &bytes[..count]
    } else {
        bytes
    }
}

/// The bytes after the first `count`.
fn behind(bytes: &[u8], count: usize) -> &[u8]
    ensures { result.now ≡ drop count bytes.now }
{
    if count > bytes.len() {
        return &[];
    }
    &bytes[count..]
}

/// Whether a piece is the last of its line, the rest of which, from the piece on and without white
/// space at the front, is this.
fn is_last(rest: &[u8], piece: &[u8]) -> bool
    ensures { result ≡ is_last rest.now piece.now }
{
    rest.len() == behind_white(piece).len()
}

impl Progress {
    /// Skips a part that is left out, up to this mark: the rest of a line, if it ends here.
    #[tactic(auto, unfolding(crate::specs::Mermaid::left_out))]
    pub(crate) fn left_out(
        &mut self,
        row: Row,
        part: Inside,
        mark: Mark,
        bytes: &[u8],
    ) -> Result<(), ImportFault>
        ensures { Leaves result self.new
            (left_out row.entry.line row.entry.bytes.now part mark bytes.now self.old) }
    {
        self.inside = if closed(row, mark, bytes)? {
            Inside::Rest
        } else {
            part
        };
        Ok(())
    }

    /// Lists a comment, which takes the end of a line, these bytes: a directive in it has to end in
    /// it.
    pub(crate) fn commented(&mut self, row: Row, bytes: &[u8]) -> Result<(), ImportFault>
        ensures { Leaves result self.new
            (commented row.entry.line row.entry.bytes.now bytes.now self.old) }
    {
        if leaves_open(bytes) {
            let end = row.position_of(&[]);
            return Err(ImportFault::Expected(end, Expectation::Directive));
        }
        let before = row.bytes.len().saturating_sub(behind_white(bytes).len());
        let first = further(self.start, before);
        self.reader
            .list_comment(span_of(first, trimmed(bytes).len()))?;
        Ok(())
    }

    /// Skips a title or a description in one line, which begins here: it may not be empty, and
    /// takes the rest of the line.
    #[tactic(auto, unfolding(crate::specs::Mermaid::titled))]
    fn titled(&mut self, here: Position, text: &[u8]) -> Result<(), ImportFault>
        ensures { Leaves result self.new (titled here text.now self.old) }
    {
        if trimmed(text).is_empty() {
            return Err(ImportFault::Expected(here, Expectation::Statement));
        }
        self.inside = Inside::Rest;
        Ok(())
    }

    /// Reads a statement at this position; the next one follows it in this part of the text.
    #[tactic(auto, unfolding(crate::specs::Mermaid::stated))]
    pub(crate) fn stated(
        &mut self,
        alloc: Global,
        cross: Option<Cross>,
        spot: StatementStart,
        bytes: &[u8],
        part: Inside,
    ) -> Result<(), ImportFault>
        ensures { Leaves result self.new (stated cross spot bytes.now part self.old) }
    {
        self.reader.read_one(alloc, cross, spot, bytes)?;
        self.inside = part;
        Ok(())
    }

    /// Reads a statement, with a comment or without.
    #[tactic(auto, unfolding(crate::specs::Mermaid::statement))]
    fn statement(
        &mut self,
        alloc: Global,
        cross: Option<Cross>,
        spot: StatementStart,
        bytes: &[u8],
    ) -> Result<(), ImportFault>
        ensures { Leaves result self.new (statement cross spot bytes.now self.old) }
    {
        if is_commented(bytes) {
            let own = trimmed(&bytes[..Sought::Text(Mark::Comment).before(bytes)]);
            return self.stated(alloc, cross, spot, own, Inside::Rest);
        }
        let part = self.inside;
        self.stated(alloc, cross, spot, bytes, part)
    }

    /// Waits for the further lines of a statement, which begins here.
    fn put_off(
        &mut self,
        alloc: Global,
        spot: StatementStart,
        bytes: &[u8],
    ) -> Result<(), AllocError>
        ensures { IfOk result (λ _. self.new ≡ put_off spot bytes.now self.old) }
    {
        self.waiting = Waiting::of(alloc, spot, bytes)?;
        self.inside = Inside::Configuration;
        Ok(())
    }

    /// Reads a piece of a line that is a statement, or the first line of one whose configuration
    /// continues on further lines.
    #[tactic(auto, unfolding(crate::specs::Mermaid::piece_said))]
    fn said(
        &mut self,
        alloc: Global,
        cross: Option<Cross>,
        spot: StatementStart,
        rest: &[u8],
        piece: &[u8],
    ) -> Result<(), ImportFault>
        ensures { Leaves result self.new (piece_said cross spot rest.now piece.now self.old) }
    {
        let own = trimmed(piece);
        if is_last(rest, piece) && is_unended(own) {
            self.put_off(alloc, spot, own)?;
            return Ok(());
        }
        self.statement(alloc, cross, spot, own)
    }

    /// Reads the next piece of a line of these bytes, which begins here; `rest` is the line from
    /// the piece on.
    #[tactic(auto, unfolding(crate::specs::Mermaid::read_piece))]
    fn read_piece(
        &mut self,
        alloc: Global,
        cross: Option<Cross>,
        whole: &[u8],
        spot: StatementStart,
        rest: &[u8],
        piece: &[u8],
    ) -> Result<(), ImportFault>
        ensures { Leaves result self.new
            (read_piece cross whole.now spot rest.now piece.now self.old) }
    {
        if !self.inside.goes_on() {
            return Ok(());
        }
        let here = behind_white(rest);
        if let Some(text) = first_fit(&[Pattern::AccTitle, Pattern::AccDescr], here) {
            return self.titled(spot.here, text);
        }
        if let Some(text) = first_fit(&[Pattern::AccBlock], here) {
            let row = Row {
                line: spot.here.line,
                bytes: whole,
            };
            return self.left_out(row, Inside::Description, Mark::DescriptionEnd, text);
        }
        if Mark::Comment.begins(here) {
            self.inside = Inside::Rest;
            return Ok(());
        }
        self.said(alloc, cross, spot, here, piece)
    }

    /// Reads the pieces of a line, the first of which begins after this number of its bytes.
    pub(crate) fn read_pieces(
        &mut self,
        alloc: Global,
        cross: Option<Cross>,
        line: usize,
        bytes: &[u8],
        start: usize,
        pieces: &[&[u8]],
    ) -> Result<(), ImportFault>
        requires { start + room (map (λ x. x.now) pieces.now) ≤ length bytes.now + 1 }
        ensures { Leaves result self.new
            (read_pieces cross line bytes.now start (map (λ x. x.now) pieces.now) self.old) }
    {
        let mut at = start;
        let mut column = counted(first(bytes, start)) + 1;
        for piece in pieces {
            let rest = behind(bytes, at);
            let white = white_in_front(piece);
            let own = column + counted(first(rest, white));
            let begin = at + white;
            let spot = StatementStart {
                here: Position { line, column: own },
                first: further(self.start, begin),
            };
            self.read_piece(alloc, cross, bytes, spot, rest, piece)?;
            let passed = first(rest, piece.len() + 1);
            column += counted(passed);
            at += piece.len() + 1;
        }
        Ok(())
    }

    /// Reads the statements of a line, after this number of its bytes.
    #[tactic(auto, unfolding(crate::specs::Mermaid::said_on))]
    pub(crate) fn said_on(
        &mut self,
        alloc: Global,
        cross: Option<Cross>,
        line: usize,
        bytes: &[u8],
        at: usize,
    ) -> Result<(), ImportFault>
        requires { at ≤ length bytes.now }
        ensures { Leaves result self.new (said_on cross line bytes.now at self.old) }
    {
        let rest = &bytes[at..];
        undirected(Row { line, bytes }, rest)?;
        let pieces = cut(alloc, rest)?;
        self.read_pieces(alloc, cross, line, bytes, at, pieces.as_slice())
    }
}
