//! The lines of a diagram and its open blocks, statement by statement.

ghost use Rattle.std.specs.Prelude.{◌≡◌};
ghost use Rattle.msc_mermaid.specs.Gives.{Gives};
ghost use Rattle.msc_mermaid.specs.Outlines.{blank, finished, innermost, is_known, laid, meets, suits};
ghost use Rattle.msc_mermaid.specs.Outlines.{span_of, suits_last};
ghost use Rattle.msc_mermaid.specs.Reading.{Leaves};

use crate::fault::ImportFault;
use crate::lines::further;
use crate::row::{Closer, Kind};
use crate::statement::{Span, Statement};
use crate::{DEPTH_LIMIT, LINE_LIMIT};
use listed::Listed;
use msc_place::Position;
use std::alloc::Global;
use std::marker::Model;

/// An open block, and the position at which it begins.
#[derive(Clone, Copy)]
pub(crate) struct Opened {
    pub kind: Kind,
    pub start: Position,
}

/// The lines in the order in which they are declared or used first, the place in the text at which
/// each of them is named first, and the open blocks, the innermost one last.
#[derive(Drop)]
pub(crate) struct Outline {
    lines: Vec<Listed<u8>>,
    names: Vec<Span>,
    opened: Vec<Opened>,
}

impl Model for Outline {
    ghost use Rattle.msc_mermaid.specs.Outlines.{Outline as Laid};

    ghost Value = { Laid };

    ghost view = { λ o.
        record { lines = o.lines.items; names = o.names.items; opened = o.opened.items } };
}

/// `count` bytes of a text, from byte `first` on.
pub(crate) fn span_of(first: usize, count: usize) -> Span
    ensures { result ≡ span_of first count }
{
    Span {
        first,
        past: further(first, count),
    }
}

/// Whether the line is known.
fn is_known(lines: &[Listed<u8>], ident: &[u8]) -> bool
    ensures { result ≡ is_known lines.now ident.now }
{
    lines.iter().any(|line| line.as_slice() == ident)
}

impl Closer {
    /// Whether it begins a branch of a block of this kind, or ends the block.
    fn suits(self, kind: Kind) -> bool
        ensures { result ≡ suits self kind }
    {
        matches!(
            (self, kind),
            (Closer::Else, Kind::Alt)
                | (Closer::And, Kind::Par)
                | (Closer::Option, Kind::Critical)
                | (Closer::End, _)
        )
    }
}

/// Whether the word begins a branch of the innermost block, or ends the block.
fn suits_last(closer: Closer, opened: &[Opened]) -> bool
    ensures { result ≡ suits_last closer (innermost opened.now) }
{
    match opened.last() {
        None => false,
        Some(block) => closer.suits(block.kind),
    }
}

impl Outline {
    /// The state before any statement.
    pub(crate) fn new(alloc: Global) -> Self
        ensures { result ≡ blank }
    {
        Outline {
            lines: Vec::new(alloc),
            names: Vec::new(alloc),
            opened: Vec::new(alloc),
        }
    }

    /// Meets a line, which the statement at this position names from this byte of the text on.
    #[tactic(auto, unfolding(crate::specs::Outlines::meets, crate::specs::Outlines::met))]
    fn meet(
        &mut self,
        alloc: Global,
        here: Position,
        ident: &[u8],
        first: usize,
    ) -> Result<(), ImportFault>
        ensures { Leaves result self.new (meets here ident.now first self.old) }
    {
        if is_known(self.lines.as_slice(), ident) {
            return Ok(());
        }
        if self.lines.len() >= LINE_LIMIT {
            return Err(ImportFault::TooManyLines(here));
        }
        let name = span_of(first, ident.len());
        let ident = Listed::from_vec(Vec::from_slice(alloc, ident)?);
        self.lines.push(ident)?;
        self.names.push(name)?;
        Ok(())
    }

    /// Begins a block.
    #[tactic(auto, unfolding(crate::specs::Outlines::laid))]
    fn begin(&mut self, here: Position, kind: Kind) -> Result<(), ImportFault>
        ensures { Leaves result self.new (laid here 0 0 (Statement.Begins kind) self.old) }
    {
        if self.opened.len() >= DEPTH_LIMIT {
            return Err(ImportFault::TooDeep(here));
        }
        self.opened.push(Opened { kind, start: here })?;
        Ok(())
    }

    /// Begins a branch of a block, or ends the block.
    #[tactic(auto, unfolding(crate::specs::Outlines::laid))]
    fn close(&mut self, here: Position, closer: Closer) -> Result<(), ImportFault>
        ensures { Leaves result self.new (laid here 0 0 (Statement.Closes closer) self.old) }
    {
        if !suits_last(closer, self.opened.as_slice()) {
            return Err(ImportFault::Outside(here, closer));
        }
        if matches!(closer, Closer::End) {
            let _ended = self.opened.pop();
        }
        Ok(())
    }

    /// Takes in a statement, which begins at this position and this byte of the text. The other
    /// byte is the first of the name of the line that it declares, or of its arrow's receiver.
    #[tactic(auto, unfolding(crate::specs::Outlines::laid))]
    pub(crate) fn lay(
        &mut self,
        alloc: Global,
        here: Position,
        first: usize,
        name: usize,
        statement: &Statement,
    ) -> Result<(), ImportFault>
        ensures { Leaves result self.new (laid here first name statement.now self.old) }
    {
        match statement {
            Statement::Declares(ident, _) => self.meet(alloc, here, ident.as_slice(), name),
            Statement::Says(arrow) => {
                self.meet(alloc, here, arrow.from.as_slice(), first)?;
                self.meet(alloc, here, arrow.to.as_slice(), name)
            }
            Statement::Begins(kind) => self.begin(here, *kind),
            Statement::Closes(closer) => self.close(here, *closer),
        }
    }

    /// The lines, and the place at which each is named first, if no block is open.
    #[tactic(auto, unfolding(crate::specs::Outlines::finished))]
    pub(crate) fn finish(self) -> Result<(Listed<Listed<u8>>, Listed<Span>), ImportFault>
        ensures { Gives (λ x. x) result (finished self) }
    {
        let Outline {
            lines,
            names,
            opened,
        } = self;
        if let Some(block) = opened.last() {
            return Err(ImportFault::Unended(block.start));
        }
        Ok((Listed::from_vec(lines), Listed::from_vec(names)))
    }
}
