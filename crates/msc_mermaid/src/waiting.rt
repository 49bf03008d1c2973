//! Statements with a configuration over several lines.

ghost use Rattle.std.specs.Prelude.{◌≡◌, ◌≤◌, ◌+◌, length, map, IfOk};
ghost use Rattle.msc_mermaid.specs.Cutting.{room};
ghost use Rattle.msc_mermaid.specs.Mermaid.{configured_as, ended_on, gone_on, put_off_said};
ghost use Rattle.msc_mermaid.specs.Mermaid.{line_kind_of, text_within};
ghost use Rattle.msc_mermaid.specs.Names.{leaves_config};
ghost use Rattle.msc_mermaid.specs.Reading.{Leaves, gap, lengthened, none_waiting};
ghost use Rattle.msc_mermaid.specs.Saying.{is_declaration, is_unended};
ghost use Rattle.msc_mermaid.specs.White.{trimmed};

use crate::cutting::cut;
use crate::fault::ImportFault;
use crate::key::Mark;
use crate::line_kind::{LineKind, line_kind_of, undirected};
use crate::lines::{Row, further};
use crate::name::is_name;
use crate::progress::{Inside, Progress, first};
use crate::reading::StatementStart;
use crate::row::{Meaning, meaning_of};
use crate::seeking::{Sought, holds};
use crate::statement::Cross;
use crate::white::trimmed;
use msc_place::Position;
use std::alloc::{AllocError, Global};
use std::marker::Model;

/// A statement with a configuration that has no end yet: its beginning, and its bytes so far.
#[derive(Drop)]
pub(crate) struct Waiting {
    pub spot: StatementStart,
    bytes: Vec<u8>,
}

impl Model for Waiting {
    ghost use Rattle.msc_mermaid.specs.Reading.{Waiting};

    ghost Value = { Waiting };

    ghost view = { λ o. record { spot = o.spot; bytes = o.bytes.items } };
}

impl Waiting {
    /// No such statement.
    pub(crate) fn new(alloc: Global) -> Self
        ensures { result ≡ none_waiting }
    {
        Waiting {
            spot: StatementStart {
                here: Position { line: 1, column: 1 },
                first: 0,
            },
            bytes: Vec::new(alloc),
        }
    }

    /// The statement with this beginning and these bytes.
    pub(crate) fn of(alloc: Global, spot: StatementStart, bytes: &[u8]) -> Result<Self, AllocError>
        ensures { IfOk result (λ o. o ≡ record { spot = spot; bytes = bytes.now }) }
    {
        let bytes = Vec::from_slice(alloc, bytes)?;
        Ok(Waiting { spot, bytes })
    }

    /// The number of bytes of the text between the bytes so far and a line that begins here: at
    /// least one.
    fn gap(&self, start: usize) -> usize
        ensures { result ≡ gap start self.now }
    {
        let between = start.saturating_sub(further(self.spot.first, self.bytes.len()));
        if between == 0 { 1 } else { between }
    }

    /// Adds these bytes of a further line, which begins here, after a comma for each byte of the
    /// text between. So a value in a configuration ends with its line, and all later bytes are as
    /// far from the beginning as in the text.
    fn lengthen(&mut self, alloc: Global, start: usize, more: &[u8]) -> Result<(), AllocError>
        ensures { IfOk result (λ _. self.new ≡ lengthened start more.now self.old) }
    {
        let commas = vec![in alloc; b','; self.gap(start)]?;
        self.bytes.extend_from_slice(commas.as_slice())?;
        self.bytes.extend_from_slice(more)
    }

    /// Its bytes so far, without white space at their ends.
    fn text(&self) -> &[u8]
        ensures { result.now ≡ trimmed self.now.bytes }
    {
        trimmed(self.bytes.as_slice())
    }
}

/// Whether the line that is declared here has a name, and a configuration without an end.
fn leaves_config(bytes: &[u8]) -> bool
    ensures { result ≡ leaves_config bytes.now }
{
    let at = Sought::Text(Mark::Config).before(bytes);
    at < Sought::Alias.before(bytes)
        && is_name(trimmed(&bytes[..at]))
        && !holds(
            Mark::Config.behind(&bytes[at..]),
            Sought::Text(Mark::DescriptionEnd),
        )
}

/// Whether it declares a line.
fn is_declaration(meaning: Meaning) -> bool
    ensures { result ≡ is_declaration meaning }
{
    matches!(meaning, Meaning::Declaration)
}

/// Whether a statement declares a line with a configuration that has no end.
pub(crate) fn is_unended(bytes: &[u8]) -> bool
    ensures { result ≡ is_unended bytes.now }
{
    let (meaning, rest) = meaning_of(bytes);
    is_declaration(meaning) && leaves_config(rest)
}

impl Progress {
    /// Adds these bytes of a further line to the open statement.
    fn go_on(&mut self, alloc: Global, more: &[u8]) -> Result<(), AllocError>
        ensures { IfOk result (λ _. self.new ≡ gone_on more.now self.old) }
    {
        self.waiting.lengthen(alloc, self.start, more)
    }

    /// Reads the statement whose configuration was open.
    #[tactic(auto, unfolding(crate::specs::Mermaid::stated))]
    fn put_off_said(&mut self, alloc: Global, cross: Option<Cross>) -> Result<(), ImportFault>
        ensures { Leaves result self.new (put_off_said cross self.old) }
    {
        let spot = self.waiting.spot;
        let text = self.waiting.text();
        self.reader.read_one(alloc, cross, spot, text)?;
        self.inside = Inside::Nothing;
        Ok(())
    }

    /// Reads a line in which a configuration ends, after this number of its bytes. Its pieces from
    /// there on are these: the first is the end of the statement.
    #[tactic(auto, unfolding(crate::specs::Mermaid::ended_on))]
    fn ended_on(
        &mut self,
        alloc: Global,
        cross: Option<Cross>,
        line: usize,
        bytes: &[u8],
        at: usize,
        pieces: &[&[u8]],
    ) -> Result<(), ImportFault>
        requires { at + room (map (λ x. x.now) pieces.now) ≤ length bytes.now + 1 }
        ensures { Leaves result self.new
            (ended_on cross line bytes.now at (map (λ x. x.now) pieces.now) self.old) }
    {
        match pieces {
            [] => Ok(()),
            [piece, others @ ..] => {
                self.go_on(alloc, first(bytes, at + piece.len()))?;
                self.put_off_said(alloc, cross)?;
                self.read_pieces(alloc, cross, line, bytes, at + (piece.len() + 1), others)
            }
        }
    }

    /// Reads a line of text within a configuration: it ends there, or continues.
    #[tactic(auto, unfolding(crate::specs::Mermaid::text_within))]
    fn text_within(
        &mut self,
        alloc: Global,
        cross: Option<Cross>,
        line: usize,
        bytes: &[u8],
    ) -> Result<(), ImportFault>
        ensures { Leaves result self.new (text_within cross line bytes.now self.old) }
    {
        undirected(Row { line, bytes }, bytes)?;
        let at = Sought::Text(Mark::DescriptionEnd).before(bytes);
        if at < bytes.len() {
            let pieces = cut(alloc, &bytes[at..])?;
            return self.ended_on(alloc, cross, line, bytes, at, pieces.as_slice());
        }
        self.go_on(alloc, bytes)?;
        Ok(())
    }

    /// Reads a line within a configuration.
    #[tactic(auto, unfolding(crate::specs::Mermaid::configured_as))]
    pub(crate) fn configured(
        &mut self,
        alloc: Global,
        cross: Option<Cross>,
        line: usize,
        bytes: &[u8],
    ) -> Result<(), ImportFault>
        ensures { Leaves result self.new
            (configured_as cross line bytes.now self.old (line_kind_of (trimmed bytes.now))) }
    {
        match line_kind_of(trimmed(bytes)) {
            LineKind::Nothing | LineKind::Directive | LineKind::Comment => self.described(
                line, bytes,
            ),
            LineKind::Head | LineKind::Other => self.text_within(alloc, cross, line, bytes),
        }
    }
}
