//! A diagram in a part of a text: some of its lines, or the parts of them that belong to the
//! diagram.

ghost use Rattle.std.specs.Prelude.{◌≡◌, IfOk, map};
ghost use Rattle.msc_mermaid.specs.Gives.{Gives};
ghost use Rattle.msc_mermaid.specs.Parts.{blanked, entity_place, first_place, has_entity, is_said};
ghost use Rattle.msc_mermaid.specs.Parts.{may_say, part_start, part_step, place_in, said_of};
ghost use Rattle.msc_mermaid.specs.Parts.{steps_of};
ghost use Rattle.msc_mermaid.specs.Parts.{stretch};
ghost use Rattle.msc_mermaid.specs.Reading.{Leaves};

use crate::fault::ImportFault;
use crate::key::Mark;
use crate::line_kind::{LineKind, line_kind_of};
use crate::lines::{Row, further, start_on};
use crate::progress::{Inside, Progress};
use crate::reading::Reader;
use crate::seeking::{Sought, from_entity, holds};
use crate::statement::{Cross, Diagram};
use crate::waiting::Waiting;
use crate::white::{behind_white, is_white, trimmed};
use msc_place::Position;
use std::alloc::{AllocError, Global};

/// The part of the line of a number, from 1, that belongs to a diagram, and the numbers of columns
/// and of bytes of the line before it.
#[derive(Clone, Copy, Debug)]
pub struct LinePart<'t> {
    pub line: usize,
    pub before: usize,
    pub skipped: usize,
    pub bytes: &'t [u8],
}

/// The line of a part, with blanks for the columns before it.
fn line_of(alloc: Global, part: LinePart<'_>) -> Result<Vec<u8>, AllocError>
    ensures { IfOk result (λ v. v.items ≡ blanked (stretch part.entry)) }
{
    let mut line = vec![in alloc; b' '; part.before]?;
    line.extend_from_slice(part.bytes)?;
    Ok(line)
}

/// The place at which the line of a part would begin with these blanks, in a text whose lines begin
/// at these places.
fn part_start(starts: &[usize], part: LinePart<'_>) -> usize
    ensures { result ≡ part_start starts.now (stretch part.entry) }
{
    let more = part.skipped.saturating_sub(part.before);
    further(start_on(starts, part.line), more)
}

/// The position of the first byte of a part that is no white space.
fn place_in(alloc: Global, part: LinePart<'_>) -> Result<Position, AllocError>
    ensures { IfOk result (λ p. p ≡ place_in (stretch part.entry)) }
{
    let line = line_of(alloc, part)?;
    let row = Row {
        line: part.line,
        bytes: line.as_slice(),
    };
    Ok(row.position_of(behind_white(line.as_slice())))
}

/// The position of the first byte that is no white space in parts of lines of a text, or the end of
/// the text if there is none. The only error is that memory ran out.
pub fn first_place(
    alloc: Global,
    parts: &[LinePart<'_>],
    end: Position,
) -> Result<Position, AllocError>
    ensures { IfOk result (λ p. p ≡ first_place (map stretch parts.now) end) }
{
    for i in 0..parts.len() {
        if !is_white(parts[i].bytes) {
            return place_in(alloc, parts[i]);
        }
    }
    Ok(end)
}

/// Whether a line of this shape has statements, in a diagram that has begun or not.
fn is_said(begun: bool, line_kind: LineKind) -> bool
    ensures { result ≡ is_said begun line_kind }
{
    match line_kind {
        LineKind::Head => true,
        LineKind::Other => begun,
        LineKind::Nothing | LineKind::Directive | LineKind::Comment => false,
    }
}

impl Inside {
    /// Whether a line in this state may have statements.
    fn may_say(self) -> bool
        ensures { result ≡ may_say self }
    {
        match self {
            Inside::Start | Inside::Nothing | Inside::Rest | Inside::Configuration => true,
            Inside::Front | Inside::Directive | Inside::Description => false,
        }
    }
}

impl Progress {
    /// Whether a line of statements outside of directives has an entity of HTML.
    fn has_entity(&self, bytes: &[u8]) -> bool
        ensures { result ≡ has_entity bytes.now self.now }
    {
        self.inside.may_say()
            && is_said(self.begun, line_kind_of(trimmed(bytes)))
            && !holds(bytes, Sought::Text(Mark::Directive))
            && holds(bytes, Sought::Entity)
    }

    /// Reads one more part, if a browser reads the text first or not.
    #[tactic(auto, unfolding(crate::specs::Parts::part_step))]
    fn part(
        &mut self,
        alloc: Global,
        markup: bool,
        cross: Option<Cross>,
        starts: &[usize],
        part: LinePart<'_>,
    ) -> Result<(), ImportFault>
        ensures { Leaves result self.new
            (part_step markup cross starts.now (stretch part.entry) self.old) }
    {
        let bytes = line_of(alloc, part)?;
        let line = bytes.as_slice();
        if markup && self.has_entity(line) {
            let row = Row {
                line: part.line,
                bytes: line,
            };
            return Err(ImportFault::Entity(row.position_of(from_entity(line))));
        }
        self.step(alloc, cross, part_start(starts, part), part.line, line)
    }

    /// Reads these parts, from the first one on.
    fn parts(
        &mut self,
        alloc: Global,
        markup: bool,
        cross: Option<Cross>,
        starts: &[usize],
        parts: &[LinePart<'_>],
    ) -> Result<(), ImportFault>
        ensures { Leaves result self.new
            (steps_of markup cross starts.now (map stretch parts.now) self.old) }
    {
        for i in 0..parts.len() {
            self.part(alloc, markup, cross, starts, parts[i])?;
        }
        Ok(())
    }
}

/// The diagram of parts of some lines of a text that ends here and whose lines begin at these
/// places ([`starts_of`](crate::starts_of)), or its first fault. If a browser reads the text first,
/// an entity of HTML in a line of statements is a fault.
#[tactic(auto, unfolding(crate::specs::Parts::said_of))]
pub fn diagram_of_parts(
    alloc: Global,
    markup: bool,
    cross: Option<Cross>,
    starts: &[usize],
    end: Position,
    parts: &[LinePart<'_>],
) -> Result<Diagram, ImportFault>
    ensures { Gives (λ x. x) result (said_of markup cross starts.now end (map stretch parts.now)) }
{
    let mut progress = Progress {
        start: 0,
        inside: Inside::Start,
        begun: false,
        reader: Reader::new(alloc),
        waiting: Waiting::new(alloc),
    };
    progress.parts(alloc, markup, cross, starts, parts)?;
    progress.ended(end)
}
