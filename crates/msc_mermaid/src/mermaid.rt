//! The diagram of a Mermaid text, line by line.

ghost use Rattle.std.specs.Prelude.{◌≡◌, ◌≤◌, ◌<◌, ◌^◌, length, map};
ghost use Rattle.msc_mermaid.specs.Gives.{Gives};
ghost use Rattle.msc_mermaid.specs.Mermaid.{behind_head, body, described_as, end_of, ended_in};
ghost use Rattle.msc_mermaid.specs.Mermaid.{first_line, first_line_place};
ghost use Rattle.msc_mermaid.specs.Mermaid.{head_as, mermaid, outside, said_in, line_kind_of, step};
ghost use Rattle.msc_mermaid.specs.Mermaid.{steps};
ghost use Rattle.msc_mermaid.specs.Reading.{Leaves};
ghost use Rattle.msc_mermaid.specs.White.{trimmed};

use crate::fault::{Expectation, ImportFault};
use crate::key::Mark;
use crate::line_kind::{LineKind, closed, is_front, line_kind_of, undirected};
use crate::lines::{Row, lines_of, start_on, starts_of};
use crate::progress::{Inside, Progress};
use crate::reading::Reader;
use crate::statement::{Cross, Diagram};
use crate::waiting::Waiting;
use crate::white::{behind_white, is_white, trimmed, white_in_front};
use msc_lexer::TEXT_LIMIT;
use msc_place::Position;
use std::alloc::Global;

/// The number of bytes up to the end of the word with which the diagram begins, with the white
/// space before it.
fn behind_head(bytes: &[u8]) -> usize
    requires { length bytes.now < 2 ^ 63 }
    ensures { result ≡ behind_head bytes.now }
{
    white_in_front(bytes) + 15
}

impl Progress {
    /// Reads a line of a diagram that has begun, after this number of its bytes.
    #[tactic(auto, unfolding(crate::specs::Mermaid::body, crate::specs::Mermaid::body_as))]
    fn body(
        &mut self,
        alloc: Global,
        cross: Option<Cross>,
        line: usize,
        bytes: &[u8],
        at: usize,
    ) -> Result<(), ImportFault>
        requires { at ≤ length bytes.now }
        ensures { Leaves result self.new (body cross line bytes.now at self.old) }
    {
        let rest = &bytes[at..];
        let row = Row { line, bytes };
        match line_kind_of(trimmed(rest)) {
            LineKind::Directive => self.left_out(row, Inside::Directive, Mark::DirectiveEnd, rest),
            LineKind::Nothing => Ok(()),
            LineKind::Comment => self.commented(row, rest),
            LineKind::Head | LineKind::Other => self.said_on(alloc, cross, line, bytes, at),
        }
    }

    /// Reads a line before the diagram has begun.
    #[tactic(auto, unfolding(crate::specs::Mermaid::head_as))]
    fn head(
        &mut self,
        alloc: Global,
        cross: Option<Cross>,
        line: usize,
        bytes: &[u8],
    ) -> Result<(), ImportFault>
        ensures { Leaves result self.new
            (head_as cross line bytes.now self.old (line_kind_of (trimmed bytes.now))) }
    {
        let row = Row { line, bytes };
        match line_kind_of(trimmed(bytes)) {
            LineKind::Directive => self.left_out(row, Inside::Directive, Mark::DirectiveEnd, bytes),
            LineKind::Nothing => Ok(()),
            LineKind::Comment => self.commented(row, bytes),
            LineKind::Head => {
                self.begun = true;
                self.body(alloc, cross, line, bytes, behind_head(bytes))
            }
            LineKind::Other => {
                let found = row.position_of(behind_white(bytes));
                Err(ImportFault::Expected(found, Expectation::Diagram))
            }
        }
    }

    /// Reads a line that is not left out.
    #[tactic(auto, unfolding(crate::specs::Mermaid::outside))]
    fn outside(
        &mut self,
        alloc: Global,
        cross: Option<Cross>,
        line: usize,
        bytes: &[u8],
    ) -> Result<(), ImportFault>
        ensures { Leaves result self.new (outside cross line bytes.now self.old) }
    {
        if self.begun {
            self.body(alloc, cross, line, bytes, 0)
        } else {
            self.head(alloc, cross, line, bytes)
        }
    }

    /// Reads a line before which all lines are empty.
    #[tactic(auto, unfolding(crate::specs::Mermaid::first_line))]
    fn first_line(
        &mut self,
        alloc: Global,
        cross: Option<Cross>,
        line: usize,
        bytes: &[u8],
    ) -> Result<(), ImportFault>
        ensures { Leaves result self.new (first_line cross line bytes.now self.old) }
    {
        let text = trimmed(bytes);
        if text.is_empty() {
            return Ok(());
        }
        if is_front(text) {
            self.inside = Inside::Front;
            return Ok(());
        }
        self.inside = Inside::Nothing;
        self.outside(alloc, cross, line, bytes)
    }

    /// Reads a line within a description: a comment ends nothing.
    #[tactic(auto, unfolding(crate::specs::Mermaid::described_as))]
    pub(crate) fn described(&mut self, line: usize, bytes: &[u8]) -> Result<(), ImportFault>
        ensures { Leaves result self.new
            (described_as line bytes.now self.old (line_kind_of (trimmed bytes.now))) }
    {
        let row = Row { line, bytes };
        match line_kind_of(trimmed(bytes)) {
            LineKind::Nothing => Ok(()),
            LineKind::Directive => {
                if closed(row, Mark::DirectiveEnd, bytes)? {
                    return Ok(());
                }
                let end = row.position_of(&[]);
                Err(ImportFault::Expected(end, Expectation::Directive))
            }
            LineKind::Comment => self.commented(row, bytes),
            LineKind::Head | LineKind::Other => {
                let text = undirected(row, bytes)?;
                self.left_out(row, Inside::Description, Mark::DescriptionEnd, text)
            }
        }
    }

    /// Reads one more line, which begins at this place of the text.
    #[tactic(auto, unfolding(crate::specs::Mermaid::step, crate::specs::Mermaid::step_in))]
    pub(crate) fn step(
        &mut self,
        alloc: Global,
        cross: Option<Cross>,
        start: usize,
        line: usize,
        bytes: &[u8],
    ) -> Result<(), ImportFault>
        ensures { Leaves result self.new (step cross start line bytes.now self.old) }
    {
        self.start = start;
        match self.inside {
            Inside::Start => self.first_line(alloc, cross, line, bytes),
            Inside::Nothing => self.outside(alloc, cross, line, bytes),
            Inside::Rest => {
                self.inside = Inside::Nothing;
                self.outside(alloc, cross, line, bytes)
            }
            Inside::Front => {
                if is_front(trimmed(bytes)) {
                    self.inside = Inside::Nothing;
                }
                Ok(())
            }
            Inside::Directive => {
                let row = Row { line, bytes };
                self.left_out(row, Inside::Directive, Mark::DirectiveEnd, bytes)
            }
            Inside::Description => self.described(line, bytes),
            Inside::Configuration => self.configured(alloc, cross, line, bytes),
        }
    }

    /// Reads these lines, from the first one on, of a text whose lines begin at these places.
    fn steps(
        &mut self,
        alloc: Global,
        cross: Option<Cross>,
        starts: &[usize],
        lines: &[&[u8]],
    ) -> Result<(), ImportFault>
        ensures { Leaves result self.new
            (steps cross starts.now 1 (map (λ x. x.now) lines.now) self.old) }
    {
        for i in 0..lines.len() {
            let start = start_on(starts, i + 1);
            self.step(alloc, cross, start, i + 1, lines[i])?;
        }
        Ok(())
    }

    /// The diagram, if nothing is missing at the end of a text, which is at this position.
    #[tactic(auto, unfolding(crate::specs::Mermaid::ended_in))]
    pub(crate) fn ended(self, here: Position) -> Result<Diagram, ImportFault>
        ensures { Gives (λ x. x) result (ended_in here self self.inside) }
    {
        let Progress {
            start: _,
            inside,
            begun,
            reader,
            waiting,
        } = self;
        match inside {
            Inside::Front => Err(ImportFault::Expected(here, Expectation::Front)),
            Inside::Directive => Err(ImportFault::Expected(here, Expectation::Directive)),
            Inside::Description => Err(ImportFault::Expected(here, Expectation::Description)),
            Inside::Configuration => {
                Err(ImportFault::Expected(waiting.spot.here, Expectation::Description))
            }
            _ if begun => reader.finish(),
            _ => Err(ImportFault::Expected(here, Expectation::Diagram)),
        }
    }
}

/// The position at which a text of these lines ends. It takes no memory.
pub fn end_of(lines: &[&[u8]]) -> Position
    ensures { result ≡ end_of (map (λ x. x.now) lines.now) }
{
    let line = lines.len();
    match lines.last() {
        None => Position { line, column: 1 },
        Some(last) => Row { line, bytes: last }.position_of(&[]),
    }
}

/// The position of the first byte that is no white space in a text of these lines, or the end of
/// the text if there is none. It takes no memory.
pub fn beginning_of(lines: &[&[u8]]) -> Position
    ensures { result ≡ first_line_place 1 (map (λ x. x.now) lines.now)
        (end_of (map (λ x. x.now) lines.now)) }
{
    for i in 0..lines.len() {
        if !is_white(lines[i]) {
            let row = Row {
                line: i + 1,
                bytes: lines[i],
            };
            return row.position_of(behind_white(lines[i]));
        }
    }
    end_of(lines)
}

/// The diagram of these lines of a text, which begin at these places.
#[tactic(auto, unfolding(crate::specs::Mermaid::said_in))]
fn said_in(
    alloc: Global,
    cross: Option<Cross>,
    starts: &[usize],
    lines: &[&[u8]],
) -> Result<Diagram, ImportFault>
    ensures { Gives (λ x. x) result (said_in cross starts.now (map (λ x. x.now) lines.now)) }
{
    let mut progress = Progress {
        start: 0,
        inside: Inside::Start,
        begun: false,
        reader: Reader::new(alloc),
        waiting: Waiting::new(alloc),
    };
    progress.steps(alloc, cross, starts, lines)?;
    progress.ended(end_of(lines))
}

/// The diagram of a Mermaid text, or its first fault. Without a meaning of crosses, the message of
/// an arrow with a cross may be lost or arrive.
#[tactic(auto, unfolding(crate::specs::Mermaid::mermaid))]
pub fn diagram_of(alloc: Global, cross: Option<Cross>, text: &[u8]) -> Result<Diagram, ImportFault>
    ensures { Gives (λ x. x) result (mermaid cross text.now) }
{
    if text.len() > TEXT_LIMIT {
        return Err(ImportFault::TooLong);
    }
    let starts = starts_of(alloc, text)?;
    let lines = lines_of(alloc, text)?;
    said_in(alloc, cross, starts.as_slice(), lines.as_slice())
}
