//! The kind of a text, by its first line that counts: the line after all that is left out before a
//! diagram.

ghost use Rattle.std.specs.Prelude.{◌≡◌};
ghost use Rattle.msc_mermaid.specs.Aheads.{ahead_behind, counted_in, directed, near, started};

use crate::cutting::leaves_open;
use crate::key::{Mark, begin_so};
use crate::line_kind::{LineKind, is_front, line_kind_of};
use crate::seeking::Sought;
use crate::white::trimmed;

/// The state after the lines that were read so far.
#[derive(Clone, Copy, Debug, PartialEq, Eq)]
pub enum Ahead {
    /// All lines are empty.
    Start,
    /// Front matter continues.
    Front,
    /// A directive continues.
    Directive,
    /// No line counts so far.
    Behind,
    /// The first line that counts begins a sequence diagram.
    Diagram,
    /// It begins no diagram, but begins with `sequence`.
    Near,
    /// It is another line.
    Other,
    /// A directive does not end correctly.
    Wrong,
}

/// The state after a line within a directive.
fn directed(line: &[u8]) -> Ahead
    ensures { result ≡ directed line.now }
{
    let at = Sought::Text(Mark::DirectiveEnd).before(line);
    if at == line.len() {
        return Ahead::Directive;
    }
    if trimmed(Mark::DirectiveEnd.behind(&line[at..])).is_empty() {
        Ahead::Behind
    } else {
        Ahead::Wrong
    }
}

/// The state after a first line that counts and begins no diagram.
fn near(line: &[u8]) -> Ahead
    ensures { result ≡ near line.now }
{
    if begin_so(trimmed(line), b"sequence") {
        Ahead::Near
    } else {
        Ahead::Other
    }
}

/// The state after a line that is not left out as front matter.
fn counted_in(line: &[u8]) -> Ahead
    ensures { result ≡ counted_in line.now }
{
    match line_kind_of(trimmed(line)) {
        LineKind::Nothing => Ahead::Behind,
        LineKind::Directive => directed(line),
        LineKind::Comment => {
            if leaves_open(line) {
                Ahead::Wrong
            } else {
                Ahead::Behind
            }
        }
        LineKind::Head => Ahead::Diagram,
        LineKind::Other => near(line),
    }
}

/// The state after the first line that is not empty.
fn started(line: &[u8]) -> Ahead
    ensures { result ≡ started line.now }
{
    let text = trimmed(line);
    if text.is_empty() {
        return Ahead::Start;
    }
    if is_front(text) {
        return Ahead::Front;
    }
    counted_in(line)
}

impl Ahead {
    /// The state after one more line.
    #[tactic(auto, unfolding(crate::specs::Aheads::ahead_behind))]
    pub fn behind(self, line: &[u8]) -> Ahead
        ensures { result ≡ ahead_behind line.now self }
    {
        match self {
            Ahead::Start => started(line),
            Ahead::Front if !is_front(trimmed(line)) => Ahead::Front,
            Ahead::Front => Ahead::Behind,
            Ahead::Directive => directed(line),
            Ahead::Behind => counted_in(line),
            Ahead::Diagram | Ahead::Near | Ahead::Other | Ahead::Wrong => self,
        }
    }
}
