//! The places of the parts of a draft in its text.

ghost use Rattle.std.specs.Prelude.{◌≡◌, ◌≤◌, List, length, IfOk, IfSome, MatchOption};
ghost use Rattle.std.specs.Prelude.{slice_get};
ghost use Rattle.msc_lexer.specs.declared.token.Token.{Token};
ghost use Rattle.msc_lexer.specs.Lexemes.{AreWithin};
ghost use Rattle.msc_lexer.specs.Lexing.{HasTokens};
ghost use Rattle.msc_parser.specs.Drafts.{statements_of};
ghost use Rattle.msc_parser.specs.Grammar.{Tree};
ghost use Rattle.msc_parser.specs.Parsing.{HasDraft};
ghost use Rattle.msc_place.specs.EventPositions.{AreEventPositions};
ghost use Rattle.msc_place.specs.Standing.{ArePlaces, IsInside, IsEventPlace};
ghost use Rattle.msc_place.specs.Standing.{NamesDecl, NamesSection};
ghost use Rattle.msc_place.specs.Standing.{HasNoneOnLine, IsFirstOnLine};

use crate::index::Lines;
use crate::laws::each_event_begins_once;
use crate::naming::{Part, name_places};
use crate::position::Position;
use crate::statements::event_places;
use msc_lexer::{LexFault, Token, lex};
use std::alloc::{AllocError, Global};
use std::marker::Model;

/// The places of the statement of an event: of its first byte, after its `;`, and of its address,
/// which an action does not have.
#[derive(Clone, Copy, Debug, PartialEq, Eq)]
pub struct EventPlace {
    pub start: usize,
    pub end: usize,
    pub address: Option<usize>,
}

/// The places of the parts of a text: of the statements of its events, of the names of its
/// sections, and of the names in its header, each numbered from 0 in the order of the text.
///
/// Contracts see the text and the lists of the places. If a text has no draft, its places have no
/// meaning.
#[derive(Drop)]
pub struct Places<'t> {
    text: &'t [u8],
    events: Vec<EventPlace>,
    sections: Vec<usize>,
    header: Vec<usize>,
}

impl<'t> Model for Places<'t> {
    ghost use Rattle.msc_place.specs.Standing.{ArePlaces, TextPlaces, text_places};

    ghost Value = { TextPlaces };

    ghost view = { λ p. text_places p.text.now p.events.items p.sections.items p.header.items };

    ghost invariant = { λ p.
        ArePlaces (text_places p.text.now p.events.items p.sections.items p.header.items) };
}

/// The tokens of a text, or none if it has a lexical fault.
pub(crate) fn tokens_of(alloc: Global, text: &[u8]) -> Result<Vec<Token>, AllocError>
    ensures tokens { IfOk result (λ v. (ts : List Token) → HasTokens text.now ts → v.items ≡ ts) }
    ensures within { IfOk result (λ v. AreWithin text.now v.items) }
{
    match lex(alloc, text) {
        Ok(tokens) => Ok(tokens),
        Err(fault) => match fault {
            LexFault::Memory => Err(AllocError),
            _ => Ok(Vec::new(alloc)),
        },
    }
}

/// Item `i`, if there is one.
fn nth<T: Copy>(items: &[T], i: usize) -> Option<T>
    ensures { result ≡ slice_get items.now i }
{
    items.get(i).copied()
}

impl<'t> Places<'t> {
    /// The places of a text. The only error is want of memory.
    pub fn of(alloc: Global, text: &'t [u8]) -> Result<Places<'t>, AllocError>
        ensures { IfOk result (λ p. p.text ≡ text.entry.now) }
    {
        let tokens = tokens_of(alloc, text)?;
        let events = event_places(alloc, &tokens)?;
        let sections = name_places(alloc, &tokens, Part::Sections)?;
        let header = name_places(alloc, &tokens, Part::Header)?;
        Ok(Places {
            text,
            events,
            sections,
            header,
        })
    }

    /// The text. It takes no memory.
    pub fn text(&self) -> &'t [u8]
        ensures { result.now ≡ self.entry.now.text }
    {
        self.text
    }

    /// The facts that hold for the places of every text. It does nothing.
    pub fn known(&self)
        ensures { ArePlaces self.now }
    {
        let _text = self.text;
    }

    /// The places of the statement of event `e`, if there is such an event. It takes no memory.
    pub fn event(&self, e: usize) -> Option<EventPlace>
        ensures value { result ≡ slice_get self.now.stand.events e }
        ensures inside { IfSome result (IsInside (length self.now.text)) }
        ensures stands { (t : Tree) → HasDraft self.now.text t
            → MatchOption result (length (statements_of t.sections) ≤ e)
            (IsEventPlace self.now.text t e) }
    {
        self.known();
        nth(&self.events, e)
    }

    /// The place of the name of section `i`, if there is such a section. It takes no memory.
    pub fn section(&self, i: usize) -> Option<usize>
        ensures value { result ≡ slice_get self.now.stand.sections i }
        ensures inside { IfSome result (λ at. at ≤ length self.now.text) }
        ensures stands { (t : Tree) → HasDraft self.now.text t
            → MatchOption result (length t.sections ≤ i) (NamesSection self.now.text t i) }
    {
        self.known();
        nth(&self.sections, i)
    }

    /// The place of name `k` of the header, if there is such a name. It takes no memory.
    pub fn header(&self, k: usize) -> Option<usize>
        ensures value { result ≡ slice_get self.now.stand.header k }
        ensures inside { IfSome result (λ at. at ≤ length self.now.text) }
        ensures stands { (t : Tree) → HasDraft self.now.text t
            → MatchOption result (length t.header ≤ k) (NamesDecl self.now.text t k) }
    {
        self.known();
        nth(&self.header, k)
    }

    /// The positions at which the statements of the events begin, in the order of the text. The
    /// only error is want of memory.
    pub fn positions(&self, alloc: Global, lines: &Lines) -> Result<Vec<Position>, AllocError>
        requires { lines.now ≡ self.now.text }
        ensures { IfOk result (λ positions. (t : Tree) → HasDraft self.now.text t
            → AreEventPositions self.now.text t positions.items) }
    {
        self.known();
        let mut positions = Vec::new(alloc);
        for event in self.events.iter() {
            positions.push(lines.position(event.start))?;
        }
        Ok(positions)
    }

    /// The first event whose statement begins on a line, if there is one. It takes no memory.
    pub fn event_at_line(&self, lines: &Lines<'t>, line: usize) -> Option<usize>
        requires { lines.now ≡ self.now.text }
        ensures { (t : Tree) → HasDraft self.now.text t
            → MatchOption result (HasNoneOnLine self.now.text t line)
            (IsFirstOnLine self.now.text t line) }
    {
        self.known();
        each_event_begins_once();
        for (e, event) in self.events.iter().enumerate() {
            if lines.position(event.start).line == line {
                return Some(e);
            }
        }
        None
    }
}
