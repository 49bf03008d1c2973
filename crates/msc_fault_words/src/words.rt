//! A refusal in words, as plain data.

ghost use Rattle.std.specs.Prelude.{◌≡◌, [], ◌∷◌, IfOk, OnOk, option_map};
ghost use Rattle.std.specs.String.{string_bytes};
ghost use Rattle.msc_fault_words.specs.Words.{bare, first_place, mark_of, marks_at, past_at};
ghost use Rattle.msc_fault_words.specs.Words.{span_at, span_from, with_helps, with_marks};

use msc_diagnostic::{Mark, Sign};
use std::alloc::{AllocError, Global};
use std::marker::Model;

/// A part of a text: the place of its first byte, from 0, and the place after its last.
#[derive(Clone, Copy, Debug, PartialEq, Eq)]
pub struct Span {
    pub first: usize,
    pub past: usize,
}

/// The span that begins at a place, if one does.
fn span_from(spans: &[Span], at: usize) -> Option<&Span>
    ensures { option_map (λ span. span.now) result ≡ span_from spans.now at }
{
    spans.iter().find(|span| span.first == at)
}

/// The place after the last byte of the span that begins at a place; the place itself, if none
/// does.
fn past_at(spans: &[Span], at: usize) -> usize
    ensures { result ≡ past_at spans.now at }
{
    match span_from(spans, at) {
        Some(span) => span.past,
        None => at,
    }
}

/// The span that begins at a place.
fn span_at(spans: &[Span], at: usize) -> Span
    ensures { result ≡ span_at spans.now at }
{
    Span {
        first: at,
        past: past_at(spans, at),
    }
}

/// Why a text is refused: the stage and the number of the fault, a sentence, marks in the text, and
/// what helps.
#[derive(Drop)]
pub struct FaultWords {
    pub(crate) id: &'static str,
    pub(crate) sentence: String,
    pub(crate) marks: Vec<Mark<'static>>,
    pub(crate) helps: Vec<String>,
}

impl Model for FaultWords {
    ghost use Rattle.std.specs.Prelude.{map};
    ghost use Rattle.std.specs.String.{string_bytes};
    ghost use Rattle.msc_diagnostic.specs.Plain.{plain_mark};
    ghost use Rattle.msc_fault_words.specs.Words.{Words};

    ghost Value = { Words };

    ghost view = { λ w. record { id = w.id.now; sentence = string_bytes w.sentence; marks = map plain_mark w.marks.items; helps = map string_bytes w.helps.items } };
}

impl FaultWords {
    /// A sentence, without marks and helps.
    pub fn new(alloc: Global, id: &'static str, sentence: String) -> FaultWords
        ensures { result ≡ bare id.now (string_bytes sentence) }
    {
        FaultWords {
            id,
            sentence,
            marks: Vec::new(alloc),
            helps: Vec::new(alloc),
        }
    }

    /// Such a sentence that is the same for each text.
    pub(crate) fn fixed(
        alloc: Global,
        id: &'static str,
        sentence: &str,
    ) -> Result<FaultWords, AllocError>
        ensures { IfOk result (λ words. words ≡ bare id.now sentence.now) }
    {
        let sentence = String::from_str(alloc, sentence)?;
        Ok(FaultWords::new(alloc, id, sentence))
    }

    /// Adds a mark.
    pub fn mark(&mut self, span: Span, sign: Sign, label: &'static str) -> Result<(), AllocError>
        ensures { OnOk result (self.new
            ≡ with_marks self.old (mark_of span sign label.now ∷ [])) }
    {
        self.marks.push(Mark {
            first: span.first,
            past: span.past,
            sign,
            label,
        })?;
        Ok(())
    }

    /// Adds a mark of the span that begins at a place, if there is a place.
    pub fn mark_at(
        &mut self,
        spans: &[Span],
        place: Option<usize>,
        sign: Sign,
        label: &'static str,
    ) -> Result<(), AllocError>
        ensures { OnOk result (self.new
            ≡ with_marks self.old (marks_at spans.now place sign label.now)) }
    {
        if let Some(at) = place {
            self.mark(span_at(spans, at), sign, label)?;
        }
        Ok(())
    }

    /// Adds a help.
    pub fn help(&mut self, text: String) -> Result<(), AllocError>
        ensures { OnOk result (self.new ≡ with_helps self.old (string_bytes text ∷ [])) }
    {
        self.helps.push(text)?;
        Ok(())
    }

    /// Adds a help that is the same for each text.
    pub(crate) fn fixed_help(&mut self, alloc: Global, text: &str) -> Result<(), AllocError>
        ensures { OnOk result (self.new ≡ with_helps self.old (text.now ∷ [])) }
    {
        self.help(String::from_str(alloc, text)?)
    }

    /// The place of the first mark, which the refusal is about, if there is one.
    pub fn place(&self) -> Option<usize>
        ensures { result ≡ first_place self.now.marks }
    {
        match self.marks.first() {
            Some(mark) => Some(mark.first),
            None => None,
        }
    }
}
