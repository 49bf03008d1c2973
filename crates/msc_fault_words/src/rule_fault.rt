//! Faults of rules for links, of comments, and of the words of a command line, in words.

ghost use Rattle.std.specs.Prelude.{◌≡◌, IfOk, OnOk, map};
ghost use Rattle.std.specs.String.{string_bytes};
ghost use Rattle.msc_place.specs.Excerpts.{row_of, shown};
ghost use Rattle.msc_place.specs.Positions.{begins_character};
ghost use Rattle.msc_place.specs.Texts.{shown_byte};
ghost use Rattle.msc_fault_words.specs.RuleFaults.{comment_marks, instance, link, mark, no_link_text};
ghost use Rattle.msc_fault_words.specs.RuleFaults.{queues, rounds, rule_bytes, two_kinds_text};
ghost use Rattle.msc_fault_words.specs.RuleFaults.{missing_text, mark_help, mark_id, mark_sentence};
ghost use Rattle.msc_fault_words.specs.Told.{shown_bytes};
ghost use Rattle.msc_fault_words.specs.Words.{with_marks};

use crate::chart_fault::named_text;
use crate::memory_words;
use crate::words::{FaultWords, Span};
use msc_chart::UnrollFault;
use msc_diagnostic::Sign;
use msc_links::LinkFault;
use msc_place::writing::write_file;
use msc_spoken::shown;
use std::alloc::{AllocError, Global};

/// Whether a byte begins a character of UTF-8.
fn begins_character(byte: u8) -> bool
    ensures { result ≡ begins_character byte }
{
    byte < 128 || byte > 191
}

/// What an excerpt of a text shows for a byte that begins a character.
fn row_byte(byte: u8) -> u8
    ensures { result ≡ shown byte }
{
    match byte {
        b'\t' => b' ',
        b' '..=b'~' => byte,
        _ => b'?',
    }
}

/// What an excerpt of a text shows for bytes.
fn row_of(alloc: Global, bytes: &[u8]) -> Result<Vec<u8>, AllocError>
    ensures { IfOk result (λ row. row.items ≡ row_of bytes.now) }
{
    bytes
        .iter()
        .filter(|byte| begins_character(**byte))
        .map(|byte| row_byte(*byte))
        .collect(alloc)
}

/// Bytes of a command line as people read them.
fn shown_argument(alloc: Global, bytes: &[u8]) -> Result<Vec<u8>, AllocError>
    ensures { IfOk result (λ row. row.items ≡ map shown_byte bytes.now) }
{
    let mut row = Vec::new(alloc);
    if write_file(&mut row, bytes).is_err() {
        return Err(AllocError);
    }
    Ok(row)
}

/// The bytes of a rule as people read them: those of the text if the rule is in a comment of it.
fn rule_bytes(alloc: Global, comment: Option<Span>, bytes: &[u8]) -> Result<Vec<u8>, AllocError>
    ensures { IfOk result (λ row. row.items ≡ rule_bytes comment bytes.now) }
{
    match comment {
        Some(_) => row_of(alloc, bytes),
        None => shown_argument(alloc, bytes),
    }
}

/// The printed text of a rule.
fn rule_text(alloc: Global, comment: Option<Span>, bytes: &[u8]) -> Result<String, AllocError>
    ensures { IfOk result (λ text. string_bytes text
        ≡ shown_bytes (rule_bytes comment bytes.now)) }
{
    let bytes = rule_bytes(alloc, comment, bytes)?;
    shown(alloc, bytes.as_slice())
}

/// That a LINK is none.
#[tactic(auto, unfolding(crate::specs::RuleFaults::no_link_text))]
fn no_link_text(alloc: Global, link: &str) -> Result<String, AllocError>
    ensures { IfOk result (λ text. string_bytes text ≡ no_link_text link.now) }
{
    format!(in alloc; "{link} is no link")
}

/// That there is no such instance.
#[tactic(auto, unfolding(crate::specs::RuleFaults::missing_text))]
fn missing_text(alloc: Global, name: &str) -> Result<String, AllocError>
    ensures { IfOk result (λ text. string_bytes text ≡ missing_text name.now) }
{
    format!(in alloc; "no instance {name}")
}

/// That a LINK has two kinds.
#[tactic(auto, unfolding(crate::specs::RuleFaults::two_kinds_text))]
fn two_kinds_text(alloc: Global, link: &str) -> Result<String, AllocError>
    ensures { IfOk result (λ text. string_bytes text ≡ two_kinds_text link.now) }
{
    format!(in alloc; "{link} has two kinds")
}

impl FaultWords {
    /// Adds a mark of a comment, if there is one.
    fn mark_comment(&mut self, comment: Option<Span>) -> Result<(), AllocError>
        ensures { OnOk result (self.new ≡ with_marks self.old (comment_marks comment)) }
    {
        if let Some(span) = comment {
            self.mark(span, Sign::Caret, "")?;
        }
        Ok(())
    }
}

/// The fault of a rule for links. `comment` is the comment of the text with the rule; without one the
/// rule is of the command line. The only error is want of memory.
pub fn link_words(
    alloc: Global,
    fault: LinkFault<'_>,
    comment: Option<Span>,
) -> Result<FaultWords, AllocError>
    ensures { IfOk result (λ words. words ≡ link comment fault.entry) }
{
    let (id, sentence) = match fault {
        LinkFault::NoLink(link) => {
            let link = rule_text(alloc, comment, link)?;
            ("link 1", no_link_text(alloc, link.as_str())?)
        }
        LinkFault::NoInstance(name) => {
            let name = rule_text(alloc, comment, name)?;
            ("link 2", missing_text(alloc, name.as_str())?)
        }
        LinkFault::TwoKinds(link) => {
            let link = rule_text(alloc, comment, link)?;
            ("link 3", two_kinds_text(alloc, link.as_str())?)
        }
    };
    let mut words = FaultWords::new(alloc, id, sentence);
    words.mark_comment(comment)?;
    Ok(words)
}

/// A comment that is to name the queues of a text, and cannot be read. The only error is want of
/// memory.
pub fn queues_words(alloc: Global, comment: Span) -> Result<FaultWords, AllocError>
    ensures { IfOk result (λ words. words ≡ queues comment) }
{
    let mut words = FaultWords::fixed(alloc, "link 4", "this does not say which queues")?;
    words.mark(comment, Sign::Caret, "")?;
    words.fixed_help(alloc, "queues ARCH; KIND LINK, LINK; ..")?;
    Ok(words)
}

/// A fault of a mark of a chart or of a diagram.
#[derive(Clone, Copy, Debug, PartialEq, Eq)]
pub enum MarkSlip {
    /// What follows `race ok` is no part of a mark.
    Part,
    /// Only the reason is missing.
    Reason,
    /// It follows an arrow on its line, so it is part of the arrow's label.
    Label,
    /// The arrow below it has a mark already.
    Second,
}

/// The stage and the number of a faulty mark.
fn mark_id(slip: MarkSlip) -> &'static str
    ensures { result.now ≡ mark_id slip }
{
    match slip {
        MarkSlip::Part => "accept 1",
        MarkSlip::Reason => "accept 2",
        MarkSlip::Label => "accept 3",
        MarkSlip::Second => "accept 4",
    }
}

/// The sentence of a faulty mark.
fn mark_sentence(slip: MarkSlip) -> &'static str
    ensures { result.now ≡ mark_sentence slip }
{
    match slip {
        MarkSlip::Part => "this mark cannot be read",
        MarkSlip::Reason => "this mark gives no reason",
        MarkSlip::Label => "this mark is part of the arrow's label",
        MarkSlip::Second => "the arrow below has a mark already",
    }
}

/// What helps.
fn mark_help(slip: MarkSlip) -> &'static str
    ensures { result.now ≡ mark_help slip }
{
    match slip {
        MarkSlip::Part | MarkSlip::Reason =>
            "a mark is: race ok [in ARCH, ..] [with ID; ..]: REASON",
        MarkSlip::Label => "put it in a line of its own, above the arrow",
        MarkSlip::Second => "a race can be accepted at either of its arrows",
    }
}

/// A faulty mark of a chart or of a diagram: the text of the comment, the comment line, or the arrow
/// whose label contains it. The only error is want of memory.
pub fn mark_words(alloc: Global, slip: MarkSlip, span: Span) -> Result<FaultWords, AllocError>
    ensures { IfOk result (λ words. words ≡ mark slip span) }
{
    let mut words = FaultWords::fixed(alloc, mark_id(slip), mark_sentence(slip))?;
    words.mark(span, Sign::Caret, "")?;
    words.fixed_help(alloc, mark_help(slip))?;
    Ok(words)
}

/// A name that is to be that of an instance, and is not. The only error is want of memory.
pub fn instance_words(alloc: Global, name: &str) -> Result<FaultWords, AllocError>
    ensures { IfOk result (λ words. words ≡ instance name.now) }
{
    let bytes = shown_argument(alloc, name.as_bytes())?;
    let name = shown(alloc, bytes.as_slice())?;
    let sentence = named_text(alloc, name.as_str())?;
    Ok(FaultWords::new(alloc, "ready 1", sentence))
}

/// Why two rounds of a chart are no chart. The only error is want of memory.
pub fn rounds_words(alloc: Global, fault: UnrollFault) -> Result<FaultWords, AllocError>
    ensures { IfOk result (λ words. words ≡ rounds fault) }
{
    match fault {
        UnrollFault::TooManyMessages => {
            FaultWords::fixed(alloc, "again 1", "more than 512 messages")
        }
        UnrollFault::TooManyActions => {
            FaultWords::fixed(alloc, "again 2", "more than 512 actions")
        }
        UnrollFault::Memory => memory_words(alloc),
    }
}
