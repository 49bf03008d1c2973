//! The blocks of a refusal, and the line that closes it.

ghost use Rattle.std.specs.Prelude.{◌≡◌, ◌++◌, IfOk, OnOk};
ghost use Rattle.std.specs.String.{string_bytes};
ghost use Rattle.msc_diagnostic.specs.declared.source.LineEnds.TheVariants.{LineFeed};
ghost use Rattle.msc_refusals.specs.Answers.{closing_text, IsBlock, IsPlaceSaid, IsRefusal};

use msc_diagnostic::{LineEnds, Source};
use msc_fault_words::{FaultWords, words_text};
use msc_place::Lines;
use msc_shown_chart::position_said;
use msc_wording::{closing_line, refused_verdict};
use std::alloc::{AllocError, Global};

/// A text that is refused, and how the refusal is printed.
#[derive(Clone, Copy)]
pub struct RefusedText<'t> {
    /// The name of its file, as people read it.
    pub file: &'t str,
    pub text: &'t [u8],
    pub colours: bool,
}

/// A text that is refused, with its lines.
#[derive(Clone, Copy)]
pub(crate) struct RefusedLines<'r, 't> {
    pub refused: RefusedText<'t>,
    pub source: &'r Source<'t>,
    pub lines: &'r Lines<'t>,
    ghost source_is: { source.now.text.now ≡ refused.text.now },
    ghost ends_are: { source.now.ends ≡ LineFeed },
    ghost lines_are: { lines.now ≡ refused.text.now },
}

impl RefusedLines<'_, '_> {
    /// A place of the text as it is printed, or else its file.
    fn place_said(&self, alloc: Global, place: Option<usize>) -> Result<String, AllocError>
        ensures { IfOk result (λ said. IsPlaceSaid self.now.refused.file.now
            self.now.refused.text.now place (string_bytes said)) }
    {
        let file = self.refused.file;
        match place {
            Some(at) => {
                let inside = at.min(self.refused.text.len());
                position_said(alloc, file, self.lines.position(inside))
            }
            None => String::from_str(alloc, file),
        }
    }

    /// A fault in words, as a diagnostic with an empty row after it.
    pub fn block(&self, alloc: Global, words: &FaultWords) -> Result<Vec<u8>, AllocError>
        ensures { IfOk result (λ bytes. IsBlock self.now.refused words.now bytes.items) }
    {
        let place = self.place_said(alloc, words.place())?;
        let colours = self.refused.colours;
        let bytes = words_text(alloc, self.source, Some(place.as_str()), words, colours)?;
        Ok(bytes)
    }
}

/// Appends the line that closes a refusal and counts the `further` faults that are not shown.
pub(crate) fn close(
    alloc: Global,
    refused: RefusedText<'_>,
    further: usize,
    bytes: &mut Vec<u8>,
) -> Result<(), AllocError>
    ensures { OnOk result (bytes.new.items
        ≡ bytes.old.items ++ closing_text refused.entry further) }
{
    let verdict = refused_verdict(alloc, further)?;
    let line = closing_line(alloc, refused.file, verdict.as_str(), refused.colours)?;
    bytes.extend_from_slice(line.as_bytes())?;
    bytes.extend_from_slice(b"\n")
}

/// The refusal of a text for one fault: its diagnostic, and the line that closes it. The only error is
/// want of memory.
pub fn words_refusal(
    alloc: Global,
    refused: RefusedText<'_>,
    words: &FaultWords,
) -> Result<Vec<u8>, AllocError>
    ensures { IfOk result (λ bytes. IsRefusal refused.entry words.now bytes.items) }
{
    let source = Source::new(alloc, refused.text, LineEnds::LineFeed)?;
    let lines = Lines::of(alloc, refused.text)?;
    let lines = RefusedLines {
        refused,
        source: &source,
        lines: &lines,
    };
    let mut bytes = lines.block(alloc, words)?;
    close(alloc, refused, 0, &mut bytes)?;
    Ok(bytes)
}
