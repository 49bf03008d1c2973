//! The refusal of a draft that is no chart.

ghost use Rattle.std.specs.Prelude.{◌≡◌, ◌++◌, ◌-◌, IfOk, List, length, map, take};
ghost use Rattle.msc_chart.specs.declared.fault.ChartFault.{ChartFault as Fault};
ghost use Rattle.msc_notes.specs.AllFaults.{AreFurther};
ghost use Rattle.msc_notes.specs.Events.{own_view, owned_of};
ghost use Rattle.msc_parser.specs.Parsing.{HasDraft};
ghost use Rattle.msc_refusals.specs.Charts.{AreBlocks, IsChartBlock, IsDraftRefusal};
ghost use Rattle.msc_refusals.specs.Rings.{IsRingBlock};

use crate::answer::{RefusedLines, RefusedText, close};
use crate::end::{lent, said_of};
use crate::part::spans_of;
use crate::ring::{RingReader, ring_block};
use msc_chart::ChartFault;
use msc_diagnostic::{LineEnds, Source};
use msc_fault_words::chart_words;
use msc_notes::{FURTHER_LIMIT, FaultNotes, OwnEvent, events_of, further, tell_chart};
use msc_parser::Draft;
use msc_place::{Lines, Places};
use std::alloc::{AllocError, Global};

/// The first `count` faults, or all faults if there are fewer.
fn front(faults: &[ChartFault], count: usize) -> &[ChartFault]
    ensures { result.now ≡ take count faults.now }
{
    &faults[..count.min(faults.len())]
}

/// A draft of a text, with its events and their places.
#[derive(Clone, Copy)]
struct Drafted<'d, 't> {
    draft: &'d Draft,
    events: &'d [OwnEvent<'d>],
    places: &'d Places<'t>,
    ghost events_are: { map own_view events.now ≡ owned_of draft.now.sections },
}

impl Drafted<'_, '_> {
    /// Events that wait for each other, by the notes on them.
    fn ring(
        &self,
        alloc: Global,
        lines: &RefusedLines<'_, '_>,
        told: &FaultNotes,
    ) -> Result<Vec<u8>, AllocError>
        requires text { self.now.places.now.text ≡ lines.now.refused.text.now }
        requires draft { HasDraft lines.now.refused.text.now self.now.draft.now }
        ensures { IfOk result (λ bytes.
            IsRingBlock lines.now.refused self.now.draft.now bytes.items) }
    {
        let reader = RingReader {
            refused: lines.refused,
            draft: self.draft,
            events: self.events,
            places: self.places,
            lines: lines.lines,
        };
        let bytes = ring_block(alloc, &reader, told.notes.as_slice())?;
        Ok(bytes)
    }

    /// A fault of the draft, as a diagnostic with an empty row after it.
    fn block(
        &self,
        alloc: Global,
        lines: &RefusedLines<'_, '_>,
        fault: ChartFault,
    ) -> Result<Vec<u8>, AllocError>
        requires text { self.now.places.now.text ≡ lines.now.refused.text.now }
        requires draft { HasDraft lines.now.refused.text.now self.now.draft.now }
        ensures { IfOk result (λ bytes.
            IsChartBlock lines.now.refused self.now.draft.now fault bytes.items) }
    {
        let told = tell_chart(alloc, self.draft, self.places, fault)?;
        if let ChartFault::Cyclic(_) = fault {
            return self.ring(alloc, lines, &told);
        }
        let spans = spans_of(alloc, self.places, self.events.len(), &told)?;
        let end = said_of(alloc, self.events, fault)?;
        let words = chart_words(alloc, fault, &told, spans.as_slice(), lent(&end))?;
        self.places.known();
        let bytes = lines.block(alloc, &words)?;
        Ok(bytes)
    }

    /// These faults of the draft, each as a diagnostic.
    fn blocks(
        &self,
        alloc: Global,
        lines: &RefusedLines<'_, '_>,
        faults: &[ChartFault],
    ) -> Result<Vec<u8>, AllocError>
        requires text { self.now.places.now.text ≡ lines.now.refused.text.now }
        requires draft { HasDraft lines.now.refused.text.now self.now.draft.now }
        ensures { IfOk result (λ bytes.
            AreBlocks lines.now.refused self.now.draft.now faults.now bytes.items) }
    {
        let mut bytes = Vec::new(alloc);
        for fault in faults {
            let block = self.block(alloc, lines, *fault)?;
            bytes.extend_from_slice(block.as_slice())?;
        }
        Ok(bytes)
    }

    /// The refusal of the draft for its first fault and the further ones.
    fn refusal(
        &self,
        alloc: Global,
        lines: &RefusedLines<'_, '_>,
        fault: ChartFault,
    ) -> Result<Vec<u8>, AllocError>
        requires text { self.now.places.now.text ≡ lines.now.refused.text.now }
        requires draft { HasDraft lines.now.refused.text.now self.now.draft.now }
        ensures { IfOk result (λ bytes.
            IsDraftRefusal lines.now.refused self.now.draft.now fault bytes.items) }
    {
        let further = further(alloc, self.draft, fault)?;
        let others = further.as_slice();
        let shown = front(others, FURTHER_LIMIT);
        let mut bytes = self.block(alloc, lines, fault)?;
        let more = self.blocks(alloc, lines, shown)?;
        bytes.extend_from_slice(more.as_slice())?;
        let left = others.len().saturating_sub(FURTHER_LIMIT);
        close(alloc, lines.refused, left, &mut bytes)?;
        Ok(bytes)
    }
}

/// The refusal of a text with this draft, which is no chart: its first fault, and the further ones, of
/// which at most [`FURTHER_LIMIT`] are shown. The only error is want of memory.
pub fn draft_refusal(
    alloc: Global,
    refused: RefusedText<'_>,
    draft: &Draft,
    fault: ChartFault,
) -> Result<Vec<u8>, AllocError>
    requires { HasDraft refused.text.now draft.now }
    ensures { IfOk result (λ bytes.
        IsDraftRefusal refused.entry draft.now fault bytes.items) }
{
    let events = events_of(alloc, draft)?;
    let places = Places::of(alloc, refused.text)?;
    let source = Source::new(alloc, refused.text, LineEnds::LineFeed)?;
    let lines = Lines::of(alloc, refused.text)?;
    let lines = RefusedLines {
        refused,
        source: &source,
        lines: &lines,
    };
    let drafted = Drafted {
        draft,
        events: events.as_slice(),
        places: &places,
    };
    let bytes = drafted.refusal(alloc, &lines, fault)?;
    Ok(bytes)
}
