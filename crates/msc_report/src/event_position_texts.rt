//! The places of a chart's events as they are printed, made once.

ghost use Rattle.std.specs.Prelude.{◌≡◌, [], ◌<◌, ◌++◌, IfOk, OnOk, get_or, length};
ghost use Rattle.msc_place.specs.EventPositions.{event_position_text, event_positions_line};
ghost use Rattle.msc_place.specs.EventPositions.{EventPositionsIn};
ghost use Rattle.msc_report.specs.EventPositionTexts.{AreEventPositionsOf, HasPutEventPosition};

use msc_chart::Event;
use msc_place::EventPositions;
use msc_print::Page;
use std::alloc::{AllocError, Global};
use std::marker::Model;

/// Where the place of an event stands.
#[derive(Clone, Copy)]
pub(crate) struct EventPositionSpan {
    pub from: usize,
    pub to: usize,
}

/// The places of the events of a chart. Lines of places are made from them.
///
/// Contracts see what is printed of each event, in order.
#[derive(Drop)]
pub struct EventPositionTexts {
    bytes: Vec<u8>,
    spans: Vec<EventPositionSpan>,
}

impl Model for EventPositionTexts {
    ghost use Rattle.std.specs.Prelude.{ℕ, List, map};
    ghost use Rattle.std.specs.List.{All};

    ghost Value = { List (List ℕ) };

    ghost use Rattle.msc_report.specs.EventPositionTexts.{event_position_at, IsEventPositionIn};

    ghost view = { λ t. map (event_position_at t.bytes.items) t.spans.items };

    ghost invariant = { λ t. All (IsEventPositionIn t.bytes.items) t.spans.items };
}

/// Appends the place of an event. The only error is want of memory.
fn append_event_position(
    page: &mut Page,
    event_positions: &EventPositions<'_>,
    e: Event,
) -> Result<(), AllocError>
    ensures { OnOk result
        (page.new.bytes.items ≡ page.old.bytes.items ++ event_position_text event_positions.now e) }
{
    match event_positions.write_event_position(page, e) {
        Ok(()) => Ok(()),
        Err(_) => Err(AllocError),
    }
}

/// Appends the place of an event, and returns where it stands.
fn print_event_position(
    page: &mut Page,
    event_positions: &EventPositions<'_>,
    e: Event,
) -> Result<EventPositionSpan, AllocError>
    ensures { IfOk result (HasPutEventPosition event_positions.now e page.old.bytes.items page.new.bytes.items) }
{
    let from = page.bytes.len();
    append_event_position(page, event_positions, e)?;
    let to = page.bytes.len();
    Ok(EventPositionSpan { from, to })
}

impl EventPositionTexts {
    /// The places of the first `count` events. An error is a growth of memory that was refused.
    pub fn new(
        alloc: Global,
        event_positions: &EventPositions<'_>,
        count: u32,
    ) -> Result<EventPositionTexts, AllocError>
        ensures { IfOk result (AreEventPositionsOf event_positions.now count) }
    {
        let mut page = Page::new(alloc);
        let mut spans = Vec::with_capacity(alloc, count as usize)?;
        for e in 0..count {
            let span = print_event_position(&mut page, event_positions, e)?;
            spans.push(span)?;
        }
        Ok(EventPositionTexts {
            bytes: page.bytes,
            spans,
        })
    }

    /// The place of event `e`.
    pub(crate) fn event_position(&self, e: Event) -> &[u8]
        requires { e < length self.now }
        ensures { result.now ≡ get_or self.now e [] }
    {
        let span = &self.spans[e as usize];
        &self.bytes[span.from..span.to]
    }

    /// Appends the line of the places of two events.
    pub(crate) fn print_line(&self, page: &mut Page, e: Event, f: Event) -> Result<(), AllocError>
        requires e_known { e < length self.now }
        requires f_known { f < length self.now }
        ensures { (event_positions : EventPositionsIn) → AreEventPositionsOf event_positions (length self.now) self.now → OnOk result
            (page.new.bytes.items ≡ page.old.bytes.items ++ event_positions_line event_positions e f) }
    {
        page.bytes.extend_from_slice(b"at ")?;
        page.bytes.extend_from_slice(self.event_position(e))?;
        page.bytes.extend_from_slice(b" ")?;
        page.bytes.extend_from_slice(self.event_position(f))?;
        page.bytes.extend_from_slice(b"\n")?;
        Ok(())
    }
}
