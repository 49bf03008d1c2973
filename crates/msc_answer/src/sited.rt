//! The places of the events of a text, as answers show them.

ghost use Rattle.std.specs.Prelude.{◌≡◌, IfOk, is_some, option_map};
ghost use Rattle.msc_answer.specs.Sited.{AreSited, HasEventPositions, IsStyle};

use crate::tasks::EventStyle;
use crate::text_chart::TextChart;
use msc_place::EventPositions;
use msc_report::Style;
use std::alloc::{AllocError, Global};

/// The places of the events of the text of a file of this name: in a diagram those of their arrows.
pub(crate) fn positions_of<'f>(
    alloc: Global,
    file: &'f str,
    source: &TextChart<'_, '_>,
) -> Result<EventPositions<'f>, AllocError>
    ensures { IfOk result (HasEventPositions file.entry.now source.now) }
{
    match source.imported() {
        None => {
            let event_positions = EventPositions::of(alloc, file.as_bytes(), source.text())?;
            Ok(event_positions)
        }
        Some(imported) => {
            let positions = Vec::from_slice(alloc, imported.places.as_slice())?;
            Ok(EventPositions::at(file.as_bytes(), positions))
        }
    }
}

/// The places of the events of the text of a file of this name, if places are printed.
pub(crate) fn event_positions_of<'f>(
    alloc: Global,
    wanted: bool,
    file: &'f str,
    source: &TextChart<'_, '_>,
) -> Result<Option<EventPositions<'f>>, AllocError>
    ensures { IfOk result (AreSited wanted file.entry.now source.now) }
{
    if !wanted {
        return Ok(None);
    }
    let event_positions = positions_of(alloc, file, source)?;
    Ok(Some(event_positions))
}

/// The style of an answer with these places.
pub(crate) fn style_of<'s>(
    event_style: EventStyle,
    event_positions: Option<&'s EventPositions<'s>>,
) -> Style<'s>
    ensures words { result.words ≡ event_style.words }
    ensures event_positions { result.event_positions ≡ event_positions.entry }
{
    Style {
        event_positions,
        words: event_style.words,
    }
}
