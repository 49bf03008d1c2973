//! A law of places, over the definitions alone. The function has no code: a caller calls it for the
//! law.

ghost use Rattle.msc_place.specs.Standing.{EachEventBeginsOnce};

use msc_lexer::laws::one_reading;

/// The statement of each event begins at one place of its text.
pub fn each_event_begins_once()
    ensures { EachEventBeginsOnce }
{
    one_reading();
}
