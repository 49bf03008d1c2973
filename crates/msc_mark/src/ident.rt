//! The name of an event in a mark.

ghost use Rattle.std.specs.Prelude.{◌≡◌, ◌<◌, false, length};
ghost use Rattle.std.specs.Option.{option_copied};
ghost use Rattle.msc_chart.specs.Charts.{is_local};
ghost use Rattle.msc_mark.specs.Accepting.{name_at, number_at};

use msc_chart::{Chart, Event};

/// The name of an event's message, and its message instance name, if it has one.
#[derive(Clone, Copy, PartialEq, Eq, Hash)]
pub(crate) struct Ident<'c> {
    pub name: &'c [u8],
    pub number: Option<&'c [u8]>,
}

/// The name of event `e` in a mark: its message, or the word `action`. It takes no memory.
pub(crate) fn ident_of(chart: &Chart, e: Event) -> Ident
    requires { e < length chart.now.events }
    ensures name { result.name.now ≡ name_at chart.now e }
    ensures number { option_copied result.number ≡ number_at chart.now e }
{
    if chart.is_local(e) {
        return Ident {
            name: "action".as_bytes(),
            number: None,
        };
    }
    let m = chart.message_of(e);
    Ident {
        name: chart.message_name(m),
        number: chart.message_number(m),
    }
}
