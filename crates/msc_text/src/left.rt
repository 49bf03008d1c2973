//! The rows of races that are left.

ghost use Rattle.std.specs.Prelude.{◌<◌, length};
ghost use Rattle.msc_text.specs.StickFormats.{left_race_in};

use crate::stick_format::{StickFormat, print_left_race};
use msc_print::{Page, Pair, Printer, Rows, Text};
use msc_report::OneRound;
use std::alloc::{AllocError, Global};
use std::io::Write;

/// A race that is left, in a format.
#[derive(Clone, Copy)]
struct LeftRow<'r, 'f, 'w> {
    alloc: Global,
    names: OneRound<'r>,
    format: StickFormat<'f, 'w>,
    race: Pair,
}

impl Text for LeftRow<'_, '_, '_> {
    ghost can_append = { λ s. (s.race.0 < length s.names.chart.now.events)
        × (s.race.1 < length s.names.chart.now.events) };

    ghost bytes = { λ s. left_race_in s.format s.names.chart.now s.race };

    fn append(&self, page: &mut Page) -> Result<(), AllocError> {
        print_left_race(self.alloc, page, self.names, self.format, self.race)
    }
}

/// The rows of races that are left. The count stays as it is.
#[derive(Clone, Copy)]
pub(crate) struct LeftRows<'r, 'f, 'w> {
    pub names: OneRound<'r>,
    pub format: StickFormat<'f, 'w>,
}

impl Rows for LeftRows<'_, '_, '_> {
    type Memo = ();

    ghost can_print = { λ s p. (p.0 < length s.names.chart.now.events)
        × (p.1 < length s.names.chart.now.events) };

    ghost are_runs = { λ s runs. Unit {0} };

    ghost row_text = { λ s runs n p. left_race_in s.format s.names.chart.now p };

    ghost after = { λ s n p. n };

    ghost has_memo = { λ s memo. Unit {0} };

    ghost goes_on = { λ s. Unit {0} };

    fn memo(&self, _alloc: Global) {}

    fn print_row<W: Write>(
        &self,
        alloc: Global,
        printer: &mut Printer<'_, W>,
        _memo: &mut (),
        count: u32,
        pair: Pair,
    ) -> u32 {
        printer.print_text(&LeftRow {
            alloc,
            names: self.names,
            format: self.format,
            race: pair,
        });
        count
    }

    fn is_done(&self, _count: u32) -> bool {
        false
    }
}
