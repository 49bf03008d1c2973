//! The rows of blocked pairs, of one round or between two.

ghost use Rattle.std.specs.Prelude.{◌≡◌, ℕ, ◌<◌, List, None, Some, IfSome};
ghost use Rattle.std.specs.Option.{option_copied};
ghost use Rattle.msc_ready.specs.Held.{ready_in, wiring_of};
ghost use Rattle.msc_ready.specs.Running.{AreBlockedPairRuns};
ghost use Rattle.msc_ready.specs.BlockedPairs.{IsFirstBlockedPair};
ghost use Rattle.msc_print.specs.Prints.{Prints};
ghost use Rattle.msc_text.specs.Readying.{after_stick, shown_after, shown_run, told_stick};
ghost use Rattle.msc_text.specs.Readied.{AreKnown, ArePairRuns, AreRuns};
ghost use Rattle.msc_text.specs.Readied.{CanAppendStick, CanPrintStick};

use crate::stick_format::{StickFormat, StickNames};
use msc_chart::Event;
use msc_findings::FoundStick;
use msc_print::{Page, Pair, Printer, Rows, Text};
use msc_ready::BlockedPairs;
use msc_ready::laws::{each_first_blocked_pair_has_one_run, ready_runs_keep_ready_lines};
use std::alloc::{AllocError, Global};
use std::io::Write;

/// A blocked pair with the one that is ahead of it, or with its run if that is shown.
#[derive(Drop)]
struct StickRow<'r, 'f, 'w, N> {
    alloc: Global,
    names: &'r N,
    format: StickFormat<'f, 'w>,
    stick: FoundStick<'r>,
}

impl<N: StickNames> Text for StickRow<'_, '_, '_, N> {
    ghost can_append = { λ s. CanAppendStick (N.drawing s.names.now) s.stick.pair s.stick.ahead
        (option_copied s.stick.run) };

    ghost bytes = { λ s. N.text s.names.now s.format s.stick.pair s.stick.ahead
        (option_copied s.stick.run) };

    fn append(&self, page: &mut Page) -> Result<(), AllocError> {
        self.names
            .print_stick(self.alloc, page, self.format, self.stick)
    }
}

/// The run of the first blocked pairs with this second event. It depends on that event alone, so it
/// is made once.
#[derive(Drop)]
pub(crate) struct KnownRun {
    second: Event,
    run: Vec<Event>,
}

/// The run for a second event, if it is known.
fn run_in(known: &[KnownRun], second: Event) -> Option<&[Event]>
    ensures { (runs : ℕ → List ℕ) → AreRuns runs known.now
        → IfSome result (λ run. run.now ≡ runs second) }
{
    for one in known {
        if one.second == second {
            return Some(one.run.as_slice());
        }
    }
    None
}

/// The rows of blocked pairs: each with the blocked pair that is ahead of it, or, if it is a first
/// one, with its run while runs are shown. The count is the number of runs that may still be shown.
#[derive(Drop)]
pub(crate) struct StickRows<'r, 'a, 'w, N> {
    pub blocked_pairs: &'r BlockedPairs<'a>,
    /// For each event the blocked pair that is ahead of those that end with it.
    pub ahead: &'r [Option<Pair>],
    pub names: N,
    pub format: StickFormat<'r, 'w>,
}

impl<N: StickNames> StickRows<'_, '_, '_, N> {
    /// Prints a blocked pair with the one that is ahead of it, or with a run.
    fn print_with<W: Write>(
        &self,
        alloc: Global,
        printer: &mut Printer<'_, W>,
        blocked_pair: Pair,
        ahead: Option<Pair>,
        run: Option<&[Event]>,
    )
        requires { CanAppendStick (N.drawing self.now.names) blocked_pair ahead (option_copied run) }
        ensures { Prints printer.old printer.new
            (N.text self.now.names self.now.format blocked_pair ahead (option_copied run.entry)) }
    {
        let stick = FoundStick {
            pair: blocked_pair,
            ahead,
            run,
        };
        printer.print_text(&StickRow {
            alloc,
            names: &self.names,
            format: self.format,
            stick,
        });
    }

    /// Prints a first blocked pair with its run, and keeps the run if it is new. If memory runs
    /// out, the printer stops.
    fn print_run<W: Write>(
        &self,
        alloc: Global,
        printer: &mut Printer<'_, W>,
        known: &mut Vec<KnownRun>,
        blocked_pair: Pair,
    )
        requires blocked_pair { IsFirstBlockedPair (wiring_of self.now.blocked_pairs.now)
            (ready_in self.now.blocked_pairs.now) blocked_pair.0 blocked_pair.1 }
        requires pair { CanPrintStick self.now.blocked_pairs.now (N.drawing self.now.names)
            self.now.ahead.now blocked_pair }
        requires known { AreKnown self.now.blocked_pairs.now known.old.items }
        ensures known { AreKnown self.now.blocked_pairs.now known.new.items }
        ensures printed { (runs : ℕ → List ℕ)
            → AreBlockedPairRuns (wiring_of self.now.blocked_pairs.now) (ready_in self.now.blocked_pairs.now) runs
            → Prints printer.old printer.new (N.text self.now.names self.now.format blocked_pair None
            (Some (runs blocked_pair.1))) }
    {
        each_first_blocked_pair_has_one_run();
        ready_runs_keep_ready_lines();
        let ready = self.blocked_pairs.ready();
        ready.facts();
        if let Some(run) = run_in(known.as_slice(), blocked_pair.1) {
            self.print_with(alloc, printer, blocked_pair, None, Some(run));
            return;
        }
        match ready.blocked_pair_run(alloc, blocked_pair.0, blocked_pair.1) {
            Ok(run) => {
                self.print_with(alloc, printer, blocked_pair, None, Some(run.as_slice()));
                let second = blocked_pair.1;
                if known.push(KnownRun { second, run }).is_err() {
                    printer.stop();
                }
            }
            Err(_) => printer.stop(),
        }
    }

    /// Prints a first blocked pair, with its run while runs are shown. It returns how many may
    /// still be shown.
    fn print_first<W: Write>(
        &self,
        alloc: Global,
        printer: &mut Printer<'_, W>,
        known: &mut Vec<KnownRun>,
        more: u32,
        blocked_pair: Pair,
    ) -> u32
        requires blocked_pair { IsFirstBlockedPair (wiring_of self.now.blocked_pairs.now)
            (ready_in self.now.blocked_pairs.now) blocked_pair.0 blocked_pair.1 }
        requires pair { CanPrintStick self.now.blocked_pairs.now (N.drawing self.now.names)
            self.now.ahead.now blocked_pair }
        requires known { AreKnown self.now.blocked_pairs.now known.old.items }
        ensures known { AreKnown self.now.blocked_pairs.now known.new.items }
        ensures more { result ≡ shown_after more None }
        ensures printed { (runs : ℕ → List ℕ)
            → AreBlockedPairRuns (wiring_of self.now.blocked_pairs.now) (ready_in self.now.blocked_pairs.now) runs
            → Prints printer.old printer.new (N.text self.now.names self.now.format blocked_pair None
            (shown_run more (runs blocked_pair.1))) }
    {
        if more == 0 {
            self.print_with(alloc, printer, blocked_pair, None, None);
            return 0;
        }
        self.print_run(alloc, printer, known, blocked_pair);
        more - 1
    }
}

impl<N: StickNames> Rows for StickRows<'_, '_, '_, N> {
    type Memo = Vec<KnownRun>;

    ghost can_print = { λ s p. CanPrintStick s.blocked_pairs.now (N.drawing s.names) s.ahead.now p };

    ghost are_runs = { λ s runs. ArePairRuns s.blocked_pairs.now runs };

    ghost row_text = { λ s runs. told_stick (N.text s.names s.format) s.ahead.now runs };

    ghost after = { λ s. after_stick s.ahead.now };

    ghost has_memo = { λ s known. AreKnown s.blocked_pairs.now known.items };

    ghost goes_on = { λ s. Unit {0} };

    fn memo(&self, alloc: Global) -> Vec<KnownRun> {
        Vec::new(alloc)
    }

    fn print_row<W: Write>(
        &self,
        alloc: Global,
        printer: &mut Printer<'_, W>,
        memo: &mut Vec<KnownRun>,
        count: u32,
        pair: Pair,
    ) -> u32 {
        match self.ahead[pair.1 as usize] {
            Some(ahead) => {
                self.print_with(alloc, printer, pair, Some(ahead), None);
                count
            }
            None => self.print_first(alloc, printer, memo, count, pair),
        }
    }

    fn is_done(&self, _count: u32) -> bool {
        false
    }
}
