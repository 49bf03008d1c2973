//! The diagnostics of sticks and of races that are left.

ghost use Rattle.std.specs.Prelude.{◌≡◌, ◌<◌, ◌++◌, MatchOption, None, OnOk, Some, length};
ghost use Rattle.std.specs.Prelude.{slice_get};
ghost use Rattle.std.specs.Option.{option_copied};
ghost use Rattle.msc_chart.specs.Rounds.{two_rounds};
ghost use Rattle.msc_full.specs.Blocks.{texts_of};
ghost use Rattle.msc_full.specs.Sticks.{behind_of, run_of};
ghost use Rattle.msc_reason.specs.Named.{AreEventsOf};
ghost use Rattle.msc_wording.specs.Runs.{run_rows};
ghost use Rattle.msc_findings.specs.Sticks.{behind_note, left_text, round_stick_text};
ghost use Rattle.msc_findings.specs.Sticks.{stick_events, stick_text, stick_with};

use crate::format::FullFormat;
use crate::rounds::{once, round_steps};
use crate::run::{lent_rows, run_steps};
use msc_chart::{Chart, Event, RoundNumbers};
use msc_full::{ShownRace, ShownStick, StickShown, left_text, stick_text};
use msc_print::Page;
use msc_reason::{Cause, RaceKind};
use msc_wording::{SpokenStep, blocks_before, run_rows};
use std::alloc::{AllocError, Global};

/// A stick: two inputs of one queue, with the stick that is ahead of it, or with its run.
#[derive(Clone, Copy)]
pub struct FoundStick<'r> {
    /// The input that is waited for, and the one whose message can be ahead.
    pub pair: (Event, Event),
    /// The stick that is ahead of it, if there is one.
    pub ahead: Option<(Event, Event)>,
    /// Its run, if that is shown.
    pub run: Option<&'r [Event]>,
}

/// The events of a stick, by their numbers in the chart.
#[derive(Clone, Copy)]
struct StickEvents {
    first: Event,
    second: Event,
    /// The outputs of their messages.
    needed: Event,
    output: Event,
    /// Whether the second event is of the next round.
    is_next: bool,
}

/// The events of the stick of these two inputs.
fn stick_events(chart: &Chart, first: Event, second: Event, is_next: bool) -> StickEvents
    requires first { first < length chart.now.events }
    requires second { second < length chart.now.events }
    ensures { result ≡ stick_events chart.now is_next first second }
{
    StickEvents {
        first,
        second,
        needed: chart.other_end(first),
        output: chart.other_end(second),
        is_next,
    }
}

impl FullFormat<'_, '_> {
    /// Appends the diagnostic of a stick with what is shown of it.
    fn print_with(
        &self,
        alloc: Global,
        page: &mut Page,
        stick: StickEvents,
        shown: StickShown<'_>,
    ) -> Result<(), AllocError>
        ensures { OnOk result (page.new.bytes.items ≡ page.old.bytes.items
            ++ stick_with self.now.text stick (behind_of shown.entry) (run_of shown.entry)) }
    {
        let shown_stick = ShownStick {
            first: stick.first,
            second: stick.second,
            needed: stick.needed,
            output: stick.output,
            is_next: stick.is_next,
            shown,
        };
        let text = stick_text(alloc, self.text, shown_stick)?;
        page.bytes.extend_from_slice(text.as_slice())
    }

    /// Appends the diagnostic of a stick that has another ahead of it, whose first event is `ahead`.
    fn print_behind(
        &self,
        alloc: Global,
        page: &mut Page,
        stick: StickEvents,
        ahead: Event,
    ) -> Result<(), AllocError>
        ensures { OnOk result (page.new.bytes.items ≡ page.old.bytes.items
            ++ stick_with self.now.text stick
            (behind_note self.now.text (slice_get self.now.text.events.now ahead)) None) }
    {
        match self.text.events.get(ahead as usize) {
            Some(event) => {
                let (owner, line) = (event.spoken.owner, event.spoken.line);
                let note = blocks_before(alloc, self.text.names, owner, line)?;
                self.print_with(alloc, page, stick, StickShown::Behind(note.as_str()))
            }
            None => self.print_with(alloc, page, stick, StickShown::Nothing),
        }
    }

    /// Appends the diagnostic of a stick with a run of these steps.
    fn print_with_run(
        &self,
        alloc: Global,
        page: &mut Page,
        stick: StickEvents,
        steps: &[SpokenStep<'_>],
    ) -> Result<(), AllocError>
        ensures { OnOk result (page.new.bytes.items ≡ page.old.bytes.items
            ++ stick_with self.now.text stick None
            (Some (run_rows (texts_of self.now.text.names.now) steps.now))) }
    {
        let rows = run_rows(alloc, self.text.names, steps)?;
        let lent = lent_rows(alloc, rows.as_slice())?;
        self.print_with(alloc, page, stick, StickShown::Run(lent.as_slice()))
    }

    /// Appends the diagnostic of a stick of a chart, with the stick that is ahead of it, or with its
    /// run. The only error is want of memory.
    pub fn print_stick(
        &self,
        alloc: Global,
        page: &mut Page,
        chart: &Chart,
        stick: FoundStick<'_>,
    ) -> Result<(), AllocError>
        requires first { stick.pair.0 < length chart.now.events }
        requires second { stick.pair.1 < length chart.now.events }
        ensures { OnOk result (page.new.bytes.items ≡ page.old.bytes.items
            ++ stick_text self.now chart.now stick.entry.pair stick.entry.ahead
            (option_copied stick.entry.run)) }
    {
        let events = stick_events(chart, stick.pair.0, stick.pair.1, false);
        if let Some(ahead) = stick.ahead {
            return self.print_behind(alloc, page, events, ahead.0);
        }
        match stick.run {
            Some(run) => {
                let steps = run_steps(alloc, self.text, run)?;
                self.print_with_run(alloc, page, events, steps.as_slice())
            }
            None => self.print_with(alloc, page, events, StickShown::Nothing),
        }
    }

    /// Appends the diagnostic of a stick between two rounds of a chart, with the stick that is ahead
    /// of it, or with its run. Events are those of two rounds. The only error is want of memory.
    pub fn print_round_stick(
        &self,
        alloc: Global,
        page: &mut Page,
        chart: &Chart,
        numbers: &RoundNumbers<'_>,
        stick: FoundStick<'_>,
    ) -> Result<(), AllocError>
        requires same { numbers.now ≡ chart.now }
        requires first { stick.pair.0 < length (two_rounds chart.now).events }
        requires second { stick.pair.1 < length (two_rounds chart.now).events }
        requires ahead { MatchOption stick.ahead (Unit {0})
            (λ p. (p.0 < length (two_rounds chart.now).events)
            × (p.1 < length (two_rounds chart.now).events)) }
        requires run { MatchOption (option_copied stick.run) (Unit {0})
            (AreEventsOf (two_rounds chart.now)) }
        ensures { OnOk result (page.new.bytes.items ≡ page.old.bytes.items
            ++ round_stick_text self.now chart.now stick.entry.pair stick.entry.ahead
            (option_copied stick.entry.run)) }
    {
        let (first, second) = (once(numbers, stick.pair.0), once(numbers, stick.pair.1));
        let events = stick_events(chart, first, second, true);
        if let Some(ahead) = stick.ahead {
            return self.print_behind(alloc, page, events, once(numbers, ahead.0));
        }
        match stick.run {
            Some(run) => {
                let steps = round_steps(alloc, self.text, numbers, run)?;
                self.print_with_run(alloc, page, events, steps.as_slice())
            }
            None => self.print_with(alloc, page, events, StickShown::Nothing),
        }
    }

    /// Appends the diagnostic of a race that is left. The only error is want of memory.
    pub fn print_left(
        &self,
        alloc: Global,
        page: &mut Page,
        race: (Event, Event),
    ) -> Result<(), AllocError>
        ensures { OnOk result (page.new.bytes.items ≡ page.old.bytes.items
            ++ left_text self.now race) }
    {
        let (first, second) = race;
        // The diagnostic does not give a cause.
        let cause = Cause {
            kind: RaceKind::Early,
            needed: first,
            output: second,
            always: false,
        };
        let shown = ShownRace {
            first,
            second,
            cause,
            is_next: false,
            scenarios: None,
            run: None,
        };
        let text = left_text(alloc, self.text, shown)?;
        page.bytes.extend_from_slice(text.as_slice())
    }
}
