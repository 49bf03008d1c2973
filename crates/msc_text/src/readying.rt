//! Whether a system of ready instances can stick, in bytes.

ghost use Rattle.std.specs.Prelude.{◌≡◌, ◌<◌, ℕ, ◌&&◌, Bool, List, IfOk, Ok, Option, Some, is_some};
ghost use Rattle.std.specs.Prelude.{length, nat_eq};
ghost use Rattle.std.specs.List.{All};
ghost use Rattle.std.specs.Option.{option_copied};
ghost use Rattle.msc_chart.specs.Drawings.{Drawing};
ghost use Rattle.msc_chart.specs.Lists.{pairs_of};
ghost use Rattle.msc_chart.specs.Rounds.{two_rounds};
ghost use Rattle.msc_print.specs.Pages.{Tells};
ghost use Rattle.msc_print.specs.Prints.{Prints};
ghost use Rattle.msc_ready.specs.Held.{ready_in, wiring_of};
ghost use Rattle.msc_ready.specs.Rounds.{between_of};
ghost use Rattle.msc_ready.specs.Running.{AreBlockedPairRuns};
ghost use Rattle.msc_ready.specs.BlockedPairs.{AreLeft};
ghost use Rattle.msc_ready.specs.Views.{blocked_pairs_of, HasAhead};
ghost use Rattle.msc_report.specs.Counts.{ready_tally_line};
ghost use Rattle.msc_report.specs.EventTexts.{AreTextsOf};
ghost use Rattle.msc_report.specs.BlockedPairs.{ready_head};
ghost use Rattle.msc_text.specs.StickFormats.{again_count_in, again_texts, closing_in};
ghost use Rattle.msc_text.specs.StickFormats.{left_count_in, once_texts};
ghost use Rattle.msc_text.specs.Readying.{again_text, first_in, head_in, is_none_of, left_behind};
ghost use Rattle.msc_text.specs.Readying.{left_number, left_text, lines_of, more_after, plain_head};
ghost use Rattle.msc_text.specs.Readying.{readiness_of, ready_text, rest_in, told_left};
ghost use Rattle.msc_text.specs.Readying.{told_sticks};
ghost use Rattle.msc_text.specs.Readying.{AreStickFacts, StickFacts, PrintsReady};
ghost use Rattle.msc_text.specs.Judging.{AreItsRounds};
ghost use Rattle.msc_text.specs.Readied.{between_number, AreBetweenRounds};
ghost use Rattle.msc_text.specs.Readied.{AreRoundsOf};
ghost use Rattle.msc_text.specs.Readied.{AreUnrolled};
ghost use Rattle.msc_text.specs.Readied.{CanPrintReady, HasAgainText, IsAgainText, IsReadyAnswer};
ghost use Rattle.msc_text.specs.Readied.{IsReadyOf, IsReadyText};

use crate::blocked_pairs::StickRows;
use crate::left::LeftRows;
use crate::sources::{AllBlockedPairs, BlockedPairsBetween, LeftRaces};
use crate::stick_format::StickFormat;
use msc_chart::laws::ends_share_queues;
use msc_chart::{Chart, Event, Queues, RoundNumbers, Unrolled};
use msc_print::{Page, Pair, Print, Printer, Text, WriteFault, print_pairs, write_by};
use msc_ready::laws::{each_first_blocked_pair_has_one_run, races_left_are_told};
use msc_ready::{BlockedPairs, Ready, RoundBlockedPairs};
use msc_report::{
    EventTexts, OneRound, ReadyFormat, RoundNames, write_ready_head, write_ready_tally,
};
use msc_wording::SpokenReadiness;
use std::alloc::{AllocError, Global};
use std::io::Write;

/// A query on the blocked pairs of a chart.
#[derive(Clone, Copy)]
pub struct ReadyQuery<'q, 'w> {
    /// The architecture.
    pub queues: Queues,
    /// Which instances are ready. Without a list, all are.
    pub only: Option<&'q [bool]>,
    /// The number of first blocked pairs for which a run is printed, if the format has runs.
    pub show: u32,
    /// The format of the answer.
    pub format: StickFormat<'q, 'w>,
}

impl<'q, 'w> ReadyQuery<'q, 'w> {
    /// A query with these parts.
    pub fn of(
        queues: Queues,
        only: Option<&'q [bool]>,
        show: u32,
        format: StickFormat<'q, 'w>,
    ) -> ReadyQuery<'q, 'w>
        ensures { result ≡ record {
          queues = queues;
          only = only.entry;
          show = show;
          format = format.entry;
        } }
    {
        ReadyQuery {
            queues,
            only,
            show,
            format,
        }
    }
}

/// A chart under an architecture whose ready instances are those of the list, or all.
fn ready_of<'a>(
    alloc: Global,
    chart: &'a Chart,
    queues: Queues,
    only: Option<&[bool]>,
) -> Result<Ready<'a>, AllocError>
    ensures chart { IfOk result (λ ready. ready.chart ≡ chart.now) }
    ensures queues { IfOk result (λ ready. ready.queues ≡ queues) }
    ensures lines { IfOk result (λ ready. ready.lines ≡ lines_of (option_copied only.entry)) }
{
    match only {
        Some(lines) => {
            let mut list = Vec::new(alloc);
            list.extend_from_slice(lines)?;
            Ready::some(alloc, chart, queues, list)
        }
        None => Ready::all(alloc, chart, queues),
    }
}

/// The number of these blocked pairs that are first, that is, with no other ahead of them.
fn first_in(ahead: &[Option<Pair>], pairs: &[Pair]) -> usize
    requires { All (λ p. p.1 < length ahead.now) pairs.now }
    ensures { result ≡ first_in ahead.now pairs.now }
{
    let mut count = 0;
    for pair in pairs {
        if ahead[pair.1 as usize].is_none() {
            count += 1;
        }
    }
    count
}

/// Prints the number of blocked pairs between two rounds, if the format has it.
fn print_again_count<W: Write>(
    printer: &mut Printer<'_, W>,
    format: StickFormat<'_, '_>,
    count: u32,
)
    ensures { Prints printer.old printer.new (again_count_in format.entry count) }
{
    match format {
        StickFormat::Plain(format) => match format {
            ReadyFormat::Lines(_) => write!(printer, "again {count}\n"),
            ReadyFormat::Count(_) => {}
            ReadyFormat::Editor(_) => {}
        },
        StickFormat::Full(_) => {}
    }
}

/// Prints the number of races that are left, if the format has it.
fn print_left_count<W: Write>(printer: &mut Printer<'_, W>, format: StickFormat<'_, '_>, count: u32)
    ensures { Prints printer.old printer.new (left_count_in format.entry count) }
{
    match format {
        StickFormat::Plain(format) => match format {
            ReadyFormat::Lines(_) => write!(printer, "races {count}\n"),
            ReadyFormat::Count(_) => {}
            ReadyFormat::Editor(_) => {}
        },
        StickFormat::Full(_) => {}
    }
}

/// The blocked pairs of a chart, and for each event the blocked pair that is ahead of those that
/// end with it.
#[derive(Drop)]
struct StickTable<'a> {
    blocked_pairs: BlockedPairs<'a>,
    ahead: Vec<Option<(Event, Event)>>,
}

impl<'a> StickTable<'a> {
    /// The table of a chart under an architecture whose ready instances are those of the list, or
    /// all.
    fn of(
        alloc: Global,
        chart: &'a Chart,
        queues: Queues,
        only: Option<&[bool]>,
    ) -> Result<StickTable<'a>, AllocError>
        ensures of { IfOk result
            (λ table. IsReadyOf chart.now queues (option_copied only.entry) table.blocked_pairs) }
        ensures ahead { IfOk result (λ table. HasAhead table.blocked_pairs table.ahead.items) }
    {
        let ready = ready_of(alloc, chart, queues, only)?;
        let blocked_pairs = BlockedPairs::of(alloc, ready)?;
        let ahead = blocked_pairs.all_ahead(alloc)?;
        Ok(StickTable {
            blocked_pairs,
            ahead,
        })
    }

    /// The facts on the blocked pairs between two rounds. It does nothing.
    fn facts(&self, names: RoundNames<'_>)
        requires { self.now.blocked_pairs.chart ≡ two_rounds names.chart.now }
        ensures { AreBetweenRounds names.entry.chart.now self.now.blocked_pairs }
    {
        each_first_blocked_pair_has_one_run();
        names.chart.facts();
        self.blocked_pairs.ready().facts();
        let between = RoundBlockedPairs {
            blocked_pairs: &self.blocked_pairs,
            numbers: names.numbers,
        };
        between.facts();
    }

    /// The number of first blocked pairs, of `count` blocked pairs. An error is a growth of memory
    /// that was refused.
    fn count_first(&self, alloc: Global, count: u32) -> Result<u32, AllocError>
        requires ahead { HasAhead self.now.blocked_pairs self.now.ahead.items }
        requires count { count ≡ length (blocked_pairs_of self.now.blocked_pairs) }
        ensures { IfOk result (λ first.
            first ≡ first_in self.now.ahead.items (blocked_pairs_of self.now.blocked_pairs)) }
    {
        self.blocked_pairs.facts();
        if count == 0 {
            return Ok(0);
        }
        let mut pairs = Vec::new(alloc);
        let mut first = 0;
        for e in 0..self.blocked_pairs.ready().events() {
            self.blocked_pairs.next(&mut pairs, e)?;
            first += first_in(self.ahead.as_slice(), pairs.as_slice()) as u32;
        }
        Ok(first)
    }

    /// Prints all blocked pairs, with runs for up to `show` first ones. It returns how many more
    /// runs may be shown.
    fn print_sticks<W: Write>(
        &self,
        alloc: Global,
        printer: &mut Printer<'_, W>,
        texts: &EventTexts,
        format: StickFormat<'_, '_>,
        show: u32,
    ) -> Result<u32, AllocError>
        requires ahead { HasAhead self.now.blocked_pairs self.now.ahead.items }
        requires texts { AreTextsOf self.now.blocked_pairs.chart texts.now }
        ensures more { IfOk result
            (λ more. more ≡ left_behind self.now.ahead.items show (blocked_pairs_of self.now.blocked_pairs)) }
        ensures printed { (runs : ℕ → List ℕ)
            → AreBlockedPairRuns (wiring_of self.now.blocked_pairs) (ready_in self.now.blocked_pairs) runs
            → Prints printer.old printer.new (told_sticks
            (once_texts format.entry self.now.blocked_pairs.chart) self.now.ahead.items runs show
            (blocked_pairs_of self.now.blocked_pairs)) }
    {
        self.blocked_pairs.facts();
        let pairs = AllBlockedPairs {
            blocked_pairs: &self.blocked_pairs,
        };
        let names = OneRound {
            chart: self.blocked_pairs.ready().chart(),
            texts,
        };
        let rows = StickRows {
            blocked_pairs: &self.blocked_pairs,
            ahead: self.ahead.as_slice(),
            names,
            format,
        };
        print_pairs(alloc, printer, &pairs, &mut Vec::new(alloc), &rows, show)
    }

    /// Prints the number of races that are left, and then all of them. It returns that number.
    fn print_races<W: Write>(
        &self,
        alloc: Global,
        printer: &mut Printer<'_, W>,
        texts: &EventTexts,
        format: StickFormat<'_, '_>,
    ) -> Result<u32, AllocError>
        requires { AreTextsOf self.now.blocked_pairs.chart texts.now }
        ensures count { IfOk result (λ count. (left : ℕ → ℕ → Bool)
            → AreLeft (wiring_of self.now.blocked_pairs) (ready_in self.now.blocked_pairs) left
            → count ≡ length (pairs_of left (length self.now.blocked_pairs.chart.events))) }
        ensures printed { (left : ℕ → ℕ → Bool)
            → AreLeft (wiring_of self.now.blocked_pairs) (ready_in self.now.blocked_pairs) left
            → Prints printer.old printer.new (told_left format.entry self.now.blocked_pairs.chart
            (pairs_of left (length self.now.blocked_pairs.chart.events))) }
    {
        ends_share_queues();
        let ready = self.blocked_pairs.ready();
        ready.facts();
        let count = ready.count_left();
        print_left_count(printer, format, count);
        let pairs = LeftRaces { ready };
        let names = OneRound {
            chart: ready.chart(),
            texts,
        };
        let rows = LeftRows { names, format };
        print_pairs(alloc, printer, &pairs, &mut Vec::new(alloc), &rows, 0)?;
        Ok(count)
    }

    /// Prints the number of blocked pairs between two rounds, and then all of them, with runs for
    /// up to `show` first ones. It returns that number.
    fn print_between<W: Write>(
        &self,
        alloc: Global,
        printer: &mut Printer<'_, W>,
        names: RoundNames<'_>,
        format: StickFormat<'_, '_>,
        show: u32,
    ) -> Result<u32, AllocError>
        requires two_rounds { self.now.blocked_pairs.chart ≡ two_rounds names.chart.now }
        requires ahead { HasAhead self.now.blocked_pairs self.now.ahead.items }
        ensures count { IfOk result (λ count. count
            ≡ length (between_of self.now.blocked_pairs names.entry.chart.now)) }
        ensures printed { (runs : ℕ → List ℕ)
            → AreBlockedPairRuns (wiring_of self.now.blocked_pairs) (ready_in self.now.blocked_pairs) runs
            → Prints printer.old printer.new (again_text format.entry names.entry.chart.now
            self.now.blocked_pairs self.now.ahead.items runs show) }
    {
        names.chart.facts();
        self.facts(names);
        let pairs = BlockedPairsBetween {
            blocked_pairs: &self.blocked_pairs,
            names,
        };
        let count = pairs.rounds().count();
        print_again_count(printer, format, count);
        let rows = StickRows {
            blocked_pairs: &self.blocked_pairs,
            ahead: self.ahead.as_slice(),
            names,
            format,
        };
        print_pairs(alloc, printer, &pairs, &mut Vec::new(alloc), &rows, show)?;
        Ok(count)
    }
}

/// The table of the chart of two rounds, if they are given.
fn table_of<'a>(
    alloc: Global,
    rounds: Option<&'a Unrolled<'_>>,
    queues: Queues,
    only: Option<&[bool]>,
) -> Result<Option<StickTable<'a>>, AllocError>
    ensures some { IfOk result (λ table. is_some table ≡ is_some rounds.entry) }
    ensures rounds { (d : Drawing) → AreItsRounds d rounds.entry
        → IfOk result (AreRoundsOf d queues (option_copied only.entry)) }
{
    match rounds {
        Some(rounds) => Ok(Some(StickTable::of(alloc, rounds.two(), queues, only)?)),
        None => Ok(None),
    }
}

/// The facts on two rounds, if their table is given. It does nothing.
fn round_facts(two: &Option<StickTable<'_>>, names: RoundNames<'_>)
    requires { AreUnrolled names.chart.now two.now }
    ensures { (queues : Queues) (only : Option (List Bool))
        → AreRoundsOf names.entry.chart.now queues only two.now
        → HasAgainText names.entry.chart.now queues only two.now }
{
    match two {
        Some(table) => table.facts(names),
        None => {}
    }
}

/// The lines that precede the blocked pairs of a chart.
#[derive(Clone, Copy)]
struct ReadyHead<'r, 'a> {
    ready: &'r Ready<'a>,
    only: Option<&'r [bool]>,
    count: u32,
    may: bool,
}

impl Text for ReadyHead<'_, '_> {
    ghost can_append = { λ s. (l : List Bool) → option_copied s.only ≡ Some l
        → length l ≡ length s.ready.now.chart.instances };

    ghost bytes = { λ s.
        ready_head s.ready.now.chart s.ready.now.queues (option_copied s.only) s.count s.may };

    fn append(&self, page: &mut Page) -> Result<(), AllocError> {
        let (chart, queues) = (self.ready.chart(), self.ready.queues());
        match write_ready_head(page, chart, queues, self.only, self.count, self.may) {
            Ok(()) => Ok(()),
            Err(_) => Err(AllocError),
        }
    }
}

/// The line of the file of this name, with these numbers of blocked pairs and of first ones.
#[derive(Clone, Copy)]
struct ReadyTally<'f> {
    file: &'f [u8],
    count: u32,
    first: u32,
}

impl Text for ReadyTally<'_> {
    ghost can_append = { λ s. Unit {0} };

    ghost bytes = { λ s. ready_tally_line s.file.now s.count s.first };

    fn append(&self, page: &mut Page) -> Result<(), AllocError> {
        match write_ready_tally(page, self.file, self.count, self.first) {
            Ok(()) => Ok(()),
            Err(_) => Err(AllocError),
        }
    }
}

/// What closes findings for people; other formats have nothing there.
#[derive(Clone, Copy)]
struct ReadyClosing<'f, 'w> {
    alloc: Global,
    format: StickFormat<'f, 'w>,
    readiness: SpokenReadiness,
}

impl Text for ReadyClosing<'_, '_> {
    ghost can_append = { λ s. Unit {0} };

    ghost bytes = { λ s. closing_in s.format s.readiness };

    fn append(&self, page: &mut Page) -> Result<(), AllocError> {
        match self.format {
            StickFormat::Plain(_) => Ok(()),
            StickFormat::Full(format) => format.print_readiness(self.alloc, page, self.readiness),
        }
    }
}

/// This number, if there is one.
fn number_of(number: Option<u32>) -> Option<usize>
    ensures { result ≡ number }
{
    match number {
        Some(number) => Some(number as usize),
        None => None,
    }
}

/// Whether there is none of these, if they were counted.
fn is_none_of(number: Option<u32>) -> bool
    ensures { result ≡ is_none_of number }
{
    match number {
        Some(number) => number == 0,
        None => true,
    }
}

/// What was found besides the blocked pairs of a chart.
#[derive(Clone, Copy)]
struct Rest {
    /// The number of races that are left, if they were counted.
    left: Option<u32>,
    /// The number of blocked pairs between two rounds, if they were counted.
    between: Option<u32>,
}

/// Both numbers, if memory did not run out.
fn rest_of(
    left: Result<Option<u32>, AllocError>,
    between: Result<Option<u32>, AllocError>,
) -> Result<Rest, AllocError>
    ensures { IfOk result (λ rest. (left ≡ Ok rest.left) × (between ≡ Ok rest.between)) }
{
    match (left, between) {
        (Ok(left), Ok(between)) => Ok(Rest { left, between }),
        _ => Err(AllocError),
    }
}

/// Whether a system with `count` blocked pairs passes.
fn passes(count: u32, rest: Rest) -> bool
    ensures { result ≡ ((nat_eq count 0 && is_none_of rest.left) && is_none_of rest.between) }
{
    count == 0 && is_none_of(rest.left) && is_none_of(rest.between)
}

/// The answer to a query: the table of the chart, that of its two rounds if the query includes
/// them, and whether some ready run is whole.
#[derive(Clone, Copy)]
struct ReadyAnswer<'r, 'a, 's, 'b, 'n, 'q, 'w> {
    one: &'r StickTable<'a>,
    /// The texts of the events of the chart.
    texts: &'r EventTexts,
    two: Option<&'s StickTable<'b>>,
    names: RoundNames<'n>,
    /// The number of blocked pairs of the chart.
    count: u32,
    may: bool,
    query: ReadyQuery<'q, 'w>,
}

impl ReadyAnswer<'_, '_, '_, '_, '_, '_, '_> {
    /// Prints what precedes the blocked pairs in this format. If memory runs out, the printer stops.
    fn print_plain_head<W: Write>(
        &self,
        alloc: Global,
        printer: &mut Printer<'_, W>,
        format: ReadyFormat<'_>,
    )
        requires { CanPrintReady self.now }
        ensures { (k : StickFacts) → k.ahead ≡ self.now.one.now.ahead.items → k.may ≡ self.now.may
            → Prints printer.old printer.new (plain_head format.entry
            self.now.one.now.blocked_pairs (option_copied self.now.query.only) k) }
    {
        match format {
            ReadyFormat::Lines(_) => printer.print_text(&ReadyHead {
                ready: self.one.blocked_pairs.ready(),
                only: self.query.only,
                count: self.count,
                may: self.may,
            }),
            ReadyFormat::Count(file) => match self.one.count_first(alloc, self.count) {
                Ok(first) => printer.print_text(&ReadyTally {
                    file,
                    count: self.count,
                    first,
                }),
                Err(_) => printer.stop(),
            },
            ReadyFormat::Editor(_) => {}
        }
    }

    /// Prints what precedes the blocked pairs. If memory runs out, the printer stops.
    fn print_head<W: Write>(&self, alloc: Global, printer: &mut Printer<'_, W>)
        requires { CanPrintReady self.now }
        ensures { (k : StickFacts) → k.ahead ≡ self.now.one.now.ahead.items → k.may ≡ self.now.may
            → Prints printer.old printer.new (head_in self.now.query.format
            self.now.one.now.blocked_pairs (option_copied self.now.query.only) k) }
    {
        match self.query.format {
            StickFormat::Plain(format) => self.print_plain_head(alloc, printer, format),
            StickFormat::Full(_) => {}
        }
    }

    /// Prints the races that are left, if they are printed. It returns how many there are then.
    fn print_left<W: Write>(
        &self,
        alloc: Global,
        printer: &mut Printer<'_, W>,
    ) -> Result<Option<u32>, AllocError>
        requires { CanPrintReady self.now }
        ensures count { IfOk result (λ left. (k : StickFacts)
            → AreStickFacts self.now.one.now.blocked_pairs k
            → left ≡ left_number self.now.one.now.blocked_pairs
            (option_copied self.now.query.only) k) }
        ensures printed { (k : StickFacts) → AreStickFacts self.now.one.now.blocked_pairs k
            → Prints printer.old printer.new (left_text self.now.query.format
            self.now.one.now.blocked_pairs (option_copied self.now.query.only) k) }
    {
        if self.count == 0 && self.query.only.is_some() {
            let format = self.query.format;
            let count = self.one.print_races(alloc, printer, self.texts, format)?;
            return Ok(Some(count));
        }
        Ok(None)
    }

    /// Prints the answer on two rounds, if the query includes them, with up to `more` runs. It
    /// returns how many blocked pairs are between them then.
    fn print_again<W: Write>(
        &self,
        alloc: Global,
        printer: &mut Printer<'_, W>,
        more: u32,
    ) -> Result<Option<u32>, AllocError>
        requires { CanPrintReady self.now }
        ensures count { IfOk result (λ between. between
            ≡ between_number self.now.names.chart.now (option_copied self.now.two)) }
        ensures printed { (text : List ℕ) → IsAgainText self.now.query.format
            self.now.names.chart.now (option_copied self.now.two) more text
            → Prints printer.old printer.new text }
    {
        let Some(two) = self.two else {
            return Ok(None);
        };
        let format = self.query.format;
        let count = two.print_between(alloc, printer, self.names, format, more)?;
        Ok(Some(count))
    }

    /// Prints what follows the blocked pairs of the chart, with up to `more` runs: the races that
    /// are left and the answer on two rounds, in the order of the format. It returns how many races
    /// are left, and how many blocked pairs are between two rounds, if these were counted.
    fn print_rest<W: Write>(
        &self,
        alloc: Global,
        printer: &mut Printer<'_, W>,
        more: u32,
    ) -> Result<Rest, AllocError>
        requires { CanPrintReady self.now }
        ensures left { IfOk result (λ rest. (k : StickFacts)
            → AreStickFacts self.now.one.now.blocked_pairs k
            → rest.left ≡ left_number self.now.one.now.blocked_pairs
            (option_copied self.now.query.only) k) }
        ensures between { IfOk result (λ rest. rest.between
            ≡ between_number self.now.names.chart.now (option_copied self.now.two)) }
        ensures printed { (k : StickFacts) (text : List ℕ)
            → AreStickFacts self.now.one.now.blocked_pairs k
            → IsAgainText self.now.query.format self.now.names.chart.now
            (option_copied self.now.two) more text
            → Prints printer.old printer.new (rest_in self.now.query.format
            (left_text self.now.query.format self.now.one.now.blocked_pairs
            (option_copied self.now.query.only) k) text) }
    {
        if self.query.format.left_comes_last() {
            let between = self.print_again(alloc, printer, more);
            let left = self.print_left(alloc, printer);
            return rest_of(left, between);
        }
        let left = self.print_left(alloc, printer);
        let between = self.print_again(alloc, printer, more);
        rest_of(left, between)
    }

    /// Prints what closes the answer, with these numbers.
    fn print_closing<W: Write>(&self, alloc: Global, printer: &mut Printer<'_, W>, rest: Rest)
        ensures { Prints printer.old printer.new (closing_in self.now.query.format (record {
          blocked = self.now.count;
          between = rest.between;
          finishes = self.now.may;
          left = rest.left;
        })) }
    {
        let readiness = SpokenReadiness {
            blocked: self.count as usize,
            between: number_of(rest.between),
            finishes: self.may,
            left: number_of(rest.left),
        };
        printer.print_text(&ReadyClosing {
            alloc,
            format: self.query.format,
            readiness,
        });
    }

    /// Prints all that comes before what `print_rest` prints. It returns how many more runs may be
    /// shown.
    fn print_once<W: Write>(
        &self,
        alloc: Global,
        printer: &mut Printer<'_, W>,
    ) -> Result<u32, AllocError>
        requires { CanPrintReady self.now }
        ensures more { IfOk result (λ more. (k : StickFacts)
            → k.ahead ≡ self.now.one.now.ahead.items
            → more ≡ more_after self.now.one.now.blocked_pairs self.now.query.show k) }
        ensures printed { (k : StickFacts) → AreStickFacts self.now.one.now.blocked_pairs k
            → k.ahead ≡ self.now.one.now.ahead.items → k.may ≡ self.now.may
            → Prints printer.old printer.new (ready_text self.now.query.format
            self.now.one.now.blocked_pairs (option_copied self.now.query.only) self.now.query.show k) }
    {
        let query = self.query;
        self.print_head(alloc, printer);
        self.one
            .print_sticks(alloc, printer, self.texts, query.format, query.show)
    }
}

impl Print for ReadyAnswer<'_, '_, '_, '_, '_, '_, '_> {
    ghost can_print = { CanPrintReady };

    ghost is_text = { IsReadyText };

    ghost is_answer = { IsReadyAnswer };

    fn print<W: Write>(
        &self,
        alloc: Global,
        printer: &mut Printer<'_, W>,
    ) -> Result<bool, AllocError> {
        match self.print_once(alloc, printer) {
            Ok(more) => match self.print_rest(alloc, printer, more) {
                Ok(rest) => {
                    self.print_closing(alloc, printer, rest);
                    Ok(passes(self.count, rest))
                }
                Err(_) => {
                    printer.stop();
                    Err(AllocError)
                }
            },
            Err(_) => {
                printer.stop();
                Err(AllocError)
            }
        }
    }
}

/// Writes whether a system of ready instances can stick under an architecture, and its blocked
/// pairs, in order. In lines of text the first `show` blocked pairs that are first have a run after
/// which the system has stuck; any other names the blocked pair that is ahead of it. With a list of
/// ready instances, the answer is about these, and if there is no blocked pair, the races that are
/// left follow. With two rounds of the chart, the blocked pairs between these follow in the same
/// way, with the runs that `show` leaves; in lines for editors and in findings for people they precede
/// races that are left. A count has neither: it is of the blocked pairs of one round. Findings for
/// people are closed by a line with what was found. Returns whether there is no blocked pair, and,
/// with a list, no race is left.
///
/// After `Memory` a beginning of the answer may have been written. `Device` says that a write
/// failed.
pub fn write_ready<W: Write>(
    alloc: Global,
    chart: &Chart,
    rounds: Option<&Unrolled<'_>>,
    query: ReadyQuery<'_, '_>,
    writer: &mut W,
) -> Result<bool, WriteFault>
    requires lines { (l : List Bool) → option_copied query.only ≡ Some l
        → length l ≡ length chart.now.instances }
    requires rounds { AreItsRounds chart.now rounds }
    ensures { Tells W.contents (PrintsReady chart.now query.entry.queues
        (option_copied query.entry.only) (is_some rounds.entry) query.entry.show query.entry.format)
        result writer.old writer.new }
{
    each_first_blocked_pair_has_one_run();
    races_left_are_told();
    let numbers = RoundNumbers::of(alloc, chart)?;
    let texts = EventTexts::new(alloc, chart)?;
    let names = RoundNames {
        chart,
        numbers: &numbers,
        texts: Some(&texts),
    };
    let one = StickTable::of(alloc, chart, query.queues, query.only)?;
    let two = table_of(alloc, rounds, query.queues, query.only)?;
    round_facts(&two, names);
    one.blocked_pairs.facts();
    let ready = one.blocked_pairs.ready();
    ready.facts();
    let may = ready.may_finish(alloc)?;
    let both = two.as_ref();
    let show = query.format.runs_shown(query.show);
    let answer = ReadyAnswer {
        one: &one,
        texts: &texts,
        two: both,
        names,
        count: one.blocked_pairs.count(),
        may,
        query: ReadyQuery { show, ..query },
    };
    write_by(alloc, &answer, writer)
}
