//! From a text to the verdict on its chart, bytes to bytes.

ghost use Rattle.std.specs.Prelude.{◌≡◌, ◌≢◌, ◌⊎◌, IfErr, IfOk};
ghost use Rattle.msc_calls.specs.Answers.{RefusesText, StartsNothing};
ghost use Rattle.msc_calls.specs.Checking.{BeginsVerdict, RefusesDraft, WritesVerdict};
ghost use Rattle.msc_calls.specs.Plain.{plain, plain_style};

use msc_chart::Queues;
use msc_judge::CheckOptions;
use msc_parser::laws::one_parsing;
use msc_race::laws::{enforced_orders_tell_verdicts, the_witness_reverses};
use msc_reason::KindSet;
use msc_report::{Fault, Style};
use msc_source::{Language, Source};
use msc_text::{ChartFormat, CheckInput, judge_chart};
use std::alloc::Global;
use std::io::Write;

/// The options of a verdict: all races, and runs for the first `show`.
fn all_races(show: u32) -> CheckOptions
    ensures { result ≡ plain show }
{
    CheckOptions {
        closest: false,
        why: false,
        allowed: KindSet::NONE,
        most: u32::MAX,
        show,
        short: false,
    }
}

/// The format of a verdict.
fn plain_lines() -> ChartFormat<'static, 'static>
    ensures { result ≡ ChartFormat.Lines plain_style }
{
    ChartFormat::Lines(Style::PLAIN)
}

/// Writes the verdict on a text's chart under an architecture, and each race in order, the first
/// `show` with the witness of their first event, which reverses them. Returns whether the
/// verdict is `pass`.
///
/// A text without a draft is refused with its first fault, and a draft that is no chart with its
/// own. `Memory` means want of memory: the writer may have a beginning of the answer then. After
/// another refusal the writer has had no call. `Device` means that the writer failed.
pub fn check_text<W: Write>(
    alloc: Global,
    text: &[u8],
    queues: Queues,
    show: u32,
    writer: &mut W,
) -> Result<bool, Fault>
    ensures written { IfOk result (λ passed.
        WritesVerdict text.now queues show passed (W.contents writer.old) (W.contents writer.new)) }
    ensures refused { RefusesText text.now result }
    ensures no_chart { RefusesDraft text.now result }
    ensures started { StartsNothing result }
    ensures begun { IfErr result (λ e. e ≡ Fault.Memory → (writer.new ≡ writer.old)
        ⊎ BeginsVerdict text.now queues show (W.contents writer.old) (W.contents writer.new)) }
    ensures untouched { IfErr result
        (λ e. e ≢ Fault.Memory → e ≢ Fault.Device → writer.new ≡ writer.old) }
{
    one_parsing();
    the_witness_reverses();
    enforced_orders_tell_verdicts();
    let source = Source::of(alloc, Language::MscPr, text)?;
    let input = CheckInput::of(source.chart(), queues, None, None);
    let options = all_races(show);
    let found = judge_chart(alloc, input, options, plain_lines(), writer)?;
    Ok(found.totals.passes())
}
