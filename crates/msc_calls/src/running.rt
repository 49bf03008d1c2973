//! From a text to an execution of its chart and its trace, bytes to bytes.

ghost use Rattle.std.specs.Prelude.{◌≡◌, ◌≢◌, IfErr, IfOk};
ghost use Rattle.msc_calls.specs.Answers.{RefusesText};
ghost use Rattle.msc_calls.specs.Checking.{RefusesDraft};
ghost use Rattle.msc_calls.specs.Running.{NamesAnInstance, WritesTrace};

use msc_chart::Queues;
use msc_instance::Gate;
use msc_parser::laws::one_parsing;
use msc_report::Fault;
use msc_source::{Language, Source};
use msc_tool::print_execution;
use std::alloc::Global;
use std::io::Write;
use std::sync::Wait;
use std::thread::Threads;

/// Runs a text's chart under an architecture, each instance in a thread of its own, and writes how
/// each ended and the execution's trace: the least run whose lines are the logs of the instances.
/// Returns whether all have finished; the trace is then a whole run.
///
/// `gate` is called before each output and action, and after each input; if it returns false, the
/// instance stops. An instance that misses an event ends once its takes have found nothing for
/// `patience` rounds in a row, or once all its senders have ended.
///
/// A text without a draft is refused with its first fault, and a draft that is no chart with its
/// own. `NotStarted` has the number of an instance whose thread could not be started, from 0.
/// `Memory` means that memory ran out. After these faults the writer has had no call. `Device`
/// means that the writer failed.
pub fn run_text<R: Threads + Wait + Sync, G: Gate + Sync, W: Write>(
    rt: &R,
    alloc: Global,
    text: &[u8],
    queues: Queues,
    gate: &G,
    patience: u32,
    writer: &mut W,
) -> Result<bool, Fault>
    ensures written { IfOk result (λ finished. WritesTrace text.now queues G.is_open patience
        finished (W.contents writer.old) (W.contents writer.new)) }
    ensures refused { RefusesText text.now result }
    ensures no_chart { RefusesDraft text.now result }
    ensures started { NamesAnInstance text.now result }
    ensures untouched { IfErr result (λ e. e ≢ Fault.Device → writer.new ≡ writer.old) }
{
    one_parsing();
    let source = Source::of(alloc, Language::MscPr, text)?;
    let chart = source.chart();
    let (page, finished) = print_execution(rt, alloc, chart, queues, gate, patience)?;
    writer.write_all(page.bytes.as_slice())?;
    Ok(finished)
}
