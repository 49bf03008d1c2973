//! How a run of the program ends: statuses, and why a task is refused.

ghost use Rattle.std.specs.Prelude.{◌≡◌, OnOk};
ghost use Rattle.std.specs.Io.KnownBytes.{Appends};
ghost use Rattle.msc_answer.specs.Ending.{ended_by, ends_as, finished_by, link_refusal_line};
ghost use Rattle.msc_answer.specs.Ending.{refusal_line, status_code};
ghost use Rattle.msc_answer.specs.Ending.{status_of};
ghost use Rattle.msc_answer.specs.Refused.{is_spent};
ghost use Rattle.msc_report.specs.Refusals.{of_reading};
ghost use Rattle.msc_report.specs.Texts.{fault_line};

use crate::arrow_marks::RefusedMark;
use crate::notes::write_cause;
use crate::own::LinkRefusal;
use msc_chart::UnrollFault;
use msc_diagram::{write_accept_fault, write_import_fault};
use msc_ending::RunFault;
use msc_import::Refused;
use msc_mark::MarkFault;
use msc_mermaid::ImportFault;
use msc_print::WriteFault;
use msc_report::{
    Fault, NamedFault, RulesOf, write_fault, write_instance_fault, write_link_fault,
    write_mark_fault, write_pair_fault, write_queues_fault, write_unroll_fault,
};
use msc_source::{ReadFault, SourceFault};
use std::alloc::AllocError;
use std::io;
use std::io::Write;

/// How a run of the program ended: its exit status.
#[derive(Clone, Copy)]
pub enum Status {
    /// The answer was written, if one is requested. The chart has no race that counts, the pair is
    /// enforced, all instances that were run have finished, or a system of ready instances
    /// finishes.
    Done,
    /// The answer was written, if one is requested. The chart has races that count or are left, the
    /// pair is not enforced, or the system can stick.
    Races,
    /// The text, a name or the pair was refused, or the words are no command.
    Refused,
    /// The answer was written, and some instance has not finished.
    Unfinished,
    /// Memory, a device or the start of a thread failed.
    Failed,
}

impl Status {
    /// The exit status of the program.
    pub fn code(self) -> u8
        ensures { result ≡ status_code self }
    {
        match self {
            Status::Done => 0,
            Status::Races => 1,
            Status::Refused => 2,
            Status::Unfinished => 3,
            Status::Failed => 4,
        }
    }
}

/// The status of an answer that holds or not.
pub(crate) fn ended_by(holds: bool) -> Status
    ensures { result ≡ ended_by holds }
{
    if holds { Status::Done } else { Status::Races }
}

/// The status of an execution in which all instances have finished, or not.
pub(crate) fn finished_by(finished: bool) -> Status
    ensures { result ≡ finished_by finished }
{
    if finished {
        Status::Done
    } else {
        Status::Unfinished
    }
}

/// Why a task has no answer: a fault of some phase, or a refusal of the request.
#[derive(Clone, Copy)]
pub enum Refusal<'w> {
    /// A fault of some phase.
    Fault(Fault),
    /// The names are not two events of the chart, or not a race.
    Pair(NamedFault),
    /// A comment of the text begins like a mark, and is none.
    Mark(MarkFault),
    /// A mark of the diagram is faulty. It is the first such mark.
    ArrowMark(RefusedMark),
    /// No instance has this name. It is the first such name.
    Instance(&'w str),
    /// The command line and the text give no queues.
    Link(LinkRefusal<'w>),
    /// Two rounds of the chart are no chart.
    Rounds(UnrollFault),
    /// The text is not imported.
    Import(Refused),
}

impl<'w> From<AllocError> for Refusal<'w> {
    ghost use Rattle.msc_answer.specs.declared.ending.Refusal.{Refusal};
    ghost use Rattle.msc_report.specs.declared.fault.Fault.TheVariants.{Memory};

    ghost from_gives = { λ _ refusal. refusal ≡ Refusal.Fault Memory };

    fn from(_e: AllocError) -> Refusal<'w> {
        Refusal::Fault(Fault::Memory)
    }
}

impl<'w> From<ReadFault> for Refusal<'w> {
    ghost use Rattle.msc_answer.specs.declared.ending.Refusal.{Refusal};
    ghost use Rattle.msc_report.specs.Refusals.{of_reading};

    ghost from_gives = { λ fault refusal. refusal ≡ Refusal.Fault (of_reading fault) };

    fn from(fault: ReadFault) -> Refusal<'w> {
        Refusal::Fault(fault.into())
    }
}

impl<'w> From<SourceFault> for Refusal<'w> {
    ghost use Rattle.msc_answer.specs.declared.ending.Refusal.{Refusal};
    ghost use Rattle.msc_report.specs.Refusals.{of_source};

    ghost from_gives = { λ fault refusal. refusal ≡ Refusal.Fault (of_source fault) };

    fn from(fault: SourceFault) -> Refusal<'w> {
        Refusal::Fault(fault.into())
    }
}

impl<'w> From<MarkFault> for Refusal<'w> {
    ghost use Rattle.msc_answer.specs.Ending.{of_marks};

    ghost from_gives = { λ fault refusal. refusal ≡ of_marks fault };

    fn from(fault: MarkFault) -> Refusal<'w> {
        match fault {
            MarkFault::Memory => Refusal::Fault(Fault::Memory),
            MarkFault::Part(_) | MarkFault::Reason(_) => Refusal::Mark(fault),
        }
    }
}

impl<'w> From<UnrollFault> for Refusal<'w> {
    ghost use Rattle.msc_answer.specs.Ending.{of_rounds};

    ghost from_gives = { λ fault refusal. refusal ≡ of_rounds fault };

    fn from(fault: UnrollFault) -> Refusal<'w> {
        match fault {
            UnrollFault::Memory => Refusal::Fault(Fault::Memory),
            UnrollFault::TooManyMessages | UnrollFault::TooManyActions => Refusal::Rounds(fault),
        }
    }
}

impl<'w> From<Refused> for Refusal<'w> {
    ghost use Rattle.msc_answer.specs.Ending.{of_import};

    ghost from_gives = { λ refused refusal. refusal ≡ of_import refused };

    fn from(refused: Refused) -> Refusal<'w> {
        match refused.fault {
            ImportFault::Memory => Refusal::Fault(Fault::Memory),
            _ => Refusal::Import(refused),
        }
    }
}

impl<'w> From<RunFault> for Refusal<'w> {
    ghost use Rattle.msc_answer.specs.declared.ending.Refusal.{Refusal};
    ghost use Rattle.msc_report.specs.Refusals.{of_run};

    ghost from_gives = { λ fault refusal. refusal ≡ Refusal.Fault (of_run fault) };

    fn from(fault: RunFault) -> Refusal<'w> {
        Refusal::Fault(fault.into())
    }
}

impl<'w> From<WriteFault> for Refusal<'w> {
    ghost use Rattle.msc_answer.specs.declared.ending.Refusal.{Refusal};
    ghost use Rattle.msc_report.specs.Refusals.{of_writing};

    ghost from_gives = { λ fault refusal. refusal ≡ Refusal.Fault (of_writing fault) };

    fn from(fault: WriteFault) -> Refusal<'w> {
        Refusal::Fault(fault.into())
    }
}

/// The status of a fault.
pub(crate) fn status_of(fault: Fault) -> Status
    ensures { result ≡ status_of fault }
{
    match fault {
        Fault::Parse(_) | Fault::Chart(_) => Status::Refused,
        Fault::NotStarted(_) | Fault::Memory | Fault::Device => Status::Failed,
    }
}

/// Whether memory ran out, or a device failed: then nothing is refused.
pub fn is_spent(refusal: Refusal<'_>) -> bool
    ensures { result ≡ is_spent refusal.entry }
{
    match refusal {
        Refusal::Fault(Fault::Memory) | Refusal::Fault(Fault::Device) => true,
        Refusal::Fault(_) | Refusal::Pair(_) | Refusal::Mark(_) => false,
        Refusal::ArrowMark(_) | Refusal::Instance(_) | Refusal::Link(_) => false,
        Refusal::Rounds(_) | Refusal::Import(_) => false,
    }
}

/// The status of a refusal.
pub(crate) fn ends_as(refusal: Refusal<'_>) -> Status
    ensures { result ≡ ends_as refusal.entry }
{
    match refusal {
        Refusal::Fault(fault) => status_of(fault),
        Refusal::Pair(_) | Refusal::Mark(_) | Refusal::Instance(_) => Status::Refused,
        Refusal::ArrowMark(_) | Refusal::Link(_) => Status::Refused,
        Refusal::Rounds(_) | Refusal::Import(_) => Status::Refused,
    }
}

/// Writes the line of a fault. Returns the status, and whether the line was written.
pub fn end_with<E: Write>(faults: &mut E, fault: Fault) -> (Status, io::Result<()>)
    ensures status { result.0 ≡ status_of fault }
    ensures line { OnOk result.1
        (Appends (E.contents faults.old) (E.contents faults.new) (fault_line fault)) }
{
    let told = write_fault(faults, &fault);
    (status_of(fault), told)
}

/// Writes the line of why there are no queues.
fn write_link_refusal<W: Write>(writer: &mut W, refusal: LinkRefusal<'_>) -> io::Result<()>
    ensures { OnOk result (Appends (W.contents writer.old) (W.contents writer.new)
        (link_refusal_line refusal.entry)) }
{
    match refusal {
        LinkRefusal::Given(fault) => write_link_fault(writer, RulesOf::CommandLine, fault),
        LinkRefusal::Text(fault, _) => write_link_fault(writer, RulesOf::Text, fault),
        LinkRefusal::Unclear(place) => write_queues_fault(writer, place.number),
    }
}

/// Writes the line of a refusal.
pub fn write_refusal<W: Write>(writer: &mut W, refusal: Refusal<'_>) -> io::Result<()>
    ensures { OnOk result
        (Appends (W.contents writer.old) (W.contents writer.new) (refusal_line refusal.entry)) }
{
    match refusal {
        Refusal::Fault(fault) => write_fault(writer, &fault),
        Refusal::Pair(fault) => write_pair_fault(writer, fault),
        Refusal::Mark(fault) => write_mark_fault(writer, fault),
        Refusal::ArrowMark(refused) => {
            write_accept_fault(writer, refused.fault.slip, refused.position.line)
        }
        Refusal::Instance(name) => write_instance_fault(writer, name.as_bytes()),
        Refusal::Link(refused) => write_link_refusal(writer, refused),
        Refusal::Rounds(fault) => write_unroll_fault(writer, fault),
        Refusal::Import(refused) => write_import_fault(writer, &refused),
    }
}

/// Writes the line of a refusal. Returns the status, and whether the line was written.
pub(crate) fn end_refused<E: Write>(
    faults: &mut E,
    refusal: Refusal<'_>,
) -> (Status, io::Result<()>)
    ensures status { result.0 ≡ ends_as refusal.entry }
    ensures line { OnOk result.1
        (Appends (E.contents faults.old) (E.contents faults.new) (refusal_line refusal.entry)) }
{
    let told = write_refusal(faults, refusal);
    (ends_as(refusal), told)
}

/// Writes the line of a read of the file of this name that failed, and why if notes are requested.
/// Returns the status.
pub(crate) fn end_unread<E: Write>(
    faults: &mut E,
    file: &str,
    fault: ReadFault,
    notes: bool,
) -> Status
    ensures { result ≡ ends_as (Refusal.Fault (of_reading fault)) }
{
    let status = end_with(faults, fault.into()).0;
    if let ReadFault::Device(error) = fault
        && notes
    {
        let _ = write_cause(faults, file, &error);
    }
    status
}
