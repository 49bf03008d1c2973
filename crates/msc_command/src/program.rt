//! What the program does with its words.

ghost use Rattle.std.specs.Prelude.{◌≡◌, ◌≢◌, ◌⊎◌, codes, map, IfErr, IfOk, MatchOption};
ghost use Rattle.std.specs.IoError.{error_kind};
ghost use Rattle.std.specs.declared.io.ErrorKind.TheVariants.{OutOfMemory};
ghost use Rattle.std.specs.String.{string_bytes};
ghost use Rattle.clap.specs.Words.{found_of, kind_of};
ghost use Rattle.msc_answer.specs.Answering.{EndsAs};
ghost use Rattle.msc_answer.specs.Ending.{status_code};
ghost use Rattle.msc_command.specs.Program.{EndsUsage, FollowsWords, IsNamed, IsNamedVainly};
ghost use Rattle.msc_command.specs.Program.{Obeys, ObeysMatches};
ghost use Rattle.msc_command.specs.Program.{Tells, TellsAnswer, TellsRefused};
ghost use Rattle.msc_answer.specs.declared.ending.Status.{Status};
ghost use Rattle.msc_answer.specs.declared.ending.Status.TheVariants.{Races, Unfinished};
ghost use Rattle.msc_source.specs.Inputs.{IsReadFrom};

use crate::alternatives::Lists;
use crate::asking::{file_of, notes_of};
use crate::completions::print_completions;
use crate::grammar::grammar;
use crate::invocation::{Invocation, invocation_of};
use crate::misuse::write_misuse;
use crate::shown::Shown;
use crate::words::CommandName;
use clap::{ArgMatches, Error};
use msc_answer::{Request, ShowsColours, Status, TellsFailure, end_unread_task, end_with, perform};
use msc_report::Fault;
use msc_scanning::{ReadsFiles, scan};
use msc_source::ReadFault;
use std::alloc::{Alloc, AllocError, Global};
use std::io::{ErrorKind, IsTerminal, Read, Write};
use std::rt::Files;
use std::sync::Wait;
use std::thread::Threads;
use std::{fs, io};

/// Performs a request on a file, or on `input` if the file is `-`.
fn perform_on<R: Files + Threads + Wait + Sync, I: Read, O: TellsFailure, E: Write>(
    rt: &R,
    alloc: Global,
    request: Request<'_>,
    input: &mut I,
    output: &mut O,
    faults: &mut E,
) -> Status
    ensures performed { EndsAs O.contents request.entry.task request.entry.file.now
        (λ text. request.entry.file.now ≡ codes "-"
        → IsReadFrom (I.remaining input.old) (I.remaining input.new) text)
        result output.old output.new }
    ensures apart { request.entry.file.now ≢ codes "-" → input.new ≡ input.old }
{
    if request.file == "-" {
        return perform(rt, alloc, request, input, output, faults);
    }
    match fs::open(rt, request.file) {
        Ok(mut opened) => perform(rt, alloc, request, &mut opened, output, faults),
        Err(error) => end_unread_task(alloc, request, ReadFault::Device(error), output, faults),
    }
}

/// Writes the message of `clap` on words that are no command, or the help that they request.
fn tell_usage<O: Write, E: Write>(output: &mut O, faults: &mut E, error: &Error) -> Status
    ensures told { TellsAnswer O.contents result output.old output.new }
    ensures ends { EndsUsage (kind_of error.now) result output.old output.new }
{
    if error.kind() == clap::error::ErrorKind::OutOfMemory {
        return end_with(faults, Fault::Memory).0;
    }
    if error.use_stderr() {
        let mut shown = Shown { inner: faults };
        let _ = write!(shown, "{error}");
        return Status::Refused;
    }
    match write!(output, "{error}") {
        Ok(()) => Status::Done,
        Err(_) => end_with(faults, Fault::Device).0,
    }
}

/// What the words after a command of this name ask for; `auto` says whether findings have colours
/// without `--color`, and `rt` how many processors there are. Why they are no command goes to `faults`.
fn invocation_named<'w, R: Threads, E: Write>(
    rt: &R,
    name: &str,
    words: &'w ArgMatches,
    auto: bool,
    faults: &mut E,
) -> Option<Invocation<'w>>
    ensures { MatchOption result (IsNamedVainly name.now (found_of words.entry.now))
        (IsNamed name.now (found_of words.entry.now)) }
{
    match invocation_of(rt, CommandName::of(name)?, words, auto) {
        Ok(invocation) => Some(invocation),
        Err(misuse) => {
            let _ = write_misuse(&mut Shown { inner: faults }, misuse);
            None
        }
    }
}

/// Does what the words after a command ask for, and returns the status.
fn obey<
    R: Files + ReadsFiles + Threads + Wait + Sync + Alloc + Clone + Drop,
    I: Read,
    O: TellsFailure + ShowsColours,
    E: Write + IsTerminal,
>(
    rt: &R,
    alloc: Global,
    name: &str,
    words: &ArgMatches,
    input: &mut I,
    output: &mut O,
    faults: &mut E,
) -> Status
    ensures { Obeys I.remaining O.contents name.now (found_of words.now) result
        input.old input.new output.old output.new }
{
    let Some(invocation) = invocation_named(rt, name, words, output.shows_colours(), faults) else {
        return Status::Refused;
    };
    match invocation {
        Invocation::Task(task) => {
            let request = Request {
                task,
                file: file_of(words),
                notes: notes_of(words, faults.is_terminal()),
            };
            perform_on(rt, alloc, request, input, output, faults)
        }
        Invocation::Scan(scan_args) => scan(rt, alloc, scan_args, input, output, faults),
        Invocation::Completions(shell) => print_completions(alloc, shell, output, faults),
    }
}

/// Does what words that `clap` took ask for, and returns the status.
fn obey_matches<
    R: Files + ReadsFiles + Threads + Wait + Sync + Alloc + Clone + Drop,
    I: Read,
    O: TellsFailure + ShowsColours,
    E: Write + IsTerminal,
>(
    rt: &R,
    alloc: Global,
    matches: &ArgMatches,
    input: &mut I,
    output: &mut O,
    faults: &mut E,
) -> Status
    ensures told { TellsAnswer O.contents result output.old output.new }
    ensures obeyed { ObeysMatches I.remaining O.contents matches.now result
        input.old input.new output.old output.new }
{
    match matches.subcommand() {
        Some((name, words)) => obey(rt, alloc, name, words, input, output, faults),
        None => Status::Refused,
    }
}

/// Does what the words ask for, and returns the status. An error is a growth of memory that was
/// refused before the words were known.
fn run<
    R: Files + ReadsFiles + Threads + Wait + Sync + Alloc + Clone + Drop,
    I: Read,
    O: TellsFailure + ShowsColours,
    E: Write + IsTerminal,
>(
    rt: &R,
    alloc: Global,
    words: &[String],
    input: &mut I,
    output: &mut O,
    faults: &mut E,
) -> Result<Status, AllocError>
    ensures told { IfOk result (λ status. TellsAnswer O.contents status output.old output.new) }
    ensures followed { IfOk result (λ status. FollowsWords I.remaining O.contents
        (map string_bytes words.now) status input.old input.new output.old output.new) }
    ensures unknown { IfErr result (λ _. output.new ≡ output.old) }
{
    let lists = Lists::of(alloc)?;
    let command = grammar(alloc, words, lists.choices())?;
    match command.try_get_matches_from(words) {
        Ok(matches) => Ok(obey_matches(rt, alloc, &matches, input, output, faults)),
        Err(error) => Ok(tell_usage(output, faults, &error)),
    }
}

/// The exit status of a program that could not read its own words: memory ran out, or a word is no
/// text. Writes why to `faults`.
pub fn refuse_words<E: Write>(faults: &mut E, error: &io::Error) -> u8
    ensures memory { error_kind error.now ≡ OutOfMemory → result ≡ 4 }
    ensures usage { error_kind error.now ≢ OutOfMemory → result ≡ 2 }
{
    if error.kind() == ErrorKind::OutOfMemory {
        return end_with(faults, Fault::Memory).0.code();
    }
    let _ = writeln!(faults, "error: a word of the command line is no text");
    Status::Refused.code()
}

/// Runs the program `msc` with the words of a command line, the program's name first, and answers
/// its exit status. QUEUES is `pair`, `mailbox` or `single`, or `own` for the queues that the text
/// names itself; with it, `--pair LINK`, `--mailbox LINK` and `--single LINK` give links a kind.
/// FILE `-` is `input`; `rt` opens any other FILE. Numbers are from 0 to 4294967295. The answer goes
/// to `output`:
///
/// - `read FILE`: the canonical text.
/// - `check --queues QUEUES FILE`: the verdict on the chart, and each race with a run that shows
///   it. `--show N` shows runs of the first N races, `--most N` lists the first N, `--closest` only
///   the closest ones. `--allow KIND` leaves out the races of a kind (`early`, `queues`,
///   `unordered`, `overtaken`), `--accept` those that marks accept. `--why` adds kinds and causes.
///   `--format count` prints numbers, `--format lines` lines for editors, `--format full` the
///   findings as people read them, `--quiet` nothing.
/// - `check --from LANGUAGE ..`: the same for all scenarios of a sequence diagram, or of all
///   diagrams of a Markdown text; `--fence N` takes its N-th block.
/// - `scan PATH..`: the same for all charts and diagrams of files and folders, each under the queues
///   that its text names. `--queues QUEUES` names others, `--jobs N` says how many files are checked
///   at a time.
/// - `explain --queues QUEUES FILE E F`: why event E is enforced before event F, or a run that has
///   F first.
/// - `follow --queues QUEUES FILE`: a run that keeps the drawing, or the ring of steps by which none
///   does.
/// - `ready --queues QUEUES [--only NAME].. FILE`: whether instances that wait for one message can
///   stick, in the same formats. `--again` of `check` and `ready` adds what is between a round and
///   the next.
/// - `run --queues QUEUES [--patience N] FILE`: an execution, in which an instance gives up after N
///   rounds in a row without a message.
/// - `list FILE`: the events with their numbers; `draw [--queues QUEUES] FILE`: the chart as a
///   picture; `reverse --queues QUEUES FILE E F`: a run that reverses a race, as a picture; `report
///   --queues QUEUES FILE`: a page of HTML.
/// - `import FILE`: the chart of a scenario of a sequence diagram.
/// - `completions SHELL`: the completions of a shell (`bash`, `zsh`, `fish`); it reads no file.
///
/// `--places` prints where events stand, and `--words` prints runs in words.
///
/// Refusals are looked for in this order: the words, opening FILE, reading it, its text, the queues
/// that it names, the rules for links, the pair of events or the names, its rounds, running it. The
/// line of a refusal goes to `faults`, with notes if `--places` is given, or if `faults` is a terminal
/// and `--plain` is not given. If that writing fails, the status stays.
///
/// The status is 0 if the answer or the requested help was written. It is 1 if there are races that
/// are not left out, if E is not enforced before F, if no run keeps the drawing, or if a system of
/// ready instances can stick. It is 2 if the words are no command, or if the text, a diagram of a
/// Markdown text, its queues, its rounds, the pair or a name was refused. It is 3 if some instance of
/// an execution has not finished. It is 4 if memory ran out, a thread could not be started, a file
/// could not be opened or read, or the output could not be written. A scan ends with the worst status
/// of its texts: 4 before 2 before 1 before 0; a path that has nothing to check has status 4.
pub fn command<
    R: Files + ReadsFiles + Threads + Wait + Sync + Alloc + Clone + Drop,
    I: Read,
    O: TellsFailure + ShowsColours,
    E: Write + IsTerminal,
>(rt: &R, alloc: Global, words: Vec<String>, input: &mut I, output: &mut O, faults: &mut E) -> u8
    ensures status { (result ≡ 0) ⊎ (result ≡ 1) ⊎ (result ≡ 2) ⊎ (result ≡ 3) ⊎ (result ≡ 4) }
    ensures races { result ≡ 1 → Tells O.contents Races output.old output.new }
    ensures refused { result ≡ 2 → TellsRefused O.contents output.old output.new }
    ensures unfinished { result ≡ 3 → Tells O.contents Unfinished output.old output.new }
    ensures followed { (status : Status) × (result ≡ status_code status)
        × FollowsWords I.remaining O.contents (map string_bytes words.items) status
        input.old input.new output.old output.new }
{
    match run(rt, alloc, words.as_slice(), input, output, faults) {
        Ok(status) => status.code(),
        Err(_) => end_with(faults, Fault::Memory).0.code(),
    }
}
