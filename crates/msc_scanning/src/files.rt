//! Reads the files of a scan, and writes the block of each: the verdicts on its texts, or its
//! failure.

ghost use Rattle.std.specs.Prelude.{IfSome};
ghost use Rattle.msc_scanning.specs.Files.{AreFailed, PutsEntry, PutsFile};
ghost use Rattle.msc_scanning.specs.Putting.{Gives};

use crate::failing::{Failure, put_failure};
use crate::outcome::{Outcome, alone};
use crate::page::{BLOCK_LIMIT, BoundedPage};
use crate::texts::put_text;
use crate::words::Plan;
use msc_report::Fault;
use msc_scan::{Entry, FileKind, Found};
use msc_source::{ReadFault, read_all};
use std::alloc::Global;
use std::io::Write;
use std::rt::HostRuntime;
use std::{fs, io};

/// The text of the input, or why it cannot be read.
pub(crate) type Input<'i> = Result<&'i [u8], &'i io::Error>;

/// A file to check, or the end of the files of a path.
#[derive(Clone, Copy)]
pub(crate) enum Item<'p> {
    File(&'p Entry),
    End(&'p str),
}

/// The block of a file, and how each of its diagrams ended.
#[derive(Drop)]
pub(crate) struct Block {
    pub bytes: Vec<u8>,
    pub outcomes: Vec<Outcome>,
}

/// What reads files. Threads may share it: [`Files`] has types of its own, which no proof lends to
/// another thread.
pub trait ReadsFiles {
    /// The text of the file of this name.
    fn text_of(&self, alloc: Global, name: &str) -> Result<Vec<u8>, ReadFault>;
}

impl ReadsFiles for HostRuntime {
    fn text_of(&self, alloc: Global, name: &str) -> Result<Vec<u8>, ReadFault> {
        match fs::open(self, name) {
            Ok(mut opened) => read_all(alloc, &mut opened),
            Err(error) => Err(ReadFault::Device(error)),
        }
    }
}

/// Writes that a path fails, and returns its end.
pub(crate) fn put_failed<O: Write>(
    alloc: Global,
    plan: Plan<'_>,
    name: &str,
    failure: Failure<'_>,
    output: &mut O,
) -> Result<Vec<Outcome>, Fault>
    ensures { Gives O.contents (λ outcomes. AreFailed plan.entry outcomes.items) result
        output.old output.new }
{
    let outcome = put_failure(alloc, plan, name, failure, output)?;
    Ok(alone(alloc, outcome)?)
}

/// Writes the verdicts on the input, or why it cannot be read.
fn put_input<O: Write>(
    alloc: Global,
    plan: Plan<'_>,
    input: Input<'_>,
    name: &str,
    kind: Option<FileKind>,
    output: &mut O,
) -> Result<Vec<Outcome>, Fault>
    ensures { Gives O.contents (λ outcomes. PutsFile plan.entry input.entry name.now kind outcomes.items)
        result output.old output.new }
{
    match input {
        Ok(text) => put_text(alloc, plan, name, kind, text, output),
        Err(error) => put_failed(alloc, plan, name, Failure::Unread(error), output),
    }
}

/// Writes the verdicts on a file, or why it cannot be read.
fn put_file<R: ReadsFiles, O: Write>(
    rt: &R,
    alloc: Global,
    plan: Plan<'_>,
    input: Input<'_>,
    name: &str,
    kind: Option<FileKind>,
    output: &mut O,
) -> Result<Vec<Outcome>, Fault>
    ensures { Gives O.contents (λ outcomes. PutsFile plan.entry input.entry name.now kind outcomes.items)
        result output.old output.new }
{
    if name == "-" {
        return put_input(alloc, plan, input, name, kind, output);
    }
    match rt.text_of(alloc, name) {
        Ok(text) => put_text(alloc, plan, name, kind, text.as_slice(), output),
        Err(ReadFault::Memory) => Err(Fault::Memory),
        Err(ReadFault::Device(error)) => {
            put_failed(alloc, plan, name, Failure::Unread(&error), output)
        }
    }
}

/// Writes the block of a name that a walk found, and returns how each of its diagrams ended.
pub(crate) fn put_entry<R: ReadsFiles, O: Write>(
    rt: &R,
    alloc: Global,
    plan: Plan<'_>,
    input: Input<'_>,
    entry: &Entry,
    output: &mut O,
) -> Result<Vec<Outcome>, Fault>
    ensures { Gives O.contents (λ outcomes. PutsEntry plan.entry input.entry entry.now outcomes.items)
        result output.old output.new }
{
    let name = entry.name.as_str();
    match &entry.found {
        Found::File(kind) => put_file(rt, alloc, plan, input, name, *kind, output),
        Found::TooDeep => put_failed(alloc, plan, name, Failure::TooDeep, output),
        Found::Unread(error) => put_failed(alloc, plan, name, Failure::Unread(error), output),
    }
}

/// The block of a file, unless it is too long or memory runs out.
pub(crate) fn block_of<R: ReadsFiles>(
    rt: &R,
    alloc: Global,
    plan: Plan<'_>,
    input: Input<'_>,
    entry: &Entry,
) -> Option<Block>
    ensures { IfSome result (λ block. PutsEntry plan.entry input.entry entry.now block.outcomes.items
        block.bytes.items) }
{
    let mut bounded = BoundedPage::new(alloc, BLOCK_LIMIT);
    match put_entry(rt, alloc, plan, input, entry, &mut bounded) {
        Ok(outcomes) => Some(Block {
            bytes: bounded.page.bytes,
            outcomes,
        }),
        Err(_) => None,
    }
}
