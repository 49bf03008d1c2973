//! A scan: all files, what is printed of them, and how it ends.

ghost use Rattle.std.specs.Prelude.{◌≡◌, ◌++◌, IfErr, IfOk, OnOk, codes, false, map, true};
ghost use Rattle.msc_scan.specs.Walks.{names_of, AreFound, IsFileAt};
ghost use Rattle.msc_scanning.specs.Putting.{Gives};
ghost use Rattle.std.specs.List.{list_any};
ghost use Rattle.msc_scanning.specs.Scans.{end_text, full_end, has_input, is_input, is_own};
ghost use Rattle.msc_scanning.specs.Scans.{items_in, path_items, plain_item, AreAllFound, IsInputRead};
ghost use Rattle.msc_scanning.specs.Scans.{IsLent, PutsItems, PutsScan, Scans};
ghost use Rattle.msc_scanning.specs.Words.{words_in};

use crate::files::{Input, Item, ReadsFiles};
use crate::last_lines::{print_end, print_last, print_total};
use crate::progress::Progress;
use crate::rounds::put_items;
use crate::tally::Tally;
use crate::words::{Plan, ScanArgs, architectures_of};
use msc_answer::{Format, Status, TellsFailure, end_with};
use msc_print::Page;
use msc_report::Fault;
use msc_scan::{Entry, Found, entries_of, kind_of_name};
use msc_source::{ReadFault, read_all};
use std::alloc::{Alloc, AllocError, Global};
use std::io;
use std::io::{Read, Write};
use std::rt::Files;
use std::thread::Threads;

/// The input itself, as a file to check.
fn input_entry(alloc: Global, path: &str) -> Result<Vec<Entry>, AllocError>
    ensures { IfOk result (λ entries. IsFileAt path.now entries.items) }
{
    let mut entries = Vec::new(alloc);
    let name = String::from_str(alloc, path)?;
    entries.push(Entry {
        name,
        found: Found::File(kind_of_name(path)),
    })?;
    Ok(entries)
}

/// What a path stands for.
fn entries_at<R: Files + Alloc + Clone + Drop>(
    rt: &R,
    alloc: Global,
    path: &str,
    skips: &[&str],
) -> Result<Vec<Entry>, AllocError>
    ensures { IfOk result (λ entries. AreFound (names_of skips.now) path.now entries.items) }
{
    if path == "-" {
        return input_entry(alloc, path);
    }
    entries_of(rt, alloc, path, skips)
}

/// What each path stands for.
fn all_entries<R: Files + Alloc + Clone + Drop>(
    rt: &R,
    alloc: Global,
    args: ScanArgs<'_>,
) -> Result<Vec<Vec<Entry>>, AllocError>
    ensures { IfOk result (λ all. AreAllFound (names_of args.entry.skips.now)
        (words_in args.entry.paths.now) all.items) }
{
    let mut all = Vec::new(alloc);
    for path in args.paths {
        all.push(entries_at(rt, alloc, path, args.skips)?)?;
    }
    Ok(all)
}

/// Appends the files of a path, and its end.
fn put_path<'p>(
    items: &mut Vec<Item<'p>>,
    path: &'p str,
    entries: &'p [Entry],
) -> Result<(), AllocError>
    ensures { OnOk result (map plain_item items.new.items
        ≡ map plain_item items.old.items ++ path_items path.now entries.now) }
{
    for entry in entries {
        items.push(Item::File(entry))?;
    }
    items.push(Item::End(path))?;
    Ok(())
}

/// The files of all paths, each path with its end.
fn items_of<'p>(
    alloc: Global,
    paths: &'p [&'p str],
    all: &'p [Vec<Entry>],
) -> Result<Vec<Item<'p>>, AllocError>
    ensures { IfOk result (λ items. map plain_item items.items ≡ items_in (words_in paths.now) all.now) }
{
    let mut items = Vec::new(alloc);
    for i in 0..paths.len() {
        let Some(entries) = all.get(i) else {
            return Ok(items);
        };
        put_path(&mut items, paths[i], entries.as_slice())?;
    }
    Ok(items)
}

/// Whether a path is the input.
fn is_input(path: &str) -> bool
    ensures { result ≡ is_input path.now }
{
    path == "-"
}

/// Whether the input is among the paths.
fn any_input(paths: &[&str]) -> bool
    ensures { result ≡ list_any (λ path. is_input path.now) paths.now }
{
    paths.iter().any(|path| is_input(path))
}

/// Whether the input is among the paths.
fn has_input(paths: &[&str]) -> bool
    ensures { result ≡ has_input (words_in paths.now) }
{
    any_input(paths)
}

/// The text of the input if it is among the paths, or why it cannot be read.
fn read_input<I: Read>(
    alloc: Global,
    paths: &[&str],
    input: &mut I,
) -> Result<io::Result<Vec<u8>>, Fault>
    ensures read { IfOk result (IsInputRead (λ text. text.items) (has_input (words_in paths.now))
        (I.remaining input.old) (I.remaining input.new)) }
    ensures apart { has_input (words_in paths.now) ≡ false → input.new ≡ input.old }
{
    if !has_input(paths) {
        return Ok(Ok(Vec::new(alloc)));
    }
    match read_all(alloc, input) {
        Ok(text) => Ok(Ok(text)),
        Err(ReadFault::Memory) => Err(Fault::Memory),
        Err(ReadFault::Device(error)) => Ok(Err(error)),
    }
}

/// What was read, lent.
fn lent_input<'i>(read: &'i io::Result<Vec<u8>>) -> Input<'i>
    ensures { IsLent read.entry.now result }
{
    match read {
        Ok(text) => Ok(text.as_slice()),
        Err(error) => Err(error),
    }
}

/// Whether the queues are those that the texts name, and no others.
fn is_own(plan: Plan<'_>) -> bool
    ensures { result ≡ is_own plan.entry }
{
    match plan.architectures {
        [only] => only.own,
        _ => false,
    }
}

/// What follows all findings as people read them.
fn full_end(alloc: Global, plan: Plan<'_>, tally: Tally) -> Result<Page, AllocError>
    ensures { IfOk result (λ page. page.bytes.items ≡ full_end plan.entry tally) }
{
    let colours = plan.args.words.check_args.colours;
    let mut page = Page::new(alloc);
    if plan.args.words.quiet {
        print_last(&mut page, tally, colours)?;
    } else {
        print_end(alloc, &mut page, tally, is_own(plan), colours)?;
    }
    Ok(page)
}

/// What follows the verdicts on all texts.
fn end_page(alloc: Global, plan: Plan<'_>, tally: Tally) -> Result<Page, AllocError>
    ensures { IfOk result (λ page. page.bytes.items ≡ end_text plan.entry tally) }
{
    match plan.args.words.check_args.format {
        Format::Full => full_end(alloc, plan, tally),
        Format::Text => {
            let mut page = Page::new(alloc);
            print_total(&mut page, tally)?;
            Ok(page)
        }
        Format::Count | Format::Lines => Ok(Page::new(alloc)),
    }
}

/// Writes the verdicts on the texts of all items, and what follows them.
fn put_all<R: ReadsFiles + Threads + Sync, O: Write>(
    rt: &R,
    alloc: Global,
    plan: Plan<'_>,
    input: Input<'_>,
    items: &[Item<'_>],
    output: &mut O,
) -> Result<Status, Fault>
    ensures { Gives O.contents (PutsItems plan.entry input.entry items.now) result
        output.old output.new }
{
    let end = put_items(rt, alloc, plan, input, items, output)?;
    let page = end_page(alloc, plan, end.tally)?;
    output.write_all(page.bytes.as_slice())?;
    output.flush()?;
    Ok(end.status)
}

/// Scans all paths, and returns the worst status of their diagrams.
fn scan_all<R: Files + ReadsFiles + Threads + Sync + Alloc + Clone + Drop, I: Read, O: Write>(
    rt: &R,
    alloc: Global,
    args: ScanArgs<'_>,
    input: &mut I,
    output: &mut O,
) -> Result<Status, Fault>
    ensures scanned { Gives O.contents (PutsScan args.entry (I.remaining input.old)
        (I.remaining input.new)) result output.old output.new }
    ensures apart { has_input (words_in args.entry.paths.now) ≡ false → input.new ≡ input.old }
{
    let architectures = architectures_of(alloc, args.queues)?;
    let plan = Plan {
        args,
        architectures: architectures.as_slice(),
    };
    let read = read_input(alloc, args.paths, input)?;
    let all = all_entries(rt, alloc, args)?;
    let items = items_of(alloc, args.paths, all.as_slice())?;
    put_all(rt, alloc, plan, lent_input(&read), items.as_slice(), output)
}

/// Checks all charts and sequence diagrams of files and folders, and prints what it finds, one text
/// after the other in the order of the paths, and in a folder in the order of the names. Returns the
/// worst status of them; it is `Failed` if a path cannot be read or holds nothing to check.
///
/// If memory runs out or the output fails, the line of that fault goes to `faults`, with the cause if
/// notes are requested, and the status is `Failed`; nothing is promised then of the output.
pub fn scan<
    R: Files + ReadsFiles + Threads + Sync + Alloc + Clone + Drop,
    I: Read,
    O: TellsFailure,
    E: Write,
>(
    rt: &R,
    alloc: Global,
    args: ScanArgs<'_>,
    input: &mut I,
    output: &mut O,
    faults: &mut E,
) -> Status
    ensures scanned { Scans (I.remaining input.old) (I.remaining input.new) O.contents args.entry result
        output.old output.new }
    ensures apart { has_input (words_in args.entry.paths.now) ≡ false → input.new ≡ input.old }
{
    match scan_all(rt, alloc, args, input, output) {
        Ok(status) => status,
        Err(fault) => {
            let _ = end_with(faults, fault);
            if args.notes
                && let Some(error) = output.failure()
            {
                let _ = writeln!(faults, "output: {error}");
            }
            Status::Failed
        }
    }
}
