//! Files of a scan that are checked at the same time, and printed in their order.
//!
//! Threads share nothing: each makes what is printed of some files, as a value. What goes out is the
//! same whatever the schedule, since the writer takes these values in the order of the files.

ghost use Rattle.std.specs.Prelude.{◌≡◌, ◌++◌, ◌∷◌, [], drop, OnErr, OnOk, option_map, take};
ghost use Rattle.msc_scanning.specs.Files.{AreBlocks, IsBlock, PutsEnd, PutsItem};
ghost use Rattle.msc_scanning.specs.Folding.{Folds};
ghost use Rattle.msc_scanning.specs.Progress.{none};
ghost use Rattle.msc_scanning.specs.Putting.{Gives};
ghost use Rattle.msc_scanning.specs.Rounds.{chunk_at, made_at, AreChunks};

use crate::failing::Failure;
use crate::files::{Block, Input, Item, ReadsFiles, block_of, put_entry, put_failed};
use crate::progress::Progress;
use crate::words::Plan;
use msc_report::Fault;
use msc_scan::Entry;
use std::alloc::{AllocError, Global};
use std::io::Write;
use std::thread;
use std::thread::Threads;

/// The number of files that a thread checks in a round.
const CHUNK: usize = 64;

/// The block of an item, if it is a file and a thread can make it before its turn.
fn block_at<R: ReadsFiles>(
    rt: &R,
    alloc: Global,
    plan: Plan<'_>,
    input: Input<'_>,
    item: Item<'_>,
) -> Option<Block>
    ensures { IsBlock plan.entry input.entry item.entry result }
{
    match item {
        Item::File(entry) => block_of(rt, alloc, plan, input, entry),
        Item::End(_) => None,
    }
}

/// Appends a block, if one was made. An error is a growth of memory that was refused.
fn put_block(blocks: &mut Vec<Option<Block>>, block: Option<Block>) -> Result<(), AllocError>
    ensures put { OnOk result (blocks.new.items ≡ blocks.old.items ++ block ∷ []) }
    ensures kept { OnErr result (blocks.new.items ≡ blocks.old.items) }
{
    blocks.push(block)?;
    Ok(())
}

/// The blocks of these items, or of some first ones if memory runs out.
fn blocks_of<R: ReadsFiles>(
    rt: &R,
    alloc: Global,
    plan: Plan<'_>,
    input: Input<'_>,
    items: &[Item<'_>],
) -> Vec<Option<Block>>
    ensures { AreBlocks plan.entry input.entry items.now result.items }
{
    let mut blocks = Vec::new(alloc);
    for item in items {
        let block = block_at(rt, alloc, plan, input, *item);
        match put_block(&mut blocks, block) {
            Ok(()) => {}
            Err(_) => return blocks,
        }
    }
    blocks
}

/// The first items, so many at most.
fn first_items<'a, 'p>(items: &'a [Item<'p>], count: usize) -> &'a [Item<'p>]
    ensures { result.now ≡ take count items.entry.now }
{
    if count < items.len() {
        return &items[..count];
    }
    items
}

/// The items after the first ones.
fn items_behind<'a, 'p>(items: &'a [Item<'p>], count: usize) -> &'a [Item<'p>]
    ensures { result.now ≡ drop count items.entry.now }
{
    if count < items.len() {
        return &items[count..];
    }
    &[]
}

/// The items of a round that a thread takes: so many, behind those of the threads before it.
fn chunk_at<'a, 'p>(items: &'a [Item<'p>], index: usize) -> &'a [Item<'p>]
    ensures { result.now ≡ chunk_at items.entry.now index }
{
    first_items(items_behind(items, index.saturating_mul(CHUNK)), CHUNK)
}

/// The block that was made of an item, if one was.
fn made_of(blocks: &[Option<Block>], index: usize) -> Option<&Block>
    ensures { option_map (λ block. block.now) result ≡ made_at blocks.now index }
{
    match blocks.get(index) {
        Some(Some(block)) => Some(block),
        _ => None,
    }
}

/// Writes the end of the files of a path: that it fails, if nothing was found.
fn put_end<O: Write>(
    alloc: Global,
    plan: Plan<'_>,
    path: &str,
    progress: Progress,
    output: &mut O,
) -> Result<Progress, Fault>
    ensures { Gives O.contents (PutsEnd progress.found plan.entry progress) result
        output.old output.new }
{
    if progress.found {
        return Ok(Progress {
            found: false,
            ..progress
        });
    }
    let outcomes = put_failed(alloc, plan, path, Failure::Nothing, output)?;
    Ok(Progress {
        found: false,
        ..progress.with_outcomes(outcomes.as_slice())
    })
}

/// Writes the block of a file; a thread made it before, or it is made now.
fn put_made<R: ReadsFiles, O: Write>(
    rt: &R,
    alloc: Global,
    plan: Plan<'_>,
    input: Input<'_>,
    entry: &Entry,
    made: Option<&Block>,
    progress: Progress,
    output: &mut O,
) -> Result<Progress, Fault>
    requires { IsBlock plan input (Item.File entry) (option_map (λ block. block.now) made) }
    ensures { Gives O.contents (PutsItem plan.entry input.entry (Item.File entry.entry) progress) result
        output.old output.new }
{
    if let Some(block) = made {
        output.write_all(block.bytes.as_slice())?;
        return Ok(progress.with_outcomes(block.outcomes.as_slice()));
    }
    let outcomes = put_entry(rt, alloc, plan, input, entry, output)?;
    Ok(progress.with_outcomes(outcomes.as_slice()))
}

/// Writes the block of an item.
fn put_item<R: ReadsFiles, O: Write>(
    rt: &R,
    alloc: Global,
    plan: Plan<'_>,
    input: Input<'_>,
    item: Item<'_>,
    made: Option<&Block>,
    progress: Progress,
    output: &mut O,
) -> Result<Progress, Fault>
    requires { IsBlock plan input item (option_map (λ block. block.now) made) }
    ensures { Gives O.contents (PutsItem plan.entry input.entry item.entry progress) result
        output.old output.new }
{
    match item {
        Item::File(entry) => put_made(rt, alloc, plan, input, entry, made, progress, output),
        Item::End(path) => put_end(alloc, plan, path, progress, output),
    }
}

/// Writes the blocks of these items, some of which threads have made.
fn put_chunk<R: ReadsFiles, O: Write>(
    rt: &R,
    alloc: Global,
    plan: Plan<'_>,
    input: Input<'_>,
    items: &[Item<'_>],
    blocks: &[Option<Block>],
    progress: Progress,
    output: &mut O,
) -> Result<Progress, Fault>
    requires { AreBlocks plan input items.now blocks.now }
    ensures { Gives O.contents (Folds (PutsItem plan.entry input.entry) items.now progress) result
        output.old output.new }
{
    let mut progress = progress;
    for i in 0..items.len() {
        let made = made_of(blocks, i);
        progress = put_item(rt, alloc, plan, input, items[i], made, progress, output)?;
    }
    Ok(progress)
}

/// Writes the blocks of the items of a round, some of which threads have made, chunk by chunk.
fn put_chunks<R: ReadsFiles, O: Write>(
    rt: &R,
    alloc: Global,
    plan: Plan<'_>,
    input: Input<'_>,
    items: &[Item<'_>],
    made: &[Vec<Option<Block>>],
    progress: Progress,
    output: &mut O,
) -> Result<Progress, Fault>
    requires { AreChunks plan input items.now made.now }
    ensures { Gives O.contents (Folds (PutsItem plan.entry input.entry) items.now progress) result
        output.old output.new }
{
    let mut progress = progress;
    let mut rest = items;
    for blocks in made {
        let (chunk, blocks) = (first_items(rest, CHUNK), blocks.as_slice());
        progress = put_chunk(rt, alloc, plan, input, chunk, blocks, progress, output)?;
        rest = items_behind(rest, CHUNK);
    }
    put_chunk(rt, alloc, plan, input, rest, &[], progress, output)
}

/// Writes the blocks of the items of a round, which threads check.
fn put_round<R: ReadsFiles + Threads + Sync, O: Write>(
    rt: &R,
    alloc: Global,
    plan: Plan<'_>,
    input: Input<'_>,
    items: &[Item<'_>],
    progress: Progress,
    output: &mut O,
) -> Result<Progress, Fault>
    ensures { Gives O.contents (Folds (PutsItem plan.entry input.entry) items.now progress) result
        output.old output.new }
{
    let part = |index: usize| -> Vec<Option<Block>>
        ensures { AreBlocks plan.entry input.entry (chunk_at items.entry.now index) result.items }
    { blocks_of(rt, alloc, plan, input, chunk_at(items, index)) };
    match thread::map_indices(rt, alloc, plan.args.jobs, &part) {
        Ok(made) => put_chunks(
            rt,
            alloc,
            plan,
            input,
            items,
            made.as_slice(),
            progress,
            output,
        ),
        Err(_) => put_chunk(rt, alloc, plan, input, items, &[], progress, output),
    }
}

/// Writes the blocks of all items, in their order.
pub(crate) fn put_items<R: ReadsFiles + Threads + Sync, O: Write>(
    rt: &R,
    alloc: Global,
    plan: Plan<'_>,
    input: Input<'_>,
    items: &[Item<'_>],
    output: &mut O,
) -> Result<Progress, Fault>
    ensures { Gives O.contents (Folds (PutsItem plan.entry input.entry) items.now none) result
        output.old output.new }
{
    if plan.args.jobs <= 1 {
        return put_chunk(rt, alloc, plan, input, items, &[], Progress::NONE, output);
    }
    let size = plan.args.jobs.saturating_mul(CHUNK);
    let mut progress = Progress::NONE;
    let mut rest = items;
    while !rest.is_empty() {
        let round = first_items(rest, size);
        progress = put_round(rt, alloc, plan, input, round, progress, output)?;
        rest = items_behind(rest, size);
    }
    Ok(progress)
}
