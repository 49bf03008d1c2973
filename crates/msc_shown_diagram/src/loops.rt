//! The loops around each statement of a diagram.

ghost use Rattle.std.specs.Prelude.{◌≡◌, ◌++◌, IfOk, OnOk};
ghost use Rattle.msc_shown_diagram.specs.Loops.{after_statement, is_loop, loop_at, loops_in, loops_of};

use listed::Listed;
use msc_mermaid::{Closer, Kind, Placed, Statement};
use std::alloc::{AllocError, Global};

/// An open block: the number of the statement that begins it, and whether it is a loop.
#[derive(Clone, Copy)]
pub(crate) struct OpenBlock {
    pub begin: usize,
    pub is_loop: bool,
}

/// Whether blocks of this kind are loops.
fn is_loop(kind: Kind) -> bool
    ensures { result ≡ is_loop kind }
{
    matches!(kind, Kind::Loop)
}

/// Takes in statement `k`: the blocks that are open after it.
fn follow(blocks: &mut Vec<OpenBlock>, k: usize, statement: &Statement) -> Result<(), AllocError>
    ensures { OnOk result (blocks.new.items ≡ after_statement k statement.now blocks.old.items) }
{
    match statement {
        Statement::Begins(kind) => {
            blocks.push(OpenBlock {
                begin: k,
                is_loop: is_loop(*kind),
            })?;
            Ok(())
        }
        Statement::Closes(Closer::End) => {
            blocks.truncate(blocks.len().saturating_sub(1));
            Ok(())
        }
        Statement::Closes(Closer::Else | Closer::And | Closer::Option)
        | Statement::Declares(_, _)
        | Statement::Says(_) => Ok(()),
    }
}

/// Appends the number of the statement that begins this block, if it is a loop.
fn push_loop(loops: &mut Vec<usize>, block: OpenBlock) -> Result<(), AllocError>
    ensures { OnOk result (loops.new.items ≡ loops.old.items ++ loop_at block) }
{
    if !block.is_loop {
        return Ok(());
    }
    loops.push(block.begin)?;
    Ok(())
}

/// The loops among open blocks, by the numbers of the statements that begin them.
fn loops_in(alloc: Global, blocks: &[OpenBlock]) -> Result<Vec<usize>, AllocError>
    ensures { IfOk result (λ loops. loops.items ≡ loops_in blocks.now) }
{
    let mut loops = Vec::new(alloc);
    for block in blocks {
        push_loop(&mut loops, *block)?;
    }
    Ok(loops)
}

/// The loops around each statement, outermost first, by the numbers of the statements that begin
/// them.
pub(crate) fn loops_of(
    alloc: Global,
    statements: &[Placed],
) -> Result<Vec<Listed<usize>>, AllocError>
    ensures { IfOk result (λ loops. loops.items ≡ loops_of statements.now) }
{
    let mut all = Vec::new(alloc);
    let mut blocks = Vec::new(alloc);
    for k in 0..statements.len() {
        let loops = loops_in(alloc, blocks.as_slice())?;
        all.push(Listed::from_vec(loops))?;
        follow(&mut blocks, k, &statements[k].statement)?;
    }
    Ok(all)
}
