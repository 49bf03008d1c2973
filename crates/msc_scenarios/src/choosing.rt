//! All scenarios of a diagram, as lists of choices.

ghost use Rattle.std.specs.Prelude.{◌≡◌, ◌≤◌, ◌++◌, ◌==◌, true, false, map, IfOk, OnOk};
ghost use Rattle.std.specs.List.{list_all};
ghost use Rattle.msc_scenarios.specs.Choosing.{all_choices, block, by_branches, by_options};
ghost use Rattle.msc_scenarios.specs.Choosing.{by_rounds};
ghost use Rattle.msc_scenarios.specs.Choosing.{by_sides, choose, chosen, formed, one, repeated};
ghost use Rattle.msc_scenarios.specs.Choosing.{by_fate, straight};

use crate::path::{Path, behind, choices_of, followed, healed, put_chosen, straight};
use crate::steps::{Passage, branches_of, extent, is_choice, is_there};
use crate::walking::{branch_at, owned_by};
use listed::Listed;
use msc_mermaid::{DEPTH_LIMIT, Diagram, Kind, Placed, Statement};
use std::alloc::{AllocError, Global};

/// The paths through `count` rounds of a loop.
fn repeated(alloc: Global, body: &[Path], count: usize) -> Result<Vec<Path>, AllocError>
    ensures { IfOk result (λ v. v.items ≡ repeated body.now count straight) }
{
    let mut paths = straight(alloc)?;
    for _ in 0..count {
        paths = followed(alloc, paths, body)?;
    }
    Ok(paths)
}

/// The paths through a loop, by each number of rounds.
fn by_rounds(alloc: Global, body: &[Path], rounds: &[usize]) -> Result<Vec<Path>, AllocError>
    ensures { IfOk result (λ v. v.items ≡ by_rounds body.now rounds.now) }
{
    let mut paths = Vec::new(alloc);
    for &count in rounds {
        let found = repeated(alloc, body, count)?;
        put_chosen(alloc, count, false, found.as_slice(), &mut paths)?;
    }
    Ok(paths)
}

/// The paths of an arrow that is lost or arrives.
fn by_fate(alloc: Global) -> Result<Vec<Path>, AllocError>
    ensures { IfOk result (λ v. v.items ≡ by_fate) }
{
    let alone = straight(alloc)?;
    let mut paths = Vec::new(alloc);
    put_chosen(alloc, 0, false, alone.as_slice(), &mut paths)?;
    put_chosen(alloc, 1, false, alone.as_slice(), &mut paths)?;
    Ok(paths)
}

/// Whether loops go no round at all.
fn never_go(rounds: &[usize]) -> bool
    ensures { result ≡ list_all (λ r. r == 0) rounds.now }
{
    rounds.iter().all(|&r| r == 0)
}

/// The paths through the body of a loop. The body may have more paths than the loop, if the loop
/// goes no round: then none of them is looked for.
#[cycle(choosing)]
fn body_of(
    alloc: Global,
    depth: usize,
    rounds: &[usize],
    body: &[Placed],
) -> Result<Vec<Path>, AllocError>
    ensures { IfOk result (λ v. by_rounds v.items rounds.now
        ≡ by_rounds (choose depth rounds.now body.now) rounds.now) }
{
    if never_go(rounds) {
        return Ok(Vec::new(alloc));
    }
    choose(alloc, depth, rounds, body)
}

/// Appends the paths by each of the branches, each after the first paths. The choice of the first
/// of the branches is 0 or 1.
#[cycle(choosing)]
fn put_branches(
    alloc: Global,
    depth: usize,
    rounds: &[usize],
    first: &[Path],
    start: usize,
    branches: &[&[Placed]],
    paths: &mut Vec<Path>,
) -> Result<(), AllocError>
    requires { start ≤ 1 }
    ensures { OnOk result (paths.new.items ≡ paths.old.items ++ by_branches
        (choose depth rounds.now) first.now start (map (λ x. x.now) branches.now)) }
{
    for i in 0..branches.len() {
        let next = choose(alloc, depth, rounds, branches[i])?;
        let found = behind(alloc, first, next.as_slice())?;
        put_chosen(alloc, start + i, false, found.as_slice(), paths)?;
    }
    Ok(())
}

/// The first paths by themselves, and then those followed by each of the branches.
#[cycle(choosing)]
fn by_options(
    alloc: Global,
    depth: usize,
    rounds: &[usize],
    first: &[Path],
    branches: &[&[Placed]],
) -> Result<Vec<Path>, AllocError>
    ensures { IfOk result (λ v. v.items ≡ by_options
        (choose depth rounds.now) first.now (map (λ x. x.now) branches.now)) }
{
    let mut paths = Vec::new(alloc);
    put_chosen(alloc, 0, false, first, &mut paths)?;
    put_branches(alloc, depth, rounds, first, 1, branches, &mut paths)?;
    Ok(paths)
}

/// The paths through parallel branches, one branch after the other.
#[cycle(choosing)]
fn by_sides(
    alloc: Global,
    depth: usize,
    rounds: &[usize],
    branches: &[&[Placed]],
) -> Result<Vec<Path>, AllocError>
    ensures { IfOk result (λ v. v.items ≡ by_sides
        (choose depth rounds.now) (map (λ x. x.now) branches.now) straight) }
{
    let mut paths = straight(alloc)?;
    for branch in branches {
        let found = choose(alloc, depth, rounds, branch)?;
        let next = healed(alloc, found.as_slice())?;
        paths = behind(alloc, paths.as_slice(), next.as_slice())?;
    }
    Ok(paths)
}

/// The paths through a block that ends the enclosing block, or is left out.
#[cycle(choosing)]
fn by_break(
    alloc: Global,
    depth: usize,
    rounds: &[usize],
    body: &[Placed],
) -> Result<Vec<Path>, AllocError>
    ensures { IfOk result (λ v. v.items ≡ chosen 0 false straight
        ++ chosen 1 true (choose depth rounds.now body.now)) }
{
    let mut paths = Vec::new(alloc);
    put_chosen(alloc, 0, false, straight(alloc)?.as_slice(), &mut paths)?;
    let found = choose(alloc, depth, rounds, body)?;
    put_chosen(alloc, 1, true, found.as_slice(), &mut paths)?;
    Ok(paths)
}

/// The paths through a block of this form.
#[cycle(choosing)]
#[tactic(auto, unfolding(crate::specs::Choosing::formed))]
fn formed(
    alloc: Global,
    depth: usize,
    rounds: &[usize],
    passage: Passage,
    branches: &[&[Placed]],
) -> Result<Vec<Path>, AllocError>
    ensures { IfOk result (λ v. v.items ≡ formed
        (choose depth rounds.now) rounds.now passage (map (λ x. x.now) branches.now)) }
{
    match passage {
        Passage::OneOf => {
            let mut paths = Vec::new(alloc);
            let first = straight(alloc)?;
            put_branches(
                alloc,
                depth,
                rounds,
                first.as_slice(),
                0,
                branches,
                &mut paths,
            )?;
            Ok(paths)
        }
        Passage::Maybe => {
            let first = straight(alloc)?;
            by_options(alloc, depth, rounds, first.as_slice(), branches)
        }
        Passage::Rounds => {
            let body = body_of(alloc, depth, rounds, branch_at(branches, 0))?;
            by_rounds(alloc, body.as_slice(), rounds)
        }
        Passage::Break => by_break(alloc, depth, rounds, branch_at(branches, 0)),
        Passage::First => {
            let first = choose(alloc, depth, rounds, branch_at(branches, 0))?;
            let others = if branches.is_empty() {
                branches
            } else {
                &branches[1..]
            };
            by_options(alloc, depth, rounds, first.as_slice(), others)
        }
        Passage::Par => by_sides(alloc, depth, rounds, branches),
        Passage::Plain => choose(alloc, depth, rounds, branch_at(branches, 0)),
    }
}

/// These paths, each followed by those through a block of this kind with these statements inside.
#[cycle(choosing)]
#[tactic(auto, unfolding(crate::specs::Choosing::block))]
fn block(
    alloc: Global,
    depth: usize,
    rounds: &[usize],
    kind: Kind,
    inside: &[Placed],
    paths: Vec<Path>,
) -> Result<Vec<Path>, AllocError>
    ensures { IfOk result (λ v. v.items ≡ block
        (choose depth rounds.now) rounds.now kind inside.now paths.items) }
{
    if !is_there(kind, inside) {
        return Ok(paths);
    }
    let branches = branches_of(alloc, inside)?;
    let passage = Passage::of(kind, branches.len());
    let next = formed(alloc, depth, rounds, passage, branches.as_slice())?;
    followed(alloc, paths, next.as_slice())
}

/// These paths, each followed by those through one statement and the statements that it owns.
#[cycle(choosing)]
fn one(
    alloc: Global,
    depth: usize,
    rounds: &[usize],
    statement: &Statement,
    rest: &[Placed],
    paths: Vec<Path>,
) -> Result<Vec<Path>, AllocError>
    ensures { IfOk result (λ v. v.items ≡ one
        (choose depth rounds.now) rounds.now statement.now rest.now paths.items) }
{
    match statement {
        Statement::Begins(kind) => {
            let inside = &rest[..extent(rest)];
            block(alloc, depth, rounds, *kind, inside, paths)
        }
        Statement::Says(arrow) if is_choice(arrow) => {
            behind(alloc, paths.as_slice(), by_fate(alloc)?.as_slice())
        }
        _ => Ok(paths),
    }
}

/// The paths through statements, with at most this number of nested blocks.
#[cycle(choosing)]
fn choose(
    alloc: Global,
    depth: usize,
    rounds: &[usize],
    statements: &[Placed],
) -> Result<Vec<Path>, AllocError>
    ensures { IfOk result (λ v. v.items ≡ choose depth rounds.now statements.now) }
{
    let mut paths = straight(alloc)?;
    if depth == 0 {
        return Ok(paths);
    }
    let mut owned = 0;
    for i in 0..statements.len() {
        if owned > 0 {
            owned -= 1;
            continue;
        }
        let statement = &statements[i].statement;
        let rest = &statements[i + 1..];
        paths = one(alloc, depth - 1, rounds, statement, rest, paths)?;
        owned = owned_by(statement, rest);
    }
    Ok(paths)
}

/// The choices of each of a diagram's scenarios, if each loop goes these numbers of rounds. The
/// lists are in their order: by the first choice, then by the second, and so on, if the numbers of
/// rounds ascend. It takes memory for all of them, so call [`scenarios`](crate::scenarios) first to
/// learn their number.
pub fn all_choices(
    alloc: Global,
    diagram: &Diagram,
    rounds: &[usize],
) -> Result<Vec<Listed<usize>>, AllocError>
    ensures { IfOk result (λ v. v.items ≡ all_choices rounds.now diagram.now) }
{
    let paths = choose(
        alloc,
        DEPTH_LIMIT + 1,
        rounds,
        diagram.statements.as_slice(),
    )?;
    choices_of(alloc, paths.as_slice())
}
