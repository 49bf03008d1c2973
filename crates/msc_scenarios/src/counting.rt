//! The number of scenarios of a diagram.

ghost use Rattle.std.specs.Prelude.{◌≡◌, ◌≤◌, length, map, IfOk, take, drop, IsTrue};
ghost use Rattle.msc_scenarios.specs.Counting.{all, behind, block, by_branches, by_options};
ghost use Rattle.msc_scenarios.specs.Counting.{by_rounds, by_sides};
ghost use Rattle.msc_scenarios.specs.Counting.{count, formed, one, plus, repeated, scenarios};
ghost use Rattle.msc_scenarios.specs.Counting.{times};
ghost use Rattle.msc_scenarios.specs.Counting.{unbroken};

use crate::SCENARIO_LIMIT;
use crate::steps::{Passage, branches_of, extent, is_choice, is_there};
use crate::walking::{branch_at, owned_by};
use msc_mermaid::{DEPTH_LIMIT, Diagram, Kind, Placed, Statement};
use std::alloc::{AllocError, Global};

/// The number of paths to the end of statements, and the number of paths to a break in them.
#[derive(Clone, Copy)]
pub(crate) struct Paths {
    pub through: usize,
    pub broken: usize,
}

/// The sum, or one more than the limit if the sum is greater.
fn plus(m: usize, n: usize) -> usize
    ensures { result ≡ plus m n }
{
    m.saturating_add(n).min(SCENARIO_LIMIT + 1)
}

/// The product, or one more than the limit if the product is greater.
fn times(m: usize, n: usize) -> usize
    ensures { result ≡ times m n }
{
    m.saturating_mul(n).min(SCENARIO_LIMIT + 1)
}

impl Paths {
    /// This number of paths to the end, and none to a break.
    fn unbroken(through: usize) -> Paths
        ensures { result ≡ unbroken through }
    {
        Paths { through, broken: 0 }
    }

    /// The number of paths through these statements and then through the next.
    fn behind(self, next: Paths) -> Paths
        ensures { result ≡ behind self next }
    {
        Paths {
            through: times(self.through, next.through),
            broken: plus(self.broken, times(self.through, next.broken)),
        }
    }

    /// Whether these numbers are equal to the others.
    fn are_as_many(self, others: Paths) -> bool
        ensures { IsTrue result → self ≡ others }
    {
        self.through == others.through && self.broken == others.broken
    }

    /// The sum of both numbers.
    fn all(self) -> usize
        ensures { result ≡ all self }
    {
        plus(self.through, self.broken)
    }

    /// The paths through `count` rounds of a loop. The count stops at a round that changes nothing.
    fn repeated(self, count: usize) -> Paths
        ensures { result ≡ repeated self count (unbroken 1) }
    {
        let mut paths = Paths::unbroken(1);
        for _ in 0..count {
            let next = paths.behind(self);
            if next.are_as_many(paths) {
                return paths;
            }
            paths = next;
        }
        paths
    }

    /// The paths through a loop, by each number of rounds. The count stops past the limit.
    fn by_rounds(self, rounds: &[usize]) -> usize
        ensures { result ≡ by_rounds self rounds.now 0 }
    {
        let mut number = 0;
        for &count in rounds {
            if number == SCENARIO_LIMIT + 1 {
                return number;
            }
            number = plus(number, self.repeated(count).all());
        }
        number
    }
}

/// The number, plus the number of paths by each of the branches after the first paths.
#[cycle(counting)]
fn by_branches(
    alloc: Global,
    depth: usize,
    rounds: &[usize],
    first: Paths,
    branches: &[&[Placed]],
    number: usize,
) -> Result<usize, AllocError>
    ensures { IfOk result (λ n. n ≡ by_branches
        (count depth rounds.now) first (map (λ x. x.now) branches.now) number) }
{
    let mut number = number;
    for branch in branches {
        let paths = count(alloc, depth, rounds, branch)?;
        number = plus(number, first.behind(paths).all());
    }
    Ok(number)
}

/// The number of paths through parallel branches.
#[cycle(counting)]
fn by_sides(
    alloc: Global,
    depth: usize,
    rounds: &[usize],
    branches: &[&[Placed]],
) -> Result<usize, AllocError>
    ensures { IfOk result (λ n. n ≡ by_sides
        (count depth rounds.now) (map (λ x. x.now) branches.now) 1) }
{
    let mut number = 1;
    for branch in branches {
        number = times(number, count(alloc, depth, rounds, branch)?.all());
    }
    Ok(number)
}

/// The number of paths through a first branch, and then through one of the others, or none.
#[cycle(counting)]
fn by_options(
    alloc: Global,
    depth: usize,
    rounds: &[usize],
    branches: &[&[Placed]],
) -> Result<usize, AllocError>
    ensures { IfOk result (λ n. n ≡ by_options
        (count depth rounds.now) (map (λ x. x.now) branches.now)) }
{
    let first = count(alloc, depth, rounds, branch_at(branches, 0))?;
    let others = if branches.is_empty() {
        branches
    } else {
        &branches[1..]
    };
    by_branches(alloc, depth, rounds, first, others, first.all())
}

/// The paths through a block of this form.
#[cycle(counting)]
#[tactic(auto, unfolding(crate::specs::Counting::formed))]
fn formed(
    alloc: Global,
    depth: usize,
    rounds: &[usize],
    passage: Passage,
    branches: &[&[Placed]],
) -> Result<Paths, AllocError>
    ensures { IfOk result (λ w. w ≡ formed
        (count depth rounds.now) rounds.now passage (map (λ x. x.now) branches.now)) }
{
    match passage {
        Passage::OneOf => {
            let one = Paths::unbroken(1);
            Ok(Paths::unbroken(by_branches(alloc, depth, rounds, one, branches, 0)?))
        }
        Passage::Maybe => {
            let one = Paths::unbroken(1);
            Ok(Paths::unbroken(by_branches(alloc, depth, rounds, one, branches, 1)?))
        }
        Passage::Rounds => {
            let body = count(alloc, depth, rounds, branch_at(branches, 0))?;
            Ok(Paths::unbroken(body.by_rounds(rounds)))
        }
        Passage::Break => {
            let body = count(alloc, depth, rounds, branch_at(branches, 0))?;
            Ok(Paths {
                through: 1,
                broken: body.all(),
            })
        }
        Passage::First => Ok(Paths::unbroken(by_options(alloc, depth, rounds, branches)?)),
        Passage::Par => Ok(Paths::unbroken(by_sides(alloc, depth, rounds, branches)?)),
        Passage::Plain => count(alloc, depth, rounds, branch_at(branches, 0)),
    }
}

/// The paths through a block of this kind, with these statements inside.
#[cycle(counting)]
#[tactic(auto, unfolding(crate::specs::Counting::block))]
fn block(
    alloc: Global,
    depth: usize,
    rounds: &[usize],
    kind: Kind,
    inside: &[Placed],
) -> Result<Paths, AllocError>
    ensures { IfOk result (λ w. w ≡ block
        (count depth rounds.now) rounds.now kind inside.now) }
{
    if !is_there(kind, inside) {
        return Ok(Paths::unbroken(1));
    }
    let branches = branches_of(alloc, inside)?;
    let passage = Passage::of(kind, branches.len());
    formed(alloc, depth, rounds, passage, branches.as_slice())
}

/// The number of paths through one statement and the statements that it owns.
#[cycle(counting)]
fn one(
    alloc: Global,
    depth: usize,
    rounds: &[usize],
    statement: &Statement,
    rest: &[Placed],
) -> Result<Paths, AllocError>
    ensures { IfOk result (λ w. w ≡ one
        (count depth rounds.now) rounds.now statement.now rest.now) }
{
    match statement {
        Statement::Begins(kind) => block(alloc, depth, rounds, *kind, &rest[..extent(rest)]),
        Statement::Says(arrow) if is_choice(arrow) => Ok(Paths::unbroken(2)),
        _ => Ok(Paths::unbroken(1)),
    }
}

/// The paths through statements, with at most this number of nested blocks.
#[cycle(counting)]
fn count(
    alloc: Global,
    depth: usize,
    rounds: &[usize],
    statements: &[Placed],
) -> Result<Paths, AllocError>
    ensures { IfOk result (λ w. w ≡ count depth rounds.now statements.now) }
{
    let mut paths = Paths::unbroken(1);
    if depth == 0 {
        return Ok(paths);
    }
    let mut owned = 0;
    for i in 0..statements.len() {
        if owned > 0 {
            owned -= 1;
            continue;
        }
        let statement = &statements[i].statement;
        let rest = &statements[i + 1..];
        paths = paths.behind(one(alloc, depth - 1, rounds, statement, rest)?);
        owned = owned_by(statement, rest);
    }
    Ok(paths)
}

/// The number of scenarios of a diagram, if each loop goes these numbers of rounds; one more than
/// the limit if there are more.
pub fn scenarios(alloc: Global, diagram: &Diagram, rounds: &[usize]) -> Result<usize, AllocError>
    ensures { IfOk result (λ n. n ≡ scenarios rounds.now diagram.now) }
{
    let paths = count(
        alloc,
        DEPTH_LIMIT + 1,
        rounds,
        diagram.statements.as_slice(),
    )?;
    Ok(paths.all())
}
