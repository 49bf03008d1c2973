//! Paths through a diagram's blocks, each with its choices.

ghost use Rattle.std.specs.Prelude.{◌≡◌, ◌≤◌, ◌<◌, ◌+◌, ◌^◌, length, map, option_map, IfOk};
ghost use Rattle.std.specs.List.{list_any};
ghost use Rattle.msc_scenarios.specs.Steps.{branches_in, deeper, ends_at, extent, passage_of};
ghost use Rattle.msc_scenarios.specs.Steps.{is_break};
ghost use Rattle.msc_scenarios.specs.Steps.{is_drawn, is_end, is_joint, is_there, joins_at};
ghost use Rattle.msc_scenarios.specs.Steps.{is_sought, joint, left_after, main_of};
ghost use Rattle.msc_scenarios.specs.Steps.{heads, is_choice, is_exchange, is_loss, is_open};
ghost use Rattle.msc_scenarios.specs.Steps.{most_of};

use crate::ROUND_LIMIT;
use listed::Listed;
use msc_mermaid::{Arrow, Closer, Fate, ImportFault, Kind, Placed, Span, Statement};
use msc_parser::Name;
use msc_place::Position;
use std::alloc::{AllocError, Global};

/// A message of a path: its sender and its receiver, as numbers of lines from 0, its name and its
/// number, whether it is lost, whether the receiver sends one back with the same name and number,
/// the line and the column at which its arrow begins, the positions of the arrow's statement and of
/// its label in the text, and the rounds of the loops around the arrow, outermost first.
#[derive(Drop)]
pub struct Message {
    pub from: usize,
    pub to: usize,
    pub name: Name,
    pub number: Name,
    pub lost: bool,
    pub both: bool,
    pub line: usize,
    pub column: usize,
    pub statement: Span,
    pub label: Span,
    pub rounds: Listed<usize>,
}

/// A step of a path.
#[derive(Drop)]
pub enum Step {
    /// The path meets an arrow.
    Meets(Message),
    /// Parallel branches begin, at this position of the text.
    Opens(Position),
    /// A branch has ended.
    Next,
    /// All branches have ended.
    Closes,
}

/// How a path goes on.
#[derive(Clone, Copy)]
pub enum Ending {
    /// It goes on.
    Goes,
    /// A break ended the enclosing block.
    Broke,
    /// It has a fault.
    Stopped(ImportFault),
}

/// How a path passes a block.
#[derive(Clone, Copy)]
pub(crate) enum Passage {
    /// As if the block weren't there.
    Plain,
    /// All its branches, in parallel.
    Par,
    /// One of its branches.
    OneOf,
    /// One of its branches, or none.
    Maybe,
    /// Its first branch, some times.
    Rounds,
    /// Its first branch, which ends the enclosing block, or nothing.
    Break,
    /// Its first branch, and perhaps one more.
    First,
}

/// Whether the statement ends a block.
fn is_end(statement: &Statement) -> bool
    ensures { result ≡ is_end statement.now }
{
    matches!(statement, Statement::Closes(Closer::End))
}

/// Whether the statement begins a further branch.
fn is_joint(statement: &Statement) -> bool
    ensures { result ≡ is_joint statement.now }
{
    matches!(
        statement,
        Statement::Closes(Closer::Else | Closer::And | Closer::Option)
    )
}

/// Whether the statement ends the block within which `depth` more blocks are open.
fn ends_at(statement: &Statement, depth: usize) -> bool
    ensures { result ≡ ends_at depth statement.now }
{
    is_end(statement) && depth == 0
}

/// Whether the statement begins a further branch of such a block.
fn joins_at(statement: &Statement, depth: usize) -> bool
    ensures { result ≡ joins_at depth statement.now }
{
    is_joint(statement) && depth == 0
}

/// Whether the statement is an arrow, or ends the enclosing block.
fn is_drawn(statement: &Statement) -> bool
    ensures { result ≡ is_drawn statement.now }
{
    matches!(
        statement,
        Statement::Says(_) | Statement::Begins(Kind::Break)
    )
}

/// The number of open blocks after the statement, if `depth` are open before it.
fn deeper(statement: &Statement, depth: usize) -> usize
    requires { depth < 2 ^ 63 }
    ensures value { result ≡ deeper depth statement.now }
    ensures most { result ≤ depth + 1 }
{
    match statement {
        Statement::Begins(_) => depth + 1,
        Statement::Closes(Closer::End) => depth.saturating_sub(1),
        _ => depth,
    }
}

/// Whether an arrow of this fate may be lost or arrive.
fn is_open(fate: Fate) -> bool
    ensures { result ≡ is_open fate }
{
    matches!(fate, Fate::Either)
}

/// Whether an arrow of this fate is lost.
pub(crate) fn is_loss(fate: Fate) -> bool
    ensures { result ≡ is_loss fate }
{
    matches!(fate, Fate::Lost)
}

/// Whether the fate of an arrow is a choice: it may be lost or arrive, and does not go to its own
/// line.
pub(crate) fn is_choice(arrow: &Arrow) -> bool
    ensures { result ≡ is_choice arrow.now }
{
    is_open(arrow.fate) && arrow.from.as_slice() != arrow.to.as_slice()
}

/// Whether an arrow between two lines has two heads: each line sends the other a message.
pub(crate) fn is_exchange(arrow: &Arrow) -> bool
    ensures { result ≡ is_exchange arrow.now }
{
    arrow.both && arrow.from.as_slice() != arrow.to.as_slice()
}

/// The number of messages of an arrow.
pub(crate) fn heads(arrow: &Arrow) -> usize
    ensures value { result ≡ heads arrow.now }
    ensures few { result ≤ 2 }
{
    if is_exchange(arrow) { 2 } else { 1 }
}

/// The number of statements before the end of a block.
pub(crate) fn extent(statements: &[Placed]) -> usize
    ensures value { result ≡ extent 0 statements.now }
    ensures within { result ≤ length statements.now }
{
    let mut depth = 0;
    for i in 0..statements.len() {
        let statement = &statements[i].statement;
        if ends_at(statement, depth) {
            return i;
        }
        depth = deeper(statement, depth);
    }
    statements.len()
}

/// Whether the statement begins the branch before which `left` more branches begin.
fn is_sought(statement: &Statement, depth: usize, left: usize) -> bool
    ensures { result ≡ is_sought depth left statement.now }
{
    joins_at(statement, depth) && left == 0
}

/// How many branches begin after the statement, before the one that is sought.
fn left_after(statement: &Statement, depth: usize, left: usize) -> usize
    ensures { result ≡ left_after depth left statement.now }
{
    if joins_at(statement, depth) {
        left.saturating_sub(1)
    } else {
        left
    }
}

/// The statement that begins a further branch of a block: these statements follow the one that
/// begins the block, and `number` further branches begin before this one. It takes no memory.
pub fn joint(statements: &[Placed], number: usize) -> Option<&Placed>
    ensures { option_map (λ p. p.now) result ≡ joint 0 number statements.now }
{
    let mut depth = 0;
    let mut left = number;
    for i in 0..statements.len() {
        let placed = &statements[i];
        if ends_at(&placed.statement, depth) {
            return None;
        }
        if is_sought(&placed.statement, depth, left) {
            return Some(placed);
        }
        left = left_after(&placed.statement, depth, left);
        depth = deeper(&placed.statement, depth);
    }
    None
}

/// The branches of a block.
pub(crate) fn branches_of(alloc: Global, inside: &[Placed]) -> Result<Vec<&[Placed]>, AllocError>
    ensures { IfOk result (λ v. map (λ x. x.now) v.items ≡ branches_in 0 inside.now) }
{
    let mut branches = Vec::new(alloc);
    let mut start = 0;
    let mut depth = 0;
    for i in 0..inside.len() {
        let statement = &inside[i].statement;
        if joins_at(statement, depth) {
            branches.push(&inside[start..i])?;
            start = i + 1;
        }
        depth = deeper(statement, depth);
    }
    branches.push(&inside[start..])?;
    Ok(branches)
}

/// Whether a block of this kind ends the enclosing block.
fn is_break(kind: Kind) -> bool
    ensures { result ≡ is_break kind }
{
    matches!(kind, Kind::Break)
}

/// Whether an arrow, or a statement that ends the enclosing block, is among the statements.
fn has_drawn(inside: &[Placed]) -> bool
    ensures { result ≡ list_any (λ p. is_drawn p.statement) inside.now }
{
    inside.iter().any(|p| is_drawn(&p.statement))
}

/// Whether a block of this kind with these statements inside is not left out as a whole.
pub(crate) fn is_there(kind: Kind, inside: &[Placed]) -> bool
    ensures { result ≡ is_there kind inside.now }
{
    is_break(kind) || has_drawn(inside)
}

impl Passage {
    /// How a path passes a block with this number of branches.
    pub(crate) fn of(kind: Kind, branches: usize) -> Passage
        ensures { result ≡ passage_of kind branches }
    {
        match kind {
            Kind::Alt if branches > 1 => Passage::OneOf,
            Kind::Alt | Kind::Opt => Passage::Maybe,
            Kind::Loop => Passage::Rounds,
            Kind::Break => Passage::Break,
            Kind::Critical if branches > 1 => Passage::First,
            Kind::Critical | Kind::Plain => Passage::Plain,
            Kind::Par => Passage::Par,
        }
    }

    /// The greatest choice of a block with this number of branches.
    pub(crate) fn most(self, branches: usize) -> usize
        ensures { result ≡ most_of self branches }
    {
        match self {
            Passage::OneOf | Passage::First => branches.saturating_sub(1),
            Passage::Maybe => branches,
            Passage::Rounds => ROUND_LIMIT,
            Passage::Break => 1,
            Passage::Plain | Passage::Par => 0,
        }
    }

    /// The main choice.
    pub(crate) fn main(self) -> usize
        ensures { result ≡ main_of self }
    {
        match self {
            Passage::Maybe | Passage::Rounds => 1,
            _ => 0,
        }
    }
}
