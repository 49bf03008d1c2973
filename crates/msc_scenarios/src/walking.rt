//! Walks through a diagram's statements, block by block.

ghost use Rattle.std.specs.Prelude.{◌≡◌, ◌≤◌, ◌+◌, [], length, map, IfOk, OnOk};
ghost use Rattle.msc_scenarios.specs.Steps.{at_rest, unended};
ghost use Rattle.msc_mermaid.specs.Reading.{Leaves};
ghost use Rattle.msc_scenarios.specs.Steps.{block, branch_at, broken, choice_of, choose, follow};
ghost use Rattle.msc_scenarios.specs.Steps.{formed, goes, line_at, meet, message_of, one, owned_by};
ghost use Rattle.msc_scenarios.specs.Steps.{put, rounds_from, said, side_by_side, start_of};
ghost use Rattle.msc_scenarios.specs.Steps.{unbroken};
ghost use Rattle.msc_scenarios.specs.Steps.{walk};

use crate::ARROW_LIMIT;
use crate::line_name::number_name;
use crate::naming::made;
use crate::steps::{
    Ending, Message, Passage, Step, branches_of, extent, heads, is_choice, is_exchange, is_loss,
    is_there,
};
use listed::Listed;
use msc_mermaid::{Arrow, DEPTH_LIMIT, Diagram, ImportFault, Kind, Placed, Statement};
use msc_parser::Name;
use msc_place::Position;
use std::alloc::{AllocError, Global};
use std::marker::Model;

/// A walk: the lines of the diagram, the given choices and those that were taken, the steps and the
/// number of arrows among them, and how it has ended, if it has.
#[derive(Drop)]
pub struct Walker<'w> {
    lines: &'w [Listed<u8>],
    given: &'w [usize],
    taken: Vec<usize>,
    steps: Vec<Step>,
    arrows: usize,
    ending: Ending,
}

impl<'w> Model for Walker<'w> {
    ghost use Rattle.msc_scenarios.specs.Steps.{Walk};

    ghost Value = { Walk };

    ghost view = { λ w. record {
      lines = w.lines.now;
      given = w.given.now;
      taken = w.taken.items;
      steps = w.steps.items;
      arrows = w.arrows;
      ending = w.ending;
    } };
}

/// The position at which a statement begins.
fn start_of(placed: &Placed) -> Position
    ensures { result ≡ start_of placed.now }
{
    Position {
        line: placed.line,
        column: placed.column,
    }
}

/// The index of a line.
fn line_at(lines: &[Listed<u8>], ident: &[u8]) -> usize
    ensures { result ≡ line_at lines.now ident.now }
{
    lines
        .iter()
        .take_while(|line| line.as_slice() != ident)
        .count()
}

/// The message of an arrow in these rounds, lost or not.
fn message_of(
    alloc: Global,
    lines: &[Listed<u8>],
    placed: &Placed,
    arrow: &Arrow,
    lost: bool,
    rounds: &[usize],
) -> Result<Message, AllocError>
    ensures { IfOk result (λ m. m ≡ message_of lines.now placed.now arrow.now lost rounds.now) }
{
    let name = made(alloc, arrow.label.as_slice(), "m".as_bytes())?;
    let number = number_name(alloc, placed.number, rounds)?;
    Ok(Message {
        from: line_at(lines, arrow.from.as_slice()),
        to: line_at(lines, arrow.to.as_slice()),
        name: Name::from_slice(alloc, name.as_slice())?,
        number: Name::from_slice(alloc, number.as_slice())?,
        lost,
        both: is_exchange(arrow),
        line: placed.line,
        column: placed.column,
        statement: placed.whole,
        label: placed.shown,
        rounds: Listed::from_vec(Vec::from_slice(alloc, rounds)?),
    })
}

impl Walker<'_> {
    /// Whether the walk goes on.
    fn goes(&self) -> bool
        ensures { result ≡ goes self.now.ending }
    {
        matches!(self.ending, Ending::Goes)
    }

    /// Appends a step.
    fn put(&mut self, step: Step) -> Result<(), AllocError>
        ensures { OnOk result (self.new ≡ put step self.old) }
    {
        self.steps.push(step)?;
        Ok(())
    }

    /// Ends the effect of a break, which goes no further out.
    fn heal(&mut self)
        ensures { self.new ≡ unbroken self.old }
    {
        if let Ending::Broke = self.ending {
            self.ending = Ending::Goes;
        }
    }

    /// Ends the enclosing block by a break.
    fn cut_off(&mut self)
        ensures { self.new ≡ broken self.old }
    {
        if let Ending::Goes = self.ending {
            self.ending = Ending::Broke;
        }
    }

    /// Meets an arrow that is lost or arrives.
    #[tactic(auto, unfolding(crate::specs::Steps::meet))]
    fn meet(
        &mut self,
        alloc: Global,
        placed: &Placed,
        arrow: &Arrow,
        lost: bool,
        rounds: &[usize],
    ) -> Result<(), AllocError>
        ensures { OnOk result (self.new ≡ meet placed.now arrow.now lost rounds.now self.old) }
    {
        let heads = heads(arrow);
        if self.arrows > ARROW_LIMIT - heads {
            self.ending = Ending::Stopped(ImportFault::TooManyArrows(start_of(placed)));
            return Ok(());
        }
        let message = message_of(alloc, self.lines, placed, arrow, lost, rounds)?;
        self.steps.push(Step::Meets(message))?;
        self.arrows += heads;
        Ok(())
    }

    /// Takes the choice of a block that begins here, and returns it.
    #[tactic(auto, unfolding(crate::specs::Steps::choose))]
    fn choose(&mut self, here: Position, most: usize, main: usize) -> Result<usize, AllocError>
        ensures value { IfOk result (λ c. c ≡ choice_of main self.old) }
        ensures taken { OnOk result (self.new ≡ choose here most main self.old) }
    {
        let number = self.taken.len();
        let choice = self.given.get(number).copied().unwrap_or(main);
        self.taken.push(choice)?;
        if choice > most {
            self.ending = Ending::Stopped(ImportFault::Choice(here, number + 1, most));
        }
        Ok(choice)
    }

    /// Meets an arrow. If it may be lost or arrive, its choice decides.
    #[tactic(auto, unfolding(crate::specs::Steps::said))]
    fn say(
        &mut self,
        alloc: Global,
        placed: &Placed,
        arrow: &Arrow,
        rounds: &[usize],
    ) -> Result<(), AllocError>
        ensures { OnOk result (self.new ≡ said placed.now arrow.now rounds.now self.old) }
    {
        if !is_choice(arrow) {
            return self.meet(alloc, placed, arrow, is_loss(arrow.fate), rounds);
        }
        let choice = self.choose(start_of(placed), 1, 0)?;
        if !self.goes() {
            return Ok(());
        }
        self.meet(alloc, placed, arrow, choice == 0, rounds)
    }
}

/// A branch, or nothing if there are fewer branches.
pub(crate) fn branch_at<'p>(branches: &[&'p [Placed]], i: usize) -> &'p [Placed]
    ensures { result.now ≡ branch_at (map (λ x. x.now) branches.now) i }
{
    if i < branches.len() { branches[i] } else { &[] }
}

/// The number of statements after one that belong to it.
pub(crate) fn owned_by(statement: &Statement, rest: &[Placed]) -> usize
    ensures value { result ≡ owned_by statement.now rest.now }
    ensures within { result ≤ length rest.now }
{
    match statement {
        Statement::Begins(_) => extent(rest),
        _ => 0,
    }
}

impl Walker<'_> {
    /// Walks `count` rounds of a loop.
    #[cycle(walking)]
    fn rounds(
        &mut self,
        alloc: Global,
        depth: usize,
        body: &[Placed],
        rounds: &[usize],
        count: usize,
    ) -> Result<(), AllocError>
        ensures { OnOk result
            (self.new ≡ rounds_from (walk depth) body.now rounds.now 0 count self.old) }
    {
        for i in 0..count {
            let mut inner = Vec::from_slice(alloc, rounds)?;
            inner.push(i + 1)?;
            self.walk(alloc, depth, body, inner.as_slice())?;
            if !self.goes() {
                return Ok(());
            }
        }
        Ok(())
    }

    /// Walks parallel branches, one after the other, with a mark after each.
    #[cycle(walking)]
    fn side_by_side(
        &mut self,
        alloc: Global,
        depth: usize,
        branches: &[&[Placed]],
        rounds: &[usize],
    ) -> Result<(), AllocError>
        ensures { OnOk result (self.new
            ≡ side_by_side (walk depth) (map (λ x. x.now) branches.now) rounds.now self.old) }
    {
        for branch in branches {
            self.walk(alloc, depth, branch, rounds)?;
            self.heal();
            if !self.goes() {
                return Ok(());
            }
            self.put(Step::Next)?;
        }
        Ok(())
    }

    /// Walks a block of this form with the choice that was taken.
    #[cycle(walking)]
    #[tactic(auto, unfolding(crate::specs::Steps::follow))]
    fn follow(
        &mut self,
        alloc: Global,
        depth: usize,
        passage: Passage,
        branches: &[&[Placed]],
        rounds: &[usize],
        choice: usize,
    ) -> Result<(), AllocError>
        ensures { OnOk result (self.new ≡ follow
            (walk depth) passage (map (λ x. x.now) branches.now) rounds.now choice self.old) }
    {
        match passage {
            Passage::OneOf => {
                self.walk(alloc, depth, branch_at(branches, choice), rounds)?;
                self.heal();
            }
            Passage::Maybe if choice > 0 => {
                self.walk(alloc, depth, branch_at(branches, choice - 1), rounds)?;
                self.heal();
            }
            Passage::Rounds => {
                self.rounds(alloc, depth, branch_at(branches, 0), rounds, choice)?;
                self.heal();
            }
            Passage::Break if choice > 0 => {
                self.walk(alloc, depth, branch_at(branches, 0), rounds)?;
                self.cut_off();
            }
            Passage::First => {
                self.walk(alloc, depth, branch_at(branches, 0), rounds)?;
                if choice > 0 && self.goes() {
                    self.walk(alloc, depth, branch_at(branches, choice), rounds)?;
                }
                self.heal();
            }
            Passage::Maybe | Passage::Break | Passage::Par | Passage::Plain => {}
        }
        Ok(())
    }

    /// Walks a block of this form, which begins here.
    #[cycle(walking)]
    #[tactic(auto, unfolding(crate::specs::Steps::formed))]
    fn formed(
        &mut self,
        alloc: Global,
        depth: usize,
        here: Position,
        passage: Passage,
        branches: &[&[Placed]],
        rounds: &[usize],
    ) -> Result<(), AllocError>
        ensures { OnOk result (self.new ≡ formed
            (walk depth) here passage (map (λ x. x.now) branches.now) rounds.now self.old) }
    {
        match passage {
            Passage::Plain => self.walk(alloc, depth, branch_at(branches, 0), rounds),
            Passage::Par => {
                self.put(Step::Opens(here))?;
                self.side_by_side(alloc, depth, branches, rounds)?;
                if self.goes() {
                    self.put(Step::Closes)?;
                }
                Ok(())
            }
            _ => {
                let choice = self.choose(here, passage.most(branches.len()), passage.main())?;
                if !self.goes() {
                    return Ok(());
                }
                self.follow(alloc, depth, passage, branches, rounds, choice)
            }
        }
    }

    /// Walks a block of this kind, which begins here, with these statements inside.
    #[cycle(walking)]
    #[tactic(auto, unfolding(crate::specs::Steps::block))]
    fn block(
        &mut self,
        alloc: Global,
        depth: usize,
        here: Position,
        kind: Kind,
        inside: &[Placed],
        rounds: &[usize],
    ) -> Result<(), AllocError>
        ensures { OnOk result (self.new
            ≡ block (walk depth) here kind inside.now rounds.now self.old) }
    {
        if !is_there(kind, inside) {
            return Ok(());
        }
        let branches = branches_of(alloc, inside)?;
        let passage = Passage::of(kind, branches.len());
        self.formed(alloc, depth, here, passage, branches.as_slice(), rounds)
    }

    /// Walks one statement and the statements that it owns.
    #[cycle(walking)]
    fn one(
        &mut self,
        alloc: Global,
        depth: usize,
        placed: &Placed,
        rest: &[Placed],
        rounds: &[usize],
    ) -> Result<(), AllocError>
        ensures { OnOk result (self.new
            ≡ one (walk depth) placed.now placed.now.statement rest.now rounds.now self.old) }
    {
        match &placed.statement {
            Statement::Says(arrow) => self.say(alloc, placed, arrow, rounds),
            Statement::Begins(kind) => {
                let inside = &rest[..extent(rest)];
                self.block(alloc, depth, start_of(placed), *kind, inside, rounds)
            }
            Statement::Declares(_, _) | Statement::Closes(_) => Ok(()),
        }
    }

    /// Walks statements, with at most this number of nested blocks.
    #[cycle(walking)]
    fn walk(
        &mut self,
        alloc: Global,
        depth: usize,
        statements: &[Placed],
        rounds: &[usize],
    ) -> Result<(), AllocError>
        ensures { OnOk result (self.new ≡ walk depth statements.now rounds.now self.old) }
    {
        if depth == 0 {
            return Ok(());
        }
        let mut owned = 0;
        for i in 0..statements.len() {
            if owned > 0 {
                owned -= 1;
                continue;
            }
            let placed = &statements[i];
            let rest = &statements[i + 1..];
            self.one(alloc, depth - 1, placed, rest, rounds)?;
            if !self.goes() {
                return Ok(());
            }
            owned = owned_by(&placed.statement, rest);
        }
        Ok(())
    }
}

impl<'w> Walker<'w> {
    /// The walk through a diagram with these choices, and with the main choice at each further
    /// block.
    pub fn through(
        alloc: Global,
        diagram: &'w Diagram,
        given: &'w [usize],
    ) -> Result<Walker<'w>, AllocError>
        ensures { IfOk result (λ w. w ≡ walk
            (DEPTH_LIMIT + 1) diagram.now.statements [] (at_rest diagram.now.lines given.now)) }
    {
        let mut walker = Walker {
            lines: diagram.lines.as_slice(),
            given,
            taken: Vec::new(alloc),
            steps: Vec::new(alloc),
            arrows: 0,
            ending: Ending::Goes,
        };
        walker.walk(alloc, DEPTH_LIMIT + 1, diagram.statements.as_slice(), &[])?;
        Ok(walker)
    }

    /// The steps.
    pub fn steps(&self) -> &[Step]
        ensures { result.now ≡ self.now.steps }
    {
        self.steps.as_slice()
    }

    /// The lines of the diagram.
    pub fn lines(&self) -> &[Listed<u8>]
        ensures { result.now ≡ self.now.lines }
    {
        self.lines
    }

    /// Nothing, or the fault because of which the walk has no draft: the fault that stopped it, or
    /// that more choices are given than were taken.
    pub fn whole(&self) -> Result<(), ImportFault>
        ensures { Leaves result self.now (unended self.now self.now.ending) }
    {
        if let Ending::Stopped(fault) = self.ending {
            return Err(fault);
        }
        if self.given.len() > self.taken.len() {
            return Err(ImportFault::TooManyChoices(self.given.len(), self.taken.len()));
        }
        Ok(())
    }
}
