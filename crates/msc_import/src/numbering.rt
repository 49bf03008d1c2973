//! The numbers of the arrows of a scenario's events.
//!
//! Arrows are numbered from 0 along the path of a scenario. An arrow that the path meets in two
//! rounds of a loop has two numbers.

ghost use Rattle.std.specs.Prelude.{◌≡◌, ◌++◌, IfOk, OnOk, length, map, replicate};
ghost use Rattle.msc_import.specs.Numbering.{arrow_numbers, arrows_of, numbers_from};
ghost use Rattle.msc_import.specs.Numbering.{numbers_on_lines, walk_numbers};
ghost use Rattle.msc_import.specs.Plans.{sides_on};
ghost use Rattle.msc_mermaid.specs.Gives.{Gives};

use crate::plan::{Manner, Own, end_count, plans_of};
use msc_mermaid::{Diagram, ImportFault};
use msc_scenarios::{Message, Step, Walker};
use std::alloc::{AllocError, Global};

/// The arrows of a path, in its order.
fn arrows_of(alloc: Global, steps: &[Step]) -> Result<Vec<&Message>, AllocError>
    ensures { IfOk result (λ v. map (λ m. m.now) v.items ≡ arrows_of steps.now) }
{
    let mut arrows = Vec::new(alloc);
    for step in steps {
        if let Step::Meets(message) = step {
            arrows.push(message)?;
        }
    }
    Ok(arrows)
}

/// Appends a number this many times.
fn put_number(numbers: &mut Vec<usize>, number: usize, times: usize) -> Result<(), AllocError>
    ensures { OnOk result (numbers.new.items ≡ numbers.old.items ++ replicate times number) }
{
    for _ in 0..times {
        numbers.push(number)?;
    }
    Ok(())
}

/// Appends the numbers of the arrows, each as often as the arrow has ends on this line of the
/// diagram.
fn put_line(
    numbers: &mut Vec<usize>,
    own: Own,
    line: usize,
    arrows: &[&Message],
) -> Result<(), AllocError>
    ensures { OnOk result (numbers.new.items
        ≡ numbers.old.items ++ numbers_from own line 0 (map (λ m. m.now) arrows.now)) }
{
    for number in 0..arrows.len() {
        let ends = end_count(own, line, arrows[number]);
        put_number(numbers, number, ends)?;
    }
    Ok(())
}

/// The numbers of the arrows of a path for each of their ends on this number of lines, the first
/// line first.
fn numbers_on_lines(
    alloc: Global,
    own: Own,
    lines: usize,
    arrows: &[&Message],
) -> Result<Vec<usize>, AllocError>
    ensures { IfOk result (λ v.
        v.items ≡ numbers_on_lines own lines (map (λ m. m.now) arrows.now)) }
{
    let mut numbers = Vec::new(alloc);
    for line in 0..lines {
        put_line(&mut numbers, own, line, arrows)?;
    }
    Ok(numbers)
}

/// The numbers of the arrows of a walk's events.
#[tactic(auto, unfolding(crate::specs::Numbering::walk_numbers))]
fn walk_numbers(alloc: Global, manner: Manner, walker: &Walker) -> Result<Vec<usize>, ImportFault>
    ensures { Gives (λ v. v.items) result (walk_numbers manner walker.now) }
{
    let lines = walker.lines().len();
    let _plans = plans_of(alloc, manner, lines, walker.steps())?;
    walker.whole()?;
    let arrows = arrows_of(alloc, walker.steps())?;
    Ok(numbers_on_lines(alloc, manner.own, lines, arrows.as_slice())?)
}

/// The numbers of the arrows of the events that the draft of a diagram's scenario with these
/// choices has, in the order of the events, which is that of [`places`](crate::places); or the first
/// fault of the scenario.
///
/// Arrows are numbered from 0 along the path of the scenario. Each has its number once for each of
/// its events; an arrow that the path meets in two rounds of a loop has two numbers.
#[tactic(auto, unfolding(crate::specs::Numbering::arrow_numbers))]
pub fn arrow_numbers(
    alloc: Global,
    diagram: &Diagram,
    choices: &[usize],
    manner: Manner,
) -> Result<Vec<usize>, ImportFault>
    ensures { Gives (λ v. v.items) result (arrow_numbers manner diagram.now choices.now) }
{
    let walker = Walker::through(alloc, diagram, choices)?;
    walk_numbers(alloc, manner, &walker)
}
