//! Paths through a diagram's statements, by their choices.

ghost use Rattle.std.specs.Prelude.{◌≡◌, ◌≤◌, ◌+◌, ◌++◌, false, map, IfOk, OnOk};
ghost use Rattle.msc_scenarios.specs.declared.TheConstants.{CHOICE_LIMIT};
ghost use Rattle.msc_scenarios.specs.Choosing.{behind, chosen, gone_on, goes_on, healed, joined};
ghost use Rattle.msc_scenarios.specs.Choosing.{straight, under, with_end};

use crate::CHOICE_LIMIT;
use listed::Listed;
use std::alloc::{AllocError, Global};
use std::mem;

/// Nothing, if a list of choices has room for `more` more. A diagram with few scenarios may have
/// nested loops of many rounds, each round with choices. So a list with more than [`CHOICE_LIMIT`]
/// of them is refused as if memory ran out, before it takes any.
fn has_room(choices: usize, more: usize) -> Result<(), AllocError>
    ensures { OnOk result (choices + more ≤ CHOICE_LIMIT) }
{
    if choices > CHOICE_LIMIT || more > CHOICE_LIMIT - choices {
        return Err(AllocError);
    }
    Ok(())
}

/// A path through statements: its choices, and whether a break ended it.
#[derive(Drop)]
pub(crate) struct Path {
    choices: Listed<usize>,
    broken: bool,
}

impl Path {
    /// The same choices, ended by a break or not.
    fn with_end(&self, alloc: Global, broken: bool) -> Result<Path, AllocError>
        ensures { IfOk result (λ w. w ≡ with_end broken self.now) }
    {
        let choices = Vec::from_slice(alloc, self.choices.as_slice())?;
        Ok(Path {
            choices: Listed::from_vec(choices),
            broken,
        })
    }

    /// This path, followed by the other.
    fn joined(&self, alloc: Global, next: &Path) -> Result<Path, AllocError>
        ensures { IfOk result (λ w. w ≡ joined self.now next.now) }
    {
        has_room(self.choices.as_slice().len(), next.choices.as_slice().len())?;
        let mut choices = Vec::from_slice(alloc, self.choices.as_slice())?;
        choices.extend_from_slice(next.choices.as_slice())?;
        Ok(Path {
            choices: Listed::from_vec(choices),
            broken: next.broken,
        })
    }

    /// Appends the other way, in place.
    fn append(&mut self, alloc: Global, next: &Path) -> Result<(), AllocError>
        ensures { OnOk result (self.new ≡ joined self.old next.now) }
    {
        has_room(self.choices.as_slice().len(), next.choices.as_slice().len())?;
        let none = Listed::from_vec(Vec::new(alloc));
        let mut choices = mem::replace(&mut self.choices, none).into_vec();
        choices.extend_from_slice(next.choices.as_slice())?;
        self.choices = Listed::from_vec(choices);
        self.broken = next.broken;
        Ok(())
    }

    /// Continues with the other way, in place, if no break ended it.
    fn go_on(&mut self, alloc: Global, next: &Path) -> Result<(), AllocError>
        ensures { OnOk result (self.new ≡ gone_on next.now self.old) }
    {
        if !self.broken {
            self.append(alloc, next)?;
        }
        Ok(())
    }

    /// This path after a choice, ended by a break or not.
    fn under(&self, alloc: Global, choice: usize, broken: bool) -> Result<Path, AllocError>
        ensures { IfOk result (λ w. w ≡ under choice broken self.now) }
    {
        has_room(1, self.choices.as_slice().len())?;
        let mut choices = Vec::new(alloc);
        choices.push(choice)?;
        choices.extend_from_slice(self.choices.as_slice())?;
        Ok(Path {
            choices: Listed::from_vec(choices),
            broken,
        })
    }

    /// Appends the paths that continue this one.
    fn put_on(&self, alloc: Global, next: &[Path], paths: &mut Vec<Path>) -> Result<(), AllocError>
        ensures { OnOk result (paths.new.items ≡ paths.old.items ++ goes_on next.now self.now) }
    {
        if self.broken {
            paths.push(self.with_end(alloc, true)?)?;
            return Ok(());
        }
        for path in next {
            paths.push(self.joined(alloc, path)?)?;
        }
        Ok(())
    }
}

/// One path to the end, with no choice.
pub(crate) fn straight(alloc: Global) -> Result<Vec<Path>, AllocError>
    ensures { IfOk result (λ v. v.items ≡ straight) }
{
    let mut paths = Vec::new(alloc);
    paths.push(Path {
        choices: Listed::from_vec(Vec::new(alloc)),
        broken: false,
    })?;
    Ok(paths)
}

/// Each of the first paths, continued with each of the second.
pub(crate) fn behind(
    alloc: Global,
    first: &[Path],
    second: &[Path],
) -> Result<Vec<Path>, AllocError>
    ensures { IfOk result (λ v. v.items ≡ behind first.now second.now) }
{
    let mut paths = Vec::new(alloc);
    for path in first {
        path.put_on(alloc, second, &mut paths)?;
    }
    Ok(paths)
}

/// The same with one second path, without a copy of the first paths.
fn extended(alloc: Global, first: Vec<Path>, next: &Path) -> Result<Vec<Path>, AllocError>
    ensures { IfOk result (λ v. v.items ≡ map (gone_on next.now) first.items) }
{
    let mut paths = first;
    for path in paths.iter_mut() {
        path.go_on(alloc, next)?;
    }
    Ok(paths)
}

/// The same for paths that are used up.
pub(crate) fn followed(
    alloc: Global,
    first: Vec<Path>,
    second: &[Path],
) -> Result<Vec<Path>, AllocError>
    ensures { IfOk result (λ v. v.items ≡ behind first.items second.now) }
{
    if second.len() == 1 {
        return extended(alloc, first, &second[0]);
    }
    behind(alloc, first.as_slice(), second)
}

/// Appends each of these paths after a choice, ended by a break or not.
pub(crate) fn put_chosen(
    alloc: Global,
    choice: usize,
    broken: bool,
    found: &[Path],
    paths: &mut Vec<Path>,
) -> Result<(), AllocError>
    ensures { OnOk result (paths.new.items ≡ paths.old.items ++ chosen choice broken found.now) }
{
    for path in found {
        paths.push(path.under(alloc, choice, broken)?)?;
    }
    Ok(())
}

/// The same ways, none of them ended by a break.
pub(crate) fn healed(alloc: Global, found: &[Path]) -> Result<Vec<Path>, AllocError>
    ensures { IfOk result (λ v. v.items ≡ healed found.now) }
{
    let mut paths = Vec::new(alloc);
    for path in found {
        paths.push(path.with_end(alloc, false)?)?;
    }
    Ok(paths)
}

/// The choices of these paths.
pub(crate) fn choices_of(alloc: Global, paths: &[Path]) -> Result<Vec<Listed<usize>>, AllocError>
    ensures { IfOk result (λ v. v.items ≡ map (λ w. w.choices) paths.now) }
{
    let mut lists = Vec::new(alloc);
    for path in paths {
        let choices = Vec::from_slice(alloc, path.choices.as_slice())?;
        lists.push(Listed::from_vec(choices))?;
    }
    Ok(lists)
}
