//! The names of a diagram's lines, and the numbers of its arrows.

ghost use Rattle.std.specs.Prelude.{◌≡◌, ◌+◌, [], length, IfOk};
ghost use Rattle.msc_scenarios.specs.Naming.{candidate, free_name, is_taken, kind_of, names_behind};
ghost use Rattle.msc_scenarios.specs.Naming.{number_name};

use crate::naming::made;
use itoa::Buffer;
use listed::Listed;
use msc_parser::Name;
use std::alloc::{AllocError, Global};

/// Whether the names have this name.
fn is_taken(names: &[Name], name: &[u8]) -> bool
    ensures { result ≡ is_taken names.now name.now }
{
    names.iter().any(|other| other.as_slice() == name)
}

/// A name followed by a number, from 2 on.
fn candidate(alloc: Global, name: &[u8], number: usize) -> Result<Vec<u8>, AllocError>
    ensures { IfOk result (λ v. v.items ≡ candidate name.now number) }
{
    let mut digits = Buffer::new();
    let mut numbered = Vec::from_slice(alloc, name)?;
    if number != 1 {
        numbered.push(b'_')?;
        numbered.extend_from_slice(digits.format(number).as_bytes())?;
    }
    Ok(numbered)
}

/// The first candidate that is not yet a name. Of one candidate more than there are names, one is
/// free.
fn free_name(alloc: Global, names: &[Name], name: &[u8]) -> Result<Vec<u8>, AllocError>
    ensures { IfOk result (λ v. v.items ≡ free_name names.now name.now 1 (length names.now + 1)) }
{
    for i in 0..names.len() + 1 {
        let free = candidate(alloc, name, i + 1)?;
        if !is_taken(names, free.as_slice()) {
            return Ok(free);
        }
    }
    Vec::from_slice(alloc, name)
}

/// The names of lines: each is the first candidate that is not yet a name. The only error is that
/// memory ran out.
pub fn names_of(alloc: Global, idents: &[Listed<u8>]) -> Result<Vec<Name>, AllocError>
    ensures { IfOk result (λ v. v.items ≡ names_behind [] idents.now) }
{
    let mut names = Vec::new(alloc);
    for ident in idents {
        let plain = made(alloc, ident.as_slice(), "p".as_bytes())?;
        let name = free_name(alloc, names.as_slice(), plain.as_slice())?;
        names.push(Name::from_slice(alloc, name.as_slice())?)?;
    }
    Ok(names)
}

/// The number of an arrow, followed by the rounds of the loops around it, outermost first.
pub(crate) fn number_name(
    alloc: Global,
    number: usize,
    rounds: &[usize],
) -> Result<Vec<u8>, AllocError>
    ensures { IfOk result (λ v. v.items ≡ number_name number rounds.now) }
{
    let mut digits = Buffer::new();
    let mut name = Vec::from_slice(alloc, digits.format(number).as_bytes())?;
    for round in rounds {
        name.push(b'_')?;
        name.extend_from_slice(digits.format(*round).as_bytes())?;
    }
    Ok(name)
}

/// The kind of a line with this name, if its shown name gives one.
#[tactic(auto, unfolding(crate::specs::Naming::kind_of))]
pub fn kind_of(alloc: Global, name: &[u8], shown: &[u8]) -> Result<Listed<Name>, AllocError>
    ensures { IfOk result (λ v. v ≡ kind_of name.now shown.now) }
{
    let kind = made(alloc, shown, "".as_bytes())?;
    let mut names = Vec::new(alloc);
    if !kind.is_empty() && kind.as_slice() != name {
        names.push(Name::from_slice(alloc, kind.as_slice())?)?;
    }
    Ok(Listed::from_vec(names))
}
