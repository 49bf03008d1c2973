//! Refusals.

ghost use Rattle.std.specs.Prelude.{codes, map};
ghost use Rattle.msc_record.specs.Faults.{fault_json, fault_members, faults_json, faults_members};
ghost use Rattle.msc_record.specs.Faults.{note_json, note_members, notes_json, place_if};
ghost use Rattle.msc_record.specs.Faults.{place_members, refusal_members};
ghost use Rattle.msc_record.specs.Lent.{plain_fault, plain_note, plain_refusal};
ghost use Rattle.msc_record.specs.Members.{member_if_any, member_tokens, tokens_of};
ghost use Rattle.msc_record.specs.Writing.{Adds};

use crate::head::Opening;
use crate::value::{
    Object, Value, write_list, write_list_if_any, write_member, write_member_if, write_object,
};
use json::Writer;
use std::alloc::{AllocError, Global};

/// Where a fault is: a line and a column, both from 1.
#[derive(Clone, Copy, Debug, PartialEq, Eq)]
pub struct FaultPosition {
    pub line: usize,
    pub column: usize,
    /// The place in a chart, as a number of bytes from 0.
    pub byte: Option<usize>,
}

impl Object for FaultPosition {
    ghost members = { place_members };

    fn write_members(&self, alloc: Global, writer: &mut Writer) -> Result<(), AllocError> {
        write_member(alloc, writer, "line", &self.line)?;
        write_member(alloc, writer, "column", &self.column)?;
        write_member_if(alloc, writer, "byte", &self.byte)
    }
}

/// Writes a position, if there is one.
fn write_place(
    alloc: Global,
    writer: &mut Writer,
    position: Option<FaultPosition>,
) -> Result<(), AllocError>
    ensures { Adds result writer.old writer.new (tokens_of (place_if position)) }
{
    match position {
        Some(position) => position.write_members(alloc, writer),
        None => Ok(()),
    }
}

/// A note on a fault.
#[derive(Clone, Copy)]
pub struct FaultNote<'t> {
    pub text: &'t [u8],
    /// Its position; the first, if it has two.
    pub position: Option<FaultPosition>,
}

impl Object for FaultNote<'_> {
    ghost members = { λ n. note_members (plain_note n) };

    fn write_members(&self, alloc: Global, writer: &mut Writer) -> Result<(), AllocError> {
        write_member(alloc, writer, "text", &self.text)?;
        write_place(alloc, writer, self.position)
    }
}

impl Value for FaultNote<'_> {
    ghost json = { λ n. note_json (plain_note n) };

    fn write(&self, alloc: Global, writer: &mut Writer) -> Result<(), AllocError> {
        write_object(alloc, writer, self)
    }
}

/// Writes notes.
fn write_notes(
    alloc: Global,
    writer: &mut Writer,
    notes: &[FaultNote<'_>],
) -> Result<(), AllocError>
    ensures { Adds result writer.old writer.new
        (member_tokens (codes "notes", notes_json (map plain_note notes.now))) }
{
    write_list(alloc, writer, "notes", notes)
}

/// A fault of a text, or of a file.
#[derive(Clone, Copy)]
pub struct Fault<'t> {
    /// The first word of its line.
    pub stage: &'t str,
    /// Its number, if faults of its stage have numbers.
    pub number: Option<u32>,
    /// Its line.
    pub text: &'t [u8],
    pub sentence: &'t str,
    pub position: Option<FaultPosition>,
    pub notes: &'t [FaultNote<'t>],
}

impl Object for Fault<'_> {
    ghost members = { λ f. fault_members (plain_fault f) };

    fn write_members(&self, alloc: Global, writer: &mut Writer) -> Result<(), AllocError> {
        write_member(alloc, writer, "stage", &self.stage)?;
        write_member(alloc, writer, "number", &self.number)?;
        write_member(alloc, writer, "text", &self.text)?;
        write_member(alloc, writer, "sentence", &self.sentence)?;
        write_place(alloc, writer, self.position)?;
        write_notes(alloc, writer, self.notes)
    }
}

impl Value for Fault<'_> {
    ghost json = { λ f. fault_json (plain_fault f) };

    fn write(&self, alloc: Global, writer: &mut Writer) -> Result<(), AllocError> {
        write_object(alloc, writer, self)
    }
}

/// Writes further faults, if there are any.
fn write_further(
    alloc: Global,
    writer: &mut Writer,
    further: &[Fault<'_>],
) -> Result<(), AllocError>
    ensures { Adds result writer.old writer.new
        (tokens_of (member_if_any fault_json (codes "further") (map plain_fault further.now))) }
{
    write_list_if_any(alloc, writer, "further", further)
}

/// A text that is refused, or a file that cannot be read.
#[derive(Clone, Copy)]
pub struct Refusal<'t> {
    pub opening: Opening<'t>,
    pub fault: Fault<'t>,
    /// The faults after it.
    pub further: &'t [Fault<'t>],
}

/// The faults of a refusal.
#[derive(Clone, Copy)]
struct Faults<'r, 't> {
    refusal: &'r Refusal<'t>,
}

impl Object for Faults<'_, '_> {
    ghost members = { λ f. faults_members (plain_refusal f.refusal.now) };

    fn write_members(&self, alloc: Global, writer: &mut Writer) -> Result<(), AllocError> {
        self.refusal.fault.write_members(alloc, writer)?;
        write_further(alloc, writer, self.refusal.further)
    }
}

impl Value for Faults<'_, '_> {
    ghost json = { λ f. faults_json (plain_refusal f.refusal.now) };

    fn write(&self, alloc: Global, writer: &mut Writer) -> Result<(), AllocError> {
        write_object(alloc, writer, self)
    }
}

impl Object for Refusal<'_> {
    ghost members = { λ r. refusal_members (plain_refusal r) };

    #[tactic(auto, unfolding(crate::specs::Faults::refusal_members))]
    fn write_members(&self, alloc: Global, writer: &mut Writer) -> Result<(), AllocError> {
        self.opening.write_members(alloc, writer)?;
        write_member(alloc, writer, "fault", &Faults { refusal: self })
    }
}
