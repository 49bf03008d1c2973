//! What the notes on a fault know.

ghost use Rattle.std.specs.Prelude.{◌≡◌, IfOk, OnOk, option_map};
ghost use Rattle.std.specs.String.{string_bytes};
ghost use Rattle.msc_fault_words.specs.Told.{has_tag, helps_or, hint_of, hints_in, note_place};
ghost use Rattle.msc_fault_words.specs.Told.{note_text, note_with, shown_bytes};
ghost use Rattle.msc_fault_words.specs.Words.{with_helps};

use crate::words::FaultWords;
use msc_notes::{Note, Tag};
use msc_spoken::shown;
use std::alloc::{AllocError, Global};

/// Whether a note is of this kind.
pub fn has_tag(note: &Note, tag: Tag) -> bool
    ensures { result ≡ has_tag tag note.now }
{
    note.tag.word() == tag.word()
}

/// The first note of a kind.
fn note_with(notes: &[Note], tag: Tag) -> Option<&Note>
    ensures { option_map (λ note. note.now) result ≡ note_with tag notes.now }
{
    notes.iter().find(|note| has_tag(note, tag))
}

/// The text of the first note of a kind, or none.
pub fn note_text(notes: &[Note], tag: Tag) -> &[u8]
    ensures { result.now ≡ note_text tag notes.now }
{
    match note_with(notes, tag) {
        Some(note) => note.text.as_slice(),
        None => b"",
    }
}

/// The place of the first note of a kind, if there is one.
pub fn note_place(notes: &[Note], tag: Tag) -> Option<usize>
    ensures { result ≡ note_place tag notes.now }
{
    match note_with(notes, tag) {
        Some(note) => note.place,
        None => None,
    }
}

/// The text of the first note of a kind as people read it.
pub(crate) fn shown_note(alloc: Global, notes: &[Note], tag: Tag) -> Result<String, AllocError>
    ensures { IfOk result (λ text. string_bytes text ≡ shown_bytes (note_text tag notes.now)) }
{
    shown(alloc, note_text(notes, tag))
}

impl FaultWords {
    /// Adds the help of a note, if it is a hint.
    fn hint(&mut self, alloc: Global, note: &Note) -> Result<(), AllocError>
        ensures { OnOk result (self.new ≡ with_helps self.old (hint_of note.now)) }
    {
        if has_tag(note, Tag::Hint) {
            self.help(shown(alloc, note.text.as_slice())?)?;
        }
        Ok(())
    }

    /// Adds the hints among notes as helps.
    pub(crate) fn hints(&mut self, alloc: Global, notes: &[Note]) -> Result<(), AllocError>
        ensures { OnOk result (self.new ≡ with_helps self.old (hints_in notes.now)) }
    {
        for note in notes {
            self.hint(alloc, note)?;
        }
        Ok(())
    }

    /// Adds a help, if there is none.
    pub(crate) fn or_help(&mut self, alloc: Global, text: &str) -> Result<(), AllocError>
        ensures { OnOk result (self.new
            ≡ record {
              id = self.old.id;
              sentence = self.old.sentence;
              marks = self.old.marks;
              helps = helps_or text.now self.old.helps;
            }) }
    {
        if self.helps.is_empty() {
            self.fixed_help(alloc, text)?;
        }
        Ok(())
    }
}
