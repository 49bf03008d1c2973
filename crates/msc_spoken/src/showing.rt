//! Which characters are shown, and what is shown for others.

ghost use Rattle.std.specs.Prelude.{◌≡◌, IfOk, encode_utf8_all};
ghost use Rattle.std.specs.Str.{chars};
ghost use Rattle.std.specs.String.{string_bytes};
ghost use Rattle.msc_spoken.specs.Showing.{is_filler, is_joiner, is_shown, is_visible};
ghost use Rattle.msc_spoken.specs.Showing.{shown_characters, shown_for, shown_text};

use crate::reading::Notation;
use crate::text::text_of;
use std::alloc::{AllocError, Global};
use ucd_category::{GeneralCategory, GeneralCategoryGroup};

/// Whether characters of this category are shown.
#[tactic(auto, unfolding(crate::specs::Showing::is_visible))]
fn is_visible(category: GeneralCategory) -> bool
    ensures { result ≡ is_visible category }
{
    GeneralCategoryGroup::Letter.contains(category)
        || GeneralCategoryGroup::Mark.contains(category)
        || GeneralCategoryGroup::Number.contains(category)
        || GeneralCategoryGroup::Punctuation.contains(category)
        || GeneralCategoryGroup::Symbol.contains(category)
        || category == GeneralCategory::SpaceSeparator
}

/// Whether it is a letter without a shape, which fills the place of one in Hangul.
#[tactic(auto, unfolding(crate::specs::Showing::is_filler))]
fn is_filler(character: char) -> bool
    ensures { result ≡ is_filler character }
{
    character == '\u{115F}'
        || character == '\u{1160}'
        || character == '\u{3164}'
        || character == '\u{FFA0}'
}

/// Whether the character is shown as it is: it is a letter, a mark, a number, a punctuation, a
/// symbol or a blank by its general category (Unicode), and no filler of Hangul.
#[tactic(auto, unfolding(crate::specs::Showing::is_shown))]
pub fn is_shown(character: char) -> bool
    ensures { result ≡ is_shown character }
{
    is_visible(GeneralCategory::for_char(character)) && !is_filler(character)
}

/// Whether the character only joins or parts its neighbours.
#[tactic(auto, unfolding(crate::specs::Showing::is_joiner))]
fn is_joiner(character: char) -> bool
    ensures { result ≡ is_joiner character }
{
    character == '\u{200C}' || character == '\u{200D}'
}

/// What is shown for a character, if anything is.
#[tactic(auto, unfolding(crate::specs::Showing::shown_for))]
fn shown_for(character: char) -> Option<char>
    ensures { result ≡ shown_for character }
{
    if is_shown(character) {
        Some(character)
    } else if is_joiner(character) {
        None
    } else if character == '\t' {
        Some(' ')
    } else {
        Some('?')
    }
}

/// What is shown for characters.
#[tactic(auto, unfolding(crate::specs::Showing::shown_characters))]
pub(crate) fn shown_characters(alloc: Global, characters: &[char]) -> Result<Vec<char>, AllocError>
    ensures { IfOk result (λ shown. shown.items ≡ shown_characters characters.now) }
{
    characters
        .iter()
        .filter_map(|character| shown_for(*character))
        .collect(alloc)
}

/// What is shown of a text, such as a line: each character that is shown as it is, a blank for a
/// tab, nothing for U+200C and U+200D, and `?` for any other character and for each byte that is
/// part of none. The only error is want of memory.
#[tactic(auto, unfolding(crate::specs::Showing::shown_text))]
pub fn shown(alloc: Global, bytes: &[u8]) -> Result<String, AllocError>
    ensures bytes { IfOk result (λ text. string_bytes text
        ≡ encode_utf8_all (shown_text bytes.now)) }
    ensures characters { IfOk result (λ text. chars (string_bytes text) ≡ shown_text bytes.now) }
{
    let characters = Notation::Plain.characters(alloc, bytes)?;
    let shown = shown_characters(alloc, characters.as_slice())?;
    text_of(alloc, shown.as_slice())
}
