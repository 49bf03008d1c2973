//! Rows of bits: which of the chart's numbered events a mark names.

ghost use Rattle.std.specs.Prelude.{◌≡◌, ◌≤◌, ◌*◌, ◌&&◌, ◌||◌, ℕ, Option, List, Some, length, slice_get};
ghost use Rattle.std.specs.Prelude.{IfOk};
ghost use Rattle.std.specs.Option.{option_copied};
ghost use Rattle.bit_rows.specs.Rows.{has};
ghost use Rattle.msc_mark.specs.declared.ident.Ident as code;
ghost use Rattle.msc_mark.specs.Accepting.{is_named, names_ident};
ghost use Rattle.msc_mark.specs.Named.{follows, hears, AreApart, HasNamed};

use crate::ident::Ident;
use crate::mark::Mark;
use crate::place::MarkPlace;
use crate::word::{closing_of, name_of};
use bit_rows::row;
use indexmap::IndexSet;
use listed::Listed;
use msc_chart::EVENT_LIMIT;
use std::alloc::{AllocError, Global};

/// The name that ends with the word at a place, if one does. `name` is the name in the word before
/// it.
fn ident_at<'a>(place: MarkPlace, name: &'a [u8], word: &'a [u8]) -> Option<Ident<'a>>
    ensures { (x : List ℕ) (number : Option (List ℕ)) → hears result x number
        ≡ is_named x number (follows place name.now x) place word.now }
{
    if place.is_number() {
        return Some(Ident {
            name,
            number: Some(name_of(word)),
        });
    }
    if place.is_event() && !closing_of(word).is_comma() {
        return Some(Ident {
            name: name_of(word),
            number: None,
        });
    }
    None
}

/// Adds the number of a name to a row, if the chart has events with that name.
fn put_ident<'a>(idents: &IndexSet<Ident<'a>>, row: &mut [u64], ident: Option<Ident<'a>>)
    requires few { length idents.now.keys ≤ EVENT_LIMIT }
    requires apart { AreApart idents.now.keys }
    requires room { length idents.now.keys ≤ 64 * length row.old }
    ensures { (q : ℕ) (k : code.Ident) → slice_get idents.now.keys q ≡ Some k → has row.new q
        ≡ (has row.old q || hears ident.entry k.name.now (option_copied k.number)) }
{
    let Some(ident) = ident else {
        return;
    };
    if let Some(number) = idents.get_index_of(&ident) {
        row::put(row, number as u32);
    }
}

/// Adds the numbers of the names in these words to a row.
fn put_words<'a>(idents: &IndexSet<Ident<'a>>, row: &mut [u64], words: &'a [Listed<u8>])
    requires few { length idents.now.keys ≤ EVENT_LIMIT }
    requires apart { AreApart idents.now.keys }
    requires room { length idents.now.keys ≤ 64 * length row.old }
    ensures { (q : ℕ) (k : code.Ident) → slice_get idents.now.keys q ≡ Some k → has row.new q
        ≡ (has row.old q || names_ident k.name.now (option_copied k.number) words.now) }
{
    let mut place = MarkPlace::Race;
    let mut name = "".as_bytes();
    for word in words {
        let word = word.as_slice();
        put_ident(idents, row, ident_at(place, name, word));
        name = name_of(word);
        place = place.next(word);
    }
}

/// The row of the numbers of the names that a mark is for. An error is a growth of memory that was
/// refused.
pub(crate) fn row_of<'a>(
    alloc: Global,
    idents: &IndexSet<Ident<'a>>,
    mark: &'a Mark,
) -> Result<Vec<u64>, AllocError>
    requires few { length idents.now.keys ≤ EVENT_LIMIT }
    requires apart { AreApart idents.now.keys }
    ensures room { IfOk result (λ row. length idents.now.keys ≤ 64 * length row.items) }
    ensures named { IfOk result (λ row. HasNamed idents.now.keys mark.now row.items) }
{
    let count = idents.len() as u32;
    if !mark.names_events() {
        return row::full(alloc, count);
    }
    let mut row = row::blank(alloc, count)?;
    put_words(idents, &mut row, mark.words.as_slice());
    Ok(row)
}
