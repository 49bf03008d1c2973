//! Numbers in words.

ghost use Rattle.std.specs.Prelude.{◌++◌, ◌≡◌, IfOk, OnOk};
ghost use Rattle.std.specs.String.{string_bytes};
ghost use Rattle.msc_wording.specs.Numbers.{counted, number_or_none, part, plural};

use std::alloc::{AllocError, Global};

/// The singular of a word for 1, otherwise the plural.
pub fn plural<'w>(number: usize, one: &'w str, several: &'w str) -> &'w str
    ensures { result.now ≡ plural number one.now several.now }
{
    if number == 1 { one } else { several }
}

/// A number of things, with `no` for 0.
#[tactic(auto, unfolding(crate::specs::Numbers::counted))]
pub(crate) fn counted(
    alloc: Global,
    number: usize,
    one: &str,
    several: &str,
) -> Result<String, AllocError>
    ensures { IfOk result (λ text. string_bytes text ≡ counted number one.now several.now) }
{
    let things = plural(number, one, several);
    if number == 0 {
        return format!(in alloc; "no {things}");
    }
    format!(in alloc; "{number} {things}")
}

/// A number, or `none` for 0.
#[tactic(auto, unfolding(crate::specs::Numbers::number_or_none))]
pub(crate) fn number_or_none(alloc: Global, number: usize) -> Result<String, AllocError>
    ensures { IfOk result (λ text. string_bytes text ≡ number_or_none number) }
{
    if number == 0 {
        return String::from_str(alloc, "none");
    }
    format!(in alloc; "{number}")
}

/// Appends a number of things after a comma, unless it is 0.
#[tactic(auto, unfolding(crate::specs::Numbers::part))]
pub(crate) fn print_part(text: &mut String, number: usize, things: &str) -> Result<(), AllocError>
    ensures { OnOk result (string_bytes text.new
        ≡ string_bytes text.old ++ part number things.now) }
{
    if number == 0 {
        return Ok(());
    }
    write!(text, ", {number} {things}")
}
