//! Texts between quotes.

ghost use Rattle.std.specs.Prelude.{◌≡◌, IfOk, codes};
ghost use Rattle.std.specs.List.{list_any};
ghost use Rattle.std.specs.String.{string_bytes};
ghost use Rattle.msc_speech.specs.Quoting.{has_quote, is_quote, quote_for, quoted};

use std::alloc::{AllocError, Global};

/// Whether a text has a double quote.
fn has_quote(text: &str) -> bool
    ensures { result ≡ has_quote text.now }
{
    text.as_bytes().iter().any(|byte| *byte == b'"')
}

/// The quote that stands around a text.
fn quote_for(text: &str) -> &'static str
    ensures { result.now ≡ quote_for text.now }
{
    if has_quote(text) { "'" } else { "\"" }
}

/// A text between double quotes, or between apostrophes if it has a double quote. The only error is
/// want of memory.
pub fn quoted(alloc: Global, text: &str) -> Result<String, AllocError>
    ensures { IfOk result (λ said. string_bytes said ≡ quoted text.now) }
{
    let quote = quote_for(text);
    let mut said = String::new(alloc);
    said.push_str(quote)?;
    said.push_str(text)?;
    said.push_str(quote)?;
    Ok(said)
}
