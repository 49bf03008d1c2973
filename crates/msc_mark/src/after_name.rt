//! The comment after the name of a chart.

ghost use Rattle.std.specs.Prelude.{◌≡◌, List, IfOk, option_map};
ghost use Rattle.msc_lexer.specs.declared.token.Token.{Token as LexedToken};
ghost use Rattle.msc_lexer.specs.Lexing.{HasTokens};
ghost use Rattle.msc_mark.specs.ChartComments.{chart_comment, inside, plain_comment};

use crate::marks::tokens_of;
use msc_lexer::{Kind, Token, Word};
use std::alloc::{AllocError, Global};

/// The comment after the name of a chart: its place, that of its first apostrophe, and the bytes
/// between its apostrophes as they stand in the text.
#[derive(Clone, Copy)]
pub struct ChartComment<'t> {
    pub at: usize,
    pub bytes: &'t [u8],
}

/// The bytes of a token between its first and its last one.
fn inside<'t>(text: &'t [u8], token: &Token) -> &'t [u8]
    ensures { result.now ≡ inside text.entry.now token.now }
{
    let first = (token.start as usize).saturating_add(1);
    let past = (token.end as usize).saturating_sub(1);
    if first <= past && past <= text.len() {
        &text[first..past]
    } else {
        &[]
    }
}

/// The comment that the tokens of a chart's text have after its name, if there is one.
fn comment_of<'t>(text: &'t [u8], tokens: &[Token]) -> Option<ChartComment<'t>>
    ensures { option_map plain_comment result ≡ chart_comment text.entry.now tokens.now }
{
    match tokens {
        [_, _, word, comment, ..] if word.kind == Kind::Word(Word::Comment) => Some(ChartComment {
            at: comment.start as usize,
            bytes: inside(text, comment),
        }),
        _ => None,
    }
}

/// The comment after the name of the chart of a text, if there is one. A text that has no tokens
/// has none. An error is a growth of memory that was refused.
pub fn chart_comment(alloc: Global, text: &[u8]) -> Result<Option<ChartComment<'_>>, AllocError>
    ensures { IfOk result (λ comment. (ts : List LexedToken) → HasTokens text.entry.now ts
        → option_map plain_comment comment ≡ chart_comment text.entry.now ts) }
{
    let tokens = tokens_of(alloc, text)?;
    Ok(comment_of(text, tokens.as_slice()))
}
