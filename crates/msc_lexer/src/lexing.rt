//! From a text to its tokens.

ghost use Rattle.std.specs.Prelude.{◌≡◌, ◌≢◌, ℕ, ◌≤◌, ◌<◌, true, List, ◌∷◌, length, IfOk, IfErr};
ghost use Rattle.msc_lexer.specs.declared.token.Token.{Token};
ghost use Rattle.msc_lexer.specs.declared.fault.LexFault.{LexFault};
ghost use Rattle.msc_lexer.specs.Bytes.{begins, is_run_byte};
ghost use Rattle.msc_lexer.specs.Lexemes.{lexemes, AreWithin, HaveNames};
ghost use Rattle.msc_lexer.specs.Lexing.{HasTokens, HasFault, IsFlaw, IsOkOrMemory, IsErrOrMemory};
ghost use Rattle.msc_lexer.specs.Scanning.{StartsWith};

use crate::byte::{is_run_byte, is_white, mark};
use crate::fault::LexFault;
use crate::scanning::{note_end, quote_end, run_length};
use crate::token::{Kind, Token};
use crate::word::Word;
use crate::{NAME_LIMIT, TEXT_LIMIT};
use std::alloc::Global;

/// The front of a text: a piece of `length` bytes, which is a token if it has a kind.
struct Front {
    kind: Option<Kind>,
    length: usize,
}

/// The note at the front of a text that begins with `/*`.
fn note(text: &[u8], place: usize) -> Result<Front, LexFault>
    requires { (body : List ℕ) × (text.now ≡ 47 ∷ 42 ∷ body) }
    ensures piece { IfOk result (λ f. StartsWith text.now f.kind f.length) }
    ensures flaw { IfErr result (λ e. IsFlaw e place text.now) }
{
    match note_end(&text[2..]) {
        Some(at) => Ok(Front {
            kind: None,
            length: at + 4,
        }),
        None => Err(LexFault::OpenNote(place)),
    }
}

/// The text between apostrophes at the front of a text that begins with one.
fn quoted(text: &[u8], place: usize) -> Result<Front, LexFault>
    requires { (body : List ℕ) × (text.now ≡ 39 ∷ body) }
    ensures piece { IfOk result (λ f. StartsWith text.now f.kind f.length) }
    ensures flaw { IfErr result (λ e. IsFlaw e place text.now) }
{
    match quote_end(&text[1..]) {
        Some(at) => Ok(Front {
            kind: Some(Kind::Text),
            length: at + 2,
        }),
        None => Err(LexFault::OpenText(place)),
    }
}

/// The word or name at the front of a text that begins with a letter, a digit or an underscore.
fn run(text: &[u8], place: usize) -> Result<Front, LexFault>
    requires { begins is_run_byte text.now ≡ true }
    ensures piece { IfOk result (λ f. StartsWith text.now f.kind f.length) }
    ensures flaw { IfErr result (λ e. IsFlaw e place text.now) }
{
    let length = run_length(text);
    match Word::of(&text[..length]) {
        Some(word) => Ok(Front {
            kind: Some(Kind::Word(word)),
            length,
        }),
        None if length <= NAME_LIMIT => Ok(Front {
            kind: Some(Kind::Name),
            length,
        }),
        None => Err(LexFault::LongName(place)),
    }
}

/// The piece at the front of a text that is not empty. `place` is the place of a fault.
fn first_piece(text: &[u8], place: usize) -> Result<Front, LexFault>
    requires { 0 < length text.now }
    ensures piece { IfOk result (λ f. StartsWith text.now f.kind f.length) }
    ensures flaw { IfErr result (λ e. IsFlaw e place text.now) }
{
    match text {
        [b'/', b'*', ..] => note(text, place),
        [b'\'', ..] => quoted(text, place),
        [byte, ..] if is_white(*byte) => Ok(Front {
            kind: None,
            length: 1,
        }),
        [byte, ..] if is_run_byte(*byte) => run(text, place),
        [byte, ..] => match mark(*byte) {
            Some(kind) => Ok(Front {
                kind: Some(kind),
                length: 1,
            }),
            None => Err(LexFault::BadByte(place)),
        },
        [] => unreachable!(),
    }
}

/// The tokens of a text, piece by piece.
fn pieces(alloc: Global, text: &[u8]) -> Result<Vec<Token>, LexFault>
    ensures tokens { IfOk result (λ v. HasTokens text.now v.items) }
    ensures fault { IfErr result (λ e. e ≢ LexFault.Memory → HasFault text.now e) }
{
    if text.len() > TEXT_LIMIT {
        return Err(LexFault::TooLong);
    }
    // Most texts have no more tokens than that; for more tokens the list grows.
    let Ok(mut tokens) = Vec::with_capacity(alloc, text.len() / 4) else {
        return Err(LexFault::Memory);
    };
    let mut at = 0;
    while at < text.len() {
        let Front { kind, length } = first_piece(&text[at..], at)?;
        let end = at + length;
        if let Some(kind) = kind {
            tokens.push(Token {
                kind,
                start: at as u32,
                end: end as u32,
            })?;
        }
        at = end;
    }
    Ok(tokens)
}

/// The tokens of a text, in the order of the text, or its first lexical fault.
///
/// `TooLong` precedes all other faults, and of the other faults the one with the first place is
/// returned. `Memory` is returned if a growth of memory was refused.
pub fn lex(alloc: Global, text: &[u8]) -> Result<Vec<Token>, LexFault>
    // The text has the returned tokens, or the returned fault.
    ensures tokens { IfOk result (λ v. HasTokens text.now v.items) }
    ensures fault { IfErr result (λ e. e ≢ LexFault.Memory → HasFault text.now e) }

    // The text's tokens or its fault are returned, unless memory runs out.
    ensures only_tokens { (ts : List Token) → HasTokens text.now ts → IsOkOrMemory ts result }
    ensures only_fault { (f : LexFault) → HasFault text.now f → IsErrOrMemory f result }

    // The facts on the tokens of every text.
    ensures within { IfOk result (λ v. AreWithin text.now v.items) }
    ensures named { IfOk result (λ v. HaveNames (lexemes text.now v.items)) }
    ensures few { IfOk result (λ v. length v.items ≤ length text.now) }
{
    pieces(alloc, text)
}
