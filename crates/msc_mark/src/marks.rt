//! The marks of a text.

ghost use Rattle.std.specs.Prelude.{◌≡◌, ◌≢◌, ℕ, List, None, Some, IfErr, IfOk, OnOk};
ghost use Rattle.msc_lexer.specs.declared.token.Token.{Token as LexedToken};
ghost use Rattle.msc_lexer.specs.Lexemes.{lexemes, AreWithin};
ghost use Rattle.msc_lexer.specs.Lexing.{HasTokens};
ghost use Rattle.msc_mark.specs.Comments.{AddsComment, AreMarksOf, fault_from, marks_from};
ghost use Rattle.msc_mark.specs.Comments.{comment_in, AreOwn};

use crate::comment::{begins_event, comment_in};
use crate::fault::MarkFault;
use crate::mark::Mark;
use crate::reading::read_comment;
use listed::Listed;
use msc_lexer::{LexFault, Token, lex, text_bytes};
use std::alloc::{AllocError, Global};
use std::marker::Model;

/// The marks of a text, by the numbers of their events, ascending. Contracts see their list.
#[derive(Drop)]
pub struct Marks {
    list: Listed<Mark>,
}

impl Model for Marks {
    ghost use Rattle.std.specs.Prelude.{List};
    ghost use Rattle.msc_mark.specs.declared.mark.Mark.{Mark};

    ghost Value = { List Mark };

    ghost view = { λ m. m.list };
}

/// The tokens of a text, or none if it has a lexical fault.
pub(crate) fn tokens_of(alloc: Global, text: &[u8]) -> Result<Vec<Token>, AllocError>
    ensures tokens { IfOk result
        (λ v. (ts : List LexedToken) → HasTokens text.now ts → v.items ≡ ts) }
    ensures own { IfOk result (λ v. AreOwn text.now v.items) }
    ensures within { IfOk result (λ v. AreWithin text.now v.items) }
{
    match lex(alloc, text) {
        Ok(tokens) => Ok(tokens),
        Err(fault) => match fault {
            LexFault::Memory => Err(AllocError),
            _ => Ok(Vec::new(alloc)),
        },
    }
}

/// Appends the mark in the comment of a statement; the tokens are those after its first word.
fn push_comment(
    alloc: Global,
    list: &mut Vec<Mark>,
    text: &[u8],
    event: usize,
    tokens: &[Token],
) -> Result<(), MarkFault>
    requires { AreWithin text.now tokens.now }
    ensures { AddsComment event (comment_in (lexemes text.now tokens.now))
        list.old.items list.new.items result }
{
    let Some(token) = comment_in(tokens) else {
        return Ok(());
    };
    let bytes = text_bytes(alloc, text, &token)?;
    if let Some(mark) = read_comment(alloc, event, token.start as usize, bytes.as_slice())? {
        list.push(mark)?;
    }
    Ok(())
}

/// The marks among these tokens, or the first faulty comment.
fn marks_among(alloc: Global, text: &[u8], tokens: &[Token]) -> Result<Vec<Mark>, MarkFault>
    requires { AreWithin text.now tokens.now }
    ensures marks { IfOk result (λ v. v.items ≡ marks_from 0 (lexemes text.now tokens.now)) }
    ensures faultless { OnOk result (fault_from (lexemes text.now tokens.now) ≡ None) }
    ensures fault { IfErr result (λ f. f ≢ MarkFault.Memory
        → fault_from (lexemes text.now tokens.now) ≡ Some f) }
{
    let mut list = Vec::new(alloc);
    let mut event = 0;
    for (i, token) in tokens.iter().enumerate() {
        if begins_event(token) {
            push_comment(alloc, &mut list, text, event, &tokens[i + 1..])?;
            event += 1;
        }
    }
    Ok(list)
}

impl Marks {
    /// The marks of a text, or the first of the comments of its events' statements that begins with
    /// `race ok` and is no mark. A text that has no tokens has none. `Memory` means that a growth
    /// of memory was refused.
    pub fn of(alloc: Global, text: &[u8]) -> Result<Marks, MarkFault>
        ensures { AreMarksOf text.now result }
    {
        let tokens = tokens_of(alloc, text)?;
        let list = marks_among(alloc, text, tokens.as_slice())?;
        Ok(Marks {
            list: Listed::from_vec(list),
        })
    }

    /// The marks, by the numbers of their events, ascending. It takes no memory.
    pub fn as_slice(&self) -> &[Mark]
        ensures { result.now ≡ self.now }
    {
        self.list.as_slice()
    }
}
