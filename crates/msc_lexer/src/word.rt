//! The reserved words of the profile of MSC/PR (ITU-T Z.120).
//!
//! The parser decides which of them the grammar supports.

ghost use Rattle.std.specs.Prelude.{◌≡◌, Some, find};
ghost use Rattle.msc_lexer.specs.Words.{spelling, is_spelled, word_of};

use std::fmt;

/// A reserved word. `Input` and `Output` are spelled `in` and `out`.
#[derive(Clone, Copy, Debug, PartialEq, Eq)]
pub enum Word {
    Msc,
    EndMsc,
    Inst,
    Instance,
    EndInstance,
    Input,
    From,
    Output,
    To,
    Concurrent,
    EndConcurrent,
    Comment,
    Env,
    Action,
    Condition,
    Set,
    Reset,
    Timeout,
    Create,
    Stop,
}

impl Word {
    /// The word in small letters, as text.
    fn text(self) -> &'static str
        ensures { result.now ≡ spelling self }
    {
        match self {
            Word::Msc => "msc",
            Word::EndMsc => "endmsc",
            Word::Inst => "inst",
            Word::Instance => "instance",
            Word::EndInstance => "endinstance",
            Word::Input => "in",
            Word::From => "from",
            Word::Output => "out",
            Word::To => "to",
            Word::Concurrent => "concurrent",
            Word::EndConcurrent => "endconcurrent",
            Word::Comment => "comment",
            Word::Env => "env",
            Word::Action => "action",
            Word::Condition => "condition",
            Word::Set => "set",
            Word::Reset => "reset",
            Word::Timeout => "timeout",
            Word::Create => "create",
            Word::Stop => "stop",
        }
    }

    /// The word in small letters.
    pub fn spelling(self) -> &'static [u8]
        ensures { result.now ≡ spelling self }
    {
        self.text().as_bytes()
    }

    /// The first of these words that the bytes spell, in capital or small letters.
    fn among(bytes: &[u8], words: &[Word]) -> Option<Word>
        ensures { result ≡ find (is_spelled bytes.now) words.now }
    {
        for word in words {
            if bytes.eq_ignore_ascii_case(word.spelling()) {
                return Some(*word);
            }
        }
        None
    }

    /// The word that these bytes spell, in capital or small letters.
    // Otherwise a token of a chart costs a call here, since imports also look up words.
    #[inline(always)]
    pub fn of(bytes: &[u8]) -> Option<Word>
        ensures { result ≡ word_of bytes.now }
    {
        match bytes.len() {
            2 => Word::among(bytes, &[Word::Input, Word::To]),
            3 => Word::among(bytes, &[Word::Msc, Word::Output, Word::Env, Word::Set]),
            4 => Word::among(bytes, &[Word::Inst, Word::From, Word::Stop]),
            5 => Word::among(bytes, &[Word::Reset]),
            6 => Word::among(bytes, &[Word::EndMsc, Word::Action, Word::Create]),
            7 => Word::among(bytes, &[Word::Comment, Word::Timeout]),
            8 => Word::among(bytes, &[Word::Instance]),
            9 => Word::among(bytes, &[Word::Condition]),
            10 => Word::among(bytes, &[Word::Concurrent]),
            11 => Word::among(bytes, &[Word::EndInstance]),
            13 => Word::among(bytes, &[Word::EndConcurrent]),
            _ => None,
        }
    }
}

/// Prints the word in small letters.
impl fmt::Display for Word {
    ghost output = { λ w. Some (spelling w) };

    fn fmt<W: fmt::Write>(&self, f: &mut fmt::Formatter<W>) -> fmt::Result {
        f.write_str(self.text())
    }
}
