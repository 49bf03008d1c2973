//! Laws of inputs and texts, over the definitions only. A caller that needs a law calls its
//! function.

ghost use Rattle.std.specs.Prelude.{◌≡◌, ◌+◌};
ghost use Rattle.msc_source.specs.Inputs.{WhatIsReadTellsTheInput};
ghost use Rattle.msc_source.specs.Reading.{DraftsAreReadInOneWay, TextsAreReadInOneWay};

use crate::{BYTE_LIMIT, CALL_LIMIT};
use msc_lexer::TEXT_LIMIT;
use msc_parser::laws::one_parsing;

/// A text is read in one way: the result is determined, unless memory runs out.
pub fn texts_are_read_in_one_way()
    ensures charts { TextsAreReadInOneWay }
    ensures drafts { DraftsAreReadInOneWay }
{
    one_parsing();
}

/// The bytes that are read of an input have the drafts and the faults of all its bytes, however
/// many they are.
pub fn what_is_read_tells_the_input()
    ensures { WhatIsReadTellsTheInput }
{}

/// The limits of reading: at most one byte more than a text may have, by at most this number of
/// calls.
pub fn limits_of_reading()
    ensures bytes { BYTE_LIMIT ≡ TEXT_LIMIT + 1 }
    ensures number { BYTE_LIMIT ≡ 1048577 }
    ensures calls { CALL_LIMIT ≡ 2097152 }
{}
