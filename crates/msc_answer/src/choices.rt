//! Choices and numbers of rounds in words of a command line, and the title of a file.

ghost use Rattle.std.specs.Prelude.{◌≡◌, ◌≤◌, ◌+◌, ◌==◌, IfOk, IfSome, false, length, map, option_map};
ghost use Rattle.std.specs.Option.{option_map_or};
ghost use Rattle.msc_answer.specs.Importing.{are_rounds, gives_round, gives_rounds, rounds_below, rounds_of};
ghost use Rattle.std.specs.List.{slice_split};
ghost use Rattle.msc_answer.specs.Importing.{are_numbers, before_ending, behind_dot, behind_folder};
ghost use Rattle.msc_answer.specs.Importing.{behind_slash, choice_in, choices_in, gives_choices};
ghost use Rattle.msc_answer.specs.Importing.{greatest_choice, is_comma, is_dot, is_slash};
ghost use Rattle.msc_answer.specs.Importing.{number_of, title_of, with_digit};

use msc_scenarios::ROUND_LIMIT;
use std::alloc::{AllocError, Global};

/// The greatest number of a choice.
const GREATEST_CHOICE: usize = 4_294_967_295;

/// The number with one more digit, if the byte is a digit and the number is not too large then.
fn with_digit(number: usize, byte: u8) -> Option<usize>
    requires { number ≤ greatest_choice }
    ensures value { result ≡ with_digit number byte }
    ensures within { IfSome result (λ n. n ≤ greatest_choice) }
{
    if byte < b'0' || byte > b'9' {
        return None;
    }
    let next = number * 10 + usize::from(byte - b'0');
    if next > GREATEST_CHOICE {
        return None;
    }
    Some(next)
}

/// The number that a text is: one or more digits.
fn number_of(bytes: &[u8]) -> Option<usize>
    ensures { result ≡ number_of bytes.now }
{
    if bytes.is_empty() {
        return None;
    }
    let mut number = 0;
    for byte in bytes {
        number = with_digit(number, *byte)?;
    }
    Some(number)
}

/// Whether the parts of a word, between commas, are numbers.
fn are_numbers(bytes: &[u8]) -> bool
    ensures { result ≡ are_numbers bytes.now }
{
    bytes
        .split(|byte| *byte == b',')
        .all(|part| number_of(part).is_some())
}

/// Whether a word is `main`, or numbers with commas between them.
pub fn gives_choices(word: &str) -> bool
    ensures { result ≡ gives_choices word.now }
{
    word == "main" || are_numbers(word.as_bytes())
}

/// The parts of a word, between commas.
fn parts_of(alloc: Global, bytes: &[u8]) -> Result<Vec<&[u8]>, AllocError>
    ensures { IfOk result (λ v. map (λ x. x.now) v.items ≡ slice_split is_comma bytes.now) }
{
    bytes.split(|byte| *byte == b',').collect(alloc)
}

/// The choices in these parts.
fn choices_of(alloc: Global, parts: &[&[u8]]) -> Result<Vec<usize>, AllocError>
    ensures { IfOk result (λ v. v.items ≡ map (λ part. choice_in part.now) parts.now) }
{
    let mut choices = Vec::new(alloc);
    for part in parts {
        choices.push(number_of(part).unwrap_or(0))?;
    }
    Ok(choices)
}

/// The choices in a word. `main` has none, so all choices are the main ones.
pub(crate) fn choices_in(alloc: Global, word: &str) -> Result<Vec<usize>, AllocError>
    ensures { IfOk result (λ v. v.items ≡ choices_in word.now) }
{
    if word == "main" {
        return Ok(Vec::new(alloc));
    }
    let parts = parts_of(alloc, word.as_bytes())?;
    let choices = choices_of(alloc, parts.as_slice())?;
    Ok(choices)
}

/// Whether a part of a word is a number of rounds of a loop.
fn are_rounds(part: &[u8]) -> bool
    ensures { result ≡ are_rounds (number_of part.now) }
{
    match number_of(part) {
        Some(rounds) => rounds <= ROUND_LIMIT,
        None => false,
    }
}

/// Whether a word is a list of numbers of rounds, with commas between them.
pub fn gives_rounds(bytes: &[u8]) -> bool
    ensures { result ≡ gives_rounds bytes.now }
{
    bytes
        .split(|byte| *byte == b',')
        .all(|part| are_rounds(part))
}

/// Whether a part of a word is this number.
fn is_number(part: &[u8], number: usize) -> bool
    ensures { result ≡ option_map_or (λ m. m == number) (number_of part.now) false }
{
    match number_of(part) {
        Some(other) => other == number,
        None => false,
    }
}

/// Whether a word has this number.
fn gives_round(bytes: &[u8], number: usize) -> bool
    ensures { result ≡ gives_round bytes.now number }
{
    bytes
        .split(|byte| *byte == b',')
        .any(|part| is_number(part, number))
}

/// The numbers of rounds in a word, each once, ascending.
#[tactic(auto, using(crate::proofs::ChoiceNumbers::no_rounds, crate::proofs::ChoiceNumbers::next_rounds))]
fn rounds_in(alloc: Global, bytes: &[u8]) -> Result<Vec<usize>, AllocError>
    ensures { IfOk result (λ v. v.items ≡ rounds_below bytes.now (ROUND_LIMIT + 1)) }
{
    let mut rounds = Vec::new(alloc);
    for number in 0..ROUND_LIMIT + 1 {
        if gives_round(bytes, number) {
            rounds.push(number)?;
        }
    }
    Ok(rounds)
}

/// The numbers of rounds in a word, or 0 and 2 without a word.
pub(crate) fn rounds_of(alloc: Global, word: Option<&str>) -> Result<Vec<usize>, AllocError>
    ensures { IfOk result (λ v. v.items ≡ rounds_of (option_map (λ w. w.now) word.entry)) }
{
    if let Some(word) = word {
        return rounds_in(alloc, word.as_bytes());
    }
    let mut rounds = Vec::new(alloc);
    rounds.push(0)?;
    rounds.push(2)?;
    Ok(rounds)
}

/// Whether the byte ends a folder.
fn is_slash(byte: u8) -> bool
    ensures { result ≡ is_slash byte }
{
    byte == b'/'
}

/// Whether an ending begins.
fn is_dot(byte: u8) -> bool
    ensures { result ≡ is_dot byte }
{
    byte == b'.'
}

/// The number of bytes after the last folder.
fn behind_slash(file: &[u8]) -> usize
    ensures value { result ≡ behind_slash file.now }
    ensures within { result ≤ length file.now }
{
    file.iter()
        .rev()
        .take_while(|byte| !is_slash(**byte))
        .count()
}

/// The number of bytes after the last `.`.
fn behind_dot(name: &[u8]) -> usize
    ensures value { result ≡ behind_dot name.now }
    ensures within { result ≤ length name.now }
{
    name.iter().rev().take_while(|byte| !is_dot(**byte)).count()
}

/// The name of a file without its folder.
fn behind_folder(file: &[u8]) -> &[u8]
    ensures { result.now ≡ behind_folder file.now }
{
    &file[file.len() - behind_slash(file)..]
}

/// A name without its last ending.
fn before_ending(name: &[u8]) -> &[u8]
    ensures { result.now ≡ before_ending name.now }
{
    let ending = behind_dot(name);
    if name.len() <= ending {
        return name;
    }
    &name[..name.len() - ending - 1]
}

/// The name of a file, without its folder and its last ending.
pub fn title_of(file: &str) -> &[u8]
    ensures { result.now ≡ title_of file.now }
{
    before_ending(behind_folder(file.as_bytes()))
}
