//! The part of a long line that is shown.

ghost use Rattle.std.specs.Prelude.{◌≡◌, ◌+◌, ◌≤◌, IfOk, drop, encode_utf8_all, length, nat_lt};
ghost use Rattle.std.specs.Prelude.{take};
ghost use Rattle.std.specs.Str.{chars};
ghost use Rattle.std.specs.String.{string_bytes};
ghost use Rattle.msc_diagnostic.specs.Windows.{around, beginning, columns_before, columns_marked};
ghost use Rattle.msc_diagnostic.specs.Windows.{continues, dots_if, ended, inside_from};
ghost use Rattle.msc_diagnostic.specs.Windows.{last_column, moved, window_at, window_begin};
ghost use Rattle.msc_diagnostic.specs.Windows.{window_text};

use crate::characters::{columns_of, sum};
use crate::mark::Placed;
use msc_spoken::{before_blanks, fitting, width};
use std::alloc::{AllocError, Global};

/// The columns of a window.
const WINDOW: usize = 100;

/// The columns of a window before its first mark.
const BEFORE: usize = 49;

/// The shown part of a line: the characters that are whole in a window on it.
#[derive(Clone, Copy)]
pub(crate) struct Window {
    /// The line, from 1.
    pub(crate) line: usize,
    /// The first column, from 0.
    pub(crate) begin: usize,
    /// The columns of the whole line.
    pub(crate) total: usize,
    /// How many characters of the line are left out before the window, and how many are in it.
    pub(crate) skipped: usize,
    pub(crate) count: usize,
    /// The columns of the line before the characters in the window, and before their end.
    pub(crate) low: usize,
    pub(crate) high: usize,
}

/// The number of characters at the front that begin before this column.
fn beginning(column: usize, characters: &[char]) -> usize
    ensures value { result ≡ beginning column characters.now }
    ensures within { result ≤ length characters.now }
{
    let mut left = column;
    for i in 0..characters.len() {
        if left == 0 {
            return i;
        }
        left = left.saturating_sub(width(characters[i]));
    }
    characters.len()
}

/// The greatest column that marks on a line go up to.
pub(crate) fn last_column(line: usize, marks: &[Placed<'_>]) -> usize
    ensures { result ≡ last_column line marks.now }
{
    let mut last = 0;
    for mark in marks {
        if mark.line == line {
            last = last.max(mark.past);
        }
    }
    last
}

/// Where a window around a column begins, in a line of `total` columns.
fn around(total: usize, column: usize) -> usize
    ensures { result ≡ around total column }
{
    column
        .saturating_sub(BEFORE)
        .min(total.saturating_sub(WINDOW))
}

/// Where a window begins that is moved so that marks up to the column `last` are in it, if it then
/// still has the one that begins at `column`.
fn moved(column: usize, last: usize, begin: usize) -> usize
    ensures { result ≡ moved column last begin }
{
    let later = last.saturating_sub(WINDOW);
    if begin < later && later <= column {
        later
    } else {
        begin
    }
}

/// Where the window begins on a line of `total` columns, for marks from `column` up to `last`.
pub(crate) fn window_begin(total: usize, column: usize, last: usize) -> usize
    ensures { result ≡ window_begin total column last }
{
    if total <= WINDOW {
        return 0;
    }
    moved(column, last, around(total, column))
}

/// The characters at the front that are whole in a window that begins at the column `begin`, if
/// they begin at the column `low`.
fn inside_from(begin: usize, low: usize, left: &[char]) -> &[char]
    ensures { result.now ≡ inside_from begin low left.now }
{
    let room = WINDOW.saturating_sub(low.saturating_sub(begin));
    &left[..fitting(room, left)]
}

/// The window on a line that begins at the column `begin`. The only error is want of memory.
pub(crate) fn window_at(line: usize, begin: usize, shown: &[char]) -> Result<Window, AllocError>
    ensures { IfOk result (λ window. window ≡ window_at line begin shown.now) }
{
    let skipped = beginning(begin, shown);
    let low = columns_of(&shown[..skipped])?;
    let inside = inside_from(begin, low, &shown[skipped..]);
    let high = sum(low, columns_of(inside)?)?;
    Ok(Window {
        line,
        begin,
        total: columns_of(shown)?,
        skipped,
        count: inside.len(),
        low,
        high,
    })
}

/// `...` in place of characters that are left out.
fn dots_if(left_out: bool) -> &'static [char]
    ensures { result.now ≡ dots_if left_out }
{
    if left_out { &['.', '.', '.'] } else { &[] }
}

/// A text that is shown, with `...` at its end if something is left out there, and else without the
/// blanks at its end. The only error is want of memory.
fn ended(alloc: Global, left_out: bool, shown: &[char]) -> Result<Vec<char>, AllocError>
    ensures { IfOk result (λ text. text.items ≡ ended left_out shown.now) }
{
    if !left_out {
        return Vec::from_slice(alloc, before_blanks(shown));
    }
    let mut text = Vec::from_slice(alloc, shown)?;
    text.extend_from_slice(&['.', '.', '.'])?;
    Ok(text)
}

/// The first `count` characters, or all characters if there are fewer.
fn front(characters: &[char], count: usize) -> &[char]
    ensures { result.now ≡ take count characters.now }
{
    &characters[..count.min(characters.len())]
}

/// The characters after the first ones.
fn rest(characters: &[char], count: usize) -> &[char]
    ensures { result.now ≡ drop count characters.now }
{
    &characters[count.min(characters.len())..]
}

impl Window {
    /// Whether characters of the line are left out before the window.
    fn has_front(&self) -> bool
        ensures { result ≡ nat_lt 0 self.now.skipped }
    {
        self.skipped > 0
    }

    /// Whether characters of a line are left out after the window.
    fn has_back(&self, shown: &[char]) -> bool
        ensures { result ≡ nat_lt (self.now.skipped + self.now.count) (length shown.now) }
    {
        rest(shown, self.skipped).len() > self.count
    }

    /// The characters of the row. The only error is want of memory.
    fn characters(&self, alloc: Global, shown: &[char]) -> Result<Vec<char>, AllocError>
        ensures { IfOk result (λ text. text.items ≡ window_text self.now shown.now) }
    {
        let mut text = Vec::from_slice(alloc, dots_if(self.has_front()))?;
        text.extend_from_slice(front(rest(shown, self.skipped), self.count))?;
        ended(alloc, self.has_back(shown), text.as_slice())
    }

    /// The text of the row. The only error is want of memory.
    pub(crate) fn text(&self, alloc: Global, shown: &[char]) -> Result<String, AllocError>
        ensures { IfOk result (λ text. string_bytes text
            ≡ encode_utf8_all (window_text self.now shown.now)) }
    {
        let characters = self.characters(alloc, shown)?;
        characters.as_slice().iter().copied().collect(alloc)
    }

    /// Whether a mark is shown below this row too.
    pub(crate) fn continues(&self, mark: &Placed<'_>) -> bool
        ensures { result ≡ continues self.now mark.now }
    {
        mark.line == self.line
            && (self.total <= WINDOW || mark.column.saturating_sub(self.begin) < WINDOW)
    }

    /// The columns before a mark in its row. The only error is want of memory.
    pub(crate) fn columns_before(&self, mark: &Placed<'_>) -> Result<usize, AllocError>
        ensures { IfOk result (λ columns. columns ≡ columns_before self.now mark.now) }
    {
        let dots = dots_if(self.has_front()).len();
        let inside = mark.column.min(self.high).saturating_sub(self.low);
        sum(sum(dots, inside)?, mark.column.saturating_sub(self.total))
    }

    /// The columns of a mark in its row.
    pub(crate) fn columns_marked(&self, mark: &Placed<'_>) -> usize
        ensures { result ≡ columns_marked self.now mark.now }
    {
        mark.past
            .min(self.high)
            .saturating_sub(mark.column.max(self.low))
            .max(1)
    }
}
