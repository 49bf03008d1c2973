//! The names of lines.

ghost use Rattle.std.specs.Prelude.{◌≡◌, ◌<◌, IfOk, IfSome, bytes_eq, length, position};
ghost use Rattle.std.specs.Result.{result_map_both};
ghost use Rattle.msc_links.specs.Links.{fault_text, known, line_of};

use crate::fault::LinkFault;

/// The names of a line. In a chart all three are the name of the instance.
#[derive(Clone, Copy, Debug, PartialEq, Eq)]
pub struct LineNames<'n> {
    /// The name by which its text calls the line.
    pub own: &'n [u8],
    /// The name with which its text shows the line.
    pub shown: &'n [u8],
    /// The name that an import gives the line.
    pub made: &'n [u8],
}

/// The first line whose own name this is.
fn with_own(names: &[LineNames<'_>], name: &[u8]) -> Option<usize>
    ensures line { result ≡ position (λ line. bytes_eq line.own.now name.now) names.now }
    ensures within { IfSome result (λ line. line < length names.now) }
{
    names.iter().position(|line| line.own == name)
}

/// The first line that is shown with this name.
fn with_shown(names: &[LineNames<'_>], name: &[u8]) -> Option<usize>
    ensures line { result ≡ position (λ line. bytes_eq line.shown.now name.now) names.now }
    ensures within { IfSome result (λ line. line < length names.now) }
{
    names.iter().position(|line| line.shown == name)
}

/// The first line for which this name was made.
fn with_made(names: &[LineNames<'_>], name: &[u8]) -> Option<usize>
    ensures line { result ≡ position (λ line. bytes_eq line.made.now name.now) names.now }
    ensures within { IfSome result (λ line. line < length names.now) }
{
    names.iter().position(|line| line.made == name)
}

/// The line with a name.
#[tactic(auto, unfolding(crate::specs::Links::line_of))]
fn line_of(names: &[LineNames<'_>], name: &[u8]) -> Option<usize>
    ensures line { result ≡ line_of names.now name.now }
    ensures within { IfSome result (λ line. line < length names.now) }
{
    if let Some(line) = with_own(names, name) {
        return Some(line);
    }
    if let Some(line) = with_shown(names, name) {
        return Some(line);
    }
    with_made(names, name)
}

/// The line with a name, or the fault that there is none.
pub(crate) fn known<'w>(names: &[LineNames<'_>], name: &'w [u8]) -> Result<usize, LinkFault<'w>>
    ensures line { result_map_both (λ l. l) fault_text result ≡ known names.now name.now }
    ensures within { IfOk result (λ line. line < length names.now) }
{
    match line_of(names, name) {
        Some(line) => Ok(line),
        None => Err(LinkFault::NoInstance(name)),
    }
}
