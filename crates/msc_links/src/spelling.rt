//! The two forms of LINK.

ghost use Rattle.std.specs.Prelude.{◌≡◌, ◌<◌, IfSome, length, option_map, position};
ghost use Rattle.msc_links.specs.Names.{is_arrow, one_name, spelled, spelling, two_names};

use crate::blank::trimmed;

/// The names in LINK. None is empty.
#[derive(Clone, Copy, Debug, PartialEq, Eq)]
pub(crate) enum LinkNames<'w> {
    /// All links to the instance with this name.
    To(&'w [u8]),
    /// The link from the first to the second.
    Between(&'w [u8], &'w [u8]),
}

/// The place of the first arrow.
fn arrow_in(bytes: &[u8]) -> Option<usize>
    ensures place { result ≡ position is_arrow bytes.now }
    ensures within { IfSome result (λ place. place < length bytes.now) }
{
    bytes.iter().position(|byte| *byte == b'>')
}

/// LINK with one name, if the name is not empty.
fn one_name(receiver: &[u8]) -> Option<LinkNames<'_>>
    ensures { option_map spelling result ≡ one_name receiver.now }
{
    match receiver {
        [] => None,
        [_, ..] => Some(LinkNames::To(receiver)),
    }
}

/// LINK with two names, if none is empty.
fn two_names<'w>(sender: &'w [u8], receiver: &'w [u8]) -> Option<LinkNames<'w>>
    ensures { option_map spelling result ≡ two_names sender.now receiver.now }
{
    if sender.is_empty() || receiver.is_empty() {
        return None;
    }
    Some(LinkNames::Between(sender, receiver))
}

/// The names in LINK, if it has one of the two forms.
pub(crate) fn spelled(link: &[u8]) -> Option<LinkNames<'_>>
    ensures { option_map spelling result ≡ spelled link.now }
{
    let Some(place) = arrow_in(link) else {
        return one_name(trimmed(link));
    };
    let receiver = &link[place + 1..];
    match arrow_in(receiver) {
        None => two_names(trimmed(&link[..place]), trimmed(receiver)),
        Some(_) => None,
    }
}
