//! The word that was probably meant.

use std::alloc::{AllocError, Global};
use strsim::generic_levenshtein;

/// The bytes in small letters.
pub(crate) fn lowered(alloc: Global, bytes: &[u8]) -> Result<Vec<u8>, AllocError> {
    bytes
        .iter()
        .map(|byte| byte.to_ascii_lowercase())
        .collect(alloc)
}

/// The greatest number of bytes of a word that can be near to one of those known.
const MOST: usize = 24;

/// The least number of bytes that have to be added, dropped or changed; capital letters count as
/// small ones.
fn distance(alloc: Global, a: &[u8], b: &[u8]) -> Result<usize, AllocError> {
    let a = lowered(alloc, a)?;
    let b = lowered(alloc, b)?;
    generic_levenshtein(alloc, &a, &b)
}

/// Whether this number of changes is small for the two words.
fn is_few(distance: usize, a: &[u8], b: &[u8]) -> bool {
    distance.saturating_mul(3) <= a.len().max(b.len())
}

/// The word that is nearest to one, the first of several, if few changes are enough.
pub(crate) fn nearest<'w>(
    alloc: Global,
    words: &[&'w [u8]],
    own: &[u8],
) -> Result<Option<&'w [u8]>, AllocError> {
    let mut least = usize::MAX;
    let mut found = None;
    if own.len() > MOST {
        return Ok(found);
    }
    for word in words {
        let far = distance(alloc, own, word)?;
        if far < least {
            least = far;
            found = Some(*word);
        }
    }
    Ok(found.filter(|word| is_few(least, own, word)))
}
