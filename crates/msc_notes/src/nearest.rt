//! The name that was probably meant.

use msc_parser::Section;
use std::alloc::{AllocError, Global};
use strsim::generic_levenshtein;

/// The bytes of a name in small letters.
fn lowered(alloc: Global, name: &[u8]) -> Result<Vec<u8>, AllocError> {
    name.iter()
        .map(|byte| byte.to_ascii_lowercase())
        .collect(alloc)
}

/// The least number of bytes that have to be added, dropped or changed; capital letters count as
/// small ones.
fn distance(alloc: Global, a: &[u8], b: &[u8]) -> Result<usize, AllocError> {
    let a = lowered(alloc, a)?;
    let b = lowered(alloc, b)?;
    generic_levenshtein(alloc, &a, &b)
}

/// Whether this number of changes is small for the two names.
fn is_few(distance: usize, a: &[u8], b: &[u8]) -> bool {
    distance.saturating_mul(3) <= a.len().max(b.len())
}

/// The section whose name is nearest to a name, the first of several, if few changes are enough.
pub(crate) fn nearest(
    alloc: Global,
    sections: &[Section],
    name: &[u8],
) -> Result<Option<usize>, AllocError> {
    let mut least = usize::MAX;
    let mut found = None;
    for (i, section) in sections.iter().enumerate() {
        let far = distance(alloc, name, section.decl.name.as_slice())?;
        if far < least {
            least = far;
            found = Some(i);
        }
    }
    Ok(found.filter(|i| match sections.get(*i) {
        Some(section) => is_few(least, name, section.decl.name.as_slice()),
        None => false,
    }))
}
