//! URIs of files.

ghost use Rattle.std.specs.Prelude.{◌≡◌, IfOk};
ghost use Rattle.std.specs.String.{string_bytes};
ghost use Rattle.msc_record.specs.Uris.{escaped_name, file_uri};

use percent_encoding::{AsciiSet, NON_ALPHANUMERIC, ascii_set, percent_encode};
use std::alloc::{AllocError, Global};

/// The ASCII bytes of a name that are escaped.
const ESCAPED: AsciiSet = ascii_set!(
    NON_ALPHANUMERIC
        .remove(b'-')
        .remove(b'.')
        .remove(b'_')
        .remove(b'~')
        .remove(b'/')
);

/// A name, with its bytes escaped as `%XX` but for letters, digits, and `-`, `.`, `_`, `~` and `/`.
fn escaped_name(alloc: Global, name: &[u8]) -> Result<String, AllocError>
    ensures { IfOk result (λ uri. string_bytes uri ≡ escaped_name name.now) }
{
    let mut uri = String::new(alloc);
    percent_encode(name, ESCAPED).append_to(&mut uri)?;
    Ok(uri)
}

/// The URI of a file: its name, escaped; `stdin` for standard input, which is called `-`.
pub(crate) fn file_uri(alloc: Global, name: &[u8]) -> Result<String, AllocError>
    ensures { IfOk result (λ uri. string_bytes uri ≡ file_uri name.now) }
{
    if name == "-".as_bytes() {
        return String::from_str(alloc, "stdin");
    }
    escaped_name(alloc, name)
}
