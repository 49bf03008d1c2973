//! The number of bytes at the front of one load of 16 bytes that belong to a run.

ghost use Rattle.std.specs.Prelude.{◌≡◌, ◌+◌, ◌≤◌, length, take, drop};
ghost use Rattle.std.specs.List.{prefix_len};
ghost use Rattle.msc_lexer.specs.Bytes.{is_run_byte};
ghost use Rattle.msc_lexer.specs.Scanning.{first_set};

use std::simd::prelude::*;

/// The number of bytes of a load.
pub const LANES: usize = 16;

/// The place of the lowest bit that is set, or the number of lanes if none is.
fn first_set(mask: u64) -> usize
    ensures { result ≡ first_set mask LANES }
{
    if mask == 0 {
        LANES
    } else {
        mask.trailing_zeros() as usize
    }
}

/// The number of bytes of the run at the front of the 16 bytes from a place on. Any byte but a
/// letter, a digit or an underscore ends it.
pub fn run_in_load(text: &[u8], at: usize) -> usize
    requires { at + LANES ≤ length text.now }
    ensures { result ≡ prefix_len is_run_byte (take LANES (drop at text.now)) }
{
    let bytes = u8x16::from_slice(&text[at..]);
    let from_a = (bytes | u8x16::splat(0x20)) - u8x16::splat(b'a');
    let from_0 = bytes - u8x16::splat(b'0');
    let stops = from_a.simd_ge(u8x16::splat(26))
        & from_0.simd_ge(u8x16::splat(10))
        & bytes.simd_ne(u8x16::splat(b'_'));
    first_set(stops.to_bitmask())
}
