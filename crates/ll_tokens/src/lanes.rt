//! Bytes of names, sixteen at a time.

ghost use Rattle.std.specs.Prelude.{◌≡◌, ◌+◌, ◌≤◌, drop, length};
ghost use Rattle.std.specs.List.{prefix_len};
ghost use Rattle.ll_tokens.specs.Bytes.{is_name_byte};
ghost use Rattle.ll_tokens.specs.Runs.{first_set};

use std::simd::prelude::*;

/// How many bytes are loaded at once.
const LANES: usize = 16;

/// The place of the lowest bit that is set, or the number of lanes where none is.
#[inline(always)]
fn first_set(mask: u64, lanes: usize) -> usize
    ensures { result ≡ first_set mask lanes }
{
    if mask == 0 {
        lanes
    } else {
        mask.trailing_zeros() as usize
    }
}

/// How many of sixteen bytes are letters, digits, `_` or `.`, up to the first that is none.
#[inline(always)]
fn lane_len(text: &[u8]) -> usize
    requires { LANES ≤ length text.now }
    ensures within { result ≤ LANES }
    ensures run { prefix_len is_name_byte text.now ≡ result + prefix_len is_name_byte (drop result text.now) }
{
    let v = u8x16::from_slice(text);
    let from_a = (v | u8x16::splat(0x20)) - u8x16::splat(b'a');
    let from_0 = v - u8x16::splat(b'0');
    let others = v.simd_ne(u8x16::splat(b'_')) & v.simd_ne(u8x16::splat(b'.'));
    let stops = from_a.simd_ge(u8x16::splat(26)) & from_0.simd_ge(u8x16::splat(10)) & others;
    first_set(stops.to_bitmask(), LANES)
}

/// How many bytes of a name the text begins with, or fewer: there may be more behind.
#[inline(never)]
pub fn lanes_len(text: &[u8]) -> usize
    ensures within { result ≤ length text.now }
    ensures run { prefix_len is_name_byte text.now ≡ result + prefix_len is_name_byte (drop result text.now) }
{
    let mut n = 0;
    while text.len() - n >= LANES {
        let k = lane_len(&text[n..]);
        if k < LANES {
            return n + k;
        }
        n += LANES;
    }
    n
}
