//! Bare names.

ghost use Rattle.std.specs.Prelude.{◌≡◌, true, false, IfSome, IfNone, slice_index_or, if◌then◌else◌};
ghost use Rattle.std.specs.List.{list_all};
ghost use Rattle.ll_literals.specs.Names.{is_bare, is_name_byte};

use crate::numbers::is_digit;
use std::str;

/// What each byte is in a bare name: `0` if it may stand there, `1` if it may not. A row has 32 bytes.
static NAME_BYTES: [u8; 256] = *b"\
11111111111111111111111111111111\
11110111111110010000000000111111\
10000000000000000000000000011110\
10000000000000000000000000011111\
11111111111111111111111111111111\
11111111111111111111111111111111\
11111111111111111111111111111111\
11111111111111111111111111111111";

/// What a byte is in a bare name, by a table.
fn kind_at(kinds: &[u8], b: u8) -> u8
    ensures { result ≡ slice_index_or kinds.now b 49 }
{
    match kinds.get(b as usize) {
        Some(kind) => *kind,
        None => b'1',
    }
}

/// `0` for a byte of a bare name, `1` for any other.
fn name_kind(b: u8) -> u8
    ensures { result ≡ if is_name_byte b then 48 else 49 }
{
    kind_at(&NAME_BYTES, b)
}

/// Bytes of bare names, each of them.
fn all_name_bytes(bytes: &[u8]) -> bool
    ensures { result ≡ list_all is_name_byte bytes.now }
{
    // One step a byte: no byte ends the loop, and a single `1` stays in the union of all.
    let mut kinds = b'0';
    for b in bytes {
        kinds |= name_kind(*b);
    }
    kinds == b'0'
}

/// Bytes of a bare name, and no digit first.
pub(crate) fn is_bare(text: &[u8]) -> bool
    ensures { result ≡ is_bare text.now }
{
    let [b, ..] = text else {
        return false;
    };
    !is_digit(*b) && all_name_bytes(text)
}

/// The text, where it is a bare name.
pub fn bare_name(text: &[u8]) -> Option<&str>
    ensures found { IfSome result (λ s. (s.now ≡ text.now) × (is_bare text.now ≡ true)) }
    ensures none { IfNone result (is_bare text.now ≡ false) }
{
    if !is_bare(text) {
        return None;
    }
    // Bytes of names are ASCII, which is UTF-8.
    Some(unsafe { str::from_utf8_unchecked(text) })
}
