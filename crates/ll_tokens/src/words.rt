//! What begins with a byte of a name.

ghost use Rattle.std.specs.Prelude.{◌≡◌, ◌+◌, ◌≤◌, ◌∷◌, length, IfSome};
ghost use Rattle.std.specs.List.{prefix_len};
ghost use Rattle.ll_tokens.specs.Bytes.{is_name_byte};
ghost use Rattle.ll_tokens.specs.Pieces.{dots_at, word_at, bare_at};

use crate::bytes::is_digit;
use crate::kinds::Kind;
use crate::numbers::{minus_at, number_at};
use crate::piece::{Piece, token};
use crate::runs::{name_len, word_len};
use crate::strings::inner_len;

/// Behind a point: two more.
#[tactic(auto, unfolding(crate::specs::Pieces::dots_at))]
fn dots_at(bytes: &[u8]) -> Option<Piece>
    ensures gives { result ≡ dots_at bytes.now }
    ensures within { IfSome result (λ p. (1 ≤ p.len) × (p.len ≤ 1 + length bytes.now)) }
{
    if bytes.len() > 1 && bytes[0] == b'.' && bytes[1] == b'.' {
        token(Kind::Dots, 3)
    } else {
        None
    }
}

/// A word, or a string behind `c`.
#[tactic(auto, unfolding(crate::specs::Pieces::word_at))]
fn word_at(b: u8, rest: &[u8]) -> Option<Piece>
    ensures gives { result ≡ word_at b rest.now }
    ensures within { IfSome result (λ p. (1 ≤ p.len) × (p.len ≤ 1 + length rest.now)) }
{
    if b == b'c' && !rest.is_empty() && rest[0] == b'"' {
        if let Some(n) = inner_len(&rest[1..]) {
            return token(Kind::CStr, 3 + n);
        }
    }
    token(Kind::Word, 1 + word_len(rest))
}

/// The piece that begins with a byte of a name. `run` is how many of them the text begins with.
#[tactic(auto, unfolding(crate::specs::Pieces::bare_at))]
pub fn bare_at(bytes: &[u8], b: u8, rest: &[u8], run: usize) -> Option<Piece>
    requires front { bytes.now ≡ b ∷ rest.now }
    requires run { run ≡ prefix_len is_name_byte bytes.now }
    ensures gives { result ≡ bare_at b rest.now }
    ensures within { IfSome result (λ p. (1 ≤ p.len) × (p.len ≤ length bytes.now)) }
{
    if run < bytes.len() && bytes[run] == b':' {
        return token(Kind::Label, 1 + run);
    }
    if is_digit(b) {
        return number_at(bytes);
    }
    match b {
        b'-' => minus_at(rest),
        b'$' => token(Kind::Comdat, 1 + name_len(rest)),
        b'.' => dots_at(rest),
        _ => word_at(b, rest),
    }
}
