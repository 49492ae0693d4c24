//! The tokens that most texts are made of, which are told by few looks.

ghost use Rattle.std.specs.Prelude.{◌≡◌, ◌∷◌, true, IfSome, slice_index};
ghost use Rattle.ll_tokens.specs.Bytes.{is_digit, is_word_start};
ghost use Rattle.ll_tokens.specs.Pieces.{name_at, piece_at, token};

use crate::bytes::{begins_word, ends_name, is_digit};
use crate::kinds::Kind;
use crate::runs::{Run, name_len, run_len, word_len};

/// A name behind `@` or `%` that is no string.
#[inline(always)]
#[tactic(auto, unfolding(crate::specs::Pieces::name_at))]
fn plain_name(kind: Kind, bytes: &[u8]) -> Option<(Kind, usize)>
    ensures { IfSome result (λ found. name_at kind bytes.now ≡ token found.0 found.1) }
{
    let [b, rest @ ..] = bytes else {
        return None;
    };
    if is_digit(*b) {
        return Some((kind, 2 + run_len(rest, Run::Digits)));
    }
    let n = name_len(bytes);
    if n > 0 { Some((kind, 1 + n)) } else { None }
}

/// A word, or a label that has no other bytes than a word, where it ends plainly.
#[inline(always)]
fn plain_word(bytes: &[u8]) -> Option<(Kind, usize)>
    requires { is_word_start (slice_index bytes.now 0) ≡ true }
    ensures { IfSome result (λ found. piece_at bytes.now ≡ token found.0 found.1) }
{
    let n = word_len(bytes);
    if n == bytes.len() || ends_name(bytes[n]) {
        Some((Kind::Word, n))
    } else if bytes[n] == b':' {
        Some((Kind::Label, 1 + n))
    } else {
        None
    }
}

/// An integer, where it ends plainly.
#[inline(always)]
fn plain_int(bytes: &[u8]) -> Option<(Kind, usize)>
    requires { is_digit (slice_index bytes.now 0) ≡ true }
    ensures { IfSome result (λ found. piece_at bytes.now ≡ token found.0 found.1) }
{
    let n = run_len(bytes, Run::Digits);
    if n == bytes.len() || ends_name(bytes[n]) {
        Some((Kind::Int, n))
    } else {
        None
    }
}

/// The token that the text begins with, with the byte `b`, if it is a name, a word, an integer or a sign that ends plainly.
#[inline(always)]
#[tactic(auto, unfolding(crate::specs::Pieces::piece_at, crate::specs::Pieces::sign_at))]
pub fn plain_at(b: u8, rest: &[u8], text: &[u8]) -> Option<(Kind, usize)>
    requires front { text.now ≡ b ∷ rest.now }
    ensures { IfSome result (λ found. piece_at text.now ≡ token found.0 found.1) }
{
    if begins_word(b) {
        return plain_word(text);
    }
    match b {
        b'%' => plain_name(Kind::Local, rest),
        b'@' => plain_name(Kind::Global, rest),
        b'=' => Some((Kind::Equals, 1)),
        b',' => Some((Kind::Comma, 1)),
        b'(' => Some((Kind::OpenParen, 1)),
        b')' => Some((Kind::CloseParen, 1)),
        b'[' => Some((Kind::OpenBracket, 1)),
        b']' => Some((Kind::CloseBracket, 1)),
        b'{' => Some((Kind::OpenBrace, 1)),
        b'}' => Some((Kind::CloseBrace, 1)),
        _ if is_digit(b) => plain_int(text),
        _ => None,
    }
}
