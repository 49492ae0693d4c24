//! Integers and floats.

ghost use Rattle.std.specs.Prelude.{◌≡◌, ◌+◌, ◌≤◌, ◌^◌, length, IfSome, true, slice_index};
ghost use Rattle.ll_tokens.specs.Bytes.{is_digit};
ghost use Rattle.ll_tokens.specs.Pieces.{power_len, exponent_len, fraction_len, point_at, digits_at, hex_at, begins_hex, number_at, minus_at};

use crate::bytes::is_digit;
use crate::kinds::Kind;
use crate::piece::{Piece, token};
use crate::runs::{Run, run_len};

/// Behind `e` or `E`: digits, with a sign or none, and `e` with them.
fn power_len(bytes: &[u8]) -> usize
    ensures gives { result ≡ power_len bytes.now }
    ensures within { result ≤ 1 + length bytes.now }
{
    let [b, rest @ ..] = bytes else {
        return 0;
    };
    let n = run_len(rest, Run::Digits);
    if is_digit(*b) || ((*b == b'+' || *b == b'-') && n > 0) {
        2 + n
    } else {
        0
    }
}

/// `e` or `E` and what is behind it.
fn exponent_len(bytes: &[u8]) -> usize
    ensures gives { result ≡ exponent_len bytes.now }
    ensures within { result ≤ length bytes.now }
{
    match bytes {
        [b, rest @ ..] if *b == b'e' || *b == b'E' => power_len(rest),
        _ => 0,
    }
}

/// Behind the point: digits, and an exponent or none.
fn fraction_len(bytes: &[u8]) -> usize
    ensures gives { result ≡ fraction_len bytes.now }
    ensures within { result ≤ length bytes.now }
{
    let n = run_len(bytes, Run::Digits);
    n + exponent_len(&bytes[n..])
}

/// Behind the digits, of which there are `n` with their minus: a point makes them a float.
#[tactic(auto, unfolding(crate::specs::Pieces::point_at))]
fn point_at(n: usize, bytes: &[u8]) -> Option<Piece>
    requires { n + length bytes.now ≤ 2 ^ 63 }
    ensures gives { result ≡ point_at n bytes.now }
    ensures within { IfSome result (λ p. (n ≤ p.len) × (p.len ≤ n + length bytes.now)) }
{
    match bytes {
        [b'.', rest @ ..] => token(Kind::Float, n + 1 + fraction_len(rest)),
        _ => token(Kind::Int, n),
    }
}

/// An integer or a float.
#[tactic(auto, unfolding(crate::specs::Pieces::digits_at))]
fn digits_at(bytes: &[u8]) -> Option<Piece>
    requires { is_digit (slice_index bytes.now 0) ≡ true }
    ensures gives { result ≡ digits_at 0 bytes.now }
    ensures within { IfSome result (λ p. (1 ≤ p.len) × (p.len ≤ length bytes.now)) }
{
    let n = run_len(bytes, Run::Digits);
    point_at(n, &bytes[n..])
}

/// Behind `0x`: letters and digits.
#[tactic(auto, unfolding(crate::specs::Pieces::hex_at))]
fn hex_at(bytes: &[u8]) -> Option<Piece>
    ensures gives { result ≡ hex_at bytes.now }
    ensures within { IfSome result (λ p. (1 ≤ p.len) × (p.len ≤ 2 + length bytes.now)) }
{
    let n = run_len(bytes, Run::LettersAndDigits);
    if n == 0 {
        None
    } else {
        token(Kind::Float, 2 + n)
    }
}

/// A number without a minus.
#[tactic(auto, unfolding(crate::specs::Pieces::number_at))]
pub fn number_at(bytes: &[u8]) -> Option<Piece>
    requires { is_digit (slice_index bytes.now 0) ≡ true }
    ensures gives { result ≡ number_at bytes.now }
    ensures within { IfSome result (λ p. (1 ≤ p.len) × (p.len ≤ length bytes.now)) }
{
    if bytes.len() > 1 && bytes[0] == b'0' && bytes[1] == b'x' {
        return hex_at(&bytes[2..]);
    }
    digits_at(bytes)
}

/// A number behind its minus.
#[tactic(auto, unfolding(crate::specs::Pieces::minus_at, crate::specs::Pieces::digits_at))]
pub fn minus_at(bytes: &[u8]) -> Option<Piece>
    ensures gives { result ≡ minus_at bytes.now }
    ensures within { IfSome result (λ p. (1 ≤ p.len) × (p.len ≤ 1 + length bytes.now)) }
{
    let n = run_len(bytes, Run::Digits);
    if n == 0 {
        return None;
    }
    point_at(1 + n, &bytes[n..])
}
