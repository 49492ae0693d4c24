//! What stands behind `@`, `%`, `!` and `#`.

ghost use Rattle.std.specs.Prelude.{◌≡◌, ◌+◌, ◌≤◌, length, IfSome, IsTrue};
ghost use Rattle.ll_tokens.specs.Pieces.{name_at, escaped_len, bang_at, hash_at, begins_record, is_escape};

use crate::bytes::{is_digit, is_hex_digit, is_name_byte, is_word_start};
use crate::kinds::Kind;
use crate::piece::{Piece, token};
use crate::runs::{Run, name_len, run_len};
use crate::strings::inner_len;

/// What stands behind `@` or `%`.
#[tactic(auto, unfolding(crate::specs::Pieces::name_at))]
pub fn name_at(kind: Kind, bytes: &[u8]) -> Option<Piece>
    ensures gives { result ≡ name_at kind bytes.now }
    ensures within { IfSome result (λ p. (1 ≤ p.len) × (p.len ≤ 1 + length bytes.now)) }
{
    let [b, rest @ ..] = bytes else {
        return None;
    };
    if is_digit(*b) {
        return token(kind, 2 + run_len(rest, Run::Digits));
    }
    if is_name_byte(*b) {
        return token(kind, 2 + name_len(rest));
    }
    if *b != b'"' {
        return None;
    }
    let n = inner_len(rest)?;
    token(kind, 3 + n)
}

/// Does the text begin with two hexadecimal digits?
fn is_escape(bytes: &[u8]) -> bool
    ensures gives { result ≡ is_escape bytes.now }
    ensures within { IsTrue result → 2 ≤ length bytes.now }
{
    bytes.len() > 1 && is_hex_digit(bytes[0]) && is_hex_digit(bytes[1])
}

/// How many bytes of a metadata name the text begins with.
fn escaped_len(bytes: &[u8]) -> usize
    ensures gives { result ≡ escaped_len 0 bytes.now }
    ensures within { result ≤ length bytes.now }
{
    let mut n = 0;
    let mut rest = bytes;
    while let [b, after @ ..] = rest {
        if is_name_byte(*b) {
            n += 1;
            rest = after;
        } else if *b == b'\\' && is_escape(after) {
            n += 3;
            rest = &after[2..];
        } else {
            return n;
        }
    }
    n
}

/// What stands behind `!`, and `!` alone where nothing does.
#[tactic(auto, unfolding(crate::specs::Pieces::bang_at))]
pub fn bang_at(bytes: &[u8]) -> Option<Piece>
    ensures gives { result ≡ bang_at bytes.now }
    ensures within { IfSome result (λ p. (1 ≤ p.len) × (p.len ≤ 1 + length bytes.now)) }
{
    let [b, rest @ ..] = bytes else {
        return token(Kind::Bang, 1);
    };
    if is_digit(*b) {
        return token(Kind::MdNum, 2 + run_len(rest, Run::Digits));
    }
    if *b == b'"' {
        if let Some(n) = inner_len(rest) {
            return token(Kind::MdStr, 3 + n);
        }
    }
    let n = escaped_len(bytes);
    if n == 0 {
        token(Kind::Bang, 1)
    } else {
        token(Kind::MdName, 1 + n)
    }
}

/// Does the text begin with `dbg_` and a letter or `_`?
fn begins_record(bytes: &[u8]) -> bool
    ensures { result ≡ begins_record bytes.now }
{
    bytes.starts_with(b"dbg_") && bytes.len() > 4 && is_word_start(bytes[4])
}

/// What stands behind `#`.
#[tactic(auto, unfolding(crate::specs::Pieces::hash_at))]
pub fn hash_at(bytes: &[u8]) -> Option<Piece>
    ensures gives { result ≡ hash_at bytes.now }
    ensures within { IfSome result (λ p. (1 ≤ p.len) × (p.len ≤ 1 + length bytes.now)) }
{
    let n = run_len(bytes, Run::Digits);
    if n > 0 {
        return token(Kind::Group, 1 + n);
    }
    if begins_record(bytes) {
        return token(Kind::Record, 1 + run_len(bytes, Run::Record));
    }
    None
}
