//! The piece that a text begins with.

ghost use Rattle.std.specs.Prelude.{◌≡◌, ◌+◌, ◌≤◌, length, IfSome};
ghost use Rattle.std.specs.List.{prefix_len};
ghost use Rattle.ll_tokens.specs.Bytes.{is_name_byte};
ghost use Rattle.ll_tokens.specs.Pieces.{sign_at, piece_at};

use crate::bytes::{is_blank, is_name_byte};
use crate::kinds::Kind;
use crate::names::{bang_at, hash_at, name_at};
use crate::piece::{Piece, blank, token};
use crate::runs::{Run, run_len};
use crate::strings::string_at;
use crate::words::bare_at;

/// A sign that is a token of one byte.
#[tactic(auto, unfolding(crate::specs::Pieces::sign_at))]
fn sign_at(b: u8) -> Option<Piece>
    ensures gives { result ≡ sign_at b }
    ensures within { IfSome result (λ p. p.len ≡ 1) }
{
    match b {
        b'=' => token(Kind::Equals, 1),
        b',' => token(Kind::Comma, 1),
        b'(' => token(Kind::OpenParen, 1),
        b')' => token(Kind::CloseParen, 1),
        b'[' => token(Kind::OpenBracket, 1),
        b']' => token(Kind::CloseBracket, 1),
        b'{' => token(Kind::OpenBrace, 1),
        b'}' => token(Kind::CloseBrace, 1),
        b'<' => token(Kind::Less, 1),
        b'>' => token(Kind::Greater, 1),
        b'|' => token(Kind::Bar, 1),
        _ => None,
    }
}

/// The piece that the text begins with. `run` is how many bytes of a name it begins with.
#[tactic(auto, unfolding(crate::specs::Pieces::piece_at))]
pub fn piece_at(bytes: &[u8], run: usize) -> Option<Piece>
    requires { run ≡ prefix_len is_name_byte bytes.now }
    ensures gives { result ≡ piece_at bytes.now }
    ensures within { IfSome result (λ p. (1 ≤ p.len) × (p.len ≤ length bytes.now)) }
{
    let [b, rest @ ..] = bytes else {
        return None;
    };
    let b = *b;
    if is_blank(b) {
        return blank(1);
    }
    match b {
        b';' => blank(1 + run_len(rest, Run::Line)),
        b'@' => name_at(Kind::Global, rest),
        b'%' => name_at(Kind::Local, rest),
        b'"' => string_at(rest),
        b'!' => bang_at(rest),
        b'#' => hash_at(rest),
        _ if is_name_byte(b) => bare_at(bytes, b, rest, run),
        _ => sign_at(b),
    }
}
