//! The tokens of a text.

ghost use Rattle.std.specs.Prelude.{◌≡◌, ◌≤◌, ◌<◌, ℕ, Some, None, Err, IfOk, IfSome, [], ◌∷◌, ◌+◌, ◌++◌, drop, length};
ghost use Rattle.ll_tokens.specs.Pieces.{piece_at, token};
ghost use Rattle.ll_tokens.specs.Runs.{EndsRun};
ghost use Rattle.ll_tokens.specs.Tokens.{tokens_of, IsBadAt};
ghost use Rattle.ll_tokens.specs.declared.token_err.TokenErr.TheVariants.{BadToken};

use crate::bytes::is_blank;
use crate::kinds::Kind;
use crate::piece::Piece;
use crate::pieces::piece_at;
use crate::plain::plain_at;
use crate::runs::name_len;
use crate::token_err::TokenErr;
use std::alloc::Global;

/// A token: its kind, and the places of its first byte and of the byte behind its last.
#[derive(Clone, Copy, PartialEq, Eq, Debug)]
pub struct Token {
    pub kind: Kind,
    pub start: u32,
    pub end: u32,
}

/// The token at a place of a text, if it is a plain one.
#[inline(always)]
fn plain_from(bytes: &[u8], at: usize) -> Option<(Kind, usize)>
    requires { at < length bytes.now }
    ensures gives { IfSome result (λ found. piece_at (drop at bytes.now) ≡ token found.0 found.1) }
    ensures within { IfSome result (λ found. (1 ≤ found.1) × (at + found.1 ≤ length bytes.now)) }
{
    let (_, text) = bytes.split_at(at);
    plain_at(bytes[at], &text[1..], text)
}

/// The piece at a place of a text, whatever it is. `name_end` is where the last run of bytes of a name that was measured
/// ends, so that none is measured once for each of its pieces.
#[inline(never)]
fn piece_from(bytes: &[u8], at: usize, name_end: &mut usize) -> Option<Piece>
    requires within { at ≤ length bytes.now }
    requires known { EndsRun bytes.now at name_end.old }
    ensures known { EndsRun bytes.now at name_end.new }
    ensures gives { result ≡ piece_at (drop at bytes.now) }
    ensures within { IfSome result (λ p. (1 ≤ p.len) × (at + p.len ≤ length bytes.now)) }
{
    let (_, rest) = bytes.split_at(at);
    if *name_end <= at {
        *name_end = at + name_len(rest);
    }
    piece_at(rest, *name_end - at)
}

/// Puts a token of that kind, place and length behind those found.
#[inline(always)]
fn put(found: &mut Vec<Token>, kind: Kind, at: usize, len: usize) -> Result<(), TokenErr>
    requires { at + len < 4294967296 }
    ensures found { IfOk result (λ _. found.new.items ≡ found.old.items ++ record { kind = kind; start = at; end = at + len } ∷ []) }
    ensures full { (place : ℕ) → result ≡ Err (BadToken place) → ⊥ }
{
    if found.len() >= found.capacity() {
        found.reserve(1)?;
    }
    found.push_reserved(Token {
        kind,
        start: at as u32,
        end: (at + len) as u32,
    });
    Ok(())
}

/// The tokens of a text.
#[inline(never)]
pub fn tokens(alloc: Global, bytes: &[u8]) -> Result<Vec<Token>, TokenErr>
    ensures found { IfOk result (λ v. tokens_of bytes.now ≡ Some v.items) }
    ensures bad { (place : ℕ) → result ≡ Err (BadToken place) → (tokens_of bytes.now ≡ None) × IsBadAt bytes.now place }
{
    if bytes.len() > u32::MAX as usize {
        return Err(TokenErr::NoMemory);
    }
    let mut found = Vec::new(alloc);
    let mut at = 0;
    let mut name_end = 0;
    while at < bytes.len() {
        if is_blank(bytes[at]) {
            at += 1;
            continue;
        }
        if let Some((kind, len)) = plain_from(bytes, at) {
            put(&mut found, kind, at, len)?;
            at += len;
            continue;
        }
        let Some(piece) = piece_from(bytes, at, &mut name_end) else {
            return Err(TokenErr::BadToken(at));
        };
        if let Some(kind) = piece.kind {
            put(&mut found, kind, at, piece.len)?;
        }
        at += piece.len;
    }
    Ok(found)
}
