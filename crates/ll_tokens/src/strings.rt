//! Strings, from the quote that begins one to the quote that ends it.

ghost use Rattle.std.specs.Prelude.{◌≡◌, ◌+◌, ◌≤◌, ◌<◌, length, true, false, IfSome, IfNone, slice_index, ◌==◌};
ghost use Rattle.std.specs.List.{prefix_len};
ghost use Rattle.ll_tokens.specs.Bytes.{in_string};
ghost use Rattle.ll_tokens.specs.Pieces.{closes, string_at};

use crate::kinds::Kind;
use crate::piece::{Piece, token};
use crate::runs::{Run, run_len};

/// Behind the quote that begins a string: how many bytes there are up to the quote that ends it.
pub fn inner_len(bytes: &[u8]) -> Option<usize>
    ensures found { IfSome result (λ n. (n ≡ prefix_len in_string bytes.now) × (n < length bytes.now) × (closes bytes.now ≡ true)) }
    ensures none { IfNone result (closes bytes.now ≡ false) }
{
    let n = run_len(bytes, Run::String);
    if n < bytes.len() && bytes[n] == b'"' {
        Some(n)
    } else {
        None
    }
}

/// A string, or a label where a colon follows, behind its first quote.
#[tactic(auto, unfolding(crate::specs::Pieces::string_at))]
pub fn string_at(bytes: &[u8]) -> Option<Piece>
    ensures gives { result ≡ string_at bytes.now }
    ensures within { IfSome result (λ p. (1 ≤ p.len) × (p.len ≤ 1 + length bytes.now)) }
{
    let n = inner_len(bytes)?;
    if n + 1 < bytes.len() && bytes[n + 1] == b':' {
        token(Kind::Label, 3 + n)
    } else {
        token(Kind::Str, 2 + n)
    }
}
