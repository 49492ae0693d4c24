//! Which tokens may be written.

ghost use Rattle.std.specs.Prelude.{◌≡◌, ◌↔◌, ◌++◌, IsTrue};
ghost use Rattle.std.specs.List.{list_all};
ghost use Rattle.ll_tokens.specs.Bytes.{is_blank};
ghost use Rattle.ll_spacing.specs.Spacing.{IsWhole, IsApart};

use crate::following::may_follow;
use ll_tokens::bytes::is_blank;
use ll_tokens::kinds::Kind;
use ll_tokens::pieces::piece_at;
use ll_tokens::runs::name_len;

/// Is the text alone one token of that kind?
pub fn is_whole(kind: Kind, text: &[u8]) -> bool
    ensures { IsTrue result ↔ IsWhole kind text.now }
{
    match piece_at(text, name_len(text)) {
        Some(piece) => piece.kind == Some(kind) && piece.len == text.len(),
        None => false,
    }
}

/// Is there nothing but blanks?
pub fn are_blanks(bytes: &[u8]) -> bool
    ensures { result ≡ list_all is_blank bytes.now }
{
    bytes.iter().all(|b| is_blank(*b))
}

/// Behind the last token, does the text make no other of it?
pub fn is_apart(last: Option<Kind>, before: &[u8], text: &[u8]) -> bool
    ensures { IsTrue result ↔ IsApart last (before.now ++ text.now) }
{
    let Some(kind) = last else {
        return true;
    };
    if let [b, ..] = before {
        return may_follow(kind, *b);
    }
    if let [b, ..] = text {
        return may_follow(kind, *b);
    }
    true
}
