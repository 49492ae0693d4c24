//! A piece of a text: a token, or blanks and comments.

ghost use Rattle.std.specs.Prelude.{◌≡◌};
ghost use Rattle.ll_tokens.specs.Pieces.{blank, token};

use crate::kinds::Kind;

/// A piece at the front of a text, and its number of bytes.
#[derive(Clone, Copy)]
pub struct Piece {
    /// Blanks and comments have none.
    pub kind: Option<Kind>,
    pub len: usize,
}

/// Blanks or a comment.
pub fn blank(len: usize) -> Option<Piece>
    ensures { result ≡ blank len }
{
    Some(Piece { kind: None, len })
}

/// A token.
pub fn token(kind: Kind, len: usize) -> Option<Piece>
    ensures { result ≡ token kind len }
{
    Some(Piece {
        kind: Some(kind),
        len,
    })
}
