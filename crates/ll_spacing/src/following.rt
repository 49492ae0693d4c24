//! Which bytes may stand directly behind a token.

ghost use Rattle.std.specs.Prelude.{◌≡◌};
ghost use Rattle.ll_spacing.specs.Following.{goes_on, may_follow};

use ll_tokens::bytes::{is_digit, is_name_byte, is_word_start};
use ll_tokens::kinds::Kind;

/// May the byte, behind a token of that kind, make another token of it?
fn goes_on(kind: Kind, byte: u8) -> bool
    ensures { result ≡ goes_on kind byte }
{
    match kind {
        Kind::Global | Kind::Local => is_name_byte(byte),
        Kind::Word => is_name_byte(byte) || byte == b':' || byte == b'"',
        Kind::Int | Kind::Float | Kind::Comdat | Kind::Dots => is_name_byte(byte) || byte == b':',
        Kind::Str => byte == b':',
        Kind::Group | Kind::MdNum => is_digit(byte),
        Kind::Record => is_word_start(byte),
        Kind::MdName => is_name_byte(byte) || byte == b'\\',
        Kind::Bang => is_name_byte(byte) || byte == b'\\' || byte == b'"',
        _ => false,
    }
}

/// May the byte stand directly behind a token of that kind?
pub fn may_follow(kind: Kind, byte: u8) -> bool
    ensures { result ≡ may_follow kind byte }
{
    !goes_on(kind, byte)
}
