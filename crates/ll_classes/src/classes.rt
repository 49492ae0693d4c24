//! The class of a token.

ghost use Rattle.std.specs.Prelude.{◌≡◌};
ghost use Rattle.std.specs.List.{list_all};
ghost use Rattle.ll_tokens.specs.Bytes.{is_digit};
ghost use Rattle.ll_classes.specs.Classes.{class_of, is_int_type, kind_class, other_word};

use crate::names::is_digit;
use crate::numbers::*;
use crate::words::Words;
use ll_tokens::kinds::Kind;

/// Are all of them digits?
fn are_digits(text: &[u8]) -> bool
    ensures { result ≡ list_all is_digit text.now }
{
    text.iter().all(|b| is_digit(*b))
}

/// Is it `i` and digits?
fn is_int_type(text: &[u8]) -> bool
    ensures { result ≡ is_int_type text.now }
{
    match text {
        [b'i', digits @ ..] => !digits.is_empty() && are_digits(digits),
        _ => false,
    }
}

/// The class of a word that has none of its own.
fn other_word(text: &[u8]) -> u16
    ensures { result ≡ other_word text.now }
{
    if is_int_type(text) { INTTYPE } else { WORD }
}

/// The class of the tokens of a kind whose text does not matter.
fn kind_class(kind: Kind) -> u16
    ensures { result ≡ kind_class kind }
{
    match kind {
        Kind::Global => GLOBAL,
        Kind::Local => LOCAL,
        Kind::Label => LABEL,
        Kind::Word => WORD,
        Kind::Int => INT,
        Kind::Str => STR,
        Kind::CStr => CSTR,
        Kind::Group => GROUP,
        Kind::Record => RECORD,
        Kind::MdNum => MDNUM,
        Kind::MdName => MDNAME,
        Kind::MdStr => MDSTR,
        Kind::Float => FLOAT,
        Kind::Comdat => REFUSED,
        Kind::Equals => EQUALS,
        Kind::Comma => COMMA,
        Kind::OpenParen => OPEN_PAREN,
        Kind::CloseParen => CLOSE_PAREN,
        Kind::OpenBracket => OPEN_BRACKET,
        Kind::CloseBracket => CLOSE_BRACKET,
        Kind::OpenBrace => OPEN_BRACE,
        Kind::CloseBrace => CLOSE_BRACE,
        Kind::Less => LESS,
        Kind::Greater => GREATER,
        Kind::Bang => BANG,
        Kind::Bar => BAR,
        Kind::Dots => DOTS,
    }
}

/// The class of a token of that kind and text.
#[tactic(auto, unfolding(crate::specs::Classes::class_of))]
pub fn class_of(words: &Words<'_>, kind: Kind, text: &[u8]) -> u16
    ensures { result ≡ class_of words.now kind text.now }
{
    match kind {
        Kind::Word => match words.class_of_word(text) {
            Some(class) => class,
            None => other_word(text),
        },
        Kind::MdName => match words.class_of_name(text) {
            Some(class) => class,
            None => MDNAME,
        },
        _ => kind_class(kind),
    }
}
