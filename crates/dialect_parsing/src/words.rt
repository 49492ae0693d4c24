//! What a token of the text of a type or a constant says.

ghost use Rattle.std.specs.Prelude.{◌≡◌, IfOk};
ghost use Rattle.std.specs.Map.{lookup};
ghost use Rattle.std.specs.Str.{bytes_eq};
ghost use Rattle.dialect_parsing.specs.Symbols.{symbol_of, word_of, if_name, head_rows, floating_rows, constant_rows, inner_rows, sign_rows};

use crate::numbers::{is_digit, number};
use crate::symbol::Symbol;
use kinds::fill::Fill;
use kinds::types::Floating;
use std::alloc::{AllocError, Global};
use std::str;
use support::text::Text;

/// What a word that a type begins with says.
fn head(text: &[u8]) -> Option<Symbol>
    ensures { result ≡ lookup (bytes_eq text.now) head_rows }
{
    if text == b"llvm.void".as_slice() {
        return Some(Symbol::Void);
    }
    if text == b"builtin.integer".as_slice() {
        return Some(Symbol::Integer);
    }
    if text == b"llvm.ptr".as_slice() {
        return Some(Symbol::Pointer);
    }
    if text == b"llvm.func".as_slice() {
        return Some(Symbol::Func);
    }
    if text == b"llvm.array".as_slice() {
        return Some(Symbol::Array);
    }
    if text == b"llvm.vector".as_slice() {
        return Some(Symbol::Vector);
    }
    if text == b"llvm.struct".as_slice() {
        return Some(Symbol::Struct);
    }
    None
}

/// What the word of a floating-point type says.
fn floating(text: &[u8]) -> Option<Symbol>
    ensures { result ≡ lookup (bytes_eq text.now) floating_rows }
{
    if text == b"builtin.fp16".as_slice() {
        return Some(Symbol::Floating(Floating::Half));
    }
    if text == b"builtin.bf16".as_slice() {
        return Some(Symbol::Floating(Floating::BFloat));
    }
    if text == b"builtin.fp32".as_slice() {
        return Some(Symbol::Floating(Floating::Float));
    }
    if text == b"builtin.fp64".as_slice() {
        return Some(Symbol::Floating(Floating::Double));
    }
    None
}

/// What a word that a constant begins with says, where no type does.
fn constant(text: &[u8]) -> Option<Symbol>
    ensures { result ≡ lookup (bytes_eq text.now) constant_rows }
{
    if text == b"llvm.zero".as_slice() {
        return Some(Symbol::Filled(Fill::Zero));
    }
    if text == b"llvm.undef".as_slice() {
        return Some(Symbol::Filled(Fill::Undef));
    }
    if text == b"llvm.poison".as_slice() {
        return Some(Symbol::Filled(Fill::Poison));
    }
    if text == b"llvm.bytes".as_slice() {
        return Some(Symbol::Bytes);
    }
    if text == b"llvm.aggregate".as_slice() {
        return Some(Symbol::Aggregate);
    }
    if text == b"llvm.splat".as_slice() {
        return Some(Symbol::Splat);
    }
    None
}

/// What a word inside a type says.
fn inner(text: &[u8]) -> Option<Symbol>
    ensures { result ≡ lookup (bytes_eq text.now) inner_rows }
{
    if text == b"variadic".as_slice() {
        return Some(Symbol::Variadic);
    }
    if text == b"true".as_slice() {
        return Some(Symbol::Truth(true));
    }
    if text == b"false".as_slice() {
        return Some(Symbol::Truth(false));
    }
    if text == b"vscale".as_slice() {
        return Some(Symbol::Vscale);
    }
    if text == b"x".as_slice() {
        return Some(Symbol::Times);
    }
    if text == b"packed".as_slice() {
        return Some(Symbol::Packed);
    }
    None
}

/// What a sign says.
fn sign(text: &[u8]) -> Option<Symbol>
    ensures { result ≡ lookup (bytes_eq text.now) sign_rows }
{
    match text {
        b"(" => Some(Symbol::OpenParen),
        b")" => Some(Symbol::CloseParen),
        b"[" => Some(Symbol::OpenBracket),
        b"]" => Some(Symbol::CloseBracket),
        b"{" => Some(Symbol::OpenBrace),
        b"}" => Some(Symbol::CloseBrace),
        b"<" => Some(Symbol::Less),
        b">" => Some(Symbol::Greater),
        b"," => Some(Symbol::Comma),
        b":" => Some(Symbol::Colon),
        b"=" => Some(Symbol::Equals),
        _ => None,
    }
}

/// What a word or a sign says.
fn word(text: &[u8]) -> Option<Symbol>
    ensures { result ≡ word_of text.now }
{
    sign(text)
        .or(head(text))
        .or(floating(text))
        .or(constant(text))
        .or(inner(text))
}

/// What a name says.
fn name(alloc: Global, text: &[u8]) -> Result<Option<Symbol>, AllocError>
    ensures { IfOk result (λ s. s ≡ if_name text.now) }
{
    match str::from_utf8(text) {
        Ok(name) => Ok(Some(Symbol::Name(Text::copy(alloc, name)?))),
        Err(_) => Ok(None),
    }
}

/// What a token says, and nothing where it stands in no type and no constant.
pub fn symbol_of(alloc: Global, text: &[u8]) -> Result<Option<Symbol>, AllocError>
    ensures { IfOk result (λ s. s ≡ symbol_of text.now) }
{
    match text {
        [] => Ok(None),
        [first, behind @ ..] => {
            if is_digit(*first) {
                Ok(number(text).map(Symbol::Number))
            } else if *first == b'i' {
                Ok(number(behind).map(Symbol::Bits))
            } else if *first == b'@' {
                name(alloc, behind)
            } else {
                Ok(word(text))
            }
        }
    }
}
