//! What names and texts say between quotes.

ghost use Rattle.std.specs.Prelude.{◌≡◌, ◌==◌, IfOk};
ghost use Rattle.std.specs.List.{list_any};
ghost use Rattle.std.specs.Option.{option_map, option_and_then};
ghost use Rattle.std.specs.Cow.{cow_str_bytes};
ghost use Rattle.llvm_core.specs.Checked.{is_bad_name};
ghost use Rattle.ll_literals.specs.Escapes.{unescaped};
ghost use Rattle.ll_literals.specs.Names.{inside, if_text, if_name, text_said, quoted_name, name_said};

use crate::escapes::unescape;
use crate::names::bare_name;
use std::alloc::{AllocError, Global};
use std::borrow::CowStr;
use std::str;

/// What stands between the quotes of a text that begins and ends with one.
pub fn inside(text: &[u8]) -> Option<&[u8]>
    ensures { option_map (λ t. t.now) result ≡ inside text.now }
{
    match text {
        [b'"', inside @ .., b'"'] => Some(inside),
        _ => None,
    }
}

/// Whether there may be an escape: a backslash.
fn has_slash(bytes: &[u8]) -> bool
    ensures { result ≡ list_any (λ b. b == 92) bytes.now }
{
    bytes.contains(&b'\\')
}

/// The bytes as a text, where they are UTF-8.
pub(crate) fn as_text<'a>(bytes: &'a [u8]) -> Option<CowStr<'a>>
    ensures { option_map cow_str_bytes result ≡ if_text bytes.now }
{
    match str::from_utf8(bytes) {
        Ok(text) => Some(CowStr::Borrowed(text)),
        Err(_) => None,
    }
}

/// What bytes between quotes say by their escapes, where that is UTF-8: a text of its own.
fn unescaped_text<'a>(alloc: Global, inside: &[u8]) -> Result<Option<CowStr<'a>>, AllocError>
    ensures { IfOk result (λ t. option_map cow_str_bytes t ≡ if_text (unescaped inside.now)) }
{
    let mut bytes = Vec::with_capacity(alloc, inside.len())?;
    unescape(inside, &mut bytes)?;
    match String::from_utf8(bytes) {
        Ok(text) => Ok(Some(CowStr::Owned(text))),
        Err(_) => Ok(None),
    }
}

/// What bytes between quotes say, where that is UTF-8: these bytes themselves where no backslash stands among them.
fn said<'a>(alloc: Global, inside: &'a [u8]) -> Result<Option<CowStr<'a>>, AllocError>
    ensures { IfOk result (λ t. option_map cow_str_bytes t ≡ if_text (unescaped inside.now)) }
{
    if has_slash(inside) {
        unescaped_text(alloc, inside)
    } else {
        Ok(as_text(inside))
    }
}

/// The text that a token says between its quotes.
pub fn text_said<'a>(alloc: Global, text: &'a [u8]) -> Result<Option<CowStr<'a>>, AllocError>
    ensures { IfOk result (λ t. option_map cow_str_bytes t ≡ text_said text.now) }
{
    match inside(text) {
        Some(bytes) => said(alloc, bytes),
        None => Ok(None),
    }
}

/// Whether a text is no name: empty, or with a zero byte.
fn is_bad_name(name: &str) -> bool
    ensures { result ≡ is_bad_name name.now }
{
    name.is_empty() || name.as_bytes().contains(&0)
}

/// The text, where it is a name.
fn if_name(text: Option<CowStr<'_>>) -> Option<CowStr<'_>>
    ensures { option_map cow_str_bytes result ≡ option_and_then if_name (option_map cow_str_bytes text.entry) }
{
    match text {
        Some(name) => {
            if is_bad_name(name.as_str()) {
                None
            } else {
                Some(name)
            }
        }
        None => None,
    }
}

/// The name that quotes say.
#[inline(never)]
pub fn quoted_name<'a>(alloc: Global, text: &'a [u8]) -> Result<Option<CowStr<'a>>, AllocError>
    ensures { IfOk result (λ n. option_map cow_str_bytes n ≡ quoted_name text.now) }
{
    match text_said(alloc, text) {
        Ok(said) => Ok(if_name(said)),
        Err(e) => Err(e),
    }
}

/// The name that a written name says: a bare one says itself.
pub fn name_said<'a>(alloc: Global, text: &'a [u8]) -> Result<Option<CowStr<'a>>, AllocError>
    ensures { IfOk result (λ n. option_map cow_str_bytes n ≡ name_said text.now) }
{
    match bare_name(text) {
        Some(name) => Ok(Some(CowStr::Borrowed(name))),
        None => quoted_name(alloc, text),
    }
}
