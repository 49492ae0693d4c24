//! Names and numbers, as tokens write them.

ghost use Rattle.std.specs.Prelude.{◌≡◌, ◌-◌, Some, IfOk, IfSome, IfNone, length, take, drop};
ghost use Rattle.std.specs.Option.{option_map};
ghost use Rattle.std.specs.Cow.{cow_str_bytes};
ghost use Rattle.ll_lines.specs.Views.{text_of};
ghost use Rattle.ll_literals.specs.Names.{quoted_name};
ghost use Rattle.ll_bodies.specs.Scopes as spec;
ghost use Rattle.ll_bodies.specs.Scopes.{key_of, local_key, label_key, key_name, written_name};
ghost use Rattle.ll_bodies.specs.Meaning.{source_name};
ghost use Rattle.ll_bodies.specs.ScopeViews.{key_view, IsNotPlain};

use crate::scope::Key;
use ll_lines::names::Name;
use ll_literals::names::bare_name;
use ll_literals::numbers::number;
use ll_literals::quotes::{quoted_name, text_said};
use std::alloc::{AllocError, Global};
use std::borrow::CowStr;

/// What is written of a local: its token without `%`.
pub fn of_local(text: &[u8]) -> &[u8]
    ensures { result.now ≡ drop 1 text.now }
{
    match text {
        [_, written @ ..] => written,
        [] => text,
    }
}

/// What is written of a label: its token without the colon.
pub fn of_label(text: &[u8]) -> &[u8]
    ensures { result.now ≡ take (length text.now - 1) text.now }
{
    match text {
        [written @ .., _] => written,
        [] => text,
    }
}

/// The key that a bare name or digits say. Where there is none, a name between quotes may say one.
pub fn plain_key(written: &[u8]) -> Option<Key<'_>>
    ensures key { IfSome result (λ k. key_of written.now ≡ Some (key_view k)) }
    ensures none { IfNone result (IsNotPlain written.now) }
{
    if let Some(name) = bare_name(written) {
        return Some(Key::Named(name));
    }
    match number(written, u128::from(u32::MAX)) {
        Some(n) => Some(Key::Numbered(n as u32)),
        None => None,
    }
}

/// The name that a module keeps of what is defined under the name that quotes say, empty where they say none.
#[inline(never)]
fn kept_quoted<'a>(alloc: Global, written: &'a [u8]) -> Result<CowStr<'a>, AllocError>
    ensures { IfOk result (λ n. cow_str_bytes n ≡ key_name (option_map spec.Named (quoted_name written.now))) }
{
    match quoted_name(alloc, written) {
        Ok(Some(name)) => Ok(name),
        Ok(None) => Ok(CowStr::Borrowed("")),
        Err(e) => Err(e),
    }
}

/// The name that a module keeps of what is defined under what is written: a number is no name.
fn kept<'a>(alloc: Global, written: &'a [u8]) -> Result<CowStr<'a>, AllocError>
    ensures { IfOk result (λ n. cow_str_bytes n ≡ key_name (key_of written.now)) }
{
    match bare_name(written) {
        Some(name) => Ok(CowStr::Borrowed(name)),
        None => kept_quoted(alloc, written),
    }
}

/// The name that a module keeps of a parameter or a result, empty where none is written.
pub fn local_name<'a>(
    alloc: Global,
    bytes: &'a [u8],
    name: Option<Name>,
) -> Result<CowStr<'a>, AllocError>
    ensures { IfOk result (λ n. cow_str_bytes n ≡ written_name local_key (option_map (text_of bytes.now) name)) }
{
    match name {
        Some(token) => kept(alloc, of_local(token.text(bytes))),
        None => Ok(CowStr::Borrowed("")),
    }
}

/// The name that a module keeps of a block, empty where none is written.
pub fn label_name<'a>(
    alloc: Global,
    bytes: &'a [u8],
    label: Option<Name>,
) -> Result<CowStr<'a>, AllocError>
    ensures { IfOk result (λ n. cow_str_bytes n ≡ written_name label_key (option_map (text_of bytes.now) label)) }
{
    match label {
        Some(token) => kept(alloc, of_label(token.text(bytes))),
        None => Ok(CowStr::Borrowed("")),
    }
}

/// The name that a file says of its module, empty where none is written.
pub fn source_name<'a>(
    alloc: Global,
    bytes: &'a [u8],
    source: Option<Name>,
) -> Result<Option<CowStr<'a>>, AllocError>
    ensures { IfOk result (λ n. option_map cow_str_bytes n ≡ source_name (option_map (text_of bytes.now) source)) }
{
    match source {
        Some(token) => text_said(alloc, token.text(bytes)),
        None => Ok(Some(CowStr::Borrowed(""))),
    }
}
