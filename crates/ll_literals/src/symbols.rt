//! Names of symbols and structs, as their tokens write them.

ghost use Rattle.std.specs.Prelude.{◌≡◌, IfOk, drop};
ghost use Rattle.std.specs.Option.{option_map};
ghost use Rattle.std.specs.Cow.{cow_str_bytes};
ghost use Rattle.ll_literals.specs.Names.{symbol_name};

use crate::numbers::are_digits;
use crate::quotes::{as_text, name_said};
use std::alloc::{AllocError, Global};
use std::borrow::CowStr;

/// What stands behind the first byte of a token.
fn behind_sign(text: &[u8]) -> &[u8]
    ensures { result.now ≡ drop 1 text.now }
{
    match text {
        [_, written @ ..] => written,
        [] => text,
    }
}

/// The name of a symbol or a struct, by its token: `@` or `%`, and a name, or digits, which are then its name.
pub fn symbol_name<'a>(alloc: Global, text: &'a [u8]) -> Result<Option<CowStr<'a>>, AllocError>
    ensures { IfOk result (λ n. option_map cow_str_bytes n ≡ symbol_name text.now) }
{
    let written = behind_sign(text);
    if are_digits(written) {
        Ok(as_text(written))
    } else {
        name_said(alloc, written)
    }
}
