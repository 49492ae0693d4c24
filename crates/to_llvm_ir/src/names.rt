//! The names that blocks and results get.

ghost use Rattle.std.specs.Prelude.{◌≡◌, ◌<◌, ◌^◌, ◌++◌, ℕ, IfOk, IfSome};
ghost use Rattle.std.specs.Fmt.{decimal};
ghost use Rattle.std.specs.Option.{option_copied};
ghost use Rattle.kinds.specs.Names.{IsGoodOrNone};
ghost use Rattle.to_llvm_ir.specs.Exported.{block_name, value_name};

use dialect_types::identifier::Identifier;
use itoa::Buffer;
use std::alloc::{AllocError, Global};
use support::short_text::ShortText;
use support::text::Text;

/// A name, a word behind it, and a number in decimal. A short one asks for no memory.
fn joined(alloc: Global, name: &str, word: &str, number: u64) -> Result<Text, AllocError>
    ensures { IfOk result (λ text. text ≡ name.now ++ (word.now ++ decimal number)) }
{
    let mut text = Text::copy(alloc, name)?;
    text.push_str(alloc, word)?;
    text.push_str(alloc, Buffer::new().format(number))?;
    Ok(text)
}

/// A name, a word behind it, and a number in decimal, where they are short together.
#[inline(always)]
fn short_joined(name: &str, word: &str, number: u64) -> Option<ShortText>
    ensures { IfSome result (λ text. text ≡ name.now ++ (word.now ++ decimal number)) }
{
    let mut text = ShortText::empty();
    if !text.push_str(name) {
        return None;
    }
    if !text.push_str(word) {
        return None;
    }
    if !text.push_str(Buffer::new().format(number)) {
        return None;
    }
    Some(text)
}

/// The name of the block at a place, by its label where it has one.
pub fn block_name(alloc: Global, label: Option<&Identifier>, place: u32) -> Result<Text, AllocError>
    ensures name { IfOk result (λ name. name ≡ block_name (option_copied label.entry) place) }
    ensures good { (k : ℕ) → k < 2 ^ 64 → IsGoodOrNone (block_name (option_copied label.entry) k) }
{
    match label {
        Some(label) => joined(alloc, label.as_str(), "_block", u64::from(place)),
        None => joined(alloc, "", "block", u64::from(place)),
    }
}

/// The name of the result of a number, by its given name where it has one.
pub fn value_name(
    alloc: Global,
    given: Option<&Identifier>,
    number: u64,
) -> Result<Text, AllocError>
    ensures name { IfOk result (λ name. name ≡ value_name (option_copied given.entry) number) }
    ensures good { (k : ℕ) → k < 2 ^ 64 → IsGoodOrNone (value_name (option_copied given.entry) k) }
{
    match given {
        Some(given) => joined(alloc, given.as_str(), "_v", number),
        None => joined(alloc, "", "v", number),
    }
}

/// The name of the result of a number, by its given name where it has one, where it is short.
#[inline(always)]
pub fn short_value_name(given: Option<&Identifier>, number: u64) -> Option<ShortText>
    ensures name { IfSome result (λ name. name ≡ value_name (option_copied given.entry) number) }
    ensures good { (k : ℕ) → k < 2 ^ 64 → IsGoodOrNone (value_name (option_copied given.entry) k) }
{
    match given {
        Some(given) => short_joined(given.as_str(), "_v", number),
        None => short_joined("", "v", number),
    }
}
