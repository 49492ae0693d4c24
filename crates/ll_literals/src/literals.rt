//! Integer literals in LLVM text.

ghost use Rattle.std.specs.Prelude.{◌≡◌, ◌<◌, ◌≤◌, ◌+◌, ◌*◌, ◌^◌, ◌↔◌, ℕ, IfSome};
ghost use Rattle.llvm_core.specs.Parts.{IsIntAt};
ghost use Rattle.ll_literals.specs.Numbers.{number_of};
ghost use Rattle.ll_literals.specs.Literals.{at_width, if_number, negative_at_width, int_value, const_value};

use crate::numbers::number;

/// The greatest integer at a width, of at most 128 bits.
fn greatest(width: u32) -> u128
    ensures bits { width < 128 → result + 1 ≡ 2 ^ width }
    ensures most { 128 ≤ width → result + 1 ≡ 2 ^ 128 }
{
    if width < 128 {
        (1u128 << width) - 1
    } else {
        u128::MAX
    }
}

/// The greatest number of which a width has the negative; past 128 bits that is 0.
fn most_negated(width: u32) -> u128
    ensures none { 128 < width → result ≡ 0 }
    ensures half { width ≤ 128 → (n : ℕ) → n ≤ result ↔ 2 * n ≤ 2 ^ width }
{
    if width == 0 || width > 128 {
        return 0;
    }
    greatest(width) / 2 + 1
}

/// The natural number that a text says, where it is one of a width.
fn natural(text: &[u8], width: u32) -> Option<u128>
    ensures { result ≡ if_number (at_width width) (number_of text.now) }
{
    number(text, greatest(width))
}

/// The negative of the number that digits say, where it is one of a width, in two's complement.
fn negative(digits: &[u8], width: u32) -> Option<u128>
    ensures { result ≡ if_number (negative_at_width width) (number_of digits.now) }
{
    let n = number(digits, most_negated(width))?;
    if n == 0 {
        return Some(0);
    }
    Some(greatest(width) - (n - 1))
}

/// The value of an integer literal at a width, in two's complement.
fn int_value(text: &[u8], width: u32) -> Option<u128>
    ensures { result ≡ int_value width text.now }
{
    match text {
        [b'-', digits @ ..] => negative(digits, width),
        _ => natural(text, width),
    }
}

/// The value of a literal at a width: of an integer, `true` or `false`.
pub fn const_value(text: &[u8], width: u32) -> Option<u128>
    ensures value { result ≡ const_value width text.now }
    ensures fits { IfSome result (IsIntAt width) }
{
    if text == b"true".as_slice() {
        return (width == 1).then_some(1);
    }
    if text == b"false".as_slice() {
        return (width == 1).then_some(0);
    }
    int_value(text, width)
}
