//! Numbers in LLVM text, in decimal.

ghost use Rattle.std.specs.Prelude.{◌≡◌, Some};
ghost use Rattle.std.specs.List.{list_all};
ghost use Rattle.llvm_core.specs.Names.{is_digit};
ghost use Rattle.ll_literals.specs.Numbers.{is_digits, number_of, value_after, up_to};

/// A decimal digit.
pub(crate) fn is_digit(b: u8) -> bool
    ensures { result ≡ is_digit b }
{
    b >= b'0' && b <= b'9'
}

/// Decimal digits, each byte of them.
fn all_digits(bytes: &[u8]) -> bool
    ensures { result ≡ list_all is_digit bytes.now }
{
    bytes.iter().all(|b| is_digit(*b))
}

/// Whether a text is digits, one at least.
pub(crate) fn are_digits(text: &[u8]) -> bool
    ensures { result ≡ is_digits text.now }
{
    !text.is_empty() && all_digits(text)
}

/// The number that decimal digits say, where it is at most `most`.
fn value_up_to(digits: &[u8], most: u128) -> Option<u128>
    ensures { result ≡ up_to most (Some (value_after 0 digits.now)) }
{
    let mut value: u128 = 0;
    for b in digits {
        let tens = value.checked_mul(10)?;
        value = tens.checked_add(u128::from(b.saturating_sub(b'0')))?;
        if value > most {
            return None;
        }
    }
    Some(value)
}

#[tactic(auto, using(crate::proofs::NumberLaws::number_of_digits))]
/// The number that a text of decimal digits says, where it is at most `most`.
pub fn number(text: &[u8], most: u128) -> Option<u128>
    ensures { result ≡ up_to most (number_of text.now) }
{
    if text.is_empty() || !all_digits(text) {
        return None;
    }
    value_up_to(text, most)
}
