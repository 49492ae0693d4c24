//! Numbers in decimal.

ghost use Rattle.std.specs.Prelude.{◌≡◌, ◌<◌, Some};
ghost use Rattle.std.specs.List.{list_all};
ghost use Rattle.kinds.specs.Names.{is_digit};
ghost use Rattle.dialect_parsing.specs.Numbers.{number_of, value_after, if_small};

/// A decimal digit.
pub fn is_digit(b: u8) -> bool
    ensures { result ≡ is_digit b }
{
    b >= b'0' && b <= b'9'
}

/// Decimal digits, each byte of them.
fn are_digits(bytes: &[u8]) -> bool
    ensures { result ≡ list_all is_digit bytes.now }
{
    bytes.iter().all(|b| is_digit(*b))
}

/// The number that digits say, where it is below 2^64.
fn value(digits: &[u8]) -> Option<u64>
    ensures { result ≡ if_small (value_after 0 digits.now) }
{
    let mut value: u128 = 0;
    for b in digits {
        value = value * 10 + u128::from(b.saturating_sub(b'0'));
        if value > u128::from(u64::MAX) {
            return None;
        }
    }
    Some(value as u64)
}

/// The number of a text of digits, where it is below 2^64.
#[tactic(auto, using(crate::proofs::NumberLaws::number_of_digits))]
pub fn number(text: &[u8]) -> Option<u64>
    ensures { result ≡ number_of text.now }
{
    if text.is_empty() || !are_digits(text) {
        return None;
    }
    value(text)
}
