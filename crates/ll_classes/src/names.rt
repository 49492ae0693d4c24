//! Names of metadata, in which `\XX` stands for a byte.

ghost use Rattle.std.specs.Prelude.{◌≡◌, ◌≤◌, ◌<◌, length};
ghost use Rattle.std.specs.Str.{bytes_eq};
ghost use Rattle.ll_tokens.specs.Bytes.{is_digit, is_hex_digit};
ghost use Rattle.ll_classes.specs.Names.{digit_value, is_escaped, said, said_len, unescaped};

/// A decimal digit.
pub fn is_digit(b: u8) -> bool
    ensures { result ≡ is_digit b }
{
    b >= b'0' && b <= b'9'
}

/// A hexadecimal digit.
fn is_hex_digit(b: u8) -> bool
    ensures { result ≡ is_hex_digit b }
{
    is_digit(b) || (b >= b'A' && b <= b'F') || (b >= b'a' && b <= b'f')
}

/// What a hexadecimal digit says.
fn digit_value(b: u8) -> u8
    ensures gives { result ≡ digit_value b }
    ensures small { result < 16 }
{
    let low = b % 16;
    if is_digit(b) { low } else { (low + 9) % 16 }
}

/// Does the text begin with a backslash and two hexadecimal digits?
fn is_escaped(text: &[u8]) -> bool
    ensures { result ≡ is_escaped text.now }
{
    text.len() > 2 && text[0] == b'\\' && is_hex_digit(text[1]) && is_hex_digit(text[2])
}

/// The byte that a text begins with.
#[tactic(auto, unfolding(crate::specs::Names::said))]
fn said(text: &[u8]) -> u8
    requires { 0 < length text.now }
    ensures { result ≡ said text.now }
{
    if is_escaped(text) && text.len() > 2 {
        16 * digit_value(text[1]) + digit_value(text[2])
    } else {
        text[0]
    }
}

/// How many bytes that byte is written in.
#[tactic(auto, unfolding(crate::specs::Names::said_len))]
fn said_len(text: &[u8]) -> usize
    requires { 0 < length text.now }
    ensures gives { result ≡ said_len text.now }
    ensures some { 1 ≤ result }
    ensures within { result ≤ length text.now }
{
    if is_escaped(text) { 3 } else { 1 }
}

/// Does a name that is written so say that?
pub fn says(written: &[u8], name: &[u8]) -> bool
    ensures { result ≡ bytes_eq (unescaped written.now) name.now }
{
    let mut left = written;
    for &byte in name {
        if left.is_empty() {
            return false;
        }
        if said(left) != byte {
            return false;
        }
        let (_, rest) = left.split_at(said_len(left));
        left = rest;
    }
    left.is_empty()
}
