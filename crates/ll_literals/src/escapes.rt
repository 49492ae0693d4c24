//! Bytes between quotes: what they say, and how bytes are written there.

ghost use Rattle.std.specs.Prelude.{◌≡◌, ◌<◌, [], ◌∷◌, ◌++◌, true, length, IfNone, IfSome, OnOk};
ghost use Rattle.support.specs.Appended.{Keeps};
ghost use Rattle.ll_literals.specs.Escapes.{is_hex, hex_value, hex_digit, unescaped, escape, escaped};

use std::alloc::AllocError;

fn is_hex(b: u8) -> bool
    ensures { result ≡ is_hex b }
{
    b.is_ascii_digit() || (65 <= b && b <= 70) || (97 <= b && b <= 102)
}

/// What a hexadecimal digit stands for.
fn hex_value(b: u8) -> u8
    requires { is_hex b ≡ true }
    ensures value { result ≡ hex_value b }
    ensures few { result < 16 }
{
    if b.is_ascii_digit() {
        b - 48
    } else if b <= 70 {
        b - 55
    } else {
        b - 87
    }
}

/// A number below 16 as a digit, in capitals.
fn hex_digit(n: u8) -> u8
    requires { n < 16 }
    ensures { result ≡ hex_digit n }
{
    if n < 10 { 48 + n } else { 55 + n }
}

/// The byte that the first bytes say, and what stands behind them.
fn first_said(bytes: &[u8]) -> Option<(u8, &[u8])>
    ensures some { IfSome result (λ r. (unescaped bytes.now ≡ r.0 ∷ unescaped r.1.now) × (length r.1.now < length bytes.now)) }
    ensures none { IfNone result (bytes.now ≡ []) }
{
    let [b, rest @ ..] = bytes else {
        return None;
    };
    if *b != 92 {
        return Some((*b, rest));
    }
    let [c, behind @ ..] = rest else {
        return Some((92, rest));
    };
    if *c == 92 {
        return Some((92, behind));
    }
    let [d, last @ ..] = behind else {
        return Some((92, rest));
    };
    if is_hex(*c) && is_hex(*d) {
        Some((16 * hex_value(*c) + hex_value(*d), last))
    } else {
        Some((92, rest))
    }
}

/// Appends what bytes between quotes say.
pub fn unescape(inside: &[u8], out: &mut Vec<u8>) -> Result<(), AllocError>
    ensures { OnOk result (out.new.items ≡ out.old.items ++ unescaped inside.now) }
{
    let mut left = inside;
    while let Some((b, rest)) = first_said(left) {
        out.push(b)?;
        left = rest;
    }
    Ok(())
}

/// Appends bytes as they are written between quotes.
pub fn escape(bytes: &[u8], out: &mut Vec<u8>) -> Result<(), AllocError>
    ensures text { OnOk result (out.new.items ≡ out.old.items ++ escaped bytes.now) }
    ensures kept { Keeps out.old.items out.new.items }
{
    for b in bytes {
        put_escaped(*b, out)?;
    }
    Ok(())
}

/// Appends a byte as it is written between quotes.
fn put_escaped(b: u8, out: &mut Vec<u8>) -> Result<(), AllocError>
    ensures text { OnOk result (out.new.items ≡ out.old.items ++ escape b) }
    ensures kept { Keeps out.old.items out.new.items }
{
    if b == 92 {
        out.extend_from_slice(b"\\\\")
    } else if 32 <= b && b <= 126 && b != 34 {
        Ok(out.push(b)?)
    } else {
        out.extend_from_slice(&[92, hex_digit(b / 16), hex_digit(b % 16)])
    }
}
