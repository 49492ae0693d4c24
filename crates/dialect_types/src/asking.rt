//! The identifier that a name asks for.

ghost use Rattle.std.specs.Prelude.{◌≡◌, [], ◌∷◌, ◌++◌, if◌then◌else◌, string_bytes, IfOk, IsTrue, OnOk};
ghost use Rattle.std.specs.List.{list_all};
ghost use Rattle.dialect_types.specs.Names.{is_name_byte};
ghost use Rattle.dialect_types.specs.Legalised.{as_name_byte, asked, is_headless};

use std::alloc::{AllocError, Global};
use support::text::Text;

/// The identifier that a name asks for: `_` for each byte that none has, and `_` before nothing and before a digit.
pub fn asked_text(alloc: Global, name: &str) -> Result<Text, AllocError>
    ensures { IfOk result (λ t. t ≡ asked name.now) }
{
    let bytes = name.as_bytes();
    let mut all = String::with_capacity(alloc, bytes.len().saturating_add(1))?;
    begin(bytes, &mut all)?;
    for byte in bytes {
        all.push(name_byte(*byte) as char)?;
    }
    Text::copy(alloc, all.as_str())
}

/// Appends `_`, where no identifier begins as the name does.
fn begin(bytes: &[u8], all: &mut String) -> Result<(), AllocError>
    ensures { OnOk result (string_bytes all.new ≡ string_bytes all.old ++ (if is_headless bytes.now then 95 ∷ [] else [])) }
{
    if is_headless(bytes) {
        all.push('_')
    } else {
        Ok(())
    }
}

/// Whether a name is empty or begins with a digit.
fn is_headless(bytes: &[u8]) -> bool
    ensures { result ≡ is_headless bytes.now }
{
    match bytes.first() {
        None => true,
        Some(byte) => byte.is_ascii_digit(),
    }
}

/// Whether a name asks for itself, as most names do: no text is made for such a one.
pub fn asks_itself(name: &str) -> bool
    ensures { IsTrue result → asked name.now ≡ name.now }
{
    let bytes = name.as_bytes();
    !is_headless(bytes) && are_name_bytes(bytes)
}

/// Whether an identifier can have each byte.
fn are_name_bytes(bytes: &[u8]) -> bool
    ensures { result ≡ list_all is_name_byte bytes.now }
{
    bytes.iter().all(|byte| is_name_byte(*byte))
}

/// Whether an identifier can have a byte.
fn is_name_byte(byte: u8) -> bool
    ensures { result ≡ is_name_byte byte }
{
    byte.is_ascii_alphanumeric() || byte == b'_'
}

/// A byte that an identifier can have, or `_` in place of one that none has.
fn name_byte(byte: u8) -> u8
    ensures { result ≡ as_name_byte byte }
{
    if is_name_byte(byte) { byte } else { b'_' }
}
