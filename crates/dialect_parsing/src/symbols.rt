//! The symbols of a text, one by one.

ghost use Rattle.std.specs.Prelude.{◌≡◌, true, false, List, ◌≤◌, ◌<◌, ◌+◌, ◌∷◌, [], ℕ, None, Some, Err, length, take, drop, IfOk, IfSome, MatchOption};
ghost use Rattle.std.specs.List.{All, prefix_len};
ghost use Rattle.dialect_parsing.specs.Reading.{IsNoName};
ghost use Rattle.dialect_parsing.specs.Symbols.{symbols_of};
ghost use Rattle.dialect_parsing.specs.Tokens.{is_blank, is_sign, is_run_byte, token_len};
ghost use Rattle.dialect_parsing.specs.declared.parse_err.ParseErr.TheVariants.{Syntax};
ghost use Rattle.dialect_parsing.specs.declared.symbol.Symbol.{Symbol};
ghost use Rattle.dialect_parsing.specs.declared.symbol.Symbol.TheVariants as S;

use crate::numbers::is_digit;
use crate::parse_err::ParseErr;
use crate::symbol::Symbol;
use crate::words::symbol_of;
use std::alloc::Global;
use std::marker::Model;

/// Space, tab, CR or LF.
fn is_blank(b: u8) -> bool
    ensures { result ≡ is_blank b }
{
    b == b' ' || b == b'\t' || b == b'\r' || b == b'\n'
}

/// A token of one byte.
fn is_sign(b: u8) -> bool
    ensures { result ≡ is_sign b }
{
    match b {
        b'{' | b'}' | b'(' | b')' | b'[' | b']' | b'<' | b'>' | b'=' | b',' | b':' | b'!' | b'?' =>
            true,
        _ => false,
    }
}

/// A byte of a run.
fn is_run_byte(b: u8) -> bool
    ensures { result ≡ is_run_byte b }
{
    match b {
        b'A'..=b'Z' | b'a'..=b'z' => true,
        b'0'..=b'9' => true,
        b'_' | b'.' | b'-' | b'@' | b'%' | b'^' | b'#' | b'$' => true,
        _ => false,
    }
}

/// How many bytes of a run a text begins with.
fn run_len(bytes: &[u8]) -> usize
    ensures len { result ≡ prefix_len is_run_byte bytes.now }
    ensures within { result ≤ length bytes.now }
{
    bytes.iter().take_while(|b| is_run_byte(**b)).count()
}

/// How many bytes the token has that a text begins with, 0 if it begins with none.
fn token_len(bytes: &[u8]) -> usize
    ensures len { result ≡ token_len bytes.now }
    ensures within { result ≤ length bytes.now }
{
    match bytes {
        [first, ..] if !is_run_byte(*first) => usize::from(is_sign(*first)),
        _ => run_len(bytes),
    }
}

/// The symbols of a text, and beside each the place of its first byte.
#[derive(Drop)]
pub struct Found {
    pub symbols: Vec<Symbol>,
    pub places: Vec<u32>,
}

/// What the tokens of a text say.
pub fn symbols(alloc: Global, bytes: &[u8]) -> Result<Found, ParseErr>
    ensures found { IfOk result (λ f. symbols_of bytes.now ≡ Some f.symbols.items) }
    ensures places { IfOk result (λ f. All (λ p. p ≤ length bytes.now) f.places.items) }
    ensures err { (at : ℕ) → result ≡ Err (Syntax at) → (at ≤ length bytes.now) × (symbols_of bytes.now ≡ None) }
{
    if bytes.len() > u32::MAX as usize {
        return Err(ParseErr::NoMemory);
    }
    let mut symbols = Vec::new(alloc);
    let mut places = Vec::new(alloc);
    let mut at = 0;
    while at < bytes.len() {
        let (_, rest) = bytes.split_at(at);
        let len = token_len(rest);
        if len == 0 && is_blank(bytes[at]) {
            at += 1;
            continue;
        }
        let Some(symbol) = symbol_of(alloc, &rest[..len])? else {
            return Err(ParseErr::Syntax(at as u32));
        };
        symbols.push(symbol)?;
        places.push(at as u32)?;
        at += len;
    }
    Ok(Found { symbols, places })
}

/// Symbols of which some were read, seen as those that are left.
#[derive(Drop)]
pub struct SymbolReader<'a> {
    left: &'a [Symbol],
    /// How many there were.
    all: usize,
}

impl<'a> Model for SymbolReader<'a> {
    ghost use Rattle.std.specs.Prelude.{List};
    ghost use Rattle.dialect_parsing.specs.declared.symbol.Symbol.{Symbol};

    ghost Value = { List Symbol };

    ghost view = { λ s. s.left.now };
}

impl<'a> SymbolReader<'a> {
    pub fn new(all: &'a [Symbol]) -> SymbolReader<'a>
        ensures { result ≡ all.now }
    {
        SymbolReader {
            left: all,
            all: all.len(),
        }
    }

    /// How many symbols were read.
    pub fn count(&self) -> usize {
        self.all.saturating_sub(self.left.len())
    }

    /// Reads the next symbol.
    pub fn next(&mut self) -> Option<&'a Symbol>
        ensures { MatchOption result ((self.old ≡ []) × (self.new ≡ [])) (λ s. self.old ≡ s.now ∷ self.new) }
    {
        match self.left {
            [] => None,
            [first, left @ ..] => {
                self.left = left;
                Some(first)
            }
        }
    }

    /// Reads the next symbol if it is this one.
    pub fn skip(&mut self, symbol: &Symbol) -> bool
        ensures yes { result ≡ true → self.old ≡ symbol.now ∷ self.new }
        ensures no { result ≡ false → (self.new ≡ self.old) × ((ss : List Symbol) → self.old ≡ symbol.now ∷ ss → ⊥) }
    {
        match self.left {
            [first, left @ ..] if *first == *symbol => {
                self.left = left;
                true
            }
            _ => false,
        }
    }

    /// Reads the next symbol if it is a name.
    pub fn name(&mut self) -> Option<&'a str>
        ensures some { IfSome result (λ n. self.old ≡ S.Name n.now ∷ self.new) }
        ensures none { result ≡ None → (self.new ≡ self.old) × IsNoName self.old }
    {
        match self.left {
            [Symbol::Name(name), left @ ..] => {
                self.left = left;
                Some(name.as_str())
            }
            _ => None,
        }
    }
}
