//! Runs of bytes at the front of a text.

ghost use Rattle.std.specs.Prelude.{◌≡◌, ◌≤◌, ◌<◌, ◌&&◌, length, slice_index, ◌==◌};
ghost use Rattle.std.specs.List.{prefix_len};
ghost use Rattle.ll_tokens.specs.Runs.{in_run};
ghost use Rattle.ll_tokens.specs.Bytes.{is_name_byte, is_word_byte, in_string};
ghost use Rattle.ll_tokens.specs.Pieces.{closes};

use crate::bytes::{is_digit, is_letter_or_digit, is_name_byte, is_word_byte, is_word_start};
use crate::lanes::lanes_len;

/// What a run of bytes is made of.
#[derive(Clone, Copy)]
pub enum Run {
    /// The bytes of a bare name.
    Name,
    Word,
    Digits,
    LettersAndDigits,
    /// Letters and `_`, as behind `#dbg_`.
    Record,
    /// A comment up to the end of its line.
    Line,
    /// A string up to the quote that ends it.
    String,
}

impl Run {
    /// Does a byte go on with such a run?
    fn has(self, b: u8) -> bool
        ensures { result ≡ in_run self b }
    {
        match self {
            Run::Name => is_name_byte(b),
            Run::Word => is_word_byte(b),
            Run::Digits => is_digit(b),
            Run::LettersAndDigits => is_letter_or_digit(b),
            Run::Record => is_word_start(b),
            Run::Line => b != b'\n' && b != b'\r',
            Run::String => b != b'"',
        }
    }
}

/// How many bytes of such a run the text begins with.
pub fn run_len(bytes: &[u8], run: Run) -> usize
    ensures run { result ≡ prefix_len (in_run «run») bytes.now }
    ensures within { result ≤ length bytes.now }
{
    bytes.iter().take_while(|b| run.has(**b)).count()
}

/// How many bytes of a name the text begins with. Most names have few bytes, and of the others sixteen are looked at at a
/// time.
#[inline(always)]
pub fn name_len(bytes: &[u8]) -> usize
    ensures run { result ≡ prefix_len is_name_byte bytes.now }
    ensures within { result ≤ length bytes.now }
{
    let mut n = 0;
    let mut rest = bytes;
    while let [a, b, c, d, e, f, g, h, behind @ ..] = rest {
        if !is_name_byte(*a) {
            return n;
        }
        if !is_name_byte(*b) {
            return n + 1;
        }
        if !is_name_byte(*c) {
            return n + 2;
        }
        if !is_name_byte(*d) {
            return n + 3;
        }
        if !is_name_byte(*e) {
            return n + 4;
        }
        if !is_name_byte(*f) {
            return n + 5;
        }
        if !is_name_byte(*g) {
            return n + 6;
        }
        if !is_name_byte(*h) {
            return n + 7;
        }
        let more = lanes_len(behind);
        n += 8 + more;
        rest = &behind[more..];
    }
    n + run_len(rest, Run::Name)
}

/// How many bytes of a word the text begins with. It looks at four in a turn.
#[inline(always)]
pub(crate) fn word_len(bytes: &[u8]) -> usize
    ensures run { result ≡ prefix_len is_word_byte bytes.now }
    ensures within { result ≤ length bytes.now }
{
    let mut n = 0;
    let mut rest = bytes;
    while let [a, b, c, d, behind @ ..] = rest {
        if !is_word_byte(*a) {
            return n;
        }
        if !is_word_byte(*b) {
            return n + 1;
        }
        if !is_word_byte(*c) {
            return n + 2;
        }
        if !is_word_byte(*d) {
            return n + 3;
        }
        n += 4;
        rest = behind;
    }
    n + run_len(rest, Run::Word)
}
