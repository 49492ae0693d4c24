//! Kinds of bytes in LLVM text.

ghost use Rattle.std.specs.Prelude.{◌≡◌, slice_index_or};
ghost use Rattle.ll_tokens.specs.Bytes.{is_blank, is_digit, is_hex_digit, is_letter, is_letter_or_digit, is_name_byte, is_word_start, is_word_byte, ends_name};

/// A decimal digit.
pub fn is_digit(b: u8) -> bool
    ensures { result ≡ is_digit b }
{
    b >= b'0' && b <= b'9'
}

/// A hexadecimal digit.
pub fn is_hex_digit(b: u8) -> bool
    ensures { result ≡ is_hex_digit b }
{
    is_digit(b) || (b >= b'A' && b <= b'F') || (b >= b'a' && b <= b'f')
}

/// A letter of ASCII.
pub fn is_letter(b: u8) -> bool
    ensures { result ≡ is_letter b }
{
    (b >= b'A' && b <= b'Z') || (b >= b'a' && b <= b'z')
}

/// A letter or a decimal digit.
pub fn is_letter_or_digit(b: u8) -> bool
    ensures { result ≡ is_letter_or_digit b }
{
    is_letter(b) || is_digit(b)
}

/// A byte that a word begins with.
pub fn is_word_start(b: u8) -> bool
    ensures { result ≡ is_word_start b }
{
    is_letter(b) || b == b'_'
}

/// What each byte is in a name: `w` begins words, `d` and `p` go on with them, and `a` stands in bare names alone. Of the
/// others, `-` is a blank, `:` and `Q` are a colon and a quote, and `.` is any that is left. A row has 32 bytes.
static NAME_KINDS: [u8; 256] = *b"\
.........--..-..................\
-.Q.a........ap.dddddddddd:.....\
.wwwwwwwwwwwwwwwwwwwwwwwwww....w\
.wwwwwwwwwwwwwwwwwwwwwwwwww.....\
................................\
................................\
................................\
................................";

/// What a byte is in a name, by a table.
fn kind_at(kinds: &[u8], b: u8) -> u8
    ensures { result ≡ slice_index_or kinds.now b 46 }
{
    match kinds.get(b as usize) {
        Some(kind) => *kind,
        None => b'.',
    }
}

/// Space, tab, CR or LF.
pub fn is_blank(b: u8) -> bool
    ensures { result ≡ is_blank b }
{
    kind_at(&NAME_KINDS, b) == b'-'
}

/// A byte of a bare name.
pub fn is_name_byte(b: u8) -> bool
    ensures { result ≡ is_name_byte b }
{
    kind_at(&NAME_KINDS, b) >= b'a'
}

/// A byte of a word.
pub fn is_word_byte(b: u8) -> bool
    ensures { result ≡ is_word_byte b }
{
    kind_at(&NAME_KINDS, b) >= b'd'
}

/// A byte that a word begins with, by the table that its other bytes are looked up in.
pub(crate) fn begins_word(b: u8) -> bool
    ensures { result ≡ is_word_start b }
{
    kind_at(&NAME_KINDS, b) == b'w'
}

/// A byte behind which a name goes on in no way: of no name, no colon and no quote.
pub(crate) fn ends_name(b: u8) -> bool
    ensures { result ≡ ends_name b }
{
    kind_at(&NAME_KINDS, b) <= b'.'
}
