//! The words, between blanks, of the rows of `modules` and of what `traces` wants.

use std::str::SplitWhitespace;

/// The next word, empty behind the last.
pub fn word<'a>(words: &mut SplitWhitespace<'a>) -> &'a str {
    words.next().unwrap_or("")
}

/// The number that the next word is.
pub fn number(words: &mut SplitWhitespace<'_>) -> Option<u32> {
    word(words).parse::<u32>().ok()
}
