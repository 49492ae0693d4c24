//! Words with classes, in tables in which one is found without looking at all.

ghost use Rattle.std.specs.Prelude.{◌≡◌, IsTrue, List, slice_get};
ghost use Rattle.std.specs.Str.{bytes_eq};
ghost use Rattle.grammars.specs.Flat.{part};
ghost use Rattle.ll_classes.specs.Names.{unescaped};
ghost use Rattle.ll_classes.specs.Words.{are_right, bucket_words, class_among, words_in, words_at, words_of};

use crate::buckets::bucket_of;
use crate::names::says;
use grammars::parts::part_of;

/// A word: where its text stands among all texts, and its class.
#[derive(Clone, Copy)]
pub struct Word {
    pub start: u16,
    pub end: u16,
    pub class: u16,
}

/// Some words that stand one behind another.
#[derive(Clone, Copy)]
pub struct Bucket {
    pub start: u16,
    pub end: u16,
}

/// Words in buckets, by numbers that their texts give, and names of metadata. They pass a check.
#[derive(Clone, Copy)]
pub struct Words<'w> {
    /// The texts of all words.
    pub texts: &'w [u8],
    /// All words, and the names.
    pub words: &'w [Word],
    pub buckets: &'w [Bucket],
    pub names: Bucket,
    pub ghost right: { IsTrue (are_right texts.now words.now buckets.now names) },
}

/// The part of a table from a start to an end. It mostly lies within, so that is asked first.
#[inline(always)]
fn part_within<T>(table: &[T], start: u16, end: u16) -> &[T]
    ensures { result.now ≡ part table.now start end }
{
    let (from, to) = (start as usize, end as usize);
    if from <= to && to <= table.len() {
        &table[from..to]
    } else {
        part_of(table, start, end)
    }
}

/// Are the bytes of a word the same? It is short, so they are compared one by one.
fn are_same(text: &[u8], word: &[u8]) -> bool
    ensures { result ≡ bytes_eq text.now word.now }
{
    if text.len() != word.len() {
        return false;
    }
    for place in 0..text.len() {
        if text[place] != word[place] {
            return false;
        }
    }
    true
}

/// The class of the word of that text.
fn class_among(texts: &[u8], words: &[Word], text: &[u8]) -> Option<u16>
    ensures { result ≡ class_among (words_in texts.now words.now) text.now }
{
    for word in words {
        if are_same(text, part_within(texts, word.start, word.end)) {
            return Some(word.class);
        }
    }
    None
}

/// The class of the name that is written so.
fn class_among_names(texts: &[u8], names: &[Word], written: &[u8]) -> Option<u16>
    ensures { result ≡ class_among (words_in texts.now names.now) (unescaped written.now) }
{
    for name in names {
        if says(written, part_of(texts, name.start, name.end)) {
            return Some(name.class);
        }
    }
    None
}

impl Words<'_> {
    /// The class of the word of that text, in the bucket of that number.
    fn class_in(&self, number: usize, text: &[u8]) -> Option<u16>
        ensures { result ≡ class_among (words_at self.now.texts.now self.now.words.now (slice_get self.now.buckets.now number)) text.now }
    {
        let bucket = self.buckets.get(number)?;
        let words = part_within(self.words, bucket.start, bucket.end);
        class_among(self.texts, words, text)
    }

    /// The class of the word of that text.
    pub fn class_of_word(&self, text: &[u8]) -> Option<u16>
        ensures { result ≡ class_among (words_of self.now.texts.now self.now.words.now self.now.buckets.now) text.now }
    {
        self.class_in(bucket_of(text), text)
    }
    /// The class of the name of metadata that is written so.
    pub fn class_of_name(&self, written: &[u8]) -> Option<u16>
        ensures { result ≡ class_among (bucket_words self.now.texts.now self.now.words.now self.now.names) (unescaped written.now) }
    {
        let names = part_of(self.words, self.names.start, self.names.end);
        class_among_names(self.texts, names, written)
    }
}
