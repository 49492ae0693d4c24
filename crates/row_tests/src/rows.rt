//! Files of rows. A row begins with the line `;;;; text`, behind which one text stands, or with `;;;; lines`, behind which
//! one stands on each line; then comes the line `;;;> status N`, and what comes of each text. What stands before the first
//! row, and behind `text` and `lines` on their line, is for the reader.

use crate::answer::Answer;
use std::alloc::{AllocError, Global};

/// What a row begins with.
const ROW: &str = ";;;; ";

/// What stands between the texts of a row and what comes of them.
const ANSWER: &str = ";;;> status ";

/// Texts, and how `round` is to end over each of them.
#[derive(Clone, Copy)]
pub struct Row<'a> {
    /// The texts.
    pub texts: &'a str,
    /// Whether each line is a text; else all of it is one.
    pub each_line: bool,
    /// The status.
    pub status: u8,
    /// What is written: with status 0 to the output, else to the standard error. The other stays empty.
    pub wants: &'a str,
}

impl Row<'_> {
    /// Whether the answer is the one that the row says.
    pub fn allows(&self, answer: &Answer) -> bool {
        let (full, empty) = if answer.status == 0 {
            (&answer.out, &answer.err)
        } else {
            (&answer.err, &answer.out)
        };
        answer.status == self.status && full.as_slice() == self.wants.as_bytes() && empty.is_empty()
    }
}

/// The row that a part of a file says. Where no status stands in it, that is 255, so that its texts are shown.
fn row_of(part: &str) -> Row<'_> {
    let (input, answer) = part.split_once(ANSWER).unwrap_or((part, ""));
    let (head, texts) = input.split_once('\n').unwrap_or((input, ""));
    let (status, wants) = answer.split_once('\n').unwrap_or((answer, ""));
    Row {
        texts: texts.strip_suffix('\n').unwrap_or(texts),
        each_line: head.starts_with("lines"),
        status: status.parse().unwrap_or(u8::MAX),
        wants,
    }
}

/// The rows of a file, in order.
pub fn rows_of(alloc: Global, file: &str) -> Result<Vec<Row<'_>>, AllocError> {
    let mut rows = Vec::new(alloc);
    for part in file.split(ROW).skip(1) {
        rows.push(row_of(part))?;
    }
    Ok(rows)
}
