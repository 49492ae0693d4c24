//! Runs `round` over the texts of files of rows, and says of each file how many texts it has. A text that ends
//! otherwise than its row says is shown with what came.
#![tactic(auto)]

mod answer;
mod rows;

use crate::answer::{Answer, answer_to};
use crate::rows::{Row, rows_of};
use std::io::Write;
use std::{env, fs, io};

/// Shows a text and how it ended.
fn show(rt: &HostRuntime, text: &str, answer: &Answer) -> io::Result<()> {
    println!(rt; "ends with status {}:\n{text}", answer.status)?;
    let mut out = io::writer(rt);
    out.write_all(answer.out.as_slice())?;
    out.write_all(answer.err.as_slice())
}

/// Runs over a text, and shows it where it does not end as the row says.
fn check_text(rt: &HostRuntime, row: &Row, text: &str) -> io::Result<()> {
    let answer = answer_to(rt.alloc(), text.as_bytes())?;
    if !row.allows(&answer) {
        show(rt, text, &answer)?;
    }
    Ok(())
}

/// Runs over the texts of a row, and answers how many there are.
fn check_row(rt: &HostRuntime, row: &Row) -> io::Result<u64> {
    if !row.each_line {
        check_text(rt, row, row.texts)?;
        return Ok(1);
    }
    let mut count = 0u64;
    for text in row.texts.lines() {
        check_text(rt, row, text)?;
        count = count.saturating_add(1);
    }
    Ok(count)
}

/// Runs over the texts of a file of rows.
fn check_file(rt: &HostRuntime, name: &str) -> io::Result<()> {
    let file = fs::read_to_string(rt, name)?;
    let rows = rows_of(rt.alloc(), file.as_str())?;
    let mut count = 0u64;
    for row in &rows {
        let texts = check_row(rt, row)?;
        count = count.saturating_add(texts);
    }
    println!(rt; "{name}: {count}")
}

fn main(rt: HostRuntime) -> io::Result<()> {
    for name in env::args(&rt)?.skip(1) {
        check_file(&rt, name.as_str())?;
    }
    Ok(())
}
