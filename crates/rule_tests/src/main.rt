//! Reads texts by the grammar of LLVM text, and says how many are read and how many are refused where their lines say so,
//! and how many are cut into the tokens that their lines say. A line that is answered otherwise is shown. With files as
//! arguments it says of each whether it is read.
#![tactic(auto)]

mod language;

use crate::language::Language;
use std::{env, fs, io};

/// The file of texts. A line has the number of a rule, the byte where it refuses the text or `-`, and behind a bar the
/// text, with `¶` for the ends of its lines.
const TEXTS: &str = "texts.rows";

/// The file of tokens. A line has the classes of the tokens of a text, or `bad` and the byte where it is bad, and behind
/// a bar the text.
const TOKENS: &str = "tokens.rows";

/// The text that stands behind the bar of a line.
fn text_of(rt: &HostRuntime, behind: &str) -> io::Result<String> {
    let text = behind.strip_prefix(' ').unwrap_or(behind);
    Ok(text.replace(rt.alloc(), '¶', "\n")?)
}

/// Whether a line is answered as it says, and whether it says that its text is read.
fn check_line(rt: &HostRuntime, language: &Language, line: &str) -> io::Result<(bool, bool)> {
    let (numbers, behind) = line.split_once('|').unwrap_or((line, ""));
    let (rule, place) = numbers.split_once(' ').unwrap_or((numbers, ""));
    let place = place.trim().parse::<usize>().ok();
    let rule = rule.parse::<u16>().unwrap_or(u16::MAX);
    let text = text_of(rt, behind)?;
    let found = language.refusal_of(rt.alloc(), rule, text.as_bytes())?;
    Ok((found == place, place.is_none()))
}

/// Reads the texts of the file.
fn check_texts(rt: &HostRuntime, language: &Language) -> io::Result<()> {
    let file = fs::read_to_string(rt, TEXTS)?;
    let mut read = 0u64;
    let mut refused = 0u64;
    for line in file.lines() {
        match check_line(rt, language, line)? {
            (true, true) => read = read.saturating_add(1),
            (true, false) => refused = refused.saturating_add(1),
            (false, _) => println!(rt; "otherwise: {line}")?,
        }
    }
    println!(rt; "{read} read, {refused} refused")
}

/// Cuts the texts of the file of tokens.
fn check_tokens(rt: &HostRuntime, language: &Language) -> io::Result<()> {
    let file = fs::read_to_string(rt, TOKENS)?;
    let mut cut = 0u64;
    for line in file.lines() {
        let (classes, behind) = line.split_once('|').unwrap_or((line, ""));
        let text = text_of(rt, behind)?;
        let found = language.classes_of(rt.alloc(), text.as_bytes())?;
        if found.as_str() == classes {
            cut = cut.saturating_add(1);
        } else {
            println!(rt; "otherwise, as {found}: {line}")?;
        }
    }
    println!(rt; "{cut} cut into tokens")
}

/// Says of a file whether it is read, and if not, at which byte it is refused.
fn check_file(rt: &HostRuntime, language: &Language, name: &str) -> io::Result<()> {
    let bytes = fs::read(rt, name)?;
    match language.refusal_of(rt.alloc(), 0, &bytes)? {
        None => println!(rt; "{name}: read"),
        Some(place) => println!(rt; "{name}: refused at {place}"),
    }
}

fn main(rt: HostRuntime) -> io::Result<()> {
    let language = Language::new(rt.alloc())?;
    let mut files = 0u64;
    for name in env::args(&rt)?.skip(1) {
        check_file(&rt, &language, name.as_str())?;
        files = files.saturating_add(1);
    }
    if files == 0 {
        check_texts(&rt, &language)?;
        check_tokens(&rt, &language)?;
    }
    Ok(())
}
