//! How the program ends over other words and over long texts. What it prints of short ones, the crate `row_tests` holds.

ghost use Rattle.std.specs.Prelude.{◌<◌};

use round_ll::ended::Ended;
use round_ll::outside::{MemorySink, MemorySource};
use round_ll::run::run;
use std::alloc::{AllocError, Global};

// ---- a run, and what is wrong with how it ends

/// How many bytes a call moves at most, and the calls that fail, counted from 0.
pub type Calls<'a> = (usize, &'a [u32]);

/// Calls of which none fails.
pub const SURE: Calls<'static> = (1 << 20, &[]);

/// A run of the program.
#[derive(Clone, Copy)]
pub struct Run<'a> {
    /// The words of the command line.
    pub words: &'a [&'a str],
    /// What stands on the source.
    pub text: &'a [u8],
    /// The reads of it.
    pub reads: Calls<'a>,
    /// The calls of the standard error that fail.
    pub complaints: &'a [u32],
}

/// How a run is to end: its status, and what is then on the output and on the standard error.
#[derive(Clone, Copy)]
pub struct End<'a> {
    pub status: u8,
    pub out: Out<'a>,
    pub line: &'a str,
}

/// What is on the output.
#[derive(Clone, Copy)]
pub enum Out<'a> {
    /// This.
    Is(&'a [u8]),
    /// What ends with this.
    EndsWith(&'a [u8]),
    /// What ends with this, where the module back has so many functions and types.
    Of(u32, u32, &'a [u8]),
}

/// The words of a command line.
fn words_of(alloc: Global, words: &[&str]) -> Result<Vec<String>, AllocError> {
    let mut owned = Vec::new(alloc);
    for word in words {
        owned.push(String::from_str(alloc, word)?)?;
    }
    Ok(owned)
}

/// Whether the module back has so many functions and types.
fn has_back(ended: &Ended, functions: u32, types: u32) -> bool {
    match ended {
        Ended::Done(t) => t.back.functions() == functions && t.back.types() == types,
        _ => false,
    }
}

/// Whether this is on the output after a run.
fn is_out(ended: &Ended, out: &[u8], want: Out<'_>) -> bool {
    match want {
        Out::Is(text) => out == text,
        Out::EndsWith(text) => out.ends_with(text),
        Out::Of(functions, types, text) => {
            out.ends_with(text) && has_back(ended, functions, types)
        }
    }
}

/// What is wrong with how a run ended, if anything.
fn fault_of(ended: &Ended, out: &[u8], line: &[u8], end: &End<'_>) -> &'static str {
    if ended.status() != end.status {
        "another status"
    } else if !is_out(ended, out, end.out) {
        "another output"
    } else if line != end.line.as_bytes() {
        "another line"
    } else {
        ""
    }
}

/// What is wrong with how a run over this output ends.
fn run_over(
    alloc: Global,
    given: &Run<'_>,
    out: &mut MemorySink,
    end: &End<'_>,
) -> Result<&'static str, AllocError>
    requires { 0 < given.now.reads.0 }
{
    let words = words_of(alloc, given.words)?;
    let mut source = MemorySource::new(alloc, given.text, given.reads.0, given.reads.1)?;
    let mut err = MemorySink::new(alloc, 1 << 10, 1 << 10, given.complaints)?;
    let ended = run(alloc, words.as_slice(), &mut source, out, &mut err);
    Ok(fault_of(&ended, out.bytes(), err.bytes(), end))
}

/// What is wrong with how a run over this output ends, if anything.
pub fn fault_over(
    alloc: Global,
    given: &Run<'_>,
    out: &mut MemorySink,
    end: &End<'_>,
) -> &'static str
    requires { 0 < given.now.reads.0 }
{
    run_over(alloc, given, out, end).unwrap_or("no memory")
}

/// What is wrong with how a run ends over an output of these calls, if anything.
pub fn fault(alloc: Global, given: &Run<'_>, writes: Calls<'_>, end: &End<'_>) -> &'static str
    requires reads { 0 < given.now.reads.0 }
    requires writes { 0 < writes.0 }
{
    match MemorySink::new(alloc, 1 << 24, writes.0, writes.1) {
        Ok(mut out) => fault_over(alloc, given, &mut out, end),
        Err(_) => "no memory",
    }
}

/// What is wrong with how `round` ends over a text where only these calls of the standard error fail, if anything.
fn round_fault<'a>(
    alloc: Global,
    text: &'a [u8],
    complaints: &'a [u32],
    end: &End<'_>,
) -> &'static str {
    let given = Run {
        words: &["round"],
        text,
        reads: SURE,
        complaints,
    };
    fault(alloc, &given, SURE, end)
}

// ---- other words

/// A function that returns 7.
pub const ANSWER: &str = "define i32 @f() {
  ret i32 7
}
";

/// What is wrong with how a run of words that are no command ends, if anything.
fn usage_fault(alloc: Global, words: &[&str]) -> &'static str {
    let given = Run {
        words,
        text: ANSWER.as_bytes(),
        reads: SURE,
        complaints: &[],
    };
    let end = End {
        status: 2,
        out: Out::Is(b""),
        line: "usage: round_ll round\n",
    };
    fault(alloc, &given, SURE, &end)
}

/// Words that are no command.
const OTHERS: &[&[&str]] = &[&[], &["around"], &["round", "round"]];

#[test]
fn other_words_are_a_faulty_command_line(rt: HostRuntime) {
    for words in OTHERS {
        let fault = usage_fault(rt.alloc(), words);
        assert!(rt; fault.is_empty(), "{fault} after {words:?}");
    }
}

// ---- the longest text

const EMPTY_OUT: &[u8] = b"builtin.module @_ {
}
;; llvm
source_filename = \"_\"
;; report
";

/// The most bytes that a text may have.
pub const LONGEST: usize = 1 << 24;

/// What is wrong with how `round` ends over so many blanks, where these calls of the standard error fail.
pub fn blanks_fault(
    alloc: Global,
    count: usize,
    complaints: &[u32],
    end: &End<'_>,
) -> &'static str {
    match vec![in alloc; b' '; count] {
        Ok(blanks) => round_fault(alloc, blanks.as_slice(), complaints, end),
        Err(_) => "no memory",
    }
}

/// How it ends over the longest text, and over one byte more.
const LONG_ENDS: &[(usize, End)] = &[
    (
        LONGEST,
        End {
            status: 0,
            out: Out::Is(EMPTY_OUT),
            line: "",
        },
    ),
    (
        LONGEST + 1,
        End {
            status: 5,
            out: Out::Is(b""),
            line: "input longer than 16777216 bytes\n",
        },
    ),
];

#[test]
fn the_longest_text_goes_round_and_one_byte_more_does_not(rt: HostRuntime) {
    for (count, end) in LONG_ENDS {
        let fault = blanks_fault(rt.alloc(), *count, &[], end);
        assert!(rt; fault.is_empty(), "{fault} at {count}");
    }
}

// ---- many functions, and a long chain of blocks

/// How many functions share their types and their constant.
const MANY: u32 = 1000;

/// Appends a function of that number.
fn push_function(alloc: Global, text: &mut String, number: u32) -> Result<(), AllocError> {
    let function = format!(in alloc;
        "define i32 @f{number}(i32 %a) {{ %x = add i32 %a, 7 ret i32 %x }}\n"
    )?;
    text.push_str(function.as_str())
}

/// A text of many functions.
fn many_functions(alloc: Global) -> Result<String, AllocError> {
    let mut text = String::new(alloc);
    for number in 0..MANY {
        push_function(alloc, &mut text, number)?;
    }
    Ok(text)
}

/// How many blocks the chain has behind its entry: the last has this number.
const CHAIN: u32 = 100_000;

/// Appends a block of the chain, which leads to the one of the next number.
fn push_block(alloc: Global, text: &mut String, number: u32) -> Result<(), AllocError>
    requires { number < 100_000 }
{
    let next = number + 1;
    let block = format!(in alloc; "b{number}:\n  br label %b{next}\n")?;
    text.push_str(block.as_str())
}

/// Appends the blocks of the chain but the last, from its end.
fn push_blocks(alloc: Global, text: &mut String) -> Result<(), AllocError> {
    for number in (0..CHAIN).rev() {
        push_block(alloc, text, number)?;
    }
    text.push_str("}\n")
}

/// A text of a chain of blocks, of which the last stands first.
fn chain(alloc: Global) -> Result<String, AllocError> {
    let mut text = String::new(alloc);
    text.push_str("define void @chain() {\n  br label %b0\nb100000:\n  ret void\n")?;
    push_blocks(alloc, &mut text)?;
    Ok(text)
}

/// What is wrong with how `round` ends over a text that was to be made: well, and with this output.
fn made_fault(alloc: Global, text: Result<String, AllocError>, out: Out<'_>) -> &'static str {
    let end = End {
        status: 0,
        out,
        line: "",
    };
    match text {
        Ok(text) => round_fault(alloc, text.as_bytes(), &[], &end),
        Err(_) => "no memory",
    }
}

#[test]
fn many_functions_share_types_and_constants(rt: HostRuntime) {
    // The types are the integer, that of the functions, and void for what their returns give.
    let out = Out::Of(MANY, 3, b"\nblocks @f999 0\n");
    let fault = made_fault(rt.alloc(), many_functions(rt.alloc()), out);
    assert!(rt; fault.is_empty(), "{fault}");
}

#[test]
fn a_long_chain_of_blocks_goes_round_from_its_end(rt: HostRuntime) {
    let out = Out::EndsWith(b" 3 2 1\n");
    let fault = made_fault(rt.alloc(), chain(rt.alloc()), out);
    assert!(rt; fault.is_empty(), "{fault}");
}

// ---- types that nest deep

/// A text of a function that takes arrays of arrays, so many levels with the innermost.
fn nested(alloc: Global, levels: u32) -> Result<String, AllocError> {
    let mut text = String::new(alloc);
    text.push_str("define void @f(")?;
    for _ in 1..levels {
        text.push_str("[1 x ")?;
    }
    text.push_str("i8")?;
    for _ in 1..levels {
        text.push_str("]")?;
    }
    text.push_str(" %a) {\n  ret void\n}\n")?;
    Ok(text)
}

/// What is wrong with how `round` ends over such a text.
fn nested_fault(alloc: Global, levels: u32, end: &End<'_>) -> &'static str {
    match nested(alloc, levels) {
        Ok(text) => round_fault(alloc, text.as_bytes(), &[], end),
        Err(_) => "no memory",
    }
}

/// How it ends where the function's type is one level above 999, the most, and above one level more.
const DEEP_ENDS: &[(u32, End)] = &[
    (
        999,
        End {
            status: 0,
            out: Out::EndsWith(b";; report\nblocks @f 0\n"),
            line: "",
        },
    ),
    (
        1000,
        End {
            status: 6,
            out: Out::Is(b""),
            line: "NotYet\n",
        },
    ),
];

#[test]
fn a_type_of_a_thousand_levels_goes_round_and_a_deeper_one_does_not(rt: HostRuntime) {
    for (levels, end) in DEEP_ENDS {
        let fault = nested_fault(rt.alloc(), *levels, end);
        assert!(rt; fault.is_empty(), "{fault} at {levels}");
    }
}

// ---- structs that nest deep

/// Appends a struct that has the one of the next number in it.
fn push_struct(alloc: Global, text: &mut String, number: u32) -> Result<(), AllocError> {
    let next = number.saturating_add(1);
    let line = format!(in alloc; "%s{number} = type {{ %s{next} }}\n")?;
    text.push_str(line.as_str())
}

/// A text of so many structs, each in the one before it, and of a function that takes the first.
fn structs_nested(alloc: Global, count: u32) -> Result<String, AllocError> {
    let mut text = String::new(alloc);
    for number in 1..count {
        push_struct(alloc, &mut text, number)?;
    }
    let last = format!(in alloc; "%s{count} = type opaque\n")?;
    text.push_str(last.as_str())?;
    text.push_str("define void @f(%s1 %a) {\n  ret void\n}\n")?;
    Ok(text)
}

/// What is wrong with how `round` ends over such a text.
fn structs_fault(alloc: Global, count: u32, end: &End<'_>) -> &'static str {
    match structs_nested(alloc, count) {
        Ok(text) => round_fault(alloc, text.as_bytes(), &[], end),
        Err(_) => "no memory",
    }
}

/// How it ends where the function's type is one level above 999 structs, the most, and above one more.
const STRUCT_ENDS: &[(u32, End)] = &[
    (
        999,
        End {
            status: 0,
            out: Out::EndsWith(b"\nstruct \"s998\" s998\nstruct \"s999\" s999\nblocks @f 0\n"),
            line: "",
        },
    ),
    (
        1000,
        End {
            status: 6,
            out: Out::Is(b""),
            line: "NotYet\n",
        },
    ),
];

#[test]
fn structs_of_a_thousand_levels_go_round_and_deeper_ones_do_not(rt: HostRuntime) {
    for (count, end) in STRUCT_ENDS {
        let fault = structs_fault(rt.alloc(), *count, end);
        assert!(rt; fault.is_empty(), "{fault} at {count}");
    }
}
