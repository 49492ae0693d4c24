//! Texts that are of no constant, each with the byte where it is wrong.

use dialect_parsing::parse_err::ParseErr;
use dialect_parsing::parsing::parse_attr;
use dialect_types::type_store::TypeStore;
use std::alloc::Global;

const REFUSED: &[(&str, u32)] = &[
    ("", 0),
    ("builtin.integer <7: i0>", 20),
    ("builtin.integer <7: i8388609>", 20),
    ("builtin.integer <7: builtin.fp32>", 20),
    ("builtin.integer <18446744073709551616: i64>", 17),
    ("builtin.integer <7 i32>", 19),
    ("builtin.integer i32", 16),
    ("builtin.integer <7: i32", 20),
    ("llvm.bytes <[256]>", 13),
    ("llvm.bytes <[1,]>", 15),
    ("llvm.bytes <[1 2]>", 15),
    ("llvm.bytes <[1, 2>", 17),
    ("llvm.bytes <[,1]>", 13),
    ("llvm.bytes <[-1]>", 13),
    ("llvm.bytes <1>", 12),
    ("llvm.aggregate <[]>", 18),
    ("llvm.aggregate <[] : llvm.array [0 x builtin.fp16]", 49),
    ("llvm.aggregate <[builtin.fp16] : llvm.void>", 17),
    ("llvm.aggregate <[llvm.zero <llvm.void>,] : llvm.void>", 39),
    (
        "llvm.aggregate <[llvm.zero <llvm.void> llvm.zero <llvm.void>] : llvm.void>",
        39,
    ),
    ("llvm.splat <builtin.integer <7: i8>>", 35),
    ("llvm.splat <llvm.void : llvm.void>", 12),
    ("llvm.splat <> : llvm.void>", 12),
    ("llvm.zero <@S>", 11),
    ("llvm.zero <llvm.struct <@U>>", 24),
    ("llvm.zero", 0),
    ("llvm.zero <>", 11),
    ("llvm.void", 0),
    ("llvm.zero <llvm.void> llvm.void", 22),
    ("llvm.symbol_addr <@g : llvm.ptr (0)>", 0),
    ("llvm.zero <llvm.void>!", 21),
    ("null", 0),
    ("true", 0),
    ("7", 0),
    ("LLVM.ZERO <llvm.void>", 0),
];

/// Whether a text is refused at a place.
fn is_refused(alloc: Global, text: &str, place: u32) -> bool {
    let mut types = TypeStore::new(alloc);
    match parse_attr(alloc, &mut types, text.as_bytes()) {
        Err(ParseErr::Syntax(at)) => at == place,
        _ => false,
    }
}

/// The number of the first row that is not refused as it is to be, or how many there are.
fn first_taken(alloc: Global) -> usize {
    for (i, (text, place)) in REFUSED.iter().enumerate() {
        if !is_refused(alloc, text, *place) {
            return i;
        }
    }
    REFUSED.len()
}

#[test]
fn texts_of_no_constant_are_refused(rt: HostRuntime) {
    assert_eq!(rt; first_taken(rt.alloc()), 35);
}
