//! Dialect texts of types: what each is read as, as its type prints, and texts that are no type.

use dialect_parsing::parse_err::ParseErr;
use dialect_parsing::parsing::parse_type;
use dialect_types::type_store::TypeStore;
use std::alloc::{AllocError, Global};

/// Texts, each with the text that its type prints as, worked out by hand.
const READ: &[(&str, &str)] = &[
    // Words alone.
    ("llvm.void", "llvm.void"),
    ("builtin.fp16", "builtin.fp16"),
    ("builtin.bf16", "builtin.bf16"),
    ("builtin.fp32", "builtin.fp32"),
    ("builtin.fp64", "builtin.fp64"),
    (" llvm.void", "llvm.void"),
    ("llvm.void ", "llvm.void"),
    ("\t\r\n llvm.void\n\r\t ", "llvm.void"),
    ("\nbuiltin.fp64\n\n", "builtin.fp64"),
    // Integers.
    ("builtin.integer i1", "builtin.integer i1"),
    ("builtin.integer i8", "builtin.integer i8"),
    ("builtin.integer i32", "builtin.integer i32"),
    ("builtin.integer i64", "builtin.integer i64"),
    ("builtin.integer i128", "builtin.integer i128"),
    ("builtin.integer i9", "builtin.integer i9"),
    ("builtin.integer i10", "builtin.integer i10"),
    ("builtin.integer i9999", "builtin.integer i9999"),
    ("builtin.integer i10000", "builtin.integer i10000"),
    ("builtin.integer i8388607", "builtin.integer i8388607"),
    ("builtin.integer i8388608", "builtin.integer i8388608"),
    ("builtin.integer i007", "builtin.integer i7"),
    (
        "builtin.integer i00000000000000000000000032",
        "builtin.integer i32",
    ),
    ("builtin.integer\ti16", "builtin.integer i16"),
    ("builtin.integer\r\n  i16", "builtin.integer i16"),
    // Pointers.
    ("llvm.ptr (0)", "llvm.ptr (0)"),
    ("llvm.ptr (1)", "llvm.ptr (1)"),
    ("llvm.ptr (270)", "llvm.ptr (270)"),
    ("llvm.ptr (16777215)", "llvm.ptr (16777215)"),
    ("llvm.ptr(0)", "llvm.ptr (0)"),
    ("llvm.ptr ( 0 )", "llvm.ptr (0)"),
    ("llvm.ptr\n(\n3\n)\n", "llvm.ptr (3)"),
    ("llvm.ptr (000)", "llvm.ptr (0)"),
    ("llvm.ptr (0016777215)", "llvm.ptr (16777215)"),
    // Functions without parameters.
    (
        "llvm.func <llvm.void () variadic = false>",
        "llvm.func <llvm.void () variadic = false>",
    ),
    (
        "llvm.func <llvm.void () variadic = true>",
        "llvm.func <llvm.void () variadic = true>",
    ),
    (
        "llvm.func<llvm.void()variadic=false>",
        "llvm.func <llvm.void () variadic = false>",
    ),
    (
        "llvm.func < llvm.void ( ) variadic = true >",
        "llvm.func <llvm.void () variadic = true>",
    ),
    (
        "llvm.func\n<llvm.void\n()\nvariadic\n=\ntrue\n>",
        "llvm.func <llvm.void () variadic = true>",
    ),
    (
        "llvm.func <builtin.fp32 () variadic = false>",
        "llvm.func <builtin.fp32 () variadic = false>",
    ),
    (
        "llvm.func <builtin.integer i32() variadic = false>",
        "llvm.func <builtin.integer i32 () variadic = false>",
    ),
    (
        "llvm.func <llvm.ptr (5)() variadic = false>",
        "llvm.func <llvm.ptr (5) () variadic = false>",
    ),
    // Functions with parameters.
    (
        "llvm.func <llvm.void (builtin.fp64) variadic = false>",
        "llvm.func <llvm.void (builtin.fp64) variadic = false>",
    ),
    (
        "llvm.func <llvm.void (llvm.void) variadic = false>",
        "llvm.func <llvm.void (llvm.void) variadic = false>",
    ),
    (
        "llvm.func <llvm.void (builtin.integer i1, builtin.integer i2) variadic = false>",
        "llvm.func <llvm.void (builtin.integer i1, builtin.integer i2) variadic = false>",
    ),
    (
        "llvm.func <llvm.void (builtin.integer i2, builtin.integer i1) variadic = false>",
        "llvm.func <llvm.void (builtin.integer i2, builtin.integer i1) variadic = false>",
    ),
    (
        "llvm.func <llvm.void (builtin.integer i1,builtin.integer i1) variadic = true>",
        "llvm.func <llvm.void (builtin.integer i1, builtin.integer i1) variadic = true>",
    ),
    (
        "llvm.func <llvm.void (builtin.fp16 , builtin.bf16,builtin.fp32) variadic = true>",
        "llvm.func <llvm.void (builtin.fp16, builtin.bf16, builtin.fp32) variadic = true>",
    ),
    (
        "llvm.func <llvm.ptr (0) (llvm.ptr (1), llvm.ptr (2)) variadic = false>",
        "llvm.func <llvm.ptr (0) (llvm.ptr (1), llvm.ptr (2)) variadic = false>",
    ),
    (
        "llvm.func<llvm.ptr(0)(llvm.ptr(1),llvm.ptr(2))variadic=false>",
        "llvm.func <llvm.ptr (0) (llvm.ptr (1), llvm.ptr (2)) variadic = false>",
    ),
    (
        "llvm.func <builtin.integer i032 (builtin.integer i064) variadic = false>",
        "llvm.func <builtin.integer i32 (builtin.integer i64) variadic = false>",
    ),
    (
        "llvm.func <builtin.fp64 (builtin.fp64, builtin.fp64, builtin.fp64, builtin.fp64, builtin.fp64) variadic = false>",
        "llvm.func <builtin.fp64 (builtin.fp64, builtin.fp64, builtin.fp64, builtin.fp64, builtin.fp64) variadic = false>",
    ),
    // Functions inside functions.
    (
        "llvm.func <llvm.func <llvm.void () variadic = true> () variadic = false>",
        "llvm.func <llvm.func <llvm.void () variadic = true> () variadic = false>",
    ),
    (
        "llvm.func <llvm.func <llvm.void () variadic = false> () variadic = true>",
        "llvm.func <llvm.func <llvm.void () variadic = false> () variadic = true>",
    ),
    (
        "llvm.func <llvm.void (llvm.func <llvm.void () variadic = true>) variadic = false>",
        "llvm.func <llvm.void (llvm.func <llvm.void () variadic = true>) variadic = false>",
    ),
    (
        "llvm.func<llvm.void(llvm.func<llvm.void()variadic=true>)variadic=false>",
        "llvm.func <llvm.void (llvm.func <llvm.void () variadic = true>) variadic = false>",
    ),
    (
        "llvm.func <llvm.void (builtin.fp16, llvm.func <builtin.fp32 (builtin.fp64) variadic = true>) variadic = false>",
        "llvm.func <llvm.void (builtin.fp16, llvm.func <builtin.fp32 (builtin.fp64) variadic = true>) variadic = false>",
    ),
    (
        "llvm.func <llvm.void (llvm.func <builtin.fp32 (builtin.fp64) variadic = true>, builtin.fp16) variadic = false>",
        "llvm.func <llvm.void (llvm.func <builtin.fp32 (builtin.fp64) variadic = true>, builtin.fp16) variadic = false>",
    ),
    (
        "llvm.func <llvm.func <llvm.ptr (1) (builtin.fp16) variadic = false> (llvm.func <llvm.void () variadic = false>) variadic = true>",
        "llvm.func <llvm.func <llvm.ptr (1) (builtin.fp16) variadic = false> (llvm.func <llvm.void () variadic = false>) variadic = true>",
    ),
    (
        "llvm.func <llvm.func <llvm.func <llvm.void () variadic = false> () variadic = false> () variadic = false>",
        "llvm.func <llvm.func <llvm.func <llvm.void () variadic = false> () variadic = false> () variadic = false>",
    ),
    (
        "llvm.func <llvm.void (llvm.func <llvm.void (llvm.func <llvm.void (builtin.integer i3) variadic = false>) variadic = false>) variadic = true>",
        "llvm.func <llvm.void (llvm.func <llvm.void (llvm.func <llvm.void (builtin.integer i3) variadic = false>) variadic = false>) variadic = true>",
    ),
    // Arrays.
    (
        "llvm.array [2 x builtin.integer i32]",
        "llvm.array [2 x builtin.integer i32]",
    ),
    (
        "llvm.array [0 x llvm.ptr (0)]",
        "llvm.array [0 x llvm.ptr (0)]",
    ),
    (
        "llvm.array [18446744073709551615 x builtin.fp64]",
        "llvm.array [18446744073709551615 x builtin.fp64]",
    ),
    (
        "llvm.array[007 x builtin.fp16]",
        "llvm.array [7 x builtin.fp16]",
    ),
    (
        " llvm.array\t[ 3\r\nx llvm.ptr(4) ] ",
        "llvm.array [3 x llvm.ptr (4)]",
    ),
    (
        "llvm.array [2 x llvm.array [3 x llvm.array [4 x builtin.integer i1]]]",
        "llvm.array [2 x llvm.array [3 x llvm.array [4 x builtin.integer i1]]]",
    ),
    // Vectors.
    (
        "llvm.vector [4 x builtin.integer i32]",
        "llvm.vector [4 x builtin.integer i32]",
    ),
    (
        "llvm.vector [vscale 4 x builtin.integer i32]",
        "llvm.vector [vscale 4 x builtin.integer i32]",
    ),
    (
        "llvm.vector [1 x llvm.ptr (2)]",
        "llvm.vector [1 x llvm.ptr (2)]",
    ),
    (
        "llvm.vector [4294967295 x builtin.bf16]",
        "llvm.vector [4294967295 x builtin.bf16]",
    ),
    (
        "llvm.vector[vscale\n0016 x\tbuiltin.fp32]",
        "llvm.vector [vscale 16 x builtin.fp32]",
    ),
    (
        "llvm.array [2 x llvm.vector [vscale 2 x builtin.fp64]]",
        "llvm.array [2 x llvm.vector [vscale 2 x builtin.fp64]]",
    ),
    // Structs.
    ("llvm.struct <{}>", "llvm.struct <{}>"),
    ("llvm.struct <packed {}>", "llvm.struct <packed {}>"),
    (
        "llvm.struct <{builtin.integer i32}>",
        "llvm.struct <{builtin.integer i32}>",
    ),
    (
        "llvm.struct <{builtin.integer i32, llvm.ptr (0)}>",
        "llvm.struct <{builtin.integer i32, llvm.ptr (0)}>",
    ),
    (
        "llvm.struct <packed {builtin.integer i8, builtin.fp64, builtin.integer i8}>",
        "llvm.struct <packed {builtin.integer i8, builtin.fp64, builtin.integer i8}>",
    ),
    (
        "llvm.struct<packed{llvm.ptr(1),llvm.ptr(1)}>",
        "llvm.struct <packed {llvm.ptr (1), llvm.ptr (1)}>",
    ),
    (
        "\nllvm.struct < { builtin.fp16 , builtin.bf16 } > ",
        "llvm.struct <{builtin.fp16, builtin.bf16}>",
    ),
    (
        "llvm.struct <{llvm.struct <packed {}>, llvm.struct <{}>}>",
        "llvm.struct <{llvm.struct <packed {}>, llvm.struct <{}>}>",
    ),
    (
        "llvm.struct <{llvm.array [2 x llvm.struct <packed {builtin.fp32}>], llvm.vector [2 x builtin.fp32]}>",
        "llvm.struct <{llvm.array [2 x llvm.struct <packed {builtin.fp32}>], llvm.vector [2 x builtin.fp32]}>",
    ),
    (
        "llvm.array [3 x llvm.struct <{llvm.ptr (0), builtin.integer i64}>]",
        "llvm.array [3 x llvm.struct <{llvm.ptr (0), builtin.integer i64}>]",
    ),
    // Functions of types with parts.
    (
        "llvm.func <llvm.struct <{builtin.integer i1, builtin.integer i2}> (llvm.array [2 x builtin.fp32]) variadic = false>",
        "llvm.func <llvm.struct <{builtin.integer i1, builtin.integer i2}> (llvm.array [2 x builtin.fp32]) variadic = false>",
    ),
    (
        "llvm.func<llvm.vector[2 x builtin.fp64](llvm.struct<packed{builtin.fp64}>,llvm.void)variadic=true>",
        "llvm.func <llvm.vector [2 x builtin.fp64] (llvm.struct <packed {builtin.fp64}>, llvm.void) variadic = true>",
    ),
];

/// Texts that are no type, each with the place of the byte that is told.
const REFUSED: &[(&str, u32)] = &[
    // No token, or none that stands in a type.
    ("", 0),
    (" \n", 0),
    ("\"llvm.void\"", 0),
    ("llvm.void\u{0}", 9),
    ("llvm.ptr (0);", 12),
    ("é", 0),
    ("llvm.voids", 0),
    ("llvm.Void", 0),
    ("void", 0),
    ("i32", 0),
    ("builtin.fp128", 0),
    ("llvm.ptr {0}", 9),
    ("llvm.func <llvm.void () variadic: false>", 32),
    // Runs without a blank between them, and parted ones.
    ("builtin.integeri32", 0),
    ("builtin.integer i 32", 16),
    ("builtin. integer i32", 0),
    ("llvm.ptr0", 0),
    ("llvm.func <llvm.voidllvm.void () variadic = false>", 11),
    // Widths and spaces.
    ("builtin.integer", 0),
    ("builtin.integer 32", 16),
    ("builtin.integer i0", 16),
    ("builtin.integer i8388609", 16),
    ("builtin.integer i18446744073709551648", 16),
    ("builtin.integer i-1", 16),
    ("llvm.ptr (16777216)", 10),
    ("llvm.ptr (18446744073709551616)", 10),
    ("llvm.ptr (i1)", 10),
    ("llvm.ptr ()", 10),
    ("llvm.ptr", 0),
    ("llvm.ptr (0", 10),
    // Functions.
    ("llvm.func llvm.void () variadic = false", 10),
    ("llvm.func <llvm.void () variadic = false", 35),
    ("llvm.func <llvm.void ()>", 23),
    ("llvm.func <llvm.void () variadic = maybe>", 35),
    ("llvm.func <llvm.void () variadic = 1>", 35),
    ("llvm.func <() variadic = false>", 11),
    ("llvm.func <llvm.void (,) variadic = false>", 22),
    ("llvm.func <llvm.void (llvm.void,) variadic = false>", 32),
    (
        "llvm.func <llvm.void (llvm.void llvm.void) variadic = false>",
        32,
    ),
    // Arrays.
    ("llvm.array", 0),
    ("llvm.array <2 x builtin.fp16>", 11),
    ("llvm.array [x builtin.fp16]", 12),
    ("llvm.array [2 builtin.fp16]", 14),
    ("llvm.array [2x builtin.fp16]", 12),
    ("llvm.array [2 x]", 15),
    ("llvm.array [2 x builtin.fp16", 16),
    ("llvm.array [2 x builtin.fp16 builtin.fp16]", 29),
    ("llvm.array [18446744073709551616 x builtin.fp16]", 12),
    ("llvm.array [-1 x builtin.fp16]", 12),
    ("llvm.array [vscale 2 x builtin.fp16]", 12),
    ("llvm.array [2 x llvm.void]", 25),
    // Vectors.
    ("llvm.vector [0 x builtin.fp16]", 29),
    ("llvm.vector [4294967296 x builtin.fp16]", 38),
    ("llvm.vector [vscale vscale 2 x builtin.fp16]", 20),
    ("llvm.vector [vscale2 x builtin.fp16]", 13),
    ("llvm.vector [2 vscale x builtin.fp16]", 15),
    ("llvm.vector [2 x llvm.array [2 x builtin.fp16]]", 46),
    ("llvm.vector [2 x llvm.struct <{}>]", 33),
    // Structs.
    ("llvm.struct {}", 12),
    ("llvm.struct <>", 13),
    ("llvm.struct <packed>", 19),
    ("llvm.struct <{,}>", 14),
    ("llvm.struct <{builtin.fp16,}>", 27),
    ("llvm.struct <{builtin.fp16 builtin.fp16}>", 27),
    ("llvm.struct <{} packed>", 16),
    ("llvm.struct <{llvm.void}>", 24),
    (
        "llvm.struct <{llvm.func <llvm.void () variadic = true>}>",
        55,
    ),
    ("llvm.struct <{builtin.fp16)>", 26),
    ("llvm.struct <{builtin.fp16}", 26),
    ("llvm.struct <@S>", 13),
    // Functions of types with parts.
    (
        "llvm.func <llvm.void (llvm.array [2 x llvm.void]) variadic = false>",
        47,
    ),
    ("llvm.func <llvm.void (builtin.fp16}) variadic = false>", 34),
    // More than a type.
    ("llvm.void llvm.void", 10),
];

/// Whether a text is read as the type that prints as the other text.
fn is_read(alloc: Global, text: &str, want: &str) -> bool {
    let mut types = TypeStore::new(alloc);
    let Ok(ty) = parse_type(alloc, &mut types, text.as_bytes()) else {
        return false;
    };
    let mut out = Vec::new(alloc);
    if types.print_type(ty, &mut out).is_err() {
        return false;
    }
    out.as_slice() == want.as_bytes()
}

/// Whether a text is refused at a place.
fn is_refused(alloc: Global, text: &str, place: u32) -> bool {
    let mut types = TypeStore::new(alloc);
    match parse_type(alloc, &mut types, text.as_bytes()) {
        Err(ParseErr::Syntax(at)) => at == place,
        _ => false,
    }
}

/// The number of the first row that is not read as it is to be, or how many there are.
fn first_misread(alloc: Global, rows: &[(&str, &str)]) -> usize {
    for (i, (text, want)) in rows.iter().enumerate() {
        if !is_read(alloc, text, want) {
            return i;
        }
    }
    rows.len()
}

/// The number of the first row that is not refused as it is to be, or how many there are.
fn first_taken(alloc: Global, rows: &[(&str, u32)]) -> usize {
    for (i, (text, place)) in rows.iter().enumerate() {
        if !is_refused(alloc, text, *place) {
            return i;
        }
    }
    rows.len()
}

/// A type that nests so many functions above `llvm.void`, each the result of the next.
fn nested(alloc: Global, functions: usize) -> Result<Vec<u8>, AllocError> {
    let mut text = Vec::new(alloc);
    for _ in 0..functions {
        text.extend_from_slice(b"llvm.func <")?;
    }
    text.extend_from_slice(b"llvm.void")?;
    for _ in 0..functions {
        text.extend_from_slice(b" () variadic = false>")?;
    }
    Ok(text)
}

/// Whether that type is read.
fn is_nested_read(alloc: Global, functions: usize) -> bool {
    let Ok(text) = nested(alloc, functions) else {
        return false;
    };
    let mut types = TypeStore::new(alloc);
    parse_type(alloc, &mut types, text.as_slice()).is_ok()
}

#[test]
fn texts_are_read_as_types(rt: HostRuntime) {
    assert_eq!(rt; first_misread(rt.alloc(), READ), 84);
}

#[test]
fn texts_that_are_no_types_are_refused(rt: HostRuntime) {
    assert_eq!(rt; first_taken(rt.alloc(), REFUSED), 73);
}

#[test]
fn types_nest_at_most_1000_deep(rt: HostRuntime) {
    assert!(rt; is_nested_read(rt.alloc(), 999));
    assert!(rt; !is_nested_read(rt.alloc(), 1000));
}
