//! Texts of constants: how each prints, its type, and the first rule that it breaks.

ghost use Rattle.std.specs.Prelude.{◌<◌, length};
ghost use Rattle.const_attrs.specs.Trees.{attr_data, HasTypesBelow};

use crate::store::store;
use const_attrs::attr_err::AttrErr;
use const_attrs::const_attr::ConstAttr;
use dialect_parsing::parsing::parse_attr;
use dialect_types::type_store::TypeStore;
use dialect_types::types::TypeHandle;
use std::alloc::Global;

/// The text of a constant, and what was worked out of it by hand.
#[derive(Clone, Copy)]
struct Row {
    text: &'static str,
    /// The text that it prints as.
    printed: &'static str,
    /// The text of its type.
    ty: &'static str,
    /// The first rule that it breaks.
    fault: Option<AttrErr>,
}

const ROWS: &[Row] = &[
    // Integers.
    Row {
        text: "builtin.integer <7: i32>",
        printed: "builtin.integer <7: i32>",
        ty: "builtin.integer i32",
        fault: None,
    },
    Row {
        text: "builtin.integer<7:i32>",
        printed: "builtin.integer <7: i32>",
        ty: "builtin.integer i32",
        fault: None,
    },
    Row {
        text: "builtin.integer <007: i032>",
        printed: "builtin.integer <7: i32>",
        ty: "builtin.integer i32",
        fault: None,
    },
    Row {
        text: "builtin.integer <0: i1>",
        printed: "builtin.integer <0: i1>",
        ty: "builtin.integer i1",
        fault: None,
    },
    Row {
        text: "builtin.integer <1: i1>",
        printed: "builtin.integer <1: i1>",
        ty: "builtin.integer i1",
        fault: None,
    },
    Row {
        text: "builtin.integer <2: i1>",
        printed: "builtin.integer <2: i1>",
        ty: "builtin.integer i1",
        fault: Some(AttrErr::IntRange),
    },
    Row {
        text: "builtin.integer <255: i8>",
        printed: "builtin.integer <255: i8>",
        ty: "builtin.integer i8",
        fault: None,
    },
    Row {
        text: "builtin.integer <256: i8>",
        printed: "builtin.integer <256: i8>",
        ty: "builtin.integer i8",
        fault: Some(AttrErr::IntRange),
    },
    Row {
        text: "builtin.integer <18446744073709551615: i64>",
        printed: "builtin.integer <18446744073709551615: i64>",
        ty: "builtin.integer i64",
        fault: None,
    },
    Row {
        text: "builtin.integer <9223372036854775807: i63>",
        printed: "builtin.integer <9223372036854775807: i63>",
        ty: "builtin.integer i63",
        fault: None,
    },
    Row {
        text: "builtin.integer <9223372036854775808: i63>",
        printed: "builtin.integer <9223372036854775808: i63>",
        ty: "builtin.integer i63",
        fault: Some(AttrErr::IntRange),
    },
    Row {
        text: "builtin.integer <0: i65>",
        printed: "builtin.integer <0: i65>",
        ty: "builtin.integer i65",
        fault: Some(AttrErr::IntRange),
    },
    Row {
        text: "builtin.integer <5: i8388608>",
        printed: "builtin.integer <5: i8388608>",
        ty: "builtin.integer i8388608",
        fault: Some(AttrErr::IntRange),
    },
    // Zero, undef and poison.
    Row {
        text: "llvm.zero <llvm.ptr (0)>",
        printed: "llvm.zero <llvm.ptr (0)>",
        ty: "llvm.ptr (0)",
        fault: None,
    },
    Row {
        text: "llvm.zero <llvm.array [4 x builtin.fp32]>",
        printed: "llvm.zero <llvm.array [4 x builtin.fp32]>",
        ty: "llvm.array [4 x builtin.fp32]",
        fault: None,
    },
    Row {
        text: "llvm.undef <builtin.integer i32>",
        printed: "llvm.undef <builtin.integer i32>",
        ty: "builtin.integer i32",
        fault: None,
    },
    Row {
        text: "llvm.poison <llvm.vector [4 x builtin.integer i1]>",
        printed: "llvm.poison <llvm.vector [4 x builtin.integer i1]>",
        ty: "llvm.vector [4 x builtin.integer i1]",
        fault: None,
    },
    Row {
        text: "llvm.poison<llvm.vector[vscale 4 x llvm.ptr(3)]>",
        printed: "llvm.poison <llvm.vector [vscale 4 x llvm.ptr (3)]>",
        ty: "llvm.vector [vscale 4 x llvm.ptr (3)]",
        fault: None,
    },
    Row {
        text: "llvm.undef <llvm.struct <@S>>",
        printed: "llvm.undef <llvm.struct <@S>>",
        ty: "llvm.struct <@S>",
        fault: None,
    },
    Row {
        text: "llvm.zero <llvm.struct <@T>>",
        printed: "llvm.zero <llvm.struct <@T>>",
        ty: "llvm.struct <@T>",
        fault: None,
    },
    Row {
        text: "llvm.zero <llvm.void>",
        printed: "llvm.zero <llvm.void>",
        ty: "llvm.void",
        fault: None,
    },
    // Bytes.
    Row {
        text: "llvm.bytes <[104, 105]>",
        printed: "llvm.bytes <[104, 105]>",
        ty: "llvm.array [2 x builtin.integer i8]",
        fault: None,
    },
    Row {
        text: "llvm.bytes <[]>",
        printed: "llvm.bytes <[]>",
        ty: "llvm.array [0 x builtin.integer i8]",
        fault: None,
    },
    Row {
        text: "llvm.bytes <[0]>",
        printed: "llvm.bytes <[0]>",
        ty: "llvm.array [1 x builtin.integer i8]",
        fault: None,
    },
    Row {
        text: "llvm.bytes<[0,255,34,92]>",
        printed: "llvm.bytes <[0, 255, 34, 92]>",
        ty: "llvm.array [4 x builtin.integer i8]",
        fault: None,
    },
    Row {
        text: "llvm.bytes <[007]>",
        printed: "llvm.bytes <[7]>",
        ty: "llvm.array [1 x builtin.integer i8]",
        fault: None,
    },
    // Arrays: the count, then the types, then the elements in order.
    Row {
        text: "llvm.aggregate <[] : llvm.array [0 x builtin.fp64]>",
        printed: "llvm.aggregate <[] : llvm.array [0 x builtin.fp64]>",
        ty: "llvm.array [0 x builtin.fp64]",
        fault: None,
    },
    Row {
        text: "llvm.aggregate <[] : llvm.array [1 x builtin.fp64]>",
        printed: "llvm.aggregate <[] : llvm.array [1 x builtin.fp64]>",
        ty: "llvm.array [1 x builtin.fp64]",
        fault: Some(AttrErr::ElementCount),
    },
    Row {
        text: "llvm.aggregate <[builtin.integer <1: i16>, builtin.integer <2: i16>] : llvm.array [2 x builtin.integer i16]>",
        printed: "llvm.aggregate <[builtin.integer <1: i16>, builtin.integer <2: i16>] : llvm.array [2 x builtin.integer i16]>",
        ty: "llvm.array [2 x builtin.integer i16]",
        fault: None,
    },
    Row {
        text: "llvm.aggregate <[builtin.integer <1: i16>, builtin.integer <2: i16>] : llvm.array [3 x builtin.integer i16]>",
        printed: "llvm.aggregate <[builtin.integer <1: i16>, builtin.integer <2: i16>] : llvm.array [3 x builtin.integer i16]>",
        ty: "llvm.array [3 x builtin.integer i16]",
        fault: Some(AttrErr::ElementCount),
    },
    Row {
        text: "llvm.aggregate <[builtin.integer <1: i16>, builtin.integer <2: i16>] : llvm.array [1 x builtin.integer i16]>",
        printed: "llvm.aggregate <[builtin.integer <1: i16>, builtin.integer <2: i16>] : llvm.array [1 x builtin.integer i16]>",
        ty: "llvm.array [1 x builtin.integer i16]",
        fault: Some(AttrErr::ElementCount),
    },
    Row {
        text: "llvm.aggregate <[builtin.integer <1: i16>, builtin.integer <2: i8>] : llvm.array [2 x builtin.integer i16]>",
        printed: "llvm.aggregate <[builtin.integer <1: i16>, builtin.integer <2: i8>] : llvm.array [2 x builtin.integer i16]>",
        ty: "llvm.array [2 x builtin.integer i16]",
        fault: Some(AttrErr::ElementType),
    },
    Row {
        text: "llvm.aggregate <[builtin.integer <1: i16>, builtin.integer <65536: i16>] : llvm.array [2 x builtin.integer i16]>",
        printed: "llvm.aggregate <[builtin.integer <1: i16>, builtin.integer <65536: i16>] : llvm.array [2 x builtin.integer i16]>",
        ty: "llvm.array [2 x builtin.integer i16]",
        fault: Some(AttrErr::IntRange),
    },
    Row {
        text: "llvm.aggregate <[builtin.integer <1: i8>] : llvm.array [2 x builtin.integer i16]>",
        printed: "llvm.aggregate <[builtin.integer <1: i8>] : llvm.array [2 x builtin.integer i16]>",
        ty: "llvm.array [2 x builtin.integer i16]",
        fault: Some(AttrErr::ElementCount),
    },
    Row {
        text: "llvm.aggregate <[builtin.integer <256: i8>, builtin.integer <1: i16>] : llvm.array [2 x builtin.integer i8]>",
        printed: "llvm.aggregate <[builtin.integer <256: i8>, builtin.integer <1: i16>] : llvm.array [2 x builtin.integer i8]>",
        ty: "llvm.array [2 x builtin.integer i8]",
        fault: Some(AttrErr::ElementType),
    },
    Row {
        text: "llvm.aggregate <[builtin.integer <256: i8>, builtin.integer <1: i8>] : llvm.array [2 x builtin.integer i8]>",
        printed: "llvm.aggregate <[builtin.integer <256: i8>, builtin.integer <1: i8>] : llvm.array [2 x builtin.integer i8]>",
        ty: "llvm.array [2 x builtin.integer i8]",
        fault: Some(AttrErr::IntRange),
    },
    // Vectors.
    Row {
        text: "llvm.aggregate <[builtin.integer <0: i1>, llvm.undef <builtin.integer i1>] : llvm.vector [2 x builtin.integer i1]>",
        printed: "llvm.aggregate <[builtin.integer <0: i1>, llvm.undef <builtin.integer i1>] : llvm.vector [2 x builtin.integer i1]>",
        ty: "llvm.vector [2 x builtin.integer i1]",
        fault: None,
    },
    Row {
        text: "llvm.aggregate <[builtin.integer <0: i1>, builtin.integer <1: i1>] : llvm.vector [vscale 2 x builtin.integer i1]>",
        printed: "llvm.aggregate <[builtin.integer <0: i1>, builtin.integer <1: i1>] : llvm.vector [vscale 2 x builtin.integer i1]>",
        ty: "llvm.vector [vscale 2 x builtin.integer i1]",
        fault: Some(AttrErr::ElementCount),
    },
    // Structs.
    Row {
        text: "llvm.aggregate <[llvm.zero <llvm.ptr (0)>, builtin.integer <3: i8>] : llvm.struct <{llvm.ptr (0), builtin.integer i8}>>",
        printed: "llvm.aggregate <[llvm.zero <llvm.ptr (0)>, builtin.integer <3: i8>] : llvm.struct <{llvm.ptr (0), builtin.integer i8}>>",
        ty: "llvm.struct <{llvm.ptr (0), builtin.integer i8}>",
        fault: None,
    },
    Row {
        text: "llvm.aggregate <[llvm.zero <llvm.ptr (0)>, builtin.integer <3: i8>] : llvm.struct <packed {llvm.ptr (0), builtin.integer i8}>>",
        printed: "llvm.aggregate <[llvm.zero <llvm.ptr (0)>, builtin.integer <3: i8>] : llvm.struct <packed {llvm.ptr (0), builtin.integer i8}>>",
        ty: "llvm.struct <packed {llvm.ptr (0), builtin.integer i8}>",
        fault: None,
    },
    Row {
        text: "llvm.aggregate <[builtin.integer <3: i8>, llvm.zero <llvm.ptr (0)>] : llvm.struct <{llvm.ptr (0), builtin.integer i8}>>",
        printed: "llvm.aggregate <[builtin.integer <3: i8>, llvm.zero <llvm.ptr (0)>] : llvm.struct <{llvm.ptr (0), builtin.integer i8}>>",
        ty: "llvm.struct <{llvm.ptr (0), builtin.integer i8}>",
        fault: Some(AttrErr::ElementType),
    },
    Row {
        text: "llvm.aggregate <[llvm.zero <llvm.ptr (0)>] : llvm.struct <{llvm.ptr (0), builtin.integer i8}>>",
        printed: "llvm.aggregate <[llvm.zero <llvm.ptr (0)>] : llvm.struct <{llvm.ptr (0), builtin.integer i8}>>",
        ty: "llvm.struct <{llvm.ptr (0), builtin.integer i8}>",
        fault: Some(AttrErr::ElementCount),
    },
    Row {
        text: "llvm.aggregate <[] : llvm.struct <{}>>",
        printed: "llvm.aggregate <[] : llvm.struct <{}>>",
        ty: "llvm.struct <{}>",
        fault: None,
    },
    Row {
        text: "llvm.aggregate <[builtin.integer <3: i32>] : llvm.struct <@S>>",
        printed: "llvm.aggregate <[builtin.integer <3: i32>] : llvm.struct <@S>>",
        ty: "llvm.struct <@S>",
        fault: None,
    },
    Row {
        text: "llvm.aggregate <[builtin.integer <3: i64>] : llvm.struct <@S>>",
        printed: "llvm.aggregate <[builtin.integer <3: i64>] : llvm.struct <@S>>",
        ty: "llvm.struct <@S>",
        fault: Some(AttrErr::ElementType),
    },
    Row {
        text: "llvm.aggregate <[] : llvm.struct <@S>>",
        printed: "llvm.aggregate <[] : llvm.struct <@S>>",
        ty: "llvm.struct <@S>",
        fault: Some(AttrErr::ElementCount),
    },
    Row {
        text: "llvm.aggregate <[] : llvm.struct <@T>>",
        printed: "llvm.aggregate <[] : llvm.struct <@T>>",
        ty: "llvm.struct <@T>",
        fault: Some(AttrErr::ElementCount),
    },
    Row {
        text: "llvm.aggregate <[] : llvm.struct <@E>>",
        printed: "llvm.aggregate <[] : llvm.struct <@E>>",
        ty: "llvm.struct <@E>",
        fault: None,
    },
    Row {
        text: "llvm.aggregate <[llvm.undef <llvm.struct <@S>>] : llvm.array [1 x llvm.struct <@E>]>",
        printed: "llvm.aggregate <[llvm.undef <llvm.struct <@S>>] : llvm.array [1 x llvm.struct <@E>]>",
        ty: "llvm.array [1 x llvm.struct <@E>]",
        fault: Some(AttrErr::ElementType),
    },
    Row {
        text: "llvm.aggregate <[llvm.undef <llvm.struct <@S>>] : llvm.array [1 x llvm.struct <@S>]>",
        printed: "llvm.aggregate <[llvm.undef <llvm.struct <@S>>] : llvm.array [1 x llvm.struct <@S>]>",
        ty: "llvm.array [1 x llvm.struct <@S>]",
        fault: None,
    },
    // Types without elements.
    Row {
        text: "llvm.aggregate <[builtin.integer <1: i8>] : builtin.integer i8>",
        printed: "llvm.aggregate <[builtin.integer <1: i8>] : builtin.integer i8>",
        ty: "builtin.integer i8",
        fault: Some(AttrErr::ElementCount),
    },
    Row {
        text: "llvm.aggregate <[] : llvm.ptr (0)>",
        printed: "llvm.aggregate <[] : llvm.ptr (0)>",
        ty: "llvm.ptr (0)",
        fault: Some(AttrErr::ElementCount),
    },
    // Bytes as elements.
    Row {
        text: "llvm.aggregate <[llvm.bytes <[1, 2]>, llvm.bytes <[3, 4]>] : llvm.array [2 x llvm.array [2 x builtin.integer i8]]>",
        printed: "llvm.aggregate <[llvm.bytes <[1, 2]>, llvm.bytes <[3, 4]>] : llvm.array [2 x llvm.array [2 x builtin.integer i8]]>",
        ty: "llvm.array [2 x llvm.array [2 x builtin.integer i8]]",
        fault: None,
    },
    Row {
        text: "llvm.aggregate <[llvm.bytes <[1, 2]>, llvm.bytes <[3]>] : llvm.array [2 x llvm.array [2 x builtin.integer i8]]>",
        printed: "llvm.aggregate <[llvm.bytes <[1, 2]>, llvm.bytes <[3]>] : llvm.array [2 x llvm.array [2 x builtin.integer i8]]>",
        ty: "llvm.array [2 x llvm.array [2 x builtin.integer i8]]",
        fault: Some(AttrErr::ElementType),
    },
    Row {
        text: "llvm.aggregate <[llvm.bytes <[1, 2]>] : llvm.array [1 x llvm.array [2 x builtin.integer i16]]>",
        printed: "llvm.aggregate <[llvm.bytes <[1, 2]>] : llvm.array [1 x llvm.array [2 x builtin.integer i16]]>",
        ty: "llvm.array [1 x llvm.array [2 x builtin.integer i16]]",
        fault: Some(AttrErr::ElementType),
    },
    Row {
        text: "llvm.aggregate <[llvm.bytes <[1, 2]>] : llvm.array [1 x llvm.vector [2 x builtin.integer i8]]>",
        printed: "llvm.aggregate <[llvm.bytes <[1, 2]>] : llvm.array [1 x llvm.vector [2 x builtin.integer i8]]>",
        ty: "llvm.array [1 x llvm.vector [2 x builtin.integer i8]]",
        fault: Some(AttrErr::ElementType),
    },
    // The first fault of a walk.
    Row {
        text: "llvm.aggregate <[llvm.aggregate <[] : llvm.array [1 x builtin.integer i8]>, builtin.integer <300: i8>] : llvm.struct <{llvm.array [1 x builtin.integer i8], builtin.integer i8}>>",
        printed: "llvm.aggregate <[llvm.aggregate <[] : llvm.array [1 x builtin.integer i8]>, builtin.integer <300: i8>] : llvm.struct <{llvm.array [1 x builtin.integer i8], builtin.integer i8}>>",
        ty: "llvm.struct <{llvm.array [1 x builtin.integer i8], builtin.integer i8}>",
        fault: Some(AttrErr::ElementCount),
    },
    Row {
        text: "llvm.aggregate <[builtin.integer <300: i8>, llvm.aggregate <[] : llvm.array [1 x builtin.integer i8]>] : llvm.struct <{builtin.integer i8, llvm.array [1 x builtin.integer i8]}>>",
        printed: "llvm.aggregate <[builtin.integer <300: i8>, llvm.aggregate <[] : llvm.array [1 x builtin.integer i8]>] : llvm.struct <{builtin.integer i8, llvm.array [1 x builtin.integer i8]}>>",
        ty: "llvm.struct <{builtin.integer i8, llvm.array [1 x builtin.integer i8]}>",
        fault: Some(AttrErr::IntRange),
    },
    // A struct of an array of vectors of pointers.
    Row {
        text: "llvm.aggregate <[llvm.aggregate <[llvm.undef <llvm.vector [2 x llvm.ptr (1)]>, llvm.poison <llvm.vector [2 x llvm.ptr (1)]>] : llvm.array [2 x llvm.vector [2 x llvm.ptr (1)]]>] : llvm.struct <{llvm.array [2 x llvm.vector [2 x llvm.ptr (1)]]}>>",
        printed: "llvm.aggregate <[llvm.aggregate <[llvm.undef <llvm.vector [2 x llvm.ptr (1)]>, llvm.poison <llvm.vector [2 x llvm.ptr (1)]>] : llvm.array [2 x llvm.vector [2 x llvm.ptr (1)]]>] : llvm.struct <{llvm.array [2 x llvm.vector [2 x llvm.ptr (1)]]}>>",
        ty: "llvm.struct <{llvm.array [2 x llvm.vector [2 x llvm.ptr (1)]]}>",
        fault: None,
    },
    // Splats.
    Row {
        text: "llvm.splat <builtin.integer <7: i8> : llvm.vector [4 x builtin.integer i8]>",
        printed: "llvm.splat <builtin.integer <7: i8> : llvm.vector [4 x builtin.integer i8]>",
        ty: "llvm.vector [4 x builtin.integer i8]",
        fault: None,
    },
    Row {
        text: "llvm.splat <builtin.integer <7: i8> : llvm.vector [vscale 4 x builtin.integer i8]>",
        printed: "llvm.splat <builtin.integer <7: i8> : llvm.vector [vscale 4 x builtin.integer i8]>",
        ty: "llvm.vector [vscale 4 x builtin.integer i8]",
        fault: None,
    },
    Row {
        text: "llvm.splat <builtin.integer <7: i16> : llvm.vector [4 x builtin.integer i8]>",
        printed: "llvm.splat <builtin.integer <7: i16> : llvm.vector [4 x builtin.integer i8]>",
        ty: "llvm.vector [4 x builtin.integer i8]",
        fault: Some(AttrErr::ElementType),
    },
    Row {
        text: "llvm.splat <builtin.integer <7: i8> : llvm.array [4 x builtin.integer i8]>",
        printed: "llvm.splat <builtin.integer <7: i8> : llvm.array [4 x builtin.integer i8]>",
        ty: "llvm.array [4 x builtin.integer i8]",
        fault: Some(AttrErr::ElementCount),
    },
    Row {
        text: "llvm.splat <builtin.integer <256: i8> : llvm.vector [4 x builtin.integer i8]>",
        printed: "llvm.splat <builtin.integer <256: i8> : llvm.vector [4 x builtin.integer i8]>",
        ty: "llvm.vector [4 x builtin.integer i8]",
        fault: Some(AttrErr::IntRange),
    },
    Row {
        text: "llvm.splat<llvm.zero<llvm.ptr(0)>:llvm.vector[2 x llvm.ptr(0)]>",
        printed: "llvm.splat <llvm.zero <llvm.ptr (0)> : llvm.vector [2 x llvm.ptr (0)]>",
        ty: "llvm.vector [2 x llvm.ptr (0)]",
        fault: None,
    },
    // Blanks.
    Row {
        text: " llvm.aggregate\t<\n[ llvm.undef < builtin.fp16 > ,llvm.poison<builtin.fp16>]:llvm.array[2 x builtin.fp16]>\r\n",
        printed: "llvm.aggregate <[llvm.undef <builtin.fp16>, llvm.poison <builtin.fp16>] : llvm.array [2 x builtin.fp16]>",
        ty: "llvm.array [2 x builtin.fp16]",
        fault: None,
    },
];

/// Whether a constant prints so.
fn is_printed(alloc: Global, types: &TypeStore, constant: &ConstAttr, want: &str) -> bool
    requires { HasTypesBelow (length types.now) (attr_data constant.now) }
{
    let mut out = Vec::new(alloc);
    match constant.print(types, &mut out) {
        Ok(()) => out.as_slice() == want.as_bytes(),
        Err(_) => false,
    }
}

/// Whether a copy of a constant equals it and prints so.
fn is_copied(alloc: Global, types: &TypeStore, constant: &ConstAttr, want: &str) -> bool
    requires { HasTypesBelow (length types.now) (attr_data constant.now) }
{
    match constant.clone(alloc) {
        Ok(copy) => copy == *constant && is_printed(alloc, types, &copy, want),
        Err(_) => false,
    }
}

/// Whether a type prints so.
fn is_type(alloc: Global, types: &TypeStore, ty: TypeHandle, want: &str) -> bool
    requires { ty.0 < length types.now }
{
    let mut out = Vec::new(alloc);
    match types.print_type(ty, &mut out) {
        Ok(()) => out.as_slice() == want.as_bytes(),
        Err(_) => false,
    }
}

/// Whether a constant has the type that prints so.
fn is_typed(alloc: Global, types: &mut TypeStore, constant: &ConstAttr, want: &str) -> bool
    requires { HasTypesBelow (length types.old) (attr_data constant.now) }
{
    match constant.type_of(types) {
        Ok(ty) => is_type(alloc, types, ty, want),
        Err(_) => false,
    }
}

/// Whether a row's text is read as it is to be.
fn is_read(alloc: Global, row: &Row) -> bool {
    let Some(mut types) = store(alloc) else {
        return false;
    };
    let Ok(constant) = parse_attr(alloc, &mut types, row.text.as_bytes()) else {
        return false;
    };
    is_printed(alloc, &types, &constant, row.printed)
        && is_copied(alloc, &types, &constant, row.printed)
        && constant.verify(&types).err() == row.fault
        && is_typed(alloc, &mut types, &constant, row.ty)
}

/// The number of the first row that is not, or how many there are.
fn first_misread(alloc: Global) -> usize {
    for (i, row) in ROWS.iter().enumerate() {
        if !is_read(alloc, row) {
            return i;
        }
    }
    ROWS.len()
}

#[test]
fn texts_are_read_as_constants(rt: HostRuntime) {
    assert_eq!(rt; first_misread(rt.alloc()), 66);
}
