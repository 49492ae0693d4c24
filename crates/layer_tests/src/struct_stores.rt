//! Structs with a name in a store of types: what asking for one answers where the store has one of that name and where it has
//! none, and texts of types that name those of a store.

ghost use Rattle.std.specs.Prelude.{◌≡◌, ◌<◌, true, All, IfSome, length};
ghost use Rattle.kinds.specs.Types.{shape};
ghost use Rattle.kinds.specs.Fitting.{is_field};
ghost use Rattle.dialect_types.specs.Trees.{AllBelow, type_at, type_trees};

use dialect_core::type_tests::shape_of;
use dialect_parsing::parse_err::ParseErr;
use dialect_parsing::parsing::parse_type;
use dialect_types::legaliser::Legaliser;
use dialect_types::struct_err::StructErr;
use dialect_types::type_store::TypeStore;
use dialect_types::types::{StructFields, TypeHandle, TypeKind};
use kinds::fitting::is_field;
use kinds::types::StructLayout;
use std::alloc::Global;
use support::items::Items;

/// The body of a struct.
#[derive(Clone, Copy)]
enum Body {
    /// It is not told.
    Opaque,
    /// No fields.
    Empty,
    /// An integer of that width.
    Int(u32),
    /// The same, packed.
    Packed(u32),
}

/// What one store is asked for in turn, a name and a body, and the number that it answers; none where it holds a struct of that
/// name with another body.
const ASKED: &[(&str, Body, Option<u32>)] = &[
    // `i32` is the type 0, and `i64` then 2
    ("S", Body::Int(32), Some(1)),
    ("S", Body::Int(64), None),
    ("S", Body::Int(32), Some(1)),
    ("S", Body::Packed(32), None),
    ("S", Body::Empty, None),
    ("S", Body::Opaque, None),
    ("T", Body::Opaque, Some(3)),
    ("T", Body::Empty, None),
    ("T", Body::Opaque, Some(3)),
    ("E", Body::Empty, Some(4)),
    ("E", Body::Opaque, None),
    // the same body under another name, and another letter
    ("s", Body::Int(32), Some(5)),
    ("P", Body::Packed(64), Some(6)),
    ("S", Body::Int(32), Some(1)),
];

/// The lines of the structs that it then has.
const LINES: &str = "  llvm.struct @S = {builtin.integer i32}
  llvm.struct @T = opaque
  llvm.struct @E = {}
  llvm.struct @s = {builtin.integer i32}
  llvm.struct @P = packed {builtin.integer i64}
";

/// Texts, each with the text that its type prints as where the store has these structs, or the place that is told.
const READ: &[(&str, Result<&str, u32>)] = &[
    ("llvm.struct <@S>", Ok("llvm.struct <@S>")),
    ("llvm.struct<@S>", Ok("llvm.struct <@S>")),
    (" llvm.struct\n< @T > ", Ok("llvm.struct <@T>")),
    (
        "llvm.array [2 x llvm.struct <@S>]",
        Ok("llvm.array [2 x llvm.struct <@S>]"),
    ),
    (
        "llvm.struct <{llvm.struct <@S>, builtin.fp32, llvm.struct <@T>}>",
        Ok("llvm.struct <{llvm.struct <@S>, builtin.fp32, llvm.struct <@T>}>"),
    ),
    (
        "llvm.struct<packed{llvm.array[3 x llvm.struct<{llvm.struct<@E>}>]}>",
        Ok("llvm.struct <packed {llvm.array [3 x llvm.struct <{llvm.struct <@E>}>]}>"),
    ),
    (
        "llvm.func <llvm.struct <@P> (llvm.struct <@S>, llvm.struct <@s>) variadic = false>",
        Ok("llvm.func <llvm.struct <@P> (llvm.struct <@S>, llvm.struct <@s>) variadic = false>"),
    ),
    // a name that no struct of the store has
    ("llvm.struct <@X>", Err(13)),
    ("llvm.struct <@p>", Err(13)),
    ("llvm.struct <@S_>", Err(13)),
    ("llvm.struct <@>", Err(13)),
    ("llvm.array [2 x llvm.struct <@X>]", Err(29)),
    ("llvm.struct <{builtin.fp16, llvm.struct <@X>}>", Err(41)),
    // not written so
    ("llvm.struct <S>", Err(13)),
    ("llvm.struct <@S", Err(13)),
    ("llvm.struct @S", Err(12)),
    ("llvm.struct <@S, builtin.fp16>", Err(15)),
    ("llvm.struct <packed @S>", Err(20)),
    ("llvm.vector [2 x llvm.struct <@S>]", Err(33)),
];

// ---- asking: None says that there is no memory

/// An integer type.
fn int(types: &mut TypeStore, width: u32) -> Option<TypeHandle>
    ensures { IfSome result (λ t. t.0 < length types.new) }
{
    types.get(TypeKind::Integer(width)).ok()
}

/// The fields of a struct of one integer.
fn of_int(
    alloc: Global,
    types: &mut TypeStore,
    width: u32,
    layout: StructLayout,
) -> Option<StructFields>
    ensures below { IfSome result (λ b. AllBelow (length types.new) b.types) }
    ensures fit { IfSome result (λ b. All (λ t. is_field (shape (type_at (type_trees types.new) t)) ≡ true) b.types) }
{
    let int = int(types, width)?;
    if !is_field(shape_of(types.kind(int))) {
        return None;
    }
    let mut fields = Items::new(alloc);
    fields.push(int).ok()?;
    Some(StructFields {
        types: fields,
        layout,
    })
}

/// The fields that a body says.
fn fields(alloc: Global, types: &mut TypeStore, body: Body) -> Option<Option<StructFields>>
    ensures below { IfSome result (λ f. IfSome f (λ b. AllBelow (length types.new) b.types)) }
    ensures fit { IfSome result (λ f. IfSome f (λ b. All (λ t. is_field (shape (type_at (type_trees types.new) t)) ≡ true) b.types)) }
{
    match body {
        Body::Opaque => Some(None),
        Body::Empty => Some(Some(StructFields {
            types: Items::new(alloc),
            layout: StructLayout::Unpacked,
        })),
        Body::Int(width) => Some(Some(of_int(alloc, types, width, StructLayout::Unpacked)?)),
        Body::Packed(width) => Some(Some(of_int(alloc, types, width, StructLayout::Packed)?)),
    }
}

/// Whether this is the answer to who asks for a struct of that name.
fn is_answer(answer: Result<TypeHandle, StructErr>, name: &str, want: Option<u32>) -> bool {
    match answer {
        Ok(ty) => want == Some(ty.0),
        Err(StructErr::DifferentBody(of)) => want.is_none() && of.as_str() == name,
        Err(StructErr::NoMemory) => false,
    }
}

/// Asks for a struct, and says whether the answer is this one.
fn ask(
    alloc: Global,
    types: &mut TypeStore,
    name: &str,
    body: Body,
    want: Option<u32>,
) -> Option<bool> {
    let body = fields(alloc, types, body)?;
    let identifier = Legaliser::new(alloc).legalise(name).ok()?;
    Some(is_answer(types.get_named(identifier, body), name, want))
}

/// The number of the first row that is answered otherwise, or how many there are.
fn first_misanswered(
    alloc: Global,
    types: &mut TypeStore,
    rows: &[(&str, Body, Option<u32>)],
) -> usize {
    for (i, (name, body, want)) in rows.iter().enumerate() {
        if ask(alloc, types, name, *body, *want) != Some(true) {
            return i;
        }
    }
    rows.len()
}

/// Whether these are the lines of the structs of a store.
pub fn has_lines(alloc: Global, types: &TypeStore, want: &str) -> bool {
    let mut out = Vec::new(alloc);
    match types.append_structs(&mut out) {
        Ok(()) => out.as_slice() == want.as_bytes(),
        Err(_) => false,
    }
}

/// Whether a store has a struct of that name, as the type of that number, if any.
fn finds(types: &TypeStore, name: &str, want: Option<u32>) -> bool {
    match types.named(name) {
        Some(ty) => want == Some(ty.0),
        None => want.is_none(),
    }
}

/// What is wrong with the answers of an empty store, or with what it then has, if anything.
fn asked_fault(alloc: Global, types: &mut TypeStore) -> &'static str {
    if first_misanswered(alloc, types, ASKED) != ASKED.len() {
        "an answer"
    } else if !has_lines(alloc, types, LINES) {
        "the lines"
    } else if !finds(types, "s", Some(5)) || !finds(types, "p", None) || !finds(types, "", None) {
        "a name"
    } else {
        ""
    }
}

/// The same of a new store.
fn store_fault(alloc: Global) -> &'static str {
    let mut types = TypeStore::new(alloc);
    asked_fault(alloc, &mut types)
}

#[test]
fn a_store_has_one_struct_of_a_name(rt: HostRuntime) {
    assert_eq!(rt; store_fault(rt.alloc()), "");
}

// ---- texts that name structs

/// Whether the type of a number prints as this.
fn is_printed(alloc: Global, types: &TypeStore, ty: TypeHandle, want: &str) -> bool
    requires { ty.0 < length types.now }
{
    let mut out = Vec::new(alloc);
    match types.print_type(ty, &mut out) {
        Ok(()) => out.as_slice() == want.as_bytes(),
        Err(_) => false,
    }
}

/// Whether a text is read in a store as the type that prints so, or refused at that place.
fn is_read(alloc: Global, types: &mut TypeStore, text: &str, want: Result<&str, u32>) -> bool {
    match (parse_type(alloc, types, text.as_bytes()), want) {
        (Ok(ty), Ok(want)) => is_printed(alloc, types, ty, want),
        (Err(ParseErr::Syntax(at)), Err(place)) => at == place,
        _ => false,
    }
}

/// The number of the first text that is read otherwise, or how many there are.
fn first_misread(
    alloc: Global,
    types: &mut TypeStore,
    rows: &[(&str, Result<&str, u32>)],
) -> usize {
    for (i, (text, want)) in rows.iter().enumerate() {
        if !is_read(alloc, types, text, *want) {
            return i;
        }
    }
    rows.len()
}

/// The number of the first text that is read otherwise in a store of structs, or how many there are.
fn misread(alloc: Global) -> usize {
    let mut types = TypeStore::new(alloc);
    if first_misanswered(alloc, &mut types, ASKED) != ASKED.len() {
        return usize::MAX;
    }
    first_misread(alloc, &mut types, READ)
}

#[test]
fn texts_name_the_structs_of_a_store(rt: HostRuntime) {
    assert_eq!(rt; misread(rt.alloc()), 19);
}
