//! Types of a module converted one by one into a context: what the type becomes, the structs that the context then has, what is
//! given by the way, and what is refused.

ghost use Rattle.std.specs.Prelude.{◌≡◌, ◌<◌, IfSome, Some, length, slice_get};
ghost use Rattle.std.specs.Option.{option_map};
ghost use Rattle.llvm_core.specs.Checked.{IsChecked};
ghost use Rattle.from_consts.specs.Given.{IsContextFor};

use crate::struct_stores::has_lines;
use dialect_core::context::Context;
use dialect_types::struct_err::StructErr;
use dialect_types::types::TypeHandle;
use from_consts::const_context::ConstContext;
use from_consts::conversion_err::{ConversionErr, Unsupported};
use from_consts::laws::checked_types_nest;
use from_consts::types::convert_type;
use kinds::types::OtherType;
use ll_text::read::read_ll;
use llvm_core::module::LLVMModule;
use llvm_core::numbers::{LLVMFunction, LLVMType};
use llvm_core::types::LLVMTypeKind;
use std::alloc::Global;

/// A text, of whose first function the type is converted; the text of that in the dialect; the lines of the structs that the
/// context then has.
type Row = (&'static str, &'static str, &'static str);

const ROWS: &[Row] = &[
    (
        "define void @f() { ret void }",
        "llvm.func <llvm.void () variadic = false>",
        "",
    ),
    (
        "define { i1, <{ half }> } @f([2 x i7] %a, <vscale x 4 x ptr addrspace(3)> %b) { unreachable }",
        "llvm.func <llvm.struct <{builtin.integer i1, llvm.struct <packed {builtin.fp16}>}> (llvm.array [2 x builtin.integer i7], llvm.vector [vscale 4 x llvm.ptr (3)]) variadic = false>",
        "",
    ),
    // a struct behind those in it, under its identifier; one that no part names is left out
    (
        "%S = type { i8, [2 x %\"a b\"] } %\"a b\" = type <{ ptr, %O }> %O = type opaque %N = type {}
         define %S @f({ %S, %O } %x) { unreachable }",
        "llvm.func <llvm.struct <@S> (llvm.struct <{llvm.struct <@S>, llvm.struct <@O>}>) variadic = false>",
        "  llvm.struct @O = opaque
  llvm.struct @a_b = packed {llvm.ptr (0), llvm.struct <@O>}
  llvm.struct @S = {builtin.integer i8, llvm.array [2 x llvm.struct <@a_b>]}
",
    ),
    // two names that ask for one identifier: that of the struct that is met first
    (
        "%\"a.b\" = type { i8 } %a_b = type { %\"a.b\" } define void @f(%a_b %x, %\"a.b\" %y) { ret void }",
        "llvm.func <llvm.void (llvm.struct <@a_b>, llvm.struct <@a_b_1>) variadic = false>",
        "  llvm.struct @a_b_1 = {builtin.integer i8}
  llvm.struct @a_b = {llvm.struct <@a_b_1>}
",
    ),
];

/// Whether the text of a type of a context is this.
fn is_type(alloc: Global, ctx: &Context, ty: TypeHandle, want: &str) -> bool
    requires { ty.0 < length ctx.now.types }
{
    let mut out = Vec::new(alloc);
    match ctx.types().print_type(ty, &mut out) {
        Ok(()) => out.as_slice() == want.as_bytes(),
        Err(_) => false,
    }
}

/// Whether each of these numbers was given a type.
fn all_given(cctx: &ConstContext<'_>, types: &[LLVMType]) -> bool {
    for ty in types {
        if cctx.converted(*ty).is_none() {
            return false;
        }
    }
    true
}

/// Whether the result and the parameters of the type of a function were given types.
fn parts_given(cctx: &ConstContext<'_>, kind: &LLVMTypeKind) -> bool {
    match kind {
        LLVMTypeKind::Function { result, params, .. } => {
            cctx.converted(*result).is_some() && all_given(cctx, params.as_slice())
        }
        _ => false,
    }
}

/// What is wrong with what a conversion has made of a type of that kind, if anything.
fn made_fault(
    alloc: Global,
    ctx: &Context,
    cctx: &ConstContext<'_>,
    made: TypeHandle,
    kind: &LLVMTypeKind,
    row: &Row,
) -> &'static str
    requires { made.0 < length ctx.now.types }
{
    if !is_type(alloc, ctx, made, row.1) {
        "the type"
    } else if !has_lines(alloc, ctx.types(), row.2) {
        "the structs"
    } else if !parts_given(cctx, kind) {
        "what was given"
    } else {
        ""
    }
}

/// The type that is given for that of the first function of a module, where it is converted and was given none before.
fn convert_first<'a>(
    ctx: &mut Context,
    cctx: &mut ConstContext<'a>,
    module: &'a LLVMModule,
    ty: LLVMType,
) -> Option<TypeHandle>
    requires checked { IsChecked «module».now }
    requires ty { option_map (λ x. x.ty) (slice_get «module».now.functions 0) ≡ Some ty }
    requires within { ty.0 < length «module».now.types }
    requires context { IsContextFor «module».now ctx.old.types cctx.old }
    ensures { IfSome result (λ t. t.0 < length ctx.new.types) }
{
    if cctx.converted(ty).is_some() {
        return None;
    }
    checked_types_nest();
    let made = convert_type(ctx, cctx, module, ty).ok()?;
    if cctx.converted(ty) == Some(made) {
        Some(made)
    } else {
        None
    }
}

/// What is wrong with a conversion of the type of the first function, if anything.
fn fault_of(alloc: Global, module: &LLVMModule, row: &Row) -> &'static str
    requires { IsChecked «module».now }
{
    if module.functions() == 0 {
        return "no function";
    }
    let ty = module.function_type(LLVMFunction(0));
    let mut ctx = Context::new(alloc);
    let mut cctx = ConstContext::new(alloc);
    match convert_first(&mut ctx, &mut cctx, module, ty) {
        Some(made) => made_fault(alloc, &ctx, &cctx, made, module.type_kind(ty), row),
        None => "not converted",
    }
}

/// The same of a text.
fn fault(alloc: Global, row: &Row) -> &'static str {
    match read_ll(alloc, row.0.as_bytes()) {
        Ok(module) => fault_of(alloc, &module, row),
        Err(_) => "not read",
    }
}

/// The number of the first row of which something is wrong, and what that is.
fn first_fault(alloc: Global) -> (usize, &'static str) {
    for (i, row) in ROWS.iter().enumerate() {
        let fault = fault(alloc, row);
        if !fault.is_empty() {
            return (i, fault);
        }
    }
    (ROWS.len(), "")
}

#[test]
fn types_are_converted_one_by_one(rt: HostRuntime) {
    let (row, fault) = first_fault(rt.alloc());
    assert!(rt; fault.is_empty(), "{fault} of row {row}");
}

// ---- refusals

/// Whether this is what a conversion answers: the identifier of the struct that is refused, or the type that the dialect lacks, or
/// nothing.
fn is_answer(answer: Result<TypeHandle, ConversionErr>, want: &str) -> bool {
    match answer {
        Ok(_made) => want.is_empty(),
        Err(ConversionErr::Struct(StructErr::DifferentBody(name))) => name.as_str() == want,
        Err(ConversionErr::Unsupported(Unsupported::Ty(OtherType::Fp128))) => want == "fp128",
        Err(_error) => false,
    }
}

/// Whether the conversion of the type of the first function into a context answers this.
fn answers_in(alloc: Global, ctx: &mut Context, module: &LLVMModule, want: &str) -> bool
    requires { IsChecked «module».now }
{
    if module.functions() == 0 {
        return false;
    }
    checked_types_nest();
    let ty = module.function_type(LLVMFunction(0));
    let mut cctx = ConstContext::new(alloc);
    is_answer(convert_type(ctx, &mut cctx, module, ty), want)
}

/// The same of a text.
fn answers(alloc: Global, ctx: &mut Context, text: &str, want: &str) -> bool {
    match read_ll(alloc, text.as_bytes()) {
        Ok(module) => answers_in(alloc, ctx, &module, want),
        Err(_) => false,
    }
}

/// Texts, of which the types are converted into one context in turn, each with what is refused, empty where it is taken.
const TURNS: &[(&str, &str)] = &[
    ("%S = type { i32 } define void @f(%S %a) { ret void }", ""),
    (
        "%S = type { i32 } define %S @f([2 x %S] %a) { unreachable }",
        "",
    ),
    ("%S = type { i64 } define void @f(%S %a) { ret void }", "S"),
    (
        "%S = type opaque define void @f({ i1, %S } %a) { ret void }",
        "S",
    ),
    (
        "%T = type { %S } %S = type <{ i32 }> define void @f(%T %a) { ret void }",
        "S",
    ),
    (
        "%U = type { fp128 } define void @f([2 x %U] %a) { ret void }",
        "fp128",
    ),
    ("%U = type { fp128 } define void @f(i8 %a) { ret void }", ""),
];

/// The number of the first of the texts that is answered otherwise.
fn first_misanswered(alloc: Global, ctx: &mut Context) -> usize {
    for (i, (text, want)) in TURNS.iter().enumerate() {
        if !answers(alloc, ctx, text, want) {
            return i;
        }
    }
    TURNS.len()
}

#[test]
fn types_are_refused_with_their_cause(rt: HostRuntime) {
    let mut ctx = Context::new(rt.alloc());
    assert_eq!(rt; first_misanswered(rt.alloc(), &mut ctx), TURNS.len());
}
