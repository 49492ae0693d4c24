//! Types of a context converted one by one into a module: the structs that the module then has, what is given by the way, and
//! that a second conversion answers the same.

ghost use Rattle.std.specs.Prelude.{◌≡◌, [], IfSome};
ghost use Rattle.llvm_core.specs.Data.{data_of};
ghost use Rattle.to_llvm_ir.specs.Conversion.{IsContextFor};

use crate::imports::import_text;
use crate::structs::is_printed;
use dialect_core::context::Context;
use dialect_types::types::TypeHandle;
use llvm_core::checking::check;
use llvm_core::module::LLVMModule;
use llvm_core::numbers::LLVMType;
use llvm_form::form::is_form;
use std::alloc::Global;
use to_llvm_ir::type_conversion::{TypeConversionContext, convert_type, held_types_have_widths};

/// The module whose structs a context gets, with one that no value holds.
const SOURCE: &str = "%S = type { i8, [2 x %\"a b\"] }
%\"a b\" = type <{ ptr, %O }>
%O = type opaque
%U = type { %\"a b\", { <2 x i16>, %V, i8 } }
%V = type {}
%N = type { half }
define void @f(%S %a, %U %b) {
  ret void
}
";

/// The identifier of a struct, how many types of the context were given one once that is converted, and how the module is then
/// printed, which had a struct before.
type Turn = (&'static str, u32, &'static str);

const TURNS: &[Turn] = &[
    // the struct, a pointer type and the struct in it
    (
        "a_b",
        3,
        "source_filename = \"m\"

%X = type opaque
%O = type opaque
%a_b = type <{ ptr, %O }>
",
    ),
    // a struct with the earlier ones in it, an integer type and an array type
    (
        "S",
        6,
        "source_filename = \"m\"

%X = type opaque
%O = type opaque
%a_b = type <{ ptr, %O }>
%S = type { i8, [2 x %a_b] }
",
    ),
    // one that was given by the way
    (
        "O",
        6,
        "source_filename = \"m\"

%X = type opaque
%O = type opaque
%a_b = type <{ ptr, %O }>
%S = type { i8, [2 x %a_b] }
",
    ),
    // one that shares a struct with the others, and adds one: beside these a struct without a name, a vector type and what that is of
    (
        "U",
        11,
        "source_filename = \"m\"

%X = type opaque
%O = type opaque
%a_b = type <{ ptr, %O }>
%S = type { i8, [2 x %a_b] }
%V = type {}
%U = type { %a_b, { <2 x i16>, %V, i8 } }
",
    ),
];

/// The type that a conversion gives for the struct of an identifier, where the context has one.
fn struct_back(
    ctx: &Context,
    back: &mut LLVMModule,
    tcctx: &mut TypeConversionContext,
    name: &str,
) -> Option<LLVMType>
    requires { IsContextFor ctx.now.types back.old tcctx.old }
    ensures context { IsContextFor ctx.now.types back.new tcctx.new }
    ensures functions { (data_of back.new).functions ≡ (data_of back.old).functions }
{
    let ty = ctx.types().named(name)?;
    // These only read: with them comes what is known of the type and of the store, for the proof.
    let _kind = ctx.types().kind(ty);
    let _count = ctx.types().len();
    held_types_have_widths();
    let given = convert_type(ctx, back, tcctx, ty).ok()?;
    if tcctx.converted(ty) == Some(given) {
        Some(given)
    } else {
        None
    }
}

/// How many types of the context were given one.
fn given_count(ctx: &Context, tcctx: &TypeConversionContext) -> u32 {
    let mut count = 0;
    for t in 0..ctx.types().len() {
        if tcctx.converted(TypeHandle(t)).is_some() {
            count += 1;
        }
    }
    count
}

/// Whether a module without functions meets the rules and is printed so.
fn has_text(alloc: Global, m: &LLVMModule, want: &str) -> bool
    requires { (data_of m.now).functions ≡ [] }
{
    match check(m) {
        Ok(()) => is_form(m) && is_printed(alloc, m, want),
        Err(_) => false,
    }
}

/// What is wrong with two conversions of the struct of a turn, if anything.
fn turn_fault(
    alloc: Global,
    ctx: &Context,
    back: &mut LLVMModule,
    tcctx: &mut TypeConversionContext,
    turn: &Turn,
) -> &'static str
    requires context { IsContextFor ctx.now.types back.old tcctx.old }
    requires functions { (data_of back.old).functions ≡ [] }
    ensures context { IsContextFor ctx.now.types back.new tcctx.new }
    ensures functions { (data_of back.new).functions ≡ [] }
{
    let Some(first) = struct_back(ctx, back, tcctx, turn.0) else {
        return "not converted";
    };
    let Some(again) = struct_back(ctx, back, tcctx, turn.0) else {
        return "not converted again";
    };
    if first != again {
        "another type"
    } else if given_count(ctx, tcctx) != turn.1 {
        "what was given"
    } else if !has_text(alloc, back, turn.2) {
        "the module"
    } else {
        ""
    }
}

/// The number of the first turn of which something is wrong, and what that is.
fn first_fault(
    alloc: Global,
    ctx: &Context,
    back: &mut LLVMModule,
    tcctx: &mut TypeConversionContext,
) -> (usize, &'static str)
    requires context { IsContextFor ctx.now.types back.old tcctx.old }
    requires functions { (data_of back.old).functions ≡ [] }
{
    for (i, turn) in TURNS.iter().enumerate() {
        let fault = turn_fault(alloc, ctx, back, tcctx, turn);
        if !fault.is_empty() {
            return (i, fault);
        }
    }
    (TURNS.len(), "")
}

/// A module with a struct.
fn start(alloc: Global) -> Option<LLVMModule>
    ensures { IfSome result (λ m. (data_of m).functions ≡ []) }
{
    let mut m = LLVMModule::new(alloc, "m").ok()?;
    m.add_struct("X", None).ok()?;
    Some(m)
}

/// The same of a module with a struct, where nothing was given.
fn fault_in(alloc: Global, ctx: &Context) -> (usize, &'static str) {
    let Some(mut back) = start(alloc) else {
        return (0, "no memory");
    };
    let mut tcctx = TypeConversionContext::new(alloc);
    if given_count(ctx, &tcctx) != 0 {
        return (0, "given before");
    }
    // A struct that no value of the source holds is none of the context.
    if struct_back(ctx, &mut back, &mut tcctx, "N").is_some() {
        return (0, "none of the context");
    }
    first_fault(alloc, ctx, &mut back, &mut tcctx)
}

/// The same of a context with the structs of the source.
fn fault(alloc: Global) -> (usize, &'static str) {
    let mut ctx = Context::new(alloc);
    if import_text(alloc, &mut ctx, SOURCE).is_none() {
        return (0, "not imported");
    }
    fault_in(alloc, &ctx)
}

#[test]
fn types_are_converted_back_one_by_one(rt: HostRuntime) {
    let (turn, fault) = fault(rt.alloc());
    assert!(rt; fault.is_empty(), "{fault} of turn {turn}");
}
