//! Types of the dialect, turned into types of LLVM by number.

ghost use Rattle.std.specs.Prelude.{◌≡◌, ◌<◌, ℕ, false, All, List, length, map, IfOk, OnOk};
ghost use Rattle.llvm_core.specs.Parts.{HasFitParts, IsFunctionType, IsTypeOver};
ghost use Rattle.llvm_core.specs.Data as lists;
ghost use Rattle.llvm_core.specs.Sound.{IsModule};
ghost use Rattle.kinds.specs.Types.{shape};
ghost use Rattle.kinds.specs.Fitting.{is_made};
ghost use Rattle.kinds.specs.Held.{IsHeld, IsHeldResult, IsHeldSignature};
ghost use Rattle.dialect_types.specs.Trees.{TypeTree, type_at, type_tree, type_trees};
ghost use Rattle.to_llvm_ir.specs.Growth.{Grows, IsTypeOf, AreTypesOf};

use crate::guesses::Guesses;
use dialect_core::context::Context;
use dialect_types::types::{TypeHandle, TypeKind};
use llvm_core::module::LLVMModule;
use llvm_core::numbers::LLVMType;
use llvm_core::types::LLVMTypeKind;
use std::alloc::{AllocError, Global};
use support::items::Items;
use support::text::Text;

/// The kind that stands for that of a type of values without parts or a name, or of void: a line for each.
fn plain_kind(kind: &TypeKind) -> LLVMTypeKind
    requires { (ts : List TypeTree) × IsHeldResult (type_tree ts kind.now) × (is_made (shape (type_tree ts kind.now)) ≡ false) }
    ensures over { (n : ℕ) → IsTypeOver n result }
    ensures fit { (types : List LLVMTypeKind) → HasFitParts types result }
    ensures tree { (us : List TypeTree) → (ts : List TypeTree) → lists.type_tree us result ≡ type_tree ts kind.now }
{
    match kind {
        TypeKind::Void => LLVMTypeKind::Void,
        TypeKind::Integer(width) => LLVMTypeKind::Int(*width),
        TypeKind::Pointer(space) => LLVMTypeKind::Ptr(*space),
        TypeKind::Floating(of) => LLVMTypeKind::Floating(*of),
        TypeKind::Array(_, _) => unreachable!(),
        TypeKind::Vector(_, _, _) => unreachable!(),
        TypeKind::Struct { .. } => unreachable!(),
        TypeKind::Named { .. } => unreachable!(),
        TypeKind::Func { .. } => unreachable!(),
    }
}

/// The kind that stands for that of the type of a value or of void, once its parts are there: a line for each that has
/// parts, and one for a struct with a name, whose fields stand beside the types.
#[cycle(value_type)]
fn value_kind(
    alloc: Global,
    ctx: &Context,
    ty: TypeHandle,
    guesses: &mut Guesses,
    back: &mut LLVMModule,
) -> Result<LLVMTypeKind, AllocError>
    requires within { ty.0 < length ctx.now.types }
    requires held { IsHeldResult (type_at (type_trees ctx.now.types) ty) }
    ensures over { IfOk result (λ k. IsTypeOver (length back.new.types) k) }
    ensures fit { IfOk result (λ k. HasFitParts back.new.types k) }
    ensures tree { IfOk result (λ k. lists.type_tree (lists.trees_of back.new).types k ≡ type_at (type_trees ctx.now.types) ty) }
    ensures grows { OnOk result (Grows back.old back.new) }
    ensures rest { OnOk result (back.new ≡ record back.old { types = back.new.types }) }
    ensures data { OnOk result (lists.data_of back.new ≡ lists.data_of back.old) }
{
    match ctx.types().kind(ty) {
        TypeKind::Array(element, count) => {
            let element = value_type(alloc, ctx, *element, guesses, back)?;
            Ok(LLVMTypeKind::Array(*count, element))
        }
        TypeKind::Vector(element, count, kind) => {
            let element = value_type(alloc, ctx, *element, guesses, back)?;
            Ok(LLVMTypeKind::Vector(*kind, *count, element))
        }
        TypeKind::Struct { fields, layout } => {
            let fields = value_types(alloc, ctx, fields.as_slice(), guesses, back)?;
            Ok(LLVMTypeKind::Literal {
                fields,
                layout: *layout,
            })
        }
        TypeKind::Named { name, .. } => {
            let name = Text::copy(alloc, name.as_str())?;
            Ok(LLVMTypeKind::Named(name))
        }
        kind => Ok(plain_kind(kind)),
    }
}

/// The type of a value, or of what a function returns.
#[cycle(value_type)]
pub fn value_type(
    alloc: Global,
    ctx: &Context,
    ty: TypeHandle,
    guesses: &mut Guesses,
    back: &mut LLVMModule,
) -> Result<LLVMType, AllocError>
    requires within { ty.0 < length ctx.now.types }
    requires held { IsHeldResult (type_at (type_trees ctx.now.types) ty) }
    ensures tree { IfOk result (λ t. IsTypeOf back.new t (type_at (type_trees ctx.now.types) ty)) }
    ensures grows { OnOk result (Grows back.old back.new) }
    ensures rest { OnOk result (back.new ≡ record back.old { types = back.new.types }) }
    ensures data { OnOk result (lists.data_of back.new ≡ lists.data_of back.old) }
    ensures sound { OnOk result (IsModule back.new) }
{
    let kind = value_kind(alloc, ctx, ty, guesses, back)?;
    let number = guesses.type_get(ty, kind, back)?;
    Ok(number)
}

/// The types of values.
#[cycle(value_type)]
pub fn value_types(
    alloc: Global,
    ctx: &Context,
    types: &[TypeHandle],
    guesses: &mut Guesses,
    back: &mut LLVMModule,
) -> Result<Items<LLVMType>, AllocError>
    requires within { All (λ t. t.0 < length ctx.now.types) types.now }
    requires held { All (λ t. IsHeld (type_at (type_trees ctx.now.types) t)) types.now }
    ensures types { IfOk result (λ ts. AreTypesOf back.new ts (map (type_at (type_trees ctx.now.types)) types.now)) }
    ensures grows { OnOk result (Grows back.old back.new) }
    ensures rest { OnOk result (back.new ≡ record back.old { types = back.new.types }) }
    ensures data { OnOk result (lists.data_of back.new ≡ lists.data_of back.old) }
    ensures sound { OnOk result (IsModule back.new) }
{
    let mut stand = Items::new(alloc);
    for ty in types {
        let number = value_type(alloc, ctx, *ty, guesses, back)?;
        stand.push(number)?;
    }
    // This tells the proof of the module's invariant.
    let _ = back.types();
    Ok(stand)
}

/// The type of a function.
pub fn function_type(
    alloc: Global,
    ctx: &Context,
    ty: TypeHandle,
    guesses: &mut Guesses,
    back: &mut LLVMModule,
) -> Result<LLVMType, AllocError>
    requires within { ty.0 < length ctx.now.types }
    requires form { IsHeldSignature (type_at (type_trees ctx.now.types) ty) }
    ensures function { IfOk result (λ t. IsFunctionType back.new.types t) }
    ensures tree { IfOk result (λ t. IsTypeOf back.new t (type_at (type_trees ctx.now.types) ty)) }
    ensures grows { OnOk result (Grows back.old back.new) }
    ensures rest { OnOk result (back.new ≡ record back.old { types = back.new.types }) }
    ensures data { OnOk result (lists.data_of back.new ≡ lists.data_of back.old) }
    ensures sound { OnOk result (IsModule back.new) }
{
    match ctx.types().kind(ty) {
        TypeKind::Func {
            result,
            params,
            variadic,
        } => {
            let result = value_type(alloc, ctx, *result, guesses, back)?;
            let params = value_types(alloc, ctx, params.as_slice(), guesses, back)?;
            let kind = LLVMTypeKind::Function {
                result,
                params,
                variadic: *variadic,
            };
            let number = guesses.type_get(ty, kind, back)?;
            Ok(number)
        }
        _ => unreachable!(),
    }
}
