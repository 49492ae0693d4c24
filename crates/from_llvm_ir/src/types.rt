//! Types of the source to types of the dialect.

ghost use Rattle.std.specs.Prelude.{◌≡◌, ◌<◌, ◌||◌, IfOk, IfSome, All, List, true, false, length, map, ℕ};
ghost use Rattle.std.specs.Option.{option_map};
ghost use Rattle.llvm_core.specs.Sound.{IsModule};
ghost use Rattle.llvm_core.specs.Parts.{shape_of};
ghost use Rattle.llvm_core.specs.Data as L;
ghost use Rattle.llvm_core.specs.Data.{trees_of};
ghost use Rattle.kinds.specs.Types.{params_of};
ghost use Rattle.kinds.specs.Fitting.{is_held, is_made, is_nothing};
ghost use Rattle.kinds.specs.Held.{own_type, IsHeld, IsHeldResult, IsShallow};
ghost use Rattle.dialect_types.specs.Trees.{type_at, type_tree, type_trees, is_named, structs_of, HasFitParts, HasPartsBelow};
ghost use Rattle.from_llvm_ir.specs.Imported.{phis_of};
ghost use Rattle.from_llvm_ir.specs.Types.{GrowsTypes, IsNamedAs, IsReadyFor, NamesAmong};
ghost use Rattle.from_llvm_ir.specs.Source.{IsSource, IsBlockOf, IsTypeOf};

use crate::parts::is_phi;
use dialect_core::context::Context;
use dialect_types::types::{TypeHandle, TypeKind};
use kinds::fitting::is_nothing;
use llvm_core::code::LLVMValue;
use llvm_core::module::shape_of;
use llvm_core::numbers::{LLVMBasicBlock, LLVMFunction, LLVMInstRef, LLVMType};
use llvm_core::types::LLVMTypeKind;
use renamed_source::source::Source;
use std::alloc::{AllocError, Global};
use support::items::Items;

/// How many types are looked at before one is looked for by hash.
const FIRST: u32 = 8;

/// The number of a type among the first few of the context, which are most used: so most are found without a hash.
fn among_first(ctx: &Context, kind: &TypeKind) -> Option<TypeHandle>
    ensures ty { IfSome result (λ t. type_at (type_trees ctx.now.types) t ≡ type_tree (type_trees ctx.now.types) kind.now) }
    ensures within { IfSome result (λ t. t.0 < length ctx.now.types) }
{
    let types = ctx.types();
    for t in 0..types.len().min(FIRST) {
        let ty = TypeHandle(t);
        if types.kind(ty) == kind {
            return Some(ty);
        }
    }
    None
}

/// The number of a type of the context that is no struct with a name, new or old.
fn intern(ctx: &mut Context, kind: TypeKind) -> Result<TypeHandle, AllocError>
    requires parts { HasPartsBelow (length ctx.old.types) kind }
    requires fit { HasFitParts (type_trees ctx.old.types) kind }
    requires nesting { IsShallow (type_tree (type_trees ctx.old.types) kind) }
    requires plain { is_named kind ≡ false }
    ensures grown { GrowsTypes ctx.old ctx.new }
    ensures ty { IfOk result (λ t. type_at (type_trees ctx.new.types) t ≡ type_tree (type_trees ctx.old.types) kind) }
    ensures within { IfOk result (λ t. t.0 < length ctx.new.types) }
{
    if let Some(ty) = among_first(ctx, &kind) {
        return Ok(ty);
    }
    ctx.types_mut().get(kind)
}

/// The kind that stands for one of a type without parts that is translated, or of void: a line for each.
fn plain_kind(kind: &LLVMTypeKind) -> TypeKind
    requires held { (is_nothing (shape_of kind.now) || is_held (shape_of kind.now)) ≡ true }
    requires plain { is_made (shape_of kind.now) ≡ false }
    ensures parts { (n : ℕ) → HasPartsBelow n result }
    ensures plain { is_named result ≡ false }
    ensures tree { (us : List L.TypeTree) → (ts : List L.TypeTree) → type_tree ts result ≡ L.type_tree us kind.now }
{
    match kind {
        LLVMTypeKind::Void => TypeKind::Void,
        LLVMTypeKind::Int(width) => TypeKind::Integer(*width),
        LLVMTypeKind::Ptr(space) => TypeKind::Pointer(*space),
        LLVMTypeKind::Floating(of) => TypeKind::Floating(*of),
        LLVMTypeKind::Other(_) => unreachable!(),
        LLVMTypeKind::Array(_, _) => unreachable!(),
        LLVMTypeKind::Vector(_, _, _) => unreachable!(),
        LLVMTypeKind::Literal { .. } => unreachable!(),
        LLVMTypeKind::Named(_) => unreachable!(),
        LLVMTypeKind::Function { .. } => unreachable!(),
    }
}

/// The struct of the context that stands for the one that a type names.
fn made_struct(ctx: &Context, source: &Source<'_>, ty: LLVMType) -> TypeHandle
    requires sound { IsModule source.now }
    requires within { ty.0 < length source.now.types }
    requires named { (name : List ℕ) × IsNamedAs source.now ty name }
    requires ready { NamesAmong (structs_of ctx.now.types) (L.type_at (trees_of source.now).types ty) }
    ensures ty { type_at (type_trees ctx.now.types) result ≡ L.type_at (trees_of source.now).types ty }
    ensures within { result.0 < length ctx.now.types }
{
    // This tells the proof what a store of types keeps.
    let _ = ctx.types().len();
    match source.struct_name(ty) {
        Some(name) => match ctx.types().named(name.as_str()) {
            Some(made) => made,
            None => unreachable!(),
        },
        None => unreachable!(),
    }
}

/// The kind that stands for that of a type that is translated and no struct with a name, or of void, once its parts are
/// imported: a line for each that has parts.
#[cycle(import_plain)]
fn import_kind(
    alloc: Global,
    ctx: &mut Context,
    source: &Source<'_>,
    ty: LLVMType,
) -> Result<TypeKind, AllocError>
    requires sound { IsModule source.now }
    requires within { ty.0 < length source.now.types }
    requires held { IsHeldResult (L.type_at (trees_of source.now).types ty) }
    requires ready { NamesAmong (structs_of ctx.old.types) (L.type_at (trees_of source.now).types ty) }
    requires unnamed { (n : List ℕ) → ¬ IsNamedAs source.now ty n }
    ensures grown { GrowsTypes ctx.old ctx.new }
    ensures parts { IfOk result (λ k. HasPartsBelow (length ctx.new.types) k) }
    ensures plain { IfOk result (λ k. is_named k ≡ false) }
    ensures tree { IfOk result (λ k. type_tree (type_trees ctx.new.types) k ≡ L.type_at (trees_of source.now).types ty) }
{
    match source.type_kind(ty) {
        LLVMTypeKind::Array(count, element) => {
            let element = import_plain(alloc, ctx, source, *element)?;
            Ok(TypeKind::Array(element, *count))
        }
        LLVMTypeKind::Vector(kind, count, element) => {
            let element = import_plain(alloc, ctx, source, *element)?;
            Ok(TypeKind::Vector(element, *count, *kind))
        }
        LLVMTypeKind::Literal { fields, layout } => {
            let fields = import_all(alloc, ctx, source, fields.as_slice())?;
            Ok(TypeKind::Struct {
                fields: Items::from_vec(fields),
                layout: *layout,
            })
        }
        kind => Ok(plain_kind(kind)),
    }
}

/// The type that stands for one that is translated, or for void.
#[cycle(import_plain)]
pub fn import_plain(
    alloc: Global,
    ctx: &mut Context,
    source: &Source<'_>,
    ty: LLVMType,
) -> Result<TypeHandle, AllocError>
    requires sound { IsModule source.now }
    requires within { ty.0 < length source.now.types }
    requires held { IsHeldResult (L.type_at (trees_of source.now).types ty) }
    requires ready { NamesAmong (structs_of ctx.old.types) (L.type_at (trees_of source.now).types ty) }
    ensures grown { GrowsTypes ctx.old ctx.new }
    ensures ty { IfOk result (λ t. type_at (type_trees ctx.new.types) t ≡ L.type_at (trees_of source.now).types ty) }
    ensures within { IfOk result (λ t. t.0 < length ctx.new.types) }
{
    if let LLVMTypeKind::Named(_) = source.type_kind(ty) {
        return Ok(made_struct(ctx, source, ty));
    }
    let kind = import_kind(alloc, ctx, source, ty)?;
    intern(ctx, kind)
}

/// The types that stand for types that are translated.
#[cycle(import_plain)]
pub(crate) fn import_all(
    alloc: Global,
    ctx: &mut Context,
    source: &Source<'_>,
    types: &[LLVMType],
) -> Result<Vec<TypeHandle>, AllocError>
    requires sound { IsModule source.now }
    requires within { All (λ t. t.0 < length source.now.types) types.now }
    requires held { All (λ t. IsHeld (L.type_at (trees_of source.now).types t)) types.now }
    requires ready { All (λ t. NamesAmong (structs_of ctx.old.types) (L.type_at (trees_of source.now).types t)) types.now }
    ensures grown { GrowsTypes ctx.old ctx.new }
    ensures types { IfOk result (λ ts. map (type_at (type_trees ctx.new.types)) ts.items ≡ map (λ t. L.type_at (trees_of source.now).types t) types.now) }
    ensures within { IfOk result (λ ts. All (λ t. t.0 < length ctx.new.types) ts.items) }
{
    let mut imported = Vec::new(alloc);
    for ty in types {
        imported.push(import_plain(alloc, ctx, source, *ty)?)?;
    }
    Ok(imported)
}

/// The types of the parameters of a function.
pub fn import_params(
    alloc: Global,
    ctx: &mut Context,
    source: &Source<'_>,
    f: LLVMFunction,
) -> Result<Vec<TypeHandle>, AllocError>
    requires { (g : L.Function) × IsSource source.now f g × IsReadyFor g (structs_of ctx.old.types) }
    ensures grown { GrowsTypes ctx.old ctx.new }
    ensures types { IfOk result (λ ts. (g : L.Function) → IsSource source.now f g → map (type_at (type_trees ctx.new.types)) ts.items ≡ params_of g.type) }
    ensures within { IfOk result (λ ts. All (λ t. t.0 < length ctx.new.types) ts.items) }
{
    match source.type_kind(source.function_type(f)) {
        LLVMTypeKind::Function { params, .. } => import_all(alloc, ctx, source, params.as_slice()),
        _ => unreachable!(),
    }
}

/// The type of what a function returns.
fn import_result(
    alloc: Global,
    ctx: &mut Context,
    source: &Source<'_>,
    f: LLVMFunction,
) -> Result<TypeHandle, AllocError>
    requires { (g : L.Function) × IsSource source.now f g × IsReadyFor g (structs_of ctx.old.types) }
    ensures grown { GrowsTypes ctx.old ctx.new }
    ensures ty { IfOk result (λ t. (g : L.Function) → (h : IsSource source.now f g) → type_at (type_trees ctx.new.types) t ≡ h.form.result) }
    ensures within { IfOk result (λ t. t.0 < length ctx.new.types) }
{
    match source.type_kind(source.function_type(f)) {
        LLVMTypeKind::Function { result, .. } => import_plain(alloc, ctx, source, *result),
        _ => unreachable!(),
    }
}

/// The type of a function.
pub fn import_function_type(
    alloc: Global,
    ctx: &mut Context,
    source: &Source<'_>,
    f: LLVMFunction,
) -> Result<TypeHandle, AllocError>
    requires { (g : L.Function) × IsSource source.now f g × IsReadyFor g (structs_of ctx.old.types) }
    ensures grown { GrowsTypes ctx.old ctx.new }
    ensures ty { IfOk result (λ t. (g : L.Function) → IsSource source.now f g → type_at (type_trees ctx.new.types) t ≡ g.type) }
    ensures within { IfOk result (λ t. t.0 < length ctx.new.types) }
{
    let params = import_params(alloc, ctx, source, f)?;
    let returned = import_result(alloc, ctx, source, f)?;
    let kind = TypeKind::Func {
        result: returned,
        params: Items::from_vec(params),
        variadic: false,
    };
    intern(ctx, kind)
}

/// The type of the result of an instruction, none where it is void.
pub fn import_result_type(
    alloc: Global,
    ctx: &mut Context,
    source: &Source<'_>,
    i: LLVMInstRef,
) -> Result<Option<TypeHandle>, AllocError>
    requires { (t : L.TypeTree) × IsTypeOf source.now i t × NamesAmong (structs_of ctx.old.types) t }
    ensures grown { GrowsTypes ctx.old ctx.new }
    ensures ty { IfOk result (λ r. (t : L.TypeTree) → IsTypeOf source.now i t → option_map (type_at (type_trees ctx.new.types)) r ≡ own_type t) }
    ensures within { IfOk result (λ r. IfSome r (λ t. t.0 < length ctx.new.types)) }
{
    let ty = source.type_of(LLVMValue::Inst(i));
    if is_nothing(shape_of(source.type_kind(ty))) {
        return Ok(None);
    }
    Ok(Some(import_plain(alloc, ctx, source, ty)?))
}

/// The types of the phis of a block, in order.
pub fn import_phi_types(
    alloc: Global,
    ctx: &mut Context,
    source: &Source<'_>,
    block: LLVMBasicBlock,
) -> Result<Vec<TypeHandle>, AllocError>
    requires { (f : LLVMFunction) × (g : L.Function) × (place : ℕ) × (b : L.Block) × IsSource source.now f g × IsBlockOf source.now g block place b × IsReadyFor g (structs_of ctx.old.types) }
    ensures grown { GrowsTypes ctx.old ctx.new }
    ensures types { IfOk result (λ ts. (f : LLVMFunction) → (g : L.Function) → (place : ℕ) → (b : L.Block) → IsSource source.now f g → IsBlockOf source.now g block place b → map (type_at (type_trees ctx.new.types)) ts.items ≡ map (λ p. p.type) (phis_of b)) }
    ensures within { IfOk result (λ ts. All (λ t. t.0 < length ctx.new.types) ts.items) }
{
    let mut types = Vec::new(alloc);
    for i in source.instructions(block) {
        if is_phi(source.inst(*i)) {
            types.push(import_plain(alloc, ctx, source, source.type_of(LLVMValue::Inst(*i)))?)?;
        }
    }
    Ok(types)
}

/// How many parameters a function has.
pub fn param_count(source: &Source<'_>, f: LLVMFunction) -> usize
    requires { (g : L.Function) × IsSource source.now f g }
    ensures { (g : L.Function) → IsSource source.now f g → result ≡ length g.params }
{
    match source.type_kind(source.function_type(f)) {
        LLVMTypeKind::Function { params, .. } => params.as_slice().len(),
        _ => unreachable!(),
    }
}
