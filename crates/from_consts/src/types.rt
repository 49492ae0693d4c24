//! One type of a module to a type of a context, with all that is inside it: each number once.

ghost use Rattle.std.specs.Prelude.{◌≡◌, ◌<◌, ◌≤◌, ◌+◌, ◌⊎◌, ℕ, [], true, All, IfErr, IfOk, List, None, OnOk, Some, length, map, slice_get};
ghost use Rattle.kinds.specs.Held.{deepest as depth};
ghost use Rattle.kinds.specs.Structs.{each_field, nests};
ghost use Rattle.llvm_core.specs.declared.numbers.LLVMType.{LLVMType};
ghost use Rattle.llvm_core.specs.declared.structs.StructData.{StructData};
ghost use Rattle.llvm_core.specs.Data as L;
ghost use Rattle.llvm_core.specs.Data.{trees_of};
ghost use Rattle.llvm_core.specs.Sound.{IsModule};
ghost use Rattle.llvm_core.specs.Depths.{all_nest_at, fields_nest_at, nests_at};
ghost use Rattle.dialect_types.specs.Trees.{structs_of};
ghost use Rattle.from_consts.specs.Given.{Gives, IsContextFor, IsGiven, IsReady, StandsFor, given_at};
ghost use Rattle.from_consts.specs.Parts.{IsAmong, IsInStruct, IsNamed, IsWithin};
ghost use Rattle.from_consts.specs.Refusals.{IsCause};
ghost use Rattle.from_consts.specs.Steps.{IsBodyGiven, IsKindGiven};

use crate::const_context::ConstContext;
use crate::conversion_err::{ConversionErr, Unsupported};
use dialect_core::context::Context;
use dialect_types::types::{StructFields as MadeFields, TypeHandle, TypeKind};
use held_types::table::{first, table_of};
use kinds::types::deepest;
use llvm_core::module::LLVMModule;
use llvm_core::numbers::{LLVMStruct, LLVMType};
use llvm_core::types::LLVMTypeKind;
use std::alloc::AllocError;
use support::items::Items;

/// The type of a context that stands for one of a module, new or old, with a struct for each struct with a name within it: under
/// the identifier of its name, which is given as it is met. The type nests no deeper than is allowed, as each type in use of a
/// checked module does. After a refusal the context may hold more types, and more names and types may have been given.
/// Refuses a type within which is one that the dialect lacks, `Unsupported`, and a struct whose identifier the context has with
/// another body, `Struct`.
pub fn convert_type<'a>(
    ctx: &mut Context,
    cctx: &mut ConstContext<'a>,
    module: &'a LLVMModule,
    ty: LLVMType,
) -> Result<TypeHandle, ConversionErr>
    requires within { ty.0 < length «module».now.types }
    requires nested { nests_at «module».now ty depth ≡ true }
    requires context { IsContextFor «module».now ctx.old.types cctx.old }
    ensures stands { IfOk result (StandsFor «module».now cctx.new.names ctx.new.types ty) }
    ensures given { IfOk result (λ t. given_at cctx.new ty ≡ Some t) }
    ensures gives { Gives «module».now (λ u. IsWithin «module».now u ty) ctx.old cctx.old ctx.new cctx.new }
    ensures all { OnOk result ((u : LLVMType) → IsWithin «module».now u ty → ¬ (given_at cctx.new u ≡ None)) }
    ensures cause { IfErr result (IsCause «module».now (λ u. IsWithin «module».now u ty) (structs_of ctx.old.types) cctx.new.names) }
{
    make_ready(cctx, module)?;
    give(ctx, cctx, module, ty, deepest())
}

/// Makes a place for each type of a module, and its table of structs, before the first conversion.
fn make_ready<'a>(cctx: &mut ConstContext<'a>, module: &'a LLVMModule) -> Result<(), AllocError>
    requires ready { (cctx.old.given.items ≡ []) ⊎ IsReady «module».now cctx.old }
    ensures sound { IsModule «module».now }
    ensures ready { OnOk result (IsReady «module».now cctx.new) }
    ensures still { (cctx.new.given.items ≡ []) ⊎ IsReady «module».now cctx.new }
    ensures names { cctx.new.names ≡ cctx.old.names }
    ensures given { (t : LLVMType) → given_at cctx.new t ≡ given_at cctx.old t }
{
    let count = module.types() as usize;
    if cctx.given.is_empty() {
        let table = table_of(cctx.alloc, module)?;
        let given = vec![in cctx.alloc; None; count]?;
        cctx.table = table;
        cctx.given = given;
    }
    Ok(())
}

/// The type that stands for that of a number.
#[cycle(give)]
fn give<'a>(
    ctx: &mut Context,
    cctx: &mut ConstContext<'a>,
    module: &'a LLVMModule,
    ty: LLVMType,
    left: u32,
) -> Result<TypeHandle, ConversionErr>
    requires within { ty.0 < length «module».now.types }
    requires nested { nests_at «module».now ty left ≡ true }
    requires few { left ≤ depth }
    requires sound { IsModule «module».now }
    requires ready { IsReady «module».now cctx.old }
    requires context { IsContextFor «module».now ctx.old.types cctx.old }
    ensures given { IfOk result (λ t. given_at cctx.new ty ≡ Some t) }
    ensures gives { Gives «module».now (λ u. IsWithin «module».now u ty) ctx.old cctx.old ctx.new cctx.new }
    ensures ready { IsReady «module».now cctx.new }
    ensures cause { IfErr result (IsCause «module».now (λ u. IsWithin «module».now u ty) (structs_of ctx.old.types) cctx.new.names) }
{
    if let Some(given) = cctx.given[ty.0 as usize] {
        return Ok(given);
    }
    let given = give_new(ctx, cctx, module, ty, left - 1)?;
    cctx.given[ty.0 as usize] = Some(given);
    Ok(given)
}

/// The type that stands for one that has none yet.
#[cycle(give)]
fn give_new<'a>(
    ctx: &mut Context,
    cctx: &mut ConstContext<'a>,
    module: &'a LLVMModule,
    ty: LLVMType,
    left: u32,
) -> Result<TypeHandle, ConversionErr>
    requires within { ty.0 < length «module».now.types }
    requires nested { nests_at «module».now ty (left + 1) ≡ true }
    requires few { left < depth }
    requires sound { IsModule «module».now }
    requires ready { IsReady «module».now cctx.old }
    requires context { IsContextFor «module».now ctx.old.types cctx.old }
    ensures given { IfOk result (IsGiven «module».now ctx.new.types cctx.new ty) }
    ensures gives { Gives «module».now (λ u. IsWithin «module».now u ty) ctx.old cctx.old ctx.new cctx.new }
    ensures ready { IsReady «module».now cctx.new }
    ensures cause { IfErr result (IsCause «module».now (λ u. IsWithin «module».now u ty) (structs_of ctx.old.types) cctx.new.names) }
{
    if let LLVMTypeKind::Named(name) = module.type_kind(ty) {
        return give_struct(ctx, cctx, module, ty, name.as_str(), left);
    }
    let kind = give_kind(ctx, cctx, module, ty, left)?;
    Ok(ctx.types_mut().get(kind)?)
}

/// The kind that stands for that of a type that names no struct, once its parts have their types: a line for each.
#[cycle(give)]
fn give_kind<'a>(
    ctx: &mut Context,
    cctx: &mut ConstContext<'a>,
    module: &'a LLVMModule,
    ty: LLVMType,
    left: u32,
) -> Result<TypeKind, ConversionErr>
    requires within { ty.0 < length «module».now.types }
    requires unnamed { (n : List ℕ) → ¬ IsNamed «module».now ty n }
    requires nested { nests_at «module».now ty (left + 1) ≡ true }
    requires few { left < depth }
    requires sound { IsModule «module».now }
    requires ready { IsReady «module».now cctx.old }
    requires context { IsContextFor «module».now ctx.old.types cctx.old }
    ensures given { IfOk result (IsKindGiven «module».now ctx.new.types cctx.new ty) }
    ensures gives { Gives «module».now (λ u. IsWithin «module».now u ty) ctx.old cctx.old ctx.new cctx.new }
    ensures ready { IsReady «module».now cctx.new }
    ensures cause { IfErr result (IsCause «module».now (λ u. IsWithin «module».now u ty) (structs_of ctx.old.types) cctx.new.names) }
{
    match module.type_kind(ty) {
        LLVMTypeKind::Void => Ok(TypeKind::Void),
        LLVMTypeKind::Int(width) => Ok(TypeKind::Integer(*width)),
        LLVMTypeKind::Ptr(space) => Ok(TypeKind::Pointer(*space)),
        LLVMTypeKind::Floating(of) => Ok(TypeKind::Floating(*of)),
        LLVMTypeKind::Other(of) => Err(ConversionErr::Unsupported(Unsupported::Ty(*of))),
        LLVMTypeKind::Array(count, element) => {
            let element = give(ctx, cctx, module, *element, left)?;
            Ok(TypeKind::Array(element, *count))
        }
        LLVMTypeKind::Vector(kind, count, element) => {
            let element = give(ctx, cctx, module, *element, left)?;
            Ok(TypeKind::Vector(element, *count, *kind))
        }
        LLVMTypeKind::Literal { fields, layout } => {
            let fields = give_all(ctx, cctx, module, fields.as_slice(), left)?;
            Ok(TypeKind::Struct {
                fields: Items::from_vec(fields),
                layout: *layout,
            })
        }
        LLVMTypeKind::Function {
            result,
            params,
            variadic,
        } => {
            let result = give(ctx, cctx, module, *result, left)?;
            let params = give_all(ctx, cctx, module, params.as_slice(), left)?;
            Ok(TypeKind::Func {
                result,
                params: Items::from_vec(params),
                variadic: *variadic,
            })
        }
        LLVMTypeKind::Named(_) => unreachable!(),
    }
}

/// The struct that stands for the one that a type names.
#[cycle(give)]
fn give_struct<'a>(
    ctx: &mut Context,
    cctx: &mut ConstContext<'a>,
    module: &'a LLVMModule,
    ty: LLVMType,
    name: &str,
    left: u32,
) -> Result<TypeHandle, ConversionErr>
    requires named { IsNamed «module».now ty name.now }
    requires nested { fields_nest_at «module».now name.now left ≡ true }
    requires few { left < depth }
    requires sound { IsModule «module».now }
    requires ready { IsReady «module».now cctx.old }
    requires context { IsContextFor «module».now ctx.old.types cctx.old }
    ensures given { IfOk result (IsGiven «module».now ctx.new.types cctx.new ty) }
    ensures gives { Gives «module».now (λ u. IsWithin «module».now u ty) ctx.old cctx.old ctx.new cctx.new }
    ensures ready { IsReady «module».now cctx.new }
    ensures cause { IfErr result (IsCause «module».now (λ u. IsWithin «module».now u ty) (structs_of ctx.old.types) cctx.new.names) }
{
    let identifier = cctx.names.legalise(name)?;
    let s = first(&cctx.table, name);
    let body = give_body(ctx, cctx, module, s, left)?;
    Ok(ctx.types_mut().get_named(identifier, body)?)
}

/// The fields of a struct, with their types in the context; none of an opaque one.
#[cycle(give)]
fn give_body<'a>(
    ctx: &mut Context,
    cctx: &mut ConstContext<'a>,
    module: &'a LLVMModule,
    s: LLVMStruct,
    left: u32,
) -> Result<Option<MadeFields>, ConversionErr>
    requires within { s.0 < length «module».now.structs }
    requires nested { (x : StructData) → slice_get «module».now.structs s.0 ≡ Some x → each_field (nests (L.structs_of «module».now) left) (L.struct_of (trees_of «module».now).types x) ≡ true }
    requires few { left ≤ depth }
    requires sound { IsModule «module».now }
    requires ready { IsReady «module».now cctx.old }
    requires context { IsContextFor «module».now ctx.old.types cctx.old }
    ensures given { IfOk result (IsBodyGiven «module».now ctx.new.types cctx.new s) }
    ensures gives { Gives «module».now (IsInStruct «module».now s) ctx.old cctx.old ctx.new cctx.new }
    ensures ready { IsReady «module».now cctx.new }
    ensures cause { IfErr result (IsCause «module».now (IsInStruct «module».now s) (structs_of ctx.old.types) cctx.new.names) }
{
    match module.struct_body(s) {
        None => Ok(None),
        Some(body) => {
            let types = give_all(ctx, cctx, module, body.types.as_slice(), left)?;
            Ok(Some(MadeFields {
                types: Items::from_vec(types),
                layout: body.layout,
            }))
        }
    }
}

/// The types that stand for those of numbers.
#[cycle(give)]
fn give_all<'a>(
    ctx: &mut Context,
    cctx: &mut ConstContext<'a>,
    module: &'a LLVMModule,
    types: &[LLVMType],
    left: u32,
) -> Result<Vec<TypeHandle>, ConversionErr>
    requires within { All (λ t. t.0 < length «module».now.types) types.now }
    requires nested { all_nest_at «module».now types.now left ≡ true }
    requires few { left ≤ depth }
    requires sound { IsModule «module».now }
    requires ready { IsReady «module».now cctx.old }
    requires context { IsContextFor «module».now ctx.old.types cctx.old }
    ensures given { IfOk result (λ hs. map (given_at cctx.new) types.now ≡ map Some hs.items) }
    ensures gives { Gives «module».now (IsAmong «module».now types.now) ctx.old cctx.old ctx.new cctx.new }
    ensures ready { IsReady «module».now cctx.new }
    ensures cause { IfErr result (IsCause «module».now (IsAmong «module».now types.now) (structs_of ctx.old.types) cctx.new.names) }
{
    let mut given = Vec::new(cctx.alloc);
    for ty in types {
        given.push(give(ctx, cctx, module, *ty, left)?)?;
    }
    Ok(given)
}
