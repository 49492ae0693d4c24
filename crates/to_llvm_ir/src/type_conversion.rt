//! Types of a context, converted one by one into a module: each once, with the structs that it names.

ghost use Rattle.std.specs.Prelude.{◌≡◌, ◌<◌, ◌≤◌, ℕ, [], false, All, IfOk, IfSome, List, None, OnErr, OnOk, Some, length, map};
ghost use Rattle.std.specs.Option.{option_map};
ghost use Rattle.kinds.specs.Held.{IsHeldResult};
ghost use Rattle.llvm_core.specs.Module.{Module};
ghost use Rattle.llvm_core.specs.Parts.{IsTypeOver};
ghost use Rattle.llvm_core.specs.Data as lists;
ghost use Rattle.llvm_core.specs.Data.{trees_of};
ghost use Rattle.dialect_types.specs.declared.types.TypeHandle.{TypeHandle};
ghost use Rattle.dialect_types.specs.declared.types.TypeKind.{TypeKind};
ghost use Rattle.dialect_types.specs.declared.types.TypeKind.TheVariants as kinds_of;
ghost use Rattle.dialect_types.specs.Trees.{HasFitParts, IsStored, fields_of, is_named, type_at, type_tree, type_trees};
ghost use Rattle.to_llvm_ir.specs.Conversion.{AreMeant, Gives, HasWidths, IsContextFor, IsWidth, IsWithin, StandsFor, given_at, numbers_in, types_in};
ghost use Rattle.to_llvm_ir.specs.Giving.{AreGiven, IsWithinSome, Makes, MayGive};

use dialect_core::context::Context;
use dialect_types::identifier::Identifier;
use dialect_types::types::{StructFields, TypeHandle, TypeKind};
use llvm_core::module::LLVMModule;
use llvm_core::numbers::LLVMType;
use llvm_core::structs as made;
use llvm_core::types::LLVMTypeKind;
use std::alloc::{AllocError, Global};
use support::items::Items;
use support::text::Text;

/// What the conversions of types of one context into one module have given. One serves one context and one module, in which
/// nothing else makes structs of the names that the context has: `check` refuses two of one name.
#[derive(Drop)]
pub struct TypeConversionContext {
    alloc: Global,
    /// By number of type of the context: the type that was given for it; as long as types were asked for.
    given: Vec<Option<LLVMType>>,
}

impl TypeConversionContext {
    /// Nothing was given.
    pub fn new(alloc: Global) -> TypeConversionContext
        ensures given { result.given.items ≡ [] }
        ensures context { (ks : List TypeKind) → (m : Module) → IsContextFor ks m result }
    {
        TypeConversionContext {
            alloc,
            given: Vec::new(alloc),
        }
    }

    /// The type that was given for a number, none where none was.
    pub fn converted(&self, ty: TypeHandle) -> Option<LLVMType>
        ensures { result ≡ given_at self.now ty }
    {
        match self.given.get(ty.0 as usize) {
            Some(given) => *given,
            None => None,
        }
    }
}

/// The type of a module that stands for one of a context, new or old, with a struct for each struct with a name within it that
/// was not given before, behind those that the module has. Each integer type within it is to have a width that LLVM has.
/// Where memory is wanting, the module may have more types and structs; the context knows of these structs, so none is added
/// again.
pub fn convert_type(
    ctx: &Context,
    back: &mut LLVMModule,
    tcctx: &mut TypeConversionContext,
    ty: TypeHandle,
) -> Result<LLVMType, AllocError>
    requires within { ty.0 < length ctx.now.types }
    requires widths { HasWidths ctx.now.types ty }
    requires context { IsContextFor ctx.now.types back.old tcctx.old }
    ensures stands { IfOk result (StandsFor ctx.now.types back.new ty) }
    ensures given { IfOk result (λ t. given_at tcctx.new ty ≡ Some t) }
    ensures meant { AreMeant ctx.now.types back.old tcctx.old → AreMeant ctx.now.types back.new tcctx.new }
    ensures gives { Gives ctx.now.types (λ u. IsWithin ctx.now.types u ty) back.old tcctx.old back.new tcctx.new }
{
    make_room(ctx, tcctx)?;
    give(ctx, back, tcctx, ty)
}

/// Makes a place for each type of the context.
fn make_room(ctx: &Context, tcctx: &mut TypeConversionContext) -> Result<(), AllocError>
    ensures same { (t : TypeHandle) → given_at tcctx.new t ≡ given_at tcctx.old t }
    ensures room { OnOk result (length ctx.now.types ≤ length tcctx.new.given.items) }
    ensures stored { IsStored ctx.now.types }
{
    let count = ctx.types().len() as usize;
    while tcctx.given.len() < count {
        tcctx.given.push(None)?;
    }
    Ok(())
}

/// The type that stands for one that is there; a place is there for each.
#[cycle(give)]
fn give(
    ctx: &Context,
    back: &mut LLVMModule,
    tcctx: &mut TypeConversionContext,
    ty: TypeHandle,
) -> Result<LLVMType, AllocError>
    requires { MayGive ctx.now.types (λ u. IsWithin ctx.now.types u ty) back.old tcctx.old }
    ensures given { IfOk result (λ t. given_at tcctx.new ty ≡ Some t) }
    ensures gives { Gives ctx.now.types (λ u. IsWithin ctx.now.types u ty) back.old tcctx.old back.new tcctx.new }
    ensures room { length ctx.now.types ≤ length tcctx.new.given.items }
{
    if let Some(given) = tcctx.given[ty.0 as usize] {
        return Ok(given);
    }
    let kind = ctx.types().kind(ty);
    let given = make(ctx, back, tcctx, kind)?;
    tcctx.given[ty.0 as usize] = Some(given);
    Ok(given)
}

/// The type that stands for that of a kind, once its parts are there.
#[cycle(give)]
fn make(
    ctx: &Context,
    back: &mut LLVMModule,
    tcctx: &mut TypeConversionContext,
    kind: &TypeKind,
) -> Result<LLVMType, AllocError>
    requires may { MayGive ctx.now.types (IsWithinSome ctx.now.types (numbers_in kind.now)) back.old tcctx.old }
    requires fit { HasFitParts (type_trees ctx.now.types) kind.now }
    requires width { (w : ℕ) → kind.now ≡ kinds_of.Integer w → IsWidth w }
    ensures makes { IfOk result (Makes ctx.now.types kind.now back.old tcctx.old back.new tcctx.new) }
    ensures gives { OnErr result (Gives ctx.now.types (IsWithinSome ctx.now.types (numbers_in kind.now)) back.old tcctx.old back.new tcctx.new) }
    ensures room { length ctx.now.types ≤ length tcctx.new.given.items }
{
    match kind {
        TypeKind::Named { name, body } => give_struct(ctx, back, tcctx, name, body),
        kind => {
            let kind = give_kind(ctx, back, tcctx, kind)?;
            // This tells the proof of the module's invariant.
            let _ = back.types();
            let given = back.type_get(kind)?;
            Ok(given)
        }
    }
}

/// The kind that stands for that of a type that is no struct with a name, once its parts are there: a line for each.
#[cycle(give)]
fn give_kind(
    ctx: &Context,
    back: &mut LLVMModule,
    tcctx: &mut TypeConversionContext,
    kind: &TypeKind,
) -> Result<LLVMTypeKind, AllocError>
    requires may { MayGive ctx.now.types (IsWithinSome ctx.now.types (numbers_in kind.now)) back.old tcctx.old }
    requires width { (w : ℕ) → kind.now ≡ kinds_of.Integer w → IsWidth w }
    requires plain { is_named kind.now ≡ false }
    ensures over { IfOk result (λ k. IsTypeOver (length back.new.types) k) }
    ensures tree { IfOk result (λ k. lists.type_tree (trees_of back.new).types k ≡ type_tree (type_trees ctx.now.types) kind.now) }
    ensures parts { OnOk result (AreGiven tcctx.new (numbers_in kind.now)) }
    ensures gives { Gives ctx.now.types (IsWithinSome ctx.now.types (numbers_in kind.now)) back.old tcctx.old back.new tcctx.new }
    ensures room { length ctx.now.types ≤ length tcctx.new.given.items }
{
    match kind {
        TypeKind::Void => Ok(LLVMTypeKind::Void),
        TypeKind::Integer(width) => Ok(LLVMTypeKind::Int(*width)),
        TypeKind::Pointer(space) => Ok(LLVMTypeKind::Ptr(*space)),
        TypeKind::Floating(of) => Ok(LLVMTypeKind::Floating(*of)),
        TypeKind::Array(element, count) => {
            let element = give(ctx, back, tcctx, *element)?;
            Ok(LLVMTypeKind::Array(*count, element))
        }
        TypeKind::Vector(element, count, kind) => {
            let element = give(ctx, back, tcctx, *element)?;
            Ok(LLVMTypeKind::Vector(*kind, *count, element))
        }
        TypeKind::Struct { fields, layout } => {
            let fields = give_all(ctx, back, tcctx, fields.as_slice())?;
            Ok(LLVMTypeKind::Literal {
                fields,
                layout: *layout,
            })
        }
        TypeKind::Func {
            result,
            params,
            variadic,
        } => {
            let result = give(ctx, back, tcctx, *result)?;
            let params = give_all(ctx, back, tcctx, params.as_slice())?;
            Ok(LLVMTypeKind::Function {
                result,
                params,
                variadic: *variadic,
            })
        }
        TypeKind::Named { .. } => unreachable!(),
    }
}

/// The type that names a struct, which is added to the module as the last thing that can fail.
#[cycle(give)]
fn give_struct(
    ctx: &Context,
    back: &mut LLVMModule,
    tcctx: &mut TypeConversionContext,
    name: &Identifier,
    body: &Option<StructFields>,
) -> Result<LLVMType, AllocError>
    requires may { MayGive ctx.now.types (IsWithinSome ctx.now.types (types_in body.now)) back.old tcctx.old }
    requires fit { HasFitParts (type_trees ctx.now.types) (kinds_of.Named name.now body.now) }
    ensures makes { IfOk result (Makes ctx.now.types (kinds_of.Named name.now body.now) back.old tcctx.old back.new tcctx.new) }
    ensures gives { OnErr result (Gives ctx.now.types (IsWithinSome ctx.now.types (types_in body.now)) back.old tcctx.old back.new tcctx.new) }
    ensures room { length ctx.now.types ≤ length tcctx.new.given.items }
{
    let body = give_body(ctx, back, tcctx, body)?;
    let text = Text::copy(tcctx.alloc, name.as_str())?;
    let given = back.type_get(LLVMTypeKind::Named(text))?;
    back.add_struct(name.as_str(), body)?;
    Ok(given)
}

/// The fields that stand for those of a struct, none where these are not told.
#[cycle(give)]
fn give_body(
    ctx: &Context,
    back: &mut LLVMModule,
    tcctx: &mut TypeConversionContext,
    body: &Option<StructFields>,
) -> Result<Option<made::StructFields>, AllocError>
    requires { MayGive ctx.now.types (IsWithinSome ctx.now.types (types_in body.now)) back.old tcctx.old }
    ensures over { IfOk result (λ b. IfSome b (λ b. All (λ t. t.0 < length back.new.types) b.types)) }
    ensures fields { IfOk result (λ b. option_map (lists.fields_of (trees_of back.new).types) b ≡ option_map (fields_of (type_trees ctx.now.types)) body.now) }
    ensures parts { OnOk result (AreGiven tcctx.new (types_in body.now)) }
    ensures gives { Gives ctx.now.types (IsWithinSome ctx.now.types (types_in body.now)) back.old tcctx.old back.new tcctx.new }
    ensures room { length ctx.now.types ≤ length tcctx.new.given.items }
{
    match body {
        Some(fields) => {
            let types = give_all(ctx, back, tcctx, fields.types.as_slice())?;
            Ok(Some(made::StructFields {
                types,
                layout: fields.layout,
            }))
        }
        None => Ok(None),
    }
}

/// The types that stand for types that are there.
#[cycle(give)]
fn give_all(
    ctx: &Context,
    back: &mut LLVMModule,
    tcctx: &mut TypeConversionContext,
    types: &[TypeHandle],
) -> Result<Items<LLVMType>, AllocError>
    requires { MayGive ctx.now.types (IsWithinSome ctx.now.types types.now) back.old tcctx.old }
    ensures given { IfOk result (λ ts. map (given_at tcctx.new) types.now ≡ map Some ts) }
    ensures gives { Gives ctx.now.types (IsWithinSome ctx.now.types types.now) back.old tcctx.old back.new tcctx.new }
    ensures room { length ctx.now.types ≤ length tcctx.new.given.items }
{
    let mut given = Items::new(tcctx.alloc);
    for ty in types {
        let one = give(ctx, back, tcctx, *ty)?;
        given.push(one)?;
    }
    Ok(given)
}

/// A type of values of a store may be converted, and so may void: each integer type within it has a width that LLVM has.
pub fn held_types_have_widths()
    ensures { (ks : List TypeKind) → (t : TypeHandle) → IsStored ks → t.0 < length ks → IsHeldResult (type_at (type_trees ks) t) → HasWidths ks t }
{}
