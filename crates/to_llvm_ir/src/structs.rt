//! Structs with a name: those of the context become structs of the module back, in the order in which they were made.

ghost use Rattle.std.specs.Prelude.{◌≡◌, ◌<◌, ◌^◌, ◌∷◌, [], IfOk, IfSome, OnOk, Some, length, slice_get};
ghost use Rattle.std.specs.Option.{option_map};
ghost use Rattle.llvm_core.specs.Data as lists;
ghost use Rattle.llvm_core.specs.Data.{trees_of};
ghost use Rattle.llvm_core.specs.Sound.{AreFieldsIn};
ghost use Rattle.dialect_types.specs.declared.types.TypeKind.{TypeKind};
ghost use Rattle.dialect_types.specs.Trees.{IsStored, fields_of, structs_of, type_trees};
ghost use Rattle.to_llvm_ir.specs.Structs.{AreFieldsOf, AddsStructs, structs_in};

use crate::guesses::Guesses;
use crate::numbers::check_few;
use crate::types::value_types;
use dialect_core::context::Context;
use dialect_types::identifier::Identifier;
use dialect_types::types::{StructFields, TypeHandle, TypeKind};
use llvm_core::module::LLVMModule;
use llvm_core::structs as made;
use std::alloc::{AllocError, Global};

/// The fields that stand for those of a struct.
fn convert_fields(
    alloc: Global,
    ctx: &Context,
    fields: &StructFields,
    guesses: &mut Guesses,
    back: &mut LLVMModule,
) -> Result<made::StructFields, AllocError>
    requires { AreFieldsOf ctx.now.types fields.now }
    ensures fields { IfOk result (λ b. lists.fields_of (trees_of back.new).types b ≡ fields_of (type_trees ctx.now.types) fields.now) }
    ensures fit { IfOk result (AreFieldsIn back.new.types) }
    ensures few { OnOk result (length fields.now.types < 2 ^ 30) }
    ensures data { OnOk result (lists.data_of back.new ≡ lists.data_of back.old) }
{
    let list = fields.types.as_slice();
    check_few(list.len())?;
    let types = value_types(alloc, ctx, list, guesses, back)?;
    Ok(made::StructFields {
        types,
        layout: fields.layout,
    })
}

/// The fields that stand for those of a struct, none where these are not told.
fn convert_body(
    alloc: Global,
    ctx: &Context,
    body: &Option<StructFields>,
    guesses: &mut Guesses,
    back: &mut LLVMModule,
) -> Result<Option<made::StructFields>, AllocError>
    requires { IfSome body.now (AreFieldsOf ctx.now.types) }
    ensures fields { IfOk result (λ b. option_map (lists.fields_of (trees_of back.new).types) b ≡ option_map (fields_of (type_trees ctx.now.types)) body.now) }
    ensures fit { IfOk result (λ b. IfSome b (AreFieldsIn back.new.types)) }
    ensures few { OnOk result (IfSome body.now (λ b. length b.types < 2 ^ 30)) }
    ensures data { OnOk result (lists.data_of back.new ≡ lists.data_of back.old) }
{
    match body {
        Some(fields) => {
            let fields = convert_fields(alloc, ctx, fields, guesses, back)?;
            Ok(Some(fields))
        }
        None => Ok(None),
    }
}

/// The struct of that name and those fields, as the last of the module.
fn add_struct(
    alloc: Global,
    ctx: &Context,
    name: &Identifier,
    body: &Option<StructFields>,
    guesses: &mut Guesses,
    back: &mut LLVMModule,
) -> Result<(), AllocError>
    requires { IfSome body.now (AreFieldsOf ctx.now.types) }
    ensures { OnOk result (AddsStructs (record { name = name.now; body = option_map (fields_of (type_trees ctx.now.types)) body.now } ∷ []) (lists.data_of back.old) (lists.data_of back.new)) }
{
    let body = convert_body(alloc, ctx, body, guesses, back)?;
    back.add_struct(name.as_str(), body)?;
    Ok(())
}

/// The struct that the type of a number is, where it is one with a name, as the last of the module.
fn convert_struct(
    alloc: Global,
    ctx: &Context,
    ty: TypeHandle,
    guesses: &mut Guesses,
    back: &mut LLVMModule,
) -> Result<(), AllocError>
    requires within { ty.0 < length ctx.now.types }
    requires stored { IsStored ctx.now.types }
    ensures { (k : TypeKind) → slice_get ctx.now.types ty.0 ≡ Some k → OnOk result (AddsStructs (structs_in ctx.now.types (k ∷ [])) (lists.data_of back.old) (lists.data_of back.new)) }
{
    match ctx.types().kind(ty) {
        TypeKind::Named { name, body } => add_struct(alloc, ctx, name, body, guesses, back),
        _ => Ok(()),
    }
}

/// The structs of the context, in the order in which they were made there, as the last of the module.
pub fn convert_structs(
    alloc: Global,
    ctx: &Context,
    guesses: &mut Guesses,
    back: &mut LLVMModule,
) -> Result<(), AllocError>
    ensures structs { OnOk result (AddsStructs (structs_of ctx.now.types) (lists.data_of back.old) (lists.data_of back.new)) }
    ensures few { OnOk result (length (lists.data_of back.new).structs < 2 ^ 30) }
    ensures stored { IsStored ctx.now.types }
{
    for i in 0..ctx.types().len() {
        convert_struct(alloc, ctx, TypeHandle(i), guesses, back)?;
    }
    check_few(back.structs() as usize)
}
