//! Structs of lines are added to a module.

ghost use Rattle.std.specs.Prelude.{◌≡◌, Err, IfOk, OnOk, None, map, All};
ghost use Rattle.llvm_core.specs.Data.{trees_of};
ghost use Rattle.llvm_core.specs.Sound.{IsModule};
ghost use Rattle.ll_lines.specs.Views.{IsStructIn, struct_view};
ghost use Rattle.ll_bodies.specs.Meaning.{all_of, struct_data};
ghost use Rattle.ll_bodies.specs.StructViews.{AddsStruct, AddsStructs};

use crate::build_err::BuildErr;
use ll_lines::lines::StructLine;
use ll_literals::symbols::symbol_name;
use llvm_core::module::LLVMModule;
use llvm_core::numbers::LLVMType;
use llvm_core::structs::StructFields;
use std::alloc::{AllocError, Global};
use support::items::Items;

/// The same types, for another owner.
fn copied_types(alloc: Global, types: &[LLVMType]) -> Result<Items<LLVMType>, AllocError>
    ensures { IfOk result (λ copy. copy ≡ types.now) }
{
    let mut copy = Items::from_vec(Vec::with_capacity(alloc, types.len())?);
    for ty in types {
        copy.push(*ty)?;
    }
    Ok(copy)
}

/// The same fields, for another owner.
fn copied_fields(alloc: Global, fields: &StructFields) -> Result<StructFields, AllocError>
    ensures { IfOk result (λ copy. copy ≡ fields.now) }
{
    let types = copied_types(alloc, fields.types.as_slice())?;
    Ok(StructFields {
        types,
        layout: fields.layout,
    })
}

/// The same fields, where there are any, for another owner.
fn copied_body(
    alloc: Global,
    body: &Option<StructFields>,
) -> Result<Option<StructFields>, AllocError>
    ensures { IfOk result (λ copy. copy ≡ body.now) }
{
    match body {
        Some(fields) => Ok(Some(copied_fields(alloc, fields)?)),
        None => Ok(None),
    }
}

/// Adds a struct behind those that are there.
fn add_struct(
    alloc: Global,
    module: &mut LLVMModule,
    bytes: &[u8],
    said: &StructLine,
) -> Result<(), BuildErr>
    requires { IsStructIn module.old said.now }
    ensures ok { OnOk result (AddsStruct bytes.now said.now module.old module.new) }
    ensures not_yet { result ≡ Err BuildErr.NotYet → struct_data (struct_view bytes.now (trees_of module.old) said.now) ≡ None }
{
    let written = symbol_name(alloc, said.name.text(bytes))?;
    let Some(name) = written else {
        return Err(BuildErr::NotYet);
    };
    let body = copied_body(alloc, &said.body)?;
    module.add_struct(name.as_str(), body)?;
    Ok(())
}

/// Adds structs behind those that are there, in their order.
pub fn add_structs(
    alloc: Global,
    module: &mut LLVMModule,
    bytes: &[u8],
    structs: &[StructLine],
) -> Result<(), BuildErr>
    requires sound { IsModule module.old }
    requires said { All (IsStructIn module.old) structs.now }
    ensures ok { OnOk result (AddsStructs bytes.now structs.now module.old module.new) }
    ensures not_yet { result ≡ Err BuildErr.NotYet → all_of struct_data (map (struct_view bytes.now (trees_of module.old)) structs.now) ≡ None }
{
    for said in structs {
        add_struct(alloc, module, bytes, said)?;
    }
    Ok(())
}
