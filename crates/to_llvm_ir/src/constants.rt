//! Constants of the dialect, turned into constants of LLVM by number. The types are those of the module: they are read off
//! beside the attribute.

ghost use Rattle.std.specs.Prelude.{◌≡◌, ◌<◌, ℕ, List, Some, length, slice_get, IfOk, OnOk};
ghost use Rattle.llvm_core.specs.declared.numbers.LLVMType.{LLVMType};
ghost use Rattle.llvm_core.specs.Consts.{HasConstParts, HasFields};
ghost use Rattle.llvm_core.specs.Sound.{IsModule};
ghost use Rattle.llvm_core.specs.Data.{data_of};
ghost use Rattle.dialect_types.specs.Trees.{TypeTree};
ghost use Rattle.const_attrs.specs.Trees.{attr_data};
ghost use Rattle.to_llvm_ir.specs.Growth.{Grows};
ghost use Rattle.to_llvm_ir.specs.Constants.{ArePartsOf, IsVectorOf, IsSource, AreSources, IsConstOf, AreConstsOf, IsKindOf};

use const_attrs::const_attr::ConstAttr;
use kinds::fill::Fill;
use llvm_core::consts::LLVMConstKind;
use llvm_core::module::LLVMModule;
use llvm_core::numbers::{LLVMConst, LLVMType};
use llvm_core::types::LLVMTypeKind;
use std::alloc::{AllocError, Global};
use support::items::Items;

/// The type of the field at a place of the struct of a name.
fn field_at(back: &LLVMModule, name: &str, place: usize) -> LLVMType
    requires { (parts : List LLVMType) × HasFields back.now.structs name.now parts × (place < length parts) }
    ensures { (parts : List LLVMType) → HasFields back.now.structs name.now parts → place < length parts → slice_get parts place ≡ Some result }
{
    let Some(s) = back.struct_named(name) else {
        unreachable!();
    };
    let Some(body) = back.struct_body(s) else {
        unreachable!();
    };
    body.types.as_slice()[place]
}

/// The type of the element at a place of a constant of a type.
fn part_at(back: &LLVMModule, ty: LLVMType, place: usize) -> LLVMType
    requires { (parts : List LLVMType) × ArePartsOf back.now ty parts × (place < length parts) }
    ensures { (parts : List LLVMType) → ArePartsOf back.now ty parts → place < length parts → slice_get parts place ≡ Some result }
{
    match back.type_kind(ty) {
        LLVMTypeKind::Array(_, element) => *element,
        LLVMTypeKind::Vector(_, _, element) => *element,
        LLVMTypeKind::Literal { fields, .. } => fields.as_slice()[place],
        LLVMTypeKind::Named(name) => field_at(back, name.as_str(), place),
        _ => unreachable!(),
    }
}

/// The type of each element of a vector of a type.
fn lane_of(back: &LLVMModule, ty: LLVMType) -> LLVMType
    requires { (lane : LLVMType) × IsVectorOf back.now ty lane }
    ensures { (lane : LLVMType) → IsVectorOf back.now ty lane → result ≡ lane }
{
    match back.type_kind(ty) {
        LLVMTypeKind::Vector(_, _, element) => *element,
        _ => unreachable!(),
    }
}

/// A copy of some bytes.
fn copied(alloc: Global, bytes: &[u8]) -> Result<Items<u8>, AllocError>
    ensures { IfOk result (λ copy. copy ≡ bytes.now) }
{
    let mut copy = Vec::new(alloc);
    copy.extend_from_slice(bytes)?;
    Ok(Items::from_vec(copy))
}

/// The kind of the constant that an attribute of a type becomes, for `const_get`, once its elements are there: a line for each
/// kind of attribute.
#[cycle(kind_for)]
fn kind_for(
    alloc: Global,
    value: &ConstAttr,
    ty: LLVMType,
    back: &mut LLVMModule,
) -> Result<LLVMConstKind, AllocError>
    requires source { (ts : List TypeTree) × IsSource ts back.old (attr_data value.now) ty }
    requires sound { IsModule back.old }
    ensures parts { IfOk result (HasConstParts back.new) }
    ensures form { (ts : List TypeTree) → IsSource ts back.old (attr_data value.now) ty → IfOk result (IsKindOf ts back.new (attr_data value.now)) }
    ensures grows { OnOk result (Grows back.old back.new) }
    ensures rest { OnOk result (back.new ≡ record back.old { consts = back.new.consts }) }
    ensures data { OnOk result (data_of back.new ≡ data_of back.old) }
    ensures sound { OnOk result (IsModule back.new) }
{
    match value {
        ConstAttr::Integer(_, number) => Ok(LLVMConstKind::Int(ty, u128::from(*number))),
        ConstAttr::Zero(_) => Ok(LLVMConstKind::Filled(Fill::Zero, ty)),
        ConstAttr::Undef(_) => Ok(LLVMConstKind::Filled(Fill::Undef, ty)),
        ConstAttr::Poison(_) => Ok(LLVMConstKind::Filled(Fill::Poison, ty)),
        ConstAttr::Bytes(bytes) => Ok(LLVMConstKind::Bytes(ty, copied(alloc, bytes.as_slice())?)),
        ConstAttr::Aggregate(elements, _) => {
            let elements = consts_for(alloc, elements.as_slice(), ty, back)?;
            Ok(LLVMConstKind::List(ty, elements))
        }
        ConstAttr::Splat(element, _) => {
            let lane = lane_of(back, ty);
            let kind = kind_for(alloc, element, lane, back)?;
            let element = back.const_get(kind)?;
            let lanes = back.splat_kind(ty, element)?;
            Ok(lanes)
        }
    }
}

/// The constants that the elements of an attribute of a type become, in order.
#[cycle(kind_for)]
fn consts_for(
    alloc: Global,
    values: &[ConstAttr],
    ty: LLVMType,
    back: &mut LLVMModule,
) -> Result<Items<LLVMConst>, AllocError>
    requires sources { (ts : List TypeTree) × (parts : List LLVMType) × ArePartsOf back.old ty parts × AreSources ts back.old values.now parts }
    requires sound { IsModule back.old }
    ensures are { (ts : List TypeTree) (parts : List LLVMType) → ArePartsOf back.old ty parts → AreSources ts back.old values.now parts → IfOk result (AreConstsOf ts back.new values.now) }
    ensures grows { OnOk result (Grows back.old back.new) }
    ensures rest { OnOk result (back.new ≡ record back.old { consts = back.new.consts }) }
    ensures data { OnOk result (data_of back.new ≡ data_of back.old) }
    ensures sound { OnOk result (IsModule back.new) }
{
    let mut elements = Items::from_vec(Vec::with_capacity(alloc, values.len())?);
    for (place, value) in values.iter().enumerate() {
        let part = part_at(back, ty, place);
        let kind = kind_for(alloc, value, part, back)?;
        let c = back.const_get(kind)?;
        elements.push(c)?;
    }
    Ok(elements)
}

/// The constant that an attribute of a type becomes.
pub fn const_for(
    alloc: Global,
    value: &ConstAttr,
    ty: LLVMType,
    back: &mut LLVMModule,
) -> Result<LLVMConst, AllocError>
    requires source { (ts : List TypeTree) × IsSource ts back.old (attr_data value.now) ty }
    requires sound { IsModule back.old }
    ensures is { (ts : List TypeTree) → IsSource ts back.old (attr_data value.now) ty → IfOk result (IsConstOf ts back.new (attr_data value.now)) }
    ensures grows { OnOk result (Grows back.old back.new) }
    ensures rest { OnOk result (back.new ≡ record back.old { consts = back.new.consts }) }
    ensures data { OnOk result (data_of back.new ≡ data_of back.old) }
    ensures sound { OnOk result (IsModule back.new) }
{
    let kind = kind_for(alloc, value, ty, back)?;
    let c = back.const_get(kind)?;
    Ok(c)
}
