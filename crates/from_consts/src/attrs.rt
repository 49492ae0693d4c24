//! One constant of a module to an attribute, over the types that were given for its type and what is within it.

ghost use Rattle.std.specs.Prelude.{◌≡◌, ◌≤◌, ℕ, IfErr, IfOk, None, OnOk, Some, slice_get};
ghost use Rattle.llvm_core.specs.declared.consts.LLVMConstKind.TheVariants as consts_of;
ghost use Rattle.llvm_core.specs.declared.numbers.LLVMType.{LLVMType};
ghost use Rattle.llvm_core.specs.declared.types.LLVMTypeKind.TheVariants as types_of;
ghost use Rattle.llvm_core.specs.Sound.{IsModule};
ghost use Rattle.const_attrs.specs.Trees.{BytesAttr, attr_data};
ghost use Rattle.from_consts.specs.Constants.{type_number, IsConstant, IsPartCause};
ghost use Rattle.from_consts.specs.Given.{given_at};
ghost use Rattle.from_consts.specs.Parts.{IsWithin};
ghost use Rattle.from_consts.specs.Steps.{AreAttrsGiven, IsAttrGiven, IsWideAt};

use crate::const_context::ConstContext;
use crate::conversion_err::{ConversionErr, Unsupported};
use const_attrs::const_attr::ConstAttr;
use dialect_types::types::TypeHandle;
use llvm_core::consts::LLVMConstKind;
use llvm_core::module::LLVMModule;
use llvm_core::numbers::{LLVMConst, LLVMType};
use llvm_core::types::LLVMTypeKind;
use std::alloc::{AllocError, Global};

/// The greatest width of an integer that an attribute holds.
const MAX_SHORT: u32 = 64;

/// Refuses an integer type of more than 64 bits.
fn short_width(module: &LLVMModule, ty: LLVMType) -> Result<(), ConversionErr>
    requires integer { (width : ℕ) × (slice_get «module».now.types ty.0 ≡ Some (types_of.Int width)) }
    ensures ok { OnOk result ((width : ℕ) → slice_get «module».now.types ty.0 ≡ Some (types_of.Int width) → width ≤ 64) }
    ensures err { IfErr result (IsWideAt «module».now ty) }
{
    match module.type_kind(ty) {
        LLVMTypeKind::Int(width) if *width > MAX_SHORT => {
            Err(ConversionErr::IntConstTooWide(*width))
        }
        _ => Ok(()),
    }
}

/// The type that was given for a number.
fn given_type<'a>(cctx: &ConstContext<'a>, ty: LLVMType) -> TypeHandle
    requires { ¬ (given_at cctx.now ty ≡ None) }
    ensures { given_at cctx.now ty ≡ Some result }
{
    match cctx.converted(ty) {
        Some(given) => given,
        None => unreachable!(),
    }
}

/// Bytes as an attribute.
fn bytes_attr(alloc: Global, bytes: &[u8]) -> Result<ConstAttr, AllocError>
    ensures { IfOk result (λ a. attr_data a ≡ BytesAttr bytes.now) }
{
    let mut copy = Vec::new(alloc);
    copy.extend_from_slice(bytes)?;
    Ok(ConstAttr::Bytes(copy))
}

/// The attribute of a constant that is no placeholder, where a type was given for each that is within its type. It takes time and
/// memory as the constant has parts, each as often as it stands in it, and the calls go as deep as its type nests.
/// Refuses an integer of more than 64 bits, `IntConstTooWide`, and a scalable vector of equal elements, `ScalableSplat`, wherever in the
/// constant it is.
#[cycle(attr)]
pub(crate) fn attr<'a>(
    cctx: &ConstContext<'a>,
    module: &LLVMModule,
    c: LLVMConst,
) -> Result<ConstAttr, ConversionErr>
    requires sound { IsModule «module».now }
    requires there { IsConstant «module».now c }
    requires known { (u : LLVMType) → IsWithin «module».now u (type_number «module».now c) → ¬ (given_at cctx.now u ≡ None) }
    ensures made { IfOk result (IsAttrGiven «module».now cctx.now c) }
    ensures cause { IfErr result (IsPartCause «module».now c) }
{
    match module.const_kind(c) {
        LLVMConstKind::Int(ty, value) => {
            short_width(module, *ty)?;
            Ok(ConstAttr::Integer(given_type(cctx, *ty), *value as u64))
        }
        LLVMConstKind::Filled(fill, ty) => Ok(ConstAttr::filled(*fill, given_type(cctx, *ty))),
        LLVMConstKind::Bytes(_, bytes) => Ok(bytes_attr(cctx.alloc, bytes.as_slice())?),
        LLVMConstKind::List(ty, elements) => {
            let elements = attrs(cctx, module, c, elements.as_slice())?;
            Ok(ConstAttr::Aggregate(elements, given_type(cctx, *ty)))
        }
        LLVMConstKind::Splat(..) => Err(ConversionErr::Unsupported(Unsupported::ScalableSplat)),
        LLVMConstKind::Placeholder(..) => unreachable!(),
    }
}

/// The attributes of the elements of the constant of a number.
#[cycle(attr)]
fn attrs<'a>(
    cctx: &ConstContext<'a>,
    module: &LLVMModule,
    c: LLVMConst,
    elements: &[LLVMConst],
) -> Result<Vec<ConstAttr>, ConversionErr>
    requires sound { IsModule «module».now }
    requires list { (t : LLVMType) × (slice_get «module».now.consts c.0 ≡ Some (consts_of.List t elements.now)) }
    requires known { (u : LLVMType) → IsWithin «module».now u (type_number «module».now c) → ¬ (given_at cctx.now u ≡ None) }
    ensures made { IfOk result (λ made. AreAttrsGiven «module».now cctx.now elements.now made.items) }
    ensures cause { IfErr result (IsPartCause «module».now c) }
{
    let mut made = Vec::with_capacity(cctx.alloc, elements.len())?;
    for element in elements {
        made.push(attr(cctx, module, *element)?)?;
    }
    Ok(made)
}
