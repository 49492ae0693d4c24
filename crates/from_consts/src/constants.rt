//! One constant of a module to an attribute, or to an operation of a context.

ghost use Rattle.std.specs.Prelude.{◌≡◌, ◌<◌, ◌++◌, ◌∷◌, [], true, false, IfErr, IfOk, IfSome, None, Ok, OnErr, OnOk, length};
ghost use Rattle.kinds.specs.Held.{deepest as depth};
ghost use Rattle.llvm_core.specs.declared.numbers.LLVMType.{LLVMType};
ghost use Rattle.llvm_core.specs.Depths.{nests_at};
ghost use Rattle.llvm_core.specs.Sound.{IsModule};
ghost use Rattle.dialect_types.specs.Trees.{structs_of};
ghost use Rattle.dialect_core.specs.declared.numbers.OpRef.{OpRef};
ghost use Rattle.dialect_core.specs.declared.ops.Value.TheVariants as values;
ghost use Rattle.from_consts.specs.Constants.{type_number, AddsOp, IsAttrFor, IsConstant, IsConstCause, IsInConst, IsPartCause, IsPlaceholder};
ghost use Rattle.from_consts.specs.Steps.{IsOpKindGiven};
ghost use Rattle.from_consts.specs.Given.{Gives, IsContextFor, StandsFor, given_at};

use crate::attrs::attr;
use crate::const_context::ConstContext;
use crate::conversion_err::ConversionErr;
use crate::types::convert_type;
use const_attrs::const_attr::ConstAttr;
use dialect_core::context::Context;
use dialect_core::numbers::OpRef;
use dialect_core::ops::{OpKind, Value};
use dialect_types::types::TypeHandle;
use llvm_core::code::LLVMValue;
use llvm_core::consts::LLVMConstKind;
use llvm_core::module::LLVMModule;
use llvm_core::numbers::LLVMConst;

/// The type of a context that stands for that of a constant.
fn const_type<'a>(
    ctx: &mut Context,
    cctx: &mut ConstContext<'a>,
    module: &'a LLVMModule,
    c: LLVMConst,
) -> Result<TypeHandle, ConversionErr>
    requires within { c.0 < length «module».now.consts }
    requires nested { nests_at «module».now (type_number «module».now c) depth ≡ true }
    requires context { IsContextFor «module».now ctx.old.types cctx.old }
    ensures sound { IsModule «module».now }
    ensures stands { IfOk result (StandsFor «module».now cctx.new.names ctx.new.types (type_number «module».now c)) }
    ensures known { OnOk result ((u : LLVMType) → IsInConst «module».now c u → ¬ (given_at cctx.new u ≡ None)) }
    ensures gives { Gives «module».now (IsInConst «module».now c) ctx.old cctx.old ctx.new cctx.new }
    ensures cause { IfErr result (IsConstCause «module».now c (structs_of ctx.old.types) cctx.new.names) }
{
    // The module says that it is sound.
    let _count = module.types();
    let ty = module.type_of(LLVMValue::Const(c));
    convert_type(ctx, cctx, module, ty)
}

/// Whether a constant is a placeholder.
fn is_placeholder(module: &LLVMModule, c: LLVMConst) -> bool
    requires { c.0 < length «module».now.consts }
    ensures yes { result ≡ true → IsPlaceholder «module».now c }
    ensures no { result ≡ false → IsConstant «module».now c }
{
    match module.const_kind(c) {
        LLVMConstKind::Int(..) => false,
        LLVMConstKind::Filled(..) => false,
        LLVMConstKind::Bytes(..) => false,
        LLVMConstKind::List(..) => false,
        LLVMConstKind::Splat(..) => false,
        LLVMConstKind::Placeholder(..) => true,
    }
}

/// The attribute that stands for a constant; none for a placeholder, which has none. Its type nests no deeper than is allowed, as
/// each type in use of a checked module does. After a refusal the context may hold more types, and more names and types may have
/// been given.
/// Refuses an integer of more than 64 bits, `IntConstTooWide`, and a scalable vector of equal elements, `ScalableSplat`, where the constant
/// is it or is made of it, and a constant of a type that `convert_type` refuses.
pub fn const_to_attr<'a>(
    ctx: &mut Context,
    cctx: &mut ConstContext<'a>,
    module: &'a LLVMModule,
    c: LLVMConst,
) -> Result<Option<ConstAttr>, ConversionErr>
    requires within { c.0 < length «module».now.consts }
    requires nested { nests_at «module».now (type_number «module».now c) depth ≡ true }
    requires context { IsContextFor «module».now ctx.old.types cctx.old }
    ensures some { IfOk result (λ o. IfSome o (IsAttrFor «module».now cctx.new.names ctx.new.types c)) }
    ensures none { result ≡ Ok None → IsPlaceholder «module».now c }
    ensures gives { Gives «module».now (IsInConst «module».now c) ctx.old cctx.old ctx.new cctx.new }
    ensures cause { IfErr result (IsConstCause «module».now c (structs_of ctx.old.types) cctx.new.names) }
{
    let _ty = const_type(ctx, cctx, module, c)?;
    if is_placeholder(module, c) {
        return Ok(None);
    }
    Ok(Some(attr(cctx, module, c)?))
}

/// The kind of the operation that stands for a constant that is no placeholder, with a result of the type that was given for its
/// type.
fn op_kind<'a>(
    cctx: &ConstContext<'a>,
    module: &LLVMModule,
    c: LLVMConst,
) -> Result<OpKind, ConversionErr>
    requires sound { IsModule «module».now }
    requires there { IsConstant «module».now c }
    requires known { (u : LLVMType) → IsInConst «module».now c u → ¬ (given_at cctx.now u ≡ None) }
    ensures made { IfOk result (IsOpKindGiven «module».now cctx.now c) }
    ensures cause { IfErr result (IsPartCause «module».now c) }
{
    if let LLVMConstKind::Filled(fill, _) = module.const_kind(c) {
        return Ok(OpKind::Filled(*fill));
    }
    let made = attr(cctx, module, c)?;
    Ok(OpKind::constant(cctx.alloc, made)?)
}

/// Appends the operations that stand for a constant, which is no placeholder: silent ones, in no block, of which the last has the
/// value that is answered. After a refusal the context may hold more types, and more names and types may have been given.
/// Refuses what `const_to_attr` refuses.
pub fn const_to_ops<'a>(
    ctx: &mut Context,
    cctx: &mut ConstContext<'a>,
    module: &'a LLVMModule,
    c: LLVMConst,
    ops: &mut Vec<OpRef>,
) -> Result<Value, ConversionErr>
    requires there { IsConstant «module».now c }
    requires nested { nests_at «module».now (type_number «module».now c) depth ≡ true }
    requires context { IsContextFor «module».now ctx.old.types cctx.old }
    ensures ok { IfOk result (λ v. (op : OpRef) × (v ≡ values.Result op) × (ops.new.items ≡ ops.old.items ++ op ∷ []) × AddsOp «module».now c ctx.old cctx.old ctx.new cctx.new op) }
    ensures err { OnErr result (ops.new.items ≡ ops.old.items) }
    ensures kept { OnErr result (Gives «module».now (IsInConst «module».now c) ctx.old cctx.old ctx.new cctx.new) }
    ensures cause { IfErr result (IsConstCause «module».now c (structs_of ctx.old.types) cctx.new.names) }
{
    let ty = const_type(ctx, cctx, module, c)?;
    let kind = op_kind(cctx, module, c)?;
    ops.reserve(1)?;
    let op = ctx.create_op(kind, &[], &[], Some(ty))?;
    ops.push(op)?;
    Ok(Value::Result(op))
}
