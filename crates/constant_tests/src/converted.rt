//! Constants of a module to attributes and to operations: both calls answer, and refuse an integer of more than 64 bits. What
//! they answer is in their contracts.

ghost use Rattle.std.specs.Prelude.{◌≤◌, ◌^◌, IfOk, OnOk};
ghost use Rattle.llvm_core.specs.Sound.{IsModule};
ghost use Rattle.constant_tests.specs.Converted.{IsOfInteger};

use const_attrs::const_attr::ConstAttr;
use dialect_core::context::Context;
use dialect_core::ops::Value;
use from_consts::const_context::ConstContext;
use from_consts::constants::{const_to_attr, const_to_ops};
use from_consts::conversion_err::ConversionErr;
use kinds::fill::Fill;
use llvm_core::consts::LLVMConstKind;
use llvm_core::module::LLVMModule;
use llvm_core::numbers::LLVMConst;
use llvm_core::types::LLVMTypeKind;
use std::alloc::{AllocError, Global};

/// The integer 0, or undef or poison of its type.
fn constant(
    module: &mut LLVMModule,
    width: u32,
    fill: Option<Fill>,
) -> Result<LLVMConst, AllocError>
    requires { (1 ≤ width) × (width ≤ 2 ^ 23) }
    ensures integer { IfOk result (IsOfInteger «module».new) }
    ensures sound { OnOk result (IsModule «module».new) }
{
    let ty = module.type_get(LLVMTypeKind::Int(width))?;
    let kind = match fill {
        Some(fill) => LLVMConstKind::Filled(fill, ty),
        None => LLVMConstKind::Int(ty, 0),
    };
    module.const_get(kind)
}

/// What both calls answer to a constant, and how many operations then stand in the list.
#[derive(Drop)]
struct Answers {
    attr: Result<Option<ConstAttr>, ConversionErr>,
    value: Result<Value, ConversionErr>,
    ops: usize,
}

/// Converts the integer 0, or undef or poison, of an integer type, in a context of its own.
fn convert(alloc: Global, width: u32, fill: Option<Fill>) -> Result<Answers, AllocError>
    requires { (1 ≤ width) × (width ≤ 2 ^ 23) }
{
    let mut module = LLVMModule::new(alloc, "m")?;
    let c = constant(&mut module, width, fill)?;
    let mut ctx = Context::new(alloc);
    let mut cctx = ConstContext::new(alloc);
    let attr = const_to_attr(&mut ctx, &mut cctx, &module, c);
    let mut ops = Vec::new(alloc);
    let value = const_to_ops(&mut ctx, &mut cctx, &module, c, &mut ops);
    Ok(Answers {
        attr,
        value,
        ops: ops.len(),
    })
}

/// Whether both calls answer, and one operation is made.
fn is_converted(alloc: Global, width: u32, fill: Option<Fill>) -> bool
    requires { (1 ≤ width) × (width ≤ 2 ^ 23) }
{
    match convert(alloc, width, fill) {
        Ok(all) => matches!(all.attr, Ok(Some(_))) && all.value.is_ok() && all.ops == 1,
        Err(_) => false,
    }
}

/// Whether both calls refuse the integer 0 for its width, and no operation is made.
fn is_too_wide(alloc: Global, width: u32) -> bool
    requires { (1 ≤ width) × (width ≤ 2 ^ 23) }
{
    match convert(alloc, width, None) {
        Ok(all) => {
            is_refusal_of(&all.attr, width) && is_refusal_of(&all.value, width) && all.ops == 0
        }
        Err(_) => false,
    }
}

fn is_refusal_of<T>(answer: &Result<T, ConversionErr>, width: u32) -> bool {
    match answer {
        Err(ConversionErr::IntConstTooWide(of)) => *of == width,
        _ => false,
    }
}

#[test]
fn constants_of_a_module_are_converted(rt: HostRuntime) {
    assert!(rt; is_converted(rt.alloc(), 1, None));
    assert!(rt; is_converted(rt.alloc(), 64, None));
    assert!(rt; is_converted(rt.alloc(), 8, Some(Fill::Zero)));
    assert!(rt; is_converted(rt.alloc(), 8, Some(Fill::Undef)));
    assert!(rt; is_converted(rt.alloc(), 65, Some(Fill::Poison)));
    assert!(rt; is_too_wide(rt.alloc(), 65));
}
