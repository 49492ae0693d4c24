//! Counts what has no name in a function, in the order of its text.

ghost use Rattle.std.specs.Prelude.{◌≡◌, ◌<◌, ◌++◌, All, length, OnOk, IfOk};
ghost use Rattle.std.specs.List.{flat_map};
ghost use Rattle.ll_print.specs.Printing.{unnamed_params, unnamed_in};
ghost use Rattle.ll_print.specs.Numbering.{IsNumbering, Counts};
ghost use Rattle.ll_print.specs.Parts.{function_in, unnamed_at, unnamed_of, IsNumberable};
ghost use Rattle.llvm_core.specs.Sound.{IsModule};

use crate::numbers::Numbers;
use crate::places::Place;
use crate::types::is_void;
use llvm_core::code::LLVMValue;
use llvm_core::module::LLVMModule;
use llvm_core::numbers::{LLVMBasicBlock, LLVMFunction, LLVMInstRef};
use std::alloc::{AllocError, Global};

/// Counts the parameters of a function, which has that many.
fn count_params(m: &LLVMModule, params: u32, numbers: &mut Numbers) -> Result<(), AllocError>
    requires within { numbers.old.function.0 < length m.now.functions }
    requires all { params ≡ length (function_in m.now numbers.old.function).params }
    ensures { OnOk result (Counts numbers.old numbers.new (unnamed_params 0 (function_in m.now numbers.old.function).params)) }
{
    let f = numbers.function;
    for place in 0..params {
        numbers.count_unnamed(Place::Param(place), m.param_name(f, place))?;
    }
    Ok(())
}

/// Counts the result of an instruction, where it has one.
fn count_inst(m: &LLVMModule, i: LLVMInstRef, numbers: &mut Numbers) -> Result<(), AllocError>
    requires sound { IsModule m.now }
    requires within { i.0 < length m.now.insts }
    ensures { OnOk result (Counts numbers.old numbers.new (unnamed_at m.now i)) }
{
    if is_void(m, m.type_of(LLVMValue::Inst(i))) {
        return Ok(());
    }
    numbers.count_unnamed(Place::Result(i), m.inst_name(i))
}

/// Counts the results of instructions.
fn count_insts(
    m: &LLVMModule,
    insts: &[LLVMInstRef],
    numbers: &mut Numbers,
) -> Result<(), AllocError>
    requires sound { IsModule m.now }
    requires within { All (λ i. i.0 < length m.now.insts) insts.now }
    ensures { OnOk result (Counts numbers.old numbers.new (flat_map (unnamed_at m.now) insts.now)) }
{
    for i in insts {
        count_inst(m, *i, numbers)?;
    }
    Ok(())
}

/// Counts a block and its results.
fn count_block(m: &LLVMModule, b: LLVMBasicBlock, numbers: &mut Numbers) -> Result<(), AllocError>
    requires sound { IsModule m.now }
    requires within { b.0 < length m.now.blocks }
    ensures { OnOk result (Counts numbers.old numbers.new (unnamed_of m.now b)) }
{
    numbers.count_unnamed(Place::Block(b), m.block_name(b))?;
    count_insts(m, m.instructions(b), numbers)
}

/// Counts blocks and their results.
fn count_blocks(
    m: &LLVMModule,
    blocks: &[LLVMBasicBlock],
    numbers: &mut Numbers,
) -> Result<(), AllocError>
    requires sound { IsModule m.now }
    requires within { All (λ b. b.0 < length m.now.blocks) blocks.now }
    ensures { OnOk result (Counts numbers.old numbers.new (flat_map (unnamed_of m.now) blocks.now)) }
{
    for b in blocks {
        count_block(m, *b, numbers)?;
    }
    Ok(())
}

/// The numbers of a function's unnamed parameters, blocks and results.
pub fn numbers_of(
    alloc: Global,
    m: &LLVMModule,
    f: LLVMFunction,
    params: u32,
) -> Result<Numbers, AllocError>
    requires sound { IsModule m.now }
    requires within { f.0 < length m.now.functions }
    requires all { params ≡ length (function_in m.now f).params }
    ensures function { IfOk result (λ n. n.function ≡ f) }
    ensures numbered { IfOk result (λ n. IsNumbering n (unnamed_in (function_in m.now f))) }
    ensures few { IfOk result (λ n. IsNumberable (function_in m.now f)) }
{
    let mut numbers = Numbers::new(alloc, f);
    count_params(m, params, &mut numbers)?;
    count_blocks(m, m.blocks(f), &mut numbers)?;
    // This tells the proof that no more were counted than there are numbers.
    let _counted = numbers.counted();
    Ok(numbers)
}
