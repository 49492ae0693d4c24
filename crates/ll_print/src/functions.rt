//! Prints functions.

ghost use Rattle.std.specs.Prelude.{◌≡◌, ◌<◌, ◌^◌, ◌++◌, ℕ, Some, All, OnOk, length, slice_get};
ghost use Rattle.std.specs.List.{flat_map};
ghost use Rattle.support.specs.Appended.{Keeps};
ghost use Rattle.llvm_core.specs.Sound.{IsModule};
ghost use Rattle.llvm_core.specs.Data.{trees_of, type_at, param_type, structs_of};
ghost use Rattle.kinds.specs.Types.{result_of};
ghost use Rattle.llvm_core.specs.Form.{IsFormFunction};
ghost use Rattle.ll_print.specs.Printing.{head_text, params_text, function_text};
ghost use Rattle.ll_print.specs.Numbering.{number_at};
ghost use Rattle.ll_print.specs.Parts.{function_in, entry_lines_of, lines_of, all_lines_of, label_line, entry_label_line, OwnsBlock, IsPrinting, IsNumberable, IsSignature};

use crate::instructions::put_lines;
use crate::numbering::numbers_of;
use crate::numbers::Numbers;
use crate::operands::{put_bare, put_local};
use crate::places::Place;
use crate::types::{put_comma, put_type};
use ll_literals::printed::put_name;
use llvm_core::module::LLVMModule;
use llvm_core::numbers::{LLVMBasicBlock, LLVMFunction, LLVMType};
use llvm_core::types::LLVMTypeKind;
use std::alloc::{AllocError, Global};

/// The label line of a block: its name, or the number of what has none.
fn put_label(
    numbers: &Numbers,
    name: &str,
    place: Place,
    out: &mut Vec<u8>,
) -> Result<(), AllocError>
    ensures text { OnOk result (out.new.items ≡ out.old.items ++ label_line name.now (number_at numbers.now place)) }
    ensures kept { Keeps out.old.items out.new.items }
{
    put_bare(numbers, name, place, out)?;
    out.extend_from_slice(b":\n")
}

/// The label line of the first block, where it has a name.
fn put_entry_label(
    numbers: &Numbers,
    name: &str,
    place: Place,
    out: &mut Vec<u8>,
) -> Result<(), AllocError>
    ensures text { OnOk result (out.new.items ≡ out.old.items ++ entry_label_line name.now (number_at numbers.now place)) }
    ensures kept { Keeps out.old.items out.new.items }
{
    if !name.is_empty() {
        put_label(numbers, name, place, out)?;
    }
    Ok(())
}

/// The first block.
fn put_entry_block(
    m: &LLVMModule,
    numbers: &Numbers,
    b: LLVMBasicBlock,
    out: &mut Vec<u8>,
) -> Result<(), AllocError>
    requires printing { IsPrinting m.now numbers.now }
    requires own { OwnsBlock m.now numbers.now.function b }
    ensures text { OnOk result (out.new.items ≡ out.old.items ++ entry_lines_of m.now (function_in m.now numbers.now.function) b) }
    ensures kept { Keeps out.old.items out.new.items }
{
    put_entry_label(numbers, m.block_name(b), Place::Block(b), out)?;
    put_lines(m, numbers, m.instructions(b), out)
}

/// A block behind the first, after a blank line.
fn put_block(
    m: &LLVMModule,
    numbers: &Numbers,
    b: LLVMBasicBlock,
    out: &mut Vec<u8>,
) -> Result<(), AllocError>
    requires printing { IsPrinting m.now numbers.now }
    requires own { OwnsBlock m.now numbers.now.function b }
    ensures text { OnOk result (out.new.items ≡ out.old.items ++ lines_of m.now (function_in m.now numbers.now.function) b) }
    ensures kept { Keeps out.old.items out.new.items }
{
    out.push(b'\n')?;
    put_label(numbers, m.block_name(b), Place::Block(b), out)?;
    put_lines(m, numbers, m.instructions(b), out)
}

/// Blocks behind the first in order.
fn put_later_blocks(
    m: &LLVMModule,
    numbers: &Numbers,
    blocks: &[LLVMBasicBlock],
    out: &mut Vec<u8>,
) -> Result<(), AllocError>
    requires printing { IsPrinting m.now numbers.now }
    requires own { All (OwnsBlock m.now numbers.now.function) blocks.now }
    ensures text { OnOk result (out.new.items ≡ out.old.items ++ flat_map (lines_of m.now (function_in m.now numbers.now.function)) blocks.now) }
    ensures kept { Keeps out.old.items out.new.items }
{
    for b in blocks {
        put_block(m, numbers, *b, out)?;
    }
    Ok(())
}

/// The blocks of a function in order.
fn put_blocks(
    m: &LLVMModule,
    numbers: &Numbers,
    blocks: &[LLVMBasicBlock],
    out: &mut Vec<u8>,
) -> Result<(), AllocError>
    requires printing { IsPrinting m.now numbers.now }
    requires own { All (OwnsBlock m.now numbers.now.function) blocks.now }
    ensures text { OnOk result (out.new.items ≡ out.old.items ++ all_lines_of m.now (function_in m.now numbers.now.function) blocks.now) }
    ensures kept { Keeps out.old.items out.new.items }
{
    if let Some((entry, more)) = blocks.split_first() {
        put_entry_block(m, numbers, *entry, out)?;
        put_later_blocks(m, numbers, more, out)?;
    }
    Ok(())
}

/// The types and the names of parameters.
fn put_params(
    m: &LLVMModule,
    numbers: &Numbers,
    types: &[LLVMType],
    out: &mut Vec<u8>,
) -> Result<(), AllocError>
    requires printing { IsPrinting m.now numbers.now }
    requires within { All (λ t. t.0 < length m.now.types) types.now }
    requires all { length types.now ≡ length (function_in m.now numbers.now.function).params }
    requires few { length types.now < 2 ^ 32 }
    requires typed { (i : ℕ) (t : LLVMType) → slice_get types.now i ≡ Some t → param_type (function_in m.now numbers.now.function).type i ≡ type_at (trees_of m.now).types t }
    ensures text { OnOk result (out.new.items ≡ out.old.items ++ params_text (function_in m.now numbers.now.function) 0 (function_in m.now numbers.now.function).params) }
    ensures kept { Keeps out.old.items out.new.items }
{
    let f = numbers.function;
    let params = types.len() as u32;
    for place in 0..params {
        put_comma(place as usize, out)?;
        put_type(m, types[place as usize], out)?;
        out.push(b' ')?;
        put_local(numbers, m.param_name(f, place), Place::Param(place), out)?;
    }
    Ok(())
}

/// What a function returns, and the types of its parameters.
fn signature(m: &LLVMModule, f: LLVMFunction) -> (LLVMType, &[LLVMType])
    requires sound { IsModule m.now }
    requires within { f.0 < length m.now.functions }
    ensures { IsSignature m.now f result.0 result.1.now }
{
    let LLVMTypeKind::Function {
        result: returned,
        params,
        ..
    } = m.type_kind(m.function_type(f))
    else {
        unreachable!();
    };
    (*returned, params.as_slice())
}

/// What stands before the parameters of a function, after a blank line: what it returns, and its name.
fn put_head(
    m: &LLVMModule,
    f: LLVMFunction,
    returned: LLVMType,
    out: &mut Vec<u8>,
) -> Result<(), AllocError>
    requires sound { IsModule m.now }
    requires within { f.0 < length m.now.functions }
    requires ty { returned.0 < length m.now.types }
    requires returned { result_of (function_in m.now f).type ≡ type_at (trees_of m.now).types returned }
    ensures text { OnOk result (out.new.items ≡ out.old.items ++ head_text (function_in m.now f)) }
    ensures kept { Keeps out.old.items out.new.items }
{
    out.extend_from_slice(b"\ndefine ")?;
    put_type(m, returned, out)?;
    out.extend_from_slice(b" @")?;
    put_name(m.function_name(f).as_bytes(), out)?;
    out.extend_from_slice(b"(")
}

/// A function whose unnamed things have numbers.
fn put_numbered(
    m: &LLVMModule,
    numbers: &Numbers,
    returned: LLVMType,
    types: &[LLVMType],
    out: &mut Vec<u8>,
) -> Result<(), AllocError>
    requires printing { IsPrinting m.now numbers.now }
    requires form { IsFormFunction (function_in m.now numbers.now.function) }
    requires few { length types.now < 2 ^ 32 }
    requires signature { IsSignature m.now numbers.now.function returned types.now }
    ensures text { OnOk result (out.new.items ≡ out.old.items ++ function_text (structs_of m.now) (function_in m.now numbers.now.function)) }
    ensures kept { Keeps out.old.items out.new.items }
{
    let f = numbers.function;
    put_head(m, f, returned, out)?;
    put_params(m, numbers, types, out)?;
    out.extend_from_slice(b") {\n")?;
    put_blocks(m, numbers, m.blocks(f), out)?;
    out.extend_from_slice(b"}\n")
}

/// A function, after a blank line.
pub fn put_function(
    alloc: Global,
    m: &LLVMModule,
    f: LLVMFunction,
    out: &mut Vec<u8>,
) -> Result<(), AllocError>
    requires sound { IsModule m.now }
    requires within { f.0 < length m.now.functions }
    requires form { IsFormFunction (function_in m.now f) }
    requires few { length (function_in m.now f).params < 2 ^ 31 }
    ensures text { OnOk result (out.new.items ≡ out.old.items ++ function_text (structs_of m.now) (function_in m.now f)) }
    ensures kept { Keeps out.old.items out.new.items }
    // More unnamed things than there are numbers want memory.
    ensures numbers { OnOk result (IsNumberable (function_in m.now f)) }
{
    let (returned, types) = signature(m, f);
    let numbers = numbers_of(alloc, m, f, types.len() as u32)?;
    put_numbered(m, &numbers, returned, types, out)
}
