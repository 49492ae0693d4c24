//! Prints operands and the names of what they name.

ghost use Rattle.std.specs.Prelude.{◌≡◌, ◌++◌, decimal, OnOk};
ghost use Rattle.support.specs.Appended.{Keeps};
ghost use Rattle.llvm_core.specs.Data.{trees_of, operand_of, structs_of};
ghost use Rattle.ll_print.specs.Printing.{operand_text, value_text, block_ref};
ghost use Rattle.ll_print.specs.Numbering.{number_at};
ghost use Rattle.ll_print.specs.Parts.{function_in, bare_text, named_text, IsOwn, IsOwnBlock, IsPrinting};

use crate::constants::put_const;
use crate::numbers::Numbers;
use crate::places::Place;
use crate::types::{put_decimal, put_type};
use ll_literals::printed::put_name;
use llvm_core::code::LLVMValue;
use llvm_core::module::LLVMModule;
use llvm_core::numbers::LLVMBasicBlock;
use std::alloc::AllocError;

/// The number of a thing. Most things have names, so this stands apart.
#[inline(never)]
fn put_number(numbers: &Numbers, place: Place, out: &mut Vec<u8>) -> Result<(), AllocError>
    ensures text { OnOk result (out.new.items ≡ out.old.items ++ decimal (number_at numbers.now place)) }
    ensures kept { Keeps out.old.items out.new.items }
{
    put_decimal(u128::from(numbers.number(place)), out)
}

/// The name of a thing, or its number, which is looked up only where it has no name.
#[inline(always)]
pub fn put_bare(
    numbers: &Numbers,
    name: &str,
    place: Place,
    out: &mut Vec<u8>,
) -> Result<(), AllocError>
    ensures text { OnOk result (out.new.items ≡ out.old.items ++ bare_text name.now (number_at numbers.now place)) }
    ensures kept { Keeps out.old.items out.new.items }
{
    if name.is_empty() {
        put_number(numbers, place, out)
    } else {
        put_name(name.as_bytes(), out)
    }
}

/// `%` and the name of a thing, or its number where it has none.
#[inline(always)]
pub fn put_local(
    numbers: &Numbers,
    name: &str,
    place: Place,
    out: &mut Vec<u8>,
) -> Result<(), AllocError>
    ensures text { OnOk result (out.new.items ≡ out.old.items ++ named_text name.now (number_at numbers.now place)) }
    ensures kept { Keeps out.old.items out.new.items }
{
    out.push(b'%')?;
    put_bare(numbers, name, place, out)
}

/// An operand without its type.
#[inline(always)]
pub fn put_operand(
    m: &LLVMModule,
    numbers: &Numbers,
    value: LLVMValue,
    out: &mut Vec<u8>,
) -> Result<(), AllocError>
    requires printing { IsPrinting m.now numbers.now }
    requires own { IsOwn m.now numbers.now.function value }
    ensures text { OnOk result (out.new.items ≡ out.old.items ++ operand_text (structs_of m.now) (function_in m.now numbers.now.function) (operand_of (trees_of m.now) value)) }
    ensures kept { Keeps out.old.items out.new.items }
{
    match value {
        LLVMValue::Const(c) => put_const(m, c, out),
        LLVMValue::Param(f, place) => {
            put_local(numbers, m.param_name(f, place), Place::Param(place), out)
        }
        LLVMValue::Inst(i) => put_local(numbers, m.inst_name(i), Place::Result(i), out),
    }
}

/// An operand with its type.
#[inline(always)]
pub fn put_value(
    m: &LLVMModule,
    numbers: &Numbers,
    value: LLVMValue,
    out: &mut Vec<u8>,
) -> Result<(), AllocError>
    requires printing { IsPrinting m.now numbers.now }
    requires own { IsOwn m.now numbers.now.function value }
    ensures text { OnOk result (out.new.items ≡ out.old.items ++ value_text (structs_of m.now) (function_in m.now numbers.now.function) (operand_of (trees_of m.now) value)) }
    ensures kept { Keeps out.old.items out.new.items }
{
    put_type(m, m.type_of(value), out)?;
    out.push(b' ')?;
    put_operand(m, numbers, value, out)
}

/// `%` and the name or the number of a block.
#[inline(always)]
pub fn put_block_ref(
    m: &LLVMModule,
    numbers: &Numbers,
    b: LLVMBasicBlock,
    out: &mut Vec<u8>,
) -> Result<(), AllocError>
    requires printing { IsPrinting m.now numbers.now }
    requires own { IsOwnBlock m.now numbers.now.function b }
    ensures text { OnOk result (out.new.items ≡ out.old.items ++ block_ref (function_in m.now numbers.now.function) b.0) }
    ensures kept { Keeps out.old.items out.new.items }
{
    put_local(numbers, m.block_name(b), Place::Block(b), out)
}
