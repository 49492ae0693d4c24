//! Prints instructions.

ghost use Rattle.std.specs.Prelude.{◌≡◌, ◌<◌, ◌++◌, All, OnOk, Some, IfSome, codes, length, map};
ghost use Rattle.std.specs.List.{flat_map};
ghost use Rattle.std.specs.Option.{option_map};
ghost use Rattle.support.specs.Appended.{Keeps};
ghost use Rattle.llvm_core.specs.declared.code.LLVMValue.TheVariants as values;
ghost use Rattle.llvm_core.specs.Parts.{value_type};
ghost use Rattle.llvm_core.specs.Sound.{IsModule};
ghost use Rattle.llvm_core.specs.Data.{trees_of, type_at, operand_of, entry_of, instruction_of, structs_of};
ghost use Rattle.ll_print.specs.Printing.{type_text, flag_text, predicate_text, entry_text, entries_text, operands_text, values_text, to_text, before_text, after_text, align_text, flagged_text, returned_text, targets_text, row_head, row_names, instruction_text};
ghost use Rattle.ll_print.specs.Parts.{function_in, gives_of, line_of, IsOwn, IsOwnBlock, OwnsEntry, OwnsOperands, OwnsInst, IsPrinting};

use crate::numbers::Numbers;
use crate::operands::{put_block_ref, put_local, put_operand, put_value};
use crate::places::Place;
use crate::types::{is_void, put_comma, put_decimal, put_type};
use kinds::access::Align;
use kinds::op::{LLVMIntPredicate, Op, OverflowFlags};
use llvm_core::code::{LLVMInst, LLVMValue, PhiEntry, Row};
use llvm_core::module::LLVMModule;
use llvm_core::numbers::{LLVMBasicBlock, LLVMInstRef, LLVMType};
use std::alloc::AllocError;

/// The flags that are set, each before a blank.
fn put_flags(flags: OverflowFlags, out: &mut Vec<u8>) -> Result<(), AllocError>
    ensures text { OnOk result (out.new.items ≡ out.old.items ++ (flag_text (codes "nuw") flags.nuw ++ flag_text (codes "nsw") flags.nsw)) }
    ensures kept { Keeps out.old.items out.new.items }
{
    if flags.nuw {
        out.extend_from_slice(b"nuw ")?;
    }
    if flags.nsw {
        out.extend_from_slice(b"nsw ")?;
    }
    Ok(())
}

/// A word and its flags, each before a blank.
fn put_flagged(word: &[u8], flags: OverflowFlags, out: &mut Vec<u8>) -> Result<(), AllocError>
    ensures text { OnOk result (out.new.items ≡ out.old.items ++ flagged_text word.now flags) }
    ensures kept { Keeps out.old.items out.new.items }
{
    out.extend_from_slice(word)?;
    out.push(b' ')?;
    put_flags(flags, out)
}

/// A word, and a flag where it is set, each before a blank.
fn put_flag_head(word: &[u8], flag: &[u8], set: bool, out: &mut Vec<u8>) -> Result<(), AllocError>
    ensures text { OnOk result (out.new.items ≡ out.old.items ++ (word.now ++ codes " " ++ flag_text flag.now set)) }
    ensures kept { Keeps out.old.items out.new.items }
{
    out.extend_from_slice(word)?;
    out.push(b' ')?;
    if set {
        out.extend_from_slice(flag)?;
        out.push(b' ')?;
    }
    Ok(())
}

/// The word of a predicate.
fn predicate_word(predicate: LLVMIntPredicate) -> &'static [u8]
    ensures { result.now ≡ predicate_text predicate }
{
    match predicate {
        LLVMIntPredicate::LLVMIntEQ => b"eq",
        LLVMIntPredicate::LLVMIntNE => b"ne",
        LLVMIntPredicate::LLVMIntUGT => b"ugt",
        LLVMIntPredicate::LLVMIntUGE => b"uge",
        LLVMIntPredicate::LLVMIntULT => b"ult",
        LLVMIntPredicate::LLVMIntULE => b"ule",
        LLVMIntPredicate::LLVMIntSGT => b"sgt",
        LLVMIntPredicate::LLVMIntSGE => b"sge",
        LLVMIntPredicate::LLVMIntSLT => b"slt",
        LLVMIntPredicate::LLVMIntSLE => b"sle",
    }
}

/// `icmp` and its predicate, each before a blank.
fn put_predicate(predicate: LLVMIntPredicate, out: &mut Vec<u8>) -> Result<(), AllocError>
    ensures text { OnOk result (out.new.items ≡ out.old.items ++ (codes "icmp " ++ predicate_text predicate ++ codes " ")) }
    ensures kept { Keeps out.old.items out.new.items }
{
    out.extend_from_slice(b"icmp ")?;
    out.extend_from_slice(predicate_word(predicate))?;
    out.push(b' ')?;
    Ok(())
}

/// Operands, of which the first stands behind its type.
fn put_operands(
    m: &LLVMModule,
    numbers: &Numbers,
    operands: &[LLVMValue],
    out: &mut Vec<u8>,
) -> Result<(), AllocError>
    requires printing { IsPrinting m.now numbers.now }
    requires own { All (IsOwn m.now numbers.now.function) operands.now }
    ensures text { OnOk result (out.new.items ≡ out.old.items ++ operands_text (structs_of m.now) (function_in m.now numbers.now.function) (map (operand_of (trees_of m.now)) operands.now)) }
    ensures kept { Keeps out.old.items out.new.items }
{
    for (place, operand) in operands.iter().enumerate() {
        if place == 0 {
            put_value(m, numbers, *operand, out)?;
        } else {
            out.extend_from_slice(b", ")?;
            put_operand(m, numbers, *operand, out)?;
        }
    }
    Ok(())
}

/// What a return has.
fn put_returned(
    m: &LLVMModule,
    numbers: &Numbers,
    operands: &[LLVMValue],
    out: &mut Vec<u8>,
) -> Result<(), AllocError>
    requires printing { IsPrinting m.now numbers.now }
    requires own { All (IsOwn m.now numbers.now.function) operands.now }
    ensures text { OnOk result (out.new.items ≡ out.old.items ++ returned_text (structs_of m.now) (function_in m.now numbers.now.function) (map (operand_of (trees_of m.now)) operands.now)) }
    ensures kept { Keeps out.old.items out.new.items }
{
    if operands.is_empty() {
        return out.extend_from_slice(b"void");
    }
    put_operands(m, numbers, operands, out)
}

/// The blocks that a row leads to.
fn put_targets(
    m: &LLVMModule,
    numbers: &Numbers,
    targets: &[LLVMBasicBlock],
    out: &mut Vec<u8>,
) -> Result<(), AllocError>
    requires printing { IsPrinting m.now numbers.now }
    requires own { All (IsOwnBlock m.now numbers.now.function) targets.now }
    ensures text { OnOk result (out.new.items ≡ out.old.items ++ targets_text (function_in m.now numbers.now.function) (map (λ b. b.0) targets.now)) }
    ensures kept { Keeps out.old.items out.new.items }
{
    for (place, target) in targets.iter().enumerate() {
        put_comma(place, out)?;
        out.extend_from_slice(b"label ")?;
        put_block_ref(m, numbers, *target, out)?;
    }
    Ok(())
}

/// An entry of a phi.
fn put_entry(
    m: &LLVMModule,
    numbers: &Numbers,
    entry: PhiEntry,
    out: &mut Vec<u8>,
) -> Result<(), AllocError>
    requires printing { IsPrinting m.now numbers.now }
    requires own { OwnsEntry m.now numbers.now.function entry }
    ensures text { OnOk result (out.new.items ≡ out.old.items ++ entry_text (structs_of m.now) (function_in m.now numbers.now.function) (entry_of (trees_of m.now) entry)) }
    ensures kept { Keeps out.old.items out.new.items }
{
    out.extend_from_slice(b"[ ")?;
    put_operand(m, numbers, entry.value, out)?;
    out.extend_from_slice(b", ")?;
    put_block_ref(m, numbers, entry.block, out)?;
    out.extend_from_slice(b" ]")
}

/// The entries of a phi in order.
fn put_entries(
    m: &LLVMModule,
    numbers: &Numbers,
    entries: &[PhiEntry],
    out: &mut Vec<u8>,
) -> Result<(), AllocError>
    requires printing { IsPrinting m.now numbers.now }
    requires own { All (OwnsEntry m.now numbers.now.function) entries.now }
    ensures text { OnOk result (out.new.items ≡ out.old.items ++ entries_text (structs_of m.now) (function_in m.now numbers.now.function) (map (entry_of (trees_of m.now)) entries.now)) }
    ensures kept { Keeps out.old.items out.new.items }
{
    for (place, entry) in entries.iter().enumerate() {
        put_comma(place, out)?;
        put_entry(m, numbers, *entry, out)?;
    }
    Ok(())
}

/// A phi of a type.
fn put_phi(
    m: &LLVMModule,
    numbers: &Numbers,
    ty: LLVMType,
    entries: &[PhiEntry],
    out: &mut Vec<u8>,
) -> Result<(), AllocError>
    requires printing { IsPrinting m.now numbers.now }
    requires ty { ty.0 < length m.now.types }
    requires own { All (OwnsEntry m.now numbers.now.function) entries.now }
    ensures text { OnOk result (out.new.items ≡ out.old.items ++ (codes "phi " ++ type_text (type_at (trees_of m.now).types ty) ++ codes " " ++ entries_text (structs_of m.now) (function_in m.now numbers.now.function) (map (entry_of (trees_of m.now)) entries.now))) }
    ensures kept { Keeps out.old.items out.new.items }
{
    out.extend_from_slice(b"phi ")?;
    put_type(m, ty, out)?;
    out.push(b' ')?;
    put_entries(m, numbers, entries, out)
}

/// What stands before the operands and blocks of a row: its word and immediates, each before a blank, a line for each.
fn put_head(op: Op, out: &mut Vec<u8>) -> Result<(), AllocError>
    ensures text { OnOk result (out.new.items ≡ out.old.items ++ row_head op) }
    ensures kept { Keeps out.old.items out.new.items }
{
    match op {
        Op::Add(flags) => put_flagged(b"add", flags, out),
        Op::Sub(flags) => put_flagged(b"sub", flags, out),
        Op::Mul(flags) => put_flagged(b"mul", flags, out),
        Op::Shl(flags) => put_flagged(b"shl", flags, out),
        Op::UDiv => out.extend_from_slice(b"udiv "),
        Op::SDiv => out.extend_from_slice(b"sdiv "),
        Op::URem => out.extend_from_slice(b"urem "),
        Op::SRem => out.extend_from_slice(b"srem "),
        Op::LShr => out.extend_from_slice(b"lshr "),
        Op::AShr => out.extend_from_slice(b"ashr "),
        Op::And => out.extend_from_slice(b"and "),
        Op::Or => out.extend_from_slice(b"or "),
        Op::Xor => out.extend_from_slice(b"xor "),
        Op::ICmp(predicate) => put_predicate(predicate, out),
        Op::Trunc => out.extend_from_slice(b"trunc "),
        Op::SExt => out.extend_from_slice(b"sext "),
        Op::ZExt(nneg) => put_flag_head(b"zext", b"nneg", nneg, out),
        Op::PtrToInt => out.extend_from_slice(b"ptrtoint "),
        Op::IntToPtr => out.extend_from_slice(b"inttoptr "),
        Op::AddrSpaceCast => out.extend_from_slice(b"addrspacecast "),
        Op::Select => out.extend_from_slice(b"select "),
        Op::Freeze => out.extend_from_slice(b"freeze "),
        Op::Load(access) => put_flag_head(b"load", b"volatile", access.volatile, out),
        Op::Store(access) => put_flag_head(b"store", b"volatile", access.volatile, out),
        Op::VAArg => out.extend_from_slice(b"va_arg "),
        Op::Br => out.extend_from_slice(b"br "),
        Op::CondBr => out.extend_from_slice(b"br "),
        Op::Ret => out.extend_from_slice(b"ret "),
        Op::Unreachable => out.extend_from_slice(b"unreachable"),
    }
}

/// Operands, each behind its type.
fn put_values(
    m: &LLVMModule,
    numbers: &Numbers,
    operands: &[LLVMValue],
    out: &mut Vec<u8>,
) -> Result<(), AllocError>
    requires printing { IsPrinting m.now numbers.now }
    requires own { All (IsOwn m.now numbers.now.function) operands.now }
    ensures text { OnOk result (out.new.items ≡ out.old.items ++ values_text (structs_of m.now) (function_in m.now numbers.now.function) (map (operand_of (trees_of m.now)) operands.now)) }
    ensures kept { Keeps out.old.items out.new.items }
{
    for (place, operand) in operands.iter().enumerate() {
        put_comma(place, out)?;
        put_value(m, numbers, *operand, out)?;
    }
    Ok(())
}

/// The type that is written behind operands.
fn put_written(
    m: &LLVMModule,
    written: Option<LLVMType>,
    out: &mut Vec<u8>,
) -> Result<(), AllocError>
    requires sound { IsModule m.now }
    requires within { IfSome written (λ t. t.0 < length m.now.types) }
    ensures text { OnOk result (out.new.items ≡ out.old.items ++ to_text (option_map (type_at (trees_of m.now).types) written)) }
    ensures kept { Keeps out.old.items out.new.items }
{
    let Some(ty) = written else {
        return Ok(());
    };
    out.extend_from_slice(b" to ")?;
    put_type(m, ty, out)
}

/// The type that is written before operands.
fn put_before(
    m: &LLVMModule,
    written: Option<LLVMType>,
    out: &mut Vec<u8>,
) -> Result<(), AllocError>
    requires sound { IsModule m.now }
    requires within { IfSome written (λ t. t.0 < length m.now.types) }
    ensures text { OnOk result (out.new.items ≡ out.old.items ++ before_text (option_map (type_at (trees_of m.now).types) written)) }
    ensures kept { Keeps out.old.items out.new.items }
{
    let Some(ty) = written else {
        return Ok(());
    };
    put_type(m, ty, out)?;
    out.extend_from_slice(b", ")
}

/// The type that is written behind operands, and a comma between.
fn put_after(m: &LLVMModule, written: Option<LLVMType>, out: &mut Vec<u8>) -> Result<(), AllocError>
    requires sound { IsModule m.now }
    requires within { IfSome written (λ t. t.0 < length m.now.types) }
    ensures text { OnOk result (out.new.items ≡ out.old.items ++ after_text (option_map (type_at (trees_of m.now).types) written)) }
    ensures kept { Keeps out.old.items out.new.items }
{
    let Some(ty) = written else {
        return Ok(());
    };
    out.extend_from_slice(b", ")?;
    put_type(m, ty, out)
}

/// An alignment behind operands, where there is one.
fn put_align(align: Option<Align>, out: &mut Vec<u8>) -> Result<(), AllocError>
    ensures text { OnOk result (out.new.items ≡ out.old.items ++ align_text align) }
    ensures kept { Keeps out.old.items out.new.items }
{
    let Some(align) = align else {
        return Ok(());
    };
    out.extend_from_slice(b", align ")?;
    put_decimal(u128::from(align.bytes()), out)
}

/// What a row names, and immediates that stand behind it: most rows their operands, and behind them the type where one is written.
fn put_names(
    m: &LLVMModule,
    numbers: &Numbers,
    row: &Row,
    out: &mut Vec<u8>,
) -> Result<(), AllocError>
    requires printing { IsPrinting m.now numbers.now }
    requires operands { All (IsOwn m.now numbers.now.function) row.now.operands }
    requires targets { All (IsOwnBlock m.now numbers.now.function) row.now.targets }
    requires written { IfSome row.now.written (λ t. t.0 < length m.now.types) }
    ensures text { OnOk result (out.new.items ≡ out.old.items ++ row_names (structs_of m.now) (function_in m.now numbers.now.function) row.now.op (option_map (type_at (trees_of m.now).types) row.now.written) (map (operand_of (trees_of m.now)) row.now.operands) (map (λ b. b.0) row.now.targets)) }
    ensures kept { Keeps out.old.items out.new.items }
{
    let operands = row.operands.as_slice();
    let targets = row.targets.as_slice();
    match row.op {
        Op::Select => put_values(m, numbers, operands, out),
        Op::Load(access) => {
            put_before(m, row.written, out)?;
            put_values(m, numbers, operands, out)?;
            put_align(access.align, out)
        }
        Op::Store(access) => {
            put_values(m, numbers, operands, out)?;
            put_align(access.align, out)
        }
        Op::VAArg => {
            put_operands(m, numbers, operands, out)?;
            put_after(m, row.written, out)
        }
        Op::Br => put_targets(m, numbers, targets, out),
        Op::CondBr => {
            put_operands(m, numbers, operands, out)?;
            out.extend_from_slice(b", ")?;
            put_targets(m, numbers, targets, out)
        }
        Op::Ret => put_returned(m, numbers, operands, out),
        Op::Unreachable => Ok(()),
        _ => {
            put_operands(m, numbers, operands, out)?;
            put_written(m, row.written, out)
        }
    }
}

/// A row: its word with its immediates, and what it names.
fn put_row(
    m: &LLVMModule,
    numbers: &Numbers,
    row: &Row,
    out: &mut Vec<u8>,
) -> Result<(), AllocError>
    requires printing { IsPrinting m.now numbers.now }
    requires operands { All (IsOwn m.now numbers.now.function) row.now.operands }
    requires targets { All (IsOwnBlock m.now numbers.now.function) row.now.targets }
    requires written { IfSome row.now.written (λ t. t.0 < length m.now.types) }
    ensures text { OnOk result (out.new.items ≡ out.old.items ++ (row_head row.now.op ++ row_names (structs_of m.now) (function_in m.now numbers.now.function) row.now.op (option_map (type_at (trees_of m.now).types) row.now.written) (map (operand_of (trees_of m.now)) row.now.operands) (map (λ b. b.0) row.now.targets))) }
    ensures kept { Keeps out.old.items out.new.items }
{
    put_head(row.op, out)?;
    put_names(m, numbers, row, out)
}

/// An instruction without its result, which has that type.
fn put_inst(
    m: &LLVMModule,
    numbers: &Numbers,
    ty: LLVMType,
    inst: &LLVMInst,
    out: &mut Vec<u8>,
) -> Result<(), AllocError>
    requires printing { IsPrinting m.now numbers.now }
    requires ty { ty.0 < length m.now.types }
    requires own { OwnsOperands m.now numbers.now.function inst.now }
    ensures text { OnOk result (out.new.items ≡ out.old.items ++ instruction_text (structs_of m.now) (function_in m.now numbers.now.function) (type_at (trees_of m.now).types ty) (instruction_of (trees_of m.now) inst.now)) }
    ensures kept { Keeps out.old.items out.new.items }
{
    match inst {
        LLVMInst::Phi(_, entries) => put_phi(m, numbers, ty, entries.as_slice(), out),
        LLVMInst::Row(row) => put_row(m, numbers, row, out),
    }
}

/// The result of an instruction, of that type, where it is not void.
fn put_result(
    m: &LLVMModule,
    numbers: &Numbers,
    i: LLVMInstRef,
    ty: LLVMType,
    out: &mut Vec<u8>,
) -> Result<(), AllocError>
    requires printing { IsPrinting m.now numbers.now }
    requires own { OwnsInst m.now numbers.now.function i }
    requires ty { value_type m.now (values.Inst i) ≡ Some ty }
    requires within { ty.0 < length m.now.types }
    ensures text { OnOk result (out.new.items ≡ out.old.items ++ gives_of m.now (function_in m.now numbers.now.function) i) }
    ensures kept { Keeps out.old.items out.new.items }
{
    if is_void(m, ty) {
        return Ok(());
    }
    put_local(numbers, m.inst_name(i), Place::Result(i), out)?;
    out.extend_from_slice(b" = ")
}

/// The line of an instruction.
fn put_line(
    m: &LLVMModule,
    numbers: &Numbers,
    i: LLVMInstRef,
    out: &mut Vec<u8>,
) -> Result<(), AllocError>
    requires printing { IsPrinting m.now numbers.now }
    requires own { OwnsInst m.now numbers.now.function i }
    ensures text { OnOk result (out.new.items ≡ out.old.items ++ line_of m.now (function_in m.now numbers.now.function) i) }
    ensures kept { Keeps out.old.items out.new.items }
{
    let ty = m.type_of(LLVMValue::Inst(i));
    out.extend_from_slice(b"  ")?;
    put_result(m, numbers, i, ty, out)?;
    put_inst(m, numbers, ty, m.inst(i), out)?;
    out.push(b'\n')?;
    Ok(())
}

/// The lines of instructions.
pub fn put_lines(
    m: &LLVMModule,
    numbers: &Numbers,
    insts: &[LLVMInstRef],
    out: &mut Vec<u8>,
) -> Result<(), AllocError>
    requires printing { IsPrinting m.now numbers.now }
    requires own { All (OwnsInst m.now numbers.now.function) insts.now }
    ensures text { OnOk result (out.new.items ≡ out.old.items ++ flat_map (line_of m.now (function_in m.now numbers.now.function)) insts.now) }
    ensures kept { Keeps out.old.items out.new.items }
{
    for i in insts {
        put_line(m, numbers, *i, out)?;
    }
    Ok(())
}
