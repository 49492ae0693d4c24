//! The dialect text of operations: their values, successors, immediates and types.

ghost use Rattle.std.specs.Prelude.{◌≡◌, ◌<◌, ◌++◌, IfSome, List, OnOk, Some, length};
ghost use Rattle.std.specs.Option.{option_copied, option_map};
ghost use Rattle.dialect_types.specs.Trees.{TypeTree, type_at, type_trees};
ghost use Rattle.const_attrs.specs.Trees.{attr_tree, attr_data, HasTypesBelow};
ghost use Rattle.dialect_types.specs.Text.{Keeps};
ghost use Rattle.dialect_core.specs.Data.{ConstantOp, HasKindTypesBelow, kind_of, op_of, IsTypedOp};
ghost use Rattle.dialect_core.specs.Numbering.{value_at, block_at};
ghost use Rattle.dialect_core.specs.Text.{option_text, number_text, colon_text, value_text, block_name_text, values_text, successor_text, successors_text, gives_text, head_text, immediates_text, row_immediates_text, behind_align, predicate_text, result_type_text, tail_text, fill_word, kind_word, op_text};
ghost use Rattle.kinds.specs.declared.op.Immediates.TheVariants as sorts;

use crate::numbering::Numbering;
use crate::numbers::{BlockRef, OpRef};
use crate::ops::{OpData, OpKind, Successor, Value};
use const_attrs::const_attr::ConstAttr;
use dialect_types::identifier::Identifier;
use dialect_types::printing::{print_comma_before, print_number};
use dialect_types::type_store::TypeStore;
use dialect_types::types::TypeHandle;
use kinds::access::{Access, Align};
use kinds::fill::Fill;
use kinds::op::{Immediates, LLVMIntPredicate, OverflowFlags};
use std::alloc::AllocError;

/// Appends a number, or `?` where there is none.
#[inline(always)]
fn print_known(number: Option<u64>, out: &mut Vec<u8>) -> Result<(), AllocError>
    ensures ok { OnOk result (out.new.items ≡ out.old.items ++ number_text number) }
    ensures kept { Keeps out.old.items out.new.items }
{
    match number {
        Some(number) => print_number(number, out),
        None => out.extend_from_slice(b"?"),
    }
}

/// Appends the name of a value.
#[inline(always)]
pub fn print_value(numbers: &Numbering, value: Value, out: &mut Vec<u8>) -> Result<(), AllocError>
    ensures ok { OnOk result (out.new.items ≡ out.old.items ++ value_text (value_at numbers.now) (block_at numbers.now) value) }
    ensures kept { Keeps out.old.items out.new.items }
{
    out.extend_from_slice(b"%")?;
    print_known(numbers.value(value), out)
}

/// Appends the name of a block.
pub fn print_block_name(
    numbers: &Numbering,
    block: BlockRef,
    out: &mut Vec<u8>,
) -> Result<(), AllocError>
    ensures ok { OnOk result (out.new.items ≡ out.old.items ++ block_name_text (value_at numbers.now) (block_at numbers.now) block) }
    ensures kept { Keeps out.old.items out.new.items }
{
    out.extend_from_slice(b"^")?;
    print_known(numbers.block(block), out)
}

/// Appends `:name`, where there is a name.
#[inline(always)]
pub fn print_colon_name(name: Option<&Identifier>, out: &mut Vec<u8>) -> Result<(), AllocError>
    ensures ok { OnOk result (out.new.items ≡ out.old.items ++ colon_text (option_copied name.entry)) }
    ensures kept { Keeps out.old.items out.new.items }
{
    match name {
        Some(name) => {
            out.extend_from_slice(b":")?;
            out.extend_from_slice(name.as_str().as_bytes())
        }
        None => Ok(()),
    }
}

/// Appends values in parentheses.
#[inline(always)]
fn print_values(numbers: &Numbering, values: &[Value], out: &mut Vec<u8>) -> Result<(), AllocError>
    ensures ok { OnOk result (out.new.items ≡ out.old.items ++ values_text (value_at numbers.now) (block_at numbers.now) values.now) }
    ensures kept { Keeps out.old.items out.new.items }
{
    out.extend_from_slice(b"(")?;
    for (i, value) in values.iter().enumerate() {
        print_comma_before(i, out)?;
        print_value(numbers, *value, out)?;
    }
    out.extend_from_slice(b")")
}

/// Appends a successor with the values for its arguments.
fn print_successor(
    numbers: &Numbering,
    successor: &Successor,
    out: &mut Vec<u8>,
) -> Result<(), AllocError>
    ensures ok { OnOk result (out.new.items ≡ out.old.items ++ successor_text (value_at numbers.now) (block_at numbers.now) successor.now) }
    ensures kept { Keeps out.old.items out.new.items }
{
    print_block_name(numbers, successor.block, out)?;
    print_values(numbers, successor.args.as_slice(), out)
}

/// Appends the successors in brackets, where there are any.
fn print_successors(
    numbers: &Numbering,
    successors: &[Successor],
    out: &mut Vec<u8>,
) -> Result<(), AllocError>
    ensures ok { OnOk result (out.new.items ≡ out.old.items ++ successors_text (value_at numbers.now) (block_at numbers.now) successors.now) }
    ensures kept { Keeps out.old.items out.new.items }
{
    if successors.is_empty() {
        return Ok(());
    }
    out.extend_from_slice(b"[")?;
    for (i, successor) in successors.iter().enumerate() {
        print_comma_before(i, out)?;
        print_successor(numbers, successor, out)?;
    }
    out.extend_from_slice(b"]")
}

/// Appends `%k:name = `, where an operation gives a result.
fn print_gives(
    numbers: &Numbering,
    op: OpRef,
    x: &OpData,
    out: &mut Vec<u8>,
) -> Result<(), AllocError>
    ensures ok { OnOk result (out.new.items ≡ out.old.items ++ gives_text (value_at numbers.now) (block_at numbers.now) op.0 x.now.name x.now.result) }
    ensures kept { Keeps out.old.items out.new.items }
{
    match x.result {
        Some(_) => {
            print_value(numbers, Value::Result(op), out)?;
            print_colon_name(x.name.as_ref(), out)?;
            out.extend_from_slice(b" = ")
        }
        None => Ok(()),
    }
}

/// Appends an operation of that name up to its immediates.
fn print_head(
    numbers: &Numbering,
    op: OpRef,
    x: &OpData,
    word: &[u8],
    out: &mut Vec<u8>,
) -> Result<(), AllocError>
    ensures ok { OnOk result (out.new.items ≡ out.old.items ++ head_text (value_at numbers.now) (block_at numbers.now) op.0 x.now.name x.now.result word.now x.now.operands x.now.successors) }
    ensures kept { Keeps out.old.items out.new.items }
{
    out.extend_from_slice(b"    ")?;
    print_gives(numbers, op, x, out)?;
    out.extend_from_slice(word)?;
    print_values(numbers, x.operands.as_slice(), out)?;
    print_successors(numbers, x.successors.as_slice(), out)
}

/// Appends the immediates of a constant.
fn print_constant_immediates(
    types: &TypeStore,
    value: &ConstAttr,
    out: &mut Vec<u8>,
) -> Result<(), AllocError>
    requires { HasTypesBelow (length types.now) (attr_data value.now) }
    ensures ok { OnOk result (out.new.items ≡ out.old.items ++ immediates_text (ConstantOp (attr_tree (type_trees types.now) (attr_data value.now)))) }
    ensures kept { Keeps out.old.items out.new.items }
{
    out.extend_from_slice(b" {value = ")?;
    value.append(types, out)?;
    out.extend_from_slice(b"}")
}

/// Appends the flags that are set, in braces.
fn print_overflow_flags(flags: OverflowFlags, out: &mut Vec<u8>) -> Result<(), AllocError>
    ensures ok { OnOk result (out.new.items ≡ out.old.items ++ row_immediates_text (sorts.Overflow flags)) }
    ensures kept { Keeps out.old.items out.new.items }
{
    match (flags.nsw, flags.nuw) {
        (false, false) => Ok(()),
        (true, false) => out.extend_from_slice(b" {nsw}"),
        (false, true) => out.extend_from_slice(b" {nuw}"),
        (true, true) => out.extend_from_slice(b" {nsw, nuw}"),
    }
}

/// The word of a predicate.
fn predicate_word(predicate: LLVMIntPredicate) -> &'static [u8]
    ensures { result.now ≡ predicate_text predicate }
{
    match predicate {
        LLVMIntPredicate::LLVMIntEQ => b"EQ",
        LLVMIntPredicate::LLVMIntNE => b"NE",
        LLVMIntPredicate::LLVMIntUGT => b"UGT",
        LLVMIntPredicate::LLVMIntUGE => b"UGE",
        LLVMIntPredicate::LLVMIntULT => b"ULT",
        LLVMIntPredicate::LLVMIntULE => b"ULE",
        LLVMIntPredicate::LLVMIntSGT => b"SGT",
        LLVMIntPredicate::LLVMIntSGE => b"SGE",
        LLVMIntPredicate::LLVMIntSLT => b"SLT",
        LLVMIntPredicate::LLVMIntSLE => b"SLE",
    }
}

/// Appends the predicate of a comparison, in braces.
fn print_predicate(predicate: LLVMIntPredicate, out: &mut Vec<u8>) -> Result<(), AllocError>
    ensures ok { OnOk result (out.new.items ≡ out.old.items ++ row_immediates_text (sorts.Predicate predicate)) }
    ensures kept { Keeps out.old.items out.new.items }
{
    out.extend_from_slice(b" {predicate = ")?;
    out.extend_from_slice(predicate_word(predicate))?;
    out.extend_from_slice(b"}")
}

/// What stands behind an alignment.
fn behind_align(volatile: bool) -> &'static [u8]
    ensures { result.now ≡ behind_align volatile }
{
    if volatile { b", volatile}" } else { b"}" }
}

/// Appends an alignment in braces, and the key of a volatile access behind it.
fn print_align(align: Align, volatile: bool, out: &mut Vec<u8>) -> Result<(), AllocError>
    ensures ok { OnOk result (out.new.items ≡ out.old.items ++ row_immediates_text (sorts.Access (record { align = Some align; volatile = volatile }))) }
    ensures kept { Keeps out.old.items out.new.items }
{
    out.extend_from_slice(b" {align = ")?;
    print_number(u64::from(align.bytes()), out)?;
    out.extend_from_slice(behind_align(volatile))
}

/// Appends how memory is read or written, in braces, where that is said.
fn print_access(access: Access, out: &mut Vec<u8>) -> Result<(), AllocError>
    ensures ok { OnOk result (out.new.items ≡ out.old.items ++ row_immediates_text (sorts.Access access)) }
    ensures kept { Keeps out.old.items out.new.items }
{
    match (access.align, access.volatile) {
        (Some(align), volatile) => print_align(align, volatile, out),
        (None, true) => out.extend_from_slice(b" {volatile}"),
        (None, false) => Ok(()),
    }
}

/// Appends ` : t`, where there is a type.
fn print_result_type(
    types: &TypeStore,
    ty: Option<TypeHandle>,
    out: &mut Vec<u8>,
) -> Result<(), AllocError>
    requires { IfSome ty (λ t. t.0 < length types.now) }
    ensures ok { OnOk result (out.new.items ≡ out.old.items ++ result_type_text (option_map (type_at (type_trees types.now)) ty)) }
    ensures kept { Keeps out.old.items out.new.items }
{
    match ty {
        Some(ty) => {
            out.extend_from_slice(b" : ")?;
            types.append_type(ty, out)
        }
        None => Ok(()),
    }
}

/// Appends an operation after its immediates.
fn print_tail(
    types: &TypeStore,
    ty: Option<TypeHandle>,
    out: &mut Vec<u8>,
) -> Result<(), AllocError>
    requires { IfSome ty (λ t. t.0 < length types.now) }
    ensures ok { OnOk result (out.new.items ≡ out.old.items ++ tail_text (option_map (type_at (type_trees types.now)) ty)) }
    ensures kept { Keeps out.old.items out.new.items }
{
    print_result_type(types, ty, out)?;
    out.extend_from_slice(b"\n")
}

/// The word of the operation that makes zero, undef or poison.
fn fill_word(fill: Fill) -> &'static [u8]
    ensures { result.now ≡ fill_word fill }
{
    match fill {
        Fill::Zero => b"llvm.zero",
        Fill::Undef => b"llvm.undef",
        Fill::Poison => b"llvm.poison",
    }
}

/// The word of a kind, none for a module and a function.
fn word_of(kind: &OpKind) -> Option<&'static [u8]>
    ensures { (ts : List TypeTree) → option_copied result ≡ option_map kind_word (kind_of ts kind.now) }
{
    match kind {
        OpKind::Module | OpKind::Func => None,
        OpKind::Constant(_) => Some(b"llvm.constant"),
        OpKind::Filled(fill) => Some(fill_word(*fill)),
        OpKind::Row(op) => Some(op.word()),
    }
}

/// Appends the immediates of a row: a line for each sort.
fn print_row_immediates(held: Immediates, out: &mut Vec<u8>) -> Result<(), AllocError>
    ensures ok { OnOk result (out.new.items ≡ out.old.items ++ row_immediates_text held) }
    ensures kept { Keeps out.old.items out.new.items }
{
    match held {
        Immediates::Nothing => Ok(()),
        Immediates::Overflow(flags) => print_overflow_flags(flags, out),
        Immediates::Predicate(predicate) => print_predicate(predicate, out),
        Immediates::NonNegative(true) => out.extend_from_slice(b" {nneg}"),
        Immediates::NonNegative(false) => Ok(()),
        Immediates::Access(access) => print_access(access, out),
    }
}

/// Appends the immediates of a kind, where it has any.
fn print_immediates(types: &TypeStore, kind: &OpKind, out: &mut Vec<u8>) -> Result<(), AllocError>
    requires { HasKindTypesBelow (length types.now) kind.now }
    ensures ok { OnOk result (out.new.items ≡ out.old.items ++ option_text immediates_text (kind_of (type_trees types.now) kind.now)) }
    ensures kept { Keeps out.old.items out.new.items }
{
    match kind {
        OpKind::Constant(value) => print_constant_immediates(types, value.attr(), out),
        OpKind::Row(op) => print_row_immediates(op.immediates(), out),
        OpKind::Filled(_) => Ok(()),
        OpKind::Module | OpKind::Func => Ok(()),
    }
}

/// Appends an operation of a function's block.
pub fn print_op(
    types: &TypeStore,
    numbers: &Numbering,
    op: OpRef,
    x: &OpData,
    out: &mut Vec<u8>,
) -> Result<(), AllocError>
    requires { IsTypedOp (length types.now) x.now }
    ensures ok { OnOk result (out.new.items ≡ out.old.items ++ option_text (op_text (value_at numbers.now) (block_at numbers.now)) (op_of (type_trees types.now) op x.now)) }
    ensures kept { Keeps out.old.items out.new.items }
{
    let Some(word) = word_of(&x.kind) else {
        return Ok(());
    };
    print_head(numbers, op, x, word, out)?;
    print_immediates(types, &x.kind, out)?;
    print_tail(types, x.result, out)
}
