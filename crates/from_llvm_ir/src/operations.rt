//! The instructions of a block, each by the operation or the argument that stands for it.

ghost use Rattle.std.specs.Prelude.{◌≡◌, ◌≤◌, ◌+◌, ℕ, List, IfErr, IfOk, OnOk, false, length};
ghost use Rattle.llvm_core.specs.declared.code.LLVMValue.TheVariants as sources;
ghost use Rattle.dialect_core.specs.declared.ops.Value.TheVariants as results;
ghost use Rattle.llvm_core.specs.Data.{Block, Placed};
ghost use Rattle.llvm_core.specs.Form.{is_phi};
ghost use Rattle.dialect_types.specs.Legalised.{GoesOn};
ghost use Rattle.from_llvm_ir.specs.Imported.{IsGivenName};
ghost use Rattle.from_llvm_ir.specs.Naming.{ForLater};
ghost use Rattle.from_llvm_ir.specs.Order.{IsInverse};
ghost use Rattle.from_llvm_ir.specs.Source.{AreEntries};
ghost use Rattle.from_llvm_ir.specs.Values.{IsNoted};
ghost use Rattle.from_llvm_ir.specs.Keeping.{Keeps};
ghost use Rattle.from_llvm_ir.specs.Known.{Frame};
ghost use Rattle.from_llvm_ir.specs.Body.{AreTargets, IsAt, IsBegun, IsBody, IsFilled, IsFramed, IsLate};

use crate::building::add_op;
use crate::entries::Entries;
use crate::order::place_of;
use crate::parts::{is_phi, kind_of};
use crate::targets::{Targets, known_successors, target_of};
use crate::types::import_result_type;
use crate::values::{Values, known_operands};
use dialect_core::context::Context;
use dialect_core::numbers::BlockRef;
use dialect_core::ops::Value;
use dialect_core::steps::Steps;
use dialect_types::identifier::Identifier;
use dialect_types::legaliser::Legaliser;
use from_consts::conversion_err::ConversionErr;
use llvm_core::code::LLVMValue;
use llvm_core::numbers::{LLVMBasicBlock, LLVMFunction, LLVMInstRef};
use renamed_source::source::Source;
use std::alloc::{AllocError, Global};
use std::sync::ledger::Ledger;
use support::items::Items;

/// The identifier of a name, none where the name is empty.
pub fn given(names: &mut Legaliser, name: &str) -> Result<Option<Identifier>, AllocError>
    ensures given { IfOk result (IsGivenName names.new name.now) }
    ensures grows { GoesOn names.old names.new }
{
    if name.is_empty() {
        return Ok(None);
    }
    let identifier = names.legalise(name)?;
    Ok(Some(identifier))
}

/// The argument that stands for a phi, noted.
fn import_phi(
    values: &mut Values,
    block: BlockRef,
    i: LLVMInstRef,
    place: usize,
) -> Result<(), AllocError>
    ensures { OnOk result (IsNoted values.old values.new (sources.Inst i) (results.Argument block place)) }
{
    values.set(LLVMValue::Inst(i), Value::Argument(block, place_of(place)?))
}

/// A new last operation of the block that stands for an instruction that is no phi, noted for its result.
fn import_op<L: Ledger>(
    alloc: Global,
    ctx: &mut Context,
    names: &mut Legaliser,
    source: &Source<'_>,
    targets: &Targets,
    entries: &Entries,
    values: &mut Values,
    from: LLVMBasicBlock,
    block: BlockRef,
    i: LLVMInstRef,
    steps: &mut Steps<L>,
) -> Result<(), ConversionErr>
    requires { ForLater names.old (λ given. (fr : Frame) × (f : LLVMFunction) × (j : ℕ) × (x : ℕ) × (b : Block) × (p : Placed) × IsAt fr source.now f targets.now entries.now ctx.old values.old from block i j x b p × (is_phi p ≡ false) × (fr.given ≡ given)) }
    ensures ok { OnOk result ((fr : Frame) → (f : LLVMFunction) → (j x : ℕ) → (b : Block) → (p : Placed) → IsAt fr source.now f targets.now entries.now ctx.old values.old from block i j x b p → is_phi p ≡ false → GoesOn names.new fr.given
        → IsBody fr source.now ctx.new values.new j (x + 1) b) }
    ensures grows { GoesOn names.old names.new }
    ensures err { IfErr result (λ e. (fr : Frame) → (f : LLVMFunction) → (j x : ℕ) → (b : Block) → (p : Placed) → IsAt fr source.now f targets.now entries.now ctx.old values.old from block i j x b p → is_phi p ≡ false → GoesOn names.new fr.given
        → (places : List ℕ) → IsInverse fr.order places → IsLate fr.source places e) }
    ensures kept { (n b : ℕ) → b ≤ block.0 → Keeps n b ctx.old ctx.new }
{
    let inst = source.inst(i);
    let operands = known_operands(alloc, source, values, inst)?;
    let edges = known_successors(alloc, source, values, targets, entries, from, inst)?;
    let successors = Items::from_vec(edges);
    let ty = import_result_type(alloc, ctx, source, i)?;
    let name = given(names, source.inst_name(i))?;
    let op = add_op(
        ctx,
        block,
        kind_of(inst),
        operands,
        successors,
        ty,
        name,
        steps,
    )?;
    values.set(LLVMValue::Inst(i), Value::Result(op))?;
    Ok(())
}

/// What stands for an instruction: the argument of a phi, or a new last operation of the block.
fn import_inst<L: Ledger>(
    alloc: Global,
    ctx: &mut Context,
    names: &mut Legaliser,
    source: &Source<'_>,
    targets: &Targets,
    entries: &Entries,
    values: &mut Values,
    from: LLVMBasicBlock,
    block: BlockRef,
    i: LLVMInstRef,
    place: usize,
    steps: &mut Steps<L>,
) -> Result<(), ConversionErr>
    requires { ForLater names.old (λ given. (fr : Frame) × (f : LLVMFunction) × (j : ℕ) × (b : Block) × (p : Placed) × IsAt fr source.now f targets.now entries.now ctx.old values.old from block i j place b p × (fr.given ≡ given)) }
    ensures ok { OnOk result ((fr : Frame) → (f : LLVMFunction) → (j : ℕ) → (b : Block) → (p : Placed) → IsAt fr source.now f targets.now entries.now ctx.old values.old from block i j place b p → GoesOn names.new fr.given
        → IsBody fr source.now ctx.new values.new j (place + 1) b) }
    ensures grows { GoesOn names.old names.new }
    ensures err { IfErr result (λ e. (fr : Frame) → (f : LLVMFunction) → (j : ℕ) → (b : Block) → (p : Placed) → IsAt fr source.now f targets.now entries.now ctx.old values.old from block i j place b p → GoesOn names.new fr.given
        → (places : List ℕ) → IsInverse fr.order places → IsLate fr.source places e) }
    ensures kept { (n b : ℕ) → b ≤ block.0 → Keeps n b ctx.old ctx.new }
{
    if is_phi(source.inst(i)) {
        import_phi(values, block, i, place)?;
        return Ok(());
    }
    import_op(
        alloc, ctx, names, source, targets, entries, values, from, block, i, steps,
    )
}

/// What stands for the instructions of a block, in order.
pub fn import_insts<L: Ledger>(
    alloc: Global,
    ctx: &mut Context,
    names: &mut Legaliser,
    source: &Source<'_>,
    targets: &Targets,
    entries: &Entries,
    values: &mut Values,
    from: LLVMBasicBlock,
    block: BlockRef,
    steps: &mut Steps<L>,
) -> Result<(), ConversionErr>
    requires { ForLater names.old (λ given. (fr : Frame) × (f : LLVMFunction) × (j : ℕ) × (b : Block) × IsBegun fr source.now f targets.now entries.now ctx.old values.old from block j b × (fr.given ≡ given)) }
    ensures ok { OnOk result ((fr : Frame) → (f : LLVMFunction) → (j : ℕ) → (b : Block) → IsBegun fr source.now f targets.now entries.now ctx.old values.old from block j b → GoesOn names.new fr.given
        → IsFilled fr source.now ctx.new values.new (j + 1)) }
    ensures grows { GoesOn names.old names.new }
    ensures err { IfErr result (λ e. (fr : Frame) → (f : LLVMFunction) → (j : ℕ) → (b : Block) → IsBegun fr source.now f targets.now entries.now ctx.old values.old from block j b → GoesOn names.new fr.given
        → (places : List ℕ) → IsInverse fr.order places → IsLate fr.source places e) }
    ensures kept { (n b : ℕ) → b ≤ block.0 → Keeps n b ctx.old ctx.new }
{
    let insts = source.instructions(from);
    for place in 0..insts.len() {
        import_inst(
            alloc,
            ctx,
            names,
            source,
            targets,
            entries,
            values,
            from,
            block,
            insts[place],
            place,
            steps,
        )?;
    }
    Ok(())
}

/// What stands for the blocks of a function, in an order.
pub fn import_blocks<L: Ledger>(
    alloc: Global,
    ctx: &mut Context,
    names: &mut Legaliser,
    source: &Source<'_>,
    targets: &Targets,
    entries: &Entries,
    values: &mut Values,
    f: LLVMFunction,
    order: &[u32],
    steps: &mut Steps<L>,
) -> Result<(), ConversionErr>
    requires { ForLater names.old (λ given. (fr : Frame) × IsFramed source.now f fr × (fr.order ≡ order.now) × AreTargets fr targets.now × AreEntries source.now fr.source entries.now × IsFilled fr source.now ctx.old values.old 0 × (fr.given ≡ given)) }
    ensures ok { OnOk result ((fr : Frame) → IsFramed source.now f fr → fr.order ≡ order.now → AreTargets fr targets.now → AreEntries source.now fr.source entries.now → IsFilled fr source.now ctx.old values.old 0 → GoesOn names.new fr.given
        → IsFilled fr source.now ctx.new values.new (length order.now)) }
    ensures grows { GoesOn names.old names.new }
    ensures err { IfErr result (λ e. (fr : Frame) → IsFramed source.now f fr → fr.order ≡ order.now → AreTargets fr targets.now → AreEntries source.now fr.source entries.now → IsFilled fr source.now ctx.old values.old 0 → GoesOn names.new fr.given
        → (places : List ℕ) → IsInverse fr.order places → IsLate fr.source places e) }
    ensures kept { (fr : Frame) → IsFramed source.now f fr → fr.order ≡ order.now → AreTargets fr targets.now → (n b : ℕ) → b ≤ fr.base → Keeps n b ctx.old ctx.new }
{
    let blocks = source.blocks(f);
    for place in order {
        let from = blocks[*place as usize];
        let block = target_of(targets, from);
        import_insts(
            alloc, ctx, names, source, targets, entries, values, from, block, steps,
        )?;
    }
    Ok(())
}
