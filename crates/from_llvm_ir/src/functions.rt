//! A function with its body.

ghost use Rattle.std.specs.Prelude.{◌≡◌, ◌<◌, ◌≤◌, ◌+◌, ℕ, List, [], IfErr, IfOk, OnOk, Some, length, slice_get};
ghost use Rattle.block_order.specs.Graph.{IsGraph};
ghost use Rattle.dialect_core.specs.declared.ops.OpKind.TheVariants as kinds;
ghost use Rattle.dialect_core.specs.ContextData.{kind_at};
ghost use Rattle.from_llvm_ir.specs.declared.values.Values.{Values};
ghost use Rattle.llvm_core.specs.Module.{Module};
ghost use Rattle.dialect_types.specs.Legalised.{Gave, GoesOn};
ghost use Rattle.llvm_core.specs.Data.{Block, Function, data_of};
ghost use Rattle.dialect_core.specs.Data.{DialectModule, Func, with_func};
ghost use Rattle.from_llvm_ir.specs.Imported.{ImportedFunction, IsBuilding};
ghost use Rattle.from_llvm_ir.specs.Keeping.{Keeps};
ghost use Rattle.from_llvm_ir.specs.Naming.{ForLater};
ghost use Rattle.from_llvm_ir.specs.Order.{IsInverse, IsRpo};
ghost use Rattle.dialect_types.specs.Trees.{structs_of};
ghost use Rattle.from_llvm_ir.specs.Source.{IsSource, IsBlockOf};
ghost use Rattle.from_llvm_ir.specs.Types.{IsReadyFor};
ghost use Rattle.from_llvm_ir.specs.Known.{Frame, Notes, knows, blocks_of};
ghost use Rattle.from_llvm_ir.specs.Body.{AreTargets, HasHeads, IsFilled, IsFramed, IsLate};
ghost use Rattle.from_llvm_ir.specs.Importing.{IsDeclared};
ghost use Rattle.from_llvm_ir.specs.Refusals.{IsRefusalOfFunction};
ghost use Rattle.from_llvm_ir.specs.Walks.{HasDominatedUses, graph_of};

use crate::alone::is_plain;
use crate::building::{add_func, add_func_block};
use crate::constants::hoist_constants;
use crate::entries::entries_of;
use crate::far::has_few_far_uses;
use crate::matching::FunctionBlocks;
use crate::operations::{given, import_blocks};
use crate::order::{graph, place_of, places_of, text_places};
use crate::targets::{Targets, target_of};
use crate::types::{import_function_type, import_params, import_phi_types, param_count};
use crate::uses::check_uses;
use crate::values::{Params, Values};
use block_order::dominance::Dominance;
use block_order::ordering::rpo;
use block_order::succs::Succs;
use dialect_core::context::Context;
use dialect_core::numbers::{BlockRef, FuncOp};
use dialect_core::steps::Steps;
use dialect_types::identifier::Identifier;
use dialect_types::legaliser::Legaliser;
use from_consts::conversion_err::ConversionErr;
use llvm_core::numbers::{LLVMBasicBlock, LLVMFunction};
use renamed_source::source::Source;
use std::alloc::{AllocError, Global};
use std::sync::ledger::Ledger;
use support::number_map::NumberMap;

/// The first block: its label, which is no name that is met, and an argument for each parameter.
fn add_entry(
    alloc: Global,
    ctx: &mut Context,
    source: &Source<'_>,
    f: LLVMFunction,
    func: FuncOp,
) -> Result<BlockRef, AllocError>
    requires { (fr : Frame) × IsFramed source.now f fr × HasHeads fr func ctx.old 0 }
    ensures heads { OnOk result ((fr : Frame) → IsFramed source.now f fr → HasHeads fr func ctx.old 0 → HasHeads fr func ctx.new 1) }
    ensures number { IfOk result (λ b. (fr : Frame) → HasHeads fr func ctx.old 0 → b.0 ≡ fr.base) }
    ensures kept { (n b : ℕ) → n ≤ func.0.0 → Keeps n b ctx.old ctx.new }
{
    let label = Identifier::copy(alloc, "entry")?;
    let args = import_params(alloc, ctx, source, f)?;
    add_func_block(ctx, func, Some(label), args.as_slice())
}

/// Another block: its name, and an argument for each phi.
fn add_later_block(
    alloc: Global,
    ctx: &mut Context,
    names: &mut Legaliser,
    source: &Source<'_>,
    func: FuncOp,
    from: LLVMBasicBlock,
) -> Result<BlockRef, AllocError>
    requires { ForLater names.old (λ given. (fr : Frame) × (f : LLVMFunction) × (j : ℕ) × (place : ℕ) × (b : Block) × IsFramed source.now f fr × IsBlockOf source.now fr.source from place b × (slice_get (blocks_of fr) (j + 1) ≡ Some b) × HasHeads fr func ctx.old (j + 1) × (fr.given ≡ given)) }
    ensures heads { OnOk result ((fr : Frame) → (f : LLVMFunction) → (j place : ℕ) → (b : Block) → IsFramed source.now f fr → IsBlockOf source.now fr.source from place b → slice_get (blocks_of fr) (j + 1) ≡ Some b → HasHeads fr func ctx.old (j + 1) → GoesOn names.new fr.given
        → HasHeads fr func ctx.new (j + 2)) }
    ensures grows { GoesOn names.old names.new }
    ensures number { IfOk result (λ n. (fr : Frame) → (j : ℕ) → HasHeads fr func ctx.old j → n.0 ≡ fr.base + j) }
    ensures kept { (n b : ℕ) → n ≤ func.0.0 → Keeps n b ctx.old ctx.new }
{
    let label = given(names, source.block_name(from))?;
    let args = import_phi_types(alloc, ctx, source, from)?;
    add_func_block(ctx, func, label, args.as_slice())
}

/// The blocks of a function in an order, without operations.
fn add_blocks(
    alloc: Global,
    ctx: &mut Context,
    names: &mut Legaliser,
    source: &Source<'_>,
    f: LLVMFunction,
    func: FuncOp,
    order: &[u32],
) -> Result<Targets, AllocError>
    requires { ForLater names.old (λ given. (fr : Frame) × IsFramed source.now f fr × (fr.order ≡ order.now) × HasHeads fr func ctx.old 0 × (fr.given ≡ given)) }
    ensures targets { IfOk result (λ t. (fr : Frame) → IsFramed source.now f fr → fr.order ≡ order.now → HasHeads fr func ctx.old 0 → GoesOn names.new fr.given → AreTargets fr t) }
    ensures heads { OnOk result ((fr : Frame) → IsFramed source.now f fr → fr.order ≡ order.now → HasHeads fr func ctx.old 0 → GoesOn names.new fr.given → HasHeads fr func ctx.new (length order.now)) }
    ensures grows { GoesOn names.old names.new }
    ensures kept { (n b : ℕ) → n ≤ func.0.0 → Keeps n b ctx.old ctx.new }
{
    let blocks = source.blocks(f);
    let first = add_entry(alloc, ctx, source, f, func)?;
    let mut targets = NumberMap::new(alloc);
    targets.set(blocks[0].0, first)?;
    for j in 1..order.len() {
        let from = blocks[order[j] as usize];
        targets.set(
            from.0,
            add_later_block(alloc, ctx, names, source, func, from)?,
        )?;
    }
    Ok(targets)
}

/// How many constants of a module get a slot while a function is imported: all of them, where the function is long enough to use
/// many of them. A text that is read has the last constant first, so that their numbers count down.
fn const_slots(source: &Source<'_>, f: LLVMFunction) -> usize
    requires { f.0 < length source.now.functions }
{
    let mut insts = 0usize;
    for block in source.blocks(f) {
        insts = insts.saturating_add(source.instructions(*block).len());
    }
    let consts = source.const_count() as usize;
    if consts <= insts.saturating_mul(4) {
        consts
    } else {
        0
    }
}

/// Each parameter of a function by the argument of its first block at the same place. So many constants have slots.
fn parameters(
    alloc: Global,
    f: LLVMFunction,
    block: BlockRef,
    count: usize,
    consts: usize,
) -> Result<Values, AllocError>
    ensures { IfOk result (λ values. (m : Module) → (fr : Frame) → fr.source.number ≡ f.0 → length fr.source.params ≡ count → block.0 ≡ fr.base → Notes m values (knows fr [] [] [] [])) }
{
    let params = Params {
        function: f,
        block,
        count: place_of(count)?,
    };
    let values = Values::new(alloc, params, consts)?;
    Ok(values)
}

/// The body of a function, in a function of the dialect that has no block yet.
fn import_body<L: Ledger>(
    alloc: Global,
    ctx: &mut Context,
    names: &mut Legaliser,
    source: &Source<'_>,
    f: LLVMFunction,
    func: FuncOp,
    order: &[u32],
    steps: &mut Steps<L>,
) -> Result<(), ConversionErr>
    requires { ForLater names.old (λ given. (fr : Frame) × IsFramed source.now f fr × (fr.order ≡ order.now) × HasHeads fr func ctx.old 0 × (fr.given ≡ given)) }
    ensures ok { OnOk result ((fr : Frame) → IsFramed source.now f fr → fr.order ≡ order.now → HasHeads fr func ctx.old 0 → GoesOn names.new fr.given
        → (values : Values) × IsFilled fr source.now ctx.new values (length order.now)) }
    ensures grows { GoesOn names.old names.new }
    ensures err { IfErr result (λ e. (fr : Frame) → IsFramed source.now f fr → fr.order ≡ order.now → HasHeads fr func ctx.old 0 → GoesOn names.new fr.given
        → (places : List ℕ) → IsInverse fr.order places → IsLate fr.source places e) }
    ensures kept { (n b : ℕ) → n ≤ func.0.0 → b ≤ length ctx.old.blocks → Keeps n b ctx.old ctx.new }
{
    let entries = entries_of(alloc, source, f)?;
    let targets = add_blocks(alloc, ctx, names, source, f, func, order)?;
    let block = target_of(&targets, source.blocks(f)[0]);
    let consts = const_slots(source, f);
    let mut values = parameters(alloc, f, block, param_count(source, f), consts)?;
    hoist_constants(
        alloc,
        ctx,
        source,
        &entries,
        &mut values,
        block,
        f,
        order,
        steps,
    )?;
    import_blocks(
        alloc,
        ctx,
        names,
        source,
        &targets,
        &entries,
        &mut values,
        f,
        order,
        steps,
    )
}

/// A function of the dialect without a body, for one of the source.
fn declare<L: Ledger>(
    alloc: Global,
    ctx: &mut Context,
    source: &Source<'_>,
    f: LLVMFunction,
    name: &Identifier,
    body: BlockRef,
    steps: &mut Steps<L>,
) -> Result<FuncOp, AllocError>
    requires source { (g : Function) × IsSource source.now f g × IsReadyFor g (structs_of ctx.old.types) }
    requires module { (m : ℕ) × (d : DialectModule) × IsBuilding ctx.old m body d }
    ensures declared { IfOk result (λ n. (g : Function) → IsSource source.now f g → (m : ℕ) → (d : DialectModule) → IsBuilding ctx.old m body d → IsDeclared g name.now ctx.new m body d n.0.0) }
    ensures func { IfOk result (λ n. kind_at ctx.new.ops n.0 ≡ Some kinds.Func) }
    ensures number { IfOk result (λ n. n.0.0 ≡ length ctx.old.ops) }
    ensures blocks { OnOk result (ctx.new.blocks ≡ ctx.old.blocks) }
    ensures kept { (m : ℕ) → (d : DialectModule) → IsBuilding ctx.old m body d → (n b : ℕ) → n ≤ m → b ≤ body.0 → Keeps n b ctx.old ctx.new }
{
    let ty = import_function_type(alloc, ctx, source, f)?;
    let name = name.clone(alloc)?;
    add_func(ctx, body, name, source.function_name(f), ty, steps)
}

/// The graph of a function, made ready for questions about dominance: by a tree where they are many.
fn dominance_of(
    alloc: Global,
    source: &Source<'_>,
    f: LLVMFunction,
    succs: Succs,
) -> Result<Dominance, AllocError>
    requires within { f.0 < length source.now.functions }
    requires graph { IsGraph succs }
    ensures { IfOk result (λ d. d ≡ succs) }
{
    if has_few_far_uses(source, f) {
        Dominance::walking(alloc, succs)
    } else {
        Dominance::new(alloc, succs)
    }
}

/// The places of a function's blocks in depth-first order, which one block has without a walk. Refuses a function that
/// uses the result of an instruction where it is not defined: `UndefinedValue`.
fn walked_order(
    alloc: Global,
    source: &Source<'_>,
    f: LLVMFunction,
) -> Result<Vec<u32>, ConversionErr>
    requires { (g : Function) × IsSource source.now f g }
    ensures rpo { IfOk result (λ order. (g : Function) → IsSource source.now f g → IsRpo (graph_of g) order.items) }
    ensures dominated { OnOk result ((g : Function) → IsSource source.now f g → HasDominatedUses g) }
    ensures err { IfErr result (λ e. (g : Function) → IsSource source.now f g → IsRefusalOfFunction g e) }
{
    let places = text_places(alloc, source, f)?;
    if source.blocks(f).len() == 1 {
        check_uses(alloc, source, f, places, None)?;
        let alone = vec![in alloc; 0u32; 1]?;
        return Ok(alone);
    }
    let succs = graph(alloc, source, f, &places)?;
    let order = rpo(alloc, &succs)?;
    let dominance = dominance_of(alloc, source, f, succs)?;
    check_uses(alloc, source, f, places, Some(dominance))?;
    Ok(order)
}

/// The places of a function's blocks in depth-first order. Refuses a function that uses the result of an instruction where
/// it is not defined: `UndefinedValue`. Where the numbers of one block tell that none is, nothing is looked up.
fn checked_order(
    alloc: Global,
    source: &Source<'_>,
    f: LLVMFunction,
) -> Result<Vec<u32>, ConversionErr>
    requires { (g : Function) × IsSource source.now f g }
    ensures rpo { IfOk result (λ order. (g : Function) → IsSource source.now f g → IsRpo (graph_of g) order.items) }
    ensures dominated { OnOk result ((g : Function) → IsSource source.now f g → HasDominatedUses g) }
    ensures err { IfErr result (λ e. (g : Function) → IsSource source.now f g → IsRefusalOfFunction g e) }
{
    if is_plain(source, f) {
        let alone = vec![in alloc; 0u32; 1]?;
        return Ok(alone);
    }
    walked_order(alloc, source, f)
}

/// A function of the dialect for one of the source, its blocks in depth-first order, and their places. Refuses a
/// function that uses the result of an instruction where it is not defined: `UndefinedValue`.
pub fn import_function<L: Ledger>(
    alloc: Global,
    ctx: &mut Context,
    names: &mut Legaliser,
    source: &Source<'_>,
    f: LLVMFunction,
    name: &Identifier,
    body: BlockRef,
    steps: &mut Steps<L>,
) -> Result<FunctionBlocks, ConversionErr>
    requires source { (g : Function) × IsSource source.now f g × IsReadyFor g (structs_of ctx.old.types) }
    requires name { (g : Function) → IsSource source.now f g → Gave names.old g.name name.now }
    requires module { (m : ℕ) × (d : DialectModule) × IsBuilding ctx.old m body d }
    ensures ok { IfOk result (λ x. (g : Function) → IsSource source.now f g → (m : ℕ) → (d : DialectModule) → IsBuilding ctx.old m body d
        → ForLater names.new (λ given. (y : Func) × ImportedFunction (data_of source.now) given g x y × IsBuilding ctx.new m body (with_func d y))) }
    ensures grows { GoesOn names.old names.new }
    ensures err { IfErr result (λ e. (g : Function) → IsSource source.now f g → IsRefusalOfFunction g e) }
    ensures kept { (m : ℕ) → (d : DialectModule) → IsBuilding ctx.old m body d → (n b : ℕ) → n ≤ m → b ≤ body.0 → Keeps n b ctx.old ctx.new }
{
    let order = checked_order(alloc, source, f)?;
    let places = places_of(alloc, order.as_slice())?;
    let func = declare(alloc, ctx, source, f, name, body, steps)?;
    import_body(alloc, ctx, names, source, f, func, order.as_slice(), steps)?;
    Ok(FunctionBlocks {
        function: f,
        places,
    })
}
