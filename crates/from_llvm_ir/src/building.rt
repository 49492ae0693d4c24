//! The calls that grow the last function of a dialect module, and what they make of its data.

ghost use Rattle.std.specs.Prelude.{◌≡◌, ◌<◌, ◌≤◌, ◌+◌, ◌∷◌, ◌++◌, [], List, ℕ, None, Some, IsTrue, IfOk, IfSome, OnOk, All, length, map, slice_get};
ghost use Rattle.std.specs.Option.{option_map};
ghost use Rattle.dialect_types.specs.Names.{IsIdentifier};
ghost use Rattle.dialect_types.specs.Trees.{type_at, type_trees};
ghost use Rattle.dialect_core.specs.declared.ops.OpKind.TheVariants as kinds;
ghost use Rattle.dialect_core.specs.ContextData.{HoldsMore, kind_at, is_plain, with_op, with_block, IsValueWithin, IsSuccessorWithin};
ghost use Rattle.dialect_core.specs.Data.{DialectBlock, DialectModule, DialectOp, Kind, IsTyped, HasKindTypesBelow, kind_of, data_of, with_func, with_func_block};
ghost use Rattle.dialect_core.specs.Lists.{list_at};
ghost use Rattle.from_llvm_ir.specs.Imported.{IsBuilding, kept_name};
ghost use Rattle.from_llvm_ir.specs.Keeping.{Keeps};
ghost use Rattle.from_llvm_ir.specs.Building.{Home, IsOpen, bare_func, func_data, op_data, new_op, with_ops};

use dialect_core::context::Context;
use dialect_core::linkage::LinkageAttr;
use dialect_core::numbers::{BlockRef, FuncOp, OpRef};
use dialect_core::ops::{OpKind, Successor, Value};
use dialect_core::steps::Steps;
use dialect_types::identifier::Identifier;
use dialect_types::types::TypeHandle;
use std::alloc::AllocError;
use std::sync::ledger::Ledger;
use support::items::Items;
use support::short_list::ShortList;

/// A new function without blocks, in no block, which keeps its LLVM name where its own is another.
fn new_func(
    ctx: &mut Context,
    name: Identifier,
    llvm_name: &str,
    ty: TypeHandle,
) -> Result<FuncOp, AllocError>
    requires { ty.0 < length ctx.old.types }
    ensures ok { OnOk result (ctx.new ≡ with_op ctx.old (func_data name (kept_name llvm_name.now name) ty)) }
    ensures number { IfOk result (λ f. f.0.0 ≡ length ctx.old.ops) }
    ensures free { IfOk result (λ f. slice_get ctx.new.parents f.0.0 ≡ Some None) }
    ensures legal { IsIdentifier name }
    ensures data { OnOk result ((m : ℕ) → m < length ctx.old.ops → data_of ctx.new m ≡ data_of ctx.old m) }
    ensures typed { OnOk result (IsTyped ctx.old → IsTyped ctx.new) }
    ensures types { ctx.new.types ≡ ctx.old.types }
    ensures kept { (n b : ℕ) → Keeps n b ctx.old ctx.new }
{
    let same = name.as_str() == llvm_name;
    let func = ctx.create_func(name, ty, LinkageAttr::ExternalLinkage)?;
    if !same {
        ctx.set_llvm_symbol_name(func.0, llvm_name)?;
    }
    Ok(func)
}

/// A new function without blocks, as the last of the module whose block `body` is.
pub fn add_func<L: Ledger>(
    ctx: &mut Context,
    body: BlockRef,
    name: Identifier,
    llvm_name: &str,
    ty: TypeHandle,
    steps: &mut Steps<L>,
) -> Result<FuncOp, AllocError>
    requires ty { ty.0 < length ctx.old.types }
    requires module { (m : ℕ) × (d : DialectModule) × IsBuilding ctx.old m body d }
    ensures building { IfOk result (λ f. (m : ℕ) → (d : DialectModule) → IsBuilding ctx.old m body d → IsBuilding ctx.new m body (with_func d (bare_func f.0.0 name (kept_name llvm_name.now name) (type_at (type_trees ctx.old.types) ty)))) }
    ensures func { IfOk result (λ f. kind_at ctx.new.ops f.0 ≡ Some kinds.Func) }
    ensures number { IfOk result (λ f. f.0.0 ≡ length ctx.old.ops) }
    ensures legal { IsIdentifier name }
    ensures blocks { OnOk result (ctx.new.blocks ≡ ctx.old.blocks) }
    ensures types { ctx.new.types ≡ ctx.old.types }
    ensures kept { (m : ℕ) → (d : DialectModule) → IsBuilding ctx.old m body d → (n b : ℕ) → n ≤ m → b ≤ body.0 → Keeps n b ctx.old ctx.new }
{
    ctx.keeps_regions();
    let func = new_func(ctx, name, llvm_name, ty)?;
    ctx.insert_at_back(func.0, body, steps);
    Ok(func)
}

/// A new block without operations, as the last of an operation's region: `add_block` of the context, with a clause that
/// says that it leaves all that the context held.
pub fn add_bare_block(
    ctx: &mut Context,
    holder: OpRef,
    label: Option<Identifier>,
    args: &[TypeHandle],
) -> Result<BlockRef, AllocError>
    requires holder { HoldsMore ctx.old.ops holder }
    requires args { All (λ t. t.0 < length ctx.old.types) args.now }
    ensures ok { IfOk result (λ b. ctx.new ≡ with_block ctx.old b (record { holder = holder; label = label; args = args.now })) }
    ensures number { IfOk result (λ b. b.0 ≡ length ctx.old.blocks) }
    ensures data { IfOk result (λ b. (m : ℕ) → data_of ctx.new m ≡ with_func_block (data_of ctx.old m) holder.0 (record { number = b.0; label = label; args = map (type_at (type_trees ctx.old.types)) args.now; ops = [] })) }
    ensures bare { IfOk result (λ b. list_at ctx.new.lists b ≡ []) }
    ensures kept { (n b : ℕ) → n ≤ holder.0 → Keeps n b ctx.old ctx.new }
{
    let block = ctx.add_block(holder, label, args)?;
    Ok(block)
}

/// A new block without operations, as the last of a function.
pub fn add_func_block(
    ctx: &mut Context,
    func: FuncOp,
    label: Option<Identifier>,
    args: &[TypeHandle],
) -> Result<BlockRef, AllocError>
    requires func { kind_at ctx.old.ops func.0 ≡ Some kinds.Func }
    requires args { All (λ t. t.0 < length ctx.old.types) args.now }
    ensures building { IfOk result (λ b. (m : ℕ) → (body : BlockRef) → (d : DialectModule) → IsBuilding ctx.old m body d → IsBuilding ctx.new m body (with_func_block d func.0.0 (record { number = b.0; label = label; args = map (type_at (type_trees ctx.old.types)) args.now; ops = [] }))) }
    ensures func { OnOk result (kind_at ctx.new.ops func.0 ≡ Some kinds.Func) }
    ensures number { IfOk result (λ b. b.0 ≡ length ctx.old.blocks) }
    ensures count { OnOk result (length ctx.new.blocks ≡ length ctx.old.blocks + 1) }
    ensures kept { (n b : ℕ) → n ≤ func.0.0 → Keeps n b ctx.old ctx.new }
{
    add_bare_block(ctx, func.0, label, args)
}

/// A new operation, in no block: `keep_op` of the context, with a clause that says that it leaves all that the context
/// held.
#[inline(always)]
fn create_named(
    ctx: &mut Context,
    kind: OpKind,
    operands: ShortList<Value>,
    successors: Items<Successor>,
    result_ty: Option<TypeHandle>,
    name: Option<Identifier>,
) -> Result<OpRef, AllocError>
    requires plain { IsTrue (is_plain kind) }
    requires types { HasKindTypesBelow (length ctx.old.types) kind }
    requires operands { All (IsValueWithin (length ctx.old.ops) (length ctx.old.blocks)) operands }
    requires successors { All (IsSuccessorWithin (length ctx.old.ops) (length ctx.old.blocks)) successors }
    requires result_ty { IfSome result_ty (λ t. t.0 < length ctx.old.types) }
    ensures ok { OnOk result (ctx.new ≡ with_op ctx.old (op_data kind name operands successors result_ty)) }
    ensures number { IfOk result (λ o. o.0 ≡ length ctx.old.ops) }
    ensures free { IfOk result (λ o. slice_get ctx.new.parents o.0 ≡ Some None) }
    ensures data { OnOk result ((m : ℕ) → m < length ctx.old.ops → data_of ctx.new m ≡ data_of ctx.old m) }
    ensures typed { OnOk result (IsTyped ctx.old → IsTyped ctx.new) }
    ensures types { ctx.new.types ≡ ctx.old.types }
    ensures kept { (n b : ℕ) → Keeps n b ctx.old ctx.new }
{
    let op = ctx.keep_op(kind, name, operands, successors, result_ty)?;
    Ok(op)
}

/// A new operation, as the last of a block of the last function, behind which nothing stands yet.
#[inline(always)]
pub fn add_op<L: Ledger>(
    ctx: &mut Context,
    block: BlockRef,
    kind: OpKind,
    operands: ShortList<Value>,
    successors: Items<Successor>,
    result_ty: Option<TypeHandle>,
    name: Option<Identifier>,
    steps: &mut Steps<L>,
) -> Result<OpRef, AllocError>
    requires plain { IsTrue (is_plain kind) }
    requires types { HasKindTypesBelow (length ctx.old.types) kind }
    requires operands { All (IsValueWithin (length ctx.old.ops) (length ctx.old.blocks)) operands }
    requires successors { All (IsSuccessorWithin (length ctx.old.ops) (length ctx.old.blocks)) successors }
    requires result_ty { IfSome result_ty (λ t. t.0 < length ctx.old.types) }
    requires open { (h : Home) × (base : ℕ) × (left : List DialectBlock) × (now : DialectBlock) × (right : List DialectBlock) × IsOpen h base ctx.old block left now right }
    ensures added { IfOk result (λ o. (h : Home) → (base : ℕ) → (left : List DialectBlock) → (now : DialectBlock) → (right : List DialectBlock) → (k : Kind) → kind_of (type_trees ctx.old.types) kind ≡ Some k → IsOpen h base ctx.old block left now right
        → IsOpen h base ctx.new block left (with_ops now (now.ops ++ new_op o.0 name k operands successors (option_map (type_at (type_trees ctx.old.types)) result_ty) ∷ [])) right) }
    ensures number { IfOk result (λ o. o.0 ≡ length ctx.old.ops) }
    ensures count { OnOk result (length ctx.new.ops ≡ length ctx.old.ops + 1) }
    ensures kept { (n b : ℕ) → b ≤ block.0 → Keeps n b ctx.old ctx.new }
{
    let op = create_named(ctx, kind, operands, successors, result_ty, name)?;
    ctx.insert_at_back(op, block, steps);
    Ok(op)
}
