//! A context of operations and blocks, and the calls that build them.

ghost use Rattle.std.specs.Prelude.{◌≡◌, ℕ, map, ◌<◌, ◌++◌, ◌∷◌, [], IsTrue, IfOk, IfSome, OnOk, OnErr, None, Some, All, length, slice_get};
ghost use Rattle.std.specs.Option.{option_map};
ghost use Rattle.dialect_core.specs.declared.ops.OpKind.TheVariants as kinds;
ghost use Rattle.dialect_types.specs.Trees.{type_at, type_trees};
ghost use Rattle.dialect_core.specs.Lists.{list_at};
ghost use Rattle.dialect_core.specs.Data.{DialectOp, Func, op_at, func_in, data_of, with_func, with_func_block, with_block_op, with_block_arg, with_func_llvm_name, HasKindTypesBelow, IsTypedOp, IsTyped};
ghost use Rattle.dialect_core.specs.ContextData.{empty_context, with_op, with_block, with_argument, with_name, with_llvm_name, with_appended, is_plain, HoldsMore, IsSymbol, StandsIn, IsValueWithin, IsSuccessorWithin, IsOpWithin, region_at};

mod holding;
mod lending;
mod moving;
mod reading;
mod text;
mod well_formed;

use crate::linkage::LinkageAttr;
use crate::lists::OpLists;
use crate::numbers::{BlockRef, FuncOp, ModuleOp, OpRef};
use crate::ops::{BlockData, OpData, OpKind, Successor, Symbol, SymbolBox, Value};
use crate::steps::Steps;
use dialect_types::identifier::Identifier;
use dialect_types::type_store::TypeStore;
use dialect_types::types::TypeHandle;
use std::alloc::{AllocError, Global};
use std::marker::Model;
use std::sync::ledger::Ledger;
use support::items::Items;
use support::short_list::ShortList;
use support::text::Text;

/// Operations, blocks and their types. Operations that stand in no block are kept too.
#[derive(Drop)]
pub struct Context {
    alloc: Global,
    types: TypeStore,
    ops: Vec<OpData>,
    blocks: Vec<BlockData>,
    lists: OpLists,
}

impl Model for Context {
    ghost use Rattle.std.specs.Coded.{codes};
    ghost use Rattle.const_attrs.specs.contracts.const_attr.ConstAttr as constant;
    ghost use Rattle.dialect_core.specs.ContextData.{ContextData, IsKept};

    ghost Value = { ContextData };

    ghost coded = { Prim.hlevel (codes, constant.the_row.coded) };

    ghost view = { λ c. record {
      types = c.types;
      ops = c.ops.items;
      blocks = c.blocks.items;
      parents = c.lists.parents;
      lists = c.lists.lists;
    } };

    ghost invariant = { λ c. IsKept c.ops.items c.blocks.items c.lists.parents c.lists.lists };
}

impl Context {
    /// An empty context.
    pub fn new(alloc: Global) -> Context
        ensures { result ≡ empty_context }
    {
        Context {
            alloc,
            types: TypeStore::new(alloc),
            ops: Vec::new(alloc),
            blocks: Vec::new(alloc),
            lists: OpLists::new(alloc),
        }
    }

    /// A new module, in no block.
    pub fn create_module(&mut self, name: Identifier) -> Result<ModuleOp, AllocError>
        ensures ok { OnOk result (self.new ≡ with_op self.old (record { kind = kinds.Module; name = Some name; operands = []; successors = []; result = None; symbol = None; blocks = [] })) }
        ensures number { IfOk result (λ m. m.0.0 ≡ length self.old.ops) }
        ensures free { IfOk result (λ m. slice_get self.new.parents m.0.0 ≡ Some None) }
        ensures module { IfOk result (λ m. data_of self.new m.0.0 ≡ record { name = name; functions = [] }) }
        ensures data { OnOk result ((m : ℕ) → m < length self.old.ops → data_of self.new m ≡ data_of self.old m) }
        ensures typed { OnOk result (IsTyped self.old → IsTyped self.new) }
        ensures err { OnErr result (self.new ≡ self.old) }
    {
        let data = bare(self.alloc, OpKind::Module, Some(name), None);
        let op = self.add(data)?;
        Ok(ModuleOp(op))
    }

    /// A new function without blocks, in no block.
    pub fn create_func(
        &mut self,
        name: Identifier,
        ty: TypeHandle,
        linkage: LinkageAttr,
    ) -> Result<FuncOp, AllocError>
        requires { ty.0 < length self.old.types }
        ensures ok { OnOk result (self.new ≡ with_op self.old (record { kind = kinds.Func; name = Some name; operands = []; successors = []; result = None; symbol = Some (record { ty = ty; linkage = linkage; llvm_name = None }); blocks = [] })) }
        ensures number { IfOk result (λ f. f.0.0 ≡ length self.old.ops) }
        ensures free { IfOk result (λ f. slice_get self.new.parents f.0.0 ≡ Some None) }
        ensures data { OnOk result ((m : ℕ) → m < length self.old.ops → data_of self.new m ≡ data_of self.old m) }
        ensures typed { OnOk result (IsTyped self.old → IsTyped self.new) }
        ensures err { OnErr result (self.new ≡ self.old) }
    {
        let symbol = Symbol {
            ty,
            linkage,
            llvm_name: None,
        };
        let symbol = SymbolBox::new(self.alloc, symbol)?;
        let data = bare(self.alloc, OpKind::Func, Some(name), Some(symbol));
        let op = self.add(data)?;
        Ok(FuncOp(op))
    }

    /// A new operation other than a module and a function, in no block.
    pub fn create_op(
        &mut self,
        kind: OpKind,
        operands: &[Value],
        successors: &[Successor],
        result_ty: Option<TypeHandle>,
    ) -> Result<OpRef, AllocError>
        requires kind { IsTrue (is_plain kind) }
        requires kind_types { HasKindTypesBelow (length self.old.types) kind }
        requires operands { All (IsValueWithin (length self.old.ops) (length self.old.blocks)) operands.now }
        requires successors { All (IsSuccessorWithin (length self.old.ops) (length self.old.blocks)) successors.now }
        requires result_ty { IfSome result_ty (λ t. t.0 < length self.old.types) }
        ensures ok { OnOk result (self.new ≡ with_op self.old (record { kind = kind; name = None; operands = operands.now; successors = successors.now; result = result_ty; symbol = None; blocks = [] })) }
        ensures number { IfOk result (λ o. o.0 ≡ length self.old.ops) }
        ensures free { IfOk result (λ o. slice_get self.new.parents o.0 ≡ Some None) }
        ensures data { OnOk result ((m : ℕ) → m < length self.old.ops → data_of self.new m ≡ data_of self.old m) }
        ensures typed { OnOk result (IsTyped self.old → IsTyped self.new) }
        ensures err { OnErr result (self.new ≡ self.old) }
    {
        let data = plain(self.alloc, kind, operands, successors, result_ty)?;
        self.add(data)
    }

    /// A new operation other than a module and a function, in no block, with its name: it keeps the lists that it is given.
    #[inline(always)]
    pub fn keep_op(
        &mut self,
        kind: OpKind,
        name: Option<Identifier>,
        operands: ShortList<Value>,
        successors: Items<Successor>,
        result_ty: Option<TypeHandle>,
    ) -> Result<OpRef, AllocError>
        requires kind { IsTrue (is_plain kind) }
        requires kind_types { HasKindTypesBelow (length self.old.types) kind }
        requires operands { All (IsValueWithin (length self.old.ops) (length self.old.blocks)) operands }
        requires successors { All (IsSuccessorWithin (length self.old.ops) (length self.old.blocks)) successors }
        requires result_ty { IfSome result_ty (λ t. t.0 < length self.old.types) }
        ensures ok { OnOk result (self.new ≡ with_op self.old (record { kind = kind; name = name; operands = operands; successors = successors; result = result_ty; symbol = None; blocks = [] })) }
        ensures number { IfOk result (λ o. o.0 ≡ length self.old.ops) }
        ensures free { IfOk result (λ o. slice_get self.new.parents o.0 ≡ Some None) }
        ensures data { OnOk result ((m : ℕ) → m < length self.old.ops → data_of self.new m ≡ data_of self.old m) }
        ensures typed { OnOk result (IsTyped self.old → IsTyped self.new) }
        ensures err { OnErr result (self.new ≡ self.old) }
    {
        self.add(OpData {
            kind,
            name,
            operands,
            successors,
            result: result_ty,
            symbol: None,
            blocks: ShortList::zero(),
        })
    }

    /// Makes room for so many more operations and blocks. It is a wish: where there is no memory for it, they find theirs
    /// when they are added.
    pub fn make_room(&mut self, ops: usize, blocks: usize)
        ensures { self.new ≡ self.old }
    {
        let _ = self.ops.reserve(ops);
        let _ = self.blocks.reserve(blocks);
        self.lists.make_room(ops, blocks);
    }

    /// How many operations there are, in all modules together.
    pub fn op_count(&self) -> usize
        ensures { result ≡ length self.now.ops }
    {
        self.ops.len()
    }

    /// How many blocks there are, in all modules together.
    pub fn block_count(&self) -> usize
        ensures { result ≡ length self.now.blocks }
    {
        self.blocks.len()
    }

    /// A new last block of the holder's region, without operations.
    pub fn add_block(
        &mut self,
        holder: OpRef,
        label: Option<Identifier>,
        args: &[TypeHandle],
    ) -> Result<BlockRef, AllocError>
        requires holder { HoldsMore self.old.ops holder }
        requires args { All (λ t. t.0 < length self.old.types) args.now }
        ensures ok { IfOk result (λ b. self.new ≡ with_block self.old b (record { holder = holder; label = label; args = args.now })) }
        ensures number { IfOk result (λ b. b.0 ≡ length self.old.blocks) }
        ensures bare { IfOk result (λ b. list_at self.new.lists b ≡ []) }
        ensures data { IfOk result (λ b. (m : ℕ) → data_of self.new m ≡ with_func_block (data_of self.old m) holder.0 (record { number = b.0; label = label; args = map (type_at (type_trees self.old.types)) args.now; ops = [] })) }
        ensures typed { OnOk result (IsTyped self.old → IsTyped self.new) }
        ensures err { OnErr result (self.new ≡ self.old) }
    {
        let args = ShortList::from_slice(self.alloc, args)?;
        self.blocks.reserve(1)?;
        let op = &mut self.ops[holder.0 as usize];
        let number = self.lists.add_block(self.alloc, &mut op.blocks)?;
        match self.blocks.push(BlockData {
            holder,
            label,
            args,
        }) {
            Ok(()) => Ok(number),
            Err(_) => unreachable!(),
        }
    }

    /// A new last argument of a block, and its place.
    pub fn push_argument(&mut self, block: BlockRef, ty: TypeHandle) -> Result<u32, AllocError>
        requires block { block.0 < length self.old.blocks }
        requires ty { ty.0 < length self.old.types }
        ensures ok { OnOk result (self.new ≡ with_argument self.old block ty) }
        ensures place { IfOk result (λ place. option_map (λ x. length x.args) (slice_get self.old.blocks block.0) ≡ Some place) }
        ensures data { OnOk result ((m : ℕ) → data_of self.new m ≡ with_block_arg (data_of self.old m) block.0 (type_at (type_trees self.old.types) ty)) }
        ensures typed { OnOk result (IsTyped self.old → IsTyped self.new) }
        ensures err { OnErr result (self.new ≡ self.old) }
    {
        let data = &mut self.blocks[block.0 as usize];
        let place = push_type(self.alloc, &mut data.args, ty)?;
        Ok(place)
    }

    /// Names an operation: what `op_name` answers. In this stage this takes no memory.
    pub fn set_name(&mut self, op: OpRef, name: Identifier) -> Result<(), AllocError>
        requires { op.0 < length self.old.ops }
        ensures ok { OnOk result (self.new ≡ with_name self.old op name) }
        ensures data { OnOk result (slice_get self.old.parents op.0 ≡ Some None → (m : ℕ) → ¬ (m ≡ op.0) → data_of self.new m ≡ data_of self.old m) }
        ensures typed { OnOk result (IsTyped self.old → IsTyped self.new) }
        ensures err { OnErr result (self.new ≡ self.old) }
    {
        self.ops[op.0 as usize].name = Some(name);
        Ok(())
    }

    /// Sets the LLVM name of a function: what `llvm_symbol_name` answers.
    pub fn set_llvm_symbol_name(&mut self, op: OpRef, name: &str) -> Result<(), AllocError>
        requires { IsSymbol self.old.ops op }
        ensures ok { OnOk result (self.new ≡ with_llvm_name self.old op name.now) }
        ensures data { OnOk result ((m : ℕ) → data_of self.new m ≡ with_func_llvm_name (data_of self.old m) op.0 name.now) }
        ensures typed { OnOk result (IsTyped self.old → IsTyped self.new) }
        ensures err { OnErr result (self.new ≡ self.old) }
    {
        let symbol = Symbol {
            ty: self.symbol_type(op),
            linkage: self.symbol_linkage(op),
            llvm_name: Some(Text::copy(self.alloc, name)?),
        };
        let symbol = SymbolBox::new(self.alloc, symbol)?;
        self.ops[op.0 as usize].symbol = Some(symbol);
        Ok(())
    }

    /// Puts an operation that stands in no block last into one.
    pub fn insert_at_back<L: Ledger>(&mut self, op: OpRef, block: BlockRef, _steps: &mut Steps<L>)
        requires free { slice_get self.old.parents op.0 ≡ Some None }
        requires block { block.0 < length self.old.blocks }
        requires stands { StandsIn self.old.ops self.old.blocks op block }
        ensures appended { self.new ≡ with_appended self.old op block }

        // An operation becomes the last of its block, a function the last of the module that holds the block.
        ensures data_op { (d : DialectOp) → op_at (type_trees self.old.types) self.old.ops op ≡ Some d → (m : ℕ) → data_of self.new m ≡ with_block_op (data_of self.old m) block.0 d }
        ensures data_func { (f : Func) → func_in (type_trees self.old.types) self.old op ≡ Some f → (m : ℕ) → region_at self.old.ops m ≡ block ∷ [] → data_of self.new m ≡ with_func (data_of self.old m) f }
        ensures data_other { (f : Func) → func_in (type_trees self.old.types) self.old op ≡ Some f → (m : ℕ) → All (λ b. ¬ (b.0 ≡ block.0)) (region_at self.old.ops m) → data_of self.new m ≡ data_of self.old m }
        ensures typed { IsTyped self.old → IsTyped self.new }
    {
        self.lists.append(op, block);
    }

    /// Keeps a new operation, and answers its number.
    #[inline(always)]
    fn add(&mut self, op_data: OpData) -> Result<OpRef, AllocError>
        requires within { IsOpWithin (length self.old.ops) (length self.old.blocks) op_data }
        requires no_region { op_data.blocks ≡ [] }
        ensures ok { OnOk result (self.new ≡ with_op self.old op_data) }
        ensures number { IfOk result (λ o. o.0 ≡ length self.old.ops) }
        ensures free { IfOk result (λ o. slice_get self.new.parents o.0 ≡ Some None) }
        ensures data { OnOk result ((m : ℕ) → m < length self.old.ops → data_of self.new m ≡ data_of self.old m) }
        ensures typed { OnOk result (IsTyped self.old → IsTypedOp (length self.old.types) op_data → IsTyped self.new) }
        ensures err { OnErr result (self.new ≡ self.old) }
    {
        self.ops.reserve(1)?;
        let op = self.lists.add_op()?;
        match self.ops.push(op_data) {
            Ok(()) => Ok(op),
            Err(_) => unreachable!(),
        }
    }
}

/// The data of an operation without operands, successors, result and blocks.
fn bare(alloc: Global, kind: OpKind, name: Option<Identifier>, symbol: Option<SymbolBox>) -> OpData
    ensures { result ≡ record { kind = kind; name = name; operands = []; successors = []; result = None; symbol = symbol; blocks = [] } }
{
    OpData {
        kind,
        name,
        operands: ShortList::zero(),
        successors: Items::new(alloc),
        result: None,
        symbol,
        blocks: ShortList::zero(),
    }
}

/// The data of an operation other than a module and a function, without a name.
fn plain(
    alloc: Global,
    kind: OpKind,
    operands: &[Value],
    successors: &[Successor],
    result_ty: Option<TypeHandle>,
) -> Result<OpData, AllocError>
    ensures { IfOk result (λ x. x ≡ record { kind = kind; name = None; operands = operands.now; successors = successors.now; result = result_ty; symbol = None; blocks = [] }) }
{
    let operands = ShortList::from_slice(alloc, operands)?;
    let successors = copy_successors(alloc, successors)?;
    Ok(OpData {
        kind,
        name: None,
        operands,
        successors,
        result: result_ty,
        symbol: None,
        blocks: ShortList::zero(),
    })
}

/// Appends a type, and answers its place.
fn push_type(
    alloc: Global,
    args: &mut ShortList<TypeHandle>,
    ty: TypeHandle,
) -> Result<u32, AllocError>
    ensures ok { OnOk result (args.new ≡ args.old ++ ty ∷ []) }
    ensures place { IfOk result (λ place. place ≡ length args.old) }
    ensures err { OnErr result (args.new ≡ args.old) }
{
    let place = args.as_slice().len();
    if place >= u32::MAX as usize {
        return Err(AllocError);
    }
    args.push(alloc, ty)?;
    Ok(place as u32)
}

fn copy_successors(alloc: Global, successors: &[Successor]) -> Result<Items<Successor>, AllocError>
    ensures { IfOk result (λ xs. xs ≡ successors.now) }
{
    let mut copies = Items::from_vec(Vec::with_capacity(alloc, successors.len())?);
    for s in successors {
        let args = ShortList::from_slice(alloc, s.args.as_slice())?;
        copies.push(Successor {
            block: s.block,
            args,
        })?;
    }
    Ok(copies)
}
