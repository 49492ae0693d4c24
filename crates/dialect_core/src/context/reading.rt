//! What a context answers of its operations and blocks.

ghost use Rattle.std.specs.Prelude.{◌≡◌, is_some, ◌<◌, IfOk, IfSome, Some, All, length, slice_get};
ghost use Rattle.std.specs.Option.{option_map, option_copied};
ghost use Rattle.dialect_core.specs.Lists.{AllApart, next_in, prev_in, list_at};
ghost use Rattle.dialect_core.specs.Data.{held};
ghost use Rattle.dialect_core.specs.ContextData.{is_func, IsValueWithin, IsSuccessorWithin, IsSymbol, llvm_name_at, symbol_at, parent_of};

use super::Context;
use crate::linkage::LinkageAttr;
use crate::numbers::{BlockRef, OpRef};
use crate::ops::{OpData, OpKind, Successor, Symbol, Value};
use dialect_types::identifier::Identifier;
use dialect_types::types::TypeHandle;
use std::alloc::AllocError;

impl Context {
    /// The first operation of a block, None where it has none.
    pub fn first_op(&self, block: BlockRef) -> Option<OpRef>
        requires { block.0 < length self.now.blocks }
        ensures first { result ≡ slice_get (list_at self.now.lists block) 0 }
        ensures within { IfSome result (λ o. o.0 < length self.now.ops) }

        // So `next_op` walks the block's list: the operation after that at a place stands at the next place.
        ensures apart { AllApart (list_at self.now.lists block) }
        ensures standing { All (λ o. slice_get self.now.parents o.0 ≡ Some (Some block)) (list_at self.now.lists block) }
    {
        self.lists.first(block)
    }

    /// The operation after another in its block, None after the last and for one in no block.
    pub fn next_op(&self, op: OpRef) -> Option<OpRef>
        requires { op.0 < length self.now.ops }
        ensures next { result ≡ next_in (record { parents = self.now.parents; lists = self.now.lists }) op }
        ensures within { IfSome result (λ o. o.0 < length self.now.ops) }
    {
        self.lists.next(op)
    }

    /// The operation before another in its block, None before the first and for one in no block.
    pub fn prev_op(&self, op: OpRef) -> Option<OpRef>
        requires { op.0 < length self.now.ops }
        ensures prev { result ≡ prev_in (record { parents = self.now.parents; lists = self.now.lists }) op }
        ensures within { IfSome result (λ o. o.0 < length self.now.ops) }
    {
        self.lists.prev(op)
    }

    /// The operations of a block in order.
    pub fn block_ops(&self, block: BlockRef) -> Result<Vec<OpRef>, AllocError>
        requires { block.0 < length self.now.blocks }
        ensures ops { IfOk result (λ ops. ops.items ≡ list_at self.now.lists block) }
        ensures within { IfOk result (λ ops. All (λ o. o.0 < length self.now.ops) ops.items) }
    {
        let mut ops = Vec::new(self.alloc);
        let mut next = self.first_op(block);
        while let Some(op) = next {
            ops.push(op)?;
            next = self.next_op(op);
        }
        Ok(ops)
    }

    /// The operations of the blocks of an operation's region, block after block.
    pub fn held_ops(&self, op: OpRef) -> Result<Vec<OpRef>, AllocError>
        requires { op.0 < length self.now.ops }
        ensures ops { IfOk result (λ ops. ops.items ≡ held self.now op.0) }
        ensures within { IfOk result (λ ops. All (λ o. o.0 < length self.now.ops) ops.items) }
    {
        let mut held = Vec::new(self.alloc);
        for block in self.op_blocks(op) {
            let ops = self.block_ops(*block)?;
            held.extend_from_slice(ops.as_slice())?;
        }
        Ok(held)
    }

    /// The block that an operation stands in, None where it stands in none.
    pub fn parent_block(&self, op: OpRef) -> Option<BlockRef>
        requires { op.0 < length self.now.ops }
        ensures parent { slice_get self.now.parents op.0 ≡ Some result }
        ensures within { IfSome result (λ b. b.0 < length self.now.blocks) }
    {
        self.lists.parent(op)
    }

    /// The operation that holds the block that an operation stands in.
    pub fn parent_op(&self, op: OpRef) -> Option<OpRef>
        requires { op.0 < length self.now.ops }
        ensures parent { result ≡ parent_of self.now op }
        ensures within { IfSome result (λ o. o.0 < length self.now.ops) }
    {
        let block = self.parent_block(op)?;
        Some(self.block_holder(block))
    }

    /// An operation as it is kept.
    pub fn op_data(&self, op: OpRef) -> &OpData
        requires { op.0 < length self.now.ops }
        ensures { slice_get self.now.ops op.0 ≡ Some result.now }
    {
        &self.ops[op.0 as usize]
    }

    /// What an operation is.
    pub fn op_kind(&self, op: OpRef) -> &OpKind
        requires { op.0 < length self.now.ops }
        ensures kind { option_map (λ x. x.kind) (slice_get self.now.ops op.0) ≡ Some result.now }

        // A function, and no other operation, has a type and a linkage.
        ensures symbol { is_func result.now ≡ is_some (symbol_at self.now.ops op) }
    {
        &self.ops[op.0 as usize].kind
    }

    /// The operands of an operation in order.
    pub fn op_operands(&self, op: OpRef) -> &[Value]
        requires { op.0 < length self.now.ops }
        ensures operands { option_map (λ x. x.operands) (slice_get self.now.ops op.0) ≡ Some result.now }
        ensures within { All (IsValueWithin (length self.now.ops) (length self.now.blocks)) result.now }
    {
        self.ops[op.0 as usize].operands.as_slice()
    }

    /// Where an operation leads, in order.
    pub fn op_successors(&self, op: OpRef) -> &[Successor]
        requires { op.0 < length self.now.ops }
        ensures successors { option_map (λ x. x.successors) (slice_get self.now.ops op.0) ≡ Some result.now }
        ensures within { All (IsSuccessorWithin (length self.now.ops) (length self.now.blocks)) result.now }
    {
        self.ops[op.0 as usize].successors.as_slice()
    }

    /// The type of an operation's result, None where it has no result.
    pub fn result_type(&self, op: OpRef) -> Option<TypeHandle>
        requires { op.0 < length self.now.ops }
        ensures { option_map (λ x. x.result) (slice_get self.now.ops op.0) ≡ Some result }
    {
        self.ops[op.0 as usize].result
    }

    /// The blocks of an operation's region in order.
    pub fn op_blocks(&self, op: OpRef) -> &[BlockRef]
        requires { op.0 < length self.now.ops }
        ensures blocks { option_map (λ x. x.blocks) (slice_get self.now.ops op.0) ≡ Some result.now }
        ensures within { All (λ b. b.0 < length self.now.blocks) result.now }
    {
        self.ops[op.0 as usize].blocks.as_slice()
    }

    /// The types of a block's arguments in order.
    pub fn block_args(&self, block: BlockRef) -> &[TypeHandle]
        requires { block.0 < length self.now.blocks }
        ensures { option_map (λ x. x.args) (slice_get self.now.blocks block.0) ≡ Some result.now }
    {
        self.blocks[block.0 as usize].args.as_slice()
    }

    /// The label of a block, None where it has none.
    pub fn block_label(&self, block: BlockRef) -> Option<&Identifier>
        requires { block.0 < length self.now.blocks }
        ensures { option_map (λ x. x.label) (slice_get self.now.blocks block.0) ≡ Some (option_copied result) }
    {
        self.blocks[block.0 as usize].label.as_ref()
    }

    /// The operation that holds a block.
    pub fn block_holder(&self, block: BlockRef) -> OpRef
        requires { block.0 < length self.now.blocks }
        ensures holder { option_map (λ x. x.holder) (slice_get self.now.blocks block.0) ≡ Some result }
        ensures within { result.0 < length self.now.ops }
    {
        self.blocks[block.0 as usize].holder
    }

    /// The symbol of a module or function; the given name of any other operation's result.
    pub fn op_name(&self, op: OpRef) -> Option<&Identifier>
        requires { op.0 < length self.now.ops }
        ensures { option_map (λ x. x.name) (slice_get self.now.ops op.0) ≡ Some (option_copied result) }
    {
        self.ops[op.0 as usize].name.as_ref()
    }

    /// Whether an operation has a type and a linkage, as a function has.
    pub fn has_symbol(&self, op: OpRef) -> bool
        requires { op.0 < length self.now.ops }
        ensures { option_map (λ x. is_some x.symbol) (slice_get self.now.ops op.0) ≡ Some result }
    {
        self.ops[op.0 as usize].symbol.is_some()
    }

    /// The type of a function.
    pub fn symbol_type(&self, op: OpRef) -> TypeHandle
        requires { IsSymbol self.now.ops op }
        ensures { option_map (λ s. s.ty) (symbol_at self.now.ops op) ≡ Some result }
    {
        self.symbol(op).ty
    }

    /// The linkage of a function.
    pub fn symbol_linkage(&self, op: OpRef) -> LinkageAttr
        requires { IsSymbol self.now.ops op }
        ensures { option_map (λ s. s.linkage) (symbol_at self.now.ops op) ≡ Some result }
    {
        self.symbol(op).linkage
    }

    /// The LLVM name that was set of a function, None until it is set and for any other operation.
    pub fn llvm_symbol_name(&self, op: OpRef) -> Option<&str>
        requires { op.0 < length self.now.ops }
        ensures { option_copied result ≡ llvm_name_at self.now.ops op }
    {
        match &self.ops[op.0 as usize].symbol {
            Some(symbol) => match &symbol.symbol().llvm_name {
                Some(name) => Some(name.as_str()),
                None => None,
            },
            None => None,
        }
    }

    /// What a function has that no other operation has.
    fn symbol(&self, op: OpRef) -> &Symbol
        requires { IsSymbol self.now.ops op }
        ensures { symbol_at self.now.ops op ≡ Some result.now }
    {
        match &self.ops[op.0 as usize].symbol {
            Some(symbol) => symbol.symbol(),
            None => unreachable!(),
        }
    }
}
