//! The functions, blocks and instructions of a module, under their numbers.

ghost use Rattle.std.specs.Prelude.{◌≡◌, ◌<◌, ◌+◌, ◌^◌, IfOk, IsTrue, OnErr, OnOk, Some, [], length, slice_get};
ghost use Rattle.std.specs.Option.{option_map};
ghost use Rattle.support.specs.Changes.{with_change};
ghost use Rattle.llvm_core.specs.Code.{with_function, with_param_name, with_block, with_inst, with_operand, with_entry, with_changed_inst, param_names};
ghost use Rattle.llvm_core.specs.Bodies.{with_body, with_lists};
ghost use Rattle.llvm_core.specs.Parts.{IsPhi, is_phi, operands};

use crate::bodies::{BodyBlock, Numbered, append_reserved, number_body, reserve_behind};
use crate::code::{BlockData, FunctionData, InstData, LLVMInst, LLVMValue, PhiEntry};
use crate::numbers::{LLVMBasicBlock, LLVMFunction, LLVMInstRef, LLVMType};
use std::alloc::{AllocError, Global};
use std::marker::Model;
use support::items::Items;
use support::short_list::{ShortList, append_both};
use support::text::Text;

/// The functions, blocks and instructions of a module, seen as their lists.
#[derive(Drop)]
pub struct CodeStore {
    alloc: Global,
    functions: Vec<FunctionData>,
    blocks: Vec<BlockData>,
    insts: Vec<InstData>,
}

impl Model for CodeStore {
    ghost use Rattle.llvm_core.specs.Code.{Code, IsFew};

    ghost Value = { Code };

    ghost view = { λ c. record {
      functions = c.functions.items;
      blocks = c.blocks.items;
      insts = c.insts.items;
    } };

    ghost invariant = { λ c. IsFew (record {
      functions = c.functions.items;
      blocks = c.blocks.items;
      insts = c.insts.items;
    }) };
}

impl CodeStore {
    pub fn new(alloc: Global) -> CodeStore
        ensures { result ≡ record { functions = []; blocks = []; insts = [] } }
    {
        CodeStore {
            alloc,
            functions: Vec::new(alloc),
            blocks: Vec::new(alloc),
            insts: Vec::new(alloc),
        }
    }

    /// Makes room for so many more blocks and instructions, where there is memory for it.
    pub fn make_room(&mut self, blocks: usize, insts: usize)
        ensures { self.new ≡ self.old }
    {
        let _ = self.blocks.reserve(blocks);
        let _ = self.insts.reserve(insts);
    }

    /// Appends a function without blocks.
    pub fn add_function(
        &mut self,
        name: &str,
        ty: LLVMType,
        space: u32,
        params: Items<Text>,
    ) -> Result<LLVMFunction, AllocError>
        ensures number { IfOk result (λ f. f.0 ≡ length self.old.functions) }
        ensures ok { OnOk result (self.new ≡ with_function self.old (record { name = name.now; ty = ty; space = space; params = params; blocks = [] })) }
        ensures err { OnErr result (self.new ≡ self.old) }
    {
        let at = self.functions.len();
        if at >= u32::MAX as usize {
            return Err(AllocError);
        }
        let name = Text::copy(self.alloc, name)?;
        let blocks = ShortList::zero();
        self.functions.push(FunctionData {
            name,
            ty,
            space,
            params,
            blocks,
        })?;
        Ok(LLVMFunction(at as u32))
    }

    /// Names a parameter.
    pub fn set_param_name(
        &mut self,
        f: LLVMFunction,
        place: u32,
        name: &str,
    ) -> Result<(), AllocError>
        requires { place < length (param_names self.old.functions f) }
        ensures ok { OnOk result (self.new ≡ with_param_name self.old f place name.now) }
        ensures err { OnErr result (self.new ≡ self.old) }
    {
        let name = Text::copy(self.alloc, name)?;
        self.functions[f.0 as usize]
            .params
            .set(place as usize, name);
        Ok(())
    }

    /// Appends a block without instructions.
    pub fn append_block(
        &mut self,
        f: LLVMFunction,
        name: &str,
    ) -> Result<LLVMBasicBlock, AllocError>
        requires { f.0 < length self.old.functions }
        ensures number { IfOk result (λ b. b.0 ≡ length self.old.blocks) }
        ensures ok { IfOk result (λ b. self.new ≡ with_block self.old f b name.now) }
        ensures err { OnErr result (self.new ≡ self.old) }
    {
        let at = self.blocks.len();
        if at >= u32::MAX as usize {
            return Err(AllocError);
        }
        let name = Text::copy(self.alloc, name)?;
        let number = LLVMBasicBlock(at as u32);
        let insts = ShortList::zero();
        let function = &mut self.functions[f.0 as usize];
        append_both(
            self.alloc,
            &mut self.blocks,
            &mut function.blocks,
            BlockData {
                name,
                function: f,
                insts,
            },
            number,
        )?;
        Ok(number)
    }

    /// Appends an instruction to a block.
    pub fn append_inst(
        &mut self,
        block: LLVMBasicBlock,
        name: &str,
        ty: LLVMType,
        inst: LLVMInst,
    ) -> Result<LLVMInstRef, AllocError>
        requires { block.0 < length self.old.blocks }
        ensures number { IfOk result (λ i. i.0 ≡ length self.old.insts) }
        ensures ok { IfOk result (λ i. self.new ≡ with_inst self.old block i name.now ty inst) }
        ensures err { OnErr result (self.new ≡ self.old) }
    {
        let at = self.insts.len();
        if at >= u32::MAX as usize {
            return Err(AllocError);
        }
        let name = Text::copy(self.alloc, name)?;
        let number = LLVMInstRef(at as u32);
        self.insts.reserve(1)?;
        let row = &mut self.blocks[block.0 as usize];
        row.insts.push(self.alloc, number)?;
        self.insts.push_reserved(InstData {
            name,
            block,
            ty,
            inst,
        });
        Ok(number)
    }

    /// Appends a body to a function.
    pub fn add_body(&mut self, f: LLVMFunction, body: Items<BodyBlock>) -> Result<(), AllocError>
        requires { f.0 < length self.old.functions }
        ensures ok { OnOk result (self.new ≡ with_body self.old f body) }
        ensures err { OnErr result (self.new ≡ self.old) }
    {
        let numbered = number_body(self.alloc, f, body, self.block_count(), self.inst_count())?;
        self.append_numbered(f, numbered)
    }

    /// Appends what a body becomes to all three lists, or leaves them.
    fn append_numbered(&mut self, f: LLVMFunction, body: Numbered) -> Result<(), AllocError>
        requires function { f.0 < length self.old.functions }
        requires few_blocks { length self.old.blocks + length body.blocks.items < 2 ^ 32 }
        requires few_insts { length self.old.insts + length body.insts.items < 2 ^ 32 }
        ensures ok { OnOk result (self.new ≡ with_lists self.old f body.numbers body.blocks.items body.insts.items) }
        ensures err { OnErr result (self.new ≡ self.old) }
    {
        let Numbered {
            numbers,
            blocks,
            insts,
        } = body;
        reserve_behind(&mut self.blocks, blocks.len())?;
        reserve_behind(&mut self.insts, insts.len())?;
        let function = &mut self.functions[f.0 as usize];
        function.blocks.append(self.alloc, numbers.as_slice())?;
        append_reserved(&mut self.blocks, blocks);
        append_reserved(&mut self.insts, insts);
        Ok(())
    }

    /// Puts a value in place of an operand.
    pub fn set_operand(&mut self, i: LLVMInstRef, place: u32, value: LLVMValue)
        requires { (x : _) × (slice_get self.old.insts i.0 ≡ Some x) × (place < length (operands x.inst)) }
        ensures { self.new ≡ with_changed_inst self.old i (λ inst. with_operand inst place value) }
    {
        put_operand(&mut self.insts[i.0 as usize].inst, place, value);
    }

    /// Appends an entry to a phi.
    pub fn add_incoming(&mut self, phi: LLVMInstRef, entry: PhiEntry) -> Result<(), AllocError>
        requires { IsPhi self.old.insts phi }
        ensures ok { OnOk result (self.new ≡ with_changed_inst self.old phi (λ inst. with_entry inst entry)) }
        ensures err { OnErr result (self.new ≡ self.old) }
    {
        push_entry(self.alloc, &mut self.insts[phi.0 as usize].inst, entry)
    }

    pub fn function_count(&self) -> u32
        ensures { result ≡ length self.now.functions }
    {
        self.functions.len() as u32
    }

    pub fn block_count(&self) -> u32
        ensures { result ≡ length self.now.blocks }
    {
        self.blocks.len() as u32
    }

    pub fn inst_count(&self) -> u32
        ensures { result ≡ length self.now.insts }
    {
        self.insts.len() as u32
    }

    pub fn function(&self, f: LLVMFunction) -> &FunctionData
        requires { f.0 < length self.now.functions }
        ensures { slice_get self.now.functions f.0 ≡ Some result.now }
    {
        &self.functions[f.0 as usize]
    }

    pub fn block(&self, b: LLVMBasicBlock) -> &BlockData
        requires { b.0 < length self.now.blocks }
        ensures { slice_get self.now.blocks b.0 ≡ Some result.now }
    {
        &self.blocks[b.0 as usize]
    }

    pub fn inst(&self, i: LLVMInstRef) -> &InstData
        requires { i.0 < length self.now.insts }
        ensures { slice_get self.now.insts i.0 ≡ Some result.now }
    {
        &self.insts[i.0 as usize]
    }
}

/// Puts a value in place of an operand of an instruction.
fn put_operand(inst: &mut LLVMInst, place: u32, value: LLVMValue)
    requires { place < length (operands inst.old) }
    ensures { inst.new ≡ with_operand inst.old place value }
{
    match inst {
        LLVMInst::Phi(_, entries) => put_entry(entries, place, value),
        LLVMInst::Row(row) => row.operands.set(place as usize, value),
    }
}

/// Puts a value in place of that of an entry.
fn put_entry(entries: &mut ShortList<PhiEntry>, place: u32, value: LLVMValue)
    requires { place < length entries.old }
    ensures { entries.new ≡ with_change (λ e. record e { value = value }) place entries.old }
{
    let block = entries.as_slice()[place as usize].block;
    entries.set(place as usize, PhiEntry { value, block });
}

/// Appends an entry to a phi.
fn push_entry(alloc: Global, inst: &mut LLVMInst, entry: PhiEntry) -> Result<(), AllocError>
    requires { IsTrue (is_phi inst.old) }
    ensures ok { OnOk result (inst.new ≡ with_entry inst.old entry) }
    ensures err { OnErr result (inst.new ≡ inst.old) }
{
    match inst {
        LLVMInst::Phi(_, entries) => entries.push(alloc, entry),
        _ => unreachable!(),
    }
}
