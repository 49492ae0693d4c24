//! Functions, blocks and instructions, as a module keeps them.

ghost use Rattle.std.specs.Prelude.{◌≡◌};

use crate::numbers::{LLVMBasicBlock, LLVMConst, LLVMFunction, LLVMInstRef, LLVMType};
pub use kinds::op::{LLVMIntPredicate, Op, OverflowFlags};
use support::items::Items;
use support::short_list::ShortList;
use support::text::Text;

/// What an operand names.
#[derive(Clone, Copy, PartialEq, Eq, Hash, Debug, Drop)]
pub enum LLVMValue {
    Const(LLVMConst),
    /// The parameter of a function at a place, counted from 0.
    Param(LLVMFunction, u32),
    /// The result of an instruction.
    Inst(LLVMInstRef),
}

/// An entry of a phi: the value that it takes on an edge from the block.
#[derive(Clone, Copy, PartialEq, Eq, Debug, Drop)]
pub struct PhiEntry {
    pub value: LLVMValue,
    pub block: LLVMBasicBlock,
}

/// An instruction that is no phi: a row of the table with its immediates, and all that it names.
#[derive(Drop)]
pub struct Row {
    pub op: Op,
    /// The type that is written beside the operands, as that of a cast.
    pub written: Option<LLVMType>,
    pub operands: ShortList<LLVMValue>,
    /// The blocks that it leads to, in order.
    pub targets: ShortList<LLVMBasicBlock>,
}

/// An instruction.
#[derive(Drop)]
pub enum LLVMInst {
    /// `phi` of a type, with its entries in order (Language Reference, "phi" Instruction).
    Phi(LLVMType, ShortList<PhiEntry>),
    /// Any other instruction, as its row.
    Row(Row),
}

/// A function of a module. The name of a parameter without one is empty.
#[derive(Drop)]
pub struct FunctionData {
    pub name: Text,
    pub ty: LLVMType,
    pub space: u32,
    pub params: Items<Text>,
    pub blocks: ShortList<LLVMBasicBlock>,
}

/// A block of a module, with the function that holds it.
#[derive(Drop)]
pub struct BlockData {
    pub name: Text,
    pub function: LLVMFunction,
    pub insts: ShortList<LLVMInstRef>,
}

/// An instruction of a module, with the block that holds it and the type of its result.
#[derive(Drop)]
pub struct InstData {
    pub name: Text,
    pub block: LLVMBasicBlock,
    pub ty: LLVMType,
    pub inst: LLVMInst,
}

impl InstData {
    /// An instruction of a body, which a module puts into its block once it gets the body.
    pub fn unplaced(name: Text, ty: LLVMType, inst: LLVMInst) -> InstData
        ensures { result ≡ record { name = name; block = record { 0 = 0 }; ty = ty; inst = inst } }
    {
        InstData {
            name,
            block: LLVMBasicBlock(0),
            ty,
            inst,
        }
    }
}
