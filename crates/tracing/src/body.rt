//! What runs see of the body of a function, whichever side it is of.

use crate::table::TermTable;
use crate::trace::Types;
use crate::type_table::TypeTable;
use kinds::op::Op;
use llvm_core::numbers::LLVMType;
use support::items::Items;

/// What sets a term in a run.
#[derive(Clone, Copy, PartialEq, Eq, Hash, Debug, Drop)]
pub enum Slot {
    /// What is handed to a function or to a block of a number, by its place: a parameter or an argument.
    Input(u32, u32),
    /// The result of the instruction or operation of a number.
    Result(u32),
}

/// An operand.
#[derive(Clone, Copy, Drop)]
pub enum Source {
    At(Slot),
    /// A constant, which is a place of the table of terms.
    Fixed(u32),
}

/// What an instruction or operation does.
#[derive(Drop)]
pub enum Action {
    /// It holds a constant, which is a place of the table of terms.
    Holds(u32),
    /// It applies a row of the table to operands.
    Applies {
        op: Op,
        types: Types,
        operands: Items<Source>,
    },
}

/// An instruction that is no phi, or an operation.
#[derive(Drop)]
pub struct Row {
    pub action: Action,
    pub result: Slot,
}

/// An edge: the place of the block where it leads, and in order what the phis or arguments there take.
#[derive(Drop)]
pub struct Edge {
    pub to: u32,
    pub sources: Items<Option<Source>>,
}

/// A block: its instructions that are no phis, or its operations, and its edges.
#[derive(Drop)]
pub struct Block {
    /// What it does, in order.
    pub rows: Items<Row>,
    /// Where its terminator leads, in the order of its targets.
    pub edges: Items<Edge>,
}

/// The code of a body: the phis or arguments of each block, and its blocks.
#[derive(Drop)]
pub struct Code {
    /// Of each block, by its number, what its phis or arguments are set in.
    pub params: Items<Items<Slot>>,
    /// The blocks by their numbers, the first of which is entered first.
    pub blocks: Items<Block>,
}

/// A body: the types that its rows and edges name and the terms of their constants, what its parameters are handed to and how many
/// there are, and its code.
#[derive(Drop)]
pub struct Body {
    pub types: TypeTable,
    pub terms: TermTable,
    pub holder: u32,
    pub inputs: u32,
    pub code: Code,
}
