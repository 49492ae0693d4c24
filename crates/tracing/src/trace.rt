//! What a run shows.

use crate::table::TermTable;
use crate::type_table::TypeTable;
use kinds::op::Op;
use llvm_core::numbers::LLVMType;
use support::items::Items;

/// The types of the result and of the operands of an instruction, as places of a table.
#[derive(Drop)]
pub struct Types {
    pub result: LLVMType,
    pub operands: Items<LLVMType>,
}

/// An item of a trace.
#[derive(Drop)]
pub enum TraceItem {
    /// A block that is entered, by its place in the body.
    Block(u32),
    /// An event, whose types are places of the table of types, and its operands places of the table of terms.
    Event {
        op: Op,
        types: Types,
        operands: Vec<u32>,
    },
}

/// The blocks that a run enters and its events, and the types and terms that these name.
#[derive(Drop)]
pub struct Trace {
    pub types: TypeTable,
    pub terms: TermTable,
    pub items: Vec<TraceItem>,
}
