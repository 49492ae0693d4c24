//! The match of blocks that a translation hands out.

use llvm_core::numbers::LLVMFunction;
use support::short_list::ShortList;

/// The place in the dialect of each block of a source function, in the source's order.
#[derive(Drop)]
pub struct FunctionBlocks {
    pub function: LLVMFunction,
    pub places: ShortList<u32>,
}
