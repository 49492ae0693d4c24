//! What a translation of a module hands out.

use dialect_core::context::Context;
use dialect_core::numbers::ModuleOp;
use dialect_types::identifier::Identifier;
use from_llvm_ir::matching::FunctionBlocks;
use llvm_core::module::LLVMModule;
use support::items::Items;

/// A dialect module in its context, the module of LLVM that was made of it, the match of blocks, and the structs with a name that
/// values hold, with their names in the dialect.
#[derive(Drop)]
pub struct Transferred {
    pub ctx: Context,
    pub dialect: ModuleOp,
    pub back: LLVMModule,
    pub blocks: Items<FunctionBlocks>,
    pub structs: Vec<(String, Identifier)>,
}
