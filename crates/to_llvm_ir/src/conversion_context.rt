//! What an export holds while it goes on: the module that is built, and what is known of the function at hand.

ghost use Rattle.std.specs.Prelude.{◌≡◌, [], IfOk, None};
ghost use Rattle.llvm_core.specs.Data.{data_of};
ghost use Rattle.to_llvm_ir.specs.States.{found, found_block};

use crate::blocks::Blocks;
use crate::guesses::Guesses;
use crate::values::Values;
use dialect_core::numbers::OpRef;
use llvm_core::module::LLVMModule;
use std::alloc::{AllocError, Global};

/// The module that is built, and what stands for the blocks and the values of the function at hand.
#[derive(Drop)]
pub struct ConversionContext {
    alloc: Global,
    /// The module that is built.
    pub(crate) module: LLVMModule,
    /// What the blocks of the function became so far.
    pub(crate) blocks: Blocks,
    /// What the values of the function became so far.
    pub(crate) values: Values,
    /// The operations of the block at hand.
    pub(crate) ops: Vec<OpRef>,
    /// Where types were found in the module.
    pub(crate) guesses: Guesses,
}

impl ConversionContext {
    /// An empty module of that name, and no function at hand.
    pub fn new(alloc: Global, name: &str) -> Result<ConversionContext, AllocError>
        ensures module_data { IfOk result (λ c. data_of c.module ≡ record { name = name.now; structs = []; functions = [] }) }
        ensures no_blocks { IfOk result (λ c. (b : _) → found_block c.blocks b ≡ None) }
        ensures no_values { IfOk result (λ c. (v : _) → found c.values v ≡ None) }
        ensures next { IfOk result (λ c. c.values.next ≡ 0) }
    {
        let module = LLVMModule::new(alloc, name)?;
        Ok(ConversionContext {
            alloc,
            module,
            blocks: Blocks::new(alloc),
            values: Values::new(alloc),
            ops: Vec::new(alloc),
            guesses: Guesses::new(),
        })
    }

    /// Forgets the blocks and the values of the function at hand; the module stays. Both begin with new maps, since
    /// what it takes to empty a map grows with the largest function that it ever held.
    pub fn clear_per_function_data(&mut self)
        ensures stays { self.new.module ≡ self.old.module }
        ensures no_blocks { (b : _) → found_block self.new.blocks b ≡ None }
        ensures no_values { (v : _) → found self.new.values v ≡ None }
        ensures next { self.new.values.next ≡ 0 }
    {
        self.blocks = Blocks::new(self.alloc);
        self.values = Values::new(self.alloc);
    }
}
