//! The call that gives a function a whole body.

ghost use Rattle.std.specs.Prelude.{◌≡◌, ◌<◌, OnErr, OnOk, length};
ghost use Rattle.llvm_core.specs.Bodies.{IsBodyOf, added, body_data, with_blocks};
ghost use Rattle.llvm_core.specs.Data.{data_of};
ghost use Rattle.llvm_core.specs.Sound.{IsModule};

use super::LLVMModule;
use crate::bodies::BodyBlock;
use crate::numbers::LLVMFunction;
use std::alloc::AllocError;
use support::items::Items;

impl LLVMModule {
    /// Makes room for so many more blocks and instructions. It is a wish: where there is no memory for it, they find theirs
    /// when they are added.
    pub fn make_room(&mut self, blocks: usize, insts: usize)
        ensures { self.new ≡ self.old }
    {
        self.code.make_room(blocks, insts);
    }

    /// Gives a function blocks and instructions behind those that it has: the blocks have the next free numbers in order, and so have the instructions, which may name what stands later.
    pub fn add_body(&mut self, f: LLVMFunction, body: Items<BodyBlock>) -> Result<(), AllocError>
        requires function { f.0 < length self.old.functions }
        requires body { IsBodyOf self.old f body }
        ensures ok { OnOk result (self.new ≡ added self.old f body) }
        ensures err { OnErr result (self.new ≡ self.old) }
        ensures data { OnOk result (data_of self.new ≡ with_blocks (data_of self.old) f.0 (body_data self.old body)) }
        ensures sound { IsModule self.new }
    {
        self.code.add_body(f, body)?;
        Ok(())
    }
}
