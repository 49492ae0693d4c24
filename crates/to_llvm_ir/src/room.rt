//! How much room the module back gets before it is built.

ghost use Rattle.std.specs.Prelude.{◌≡◌};

use dialect_core::context::Context;
use dialect_core::numbers::{BlockRef, OpRef};
use dialect_core::ops::OpKind;
use llvm_core::module::LLVMModule;

/// Makes room for what stands for the operations of a context: an instruction for each row, and a phi for each argument of
/// a block but the first of its function.
pub fn make_room(ctx: &Context, back: &mut LLVMModule)
    ensures { back.new ≡ back.old }
{
    let (ops, blocks) = (ctx.op_count(), ctx.block_count());
    if ops.max(blocks) > u32::MAX as usize {
        return;
    }
    let mut insts: usize = 0;
    for op in 0..ops as u32 {
        if let OpKind::Row(_) = ctx.op_kind(OpRef(op)) {
            insts = insts.saturating_add(1);
        }
    }
    for block in 0..blocks as u32 {
        let args = ctx.block_args(BlockRef(block)).len();
        if args > 0 && !ctx.is_first_block(BlockRef(block)) {
            insts = insts.saturating_add(args);
        }
    }
    back.make_room(blocks, insts);
}
