//! Whether a module is one that an export reads.

ghost use Rattle.std.specs.Prelude.{◌<◌, ◌↔◌, IsTrue, length};
ghost use Rattle.dialect_core.specs.Data.{IsTyped};
ghost use Rattle.dialect_core.specs.WellFormed.{IsWellFormed, IsNarrow};
ghost use Rattle.to_llvm_ir.specs.Held.{IsReadable};

use crate::narrow::are_narrow_funcs;
use dialect_core::context::Context;
use dialect_core::numbers::ModuleOp;

/// Whether a module is well-formed, and each of its functions has the form that is translated today, so that an export
/// reads it. This takes no memory.
pub fn is_readable(ctx: &Context, root: ModuleOp) -> bool
    requires there { root.0.0 < length ctx.now.ops }
    requires typed { IsTyped ctx.now }
    ensures exact { IsTrue result ↔ IsWellFormed ctx.now root.0.0 × IsNarrow ctx.now root.0.0 }
    ensures readable { IsTrue result → IsReadable ctx.now root.0.0 }
{
    if !ctx.well_formed(root) {
        return false;
    }
    match ctx.region(root.0) {
        [] => true,
        [body] => are_narrow_funcs(ctx, *body),
        _ => false,
    }
}
