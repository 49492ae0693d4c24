//! The trace of a function, for a list of branch choices: the blocks that it enters and its events.

ghost use Rattle.std.specs.Prelude.{◌≡◌, ◌<◌, ℕ, IfOk, Some, length, slice_get};
ghost use Rattle.llvm_core.specs.Data.{Function, data_of};
ghost use Rattle.llvm_core.specs.Checked.{IsChecked};
ghost use Rattle.dialect_core.specs.Data as context;
ghost use Rattle.dialect_core.specs.Data.{Func, IsTyped, type_in};
ghost use Rattle.dialect_core.specs.WellFormed.{IsWellFormed};
ghost use Rattle.meaning.specs.Llvm as llvm;
ghost use Rattle.meaning.specs.Dialect as dialect;
ghost use Rattle.tracing.specs.Runs.{items_of, HasTables};
ghost use Rattle.tracing.specs.DialectBodies.{HasBody};

use crate::dialect_body::dialect_body;
use crate::llvm_body::llvm_body;
use crate::run::trace_body;
use crate::trace::Trace;
use dialect_core::context::Context;
use dialect_core::numbers::{FuncOp, ModuleOp};
use llvm_core::module::LLVMModule;
use llvm_core::numbers::LLVMFunction;
use std::alloc::{AllocError, Global};

/// The trace of a function of a checked module. Each type and each term of its tables stands once, behind its parts. It is
/// an error where there is no memory.
pub fn trace_of_llvm(
    alloc: Global,
    module: &LLVMModule,
    f: LLVMFunction,
    choices: &[u32],
) -> Result<Trace, AllocError>
    requires checked { IsChecked «module».now }
    requires function { f.0 < length «module».now.functions }
    ensures exact { IfOk result (λ t. (x : Function) → slice_get (data_of «module».now).functions f.0 ≡ Some x → items_of t ≡ (llvm.body (llvm.setting_of (data_of «module».now)) x).trace choices.now) }
    ensures tables { IfOk result HasTables }
{
    // This tells the proof what is true of every module.
    let _count = module.functions();
    let body = llvm_body(alloc, module, f)?;
    trace_body(alloc, body, choices)
}

/// The trace of a function with a body of a well-formed dialect module, in a context whose numbers of types are in range.
/// A value that is not the function's own is set by no run of it, and has the type that the context gives it. Each type and
/// each term of its tables stands once, behind its parts. It is an error where there is no memory.
pub fn trace_of_dialect(
    alloc: Global,
    ctx: &Context,
    module: ModuleOp,
    f: FuncOp,
    choices: &[u32],
) -> Result<Trace, AllocError>
    requires typed { IsTyped ctx.now }
    requires well_formed { IsWellFormed ctx.now «module».0.0 }
    requires body { HasBody ctx.now «module».0.0 f.0 }
    ensures exact { IfOk result (λ t. (place : ℕ) (g : Func) → slice_get (context.data_of ctx.now «module».0.0).functions place ≡ Some g → g.number ≡ f.0.0 → items_of t ≡ (dialect.typed_body (dialect.setting_of (context.data_of ctx.now «module».0.0)) (type_in ctx.now) g).trace choices.now) }
    ensures tables { IfOk result HasTables }
{
    let body = dialect_body(alloc, ctx, f)?;
    trace_body(alloc, body, choices)
}
