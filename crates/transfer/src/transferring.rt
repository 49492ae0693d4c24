//! The two halves in a row: a module is begun, which imports it, and finished, which exports what was imported.

ghost use Rattle.std.specs.Prelude.{◌≡◌, IfOk, IfErr};
ghost use Rattle.llvm_core.specs.Module.{Module};
ghost use Rattle.llvm_core.specs.Checked.{IsChecked};
ghost use Rattle.llvm_core.specs.Data.{data_of};
ghost use Rattle.llvm_core.specs.Form.{IsForm};
ghost use Rattle.held_types.specs.Held.{AreHeld};
ghost use Rattle.from_llvm_ir.specs.Refusals.{IsValid};
ghost use Rattle.to_llvm_ir.specs.Held.{IsReadable};
ghost use Rattle.transfer.specs.declared.transfer_err.TransferErr.TheVariants as refusals;
ghost use Rattle.transfer.specs.Begun.{IsBegun};
ghost use Rattle.transfer.specs.Same.{SameThroughout, IsCause, transferred_of};

use crate::transfer_err::TransferErr;
use crate::transferred::Transferred;
use dialect_core::context::Context;
use from_llvm_ir::importing::{Imported, convert_module as import};
use llvm_core::module::LLVMModule;
use std::alloc::Global;
use to_llvm_ir::exporting::convert_module as export;

/// A translation of which the import is done, in a context of its own. The module that was imported may be let go.
#[derive(Drop)]
pub struct Begun {
    pub ctx: Context,
    pub imported: Imported,
}

/// Imports a checked module of the form into a context of its own. It is refused only where the import refuses it. So a
/// module whose uses are valid and which is held is answered `Ok` or `NoMemory`.
pub fn begin(alloc: Global, module: &LLVMModule) -> Result<Begun, TransferErr>
    requires form { IsForm (data_of «module».now) }
    requires checked { IsChecked «module».now }
    ensures begun { IfOk result (λ b. IsBegun «module».now b) }
    ensures readable { IfOk result (λ b. IsReadable b.ctx b.imported.«module».0.0) }
    ensures cause { IfErr result (λ e. IsCause (data_of «module».now) e) }
    ensures complete { IsValid (data_of «module».now) → AreHeld (data_of «module».now) → IfErr result (λ e. e ≡ refusals.NoMemory) }
{
    let mut ctx = Context::new(alloc);
    let imported = import(alloc, &mut ctx, module)?;
    Ok(Begun { ctx, imported })
}

/// Exports what was imported. It is refused for want of memory alone: the export takes all that an import makes.
pub fn finish(alloc: Global, begun: Begun) -> Result<Transferred, TransferErr>
    requires begun { (m : Module) × IsBegun m begun }
    ensures same { (m : Module) → IsBegun m begun → IfOk result (λ t. SameThroughout (data_of m) t) }
    ensures kept { IfOk result (λ t. t ≡ transferred_of begun.ctx begun.imported t.back) }
    ensures back { IfOk result (λ t. IsChecked t.back) }
    ensures form { IfOk result (λ t. IsForm (data_of t.back)) }
    ensures held { IfOk result (λ t. AreHeld (data_of t.back)) }
    ensures readable { IfOk result (λ t. IsReadable t.ctx t.dialect.0.0) }
    ensures memory { IfErr result (λ e. e ≡ refusals.NoMemory) }
{
    let exported = export(alloc, &begun.ctx, begun.imported.module)?;
    let Begun { ctx, imported } = begun;
    Ok(Transferred {
        ctx,
        dialect: imported.module,
        back: exported.module,
        blocks: imported.blocks,
        structs: imported.structs,
    })
}

/// The dialect module of a checked module of the form, in a context of its own, the module back, and the matches of blocks and
/// of structs with a name. The module back is checked, and the dialect module stands in its
/// context as an export reads it. It is refused only where the import
/// refuses it: the export takes all that an import makes. So a module whose uses are valid and which is held is
/// answered `Ok` or `NoMemory`.
pub fn transfer(alloc: Global, module: &LLVMModule) -> Result<Transferred, TransferErr>
    requires form { IsForm (data_of «module».now) }
    requires checked { IsChecked «module».now }
    ensures same { IfOk result (λ t. SameThroughout (data_of «module».now) t) }
    ensures back { IfOk result (λ t. IsChecked t.back) }
    ensures form { IfOk result (λ t. IsForm (data_of t.back)) }
    ensures held { IfOk result (λ t. AreHeld (data_of t.back)) }
    ensures readable { IfOk result (λ t. IsReadable t.ctx t.dialect.0.0) }
    ensures cause { IfErr result (λ e. IsCause (data_of «module».now) e) }
    ensures complete { IsValid (data_of «module».now) → AreHeld (data_of «module».now) → IfErr result (λ e. e ≡ refusals.NoMemory) }
{
    let begun = begin(alloc, module)?;
    finish(alloc, begun)
}
