//! Why a translation refuses a module.

ghost use Rattle.std.specs.Prelude.{◌≡◌};
ghost use Rattle.transfer.specs.Same.{of_import, of_export};

use from_consts::conversion_err::ConversionErr;
use thiserror::Error;
use to_llvm_ir::to_llvm_err::ToLLVMErr;

/// Why a translation refuses a module. Neither half's want of memory stands inside.
#[derive(Debug, Drop, Error)]
pub enum TransferErr {
    /// The import refuses it.
    #[error("import {0}")]
    Import(ConversionErr),
    /// The export refuses what the import made; this never comes out of `transfer`.
    #[error("export {0}")]
    Export(ToLLVMErr),
    /// Memory is not enough.
    #[error("NoMemory")]
    NoMemory,
}

impl From<ConversionErr> for TransferErr {
    ghost from_gives = { λ e r. r ≡ of_import e };

    fn from(e: ConversionErr) -> TransferErr {
        match e {
            ConversionErr::NoMemory => TransferErr::NoMemory,
            e => TransferErr::Import(e),
        }
    }
}

impl From<ToLLVMErr> for TransferErr {
    ghost from_gives = { λ e r. r ≡ of_export e };

    fn from(e: ToLLVMErr) -> TransferErr {
        match e {
            ToLLVMErr::NoMemory => TransferErr::NoMemory,
            e => TransferErr::Export(e),
        }
    }
}
