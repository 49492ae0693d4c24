//! Why an export refuses a module.

ghost use Rattle.std.specs.Prelude.{◌≡◌};
ghost use Rattle.to_llvm_ir.specs.declared.to_llvm_err.ToLLVMErr.TheVariants as causes;

use std::alloc::{AllocError, AllocFailed};
use std::fmt;
use support::text::Text;
use thiserror::Error;

/// Why an export refuses a module.
#[derive(Drop, Error)]
pub enum ToLLVMErr {
    /// A value of that given name is used where it does not stand before; the name is empty where it has none.
    #[error("UndefinedValue")]
    UndefinedValue(Text),
    /// An edge leads to no block of its function, but to one of that label.
    #[error("UndefinedBlock")]
    UndefinedBlock(Text),
    /// An edge passes another number of values than its target has arguments.
    #[error("NumBlockArgsNumPhisMismatch")]
    NumBlockArgsNumPhisMismatch,
    /// Two edges from the block at the first place to the block at the second pass different values.
    #[error("EdgeArgsDiffer")]
    EdgeArgsDiffer(u32, u32),
    /// Memory is not enough, or a list has 2^30 items or more.
    #[error("NoMemory")]
    NoMemory,
}

impl fmt::Debug for ToLLVMErr {
    fn fmt<W: fmt::Write>(&self, f: &mut fmt::Formatter<W>) -> fmt::Result {
        write!(f, "{self}")
    }
}

impl From<AllocError> for ToLLVMErr {
    ghost from_gives = { λ _ e. e ≡ causes.NoMemory };

    fn from(_e: AllocError) -> ToLLVMErr {
        ToLLVMErr::NoMemory
    }
}

impl<T: Drop> From<AllocFailed<T>> for ToLLVMErr {
    ghost from_gives = { λ _ e. e ≡ causes.NoMemory };

    fn from(_e: AllocFailed<T>) -> ToLLVMErr {
        ToLLVMErr::NoMemory
    }
}
