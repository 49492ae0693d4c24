//! Why a conversion refuses a type or a constant, and an import a module.

ghost use Rattle.std.specs.Prelude.{◌≡◌};
ghost use Rattle.from_consts.specs.declared.conversion_err.ConversionErr.TheVariants.{NoMemory};
ghost use Rattle.from_consts.specs.Forward.{of_held, of_struct};

use dialect_types::struct_err::StructErr;
use held_types::held_structs::HeldErr;
use kinds::types::OtherType;
use llvm_core::code::LLVMValue;
use std::alloc::{AllocError, AllocFailed};
use std::fmt;
use support::text::Text;
use thiserror::Error;

/// What is not translated.
#[derive(Clone, Copy, PartialEq, Eq, Debug, Drop)]
pub enum Unsupported {
    /// A type for which the dialect has none: the type that is converted, or in an import that of a value, is it or holds it.
    Ty(OtherType),
    /// A constant of a scalable vector type, of which each element is the same: the constant that is converted is it or is made of
    /// it.
    ScalableSplat,
}

/// Why a type or a constant is not converted, or a module not imported.
#[derive(Drop, Error)]
pub enum ConversionErr {
    /// Of an import alone. The result of an instruction is used where it is not defined: its name, empty where it has none, and the
    /// result. Some walk to the use misses the definition; or no walk reaches the use, nor the definition, which is
    /// in another block; or they share a block, and the definition is not ahead of the use.
    #[error("UndefinedValue")]
    UndefinedValue(Text, LLVMValue),
    /// The constant that is converted is an integer of this width, which is more than 64 bits, or is made of one, or an instruction
    /// of the module that is imported uses one.
    #[error("IntConstTooWide")]
    IntConstTooWide(u32),
    /// A part that is not translated.
    #[error("Unsupported")]
    Unsupported(Unsupported),
    /// The identifier of a struct that is held is that of a struct of the context with another body: `DifferentBody`. Want of
    /// memory never stands inside.
    #[error("Struct")]
    Struct(StructErr),
    /// Memory is wanting.
    #[error("NoMemory")]
    NoMemory,
}

impl fmt::Debug for ConversionErr {
    fn fmt<W: fmt::Write>(&self, f: &mut fmt::Formatter<W>) -> fmt::Result {
        write!(f, "{self}")
    }
}

impl From<HeldErr> for ConversionErr {
    ghost from_gives = { λ e r. r ≡ of_held e };

    fn from(e: HeldErr) -> ConversionErr {
        match e {
            HeldErr::Lacks(of) => ConversionErr::Unsupported(Unsupported::Ty(of)),
            HeldErr::TooWide(width) => ConversionErr::IntConstTooWide(width),
            HeldErr::ScalableSplat => ConversionErr::Unsupported(Unsupported::ScalableSplat),
            HeldErr::NoMemory => ConversionErr::NoMemory,
        }
    }
}

impl From<StructErr> for ConversionErr {
    ghost from_gives = { λ e r. r ≡ of_struct e };

    fn from(e: StructErr) -> ConversionErr {
        match e {
            StructErr::NoMemory => ConversionErr::NoMemory,
            e => ConversionErr::Struct(e),
        }
    }
}

impl From<AllocError> for ConversionErr {
    ghost from_gives = { λ _ e. e ≡ NoMemory };

    fn from(_e: AllocError) -> ConversionErr {
        ConversionErr::NoMemory
    }
}

impl<T: Drop> From<AllocFailed<T>> for ConversionErr {
    ghost from_gives = { λ _ e. e ≡ NoMemory };

    fn from(_e: AllocFailed<T>) -> ConversionErr {
        ConversionErr::NoMemory
    }
}
