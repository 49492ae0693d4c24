//! The rules of a checked module, by their names, and the places where they fail.

ghost use Rattle.std.specs.Prelude.{◌≡◌};
ghost use Rattle.llvm_core.specs.declared.check_err.CheckErr.TheVariants as rules_of;

use std::alloc::{AllocError, AllocFailed};
use std::fmt;
use thiserror::Error;

/// Where a rule fails.
#[derive(Clone, Copy, PartialEq, Eq, Debug, Drop)]
pub enum Place {
    Module,
    Struct(u32),
    Function(u32),
    Block(u32),
    Inst(u32),
}

/// A rule that fails, and where.
#[derive(Clone, Copy, PartialEq, Eq, Debug, Drop, Error)]
pub enum CheckErr {
    /// Two structs, two functions, or two named parameters, blocks or results of one function, share a name; or the name of a struct or function is empty or holds a zero byte.
    NameTwice(Place),
    /// A block does not end in its only terminator.
    NoTerminator(Place),
    /// A phi follows another instruction than a phi.
    PhiPlace(Place),
    /// A phi's entries are not one for each edge to its block, two of one block differ, or there is no edge.
    PhiEntries(Place),
    /// An edge goes to the first block of a function.
    EntryHasPreds(Place),
    /// The type of an operand, parameter or result does not fit.
    OperandType(Place),
    /// A count of operands does not fit.
    OperandCount(Place),
    /// An operand, target or source of a phi is of another function, or a placeholder is still used.
    BlockOutside(Place),
    /// A function whose name begins with `llvm.` has a body.
    IntrinsicBody(Place),
    /// A function is in another space than 0.
    FunctionSpace(Place),
    /// A type nests deeper than 1,000 through the fields of structs, or in itself, or it names a struct that there is not.
    TooDeep(Place),
    /// A list has 2^31 or more entries.
    ListTooLong(Place),
    /// Memory is not enough to check the names.
    NoMemory,
}

impl CheckErr {
    /// The rule by its name.
    pub fn name(&self) -> &str {
        match self {
            CheckErr::NameTwice(_) => "NameTwice",
            CheckErr::NoTerminator(_) => "NoTerminator",
            CheckErr::PhiPlace(_) => "PhiPlace",
            CheckErr::PhiEntries(_) => "PhiEntries",
            CheckErr::EntryHasPreds(_) => "EntryHasPreds",
            CheckErr::OperandType(_) => "OperandType",
            CheckErr::OperandCount(_) => "OperandCount",
            CheckErr::BlockOutside(_) => "BlockOutside",
            CheckErr::IntrinsicBody(_) => "IntrinsicBody",
            CheckErr::FunctionSpace(_) => "FunctionSpace",
            CheckErr::TooDeep(_) => "TooDeep",
            CheckErr::ListTooLong(_) => "ListTooLong",
            CheckErr::NoMemory => "NoMemory",
        }
    }
}

impl fmt::Display for CheckErr {
    fn fmt<W: fmt::Write>(&self, f: &mut fmt::Formatter<W>) -> fmt::Result {
        f.write_str(self.name())
    }
}

impl From<AllocError> for CheckErr {
    ghost from_gives = { λ _ e. e ≡ rules_of.NoMemory };

    fn from(_e: AllocError) -> CheckErr {
        CheckErr::NoMemory
    }
}

impl<T: Drop> From<AllocFailed<T>> for CheckErr {
    ghost from_gives = { λ _ e. e ≡ rules_of.NoMemory };

    fn from(_e: AllocFailed<T>) -> CheckErr {
        CheckErr::NoMemory
    }
}
