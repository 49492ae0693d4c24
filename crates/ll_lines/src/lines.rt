//! Functions as a text says them: types and plain constants are numbers of the module that is read into, constants that are made of
//! others stand in a table, since the structs that they are of may not be there yet, and what is defined in the function has its name
//! still.

use crate::names::Name;
use kinds::op::Op;
use kinds::types::StructLayout;
use llvm_core::numbers::{LLVMConst, LLVMType};
use llvm_core::structs::StructFields;
use support::items::Items;
use support::short_list::ShortList;

/// The place of a constant in the table of a file.
#[derive(Clone, Copy, PartialEq, Eq, Debug, Drop)]
pub struct ConstPlace(pub u32);

/// A constant, as it is written.
#[derive(Clone, Copy, PartialEq, Eq, Debug, Drop)]
pub enum SaidConst {
    /// A word or an integer's digits (Language Reference, Simple Constants): a constant of the module.
    Plain(LLVMConst),
    /// One that is made of others, or a text (Language Reference, Complex Constants): it stands in the table of the file.
    Made(ConstPlace),
}

/// What the elements of a constant stand between (Language Reference, Complex Constants).
#[derive(Clone, Copy, PartialEq, Eq, Debug, Drop)]
pub enum Brackets {
    /// `[` and `]`.
    Array,
    /// `<` and `>`.
    Vector,
    /// `{` and `}`, or `<{` and `}>` where it is packed.
    Struct(StructLayout),
}

/// A constant of a type that is made of others, which are of the module or stand before it in the table.
#[derive(Drop)]
pub enum ConstLine {
    /// `c` and a text between quotes, the token.
    Chars(LLVMType, Name),
    /// Its elements in order.
    Listed(LLVMType, Brackets, Items<SaidConst>),
    /// `splat` and the constant that each element is.
    Splat(LLVMType, SaidConst),
}

/// A value, as it is written.
#[derive(Clone, Copy, PartialEq, Eq, Debug, Drop)]
pub enum Said {
    /// `%` and a name or a number.
    Local(Name),
    Const(SaidConst),
}

/// A value with its type.
#[derive(Clone, Copy, PartialEq, Eq, Debug, Drop)]
pub struct Typed {
    pub ty: LLVMType,
    pub said: Said,
}

/// An instruction that is no phi: a row of the table of instructions, and what is written of what it names.
#[derive(Drop)]
pub struct RowLine {
    pub op: Op,
    /// The type that is written beside the operands, as that of a cast.
    pub written: Option<LLVMType>,
    pub operands: ShortList<Typed>,
    /// The blocks that it leads to, in order.
    pub targets: ShortList<Name>,
}

/// An entry of a phi: what it takes on an edge, and the block that the edge comes from.
#[derive(Clone, Copy, PartialEq, Eq, Debug, Drop)]
pub struct Incoming {
    pub said: Said,
    pub block: Name,
}

/// An instruction.
#[derive(Drop)]
pub enum Inst {
    /// Of a type, with its entries in order.
    Phi(LLVMType, ShortList<Incoming>),
    Row(RowLine),
}

/// An instruction, and what is written of the name of its result.
#[derive(Drop)]
pub struct Line {
    pub result: Option<Name>,
    pub inst: Inst,
}

/// A part of a body.
#[derive(Drop)]
pub enum Part {
    /// A name or a number, and a colon.
    Label(Name),
    Does(Line),
}

/// A parameter of a function.
#[derive(Clone, Copy, PartialEq, Eq, Debug, Drop)]
pub struct Param {
    pub ty: LLVMType,
    pub name: Option<Name>,
}

/// A function with its body.
#[derive(Drop)]
pub struct Function {
    pub result: LLVMType,
    /// `@` and a name.
    pub name: Name,
    pub params: Vec<Param>,
    pub body: Vec<Part>,
}

/// A struct; one without a body is opaque.
#[derive(Drop)]
pub struct StructLine {
    /// `%` and a name or a number.
    pub name: Name,
    pub body: Option<StructFields>,
}

/// A file: its structs and its functions, each in the order of the text.
#[derive(Drop)]
pub struct File {
    /// The name of the module, between quotes.
    pub source: Option<Name>,
    /// The constants that are made of others, each behind its parts.
    pub consts: Vec<ConstLine>,
    pub structs: Vec<StructLine>,
    pub functions: Vec<Function>,
}
