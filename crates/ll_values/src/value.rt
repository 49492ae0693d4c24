//! The values of a text, as they stand on a stack: what is longer is a number of a store.

use kinds::access::Align;
use kinds::op::OverflowFlags;
use kinds::types::StructLayout;
use ll_lines::lines::{Brackets, Param, Said, SaidConst, Typed};
use ll_lines::names::Name;
use llvm_core::numbers::LLVMType;

/// A literal as it is written.
#[derive(Clone, Copy, Drop)]
pub enum Literal {
    /// `%` and a name or a number.
    Local(Name),
    /// An integer's digits, `true` or `false`, `zeroinitializer`, `undef` or `poison`.
    Const(Name),
    /// `null`.
    Null,
    /// `c` and a text between quotes, the token.
    Chars(Name),
    /// Elements between brackets, by their number.
    Listed(Brackets, u32),
    /// `splat` and the constant that each element is.
    Splat(SaidConst),
}

/// An entry of a phi.
#[derive(Clone, Copy, Drop)]
pub struct Entry {
    pub literal: Literal,
    pub block: Name,
}

/// A part of a body.
#[derive(Clone, Copy, Drop)]
pub enum Piece {
    Label(Name),
    /// What is written of the name of a result, and the number of the instruction.
    Does(Option<Name>, u32),
}

/// What stands before the body of a function, with the number of the parameters.
#[derive(Clone, Copy, Drop)]
pub struct Head {
    pub result: LLVMType,
    pub name: Name,
    pub params: u32,
}

/// A function, with the number of its body.
#[derive(Clone, Copy, Drop)]
pub struct Definition {
    pub head: Head,
    pub body: u32,
}

/// The fields of a struct, with the number of their types.
#[derive(Clone, Copy, Drop)]
pub struct Fields {
    pub types: u32,
    pub layout: StructLayout,
}

/// A struct; one without fields is opaque.
#[derive(Clone, Copy, Drop)]
pub struct Structure {
    pub name: Name,
    pub body: Option<Fields>,
}

/// A value. Numbers are those of lists and instructions of a store.
#[derive(Clone, Copy, Drop)]
pub enum Value {
    Nothing,
    Text(Name),
    Flag(bool),
    Wraps(OverflowFlags),
    Type(LLVMType),
    Types(u32),
    Literal(Literal),
    /// Constants behind each other.
    Consts(u32),
    /// A literal whose type stands before it, and the constants behind it.
    Braced(Literal, u32),
    Typed(Typed),
    /// An address space.
    Space(u32),
    /// An alignment, or none where none is written.
    Align(Option<Align>),
    /// Two values of one type.
    Pair(LLVMType, Said, Said),
    Entry(Entry),
    Entries(u32),
    Inst(u32),
    Part(Piece),
    Body(u32),
    Param(Param),
    Params(u32),
    Head(Head),
    Source(Name),
    Function(Definition),
    /// The fields of a struct, none where it is opaque.
    Fields(Option<Fields>),
    Struct(Structure),
    /// The name of the module, the structs and the functions.
    File(Option<Name>, u32, u32),
}
