//! Instructions as a store keeps them: each in the shape of what it names, which takes less room than a line of a function.

ghost use Rattle.std.specs.Prelude.{◌≡◌, [], ◌∷◌, IfOk};
ghost use Rattle.ll_lines.specs.declared.lines.Inst.TheVariants as I;
ghost use Rattle.ll_values.specs.Shapes.{row_of, cast_of};

use kinds::op::Op;
use ll_lines::lines::{Incoming, Inst, RowLine, Said, Typed};
use ll_lines::names::Name;
use llvm_core::numbers::LLVMType;
use std::alloc::{AllocError, Global};
use std::marker::Model;
use support::short_list::ShortList;

/// What an instruction names.
#[derive(Drop)]
enum Shape {
    Alone(Op),
    One(Op, Typed),
    /// Two values of one type.
    Pair(Op, LLVMType, Said, Said),
    Two(Op, Typed, Typed),
    Three(Op, Typed, Typed, Typed),
    /// A value, and the type that is written beside it.
    Cast(Op, Typed, LLVMType),
    /// A block.
    Jump(Op, Name),
    /// A value and two blocks.
    Branch(Op, Typed, Name, Name),
    Phi(LLVMType, ShortList<Incoming>),
}

/// An instruction, seen as that of a line.
#[derive(Drop)]
pub struct Planned {
    shape: Shape,
}

impl Model for Planned {
    ghost use Rattle.ll_lines.specs.declared.lines.Inst.{Inst};
    ghost use Rattle.ll_values.specs.Shapes.{inst_of};

    ghost Value = { Inst };

    ghost view = { λ p. inst_of p.shape };
}

/// An instruction of these operands, where no type is written beside them.
fn row(op: Op, operands: ShortList<Typed>, targets: ShortList<Name>) -> Inst
    ensures { result ≡ row_of op operands targets }
{
    Inst::Row(RowLine {
        op,
        written: None,
        operands,
        targets,
    })
}

/// One of a value, with a type beside it.
fn cast(op: Op, x: Typed, ty: LLVMType) -> Inst
    ensures { result ≡ cast_of op x ty }
{
    Inst::Row(RowLine {
        op,
        written: Some(ty),
        operands: ShortList::one(x),
        targets: ShortList::zero(),
    })
}

impl Planned {
    /// Of no operand.
    pub fn alone(op: Op) -> Planned
        ensures { result ≡ row_of op [] [] }
    {
        Planned {
            shape: Shape::Alone(op),
        }
    }

    /// Of one operand.
    pub fn one(op: Op, x: Typed) -> Planned
        ensures { result ≡ row_of op (x ∷ []) [] }
    {
        Planned {
            shape: Shape::One(op, x),
        }
    }

    /// Of two operands of one type.
    pub fn pair(op: Op, ty: LLVMType, a: Said, b: Said) -> Planned
        ensures { result ≡ row_of op (record { ty = ty; said = a } ∷ record { ty = ty; said = b } ∷ []) [] }
    {
        Planned {
            shape: Shape::Pair(op, ty, a, b),
        }
    }

    /// Of two operands, each of its own type.
    pub fn two(op: Op, x: Typed, y: Typed) -> Planned
        ensures { result ≡ row_of op (x ∷ y ∷ []) [] }
    {
        Planned {
            shape: Shape::Two(op, x, y),
        }
    }

    /// Of three operands.
    pub fn three(op: Op, x: Typed, y: Typed, z: Typed) -> Planned
        ensures { result ≡ row_of op (x ∷ y ∷ z ∷ []) [] }
    {
        Planned {
            shape: Shape::Three(op, x, y, z),
        }
    }

    /// One of a value, with a type beside it.
    pub fn cast(op: Op, x: Typed, ty: LLVMType) -> Planned
        ensures { result ≡ cast_of op x ty }
    {
        Planned {
            shape: Shape::Cast(op, x, ty),
        }
    }

    /// One that leads to a block.
    pub fn jump(op: Op, to: Name) -> Planned
        ensures { result ≡ row_of op [] (to ∷ []) }
    {
        Planned {
            shape: Shape::Jump(op, to),
        }
    }

    /// Of one operand, which leads to two blocks.
    pub fn branch(op: Op, x: Typed, to: Name, other: Name) -> Planned
        ensures { result ≡ row_of op (x ∷ []) (to ∷ other ∷ []) }
    {
        Planned {
            shape: Shape::Branch(op, x, to, other),
        }
    }

    /// A phi of a type.
    pub fn phi(ty: LLVMType, entries: ShortList<Incoming>) -> Planned
        ensures { result ≡ I.Phi ty entries }
    {
        Planned {
            shape: Shape::Phi(ty, entries),
        }
    }

    /// The instruction of a line.
    #[rattlefmt::skip]
    pub fn inst(&self, alloc: Global) -> Result<Inst, AllocError>
        ensures { IfOk result (λ i. i ≡ self.now) }
    {
        Ok(match &self.shape {
            Shape::Alone(op) => row(*op, ShortList::zero(), ShortList::zero()),
            Shape::One(op, x) => row(*op, ShortList::one(*x), ShortList::zero()),
            Shape::Pair(op, ty, a, b) => row(*op, ShortList::two(Typed { ty: *ty, said: *a }, Typed { ty: *ty, said: *b }), ShortList::zero()),
            Shape::Two(op, x, y) => row(*op, ShortList::two(*x, *y), ShortList::zero()),
            Shape::Three(op, x, y, z) => row(*op, ShortList::three(*x, *y, *z), ShortList::zero()),
            Shape::Cast(op, x, ty) => cast(*op, *x, *ty),
            Shape::Jump(op, to) => row(*op, ShortList::zero(), ShortList::one(*to)),
            Shape::Branch(op, x, to, other) => row(*op, ShortList::one(*x), ShortList::two(*to, *other)),
            Shape::Phi(ty, entries) => Inst::Phi(*ty, ShortList::from_slice(alloc, entries.as_slice())?),
        })
    }
}
