//! Operations and blocks, as a context keeps them.

ghost use Rattle.std.specs.Prelude.{◌≡◌, IfOk};
ghost use Rattle.dialect_core.specs.declared.ops.OpKind.TheVariants as kinds;

use crate::linkage::LinkageAttr;
use crate::numbers::{BlockRef, OpRef};
use const_attrs::const_attr::ConstAttr;
use dialect_types::identifier::Identifier;
use dialect_types::types::TypeHandle;
use kinds::fill::Fill;
use kinds::op::Op;
use std::alloc::{AllocError, Global};
use std::marker::Model;
use support::items::Items;
use support::short_list::ShortList;
use support::text::Text;

/// What an operand names.
#[derive(Clone, Copy, PartialEq, Eq, Hash, Debug, Drop)]
pub enum Value {
    /// The result of an operation.
    Result(OpRef),
    /// The argument of a block at a place, counted from 0.
    Argument(BlockRef, u32),
}

/// Where an operation leads, with the values for the arguments there.
#[derive(Drop)]
pub struct Successor {
    pub block: BlockRef,
    pub args: ShortList<Value>,
}

/// A constant that lies apart: most operations have none, and are no larger for it.
#[derive(Drop)]
pub struct AttrBox {
    apart: Box<ConstAttr>,
}

impl Model for AttrBox {
    ghost use Rattle.std.specs.Coded.{codes};
    ghost use Rattle.const_attrs.specs.declared.const_attr.ConstAttr.{ConstAttr};
    ghost use Rattle.const_attrs.specs.contracts.const_attr.ConstAttr as constant;

    ghost Value = { ConstAttr };

    ghost coded = { Prim.hlevel (codes, constant.the_row.coded) };

    ghost view = { λ b. b.apart.value };
}

impl AttrBox {
    /// The attribute, kept apart from what holds it. `AllocError` where memory is wanting.
    pub fn new(alloc: Global, attr: ConstAttr) -> Result<AttrBox, AllocError>
        ensures { IfOk result (λ b. b ≡ attr) }
    {
        Ok(AttrBox {
            apart: Box::new(alloc, attr)?,
        })
    }

    /// The attribute itself.
    pub fn attr(&self) -> &ConstAttr
        ensures { result.now ≡ self.now }
    {
        &self.apart
    }
}

/// What an operation is, with its immediates.
#[derive(Drop)]
pub enum OpKind {
    /// `builtin.module`.
    Module,
    /// `llvm.func`.
    Func,
    /// `llvm.constant`, with its `value`.
    Constant(AttrBox),
    /// `llvm.zero`, `llvm.undef` or `llvm.poison`, of the type of its result.
    Filled(Fill),
    /// The operation of a row of the table, with its immediates.
    Row(Op),
}

impl OpKind {
    /// `llvm.constant` of a value.
    pub fn constant(alloc: Global, attr: ConstAttr) -> Result<OpKind, AllocError>
        ensures { IfOk result (λ k. k ≡ kinds.Constant attr) }
    {
        Ok(OpKind::Constant(AttrBox::new(alloc, attr)?))
    }
}

/// The type and the linkage of a function, and its LLVM name where that is set: where it differs from the function's name.
#[derive(Drop)]
pub struct Symbol {
    pub ty: TypeHandle,
    pub linkage: LinkageAttr,
    pub llvm_name: Option<Text>,
}

/// A symbol that lies apart: most operations have none, and are no larger for it.
#[derive(Drop)]
pub struct SymbolBox {
    apart: Box<Symbol>,
}

impl Model for SymbolBox {
    ghost use Rattle.dialect_core.specs.declared.ops.Symbol.{Symbol};

    ghost Value = { Symbol };

    ghost view = { λ b. b.apart.value };
}

impl SymbolBox {
    pub fn new(alloc: Global, symbol: Symbol) -> Result<SymbolBox, AllocError>
        ensures { IfOk result (λ b. b ≡ symbol) }
    {
        Ok(SymbolBox {
            apart: Box::new(alloc, symbol)?,
        })
    }

    pub fn symbol(&self) -> &Symbol
        ensures { result.now ≡ self.now }
    {
        &self.apart
    }
}

/// An operation of a context. The name is a symbol's, or the given name of a result.
#[derive(Drop)]
pub struct OpData {
    pub kind: OpKind,
    pub name: Option<Identifier>,
    pub operands: ShortList<Value>,
    pub successors: Items<Successor>,
    pub result: Option<TypeHandle>,
    pub symbol: Option<SymbolBox>,
    /// The blocks of its region.
    pub blocks: ShortList<BlockRef>,
}

/// A block of a context, with the operation that holds it.
#[derive(Drop)]
pub struct BlockData {
    pub holder: OpRef,
    pub label: Option<Identifier>,
    pub args: ShortList<TypeHandle>,
}
