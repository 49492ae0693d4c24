//! Terms in a table, each with its parts by the places of earlier ones, and each kept once.

ghost use Rattle.std.specs.Prelude.{◌≡◌, ◌<◌, ℕ, List, [], Some, IfOk, OnOk, OnErr, length, slice_get};
ghost use Rattle.support.specs.Interned.{IsDistinctList};
ghost use Rattle.llvm_core.specs.Data.{TypeTree};
ghost use Rattle.tracing.specs.Table.{terms, term_at, node_term, HasPartsBelow, IsGrounded, HasTypeBelow, AreTyped, Gives};

use kinds::fill::Fill;
use kinds::op::Op;
use llvm_core::numbers::LLVMType;
use std::alloc::{AllocError, Global};
use std::marker::Model;
use support::interner::Interner;
use support::items::Items;

/// A term, whose parts are places of earlier ones: a line for each sort that a run makes today.
#[derive(PartialEq, Eq, Hash, Drop)]
pub enum TermNode {
    /// The parameter at a place.
    Param(u32),
    /// The result of the event of this number.
    Answer(u32),
    /// What no definition has set.
    Unset,
    /// An integer of a width.
    Int(u32, u128),
    /// Zero, undef or poison of a type, which is a place of a table of types.
    Filled(Fill, LLVMType),
    /// An aggregate of a type, which is a place of a table of types, by its elements.
    ListOf(LLVMType, Items<u32>),
    /// A scalable vector of a type, which is a place of a table of types, each lane of which is that.
    SplatOf(LLVMType, u32),
    /// An expression of a silent row, whose type is a place of a table of types.
    Expr {
        op: Op,
        ty: LLVMType,
        operands: Items<u32>,
    },
}

/// Terms, each kept once and behind its parts, seen as the list of their nodes.
#[derive(Drop)]
pub struct TermTable {
    nodes: Interner<TermNode>,
}

impl Model for TermTable {
    ghost use Rattle.std.specs.Prelude.{List};
    ghost use Rattle.tracing.specs.declared.table.TermNode.{TermNode};
    ghost use Rattle.tracing.specs.Table.{IsGrounded};

    ghost Value = { List TermNode };

    ghost view = { λ t. t.nodes };

    ghost invariant = { λ t. IsGrounded t.nodes };
}

impl TermTable {
    pub fn new(alloc: Global) -> TermTable
        ensures { result ≡ [] }
    {
        TermTable {
            nodes: Interner::new(alloc),
        }
    }

    /// How many terms there are.
    pub fn len(&self) -> u32
        ensures len { result ≡ length self.now }

        // No term stands twice, where no type does, and the parts of each stand before it.
        ensures apart { (trees : List TypeTree) → IsDistinctList trees → AreTyped (length trees) self.now → IsDistinctList (terms trees self.now) }
        ensures grounded { IsGrounded self.now }
    {
        self.nodes.len()
    }

    pub fn node(&self, place: u32) -> &TermNode
        requires { place < length self.now }
        ensures node { slice_get self.now place ≡ Some result.now }
        ensures term { (trees : List TypeTree) → term_at (terms trees self.now) place ≡ node_term trees (terms trees self.now) result.now }
    {
        self.nodes.value(place)
    }

    /// The place of a term, new or old.
    pub fn intern(&mut self, node: TermNode) -> Result<u32, AllocError>
        requires { HasPartsBelow (length self.old) node }
        ensures gives { IfOk result (λ k. (trees : List TypeTree) → Gives trees self.old self.new k (node_term trees (terms trees self.old) node)) }
        ensures typed { OnOk result ((n : ℕ) → AreTyped n self.old → HasTypeBelow n node → AreTyped n self.new) }
        ensures err { OnErr result (self.new ≡ self.old) }
    {
        let place = self.nodes.get(node)?;
        Ok(place)
    }
}
