//! Calls that put operations first into blocks or behind others, and take them out.

ghost use Rattle.std.specs.Prelude.{◌≡◌, ℕ, ◌<◌, ◌∷◌, [], None, Some, All, length, slice_get};
ghost use Rattle.dialect_types.specs.Trees.{type_trees};
ghost use Rattle.dialect_core.specs.Lists.{IsStanding};
ghost use Rattle.dialect_core.specs.Data.{DialectOp, Func, op_at, func_in, data_of, with_func_first, with_func_after, without_func, with_block_op_first, with_block_op_after, without_block_op, IsTyped};
ghost use Rattle.dialect_core.specs.ContextData.{with_prepended, with_inserted, with_unlinked, StandsIn, region_at};

use super::Context;
use crate::numbers::{BlockRef, OpRef};
use crate::steps::Steps;
use std::sync::ledger::Ledger;

impl Context {
    /// Puts an operation that stands in no block first into one.
    pub fn insert_at_front<L: Ledger>(&mut self, op: OpRef, block: BlockRef, _steps: &mut Steps<L>)
        requires free { slice_get self.old.parents op.0 ≡ Some None }
        requires block { block.0 < length self.old.blocks }
        requires stands { StandsIn self.old.ops self.old.blocks op block }
        ensures prepended { self.new ≡ with_prepended self.old op block }

        // An operation becomes the first of its block, a function the first of the module that holds the block.
        ensures data_op { (d : DialectOp) → op_at (type_trees self.old.types) self.old.ops op ≡ Some d → (m : ℕ) → data_of self.new m ≡ with_block_op_first (data_of self.old m) block.0 d }
        ensures data_func { (f : Func) → func_in (type_trees self.old.types) self.old op ≡ Some f → (m : ℕ) → region_at self.old.ops m ≡ block ∷ [] → data_of self.new m ≡ with_func_first (data_of self.old m) f }
        ensures data_other { (f : Func) → func_in (type_trees self.old.types) self.old op ≡ Some f → (m : ℕ) → All (λ b. ¬ (b.0 ≡ block.0)) (region_at self.old.ops m) → data_of self.new m ≡ data_of self.old m }
        ensures typed { IsTyped self.old → IsTyped self.new }
    {
        self.lists.prepend(op, block);
    }

    /// Puts an operation that stands in no block directly behind another, which stands in one.
    pub fn insert_after<L: Ledger>(&mut self, op: OpRef, other: OpRef, _steps: &mut Steps<L>)
        requires free { slice_get self.old.parents op.0 ≡ Some None }
        requires other { IsStanding self.old.parents other }
        requires stands { (b : BlockRef) → slice_get self.old.parents other.0 ≡ Some (Some b) → StandsIn self.old.ops self.old.blocks op b }
        ensures inserted { (b : BlockRef) → slice_get self.old.parents other.0 ≡ Some (Some b) → self.new ≡ with_inserted self.old op other b }

        // An operation comes directly behind the other in its block, a function behind the other in the module that holds the block.
        ensures data_op { (b : BlockRef) → slice_get self.old.parents other.0 ≡ Some (Some b) → (d e : DialectOp) → op_at (type_trees self.old.types) self.old.ops op ≡ Some d → op_at (type_trees self.old.types) self.old.ops other ≡ Some e → (m : ℕ) → data_of self.new m ≡ with_block_op_after (data_of self.old m) b.0 d other.0 }
        ensures data_func { (b : BlockRef) → slice_get self.old.parents other.0 ≡ Some (Some b) → (f g : Func) → func_in (type_trees self.old.types) self.old op ≡ Some f → func_in (type_trees self.old.types) self.old other ≡ Some g → (m : ℕ) → region_at self.old.ops m ≡ b ∷ [] → data_of self.new m ≡ with_func_after (data_of self.old m) f other.0 }
        ensures data_other { (b : BlockRef) → slice_get self.old.parents other.0 ≡ Some (Some b) → (f : Func) → func_in (type_trees self.old.types) self.old op ≡ Some f → (m : ℕ) → All (λ p. ¬ (p.0 ≡ b.0)) (region_at self.old.ops m) → data_of self.new m ≡ data_of self.old m }
        ensures typed { IsTyped self.old → IsTyped self.new }
    {
        self.lists.insert_after(op, other);
    }

    /// Takes an operation out of its block.
    pub fn unlink<L: Ledger>(&mut self, op: OpRef, _steps: &mut Steps<L>)
        requires { IsStanding self.old.parents op }
        ensures unlinked { (b : BlockRef) → slice_get self.old.parents op.0 ≡ Some (Some b) → self.new ≡ with_unlinked self.old op b }
        ensures free { slice_get self.new.parents op.0 ≡ Some None }

        // An operation stands no longer in its block, a function no longer in the module that holds the block.
        ensures data_op { (b : BlockRef) → slice_get self.old.parents op.0 ≡ Some (Some b) → (d : DialectOp) → op_at (type_trees self.old.types) self.old.ops op ≡ Some d → (m : ℕ) → data_of self.new m ≡ without_block_op (data_of self.old m) b.0 op.0 }
        ensures data_func { (b : BlockRef) → slice_get self.old.parents op.0 ≡ Some (Some b) → (f : Func) → func_in (type_trees self.old.types) self.old op ≡ Some f → (m : ℕ) → region_at self.old.ops m ≡ b ∷ [] → data_of self.new m ≡ without_func (data_of self.old m) op.0 }
        ensures data_other { (b : BlockRef) → slice_get self.old.parents op.0 ≡ Some (Some b) → (f : Func) → func_in (type_trees self.old.types) self.old op ≡ Some f → (m : ℕ) → All (λ p. ¬ (p.0 ≡ b.0)) (region_at self.old.ops m) → data_of self.new m ≡ data_of self.old m }
        ensures typed { IsTyped self.old → IsTyped self.new }
    {
        self.lists.remove(op);
    }
}
