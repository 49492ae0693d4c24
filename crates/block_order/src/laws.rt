//! What the definitions give, for every graph and order.

ghost use Rattle.std.specs.Prelude.{◌≡◌, ℕ, List, Contains};
ghost use Rattle.block_order.specs.Graph.{Reaches};
ghost use Rattle.block_order.specs.DepthFirst.{IsDepthFirst};
ghost use Rattle.block_order.specs.Order.{IsBefore, HasReachedFirst};

/// A graph has one depth-first order at most.
pub fn one_order_law()
    ensures { (g : List (List ℕ)) (a b : List ℕ) → IsDepthFirst g a → IsDepthFirst g b → a ≡ b }
{}

/// Where a front is what node 0 reaches, each node that it reaches stands before each that it does not reach.
pub fn reached_first_law()
    ensures { (g : List (List ℕ)) (order : List ℕ) (u v : ℕ) → HasReachedFirst g order
        → Contains order u → Contains order v → Reaches g 0 u → ¬ Reaches g 0 v → IsBefore order u v }
{}
