//! The nodes of a graph in depth-first order.

ghost use Rattle.std.specs.Prelude.{◌≡◌, ◌<◌, IfOk, Some, length, slice_get};
ghost use Rattle.block_order.specs.Graph.{IsGraph};
ghost use Rattle.block_order.specs.DepthFirst.{IsDepthFirst};
ghost use Rattle.block_order.specs.Order.{IsOrder, HasReachedFirst, HasPassedBefore, LeadsOnOrBack};

use crate::succs::Succs;
use crate::walk::component;
use std::alloc::{AllocError, Global};

/// The nodes in depth-first order: of each component that is not reached before, by its first node, the postorder
/// reversed; successors in order.
pub fn rpo(alloc: Global, succs: &Succs) -> Result<Vec<u32>, AllocError>
    requires { IsGraph succs.now }
    ensures depth_first { IfOk result (λ order. IsDepthFirst succs.now order.items) }
    ensures once { IfOk result (λ order. IsOrder (length succs.now) order.items) }
    ensures first { IfOk result (λ order. 0 < length succs.now → slice_get order.items 0 ≡ Some 0) }
    ensures reached { IfOk result (λ order. HasReachedFirst succs.now order.items) }
    ensures passed { IfOk result (λ order. HasPassedBefore succs.now order.items) }
    ensures onward { IfOk result (λ order. LeadsOnOrBack succs.now order.items) }
{
    let mut met = vec![in alloc; false; succs.len()]?;
    let mut order = Vec::new(alloc);
    for root in 0..succs.len() {
        if !met[root] {
            let part = component(alloc, succs, met.as_mut_slice(), root as u32)?;
            order.extend_from_slice(part.as_slice())?;
        }
    }
    Ok(order)
}
