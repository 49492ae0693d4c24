//! The walk over one component, depth first, over a stack of open nodes.

ghost use Rattle.std.specs.Prelude.{◌≡◌, ◌<◌, ◌≤◌, ◌∷◌, [], ℕ, All, IfOk, OnOk, length, slice_index};
ghost use Rattle.block_order.specs.Graph.{IsGraph};
ghost use Rattle.block_order.specs.Marks.{IsMet};
ghost use Rattle.block_order.specs.DepthFirst.{Explores};
ghost use Rattle.block_order.specs.Walking.{state, Steps};

use crate::succs::Succs;
use std::alloc::{AllocError, Global};

/// A node whose targets are looked at in order, and the place of the next one.
#[derive(Clone, Copy)]
struct Open {
    node: u32,
    next: usize,
}

/// The place, at `from` or behind it, of the first target that is not met, or the number of targets.
fn next_unmet(met: &[bool], targets: &[u32], from: usize) -> usize
    requires { All (λ t. t < length met.now) targets.now }
    ensures within { result ≤ length targets.now }
    ensures ahead { result < length targets.now → from ≤ result }
    ensures passed { (k : ℕ) → from ≤ k → k < result → IsMet met.now (slice_index targets.now k) }
    ensures unmet { result < length targets.now → ¬ IsMet met.now (slice_index targets.now result) }
{
    for place in from..targets.len() {
        if !met[targets[place] as usize] {
            return place;
        }
    }
    targets.len()
}

/// One step: the next target that is not met of the last open node is opened, and where there is none that node is
/// closed.
fn step(
    succs: &Succs,
    met: &mut [bool],
    stack: &mut Vec<Open>,
    done: &mut Vec<u32>,
) -> Result<(), AllocError>
    requires graph { IsGraph succs.now }
    requires fits { length met.old ≡ length succs.now }
    requires nodes { All (λ o. o.node < length succs.now) stack.old.items }
    requires some { 0 < length stack.old.items }
    ensures { OnOk result
        (Steps succs.now (state met.old stack.old.items done.old.items)
        (state met.new stack.new.items done.new.items)) }
{
    let Some(top) = stack.pop() else {
        unreachable!();
    };
    let targets = succs.targets(top.node);
    let place = next_unmet(met, targets, top.next);
    if place == targets.len() {
        done.push(top.node)?;
        return Ok(());
    }
    let node = targets[place];
    met[node as usize] = true;
    let next = place + 1;
    stack.push(Open {
        node: top.node,
        next,
    })?;
    stack.push(Open { node, next: 0 })?;
    Ok(())
}

/// The nodes that are met from `root` on and were not met before, in the reverse of the order in which they are
/// closed. They are then marked as met.
pub fn component(
    alloc: Global,
    succs: &Succs,
    met: &mut [bool],
    root: u32,
) -> Result<Vec<u32>, AllocError>
    requires graph { IsGraph succs.now }
    requires fits { length met.old ≡ length succs.now }
    requires node { root < length succs.now }
    requires unmet { ¬ IsMet met.old root }
    ensures { IfOk result (λ part. Explores succs.now met.old (root ∷ []) part.items met.new) }
{
    let mut stack = Vec::new(alloc);
    let mut done = Vec::new(alloc);
    met[root as usize] = true;
    stack.push(Open {
        node: root,
        next: 0,
    })?;
    while !stack.is_empty() {
        step(succs, met, &mut stack, &mut done)?;
    }
    done.reverse();
    Ok(done)
}
