//! A graph as lists: for each node, in order, the nodes that it leads to.

ghost use Rattle.std.specs.Prelude.{◌≡◌, ◌+◌, ◌<◌, ◌^◌, ◌↔◌, ◌++◌, ◌∷◌, [], length, IfOk, IsTrue, OnOk, OnErr, slice_index_or};

use std::alloc::{AllocError, Global};
use std::marker::Model;
use support::short_list::ShortList;

/// The nodes that a node leads to: most lead to one or two.
#[derive(Drop)]
struct Row {
    targets: ShortList<u32>,
}

impl Model for Row {
    ghost use Rattle.std.specs.Prelude.{ℕ, List};

    ghost Value = { List ℕ };

    ghost view = { λ r. r.targets };
}

impl Row {
    fn new(alloc: Global, targets: &[u32]) -> Result<Row, AllocError>
        ensures { IfOk result (λ r. r ≡ targets.now) }
    {
        let targets = ShortList::from_slice(alloc, targets)?;
        Ok(Row { targets })
    }

    fn targets(&self) -> &[u32]
        ensures { result.now ≡ self.now }
    {
        self.targets.as_slice()
    }
}

/// A graph: for each node, in order, the nodes that it leads to. It has fewer than 2^32 nodes.
#[derive(Drop)]
pub struct Succs {
    alloc: Global,
    rows: Vec<Row>,
}

impl Model for Succs {
    ghost use Rattle.std.specs.Prelude.{ℕ, List, length, ◌<◌, ◌^◌};

    ghost Value = { List (List ℕ) };

    ghost view = { λ s. s.rows.items };

    ghost invariant = { λ s. length s.rows.items < 2 ^ 32 };
}

impl Succs {
    /// The graph without nodes.
    pub fn new(alloc: Global) -> Succs
        ensures { result ≡ [] }
    {
        Succs {
            alloc,
            rows: Vec::new(alloc),
        }
    }

    /// How many nodes the graph has.
    pub fn len(&self) -> usize
        ensures len { result ≡ length self.now }
        ensures small { length self.now < 2 ^ 32 }
    {
        self.rows.len()
    }

    /// Whether the graph has no node.
    pub fn is_empty(&self) -> bool
        ensures { IsTrue result ↔ (self.now ≡ []) }
    {
        self.rows.is_empty()
    }

    /// The nodes that a node leads to.
    pub fn targets(&self, node: u32) -> &[u32]
        requires { node < length self.now }
        ensures { result.now ≡ slice_index_or self.now node [] }
    {
        self.rows[node as usize].targets()
    }

    /// Appends a node that leads to these. On `Err` the graph is unchanged. More than 2^32 - 1 nodes are want of
    /// memory.
    pub fn push(&mut self, targets: &[u32]) -> Result<(), AllocError>
        ensures ok { OnOk result (self.new ≡ self.old ++ targets.now ∷ []) }
        ensures err { OnErr result (self.new ≡ self.old) }
    {
        if self.rows.len() >= u32::MAX as usize {
            return Err(AllocError);
        }
        let row = Row::new(self.alloc, targets)?;
        self.rows.push(row)?;
        Ok(())
    }
}
