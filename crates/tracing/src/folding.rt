//! Zero, undef and poison among the terms of a table.

ghost use Rattle.std.specs.Prelude.{◌≡◌, ◌<◌, All, List, length};
ghost use Rattle.std.specs.List.{list_all};
ghost use Rattle.llvm_core.specs.Consts.{common_fill, is_fill};
ghost use Rattle.llvm_core.specs.Data.{TypeTree};
ghost use Rattle.meaning.specs.Terms.{Term};
ghost use Rattle.meaning.specs.Constants.{fill_of};
ghost use Rattle.tracing.specs.Table.{fills_at, node_term, term_at, terms};

use crate::table::{TermNode, TermTable};
use kinds::fill::Fill;

/// Zero, undef or poison, where the term of a node is that.
fn fill_of(node: &TermNode) -> Option<Fill>
    ensures { (trees : List TypeTree) → (ts : List Term) → result ≡ fill_of (node_term trees ts node.now) }
{
    match node {
        TermNode::Int(_, value) => (*value == 0).then_some(Fill::Zero),
        TermNode::Filled(fill, _) => Some(*fill),
        TermNode::Param(_) => None,
        TermNode::Answer(_) => None,
        TermNode::Unset => None,
        TermNode::ListOf(..) => None,
        TermNode::SplatOf(..) => None,
        TermNode::Expr { .. } => None,
    }
}

/// Zero, undef or poison, where the term at a place is that.
pub fn fill_at(table: &TermTable, place: u32) -> Option<Fill>
    requires { place < length table.now }
    ensures { (trees : List TypeTree) → result ≡ fill_of (term_at (terms trees table.now) place) }
{
    fill_of(table.node(place))
}

fn is_fill(fill: Fill, of: Option<Fill>) -> bool
    ensures { result ≡ is_fill fill of }
{
    match (fill, of) {
        (Fill::Zero, Some(Fill::Zero)) => true,
        (Fill::Undef, Some(Fill::Undef)) => true,
        (Fill::Poison, Some(Fill::Poison)) => true,
        _ => false,
    }
}

/// Whether each of the terms at places is that.
fn are_filled(table: &TermTable, fill: Fill, places: &[u32]) -> bool
    requires { All (λ k. k < length table.now) places.now }
    ensures { (trees : List TypeTree) → result ≡ list_all (is_fill fill) (fills_at (terms trees table.now) places.now) }
{
    for place in places {
        if !is_fill(fill, fill_at(table, *place)) {
            return false;
        }
    }
    true
}

/// Zero, undef or poison, where each of the terms at places is that; zero where there is none.
pub fn common_fill(table: &TermTable, places: &[u32]) -> Option<Fill>
    requires { All (λ k. k < length table.now) places.now }
    ensures { (trees : List TypeTree) → result ≡ common_fill (fills_at (terms trees table.now) places.now) }
{
    if are_filled(table, Fill::Zero, places) {
        return Some(Fill::Zero);
    }
    if are_filled(table, Fill::Undef, places) {
        return Some(Fill::Undef);
    }
    if are_filled(table, Fill::Poison, places) {
        return Some(Fill::Poison);
    }
    None
}
