//! Predicates of comparisons.

/// How `llvm.icmp` compares two integers (the crate's `ICmpPredicateAttr`; Language Reference, "icmp"
/// Instruction).
#[derive(Clone, Copy, PartialEq, Eq, Debug, Drop)]
pub enum ICmpPredicateAttr {
    EQ,
    NE,
    UGT,
    UGE,
    ULT,
    ULE,
    SGT,
    SGE,
    SLT,
    SLE,
}
