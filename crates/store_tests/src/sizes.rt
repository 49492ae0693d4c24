//! How large a row is, what it holds in itself included.

use dialect_core::ops::{OpData, Successor};
use kinds::op::Op;
use llvm_core::code::{InstData, Row};
use std::mem::size_of;

/// A row that grows makes every instruction of every module larger: a change of these numbers is to be meant.
#[test]
fn rows_are_small(rt: HostRuntime) {
    assert_eq!(rt; size_of::<Op>(), 4);
    assert_eq!(rt; size_of::<Row>(), 72);
    assert_eq!(rt; size_of::<InstData>(), 112);
    assert_eq!(rt; size_of::<Successor>(), 48);
    assert_eq!(rt; size_of::<OpData>(), 152);
}
