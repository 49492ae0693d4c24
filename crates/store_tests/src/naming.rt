//! The identifiers of names, in the order in which they are met.

use dialect_types::legaliser::Legaliser;
use std::alloc::Global;

/// Names in the order in which they are met, each with the identifier that it is to get.
const MET: &[(&str, &str)] = &[
    ("a.b", "a_b"),
    ("a_b", "a_b_1"),
    ("a.b", "a_b"),
    ("", "_"),
    ("9x", "_9x"),
    ("a_b_1", "a_b_1_1"),
    // `_2` is the first suffix of `a_b` that is free, and then `_3` is
    ("a-b", "a_b_2"),
    ("a b", "a_b_3"),
    // a letter of two bytes
    ("é", "__"),
    ("_", "__1"),
    ("a_b_1", "a_b_1_1"),
];

/// Whether each name gets the identifier beside it.
fn are_given(alloc: Global, met: &[(&str, &str)]) -> bool {
    let mut legaliser = Legaliser::new(alloc);
    for (name, want) in met {
        match legaliser.legalise(name) {
            Ok(identifier) => {
                if identifier.as_str() != *want {
                    return false;
                }
            }
            Err(_) => return false,
        }
    }
    true
}

#[test]
fn names_get_identifiers(rt: HostRuntime) {
    assert!(rt; are_given(rt.alloc(), MET));
}
