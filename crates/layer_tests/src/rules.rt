//! Rules of `well_formed` that no text of the form comes near, from both sides: the width of a constant, the linkage of a
//! function with a body and without, where edges lead and what they pass, and modules without a block.

use crate::asked::{Question, answer};
use crate::hand::{At, Name, Step};
use dialect_core::linkage::LinkageAttr;
use std::alloc::Global;

/// Whether the module of two rows is well-formed.
fn takes(alloc: Global, first: &[Step], then: &[Step]) -> &'static str {
    answer(alloc, first, then, Question::WellFormed)
}

// ---- constants

/// A function of one block.
const FUNCTION: &[Step] = &[
    Step::Block(0),
    Step::Func(Name::F, LinkageAttr::ExternalLinkage),
    Step::Block(1),
];

/// A width, a value, and whether a module with a constant of these is well-formed.
const CONSTANTS: &[(u32, u64, &str)] = &[
    (1, 1, "yes"),
    (8, 255, "yes"),
    (8, 256, "no"),
    (64, 0xFFFF_FFFF_FFFF_FFFF, "yes"),
    (65, 1, "no"),
    (128, 0, "no"),
    (0, 0, "no"),
];

/// Whether a module with a constant of that width and value is well-formed.
fn takes_constant(alloc: Global, width: u32, value: u64) -> &'static str {
    let then = [Step::Constant((1, 0), width, value), Step::Return((1, 0))];
    takes(alloc, FUNCTION, &then)
}

#[test]
fn takes_constants_of_64_bits(rt: HostRuntime) {
    for (width, value, want) in CONSTANTS {
        let takes = takes_constant(rt.alloc(), *width, *value);
        assert!(rt; takes == *want, "{takes} at {width} and {value}");
    }
}

// ---- linkages

/// What makes a body of the function.
const BODY: &[Step] = &[Step::Block(1), Step::Return((1, 0))];

/// A linkage, and whether a module with a function of it is well-formed, without a body and with one.
const LINKAGES: &[(LinkageAttr, &str, &str)] = &[
    (LinkageAttr::ExternalLinkage, "yes", "yes"),
    (LinkageAttr::ExternalWeakLinkage, "yes", "no"),
    (LinkageAttr::AvailableExternallyLinkage, "no", "yes"),
    (LinkageAttr::LinkOnceAnyLinkage, "no", "yes"),
    (LinkageAttr::LinkOnceODRLinkage, "no", "yes"),
    (LinkageAttr::WeakAnyLinkage, "no", "yes"),
    (LinkageAttr::WeakODRLinkage, "no", "yes"),
    (LinkageAttr::InternalLinkage, "no", "yes"),
    (LinkageAttr::PrivateLinkage, "no", "yes"),
    (LinkageAttr::CommonLinkage, "no", "no"),
    (LinkageAttr::AppendingLinkage, "no", "no"),
    (LinkageAttr::GhostLinkage, "no", "no"),
];

/// Whether a module with a function of that linkage and these steps behind it is well-formed.
fn takes_linkage(alloc: Global, linkage: LinkageAttr, body: &[Step]) -> &'static str {
    let first = [Step::Block(0), Step::Func(Name::F, linkage)];
    takes(alloc, &first, body)
}

/// What is wrong with the answers to modules with a function of that linkage, without a body and with one, if anything.
fn linkage_fault(
    alloc: Global,
    linkage: LinkageAttr,
    alone: &str,
    with_body: &str,
) -> &'static str {
    if takes_linkage(alloc, linkage, &[]) != alone {
        "without a body"
    } else if takes_linkage(alloc, linkage, BODY) != with_body {
        "with a body"
    } else {
        ""
    }
}

#[test]
fn takes_linkages_by_the_body(rt: HostRuntime) {
    for (linkage, alone, with_body) in LINKAGES {
        let fault = linkage_fault(rt.alloc(), *linkage, alone, with_body);
        assert!(rt; fault.is_empty(), "{linkage:?} {fault}");
    }
}

// ---- edges

/// Two functions of two blocks, of which the second of each has an argument of 64 bits. The first block has no end yet.
const FUNCTIONS: &[Step] = &[
    Step::Block(0),
    Step::Func(Name::F, LinkageAttr::ExternalLinkage),
    Step::Block(1),
    Step::Block(1),
    Step::Func(Name::G, LinkageAttr::ExternalLinkage),
    Step::Block(2),
    Step::Block(2),
    Step::Argument((1, 1)),
    Step::Argument((2, 1)),
    Step::Return((1, 1)),
    Step::Return((2, 0)),
    Step::Return((2, 1)),
];

/// Where the first block leads, the width of the constant that it passes, and whether the module is well-formed.
const EDGES: &[(At, u32, &str)] = &[
    ((1, 0), 64, "no"),
    ((1, 1), 64, "yes"),
    ((1, 1), 32, "no"),
    ((2, 0), 64, "no"),
    ((2, 1), 64, "yes"),
    ((2, 1), 32, "no"),
    ((0, 0), 64, "no"),
];

/// Whether the two functions, whose first block leads there and passes a constant of that width, are well-formed.
fn takes_edge(alloc: Global, to: At, width: u32) -> &'static str {
    let then = [
        Step::Constant((1, 0), width, 7),
        Step::Br((1, 0), (to, Some((1, 0, 0)))),
    ];
    takes(alloc, FUNCTIONS, &then)
}

#[test]
fn takes_edges_by_target_and_type(rt: HostRuntime) {
    for (to, width, want) in EDGES {
        let takes = takes_edge(rt.alloc(), *to, *width);
        assert!(rt; takes == *want, "{takes} at {to:?} and {width}");
    }
}

// ---- modules without functions

/// A block of the module.
const BLOCK: &[Step] = &[Step::Block(0)];

/// Whether a module is well-formed and can be exported.
fn is_taken_on(alloc: Global, row: &[Step]) -> bool {
    answer(alloc, row, &[], Question::Exportable) == "yes"
}

#[test]
fn takes_modules_without_functions(rt: HostRuntime) {
    assert!(rt; is_taken_on(rt.alloc(), &[]), "without a block");
    assert!(rt; is_taken_on(rt.alloc(), BLOCK), "without functions");
}
