//! Dialect modules made by hand that can be read, and what the export answers. No LLVM module gives most of them.

ghost use Rattle.std.specs.Prelude.{◌<◌, length};
ghost use Rattle.dialect_core.specs.Data.{IsTyped};

use crate::asked::{Question, answer};
use crate::hand::{Name, Step};
use dialect_core::context::Context;
use dialect_core::linkage::LinkageAttr;
use dialect_core::numbers::ModuleOp;
use std::alloc::Global;
use to_llvm_ir::exporting::convert_module;
use to_llvm_ir::readable::is_readable;
use to_llvm_ir::to_llvm_err::ToLLVMErr;

/// Two functions, of three blocks and of two, of which those of the second return. The second has a constant `x`.
const FUNCTIONS: &[Step] = &[
    Step::Block(0),
    Step::Func(Name::F, LinkageAttr::ExternalLinkage),
    Step::Block(1),
    Step::Block(1),
    Step::Block(1),
    Step::Func(Name::G, LinkageAttr::ExternalLinkage),
    Step::Block(2),
    Step::Label(2, Name::Far),
    Step::Constant((2, 0), 64, 7),
    Step::Named((2, 0, 0), Name::X),
    Step::Return((2, 0)),
    Step::Return((2, 1)),
];

/// An edge passes a value to a block that takes one.
const FINE: &[Step] = &[
    Step::Argument((1, 1)),
    Step::Constant((1, 0), 64, 1),
    Step::Br((1, 0), ((1, 1), Some((1, 0, 0)))),
    Step::Return((1, 1)),
    Step::Return((1, 2)),
];

/// Two edges pass different values to one block.
const UNEQUAL_EDGES: &[Step] = &[
    Step::Argument((1, 1)),
    Step::Constant((1, 0), 1, 1),
    Step::Constant((1, 0), 64, 1),
    Step::Constant((1, 0), 64, 2),
    Step::CondBr(
        (1, 0),
        (1, 0, 0),
        ((1, 1), Some((1, 0, 1))),
        ((1, 1), Some((1, 0, 2))),
    ),
    Step::Return((1, 1)),
    Step::Return((1, 2)),
];

/// An edge passes a value to a block that takes none.
const ONE_TOO_MANY: &[Step] = &[
    Step::Constant((1, 0), 64, 1),
    Step::Br((1, 0), ((1, 1), Some((1, 0, 0)))),
    Step::Return((1, 1)),
    Step::Return((1, 2)),
];

/// An edge passes a value to a block that takes two.
const ONE_TOO_FEW: &[Step] = &[
    Step::Argument((1, 1)),
    Step::Argument((1, 1)),
    Step::Constant((1, 0), 64, 1),
    Step::Br((1, 0), ((1, 1), Some((1, 0, 0)))),
    Step::Return((1, 1)),
    Step::Return((1, 2)),
];

/// A value is defined in a later block than it is used, which comes after the use.
const LATER_VALUE: &[Step] = &[
    Step::Constant((1, 0), 64, 1),
    Step::Br((1, 0), ((1, 1), None)),
    Step::Double((1, 2), (1, 0, 0)),
    Step::Named((1, 2, 0), Name::X),
    Step::Double((1, 1), (1, 2, 0)),
    Step::Br((1, 1), ((1, 2), None)),
    Step::Return((1, 2)),
];

/// A value is defined in a later block than it is used, which comes before the use.
const LATER_BLOCK: &[Step] = &[
    Step::Constant((1, 0), 64, 1),
    Step::Br((1, 0), ((1, 2), None)),
    Step::Double((1, 2), (1, 0, 0)),
    Step::Named((1, 2, 0), Name::X),
    Step::Br((1, 2), ((1, 1), None)),
    Step::Double((1, 1), (1, 2, 0)),
    Step::Return((1, 1)),
];

/// Constants stand in the second block, one of them behind a sum.
const LATER_CONSTANTS: &[Step] = &[
    Step::Br((1, 0), ((1, 1), None)),
    Step::Constant((1, 1), 64, 1),
    Step::Double((1, 1), (1, 1, 0)),
    Step::Constant((1, 1), 64, 2),
    Step::Double((1, 1), (1, 1, 2)),
    Step::Return((1, 1)),
    Step::Return((1, 2)),
];

/// An edge leads into another function.
const OTHER_FUNCTION: &[Step] = &[
    Step::Br((1, 0), ((2, 1), None)),
    Step::Return((1, 1)),
    Step::Return((1, 2)),
];

/// An operation has a value of another function as operand.
const FOREIGN_OPERAND: &[Step] = &[
    Step::Double((1, 0), (2, 0, 0)),
    Step::Br((1, 0), ((1, 1), None)),
    Step::Return((1, 1)),
    Step::Return((1, 2)),
];

/// An edge passes a value of another function.
const FOREIGN_PASSED: &[Step] = &[
    Step::Argument((1, 1)),
    Step::Br((1, 0), ((1, 1), Some((2, 0, 0)))),
    Step::Return((1, 1)),
    Step::Return((1, 2)),
];

// ---- what the export answers

/// The answer that an error is, in words.
fn refusal(error: &ToLLVMErr) -> &'static str {
    match error {
        ToLLVMErr::EdgeArgsDiffer(0, 1) => "edges from block 0 to block 1 differ",
        ToLLVMErr::EdgeArgsDiffer(..) => "edges of other blocks differ",
        ToLLVMErr::NumBlockArgsNumPhisMismatch => "another number of arguments",
        ToLLVMErr::UndefinedValue(name) if name.as_str() == "x" => "x is undefined",
        ToLLVMErr::UndefinedValue(_) => "another value is undefined",
        ToLLVMErr::UndefinedBlock(label) if label.as_str() == "far" => "far is undefined",
        ToLLVMErr::UndefinedBlock(_) => "another block is undefined",
        ToLLVMErr::NoMemory => "no memory",
    }
}

/// What the export answers to a module.
pub fn export_of(alloc: Global, ctx: &Context, root: ModuleOp) -> &'static str
    requires typed { IsTyped ctx.now }
    requires there { root.0.0 < length ctx.now.ops }
{
    if !is_readable(ctx, root) {
        return "unreadable";
    }
    match convert_module(alloc, ctx, root).err() {
        None => "exported",
        Some(error) => refusal(&error),
    }
}

/// The steps that come to the two functions, and what the export then answers.
const ANSWERS: &[(&[Step], &str)] = &[
    (FINE, "exported"),
    (UNEQUAL_EDGES, "edges from block 0 to block 1 differ"),
    (ONE_TOO_MANY, "another number of arguments"),
    (ONE_TOO_FEW, "another number of arguments"),
    (LATER_VALUE, "x is undefined"),
    (LATER_BLOCK, "exported"),
    (LATER_CONSTANTS, "exported"),
    (OTHER_FUNCTION, "far is undefined"),
    (FOREIGN_OPERAND, "x is undefined"),
    (FOREIGN_PASSED, "x is undefined"),
];

#[test]
fn answers_each_module(rt: HostRuntime) {
    for (row, want) in ANSWERS {
        assert_eq!(rt; answer(rt.alloc(), FUNCTIONS, row, Question::Export), *want);
    }
}
