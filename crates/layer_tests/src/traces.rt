//! The traces of a loop that swaps, of functions of operations on integers and of memory, of constants and of values of structs with
//! a name, each of a function of LLVM and of the dialect function that stands for it; and that of a dialect function that uses a value
//! of another.

ghost use Rattle.std.specs.Prelude.{◌≡◌, ◌<◌, All, IfOk, IfSome, length};
ghost use Rattle.llvm_core.specs.Checked.{IsChecked};
ghost use Rattle.llvm_core.specs.Data.{data_of};
ghost use Rattle.llvm_core.specs.Form.{IsForm};
ghost use Rattle.dialect_core.specs.Data.{IsTyped};
ghost use Rattle.tracing.specs.Types.{AreBelow};
ghost use Rattle.tracing.specs.Runs.{HasPlacesBelow, HasTables};
ghost use Rattle.tracing.specs.DialectBodies.{HasBody};

use crate::asked::{Question, answer};
use crate::hand::{Name, Step};
use crate::words::word;
use dialect_core::context::Context;
use dialect_core::linkage::LinkageAttr;
use dialect_core::numbers::{FuncOp, ModuleOp};
use kinds::access::{Access, Align};
use kinds::fill::Fill;
use kinds::op::Op;
use ll_text::read::read_ll;
use llvm_core::module::LLVMModule;
use llvm_core::numbers::{LLVMFunction, LLVMType};
use llvm_core::types::LLVMTypeKind;
use std::alloc::{AllocError, Global};
use std::str::SplitWhitespace;
use tracing::table::{TermNode, TermTable};
use tracing::trace::{Trace, TraceItem};
use tracing::tracing::{trace_of_dialect, trace_of_llvm};
use tracing::type_table::TypeTable;
use transfer::transferring::transfer;

/// A loop whose two phis swap their values in each turn.
const SWAP: &str = "define i32 @swap(i32 %a, i32 %b, i1 %c) {
entry:
  br label %loop
loop:
  %x = phi i32 [ %a, %entry ], [ %y, %loop ]
  %y = phi i32 [ %b, %entry ], [ %x, %loop ]
  br i1 %c, label %loop, label %exit
exit:
  ret i32 %x
}
";

/// The branch choices: the loop is entered three times and left at the third turn.
const CHOICES: &[u32] = &[0, 0, 0, 1];

/// What both traces show, `^` a block that is entered, and behind an event the types of its operands, and then these: `%` a
/// parameter, `!` the answer of the event of that number, `#` an integer, `[` a list of so many elements, `splat`, the word of a
/// fill, or that of a silent operation.
/// At the third turn the first phi holds the first parameter again.
const WANT: &str = "^0 br ^1 cond_br i1 %2 ^1 cond_br i1 %2 ^1 cond_br i1 %2 ^2 ret i32 %0";

/// Operations of each shape, of which `sub` and `trunc` are silent.
const OPERATIONS: &str = "define i8 @f(i32 %a, i32 %b, i1 %c) {
  %q = udiv i32 %a, %b
  %r = srem i32 %q, %b
  %d = sub nsw i32 %q, %r
  %m = mul nuw i32 %d, %a
  %n = trunc i32 %m to i8
  %k = freeze i8 %n
  %w = zext nneg i8 %k to i32
  %x = xor i32 %w, %q
  %s = select i1 %c, i32 %x, i32 %a
  %l = trunc i32 %s to i8
  ret i8 %l
}
";

/// What both of its traces show.
const SHOWN: &str =
    "^0 udiv i32 i32 %0 %1 srem i32 i32 !0 %1 mul i32 i32 sub %0 freeze i8 trunc zext i8 !3 \
xor i32 i32 !4 !0 select i1 i32 i32 %2 !5 %0 ret i8 trunc";

/// Loads and stores, of which one is volatile.
const MEMORY: &str = "define i32 @f(ptr %p, i32 %a) {
  store volatile i32 %a, ptr %p, align 4
  %x = load i32, ptr %p
  store i32 %x, ptr %p
  ret i32 %x
}
";

/// What both of its traces show: a store is an event as another.
const MEMORY_SHOWN: &str =
    "^0 volatile i32 other %1 %0 load other %0 store i32 other !1 %0 ret i32 !1";

/// Constants as operands: an integer, zero and undef.
const CONSTANTS: &str = "define i32 @f(i32 %a) {
  %q = udiv i32 %a, 7
  %z = freeze { i8, [2 x i16] } zeroinitializer
  %u = freeze i32 undef
  ret i32 %q
}
";

/// What both of its traces show.
const CONSTANTS_SHOWN: &str = "^0 udiv i32 i32 %0 #7 freeze other zero freeze i32 undef ret i32 !0";

/// Values of structs with a name, of which one needs another name.
const STRUCTS: &str = "%S = type { i8, %T.1 } %T.1 = type opaque
define %S @f(%T.1 %a, %S %b, i1 %c) {
  %d = freeze %T.1 %a
  %e = freeze %S %b
  %g = select i1 %c, %S %e, %S %b
  ret %S %g
}
";

/// What the traces of the source and of the dialect show: each says the struct by its own name.
const STRUCTS_SOURCE: &str = "^0 freeze T.1 %0 freeze S %1 select i1 S S %2 !1 %1 ret S !2";

const STRUCTS_DIALECT: &str = "^0 freeze T_1 %0 freeze S %1 select i1 S S %2 !1 %1 ret S !2";

/// Two functions, of which the first branches on a value of the second.
const FOREIGN: &[Step] = &[
    Step::Block(0),
    Step::Func(Name::F, LinkageAttr::ExternalLinkage),
    Step::Block(1),
    Step::Block(1),
    Step::Func(Name::G, LinkageAttr::ExternalLinkage),
    Step::Block(2),
    Step::Constant((2, 0), 1, 1),
    Step::Return((2, 0)),
    Step::CondBr((1, 0), (2, 0, 0), ((1, 1), None), ((1, 1), None)),
    Step::Return((1, 1)),
];

/// What its trace shows: in a run of the first function no value of the second is set.
const UNSET: &str = "^0 cond_br i1 unset ^1 ret";

// ---- a trace against words

/// Whether a word is a mark and a number.
fn is_number(word: &str, mark: char, number: u32) -> bool {
    match word.strip_prefix(mark) {
        Some(digits) => digits.parse::<u32>().ok() == Some(number),
        None => false,
    }
}

fn op_word(op: Op) -> &'static str {
    match op {
        Op::Sub(_) => "sub",
        Op::Trunc => "trunc",
        Op::Mul(_) => "mul",
        Op::UDiv => "udiv",
        Op::SRem => "srem",
        Op::Xor => "xor",
        Op::ZExt(true) => "zext",
        Op::Select => "select",
        Op::Freeze => "freeze",
        Op::Load(
            Access {
                align: None,
                volatile: false,
            },
        ) => "load",
        Op::Store(
            Access {
                align: None,
                volatile: false,
            },
        ) => "store",
        Op::Store(
            Access {
                align: Some(Align::P2),
                volatile: true,
            },
        ) => "volatile",
        Op::Br => "br",
        Op::CondBr => "cond_br",
        Op::Ret => "ret",
        _ => "other",
    }
}

fn fill_word(fill: Fill) -> &'static str {
    match fill {
        Fill::Zero => "zero",
        Fill::Undef => "undef",
        Fill::Poison => "poison",
    }
}

/// The word of a type; that of a struct is its name.
fn type_word(kind: &LLVMTypeKind) -> &str {
    match kind {
        LLVMTypeKind::Int(1) => "i1",
        LLVMTypeKind::Int(8) => "i8",
        LLVMTypeKind::Int(32) => "i32",
        LLVMTypeKind::Void => "void",
        LLVMTypeKind::Named(name) => name.as_str(),
        _ => "other",
    }
}

/// Whether words are the types of operands that stand at those places.
fn are_types(types: &TypeTable, places: &[LLVMType], words: &mut SplitWhitespace<'_>) -> bool
    requires { AreBelow (length types.now) places.now }
{
    for place in places {
        if word(words) != type_word(types.kind(*place)) {
            return false;
        }
    }
    true
}

/// Whether a word is an operand's term.
fn is_term(node: &TermNode, word: &str) -> bool {
    match node {
        TermNode::Param(at) => is_number(word, '%', *at),
        TermNode::Answer(event) => is_number(word, '!', *event),
        TermNode::Unset => word == "unset",
        TermNode::Int(_, value) => match u32::try_from(*value) {
            Ok(value) => is_number(word, '#', value),
            Err(_) => false,
        },
        TermNode::Filled(fill, _) => word == fill_word(*fill),
        TermNode::ListOf(_, elements) => match u32::try_from(elements.as_slice().len()) {
            Ok(count) => is_number(word, '[', count),
            Err(_) => false,
        },
        TermNode::SplatOf(..) => word == "splat",
        TermNode::Expr { op, .. } => word == op_word(*op),
    }
}

/// Whether words are the operands whose terms stand at those places.
fn are_operands(terms: &TermTable, places: &[u32], words: &mut SplitWhitespace<'_>) -> bool
    requires { All (λ k. k < length terms.now) places.now }
{
    for place in places {
        if !is_term(terms.node(*place), word(words)) {
            return false;
        }
    }
    true
}

/// Whether words are an item of a trace.
fn is_item(trace: &Trace, item: &TraceItem, words: &mut SplitWhitespace<'_>) -> bool
    requires { HasPlacesBelow (length trace.now.types) (length trace.now.terms) item.now }
{
    match item {
        TraceItem::Block(block) => is_number(word(words), '^', *block),
        TraceItem::Event {
            op,
            types,
            operands,
        } => {
            word(words) == op_word(*op)
                && are_types(&trace.types, types.operands.as_slice(), words)
                && are_operands(&trace.terms, operands.as_slice(), words)
        }
    }
}

/// Whether words begin with the items of a trace.
fn are_items(trace: &Trace, words: &mut SplitWhitespace<'_>) -> bool
    requires { HasTables trace.now }
{
    for item in trace.items.as_slice() {
        if !is_item(trace, item, words) {
            return false;
        }
    }
    true
}

/// Whether a trace shows these words.
fn shows(trace: &Trace, want: &str) -> bool
    requires { HasTables trace.now }
{
    let words = &mut want.split_whitespace();
    are_items(trace, words) && words.next().is_none()
}

// ---- the two sides

/// The first function of a dialect module that has a body.
fn dialect_function(ctx: &Context, root: ModuleOp) -> Result<Option<FuncOp>, AllocError>
    requires { root.0.0 < length ctx.now.ops }
    ensures { IfOk result (λ found. IfSome found (λ f. HasBody ctx.now root.0.0 f.0)) }
{
    let ops = ctx.held_ops(root.0)?;
    for op in ops.as_slice() {
        if ctx.has_symbol(*op) && !ctx.op_blocks(*op).is_empty() {
            return Ok(Some(FuncOp(*op)));
        }
    }
    Ok(None)
}

/// Whether the trace of the first function of a module shows these words.
fn llvm_shows(alloc: Global, module: &LLVMModule, want: &str) -> bool
    requires checked { IsChecked «module».now }
{
    if module.functions() == 0 {
        return false;
    }
    match trace_of_llvm(alloc, module, LLVMFunction(0), CHOICES) {
        Ok(trace) => shows(&trace, want),
        Err(_) => false,
    }
}

/// Whether a dialect module is well-formed, and the trace of its first function with a body shows these words.
pub fn dialect_shows(alloc: Global, ctx: &Context, root: ModuleOp, want: &str) -> bool
    requires there { root.0.0 < length ctx.now.ops }
    requires typed { IsTyped ctx.now }
{
    if !ctx.well_formed(root) {
        return false;
    }
    let Ok(Some(function)) = dialect_function(ctx, root) else {
        return false;
    };
    match trace_of_dialect(alloc, ctx, root, function, CHOICES) {
        Ok(trace) => shows(&trace, want),
        Err(_) => false,
    }
}

/// Whether the trace of what the import makes of a module shows these words.
fn imported_shows(alloc: Global, module: &LLVMModule, want: &str) -> bool
    requires form { IsForm (data_of «module».now) }
    requires checked { IsChecked «module».now }
{
    match transfer(alloc, module) {
        Ok(made) => dialect_shows(alloc, &made.ctx, made.dialect, want),
        Err(_) => false,
    }
}

/// Whether the trace of a text's first function shows the first words, and that of what the import makes of it the others.
fn both_show(alloc: Global, text: &str, want: &str, dialect: &str) -> (bool, bool) {
    match read_ll(alloc, text.as_bytes()) {
        Ok(module) => (
            llvm_shows(alloc, &module, want),
            imported_shows(alloc, &module, dialect),
        ),
        Err(_) => (false, false),
    }
}

#[test]
fn both_sides_swap(rt: HostRuntime) {
    let (source, dialect) = both_show(rt.alloc(), SWAP, WANT, WANT);
    assert!(rt; source, "the source");
    assert!(rt; dialect, "the dialect");
}

#[test]
fn both_sides_show_memory(rt: HostRuntime) {
    let (source, dialect) = both_show(rt.alloc(), MEMORY, MEMORY_SHOWN, MEMORY_SHOWN);
    assert!(rt; source, "the source");
    assert!(rt; dialect, "the dialect");
}

#[test]
fn both_sides_show_operations(rt: HostRuntime) {
    let (source, dialect) = both_show(rt.alloc(), OPERATIONS, SHOWN, SHOWN);
    assert!(rt; source, "the source");
    assert!(rt; dialect, "the dialect");
}

#[test]
fn both_sides_show_constants(rt: HostRuntime) {
    let (source, dialect) = both_show(rt.alloc(), CONSTANTS, CONSTANTS_SHOWN, CONSTANTS_SHOWN);
    assert!(rt; source, "the source");
    assert!(rt; dialect, "the dialect");
}

#[test]
fn both_sides_show_structs(rt: HostRuntime) {
    let (source, dialect) = both_show(rt.alloc(), STRUCTS, STRUCTS_SOURCE, STRUCTS_DIALECT);
    assert!(rt; source, "the source");
    assert!(rt; dialect, "the dialect");
}

#[test]
fn value_of_another_function_is_unset(rt: HostRuntime) {
    assert_eq!(rt;
        answer(rt.alloc(), FOREIGN, &[], Question::Trace(UNSET)),
        "yes"
    );
}
