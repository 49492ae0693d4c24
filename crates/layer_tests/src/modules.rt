//! Modules made by hand, each by a row of calls, that break one rule or none, and what the check answers.

ghost use Rattle.std.specs.Prelude.{◌≡◌, ◌<◌, ◌≤◌, ◌^◌, All, IfSome, Some, length, slice_get};
ghost use Rattle.llvm_core.specs.declared.types.LLVMTypeKind.TheVariants as kinds;
ghost use Rattle.llvm_core.specs.Parts.{IsBlock, IsValue, HasValues};

use crate::words::{number, word};
use kinds::fitting::is_array_of;
use kinds::op::{LLVMIntPredicate, OverflowFlags};
use llvm_core::check_err::CheckErr;
use llvm_core::checking::check;
use llvm_core::code::{LLVMInst, LLVMValue};
use llvm_core::consts::LLVMConstKind;
use llvm_core::module::{LLVMModule, shape_of};
use llvm_core::numbers::{LLVMBasicBlock, LLVMFunction, LLVMInstRef, LLVMType};
use llvm_core::types::LLVMTypeKind;
use std::alloc::Global;
use std::str::SplitWhitespace;
use support::items::Items;
use support::short_list::ShortList;

// What the check answers, `Ok` or an error, and the calls that make the module:
//
//     int NAME WIDTH                  a function of two parameters of a width that returns such an integer
//     void NAME SPACE                 a function of no parameters that returns nothing
//     takes_void NAME SPACE           a function that takes and returns void
//     nested NAME LEVELS              a function that returns an array of arrays, so many levels with the innermost `i8`
//     name FUNCTION PLACE NAME        names a parameter
//     block FUNCTION NAME             a new last block
//     in BLOCK INSTRUCTION            a new last instruction
//     entry VALUE BLOCK RESULT        a new entry of the phi that is the result
//
//     instruction                     add VALUE VALUE NAME, icmp VALUE VALUE, phi NAME of 64 bits without entries,
//                                     br BLOCK, cond VALUE BLOCK BLOCK, ret VALUE, ret_void, unreachable
//     value                           zero WIDTH, hole (a placeholder), param FUNCTION PLACE, result RESULT
//     block                           FUNCTION PLACE
//     result                          BLOCK PLACE
//
// A name `-` is none. Functions, and the blocks and parameters of one, and the instructions of a block, are counted
// from 0. `fork` begins with the calls of `FORK`.
const ROWS: &str = "\
Ok: int id 64; name 0 0 x; block 0 entry; in 0 0 ret param 0 0
NameTwice(Function(2)): void f 0; void g 0; void f 0
NameTwice(Function(0)): void - 0
NameTwice(Function(0)): void a\0 0
NameTwice(Function(0)): int f 8; name 0 0 a; block 0 a; in 0 0 ret param 0 0
NoTerminator(Block(0)): void f 0; block 0 -
OperandType(Inst(0)): int f 8; block 0 -; in 0 0 ret zero 64
OperandType(Function(0)): takes_void f 0
TooDeep(Function(0)): nested f 1000
Ok: nested f 999
OperandCount(Inst(0)): int f 8; block 0 -; in 0 0 ret_void
BlockOutside(Inst(0)): int f 8; int g 8; block 0 -; in 0 0 ret param 1 0
IntrinsicBody(Function(0)): void llvm.x 0; block 0 -; in 0 0 ret_void
FunctionSpace(Function(0)): void f 1
Ok: int g 32; name 0 0 a; name 0 1 b; block 0 entry; in 0 0 add param 0 0 param 0 1 s; in 0 0 ret result 0 0 0
OperandType(Inst(0)): int f 8; block 0 entry; in 0 0 add param 0 0 zero 64 s; in 0 0 ret result 0 0 0
OperandType(Inst(1)): void f 0; block 0 -; in 0 0 ret_void; block 0 -; in 0 1 add result 0 0 0 result 0 0 0 -; in 0 1 ret_void
BlockOutside(Inst(0)): int f 64; int g 64; block 0 entry; in 0 0 add param 1 0 zero 64 s; in 0 0 ret result 0 0 0
BlockOutside(Inst(2)): int f 64; int g 64; block 0 -; in 0 0 add zero 64 zero 64 -; in 0 0 ret result 0 0 0; block 1 entry; in 1 0 add zero 64 result 0 0 0 s; in 1 0 ret result 1 0 0
NameTwice(Function(0)): int f 64; block 0 -; in 0 0 add param 0 0 param 0 0 s; in 0 0 add param 0 0 param 0 0 s; in 0 0 ret param 0 0
NoTerminator(Block(0)): int f 64; block 0 -; in 0 0 ret param 0 0; in 0 0 add param 0 0 param 0 0 -
NoTerminator(Block(0)): int f 64; block 0 -; in 0 0 add param 0 0 param 0 0 -
Ok: fork; in 0 3 phi p; entry zero 64 0 1 0 3 0; entry param 0 0 0 2 0 3 0; in 0 3 ret result 0 3 0
PhiPlace(Block(4)): fork; in 0 3 icmp zero 64 zero 64; in 0 3 phi p; entry zero 64 0 1 0 3 1; entry zero 64 0 2 0 3 1; in 0 3 ret result 0 3 1
OperandType(Inst(5)): fork; in 0 3 phi p; entry zero 64 0 1 0 3 0; entry zero 8 0 2 0 3 0; in 0 3 ret result 0 3 0
PhiEntries(Inst(5)): fork; in 0 3 phi p; entry zero 64 0 1 0 3 0; entry zero 64 0 1 0 3 0; in 0 3 ret result 0 3 0
BlockOutside(Inst(5)): fork; in 0 3 phi p; entry zero 64 0 1 0 3 0; entry param 0 0 1 0 0 3 0; in 0 3 ret result 0 3 0
PhiEntries(Inst(2)): int f 64; block 0 -; block 0 -; in 0 0 icmp zero 64 param 0 0; in 0 0 cond result 0 0 0 0 1 0 1; in 0 1 phi p; entry zero 64 0 0 0 1 0; entry param 0 0 0 0 0 1 0; in 0 1 ret result 0 1 0
PhiEntries(Inst(0)): int f 64; block 0 -; in 0 0 phi -; in 0 0 ret result 0 0 0
EntryHasPreds(Function(0)): int f 64; block 0 -; in 0 0 br 0 0
OperandType(Inst(0)): int f 64; block 0 -; in 0 0 icmp zero 64 zero 8; in 0 0 unreachable
OperandType(Inst(0)): int f 64; block 0 -; block 0 -; in 0 0 cond zero 64 0 1 0 1; in 0 1 unreachable
BlockOutside(Inst(2)): int f 64; int g 64; block 1 -; block 0 -; block 0 -; in 1 0 unreachable; in 0 1 unreachable; in 0 0 br 1 0
BlockOutside(Inst(3)): int f 64; int g 64; block 1 -; block 0 -; block 0 -; in 1 0 unreachable; in 0 1 unreachable; in 0 0 icmp zero 64 zero 64; in 0 0 cond result 0 0 0 0 1 1 0
BlockOutside(Inst(0)): int f 64; block 0 -; in 0 0 ret hole
";

/// Two functions: the first block of the one leads to two, which lead to its last; the other has a block.
const FORK: &str =
    "int f 64; int g 64; block 1 -; block 0 entry; block 0 left; block 0 right; block 0 -; \
    in 1 0 unreachable; in 0 0 icmp zero 64 zero 64; in 0 0 cond result 0 0 0 0 1 0 2; in 0 1 br 0 3; in 0 2 br 0 3";

// ---- what words name: None says that it is not there

/// A word that says what a call, an instruction or a value is.
#[derive(Clone, Copy)]
enum Keyword {
    Int,
    Void,
    TakesVoid,
    Nested,
    Name,
    Block,
    In,
    Entry,
    Add,
    ICmp,
    Phi,
    Br,
    Cond,
    Ret,
    RetVoid,
    Unreachable,
    Zero,
    Hole,
    Param,
    Result,
}

/// How each is written.
const KEYWORDS: &[(&str, Keyword)] = &[
    ("int", Keyword::Int),
    ("void", Keyword::Void),
    ("takes_void", Keyword::TakesVoid),
    ("nested", Keyword::Nested),
    ("name", Keyword::Name),
    ("block", Keyword::Block),
    ("in", Keyword::In),
    ("entry", Keyword::Entry),
    ("add", Keyword::Add),
    ("icmp", Keyword::ICmp),
    ("phi", Keyword::Phi),
    ("br", Keyword::Br),
    ("cond", Keyword::Cond),
    ("ret", Keyword::Ret),
    ("ret_void", Keyword::RetVoid),
    ("unreachable", Keyword::Unreachable),
    ("zero", Keyword::Zero),
    ("hole", Keyword::Hole),
    ("param", Keyword::Param),
    ("result", Keyword::Result),
];

/// The keyword that the next word is.
fn next_keyword(words: &mut SplitWhitespace<'_>) -> Option<Keyword> {
    let word = word(words);
    for (text, keyword) in KEYWORDS {
        if *text == word {
            return Some(*keyword);
        }
    }
    None
}

fn name<'a>(words: &mut SplitWhitespace<'a>) -> &'a str {
    let word = word(words);
    if word == "-" { "" } else { word }
}

fn function(m: &LLVMModule, words: &mut SplitWhitespace<'_>) -> Option<LLVMFunction>
    ensures { IfSome result (λ f. f.0 < length m.now.functions) }
{
    let f = number(words)?;
    if f < m.functions() {
        Some(LLVMFunction(f))
    } else {
        None
    }
}

fn block(m: &LLVMModule, words: &mut SplitWhitespace<'_>) -> Option<LLVMBasicBlock>
    ensures { IfSome result (IsBlock m.now) }
{
    let f = function(m, words)?;
    let place = number(words)?;
    m.blocks(f).get(place as usize).copied()
}

fn result(m: &LLVMModule, words: &mut SplitWhitespace<'_>) -> Option<LLVMInstRef>
    ensures { IfSome result (λ i. i.0 < length m.now.insts) }
{
    let block = block(m, words)?;
    let place = number(words)?;
    m.instructions(block).get(place as usize).copied()
}

fn param(m: &LLVMModule, words: &mut SplitWhitespace<'_>) -> Option<LLVMValue>
    ensures { IfSome result (IsValue m.now) }
{
    let f = function(m, words)?;
    let place = number(words)?;
    match m.type_kind(m.function_type(f)) {
        LLVMTypeKind::Function { params, .. } if (place as usize) < params.as_slice().len() => {
            Some(LLVMValue::Param(f, place))
        }
        _ => None,
    }
}

// ---- values: None says that it is not there, or no memory

/// An integer type.
fn int(m: &mut LLVMModule, width: u32) -> Option<LLVMType>
    ensures kind { IfSome result (λ t. slice_get m.new.types t.0 ≡ Some (kinds.Int width)) }
    ensures within { IfSome result (λ t. t.0 < length m.new.types) }
    ensures kept { m.new ≡ record m.old { types = m.new.types } }
{
    if width == 0 || 64 < width {
        return None;
    }
    m.type_get(LLVMTypeKind::Int(width)).ok()
}

/// Arrays of arrays of one element, so many levels with the innermost.
fn nested(m: &mut LLVMModule, levels: u32) -> Option<LLVMType>
    ensures { IfSome result (λ t. t.0 < length m.new.types) }
{
    let mut ty = int(m, 8)?;
    for _ in 1..levels {
        if !is_array_of(1, shape_of(m.type_kind(ty))) {
            return None;
        }
        ty = m.type_get(LLVMTypeKind::Array(1, ty)).ok()?;
    }
    Some(ty)
}

/// The zero of a width, or a placeholder.
fn constant(m: &mut LLVMModule, width: u32, is_hole: bool) -> Option<LLVMValue>
    ensures value { IfSome result (IsValue m.new) }
    ensures blocks { m.new.blocks ≡ m.old.blocks }
    ensures kept { (v : LLVMValue) → IsValue m.old v → IsValue m.new v }
{
    let int = int(m, width)?;
    let kind = if is_hole {
        LLVMConstKind::Placeholder(0, int)
    } else {
        LLVMConstKind::Int(int, 0)
    };
    let constant = m.const_get(kind).ok()?;
    Some(LLVMValue::Const(constant))
}

fn value(m: &mut LLVMModule, words: &mut SplitWhitespace<'_>) -> Option<LLVMValue>
    ensures value { IfSome result (IsValue m.new) }
    ensures blocks { m.new.blocks ≡ m.old.blocks }
    ensures kept { (v : LLVMValue) → IsValue m.old v → IsValue m.new v }
{
    match next_keyword(words)? {
        Keyword::Zero => constant(m, number(words)?, false),
        Keyword::Hole => constant(m, 64, true),
        Keyword::Param => param(m, words),
        Keyword::Result => Some(LLVMValue::Inst(result(m, words)?)),
        _ => None,
    }
}

/// Two values.
fn values(m: &mut LLVMModule, words: &mut SplitWhitespace<'_>) -> Option<(LLVMValue, LLVMValue)>
    ensures values { IfSome result (λ v. IsValue m.new v.0 × IsValue m.new v.1) }
    ensures blocks { m.new.blocks ≡ m.old.blocks }
{
    let lhs = value(m, words)?;
    let rhs = value(m, words)?;
    Some((lhs, rhs))
}

// ---- calls: None says that one was not done

fn cond(m: &mut LLVMModule, words: &mut SplitWhitespace<'_>) -> Option<LLVMInst>
    ensures values { IfSome result (HasValues m.new) }
    ensures blocks { m.new.blocks ≡ m.old.blocks }
{
    let condition = value(m, words)?;
    let yes = block(m, words)?;
    let no = block(m, words)?;
    Some(LLVMInst::cond_br(condition, yes, no))
}

fn inst(alloc: Global, m: &mut LLVMModule, words: &mut SplitWhitespace<'_>) -> Option<LLVMInst>
    ensures values { IfSome result (HasValues m.new) }
    ensures blocks { m.new.blocks ≡ m.old.blocks }
{
    match next_keyword(words)? {
        Keyword::Add => {
            let (lhs, rhs) = values(m, words)?;
            let flags = OverflowFlags {
                nuw: false,
                nsw: true,
            };
            Some(LLVMInst::add(lhs, rhs, flags))
        }
        Keyword::ICmp => {
            let (lhs, rhs) = values(m, words)?;
            Some(LLVMInst::icmp(lhs, rhs, LLVMIntPredicate::LLVMIntEQ))
        }
        Keyword::Phi => {
            let int = int(m, 64)?;
            Some(LLVMInst::Phi(int, ShortList::zero()))
        }
        Keyword::Br => Some(LLVMInst::br(block(m, words)?)),
        Keyword::Cond => cond(m, words),
        Keyword::Ret => Some(LLVMInst::ret(Some(value(m, words)?))),
        Keyword::RetVoid => Some(LLVMInst::ret(None)),
        Keyword::Unreachable => Some(LLVMInst::unreachable()),
        _ => None,
    }
}

/// A new last instruction of a block, with its name where it has a result.
fn build(m: &mut LLVMModule, block: LLVMBasicBlock, inst: LLVMInst, name: &str) -> Option<()>
    requires block { block.0 < length m.old.blocks }
    requires values { HasValues m.old inst }
{
    let name = if m.result_type(&inst).is_some() {
        name
    } else {
        ""
    };
    m.build(block, inst, name).ok()?;
    Some(())
}

fn add_inst(alloc: Global, m: &mut LLVMModule, words: &mut SplitWhitespace<'_>) -> Option<()> {
    let block = block(m, words)?;
    let inst = inst(alloc, m, words)?;
    build(m, block, inst, name(words))
}

fn add_entry(m: &mut LLVMModule, words: &mut SplitWhitespace<'_>) -> Option<()> {
    let value = value(m, words)?;
    let block = block(m, words)?;
    let phi = result(m, words)?;
    match m.inst(phi) {
        LLVMInst::Phi(..) => m.add_incoming(phi, value, block).ok(),
        _ => None,
    }
}

fn add_block(m: &mut LLVMModule, words: &mut SplitWhitespace<'_>) -> Option<()> {
    let f = function(m, words)?;
    m.append_block(f, name(words)).ok()?;
    Some(())
}

fn set_name(m: &mut LLVMModule, words: &mut SplitWhitespace<'_>) -> Option<()> {
    match param(m, words)? {
        LLVMValue::Param(f, place) => m.set_param_name(f, place, name(words)).ok(),
        _ => None,
    }
}

fn add_function(
    alloc: Global,
    m: &mut LLVMModule,
    name: &str,
    space: u32,
    ty: LLVMType,
    params: &[LLVMType],
) -> Option<()>
    requires returned { ty.0 < length m.old.types }
    requires params { All (λ t. t.0 < length m.old.types) params.now }
{
    let params = params.to_vec(alloc).ok()?;
    let kind = LLVMTypeKind::Function {
        result: ty,
        params: Items::from_vec(params),
        variadic: false,
    };
    let ty = m.type_get(kind).ok()?;
    m.add_function(name, ty, space).ok()?;
    Some(())
}

/// What a function returns, by the word that begins its call: an integer of this width, arrays so deep, or void.
fn returned(m: &mut LLVMModule, sort: Keyword, width: u32) -> Option<LLVMType>
    ensures { IfSome result (λ t. t.0 < length m.new.types) }
{
    match sort {
        Keyword::Int => int(m, width),
        Keyword::Nested => nested(m, width),
        _ => m.type_get(LLVMTypeKind::Void).ok(),
    }
}

/// A function, by the word that begins its call.
fn add_sort(
    alloc: Global,
    m: &mut LLVMModule,
    words: &mut SplitWhitespace<'_>,
    sort: Keyword,
) -> Option<()> {
    let name = name(words);
    let number = number(words)?;
    let ty = returned(m, sort, number)?;
    match sort {
        Keyword::Int => add_function(alloc, m, name, 0, ty, &[ty, ty]),
        Keyword::TakesVoid => add_function(alloc, m, name, number, ty, &[ty]),
        Keyword::Nested => add_function(alloc, m, name, 0, ty, &[]),
        _ => add_function(alloc, m, name, number, ty, &[]),
    }
}

fn call(alloc: Global, m: &mut LLVMModule, words: &mut SplitWhitespace<'_>) -> Option<()> {
    match next_keyword(words)? {
        Keyword::Name => set_name(m, words),
        Keyword::Block => add_block(m, words),
        Keyword::In => add_inst(alloc, m, words),
        Keyword::Entry => add_entry(m, words),
        sort @ (Keyword::Int | Keyword::Void | Keyword::TakesVoid | Keyword::Nested) => {
            add_sort(alloc, m, words, sort)
        }
        _ => None,
    }
}

/// Makes the calls of a text.
fn make(alloc: Global, m: &mut LLVMModule, calls: &str) -> Option<()> {
    for text in calls.split(';') {
        call(alloc, m, &mut text.split_whitespace())?;
    }
    Some(())
}

// ---- what the check answers

/// Whether an error is this one.
fn is_error(alloc: Global, error: CheckErr, want: &str) -> bool {
    match format!(in alloc; "{error:?}") {
        Ok(text) => text.as_str() == want,
        Err(_) => false,
    }
}

/// Whether the check answers this to a module.
fn is_answer(alloc: Global, m: &LLVMModule, want: &str) -> bool {
    match check(m) {
        Ok(()) => want == "Ok",
        Err(error) => is_error(alloc, error, want),
    }
}

/// Makes a module by calls, of which `fork` stands for those of `FORK`.
fn make_row(alloc: Global, m: &mut LLVMModule, calls: &str) -> Option<()> {
    match calls.strip_prefix(" fork;") {
        Some(rest) => {
            make(alloc, m, FORK)?;
            make(alloc, m, rest)
        }
        None => make(alloc, m, calls),
    }
}

/// What is wrong with a row: with its calls, which make a module in an empty one, or with what the check answers to that.
fn fault_in(alloc: Global, m: &mut LLVMModule, want: &str, calls: &str) -> &'static str {
    if make_row(alloc, m, calls).is_none() {
        return "not made";
    }
    if is_answer(alloc, m, want) {
        ""
    } else {
        "answered otherwise"
    }
}

/// What is wrong with an answer and the calls of its module, if anything.
fn fault_of(alloc: Global, want: &str, calls: &str) -> &'static str {
    match LLVMModule::new(alloc, "m") {
        Ok(mut m) => fault_in(alloc, &mut m, want, calls),
        Err(_) => "no memory",
    }
}

/// What is wrong with a row, if anything.
fn fault(alloc: Global, row: &str) -> &'static str {
    match row.split_once(':') {
        Some((want, calls)) => fault_of(alloc, want, calls),
        None => "no answer",
    }
}

#[test]
fn answers_each_row(rt: HostRuntime) {
    for row in ROWS.lines() {
        let fault = fault(rt.alloc(), row);
        assert!(rt; fault.is_empty(), "{fault}: {row}");
    }
}
