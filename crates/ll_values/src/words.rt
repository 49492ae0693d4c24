//! Words of instructions, and types and literals as tokens write them.

ghost use Rattle.std.specs.Prelude.{◌≡◌, ◌≤◌, ◌-◌, ◌^◌, IfSome};
ghost use Rattle.std.specs.Option.{option_map};
ghost use Rattle.kinds.specs.Types.{IntType};
ghost use Rattle.ll_literals.specs.Numbers.{number_of, up_to};
ghost use Rattle.ll_values.specs.Words.{binary_op, cast_op, three_op, predicate_of, align_said, fill_of, flat_tree, flat_type};
ghost use Rattle.ll_values.specs.Values.{int_type};

use kinds::access::Align;
use kinds::fill::Fill;
use kinds::op::{LLVMIntPredicate, Op, OverflowFlags};
use kinds::types::{Floating, OtherType};
use ll_literals::numbers::number;

/// The row of a word of an operation on two values of one type.
pub fn binary_op(word: &[u8], flags: OverflowFlags) -> Option<Op>
    ensures { result ≡ binary_op word.now flags }
{
    match word {
        b"add" => Some(Op::Add(flags)),
        b"sub" => Some(Op::Sub(flags)),
        b"mul" => Some(Op::Mul(flags)),
        b"shl" => Some(Op::Shl(flags)),
        b"udiv" => Some(Op::UDiv),
        b"sdiv" => Some(Op::SDiv),
        b"urem" => Some(Op::URem),
        b"srem" => Some(Op::SRem),
        b"lshr" => Some(Op::LShr),
        b"ashr" => Some(Op::AShr),
        b"and" => Some(Op::And),
        b"xor" => Some(Op::Xor),
        _ => None,
    }
}

/// The row of a word that takes a value to another type.
pub fn cast_op(word: &[u8]) -> Option<Op>
    ensures { result ≡ cast_op word.now }
{
    if word == b"sext".as_slice() {
        return Some(Op::SExt);
    }
    if word == b"ptrtoint".as_slice() {
        return Some(Op::PtrToInt);
    }
    if word == b"inttoptr".as_slice() {
        return Some(Op::IntToPtr);
    }
    if word == b"addrspacecast".as_slice() {
        return Some(Op::AddrSpaceCast);
    }
    None
}

/// The row of a word of an operation on three values.
pub fn three_op(word: &[u8]) -> Option<Op>
    ensures { result ≡ three_op word.now }
{
    if word == b"select".as_slice() {
        return Some(Op::Select);
    }
    None
}

/// How a word of `icmp` compares.
pub fn predicate(word: &[u8]) -> Option<LLVMIntPredicate>
    ensures { result ≡ predicate_of word.now }
{
    match word {
        b"eq" => Some(LLVMIntPredicate::LLVMIntEQ),
        b"ne" => Some(LLVMIntPredicate::LLVMIntNE),
        b"ugt" => Some(LLVMIntPredicate::LLVMIntUGT),
        b"uge" => Some(LLVMIntPredicate::LLVMIntUGE),
        b"ult" => Some(LLVMIntPredicate::LLVMIntULT),
        b"ule" => Some(LLVMIntPredicate::LLVMIntULE),
        b"sgt" => Some(LLVMIntPredicate::LLVMIntSGT),
        b"sge" => Some(LLVMIntPredicate::LLVMIntSGE),
        b"slt" => Some(LLVMIntPredicate::LLVMIntSLT),
        b"sle" => Some(LLVMIntPredicate::LLVMIntSLE),
        _ => None,
    }
}

/// Zero, undef or poison, by its word.
pub fn fill_of(word: &[u8]) -> Option<Fill>
    ensures { result ≡ fill_of word.now }
{
    if word == b"zeroinitializer".as_slice() {
        return Some(Fill::Zero);
    }
    if word == b"undef".as_slice() {
        return Some(Fill::Undef);
    }
    if word == b"poison".as_slice() {
        return Some(Fill::Poison);
    }
    None
}

/// A type that is a word alone.
#[derive(Clone, Copy, PartialEq, Eq, Debug, Drop)]
pub enum Flat {
    Floating(Floating),
    Other(OtherType),
}

/// The type that a word is alone.
pub fn flat_of(word: &[u8]) -> Option<Flat>
    ensures { option_map flat_tree result ≡ flat_type word.now }
{
    if word == b"half".as_slice() {
        return Some(Flat::Floating(Floating::Half));
    }
    if word == b"bfloat".as_slice() {
        return Some(Flat::Floating(Floating::BFloat));
    }
    if word == b"float".as_slice() {
        return Some(Flat::Floating(Floating::Float));
    }
    if word == b"double".as_slice() {
        return Some(Flat::Floating(Floating::Double));
    }
    if word == b"x86_fp80".as_slice() {
        return Some(Flat::Other(OtherType::X86Fp80));
    }
    if word == b"fp128".as_slice() {
        return Some(Flat::Other(OtherType::Fp128));
    }
    if word == b"ppc_fp128".as_slice() {
        return Some(Flat::Other(OtherType::PpcFp128));
    }
    if word == b"x86_amx".as_slice() {
        return Some(Flat::Other(OtherType::X86Amx));
    }
    if word == b"token".as_slice() {
        return Some(Flat::Other(OtherType::Token));
    }
    None
}

/// The greatest number of an address space, 2^24 - 1.
const MAX_SPACE: u128 = 16_777_215;

/// The number of an address space, below 2^24.
pub fn space_of(text: &[u8]) -> Option<u32>
    ensures { result ≡ up_to (2 ^ 24 - 1) (number_of text.now) }
{
    let space = number(text, MAX_SPACE)?;
    Some(space as u32)
}

/// The greatest alignment in bytes, 2^31.
const MAX_ALIGN: u128 = 2_147_483_648;

/// The alignment that digits say in bytes.
pub fn align_said(text: &[u8]) -> Option<Align>
    ensures { result ≡ align_said text.now }
{
    let bytes = number(text, MAX_ALIGN)?;
    Align::of(bytes as u32)
}

/// The width of an integer type, of 1 to 2^23 bits.
pub fn int_width(text: &[u8]) -> Option<u32>
    ensures made { option_map (λ w. IntType w) result ≡ int_type text.now }
    ensures least { IfSome result (λ w. 1 ≤ w) }
    ensures most { IfSome result (λ w. w ≤ 8388608) }
{
    let digits = match text {
        // Most types are this one.
        b"i32" => return Some(32),
        [b'i', digits @ ..] => digits,
        _ => return None,
    };
    let width = number(digits, 1 << 23)? as u32;
    if width == 0 {
        return None;
    }
    Some(width)
}
