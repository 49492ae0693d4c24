//! The table: an instruction with its immediates, the rule of each and its word in the dialect.

ghost use Rattle.std.specs.Prelude.{◌≡◌};
ghost use Rattle.kinds.specs.Table.{immediates_of, rule_of, op_word};

use crate::access::Access;
use crate::rules::{Cast, Family, Fit, Gives, Leads, Rule, Takes};

/// Which overflows make the result poison (Language Reference, "add" Instruction).
#[derive(Clone, Copy, PartialEq, Eq, Hash, Debug, Drop)]
pub struct OverflowFlags {
    /// No unsigned wrap.
    pub nuw: bool,
    /// No signed wrap.
    pub nsw: bool,
}

/// How `icmp` compares two integers or pointers, or vectors of these (Language Reference, "icmp" Instruction).
#[derive(Clone, Copy, PartialEq, Eq, Hash, Debug, Drop)]
pub enum LLVMIntPredicate {
    LLVMIntEQ,
    LLVMIntNE,
    LLVMIntUGT,
    LLVMIntUGE,
    LLVMIntULT,
    LLVMIntULE,
    LLVMIntSGT,
    LLVMIntSGE,
    LLVMIntSLT,
    LLVMIntSLE,
}

/// An instruction of either side that is no phi, without what it names: a variant for each row of the table, with its
/// immediates.
#[derive(Clone, Copy, PartialEq, Eq, Hash, Debug, Drop)]
pub enum Op {
    /// `add` (Language Reference, "add" Instruction).
    Add(OverflowFlags),
    /// `sub` (Language Reference, "sub" Instruction).
    Sub(OverflowFlags),
    /// `mul` (Language Reference, "mul" Instruction).
    Mul(OverflowFlags),
    /// `shl` (Language Reference, "shl" Instruction).
    Shl(OverflowFlags),
    /// `udiv` (Language Reference, "udiv" Instruction).
    UDiv,
    /// `sdiv` (Language Reference, "sdiv" Instruction).
    SDiv,
    /// `urem` (Language Reference, "urem" Instruction).
    URem,
    /// `srem` (Language Reference, "srem" Instruction).
    SRem,
    /// `lshr` (Language Reference, "lshr" Instruction).
    LShr,
    /// `ashr` (Language Reference, "ashr" Instruction).
    AShr,
    /// `and` (Language Reference, "and" Instruction).
    And,
    /// `or` (Language Reference, "or" Instruction).
    Or,
    /// `xor` (Language Reference, "xor" Instruction).
    Xor,
    /// `icmp` (Language Reference, "icmp" Instruction).
    ICmp(LLVMIntPredicate),
    /// `trunc` (Language Reference, "trunc .. to" Instruction).
    Trunc,
    /// `sext` (Language Reference, "sext .. to" Instruction).
    SExt,
    /// `zext` (Language Reference, "zext .. to" Instruction); true is the flag `nneg`.
    ZExt(bool),
    /// `ptrtoint` (Language Reference, "ptrtoint .. to" Instruction).
    PtrToInt,
    /// `inttoptr` (Language Reference, "inttoptr .. to" Instruction).
    IntToPtr,
    /// `addrspacecast` (Language Reference, "addrspacecast .. to" Instruction).
    AddrSpaceCast,
    /// `select` (Language Reference, "select" Instruction).
    Select,
    /// `freeze` (Language Reference, "freeze" Instruction).
    Freeze,
    /// `load` (Language Reference, "load" Instruction).
    Load(Access),
    /// `store` (Language Reference, "store" Instruction).
    Store(Access),
    /// `va_arg` (Language Reference, "va_arg" Instruction).
    VAArg,
    /// `br` to a block (Language Reference, "br" Instruction).
    Br,
    /// `br` on a condition: to the first block where it is true, else to the second.
    CondBr,
    /// `ret` (Language Reference, "ret" Instruction).
    Ret,
    /// `unreachable` (Language Reference, "unreachable" Instruction).
    Unreachable,
}

/// What a row holds besides what it names: a variant for each sort of it.
#[derive(Clone, Copy, PartialEq, Eq, Debug, Drop)]
pub enum Immediates {
    Nothing,
    Overflow(OverflowFlags),
    Predicate(LLVMIntPredicate),
    /// Whether the operand is known not to be negative.
    NonNegative(bool),
    /// How memory is read or written.
    Access(Access),
}

/// A line of the table.
const fn rule(takes: Takes, gives: Gives, leads: Leads, family: Family) -> Rule
    ensures { result ≡ record { takes = takes; gives = gives; leads = leads; family = family } }
{
    Rule {
        takes,
        gives,
        leads,
        family,
    }
}

impl Op {
    /// What it takes, what it gives, where it leads and what it does in a run.
    #[rattlefmt::skip]
    pub fn rule(self) -> Rule
        ensures { result ≡ rule_of self }
    {
        match self {
            Op::Add(_) => rule(Takes::Two(Fit::Number, Fit::First), Gives::First, Leads::On, Family::Builds),
            Op::Sub(_) => rule(Takes::Two(Fit::Number, Fit::First), Gives::First, Leads::On, Family::Builds),
            Op::Mul(_) => rule(Takes::Two(Fit::Number, Fit::First), Gives::First, Leads::On, Family::Shows),
            Op::Shl(_) => rule(Takes::Two(Fit::Number, Fit::First), Gives::First, Leads::On, Family::Shows),
            Op::UDiv => rule(Takes::Two(Fit::Number, Fit::First), Gives::First, Leads::On, Family::Shows),
            Op::SDiv => rule(Takes::Two(Fit::Number, Fit::First), Gives::First, Leads::On, Family::Shows),
            Op::URem => rule(Takes::Two(Fit::Number, Fit::First), Gives::First, Leads::On, Family::Shows),
            Op::SRem => rule(Takes::Two(Fit::Number, Fit::First), Gives::First, Leads::On, Family::Shows),
            Op::LShr => rule(Takes::Two(Fit::Number, Fit::First), Gives::First, Leads::On, Family::Shows),
            Op::AShr => rule(Takes::Two(Fit::Number, Fit::First), Gives::First, Leads::On, Family::Shows),
            Op::And => rule(Takes::Two(Fit::Number, Fit::First), Gives::First, Leads::On, Family::Shows),
            Op::Or => rule(Takes::Two(Fit::Number, Fit::First), Gives::First, Leads::On, Family::Shows),
            Op::Xor => rule(Takes::Two(Fit::Number, Fit::First), Gives::First, Leads::On, Family::Shows),
            Op::ICmp(_) => rule(Takes::Two(Fit::Comparable, Fit::First), Gives::Bits, Leads::On, Family::Shows),
            Op::Trunc => rule(Takes::One(Fit::Cast(Cast::ToNarrower)), Gives::Written, Leads::On, Family::Builds),
            Op::SExt => rule(Takes::One(Fit::Cast(Cast::ToWider)), Gives::Written, Leads::On, Family::Shows),
            Op::ZExt(_) => rule(Takes::One(Fit::Cast(Cast::ToWider)), Gives::Written, Leads::On, Family::Shows),
            Op::PtrToInt => rule(Takes::One(Fit::Cast(Cast::ToNumber)), Gives::Written, Leads::On, Family::Builds),
            Op::IntToPtr => rule(Takes::One(Fit::Cast(Cast::ToPointer)), Gives::Written, Leads::On, Family::Builds),
            Op::AddrSpaceCast => rule(Takes::One(Fit::Cast(Cast::ToSpace)), Gives::Written, Leads::On, Family::Shows),
            Op::Select => rule(Takes::Three(Fit::Bits, Fit::Chosen, Fit::Second), Gives::Second, Leads::On, Family::Shows),
            Op::Freeze => rule(Takes::One(Fit::Any), Gives::First, Leads::On, Family::Shows),
            Op::Load(_) => rule(Takes::One(Fit::Place), Gives::Written, Leads::On, Family::Shows),
            Op::Store(_) => rule(Takes::Two(Fit::Sized, Fit::Address), Gives::Nothing, Leads::On, Family::Shows),
            Op::VAArg => rule(Takes::One(Fit::Address), Gives::Written, Leads::On, Family::Shows),
            Op::Br => rule(Takes::Nothing, Gives::Nothing, Leads::To(1), Family::Shows),
            Op::CondBr => rule(Takes::One(Fit::Bit), Gives::Nothing, Leads::To(2), Family::Shows),
            Op::Ret => rule(Takes::Return, Gives::Nothing, Leads::To(0), Family::Shows),
            Op::Unreachable => rule(Takes::Nothing, Gives::Nothing, Leads::To(0), Family::Shows),
        }
    }

    /// Its immediates.
    pub fn immediates(self) -> Immediates
        ensures { result ≡ immediates_of self }
    {
        match self {
            Op::Add(flags) => Immediates::Overflow(flags),
            Op::Sub(flags) => Immediates::Overflow(flags),
            Op::Mul(flags) => Immediates::Overflow(flags),
            Op::Shl(flags) => Immediates::Overflow(flags),
            Op::UDiv => Immediates::Nothing,
            Op::SDiv => Immediates::Nothing,
            Op::URem => Immediates::Nothing,
            Op::SRem => Immediates::Nothing,
            Op::LShr => Immediates::Nothing,
            Op::AShr => Immediates::Nothing,
            Op::And => Immediates::Nothing,
            Op::Or => Immediates::Nothing,
            Op::Xor => Immediates::Nothing,
            Op::ICmp(predicate) => Immediates::Predicate(predicate),
            Op::Trunc => Immediates::Nothing,
            Op::SExt => Immediates::Nothing,
            Op::ZExt(nneg) => Immediates::NonNegative(nneg),
            Op::PtrToInt => Immediates::Nothing,
            Op::IntToPtr => Immediates::Nothing,
            Op::AddrSpaceCast => Immediates::Nothing,
            Op::Select => Immediates::Nothing,
            Op::Freeze => Immediates::Nothing,
            Op::Load(access) => Immediates::Access(access),
            Op::Store(access) => Immediates::Access(access),
            Op::VAArg => Immediates::Nothing,
            Op::Br => Immediates::Nothing,
            Op::CondBr => Immediates::Nothing,
            Op::Ret => Immediates::Nothing,
            Op::Unreachable => Immediates::Nothing,
        }
    }

    /// The word of its operation.
    pub fn word(self) -> &'static [u8]
        ensures { result.now ≡ op_word self }
    {
        match self {
            Op::Add(_) => b"llvm.add",
            Op::Sub(_) => b"llvm.sub",
            Op::Mul(_) => b"llvm.mul",
            Op::Shl(_) => b"llvm.shl",
            Op::UDiv => b"llvm.udiv",
            Op::SDiv => b"llvm.sdiv",
            Op::URem => b"llvm.urem",
            Op::SRem => b"llvm.srem",
            Op::LShr => b"llvm.lshr",
            Op::AShr => b"llvm.ashr",
            Op::And => b"llvm.and",
            Op::Or => b"llvm.or",
            Op::Xor => b"llvm.xor",
            Op::ICmp(_) => b"llvm.icmp",
            Op::Trunc => b"llvm.trunc",
            Op::SExt => b"llvm.sext",
            Op::ZExt(_) => b"llvm.zext",
            Op::PtrToInt => b"llvm.ptrtoint",
            Op::IntToPtr => b"llvm.inttoptr",
            Op::AddrSpaceCast => b"llvm.addrspacecast",
            Op::Select => b"llvm.select",
            Op::Freeze => b"llvm.freeze",
            Op::Load(_) => b"llvm.load",
            Op::Store(_) => b"llvm.store",
            Op::VAArg => b"llvm.va_arg",
            Op::Br => b"llvm.br",
            Op::CondBr => b"llvm.cond_br",
            Op::Ret => b"llvm.return",
            Op::Unreachable => b"llvm.unreachable",
        }
    }
}
