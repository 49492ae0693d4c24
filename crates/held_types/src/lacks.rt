//! Constants that no import gives an attribute: integers that are too wide, and splats of scalable vectors.

ghost use Rattle.std.specs.Prelude.{◌≡◌, ◌<◌, ℕ, All, IfOk, IfSome, None, length, map, slice_get};
ghost use Rattle.llvm_core.specs.declared.code.LLVMValue.TheVariants as values;
ghost use Rattle.llvm_core.specs.declared.types.LLVMTypeKind.TheVariants as T;
ghost use Rattle.llvm_core.specs.Parts.{IsEntry, IsValue};
ghost use Rattle.llvm_core.specs.Sound.{IsModule};
ghost use Rattle.llvm_core.specs.Data.{consts_at, trees_of};
ghost use Rattle.held_types.specs.Lacks.{AreTold, HasLack, LacksIt, LacksNone, Tells, TellsAny, UsesHeld, UsesLack, tree_in};
ghost use Rattle.held_types.specs.declared.lacks.Lack.TheVariants as lacks;

use llvm_core::code::{LLVMInst, LLVMValue, PhiEntry};
use llvm_core::consts::LLVMConstKind;
use llvm_core::module::LLVMModule;
use llvm_core::numbers::{LLVMConst, LLVMInstRef, LLVMType};
use llvm_core::types::LLVMTypeKind;
use std::alloc::{AllocError, Global};

/// The greatest width of an integer constant that is translated.
const MAX_SHORT: u32 = 64;

/// What the dialect lacks of a constant, or of one that it is made of.
#[derive(Clone, Copy, PartialEq, Eq, Debug, Drop)]
pub enum Lack {
    /// Room for an integer of this width, which is more than 64 bits.
    TooWide(u32),
    /// A splat of a scalable vector.
    ScalableSplat,
}

/// What is lacked of an integer of a type.
fn int_lack(m: &LLVMModule, ty: LLVMType) -> Option<Lack>
    requires { (width : ℕ) × (slice_get m.now.types ty.0 ≡ Some (T.Int width)) }
    ensures none { result ≡ None → (width : ℕ) → slice_get m.now.types ty.0 ≡ Some (T.Int width) → ¬ (64 < width) }
    ensures some { IfSome result (λ l. (width : ℕ) × (slice_get m.now.types ty.0 ≡ Some (T.Int width)) × (64 < width) × (l ≡ lacks.TooWide width)) }
{
    match m.type_kind(ty) {
        LLVMTypeKind::Int(width) => (*width > MAX_SHORT).then_some(Lack::TooWide(*width)),
        _ => None,
    }
}

/// What was told of a constant.
fn told_of(m: &LLVMModule, told: &[Option<Lack>], c: LLVMConst) -> Option<Lack>
    requires told { AreTold m.now told.now }
    requires there { c.0 < length told.now }
    ensures { Tells result (tree_in m.now c) }
{
    let _ = m;
    told[c.0 as usize]
}

/// What is lacked of the first of some constants of which anything is, as was told of each.
fn first_lack(m: &LLVMModule, told: &[Option<Lack>], parts: &[LLVMConst]) -> Option<Lack>
    requires told { AreTold m.now told.now }
    requires there { All (λ c. c.0 < length told.now) parts.now }
    ensures { TellsAny result (consts_at (trees_of m.now).consts parts.now) }
{
    for c in parts {
        if let Some(lack) = told_of(m, told, *c) {
            return Some(lack);
        }
    }
    None
}

/// What is lacked of a constant, as was told of those before it.
fn lack_of(m: &LLVMModule, told: &[Option<Lack>], c: LLVMConst) -> Option<Lack>
    requires sound { IsModule m.now }
    requires there { c.0 < length m.now.consts }
    requires next { length told.now ≡ c.0 }
    requires told { AreTold m.now told.now }
    ensures { Tells result (tree_in m.now c) }
{
    match m.const_kind(c) {
        LLVMConstKind::Int(ty, _) => int_lack(m, *ty),
        LLVMConstKind::List(_, parts) => first_lack(m, told, parts.as_slice()),
        LLVMConstKind::Splat(..) => Some(Lack::ScalableSplat),
        LLVMConstKind::Filled(..) => None,
        LLVMConstKind::Bytes(..) => None,
        LLVMConstKind::Placeholder(..) => None,
    }
}

/// What is lacked of each constant of a module.
fn lacks_of(alloc: Global, m: &LLVMModule) -> Result<Vec<Option<Lack>>, AllocError>
    requires sound { IsModule m.now }
    ensures count { IfOk result (λ ls. length ls.items ≡ length m.now.consts) }
    ensures told { IfOk result (λ ls. AreTold m.now ls.items) }
{
    let count = m.const_count();
    let mut told = Vec::with_capacity(alloc, count as usize)?;
    for i in 0..count {
        let lack = lack_of(m, told.as_slice(), LLVMConst(i));
        told.push(lack)?;
    }
    Ok(told)
}

/// What is lacked of a value.
fn value_lack(m: &LLVMModule, told: &[Option<Lack>], value: LLVMValue) -> Option<Lack>
    requires there { IsValue m.now value }
    requires count { length told.now ≡ length m.now.consts }
    requires told { AreTold m.now told.now }
    ensures none { result ≡ None → LacksNone m.now value }
    ensures some { IfSome result (λ l. LacksIt m.now l value) }
{
    match value {
        LLVMValue::Const(c) => told_of(m, told, c),
        LLVMValue::Param(_, _) => None,
        LLVMValue::Inst(_) => None,
    }
}

/// What is lacked of one among operands.
fn operand_lack(m: &LLVMModule, told: &[Option<Lack>], values: &[LLVMValue]) -> Option<Lack>
    requires there { All (IsValue m.now) values.now }
    requires count { length told.now ≡ length m.now.consts }
    requires told { AreTold m.now told.now }
    ensures none { result ≡ None → All (LacksNone m.now) values.now }
    ensures some { IfSome result (λ l. HasLack m.now l values.now) }
{
    for value in values {
        if let Some(lack) = value_lack(m, told, *value) {
            return Some(lack);
        }
    }
    None
}

/// What is lacked of one among the values of a phi's entries.
fn entry_lack(m: &LLVMModule, told: &[Option<Lack>], entries: &[PhiEntry]) -> Option<Lack>
    requires there { All (IsEntry m.now) entries.now }
    requires count { length told.now ≡ length m.now.consts }
    requires told { AreTold m.now told.now }
    ensures none { result ≡ None → All (LacksNone m.now) (map (λ e. e.value) entries.now) }
    ensures some { IfSome result (λ l. HasLack m.now l (map (λ e. e.value) entries.now)) }
{
    for entry in entries {
        if let Some(lack) = value_lack(m, told, entry.value) {
            return Some(lack);
        }
    }
    None
}

/// What is lacked of a constant that an instruction uses.
fn inst_lack(m: &LLVMModule, told: &[Option<Lack>], i: LLVMInstRef) -> Option<Lack>
    requires sound { IsModule m.now }
    requires within { i.0 < length m.now.insts }
    requires count { length told.now ≡ length m.now.consts }
    requires told { AreTold m.now told.now }
    ensures none { result ≡ None → UsesHeld m.now i.0 }
    ensures some { IfSome result (λ l. UsesLack m.now l i.0) }
{
    match m.inst(i) {
        LLVMInst::Phi(_, entries) => entry_lack(m, told, entries.as_slice()),
        LLVMInst::Row(row) => operand_lack(m, told, row.operands.as_slice()),
    }
}

/// What is lacked of a constant that an instruction of the module uses: of several the first in the order of the instructions.
pub fn used_lack(alloc: Global, m: &LLVMModule) -> Result<Option<Lack>, AllocError>
    requires sound { IsModule m.now }
    ensures none { IfOk result (λ o. o ≡ None → (i : ℕ) → i < length m.now.insts → UsesHeld m.now i) }
    ensures some { IfOk result (λ o. IfSome o (λ l. (i : ℕ) × UsesLack m.now l i)) }
{
    let told = lacks_of(alloc, m)?;
    for i in 0..m.inst_count() {
        if let Some(lack) = inst_lack(m, told.as_slice(), LLVMInstRef(i)) {
            return Ok(Some(lack));
        }
    }
    Ok(None)
}
