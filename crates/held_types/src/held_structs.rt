//! The structs that the types of a module's values hold, unless one holds a type for which the dialect has none, or a constant
//! is one that no import gives an attribute.

ghost use Rattle.std.specs.Prelude.{◌≡◌, ◌<◌, IfErr, IfOk, OnOk, length};
ghost use Rattle.llvm_core.specs.Sound.{IsModule};
ghost use Rattle.llvm_core.specs.Data.{data_of};
ghost use Rattle.llvm_core.specs.Form.{IsForm};
ghost use Rattle.held_types.specs.Held.{AreHeld, AreHeldStructs, IsRefusalOf, UsesConst};
ghost use Rattle.held_types.specs.Lacks.{IsLacked};
ghost use Rattle.held_types.specs.declared.lacks.Lack.{Lack};
ghost use Rattle.held_types.specs.Table.{IsTable};
ghost use Rattle.held_types.specs.Values.{IsInResult, IsInResults, IsInSignature, IsInSignatures};
ghost use Rattle.held_types.specs.Walk.{IsCause, IsWalk, Walked};
ghost use Rattle.held_types.specs.declared.held_structs.HeldErr.TheVariants as reasons;

use crate::constants::walk_constants;
use crate::lacks::{Lack, used_lack};
use crate::table::{Table, table_of};
use crate::walk::{Walk, start, visit, visit_all};
use kinds::types::{OtherType, deepest};
use llvm_core::code::LLVMValue;
use llvm_core::module::LLVMModule;
use llvm_core::numbers::{LLVMFunction, LLVMInstRef, LLVMStruct};
use llvm_core::types::LLVMTypeKind;
use std::alloc::{AllocError, AllocFailed, Global};
use thiserror::Error;

/// Why a module is refused whose values' types are looked through.
#[derive(Debug, Drop, Error)]
pub enum HeldErr {
    /// The type of a value of a function is, or holds, one for which the dialect has none.
    #[error("Lacks")]
    Lacks(OtherType),
    /// An instruction uses a constant that is, or has in it, an integer of this width, which is more than the 64 bits that an attribute
    /// holds.
    #[error("TooWide")]
    TooWide(u32),
    /// An instruction uses a constant that is, or has in it, a splat of a scalable vector.
    #[error("ScalableSplat")]
    ScalableSplat,
    /// Memory is wanting.
    #[error("NoMemory")]
    NoMemory,
}

impl From<AllocError> for HeldErr {
    ghost from_gives = { λ _ e. e ≡ reasons.NoMemory };

    fn from(_e: AllocError) -> HeldErr {
        HeldErr::NoMemory
    }
}

impl<T: Drop> From<AllocFailed<T>> for HeldErr {
    ghost from_gives = { λ _ e. e ≡ reasons.NoMemory };

    fn from(_e: AllocFailed<T>) -> HeldErr {
        HeldErr::NoMemory
    }
}

/// Goes through what a function returns and takes.
fn walk_signature(
    m: &LLVMModule,
    table: &Table<'_>,
    walk: &mut Walk,
    f: LLVMFunction,
) -> Result<(), HeldErr>
    requires within { f.0 < length m.now.functions }
    requires sound { IsModule m.now }
    requires form { IsForm (data_of m.now) }
    requires table { IsTable m.now table.now }
    requires walk { IsWalk m.now walk.old }
    ensures walk { OnOk result (Walked m.now (IsInSignature m.now f.0) walk.old walk.new) }
    ensures cause { IfErr result (IsCause (IsInSignature m.now f.0)) }
{
    match m.type_kind(m.function_type(f)) {
        LLVMTypeKind::Function { result, params, .. } => {
            visit(m, table, walk, *result, deepest())?;
            visit_all(m, table, walk, params.as_slice(), deepest())
        }
        _ => unreachable!(),
    }
}

/// Goes through what the functions of a module return and take.
fn walk_signatures(m: &LLVMModule, table: &Table<'_>, walk: &mut Walk) -> Result<(), HeldErr>
    requires sound { IsModule m.now }
    requires form { IsForm (data_of m.now) }
    requires table { IsTable m.now table.now }
    requires walk { IsWalk m.now walk.old }
    ensures walk { OnOk result (Walked m.now (IsInSignatures m.now (length m.now.functions)) walk.old walk.new) }
    ensures cause { IfErr result (IsCause (IsInSignatures m.now (length m.now.functions))) }
{
    for f in 0..m.functions() {
        walk_signature(m, table, walk, LLVMFunction(f))?;
    }
    Ok(())
}

/// Goes through the type of an instruction's result.
fn walk_result(
    m: &LLVMModule,
    table: &Table<'_>,
    walk: &mut Walk,
    i: LLVMInstRef,
) -> Result<(), HeldErr>
    requires within { i.0 < length m.now.insts }
    requires sound { IsModule m.now }
    requires form { IsForm (data_of m.now) }
    requires table { IsTable m.now table.now }
    requires walk { IsWalk m.now walk.old }
    ensures walk { OnOk result (Walked m.now (IsInResult m.now i.0) walk.old walk.new) }
    ensures cause { IfErr result (IsCause (IsInResult m.now i.0)) }
{
    visit(m, table, walk, m.type_of(LLVMValue::Inst(i)), deepest())
}

/// Goes through the types of the results of a module's instructions.
fn walk_results(m: &LLVMModule, table: &Table<'_>, walk: &mut Walk) -> Result<(), HeldErr>
    requires sound { IsModule m.now }
    requires form { IsForm (data_of m.now) }
    requires table { IsTable m.now table.now }
    requires walk { IsWalk m.now walk.old }
    ensures walk { OnOk result (Walked m.now (IsInResults m.now (length m.now.insts)) walk.old walk.new) }
    ensures cause { IfErr result (IsCause (IsInResults m.now (length m.now.insts))) }
{
    for i in 0..m.inst_count() {
        walk_result(m, table, walk, LLVMInstRef(i))?;
    }
    Ok(())
}

/// Refuses a constant that no import gives an attribute.
fn refuse_lacks(alloc: Global, source: &LLVMModule) -> Result<(), HeldErr>
    requires sound { IsModule source.now }
    ensures held { OnOk result ((l : Lack) → ¬ UsesConst (data_of source.now) (IsLacked l)) }
    ensures cause { IfErr result (IsRefusalOf (data_of source.now)) }
{
    match used_lack(alloc, source)? {
        Some(Lack::TooWide(width)) => Err(HeldErr::TooWide(width)),
        Some(Lack::ScalableSplat) => Err(HeldErr::ScalableSplat),
        None => Ok(()),
    }
}

/// The structs with a name that the types of a module's values hold, each behind those that its fields hold.
/// Refuses a module of which such a type is, or holds, one for which the dialect has none, and one that uses a constant that is, or
/// has in it, an integer of more than 64 bits or a splat of a scalable vector.
pub fn held_structs(alloc: Global, source: &LLVMModule) -> Result<Vec<LLVMStruct>, HeldErr>
    requires form { IsForm (data_of source.now) }
    ensures held { OnOk result (AreHeld (data_of source.now)) }
    ensures structs { IfOk result (λ ns. AreHeldStructs (data_of source.now) ns.items) }
    ensures cause { IfErr result (IsRefusalOf (data_of source.now)) }
{
    let table = table_of(alloc, source)?;
    let mut walk = start(alloc, source)?;
    refuse_lacks(alloc, source)?;
    walk_signatures(source, &table, &mut walk)?;
    walk_results(source, &table, &mut walk)?;
    walk_constants(source, &table, &mut walk)?;
    Ok(walk.order)
}
