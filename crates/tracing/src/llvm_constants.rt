//! The terms of constants of a module of LLVM, in a table.

ghost use Rattle.std.specs.Prelude.{◌≡◌, ◌<◌, ℕ, All, IfOk, OnOk, Some, length, map, slice_get};
ghost use Rattle.llvm_core.specs.declared.numbers.LLVMConst.{LLVMConst};
ghost use Rattle.llvm_core.specs.declared.types.LLVMTypeKind.TheVariants as types;
ghost use Rattle.llvm_core.specs.Consts.{IsConstIn, IsMadeBelow};
ghost use Rattle.llvm_core.specs.Sound.{IsModule};
ghost use Rattle.llvm_core.specs.Data.{IntType, type_at, trees_of};
ghost use Rattle.tracing.specs.Table.{IsTermAt, AreTermsAt};
ghost use Rattle.tracing.specs.Tables.{AreGrown, AreTables, contents_in};
ghost use Rattle.tracing.specs.LlvmBodies.{origin_in, term_in};

use crate::llvm_rows::type_place;
use crate::table::TermNode;
use crate::tables::{Tables, put, put_bytes, put_list, put_splat};
use llvm_core::consts::LLVMConstKind;
use llvm_core::module::LLVMModule;
use llvm_core::numbers::{LLVMConst, LLVMType};
use llvm_core::types::LLVMTypeKind;
use std::alloc::{AllocError, Global};

fn int_width(m: &LLVMModule, ty: LLVMType) -> u32
    requires sound { IsModule m.now }
    requires int { (width : ℕ) × (slice_get m.now.types ty.0 ≡ Some (types.Int width)) }
    ensures { type_at (trees_of m.now).types ty ≡ IntType result }
{
    match m.type_kind(ty) {
        LLVMTypeKind::Int(width) => *width,
        _ => unreachable!(),
    }
}

/// The place of the term of a constant, where it and its parts get one if they have none yet: so each is made once.
#[cycle(constant)]
pub fn constant(
    alloc: Global,
    tables: &mut Tables,
    m: &LLVMModule,
    c: LLVMConst,
) -> Result<u32, AllocError>
    requires sound { IsModule m.now }
    requires within { c.0 < length m.now.consts }
    requires tables { AreTables (origin_in m.now) tables.old }
    ensures stands { IfOk result (λ k. IsTermAt (contents_in tables.new).terms k (term_in m.now c)) }
    ensures grown { OnOk result (AreGrown (origin_in m.now) tables.old tables.new) }
{
    match tables.known(c.0) {
        Some(place) => Ok(place),
        None => {
            let place = made(alloc, tables, m, c)?;
            tables.note(c.0, place)?;
            Ok(place)
        }
    }
}

/// The place of the term of a constant that has none yet.
#[cycle(constant)]
fn made(alloc: Global, tables: &mut Tables, m: &LLVMModule, c: LLVMConst) -> Result<u32, AllocError>
    requires sound { IsModule m.now }
    requires within { c.0 < length m.now.consts }
    requires tables { AreTables (origin_in m.now) tables.old }
    ensures stands { IfOk result (λ k. IsTermAt (contents_in tables.new).terms k (term_in m.now c)) }
    ensures grown { OnOk result (AreGrown (origin_in m.now) tables.old tables.new) }
{
    match m.const_kind(c) {
        LLVMConstKind::Int(ty, value) => put(tables, TermNode::Int(int_width(m, *ty), *value)),
        LLVMConstKind::Filled(fill, ty) => {
            let place = type_place(alloc, tables, m, *ty)?;
            put(tables, TermNode::Filled(*fill, place))
        }
        LLVMConstKind::Bytes(_, bytes) => put_bytes(alloc, tables, bytes.as_slice()),
        LLVMConstKind::List(ty, elements) => {
            let place = type_place(alloc, tables, m, *ty)?;
            let places = parts(alloc, tables, m, c, elements.as_slice())?;
            put_list(tables, place, places)
        }
        LLVMConstKind::Splat(ty, element) => {
            let place = type_place(alloc, tables, m, *ty)?;
            let lane = constant(alloc, tables, m, *element)?;
            put_splat(tables, place, lane)
        }
        LLVMConstKind::Placeholder(..) => put(tables, TermNode::Unset),
    }
}

/// The places of the terms of constants that are parts of another.
#[cycle(constant)]
fn parts(
    alloc: Global,
    tables: &mut Tables,
    m: &LLVMModule,
    whole: LLVMConst,
    parts: &[LLVMConst],
) -> Result<Vec<u32>, AllocError>
    requires sound { IsModule m.now }
    requires within { whole.0 < length m.now.consts }
    requires below { All (λ c. c.0 < whole.0) parts.now }
    requires tables { AreTables (origin_in m.now) tables.old }
    ensures stand { IfOk result (λ ks. AreTermsAt (contents_in tables.new).terms ks.items (map (term_in m.now) parts.now)) }
    ensures grown { OnOk result (AreGrown (origin_in m.now) tables.old tables.new) }
{
    let mut places = Vec::new(alloc);
    for part in parts {
        let place = constant(alloc, tables, m, *part)?;
        places.push(place)?;
    }
    Ok(places)
}
