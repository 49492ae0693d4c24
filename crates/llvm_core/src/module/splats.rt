//! Vectors of which each lane is one constant.

ghost use Rattle.std.specs.Prelude.{◌≡◌, ◌↔◌, Some, IfOk, IsTrue, replicate};
ghost use Rattle.llvm_core.specs.Parts.{const_type};
ghost use Rattle.llvm_core.specs.Consts.{HasConstParts};
ghost use Rattle.llvm_core.specs.Holding.{IsSplatOf, lanes_of};
ghost use Rattle.llvm_core.specs.Data.{trees_of, type_at, const_at, const_tree, formed};
ghost use Rattle.llvm_core.specs.Elements.{splat_const};

use super::LLVMModule;
use crate::consts::LLVMConstKind;
use crate::numbers::{LLVMConst, LLVMType};
use crate::types::LLVMTypeKind;
use kinds::types::VectorTypeKind;
use std::alloc::{AllocError, Global};
use support::items::Items;

impl LLVMModule {
    /// Whether it is a vector type, and each lane of one may be that constant.
    pub fn may_splat(&self, ty: LLVMType, element: LLVMConst) -> bool
        ensures { IsTrue result ↔ IsSplatOf self.now ty element }
    {
        match self.kind_at(ty) {
            Some(LLVMTypeKind::Vector(_, _, lane)) => self.is_element(*lane, element),
            _ => false,
        }
    }

    /// The kind of a vector of which each lane is that constant, for `const_get`. Where the constant is zero, undef or poison, no list
    /// of the lanes is made.
    pub fn splat_kind(&self, ty: LLVMType, element: LLVMConst) -> Result<LLVMConstKind, AllocError>
        requires { IsSplatOf self.now ty element }
        ensures typed { IfOk result (λ k. const_type k ≡ ty) }
        ensures parts { IfOk result (λ k. HasConstParts self.now k) }
        ensures form { IfOk result (λ k. splat_const (type_at (trees_of self.now).types ty) (const_at (trees_of self.now).consts element) ≡ Some (formed (const_tree (trees_of self.now).types (trees_of self.now).consts k))) }
    {
        // This tells the proof of the invariant.
        let _ = &self.types;
        if let Some(fill) = self.fill_at(element) {
            return Ok(LLVMConstKind::Filled(fill, ty));
        }
        let kind = lanes(self.alloc, self.type_kind(ty), ty, element)?;
        Ok(kind)
    }
}

/// The lanes of a vector of a type of that kind: of a known length their list.
fn lanes(
    alloc: Global,
    kind: &LLVMTypeKind,
    ty: LLVMType,
    element: LLVMConst,
) -> Result<LLVMConstKind, AllocError>
    ensures { IfOk result (λ k. k ≡ lanes_of kind.now ty element) }
{
    match kind {
        LLVMTypeKind::Vector(VectorTypeKind::Fixed, count, _) => {
            Ok(LLVMConstKind::List(ty, copies(alloc, *count, element)?))
        }
        _ => Ok(LLVMConstKind::Splat(ty, element)),
    }
}

/// One constant so many times. Room for all is asked for first, so that a length for which there is none ends at once.
fn copies(alloc: Global, count: u32, c: LLVMConst) -> Result<Items<LLVMConst>, AllocError>
    ensures { IfOk result (λ cs. cs ≡ replicate count c) }
{
    let mut all = Items::from_vec(Vec::with_capacity(alloc, count as usize)?);
    for _ in 0..count {
        all.push(c)?;
    }
    Ok(all)
}
