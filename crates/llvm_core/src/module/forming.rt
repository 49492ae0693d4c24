//! The one form of constants: a module keeps each in one way alone, however it is handed in.

ghost use Rattle.std.specs.Prelude.{◌≡◌, ◌<◌, if◌then◌else◌, nat_eq, All, IfOk, OnErr, length, slice_get};
ghost use Rattle.std.specs.List.{list_all};
ghost use Rattle.std.specs.Option.{option_and_then};
ghost use Rattle.kinds.specs.declared.fill.Fill.TheVariants as fills;
ghost use Rattle.kinds.specs.Fitting.{width_of};
ghost use Rattle.support.specs.Interned.{Interned};
ghost use Rattle.llvm_core.specs.declared.consts.LLVMConstKind.TheVariants as consts;
ghost use Rattle.llvm_core.specs.Parts.{is_kind, shape_of};
ghost use Rattle.llvm_core.specs.Consts.{HasConstParts, FitBytes, IsListOf, IsLaneOf, one_form, list_form, fill_of, is_fill, common_fill, int_of, all_ints, told, is_zero, is_byte_array};
ghost use Rattle.llvm_core.specs.Sound.{IsModule};
ghost use Rattle.llvm_core.specs.Data.{trees_of, const_at, const_tree, data_of, formed};

use crate::consts::LLVMConstKind;
use crate::module::{LLVMModule, shape_of};
use crate::numbers::{LLVMConst, LLVMType};
use crate::types::LLVMTypeKind;
use kinds::fill::Fill;
use std::alloc::AllocError;
use support::items::Items;

impl LLVMModule {
    /// The number of the constant that `kind` is in one form, new or old: a module keeps each constant in one form alone. The
    /// elements of a list are constants that are there, as many and of the types that its type asks, and no placeholders.
    pub fn const_get(&mut self, kind: LLVMConstKind) -> Result<LLVMConst, AllocError>
        requires { HasConstParts self.old kind }
        ensures interned { IfOk result (λ c. Interned self.old.consts self.new.consts (one_form self.old kind) c.0) }
        ensures form { IfOk result (λ c. const_at (trees_of self.new).consts c ≡ formed (const_tree (trees_of self.old).types (trees_of self.old).consts kind)) }
        ensures rest { self.new ≡ record self.old { consts = self.new.consts } }
        ensures err { OnErr result (self.new ≡ self.old) }
        ensures data { data_of self.new ≡ data_of self.old }
        ensures sound { IsModule self.new }
    {
        let kind = self.one_form(kind)?;
        let at = self.consts.get(kind)?;
        Ok(LLVMConst(at))
    }

    /// The one form of a constant.
    fn one_form(&self, kind: LLVMConstKind) -> Result<LLVMConstKind, AllocError>
        requires { HasConstParts self.now kind }
        ensures { IfOk result (λ k. k ≡ one_form self.now kind) }
    {
        match kind {
            LLVMConstKind::Int(ty, value) => Ok(LLVMConstKind::Int(ty, value)),
            LLVMConstKind::Filled(fill, ty) => Ok(self.filled_form(fill, ty)),
            LLVMConstKind::Bytes(ty, bytes) => Ok(bytes_form(ty, bytes)),
            LLVMConstKind::List(ty, elements) => self.list_form(ty, elements),
            LLVMConstKind::Splat(ty, element) => Ok(self.splat_form(ty, element)),
            LLVMConstKind::Placeholder(number, ty) => Ok(LLVMConstKind::Placeholder(number, ty)),
        }
    }

    fn filled_form(&self, fill: Fill, ty: LLVMType) -> LLVMConstKind
        requires { ty.0 < length self.now.types }
        ensures { result ≡ one_form self.now (consts.Filled fill ty) }
    {
        if fill.is_own(shape_of(self.type_kind(ty))) {
            LLVMConstKind::Filled(fill, ty)
        } else {
            LLVMConstKind::Int(ty, 0)
        }
    }

    fn splat_form(&self, ty: LLVMType, element: LLVMConst) -> LLVMConstKind
        requires { IsLaneOf self.now.types self.now.consts self.now.structs ty element }
        ensures { result ≡ one_form self.now (consts.Splat ty element) }
    {
        match self.fill_at(element) {
            Some(fill) => LLVMConstKind::Filled(fill, ty),
            None => LLVMConstKind::Splat(ty, element),
        }
    }

    fn list_form(
        &self,
        ty: LLVMType,
        elements: Items<LLVMConst>,
    ) -> Result<LLVMConstKind, AllocError>
        requires { IsListOf self.now.types self.now.consts self.now.structs ty elements }
        ensures { IfOk result (λ k. k ≡ list_form self.now.types self.now.consts ty elements) }
    {
        // This tells the proof of the invariant.
        let _ = &self.types;
        if let Some(fill) = self.common_fill(elements.as_slice()) {
            return Ok(LLVMConstKind::Filled(fill, ty));
        }
        if self.is_byte_array(ty) {
            if let Some(bytes) = self.all_bytes(elements.as_slice())? {
                return Ok(LLVMConstKind::Bytes(ty, bytes));
            }
        }
        Ok(LLVMConstKind::List(ty, elements))
    }

    /// Zero, undef or poison, where each of the constants is that; zero where there is none.
    fn common_fill(&self, elements: &[LLVMConst]) -> Option<Fill>
        requires { All (λ c. c.0 < length self.now.consts) elements.now }
        ensures { result ≡ common_fill (told fill_of self.now.consts elements.now) }
    {
        if self.are_filled(Fill::Zero, elements) {
            return Some(Fill::Zero);
        }
        if self.are_filled(Fill::Undef, elements) {
            return Some(Fill::Undef);
        }
        if self.are_filled(Fill::Poison, elements) {
            return Some(Fill::Poison);
        }
        None
    }

    /// Whether each of the constants is that.
    fn are_filled(&self, fill: Fill, elements: &[LLVMConst]) -> bool
        requires { All (λ c. c.0 < length self.now.consts) elements.now }
        ensures { result ≡ list_all (is_fill fill) (told fill_of self.now.consts elements.now) }
    {
        for element in elements {
            if !is_fill(fill, self.fill_at(*element)) {
                return false;
            }
        }
        true
    }

    /// Zero, undef or poison, where a constant is that.
    pub(crate) fn fill_at(&self, c: LLVMConst) -> Option<Fill>
        requires { c.0 < length self.now.consts }
        ensures { result ≡ option_and_then fill_of (slice_get self.now.consts c.0) }
    {
        fill_of(self.consts.value(c.0))
    }

    /// The value of a constant, where it is an integer.
    fn int_at(&self, c: LLVMConst) -> Option<u128>
        requires { c.0 < length self.now.consts }
        ensures { result ≡ option_and_then int_of (slice_get self.now.consts c.0) }
    {
        match self.consts.value(c.0) {
            LLVMConstKind::Int(_, value) => Some(*value),
            _ => None,
        }
    }

    /// Whether it is an array of integers of 8 bits.
    fn is_byte_array(&self, ty: LLVMType) -> bool
        requires { ty.0 < length self.now.types }
        ensures { result ≡ is_kind (is_byte_array self.now.types) self.now.types ty }
    {
        match self.type_kind(ty) {
            LLVMTypeKind::Array(_, element) => is_byte(self.type_kind(*element)),
            _ => false,
        }
    }

    /// The values of the constants, where all are integers of 8 bits.
    fn all_bytes(&self, elements: &[LLVMConst]) -> Result<Option<Items<u8>>, AllocError>
        requires { FitBytes self.now.consts elements.now }
        ensures { IfOk result (λ o. o ≡ all_ints (told int_of self.now.consts elements.now)) }
    {
        let mut bytes = Items::from_vec(Vec::with_capacity(self.alloc, elements.len())?);
        for element in elements {
            match self.int_at(*element) {
                Some(value) => bytes.push(value as u8)?,
                None => return Ok(None),
            }
        }
        Ok(Some(bytes))
    }
}

/// Whether each byte is 0.
fn are_zero(bytes: &[u8]) -> bool
    ensures { result ≡ list_all is_zero bytes.now }
{
    for byte in bytes {
        if *byte != 0 {
            return false;
        }
    }
    true
}

fn bytes_form(ty: LLVMType, bytes: Items<u8>) -> LLVMConstKind
    ensures { result ≡ (if list_all is_zero bytes then consts.Filled fills.Zero ty else consts.Bytes ty bytes) }
{
    if are_zero(bytes.as_slice()) {
        return LLVMConstKind::Filled(Fill::Zero, ty);
    }
    LLVMConstKind::Bytes(ty, bytes)
}

/// Whether it is the kind of integers of 8 bits.
fn is_byte(kind: &LLVMTypeKind) -> bool
    ensures { result ≡ nat_eq (width_of (shape_of kind.now)) 8 }
{
    match kind {
        LLVMTypeKind::Int(width) => *width == 8,
        _ => false,
    }
}

/// Zero, undef or poison, where a constant is that.
fn fill_of(kind: &LLVMConstKind) -> Option<Fill>
    ensures { result ≡ fill_of kind.now }
{
    match kind {
        LLVMConstKind::Int(_, value) => (*value == 0).then_some(Fill::Zero),
        LLVMConstKind::Filled(fill, _) => Some(*fill),
        _ => None,
    }
}

fn is_fill(fill: Fill, of: Option<Fill>) -> bool
    ensures { result ≡ is_fill fill of }
{
    match (fill, of) {
        (Fill::Zero, Some(Fill::Zero)) => true,
        (Fill::Undef, Some(Fill::Undef)) => true,
        (Fill::Poison, Some(Fill::Poison)) => true,
        _ => false,
    }
}
