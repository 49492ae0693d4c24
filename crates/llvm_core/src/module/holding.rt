//! Whether a constant may be made of what it names.

ghost use Rattle.std.specs.Prelude.{◌≡◌, ◌↔◌, ◌<◌, Some, List, IfNone, IfSome, IsTrue, length, slice_get};
ghost use Rattle.std.specs.Option.{option_map};
ghost use Rattle.llvm_core.specs.declared.consts.LLVMConstKind.TheVariants as consts;
ghost use Rattle.llvm_core.specs.declared.numbers.LLVMType.{LLVMType};
ghost use Rattle.llvm_core.specs.declared.types.LLVMTypeKind.TheVariants as types;
ghost use Rattle.llvm_core.specs.Parts.{IsIntAt};
ghost use Rattle.llvm_core.specs.Consts.{HasConstParts, HasFields, IsElement, is_placeholder};
ghost use Rattle.llvm_core.specs.Holding.{AreOf, AreOfOne, TakesBytes, TakesInt, TakesLane, TakesList};

use super::{LLVMModule, const_type};
use crate::consts::LLVMConstKind;
use crate::numbers::{LLVMConst, LLVMType};
use crate::types::LLVMTypeKind;
use kinds::types::VectorTypeKind;

impl LLVMModule {
    /// Whether what a constant names is there and what its type asks, so that `const_get` takes it.
    pub fn may_hold(&self, kind: &LLVMConstKind) -> bool
        ensures { IsTrue result ↔ HasConstParts self.now kind.now }
    {
        match kind {
            LLVMConstKind::Int(ty, value) => self.may_be_int(*ty, *value),
            LLVMConstKind::Filled(_, ty) => self.is_there(*ty),
            LLVMConstKind::Bytes(ty, bytes) => self.may_be_bytes(*ty, bytes.as_slice()),
            LLVMConstKind::List(ty, elements) => self.may_be_list(*ty, elements.as_slice()),
            LLVMConstKind::Splat(ty, element) => self.may_be_splat(*ty, *element),
            LLVMConstKind::Placeholder(_, ty) => self.is_there(*ty),
        }
    }

    fn is_there(&self, ty: LLVMType) -> bool
        ensures { IsTrue result ↔ (ty.0 < length self.now.types) }
    {
        ty.0 < self.types.len()
    }

    /// The kind of a type, where it is there.
    pub(crate) fn kind_at(&self, ty: LLVMType) -> Option<&LLVMTypeKind>
        ensures { slice_get self.now.types ty.0 ≡ option_map (λ k. k.now) result }
    {
        if ty.0 < self.types.len() {
            Some(self.types.value(ty.0))
        } else {
            None
        }
    }

    fn may_be_int(&self, ty: LLVMType, value: u128) -> bool
        ensures { IsTrue result ↔ HasConstParts self.now (consts.Int ty value) }
    {
        match self.kind_at(ty) {
            Some(kind) => takes_int(value, kind),
            None => false,
        }
    }

    fn may_be_bytes(&self, ty: LLVMType, bytes: &[u8]) -> bool
        ensures { IsTrue result ↔ HasConstParts self.now (consts.Bytes ty bytes.now) }
    {
        match self.kind_at(ty) {
            Some(kind) => self.takes_bytes(bytes.len(), kind),
            None => false,
        }
    }

    fn may_be_list(&self, ty: LLVMType, elements: &[LLVMConst]) -> bool
        ensures { IsTrue result ↔ HasConstParts self.now (consts.List ty elements.now) }
    {
        match self.kind_at(ty) {
            Some(kind) => self.takes_list(elements, kind),
            None => false,
        }
    }

    fn may_be_splat(&self, ty: LLVMType, element: LLVMConst) -> bool
        ensures { IsTrue result ↔ HasConstParts self.now (consts.Splat ty element) }
    {
        match self.kind_at(ty) {
            Some(kind) => self.takes_lane(element, kind),
            None => false,
        }
    }

    /// Whether a type of that kind is one of so many integers of 8 bits.
    fn takes_bytes(&self, count: usize, kind: &LLVMTypeKind) -> bool
        ensures { IsTrue result ↔ TakesBytes self.now.types count kind.now }
    {
        match kind {
            LLVMTypeKind::Array(n, element) => *n == count as u64 && self.is_byte_type(*element),
            _ => false,
        }
    }

    fn is_byte_type(&self, ty: LLVMType) -> bool
        ensures { IsTrue result ↔ (slice_get self.now.types ty.0 ≡ Some (types.Int 8)) }
    {
        match self.kind_at(ty) {
            Some(LLVMTypeKind::Int(width)) => *width == 8,
            _ => false,
        }
    }

    /// Whether a constant of a type of that kind may be a list of these elements.
    fn takes_list(&self, elements: &[LLVMConst], kind: &LLVMTypeKind) -> bool
        ensures { IsTrue result ↔ TakesList self.now.consts self.now.structs elements.now kind.now }
    {
        match kind {
            LLVMTypeKind::Array(count, ty) => self.are_of_one(*count, *ty, elements),
            LLVMTypeKind::Vector(kind, count, ty) => self.takes_lanes(*kind, *count, *ty, elements),
            LLVMTypeKind::Literal { fields, .. } => self.are_of(elements, fields.as_slice()),
            LLVMTypeKind::Named(name) => self.are_of_named(elements, name.as_str()),
            _ => false,
        }
    }

    /// Whether a constant of a vector type may be a list of these elements.
    fn takes_lanes(
        &self,
        kind: VectorTypeKind,
        count: u32,
        ty: LLVMType,
        elements: &[LLVMConst],
    ) -> bool
        ensures { IsTrue result ↔ TakesList self.now.consts self.now.structs elements.now (types.Vector kind count ty) }
    {
        match kind {
            VectorTypeKind::Fixed => self.are_of_one(count as u64, ty, elements),
            VectorTypeKind::Scalable => false,
        }
    }

    /// Whether each element of a type of that kind may be that constant.
    fn takes_lane(&self, element: LLVMConst, kind: &LLVMTypeKind) -> bool
        ensures { IsTrue result ↔ TakesLane self.now.consts element kind.now }
    {
        match kind {
            LLVMTypeKind::Vector(VectorTypeKind::Scalable, _, ty) => self.is_element(*ty, element),
            _ => false,
        }
    }

    /// Whether there are as many elements as fields of the struct of that name, each of the type of its own.
    fn are_of_named(&self, elements: &[LLVMConst], name: &str) -> bool
        ensures { IsTrue result ↔ ((parts : List LLVMType) × HasFields self.now.structs name.now parts × AreOf self.now.consts elements.now parts) }
    {
        match self.fields_named(name) {
            Some(fields) => self.are_of(elements, fields),
            None => false,
        }
    }

    /// The types of the fields of the struct of that name.
    pub(crate) fn fields_named(&self, name: &str) -> Option<&[LLVMType]>
        ensures some { IfSome result (λ ts. HasFields self.now.structs name.now ts.now) }
        ensures none { IfNone result ((ts : List LLVMType) → ¬ HasFields self.now.structs name.now ts) }
    {
        match self.struct_named(name) {
            Some(s) => match self.struct_body(s) {
                Some(body) => Some(body.types.as_slice()),
                None => None,
            },
            None => None,
        }
    }

    /// Whether there are as many elements as types, each of its own.
    fn are_of(&self, elements: &[LLVMConst], parts: &[LLVMType]) -> bool
        ensures { IsTrue result ↔ AreOf self.now.consts elements.now parts.now }
    {
        if elements.len() != parts.len() {
            return false;
        }
        for i in 0..elements.len() {
            if !self.is_element(parts[i], elements[i]) {
                return false;
            }
        }
        true
    }

    /// Whether there are so many elements, all of one type.
    fn are_of_one(&self, count: u64, ty: LLVMType, elements: &[LLVMConst]) -> bool
        ensures { IsTrue result ↔ AreOfOne self.now.consts count ty elements.now }
    {
        if elements.len() as u64 != count {
            return false;
        }
        for element in elements {
            if !self.is_element(ty, *element) {
                return false;
            }
        }
        true
    }

    /// Whether a constant is there, of that type, and no placeholder.
    pub(crate) fn is_element(&self, ty: LLVMType, c: LLVMConst) -> bool
        ensures { IsTrue result ↔ IsElement self.now.consts ty c }
    {
        if c.0 >= self.consts.len() {
            return false;
        }
        let kind = self.consts.value(c.0);
        const_type(kind).0 == ty.0 && !is_placeholder(kind)
    }
}

/// Whether an integer of a type of that kind may have that value.
fn takes_int(value: u128, kind: &LLVMTypeKind) -> bool
    ensures { IsTrue result ↔ TakesInt value kind.now }
{
    match kind {
        LLVMTypeKind::Int(width) => fits(*width, value),
        _ => false,
    }
}

fn fits(width: u32, value: u128) -> bool
    ensures { IsTrue result ↔ IsIntAt width value }
{
    width >= 128 || value >> width == 0
}

fn is_placeholder(kind: &LLVMConstKind) -> bool
    ensures { result ≡ is_placeholder kind.now }
{
    matches!(kind, LLVMConstKind::Placeholder(_, _))
}
