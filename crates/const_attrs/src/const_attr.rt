//! A constant as an attribute of the dialect.

ghost use Rattle.std.specs.Prelude.{◌≡◌, ℕ, IfSome, None};
ghost use Rattle.dialect_types.specs.declared.types.TypeHandle.{TypeHandle};
ghost use Rattle.const_attrs.specs.Trees.{FilledAttr, IntegerAttr, attr_data};

use dialect_types::types::TypeHandle;
use kinds::fill::Fill;

/// A constant of the dialect, whose types are numbers of a store of types: a line for each kind. One that is handed to a
/// call nests at most 1,000 deep, its innermost part counted: the calls go as deep as it does.
#[derive(PartialEq, Eq, Hash, Debug, Drop)]
pub enum ConstAttr {
    /// An integer of an integer type. One that keeps the rules has at most 64 bits.
    Integer(TypeHandle, u64),
    /// The zero of a type, null where it is a pointer type.
    Zero(TypeHandle),
    /// The undef of a type: bits that may be others at each use.
    Undef(TypeHandle),
    /// The poison of a type, what a wrong operation gives.
    Poison(TypeHandle),
    /// An array of `i8` integers.
    Bytes(Vec<u8>),
    /// An array, a vector or a struct of that type, by its elements.
    Aggregate(Vec<ConstAttr>, TypeHandle),
    /// A vector of that type, of which each element is the same.
    Splat(Box<ConstAttr>, TypeHandle),
}

impl ConstAttr {
    /// Zero, undef or poison of a type.
    pub fn filled(fill: Fill, ty: TypeHandle) -> ConstAttr
        ensures { attr_data result ≡ FilledAttr fill ty }
    {
        match fill {
            Fill::Zero => ConstAttr::Zero(ty),
            Fill::Undef => ConstAttr::Undef(ty),
            Fill::Poison => ConstAttr::Poison(ty),
        }
    }

    /// The type and the value of an integer; none of any other constant.
    pub fn as_integer(&self) -> Option<(TypeHandle, u64)>
        ensures some { IfSome result (λ i. attr_data self.now ≡ IntegerAttr i.0 i.1) }
        ensures none { result ≡ None → (ty : TypeHandle) → (value : ℕ) → ¬ (attr_data self.now ≡ IntegerAttr ty value) }
    {
        match self {
            ConstAttr::Integer(ty, value) => Some((*ty, *value)),
            ConstAttr::Zero(_) => None,
            ConstAttr::Undef(_) => None,
            ConstAttr::Poison(_) => None,
            ConstAttr::Bytes(_) => None,
            ConstAttr::Aggregate(..) => None,
            ConstAttr::Splat(..) => None,
        }
    }
}
