//! A table of types that is filled from the types of a module or a context, each when it is first met.

ghost use Rattle.std.specs.Prelude.{◌≡◌, List, [], IfOk, OnOk, length, slice_index_or};
ghost use Rattle.support.specs.NumberMaps.{value_at};
ghost use Rattle.llvm_core.specs.Parts.{IsTypeOver};
ghost use Rattle.llvm_core.specs.Data.{TypeTree, VoidType, IntType, ArrayType, type_tree};
ghost use Rattle.tracing.specs.Types.{IsFitTree, Stands};
ghost use Rattle.tracing.specs.TypePlaces.{trees_in, ArePlacesOf, IsGrown};

use crate::type_table::TypeTable;
use llvm_core::numbers::LLVMType;
use llvm_core::types::LLVMTypeKind;
use std::alloc::{AllocError, Global};
use support::number_map::NumberMap;

/// A table of types, and the place in it of each type of a source that it has, by the number there.
#[derive(Drop)]
pub struct TypePlaces {
    table: TypeTable,
    places: NumberMap<LLVMType>,
}

impl TypePlaces {
    /// No type has a place.
    pub fn new(alloc: Global) -> TypePlaces
        ensures { (source : List TypeTree) → ArePlacesOf source result }
    {
        TypePlaces {
            table: TypeTable::new(alloc),
            places: NumberMap::new(alloc),
        }
    }

    /// The table by itself.
    pub fn into_table(self) -> TypeTable
        ensures { result ≡ self.table }
    {
        self.table
    }

    /// The place of a type of the source, if it has one yet.
    pub fn place(&self, number: u32) -> Option<LLVMType>
        ensures { result ≡ value_at self.now.places number }
    {
        self.places.get(number)
    }

    /// Gives a type of the source, of that kind, its place.
    pub fn put(&mut self, number: u32, kind: LLVMTypeKind) -> Result<LLVMType, AllocError>
        requires over { IsTypeOver (length self.old.table) kind }
        requires fit { IsFitTree (type_tree (trees_in self.old) kind) }
        ensures stands { IfOk result (λ t. Stands (trees_in self.new) t (type_tree (trees_in self.old) kind)) }
        ensures grown { OnOk result ((source : List TypeTree) → ArePlacesOf source self.old → type_tree (trees_in self.old) kind ≡ slice_index_or source number VoidType → IsGrown source self.old self.new) }
    {
        let place = self.table.intern(kind)?;
        self.places.set(number, place)?;
        Ok(place)
    }

    /// The place of the type of an array of so many integers of 8 bits, which the source may not have.
    pub fn byte_array(&mut self, count: u64) -> Result<LLVMType, AllocError>
        ensures stands { IfOk result (λ t. Stands (trees_in self.new) t (ArrayType count (IntType 8))) }
        ensures grown { OnOk result ((source : List TypeTree) → ArePlacesOf source self.old → IsGrown source self.old self.new) }
    {
        let byte = self.table.intern(LLVMTypeKind::Int(8))?;
        self.table.intern(LLVMTypeKind::Array(count, byte))
    }

    /// The place of void, which the source may not have.
    pub fn void(&mut self) -> Result<LLVMType, AllocError>
        ensures stands { IfOk result (λ t. Stands (trees_in self.new) t VoidType) }
        ensures grown { OnOk result ((source : List TypeTree) → ArePlacesOf source self.old → IsGrown source self.old self.new) }
    {
        self.table.intern(LLVMTypeKind::Void)
    }
}
