//! What holds of conversions of single types whatever stands between two of them: which structs their names mean, and what stays.

ghost use Rattle.std.specs.Prelude.{◌≡◌, ◌<◌, ◌++◌, ℕ, List, None, Some, length, slice_get};
ghost use Rattle.kinds.specs.Structs.{Struct, struct_in};
ghost use Rattle.llvm_core.specs.Module.{Module};
ghost use Rattle.llvm_core.specs.Data.{data_of};
ghost use Rattle.dialect_types.specs.declared.types.TypeHandle.{TypeHandle};
ghost use Rattle.dialect_types.specs.declared.types.TypeKind.{TypeKind};
ghost use Rattle.dialect_types.specs.Trees.{IsStored};
ghost use Rattle.to_llvm_ir.specs.Conversion.{AreMeant, HasTypesOf, IsContextFor, IsStruct, given_at};
ghost use Rattle.to_llvm_ir.specs.Growth.{Grows};
ghost use Rattle.to_llvm_ir.specs.declared.type_conversion.TypeConversionContext.{TypeConversionContext};

/// A struct whose type was given is the one that its name means in the module.
pub fn given_structs_are_meant()
    ensures { (ks : List TypeKind) → (m : Module) → (c : TypeConversionContext) → (u : TypeHandle) → (s : Struct) → AreMeant ks m c → ¬ (given_at c u ≡ None) → IsStruct ks u s → struct_in (data_of m).structs s.name ≡ Some s }
{}

/// What was given stays right where the context gets more types, and the module more types and structs.
pub fn conversion_context_stays()
    ensures { (ks : List TypeKind) → (ls : List TypeKind) → (old : Module) → (new : Module) → (more : List Struct) → (c : TypeConversionContext) → IsStored ls → HasTypesOf ks ls → Grows old new → (data_of new).structs ≡ (data_of old).structs ++ more → IsContextFor ks old c → IsContextFor ls new c }
{}
