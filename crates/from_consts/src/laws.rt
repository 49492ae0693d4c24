//! What holds of a context whatever stands between two conversions, and which types of a module nest no deeper than is allowed.

ghost use Rattle.std.specs.Prelude.{◌≡◌, ◌++◌, ℕ, true, List, Some, slice_get};
ghost use Rattle.std.specs.Option.{option_map};
ghost use Rattle.kinds.specs.Held.{deepest};
ghost use Rattle.kinds.specs.Structs.{Struct};
ghost use Rattle.llvm_core.specs.declared.code.InstData.{InstData};
ghost use Rattle.llvm_core.specs.declared.code.LLVMValue.{LLVMValue};
ghost use Rattle.llvm_core.specs.declared.numbers.LLVMType.{LLVMType};
ghost use Rattle.llvm_core.specs.declared.structs.StructData.{StructData};
ghost use Rattle.llvm_core.specs.Checked.{IsChecked};
ghost use Rattle.llvm_core.specs.Depths.{nests_at};
ghost use Rattle.llvm_core.specs.Module.{Module};
ghost use Rattle.llvm_core.specs.Parts.{operands, value_type};
ghost use Rattle.llvm_core.specs.Sound.{IsModule};
ghost use Rattle.dialect_types.specs.declared.types.TypeKind.{TypeKind};
ghost use Rattle.dialect_types.specs.Trees.{structs_of};
ghost use Rattle.from_consts.specs.declared.const_context.ConstContext.{ConstContext};
ghost use Rattle.from_consts.specs.Given.{IsContextFor};
ghost use Rattle.from_consts.specs.Parts.{IsNamed, IsWithin};
ghost use Rattle.from_consts.specs.Types.{MoreTypes};

/// What was given stays right where the context gets more types and structs.
pub fn context_stays()
    ensures { (m : Module) → (old new : List TypeKind) → (more : List Struct) → (c : ConstContext) → MoreTypes old new → structs_of new ≡ structs_of old ++ more → IsContextFor m old c → IsContextFor m new c }
{}

/// What is within a type that nests no deeper than is allowed does not either: it may be converted by itself.
pub fn parts_nest()
    ensures { (m : Module) → (u t : LLVMType) → IsModule m → IsWithin m u t → nests_at m t deepest ≡ true → nests_at m u deepest ≡ true }
{}

/// Of a checked module the types in use may be converted: those of functions, of results of instructions, of their operands, and
/// structs.
pub fn checked_types_nest()
    ensures functions { (m : Module) → (f : ℕ) → (t : LLVMType) → IsChecked m → option_map (λ x. x.ty) (slice_get m.functions f) ≡ Some t → nests_at m t deepest ≡ true }
    ensures structs { (m : Module) → (s : ℕ) → (x : StructData) → (t : LLVMType) → IsChecked m → IsModule m → slice_get m.structs s ≡ Some x → IsNamed m t x.name → nests_at m t deepest ≡ true }
    ensures operands { (m : Module) → (i j : ℕ) → (x : InstData) → (v : LLVMValue) → (t : LLVMType) → IsChecked m → slice_get m.insts i ≡ Some x → slice_get (operands x.inst) j ≡ Some v → value_type m v ≡ Some t → nests_at m t deepest ≡ true }
    ensures results { (m : Module) → (i : ℕ) → (t : LLVMType) → IsChecked m → option_map (λ x. x.ty) (slice_get m.insts i) ≡ Some t → nests_at m t deepest ≡ true }
{}
