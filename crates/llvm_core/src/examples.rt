//! The one form of constants computed on small ones, each equation checked by computing both sides.

ghost use Rattle.std.specs.Prelude.{◌≡◌, ◌∷◌, []};
ghost use Rattle.kinds.specs.declared.fill.Fill.TheVariants as fills;
ghost use Rattle.kinds.specs.declared.types.StructLayout.TheVariants as layouts;
ghost use Rattle.kinds.specs.declared.types.VectorTypeKind.TheVariants as vectors;
ghost use Rattle.llvm_core.specs.Data.{IntType, PointerType, ArrayType, VectorType, StructType, NoTypes, ThenType, IntConst, FilledConst, BytesConst, ListConst, SplatConst, NoConsts, ThenConst, formed};

/// `[2 x i16] [i16 0, i16 0]`, `{ i32, ptr } { i32 0, ptr null }` and what has no element are zero; lists of only `undef` and of only
/// `poison` are that, and of both neither.
pub fn fills_are_formed()
    ensures zeros { formed (ListConst (ArrayType 2 (IntType 16)) (ThenConst (IntConst 16 0) (ThenConst (IntConst 16 0) NoConsts))) ≡ FilledConst fills.Zero (ArrayType 2 (IntType 16)) }
    ensures null { formed (ListConst (StructType layouts.Unpacked (ThenType (IntType 32) (ThenType (PointerType 0) NoTypes))) (ThenConst (IntConst 32 0) (ThenConst (FilledConst fills.Zero (PointerType 0)) NoConsts))) ≡ FilledConst fills.Zero (StructType layouts.Unpacked (ThenType (IntType 32) (ThenType (PointerType 0) NoTypes))) }
    ensures empty { formed (ListConst (StructType layouts.Unpacked NoTypes) NoConsts) ≡ FilledConst fills.Zero (StructType layouts.Unpacked NoTypes) }
    ensures undef { formed (ListConst (ArrayType 2 (IntType 8)) (ThenConst (FilledConst fills.Undef (IntType 8)) (ThenConst (FilledConst fills.Undef (IntType 8)) NoConsts))) ≡ FilledConst fills.Undef (ArrayType 2 (IntType 8)) }
    ensures poison { formed (SplatConst (VectorType vectors.Scalable 4 (IntType 8)) (FilledConst fills.Poison (IntType 8))) ≡ FilledConst fills.Poison (VectorType vectors.Scalable 4 (IntType 8)) }
    ensures mixed { formed (ListConst (ArrayType 2 (IntType 8)) (ThenConst (FilledConst fills.Undef (IntType 8)) (ThenConst (FilledConst fills.Poison (IntType 8)) NoConsts))) ≡ ListConst (ArrayType 2 (IntType 8)) (ThenConst (FilledConst fills.Undef (IntType 8)) (ThenConst (FilledConst fills.Poison (IntType 8)) NoConsts)) }
    ensures integer { formed (FilledConst fills.Zero (IntType 32)) ≡ IntConst 32 0 }
{}

/// `[3 x i8]` of the integers 97, 0 and 255 is bytes; with `undef` among them, as a vector or of integers of 7 bits it is a list.
pub fn bytes_are_formed()
    ensures bytes { formed (ListConst (ArrayType 3 (IntType 8)) (ThenConst (IntConst 8 97) (ThenConst (IntConst 8 0) (ThenConst (IntConst 8 255) NoConsts)))) ≡ BytesConst (97 ∷ 0 ∷ 255 ∷ []) }
    ensures zeros { formed (BytesConst (0 ∷ 0 ∷ [])) ≡ FilledConst fills.Zero (ArrayType 2 (IntType 8)) }
    ensures undef { formed (ListConst (ArrayType 2 (IntType 8)) (ThenConst (IntConst 8 1) (ThenConst (FilledConst fills.Undef (IntType 8)) NoConsts))) ≡ ListConst (ArrayType 2 (IntType 8)) (ThenConst (IntConst 8 1) (ThenConst (FilledConst fills.Undef (IntType 8)) NoConsts)) }
    ensures vector { formed (ListConst (VectorType vectors.Fixed 1 (IntType 8)) (ThenConst (IntConst 8 1) NoConsts)) ≡ ListConst (VectorType vectors.Fixed 1 (IntType 8)) (ThenConst (IntConst 8 1) NoConsts) }
    ensures narrow { formed (ListConst (ArrayType 1 (IntType 7)) (ThenConst (IntConst 7 1) NoConsts)) ≡ ListConst (ArrayType 1 (IntType 7)) (ThenConst (IntConst 7 1) NoConsts) }
{}
