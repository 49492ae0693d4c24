//! The definitions computed on small modules, each equation checked by computing both sides.

ghost use Rattle.std.specs.Prelude.{◌≡◌, ◌∷◌, [], true, false, codes, map};
ghost use Rattle.llvm_core.specs.Data.{VoidType, IntType, FunctionType, NoTypes};
ghost use Rattle.kinds.specs.declared.fill.Fill.TheVariants as fill;
ghost use Rattle.meaning.specs.Terms.{Param, Int, Unset, Filled, ListOf, Insert, Places, ThenTerm, NoTerms};
ghost use Rattle.meaning.specs.Insert.{put};
ghost use Rattle.meaning.specs.Machine.{Entered, reads_unset};
ghost use Rattle.meaning.specs.Code.{SameCode, FunctionSymbol, External};
ghost use Rattle.meaning.specs.Llvm as llvm;
ghost use Rattle.meaning.specs.Dialect as dialect;
ghost use Rattle.dialect_core.specs.declared.ops.Value.{Value};
ghost use Rattle.meaning.specs.Shape.{SameShape};
ghost use Rattle.meaning.specs.Woven.{WovenShape, SetsConstantsFirst, func_reads_unset};
ghost use Rattle.meaning.specs.Examples.{answer, answer_dialect, echo_module, same_places, pair_of, both_ints, ints_of, two_structs, told_type, untold_type, sums, sums_module, sums_func, sums_dialect, wraps, no_signed, sum_of, swap_module, swap_dialect, branched, tested, gave, lacking_module, lacking_dialect, lacking, lacking_func};
ghost use Rattle.meaning.specs.WovenExamples.{late, late_module, late_func, late_dialect, plus, plus_one, mixed_func, mixed_dialect};

/// `define i32 @f() { ret i32 7 }`, its symbol, its trace on both sides, and that the two have the same code.
pub fn answer_means()
    ensures symbols { llvm.symbols_of answer ≡ (codes "f", FunctionSymbol (FunctionType (IntType 32) NoTypes false) External 0 true) ∷ [] }
    ensures dialect_symbols { dialect.symbols_of answer_dialect ≡ llvm.symbols_of answer }
    ensures trace { llvm.traces_of answer (2 ∷ []) ≡ (Entered 0 ∷ gave 32 (Int 32 7) ∷ []) ∷ [] }
    ensures dialect_trace { dialect.traces_of answer_dialect (2 ∷ []) ≡ llvm.traces_of answer (2 ∷ []) }
    ensures same { SameCode same_places (llvm.code_of answer) (dialect.code_of answer_dialect) }
{}

/// A parameter is its term, and an insertion replaces the element at the end of its path or stands as it is.
pub fn echo_and_put()
    ensures parameter { llvm.traces_of echo_module [] ≡ (Entered 0 ∷ gave 8 (Param 0) ∷ []) ∷ [] }
    ensures replaced { put [] (pair_of (Int 8 1) (Int 8 2)) ((VoidType, 1) ∷ []) (Int 8 9) ≡ pair_of (Int 8 1) (Int 8 9) }
    ensures deep { put [] (pair_of Unset (pair_of (Int 8 1) Unset)) ((VoidType, 1) ∷ (VoidType, 0) ∷ []) (Int 8 9) ≡ pair_of Unset (pair_of (Int 8 9) Unset) }
    ensures past_the_end { put [] (pair_of Unset Unset) ((VoidType, 2) ∷ []) (Int 8 9) ≡ Insert VoidType (pair_of Unset Unset) (Places (2 ∷ [])) (Int 8 9) }
    ensures unknown { put [] (Param 0) ((IntType 8, 1) ∷ []) (Int 8 9) ≡ Insert (IntType 8) (Param 0) (Places (1 ∷ [])) (Int 8 9) }
{}

/// A zero, undef or poison of a type that has elements opens up, and what is zero in each element is folded up again. So it is with a
/// struct by its name where its fields are told; into another the insertion stands as a term.
pub fn opened_and_folded()
    ensures opened { put [] (Filled fill.Zero both_ints) ((both_ints, 0) ∷ []) (Int 8 9) ≡ ints_of (Int 8 9) (Int 16 0) }
    ensures folded { put [] (ints_of (Int 8 0) (Filled fill.Undef (IntType 16))) ((both_ints, 1) ∷ []) (Int 16 0) ≡ Filled fill.Zero both_ints }
    ensures same { put [] (Filled fill.Zero both_ints) ((both_ints, 1) ∷ []) (Int 16 0) ≡ Filled fill.Zero both_ints }
    ensures told { put two_structs (Filled fill.Poison told_type) ((told_type, 0) ∷ []) (Param 0) ≡ ListOf told_type (ThenTerm (Param 0) (ThenTerm (Filled fill.Poison (IntType 16)) NoTerms)) }
    ensures untold { put two_structs (Filled fill.Poison untold_type) ((untold_type, 0) ∷ []) (Param 0) ≡ Insert untold_type (Filled fill.Poison untold_type) (Places (0 ∷ [])) (Param 0) }
{}

/// `define i32 @g(i32 %a, i32 %b) { %s = add nsw i32 %a, %b ; %t = add i32 %s, 5 ; ret i32 %t }`,
/// its trace on both sides, and that the one stands for the other.
pub fn sums_mean()
    ensures trace { llvm.traces_of sums_module [] ≡ (Entered 0 ∷ gave 32 (sum_of wraps (sum_of no_signed (Param 0) (Param 1)) (Int 32 5)) ∷ []) ∷ [] }
    ensures dialect_trace { dialect.traces_of sums_dialect [] ≡ llvm.traces_of sums_module [] }
    ensures shape { SameShape same_places (llvm.setting_of sums_module) sums (dialect.setting_of sums_dialect) sums_func }
{}

/// A loop whose two phis take each other's value, as `swap` and `swap_dialect` of the example modules: all are read
/// before any is set, so two rounds give back what was. A block entered stands behind the event that led there.
pub fn swap_means()
    ensures twice { llvm.traces_of swap_module (0 ∷ 0 ∷ 0 ∷ 1 ∷ []) ≡ (Entered 0 ∷ branched ∷ Entered 1 ∷ tested (Param 2) ∷ Entered 1 ∷ tested (Param 2) ∷ Entered 1 ∷ tested (Param 2) ∷ Entered 2 ∷ gave 32 (Param 0) ∷ []) ∷ [] }
    ensures dialect_twice { dialect.traces_of swap_dialect (0 ∷ 0 ∷ 0 ∷ 1 ∷ []) ≡ llvm.traces_of swap_module (0 ∷ 0 ∷ 0 ∷ 1 ∷ []) }
    ensures once { llvm.traces_of swap_module (0 ∷ 0 ∷ 1 ∷ []) ≡ (Entered 0 ∷ branched ∷ Entered 1 ∷ tested (Param 2) ∷ Entered 1 ∷ tested (Param 2) ∷ Entered 2 ∷ gave 32 (Param 1) ∷ []) ∷ [] }
    ensures dialect_once { dialect.traces_of swap_dialect (0 ∷ 0 ∷ 1 ∷ []) ≡ llvm.traces_of swap_module (0 ∷ 0 ∷ 1 ∷ []) }
    ensures no_such_edge { llvm.traces_of swap_module (0 ∷ 2 ∷ 0 ∷ []) ≡ llvm.traces_of swap_module (0 ∷ []) }
{}

/// What an edge lacks is unset: a phi without an entry for it, an argument that it passes nothing to.
pub fn lacking_means()
    ensures trace { llvm.traces_of lacking_module (0 ∷ []) ≡ (Entered 0 ∷ branched ∷ Entered 1 ∷ gave 8 Unset ∷ []) ∷ [] }
    ensures dialect_trace { dialect.traces_of lacking_dialect (0 ∷ []) ≡ llvm.traces_of lacking_module (0 ∷ []) }
    ensures unset { reads_unset llvm.Key llvm.same_key (llvm.start lacking) (map (llvm.block (llvm.setting_of lacking_module) lacking) lacking.blocks) (0 ∷ []) ≡ true }
    ensures dialect_unset { reads_unset Value dialect.same_value (dialect.start lacking_func.blocks) (map (dialect.block (dialect.setting_of lacking_dialect) lacking_func) lacking_func.blocks) (0 ∷ []) ≡ true }
{}

/// A loop that sets the constant it adds, as `late` and `late_dialect` of the example modules, which has the woven shape:
/// run through the loop it gives what LLVM does, and past it the constant is read before it is set, so that the traces
/// differ.
pub fn late_means()
    ensures shape { WovenShape same_places (llvm.setting_of late_module) late (dialect.setting_of late_dialect) late_func }
    ensures trace { llvm.traces_of late_module (0 ∷ 0 ∷ 1 ∷ []) ≡ (Entered 0 ∷ tested (Param 1) ∷ Entered 1 ∷ tested (Param 1) ∷ Entered 1 ∷ tested (Param 1) ∷ Entered 2 ∷ gave 32 (plus_one (plus_one (plus_one (Param 0)))) ∷ []) ∷ [] }
    ensures dialect_trace { dialect.traces_of late_dialect (0 ∷ 0 ∷ 1 ∷ []) ≡ llvm.traces_of late_module (0 ∷ 0 ∷ 1 ∷ []) }
    ensures set { func_reads_unset (dialect.setting_of late_dialect) late_func (0 ∷ 0 ∷ 1 ∷ []) ≡ false }
    ensures past { llvm.traces_of late_module (1 ∷ []) ≡ (Entered 0 ∷ tested (Param 1) ∷ Entered 2 ∷ gave 32 (plus_one (Param 0)) ∷ []) ∷ [] }
    ensures dialect_past { dialect.traces_of late_dialect (1 ∷ []) ≡ (Entered 0 ∷ tested (Param 1) ∷ Entered 2 ∷ gave 32 (plus Unset (Param 0)) ∷ []) ∷ [] }
    ensures unset { func_reads_unset (dialect.setting_of late_dialect) late_func (1 ∷ []) ≡ true }
    ensures differ { ¬ (dialect.traces_of late_dialect (1 ∷ []) ≡ llvm.traces_of late_module (1 ∷ [])) }
{}

/// The sums with the constant between them: the woven shape, the first block sets the constant before it is read, and
/// the trace is that of LLVM.
pub fn mixed_means()
    ensures shape { (h : WovenShape same_places (llvm.setting_of sums_module) sums (dialect.setting_of mixed_dialect) mixed_func) × SetsConstantsFirst h.plan (map (dialect.block (dialect.setting_of mixed_dialect) mixed_func) mixed_func.blocks) }
    ensures trace { dialect.traces_of mixed_dialect [] ≡ llvm.traces_of sums_module [] }
{}
