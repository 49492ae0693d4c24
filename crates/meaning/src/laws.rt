//! Laws of the definitions, each on a function that makes no call.

ghost use Rattle.std.specs.Prelude.{◌≡◌, ◌++◌, ◌∷◌, [], ℕ, List, Some, map};
ghost use Rattle.meaning.specs.Terms.{Match, Term};
ghost use Rattle.meaning.specs.Pairs.{Matched};
ghost use Rattle.meaning.specs.Setting.{Setting};
ghost use Rattle.meaning.specs.Insert.{MayStand, put};
ghost use Rattle.kinds.specs.Structs.{Struct};
ghost use Rattle.llvm_core.specs.Data.{ConstTree, Function, const_type};
ghost use Rattle.llvm_core.specs.Elements.{HasElements};
ghost use Rattle.llvm_core.specs.Form.{IsFormConst};
ghost use Rattle.llvm_core.specs.Inserted.{inserted};
ghost use Rattle.dialect_types.specs.Trees.{type_trees};
ghost use Rattle.dialect_core.specs.ContextData.{ContextData};
ghost use Rattle.dialect_core.specs.Data.{Func, func_in, type_in};
ghost use Rattle.dialect_core.specs.Form.{HasOwnValues};
ghost use Rattle.dialect_core.specs.declared.numbers.OpRef.{OpRef};
ghost use Rattle.meaning.specs.Machine.{Item, Block, trace};
ghost use Rattle.meaning.specs.Code.{Code, SameNamed, SameCode, IsDistinctNames, names_of, under};
ghost use Rattle.meaning.specs.Shape.{SameShape};
ghost use Rattle.meaning.specs.Woven.{WovenLaw, WovenFirstLaw};
ghost use Rattle.meaning.specs.Examples.{same_places};
ghost use Rattle.meaning.specs.Llvm as llvm;
ghost use Rattle.meaning.specs.Llvm.{Key, same_key};
ghost use Rattle.meaning.specs.Dialect as dialect;
ghost use Rattle.meaning.specs.Dialect.{same_value};
ghost use Rattle.meaning.specs.Dialect.{predicate_of};
ghost use Rattle.dialect_core.specs.declared.ops.Value.{Value};
ghost use Rattle.dialect_core.specs.declared.predicates.ICmpPredicateAttr.{ICmpPredicateAttr};
ghost use Rattle.kinds.specs.declared.op.LLVMIntPredicate.{LLVMIntPredicate};

/// Modules whose entries match one by one, under one name each and no name twice, have the same code.
pub fn same_code_law()
    ensures { (match : Match) → (a b : Code) → IsDistinctNames (names_of a) → Matched (SameNamed match) a.entries b.entries → SameCode match a b }
{}

/// A function of the dialect that stands for one of LLVM gives its blocks and events, under the
/// match, for every list of branch choices. Each is run in the setting that its own module makes.
pub fn same_shape_law()
    ensures { (match : Match) → (a : Setting) → (f : Function) → (b : Setting) → (g : Func) → SameShape match a f b g → (choices : List ℕ) → map (under match f.name) ((llvm.body a f).trace choices) ≡ (dialect.body b g).trace choices }
{}

/// The same where rows for constants stand at any places of any blocks, for every list of choices by which the
/// function of the dialect reads no unset value: a constant may there be read before it is set, which none of LLVM is.
pub fn woven_law()
    ensures { WovenLaw }
{}

/// And for every list of choices, where the first block sets every constant before what reads it.
pub fn woven_first_law()
    ensures { WovenFirstLaw }
{}

/// A function of a context whose values are its own has the body, and so the traces, that it has by itself: the context
/// gives its values the types that it gives them.
pub fn own_values_law()
    ensures { (setting : Setting) → (c : ContextData) → (f : OpRef) → (g : Func) → func_in (type_trees c.types) c f ≡ Some g → HasOwnValues g → dialect.typed_body setting (type_in c) g ≡ dialect.body setting g }
{}

/// A match that leaves all where it is changes nothing.
pub fn same_places_law()
    ensures { (n : List ℕ) → (items : List Item) → map (under same_places n) items ≡ items }
{}

/// On both sides the trace of the first choices is the first part of the trace of all.
pub fn prefix_law()
    ensures llvm { (start : Key → Term) → (code : List (Block Key)) → (cs ds : List ℕ) → (more : List Item) × (trace Key same_key start code (cs ++ ds) ≡ trace Key same_key start code cs ++ more) }
    ensures dialect { (start : Value → Term) → (code : List (Block Value)) → (cs ds : List ℕ) → (more : List Item) × (trace Value same_value start code (cs ++ ds) ≡ trace Value same_value start code cs ++ more) }
{}

/// Each predicate of LLVM is that of one of the dialect, and of no other. So who turns one into the other and back, by
/// this pairing, has what was given.
pub fn predicates_law()
    ensures one_to_one { (p q : ICmpPredicateAttr) → predicate_of p ≡ predicate_of q → p ≡ q }
    ensures onto { (q : LLVMIntPredicate) → (p : ICmpPredicateAttr) × (predicate_of p ≡ q) }
{}

/// The constant of LLVM with another element at one place has the term into which that of the element is put: what a
/// constant opens into is folded up again on terms as it is on constants.
pub fn inserted_law()
    ensures { (structs : List Struct) → (c : ConstTree) → (place : ℕ) → (x d : ConstTree) → (setting : Setting) → IsFormConst c → HasElements structs c → MayStand structs (const_type c) place x → inserted structs c place x ≡ Some d → put structs (llvm.const_term setting c) ((const_type c, place) ∷ []) (llvm.const_term setting x) ≡ llvm.const_term setting d }
{}
