//! Laws of the form and of well-formed modules, on functions that make no call.

ghost use Rattle.std.specs.Prelude.{◌≡◌, ◌≤◌, ℕ, All, Some, length};
ghost use Rattle.dialect_types.specs.Trees.{type_trees, structs_of, IsStored};
ghost use Rattle.dialect_core.specs.declared.numbers.OpRef.{OpRef};
ghost use Rattle.dialect_core.specs.declared.ops.OpKind.TheVariants as kinds;
ghost use Rattle.dialect_core.specs.ContextData.{ContextData, AreRegions, IsSymbol, holder_at, kind_at, region_at};
ghost use Rattle.dialect_core.specs.Data.{Func, llvm_name_of, data_of, func_in, held, type_in, value_type, IsTyped};
ghost use Rattle.dialect_core.specs.Form.{HasOwnValues, IsFormFunc, IsRuled, LeadsToOwn};
ghost use Rattle.dialect_core.specs.Nested.{AreNested};
ghost use Rattle.dialect_core.specs.WellFormed.{HasFirstClassArgs, HasNamesApart, IsFew, IsFewFunc, IsNarrowFunc, IsOpenForm, IsPlainAt, IsWellFormed, IsWellFormedFunc};

/// A well-formed function that is narrow is of the form, where the types of its values are those that itself gives.
pub fn form_law()
    ensures { (g : Func) → IsWellFormedFunc (value_type g) g → IsNarrowFunc g → IsFormFunc g }
{}

/// A function of the form is well-formed, with the types that itself gives its values.
pub fn well_law()
    ensures { (g : Func) → IsFormFunc g → IsWellFormedFunc (value_type g) g }
{}

/// A function of the context that is well-formed and narrow, and whose values are its own, is of the form.
pub fn own_law()
    ensures { (c : ContextData) (f : OpRef) (g : Func) → func_in (type_trees c.types) c f ≡ Some g → HasOwnValues g → IsOpenForm c g → IsFormFunc g }
{}

/// A function of the context that is of the form, whose edges lead to blocks of its own, and whose constants keep the rules
/// of constants, is well-formed there, and narrow.
pub fn open_law()
    ensures { (c : ContextData) (f : OpRef) (g : Func) → func_in (type_trees c.types) c f ≡ Some g → LeadsToOwn g → IsFormFunc g → IsRuled (structs_of c.types) g → IsOpenForm c g }
{}

/// Where the functions of a module are well-formed and their edges lead to blocks of their own, no edge goes to the first
/// block of any region: so with the other rules of a module, it is well-formed.
pub fn own_edges_law()
    ensures { (c : ContextData) (m : ℕ) → AreRegions (region_at c.ops) (holder_at c.blocks) → ((o : OpRef) → kind_at c.ops o ≡ Some kinds.Func → IsSymbol c.ops o) → kind_at c.ops (record { 0 = m }) ≡ Some kinds.Module → length (region_at c.ops m) ≤ 1 → All (HasFirstClassArgs c) (region_at c.ops m) → All (λ o. kind_at c.ops o ≡ Some kinds.Func) (held c m) → All (λ o. All (IsPlainAt c) (held c o.0)) (held c m) → All (IsWellFormedFunc (type_in c)) (data_of c m).functions → All LeadsToOwn (data_of c m).functions → HasNamesApart (λ g. g.name) (data_of c m).functions → HasNamesApart llvm_name_of (data_of c m).functions → IsFew (held c m) → All (IsFewFunc c) (held c m) → IsWellFormed c m }
{}

/// Each type that the data of a module of a typed context name nests no deeper than is allowed, through the fields of the
/// context's structs too: those of functions, of the arguments of blocks, and of results.
pub fn nested_law()
    ensures { (c : ContextData) (m : ℕ) → IsStored c.types → IsTyped c → AreNested (structs_of c.types) (data_of c m) }
{}
