//! Laws of modules, of those of the form above all, each on a function that makes no call.

ghost use Rattle.std.specs.Prelude.{◌≡◌, ℕ, Some, slice_get};
ghost use Rattle.llvm_core.specs.Module.{Module};
ghost use Rattle.llvm_core.specs.declared.consts.LLVMConstKind.{LLVMConstKind};
ghost use Rattle.llvm_core.specs.Kept.{IsKept};
ghost use Rattle.llvm_core.specs.Sound.{IsModule};
ghost use Rattle.llvm_core.specs.Data.{data_of, AreApart};
ghost use Rattle.llvm_core.specs.Checked.{IsChecked};
ghost use Rattle.llvm_core.specs.Form.{IsForm, IsNarrow, HasDistinctNames, HasFew};

/// A module of the form whose names are distinct and whose lists are short meets every rule.
pub fn form_is_checked()
    ensures { (m : Module) → IsModule m → AreApart m → IsForm (data_of m) → HasDistinctNames (data_of m) → HasFew (data_of m) → IsChecked m }
{}

/// A checked module of plain names and narrow types is of the form.
pub fn checked_is_form()
    ensures { (m : Module) → IsModule m → AreApart m → IsChecked m → IsNarrow (data_of m) → IsForm (data_of m) }
{}

/// The names of a checked module are distinct, and its lists are short.
pub fn checked_is_distinct()
    ensures distinct { (m : Module) → IsModule m → IsChecked m → HasDistinctNames (data_of m) }
    ensures few { (m : Module) → IsModule m → IsChecked m → HasFew (data_of m) }
{}

/// What a module keeps has none of the spellings that the one form of constants rules out: no list of only zeros, and so on.
pub fn kept_constants()
    ensures { (m : Module) → IsModule m → (c : ℕ) (k : LLVMConstKind) → slice_get m.consts c ≡ Some k → IsKept m k }
{}
