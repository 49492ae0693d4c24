//! What the definitions give, for every module.

ghost use Rattle.std.specs.Prelude.{ℕ, List};
ghost use Rattle.llvm_core.specs.declared.code.LLVMValue.{LLVMValue};
ghost use Rattle.llvm_core.specs.Data.{ModuleData};
ghost use Rattle.held_types.specs.Held.{AreHeld, HasWideConst};
ghost use Rattle.from_consts.specs.declared.conversion_err.Unsupported.{Unsupported};
ghost use Rattle.from_llvm_ir.specs.Refusals.{HasUndefinedUse, IsUnsupported, IsValid};

/// A module whose uses are valid has none that is refused.
pub fn valid_law()
    ensures { (d : ModuleData) → IsValid d → (name : List ℕ) → (v : LLVMValue) → ¬ HasUndefinedUse d name v }
{}

/// A module that is held has nothing that is not translated, and no constant that is too wide.
pub fn held_law()
    ensures supported { (d : ModuleData) → AreHeld d → (u : Unsupported) → ¬ IsUnsupported d u }
    ensures short { (d : ModuleData) → AreHeld d → (width : ℕ) → ¬ HasWideConst d width }
{}
