//! What holds of every text.

ghost use Rattle.std.specs.Prelude.{◌≡◌, ℕ, List};
ghost use Rattle.llvm_core.specs.Data.{ModuleData};
ghost use Rattle.ll_said.specs.Numbered.{numbered};
ghost use Rattle.ll_text.specs.Spelling.{Means, Spells};

/// A text means the data of one module at most, so it spells one at most, once its parts are numbered in order.
pub fn one_module()
    ensures meant { (bytes : List ℕ) (d e : ModuleData) → Means bytes d → Means bytes e → d ≡ e }
    ensures spelled { (bytes : List ℕ) (d e : ModuleData) → Spells bytes d → Spells bytes e → numbered d ≡ numbered e }
{}
