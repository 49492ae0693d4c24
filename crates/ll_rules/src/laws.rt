//! What holds of the grammar of LLVM text.

ghost use Rattle.grammars.specs.Right.{IsRight};
ghost use Rattle.ll_rules.specs.Llvm.{llvm, llvm_tables};

/// What the tables claim of the grammar holds, so by it tokens are read in one way.
pub fn llvm_is_right()
    ensures { IsRight llvm llvm_tables }
{}
