//! Where types were found before in the module that is built, so that they are not looked for by hash again.

ghost use Rattle.std.specs.Prelude.{◌≡◌, ◌<◌, IfOk, IsTrue, Some, length, slice_get};
ghost use Rattle.support.specs.Interned.{Interned};
ghost use Rattle.llvm_core.specs.Data as lists;
ghost use Rattle.llvm_core.specs.Parts.{HasFitParts, IsTypeOver};
ghost use Rattle.llvm_core.specs.Sound.{IsModule};

use dialect_types::types::TypeHandle;
use llvm_core::module::LLVMModule;
use llvm_core::numbers::LLVMType;
use llvm_core::types::LLVMTypeKind;
use std::alloc::AllocError;

/// How many guesses there are.
const COUNT: u32 = 64;

/// For types of the dialect the numbers under which LLVM's were found last. A number is only a guess, and is tested before
/// it is used: two types of the dialect may share one.
#[derive(Drop)]
pub struct Guesses {
    numbers: [LLVMType; 64],
}

impl Guesses {
    /// Guesses of which none is better than another.
    pub fn new() -> Guesses {
        Guesses {
            numbers: [LLVMType(0); 64],
        }
    }

    /// The number of the type equal to `kind`, new or old. The guess is that for the type `ty` of the dialect.
    pub fn type_get(
        &mut self,
        ty: TypeHandle,
        kind: LLVMTypeKind,
        back: &mut LLVMModule,
    ) -> Result<LLVMType, AllocError>
        requires parts { IsTypeOver (length back.old.types) kind }
        requires fit { HasFitParts back.old.types kind }
        ensures interned { IfOk result (λ t. Interned back.old.types back.new.types kind t.0) }
        ensures rest { back.new ≡ record back.old { types = back.new.types } }
        ensures data { lists.data_of back.new ≡ lists.data_of back.old }
        ensures sound { IsModule back.new }
    {
        let at = (ty.0 % COUNT) as usize;
        let guess = self.numbers[at];
        if is_type(back, guess, &kind) {
            return Ok(guess);
        }
        let number = back.type_get(kind)?;
        self.numbers[at] = number;
        Ok(number)
    }
}

/// Whether the type of a number is equal to `kind`.
fn is_type(back: &LLVMModule, ty: LLVMType, kind: &LLVMTypeKind) -> bool
    ensures yes { IsTrue result → slice_get back.now.types ty.0 ≡ Some kind.now }
    ensures sound { IsModule back.now }
{
    ty.0 < back.types() && back.type_kind(ty) == kind
}
