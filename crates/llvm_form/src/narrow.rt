//! Whether names are good, and types those of values.

ghost use Rattle.std.specs.Prelude.{◌≡◌};
ghost use Rattle.llvm_core.specs.Checked.{is_void};
ghost use Rattle.llvm_form.specs.Narrow.{is_first_class_kind, is_good_or_none, is_returned_kind};

use kinds::fitting::{is_first_class, is_nothing};
use kinds::names::is_good_name;
use llvm_core::module::shape_of;
use llvm_core::types::LLVMTypeKind;

/// Whether a name is one that a text can say, or none.
pub fn is_good_or_none(name: &str) -> bool
    ensures { result ≡ is_good_or_none name.now }
{
    name.is_empty() || is_good_name(name)
}

/// Whether a type is one of a value, of a width or an address space that there is.
pub fn is_first_class_kind(kind: &LLVMTypeKind) -> bool
    ensures { result ≡ is_first_class_kind kind.now }
{
    is_first_class(shape_of(kind))
}

/// Whether a type is that of no value.
pub fn is_void(kind: &LLVMTypeKind) -> bool
    ensures { result ≡ is_void kind.now }
{
    is_nothing(shape_of(kind))
}

/// Whether a type is what a function of the form returns.
pub fn is_returned_kind(kind: &LLVMTypeKind) -> bool
    ensures { result ≡ is_returned_kind kind.now }
{
    is_void(kind) || is_first_class_kind(kind)
}
