//! The types of a context, read and lent.

ghost use Rattle.std.specs.Prelude.{◌≡◌};
ghost use Rattle.std.specs.Borrow.{sem};
ghost use Rattle.dialect_core.specs.Lending.{LendsTypes};

use super::Context;
use dialect_types::type_store::TypeStore;

impl Context {
    /// The types.
    pub fn types(&self) -> &TypeStore
        ensures { result.now ≡ self.now.types }
    {
        &self.types
    }

    /// The types, to ask for more of them. The caller may leave any store there, and nothing else changes.
    pub fn types_mut(&mut self) -> &mut TypeStore
        ensures* writes_back { sem 𝓛 (LendsTypes self.entry result) }
        ensures value { result.now ≡ self.old.types }
    {
        &mut self.types
    }
}
